//! Tests `build` over writers that never fail: no error is the writer's.

use crate::try_rows::{Row, rows};
use std::alloc::Global;
use std::io;
use std::io::Write;
use std::test::Fail;
use tabled::tables::CompactTable;
use tabled_base::TableError;
use tabled_table::IterTable;

// Takes at most `step` bytes a call.
#[derive(Drop)]
struct Patient {
    taken: Vec<u8>,
    step: usize,
}

impl Write for Patient {
    fn write(&mut self, buf: &[u8]) -> io::Result<usize> {
        let count = buf.len().min(self.step);
        self.taken.extend_from_slice(&buf[..count])?;
        Ok(count)
    }

    fn flush(&mut self) -> io::Result<()> {
        Ok(())
    }
}

const PAIRS: [[&str; 2]; 2] = [["a", "bb"], ["ccc", ""]];

const FAILING: &[Row] = &[Ok(["a", "bb"]), Ok(["ccc", ""]), Err(7)];

const PICTURE: &str = "\
+-----+----+
| a   | bb |
+-----+----+
| ccc |    |
+-----+----+";

const COMPACT: &str = "\
+-----+-----+
| a   | bb  |
|-----+-----|
| ccc |     |
+-----+-----+";

const CUT: &str = "\
+---+---+
| a | b |
+---+---+
| c |   |
+---+---+";

// Builds a compact table of a width.
fn compact(width: usize, out: &mut Patient) -> Result<(), TableError> {
    CompactTable::new(PAIRS).columns(2).width(width).build(out)
}

// Builds a compact table that lacks a width.
fn short(out: &mut Patient) -> Result<(), TableError> {
    CompactTable::new(PAIRS).columns(3).width([5, 5]).build(out)
}

// Builds a streamed table, whose columns may have a width.
fn stream(alloc: Global, width: Option<usize>, out: &mut Patient) -> Result<(), TableError> {
    let mut table = IterTable::new(PAIRS);
    if let Some(width) = width {
        table.width(width);
    }
    table.build(alloc, out)
}

// Builds a streamed table of rows, the last of which fails.
fn failing(
    alloc: Global,
    out: &mut Patient,
) -> Result<(Result<(), TableError>, Result<(), u8>), TableError> {
    Ok(IterTable::new(rows(alloc, FAILING)?).try_build(alloc, out))
}

fn new_writer(alloc: Global, step: usize) -> Patient {
    Patient {
        taken: Vec::new(alloc),
        step,
    }
}

const STEPS: [usize; 3] = [1, 7, usize::MAX];

#[test]
fn compact_tables_have_no_failed_write(rt: HostRuntime) -> Result<(), Fail> {
    for step in STEPS {
        let mut out = new_writer(rt.alloc(), step);
        assert_eq!(rt; compact(5, &mut out), Ok(()));
        assert_eq!(rt; str::from_utf8(out.taken.as_slice())?, COMPACT);
        let mut out = new_writer(rt.alloc(), step);
        assert_eq!(rt; compact(usize::MAX, &mut out), Err(TableError::Range));
        assert_eq!(rt; short(&mut out), Err(TableError::ShortWidths));
        assert!(rt; out.taken.is_empty());
    }
    Ok(())
}

#[test]
fn streamed_tables_have_no_failed_write(rt: HostRuntime) -> Result<(), Fail> {
    for (width, text) in [(None, PICTURE), (Some(1), CUT)] {
        for step in STEPS {
            let mut out = new_writer(rt.alloc(), step);
            assert_eq!(rt; stream(rt.alloc(), width, &mut out), Ok(()));
            assert_eq!(rt; str::from_utf8(out.taken.as_slice())?, text);
        }
    }
    let mut out = new_writer(rt.alloc(), 1);
    let answer = stream(rt.alloc(), Some(usize::MAX), &mut out);
    assert_eq!(rt; answer, Err(TableError::Range));
    assert!(rt; out.taken.is_empty());
    Ok(())
}

#[test]
fn rows_that_fail_are_no_failed_write(rt: HostRuntime) -> Result<(), Fail> {
    for step in STEPS {
        let mut out = new_writer(rt.alloc(), step);
        assert_eq!(rt; failing(rt.alloc(), &mut out)?, (Ok(()), Err(7)));
        assert_eq!(rt; str::from_utf8(out.taken.as_slice())?, PICTURE);
    }
    Ok(())
}
