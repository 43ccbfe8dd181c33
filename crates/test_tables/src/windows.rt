//! Tests how many rows a `CompactTable` takes from its source.

use crate::reading::{Narrow, Source, thousand};
use std::alloc::Global;
use std::test::Fail;
use tabled::tables::CompactTable;
use tabled_base::TableError;
use tabled_line::IoSink;

// Prints a window of the rows to a string.
fn formatted(alloc: Global, rows: &mut Source, window: (usize, usize)) -> Result<(), TableError> {
    let (skip, shown) = window;
    let table = CompactTable::new(&mut *rows).columns(2).width(5);
    table.skip(skip).rows(shown).fmt(&mut String::new(alloc))
}

// Prints a window of the rows to a writer.
fn built(alloc: Global, rows: &mut Source, window: (usize, usize)) -> Result<(), TableError> {
    let (skip, shown) = window;
    let table = CompactTable::new(&mut *rows).columns(2).width(5);
    let mut out: Vec<u8> = Vec::new(alloc);
    table.skip(skip).rows(shown).build(&mut out)
}

// Rows skipped and shown, and rows left in a source of a thousand.
const LEFT: [((usize, usize), usize); 9] = [
    ((0, 0), 1000),
    ((5, 0), 1000),
    ((0, 1), 999),
    ((0, 3), 997),
    ((2, 3), 995),
    ((0, 999), 1),
    ((998, 1), 1),
    ((998, 5), 0),
    ((1000, 1), 0),
];

#[test]
fn no_row_is_taken_after_the_last_wanted_one(rt: HostRuntime) -> Result<(), Fail> {
    for (window, left) in LEFT {
        let mut rows = thousand(rt.alloc())?;
        formatted(rt.alloc(), &mut rows, window)?;
        assert_eq!(rt; rows.len(), left, "at {window:?}");
        let mut rows = thousand(rt.alloc())?;
        built(rt.alloc(), &mut rows, window)?;
        assert_eq!(rt; rows.len(), left, "at {window:?}, built");
    }
    Ok(())
}

// Two rows and the horizontal lines above them take 55 bytes. Bytes that the writer accepts, and
// rows left in the source.
const STOPPED: [(usize, usize); 3] = [(0, 999), (54, 998), (55, 997)];

fn stopped(alloc: Global, bytes: usize) -> Result<(Result<(), TableError>, usize), TableError> {
    let mut rows = thousand(alloc)?;
    let table = CompactTable::new(&mut rows).columns(2).width(5);
    let outcome = table.fmt(&mut IoSink::new(Narrow { left: bytes }));
    Ok((outcome, rows.len()))
}

#[test]
fn no_row_is_taken_after_a_failed_write(rt: HostRuntime) -> Result<(), Fail> {
    for (bytes, left) in STOPPED {
        let found = stopped(rt.alloc(), bytes)?;
        assert_eq!(rt; found, (Err(TableError::Writer), left), "at {bytes}");
    }
    Ok(())
}

// Prints three rows after two, in columns that are too wide, and in too few widths.
fn refused(alloc: Global, rows: &mut Source, is_wide: bool) -> Result<(), TableError> {
    let table = CompactTable::new(&mut *rows).columns(2).skip(2).rows(3);
    let mut text = String::new(alloc);
    if is_wide {
        table.width(usize::MAX).fmt(&mut text)
    } else {
        table.width([5]).fmt(&mut text)
    }
}

#[test]
fn one_shown_row_is_taken_by_a_table_that_fails(rt: HostRuntime) -> Result<(), Fail> {
    for (is_wide, error) in [(true, TableError::Range), (false, TableError::ShortWidths)] {
        let mut rows = thousand(rt.alloc())?;
        assert_eq!(rt; refused(rt.alloc(), &mut rows, is_wide), Err(error));
        assert_eq!(rt; rows.len(), 997, "at {error}");
    }
    Ok(())
}
