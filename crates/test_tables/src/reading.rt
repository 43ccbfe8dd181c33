//! Tests how many rows an `IterTable` takes from its source.
ghost use Rattle.std.specs.Prelude.{[], ◌∷◌};

use std::alloc::Global;
use std::io;
use std::io::Write;
use std::test::Fail;
use std::vec::IntoIter;
use tabled_base::{CellText, TableError};
use tabled_line::IoSink;
use tabled_table::IterTable;

// Accepts `left` more bytes.
#[derive(Drop)]
pub struct Narrow {
    pub left: usize,
}

impl Write for Narrow {
    fn write(&mut self, buf: &[u8]) -> io::Result<usize> {
        let count = buf.len().min(self.left);
        self.left -= count;
        Ok(count)
    }

    fn flush(&mut self) -> io::Result<()> {
        Ok(())
    }
}

// A cell without borrowed data, so that the table can borrow the iterator of its rows.
#[derive(Drop, Clone, Copy)]
pub struct Word {}

impl CellText for Word {
    ghost text = { λ _. 114 ∷ 111 ∷ 119 ∷ [] };

    fn text(&self) -> &str {
        "row"
    }
}

pub type Source = IntoIter<[Word; 2]>;

pub fn thousand(alloc: Global) -> Result<Source, TableError> {
    Ok(vec![in alloc; [Word {}, Word {}]; 1000]?.into_iter())
}

// Returns the number of rows left in the source.
fn left(alloc: Global, sniffed: usize, shown: usize) -> Result<usize, TableError> {
    let mut rows = thousand(alloc)?;
    let mut table = IterTable::new(&mut rows);
    table.sniff(sniffed).rows(shown);
    let mut text = String::new(alloc);
    table.fmt(alloc, &mut text)?;
    Ok(rows.len())
}

// Rows sniffed, rows shown, and rows left in the source.
const LEFT: [(usize, usize, usize); 4] = [(0, 0, 1000), (2, 3, 997), (2, 1, 998), (1, 900, 100)];

#[test]
fn no_row_is_taken_that_is_neither_sniffed_nor_shown(rt: HostRuntime) -> Result<(), Fail> {
    for (sniffed, shown, rows) in LEFT {
        assert_eq!(rt; left(rt.alloc(), sniffed, shown)?, rows);
    }
    Ok(())
}

// Prints to a writer that fails after `bytes` bytes, and returns the number of rows left.
fn left_behind(rows: &mut Source, alloc: Global, bytes: usize) -> (Result<(), TableError>, usize) {
    let mut table = IterTable::new(&mut *rows);
    table.sniff(1);
    let outcome = table.fmt(alloc, &mut IoSink::new(Narrow { left: bytes }));
    (outcome, rows.len())
}

// Bytes that the writer accepts, and rows left in the source.
const TAKEN: [(usize, usize); 3] = [(0, 999), (54, 998), (55, 997)];

// Two rows and the horizontal lines above them take 55 bytes: four lines of 13, and three line
// feeds.
#[test]
fn a_row_is_taken_once_the_lines_above_it_are_out(rt: HostRuntime) -> Result<(), Fail> {
    for (bytes, rows) in TAKEN {
        let mut source = thousand(rt.alloc())?;
        let found = left_behind(&mut source, rt.alloc(), bytes);
        assert_eq!(rt; found, (Err(TableError::Writer), rows), "at {bytes}");
    }
    Ok(())
}

// Prints `count` rows of one letter, and then a row of two.
fn widened(alloc: Global, count: usize) -> Result<String, TableError> {
    let mut rows = vec![in alloc; ["a"]; count]?;
    rows.push(["bb"])?;
    IterTable::new(rows).to_string(alloc)
}

// By default 1,000 rows are sniffed, so that row 1,001 is cut to their width.
#[test]
fn a_thousand_rows_are_sniffed(rt: HostRuntime) -> Result<(), Fail> {
    let text = widened(rt.alloc(), 1000)?;
    assert!(rt; text.as_str().ends_with("| a |\n+---+\n| b |\n+---+"));
    let text = widened(rt.alloc(), 999)?;
    assert!(rt; text.as_str().ends_with("| a  |\n+----+\n| bb |\n+----+"));
    Ok(())
}
