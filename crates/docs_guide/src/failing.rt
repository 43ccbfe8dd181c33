//! A stream that may fail: lines of a text, of which one may be bad.

use std::alloc::Global;
use tabled::TableError;
use tabled::iter::TryRows;
use tabled::tables::IterTable;

/// A row, or the number of a line that is none.
type Row = Result<Vec<String>, usize>;

/// The lines `name=value` of a text, as rows.
fn rows_of(alloc: Global, text: &str) -> Result<Vec<Row>, TableError> {
    let mut rows = Vec::new(alloc);
    for (line, number) in text.lines().zip(1..usize::MAX) {
        rows.push(row_of(alloc, line, number)?)?;
    }
    Ok(rows)
}

fn row_of(alloc: Global, line: &str, number: usize) -> Result<Row, TableError> {
    let Some((name, value)) = line.split_once('=') else {
        return Ok(Err(number));
    };
    let mut row = Vec::new(alloc);
    row.push(String::from_str(alloc, name)?)?;
    row.push(String::from_str(alloc, value)?)?;
    Ok(Ok(row))
}

/// Prints the lines before the first bad one, and then its number.
pub fn printed(alloc: Global, text: &str) -> Result<String, TableError> {
    let rows = rows_of(alloc, text)?;
    let mut out = String::new(alloc);
    let table = IterTable::new(TryRows::new(rows.into_iter()));
    let (printed, read) = table.try_fmt(alloc, &mut out);
    printed?;
    if let Err(number) = read {
        write!(out, "\nline {number} is no pair")?;
    }
    Ok(out)
}
