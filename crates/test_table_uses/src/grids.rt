//! Grids with stored and with estimated sizes.

use crate::sheet::{Sheet, table_of};
use std::alloc::Global;
use tabled_base::TableError;
use tabled_grid::{TextSink, print_grid};

// Prints the grid of a sheet with its stored sizes.
fn put_sheet<S: TextSink>(alloc: Global, sheet: &Sheet, sink: &mut S) -> Result<(), TableError> {
    let table = table_of(alloc, sheet)?;
    print_grid(
        sink,
        table.get_records(),
        table.get_config().as_ref(),
        table.get_dimension(),
    )
}

/// Prints a grid through a borrowed sink.
pub fn printed(alloc: Global, sheet: &Sheet) -> Result<String, TableError> {
    let mut text = String::new(alloc);
    let mut sink = &mut text;
    put_sheet(alloc, sheet, &mut sink)?;
    Ok(text)
}

/// Returns the result of printing a grid, and the number of bytes written.
pub fn answered(alloc: Global, sheet: &Sheet) -> (Result<(), TableError>, usize) {
    let mut sink = String::new(alloc);
    let answer = put_sheet(alloc, sheet, &mut sink);
    (answer, sink.len())
}

/// Prints the table of a sheet.
pub fn drawn(alloc: Global, sheet: &Sheet) -> Result<String, TableError> {
    table_of(alloc, sheet)?.to_string()
}
