//! Printers that read row by row. An `IterTable` reads some rows ahead, measures them, and
//! cuts each cell to its column. A `CompactTable` reads no row ahead, so its widths come
//! first: from you, or from an array.

use std::alloc::Global;
use tabled::TableError;
use tabled::settings::{Alignment, Settings, Style};
use tabled::tables::{CompactTable, IterTable};

const CITIES: [[&str; 2]; 3] = [
    ["Rome", "2746984"],
    ["Paris", "2103778"],
    ["Oslo", "717710"],
];

/// A thousand rows are read ahead.
pub fn whole(alloc: Global) -> Result<String, TableError> {
    let table = IterTable::new(CITIES);
    table.to_string(alloc)
}

/// One row is read ahead. Later cells are cut to its widths.
pub fn sniffed(alloc: Global) -> Result<String, TableError> {
    let mut table = IterTable::new(CITIES);
    table.sniff(1);
    table.to_string(alloc)
}

/// A mark ends each cell that is cut.
pub fn marked(alloc: Global) -> Result<String, TableError> {
    let mut table = IterTable::new(CITIES);
    table.sniff(1).cut_mark('…');
    table.to_string(alloc)
}

/// A width for the texts of all columns, and a height for all rows.
pub fn sized(alloc: Global) -> Result<String, TableError> {
    let mut table = IterTable::new(CITIES);
    table.width(3).height(2).rows(2);
    table.to_string(alloc)
}

/// At most two rows and one column, in a style.
pub fn limited(alloc: Global) -> Result<String, TableError> {
    let mut table = IterTable::new(CITIES);
    table.rows(2).columns(1).with(Style::modern())?;
    table.to_string(alloc)
}

/// A style, and all texts at the right.
pub fn aligned(alloc: Global) -> Result<String, TableError> {
    let mut table = IterTable::new(CITIES);
    table.with(Settings::new(Style::modern(), Alignment::right()))?;
    table.to_string(alloc)
}

/// A `CompactTable` of an array: each column is as wide as its widest cell.
pub fn fitting(alloc: Global) -> Result<String, TableError> {
    let table = CompactTable::from(CITIES);
    table.with(Style::psql())?.to_string(alloc)
}

/// The same, with all texts at the right.
pub fn fitting_right(alloc: Global) -> Result<String, TableError> {
    let table = CompactTable::from(CITIES);
    table.with(Alignment::right())?.to_string(alloc)
}

/// A width for each column.
pub fn compact(alloc: Global) -> Result<String, TableError> {
    let table = CompactTable::new(CITIES).columns(2);
    let table = table.width([7, 9]);
    table.with(Style::modern())?.to_string(alloc)
}

/// Rows are skipped, and then limited.
pub fn window(alloc: Global) -> Result<String, TableError> {
    let table = CompactTable::new(CITIES).columns(2).skip(1).rows(1);
    let table = table.width([7, 9]);
    table.to_string(alloc)
}

/// One width for all columns. A wider text is printed whole.
pub fn overfull(alloc: Global) -> Result<String, TableError> {
    let table = CompactTable::new(CITIES).columns(2).rows(2);
    table.width(6).to_string(alloc)
}
