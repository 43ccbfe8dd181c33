//! The tables of which pictures are made.

use std::alloc::Global;
use tabled::{Table, TableError};

/// The kinds of tables.
#[derive(Clone, Copy)]
pub enum Sample {
    Cities,
    Notes,
    Keys,
    Lines,
}

/// A new table of a kind.
pub fn table_of(alloc: Global, sample: Sample) -> Result<Table, TableError> {
    match sample {
        Sample::Cities => of_cities(alloc),
        Sample::Notes => of_notes(alloc),
        Sample::Keys => of_keys(alloc),
        Sample::Lines => of_lines(alloc),
    }
}

/// A table of cities and people.
fn of_cities(alloc: Global) -> Result<Table, TableError> {
    let rows = [("City", "People"), ("Paris", "2103778"), ("Oslo", "717710")];
    Table::nohead(alloc, rows)
}

/// A table of two longer texts.
fn of_notes(alloc: Global) -> Result<Table, TableError> {
    let rows = [
        ("Tab", "goes to the next field"),
        ("Esc", "leaves the prompt"),
    ];
    Table::nohead(alloc, rows)
}

/// A table of three columns.
fn of_keys(alloc: Global) -> Result<Table, TableError> {
    let rows = [
        ("in each text field", "Ctrl+Tab", "goes to the next field"),
        ("at the prompt", "Esc", "leaves it"),
    ];
    Table::nohead(alloc, rows)
}

/// A table of texts of one and of three lines.
fn of_lines(alloc: Global) -> Result<Table, TableError> {
    let rows = [("a", "one\nthree\nfive"), ("six", "two")];
    Table::nohead(alloc, rows)
}
