//! Parts of a table. An object names the part that an option changes. Here the option is a
//! padding of marks.

use tabled::settings::object::{Cell, Columns, Rows, Segment};
use tabled::settings::{Alignment, Modify, Padding, Settings};
use tabled::{Table, TableError};

fn marks() -> Padding {
    Padding::new(1, 1, 0, 0).fill('>', '<', ' ', ' ')
}

/// A row, by its index. `Rows::first()` is row 0.
pub fn row(table: &mut Table) -> Result<(), TableError> {
    table.modify(Rows::one(1), marks())?;
    Ok(())
}

/// The last row.
pub fn last_row(table: &mut Table) -> Result<(), TableError> {
    table.modify(Rows::last(), marks())?;
    Ok(())
}

/// A column, by its index. `Columns::first()` is column 0.
pub fn column(table: &mut Table) -> Result<(), TableError> {
    table.modify(Columns::one(0), marks())?;
    Ok(())
}

/// The last column.
pub fn last_column(table: &mut Table) -> Result<(), TableError> {
    table.modify(Columns::last(), marks())?;
    Ok(())
}

/// A cell, by its row and column. A pair of numbers does the same.
pub fn cell(table: &mut Table) -> Result<(), TableError> {
    table.modify(Cell::new(1, 0), marks())?;
    table.modify((2, 1), marks())?;
    Ok(())
}

/// The whole table, as one part.
pub fn whole_table(table: &mut Table) -> Result<(), TableError> {
    table.modify(Segment::all(), marks())?;
    Ok(())
}

/// Each cell of a range of rows and a range of columns.
pub fn segment(table: &mut Table) -> Result<(), TableError> {
    table.modify(Segment::new(1.., ..1), marks())?;
    Ok(())
}

/// A part outside of the table names no cell.
pub fn outside(table: &mut Table) -> Result<(), TableError> {
    table.modify(Rows::one(7), marks())?;
    Ok(())
}

/// Two parts, one after the other.
pub fn union(table: &mut Table) -> Result<(), TableError> {
    table.modify(Cell::new(0, 0).and(Columns::last()), marks())?;
    Ok(())
}

/// A part with its option, as an option of the table.
pub fn modified(table: &mut Table) -> Result<(), TableError> {
    table.with(Modify::new(Columns::last()).with(Alignment::right()))?;
    Ok(())
}

/// Two options as one.
pub fn settings(table: &mut Table) -> Result<(), TableError> {
    let narrow = Settings::new(Padding::zero(), Alignment::right());
    table.modify(Rows::first(), narrow)?;
    Ok(())
}
