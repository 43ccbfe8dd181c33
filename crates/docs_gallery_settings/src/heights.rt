//! Heights of tables and of cells. The lines of a table include its borders.

use tabled::settings::Height;
use tabled::settings::object::{Columns, Rows};
use tabled::settings::peaker::Priority;
use tabled::{Table, TableError};

/// A lower table grows: each row in turn gets one more line.
pub fn increased(table: &mut Table) -> Result<(), TableError> {
    table.with(Height::increase(9))?;
    Ok(())
}

/// A lower table grows in its last row alone.
pub fn last_increased(table: &mut Table) -> Result<(), TableError> {
    table.with(Height::increase(9).priority(Priority::right()))?;
    Ok(())
}

/// A higher table shrinks: its texts keep their first lines. With `max` the highest row gives
/// first.
pub fn limited(table: &mut Table) -> Result<(), TableError> {
    table.with(Height::limit(6).priority(Priority::max(true)))?;
    Ok(())
}

/// The cells of a part get empty lines.
pub fn cells_increased(table: &mut Table) -> Result<(), TableError> {
    table.modify(Rows::last(), Height::increase(2))?;
    Ok(())
}

/// The cells of a part keep their first lines.
pub fn cells_limited(table: &mut Table) -> Result<(), TableError> {
    table.modify(Columns::last(), Height::limit(2))?;
    Ok(())
}

/// A height for each row.
pub fn listed(table: &mut Table) -> Result<(), TableError> {
    let alloc = table.get_dimension().allocator();
    table.with(Height::list(alloc, [3, 2])?)?;
    Ok(())
}
