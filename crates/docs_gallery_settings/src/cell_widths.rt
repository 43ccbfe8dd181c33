//! Widths of cells. An option of a part changes the texts of its cells, however wide the table
//! then is.

use tabled::settings::Width;
use tabled::settings::measurement::{Max, Min};
use tabled::settings::object::{Columns, Segment};
use tabled::settings::width::Justify;
use tabled::{Table, TableError};

/// The cells of a column, wrapped.
pub fn wrapped(table: &mut Table) -> Result<(), TableError> {
    table.modify(Columns::last(), Width::wrap(12).keep_words(true))?;
    Ok(())
}

/// The cells of a column, cut, with a suffix.
pub fn truncated(table: &mut Table) -> Result<(), TableError> {
    table.modify(Columns::last(), Width::truncate(12).suffix(".."))?;
    Ok(())
}

/// Each line of a cell is cut. Its shorter lines get the suffix too.
pub fn lines_truncated(table: &mut Table) -> Result<(), TableError> {
    let narrow = Width::truncate(4).suffix("~").multiline(true);
    table.modify(Columns::last(), narrow)?;
    Ok(())
}

/// The cells of a column, filled up.
pub fn increased(table: &mut Table) -> Result<(), TableError> {
    table.modify(Segment::all(), Width::increase(9).fill_with('.'))?;
    Ok(())
}

/// All cells of one width: narrower ones are filled up, wider ones cut.
pub fn justified(table: &mut Table) -> Result<(), TableError> {
    table.with(Width::justify(6))?;
    Ok(())
}

/// All cells as wide as the widest.
pub fn justified_to_the_widest(table: &mut Table) -> Result<(), TableError> {
    table.with(Justify::max())?;
    Ok(())
}

/// All cells as wide as the widest of the narrowest cells of each row.
pub fn justified_to_the_narrowest(table: &mut Table) -> Result<(), TableError> {
    table.with(Justify::min())?;
    Ok(())
}

/// A width that is measured in the table: `Max` is that of the widest cell, `Min` as above, and
/// `Percent` a share.
pub fn measured(table: &mut Table) -> Result<(), TableError> {
    table.modify(Columns::last(), Width::truncate(Min))?;
    table.modify(Columns::first(), Width::increase(Max).fill_with('.'))?;
    Ok(())
}

/// A width for each column, padding included.
pub fn listed(table: &mut Table) -> Result<(), TableError> {
    let alloc = table.get_dimension().allocator();
    table.with(Width::list(alloc, [12, 9])?)?;
    Ok(())
}
