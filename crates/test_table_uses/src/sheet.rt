//! Test tables as data.

use std::alloc::Global;
use tabled_base::{Builder, TableError};
use tabled_config::{Indent, Sides, SpannedConfig};
use tabled_size::CompleteDimension;
use tabled_table::Table;

/// Rows of strings.
pub type Rows = &'static [&'static [&'static str]];

/// Sizes to store, if any.
pub type Sizes = Option<&'static [usize]>;

/// Rows, a left margin in columns, and stored sizes.
#[derive(Clone, Copy)]
pub struct Sheet {
    pub rows: Rows,
    pub margin: usize,
    pub widths: Sizes,
    pub heights: Sizes,
}

/// The cells `a` and `bb`, and below them `ccc` and an empty one.
pub const PAIRS: Sheet = Sheet {
    rows: &[&["a", "bb"], &["ccc", ""]],
    margin: 0,
    widths: None,
    heights: None,
};

fn set_margin(config: &mut SpannedConfig, columns: usize) {
    let none = Indent::zero();
    config.set_margin(Sides::new(Indent::spaced(columns), none, none, none));
}

fn store(
    alloc: Global,
    dimension: &mut CompleteDimension,
    widths: Sizes,
    heights: Sizes,
) -> Result<(), TableError> {
    if let Some(list) = widths {
        dimension.set_widths(Vec::from_slice(alloc, list)?);
    }
    if let Some(list) = heights {
        dimension.set_heights(Vec::from_slice(alloc, list)?);
    }
    Ok(())
}

fn prepare(alloc: Global, table: &mut Table, sheet: &Sheet) -> Result<(), TableError> {
    set_margin(table.get_config_mut().as_mut(), sheet.margin);
    store(
        alloc,
        table.get_dimension_mut(),
        sheet.widths,
        sheet.heights,
    )
}

fn built(alloc: Global, rows: Rows) -> Result<Builder, TableError> {
    let mut builder = Builder::new(alloc);
    for row in rows {
        builder.add_record(row.iter().copied())?;
    }
    Ok(builder)
}

/// Returns the table of a sheet.
pub fn table_of(alloc: Global, sheet: &Sheet) -> Result<Table, TableError> {
    let mut table = Table::from(built(alloc, sheet.rows)?);
    prepare(alloc, &mut table, sheet)?;
    Ok(table)
}
