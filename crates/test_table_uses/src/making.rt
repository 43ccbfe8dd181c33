//! Conversions between tables and builders, empty tables, and counts.

use crate::sheet::{Sheet, table_of};
use std::alloc::Global;
use tabled_base::{Builder, TableError};
use tabled_table::{LayoutIterator, Table};

/// Prints a table that was converted to a builder and back.
pub fn there_and_back(
    alloc: Global,
    values: [(&'static str, i32); 2],
) -> Result<String, TableError> {
    let builder = Table::builder(alloc, values)?;
    Table::from(Builder::from(Table::from(builder))).to_string()
}

/// Prints a table of no bytes, with its header.
pub fn of_no_values(alloc: Global) -> Result<String, TableError> {
    let values: [u8; 0] = [];
    Table::new(alloc, values)?.to_string()
}

/// Prints a table of no strings, without a header.
pub fn of_no_pairs(alloc: Global) -> Result<String, TableError> {
    let rows: [&str; 0] = [];
    Table::nohead(alloc, rows)?.to_string()
}

/// Rows and columns by `shape`, the same by the two counts, and whether the table is empty.
pub type Counts = ((usize, usize), (usize, usize), bool);

fn counts(table: &Table) -> Counts {
    let counted = (table.count_rows(), table.count_columns());
    (table.shape(), counted, table.is_empty())
}

/// Returns the counts of a sheet's table.
pub fn counts_of(alloc: Global, sheet: &Sheet) -> Result<Counts, TableError> {
    Ok(counts(&table_of(alloc, sheet)?))
}

/// Returns the counts of an empty table.
pub fn counts_of_none(alloc: Global) -> Counts {
    counts(&Table::empty(alloc))
}

/// Returns whether a sheet's table equals an empty one.
pub fn is_the_empty_table(alloc: Global, sheet: &Sheet) -> Result<bool, TableError> {
    let table = table_of(alloc, sheet)?;
    Ok(table == Table::empty(alloc))
}

/// Returns the row at which the second of two values begins in a `kv` table.
pub fn pair_begins(alloc: Global) -> Result<Option<usize>, TableError> {
    let table = Table::kv(alloc, [("a", 1), ("b", 2)])?;
    Ok(LayoutIterator::kv_batches::<(&str, i32)>(&table).nth(1))
}
