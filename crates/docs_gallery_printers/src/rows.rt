//! Rows and records. A table is made of values, of rows of a `Builder`, or of any other source
//! of rows. Records are the rows that it stores.

use std::alloc::Global;
use tabled::TableError;
use tabled::builder::Builder;
use tabled::grid::config::SpannedConfig;
use tabled::grid::dimension::{DimensionValue, StaticDimension};
use tabled::grid::print_grid;
use tabled::grid::records::into_records::{LimitColumns, LimitRows, SkipRows};
use tabled::grid::records::{CellText, IterRecords};
use tabled::iter::LayoutIterator;
use tabled::settings::Style;
use tabled::tables::{CompactTable, IterTable};

const CITIES: [[&str; 2]; 3] = [
    ["Rome", "2746984"],
    ["Paris", "2103778"],
    ["Oslo", "717710"],
];

/// Views of rows: all but the first, of these the first one, and of that the first cell.
pub fn viewed(alloc: Global) -> Result<String, TableError> {
    let rows = LimitRows::new(SkipRows::new(CITIES, 1), 1);
    let table = IterTable::new(LimitColumns::new(rows, 1));
    table.to_string(alloc)
}

/// Rows of any source, with their number of columns.
pub fn declared(alloc: Global) -> Result<String, TableError> {
    let records = IterRecords::new(CITIES, 2, None);
    let sizes = StaticDimension::new(DimensionValue::Exact(9), DimensionValue::Exact(1));
    let table = CompactTable::with_dimension(records, sizes);
    table.columns(2).rows(1).to_string(alloc)
}

/// The records of a table: rows of equal length, of measured texts.
pub fn stored(alloc: Global) -> Result<String, TableError> {
    let records = Builder::from_iter(alloc, CITIES)?.build();
    let mut names = String::new(alloc);
    for row in records.as_rows() {
        if let Some(name) = row.first() {
            names.push_str(name.text())?;
            names.push(';')?;
        }
    }
    Ok(names)
}

/// Records, settings and sizes, printed without a table. All columns are 9 wide, and all rows have
/// one line.
pub fn printed(alloc: Global) -> Result<String, TableError> {
    let records = Builder::from_iter(alloc, CITIES)?.build();
    let mut config = SpannedConfig::new(alloc);
    config.set_borders(Style::ascii().get_borders());
    let sizes = StaticDimension::new(DimensionValue::Exact(9), DimensionValue::Exact(1));
    let mut text = String::new(alloc);
    print_grid(&mut text, &records, &config, &sizes)?;
    Ok(text)
}

/// The first index of each batch of two, of five.
pub fn batches(alloc: Global) -> Result<String, TableError> {
    let mut begins = Vec::new(alloc);
    for begin in LayoutIterator::new(0, 5, 2) {
        begins.push(begin)?;
    }
    Ok(format!(in alloc; "{begins:?}")?)
}
