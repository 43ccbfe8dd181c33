//! Pictures of a table of two rows after an option.

use std::alloc::Global;
use tabled_base::{CellOption, Object, TableError, TableOption, Text, VecRecords};
use tabled_config::ColoredConfig;
use tabled_size::CompleteDimension;
use tabled_table::Table;

type Cells = VecRecords<Text<String>>;

fn people(alloc: Global) -> Result<Table, TableError> {
    Table::nohead(alloc, [("City", "Born"), ("Ada", "1815")])
}

/// Applies an option to the table, and prints it.
pub fn changed_by<O: TableOption<Cells, ColoredConfig, CompleteDimension> + Drop>(
    alloc: Global,
    option: O,
) -> Result<String, TableError> {
    let mut table = people(alloc)?;
    table.with(option)?.to_text()
}

/// Applies an option to a part of the table, and prints it.
pub fn modified_by<T: Object<Cells> + Drop, O: CellOption<Cells, ColoredConfig> + Drop>(
    alloc: Global,
    target: T,
    option: O,
) -> Result<String, TableError> {
    let mut table = people(alloc)?;
    table.modify(target, option)?.to_text()
}
