//! Prints rows as they arrive.
use std::alloc::Global;
use tabled::TableError;
use tabled::tables::IterTable;

/// The first two rows set the widths. Each later row is cut to them and printed at once.
pub fn stream_rows(alloc: Global) -> Result<String, TableError> {
    let rows = [["Ada", "1815"], ["Grace", "1906"], ["Katherine", "1918"]];
    let mut table = IterTable::new(rows);
    table.sniff(2);
    table.to_string(alloc)
}
