//! Makes tables from values, from a string, and from comma-separated values.

use anyhow::bail;
use csv::ReaderBuilder;
use std::alloc::Global;
use tabled::builder::Builder;
use tabled::{Plan, Table, TableError, render};

pub const CITIES: &str =
    "City,Country,People\n\"Vaduz, the capital\",Liechtenstein,5774\n北京,China,21893095\n";

/// Each value is a row. Here a value is a pair.
pub fn from_values(alloc: Global) -> Result<String, TableError> {
    let rows = [("Ada", 1815), ("Grace", 1906)];
    Table::nohead(alloc, rows)?.to_text()
}

/// Each line is a row, and tabs separate its cells. No cell is copied.
pub fn from_text(alloc: Global) -> Result<String, TableError> {
    let mut out = String::new(alloc);
    let rows = "Name\tBorn\nAda\t1815\nGrace\t1906\n";
    render(alloc, rows, Plan::Buffered, &mut out)?;
    Ok(out)
}

/// Each record of the `csv` crate is a row.
pub fn from_csv(alloc: Global, text: &str) -> anyhow::Result<Table> {
    let mut builder = Builder::new(alloc);
    let mut reader = ReaderBuilder::new();
    reader.has_headers(false);
    for record in reader.from_reader(alloc, text.as_bytes()).into_records() {
        let Ok(record) = record else {
            bail!("these are no comma-separated values");
        };
        builder.push_record(record.iter())?;
    }
    Ok(Table::from(builder))
}
