//! Values that serialize. The crate `tabled_serde` makes rows of them.

use serde::Serialize;
use std::alloc::Global;
use tabled::{Table, TableError};
use tabled_serde::RowError;

#[derive(Drop, Serialize)]
struct City {
    name: &'static str,
    #[serde(rename = "inhabitants")]
    people: u32,
    area: Option<f64>,
    rivers: [&'static str; 2],
}

const CITIES: [City; 2] = [
    City {
        name: "Paris",
        people: 2_103_778,
        area: Some(105.4),
        rivers: ["Seine", "Bièvre"],
    },
    City {
        name: "Vaduz",
        people: 5_774,
        area: None,
        rivers: ["Rhine", "Spiersbach"],
    },
];

fn cities(alloc: Global) -> Result<Table, RowError> {
    tabled_serde::table(alloc, CITIES)
}

/// A table of values, with the names of their fields above.
pub fn table(alloc: Global) -> Result<String, TableError> {
    match cities(alloc) {
        Ok(table) => table.to_text(),
        Err(RowError::Memory) => Err(TableError::Memory),
        Err(error) => Ok(format!(in alloc; "{error}")?),
    }
}
