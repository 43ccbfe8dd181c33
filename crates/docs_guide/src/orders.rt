//! Values of your own type as records.

use anyhow::Result;
use serde::Serialize;
use std::alloc::Global;
use tabled::iter::TryRows;
use tabled::tables::ExtendedTable;
use tabled_serde::ValueRows;

#[derive(Drop, Serialize)]
struct Order {
    customer: &'static str,
    price: &'static str,
    note: Option<&'static str>,
}

const ORDERS: [Order; 3] = [
    Order {
        customer: "Ada",
        price: "1280.00",
        note: None,
    },
    Order {
        customer: "Grace",
        price: "64.50",
        note: Some("by post"),
    },
    Order {
        customer: "Katherine",
        price: "8.05",
        note: None,
    },
];

/// Prints orders one below the other.
pub fn records(alloc: Global) -> Result<String> {
    let mut rows = TryRows::new(ValueRows::new(alloc, ORDERS.into_iter(), "-"));
    let table = ExtendedTable::from_rows(alloc, &mut rows)?;
    rows.finish()?;
    Ok(table.to_string()?)
}
