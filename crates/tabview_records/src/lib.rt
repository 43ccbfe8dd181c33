//! Prints rows one below the other, as records: each cell has a line behind the name of its column.
//!
//! - `expanded`: all records of a table.
//! - `layout`: the columns of a record.
//! - `records`: the lines of a record.
//! - `narrowed`: texts that are narrowed to some columns, line by line.
//! - `rows`: the names of the columns of a table, and its widest cells.
//! - `pieces`: pieces of the text of a record.
//! - `error`: why rows aren't printed.
#![tactic(auto)]

mod error;
mod expanded;
mod layout;
mod narrowed;
mod pieces;
mod records;
mod rows;

pub use error::PrintError;
pub use expanded::{LEAST_COLUMNS, RecordOptions, print_expanded};
