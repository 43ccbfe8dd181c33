//! `ExtendedTable` prints each record as a header and a line for each field.
//!
//! - `extended_table`: `ExtendedTable`, its texts and settings, and how it is made.
//! - `printing`: the lines of a table, and the texts in them, escaped.
//! - `truncating`: truncated records.
#![tactic(auto)]

mod extended_table;
mod printing;
mod template;
mod truncating;

pub use extended_table::ExtendedTable;
pub use template::{FnTemplate, LabelFn, RecordTemplate, Template};
