//! Values as rows of a table: the trait `Tabled`, and the records that values make.
//!
//! - `value.rt`: `Tabled`; `value/`: its impls for strings, numbers, tuples, arrays, options, boxes
//!   and references.
//! - `rows.rt`: the records that values make, from the strings of their fields.
#![tactic(auto)]

mod rows;
mod value;

pub use rows::{field_records, named_records, value_records};
pub use value::Tabled;
