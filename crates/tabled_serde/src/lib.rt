//! Values that serialize, as rows of a table: a header of the names of their fields, and a row of
//! cells for each value. `tabled` itself doesn't depend on `serde`.
//!
//! - `error.rt`: `RowError`, why a value can't be a row.
//! - `event.rt`: `Events`, the events that a value writes.
//! - `own_errors.rt`: `OwnErrors`, how a value is sent, and which errors are its own.
//! - `reader.rt`: `Record`, the names and cells of a value, and how they are read from its events.
//! - `record.rt`: `read_record`, which reads those of a value.
//! - `placed.rt`: the cells of a later value below the names of the first.
//! - `rows.rt`: `ValueRows`, the rows of an iterator of values; `builder`, a builder of them.
//! - `tables.rt`: `table`, a table of values.
#![tactic(auto)]

mod error;
mod event;
mod own_errors;
mod placed;
mod reader;
mod record;
mod rows;
mod tables;

pub use error::RowError;
pub use own_errors::OwnErrors;
pub use reader::Record;
pub use record::read_record;
pub use rows::{ValueRows, builder};
pub use tables::table;
