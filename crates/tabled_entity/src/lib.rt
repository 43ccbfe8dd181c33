//! One setting of a table: for all of it, for rows, for columns and for cells. The last one that
//! covers a cell wins.
//!
//! - `entity_map.rt`: `EntityMap`, the setting, with its setters and lookups.
//! - `row_values.rt`: the values of the cells of a row, and the index that finds the latest change
//!   for each.
//! - `run_map.rt`: `RunMap`, a map from numbers that finds those inserted one after another by
//!   index, and `RowPlaces`, one of the changes for a row's cells.
#![tactic(auto)]

mod entity_map;
mod row_values;
mod run_map;

pub use entity_map::EntityMap;
pub use row_values::{RowValues, RunValues, SetValues};
