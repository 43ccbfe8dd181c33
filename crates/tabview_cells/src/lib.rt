//! What a viewer of tables decides, as functions over values.
//!
//! - `choice`: the cells that are shown of a row.
//! - `dates`: dates and times of digits.
//! - `escaping`: control characters and directional marks as visible ones, so that nothing is lost.
//! - `fit`: the widths of columns of which some don't give.
//! - `kinds`: what the cells of a column are: numbers, dates, codes or text.
//! - `numbers`: decimal numbers.
//! - `printable`: printable ASCII, which is shown as it is.
#![tactic(auto)]

mod choice;
mod dates;
mod escaping;
mod fit;
mod kinds;
mod numbers;
mod printable;

pub use choice::{Shown, chosen_cells, join_kinds, push_cell, push_chosen, push_joining};
pub use escaping::{escape, is_control};
pub use fit::{AboveFloors, longest_word};
pub use kinds::{Kind, is_graphic_row, is_printable_row};
