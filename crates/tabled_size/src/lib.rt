//! The sizes of a table: the widths and heights that its cells need, its totals, and the dimensions
//! that store them.
//!
//! - `dimension.rt`: the traits of sizes, `Dimension` and `Estimate`.
//! - `complete_dimension.rt`: sizes that are stored or not, and the sizes of a pool table.
//! - `const_dimension.rt`: given sizes that never change.
//! - `stored_sizes.rt`: which sizes each dimension clears behind an option.
//! - `estimate.rt`: the widest cell of each column and the tallest of each row.
//! - `added_padding.rt`: what padding adds to the size of a cell.
//! - `total.rt`: the total width and height, with borders and margins: of given sizes, of the
//!   effective ones (stored, else estimated), of estimates. Checks that each size is known.
#![tactic(auto)]

mod added_padding;
mod complete_dimension;
mod const_dimension;
mod dimension;
mod estimate;
mod stored_sizes;
mod total;

pub use complete_dimension::{CompleteDimension, DimensionPriority, PoolTableDimension};
pub use const_dimension::{
    ConstDimension, ConstSize, DimensionValue, StaticDimension, ZeroDimension,
};
pub use dimension::{Dimension, Estimate};
pub use estimate::{estimate_heights, estimate_sizes, estimate_widths};
pub use tabled_priority::{
    Peaker, Priority, PriorityLeft, PriorityMax, PriorityMin, PriorityNone, PriorityRight, Steps,
    TakesAll, is_level,
};
pub use total::{
    check_heights, check_widths, estimated_total_height, estimated_total_width, filled_height,
    filled_width, is_empty, total_height, total_width,
};
