//! Priorities: in which order a list of sizes shrinks or grows, step by step and all at once.
//!
//! Sizes and minimums are plain numbers here; this crate knows no tables.
//!
//! - `priority.rt`: the traits of priorities, and the five priorities by name.
//! - `by_size_or_side.rt`: the other four.
//! - `choice.rt`: the size that comes first, and growing that one.
//! - `schedule.rt`: the levels from which and up to which a size changes by one a level, and the
//!   search for the level that is reached.
//! - `column_changes.rt`: reads columns, and changes all of them by a schedule.
//! - `in_order.rt`: takes from the sizes in order, from each as much as possible.
#![tactic(auto)]

mod by_size_or_side;
mod choice;
mod column_changes;
mod in_order;
mod priority;
mod schedule;

pub use by_size_or_side::{PriorityLeft, PriorityMax, PriorityMin, PriorityRight};
pub use column_changes::{Steps, is_level};
pub use priority::{Peaker, Priority, PriorityNone, TakesAll};
