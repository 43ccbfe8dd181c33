//! Tests of tables with huge numbers, with writers that stop early, and with failing allocations.
//! Options are written as commands, as in `test_cases`; other calls come from `test_refused_uses`.
#![tactic(auto)]

mod changes;
mod meagre;
mod numbers;
mod sides;
mod trying;
mod writers;

pub use numbers::told;
pub use trying::{names, tried, tried_all};
pub use writers::{stopped_printers, stopped_runs};
