//! Calls to run while allocations fail; each returns its outcome. The printers of one small table
//! and their expected output are here, too, because the tests with failing writers share them.
#![tactic(auto)]

mod calls;
mod drawings;
mod found;
mod joined;
mod materials;
mod printers;
mod prints;
mod sparing;
mod trying;

pub use found::{Found, refused_if, whole_if};
pub use printers::{PAIRS, PRINTERS, Printer, picture, put, sized_table_of_pairs, table_of_pairs};
pub use trying::{names, tried};
