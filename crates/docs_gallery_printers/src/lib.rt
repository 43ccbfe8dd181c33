//! The pictures of the gallery that show printers, rows and parts for programs of your own, and of
//! what users of the Rust crate write. Each is made by a function of a few lines, which the page
//! shows above it.
#![tactic(auto)]

mod from_tabled;
mod own;
mod page;
mod printers;
mod rows;
mod serialized;
mod streams;
mod texts;

pub use page::all_pictures;
