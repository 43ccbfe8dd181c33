//! Checks test cases that are written as data: input, commands and expected results.
//! The program `test_cases` reads them, and prints what is found.
#![tactic(auto)]

mod checking;
mod columns;
mod document;
mod drawing;
mod fault;
mod never;
mod pairs;
mod print_options;
mod printers;
mod reading;
mod report;
mod settings;
mod shrinking;
mod sizing;
mod words;

pub use columns::KnownColumns;
pub use document::check_document;
pub use fault::Fault;
pub use settings::set;
pub use words::Words;
