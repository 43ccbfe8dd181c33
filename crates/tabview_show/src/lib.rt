//! Shows the rows of an input as a table.
//!
//! - `asked`: what is asked for, in the words of the crates below.
//! - `database`: a database of SQLite.
//! - `ending`: the end of a table, and readers that went away.
//! - `error`: why nothing is shown.
//! - `hint`: a hint for tables that are too wide for a terminal.
//! - `input`: an input by its format.
//! - `layout`: how the rows that are shown are laid out.
//! - `progress`: how far reading is.
//! - `ruled`: the line below the header of a table of Markdown.
//! - `view`: rows that are read, or as they are.
#![tactic(auto)]

mod asked;
mod database;
mod ending;
mod error;
mod hint;
mod input;
mod layout;
mod progress;
mod ruled;
mod view;

pub use database::show_database;
pub use error::{DatabaseOption, ViewError};
pub use input::{show, show_input};
