//! The command line of a viewer of tables.
//!
//! - `command_line`: its description.
//! - `options`: what it asks for.
//! - `table`: the options, with their help.
#![tactic(auto)]

mod command_line;
mod options;
mod table;

pub use command_line::command;
pub use options::{Choice, Input, Look, Options, Side, WrongOption, width_of};
