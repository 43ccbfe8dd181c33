//! Prints a table to a sink, piece by piece, after checking its sizes.
//!
//! Printing allocates nothing if the sizes are given.
//!
//! - `grid.rt`: `Grid`, which is records with their settings and sizes, and its columns and rows.
//! - `checks.rt`: checks whether the sizes are complete and hold the cells, in the order of the
//!   errors.
//! - `print.rt`: `print_grid`, which checks a table and writes all of its lines.
//! - `effective.rt`: prints records with stored sizes or estimates.
//! - `column_styles.rt`: what is looked up once for rows with the same settings.
//! - `plain.rt`: whether the settings make all lines equally wide, for plain cells or for any
//!   cells.
//! - `laws.rt`: facts about pictures.
#![tactic(auto)]

mod checks;
mod column_styles;
mod effective;
mod grid;
pub mod laws;
mod plain;
mod print;

pub use effective::{print_estimated, print_standing};
pub use plain::{is_additive_config, is_apart_config, is_plain_records};
pub use print::print_grid;
pub use tabled_line::{IoSink, TextSink};
