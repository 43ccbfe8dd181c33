//! `CompactTable`: tables of single lines that are printed while their rows are read. No row is
//! stored, and printing allocates nothing.
//!
//! - `table.rt`: `CompactTable`.
//! - `sizes.rt`: sets widths and heights, measures the widths that fit an array of rows, and the
//!   total width.
//! - `columns.rt`: the columns of a compact table, the cells in them, and which rows are shown.
//! - `rows.rt`: prints a compact table, row by row, after a check of its columns.
#![tactic(auto)]

mod columns;
mod rows;
mod sizes;
mod table;

pub use columns::Window;
pub use rows::print_compact;
// Bounds of `CompactTable::{from, width, height}`.
pub use sizes::{CellRows, SetSizes};
pub use table::CompactTable;
