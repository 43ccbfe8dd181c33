//! Writes the lines of a table piece by piece: rows, horizontal lines and margins.
//!
//! Pieces are written as soon as they are known, so printing needs no allocation. A row is anything
//! that implements `Row`, so rows in memory and rows of a stream share the same code. What later
//! lines can share is cached: the last horizontal line and, if the caller passes an allocator, a
//! row template, which is a blank row that texts are put into.
//!
//! Sinks:
//! - `text_sink`: what the text of a table is written to: strings, writers, and buffers for the
//!   text of a line.
//!
//! Pieces of a line:
//! - `padding`: padding, and runs of one character.
//! - `borders`: the columns of a table, vertical lines, margins and horizontal lines.
//! - `column_separator`: the separator between the texts of two columns, which is cached.
//! - `new_config`: the settings of a new table that is printed while its rows are read.
//!
//! The text of a cell:
//! - `cell_block`: the lines of the block of a cell.
//! - `cursor`: the lines of a text in the lines of a row, which a cursor keeps.
//!
//! Rows:
//! - `row`: the trait of a row, and writing one of its lines.
//! - `cell_lines`: a line of a row: what its cells have in it, and the cursors in their texts.
//! - `placement`: where texts are in their columns.
//! - `row_template`: a blank row that the texts of each line are put into.
//! - `spaced_line`: lines written text by text, with separators between them.
//! - `laws`: facts about the lines of a row.
//!
//! Lines below each other:
//! - `line_printer`: `LinePrinter`, which writes rows, horizontal lines and margins with line feeds
//!   between them, and caches the last horizontal line and a row template.
#![tactic(auto)]

mod borders;
mod cell_block;
mod cell_lines;
mod column_separator;
mod cursor;
pub mod laws;
mod line_printer;
mod new_config;
mod padding;
mod placement;
mod row;
mod row_template;
mod spaced_line;
mod text_sink;

pub use borders::{TableColumns, count_drawn, write_bar, write_left_edge, write_right_edge};
pub use cell_block::{CellBlock, before_text};
pub use column_separator::ColumnSeparator;
pub use cursor::Cursor;
pub use line_printer::{LinePrinter, write_break};
pub use new_config::new_compact_config;
pub use padding::{write_char, write_fill, write_padded_text};
pub use placement::{KnownPlacements, Placement, UniformPlacement};
pub use row::Row;
pub use text_sink::{IoSink, TextSink, WriterSink};
