//! `Table` and `IterTable`: tables of values or of rows, changed by options, and printed.
//!
//! A `Table` stores all of its cells:
//! - `table`: the table, its parts, its totals and its text, and the settings of a new one
//! - `making`: makes tables of values and of rows, in batches of rows.
//! - `applying`: options for the whole table and for some of its cells; `modify`: the latter as an
//!   option of the table
//! - `printing`: printing with a minimum width and an alignment, and `Display`
//! - `titled`: a title above a table, and printing both
//!
//! An `IterTable` is printed row by row while a source gives its rows. It stores only the rows that
//! are read ahead to measure the columns. Each later row is read when it is printed. Each cell is
//! cut to its column:
//! - `iter_table`: the table, its options, and printing it to a sink, a writer or a string
//! - `iter_table/settings`: the settings of a stream, and whether the cells of a row fit in its
//!   columns.
//! - `iter_table/first_rows`: reads and measures the first rows of a stream, and lays out its
//!   columns.
//! - `iter_table/layout`: the columns of a stream, what is around its cells, and its total width
//! - `iter_table/marked`: cuts the cells of a row, with the mark if one is set.
//! - `iter_table/row`: the columns that lines are printed over, and a row that is cut to them
//! - `iter_table/stream`: writes the rows that were read first, and reads and writes the next
//!
//! `laws`: facts about tables and streamed tables.
#![tactic(auto)]

mod applying;
mod iter_table;
pub mod laws;
mod making;
mod modify;
mod printing;
mod table;
mod titled;

pub use iter_table::IterTable;
pub use making::LayoutIterator;
pub use modify::{Modify, ModifyBy};
pub use table::{Table, new_config};
pub use titled::{Title, TitleFit};
