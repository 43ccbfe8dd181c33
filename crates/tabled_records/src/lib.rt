//! Records that borrow or share their texts, views of records, and the records of an iterator.
//!
//! Records that store texts:
//! - `row_ranges.rt`: `RowRanges`, rows as ranges of a list of texts, and `Pairs`, a list of pairs
//!   that takes half the memory while the numbers are small.
//! - `joined_records.rt`: `LentRows`, rows whose cells borrow one text, which `text_rows` finds in
//!   a text; `JoinedRecords`, rows of texts that are appended to one buffer.
//! - `narrowed_texts.rt`: `NarrowedTexts`, what is known of texts that are narrowed when they are
//!   read.
//! - `cut_lent_rows.rt`: `CutLentRows`, whose cells are cut to their columns when they are read.
//! - `wrapped_lent_rows.rt`: `WrappedLentRows`, whose cells are wrapped to their columns then.
//! - `records_writer.rt`: `RecordsWriter`, which writes `JoinedRecords` text by text.
//! - `flat_rows.rt`: `FlatRows`, rows whose cells are in one list.
//!
//! Records that make their cells on demand:
//! - `empty.rt`: `EmptyRecords`, whose cells are all empty.
//! - `iter_records.rt`: `IterRecords`, the records of an iterator.
//! - `try_rows.rt`: `TryRows`, the rows of an iterator of results before its first error.
//!
//! Views that are read row by row:
//! - `limits.rt`: `LimitRows`, `SkipRows` and `LimitColumns`, a part of the rows or cells.
//! - `truncate.rt`: `TruncateContent`, cells that are cut to the widths of their columns.
//! - `buffer.rt`: `BufRecords`, records with some rows read ahead; `reading.rt` reads them.
#![tactic(auto)]

mod buffer;
mod cut_lent_rows;
mod empty;
pub mod flat_rows;
mod iter_records;
mod joined_records;
mod limits;
mod narrowed_texts;
pub mod reading;
mod records_writer;
mod row_ranges;
mod truncate;
mod try_rows;
mod wrapped_lent_rows;

pub use buffer::{BufCells, BufRecords, BufRows};
pub use cut_lent_rows::CutLentRows;
pub use empty::{EmptyCells, EmptyRecords, EmptyRows};
pub use iter_records::IterRecords;
pub use joined_records::{JoinedRecords, LentRows, text_rows};
pub use limits::{FirstCells, LaterRows, LimitColumns, LimitRows, NarrowRows, SkipRows};
pub use records_writer::RecordsWriter;
pub use truncate::{CutCell, CutCells, CutRows, TruncateContent};
pub use try_rows::TryRows;
pub use wrapped_lent_rows::WrappedLentRows;
