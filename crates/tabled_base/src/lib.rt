//! The parts of a table: measured strings, rectangular records of them, the traits of records and
//! options, and the errors of all calls.
//!
//! - `text.rt`: `Text`, a string with its measures, and `ShortOr`, one that is stored inline if it
//!   is short.
//! - `vec_records.rt`: `VecRecords`, rows of equal length, in one list or in a vector for each row;
//!   `row_slices.rt`: `RowSlices`, the rows as slices.
//! - `builder.rt`: `Builder`, which makes records row by row.
//! - `records.rt`: the traits of records and of their cells, and of the sources of rows that are
//!   read once.
//! - `position.rt`: `Position`, a row and a column, and `Entity`, the cells that a setting covers.
//! - `objects.rt`, `segment.rt`: selections of rows, columns and cells; `union.rt`: two of them.
//! - `options.rt`: `TableOption` and `CellOption`, and the sizes that they see; `settings.rt`: two
//!   options in turn.
//! - `error.rt`: `TableError`.
#![tactic(auto)]

mod builder;
mod content;
mod error;
mod objects;
mod options;
mod position;
mod records;
mod row_slices;
mod segment;
mod settings;
mod text;
mod union;
mod vec_records;

pub use builder::Builder;
pub use content::{Content, ContentRecords};
pub use error::TableError;
pub use objects::{Cell, Columns, Object, Rows};
pub use options::{CellOption, Configuration, StoredSizes, TableOption};
pub use position::{Entity, Position};
pub use records::{CellText, ExactRecords, IntoRecords, PeekableRecords, Records, RecordsMut};
pub use row_slices::RowSlices;
pub use segment::Segment;
pub use settings::Settings;
pub use text::{SHORT_TEXT, Text};
pub use union::Union;
pub use vec_records::VecRecords;
