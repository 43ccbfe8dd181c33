//! Reads rows from CSV, TSV, JSON, JSON lines and SQLite, and keeps those that are shown.
//!
//! - `chosen`: the columns that are shown.
//! - `csv_records`: records of comma- or tab-separated values.
//! - `csv_rows`: rows of these, with blank lines in a text of one column.
//! - `delimiter`: the byte between cells, as the first records of a text show it.
//! - `document`: a JSON text.
//! - `error`: why an input can't be shown.
//! - `faults`: where a JSON text is wrong.
//! - `format`: the format of an input, by its name, the ending of a path, or its first bytes.
//! - `json_cells`: the cells of objects and arrays.
//! - `json_lines`: rows of a sequence of JSON values.
//! - `json_rows`: the rows of a JSON text.
//! - `json_values`: the values of a sequence of JSON.
//! - `keys`: the keys of objects, in the order of their first occurrence.
//! - `markdown`: rows as those of a table of Markdown.
//! - `nesting`: which token of JSON may follow others.
//! - `place`: places in a text.
//! - `query_fault`: what is wrong with a query.
//! - `row`: rows, and what they are read from.
//! - `scan`: what the bytes of comma-separated values belong to.
//! - `selector`: selects the rows that are shown.
//! - `sheet`: the lines that are shown.
//! - `sql_tokens`: the tokens of SQL.
//! - `sqlite_rows`: the rows of a query.
//! - `stream`: rows that are shown as they are read.
//! - `tables`: the tables of a database.
//! - `value_scan`: where a value of JSON ends.
//! - `values`: how JSON values become rows.
//! - `watched`: comma-separated values that are watched as they are read.
#![tactic(auto)]

mod chosen;
mod csv_records;
mod csv_rows;
mod delimiter;
mod document;
mod error;
mod faults;
mod format;
mod json_cells;
mod json_lines;
mod json_rows;
mod json_values;
mod keys;
mod markdown;
mod nesting;
mod place;
mod query_fault;
mod row;
mod scan;
mod selector;
mod sheet;
mod sql_tokens;
mod sqlite_rows;
mod stream;
mod tables;
mod value_scan;
mod values;
mod watched;

pub use chosen::{Chosen, is_column};
pub use csv_records::CsvOptions;
pub use csv_rows::CsvRows;
pub use delimiter::delimiter_of;
pub use error::{Fault, Place, ReadError};
pub use format::Format;
pub use json_lines::JsonLines;
pub use json_rows::JsonRows;
pub use markdown::MarkdownRows;
pub use place::text_of;
pub use query_fault::QueryFault;
pub use row::{Row, Rows};
pub use selector::read_sheet;
pub use sheet::{Sheet, Wanted};
pub use sqlite_rows::SqliteRows;
pub use stream::Stream;
pub use tables::{Overview, TableList, overview_of, query_of_table};
pub use value_scan::is_sequence;
pub use values::JsonOptions;
