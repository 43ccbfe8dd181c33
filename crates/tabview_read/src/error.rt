//! Why an input can't be shown.

use crate::query_fault::QueryFault;
use csv::Position;
use std::alloc::{AllocError, AllocFailed};
use std::{error, fmt, io};
use tabled_base::TableError;
use tabview_database::{DatabaseError, Obstacle};

/// A place in a text. Lines, and the characters of a line, are counted from 1.
#[derive(Clone, Copy)]
pub struct Place {
    pub line: u64,
    pub column: u64,
}

impl Place {
    ghost use Rattle.std.specs.Prelude.{◌≡◌};
    ghost use Rattle.tabview_read.specs.Places.{column_behind, column_step, line_behind, line_step};

    /// Returns the place behind one more byte. A byte within a character has no column.
    pub(crate) fn after(self, byte: u8) -> Place
        ensures line { result.line ≡ line_step self.line byte }
        ensures column { result.column ≡ column_step self.column byte }
    {
        match byte {
            b'\n' => Place {
                line: self.line.saturating_add(1),
                column: 1,
            },
            0x80..=0xBF => self,
            _ => Place {
                line: self.line,
                column: self.column.saturating_add(1),
            },
        }
    }

    /// Returns a place of a text that begins here.
    pub(crate) fn behind(self, place: Place) -> Place
        ensures line { result.line ≡ line_behind self.line place.line }
        ensures column { result.column ≡ column_behind self.column place.line place.column }
    {
        let column = if place.line <= 1 {
            self.column.saturating_add(place.column.saturating_sub(1))
        } else {
            place.column
        };
        Place {
            line: self.line.saturating_add(place.line.saturating_sub(1)),
            column,
        }
    }
}

impl fmt::Display for Place {
    fn fmt<W: fmt::Write>(&self, f: &mut fmt::Formatter<W>) -> fmt::Result {
        let Place { line, column } = *self;
        write!(f, "line {line}, column {column}")
    }
}

/// What is wrong with a JSON text.
pub enum Fault {
    /// An allocation failed.
    Memory,
    /// The text isn't JSON.
    NotJson,
    /// A row is neither an object nor an array, among rows that are.
    NotRow,
    /// A row is an object among arrays, or an array among objects.
    Mixed,
    /// An array has more or fewer cells than the first.
    Ragged { cells: usize, wanted: usize },
    /// An object has a key that none of the rows read ahead has.
    Unknown(String),
}

/// Drops a fault in one call, so that callers need no proof for each kind.
impl Drop for Fault {
    fn drop(self) {
        match self {
            Fault::Memory => {}
            Fault::NotJson => {}
            Fault::NotRow => {}
            Fault::Mixed => {}
            Fault::Ragged {
                cells: _,
                wanted: _,
            } => {}
            Fault::Unknown(_) => {}
        }
    }
}

/// Returns the noun after a number of cells.
fn noun_of(cells: u64) -> &'static str {
    if cells == 1 { "cell" } else { "cells" }
}

impl fmt::Display for Fault {
    fn fmt<W: fmt::Write>(&self, f: &mut fmt::Formatter<W>) -> fmt::Result {
        match self {
            Fault::Memory => f.write_str("out of memory"),
            Fault::NotJson => f.write_str("invalid JSON"),
            Fault::NotRow => f.write_str("a row is neither an object nor an array"),
            Fault::Mixed => f.write_str("objects and arrays are mixed"),
            Fault::Ragged { cells, wanted } => {
                let noun = noun_of(*cells as u64);
                write!(f, "{cells} {noun}, but {wanted} in the first row")
            }
            Fault::Unknown(key) => write!(f, "the key {key} is in none of the rows read ahead"),
        }
    }
}

impl Fault {
    /// Returns the error of a fault at a place.
    pub(crate) fn at(self, place: Place) -> ReadError {
        match self {
            Fault::Memory => ReadError::Memory,
            fault => ReadError::Json(place, fault),
        }
    }
}

impl From<AllocError> for Fault {
    ghost use Rattle.std.specs.Prelude.{◌≡◌};
    ghost use Rattle.tabview_read.specs.declared.error.Fault.TheVariants.{Memory};

    ghost from_gives = { λ _ e. e ≡ Memory };

    fn from(_error: AllocError) -> Fault {
        Fault::Memory
    }
}

/// Why rows can't be read.
pub enum ReadError {
    /// An allocation failed.
    Memory,
    /// The input can't be read.
    Input(io::Error),
    /// Bytes are invalid UTF-8.
    NotUtf8(Place),
    /// A cell of comma-separated values is invalid UTF-8: where its record begins, and the cell's
    /// number, from 1.
    CellNotUtf8(Position, u64),
    /// A record of comma-separated values has more or fewer cells than the first.
    Ragged {
        at: Position,
        cells: u64,
        wanted: u64,
    },
    /// Comma-separated values end in quotes that began in this line.
    OpenQuote(u64),
    /// A JSON text is wrong.
    Json(Place, Fault),
    /// A database can't be opened.
    Database(DatabaseError),
    /// A query is wrong.
    Sql(Place, QueryFault),
    /// A query has what isn't supported.
    Unsupported,
    /// A query failed.
    Query(sqlite::Error),
    /// A database has no table.
    NoTable,
    /// A database has no table of this name.
    NoSuchTable(String),
    /// A table can't be read, for this reason.
    LeftOut(Obstacle, String),
    /// There is no such column.
    NoColumn(String),
}

/// Drops an error in one call, so that callers need no proof for each kind.
impl Drop for ReadError {
    fn drop(self) {
        match self {
            ReadError::Memory => {}
            ReadError::Input(_) => {}
            ReadError::NotUtf8(_) => {}
            ReadError::CellNotUtf8(_, _) => {}
            ReadError::Ragged {
                at: _,
                cells: _,
                wanted: _,
            } => {}
            ReadError::OpenQuote(_) => {}
            ReadError::Json(_, _) => {}
            ReadError::Database(_) => {}
            ReadError::Sql(_, _) => {}
            ReadError::Unsupported => {}
            ReadError::Query(_) => {}
            ReadError::NoTable => {}
            ReadError::NoSuchTable(_) => {}
            ReadError::LeftOut(_, _) => {}
            ReadError::NoColumn(_) => {}
        }
    }
}

impl fmt::Display for ReadError {
    fn fmt<W: fmt::Write>(&self, f: &mut fmt::Formatter<W>) -> fmt::Result {
        match self {
            ReadError::Memory => f.write_str("out of memory"),
            ReadError::Input(error) => write!(f, "{error}"),
            ReadError::NotUtf8(place) => write!(f, "{place}: invalid UTF-8"),
            ReadError::CellNotUtf8(at, cell) => {
                let (line, record) = (at.line, at.record);
                write!(
                    f,
                    "line {line}, column {cell}: invalid UTF-8 (record {record})"
                )
            }
            ReadError::Ragged { at, cells, wanted } => {
                let (line, record, byte) = (at.line, at.record, at.byte);
                let noun = noun_of(*cells);
                write!(
                    f,
                    "line {line}: {cells} {noun}, but {wanted} in the first record (record {record}, byte {byte})"
                )
            }
            ReadError::OpenQuote(line) => write!(f, "line {line}: a quote isn't closed"),
            ReadError::Json(place, fault) => write!(f, "{place}: {fault}"),
            ReadError::Database(error) => write!(f, "{error}"),
            ReadError::Sql(place, fault) => write!(f, "query, {place}: {fault}"),
            ReadError::Unsupported => f.write_str("the query isn't supported"),
            ReadError::Query(error) => write!(f, "{error}"),
            ReadError::NoTable => f.write_str("the database has no table"),
            ReadError::NoSuchTable(name) => write!(f, "no such table: {name}"),
            ReadError::LeftOut(obstacle, name) => write!(f, "{name} isn't supported: {obstacle}"),
            ReadError::NoColumn(name) => write!(f, "there is no column {name}"),
        }
    }
}

// The message says all.
impl fmt::Debug for ReadError {
    fn fmt<W: fmt::Write>(&self, f: &mut fmt::Formatter<W>) -> fmt::Result {
        write!(f, "{self}")
    }
}

impl error::Error for ReadError {}

impl From<AllocError> for ReadError {
    ghost use Rattle.std.specs.Prelude.{◌≡◌};
    ghost use Rattle.tabview_read.specs.declared.error.ReadError.TheVariants.{Memory};

    ghost from_gives = { λ _ e. e ≡ Memory };

    fn from(_error: AllocError) -> ReadError {
        ReadError::Memory
    }
}

impl<T: Drop> From<AllocFailed<T>> for ReadError {
    ghost use Rattle.std.specs.Prelude.{◌≡◌};
    ghost use Rattle.tabview_read.specs.declared.error.ReadError.TheVariants.{Memory};

    ghost from_gives = { λ _ e. e ≡ Memory };

    fn from(_error: AllocFailed<T>) -> ReadError {
        ReadError::Memory
    }
}

impl From<io::Error> for ReadError {
    fn from(error: io::Error) -> ReadError {
        ReadError::Input(error)
    }
}

impl From<sqlite::Error> for ReadError {
    fn from(error: sqlite::Error) -> ReadError {
        ReadError::Query(error)
    }
}

impl From<DatabaseError> for ReadError {
    fn from(error: DatabaseError) -> ReadError {
        ReadError::Database(error)
    }
}

impl From<TableError> for ReadError {
    /// The only error of what is called here is `Memory`.
    fn from(_error: TableError) -> ReadError {
        ReadError::Memory
    }
}
