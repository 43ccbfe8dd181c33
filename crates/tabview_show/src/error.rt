//! Why nothing is shown.

use std::alloc::AllocError;
use std::{error, fmt, io};
use tabled_base::TableError;
use tabview_database::DatabaseError;
use tabview_read::ReadError;

/// An option for databases.
#[derive(Clone, Copy, Debug, PartialEq, Eq)]
pub enum DatabaseOption {
    Query,
    Table,
}

/// Why a table isn't shown, or not to its end.
#[derive(Debug)]
pub enum ViewError {
    /// The rows can't be read.
    Read(ReadError),
    /// The table can't be laid out.
    Table(TableError),
    /// The width is less than records need. That many columns are enough.
    TooNarrow(usize),
    /// The output can't be written.
    Output(io::Error),
    /// A database was given at standard input.
    Database,
    /// There is an option for databases, but no database.
    NoDatabase(DatabaseOption),
}

/// Drops an error in one call, so that callers need no proof for each kind.
impl Drop for ViewError {
    fn drop(self) {
        match self {
            ViewError::Read(_) => {}
            ViewError::Table(_) => {}
            ViewError::TooNarrow(_) => {}
            ViewError::Output(_) => {}
            ViewError::Database => {}
            ViewError::NoDatabase(_) => {}
        }
    }
}

impl fmt::Display for ViewError {
    fn fmt<W: fmt::Write>(&self, f: &mut fmt::Formatter<W>) -> fmt::Result {
        match self {
            ViewError::Read(error) => write!(f, "{error}"),
            ViewError::Table(error) => write!(f, "{error}"),
            ViewError::TooNarrow(least) => {
                write!(f, "a width of at least {least} columns is needed")
            }
            ViewError::Output(error) => write!(f, "the output can't be written: {error}"),
            ViewError::Database => f.write_str("a database of SQLite can only be read from a file"),
            ViewError::NoDatabase(DatabaseOption::Query) => f.write_str(
                "--query needs a database of SQLite",
            ),
            ViewError::NoDatabase(DatabaseOption::Table) => f.write_str(
                "--table needs a database of SQLite",
            ),
        }
    }
}

impl error::Error for ViewError {}

impl From<ReadError> for ViewError {
    fn from(error: ReadError) -> ViewError {
        ViewError::Read(error)
    }
}

impl From<DatabaseError> for ViewError {
    fn from(error: DatabaseError) -> ViewError {
        ViewError::Read(ReadError::Database(error))
    }
}

impl From<AllocError> for ViewError {
    fn from(error: AllocError) -> ViewError {
        ViewError::Read(ReadError::from(error))
    }
}
