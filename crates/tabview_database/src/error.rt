//! Why a database can't be shown.

use sqlite_pages::Error as PageError;
use sqlite_store::OpenError;
use sqlite_wal::Error as LogError;
use std::alloc::{AllocError, AllocFailed};
use std::{error, fmt, io};

/// What a database has that isn't supported.
#[derive(Clone, Copy, Debug, PartialEq, Eq)]
pub enum Lack {
    /// It keeps pointers to parents of pages.
    AutoVacuum,
    /// Its texts are in UTF-16.
    Utf16,
    /// An object of its schema can't be read, or a row breaks a rule of the schema.
    Schema,
}

impl fmt::Display for Lack {
    fn fmt<W: fmt::Write>(&self, f: &mut fmt::Formatter<W>) -> fmt::Result {
        f.write_str(match self {
            Lack::AutoVacuum => "databases with auto_vacuum aren't supported",
            Lack::Utf16 => "databases with text in UTF-16 aren't supported",
            Lack::Schema =>
                "the database isn't supported: its schema has what can't be read, or a row breaks a rule of it",
        })
    }
}

/// Why a database can't be shown.
#[derive(Debug)]
pub enum DatabaseError {
    /// An allocation failed.
    Memory,
    /// The file can't be read.
    Input(io::Error),
    /// Its log, the file whose name ends in `-wal`, can't be read.
    Log(io::Error),
    /// It is a pipe or a device.
    NotFile,
    /// It changed each time that it was read.
    Written,
    /// It has a rollback journal, of a write that goes on or was interrupted.
    Unfinished,
    /// The file doesn't begin as a database of SQLite does.
    NotDatabase,
    /// A page is damaged, or has what can't be read.
    Malformed,
    /// It has what isn't supported.
    Unsupported(Lack),
}

/// Drops an error in one call, so that callers need no proof for each kind.
impl Drop for DatabaseError {
    fn drop(self) {
        match self {
            DatabaseError::Memory => {}
            DatabaseError::Input(_) => {}
            DatabaseError::Log(_) => {}
            DatabaseError::NotFile => {}
            DatabaseError::Written => {}
            DatabaseError::Unfinished => {}
            DatabaseError::NotDatabase => {}
            DatabaseError::Malformed => {}
            DatabaseError::Unsupported(_) => {}
        }
    }
}

impl fmt::Display for DatabaseError {
    fn fmt<W: fmt::Write>(&self, f: &mut fmt::Formatter<W>) -> fmt::Result {
        match self {
            DatabaseError::Memory => f.write_str("out of memory"),
            DatabaseError::Input(error) => write!(f, "{error}"),
            DatabaseError::Log(error) => write!(f, "its -wal file can't be read: {error}"),
            DatabaseError::NotFile => f.write_str(
                "a database of SQLite can only be read from a file",
            ),
            DatabaseError::Written => f.write_str("the database is being written"),
            DatabaseError::Unfinished => f.write_str(
                "a write to the database isn't finished: it has a rollback journal",
            ),
            DatabaseError::NotDatabase => f.write_str("the file is no database of SQLite"),
            DatabaseError::Malformed => f.write_str(
                "the database isn't supported: a page is damaged, or holds what can't be read",
            ),
            DatabaseError::Unsupported(lack) => write!(f, "{lack}"),
        }
    }
}

impl error::Error for DatabaseError {}

impl From<AllocError> for DatabaseError {
    ghost use Rattle.std.specs.Prelude.{◌≡◌};
    ghost use Rattle.tabview_database.specs.declared.error.DatabaseError.TheVariants.{Memory};

    ghost from_gives = { λ _ e. e ≡ Memory };

    fn from(_error: AllocError) -> DatabaseError {
        DatabaseError::Memory
    }
}

impl<T: Drop> From<AllocFailed<T>> for DatabaseError {
    ghost use Rattle.std.specs.Prelude.{◌≡◌};
    ghost use Rattle.tabview_database.specs.declared.error.DatabaseError.TheVariants.{Memory};

    ghost from_gives = { λ _ e. e ≡ Memory };

    fn from(_error: AllocFailed<T>) -> DatabaseError {
        DatabaseError::Memory
    }
}

impl From<LogError> for DatabaseError {
    fn from(error: LogError) -> DatabaseError {
        match error {
            LogError::OutOfMemory => DatabaseError::Memory,
            // A file in memory fails only to grow.
            LogError::Io(_) => DatabaseError::Memory,
            _ => DatabaseError::Malformed,
        }
    }
}

impl From<PageError> for DatabaseError {
    fn from(error: PageError) -> DatabaseError {
        match error {
            PageError::OutOfMemory => DatabaseError::Memory,
            _ => DatabaseError::Malformed,
        }
    }
}

impl From<OpenError> for DatabaseError {
    fn from(error: OpenError) -> DatabaseError {
        match error {
            OpenError::OutOfMemory => DatabaseError::Memory,
            _ => DatabaseError::Malformed,
        }
    }
}
