//! `RowError`: why a value can't be a row.
ghost use Rattle.std.specs.Prelude.{◌≡◌};
ghost use Rattle.tabled_serde.specs.declared.error.RowError.TheVariants.{Memory};

use std::alloc::{AllocError, AllocFailed};
use std::error::Error;
use std::fmt;

/// Why a value can't be a row.
#[derive(Debug, Drop, PartialEq, Eq)]
pub enum RowError {
    /// An allocation failed.
    Memory,
    /// The value is no struct and no map, so its cells have no names.
    NoFields,
    /// A field holds a struct, a map, or a list inside a list, which have no text. `flatten` puts
    /// the fields of a struct beside the others.
    Nested { field: String },
    /// A key of a map has no text, so the field has no name.
    NoName,
    /// The value writes what is no struct and no map, as no derived one does.
    Malformed,
    /// The first field without a column: the first value doesn't have it, or has it earlier.
    Unknown { field: String },
    /// The value itself fails, at a field or after it.
    Custom { field: String, message: String },
}

impl fmt::Display for RowError {
    fn fmt<W: fmt::Write>(&self, f: &mut fmt::Formatter<W>) -> fmt::Result {
        match self {
            RowError::Memory => write!(f, "memory"),
            RowError::NoFields => write!(f, "the value has no fields"),
            RowError::NoName => write!(f, "a key has no text"),
            RowError::Malformed => write!(f, "the value is written in no known form"),
            RowError::Nested { field } => write!(f, "the field `{field}` has no text of its own"),
            RowError::Unknown { field } => {
                write!(f, "the field `{field}` is not one of the first value")
            }
            RowError::Custom { field, message } => write!(f, "the field `{field}`: {message}"),
        }
    }
}

impl Error for RowError {}

impl From<AllocError> for RowError {
    ghost from_gives = { λ _ e. e ≡ Memory };

    fn from(_error: AllocError) -> RowError {
        RowError::Memory
    }
}

impl<T: Drop> From<AllocFailed<T>> for RowError {
    ghost from_gives = { λ _ e. e ≡ Memory };

    fn from(_error: AllocFailed<T>) -> RowError {
        RowError::Memory
    }
}
