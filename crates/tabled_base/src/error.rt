//! `TableError`, the error of all calls of the library.
ghost use Rattle.std.specs.Prelude.{◌≡◌, Some};
ghost use Rattle.tabled_base.specs.Error.{error_text};
ghost use Rattle.tabled_base.specs.declared.error.TableError.TheVariants.{Memory};

use std::alloc::{AllocError, AllocFailed};
use std::error::Error;
use std::fmt;

/// Why a call failed.
#[derive(Clone, Copy, Debug, PartialEq, Eq)]
pub enum TableError {
    /// An allocation failed.
    Memory,
    /// Fewer widths are stored than there are columns.
    ShortWidths,
    /// Fewer heights are stored than there are rows.
    ShortHeights,
    /// A cell's text with its left and right padding is wider than its column.
    Narrow {
        /// The row of the first such cell, in order of rows.
        row: usize,
        /// The column of that cell.
        column: usize,
    },
    /// A sum or product exceeds `usize::MAX`.
    Range,
    /// A write failed, or wrote no bytes of a nonempty text.
    Writer,
}

impl fmt::Display for TableError {
    ghost output = { λ e. Some (error_text e) };

    fn fmt<W: fmt::Write>(&self, f: &mut fmt::Formatter<W>) -> fmt::Result {
        match self {
            TableError::Memory => write!(f, "memory"),
            TableError::ShortWidths => write!(f, "short widths"),
            TableError::ShortHeights => write!(f, "short heights"),
            TableError::Narrow { .. } => write!(f, "narrow"),
            TableError::Range => write!(f, "range"),
            TableError::Writer => write!(f, "writer"),
        }
    }
}

impl Error for TableError {}

impl From<AllocError> for TableError {
    ghost from_gives = { λ _ e. e ≡ Memory };

    fn from(_error: AllocError) -> TableError {
        TableError::Memory
    }
}

impl<T: Drop> From<AllocFailed<T>> for TableError {
    ghost from_gives = { λ _ e. e ≡ Memory };

    fn from(_error: AllocFailed<T>) -> TableError {
        TableError::Memory
    }
}
