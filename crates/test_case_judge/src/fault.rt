//! The errors of a case.

use std::alloc::{AllocError, AllocFailed};
use tabled::TableError;
use thiserror::Error;

/// Why a case can't be checked.
#[derive(Clone, Copy, Debug, Error)]
pub enum Fault {
    /// A call of the library failed.
    #[error("refused: {0:?}")]
    Refused(#[from] TableError),
    /// The case is malformed, or a check of its output failed.
    #[error("{0}")]
    Unknown(&'static str),
}

impl From<AllocError> for Fault {
    fn from(_error: AllocError) -> Fault {
        Fault::Refused(TableError::Memory)
    }
}

impl<T: Drop> From<AllocFailed<T>> for Fault {
    fn from(_error: AllocFailed<T>) -> Fault {
        Fault::Refused(TableError::Memory)
    }
}
