//! Why rows aren't printed.

use std::alloc::AllocError;
use tabled_base::TableError;

/// Why rows aren't printed, or not to their end.
#[derive(Clone, Copy, Debug, PartialEq, Eq)]
pub enum PrintError {
    /// A call of the library failed.
    Table(TableError),
    /// The width is less than records need. That many columns are enough.
    TooNarrow(usize),
}

impl From<TableError> for PrintError {
    ghost use Rattle.std.specs.Prelude.{◌≡◌};
    ghost use Rattle.tabview_records.specs.declared.error.PrintError.TheVariants.{Table};

    ghost from_gives = { λ error e. e ≡ Table error };

    fn from(error: TableError) -> PrintError {
        PrintError::Table(error)
    }
}

impl From<AllocError> for PrintError {
    ghost use Rattle.std.specs.Prelude.{◌≡◌};
    ghost use Rattle.tabled_base.specs.declared.error.TableError.TheVariants.{Memory};
    ghost use Rattle.tabview_records.specs.declared.error.PrintError.TheVariants.{Table};

    ghost from_gives = { λ _ e. e ≡ Table Memory };

    fn from(_error: AllocError) -> PrintError {
        PrintError::Table(TableError::Memory)
    }
}
