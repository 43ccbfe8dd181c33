//! Values that can be rows of a table (`Tabled`).
ghost use Rattle.std.specs.Prelude.{◌≡◌, ◌+◌, ℕ, List, IfOk, IfErr, OnOk, map, vec_len};
ghost use Rattle.std.specs.Cow.{cow_str_bytes};
ghost use Rattle.tabled_base.specs.declared.error.TableError.TheVariants.{Memory};
ghost use Rattle.tabled_value.specs.Fields.{CellsAdded};

mod holders;
mod single;
mod tuples;

use crate::rows::push_texts;
use std::alloc::Global;
use std::borrow::CowStr;
use tabled_base::{TableError, Text};

/// A value that can be a row of a table, with one cell for each field.
pub trait Tabled {
    // The number of fields. By default one.
    ghost LENGTH: { ℕ } = { 1 };

    // Relates a value to the strings that its fields may have.
    ghost shows: { Self → List (List ℕ) → Type 0 };

    // The names of the fields.
    ghost names: { List (List ℕ) };

    /// Returns the number of fields. A sum that exceeds `usize::MAX` is `usize::MAX`.
    fn length() -> usize
        ensures { result ≡ LENGTH };

    /// Returns the strings of the fields. Fails only with `Memory`.
    fn fields(&self, alloc: Global) -> Result<Vec<CowStr<'_>>, TableError>
        ensures texts { IfOk result (λ v. shows self.now (map cow_str_bytes v.items)) }
        ensures length { IfOk result (λ v. vec_len v ≡ LENGTH) }
        ensures only { IfErr result (λ e. e ≡ Memory) };

    /// Returns the names of the fields. Fails only with `Memory`.
    fn headers(alloc: Global) -> Result<Vec<CowStr<'static>>, TableError>
        ensures names { IfOk result (λ v. map cow_str_bytes v.items ≡ names) }
        ensures length { IfOk result (λ v. vec_len v ≡ LENGTH) }
        ensures only { IfErr result (λ e. e ≡ Memory) };

    /// Measures the fields and appends them to a row. Fails only with `Memory`; some fields may
    /// have been appended then.
    fn push_cells(&self, row: &mut Vec<Text<String>>) -> Result<(), TableError>
        ensures texts { OnOk result (CellsAdded (shows self.now) row.old.items row.new.items) }
        ensures length { OnOk result (vec_len row.new ≡ vec_len row.old + LENGTH) }
        ensures only { IfErr result (λ e. e ≡ Memory) }
    {
        let texts = self.fields(*row.allocator())?;
        Ok(push_texts(row, texts)?)
    }
}
