//! The traits of sizes (`Dimension`, `Estimate`).
ghost use Rattle.std.specs.Prelude.{◌≡◌, ◌≤◌, ◌⊎◌, ℕ, Option, Some, IfErr, IfSome, OnOk, OnErr};
ghost use Rattle.std.specs.Prelude.{is_some, true};
ghost use Rattle.tabled_base.specs.declared.error.TableError.TheVariants.{Memory, Range};

use tabled_base::TableError;

/// The widths of columns, in terminal columns, and the heights of rows, in lines. Both include
/// padding.
pub trait Dimension {
    // The width of a column, if it is known.
    ghost width_at: { Self → ℕ → Option ℕ };

    // The height of a row, if it is known.
    ghost height_at: { Self → ℕ → Option ℕ };

    /// Whether the width of a column is known.
    fn has_width(&self, column: usize) -> bool
        ensures { result ≡ is_some (width_at self.now column) };

    /// Whether the height of a row is known.
    fn has_height(&self, row: usize) -> bool
        ensures { result ≡ is_some (height_at self.now row) };

    /// Returns the width of a column, which must be known.
    fn get_width(&self, column: usize) -> usize
        requires { is_some (width_at self.now column) ≡ true }
        ensures { Some result ≡ width_at self.now column };

    /// Returns the height of a row, which must be known.
    fn get_height(&self, row: usize) -> usize
        requires { is_some (height_at self.now row) ≡ true }
        ensures { Some result ≡ height_at self.now row };

    /// Returns a column, if one is known, whose width all later columns share; without a width,
    /// they have none either. Callers then handle these columns at once. Returning `None` is always
    /// safe.
    fn alike_from(&self) -> Option<usize>
        ensures { IfSome result (λ from. (column : ℕ) → from ≤ column
            → width_at self.now column ≡ width_at self.now from) }
    {
        None
    }
}

/// Sizes that can be estimated from records `R` and a configuration `C`.
pub trait Estimate<R, C> {
    // Relates the old sizes, the records and the configuration to the new sizes. By default nothing
    // changes.
    ghost estimates: { Self → R → C → Self → Type 0 } = { λ s _ _ t. t ≡ s };

    // A needed size exceeds `usize::MAX`. By default none does.
    ghost out_of_range: { Self → R → C → Type 0 } = { λ _ _ _. ⊥ };

    /// Estimates and stores the sizes that aren't stored. Errors: `Memory`, or `Range` if a size
    /// exceeds `usize::MAX`. The sizes then don't change.
    fn estimate(&mut self, records: &R, config: &C) -> Result<(), TableError>
        ensures ok { OnOk result (estimates self.old records.now config.now self.new) }
        ensures err { OnErr result (self.new ≡ self.old) }
        ensures only { IfErr result (λ e. (e ≡ Memory)
            ⊎ ((e ≡ Range) × out_of_range self.old records.now config.now)) };
}
