//! Prints records with their effective sizes: the stored ones, or else estimates.
ghost use Rattle.std.specs.Prelude.{◌≡◌, ◌⊎◌, ◌<◌, ◌≤◌, ℕ, IfErr, IfSome, MatchResult, false};
ghost use Rattle.std.specs.Prelude.{length, not, true};
ghost use Rattle.std.specs.List.{slice_index};
ghost use Rattle.tabled_base.specs.declared.error.TableError.TheVariants.{Memory, Range, Writer};
ghost use Rattle.tabled_size.specs.Sheet.{estimated, is_empty};
ghost use Rattle.tabled_size.specs.Effective.{effective};
ghost use Rattle.tabled_size.specs.FilledIn.{IsFilledIn};
ghost use Rattle.tabled_size.specs.Holds.{Holds, IsSized};
ghost use Rattle.tabled_size.specs.Stored.{is_stored};
ghost use Rattle.tabled_grid.specs.Printed.{FailsToPrint, Prints};
ghost use Rattle.tabled_line.specs.Sent.{Sent};

use crate::checks::check_stored;
use crate::column_styles::placement_buffer;
use crate::grid::Grid;
use crate::print::{print_checked, print_grid};
use std::alloc::Global;
use tabled_base::{ContentRecords, TableError};
use tabled_config::SpannedConfig;
use tabled_line::TextSink;
use tabled_size::{CompleteDimension, Estimate, estimate_sizes, is_empty};

/// Whether there are at least the needed sizes.
fn are_enough(sizes: &[usize], needed: &[usize]) -> bool
    ensures enough { result ≡ true → length needed.now ≤ length sizes.now }
    ensures each { result ≡ true → (i : ℕ) → i < length needed.now
        → slice_index needed.now i ≤ slice_index sizes.now i }
{
    needed.len() <= sizes.len() && (0..needed.len()).all(|i| needed[i] <= sizes[i])
}

/// Completes stored widths with estimated heights. One pass over the cells also gives the needed
/// widths, which check the stored ones. `None` if a cell doesn't fit, and wherever an error is
/// possible.
fn with_heights<R: ContentRecords>(
    records: &R,
    config: &SpannedConfig,
    stored: &CompleteDimension,
) -> Option<CompleteDimension>
    requires { is_stored stored.now ≡ false }
    ensures { let t = effective (R.cells records.now) config.now stored.now in
        IfSome result (λ sizes. IsFilledIn stored.now (R.cells records.now) config.now sizes
        × IsSized t × Holds t) }
{
    let widths = stored.get_widths()?;
    let Ok((needed, heights)) = estimate_sizes(stored.allocator(), records, config) else {
        return None;
    };
    if !are_enough(widths, &needed) {
        return None;
    }
    let Ok(mut sizes) = stored.clone() else {
        return None;
    };
    sizes.set_heights(heights);
    Some(sizes)
}

/// Returns the stored sizes, checked and completed with estimates. Errors: `Memory`, or those of
/// `check_stored` and `estimate`.
fn complete<R: ContentRecords>(
    records: &R,
    config: &SpannedConfig,
    stored: &CompleteDimension,
) -> Result<CompleteDimension, TableError>
    requires { is_stored stored.now ≡ false }
    ensures { let t = effective (R.cells records.now) config.now stored.now in
        MatchResult result (λ sizes. IsFilledIn stored.now (R.cells records.now) config.now sizes
        × IsSized t × Holds t) (λ e. (e ≡ Memory) ⊎ FailsToPrint t e) }
{
    if let Some(sizes) = with_heights(records, config, stored) {
        return Ok(sizes);
    }
    check_stored(records, config, stored)?;
    let mut sizes = stored.clone()?;
    sizes.estimate(records, config)?;
    Ok(sizes)
}

/// Prints records with sizes that aren't all stored. These take stack that `print_grid` doesn't
/// need, so this is a separate function.
#[inline(never)]
fn print_completed<R: ContentRecords, S: TextSink>(
    sink: &mut S,
    records: &R,
    config: &SpannedConfig,
    stored: &CompleteDimension,
) -> Result<(), TableError>
    requires filled { is_empty (R.cells records.now) ≡ false }
    requires missing { is_stored stored.now ≡ false }
    ensures { Prints true (effective (R.cells records.now) config.now stored.now)
        (S.sent sink.old) result (S.sent sink.new) }
{
    let sizes = complete(records, config, stored)?;
    let memory = Some(sizes.allocator());
    let mut buffer = placement_buffer(sizes.allocator(), records, config);
    let grid = Grid::new(records, config, &sizes, memory, &mut buffer);
    print_checked(memory, sink, &grid)
}

/// Prints records with their effective sizes: the stored ones, or else those that the cells need. A
/// table with no row or no column prints nothing.
///
/// These errors come before anything is written, in this order:
/// - `ShortWidths`, `ShortHeights`: a stored list is shorter than the table.
/// - `Narrow`: the first cell, row by row, that doesn't fit its column.
/// - `Range`: the total width or height passes `usize::MAX`.
///
/// If sizes are missing, `Memory` can come before anything is written: an allocation for them
/// failed. Later errors are those of the sink.
pub fn print_standing<R: ContentRecords, S: TextSink>(
    sink: &mut S,
    records: &R,
    config: &SpannedConfig,
    stored: &CompleteDimension,
) -> Result<(), TableError>
    ensures { Prints (not (is_stored stored.now))
        (effective (R.cells records.now) config.now stored.now)
        (S.sent sink.old) result (S.sent sink.new) }
{
    if is_empty(records) {
        return Ok(());
    }
    if stored.is_complete() {
        return print_grid(sink, records, config, stored);
    }
    print_completed(sink, records, config, stored)
}

/// Prints records with the sizes that their cells need. A table with no row or no column prints
/// nothing.
///
/// `Memory`: an allocation failed. `Range`: the total width or height passes `usize::MAX`; nothing
/// is written. `Writer`: a write failed.
pub fn print_estimated<R: ContentRecords, S: TextSink>(
    alloc: Global,
    sink: &mut S,
    records: &R,
    config: &SpannedConfig,
) -> Result<(), TableError>
    ensures printed { Prints true (estimated (R.cells records.now) config.now)
        (S.sent sink.old) result (S.sent sink.new) }
    ensures only { IfErr result (λ e. (e ≡ Memory) ⊎ ((e ≡ Range) ⊎ (e ≡ Writer))) }
{
    print_standing(sink, records, config, &CompleteDimension::new(alloc))
}
