//! Tables whose total width or height follows from the contract of `with` alone.
ghost use Rattle.std.specs.Prelude.{◌≡◌, ◌<◌, OnOk, false, length, max, true};
ghost use Rattle.tabled_set.specs.BestNarrowing.{HasLeastWidth, IsBestWordWrapped, IsBestWrapped};
ghost use Rattle.tabled_set.specs.ExactTotal.{empty_width};
ghost use Rattle.tabled_set.specs.HeightFrame.{frame_height};
ghost use Rattle.tabled_set.specs.Promised.{IsWiderThan};
ghost use Rattle.tabled_size.specs.Sheet.{estimated, is_empty};
ghost use Rattle.tabled_size.specs.TextCells.{AreTexts};
ghost use Rattle.tabled_size.specs.Totals.{total_height, total_width};
ghost use Rattle.tabled_table.specs.TableSheet.{cells_of, sheet};

use crate::sheet::{PAIRS, Sheet, table_of};
use std::alloc::Global;
use tabled_base::TableError;
use tabled_set::{Height, Width};
use tabled_size::Priority;
use tabled_table::Table;

// Wraps the widest columns first.
fn wrap_level(table: &mut Table, n: usize) -> Result<(), TableError>
    ensures total { OnOk result (IsWiderThan n (sheet table.old) → AreTexts (cells_of table.old)
        → total_width (sheet table.new) ≡ max n (empty_width (sheet table.old))) }
    ensures best { OnOk result (IsWiderThan n (sheet table.old)
        → IsBestWrapped false (sheet table.old) (sheet table.new)) }
    ensures least { OnOk result (IsWiderThan n (sheet table.old)
        → HasLeastWidth (sheet table.old) (sheet table.new)) }
{
    table.with(Width::wrap(n).priority(Priority::max(true)))?;
    Ok(())
}

// Wraps between words, the widest columns first.
fn wrap_between_words(table: &mut Table, n: usize) -> Result<(), TableError>
    ensures total { OnOk result (IsWiderThan n (sheet table.old) → AreTexts (cells_of table.old)
        → total_width (sheet table.new) ≡ max n (empty_width (sheet table.old))) }
    ensures best { OnOk result (IsWiderThan n (sheet table.old)
        → IsBestWordWrapped (sheet table.old) (sheet table.new)) }
    ensures least { OnOk result (IsWiderThan n (sheet table.old)
        → HasLeastWidth (sheet table.old) (sheet table.new)) }
{
    let widest = Priority::max(true);
    table.with(Width::wrap(n).drop_spaces().priority(widest))?;
    Ok(())
}

// Limits the height, row after row.
fn limit(table: &mut Table, n: usize) -> Result<(), TableError>
    ensures { OnOk result (is_empty (cells_of table.old) ≡ false
        → n < total_height (estimated (cells_of table.old) table.old.config.config)
        → total_height (sheet table.new)
        ≡ max n (frame_height table.old.config.config (length (cells_of table.old)))) }
{
    table.with(Height::limit(n))?;
    Ok(())
}

/// Returns the total width of the pairs wrapped to `n` columns.
pub fn wrapped(alloc: Global, n: usize) -> Result<usize, TableError> {
    let mut table = table_of(alloc, &PAIRS)?;
    wrap_level(&mut table, n)?;
    table.total_width()
}

/// Returns the total height of the pairs limited to `n` lines.
pub fn limited(alloc: Global, n: usize) -> Result<usize, TableError> {
    let mut table = table_of(alloc, &PAIRS)?;
    limit(&mut table, n)?;
    table.total_height()
}

const WEIR: Sheet = Sheet {
    rows: &[&["over the weir", "a"]],
    margin: 0,
    widths: None,
    heights: None,
};

/// Returns a table of a sentence, wrapped between words to `n` columns.
pub fn word_wrapped(alloc: Global, n: usize) -> Result<String, TableError> {
    let mut table = table_of(alloc, &WEIR)?;
    wrap_between_words(&mut table, n)?;
    table.to_text()
}
