//! Prints a table with a minimum width and an alignment, and implements `Display`.
ghost use Rattle.std.specs.Prelude.{◌≡◌, ◌⊎◌, ◌+◌, ◌<◌, ◌^◌, IfErr, IfOk, None, Some, false};
ghost use Rattle.std.specs.Prelude.{length, max};
ghost use Rattle.tabled_text.specs.FramedLines.{IsSeparatorColumn};
ghost use Rattle.tabled_text.specs.Plain.{IsAdditiveColumn};
ghost use Rattle.tabled_base.specs.Cells.{columns};
ghost use Rattle.tabled_base.specs.declared.error.TableError.TheVariants.{Memory, Range};
ghost use Rattle.tabled_base.specs.declared.error.TableError.TheVariants.{ShortWidths};
ghost use Rattle.tabled_size.specs.Holds.{Holds};
ghost use Rattle.tabled_size.specs.PlainCells.{AreAdditive};
ghost use Rattle.tabled_size.specs.Sheet.{is_empty};
ghost use Rattle.tabled_size.specs.Stored.{widths_of};
ghost use Rattle.tabled_size.specs.TextCells.{AreTexts};
ghost use Rattle.tabled_size.specs.Totals.{total_width};
ghost use Rattle.tabled_line.specs.Additive.{EachLineTakes};
ghost use Rattle.tabled_grid.specs.Picture.{picture};
ghost use Rattle.tabled_grid.specs.Printed.{Prints};
ghost use Rattle.tabled_table.specs.PrintedWith.{asked, missing_columns, overridden_sheet};
ghost use Rattle.tabled_table.specs.PrintedWith.{shown_config, shown_fill, takes_memory, widened};
ghost use Rattle.tabled_table.specs.TableSheet.{IsApart, IsAdditiveTable, cells_of, sheet};

use crate::table::Table;
use std::fmt;
use tabled_base::{Entity, TableError};
use tabled_config::{AlignmentHorizontal, Indent, Sides, SpannedConfig};
use tabled_grid::{TextSink, print_standing};
use tabled_size::is_empty;

/// Returns a margin with the missing columns added to its sides.
fn widened(
    margin: Sides<Indent>,
    align: Option<AlignmentHorizontal>,
    fill: char,
    missing: usize,
) -> Sides<Indent>
    requires { 0 < missing → margin.left.size + margin.right.size + missing < 2 ^ 64 }
    ensures { result ≡ widened margin align fill missing }
{
    if missing == 0 {
        return margin;
    }
    let fill = if fill == '\0' { ' ' } else { fill };
    let left = match align {
        None | Some(AlignmentHorizontal::Left) => missing,
        Some(AlignmentHorizontal::Center) => missing / 2,
        Some(AlignmentHorizontal::Right) => 0,
    };
    let right = missing - left;
    Sides::new(
        Indent::new(margin.left.size + left, fill),
        Indent::new(margin.right.size + right, fill),
        margin.top,
        margin.bottom,
    )
}

/// Returns a copy of the settings, with the missing columns in the margin and with an alignment for
/// the whole table, if one is given. Fails only if an allocation fails (`Memory`).
fn shown_config(
    config: &SpannedConfig,
    align: Option<AlignmentHorizontal>,
    fill: char,
    missing: usize,
) -> Result<SpannedConfig, TableError>
    requires { 0 < missing
        → config.now.margin.left.size + config.now.margin.right.size + missing < 2 ^ 64 }
    ensures ok { IfOk result (λ shown. shown ≡ shown_config config.now align fill missing) }
    ensures only { IfErr result (λ e. e ≡ Memory) }
{
    let mut shown = config.clone()?;
    shown.set_margin(widened(*config.get_margin(), align, fill, missing));
    if let Some(alignment) = align {
        shown.set_alignment_horizontal(Entity::Global, alignment)?;
    }
    Ok(shown)
}

impl Table {
    /// Returns how many columns the table lacks to a width. Returns 0 if no width is asked for, or
    /// if the total exceeds `usize::MAX`.
    ///
    /// Fails with `Memory` only if no widths are stored, and with `ShortWidths`.
    #[tactic(auto, using(crate::proofs::Shown::margins_within))]
    fn missing_columns(&self, width: Option<usize>) -> Result<usize, TableError>
        requires { is_empty (cells_of self.now) ≡ false }
        ensures ok { IfOk result (λ n. n ≡ missing_columns self.now width) }
        ensures room { IfOk result (λ n. 0 < n → self.now.config.config.margin.left.size
            + self.now.config.config.margin.right.size + n < 2 ^ 64) }
        ensures err { IfErr result (λ e. ((e ≡ Memory) × (widths_of self.now.dimension ≡ None))
            ⊎ ((e ≡ ShortWidths)
            × (length (sheet self.now).widths < columns (cells_of self.now)))) }
    {
        let Some(width) = width else {
            return Ok(0);
        };
        match self.total_width() {
            Ok(total) => Ok(width.saturating_sub(total)),
            Err(TableError::Range) => Ok(0),
            Err(error) => Err(error),
        }
    }

    /// Prints the table as `write_to` does, but at least `width` columns wide, and with an
    /// alignment for the whole table, if they are given. The table itself doesn't change.
    ///
    /// The missing columns are added to the side margins. `Left`, as `None`, adds all of them on
    /// the left, `Right` on the right, and `Center` the smaller half on the left. If columns are
    /// missing, both side margins are filled with `fill`, or with spaces if it is U+0000.
    ///
    /// Fails as `write_to` does, and also with `Memory`, before the first byte, if settings have to
    /// change.
    #[tactic(auto, using(crate::proofs::Shown::total_of_shown, crate::proofs::Shown::texts_of_shown, crate::proofs::Shown::columns_of_shown))]
    pub fn print_with<S: TextSink>(
        &self,
        sink: &mut S,
        width: Option<usize>,
        align: Option<AlignmentHorizontal>,
        fill: char,
    ) -> Result<(), TableError>
        ensures printed { Prints (takes_memory self.now width align)
            (overridden_sheet self.now width align fill)
            (S.sent sink.old) result (S.sent sink.new) }
        ensures total { is_empty (cells_of self.now) ≡ false
            → total_width (overridden_sheet self.now width align fill)
            ≡ max (asked width) (total_width (sheet self.now)) }
        ensures texts { IsApart self.now → AreTexts (cells_of self.now) → Holds (sheet self.now)
            → IsSeparatorColumn (shown_fill fill)
            → EachLineTakes (total_width (overridden_sheet self.now width align fill))
            (picture (overridden_sheet self.now width align fill)) }
        ensures columns { IsAdditiveTable self.now → AreAdditive (cells_of self.now)
            → Holds (sheet self.now) → IsAdditiveColumn (shown_fill fill)
            → EachLineTakes (total_width (overridden_sheet self.now width align fill))
            (picture (overridden_sheet self.now width align fill)) }
    {
        if is_empty(&self.records) {
            return Ok(());
        }
        let missing = self.missing_columns(width)?;
        if align.is_none() && missing == 0 {
            return self.write_to(sink);
        }
        let config = shown_config(self.config.as_ref(), align, fill, missing)?;
        print_standing(sink, &self.records, &config, &self.dimension)
    }
}

/// Writes the text that `to_text` returns. Fails with `fmt::Error` if `to_text` or the writer
/// fails.
impl fmt::Display for Table {
    ghost use Rattle.tabled_table.specs.TableSheet.{sheet};
    ghost use Rattle.tabled_grid.specs.Picture.{table_text};

    ghost output = { λ table. Some (table_text (sheet table)) };

    fn fmt<W: fmt::Write>(&self, f: &mut fmt::Formatter<W>) -> fmt::Result {
        match self.to_text() {
            Ok(text) => f.write_str(&text),
            Err(_) => Err(fmt::Error),
        }
    }
}
