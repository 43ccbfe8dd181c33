//! The widths and heights that the cells of a table need, and estimates for sizes that aren't
//! stored.
ghost use Rattle.std.specs.Prelude.{◌≡◌, ◌⊎◌, ◌<◌, IfOk, IfErr, IfNone, IfSome, IsOk, IsTrue};
ghost use Rattle.std.specs.Prelude.{MatchOption, length, OnErr, OnOk};
ghost use Rattle.tabled_base.specs.Cells.{columns};
ghost use Rattle.tabled_base.specs.declared.error.TableError.TheVariants.{Memory, Range};
ghost use Rattle.tabled_size.specs.Added.{DescribesAdded, KnowsAdded};
ghost use Rattle.tabled_size.specs.Estimates.{IsMeasured, IsTooHigh, IsTooLarge, IsTooWide};
ghost use Rattle.tabled_size.specs.Estimates.{column_width, estimated_heights, estimated_widths};
ghost use Rattle.tabled_size.specs.Estimates.{row_height};
ghost use Rattle.tabled_size.specs.FilledIn.{HasNoEstimate, IsFilledIn};
ghost use Rattle.tabled_size.specs.Stored.{is_stored};

use crate::added_padding::{KnownAdded, RowPadding};
use crate::complete_dimension::CompleteDimension;
use crate::dimension::Estimate;
use std::alloc::Global;
use tabled_base::{ContentRecords, Position, TableError};
use tabled_config::{ColoredConfig, SpannedConfig};
use tabled_entity::RowValues;

pub(crate) fn column_width<R: ContentRecords>(
    records: &R,
    config: &SpannedConfig,
    column: usize,
) -> Option<usize>
    requires { column < columns (R.cells records.now) }
    ensures { MatchOption result (IsTooWide (R.cells records.now) config.now)
        (λ n. n ≡ column_width (R.cells records.now) config.now column) }
{
    let mut most: usize = 0;
    'rows: for row in 0..records.count_rows() {
        let at = Position { row, column };
        let padding = config.get_padding(at);
        let sides = padding.left.size.checked_add(padding.right.size)?;
        let width = records.content_columns(at).checked_add(sides)?;
        most = most.max(width);
    }
    Some(most)
}

/// Estimates the width of each column. Errors: `Memory`, or `Range` if a cell needs more than
/// `usize::MAX` columns.
pub fn estimate_widths<R: ContentRecords>(
    alloc: Global,
    records: &R,
    config: &SpannedConfig,
) -> Result<Vec<usize>, TableError>
    ensures ok { IfOk result (λ v. v.items ≡ estimated_widths (R.cells records.now) config.now) }
    ensures err { IfErr result (λ e. (e ≡ Memory)
        ⊎ ((e ≡ Range) × IsTooWide (R.cells records.now) config.now)) }
{
    let mut widths = Vec::with_capacity(alloc, records.count_columns())?;
    'columns: for column in 0..records.count_columns() {
        let Some(width) = column_width(records, config, column) else {
            return Err(TableError::Range);
        };
        widths.push(width)?;
    }
    Ok(widths)
}

pub(crate) fn row_height<R: ContentRecords>(
    records: &R,
    config: &SpannedConfig,
    row: usize,
) -> Option<usize>
    requires { row < length (R.cells records.now) }
    ensures { MatchOption result (IsTooHigh (R.cells records.now) config.now)
        (λ n. n ≡ row_height (R.cells records.now) config.now row) }
{
    let mut most: usize = 0;
    let paddings = config.paddings_in(row);
    'columns: for column in 0..records.count_columns() {
        let at = Position { row, column };
        let padding = *paddings.at(column);
        let sides = padding.top.size.checked_add(padding.bottom.size)?;
        let height = records.content_lines(at).checked_add(sides)?;
        most = most.max(height);
    }
    Some(most)
}

/// Estimates the height of each row. Errors: `Memory`, or `Range` if a cell needs more than
/// `usize::MAX` lines.
pub fn estimate_heights<R: ContentRecords>(
    alloc: Global,
    records: &R,
    config: &SpannedConfig,
) -> Result<Vec<usize>, TableError>
    ensures ok { IfOk result (λ v. v.items ≡ estimated_heights (R.cells records.now) config.now) }
    ensures err { IfErr result (λ e. (e ≡ Memory)
        ⊎ ((e ≡ Range) × IsTooHigh (R.cells records.now) config.now)) }
{
    let mut heights = Vec::with_capacity(alloc, records.count_rows())?;
    'rows: for row in 0..records.count_rows() {
        let Some(height) = row_height(records, config, row) else {
            return Err(TableError::Range);
        };
        heights.push(height)?;
    }
    Ok(heights)
}

/// Raises the widths to what the cells of a row need, and returns the height that they need, given
/// what padding adds. `None` if a size exceeds `usize::MAX`.
#[inline]
fn measure_row<R: ContentRecords, A: RowPadding + Drop>(
    records: &R,
    config: &SpannedConfig,
    row: usize,
    widths: &mut [usize],
    added: A,
) -> Option<usize>
    requires row_in { row < length (R.cells records.now) }
    requires columns { length widths.old ≡ columns (R.cells records.now) }
    requires known { DescribesAdded (A.known added) config.now row (columns (R.cells records.now)) }
    ensures some { IfSome result
        (IsMeasured (R.cells records.now) config.now row widths.old widths.new) }
    ensures none { IfNone result (IsTooLarge (R.cells records.now) config.now) }
{
    let mut most: usize = 0;
    'columns: for column in 0..records.count_columns() {
        let extent = added.at(column)?;
        let cell = records.content(Position { row, column });
        let width = cell.columns.checked_add(extent.columns)?;
        let height = cell.lines.checked_add(extent.lines)?;
        widths[column] = widths[column].max(width);
        most = most.max(height);
    }
    Some(most)
}

/// Measures a row as `measure_row` does, with what padding adds: known for several rows, the same
/// in the row, or looked up.
#[inline]
fn measure_known<R: ContentRecords>(
    records: &R,
    config: &SpannedConfig,
    row: usize,
    widths: &mut [usize],
    known: &KnownAdded,
) -> Option<usize>
    requires row_in { row < length (R.cells records.now) }
    requires columns { length widths.old ≡ columns (R.cells records.now) }
    requires known { KnowsAdded known.now config.now (columns (R.cells records.now)) }
    ensures some { IfSome result
        (IsMeasured (R.cells records.now) config.now row widths.old widths.new) }
    ensures none { IfNone result (IsTooLarge (R.cells records.now) config.now) }
{
    match known {
        KnownAdded::Alike(extent) => measure_row(records, config, row, widths, *extent),
        KnownAdded::Unlike(Some(listed)) if listed.is_padded_in(config, row) => {
            measure_row(records, config, row, widths, listed.extents.as_slice())
        }
        _ => match config.paddings_in(row) {
            RowValues::Uniform(padding) => measure_row(records, config, row, widths, *padding),
            RowValues::Run(paddings) => measure_row(records, config, row, widths, paddings),
            paddings => measure_row(records, config, row, widths, paddings),
        },
    }
}

/// Estimates widths and heights in one pass over the rows. Errors: `Memory`, or `Range` if a cell
/// needs more than `usize::MAX` columns or lines.
pub fn estimate_sizes<R: ContentRecords>(
    alloc: Global,
    records: &R,
    config: &SpannedConfig,
) -> Result<(Vec<usize>, Vec<usize>), TableError>
    ensures widths { IfOk result (λ sizes. sizes.0.items
        ≡ estimated_widths (R.cells records.now) config.now) }
    ensures heights { IfOk result (λ sizes. sizes.1.items
        ≡ estimated_heights (R.cells records.now) config.now) }
    ensures err { IfErr result (λ e. (e ≡ Memory) ⊎ ((e ≡ Range)
        × IsTooLarge (R.cells records.now) config.now)) }
{
    let mut widths = vec![in alloc; 0usize; records.count_columns()]?;
    let mut heights = Vec::with_capacity(alloc, records.count_rows())?;
    let known = KnownAdded::new(alloc, config, records.count_rows(), records.count_columns());
    'rows: for row in 0..records.count_rows() {
        let Some(height) = measure_known(records, config, row, &mut widths, &known) else {
            return Err(TableError::Range);
        };
        heights.push(height)?;
    }
    Ok((widths, heights))
}

impl<R: ContentRecords> Estimate<R, SpannedConfig> for CompleteDimension {
    ghost estimates = { λ old records config new. IsFilledIn old (R.cells records) config new };

    ghost out_of_range = { λ old records config. HasNoEstimate old (R.cells records) config };

    fn estimate(&mut self, records: &R, config: &SpannedConfig) -> Result<(), TableError>
        ensures ok { OnOk result (IsFilledIn self.old (R.cells records.now) config.now self.new) }
        ensures stored { IsTrue (is_stored self.old) → IsOk result }
        ensures err { OnErr result (self.new ≡ self.old) }
        ensures only { IfErr result (λ e. (e ≡ Memory)
            ⊎ ((e ≡ Range) × HasNoEstimate self.old (R.cells records.now) config.now)) }
    {
        let alloc = self.allocator();
        match (self.get_widths().is_some(), self.get_heights().is_some()) {
            (true, true) => {}
            (true, false) => self.set_heights(estimate_heights(alloc, records, config)?),
            (false, true) => self.set_widths(estimate_widths(alloc, records, config)?),
            (false, false) => {
                let (widths, heights) = estimate_sizes(alloc, records, config)?;
                self.set_widths(widths);
                self.set_heights(heights);
            }
        }
        Ok(())
    }
}

impl<R: ContentRecords> Estimate<R, ColoredConfig> for CompleteDimension {
    ghost estimates = { λ old records config new. IsFilledIn old
        (R.cells records) config.config new };

    ghost out_of_range = { λ old records config. HasNoEstimate old
        (R.cells records) config.config };

    fn estimate(&mut self, records: &R, config: &ColoredConfig) -> Result<(), TableError>
        ensures ok { OnOk result (IsFilledIn self.old
            (R.cells records.now) config.now.config self.new) }
        ensures stored { IsTrue (is_stored self.old) → IsOk result }
        ensures err { OnErr result (self.new ≡ self.old) }
        ensures only { IfErr result (λ e. (e ≡ Memory)
            ⊎ ((e ≡ Range) × HasNoEstimate self.old (R.cells records.now) config.now.config)) }
    {
        Estimate::estimate(self, records, config.as_ref())
    }
}
