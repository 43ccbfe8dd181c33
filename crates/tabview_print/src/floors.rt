//! The widths below which columns don't shrink.
ghost use Rattle.std.specs.Prelude.{◌≡◌, ◌+◌, ◌-◌, ◌<◌, ◌≤◌, IfErr, IfOk, MatchOption, Some, length};
ghost use Rattle.std.specs.Prelude.{min, nat_le};
ghost use Rattle.tabled_base.specs.Cells.{columns};
ghost use Rattle.tabled_priority.specs.Permitted.{at, spare_total};
ghost use Rattle.tabled_size.specs.Sheet.{estimated};
ghost use Rattle.tabled_size.specs.Stored.{widths_of};
ghost use Rattle.tabled_size.specs.Estimates.{estimated_widths};
ghost use Rattle.tabled_size.specs.Totals.{total_width};
ghost use Rattle.tabled_text.specs.Measure.{text_columns};
ghost use Rattle.tabview_print.specs.Fitted.{IsTooNarrow};
ghost use Rattle.tabview_print.specs.Floors.{cell_floor, content_floor, floors_of, is_name};
ghost use Rattle.tabview_print.specs.Floors.{keeps_at};
ghost use Rattle.tabview_print.specs.PrintedTables.{StopsBeforePrinting};

use crate::layout::{Column, Fit};
use std::alloc::Global;
use tabled_base::{ExactRecords, PeekableRecords, Position, TableError};
use tabled_config::SpannedConfig;
use tabled_records::EmptyRecords;
use tabled_size::{CompleteDimension, estimate_widths};
use tabview_cells::longest_word;

/// The columns of a word that are kept at least.
pub(crate) const WORD_COLUMNS: usize = 10;

/// The widths below which columns don't shrink, and the columns by which a table is too wide.
#[derive(Debug, Drop)]
pub(crate) struct Floors {
    pub widths: Vec<usize>,
    pub excess: usize,
}

/// Returns the floors of a table that is too wide, or `None` if the columns can't give as much.
pub(crate) fn fitting_floors<R: PeekableRecords>(
    records: &R,
    config: &SpannedConfig,
    fit: &Fit<'_>,
    sizes: &CompleteDimension,
    excess: usize,
) -> Result<Option<Floors>, TableError>
    requires stored { widths_of sizes.now
        ≡ Some (estimated_widths (R.cells records.now) config.now) }
    requires wider { fit.now.width < total_width (estimated (R.cells records.now) config.now) }
    requires excess { excess
        ≡ total_width (estimated (R.cells records.now) config.now) - fit.now.width }
    ensures ok { let t = estimated (R.cells records.now) config.now in
        IfOk result (λ floors. MatchOption floors
        (IsTooNarrow fit.now.columns.now fit.now.has_header fit.now.width t)
        (λ f. (f.widths.items ≡ floors_of fit.now.columns.now fit.now.has_header t)
        × ((f.excess ≡ excess) × (excess ≤ spare_total t.widths f.widths.items)))) }
    ensures only { IfErr result (StopsBeforePrinting (estimated (R.cells records.now) config.now)) }
{
    let widths = sizes.get_widths().unwrap_or(&[]);
    let floors = column_floors(sizes.allocator(), records, config, fit, widths)?;
    if !can_give(widths, &floors, excess) {
        return Ok(None);
    }
    Ok(Some(Floors {
        widths: floors,
        excess,
    }))
}

/// Returns the width below which each column doesn't shrink: the columns that its cells want at
/// least and its padding, or its own width if that is less.
fn column_floors<R: PeekableRecords>(
    alloc: Global,
    records: &R,
    config: &SpannedConfig,
    fit: &Fit<'_>,
    widths: &[usize],
) -> Result<Vec<usize>, TableError>
    requires { widths.now ≡ estimated_widths (R.cells records.now) config.now }
    ensures ok { IfOk result (λ floors. floors.items
        ≡ floors_of fit.now.columns.now fit.now.has_header
        (estimated (R.cells records.now) config.now)) }
    ensures only { IfErr result (StopsBeforePrinting (estimated (R.cells records.now) config.now)) }
{
    let empty = EmptyRecords::new(records.count_rows(), records.count_columns());
    let list = estimate_widths(alloc, &empty, config)?;
    let minimums = list.as_slice();
    let mut floors = Vec::with_capacity(alloc, widths.len())?;
    for column in 0..widths.len() {
        let keeps = keeps_at(fit.columns, column);
        let content = content_floor(records, fit.has_header, keeps, column);
        let minimum = width_at(minimums, column);
        let width = width_at(widths, column);
        let floor = capped_sum(minimum, content, width);
        floors.push(floor)?;
    }
    Ok(floors)
}

/// Returns a width, 0 past the last column.
fn width_at(widths: &[usize], column: usize) -> usize
    ensures { result ≡ at widths.now column }
{
    widths.get(column).copied().unwrap_or(0)
}

/// Returns a sum, but no more than `most`.
fn capped_sum(a: usize, b: usize, most: usize) -> usize
    ensures { result ≡ min most (a + b) }
{
    a.saturating_add(b).min(most)
}

/// Whether a column keeps the width of its widest cell.
fn keeps_at(columns: &[Column], column: usize) -> bool
    ensures { result ≡ keeps_at columns.now column }
{
    if column < columns.len() {
        return columns[column].keeps;
    }
    false
}

/// Returns the columns that the cells of a column want at least, 1 or more.
fn content_floor<R: PeekableRecords>(
    records: &R,
    has_header: bool,
    keeps: bool,
    column: usize,
) -> usize
    requires { column < columns (R.cells records.now) }
    ensures { result ≡ content_floor has_header keeps (R.cells records.now) column }
{
    let mut most: usize = 1;
    for row in 0..records.count_rows() {
        let (text, columns, _) = records.get_measured(Position { row, column });
        let name = is_name(has_header, row);
        most = most.max(cell_floor(text, columns, name, keeps));
    }
    most
}

/// Whether the cells of a row have the names of their columns.
fn is_name(has_header: bool, row: usize) -> bool
    ensures { result ≡ is_name has_header row }
{
    has_header && row == 0
}

/// Returns the columns that a cell wants at least: for the whole text in a column that keeps its
/// width, unless it is the name; else for the longest word, but no more than a few.
fn cell_floor(text: &str, columns: usize, name: bool, keeps: bool) -> usize
    requires { columns ≡ text_columns text.now }
    ensures { result ≡ cell_floor name keeps text.now }
{
    if name {
        longest_word(text).min(WORD_COLUMNS)
    } else if keeps {
        columns
    } else {
        longest_word(text).min(WORD_COLUMNS)
    }
}

/// Whether columns can give a number of columns, none below its floor.
fn can_give(widths: &[usize], floors: &[usize], count: usize) -> bool
    requires { length floors.now ≡ length widths.now }
    ensures { result ≡ nat_le count (spare_total widths.now floors.now) }
{
    let mut left = count;
    for column in 0..widths.len() {
        left = left.saturating_sub(widths[column].saturating_sub(floors[column]));
    }
    left == 0
}
