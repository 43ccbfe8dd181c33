//! Checks whether the sizes of a table are complete and hold its cells, in the order of the errors.
ghost use Rattle.std.specs.Prelude.{◌≡◌, ◌↔◌, ◌<◌, ◌≤◌, IsTrue, false, length, IfOk, IfErr, ℕ};
ghost use Rattle.std.specs.Prelude.{MatchOption, MatchResult, OnOk};
ghost use Rattle.std.specs.List.{slice_index};
ghost use Rattle.tabled_base.specs.Cells.{columns};
ghost use Rattle.tabled_config.specs.Settings.{style_at};
ghost use Rattle.tabled_entity.specs.RowValues.{value_at};
ghost use Rattle.tabled_line.specs.Placements.{ArePlacements, IsPlaceable, placement_of};
ghost use Rattle.tabled_size.specs.Effective.{effective};
ghost use Rattle.tabled_size.specs.Stored.{is_stored};
ghost use Rattle.tabled_size.specs.Totals.{filled_width};
ghost use Rattle.tabled_size.specs.Holds.{Holds, IsHeld, IsSized};
ghost use Rattle.tabled_grid.specs.Narrow.{IsHeldIn, IsNarrow, IsNarrowIn};
ghost use Rattle.tabled_grid.specs.Picture.{sheet_columns};
ghost use Rattle.tabled_grid.specs.Printed.{IsInRange, FailsToPrint};

use crate::column_styles::placement_buffer;
use crate::grid::Grid;
use tabled_base::{ContentRecords, Position, TableError};
use tabled_config::{Indent, Sides, SpannedConfig};
use tabled_entity::RowValues;
use tabled_line::Placement;
use tabled_size::{
    CompleteDimension, Dimension, check_heights, check_widths, filled_height, filled_width,
};

fn is_held<R: ContentRecords, D: Dimension>(
    grid: &Grid<'_, R, D>,
    row: usize,
    column: usize,
    padding: Sides<Indent>,
) -> bool
    requires sized { columns grid.now.cells ≤ length grid.now.widths }
    requires row_in { row < length grid.now.cells }
    requires column_in { column < columns grid.now.cells }
    requires padding { padding ≡ (style_at grid.now.config row column).padding }
    ensures { IsTrue result ↔ IsHeld grid.now row column }
{
    let width = grid.width(column);
    let used = grid.records.content_columns(Position { row, column });
    padding.left.size <= width
        && padding.right.size <= width - padding.left.size
        && used <= width - padding.left.size - padding.right.size
}

fn fits_placement<R: ContentRecords, D: Dimension>(
    grid: &Grid<'_, R, D>,
    row: usize,
    column: usize,
    placement: Placement,
) -> bool
    requires row_in { row < length grid.now.cells }
    requires column_in { column < columns grid.now.cells }
    requires placement { placement ≡ placement_of (style_at grid.now.config row column)
        (slice_index grid.now.widths column) }
    requires placeable { IsPlaceable (style_at grid.now.config row column)
        (slice_index grid.now.widths column) }
    ensures { IsTrue result ↔ IsHeld grid.now row column }
{
    grid.records.content_columns(Position { row, column }) <= placement.content_width
}

/// Returns the first column of a row that is too narrow for its cell, by cached placements.
fn narrow_by_placements<R: ContentRecords, D: Dimension>(
    grid: &Grid<'_, R, D>,
    row: usize,
    placements: &[Placement],
) -> Option<usize>
    requires sized { columns grid.now.cells ≤ length grid.now.widths }
    requires row_in { row < length grid.now.cells }
    requires placements { ArePlacements (style_at grid.now.config row) (sheet_columns grid.now)
        placements.now }
    ensures { MatchOption result (IsHeldIn grid.now row) (IsNarrowIn grid.now row) }
{
    'columns: for column in 0..placements.len() {
        if !fits_placement(grid, row, column, placements[column]) {
            return Some(column);
        }
    }
    None
}

/// Returns the first column of a row that is too narrow for its cell, where all have one padding.
fn narrow_by_padding<R: ContentRecords, D: Dimension>(
    grid: &Grid<'_, R, D>,
    row: usize,
    padding: Sides<Indent>,
) -> Option<usize>
    requires sized { columns grid.now.cells ≤ length grid.now.widths }
    requires row_in { row < length grid.now.cells }
    requires padding { (column : ℕ) → (style_at grid.now.config row column).padding ≡ padding }
    ensures { MatchOption result (IsHeldIn grid.now row) (IsNarrowIn grid.now row) }
{
    'columns: for column in 0..grid.records.count_columns() {
        if !is_held(grid, row, column, padding) {
            return Some(column);
        }
    }
    None
}

/// Returns the first column of a row that is too narrow for its cell, with each padding looked up.
fn narrow_by_lookup<R: ContentRecords, D: Dimension>(
    grid: &Grid<'_, R, D>,
    row: usize,
    paddings: RowValues<'_, Sides<Indent>>,
) -> Option<usize>
    requires sized { columns grid.now.cells ≤ length grid.now.widths }
    requires row_in { row < length grid.now.cells }
    requires paddings { (column : ℕ) → value_at paddings column
        ≡ (style_at grid.now.config row column).padding }
    ensures { MatchOption result (IsHeldIn grid.now row) (IsNarrowIn grid.now row) }
{
    'columns: for column in 0..grid.records.count_columns() {
        if !is_held(grid, row, column, *paddings.at(column)) {
            return Some(column);
        }
    }
    None
}

fn narrow_in<R: ContentRecords, D: Dimension>(grid: &Grid<'_, R, D>, row: usize) -> Option<usize>
    requires sized { columns grid.now.cells ≤ length grid.now.widths }
    requires row_in { row < length grid.now.cells }
    ensures { MatchOption result (IsHeldIn grid.now row) (IsNarrowIn grid.now row) }
{
    if let Some(placements) = grid.placements(row) {
        return narrow_by_placements(grid, row, placements);
    }
    match grid.config.paddings_in(row) {
        RowValues::Uniform(padding) => narrow_by_padding(grid, row, *padding),
        paddings => narrow_by_lookup(grid, row, paddings),
    }
}

/// Checks that the widths, of which there is one for each column, hold all cells. `Narrow`: the
/// first cell that doesn't fit, row by row.
pub(crate) fn check_narrow<R: ContentRecords, D: Dimension>(
    grid: &Grid<'_, R, D>,
) -> Result<(), TableError>
    requires sized { columns grid.now.cells ≤ length grid.now.widths }
    ensures ok { OnOk result (Holds grid.now) }
    ensures err { IfErr result (IsNarrow grid.now) }
{
    'rows: for row in 0..grid.records.count_rows() {
        if let Some(column) = narrow_in(grid, row) {
            return Err(TableError::Narrow { row, column });
        }
    }
    Ok(())
}

/// Checks that there are enough sizes. `ShortWidths`, `ShortHeights`: there are too few.
pub(crate) fn check_sizes<R: ContentRecords, D: Dimension>(
    grid: &Grid<'_, R, D>,
) -> Result<(), TableError>
    ensures ok { OnOk result (IsSized grid.now) }
    ensures err { IfErr result (FailsToPrint grid.now) }
{
    check_widths(grid.dimension, grid.records.count_columns())?;
    check_heights(grid.dimension, grid.records.count_rows())
}

/// Returns the total width. `Range`: the total width or height passes `usize::MAX`.
pub(crate) fn check_totals<R: ContentRecords, D: Dimension>(
    grid: &Grid<'_, R, D>,
) -> Result<usize, TableError>
    requires sized { IsSized grid.now }
    requires holds { Holds grid.now }
    ensures width { IfOk result (λ n. n ≡ filled_width grid.now.config
        (columns grid.now.cells) grid.now.widths) }
    ensures in_range { OnOk result (IsInRange grid.now) }
    ensures err { IfErr result (FailsToPrint grid.now) }
{
    let width = filled_width(grid.config, grid.records.count_columns(), grid.dimension);
    let height = filled_height(grid.config, grid.records.count_rows(), grid.dimension);
    match (width, height) {
        (Some(width), Some(_)) => Ok(width),
        _ => Err(TableError::Range),
    }
}

/// Checks the widths or heights that are stored, before the others are estimated. Estimates are
/// complete and hold all cells. `ShortWidths`, `ShortHeights`: the stored list is too short.
/// `Narrow`: the first cell that doesn't fit a stored width.
///
/// Not inlined: the values that inlined code has on the stack, here a whole grid, are cleared on
/// each call, even for tables that don't need them.
#[inline(never)]
pub(crate) fn check_stored<R: ContentRecords>(
    records: &R,
    config: &SpannedConfig,
    stored: &CompleteDimension,
) -> Result<(), TableError>
    requires { is_stored stored.now ≡ false }
    ensures { let t = effective (R.cells records.now) config.now stored.now in
        MatchResult result (λ _. IsSized t × Holds t) (FailsToPrint t) }
{
    match stored.get_widths() {
        Some(_) => {
            check_widths(stored, records.count_columns())?;
            let mut buffer = placement_buffer(stored.allocator(), records, config);
            check_narrow(&Grid::new(records, config, stored, None, &mut buffer))
        }
        None => match stored.get_heights() {
            Some(_) => check_heights(stored, records.count_rows()),
            None => Ok(()),
        },
    }
}
