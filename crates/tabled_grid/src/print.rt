//! Checks a table, and writes all of its lines.
ghost use Rattle.std.specs.Prelude.{false, is_some};
ghost use Rattle.tabled_grid.specs.Grid.{sheet_by};
ghost use Rattle.tabled_grid.specs.Printed.{IsChecked, Prints, WritesPicture};
ghost use Rattle.tabled_line.specs.Sent.{Sent};
ghost use Rattle.tabled_size.specs.Holds.{IsSized};

use crate::checks::{check_narrow, check_sizes, check_totals};
use crate::column_styles::{NO_PLACEMENT, count_kept};
use crate::grid::{Grid, GridColumns, GridRow};
use std::alloc::Global;
use tabled_base::{ContentRecords, TableError};
use tabled_config::SpannedConfig;
use tabled_line::{Cursor, LinePrinter, Row, TextSink};
use tabled_size::{Dimension, is_empty};

/// The number of cursors on the stack for tables of at most this many columns.
const FEW_CURSORS: usize = 8;

/// The number of cursors on the stack for wider tables that don't allocate.
const SOME_CURSORS: usize = 64;

/// The most cursors on the stack. Columns after these have none, unless they are allocated.
const MANY_CURSORS: usize = 1_024;

/// The most columns whose placements are cached without allocation.
const FEW_PLACEMENTS: usize = 128;

/// Writes the lines of a table, joined by line feeds. Margins are `whole` columns wide. The cursors
/// are for the first columns, in any state.
pub(crate) fn write_picture<'a, R: ContentRecords, D: Dimension, S: TextSink>(
    sink: &mut S,
    grid: &'a Grid<'a, R, D>,
    cursors: &mut [Cursor<'a>],
    whole: usize,
) -> Result<(), TableError>
    requires { IsSized grid.now }
    ensures { WritesPicture grid.now whole (S.sent sink.old) result (S.sent sink.new) }
{
    let margin = grid.around.margin;
    let mut lines = LinePrinter::new(GridColumns { grid }, grid.memory);
    lines.write_margin(sink, margin.top, whole)?;
    'rows: for row in 0..grid.records.count_rows() {
        lines.write_rule(sink, grid.rule_at(row))?;
        lines.write_row(sink, &GridRow { grid, row }, cursors)?;
    }
    lines.write_rule(sink, grid.rule_at(grid.records.count_rows()))?;
    lines.write_margin(sink, margin.bottom, whole)
}

/// Writes a picture with cursors for some columns. Each call clears their stack, so this is a
/// separate function.
#[inline(never)]
fn write_with_some_cursors<'a, R: ContentRecords, D: Dimension, S: TextSink>(
    sink: &mut S,
    grid: &'a Grid<'a, R, D>,
    whole: usize,
) -> Result<(), TableError>
    requires { IsSized grid.now }
    ensures { WritesPicture grid.now whole (S.sent sink.old) result (S.sent sink.new) }
{
    write_picture(sink, grid, &mut [Cursor::nowhere(); SOME_CURSORS], whole)
}

/// Writes a picture with cursors for many columns, which take 88 KiB of stack.
#[inline(never)]
fn write_with_many_cursors<'a, R: ContentRecords, D: Dimension, S: TextSink>(
    sink: &mut S,
    grid: &'a Grid<'a, R, D>,
    whole: usize,
) -> Result<(), TableError>
    requires { IsSized grid.now }
    ensures { WritesPicture grid.now whole (S.sent sink.old) result (S.sent sink.new) }
{
    write_picture(sink, grid, &mut [Cursor::nowhere(); MANY_CURSORS], whole)
}

/// Whether a row has several lines.
fn has_tall_row<'a, R: ContentRecords, D: Dimension>(grid: &'a Grid<'a, R, D>) -> bool
    requires { IsSized grid.now }
{
    'rows: for row in 0..grid.records.count_rows() {
        if (GridRow { grid, row }).height() > 1 {
            return true;
        }
    }
    false
}

/// Prints a table whose sizes hold its cells. With an allocator, more than `FEW_CURSORS` cursors
/// are allocated, if a row needs them. `Range`: a total passes `usize::MAX`; nothing is written.
#[tactic(auto, unfolding(crate::specs::Picture::picture))]
pub(crate) fn print_checked<'a, R: ContentRecords, D: Dimension, S: TextSink>(
    memory: Option<Global>,
    sink: &mut S,
    grid: &'a Grid<'a, R, D>,
) -> Result<(), TableError>
    requires { IsChecked grid.now }
    ensures { Prints (is_some memory) grid.now (S.sent sink.old) result (S.sent sink.new) }
{
    let whole = check_totals(grid)?;
    let columns = grid.records.count_columns();
    if columns <= FEW_CURSORS {
        return write_picture(sink, grid, &mut [Cursor::nowhere(); FEW_CURSORS], whole);
    }
    match memory {
        // Only rows of several lines use cursors.
        _ if !has_tall_row(grid) => write_picture(sink, grid, &mut [], whole),
        Some(alloc) => {
            let mut cursors = vec![in alloc; Cursor::nowhere(); columns]?;
            write_picture(sink, grid, &mut cursors, whole)
        }
        None if columns <= SOME_CURSORS => write_with_some_cursors(sink, grid, whole),
        None => write_with_many_cursors(sink, grid, whole),
    }
}

/// Prints a table piece by piece, without allocation. A table with no row or no column prints
/// nothing.
///
/// These errors come before anything is written, in this order:
/// - `ShortWidths`, `ShortHeights`: the dimension has too few sizes.
/// - `Narrow`: the first cell, row by row, that doesn't fit its column.
/// - `Range`: the total width or height passes `usize::MAX`.
///
/// Later errors are those of the sink.
#[inline(never)]
#[tactic(auto, unfolding(crate::specs::Picture::picture))]
pub fn print_grid<R: ContentRecords, D: Dimension, S: TextSink>(
    sink: &mut S,
    records: &R,
    config: &SpannedConfig,
    dimension: &D,
) -> Result<(), TableError>
    ensures { Prints false (sheet_by (R.cells records.now) config.now (D.width_at dimension.now)
        (D.height_at dimension.now)) (S.sent sink.old) result (S.sent sink.new) }
{
    if is_empty(records) {
        return Ok(());
    }
    let mut buffer = [NO_PLACEMENT; FEW_PLACEMENTS];
    let count = count_kept(records, config, FEW_PLACEMENTS);
    let grid = Grid::new(records, config, dimension, None, &mut buffer[..count]);
    check_sizes(&grid)?;
    check_narrow(&grid)?;
    print_checked(None, sink, &grid)
}
