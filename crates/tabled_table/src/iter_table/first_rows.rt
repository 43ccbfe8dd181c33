//! Reads the first rows of a stream, measures them, lays out its columns by them, and prints it.
ghost use Rattle.std.specs.List.{slice_index};
ghost use Rattle.std.specs.Prelude.{Bool, IfErr, IfOk, List, OnOk, [], if◌then◌else◌, is_some};
ghost use Rattle.std.specs.Prelude.{length, map, max, not, slice_index_or, take, unwrap_or, ℕ, ◌<◌};
ghost use Rattle.std.specs.Prelude.{◌^◌, ◌||◌, ◌≡◌, ◌≢◌, ◌≤◌, ◌⊎◌};
ghost use Rattle.tabled_base.specs.declared.error.TableError.TheVariants.{Memory, Range};
ghost use Rattle.tabled_records.specs.Reading.{MayGive, ReadsTo};
ghost use Rattle.tabled_table.specs.Stream.Progress.{IsLaidOut};
ghost use Rattle.tabled_table.specs.Stream.Streamed.{column_count, content_width, sniffed, tallest};
ghost use Rattle.tabled_table.specs.Stream.Streamed.{widest};
ghost use Rattle.tabled_table.specs.Stream.Streams.{ArePermitted, Streams, stream_total};
ghost use Rattle.tabled_text.specs.Measure.{text_columns};

use crate::iter_table::layout::Layout;
use crate::iter_table::row::StreamColumns;
use crate::iter_table::settings::{StreamSettings, first_rows, up_to};
use crate::iter_table::stream::Stream;
use std::alloc::{AllocError, Global};
use tabled_base::{CellText, TableError};
use tabled_config::{AlignmentVertical, CellStyle, CompactConfig, SpannedConfig};
use tabled_line::{ColumnSeparator, LinePrinter, TextSink, UniformPlacement};
use tabled_records::flat_rows::{FlatRows, take_flat_rows};

/// Raises the content width of a column to at least `columns`. The column is one of those in
/// `contents`, or the next.
fn raise(contents: &mut Vec<usize>, column: usize, columns: usize) -> Result<(), AllocError>
    requires { column ≤ length contents.old.items }
    ensures at { OnOk result (slice_index contents.new.items column
        ≡ max (slice_index contents.old.items column) columns) }
    ensures others { OnOk result ((other : ℕ) → other ≢ column
        → slice_index contents.new.items other ≡ slice_index contents.old.items other) }
    ensures longer { OnOk result (column < length contents.new.items) }
{
    if column < contents.len() {
        contents[column] = contents[column].max(columns);
        return Ok(());
    }
    contents.push(columns)?;
    Ok(())
}

/// Raises the content width of each column to at least the width of its cell in a row.
fn widen<C: CellText>(
    contents: &mut Vec<usize>,
    cells: &[C],
    count: usize,
) -> Result<(), AllocError>
    ensures { OnOk result ((column : ℕ) → column < count
        → slice_index contents.new.items column
        ≡ max (slice_index contents.old.items column)
        (text_columns (slice_index_or (map C.text cells.now) column []))) }
{
    let known = count.min(cells.len());
    'cells: for column in 0..known {
        raise(contents, column, cells[column].width())?;
    }
    Ok(())
}

/// Returns the widths of the widest cells of the first rows, at most `ahead`.
pub(crate) fn widest_cells<C: CellText>(
    alloc: Global,
    rows: &FlatRows<C>,
    ahead: usize,
    count: usize,
) -> Result<Vec<usize>, AllocError>
    ensures { IfOk result (λ contents. (column : ℕ) → column < count
        → slice_index contents.items column
        ≡ widest (take ahead (map (map C.text) rows.now)) column) }
{
    let mut contents = Vec::new(alloc);
    let ahead = ahead.min(rows.len());
    'rows: for index in 0..ahead {
        widen(&mut contents, rows.row(index), count)?;
    }
    Ok(contents)
}

/// Returns the lines of the tallest of a row's first cells, at least 1.
fn tallest_cell<C: CellText>(cells: &[C], count: usize) -> usize
    ensures { result ≡ tallest count (map C.text cells.now) }
{
    let mut lines: usize = 1;
    let known = count.min(cells.len());
    'cells: for column in 0..known {
        lines = lines.max(cells[column].count_lines());
    }
    lines
}

/// Returns the lines for text in a row, which is read ahead or not.
pub(crate) fn content_height<C: CellText>(
    settings: &StreamSettings,
    count: usize,
    ahead: bool,
    cells: &[C],
) -> usize
    ensures { result ≡ unwrap_or settings.now.height
        (if is_some settings.now.width || not ahead then 1
        else tallest count (map C.text cells.now)) }
{
    match settings.height {
        Some(height) => height,
        None if settings.width.is_some() || !ahead => 1,
        None => tallest_cell(cells, count),
    }
}

/// Returns the content widths of the first columns, and that of each further one.
fn content_widths<C: CellText>(
    alloc: Global,
    settings: &StreamSettings,
    rows: &FlatRows<C>,
    count: usize,
) -> Result<(Vec<usize>, usize), AllocError>
    ensures { IfOk result (λ contents. (column : ℕ) → column < count
        → slice_index_or contents.0.items column contents.1
        ≡ content_width settings.now (sniffed settings.now (map (map C.text) rows.now)) column) }
{
    match settings.width {
        Some(width) => Ok((Vec::new(alloc), width)),
        None => Ok((widest_cells(alloc, rows, settings.sniff, count)?, 0)),
    }
}

/// Returns the layout of `count` columns, at least one. Fails with `Memory`, and with `Range` if
/// the side padding exceeds `usize::MAX`, as then the total width does.
fn lay_out<C: CellText>(
    alloc: Global,
    settings: &StreamSettings,
    config: &CompactConfig,
    rows: &FlatRows<C>,
    count: usize,
) -> Result<Layout, TableError>
    requires count { count
        ≡ column_count settings.now (sniffed settings.now (map (map C.text) rows.now)) }
    requires some { 0 < count }
    ensures ok { IfOk result (λ layout. IsLaidOut settings.now config.now
        (sniffed settings.now (map (map C.text) rows.now)) layout) }
    ensures err { IfErr result (λ e. ((e ≡ Range) × (2 ^ 64 ≤ stream_total settings.now config.now
        (sniffed settings.now (map (map C.text) rows.now)))) ⊎ (e ≡ Memory)) }
{
    let padding = *config.get_padding();
    let Some(side) = padding.left.size.checked_add(padding.right.size) else {
        return Err(TableError::Range);
    };
    let (contents, rest) = content_widths(alloc, settings, rows, count)?;
    let spanned = SpannedConfig::from_compact(alloc, *config);
    let style = CellStyle {
        padding,
        horizontal: config.get_alignment_horizontal(),
        vertical: AlignmentVertical::Top,
        line_alignment: false,
    };
    let frame = config.frame();
    Ok(Layout {
        count,
        contents,
        rest,
        mark: settings.mark,
        side,
        frame,
        top: spanned.rule_at(1, 0),
        inner: spanned.rule_at(2, 1),
        bottom: spanned.rule_at(1, 1),
        style,
        separator: ColumnSeparator::new(frame.inner),
        uniform: UniformPlacement::new(&style),
    })
}

/// Prints the stream of an iterator. Prints nothing if there is no column or no row is shown. The
/// iterator is left after exactly the rows that the contract names.
pub(crate) fn print_stream<
    I: Iterator<Item = W>,
    W: IntoIterator<Item = C>,
    C: CellText + Drop,
    S: TextSink,
>(
    alloc: Global,
    settings: &StreamSettings,
    config: &CompactConfig,
    sink: &mut S,
    rows: &mut I,
) -> Result<(), TableError>
    requires { MayGive I.can_next I.next_gives I.remaining
        W.into_iter_gives W.IntoIter.can_next W.IntoIter.remaining rows.old }
    ensures { (cells : List (List C)) × (whole : Bool)
        × ReadsTo I.next_gives W.into_iter_gives W.IntoIter.next_gives rows.old cells whole rows.new
        × ArePermitted settings.now (map (map C.text) cells)
        × Streams (record {
          settings = settings.now;
          config = config.now;
          rows = map (map C.text) cells;
          whole = whole;
        }) (S.sent sink.old) result (S.sent sink.new) }
{
    let taken = take_flat_rows(alloc, rows, first_rows(settings))?;
    let count = settings.columns.unwrap_or(taken.rows.columns());
    if count == 0 || up_to(settings.rows, taken.rows.len()) == 0 {
        return Ok(());
    }
    let layout = lay_out(alloc, settings, config, &taken.rows, count)?;
    let Some(total) = layout.total_width() else {
        return Err(TableError::Range);
    };
    let columns = StreamColumns {
        layout: &layout,
        settings,
        total,
    };
    let mut stream = Stream {
        alloc,
        lines: LinePrinter::new(columns, Some(alloc)),
        first: true,
    };
    stream.write_all(sink, rows, &taken)
}
