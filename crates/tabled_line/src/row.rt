//! The trait of rows, and writing one line of a row.
ghost use Rattle.std.specs.Prelude.{◌≡◌, ◌<◌, ◌≤◌, ℕ, []};
ghost use Rattle.tabled_base.specs.Content.{content_text};
ghost use Rattle.tabled_config.specs.RowStyles.{style_in};
ghost use Rattle.tabled_line.specs.Placements.{AreKnown};
ghost use Rattle.tabled_line.specs.Row.{RowSheet, cell_piece, row_cells, row_line};
ghost use Rattle.tabled_line.specs.RowLines.{IsRowLine};
ghost use Rattle.tabled_line.specs.Sent.{Sent, Writes};

use crate::borders::{write_bar, write_left_edge, write_right_edge};
use crate::cell_block::CellBlock;
use crate::cell_lines::RowLine;
use crate::column_separator::ColumnSeparator;
use crate::placement::KnownPlacements;
use crate::spaced_line::write_spaced_row;
use crate::text_sink::TextSink;
use tabled_base::{Content, TableError};
use tabled_config::{Frame, RowStyles};

/// A row of cells to print: the cells, and the frame around and between them.
pub trait Row<'a> {
    // The row as contracts see it.
    ghost sheet: { Self → RowSheet };

    /// Returns the number of cells.
    fn count_columns(&self) -> usize
        ensures { result ≡ (sheet self.now).columns.count };

    /// Returns the number of lines, padding included.
    fn height(&self) -> usize
        ensures { result ≡ (sheet self.now).height };

    /// Returns the vertical lines and the margin.
    fn frame(&self) -> &Frame
        ensures { result.now ≡ (sheet self.now).columns.frame };

    /// Returns the separator between two texts.
    fn separator(&self) -> &ColumnSeparator
        ensures { result.now.bar ≡ (sheet self.now).columns.frame.inner };

    /// Returns what is known of the placements. `Styled` is always right.
    fn placements(&self) -> KnownPlacements<'_>
        ensures { AreKnown (sheet self.now).style (sheet self.now).columns result };

    /// Returns the styles of the cells.
    fn styles(&self) -> RowStyles<'_>
        ensures { (column : ℕ) → column < (sheet self.now).columns.count
            → style_in result column ≡ (sheet self.now).style column };

    /// Returns the width of a column, in text columns, padding included.
    fn width(&self, column: usize) -> usize
        requires { column < (sheet self.now).columns.count }
        ensures { result ≡ (sheet self.now).columns.width column };

    /// Returns the text of a cell, with its measures.
    fn content(&self, column: usize) -> Content<'a>
        requires { column < (sheet self.now).columns.count }
        ensures { content_text result ≡ (sheet self.now).text column };

    /// Returns how many of the first cells are drawn: all lines of the others are empty, and the
    /// others are skipped. Returning the number of cells is always safe.
    fn count_drawn(&self) -> usize
        ensures within { result ≤ (sheet self.now).columns.count }
        ensures rest { (column index : ℕ) → result ≤ column
            → column < (sheet self.now).columns.count
            → cell_piece (sheet self.now) index column ≡ [] };
}

/// Writes a line of a cell, after the vertical line before it.
pub(crate) fn write_cell<'a, R: Row<'a>, S: TextSink>(
    sink: &mut S,
    row: &R,
    line: &RowLine<'_, 'a>,
    column: usize,
) -> Result<(), TableError>
    requires inside { column < (R.sheet row.now).columns.count }
    requires line { IsRowLine (R.sheet row.now) line.now }
    ensures { Writes (S.sent sink.old) result (S.sent sink.new)
        (cell_piece (R.sheet row.now) line.now.index column) }
{
    let frame = row.frame();
    write_bar(sink, frame.has_bar(column), frame.inner.main)?;
    let cell = CellBlock {
        style: row.styles().at(column),
        width: row.width(column),
        height: line.height,
        content: row.content(column),
    };
    cell.write_line(sink, &line.cursor(&cell, column), line.index)
}

/// Writes the cells of a line. Most need no blocks.
fn write_cells<'a, R: Row<'a>, S: TextSink>(
    sink: &mut S,
    row: &R,
    line: &RowLine<'_, 'a>,
) -> Result<(), TableError>
    requires { IsRowLine (R.sheet row.now) line.now }
    ensures { Writes (S.sent sink.old) result (S.sent sink.new)
        (row_cells (R.sheet row.now) line.now.index) }
{
    if let Some(separator) = row.separator().text() {
        if line.height == 1 {
            // Known here, so that the loop over the cells doesn't ask for it.
            return write_spaced_row(sink, row, &RowLine::only(), separator);
        }
        if line.top {
            return write_spaced_row(sink, row, line, separator);
        }
    }
    'cells: for column in 0..row.count_drawn() {
        write_cell(sink, row, line, column)?;
    }
    Ok(())
}

/// Writes a line of a row.
pub(crate) fn write_row_line<'a, R: Row<'a>, S: TextSink>(
    sink: &mut S,
    row: &R,
    line: &RowLine<'_, 'a>,
) -> Result<(), TableError>
    requires { IsRowLine (R.sheet row.now) line.now }
    ensures { Writes (S.sent sink.old) result (S.sent sink.new)
        (row_line (R.sheet row.now) line.now.index) }
{
    let frame = row.frame();
    write_left_edge(sink, frame, frame.left.main)?;
    write_cells(sink, row, line)?;
    write_right_edge(sink, frame, frame.right.main)
}
