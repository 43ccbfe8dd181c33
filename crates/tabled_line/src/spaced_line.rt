//! Lines of a row with spaces around each text, as most are: they are written text by text, with
//! separators between them.
ghost use Rattle.std.specs.Prelude.{◌≡◌, ◌<◌, ◌++◌};
ghost use Rattle.tabled_config.specs.Frame.{has_bar};
ghost use Rattle.tabled_config.specs.declared.borders.Frame.{Frame};
ghost use Rattle.tabled_line.specs.Fill.{fill};
ghost use Rattle.tabled_line.specs.Row.{cell_piece, piece, row_cells};
ghost use Rattle.tabled_line.specs.RowLines.{IsRowLine};
ghost use Rattle.tabled_line.specs.SendsBut.{WritesBut};
ghost use Rattle.tabled_line.specs.Sent.{Sent, Writes};

use crate::cell_lines::RowLine;
use crate::column_separator::SeparatorText;
use crate::padding::write_spaces;
use crate::placement::{KnownPlacements, RowPlacements, place_text};
use crate::row::{Row, write_cell};
use crate::text_sink::TextSink;
use tabled_base::TableError;
use tabled_config::RowStyles;

/// The state of a line between two of its cells.
#[derive(Clone, Copy)]
struct SpacedLine<'s, 'a> {
    line: RowLine<'s, 'a>,
    /// The separator between two texts.
    separator: SeparatorText<'s>,
    /// The pending spaces: those after the last text, which are written together with the next
    /// separator.
    behind: usize,
}

/// Writes the pending spaces, the vertical line before a column, and `before` spaces.
#[inline(always)]
fn write_separator<S: TextSink>(
    sink: &mut S,
    line: &SpacedLine<'_, '_>,
    column: usize,
    before: usize,
) -> Result<(), TableError>
    ensures { (frame : Frame) → line.now.separator.bar ≡ frame.inner
        → Writes (S.sent sink.old) result (S.sent sink.new) (fill 32 line.now.behind
        ++ (piece (has_bar frame column) frame.inner.main ++ fill 32 before)) }
{
    if column > 0 {
        return line.separator.write(sink, line.behind, before);
    }
    write_spaces(sink, line.behind)?;
    write_spaces(sink, before)
}

/// Writes the pending spaces and the next cell, except for the spaces after its text. Returns the
/// number of these.
#[inline(always)]
fn write_next_text<'a, R: Row<'a>, S: TextSink, A: RowPlacements>(
    sink: &mut S,
    row: &R,
    placements: &A,
    spaced: &SpacedLine<'_, 'a>,
    column: usize,
) -> Result<usize, TableError>
    requires inside { column < (R.sheet row.now).columns.count }
    requires line { IsRowLine (R.sheet row.now) spaced.now.line }
    requires bar { spaced.now.separator.bar ≡ (R.sheet row.now).columns.frame.inner }
    requires describes { A.describes placements.now (R.sheet row.now) }
    ensures { WritesBut (S.sent sink.old) result (S.sent sink.new) (fill 32 spaced.now.behind
        ++ cell_piece (R.sheet row.now) spaced.now.line.index column) }
{
    match place_text(row, placements, &spaced.line, column, row.width(column)) {
        Some(placed) => {
            write_separator(sink, spaced, column, placed.before)?;
            if placed.text.is_empty() {
                return Ok(placed.behind);
            }
            sink.write_text(placed.text)?;
            Ok(placed.behind)
        }
        None => {
            write_spaces(sink, spaced.behind)?;
            // A copy, so that the others need no address.
            let line = spaced.line;
            write_cell(sink, row, &line, column)?;
            Ok(0)
        }
    }
}

/// Writes the cells of a line, at their placements.
#[inline(always)]
fn write_spaced_cells<'a, R: Row<'a>, S: TextSink, A: RowPlacements + Drop>(
    sink: &mut S,
    row: &R,
    placements: A,
    line: &RowLine<'_, 'a>,
    separator: SeparatorText<'_>,
) -> Result<(), TableError>
    requires line { IsRowLine (R.sheet row.now) line.now }
    requires bar { separator.bar ≡ (R.sheet row.now).columns.frame.inner }
    requires describes { A.describes placements (R.sheet row.now) }
    ensures { Writes (S.sent sink.old) result (S.sent sink.new)
        (row_cells (R.sheet row.now) line.now.index) }
{
    let line = *line;
    let mut behind = 0;
    'cells: for column in 0..row.count_drawn() {
        let spaced = SpacedLine {
            line,
            separator,
            behind,
        };
        behind = write_next_text(sink, row, &placements, &spaced, column)?;
    }
    write_spaces(sink, behind)
}

/// Writes the cells of a line, by what is known of their placements.
#[inline(always)]
pub(crate) fn write_spaced_row<'a, R: Row<'a>, S: TextSink>(
    sink: &mut S,
    row: &R,
    line: &RowLine<'_, 'a>,
    separator: SeparatorText<'_>,
) -> Result<(), TableError>
    requires line { IsRowLine (R.sheet row.now) line.now }
    requires bar { separator.bar ≡ (R.sheet row.now).columns.frame.inner }
    ensures { Writes (S.sent sink.old) result (S.sent sink.new)
        (row_cells (R.sheet row.now) line.now.index) }
{
    match row.placements() {
        KnownPlacements::Cached(cells) => write_spaced_cells(sink, row, cells, line, separator),
        KnownPlacements::Uniform(uniform) => {
            write_spaced_cells(sink, row, uniform, line, separator)
        }
        KnownPlacements::Aligned(cells) => write_spaced_cells(sink, row, cells, line, separator),
        KnownPlacements::Styled => match row.styles() {
            RowStyles::Set(styles) => write_spaced_cells(sink, row, styles, line, separator),
            styles => write_spaced_cells(sink, row, styles, line, separator),
        },
    }
}
