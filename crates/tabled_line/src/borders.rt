//! The columns of a table, and the lines around and between them: vertical lines, with the margin
//! at both ends, and horizontal lines.
ghost use Rattle.std.specs.Prelude.{◌≡◌, ◌<◌, ◌≤◌, ℕ, false};
ghost use Rattle.tabled_config.specs.Frame.{has_bar};
ghost use Rattle.tabled_line.specs.Row.{ColumnSheet, left_edge, right_edge};
ghost use Rattle.tabled_line.specs.Row.{piece, rule_line, rule_pieces};
ghost use Rattle.tabled_line.specs.Sent.{Sent, Writes};

use crate::padding::{write_char, write_fill};
use crate::text_sink::TextSink;
use tabled_base::TableError;
use tabled_config::{Frame, HorizontalLine};

/// The columns of a table: their number, their widths, and the frame around and between them.
pub trait TableColumns {
    // The columns as contracts see them.
    ghost sheet: { Self → ColumnSheet };

    /// Returns the number of columns.
    fn count_columns(&self) -> usize
        ensures { result ≡ (sheet self.now).count };

    /// Returns the width of a column, in text columns, padding included.
    fn width(&self, column: usize) -> usize
        requires { column < (sheet self.now).count }
        ensures { result ≡ (sheet self.now).width column };

    /// Returns the vertical lines and the margin.
    fn frame(&self) -> &Frame
        ensures { result.now ≡ (sheet self.now).frame };

    /// Returns an index from which on all columns are equally wide, or the number of columns.
    /// Returning the number of columns is always safe; a smaller index lets `count_drawn` skip
    /// zero-width columns.
    fn alike_from(&self) -> usize
        ensures { (column : ℕ) → result ≤ column → column < (sheet self.now).count
            → (sheet self.now).width column ≡ (sheet self.now).width result }
    {
        self.count_columns()
    }
}

/// Returns how many of the first columns are drawn. The others have no width and no vertical line
/// before them.
pub fn count_drawn<C: TableColumns>(columns: &C) -> usize
    ensures within { result ≤ (C.sheet columns.now).count }
    ensures rest { (column : ℕ) → result ≤ column → column < (C.sheet columns.now).count
        → ((C.sheet columns.now).width column ≡ 0)
        × (has_bar (C.sheet columns.now).frame column ≡ false) }
{
    let count = columns.count_columns();
    let from = columns.alike_from();
    if from < count && !columns.frame().inner.there && columns.width(from) == 0 {
        from
    } else {
        count
    }
}

/// Writes `c`, the character of a vertical line, if `there` is true.
pub fn write_bar<S: TextSink>(sink: &mut S, there: bool, c: char) -> Result<(), TableError>
    ensures { Writes (S.sent sink.old) result (S.sent sink.new) (piece there c) }
{
    if there { write_char(sink, c) } else { Ok(()) }
}

/// Writes the left margin and the left vertical line.
pub fn write_left_edge<S: TextSink>(sink: &mut S, frame: &Frame, c: char) -> Result<(), TableError>
    ensures { Writes (S.sent sink.old) result (S.sent sink.new) (left_edge frame.now c) }
{
    let margin = frame.margin.left;
    write_fill(sink, margin.fill, margin.size)?;
    write_bar(sink, frame.left.there, c)
}

/// Writes the right vertical line and the right margin.
pub fn write_right_edge<S: TextSink>(sink: &mut S, frame: &Frame, c: char) -> Result<(), TableError>
    ensures { Writes (S.sent sink.old) result (S.sent sink.new) (right_edge frame.now c) }
{
    write_bar(sink, frame.right.there, c)?;
    let margin = frame.margin.right;
    write_fill(sink, margin.fill, margin.size)
}

/// Writes a horizontal line without its two ends: the part over each column, and the intersections
/// with vertical lines.
pub fn write_rule_pieces<C: TableColumns, S: TextSink>(
    sink: &mut S,
    columns: &C,
    line: &HorizontalLine,
) -> Result<(), TableError>
    ensures { Writes (S.sent sink.old) result (S.sent sink.new)
        (rule_pieces (C.sheet columns.now) line.now) }
{
    'pieces: for column in 0..count_drawn(columns) {
        let there = columns.frame().has_bar(column);
        write_bar(sink, there, line.intersection.unwrap_or(' '))?;
        write_fill(sink, line.main.unwrap_or(' '), columns.width(column))?;
    }
    Ok(())
}

/// Writes a horizontal line. A missing character is a space.
pub fn write_rule_line<C: TableColumns, S: TextSink>(
    sink: &mut S,
    columns: &C,
    line: &HorizontalLine,
) -> Result<(), TableError>
    ensures { Writes (S.sent sink.old) result (S.sent sink.new)
        (rule_line (C.sheet columns.now) line.now) }
{
    let frame = columns.frame();
    write_left_edge(sink, frame, line.left.unwrap_or(' '))?;
    write_rule_pieces(sink, columns, line)?;
    write_right_edge(sink, frame, line.right.unwrap_or(' '))
}
