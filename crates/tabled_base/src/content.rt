//! The text of a cell as it is printed: with its measures, and with what ends its lines.
ghost use Rattle.std.specs.Option.{option_map};
ghost use Rattle.std.specs.Prelude.{IfSome, length, slice_get, ◌≡◌};
ghost use Rattle.tabled_base.specs.Cells.{IsInside, cell_at};
ghost use Rattle.tabled_text.specs.LineEnds.{AreEnds, ended_text};
ghost use Rattle.tabled_text.specs.Measure.{line_columns, lines_of, text_columns};
ghost use Rattle.tabled_text.specs.declared.line_ends.LineEnds.TheVariants.{Feeds};

use crate::position::Position;
use crate::records::{ExactRecords, PeekableRecords};
use tabled_text::{LineEnds, first_line, text_measures};

/// A text, what ends its lines, its width in columns, and its number of lines.
///
/// ```rust
/// let content = Content::new("a weir\nby the sea"); // 10 columns, 2 lines
/// ```
#[derive(Clone, Copy)]
pub struct Content<'a> {
    /// The text. If it is one line, its lines end with line feeds.
    pub text: &'a str,
    /// What ends its lines.
    pub ends: LineEnds,
    /// Its width in columns: that of its widest line.
    pub columns: usize,
    /// Its number of lines.
    pub lines: usize,
    ghost ends_are: { AreEnds ends text.now },
    ghost one_is: { lines ≡ 1 → ends ≡ Feeds },
    ghost columns_are: { columns ≡ text_columns (ended_text ends text.now) },
    ghost lines_are: { lines ≡ length (lines_of (ended_text ends text.now)) },
}

impl<'a> Content<'a> {
    /// Measures a text whose lines end with line feeds.
    pub fn new(text: &'a str) -> Content<'a>
        ensures { ended_text result.ends result.text.now ≡ text.now }
    {
        let (columns, lines) = text_measures(text);
        Content::measured(text, columns, lines)
    }

    /// Returns a text whose lines end with line feeds, with its measures.
    #[inline(always)]
    pub fn measured(text: &'a str, columns: usize, lines: usize) -> Content<'a>
        requires columns { columns ≡ text_columns text.now }
        requires lines { lines ≡ length (lines_of text.now) }
        ensures { ended_text result.ends result.text.now ≡ text.now }
    {
        Content {
            text,
            ends: LineEnds::Feeds,
            columns,
            lines,
        }
    }

    /// Returns a line of the text, and its width in columns.
    pub fn line(&self, index: usize) -> Option<(&'a str, usize)>
        ensures line { option_map (λ line. line.0.now) result
            ≡ slice_get (lines_of (ended_text self.now.ends self.now.text.now)) index }
        ensures columns { IfSome result (λ line. line.1 ≡ line_columns line.0.now) }
    {
        if self.lines == 1 && index == 0 {
            return Some((self.text, self.columns));
        }
        let mut rest = self.text;
        'lines: for _before in 0..index {
            let (_, _, after) = first_line(rest, self.ends);
            rest = after?;
        }
        let (line, columns, _) = first_line(rest, self.ends);
        Some((line, columns))
    }
}

/// Records whose cells can be printed in any order. The stored texts may differ from the printed
/// ones.
pub trait ContentRecords: ExactRecords {
    /// Returns the text of a cell with its measures.
    fn content(&self, at: Position) -> Content<'_>
        requires { IsInside (Self.cells self.now) at.row at.column }
        ensures { ended_text result.ends result.text.now
            ≡ cell_at (Self.cells self.now) at.row at.column };

    /// Returns the width of a cell's text in columns.
    fn content_columns(&self, at: Position) -> usize
        requires { IsInside (Self.cells self.now) at.row at.column }
        ensures { result ≡ text_columns (cell_at (Self.cells self.now) at.row at.column) };

    /// Returns the number of lines of a cell's text.
    fn content_lines(&self, at: Position) -> usize
        requires { IsInside (Self.cells self.now) at.row at.column }
        ensures { result ≡ length (lines_of (cell_at (Self.cells self.now) at.row at.column)) };
}

impl<R: PeekableRecords> ContentRecords for R {
    #[inline(always)]
    fn content(&self, at: Position) -> Content<'_> {
        let (text, columns, lines) = self.get_measured(at);
        Content::measured(text, columns, lines)
    }

    #[inline(always)]
    fn content_columns(&self, at: Position) -> usize {
        self.get_width(at)
    }

    #[inline(always)]
    fn content_lines(&self, at: Position) -> usize {
        self.count_lines(at)
    }
}
