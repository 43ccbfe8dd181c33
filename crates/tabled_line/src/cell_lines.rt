//! A line of a row: what its cells have in it, and the cursors in their texts.
ghost use Rattle.std.specs.Prelude.{length, true, ◌-◌, ◌<◌, ◌≡◌, ◌≤◌};
ghost use Rattle.tabled_base.specs.Content.{content_text};
ghost use Rattle.tabled_config.specs.RowStyles.{style_in};
ghost use Rattle.tabled_line.specs.Block.{fill_above};
ghost use Rattle.tabled_line.specs.Cursors.{AreAt, IsAt, IsCursor, cursor_of};
ghost use Rattle.tabled_line.specs.Row.{RowSheet};
ghost use Rattle.tabled_line.specs.RowLines.{AreTop, IsCellLine, IsRowLine, IsTop};

use crate::cell_block::CellBlock;
use crate::cursor::Cursor;
use crate::row::Row;
use tabled_config::{AlignmentVertical, CellStyle, RowStyles};

/// A line of a text, its width in columns, and the width of the whole text.
#[derive(Clone, Copy)]
pub(crate) struct TextLine<'a> {
    pub text: &'a str,
    pub columns: usize,
    pub widest: usize,
}

/// What a cell has in a line of a row.
#[derive(Clone, Copy)]
pub(crate) enum CellLine<'a> {
    /// A line of its text.
    Text(TextLine<'a>),
    /// Spaces, since its text ends above.
    Blank,
    /// It isn't known: the lines of the text may be aligned one by one, fills other than spaces may
    /// be below it, it has several lines in a row of one, or it has no cursor.
    Unknown,
}

/// Moves the cursors of a row to its line `index`, from the line before it.
pub(crate) fn advance_cursors(cursors: &mut [Cursor<'_>], index: usize)
    ensures { (row : RowSheet) → AreAt row (index - 1) cursors.old → AreAt row index cursors.new }
{
    if index == 0 {
        return;
    }
    'columns: for column in 0..cursors.len() {
        cursors[column].advance();
    }
}

/// A line of a row.
#[derive(Clone, Copy)]
pub(crate) struct RowLine<'s, 'a> {
    /// Its index.
    pub index: usize,
    /// The height of the row.
    pub height: usize,
    /// Whether `are_top` is known of the row.
    pub top: bool,
    /// The cursors in the first texts. A row of one line needs none.
    pub cursors: &'s [Cursor<'a>],
}

impl<'s, 'a> RowLine<'s, 'a> {
    /// Returns the only line of a row.
    #[inline(always)]
    pub fn only() -> RowLine<'s, 'a>
        ensures line { (row : RowSheet) → row.height ≡ 1 → IsRowLine row result }
        ensures first { result.index ≡ 0 }
    {
        RowLine {
            index: 0,
            height: 1,
            top: false,
            cursors: &[],
        }
    }

    /// Returns what a cell has in this line.
    #[inline(always)]
    pub fn cell_line<R: Row<'a>>(&self, row: &R, column: usize) -> CellLine<'a>
        requires known { IsRowLine (R.sheet row.now) self.now }
        requires inside { column < (R.sheet row.now).columns.count }
        ensures { IsCellLine (R.sheet row.now) self.now.index column result }
    {
        if self.height == 1 {
            let content = row.content(column);
            if content.lines != 1 {
                return CellLine::Unknown;
            }
            return CellLine::Text(TextLine {
                text: content.text,
                columns: content.columns,
                widest: content.columns,
            });
        }
        if !self.top || column >= self.cursors.len() {
            return CellLine::Unknown;
        }
        let cursor = &self.cursors[column];
        match cursor.line {
            Some((text, columns)) => CellLine::Text(TextLine {
                text,
                columns,
                widest: cursor.widest,
            }),
            None => CellLine::Blank,
        }
    }

    /// Returns the cursor of a cell's text. If it has none, its line is searched from the start.
    pub fn cursor(&self, cell: &CellBlock<'a>, column: usize) -> Cursor<'a>
        requires { column < length self.now.cursors.now → IsAt (content_text cell.now.content)
            (fill_above cell.now.style cell.now.height (content_text cell.now.content)) self.now.index
            (cursor_of self.now.cursors.now column) }
        ensures { IsAt (content_text cell.now.content) (fill_above cell.now.style cell.now.height
            (content_text cell.now.content)) self.now.index result }
    {
        if column < self.cursors.len() {
            return self.cursors[column];
        }
        let mut cursor = Cursor::new(&cell.content, cell.text_start());
        'lines: for _index in 0..self.index {
            cursor.advance();
        }
        cursor
    }
}

/// Whether a text with this style begins in the first line of its cell, all its lines are aligned
/// alike, and spaces are below it.
#[inline(always)]
fn is_top(style: &CellStyle) -> bool
    ensures { result ≡ true → IsTop style.now }
{
    let padding = &style.padding;
    let AlignmentVertical::Top = style.vertical else {
        return false;
    };
    padding.top.size == 0 && padding.bottom.fill == ' ' && !style.line_alignment
}

/// Whether `is_top` is true of all cells of a row.
pub(crate) fn are_top<'a, R: Row<'a>>(row: &R) -> bool
    ensures { result ≡ true → AreTop (R.sheet row.now) }
{
    let styles = row.styles();
    if let RowStyles::Alike(style) = &styles {
        return is_top(style);
    }
    'columns: for column in 0..row.count_columns() {
        if !is_top(&styles.at(column)) {
            return false;
        }
    }
    true
}

/// Returns the cursor of a cell's text in the first line of a row.
#[inline(always)]
fn first_cursor<'a, R: Row<'a>>(
    row: &R,
    styles: &RowStyles<'_>,
    column: usize,
    top: bool,
) -> Cursor<'a>
    requires inside { column < (R.sheet row.now).columns.count }
    requires style { style_in styles.now column ≡ (R.sheet row.now).style column }
    requires top { top ≡ true → IsTop ((R.sheet row.now).style column) }
    ensures { IsCursor (R.sheet row.now) 0 column result }
{
    let content = row.content(column);
    if top {
        return Cursor::new(&content, 0);
    }
    let cell = CellBlock {
        style: styles.at(column),
        width: row.width(column),
        height: row.height(),
        content,
    };
    Cursor::new(&content, cell.text_start())
}

/// Moves the cursors of a row to its first line. `top`: `are_top` is known of the row.
pub(crate) fn begin_cursors<'a, R: Row<'a>>(cursors: &mut [Cursor<'a>], row: &R, top: bool)
    requires within { length cursors.old ≤ (R.sheet row.now).columns.count }
    requires top { top ≡ true → AreTop (R.sheet row.now) }
    ensures { AreAt (R.sheet row.now) 0 cursors.new }
{
    let styles = row.styles();
    'columns: for column in 0..cursors.len() {
        cursors[column] = first_cursor(row, &styles, column, top);
    }
}
