//! The lines of the block of a cell.
ghost use Rattle.std.specs.List.{slice_index_or};
ghost use Rattle.std.specs.Prelude.{List, [], ℕ, ◌-◌, ◌<◌, ◌^◌, ◌≡◌, ◌≤◌};
ghost use Rattle.tabled_base.specs.Content.{content_text};
ghost use Rattle.tabled_line.specs.Block.{above_text, before_text, block, cell_line};
ghost use Rattle.tabled_line.specs.Block.{columns_before, fill_above, free_lines, inner_width};
ghost use Rattle.tabled_line.specs.Cursors.{IsAt};
ghost use Rattle.tabled_line.specs.Sent.{Sent, Writes};
ghost use Rattle.tabled_text.specs.Measure.{line_columns};

use crate::cursor::Cursor;
use crate::padding::{write_fill, write_padded_text};
use crate::text_sink::TextSink;
use tabled_base::{Content, TableError};
use tabled_config::{AlignmentHorizontal, AlignmentVertical, CellStyle};

/// Returns how many of the free columns come before the text.
pub fn before_text(alignment: AlignmentHorizontal, free: usize) -> usize
    ensures { result ≡ before_text alignment free }
{
    // Two selects instead of a three-way branch, since alignments may differ from cell to cell.
    let centered = if let AlignmentHorizontal::Center = alignment {
        free / 2
    } else {
        free
    };
    if let AlignmentHorizontal::Left = alignment {
        0
    } else {
        centered
    }
}

/// A cell to print: its text, style, width and height.
#[derive(Clone, Copy)]
pub struct CellBlock<'a> {
    /// The padding and the alignments.
    pub style: CellStyle,
    /// The width in columns, padding included.
    pub width: usize,
    /// The height in lines, padding included.
    pub height: usize,
    /// The text and its measures.
    pub content: Content<'a>,
    ghost in_range: { height < 2 ^ 64 },
}

impl<'a> CellBlock<'a> {
    fn inner_width(&self) -> usize
        ensures { result ≡ inner_width self.now.style self.now.width }
    {
        self.width
            .saturating_sub(self.style.padding.left.size)
            .saturating_sub(self.style.padding.right.size)
    }

    /// Returns the columns before a line of the text, which is itself `columns` wide.
    fn columns_before(&self, columns: usize) -> usize
        ensures { (line : List ℕ) → columns ≡ line_columns line
            → result ≡ columns_before self.now.style (inner_width self.now.style self.now.width)
            (content_text self.now.content) line }
    {
        let used = if self.style.line_alignment {
            columns
        } else {
            self.content.columns
        };
        before_text(
            self.style.horizontal,
            self.inner_width().saturating_sub(used),
        )
    }

    /// Writes a line of the text, `columns` wide, with padding and alignment, over the width of the
    /// cell.
    pub fn write_text_line<S: TextSink>(
        &self,
        sink: &mut S,
        line: &str,
        columns: usize,
    ) -> Result<(), TableError>
        requires { columns ≡ line_columns line.now }
        ensures { Writes (S.sent sink.old) result (S.sent sink.new)
            (cell_line self.now.style self.now.width (content_text self.now.content) line.now) }
    {
        let before = self.columns_before(columns);
        let behind = self
            .inner_width()
            .saturating_sub(before)
            .saturating_sub(columns);
        write_padded_text(sink, &self.style.padding, before, line, behind)
    }

    /// Returns how many lines the alignment adds above the text.
    pub fn lines_above(&self) -> usize
        ensures value { result ≡ above_text self.now.style.vertical
            (free_lines self.now.style self.now.height (content_text self.now.content)) }
        ensures within { result ≤ self.now.height - self.now.style.padding.top.size }
    {
        let padding = self.style.padding;
        let free = self
            .height
            .saturating_sub(self.content.lines)
            .saturating_sub(padding.top.size)
            .saturating_sub(padding.bottom.size);
        match self.style.vertical {
            AlignmentVertical::Top => 0,
            AlignmentVertical::Center => free / 2,
            AlignmentVertical::Bottom => free,
        }
    }

    /// Returns how many lines of the block come before the text.
    pub fn text_start(&self) -> usize
        ensures { result ≡ fill_above self.now.style self.now.height (content_text self.now.content) }
    {
        // In range, since alignment adds at most the height less the padding.
        self.style.padding.top.size + self.lines_above()
    }

    /// Writes the line of the block at `index`, in which the cursor of its text is.
    pub(crate) fn write_line<S: TextSink>(
        &self,
        sink: &mut S,
        cursor: &Cursor<'a>,
        index: usize,
    ) -> Result<(), TableError>
        requires index { index < self.now.height }
        requires cursor { IsAt (content_text self.now.content)
            (fill_above self.now.style self.now.height (content_text self.now.content)) index cursor.now }
        ensures { Writes (S.sent sink.old) result (S.sent sink.new)
            (slice_index_or (block self.now.style self.now.width self.now.height
            (content_text self.now.content)) index []) }
    {
        let above = self.text_start();
        if index < above {
            return write_fill(sink, self.style.padding.top.fill, self.width);
        }
        match cursor.line {
            Some((line, columns)) => self.write_text_line(sink, line, columns),
            None => write_fill(sink, self.style.padding.bottom.fill, self.width),
        }
    }
}
