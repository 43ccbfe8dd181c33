//! The columns of a stream, and a row of it whose cells are cut to them.
ghost use Rattle.std.specs.Prelude.{◌≡◌, ◌<◌, ◌^◌, ℕ, map};
ghost use Rattle.tabled_base.specs.Cells.{lengthened};
ghost use Rattle.tabled_table.specs.Stream.Row.{layout_columns, layout_row, width_at};

use crate::iter_table::layout::Layout;
use crate::iter_table::settings::StreamSettings;
use tabled_base::{CellText, Content};
use tabled_config::{Frame, RowStyles};
use tabled_line::{ColumnSeparator, KnownPlacements, Row, TableColumns};

/// The columns of a stream, whose widths are in range, and what else stays the same while its lines
/// are printed.
#[derive(Drop)]
pub(crate) struct StreamColumns<'a> {
    pub layout: &'a Layout,
    /// The settings of the stream.
    pub settings: &'a StreamSettings,
    /// The total width in columns.
    pub total: usize,
    ghost in_range: { (column : ℕ) → column < layout.now.count
        → width_at layout.now column < 2 ^ 64 },
}

impl<'a> TableColumns for StreamColumns<'a> {
    ghost sheet = { λ c. layout_columns c.layout.now };

    fn count_columns(&self) -> usize {
        self.layout.count
    }

    fn width(&self, column: usize) -> usize {
        self.layout.content_width(column) + self.layout.side
    }

    fn frame(&self) -> &Frame {
        &self.layout.frame
    }

    fn alike_from(&self) -> usize {
        self.layout.contents.len()
    }
}

/// A row of a stream. Its cells fit in their columns, and missing ones are empty.
#[derive(Drop)]
pub(crate) struct CutRow<'a, C: CellText> {
    pub layout: &'a Layout,
    /// The first cells; those after them are empty.
    pub cells: &'a [C],
    /// The height in lines, padding included.
    pub height: usize,
    ghost in_range: { (column : ℕ) → column < layout.now.count
        → width_at layout.now column < 2 ^ 64 },
    ghost high: { height < 2 ^ 64 },
}

impl<'a, C: CellText> Row<'a> for CutRow<'a, C> {
    ghost sheet = { λ r. layout_row r.layout.now r.height
        (lengthened r.layout.now.count (map C.text r.cells.now)) };

    fn count_columns(&self) -> usize {
        self.layout.count
    }

    fn height(&self) -> usize {
        self.height
    }

    fn frame(&self) -> &Frame {
        &self.layout.frame
    }

    fn separator(&self) -> &ColumnSeparator {
        &self.layout.separator
    }

    fn placements(&self) -> KnownPlacements<'_> {
        match self.layout.uniform {
            Some(uniform) => KnownPlacements::Uniform(uniform),
            None => KnownPlacements::Styled,
        }
    }

    fn styles(&self) -> RowStyles<'_> {
        RowStyles::Alike(self.layout.style)
    }

    fn width(&self, column: usize) -> usize {
        self.layout.content_width(column) + self.layout.side
    }

    fn content(&self, column: usize) -> Content<'a> {
        let Some(cell) = self.cells.get(column) else {
            return Content::new("");
        };
        Content::measured(cell.text(), cell.width(), cell.count_lines())
    }

    fn count_drawn(&self) -> usize {
        if self.layout.takes_more() {
            return self.layout.count;
        }
        let known = self.layout.contents.len().max(self.cells.len());
        known.min(self.layout.count)
    }
}
