//! The columns of a compact table, the cells in them, and which rows of a source are shown.
ghost use Rattle.std.specs.Prelude.{Bool, IfErr, IfOk, IsTrue, List, OnOk, [], if◌then◌else◌};
ghost use Rattle.std.specs.Prelude.{length, min, nat_lt, ℕ, ◌+◌, ◌<◌, ◌==◌, ◌↔◌, ◌≡◌, ◌≤◌};
ghost use Rattle.tabled_base.specs.declared.error.TableError.TheVariants.{ShortWidths};
ghost use Rattle.tabled_compact.specs.CompactCells.{CompactSheet, compact_columns, compact_piece};
ghost use Rattle.tabled_compact.specs.CompactCells.{sheet_by};
ghost use Rattle.tabled_compact.specs.CompactLines.{part_front, row_part};
ghost use Rattle.tabled_config.specs.Frame.{frame_of};
ghost use Rattle.tabled_line.specs.Leading.{lines_after};
ghost use Rattle.tabled_line.specs.Sent.{Sends, Sent, Writes};
ghost use Rattle.tabled_size.specs.Reached.{reached};

use std::marker::Model;
use tabled_base::{CellText, TableError};
use tabled_config::{CompactConfig, Frame};
use tabled_line::{
    TableColumns, TextSink, before_text, count_drawn, write_bar, write_padded_text,
    write_right_edge,
};
use tabled_size::{Dimension, check_widths};

/// The columns of a compact table, all of which have a width. In contracts it is a `CompactSheet`.
#[derive(Drop)]
pub(crate) struct CompactColumns<'a, D: Dimension> {
    config: &'a CompactConfig,
    dimension: &'a D,
    count: usize,
    around: Frame,
}

impl<'a, D: Dimension> Model for CompactColumns<'a, D> {
    ghost Value = { CompactSheet };

    ghost view = { λ c. sheet_by c.config.now (D.width_at c.dimension.now) c.count };

    ghost invariant = { λ c. (c.around ≡ frame_of c.config.now.borders c.config.now.margin)
        × (c.count ≤ length (reached (D.width_at c.dimension.now) c.count)) };
}

impl<'a, D: Dimension> CompactColumns<'a, D> {
    /// Returns `count` columns with a configuration. Fails with `ShortWidths` if the dimension
    /// lacks the width of one.
    pub fn new(
        config: &'a CompactConfig,
        dimension: &'a D,
        count: usize,
    ) -> Result<CompactColumns<'a, D>, TableError>
        ensures ok { IfOk result (λ columns.
            columns ≡ sheet_by config.now (D.width_at dimension.now) count) }
        ensures sized { OnOk result (count ≤ length (reached (D.width_at dimension.now) count)) }
        ensures err { IfErr result (λ e. (e ≡ ShortWidths)
            × (length (reached (D.width_at dimension.now) count) < count)) }
    {
        check_widths(dimension, count)?;
        Ok(CompactColumns {
            config,
            dimension,
            count,
            around: config.frame(),
        })
    }

    pub fn config(&self) -> &'a CompactConfig
        ensures { result.now ≡ self.now.config }
    {
        self.config
    }

    /// Writes the vertical line before a column, and a text with its padding, aligned in the
    /// content width. A wider text is written whole, without spaces for alignment.
    fn write_cell<T: CellText, S: TextSink>(
        &self,
        sink: &mut S,
        column: usize,
        cell: &T,
    ) -> Result<(), TableError>
        requires { column < self.now.count }
        ensures { Writes (S.sent sink.old) result (S.sent sink.new)
            (compact_piece self.now column (T.text cell.now)) }
    {
        let frame = self.frame();
        write_bar(sink, frame.has_bar(column), frame.inner.main)?;
        let config = self.config();
        let padding = config.get_padding();
        let inner = self.width(column).saturating_sub(padding.left.size);
        let content = inner.saturating_sub(padding.right.size);
        let free = content.saturating_sub(cell.width());
        let before = before_text(config.get_alignment_horizontal(), free);
        let behind = free.saturating_sub(before);
        write_padded_text(sink, padding, before, cell.text(), behind)
    }

    pub fn write_next_cell<T: CellText, S: TextSink>(
        &self,
        sink: &mut S,
        column: usize,
        cell: &T,
    ) -> Result<usize, TableError>
        requires { column ≤ self.now.count }
        ensures put { Writes (S.sent sink.old) result (S.sent sink.new)
            (if nat_lt column self.now.count then compact_piece self.now column (T.text cell.now)
            else []) }
        ensures next { IfOk result (λ n. n ≡ min (column + 1) self.now.count) }
    {
        if column == self.count_columns() {
            return Ok(column);
        }
        self.write_cell(sink, column, cell)?;
        Ok(column + 1)
    }

    /// Returns the number of first columns in which a row draws something. An empty cell in any
    /// later column takes nothing.
    fn count_drawn_cells(&self) -> usize
        ensures within { result ≤ self.now.count }
        ensures rest { (column : ℕ) → result ≤ column → column < self.now.count
            → compact_piece self.now column [] ≡ [] }
    {
        let padding = self.config().get_padding();
        if padding.left.size == 0 && padding.right.size == 0 {
            count_drawn(self)
        } else {
            self.count_columns()
        }
    }

    pub fn end_row<S: TextSink>(&self, sink: &mut S, from: usize) -> Result<(), TableError>
        requires { from ≤ self.now.count }
        ensures { (start : Sent) (begun : Bool) (row : List (List ℕ))
            → from ≡ min (length row) self.now.count
            → Sends start (S.sent sink.old) (part_front self.now begun row from)
            → Writes start result (S.sent sink.new)
            (lines_after begun (row_part self.now begun row)) }
    {
        let end = self.count_drawn_cells().max(from);
        'columns: for column in from..end {
            self.write_cell(sink, column, &"")?;
        }
        let frame = self.frame();
        write_right_edge(sink, frame, frame.right.main)
    }
}

impl<'a, D: Dimension> TableColumns for CompactColumns<'a, D> {
    ghost sheet = { λ c. compact_columns c };

    fn count_columns(&self) -> usize {
        self.count
    }

    fn width(&self, column: usize) -> usize {
        self.dimension.get_width(column)
    }

    fn frame(&self) -> &Frame {
        &self.around
    }

    fn alike_from(&self) -> usize {
        self.dimension.alike_from().unwrap_or(self.count)
    }
}

/// Some rows of a source: those after the skipped ones, at most `limit` if there is one.
#[derive(Debug, Clone, Copy, PartialEq, Eq)]
pub struct Window {
    /// The number of rows that are skipped.
    pub skip: usize,
    /// The greatest number of rows that are shown after them.
    pub limit: Option<usize>,
}

impl Window {
    ghost use Rattle.tabled_compact.specs.Shown.{IsSpent, window_after};

    pub(crate) fn is_spent(&self) -> bool
        ensures { IsTrue result ↔ IsSpent self.now }
    {
        self.limit == Some(0)
    }

    pub(crate) fn take_row(&mut self) -> bool
        ensures shown { result ≡ (self.old.skip == 0) }
        ensures left { self.new ≡ window_after self.old 1 }
    {
        if self.skip > 0 {
            self.skip -= 1;
            return false;
        }
        self.limit = self.limit.map(|left| left.saturating_sub(1));
        true
    }
}
