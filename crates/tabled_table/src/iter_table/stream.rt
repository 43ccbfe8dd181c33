//! Writes the lines of a stream: the rows that were read first, and each next row as it is read.
ghost use Rattle.std.specs.Prelude.{◌≡◌, ◌<◌, ◌≤◌, ◌^◌, Bool, IfErr, IfOk, List, OnOk, false};
ghost use Rattle.std.specs.Prelude.{length, map, take, true, unwrap_or};
ghost use Rattle.std.proofs.Props.{props};
ghost use Rattle.tabled_line.specs.LineCache.{IsCacheOf};
ghost use Rattle.tabled_records.specs.Reading.{MayGive, Reads, ReadsTo};
ghost use Rattle.tabled_table.specs.Stream.Progress.{AreFirst, AreFurther, HaltsMore, HasPutMore};
ghost use Rattle.tabled_table.specs.Stream.Progress.{IsLimited, IsPermitted, PutsBottom, PutsFirst};
ghost use Rattle.tabled_table.specs.Stream.Progress.{PutsNext, StreamsLaidOut, left_of, ReadsOn};
ghost use Rattle.tabled_table.specs.Stream.Row.{PutsCut, layout_columns, rule_of};
ghost use Rattle.tabled_table.specs.Stream.Streamed.{limited};

use crate::iter_table::first_rows::content_height;
use crate::iter_table::marked::cut_row;
use crate::iter_table::row::{CutRow, StreamColumns};
use crate::iter_table::settings::{ahead, all_fit, fewer, is_none_left, up_to};
use std::alloc::Global;
use tabled_base::{CellText, TableError};
use tabled_line::{Cursor, LinePrinter, TextSink};
use tabled_records::flat_rows::FlatRows;
use tabled_records::reading::{Taken, append_cells};

#[derive(Drop)]
pub(crate) struct Stream<'a> {
    pub alloc: Global,
    /// The columns come with the settings and the total width.
    pub lines: LinePrinter<StreamColumns<'a>>,
    /// Whether no row was printed so far.
    pub first: bool,
    ghost kept: { IsCacheOf (layout_columns lines.columns.layout.now) lines.kept } by { Prim.hlevel
        props },
}

impl<'a> Stream<'a> {
    /// Writes a row of cut cells below its horizontal line. Allocates if the row has several lines,
    /// which may fail with `Memory` before the first byte.
    fn write_cut_row<'c, C: CellText, S: TextSink>(
        &mut self,
        sink: &mut S,
        row: &CutRow<'c, C>,
    ) -> Result<(), TableError>
        requires { row.now.layout.now ≡ self.old.lines.columns.layout.now }
        ensures printed { PutsCut (record {
          layout = row.now.layout.now;
          rule = rule_of row.now.layout.now self.old.first;
          height = row.now.height;
          cells = map C.text row.now.cells.now;
        }) (S.sent sink.old) self.old.lines.begun result
            (S.sent sink.new) self.new.lines.begun }
        ensures same { self.new.lines.columns ≡ self.old.lines.columns }
        ensures first { OnOk result (self.new.first ≡ false) }
    {
        let count = if row.height > 1 { row.cells.len() } else { 0 };
        let mut cursors = vec![in self.alloc; Cursor::nowhere(); count]?;
        self.lines.write_rule(sink, row.layout.rule(self.first))?;
        self.first = false;
        self.lines.write_row(sink, row, &mut cursors)
    }

    /// Cuts the next row to its columns, and writes it with `lines` lines for text, below its
    /// horizontal line. Before its first byte it fails with `Range` if its height exceeds
    /// `usize::MAX`, and with `Memory` if an allocation fails.
    fn write_next_record<C: CellText, S: TextSink>(
        &mut self,
        sink: &mut S,
        lines: usize,
        cells: &[C],
    ) -> Result<(), TableError>
        ensures printed { PutsNext lines (map C.text cells.now) self.old.lines.columns.layout.now
            self.old.first (S.sent sink.old) self.old.lines.begun result
            self.new.first (S.sent sink.new) self.new.lines.begun }
        ensures same { self.new.lines.columns ≡ self.old.lines.columns }
    {
        let layout = self.lines.columns.layout;
        let Some(height) = layout.padded_height(lines) else {
            return Err(TableError::Range);
        };
        let (first, _) = cells.split_at(layout.count.min(cells.len()));
        if all_fit(layout, first) {
            let row = CutRow {
                layout,
                cells: first,
                height,
            };
            return self.write_cut_row(sink, &row);
        }
        let cut = cut_row(self.alloc, layout, first)?;
        let row = CutRow {
            layout,
            cells: cut.as_slice(),
            height,
        };
        self.write_cut_row(sink, &row)
    }

    /// Writes the horizontal line below the last row, and the bottom margin.
    fn write_bottom<S: TextSink>(&mut self, sink: &mut S) -> Result<(), TableError>
        ensures printed { PutsBottom self.old.lines.columns.layout.now self.old.lines.columns.total
            self.old.first (S.sent sink.old) self.old.lines.begun result (S.sent sink.new) }
        ensures same { self.new.lines.columns ≡ self.old.lines.columns }
    {
        let layout = self.lines.columns.layout;
        let total = self.lines.columns.total;
        self.lines.write_rule(sink, layout.bottom)?;
        self.lines
            .write_margin(sink, layout.frame.margin.bottom, total)
    }

    /// Writes the first `shown` rows, of which the first `ahead` were read ahead.
    fn write_first_rows<C: CellText, S: TextSink>(
        &mut self,
        sink: &mut S,
        ahead: usize,
        rows: &FlatRows<C>,
        shown: usize,
    ) -> Result<(), TableError>
        requires { shown ≤ length rows.now }
        ensures printed { PutsFirst self.old.lines.columns.settings.now ahead
            (take shown (map (map C.text) rows.now)) self.old.lines.columns.layout.now
            self.old.first (S.sent sink.old) self.old.lines.begun result
            self.new.first (S.sent sink.new) self.new.lines.begun }
        ensures same { self.new.lines.columns ≡ self.old.lines.columns }
    {
        let settings = self.lines.columns.settings;
        'rows: for index in 0..shown {
            let cells = rows.row(index);
            let count = self.lines.columns.layout.count;
            let lines = content_height(settings, count, index < ahead, cells);
            self.write_next_record(sink, lines, cells)?;
        }
        Ok(())
    }

    /// Reads and writes the next rows, at most `limit`. Each is read once the lines above it are
    /// written. Returns whether the source has no more rows.
    fn write_next_rows<
        I: Iterator<Item = W>,
        W: IntoIterator<Item = C>,
        C: CellText + Drop,
        S: TextSink,
    >(
        &mut self,
        sink: &mut S,
        rows: &mut I,
        limit: Option<usize>,
        lines: usize,
    ) -> Result<bool, TableError>
        requires { MayGive I.can_next I.next_gives I.remaining
            W.into_iter_gives W.IntoIter.can_next W.IntoIter.remaining rows.old }
        ensures ok { IfOk result (λ whole. (more : List (List C))
            × IsLimited limit (length more) whole
            × ReadsTo I.next_gives W.into_iter_gives W.IntoIter.next_gives rows.old more whole
            rows.new
            × HasPutMore lines (map (map C.text) more) self.old.lines.columns.layout.now
            self.old.first (S.sent sink.old) self.old.lines.begun
            self.new.first (S.sent sink.new) self.new.lines.begun) }
        ensures err { IfErr result (λ e. (more : List (List C)) × IsPermitted limit (length more)
            × Reads I.next_gives W.into_iter_gives W.IntoIter.next_gives rows.old more rows.new
            × HaltsMore lines (map (map C.text) more) self.old.lines.columns.layout.now
            self.old.first (S.sent sink.old) self.old.lines.begun
            e (S.sent sink.new)) }
        ensures same { self.new.lines.columns ≡ self.old.lines.columns }
    {
        let mut cells = Vec::new(self.alloc);
        let mut left = limit;
        'rows: loop {
            if is_none_left(left) {
                return Ok(false);
            }
            cells.clear();
            if !append_cells(&mut cells, rows)? {
                return Ok(true);
            }
            self.write_next_record(sink, lines, cells.as_slice())?;
            left = fewer(left, 1);
        }
    }

    /// Writes the entire table: of the rows that were read first those that are shown, the next
    /// rows, unless there are none, and what is below the last row.
    pub fn write_all<
        I: Iterator<Item = W>,
        W: IntoIterator<Item = C>,
        C: CellText + Drop,
        S: TextSink,
    >(&mut self, sink: &mut S, rows: &mut I, taken: &Taken<FlatRows<C>>) -> Result<(), TableError>
        requires begun { self.old.lines.begun ≡ false }
        requires first { self.old.first ≡ true }
        requires some { 0 < self.old.lines.columns.layout.now.count }
        requires open { taken.now.whole ≡ false
            → MayGive I.can_next I.next_gives I.remaining
            W.into_iter_gives W.IntoIter.can_next W.IntoIter.remaining rows.old }
        requires filled { 0 < length (limited self.old.lines.columns.settings.now.rows
            (map (map C.text) taken.now.rows)) }
        requires in_range { self.old.lines.columns.total < 2 ^ 64 }
        requires kept { AreFirst self.old.lines.columns.settings.now
            (map (map C.text) taken.now.rows) taken.now.whole }
        ensures { (more : List (List C)) × (whole : Bool)
            × AreFurther self.old.lines.columns.settings.now.rows (length taken.now.rows)
            taken.now.whole (length more) whole
            × ReadsOn I.next_gives W.into_iter_gives W.IntoIter.next_gives
            taken.now.rows taken.now.whole rows.old more whole
            rows.new
            × StreamsLaidOut self.old.lines.columns.settings.now self.old.lines.columns.layout.now
            self.old.lines.columns.total (map (map C.text) taken.now.rows)
            (map (map C.text) more) whole (S.sent sink.old) result (S.sent sink.new) }
    {
        let settings = self.lines.columns.settings;
        let count = taken.rows.len();
        let ahead = ahead(settings).min(count);
        let shown = up_to(settings.rows, count);
        let margin = self.lines.columns.layout.frame.margin;
        let total = self.lines.columns.total;
        self.lines.write_margin(sink, margin.top, total)?;
        self.write_first_rows(sink, ahead, &taken.rows, shown)?;
        let left = fewer(settings.rows, count);
        if taken.whole || is_none_left(left) {
            return self.write_bottom(sink);
        }
        let lines = settings.height.unwrap_or(1);
        self.write_next_rows(sink, rows, left, lines)?;
        self.write_bottom(sink)
    }
}
