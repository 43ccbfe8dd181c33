//! Prints a compact table: checks its columns before the first byte, and prints the rows of a
//! source one by one.
ghost use Rattle.std.proofs.Props.{props};
ghost use Rattle.std.specs.Iterator.{IsFiniteIterable};
ghost use Rattle.std.specs.Prelude.{Bool, IfErr, IfOk, List, MatchResult, OnErr, OnOk, [], false};
ghost use Rattle.std.specs.Prelude.{if◌then◌else◌, length, map, true, ℕ, ◌+◌, ◌==◌, ◌≡◌, ◌≤◌};
ghost use Rattle.tabled_base.specs.Given.{Given};
ghost use Rattle.tabled_compact.specs.CompactCells.{compact_columns, sheet_by};
ghost use Rattle.tabled_compact.specs.CompactLines.{above, compact_width, part_front, row_part};
ghost use Rattle.tabled_compact.specs.CompactLines.{separator, tail_lines};
ghost use Rattle.tabled_compact.specs.Printed.{FailsToPrintCompact, IsPrintableCompact, PrintsCompact, PutsRows};
ghost use Rattle.tabled_compact.specs.Shown.{Came, IsSpent, Taken, window_after};
ghost use Rattle.tabled_line.specs.Leading.{WritesLines};
ghost use Rattle.tabled_line.specs.LineCache.{IsCacheOf};
ghost use Rattle.tabled_line.specs.Sent.{Sent, Writes};
ghost use Rattle.tabled_records.specs.Reading.{MayGive, ReadsTo};

use crate::columns::{CompactColumns, Window};
use crate::sizes::line_total;
use tabled_base::{CellText, IntoRecords, TableError};
use tabled_config::{Borders, CompactConfig, HorizontalLine};
use tabled_line::{LinePrinter, TableColumns, TextSink, write_left_edge};
use tabled_size::Dimension;

/// Fails with `error` if there is a row after those that are skipped; no further row is read then.
fn refuse<I: Iterator<Item = W>, W: IntoIterator<Item = C>, C: Drop>(
    rows: &mut I,
    skip: usize,
    error: TableError,
) -> Result<(), TableError>
    requires { MayGive I.can_next I.next_gives I.remaining
        W.into_iter_gives W.IntoIter.can_next W.IntoIter.remaining rows.old }
    ensures { (cells : List (List C)) × (whole : Bool)
        × ReadsTo I.next_gives W.into_iter_gives W.IntoIter.next_gives rows.old cells whole rows.new
        × MatchResult result (λ _. (length cells ≤ skip) × (whole ≡ true))
        (λ e. (length cells ≡ skip + 1) × (e ≡ error)) }
{
    let mut left = skip;
    'rows: while let Some(row) = rows.next() {
        walk(row);
        if left == 0 {
            return Err(error);
        }
        left -= 1;
    }
    Ok(())
}

/// Prints rows of a source as the lines of a compact table, joined by line feeds. The rows are
/// those in the window, with their first `columns` cells each. The dimension gives the widths of
/// the columns, padding included. A row with fewer cells gets empty ones. Heights and vertical
/// padding are ignored.
///
/// No row is stored, and only the sink allocates. No row past the window is read, and none after
/// the sink failed; each row that is read is read to its end. Prints nothing if no row is shown or
/// there is no column. Fails as `CompactTable::fmt` does.
pub fn print_compact<I: IntoRecords, D: Dimension, S: TextSink>(
    sink: &mut S,
    records: I,
    config: &CompactConfig,
    dimension: &D,
    columns: usize,
    window: Window,
) -> Result<(), TableError>
where
    I::Cell: CellText + Drop,
    requires { I.ends records }
    ensures { PrintsCompact (record {
      sheet = sheet_by config.now (D.width_at dimension.now) columns;
      window = window;
      comes = Came (I.begins records) I.Cell.text;
    }) (S.sent sink.old) result (S.sent sink.new) }
{
    let wanted = Wanted {
        config,
        dimension,
        columns,
        window,
    };
    let mut rows = records.iter_rows().into_iter();
    wanted.print_rows(sink, &mut rows)
}

/// What is printed of some rows: those in the window, with their first cells.
#[derive(Drop)]
struct Wanted<'a, D: Dimension> {
    config: &'a CompactConfig,
    dimension: &'a D,
    columns: usize,
    window: Window,
}

impl<'a, D: Dimension> Wanted<'a, D> {
    /// Prints the next rows of an iterator, as `print_compact` prints those of a source. The
    /// iterator is left after exactly the rows that the contract names.
    fn print_rows<
        I: Iterator<Item = W>,
        W: IntoIterator<Item = C>,
        C: CellText + Drop,
        S: TextSink,
    >(&self, sink: &mut S, rows: &mut I) -> Result<(), TableError>
        requires { MayGive I.can_next I.next_gives I.remaining
            W.into_iter_gives W.IntoIter.can_next W.IntoIter.remaining rows.old }
        ensures { PrintsCompact (record {
          sheet = sheet_by self.now.config.now (D.width_at self.now.dimension.now)
              self.now.columns;
          window = self.now.window;
          comes = Taken (record {
            row_steps = I.next_gives;
            cells_become = W.into_iter_gives;
            cell_steps = W.IntoIter.next_gives;
            text = C.text;
          }) rows.old rows.new;
        }) (S.sent sink.old) result (S.sent sink.new) }
    {
        if self.columns == 0 || self.window.is_spent() {
            return Ok(());
        }
        match RowPrinter::new(self.config, self.dimension, self.columns) {
            Ok(mut printer) => printer.print_table(sink, rows, self.window),
            Err(error) => refuse(rows, self.window.skip, error),
        }
    }
}

/// Returns the horizontal line between two rows, if there is one. Its ends are the characters of
/// the left and right vertical lines.
fn separator(borders: &Borders<char>) -> Option<HorizontalLine>
    ensures { result ≡ separator borders.now }
{
    borders.line_at(2, 1).map(|line| HorizontalLine {
        left: borders.left,
        right: borders.right,
        ..line
    })
}

/// Reads the cells of a row that isn't shown.
pub(crate) fn walk<C: IntoIterator>(cells: C)
where
    C::Item: Drop,
    requires { IsFiniteIterable C.into_iter_gives C.IntoIter.can_next C.IntoIter.remaining cells }
    ensures { (items : List C.Item) × Given C.into_iter_gives C.IntoIter.next_gives cells items }
{
    'cells: for _cell in cells {}
}

/// A compact table while its rows are printed.
#[derive(Drop)]
pub(crate) struct RowPrinter<'a, D: Dimension> {
    lines: LinePrinter<CompactColumns<'a, D>>,
    /// The total width in columns.
    total: usize,
    ghost whole: { total ≡ compact_width lines.columns },
    ghost kept: { IsCacheOf (compact_columns lines.columns) lines.kept } by { Prim.hlevel props },
}

impl<'a, D: Dimension> RowPrinter<'a, D> {
    /// Returns a printer of a table with `count` columns. Fails with `ShortWidths` if the dimension
    /// lacks the width of a column, and otherwise with `Range` if the total width exceeds
    /// `usize::MAX`.
    pub fn new(
        config: &'a CompactConfig,
        dimension: &'a D,
        count: usize,
    ) -> Result<RowPrinter<'a, D>, TableError>
        ensures ok { IfOk result (λ printer. printer.lines.columns
            ≡ sheet_by config.now (D.width_at dimension.now) count) }
        ensures begun { IfOk result (λ printer. printer.lines.begun ≡ false) }
        ensures printable { OnOk result
            (IsPrintableCompact (sheet_by config.now (D.width_at dimension.now) count)) }
        ensures err { IfErr result
            (FailsToPrintCompact (sheet_by config.now (D.width_at dimension.now) count)) }
    {
        let columns = CompactColumns::new(config, dimension, count)?;
        match line_total(&columns) {
            Some(total) => Ok(RowPrinter {
                lines: LinePrinter::new(columns, None),
                total,
            }),
            None => Err(TableError::Range),
        }
    }

    /// Writes what is above a row: the top margin and the top line, or the line between two rows.
    fn write_above<S: TextSink>(&mut self, sink: &mut S) -> Result<(), TableError>
        ensures printed { WritesLines (S.sent sink.old) self.old.lines.begun result
            (S.sent sink.new) self.new.lines.begun
            (above self.old.lines.columns self.old.lines.begun) }
        ensures same { self.new.lines.columns ≡ self.old.lines.columns }
    {
        let config = self.lines.columns.config();
        if self.lines.has_begun() {
            return self.lines.write_rule(sink, separator(config.get_borders()));
        }
        self.lines
            .write_margin(sink, config.get_margin().top, self.total)?;
        self.lines
            .write_rule(sink, config.get_borders().line_at(1, 0))
    }

    fn begin_row<S: TextSink>(&mut self, sink: &mut S) -> Result<usize, TableError>
        ensures put { Writes (S.sent sink.old) result (S.sent sink.new)
            (part_front self.old.lines.columns self.old.lines.begun [] 0) }
        ensures first { IfOk result (λ column. column ≡ 0) }
        ensures begun { OnOk result (self.new.lines.begun ≡ true) }
        ensures same { self.new.lines.columns ≡ self.old.lines.columns }
    {
        self.write_above(sink)?;
        self.lines.begin_line(sink)?;
        let frame = self.lines.columns.frame();
        write_left_edge(sink, frame, frame.left.main)?;
        Ok(0)
    }

    /// Writes a row. The cells are read to their end, even if the sink fails.
    fn write_row<C: IntoIterator, S: TextSink>(
        &mut self,
        sink: &mut S,
        cells: C,
    ) -> Result<(), TableError>
    where
        C::Item: CellText + Drop,
        requires { IsFiniteIterable C.into_iter_gives C.IntoIter.can_next C.IntoIter.remaining
            cells }
        ensures put { (items : List C.Item)
            × Given C.into_iter_gives C.IntoIter.next_gives cells items
            × WritesLines (S.sent sink.old) self.old.lines.begun result (S.sent sink.new)
            self.new.lines.begun
            (row_part self.old.lines.columns self.old.lines.begun (map C.Item.text items)) }
        ensures same { self.new.lines.columns ≡ self.old.lines.columns }
    {
        let mut next = self.begin_row(sink);
        'cells: for cell in cells {
            next = match next {
                Ok(column) => self.lines.columns.write_next_cell(sink, column, &cell),
                Err(error) => Err(error),
            };
        }
        let column = next?;
        self.lines.columns.end_row(sink, column)
    }

    /// Skips or prints the next row. It is read to its end, even if the sink fails.
    fn print_next_row<C: IntoIterator, S: TextSink>(
        &mut self,
        sink: &mut S,
        window: &mut Window,
        cells: C,
    ) -> Result<(), TableError>
    where
        C::Item: CellText + Drop,
        requires { IsFiniteIterable C.into_iter_gives C.IntoIter.can_next C.IntoIter.remaining
            cells }
        ensures put { (items : List C.Item)
            × Given C.into_iter_gives C.IntoIter.next_gives cells items
            × WritesLines (S.sent sink.old) self.old.lines.begun result (S.sent sink.new)
            self.new.lines.begun (if window.old.skip == 0 then
            row_part self.old.lines.columns self.old.lines.begun (map C.Item.text items) else []) }
        ensures left { window.new ≡ window_after window.old 1 }
        ensures failed { OnErr result ((window.old.skip == 0) ≡ true) }
        ensures same { self.new.lines.columns ≡ self.old.lines.columns }
    {
        if window.take_row() {
            self.write_row(sink, cells)
        } else {
            walk(cells);
            Ok(())
        }
    }

    /// Prints all rows in a window, which shows at least one. No row past it is read, and none
    /// after the sink failed.
    fn print_wanted_rows<
        I: Iterator<Item = W>,
        W: IntoIterator<Item = C>,
        C: CellText + Drop,
        S: TextSink,
    >(&mut self, sink: &mut S, rows: &mut I, window: Window) -> Result<(), TableError>
        requires may { MayGive I.can_next I.next_gives I.remaining
            W.into_iter_gives W.IntoIter.can_next W.IntoIter.remaining rows.old }
        requires wanted { IsSpent window → ⊥ }
        requires begun { self.old.lines.begun ≡ false }
        ensures put { (cells : List (List C)) × (whole : Bool)
            × ReadsTo I.next_gives W.into_iter_gives W.IntoIter.next_gives rows.old cells whole
            rows.new
            × PutsRows self.old.lines.columns window (S.sent sink.old) result (S.sent sink.new)
            self.new.lines.begun (map (map C.text) cells) whole }
        ensures same { self.new.lines.columns ≡ self.old.lines.columns }
    {
        let mut left = window;
        'rows: while let Some(row) = rows.next() {
            self.print_next_row(sink, &mut left, row)?;
            if left.is_spent() {
                return Ok(());
            }
        }
        Ok(())
    }

    fn write_tail<S: TextSink>(&mut self, sink: &mut S) -> Result<(), TableError>
        ensures printed { WritesLines (S.sent sink.old) self.old.lines.begun result
            (S.sent sink.new) self.new.lines.begun
            (if self.old.lines.begun then tail_lines self.old.lines.columns else []) }
        ensures failed { OnErr result (self.old.lines.begun ≡ true) }
    {
        if !self.lines.has_begun() {
            return Ok(());
        }
        let config = self.lines.columns.config();
        self.lines
            .write_rule(sink, config.get_borders().line_at(1, 1))?;
        self.lines
            .write_margin(sink, config.get_margin().bottom, self.total)
    }

    /// Prints the table of the rows in a window, which shows at least one if there is one. Prints
    /// nothing if there is none.
    pub fn print_table<
        I: Iterator<Item = W>,
        W: IntoIterator<Item = C>,
        C: CellText + Drop,
        S: TextSink,
    >(&mut self, sink: &mut S, rows: &mut I, window: Window) -> Result<(), TableError>
        requires may { MayGive I.can_next I.next_gives I.remaining
            W.into_iter_gives W.IntoIter.can_next W.IntoIter.remaining rows.old }
        requires wanted { IsSpent window → ⊥ }
        requires begun { self.old.lines.begun ≡ false }
        requires columns { self.old.lines.columns.count ≡ 0 → ⊥ }
        requires printable { IsPrintableCompact self.old.lines.columns }
        ensures { PrintsCompact (record {
          sheet = self.old.lines.columns;
          window = window;
          comes = Taken (record {
            row_steps = I.next_gives;
            cells_become = W.into_iter_gives;
            cell_steps = W.IntoIter.next_gives;
            text = C.text;
          }) rows.old rows.new;
        }) (S.sent sink.old) result (S.sent sink.new) }
    {
        self.print_wanted_rows(sink, rows, window)?;
        self.write_tail(sink)
    }
}
