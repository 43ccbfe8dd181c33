//! Rows that are printed while they are read.
ghost use Rattle.std.specs.Prelude.{◌≡◌, ℕ, List};
ghost use Rattle.tabled_config.specs.declared.compact.CompactConfig.{CompactConfig};
ghost use Rattle.tabled_records.specs.Reading.{MayGive};
ghost use Rattle.tabled_records.specs.RowsBeforeError.{AreBeforeError, can_try, try_steps};
ghost use Rattle.tabled_table.specs.Stream.Streams.{Came, PrintsStream};
ghost use Rattle.tabview_print.specs.Streams.{IsStyled, stream_settings};

use std::alloc::Global;
use tabled_base::{CellText, TableError};
use tabled_config::Style;
use tabled_grid::TextSink;
use tabled_records::TryRows;
use tabled_table::IterTable;

/// The mark that ends a cell that is cut.
const CUT_MARK: char = '…';

/// Prints the rows before the first error as a table, each when it is read. The first `measured`
/// rows are read ahead: a column is as wide as its widest cell in them. Later cells that are wider
/// are cut, and end in `…`. Memory doesn't grow with the rows.
///
/// Returns how the table was printed, with the errors of `IterTable::fmt`, and how the rows were
/// read: `Err` with the first error, if it was reached.
pub fn print_stream<S, I, R, E>(
    alloc: Global,
    rows: TryRows<I, E>,
    style: Style,
    measured: usize,
    sink: &mut S,
) -> (Result<(), TableError>, Result<(), E>)
where
    S: TextSink,
    I: Iterator<Item = Result<R, E>> + Drop,
    R: IntoIterator,
    R::Item: CellText + Drop,
    E: Drop,
    requires { MayGive (can_try I.can_next) (try_steps I.next_gives)
        (λ s. I.remaining s.rows) R.into_iter_gives R.IntoIter.can_next R.IntoIter.remaining
        rows }
    ensures { (config : CompactConfig) × IsStyled style config
        × PrintsStream (record {
          settings = stream_settings measured;
          config = config;
          comes = Came (AreBeforeError I.next_gives R.into_iter_gives R.IntoIter.next_gives rows
              result.1) R.Item.text;
        }) (S.sent sink.old) result.0 (S.sent sink.new) }
{
    let mut table = IterTable::new(rows);
    table.sniff(measured);
    table.cut_mark(CUT_MARK);
    match table.apply(style) {
        Ok(()) => table.try_fmt(alloc, sink),
        // A style never fails.
        Err(error) => (Err(error), Ok(())),
    }
}
