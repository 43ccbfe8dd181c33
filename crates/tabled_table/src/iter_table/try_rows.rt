//! Prints rows that may fail, up to the first error.
ghost use Rattle.std.specs.Prelude.{OnOk};
ghost use Rattle.tabled_records.specs.Reading.{MayGive};
ghost use Rattle.tabled_records.specs.RowsBeforeError.{AreBeforeError, can_try, try_steps};
ghost use Rattle.tabled_table.specs.Stream.LikeTable.{PrintsLikeTable};
ghost use Rattle.tabled_table.specs.Stream.Streams.{BuildsStream, Came, PrintsStream};

use crate::iter_table::IterTable;
use crate::iter_table::first_rows::print_stream;
use std::alloc::Global;
use std::io::Write;
use tabled_base::{CellText, TableError};
use tabled_line::{TextSink, WriterSink};
use tabled_records::TryRows;

impl<I: Iterator<Item = Result<R, E>>, R: IntoIterator, E: Drop> IterTable<TryRows<I, E>>
where
    R::Item: CellText + Drop,
{
    /// Prints the rows before the first error to a sink, as `fmt` does. Returns how the table was
    /// printed, with the errors of `fmt`, and how its rows were read: `Err` with the first error,
    /// if it was reached. If both fail, nothing of the rows before the error is written after the
    /// sink's error.
    pub fn try_fmt<S: TextSink>(
        self,
        alloc: Global,
        sink: &mut S,
    ) -> (Result<(), TableError>, Result<(), E>)
    where
        I: Drop,
        requires { MayGive (can_try I.can_next) (try_steps I.next_gives)
            (λ s. I.remaining s.rows) R.into_iter_gives R.IntoIter.can_next R.IntoIter.remaining
            self.records }
        ensures printed { PrintsStream (record {
          settings = self.settings;
          config = self.config;
          comes = Came (AreBeforeError I.next_gives R.into_iter_gives R.IntoIter.next_gives
              self.records result.1) R.Item.text;
        }) (S.sent sink.old) result.0 (S.sent sink.new) }
        ensures alike { OnOk result.0 (PrintsLikeTable (record {
          settings = self.settings;
          config = self.config;
          comes = Came (AreBeforeError I.next_gives R.into_iter_gives R.IntoIter.next_gives
              self.records result.1) R.Item.text;
        }) (S.sent sink.old) (S.sent sink.new)) }
    {
        let (config, settings) = (self.config, self.settings);
        let mut rows = self.records;
        let printed = print_stream(alloc, &settings, &config, sink, &mut rows);
        (printed, rows.finish())
    }

    /// Prints the rows before the first error to a writer, as `try_fmt` does to a sink. The writer
    /// isn't flushed.
    pub fn try_build<W: Write>(
        self,
        alloc: Global,
        writer: &mut W,
    ) -> (Result<(), TableError>, Result<(), E>)
    where
        I: Drop,
        requires { MayGive (can_try I.can_next) (try_steps I.next_gives)
            (λ s. I.remaining s.rows) R.into_iter_gives R.IntoIter.can_next R.IntoIter.remaining
            self.records }
        ensures { BuildsStream (record {
          settings = self.settings;
          config = self.config;
          comes = Came (AreBeforeError I.next_gives R.into_iter_gives R.IntoIter.next_gives
              self.records result.1) R.Item.text;
        }) (W.contents writer.old) result.0 (W.contents writer.new) }
    {
        let mut sink = WriterSink::new(writer);
        let result = self.try_fmt(alloc, &mut sink);
        let WriterSink { writer, .. } = sink;
        // Lets the proof refer to the contents of the writer here.
        let _ = &*writer;
        result
    }
}
