//! `IterTable`: a table that is printed while its rows are read.
ghost use Rattle.std.specs.Prelude.{◌≡◌, ◌⊎◌, [], IfErr, IfOk, None, OnOk, Some, map, string_bytes};
ghost use Rattle.std.specs.Prelude.{true};
ghost use Rattle.std.specs.Borrow.{RestsIfErr, sem};
ghost use Rattle.tabled_base.specs.declared.error.TableError.TheVariants.{Memory, Range};
ghost use Rattle.tabled_line.specs.NewConfig.{IsNewConfig};
ghost use Rattle.tabled_line.specs.Sent.{Sent};
ghost use Rattle.tabled_records.specs.Reading.{MayGive, ReadsTo};
ghost use Rattle.tabled_table.specs.Stream.Applied.{IsAppliedToStream, WasOutOfRange};
ghost use Rattle.tabled_table.specs.Stream.LikeTable.{PrintsLikeTable};
ghost use Rattle.tabled_table.specs.Stream.NewTable.{new_settings, with_settings};
ghost use Rattle.tabled_table.specs.Stream.Streams.{BuildsStream, Came, PrintsStream};

mod first_rows;
mod layout;
mod marked;
mod row;
mod settings;
mod stream;
mod try_rows;

use crate::iter_table::first_rows::print_stream;
use crate::iter_table::settings::StreamSettings;
use std::alloc::Global;
use std::io::Write;
use tabled_base::{CellText, IntoRecords, TableError, TableOption};
use tabled_config::CompactConfig;
use tabled_line::{TextSink, WriterSink, new_compact_config};
use tabled_records::reading::next_cells;
use tabled_size::ZeroDimension;

/// A table that is printed row by row while a source gives its rows. It stores only the rows that
/// are read ahead to measure the columns; each later row is read when it is printed. Each cell is
/// cut to the content width of its column.
#[derive(Debug, Clone, Copy, PartialEq, Eq, PartialOrd, Ord, Hash)]
pub struct IterTable<I> {
    pub(crate) records: I,
    pub(crate) config: CompactConfig,
    pub(crate) settings: StreamSettings,
}

impl<I> IterTable<I> {
    ghost use Rattle.tabled_table.specs.contracts.iter_table.IterTable.{the_row};

    /// Returns a table of rows that reads 1000 rows ahead. The numbers of columns and rows and the
    /// sizes aren't set.
    pub fn new(records: I) -> Self
    where
        I: IntoRecords,
        ensures records { result.records ≡ records }
        ensures config { IsNewConfig result.config }
        ensures settings { result.settings ≡ new_settings }
    {
        IterTable {
            records,
            config: new_compact_config(),
            settings: StreamSettings {
                sniff: 1000,
                columns: None,
                rows: None,
                width: None,
                height: None,
                mark: None,
            },
        }
    }

    /// Sets the number of columns. Further cells of a row are ignored, and missing ones are empty.
    /// If it isn't set, it is the number of cells in the longest row that is read ahead.
    pub fn columns(&mut self, count: usize) -> &mut Self
        ensures same_reference { result.ghost_name ≡ self.entry.ghost_name }
        ensures set { result.now ≡ with_settings self.old
            (record self.old.settings { columns = Some count }) }
    {
        self.settings.columns = Some(count);
        self
    }

    /// Sets how many rows are shown at most. It doesn't limit how many rows are read ahead.
    pub fn rows(&mut self, count: usize) -> &mut Self
        ensures same_reference { result.ghost_name ≡ self.entry.ghost_name }
        ensures set { result.now ≡ with_settings self.old
            (record self.old.settings { rows = Some count }) }
    {
        self.settings.rows = Some(count);
        self
    }

    /// Sets how many rows are read ahead at most, to find and measure the columns. If both the
    /// number of columns and their width are set, no row is read ahead.
    pub fn sniff(&mut self, count: usize) -> &mut Self
        ensures same_reference { result.ghost_name ≡ self.entry.ghost_name }
        ensures set { result.now ≡ with_settings self.old
            (record self.old.settings { sniff = count }) }
    {
        self.settings.sniff = count;
        self
    }

    /// Sets the number of lines for text in each row, whatever its cells need. Padding is added to
    /// it.
    pub fn height(&mut self, lines: usize) -> &mut Self
        ensures same_reference { result.ghost_name ≡ self.entry.ghost_name }
        ensures set { result.now ≡ with_settings self.old
            (record self.old.settings { height = Some lines }) }
    {
        self.settings.height = Some(lines);
        self
    }

    /// Sets the content width of each column, whatever its cells need. Padding is added to it. A
    /// row then has one line for text, unless the height is set.
    pub fn width(&mut self, columns: usize) -> &mut Self
        ensures same_reference { result.ghost_name ≡ self.entry.ghost_name }
        ensures set { result.now ≡ with_settings self.old
            (record self.old.settings { width = Some columns }) }
    {
        self.settings.width = Some(columns);
        self
    }

    /// Sets a character that ends each cell that is cut, as `…`. By default there is none.
    ///
    /// A cell that doesn't fit in its column is cut to the columns that the mark leaves, and the
    /// mark follows. The mark takes its columns, at least 1. A cell that fits stays, and a mark
    /// that is wider than the content width of a column is left out there.
    ///
    /// A text of several lines is cut as soon as one of them is as wide as the columns that are
    /// left. The mark ends that line, and the lines below it are dropped. Lines that the height of
    /// a row drops leave no mark.
    ///
    /// ```rust
    /// let mut table = IterTable::new([["Ottawa", "Ontario"], ["Vancouver", "British Columbia"]]);
    /// table.sniff(1).cut_mark('…');
    /// assert_eq!(
    ///     table.to_string(alloc)?,
    ///     "+--------+---------+\n\
    ///      | Ottawa | Ontario |\n\
    ///      +--------+---------+\n\
    ///      | Vanco… | Britis… |\n\
    ///      +--------+---------+",
    /// );
    /// ```
    pub fn cut_mark(&mut self, mark: char) -> &mut Self
        ensures same_reference { result.ghost_name ≡ self.entry.ghost_name }
        ensures set { result.now ≡ with_settings self.old
            (record self.old.settings { mark = Some mark }) }
    {
        self.settings.mark = Some(mark);
        self
    }

    /// Applies an option to the source and the configuration; the numbers of columns and rows and
    /// the sizes stay as they were set. Use it instead of `with` if you need the table after an
    /// error: it is then as the option left it.
    ///
    /// Fails with `Memory`, and with `Range` if a sum or product of the option exceeds
    /// `usize::MAX`.
    pub fn apply<O: TableOption<I, CompactConfig, ZeroDimension>>(
        &mut self,
        option: O,
    ) -> Result<(), TableError>
        ensures ok { OnOk result (IsAppliedToStream (O.changes option) self.old self.new) }
        ensures promised { OnOk result (IsAppliedToStream (O.promises option) self.old self.new) }
        ensures err { IfErr result (λ e. IsAppliedToStream (O.fails option e) self.old self.new) }
        ensures only { IfErr result (λ e. (e ≡ Memory) ⊎ (e ≡ Range)) }
        ensures range { IfErr result (λ e. e ≡ Range
            → WasOutOfRange (O.out_of_range option) self.old) }
    {
        let mut sizes = ZeroDimension::new();
        option.change(&mut self.records, &mut self.config, &mut sizes)
    }

    /// Applies an option to the source and the configuration, and returns the table; the numbers of
    /// columns and rows and the sizes stay as they were set.
    ///
    /// Fails with `Memory`, and with `Range` if a sum or product of the option exceeds
    /// `usize::MAX`. After an error the table is as the option left it.
    pub fn with<O: TableOption<I, CompactConfig, ZeroDimension>>(
        &mut self,
        option: O,
    ) -> Result<&mut Self, TableError>
        ensures* rests { sem 𝓛 (RestsIfErr (the_row I.row) self.entry
            (λ table. table.ghost_name) result
            (λ last. IfErr result (λ e. IsAppliedToStream (O.fails option e) self.old last))) }
        ensures same_reference { IfOk result (λ table. table.ghost_name ≡ self.entry.ghost_name) }
        ensures ok { IfOk result (λ table. IsAppliedToStream (O.changes option) self.old table.now) }
        ensures promised { IfOk result (λ table. IsAppliedToStream (O.promises option) self.old table.now) }
        ensures only { IfErr result (λ e. (e ≡ Memory) ⊎ (e ≡ Range)) }
        ensures range { IfErr result (λ e. e ≡ Range
            → WasOutOfRange (O.out_of_range option) self.old) }
    {
        match self.apply(option) {
            Ok(()) => Ok(self),
            Err(error) => Err(error),
        }
    }
}

impl<T: CellText + Drop> IterTable<Vec<Vec<T>>> {
    /// Returns a table that stores all rows of a source. Fails only if an allocation fails
    /// (`Memory`).
    pub fn from_iter<I: IntoRecords<Cell = T>>(alloc: Global, rows: I) -> Result<Self, TableError>
        requires { I.ends rows }
        ensures records { IfOk result (λ table. I.gives rows
            (map (λ row. row.items) table.records.items)) }
        ensures config { IfOk result (λ table. IsNewConfig table.config) }
        ensures settings { IfOk result (λ table. table.settings ≡ new_settings) }
        ensures only { IfErr result (λ e. e ≡ Memory) }
    {
        let mut rows = rows.iter_rows().into_iter();
        let mut records = Vec::new(alloc);
        'rows: while let Some(cells) = next_cells(alloc, &mut rows)? {
            records.push(cells)?;
        }
        Ok(IterTable::new(records))
    }
}

impl<I: IntoRecords> IterTable<I>
where
    I::Cell: CellText + Drop,
{
    /// Prints the table to a sink, its lines joined by line feeds. Prints nothing if no row is
    /// shown or there is no column.
    ///
    /// Each row is read when it is printed. Before the first byte only the rows that are read ahead
    /// are read, or the first row if there are none. If the sink fails, all lines of the rows that
    /// were read later are written, except for those of the last one.
    ///
    /// Errors:
    /// - `Range`: the total width exceeds `usize::MAX`, before the first byte; or the height of a
    ///   row does.
    /// - `Memory`: an allocation failed, for a row that was read or in the sink.
    /// - The sink's errors.
    ///
    /// If a row is too tall or an allocation for it fails, exactly the lines above it are written,
    /// with no line feed after them.
    pub fn fmt<S: TextSink>(self, alloc: Global, sink: &mut S) -> Result<(), TableError>
        requires { I.ends self.records }
        ensures printed { PrintsStream (record {
          settings = self.settings;
          config = self.config;
          comes = Came (I.begins self.records) I.Cell.text;
        }) (S.sent sink.old) result (S.sent sink.new) }
        ensures alike { OnOk result (PrintsLikeTable (record {
          settings = self.settings;
          config = self.config;
          comes = Came (I.begins self.records) I.Cell.text;
        }) (S.sent sink.old) (S.sent sink.new)) }
    {
        let (config, settings) = (self.config, self.settings);
        let mut rows = self.records.iter_rows().into_iter();
        print_stream(alloc, &settings, &config, sink, &mut rows)
    }

    /// Prints the table to a writer, as `fmt` does to a sink. The writer isn't flushed.
    ///
    /// On `Ok` the writer took exactly the text of the table. On an error it took a beginning of
    /// that text: nothing if `fmt` fails before the first byte, and the lines above a row if `fmt`
    /// fails at that row. `Writer`: a write failed or took no byte, before all of the text was
    /// written. Nothing is written after that.
    pub fn build<W: Write>(self, alloc: Global, writer: &mut W) -> Result<(), TableError>
        requires { I.ends self.records }
        ensures { BuildsStream (record {
          settings = self.settings;
          config = self.config;
          comes = Came (I.begins self.records) I.Cell.text;
        }) (W.contents writer.old) result (W.contents writer.new) }
    {
        let mut sink = WriterSink::new(writer);
        let result = self.fmt(alloc, &mut sink);
        let WriterSink { writer, .. } = sink;
        // Lets the proof refer to the contents of the writer here.
        let _ = &*writer;
        result
    }

    /// Returns the text of the table. Fails as `fmt` does; writing to the string fails only with
    /// `Memory`.
    pub fn to_string(self, alloc: Global) -> Result<String, TableError>
        requires { I.ends self.records }
        ensures { (new : Sent) × PrintsStream (record {
          settings = self.settings;
          config = self.config;
          comes = Came (I.begins self.records) I.Cell.text;
        }) (record { bytes = Some []; failures = 0; grows = true }) result new
            × (new.failures ≡ 0) × IfOk result (λ text. new.bytes ≡ Some (string_bytes text)) }
    {
        let mut text = String::new(alloc);
        self.fmt(alloc, &mut text)?;
        Ok(text)
    }
}
