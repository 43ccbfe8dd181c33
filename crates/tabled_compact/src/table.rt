//! `CompactTable`: its settings, its options, and printing it.
ghost use Rattle.std.specs.Prelude.{◌≡◌, ◌⊎◌, Some, [], string_bytes, IfErr, IfOk, true};
ghost use Rattle.std.specs.Borrow.{Lends, sem};
ghost use Rattle.tabled_base.specs.declared.error.TableError.TheVariants.{Memory, Range};
ghost use Rattle.tabled_config.specs.declared.compact.CompactConfig.{CompactConfig};
ghost use Rattle.tabled_line.specs.Sent.{Sent};
ghost use Rattle.tabled_compact.specs.Tables.{IsNewTable, IsResized, no_records, sheet_of};
ghost use Rattle.tabled_compact.specs.Shown.{Came};
ghost use Rattle.tabled_records.specs.declared.empty.EmptyRecords.{EmptyRecords};
ghost use Rattle.tabled_size.specs.declared.const_dimension.ConstSize.TheVariants.{Value};
ghost use Rattle.tabled_compact.specs.Fitting.{IsTableOf};
ghost use Rattle.tabled_compact.specs.Printed.{BuildsCompact, IsEnded, IsPrinted, PrintsCompact};

use crate::columns::Window;
use crate::rows::print_compact;
use crate::sizes::{CellRows, SetSizes};
use std::alloc::Global;
use std::io::Write;
use tabled_base::{CellText, IntoRecords, TableError, TableOption};
use tabled_config::CompactConfig;
use tabled_line::{TextSink, WriterSink, new_compact_config};
use tabled_records::EmptyRecords;
use tabled_size::{ConstDimension, ConstSize, Dimension};

/// A table that is printed while its rows are read. No row is stored, and printing allocates
/// nothing.
///
/// The widths, padding included, are set by `width`, given by a dimension, or measured by `from`
/// for an array. Each cell is printed as a single line, and whole even if it is wider than its
/// column.
#[derive(Debug, Clone, Copy)]
pub struct CompactTable<I, D> {
    pub(crate) records: I,
    pub(crate) config: CompactConfig,
    pub(crate) dimension: D,
    pub(crate) columns: usize,
    pub(crate) window: Window,
}

impl<I> CompactTable<I, ConstDimension<0, 0>> {
    /// Returns a table of rows that has no columns yet. Its columns are 2 wide, which is their
    /// padding; `width` sets more.
    pub fn new(records: I) -> Self
    where
        I: IntoRecords,
        ensures made { IsNewTable records result }
        ensures width { result.dimension.width ≡ Value 2 }
        ensures height { result.dimension.height ≡ Value 1 }
    {
        CompactTable::with_dimension(
            records,
            ConstDimension::new(ConstSize::Value(2), ConstSize::Value(1)),
        )
    }
}

impl<I, D> CompactTable<I, D> {
    ghost use Rattle.tabled_compact.specs.contracts.table.CompactTable.{the_row};
    ghost use Rattle.tabled_config.specs.contracts.compact.CompactConfig.{the_row as config_row};

    /// Sets the height of each row: one number for all, an array of one each, or a `ConstSize`.
    /// Printing ignores it.
    pub fn height<S, const COUNT: usize>(self, height: S) -> CompactTable<I, D::High>
    where
        D: SetSizes<S, COUNT>,
        ensures height { D.heightened self.dimension height result.dimension }
        ensures same { IsResized self result }
    {
        CompactTable {
            records: self.records,
            config: self.config,
            dimension: self.dimension.set_height(height),
            columns: self.columns,
            window: self.window,
        }
    }

    /// Sets the width of each column, padding included: one number for all, an array of one each,
    /// or a `ConstSize`.
    ///
    /// ```rust
    /// CompactTable::new(CITIES).columns(2).width(6)
    /// ```
    pub fn width<S, const COUNT: usize>(self, width: S) -> CompactTable<I, D::Wide>
    where
        D: SetSizes<S, COUNT>,
        ensures width { D.widened self.dimension width result.dimension }
        ensures same { IsResized self result }
    {
        CompactTable {
            records: self.records,
            config: self.config,
            dimension: self.dimension.set_width(width),
            columns: self.columns,
            window: self.window,
        }
    }

    /// Returns a table of rows that has no columns yet, with the widths of a dimension. Nothing is
    /// estimated.
    pub fn with_dimension(records: I, dimension: D) -> Self
    where
        I: IntoRecords,
        ensures made { IsNewTable records result }
        ensures dimension { result.dimension ≡ dimension }
    {
        CompactTable {
            records,
            config: new_compact_config(),
            dimension,
            columns: 0,
            window: Window {
                skip: 0,
                limit: None,
            },
        }
    }

    /// Sets how many rows are shown at most, not counting those that are skipped.
    pub fn rows(mut self, count: usize) -> Self
        ensures { result
            ≡ record self { window = record self.window { limit = Some count } } }
    {
        self.window = Window {
            limit: Some(count),
            ..self.window
        };
        self
    }

    /// Sets the number of columns. Further cells of a row are ignored, and missing ones are empty.
    pub fn columns(mut self, count: usize) -> Self
        ensures { result ≡ record self { columns = count } }
    {
        self.columns = count;
        self
    }

    /// Sets how many rows are skipped before the first that is shown.
    pub fn skip(mut self, count: usize) -> Self
        ensures { result ≡ record self { window = record self.window { skip = count } } }
    {
        self.window.skip = count;
        self
    }

    /// Returns the configuration.
    pub fn get_config(&self) -> &CompactConfig
        ensures { result.now ≡ self.now.config }
    {
        &self.config
    }

    /// Returns the configuration by mutable reference.
    pub fn get_config_mut(&mut self) -> &mut CompactConfig
        ensures* lends { sem 𝓛 (Lends (the_row I.row D.row) config_row self.entry result
            (λ config. record self.old { config = config })) }
        ensures value { result.now ≡ self.old.config }
    {
        &mut self.config
    }
}

impl<A: CellRows<COLUMNS, ROWS>, const COLUMNS: usize, const ROWS: usize> From<A>
    for CompactTable<A, ConstDimension<COLUMNS, ROWS>> {
    ghost from_gives = { λ rows table. IsTableOf A.cells COLUMNS ROWS rows table };

    /// Returns a table of all rows and columns of an array. Each column is as wide as its widest
    /// cell plus 2 for padding, at most `usize::MAX`. Padding that is set later doesn't change the
    /// widths.
    fn from(rows: A) -> Self {
        let widths = rows.fitting_widths();
        CompactTable {
            records: rows,
            config: new_compact_config(),
            dimension: ConstDimension::new(ConstSize::List(widths), ConstSize::Value(1)),
            columns: COLUMNS,
            window: Window {
                skip: 0,
                limit: Some(ROWS),
            },
        }
    }
}

impl<I: Drop, D: Drop> CompactTable<I, D> {
    /// Applies an option to the configuration and the dimension, and returns the table. The rows
    /// stay, and so do the settings of `columns`, `rows` and `skip`. The option sees records
    /// without rows.
    ///
    /// Fails with `Memory`, and with `Range` if a sum or product of the option exceeds
    /// `usize::MAX`. An error drops the table.
    pub fn with<O: TableOption<EmptyRecords, CompactConfig, D>>(
        self,
        option: O,
    ) -> Result<Self, TableError>
        ensures ok { IfOk result (λ table. (after : EmptyRecords)
            × O.changes option no_records self.config self.dimension
            after table.config table.dimension) }
        ensures promised { IfOk result (λ table. (after : EmptyRecords)
            × O.promises option no_records self.config self.dimension
            after table.config table.dimension) }
        ensures same { IfOk result (λ table.
            table ≡ record self { config = table.config; dimension = table.dimension }) }
        ensures err { IfErr result (λ e.
            (after : EmptyRecords) × (config : CompactConfig) × (sizes : D)
            × O.fails option e no_records self.config self.dimension after config sizes) }
        ensures only { IfErr result (λ e. (e ≡ Memory) ⊎ (e ≡ Range)) }
        ensures range { IfErr result (λ e. e ≡ Range
            → O.out_of_range option no_records self.config self.dimension) }
    {
        let mut none = EmptyRecords {
            rows: 0,
            columns: 0,
        };
        let mut config = self.config;
        let mut dimension = self.dimension;
        option.change(&mut none, &mut config, &mut dimension)?;
        Ok(CompactTable {
            config,
            dimension,
            ..self
        })
    }
}

impl<I: IntoRecords, D: Dimension + Drop> CompactTable<I, D>
where
    I::Cell: CellText + Drop,
{
    /// Prints the table to a sink, its lines joined by line feeds. Prints nothing if no row is
    /// shown or there is no column. Only the sink allocates.
    ///
    /// No row past the last one that is shown is read, and none after the sink failed: all lines
    /// above the last row that was read are written then.
    ///
    /// These errors come before the first byte, and are checked in this order:
    /// - `ShortWidths`: the dimension lacks the width of a column.
    /// - `Range`: the total width exceeds `usize::MAX`.
    ///
    /// Every later error is the sink's.
    pub fn fmt<S: TextSink>(self, sink: &mut S) -> Result<(), TableError>
        requires { I.ends self.records }
        ensures { PrintsCompact (record {
          sheet = sheet_of D.width_at self;
          window = self.window;
          comes = Came (I.begins self.records) I.Cell.text;
        }) (S.sent sink.old) result (S.sent sink.new) }
    {
        let (config, dimension) = (self.config, self.dimension);
        print_compact(
            sink,
            self.records,
            &config,
            &dimension,
            self.columns,
            self.window,
        )
    }

    /// Prints the table to a writer, as `fmt` does to a sink. The writer isn't flushed, and nothing
    /// is allocated.
    ///
    /// On `Ok` the writer took exactly the text of the table. On `ShortWidths` and `Range` it took
    /// nothing. `Writer`: a write failed or took no byte, before all of the text was written.
    /// Nothing is written after that.
    pub fn build<W: Write>(self, writer: &mut W) -> Result<(), TableError>
        requires { I.ends self.records }
        ensures { BuildsCompact (record {
          sheet = sheet_of D.width_at self;
          window = self.window;
          comes = Came (I.begins self.records) I.Cell.text;
        }) (W.contents writer.old) result (W.contents writer.new) }
    {
        let mut sink = WriterSink::new(writer);
        let result = self.fmt(&mut sink);
        let WriterSink { writer, .. } = sink;
        // Lets the proof refer to the contents of the writer here.
        let _ = &*writer;
        result
    }

    /// Returns the text of the table. Fails as `fmt` does; writing to the string fails only with
    /// `Memory`.
    pub fn to_string(self, alloc: Global) -> Result<String, TableError>
        requires { I.ends self.records }
        ensures ok { IfOk result (λ text. IsPrinted (record {
          sheet = sheet_of D.width_at self;
          window = self.window;
          comes = Came (I.begins self.records) I.Cell.text;
        }) (record { bytes = Some []; failures = 0; grows = true })
            (record { bytes = Some (string_bytes text); failures = 0; grows = true })) }
        ensures err { IfErr result (λ e. (new : Sent)
            × IsEnded (record {
              sheet = sheet_of D.width_at self;
              window = self.window;
              comes = Came (I.begins self.records) I.Cell.text;
            }) (record { bytes = Some []; failures = 0; grows = true }) e new × (new.failures ≡ 0)) }
    {
        let mut text = String::new(alloc);
        self.fmt(&mut text)?;
        Ok(text)
    }
}
