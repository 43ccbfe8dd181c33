//! `Table`: cells with settings and sizes, and the settings of a new table.
ghost use Rattle.std.specs.Prelude.{◌≡◌, ◌<◌, ◌↔◌, [], IfErr, IfOk, IsTrue, None, Ok, OnOk};
ghost use Rattle.std.specs.Prelude.{false, length, not, string_bytes, true};
ghost use Rattle.std.specs.Borrow.{Lends, sem};
ghost use Rattle.tabled_base.specs.contracts.text.Text.{the_row as text_row};
ghost use Rattle.tabled_base.specs.contracts.vec_records.VecRecords.{the_row as records_row};
ghost use Rattle.tabled_base.specs.Cells.{columns};
ghost use Rattle.tabled_base.specs.declared.error.TableError.TheVariants.{Memory};
ghost use Rattle.tabled_size.specs.Sheet.{is_empty};
ghost use Rattle.tabled_size.specs.EffectiveTotals.{ReturnsHeight, ReturnsWidth};
ghost use Rattle.tabled_size.specs.Stored.{heights_of, is_stored, widths_of};
ghost use Rattle.tabled_size.specs.Totals.{total_height, total_width};
ghost use Rattle.tabled_size.specs.Holds.{Holds};
ghost use Rattle.tabled_grid.specs.Picture.{picture, table_text};
ghost use Rattle.tabled_size.specs.PlainCells.{AreAdditive, ArePlain};
ghost use Rattle.tabled_size.specs.TextCells.{AreTexts};
ghost use Rattle.tabled_line.specs.Additive.{EachLineTakes};
ghost use Rattle.tabled_grid.specs.Printed.{Prints};
ghost use Rattle.tabled_table.specs.NewConfig.{new_config};
ghost use Rattle.tabled_table.specs.Lending.{string_row};

use std::alloc::Global;
use std::convert::AsStr;
use tabled_base::{Builder, CellText, ExactRecords, TableError, Text, VecRecords};
use tabled_config::{ColoredConfig, CompactConfig, Indent, Sides, SpannedConfig, Style};
use tabled_grid::{
    TextSink, is_additive_config, is_apart_config, is_plain_records, print_standing,
};
use tabled_size::{CompleteDimension, is_empty, total_height, total_width};

/// A table: its cells, its settings, and the sizes that were stored. Sizes that aren't stored are
/// estimated from the cells when they are needed. Two tables are equal if their cells, settings and
/// stored sizes are.
#[derive(Debug, PartialEq, Eq)]
pub struct Table {
    pub(crate) records: VecRecords<Text<String>>,
    pub(crate) config: ColoredConfig,
    pub(crate) dimension: CompleteDimension,
}

/// Drops a table in one function, so that its callers need no proof for each field.
impl Drop for Table {
    fn drop(self) {
        let Table {
            records: _,
            config: _,
            dimension: _,
        } = self;
    }
}

/// Returns the settings of a new table: ASCII borders, no margin, one column of padding on the left
/// and right, and text at the left and the top. Allocates nothing.
#[tactic(auto, unfolding(crate::specs::NewConfig::new_config))]
pub fn new_config(alloc: Global) -> SpannedConfig
    ensures { result ≡ new_config }
{
    let one = Indent::spaced(1);
    let none = Indent::zero();
    let compact = CompactConfig::new()
        .set_borders(Style::ascii().get_borders())
        .set_padding(Sides::new(one, one, none, none));
    SpannedConfig::from_compact(alloc, compact)
}

impl Table {
    ghost use Rattle.tabled_table.specs.contracts.table.Table.{the_row};
    ghost use Rattle.tabled_table.specs.Lending.{LendsConfig, LendsDimension};
    ghost use Rattle.tabled_table.specs.NewTable.{IsNew};
    ghost use Rattle.tabled_table.specs.PrintedLines.{HasTableLines, IsStraight, ShowsCells};
    ghost use Rattle.tabled_table.specs.TableSheet.{HasNoText, HasText, IsApart, IsAdditiveTable, cells_of};
    ghost use Rattle.tabled_table.specs.TableSheet.{sheet};

    /// Returns a table of these records with the settings of a new one. Allocates nothing.
    pub(crate) fn of_records(records: VecRecords<Text<String>>) -> Table
        ensures { IsNew records result }
    {
        let alloc = records.allocator();
        Table {
            records,
            config: ColoredConfig::new(new_config(alloc)),
            dimension: CompleteDimension::new(alloc),
        }
    }

    fn into_records(self) -> VecRecords<Text<String>>
        ensures { result ≡ self.records }
    {
        let Table {
            records,
            config: _,
            dimension: _,
        } = self;
        records
    }

    /// Returns a table without rows. Allocates nothing.
    pub fn empty(alloc: Global) -> Table
        ensures { IsNew [] result }
    {
        Table::from(Builder::new(alloc))
    }

    /// Returns a copy of the table. Fails only if an allocation fails (`Memory`).
    pub fn clone(&self) -> Result<Table, TableError>
        ensures records { IfOk result (λ table. table.records ≡ self.now.records) }
        ensures config { IfOk result (λ table. table.config ≡ self.now.config) }
        ensures widths { IfOk result (λ table. widths_of table.dimension
            ≡ widths_of self.now.dimension) }
        ensures heights { IfOk result (λ table. heights_of table.dimension
            ≡ heights_of self.now.dimension) }
        ensures only { IfErr result (λ e. e ≡ Memory) }
    {
        Ok(Table {
            records: self.records.clone()?,
            config: self.config.clone()?,
            dimension: self.dimension.clone()?,
        })
    }

    /// Returns the settings.
    pub fn get_config(&self) -> &ColoredConfig
        ensures { result.now ≡ self.now.config }
    {
        &self.config
    }

    /// Returns the settings by mutable reference.
    pub fn get_config_mut(&mut self) -> &mut ColoredConfig
        ensures* lends { sem 𝓛 (LendsConfig self.entry result) }
        ensures value { result.now ≡ self.old.config }
    {
        &mut self.config
    }

    /// Returns the records.
    pub fn get_records(&self) -> &VecRecords<Text<String>>
        ensures { result.now ≡ self.now.records }
    {
        &self.records
    }

    /// Returns the records by mutable reference.
    pub fn get_records_mut(&mut self) -> &mut VecRecords<Text<String>>
        ensures* lends { sem 𝓛 (Lends the_row
            (records_row (text_row string_row ⟦<String as AsStr>⟧) ⟦<Text<String> as CellText>⟧)
            self.entry result (λ records. record self.old { records = records })) }
        ensures value { result.now ≡ self.old.records }
    {
        &mut self.records
    }

    /// Returns the stored sizes.
    pub fn get_dimension(&self) -> &CompleteDimension
        ensures { result.now ≡ self.now.dimension }
    {
        &self.dimension
    }

    /// Returns the stored sizes by mutable reference.
    pub fn get_dimension_mut(&mut self) -> &mut CompleteDimension
        ensures* lends { sem 𝓛 (LendsDimension self.entry result) }
        ensures value { result.now ≡ self.old.dimension }
    {
        &mut self.dimension
    }

    /// Returns the number of rows and the number of columns.
    pub fn shape(&self) -> (usize, usize)
        ensures rows { result.0 ≡ length (cells_of self.now) }
        ensures columns { result.1 ≡ columns (cells_of self.now) }
    {
        (self.count_rows(), self.count_columns())
    }

    /// Returns the number of rows.
    pub fn count_rows(&self) -> usize
        ensures { result ≡ length (cells_of self.now) }
    {
        self.records.count_rows()
    }

    /// Returns the number of columns; 0 for a table without rows.
    pub fn count_columns(&self) -> usize
        ensures { result ≡ columns (cells_of self.now) }
    {
        self.records.count_columns()
    }

    /// Whether the table has no row or no column.
    pub fn is_empty(&self) -> bool
        ensures { result ≡ is_empty (cells_of self.now) }
    {
        is_empty(&self.records)
    }

    /// Whether the settings separate the cells, so that the columns of a line add up whatever the
    /// cells contain. Then each printed line is exactly `total_width` columns wide, if the widths
    /// hold the cells, as estimated widths do.
    ///
    /// Returns `true` exactly if all of these hold:
    /// - Padding and side margins are filled with separators of one column: a space, lines, blocks
    ///   and dots, or printable ASCII except `#`, `*` and digits.
    /// - Horizontal lines and the top and bottom margins are of additive characters, whose columns
    ///   add up.
    /// - Vertical lines are of additive characters before left padding, or of separators.
    /// - There is a vertical line or padding between any two cells of a row.
    pub fn is_apart(&self) -> bool
        ensures { IsTrue result ↔ IsApart self.now }
    {
        is_apart_config(
            self.config.as_ref(),
            self.count_rows(),
            self.count_columns(),
        )
    }

    /// Whether the cells are plain, and borders, fills and margins are plain characters or
    /// separators of one column. Then each printed line is exactly `total_width` columns wide, even
    /// where cells touch, if the widths hold the cells, as estimated widths do.
    pub fn is_plain(&self) -> bool
        ensures { IsTrue result ↔ (IsAdditiveTable self.now × ArePlain (cells_of self.now)) }
    {
        let config = self.config.as_ref();
        is_additive_config(config, self.count_rows(), self.count_columns())
            && is_plain_records(&self.records)
    }

    /// Returns the columns of each line of the printed table: the effective widths, the vertical
    /// lines and the side margins. An empty table has 0.
    ///
    /// Fails with `Memory` only if no widths are stored, with `ShortWidths` if fewer widths are
    /// stored than there are columns, and with `Range` if the sum exceeds `usize::MAX`.
    #[tactic(auto, using(tabled_grid::proofs::Whole::picture_columns, tabled_grid::proofs::ApartPictures::apart_columns))]
    pub fn total_width(&self) -> Result<usize, TableError>
        ensures empty { is_empty (cells_of self.now) ≡ true → result ≡ Ok 0 }
        ensures filled { is_empty (cells_of self.now) ≡ false → ReturnsWidth (sheet self.now).config
            (columns (cells_of self.now)) (sheet self.now).widths result }
        ensures memory { IfErr result (λ e. e ≡ Memory → widths_of self.now.dimension ≡ None) }
        ensures texts { IsApart self.now → AreTexts (cells_of self.now) → Holds (sheet self.now)
            → EachLineTakes (total_width (sheet self.now)) (picture (sheet self.now)) }
        ensures columns { IsAdditiveTable self.now → AreAdditive (cells_of self.now)
            → Holds (sheet self.now)
            → EachLineTakes (total_width (sheet self.now)) (picture (sheet self.now)) }
    {
        total_width(&self.records, self.config.as_ref(), &self.dimension)
    }

    /// Returns the number of lines of the printed table: the effective heights, the horizontal
    /// lines, and the top and bottom margins. An empty table has 0.
    ///
    /// Fails with `Memory` only if no heights are stored, with `ShortHeights` if fewer heights are
    /// stored than there are rows, and with `Range` if the sum exceeds `usize::MAX`.
    #[tactic(auto, using(tabled_grid::proofs::Whole::picture_lines))]
    pub fn total_height(&self) -> Result<usize, TableError>
        ensures empty { is_empty (cells_of self.now) ≡ true → result ≡ Ok 0 }
        ensures filled { is_empty (cells_of self.now) ≡ false
            → ReturnsHeight (sheet self.now).config
            (length (cells_of self.now)) (sheet self.now).heights result }
        ensures memory { IfErr result (λ e. e ≡ Memory → heights_of self.now.dimension ≡ None) }
        ensures lines { length (picture (sheet self.now)) ≡ total_height (sheet self.now) }
    {
        total_height(&self.records, self.config.as_ref(), &self.dimension)
    }

    /// Prints the table to a sink piece by piece, its lines joined by line feeds. A table without
    /// rows or columns prints nothing.
    ///
    /// These errors come before the first byte, and are checked in this order:
    /// - `ShortWidths`, `ShortHeights`: fewer sizes are stored than there are columns or rows.
    /// - `Narrow`: a column is narrower than a cell with its side padding. The error names the
    ///   first such cell.
    /// - `Range`: a total exceeds `usize::MAX`.
    ///
    /// If widths or heights aren't stored, printing allocates and can fail with `Memory` before the
    /// first byte. Every later error is the sink's, and then a beginning of the table was written.
    ///
    /// If the settings separate the cells and these are text, or if both are additive, each line of
    /// the text is exactly `total_width` columns wide, and there are `total_height` lines. Only a
    /// text without lines is excepted.
    pub fn write_to<S: TextSink>(&self, sink: &mut S) -> Result<(), TableError>
        ensures printed { Prints (not (is_stored self.now.dimension)) (sheet self.now)
            (S.sent sink.old) result (S.sent sink.new) }
        ensures lines { OnOk result (IsStraight self.now → 0 < total_height (sheet self.now)
            → HasTableLines (sheet self.now) (table_text (sheet self.now))) }
    {
        if is_empty(&self.records) {
            return Ok(());
        }
        print_standing(sink, &self.records, self.config.as_ref(), &self.dimension)
    }

    /// Returns the printed table. Fails with `Memory`, and with each error that `write_to` returns
    /// before its first byte, but never for a table without rows or columns.
    ///
    /// `to_string` returns the same. But on a `&mut Table`, as `with` returns one, `to_string` is
    /// std's method, which reports every error as an allocation failure.
    ///
    /// ```rust
    /// Table::from_iter(alloc, rows)?.with(Style::modern())?.to_text()
    /// ```
    ///
    /// The lines of the text are as wide as `write_to` says. If no heights are stored, all lines of
    /// each cell can be read in them, one below the other, each whole.
    pub fn to_text(&self) -> Result<String, TableError>
        ensures ok { IfOk result (λ text. string_bytes text ≡ table_text (sheet self.now)) }
        ensures lines { IfOk result (λ text. IsStraight self.now
            → 0 < total_height (sheet self.now)
            → HasTableLines (sheet self.now) (string_bytes text)) }
        ensures cells { IfOk result (λ text. IsAdditiveTable self.now → heights_of self.now.dimension ≡ None
            → ShowsCells (cells_of self.now) (string_bytes text)) }
        ensures printable { IfOk result (λ _. HasText self.now) }
        ensures err { IfErr result (λ e. HasNoText self.now e) }
    {
        let mut text = String::new(self.records.allocator());
        self.write_to(&mut text)?;
        Ok(text)
    }

    /// Returns the printed table; see `to_text`.
    pub fn to_string(&self) -> Result<String, TableError>
        ensures ok { IfOk result (λ text. string_bytes text ≡ table_text (sheet self.now)) }
        ensures lines { IfOk result (λ text. IsStraight self.now
            → 0 < total_height (sheet self.now)
            → HasTableLines (sheet self.now) (string_bytes text)) }
        ensures cells { IfOk result (λ text. IsAdditiveTable self.now → heights_of self.now.dimension ≡ None
            → ShowsCells (cells_of self.now) (string_bytes text)) }
        ensures printable { IfOk result (λ _. HasText self.now) }
        ensures err { IfErr result (λ e. HasNoText self.now e) }
    {
        self.to_text()
    }
}

impl From<Builder> for Table {
    ghost use Rattle.tabled_table.specs.NewTable.{IsNew};

    ghost from_gives = { λ builder table. IsNew builder table };

    fn from(builder: Builder) -> Table {
        Table::of_records(builder.build())
    }
}

/// Turns the cells into a builder, and drops settings and sizes. Allocates nothing.
impl From<Table> for Builder {
    ghost from_gives = { λ table builder. builder ≡ table.records };

    fn from(table: Table) -> Builder {
        Builder::from(table.into_records())
    }
}
