//! The traits of records and of their cells, and `IntoRecords`, the sources of rows that are read
//! once.
ghost use Rattle.std.specs.Prelude.{Bool, IfErr, List, OnErr, OnOk, length, string_bytes, take};
ghost use Rattle.std.specs.Prelude.{true, ℕ, ◌++◌, ◌≡◌};
ghost use Rattle.std.specs.Str.{IsCharBoundary};
ghost use Rattle.tabled_base.specs.Cells.{IsInside, IsRectangular, cell_at, columns, with_cell};
ghost use Rattle.tabled_base.specs.Laws.{whole_rows};
ghost use Rattle.tabled_base.specs.RowsGiven.{RowsBegin, RowsEnd, RowsGiven};
ghost use Rattle.tabled_base.specs.ShortOr.{FitsBehind};
ghost use Rattle.tabled_base.specs.declared.error.TableError.TheVariants.{Memory};
ghost use Rattle.tabled_text.specs.Measure.{lines_of, text_columns};

use crate::error::TableError;
use crate::position::Position;
use std::alloc::Global;
use tabled_text::{count_lines, text_width};

/// A value that holds the text of a cell.
pub trait CellText {
    // The bytes of the text.
    ghost text: { Self → List ℕ };

    /// Returns the text.
    fn text(&self) -> &str
        ensures { result.now ≡ text self.now };

    /// Returns the width of the text in columns: that of its widest line.
    fn width(&self) -> usize
        ensures { result ≡ text_columns (text self.now) }
    {
        text_width(self.text())
    }

    /// Returns the number of lines of the text.
    fn count_lines(&self) -> usize
        ensures { result ≡ length (lines_of (text self.now)) }
    {
        count_lines(self.text())
    }
}

impl CellText for &str {
    ghost text = { λ s. s.now };

    fn text(&self) -> &str {
        *self
    }
}

impl CellText for String {
    ghost text = { string_bytes };

    fn text(&self) -> &str {
        self.as_str()
    }
}

impl<T: CellText> CellText for &T {
    ghost text = { λ s. T.text s.now };

    fn text(&self) -> &str {
        T::text(self)
    }

    fn width(&self) -> usize {
        T::width(self)
    }

    fn count_lines(&self) -> usize {
        T::count_lines(self)
    }
}

/// Records that yield their rows once. Their number needn't be known, and rows may differ in
/// length.
pub trait Records {
    /// The source of the rows.
    type Iter: IntoRecords;

    // Holds of records if the iterations over their rows, and over the cells of each row, end.
    ghost ends: { Self → Type 0 };

    // Relates records to the cells that they may yield, row by row.
    ghost gives: { Self → List (List Self.Iter.Cell) → Type 0 };

    /// Returns the source of the rows.
    fn iter_rows(self) -> Self::Iter
        ensures ends { ends self → Self.Iter.ends result }
        ensures gives { (cells : List (List Self.Iter.Cell)) → Self.Iter.gives result cells
            → gives self cells };
}

/// Records with a known number of rows, which are equally long.
pub trait ExactRecords {
    // The texts of the cells, row by row.
    ghost cells: { Self → List (List (List ℕ)) };

    /// Returns the number of rows.
    fn count_rows(&self) -> usize
        ensures { result ≡ length (cells self.now) };

    /// Returns the number of cells in each row, or 0 if there are no rows.
    fn count_columns(&self) -> usize
        ensures columns { result ≡ columns (cells self.now) }
        ensures rectangular { IsRectangular (cells self.now) };
}

/// Records whose cells can be read in any order.
pub trait PeekableRecords: ExactRecords {
    /// Returns the text of a cell.
    fn get_text(&self, at: Position) -> &str
        requires { IsInside (Self.cells self.now) at.row at.column }
        ensures { result.now ≡ cell_at (Self.cells self.now) at.row at.column };

    /// Returns the width of a cell's text in columns.
    fn get_width(&self, at: Position) -> usize
        requires { IsInside (Self.cells self.now) at.row at.column }
        ensures { result ≡ text_columns (cell_at (Self.cells self.now) at.row at.column) };

    /// Returns the number of lines of a cell's text.
    fn count_lines(&self, at: Position) -> usize
        requires { IsInside (Self.cells self.now) at.row at.column }
        ensures { result ≡ length (lines_of (cell_at (Self.cells self.now) at.row at.column)) };

    /// Returns the text of a cell, its width in columns and its number of lines. Takes one lookup
    /// if the records store them together.
    fn get_measured(&self, at: Position) -> (&str, usize, usize)
        requires { IsInside (Self.cells self.now) at.row at.column }
        ensures text { result.0.now ≡ cell_at (Self.cells self.now) at.row at.column }
        ensures columns { result.1 ≡ text_columns (cell_at (Self.cells self.now) at.row at.column) }
        ensures lines { result.2
            ≡ length (lines_of (cell_at (Self.cells self.now) at.row at.column)) }
    {
        (self.get_text(at), self.get_width(at), self.count_lines(at))
    }
}

/// Records whose cells can be changed.
pub trait RecordsMut: PeekableRecords {
    /// Replaces the text of a cell. If it fails with `Memory`, no cell is changed.
    fn set(&mut self, at: Position, text: String) -> Result<(), TableError>
        requires { IsInside (Self.cells self.old) at.row at.column }
        ensures ok { OnOk result (Self.cells self.new
            ≡ with_cell (Self.cells self.old) at.row at.column (string_bytes text)) }
        ensures err { OnErr result (Self.cells self.new ≡ Self.cells self.old) }
        ensures only { IfErr result (λ e. e ≡ Memory) };

    /// Truncates the text of a cell to `bytes` bytes and appends an ending. A nonempty ending must
    /// leave at most 16 bytes in all, so that nothing is allocated. The other cells are unchanged.
    fn shorten(&mut self, at: Position, bytes: usize, ending: &str)
        requires inside { IsInside (Self.cells self.old) at.row at.column }
        requires boundary { IsCharBoundary (cell_at (Self.cells self.old) at.row at.column) bytes }
        requires fits { FitsBehind bytes ending.now }
        ensures { Self.cells self.new ≡ with_cell (Self.cells self.old) at.row at.column
            (take bytes (cell_at (Self.cells self.old) at.row at.column) ++ ending.now) };

    /// Returns the allocator of the records.
    fn allocator(&self) -> Global;
}

/// A source of rows of cells: vectors, slices and arrays of rows, owned or borrowed, and every
/// iterator of rows.
pub trait IntoRecords {
    /// A cell.
    type Cell;

    /// The cells of a row.
    type IterColumns: IntoIterator<Item = Self::Cell>;

    /// The rows.
    type IterRows: IntoIterator<Item = Self::IterColumns>;

    // Holds of a source if the iterations over its rows, and over the cells of each row, end.
    ghost ends: { Self → Type 0 };

    // Relates a source to the cells that it may yield, row by row.
    ghost gives: { Self → List (List Self.Cell) → Type 0 };

    // Relates a source to the cells that it may yield first, row by row. The flag says that these
    // are all.
    ghost begins: { Self → List (List Self.Cell) → Bool → Type 0 };

    /// Returns the rows, in order.
    fn iter_rows(self) -> Self::IterRows
        ensures ends { ends self → RowsEnd Self.IterRows.into_iter_gives
            Self.IterRows.IntoIter.can_next Self.IterRows.IntoIter.next_gives
            Self.IterRows.IntoIter.remaining Self.IterColumns.into_iter_gives
            Self.IterColumns.IntoIter.can_next Self.IterColumns.IntoIter.remaining result }
        ensures gives { (cells : List (List Self.Cell)) → RowsGiven Self.IterRows.into_iter_gives
            Self.IterRows.IntoIter.next_gives Self.IterColumns.into_iter_gives
            Self.IterColumns.IntoIter.next_gives result cells → gives self cells }
        ensures begins { (cells : List (List Self.Cell)) (whole : Bool)
            → RowsBegin Self.IterRows.into_iter_gives Self.IterRows.IntoIter.next_gives
            Self.IterColumns.into_iter_gives Self.IterColumns.IntoIter.next_gives result cells whole
            → begins self cells whole };

    // If the cells that are yielded first are all, they are what the source yields.
    ghost whole_rows: { (source : Self) (cells : List (List Self.Cell))
        → begins source cells true → gives source cells };
}

impl<I: IntoIterator> IntoRecords for I
where
    I::Item: IntoIterator,
{
    type Cell = <I::Item as IntoIterator>::Item;

    type IterColumns = I::Item;

    type IterRows = I;

    ghost ends = { RowsEnd I.into_iter_gives I.IntoIter.can_next I.IntoIter.next_gives
        I.IntoIter.remaining I.Item.into_iter_gives I.Item.IntoIter.can_next
        I.Item.IntoIter.remaining };

    ghost gives = { RowsGiven I.into_iter_gives I.IntoIter.next_gives I.Item.into_iter_gives
        I.Item.IntoIter.next_gives };

    ghost begins = { RowsBegin I.into_iter_gives I.IntoIter.next_gives I.Item.into_iter_gives
        I.Item.IntoIter.next_gives };

    ghost whole_rows = { λ source cells begun. whole_rows begun };

    fn iter_rows(self) -> I {
        self
    }
}
