//! `VecRecords`, rows of equal length, in one list or in a vector for each row.
ghost use Rattle.std.specs.Cmp.{partial_equiv_from_equiv};
ghost use Rattle.std.specs.Cmp.Lexicographic.{lists_equiv, nat_list_eq_equiv, pointwise};
ghost use Rattle.std.specs.Prelude.{◌≡◌, ℕ, List, IfErr, IfOk, OnErr, OnOk, map, nat_eq, ⊤};
ghost use Rattle.std.specs.Prelude.{[], length, slice_index_or, string_bytes, ◌*◌, ◌<◌};
ghost use Rattle.tabled_base.specs.Cells.{IsInside, IsRectangular, cell_at, columns, texts_of};
ghost use Rattle.tabled_base.specs.Cells.{row_texts, with_cell, with_record};
ghost use Rattle.tabled_base.specs.Stored.{IsWhole, in_rows, stored_texts};
ghost use Rattle.tabled_base.specs.Slices.{slices_left};
ghost use Rattle.tabled_base.specs.declared.error.TableError.TheVariants.{Memory};

use crate::builder::push_row;
use crate::error::TableError;
use crate::position::Position;
use crate::records::{CellText, ExactRecords, PeekableRecords, Records, RecordsMut};
use crate::row_slices::RowSlices;
use crate::text::Text;
use std::alloc::Global;
use std::marker::Model;

/// The cells of records.
#[derive(Debug, Drop)]
pub(crate) enum Stored<T> {
    /// All cells in one list, row by row, with the number of columns and of rows.
    InList(Vec<T>, usize, usize),
    /// A vector for each row.
    InRows(Vec<Vec<T>>),
}

/// Records stored as rows of equal length.
#[derive(Debug, Drop)]
pub struct VecRecords<T: CellText> {
    stored: Stored<T>,
}

impl<T: CellText> Model for VecRecords<T> {
    ghost use Rattle.std.specs.Prelude.{ℕ, List};
    ghost use Rattle.tabled_base.specs.Stored.{IsWhole, stored_texts};

    ghost Value = { List (List (List ℕ)) };

    ghost view = { λ r. stored_texts T.text r.stored };

    ghost invariant = { λ r. IsWhole T.text r.stored };
}

impl<T: CellText> VecRecords<T> {
    /// Makes records of rows, which must be equally long.
    pub fn new(rows: Vec<Vec<T>>) -> Self
        requires { IsRectangular (texts_of T.text rows.items) }
        ensures { result ≡ texts_of T.text rows.items }
    {
        VecRecords {
            stored: Stored::InRows(rows),
        }
    }

    /// Makes records of `rows` rows of `columns` cells each, from a list of all cells.
    pub fn from_cells(cells: Vec<T>, columns: usize, rows: usize) -> Self
        requires { length cells.items ≡ rows * columns }
        ensures { result ≡ in_rows rows columns (map T.text cells.items) }
    {
        VecRecords {
            stored: Stored::InList(cells, columns, rows),
        }
    }

    /// Returns the allocator of the records.
    pub fn allocator(&self) -> Global {
        match &self.stored {
            Stored::InList(cells, _, _) => *cells.allocator(),
            Stored::InRows(rows) => *rows.allocator(),
        }
    }

    /// Returns an iterator over the rows as slices.
    pub fn as_rows(&self) -> RowSlices<'_, T>
        ensures { slices_left result ≡ self.now }
    {
        RowSlices {
            records: self,
            next: 0,
        }
    }

    /// Returns a row.
    #[inline(always)]
    pub(crate) fn row(&self, index: usize) -> &[T]
        requires { index < length self.now }
        ensures { map T.text result.now ≡ slice_index_or self.now index [] }
    {
        match &self.stored {
            Stored::InList(cells, columns, _) => {
                // The number of cells is a `usize`, and so each index is in range.
                let _count = cells.len();
                let start = index * *columns;
                &cells[start..start + *columns]
            }
            Stored::InRows(rows) => rows[index].as_slice(),
        }
    }

    /// Returns a cell.
    #[inline(always)]
    fn cell(&self, at: Position) -> &T
        requires { IsInside self.now at.row at.column }
        ensures { T.text result.now ≡ cell_at self.now at.row at.column }
    {
        // Tells the prover that rows are equally long.
        let _ = &self.stored;
        &self.row(at.row)[at.column]
    }
}

impl VecRecords<Text<String>> {
    /// Returns a copy of the records. Fails with `Memory` if an allocation fails.
    pub fn clone(&self) -> Result<VecRecords<Text<String>>, TableError>
        ensures ok { IfOk result (λ copy. copy ≡ self.now) }
        ensures only { IfErr result (λ e. e ≡ Memory) }
    {
        if let Stored::InList(cells, columns, rows) = &self.stored {
            let cells = clone_row(*cells.allocator(), cells.as_slice())?;
            return Ok(VecRecords::from_cells(cells, *columns, *rows));
        }
        Ok(VecRecords::new(self.copied_rows()?))
    }

    /// Copies each row into a vector of its own.
    fn copied_rows(&self) -> Result<Vec<Vec<Text<String>>>, TableError>
        ensures ok { IfOk result (λ copy. row_texts copy.items ≡ self.now) }
        ensures rectangular { IfOk result (λ copy. IsRectangular (row_texts copy.items)) }
        ensures only { IfErr result (λ e. e ≡ Memory) }
    {
        // Tells the prover that rows are equally long.
        let _ = &self.stored;
        let alloc = self.allocator();
        let mut copy = Vec::with_capacity(alloc, self.count_rows())?;
        for row in self.as_rows() {
            copy.push(clone_row(alloc, row)?)?;
        }
        Ok(copy)
    }

    /// Appends a row, and fills up shorter ones with empty cells. If it fails with `Memory`, the
    /// records are unchanged.
    pub(crate) fn push_row(&mut self, row: Vec<Text<String>>) -> Result<(), TableError>
        ensures ok { OnOk result (self.new ≡ with_record self.old row.items) }
        ensures err { OnErr result (self.new ≡ self.old) }
        ensures rectangular { IsRectangular self.new }
        ensures only { IfErr result (λ e. e ≡ Memory) }
    {
        if let Stored::InRows(rows) = &mut self.stored {
            return push_row(rows, row);
        }
        let mut rows = self.copied_rows()?;
        push_row(&mut rows, row)?;
        self.stored = Stored::InRows(rows);
        Ok(())
    }
}

impl PartialEq for VecRecords<Text<String>> {
    ghost eq = { pointwise (pointwise (pointwise nat_eq)) };

    ghost laws = { partial_equiv_from_equiv (lists_equiv (lists_equiv nat_list_eq_equiv)) };

    fn eq(&self, other: &VecRecords<Text<String>>) -> bool {
        let count = self.count_rows();
        if count != other.count_rows() {
            return false;
        }
        for index in 0..count {
            if self.row(index) != other.row(index) {
                return false;
            }
        }
        true
    }
}

impl Eq for VecRecords<Text<String>> {
    ghost laws = { lists_equiv (lists_equiv nat_list_eq_equiv) };
}

/// Borrowed records yield their rows as slices.
impl<'a, T: CellText> Records for &'a VecRecords<T> {
    type Iter = RowSlices<'a, T>;

    ghost ends = { λ _. ⊤ };

    ghost gives = { λ records cells. map (map (λ cell. T.text cell.now)) cells ≡ records.now };

    fn iter_rows(self) -> RowSlices<'a, T> {
        self.as_rows()
    }
}

impl<T: CellText> ExactRecords for VecRecords<T> {
    ghost cells = { λ r. r };

    #[inline(always)]
    fn count_rows(&self) -> usize {
        match &self.stored {
            Stored::InList(_, _, rows) => *rows,
            Stored::InRows(rows) => rows.len(),
        }
    }

    #[inline(always)]
    fn count_columns(&self) -> usize {
        match &self.stored {
            Stored::InList(_, columns, rows) => { if *rows == 0 { 0 } else { *columns } }
            Stored::InRows(rows) => first_length(rows.as_slice()),
        }
    }
}

impl<T: CellText> PeekableRecords for VecRecords<T> {
    fn get_text(&self, at: Position) -> &str {
        self.cell(at).text()
    }

    fn get_width(&self, at: Position) -> usize {
        self.cell(at).width()
    }

    fn count_lines(&self, at: Position) -> usize {
        self.cell(at).count_lines()
    }

    #[inline(always)]
    fn get_measured(&self, at: Position) -> (&str, usize, usize) {
        let cell = self.cell(at);
        (cell.text(), cell.width(), cell.count_lines())
    }
}

/// A cell that is set owns its new text. `set` doesn't allocate and never fails.
impl RecordsMut for VecRecords<Text<String>> {
    fn set(&mut self, at: Position, text: String) -> Result<(), TableError>
        requires { IsInside self.old at.row at.column }
        ensures ok { OnOk result
            (self.new ≡ with_cell self.old at.row at.column (string_bytes text)) }
        ensures never { OnErr result ⊥ }
    {
        let cell = Text::new(text);
        match &mut self.stored {
            Stored::InList(cells, columns, _) => {
                // The number of cells is a `usize`, and so each index is in range.
                let _count = cells.len();
                cells[at.row * *columns + at.column] = cell;
            }
            Stored::InRows(rows) => {
                let row = &mut rows[at.row];
                row[at.column] = cell;
            }
        }
        Ok(())
    }

    fn shorten(&mut self, at: Position, bytes: usize, ending: &str) {
        match &mut self.stored {
            Stored::InList(cells, columns, _) => {
                // The number of cells is a `usize`, and so each index is in range.
                let _count = cells.len();
                cells[at.row * *columns + at.column].shorten(bytes, ending);
            }
            Stored::InRows(rows) => {
                let row = &mut rows[at.row];
                row[at.column].shorten(bytes, ending);
            }
        }
    }

    fn allocator(&self) -> Global {
        VecRecords::allocator(self)
    }
}

/// Returns the number of cells in the first row, or 0 if there is no row.
pub(crate) fn first_length<T: CellText>(rows: &[Vec<T>]) -> usize
    ensures { result ≡ columns (texts_of T.text rows.now) }
{
    rows.first().map_or(0, |row| row.len())
}

fn clone_row(alloc: Global, row: &[Text<String>]) -> Result<Vec<Text<String>>, TableError>
    ensures ok { IfOk result (λ copy. copy.items ≡ row.now) }
    ensures only { IfErr result (λ e. e ≡ Memory) }
{
    let mut copy = Vec::with_capacity(alloc, row.len())?;
    for cell in row {
        copy.push(cell.clone()?)?;
    }
    Ok(copy)
}
