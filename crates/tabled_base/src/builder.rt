//! `Builder`, which makes records row by row.
ghost use Rattle.std.specs.Prelude.{◌≡◌, ◌≤◌, ℕ, List, [], IfOk, IfErr, OnErr, OnOk, length, map};
ghost use Rattle.std.specs.Prelude.{vec_capacity};
ghost use Rattle.std.specs.Iterator.{IsFiniteIterable};
ghost use Rattle.std.specs.Borrow.{RestsIfErr, sem};
ghost use Rattle.std.specs.List.{All};
ghost use Rattle.tabled_base.specs.Cells.{IsRectangular, longest, lengthened, lengthened_rows};
ghost use Rattle.tabled_base.specs.Cells.{row_texts, with_record};
ghost use Rattle.tabled_base.specs.Given.{Given};
ghost use Rattle.tabled_base.specs.declared.error.TableError.TheVariants.{Memory};

use crate::error::TableError;
use crate::records::{CellText, ExactRecords, IntoRecords};
use crate::text::Text;
use crate::vec_records::{VecRecords, first_length};
use std::alloc::{AllocError, Global};
use std::marker::Model;

/// Collects rows of cells. Shorter rows are filled up with empty cells at once, so that all rows
/// are equally long.
#[derive(Debug, Drop)]
pub struct Builder {
    records: VecRecords<Text<String>>,
    // The capacity of each new row, in cells.
    room: usize,
}

impl Model for Builder {
    ghost Value = { List (List (List ℕ)) };

    ghost view = { λ b. b.records };

    ghost invariant = { λ b. IsRectangular b.records };
}

impl Builder {
    ghost use Rattle.tabled_base.specs.contracts.builder.Builder.{the_row};

    /// Makes a builder without rows.
    pub fn new(alloc: Global) -> Builder
        ensures { result ≡ [] }
    {
        let records = VecRecords::new(Vec::new(alloc));
        Builder { records, room: 0 }
    }

    /// Makes a builder without rows, with capacity for `rows` rows. Each row that is added starts
    /// with capacity for `columns` cells. Fails with `Memory` if the allocation fails.
    pub fn with_capacity(alloc: Global, rows: usize, columns: usize) -> Result<Builder, TableError>
        ensures ok { IfOk result (λ builder. builder ≡ []) }
        ensures only { IfErr result (λ e. e ≡ Memory) }
    {
        Ok(Builder {
            records: VecRecords::new(Vec::with_capacity(alloc, rows)?),
            room: columns,
        })
    }

    /// Makes a builder of rows, and fills up the shorter ones with empty cells. Allocates only if
    /// the rows differ in length. If that fails with `Memory`, the rows are dropped.
    pub fn from_vec(mut rows: Vec<Vec<Text<String>>>) -> Result<Builder, TableError>
        ensures ok { IfOk result (λ builder. builder ≡ lengthened_rows (row_texts rows.items)) }
        ensures unequal { OnErr result (¬ IsRectangular (row_texts rows.items)) }
        ensures only { IfErr result (λ e. e ≡ Memory) }
    {
        let columns = longest_row(rows.as_slice());
        let all = rows.as_mut_slice();
        reserve_rows(all, columns)?;
        lengthen_rows(all, columns);
        let records = VecRecords::new(rows);
        Ok(Builder { records, room: 0 })
    }

    /// Makes a builder of the rows of a source, and fills up the shorter ones with empty cells.
    /// Fails with `Memory` if an allocation fails.
    pub fn from_iter<I: IntoRecords>(alloc: Global, rows: I) -> Result<Builder, TableError>
    where
        I::Cell: CellText + Drop,
        requires { I.ends rows }
        ensures ok { IfOk result (λ builder. (cells : List (List I.Cell)) × I.gives rows cells
            × (builder ≡ lengthened_rows (map (map I.Cell.text) cells))) }
        ensures only { IfErr result (λ e. e ≡ Memory) }
    {
        let mut builder = Builder::new(alloc);
        for row in rows.iter_rows() {
            builder.add_record(row)?;
        }
        Ok(builder)
    }

    /// Adds a row, and fills up shorter ones with empty cells. If it fails with `Memory`, the
    /// builder is unchanged.
    pub fn add_record<I: IntoIterator>(&mut self, cells: I) -> Result<(), TableError>
    where
        I::Item: CellText + Drop,
        requires { IsFiniteIterable I.into_iter_gives I.IntoIter.can_next
            I.IntoIter.remaining cells }
        ensures ok { OnOk result ((items : List I.Item)
            × Given I.into_iter_gives I.IntoIter.next_gives cells items
            × (self.new ≡ with_record self.old (map I.Item.text items))) }
        ensures err { OnErr result (self.new ≡ self.old) }
        ensures rectangular { IsRectangular self.new }
        ensures only { IfErr result (λ e. e ≡ Memory) }
    {
        let row = collect_row(self.records.allocator(), self.room, cells)?;
        self.records.push_row(row)
    }

    /// Adds a row as `add_record` does, and returns the builder to chain calls. If it fails with
    /// `Memory`, the builder is unchanged.
    pub fn push_record<I: IntoIterator>(&mut self, cells: I) -> Result<&mut Self, TableError>
    where
        I::Item: CellText + Drop,
        requires { IsFiniteIterable I.into_iter_gives I.IntoIter.can_next
            I.IntoIter.remaining cells }
        ensures* rests { sem 𝓛 (RestsIfErr the_row self.entry (λ t. t.ghost_name) result
            (λ last. last ≡ self.old)) }
        ensures same_reference { IfOk result (λ t. t.ghost_name ≡ self.entry.ghost_name) }
        ensures ok { IfOk result (λ t. (items : List I.Item)
            × Given I.into_iter_gives I.IntoIter.next_gives cells items
            × (t.now ≡ with_record self.old (map I.Item.text items))) }
        ensures rectangular { IfOk result (λ t. IsRectangular t.now) }
        ensures only { IfErr result (λ e. e ≡ Memory) }
    {
        match self.add_record(cells) {
            Ok(()) => Ok(self),
            Err(_) => Err(TableError::Memory),
        }
    }

    /// Returns the records of the rows. Doesn't allocate.
    pub fn build(self) -> VecRecords<Text<String>>
        ensures value { result ≡ self }
        ensures rectangular { IsRectangular result }
    {
        self.records
    }
}

/// Takes over the rows of records. Doesn't allocate.
impl From<VecRecords<Text<String>>> for Builder {
    ghost from_gives = { λ records builder. builder ≡ records };

    fn from(records: VecRecords<Text<String>>) -> Builder {
        // The rows are equally long, as the contract of their number says.
        let _columns = records.count_columns();
        Builder { records, room: 0 }
    }
}

/// Copies the texts of cells into a new row, and measures them.
fn collect_row<I: IntoIterator>(
    alloc: Global,
    room: usize,
    cells: I,
) -> Result<Vec<Text<String>>, TableError>
where
    I::Item: CellText + Drop,
    requires { IsFiniteIterable I.into_iter_gives I.IntoIter.can_next I.IntoIter.remaining cells }
    ensures ok { IfOk result (λ row. (items : List I.Item)
        × Given I.into_iter_gives I.IntoIter.next_gives cells items
        × (row.items ≡ map I.Item.text items)) }
    ensures only { IfErr result (λ e. e ≡ Memory) }
{
    let cells = cells.into_iter();
    let mut row = Vec::with_capacity(alloc, room)?;
    for cell in cells {
        row.push(Text::copied(alloc, cell.text())?)?;
    }
    Ok(row)
}

/// Returns the number of cells in the longest row.
fn longest_row(rows: &[Vec<Text<String>>]) -> usize
    ensures { result ≡ longest (row_texts rows.now) }
{
    let mut columns: usize = 0;
    for row in rows {
        columns = columns.max(row.len());
    }
    columns
}

/// Appends a row, and fills up the shorter ones.
pub(crate) fn push_row(
    rows: &mut Vec<Vec<Text<String>>>,
    mut row: Vec<Text<String>>,
) -> Result<(), TableError>
    requires { IsRectangular (row_texts rows.old.items) }
    ensures ok { OnOk result
        (row_texts rows.new.items ≡ with_record (row_texts rows.old.items) row.items) }
    ensures err { OnErr result (row_texts rows.new.items ≡ row_texts rows.old.items) }
    ensures only { IfErr result (λ e. e ≡ Memory) }
{
    let before = first_length(rows.as_slice());
    let columns = before.max(row.len());
    row.reserve(columns.saturating_sub(row.len()))?;
    rows.reserve(1)?;
    if before < columns {
        let all = rows.as_mut_slice();
        reserve_rows(all, columns)?;
        lengthen_rows(all, columns);
    }
    lengthen_row(&mut row, columns);
    rows.push_reserved(row);
    Ok(())
}

/// Reserves capacity for `columns` cells in each row.
fn reserve_rows(rows: &mut [Vec<Text<String>>], columns: usize) -> Result<(), AllocError>
    ensures items { row_texts rows.new ≡ row_texts rows.old }
    ensures ok { OnOk result (All (λ row. columns ≤ vec_capacity row) rows.new) }
    ensures short { OnErr result (¬ All (λ row. columns ≤ length row) (row_texts rows.old)) }
{
    for row in rows.iter_mut() {
        row.reserve(columns.saturating_sub(row.len()))?;
    }
    Ok(())
}

/// Fills up rows to `columns` cells, within their capacity.
fn lengthen_rows(rows: &mut [Vec<Text<String>>], columns: usize)
    requires { All (λ row. columns ≤ vec_capacity row) rows.old }
    ensures { row_texts rows.new ≡ map (lengthened columns) (row_texts rows.old) }
{
    for row in rows.iter_mut() {
        lengthen_row(row, columns);
    }
}

/// Fills up a row to `columns` cells, within its capacity.
fn lengthen_row(row: &mut Vec<Text<String>>, columns: usize)
    requires { columns ≤ vec_capacity row.old }
    ensures items { row.new.items ≡ lengthened columns row.old.items }
    ensures capacity { vec_capacity row.new ≡ vec_capacity row.old }
{
    let alloc = *row.allocator();
    for _column in row.len()..columns {
        row.push_reserved(Text::new(String::new(alloc)));
    }
}
