//! Makes tables of values and of rows, in batches of rows.
ghost use Rattle.std.specs.Iterator.{IsFiniteIterable, YieldsFirst, item_count};
ghost use Rattle.std.specs.Prelude.{IfErr, IfOk, IsFalse, IsTrue, List, [], flat_map, length, map};
ghost use Rattle.std.specs.Prelude.{slice_get, ℕ, ◌+◌, ◌<◌, ◌^◌, ◌∷◌, ◌≡◌};
ghost use Rattle.tabled_base.specs.Cells.{lengthened_rows};
ghost use Rattle.tabled_base.specs.declared.error.TableError.TheVariants.{Memory};
ghost use Rattle.tabled_table.specs.Batches.{batch_at, batches_left};
ghost use Rattle.tabled_table.specs.TableSheet.{cells_of};
ghost use Rattle.tabled_value.specs.ValueRows.{pairs};

use crate::table::Table;
use std::alloc::Global;
use tabled_base::{Builder, CellText, IntoRecords, TableError};
use tabled_value::{Tabled, field_records, named_records, value_records};

impl Table {
    ghost use Rattle.tabled_table.specs.NewTable.{IsNew, Shows};

    /// Returns a table with the names of the fields as its header, and a row for each value.
    /// Without a value it has the header alone. Fails only if an allocation fails (`Memory`).
    pub fn new<I: IntoIterator>(alloc: Global, iter: I) -> Result<Table, TableError>
    where
        I::Item: Tabled + Drop,
        requires { IsFiniteIterable I.into_iter_gives I.IntoIter.can_next
            I.IntoIter.remaining iter }
        ensures ok { IfOk result (λ table. Shows I.into_iter_gives I.IntoIter.next_gives iter
            I.Item.shows (λ rows. IsNew (I.Item.names ∷ rows) table)) }
        ensures only { IfErr result (λ e. e ≡ Memory) }
    {
        Table::with_capacity(alloc, iter, 0)
    }

    /// Returns the same table as `new`, and allocates for `rows` values at the start. Fails only if
    /// an allocation fails (`Memory`).
    pub fn with_capacity<I: IntoIterator>(
        alloc: Global,
        iter: I,
        rows: usize,
    ) -> Result<Table, TableError>
    where
        I::Item: Tabled + Drop,
        requires { IsFiniteIterable I.into_iter_gives I.IntoIter.can_next
            I.IntoIter.remaining iter }
        ensures ok { IfOk result (λ table. Shows I.into_iter_gives I.IntoIter.next_gives iter
            I.Item.shows (λ rows. IsNew (I.Item.names ∷ rows) table)) }
        ensures only { IfErr result (λ e. e ≡ Memory) }
    {
        Ok(Table::of_records(named_records(alloc, iter, rows.saturating_add(1))?))
    }

    /// Returns a table with a row for each value and no header. Fails only if an allocation fails
    /// (`Memory`).
    pub fn nohead<I: IntoIterator>(alloc: Global, iter: I) -> Result<Table, TableError>
    where
        I::Item: Tabled + Drop,
        requires { IsFiniteIterable I.into_iter_gives I.IntoIter.can_next
            I.IntoIter.remaining iter }
        ensures ok { IfOk result (λ table. Shows I.into_iter_gives I.IntoIter.next_gives iter
            I.Item.shows (λ rows. IsNew rows table)) }
        ensures only { IfErr result (λ e. e ≡ Memory) }
    {
        Ok(Table::of_records(value_records(alloc, iter)?))
    }

    /// Returns a table with no header, and a row of name and text for each field of each value.
    /// Fails only if an allocation fails (`Memory`).
    pub fn kv<I: IntoIterator>(alloc: Global, iter: I) -> Result<Table, TableError>
    where
        I::Item: Tabled + Drop,
        requires { IsFiniteIterable I.into_iter_gives I.IntoIter.can_next
            I.IntoIter.remaining iter }
        ensures ok { IfOk result (λ table. Shows I.into_iter_gives I.IntoIter.next_gives iter
            I.Item.shows (λ rows. IsNew (flat_map (pairs I.Item.names) rows) table)) }
        ensures only { IfErr result (λ e. e ≡ Memory) }
    {
        Ok(Table::of_records(field_records(alloc, iter)?))
    }

    /// Returns a builder with a row of the fields' names, and then a row for each value. Fails only
    /// if an allocation fails (`Memory`).
    pub fn builder<I: IntoIterator>(alloc: Global, iter: I) -> Result<Builder, TableError>
    where
        I::Item: Tabled + Drop,
        requires { IsFiniteIterable I.into_iter_gives I.IntoIter.can_next
            I.IntoIter.remaining iter }
        ensures ok { IfOk result (λ builder. Shows I.into_iter_gives I.IntoIter.next_gives iter
            I.Item.shows (λ rows. builder ≡ I.Item.names ∷ rows)) }
        ensures only { IfErr result (λ e. e ≡ Memory) }
    {
        Ok(Builder::from(named_records(alloc, iter, 1)?))
    }

    /// Returns a table of the rows of a source. Short rows are filled with empty cells. Fails only
    /// if an allocation fails (`Memory`).
    pub fn from_iter<I: IntoRecords>(alloc: Global, rows: I) -> Result<Table, TableError>
    where
        I::Cell: CellText + Drop,
        requires { I.ends rows }
        ensures ok { IfOk result (λ table. (cells : List (List I.Cell)) × I.gives rows cells
            × IsNew (lengthened_rows (map (map I.Cell.text) cells)) table) }
        ensures only { IfErr result (λ e. e ≡ Memory) }
    {
        Ok(Table::from(Builder::from_iter(alloc, rows)?))
    }
}

/// An iterator over 0, `batch`, 2 `batch` and so on: one number for each batch between two numbers.
/// The default is empty.
#[derive(Clone, Copy, Debug, Drop, PartialEq, Eq, PartialOrd, Ord, Hash, Default)]
pub struct LayoutIterator {
    from: usize,
    to: usize,
    batch: usize,
    offset: usize,
}

impl LayoutIterator {
    /// Returns an iterator over k times `batch`, for each k from 0 on while `from` plus that
    /// product is below `to`. A sum that exceeds `usize::MAX` isn't below `to`. If `batch` is 0, it
    /// is empty. Allocates nothing.
    pub fn new(from: usize, to: usize, batch: usize) -> LayoutIterator
        ensures { (k : ℕ) → slice_get (batches_left result) k ≡ batch_at from to batch k }
    {
        LayoutIterator {
            from,
            to,
            batch,
            offset: 0,
        }
    }

    /// Returns the row where each value begins, for a table that `Table::kv` made.
    pub fn kv_batches<T: Tabled>(table: &Table) -> LayoutIterator
        ensures { (k : ℕ) → slice_get (batches_left result) k
            ≡ batch_at 0 (length (cells_of table.now)) T.LENGTH k }
    {
        LayoutIterator::new(0, table.count_rows(), T::length())
    }

    #[tactic(auto, using(crate::proofs::Progressions::done_left, crate::proofs::Progressions::empty_left))]
    fn is_done(&self) -> bool
        ensures done { IsTrue result → batches_left self.now ≡ [] }
        ensures goes { IsFalse result → (0 < self.now.batch)
            × (self.now.from + self.now.offset < self.now.to)
            × (self.now.to < 2 ^ 64) }
    {
        self.batch == 0 || self.to <= self.from.saturating_add(self.offset)
    }
}

impl Iterator for LayoutIterator {
    type Item = usize;

    ghost next_gives = { YieldsFirst batches_left };

    ghost remaining = { item_count batches_left };

    fn next(&mut self) -> Option<usize> {
        if self.is_done() {
            return None;
        }
        let offset = self.offset;
        self.offset = offset.saturating_add(self.batch);
        Some(offset)
    }
}
