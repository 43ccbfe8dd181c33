//! Views of a part of records: the first rows, the rows after them, the first cells of each row.
ghost use Rattle.std.specs.Prelude.{◌≡◌, true, drop, ◌<◌, map, take};
ghost use Rattle.tabled_records.specs.Reading.{MayGive};
ghost use Rattle.std.specs.Iterator.{IsFinite};
ghost use Rattle.tabled_records.specs.Views.{AreChanged, IsLimited, RowOfRow, SkipsRows};
ghost use Rattle.tabled_records.specs.Views.{changed_of, first_cells_steps};

use crate::reading::walk_rest;
use std::iter::Take;
use tabled_base::IntoRecords;

/// The first rows of records. Later rows are never requested.
#[derive(Clone, Copy, Debug, Drop)]
pub struct LimitRows<R> {
    records: R,
    limit: usize,
}

impl<R> LimitRows<R> {
    /// Limits the records to `limit` rows.
    pub fn new(records: R, limit: usize) -> LimitRows<R>
        ensures records { result.records ≡ records }
        ensures limit { result.limit ≡ limit }
    {
        LimitRows { records, limit }
    }
}

impl<R: IntoRecords> IntoRecords for LimitRows<R> {
    type Cell = R::Cell;

    type IterColumns = R::IterColumns;

    type IterRows = Take<<R::IterRows as IntoIterator>::IntoIter>;

    ghost ends = { λ view. R.ends view.records };

    ghost gives = { λ view cells. IsLimited (R.begins view.records) view.limit cells true };

    ghost begins = { λ view. IsLimited (R.begins view.records) view.limit };

    fn iter_rows(self) -> Take<<R::IterRows as IntoIterator>::IntoIter> {
        self.records.iter_rows().into_iter().take(self.limit)
    }

    ghost whole_rows = { λ view cells begun. begun };
}

/// The rows of records without the first ones. Those are read and dropped, cell by cell, when the
/// first row is requested.
#[derive(Clone, Copy, Debug, Drop)]
pub struct SkipRows<R> {
    records: R,
    count: usize,
}

impl<R> SkipRows<R> {
    /// Skips the first `count` rows.
    pub fn new(records: R, count: usize) -> SkipRows<R>
        ensures records { result.records ≡ records }
        ensures count { result.count ≡ count }
    {
        SkipRows { records, count }
    }
}

/// Rows, and how many of them are still to be skipped.
#[derive(Clone, Copy, Debug, Drop)]
pub struct LaterRows<I> {
    pub(crate) rows: I,
    pub(crate) left: usize,
}

impl<I: Iterator> Iterator for LaterRows<I>
where
    I::Item: IntoIterator,
    <I::Item as IntoIterator>::Item: Drop,
{
    type Item = I::Item;

    ghost can_next = { λ s. MayGive I.can_next I.next_gives I.remaining I.Item.into_iter_gives
        I.Item.IntoIter.can_next I.Item.IntoIter.remaining s.rows };

    ghost next_gives = { SkipsRows I.next_gives I.Item.into_iter_gives I.Item.IntoIter.next_gives };

    ghost remaining = { λ s. I.remaining s.rows };

    fn next(&mut self) -> Option<I::Item> {
        while self.left > 0 {
            let row = self.rows.next()?;
            self.left -= 1;
            walk_rest(&mut row.into_iter());
        }
        self.rows.next()
    }
}

impl<R: IntoRecords> IntoRecords for SkipRows<R>
where
    R::Cell: Drop,
{
    type Cell = R::Cell;

    type IterColumns = R::IterColumns;

    type IterRows = LaterRows<<R::IterRows as IntoIterator>::IntoIter>;

    ghost ends = { λ view. R.ends view.records };

    ghost gives = { λ view. AreChanged (R.gives view.records) (drop view.count) };

    ghost begins = { λ view cells whole. AreChanged (λ all. R.begins view.records all whole)
        (drop view.count) cells };

    fn iter_rows(self) -> LaterRows<<R::IterRows as IntoIterator>::IntoIter> {
        LaterRows {
            rows: self.records.iter_rows().into_iter(),
            left: self.count,
        }
    }

    ghost whole_rows = { λ view cells begun. changed_of (R.whole_rows view.records) begun };
}

/// The first cells of each row. The other cells are read and dropped when the iterator is asked for
/// the end of the row.
#[derive(Clone, Copy, Debug, Drop)]
pub struct LimitColumns<R> {
    records: R,
    limit: usize,
}

impl<R> LimitColumns<R> {
    /// Limits each row to `limit` cells.
    pub fn new(records: R, limit: usize) -> LimitColumns<R>
        ensures records { result.records ≡ records }
        ensures limit { result.limit ≡ limit }
    {
        LimitColumns { records, limit }
    }
}

/// The first cells of a row.
#[derive(Clone, Copy, Debug, Drop)]
pub struct FirstCells<I> {
    pub(crate) cells: I,
    pub(crate) left: usize,
}

impl<I: Iterator> Iterator for FirstCells<I>
where
    I::Item: Drop,
{
    type Item = I::Item;

    ghost can_next = { λ s. I.can_next s.cells × IsFinite (I.remaining s.cells) };

    ghost next_gives = { first_cells_steps I.next_gives };

    ghost remaining = { λ s. I.remaining s.cells };

    fn next(&mut self) -> Option<I::Item> {
        if self.left == 0 {
            walk_rest(&mut self.cells);
            return None;
        }
        self.left -= 1;
        self.cells.next()
    }
}

/// Rows that are limited to their first cells.
#[derive(Clone, Copy, Debug, Drop)]
pub struct NarrowRows<I> {
    pub(crate) rows: I,
    pub(crate) limit: usize,
}

impl<I: Iterator> Iterator for NarrowRows<I>
where
    I::Item: IntoIterator,
    <I::Item as IntoIterator>::Item: Drop,
{
    type Item = FirstCells<<I::Item as IntoIterator>::IntoIter>;

    ghost can_next = { λ s. I.can_next s.rows };

    ghost next_gives = { λ s r t. (t.limit ≡ s.limit) × RowOfRow I.next_gives
        (λ row cells. I.Item.into_iter_gives row cells.cells
        × (cells.left ≡ s.limit)) s.rows r t.rows };

    ghost remaining = { λ s. I.remaining s.rows };

    fn next(&mut self) -> Option<FirstCells<<I::Item as IntoIterator>::IntoIter>> {
        let row = self.rows.next()?;
        Some(FirstCells {
            cells: row.into_iter(),
            left: self.limit,
        })
    }
}

impl<R: IntoRecords> IntoRecords for LimitColumns<R>
where
    R::Cell: Drop,
{
    type Cell = R::Cell;

    type IterColumns = FirstCells<<R::IterColumns as IntoIterator>::IntoIter>;

    type IterRows = NarrowRows<<R::IterRows as IntoIterator>::IntoIter>;

    ghost ends = { λ view. R.ends view.records };

    ghost gives = { λ view. AreChanged (R.gives view.records) (map (take view.limit)) };

    ghost begins = { λ view cells whole. AreChanged (λ all. R.begins view.records all whole)
        (map (take view.limit)) cells };

    fn iter_rows(self) -> NarrowRows<<R::IterRows as IntoIterator>::IntoIter> {
        NarrowRows {
            rows: self.records.iter_rows().into_iter(),
            limit: self.limit,
        }
    }

    ghost whole_rows = { λ view cells begun. changed_of (R.whole_rows view.records) begun };
}
