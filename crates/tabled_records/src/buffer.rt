//! Records with some rows read ahead.
ghost use Rattle.std.specs.Prelude.{◌≡◌, ◌<◌, ◌≤◌, List, Bool, length, false, true, MatchOption};
ghost use Rattle.std.specs.Prelude.{None, ⊤, IfErr, IfOk, OnErr, is_none};
ghost use Rattle.tabled_base.specs.declared.error.TableError.TheVariants.{Memory};
ghost use Rattle.tabled_records.specs.Buffered.{BeginsSome, BufBegin, MayGiveLater, buf_cell_steps};
ghost use Rattle.tabled_records.specs.Buffered.{buf_steps, can_cell, cells_ahead, cells_left};
ghost use Rattle.tabled_records.specs.Buffered.{rows_left};

use crate::reading::take_rows;
use std::alloc::Global;
use std::{fmt, vec};
use tabled_base::{IntoRecords, TableError};

/// Records whose first rows are read ahead and stored.
#[derive(Drop)]
pub struct BufRecords<R: IntoRecords> {
    ahead: Vec<Vec<R::Cell>>,
    rows: Option<<R::IterRows as IntoIterator>::IntoIter>,
}

/// The cells of a row.
#[derive(Debug, Drop)]
pub enum BufCells<C, I> {
    /// The row was read ahead.
    Kept(vec::IntoIter<C>),
    /// The row comes from the records.
    Later(I),
}

impl<C: Drop, I: Iterator<Item = C>> Iterator for BufCells<C, I> {
    type Item = C;

    ghost can_next = { can_cell I.can_next };

    ghost next_gives = { buf_cell_steps I.next_gives };

    ghost remaining = { cells_left I.remaining };

    fn next(&mut self) -> Option<C> {
        match self {
            BufCells::Kept(cells) => cells.next(),
            BufCells::Later(cells) => cells.next(),
        }
    }
}

/// The rows that were read ahead, and then the others.
#[derive(Debug, Drop)]
pub struct BufRows<C, I> {
    pub(crate) kept: vec::IntoIter<Vec<C>>,
    pub(crate) later: Option<I>,
}

impl<C: Drop, I: Iterator> Iterator for BufRows<C, I>
where
    I::Item: IntoIterator<Item = C>,
{
    type Item = BufCells<C, <I::Item as IntoIterator>::IntoIter>;

    ghost can_next = { λ s. MatchOption s.later ⊤ I.can_next };

    ghost next_gives = { buf_steps I.next_gives I.Item.into_iter_gives };

    ghost remaining = { rows_left I.remaining };

    fn next(&mut self) -> Option<BufCells<C, <I::Item as IntoIterator>::IntoIter>> {
        if let Some(row) = self.kept.next() {
            return Some(BufCells::Kept(row.into_iter()));
        }
        match &mut self.later {
            Some(rows) => Some(BufCells::Later(rows.next()?.into_iter())),
            None => None,
        }
    }
}

impl<R: IntoRecords> fmt::Debug for BufRecords<R>
where
    R::Cell: fmt::Debug,
    <R::IterRows as IntoIterator>::IntoIter: fmt::Debug,
{
    fn fmt<W: fmt::Write>(&self, f: &mut fmt::Formatter<W>) -> fmt::Result {
        f.debug_struct("BufRecords")
            .field("ahead", &self.ahead)
            .field("rows", &self.rows)
            .finish()
    }
}

impl<R: IntoRecords> BufRecords<R>
where
    R::Cell: Drop,
{
    /// Reads the first `count` rows with all their cells, or all rows if there are fewer. Requests
    /// no row after these, and none after the end. Error: `Memory`, only if there is a row.
    pub fn new(alloc: Global, records: R, count: usize) -> Result<BufRecords<R>, TableError>
        requires { R.ends records }
        ensures ahead { IfOk result
            (λ view. R.begins records (cells_ahead view.ahead.items) (is_none view.rows)) }
        ensures most { IfOk result (λ view. length view.ahead.items ≤ count) }
        ensures fewer { IfOk result (λ view. length view.ahead.items < count → view.rows ≡ None) }
        ensures unseen { IfOk result (λ view. length view.ahead.items ≡ count
            → is_none view.rows ≡ false) }
        ensures ends { IfOk result (λ view. MayGiveLater R.IterRows.IntoIter.can_next
            R.IterRows.IntoIter.next_gives R.IterRows.IntoIter.remaining
            R.IterColumns.into_iter_gives R.IterColumns.IntoIter.can_next R.IterColumns.IntoIter.remaining view.rows) }
        ensures begins { IfOk result (λ view. (cells : List (List R.Cell)) (whole : Bool)
            → BufBegin R.IterRows.IntoIter.next_gives
            R.IterColumns.into_iter_gives R.IterColumns.IntoIter.next_gives (cells_ahead
            view.ahead.items) view.rows cells whole
            → R.begins records cells whole) }
        ensures gives { IfOk result (λ view. (cells : List (List R.Cell))
            → BufBegin R.IterRows.IntoIter.next_gives
            R.IterColumns.into_iter_gives R.IterColumns.IntoIter.next_gives (cells_ahead
            view.ahead.items) view.rows cells true
            → R.gives records cells) }
        ensures only { IfErr result (λ e. e ≡ Memory) }
        ensures err { OnErr result (BeginsSome (R.begins records) count) }
    {
        let mut rows = records.iter_rows().into_iter();
        let taken = take_rows(alloc, &mut rows, count)?;
        let rows = if taken.whole { None } else { Some(rows) };
        Ok(BufRecords {
            ahead: taken.rows,
            rows,
        })
    }

    /// Returns the rows that were read ahead.
    pub fn as_slice(&self) -> &[Vec<R::Cell>]
        ensures { result.now ≡ self.now.ahead.items }
    {
        self.ahead.as_slice()
    }
}

impl<R: IntoRecords> IntoRecords for BufRecords<R>
where
    R::Cell: Drop,
{
    type Cell = R::Cell;

    type IterColumns = BufCells<R::Cell, <R::IterColumns as IntoIterator>::IntoIter>;

    type IterRows = BufRows<R::Cell, <R::IterRows as IntoIterator>::IntoIter>;

    ghost ends = { λ view. MayGiveLater R.IterRows.IntoIter.can_next R.IterRows.IntoIter.next_gives
        R.IterRows.IntoIter.remaining
        R.IterColumns.into_iter_gives R.IterColumns.IntoIter.can_next R.IterColumns.IntoIter.remaining view.rows };

    ghost gives = { λ view cells. BufBegin R.IterRows.IntoIter.next_gives
        R.IterColumns.into_iter_gives R.IterColumns.IntoIter.next_gives
        (cells_ahead view.ahead.items) view.rows cells true };

    ghost begins = { λ view. BufBegin R.IterRows.IntoIter.next_gives R.IterColumns.into_iter_gives
        R.IterColumns.IntoIter.next_gives
        (cells_ahead view.ahead.items) view.rows };

    fn iter_rows(self) -> BufRows<R::Cell, <R::IterRows as IntoIterator>::IntoIter> {
        BufRows {
            kept: self.ahead.into_iter(),
            later: self.rows,
        }
    }

    ghost whole_rows = { λ view cells begun. begun };
}
