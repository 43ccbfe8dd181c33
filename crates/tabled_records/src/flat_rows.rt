//! Rows whose cells are in one list.
ghost use Rattle.std.specs.Prelude.{◌≡◌, ◌<◌, ◌≤◌, [], false, length, map, slice_index_or, true};
ghost use Rattle.std.specs.Prelude.{IfErr, IfOk, OnErr};
ghost use Rattle.tabled_base.specs.declared.error.TableError.TheVariants.{Memory};
ghost use Rattle.tabled_records.specs.Reading.{MayGive, ReadsSome, ReadsTo};
ghost use Rattle.tabled_text.specs.Measure.{greatest};

use crate::reading::{Taken, append_cells};
use crate::row_ranges::RowRanges;
use std::alloc::Global;
use std::marker::Model;
use tabled_base::TableError;

/// Rows whose cells are one after another in one list. A row itself takes 8 bytes, as long as the
/// list is short enough for 32 bits.
#[derive(Drop)]
pub struct FlatRows<C> {
    cells: Vec<C>,
    ranges: RowRanges,
}

impl<C> Model for FlatRows<C> {
    ghost use Rattle.std.specs.Prelude.{List, length};
    ghost use Rattle.tabled_records.specs.Joined.{AreRanges, parts};

    ghost Value = { List (List C) };

    ghost view = { λ r. parts r.cells.items r.ranges };

    ghost invariant = { λ r. AreRanges (length r.cells.items) r.ranges };
}

impl<C> FlatRows<C> {
    /// Returns the number of rows.
    pub fn len(&self) -> usize
        ensures { result ≡ length self.now }
    {
        self.ranges.len()
    }

    /// Returns the number of cells in the longest row.
    pub fn columns(&self) -> usize
        ensures { result ≡ greatest (map length self.now) }
    {
        self.ranges.columns()
    }

    /// Returns the cells of a row.
    pub fn row(&self, index: usize) -> &[C]
        requires { index < length self.now }
        ensures { result.now ≡ slice_index_or self.now index [] }
    {
        let (start, count) = self.ranges.at(index);
        // The number of cells is a `usize`, and so each index is in range.
        let _count = self.cells.len();
        &self.cells[start..start + count]
    }
}

/// Reads the first `count` rows into one list, or all if there are fewer. Requests no row after
/// these. Error: `Memory`, only if there is a row.
pub fn take_flat_rows<I: Iterator<Item = W>, W: IntoIterator<Item = C>, C: Drop>(
    alloc: Global,
    rows: &mut I,
    count: usize,
) -> Result<Taken<FlatRows<C>>, TableError>
    requires { MayGive I.can_next I.next_gives I.remaining W.into_iter_gives W.IntoIter.can_next
        W.IntoIter.remaining rows.old }
    ensures ok { IfOk result (λ taken. ReadsTo I.next_gives W.into_iter_gives W.IntoIter.next_gives
        rows.old
        taken.rows taken.whole rows.new) }
    ensures open { IfOk result (λ taken. taken.whole ≡ false → (length taken.rows ≡ count)
        × MayGive I.can_next I.next_gives I.remaining W.into_iter_gives W.IntoIter.can_next W.IntoIter.remaining rows.new) }
    ensures within { IfOk result (λ taken. length taken.rows ≤ count) }
    ensures only { IfErr result (λ e. e ≡ Memory) }
    ensures err { OnErr result (ReadsSome I.next_gives W.into_iter_gives W.IntoIter.next_gives
        rows.old count rows.new) }
{
    let mut cells = Vec::new(alloc);
    let mut ranges = RowRanges::new(alloc);
    'rows: while ranges.len() < count {
        let start = cells.len();
        if !append_cells(&mut cells, rows)? {
            let rows = FlatRows { cells, ranges };
            return Ok(Taken { rows, whole: true });
        }
        ranges.push(start, cells.len() - start)?;
    }
    let rows = FlatRows { cells, ranges };
    Ok(Taken { rows, whole: false })
}
