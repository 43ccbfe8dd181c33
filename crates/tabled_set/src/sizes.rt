//! Lists of sizes: those of a table with their total, lists that a priority has shrunk or grown,
//! and the options `WidthList` and `HeightList`, which store given sizes.
ghost use Rattle.std.specs.Iterator.{IsFiniteIterable};
ghost use Rattle.std.specs.List.{slice_index};
ghost use Rattle.std.specs.Prelude.{◌≡◌, ◌⊎◌, ◌+◌, ◌<◌, ◌≤◌, ◌^◌, IfErr, IfOk, length, sum, None};
ghost use Rattle.std.specs.Prelude.{Some, false, is_some, true};
ghost use Rattle.tabled_base.specs.Given.{Given};
ghost use Rattle.tabled_set.specs.Common.{effective, estimated, estimated_heights, FitsMinimums};
ghost use Rattle.tabled_set.specs.Common.{is_empty, IsTooHigh, Memory, Range};
ghost use Rattle.tabled_set.specs.Common.{total_height, total_width, widths_of};
ghost use Rattle.tabled_set.specs.Increased.{IsGrownBy};
ghost use Rattle.tabled_set.specs.Extremes.{StoresSizes};
ghost use Rattle.tabled_set.specs.Narrowed.{IsShrunkBy};

use crate::measurement::{Direction, Height, TextMeasure, Width};
use std::alloc::{AllocError, Global};
use std::marker::PhantomData;
use tabled_base::{Entity, ExactRecords, PeekableRecords, TableError, TableOption};
use tabled_config::SpannedConfig;
use tabled_size::{
    CompleteDimension, Dimension, Peaker, Steps, estimate_heights, filled_height, filled_width,
};

/// Stores the widths or the heights of a table. A list that is shorter than the table changes
/// nothing. Entries past the table's last column or row are ignored. Never fails.
#[derive(Debug, Drop)]
pub struct SizeList<A> {
    list: Vec<usize>,
    direction: PhantomData<A>,
}

/// Stores the widths of the columns, in terminal columns, padding included.
pub type WidthList = SizeList<Width>;

/// Stores the heights of the rows, in lines, padding included.
pub type HeightList = SizeList<Height>;

impl<A> SizeList<A> {
    /// Creates an option that stores these sizes.
    pub fn new(list: Vec<usize>) -> SizeList<A>
        ensures { result.list ≡ list }
    {
        let direction = PhantomData;
        SizeList { list, direction }
    }

    /// Creates an option that stores the sizes that an iterator yields. Fails only with `Memory`.
    pub fn from_iter<I: IntoIterator<Item = usize>>(
        alloc: Global,
        sizes: I,
    ) -> Result<SizeList<A>, TableError>
    where
        requires { IsFiniteIterable I.into_iter_gives
            I.IntoIter.can_next I.IntoIter.remaining sizes }
        ensures ok { IfOk result (λ answer.
            Given I.into_iter_gives I.IntoIter.next_gives sizes answer.list.items) }
        ensures only { IfErr result (λ e. e ≡ Memory) }
    {
        let mut list = Vec::new(alloc);
        'sizes: for size in sizes {
            list.push(size)?;
        }
        Ok(SizeList::new(list))
    }
}

impl<A> From<Vec<usize>> for SizeList<A> {
    ghost from_gives = { λ list sizes. sizes.list ≡ list };

    fn from(list: Vec<usize>) -> SizeList<A> {
        SizeList::new(list)
    }
}

impl<A: Direction + Drop, R: ExactRecords, C> TableOption<R, C, CompleteDimension> for SizeList<A> {
    ghost changes = { λ s r c d r' c' d'. (r' ≡ r)
        × ((c' ≡ c) × StoresSizes A.COUNTED s.list.items (R.cells r) d d') };

    ghost hint = { λ s. None };

    fn change(
        self,
        records: &mut R,
        _: &mut C,
        dims: &mut CompleteDimension,
    ) -> Result<(), TableError> {
        match A::COUNTED {
            TextMeasure::Columns if self.list.len() >= records.count_columns() => {
                dims.set_widths(self.list);
            }
            TextMeasure::Lines if self.list.len() >= records.count_rows() => {
                dims.set_heights(self.list);
            }
            _ => {}
        }
        Ok(())
    }

    fn hint_change(&self) -> Option<Entity> {
        None
    }
}

/// Returns a copy of the sizes, shrunk by the priority by an amount.
pub(crate) fn shrunk<P: Peaker + Drop>(
    alloc: Global,
    mut priority: P,
    sizes: &[usize],
    mins: &[usize],
    by: usize,
) -> Result<Vec<usize>, AllocError>
    requires { FitsMinimums sizes.now mins.now }
    ensures shrunk { IfOk result (λ list.
        IsShrunkBy P.shrinks priority sizes.now mins.now by list.items) }
    ensures long { IfOk result (λ list. length list.items ≡ length sizes.now) }
{
    let mut list = Vec::from_slice(alloc, sizes)?;
    let _taken = priority.shrink(mins, &mut list, by, &mut Steps::new());
    Ok(list)
}

/// Returns a copy of the sizes, grown by the priority by an amount.
pub(crate) fn grown<P: Peaker + Drop>(
    alloc: Global,
    mut priority: P,
    sizes: &[usize],
    by: usize,
) -> Result<Vec<usize>, AllocError>
    requires { sum sizes.now + by < 2 ^ 64 }
    ensures grown { IfOk result (λ list. IsGrownBy P.grows priority sizes.now by list.items) }
{
    let mut list = Vec::from_slice(alloc, sizes)?;
    let _added = priority.grow(&mut list, by, &mut Steps::new());
    Ok(list)
}

/// A list of sizes, read as 0 past its end.
#[derive(Drop)]
pub(crate) struct PaddedSizes<'a> {
    pub(crate) sizes: &'a [usize],
}

impl<'a> Dimension for PaddedSizes<'a> {
    ghost width_at = { λ s column. Some (slice_index s.sizes.now column) };

    ghost height_at = { λ s row. Some (slice_index s.sizes.now row) };

    fn has_width(&self, _: usize) -> bool {
        true
    }

    fn has_height(&self, _: usize) -> bool {
        true
    }

    fn get_width(&self, column: usize) -> usize {
        self.sizes.get(column).copied().unwrap_or(0)
    }

    fn get_height(&self, row: usize) -> usize {
        self.sizes.get(row).copied().unwrap_or(0)
    }
}

/// Returns the widths of a table's columns, which must be stored, and its total width. Columns past
/// the end of a list that is too short have width 0.
pub(crate) fn stored_columns<'a, R: ExactRecords>(
    records: &R,
    config: &SpannedConfig,
    sizes: &'a CompleteDimension,
) -> Result<(&'a [usize], usize), TableError>
    requires filled { is_empty (R.cells records.now) ≡ false }
    requires stored { is_some (widths_of sizes.now) ≡ true }
    ensures widths { let t = effective (R.cells records.now) config.now sizes.now in
        IfOk result (λ columns. columns.0.now ≡ t.widths) }
    ensures total { let t = effective (R.cells records.now) config.now sizes.now in
        IfOk result (λ columns. columns.1 ≡ total_width t) }
    ensures err { let t = effective (R.cells records.now) config.now sizes.now in
        IfErr result (λ e. (e ≡ Range) × (2 ^ 64 ≤ total_width t)) }
{
    let Some(stored) = sizes.get_widths() else {
        unreachable!();
    };
    let columns = records.count_columns();
    let widths = stored.split_at(columns.min(stored.len())).0;
    let Some(total) = filled_width(config, columns, &PaddedSizes { sizes: widths }) else {
        return Err(TableError::Range);
    };
    Ok((widths, total))
}

/// Returns the estimated heights of a table with cells, and its total height.
pub(crate) fn estimated_rows<R: PeekableRecords>(
    alloc: Global,
    records: &R,
    config: &SpannedConfig,
) -> Result<(Vec<usize>, usize), TableError>
    requires { is_empty (R.cells records.now) ≡ false }
    ensures heights { IfOk result (λ rows.
        rows.0.items ≡ estimated_heights (R.cells records.now) config.now) }
    ensures total { IfOk result (λ rows.
        rows.1 ≡ total_height (estimated (R.cells records.now) config.now)) }
    ensures err { IfErr result (λ e. (e ≡ Memory) ⊎ ((e ≡ Range)
        × (IsTooHigh (R.cells records.now) config.now
        ⊎ (2 ^ 64 ≤ total_height (estimated (R.cells records.now) config.now))))) }
{
    let heights = estimate_heights(alloc, records, config)?;
    let padded = PaddedSizes { sizes: &heights };
    let Some(total) = filled_height(config, records.count_rows(), &padded) else {
        return Err(TableError::Range);
    };
    Ok((heights, total))
}
