//! `Segment`, a selection of a block of cells or of the entire table.
ghost use Rattle.std.specs.Prelude.{◌≡◌, ◌++◌, ◌<◌, ◌^◌, ℕ, None, OnErr, OnOk, length, map};
ghost use Rattle.tabled_base.specs.Picks.{between, block, segment, stretch, within};
ghost use Rattle.tabled_base.specs.PicksLaws.{segment-inside};
ghost use Rattle.tabled_base.specs.declared.position.Entity.TheVariants.{Cell, Global};

use crate::error::TableError;
use crate::objects::Object;
use crate::position::Entity;
use crate::records::ExactRecords;
use std::alloc::{AllocError, Global};
use std::ops::{Bound, RangeBounds};

/// A range of rows or columns: from `start` on, and before `end` if there is one.
#[derive(Clone, Copy, Debug)]
pub(crate) struct Stretch {
    pub start: usize,
    pub end: Option<usize>,
}

/// A selection of the entire table, or of a block of its cells.
#[derive(Debug, Drop)]
pub struct Segment {
    // The rows and the columns of a block, `None` for the entire table.
    block: Option<(Stretch, Stretch)>,
}

impl Segment {
    /// Selects the entire table, as one entity.
    pub fn all() -> Segment
        ensures { result.block ≡ None }
    {
        Segment { block: None }
    }

    /// Selects the cells in a range of rows and a range of columns, each as its own entity, row by
    /// row. Indices outside of the table select nothing.
    pub fn new<R: RangeBounds<usize>, C: RangeBounds<usize>>(rows: R, columns: C) -> Segment
        ensures { R.has_bounds rows → C.has_bounds columns → (m n : ℕ) → m < 2 ^ 64 → n < 2 ^ 64
            → segment result.block m n ≡ block (within (R.start_bound rows) (R.end_bound rows) m)
            (within (C.start_bound columns) (C.end_bound columns) n) }
    {
        let block = Some((Stretch::new(&rows), Stretch::new(&columns)));
        Segment { block }
    }
}

impl Stretch {
    /// Stores the bounds of a range.
    fn new<R: RangeBounds<usize>>(range: &R) -> Stretch
        ensures { R.has_bounds range.now → (count : ℕ) → count < 2 ^ 64
            → stretch result count
            ≡ within (R.start_bound range.now) (R.end_bound range.now) count }
    {
        let start = match range.start_bound() {
            Bound::Included(start) => *start,
            Bound::Excluded(before) => before.saturating_add(1),
            Bound::Unbounded => 0,
        };
        let end = match range.end_bound() {
            Bound::Included(last) => Some(last.saturating_add(1)),
            Bound::Excluded(end) => Some(*end),
            Bound::Unbounded => None,
        };
        Stretch { start, end }
    }

    /// Returns its bounds, with the end limited to `count`.
    fn ends(self, count: usize) -> (usize, usize)
        ensures { between result.0 result.1 ≡ stretch self count }
    {
        (self.start, self.end.unwrap_or(count).min(count))
    }
}

impl<R: ExactRecords> Object<R> for Segment {
    ghost picks = { λ s rows columns. segment s.block rows columns };

    ghost inside = { λ s. segment-inside s.block };

    fn cells(&self, alloc: Global, records: &R) -> Result<Vec<Entity>, TableError> {
        let mut all = Vec::new(alloc);
        match self.block {
            None => all.push(Entity::Global)?,
            Some((rows, columns)) => {
                let rows = rows.ends(records.count_rows());
                let columns = columns.ends(records.count_columns());
                push_block(&mut all, rows, columns)?;
            }
        }
        Ok(all)
    }
}

/// Adds the cells in a range of rows and a range of columns, row by row.
fn push_block(
    all: &mut Vec<Entity>,
    rows: (usize, usize),
    columns: (usize, usize),
) -> Result<(), AllocError>
    ensures ok { OnOk result (all.new.items
        ≡ all.old.items ++ block (between rows.0 rows.1) (between columns.0 columns.1)) }
    ensures some { OnErr result
        (0 < length (block (between rows.0 rows.1) (between columns.0 columns.1))) }
{
    for row in rows.0..rows.1 {
        push_row(all, row, columns)?;
    }
    Ok(())
}

/// Adds the cells of a row in a range of columns.
fn push_row(all: &mut Vec<Entity>, row: usize, columns: (usize, usize)) -> Result<(), AllocError>
    ensures ok { OnOk result
        (all.new.items ≡ all.old.items ++ map (Cell row) (between columns.0 columns.1)) }
    ensures some { OnErr result (columns.0 < columns.1) }
{
    for column in columns.0..columns.1 {
        all.push(Entity::Cell(row, column))?;
    }
    Ok(())
}
