//! The values of the cells of a row (`RowValues`), by the latest changes that cover them
//! (`RowChanges`), which an index finds in the list of changes (`ChangeIndex`).
ghost use Rattle.std.specs.Prelude.{IfSome, OnErr, OnOk, true, ℕ, ◌≡◌};
ghost use Rattle.tabled_base.specs.declared.position.Entity.TheVariants.{Column};
ghost use Rattle.tabled_entity.specs.ChangeIndex.{HasNone, IsPart, IsReindexed, SamePlaces, found};
ghost use Rattle.tabled_entity.specs.ChangeIndex.{later, latest};
ghost use Rattle.tabled_entity.specs.RowChanges.{latest_at, latest_of};
ghost use Rattle.tabled_entity.specs.RowValues.{run_at, value_at, value_of};

use crate::run_map::{RowPlaces, RunMap, in_dense};
use std::alloc::{AllocError, Global};
use tabled_base::Entity;

/// For rows, columns and cells, the index of the latest change in the list of changes.
#[derive(Debug, Drop)]
pub(crate) struct ChangeIndex {
    rows: RunMap<usize>,
    columns: RunMap<usize>,
    // By row, then by column.
    cells: RunMap<RowPlaces>,
}

impl ChangeIndex {
    pub fn new(alloc: Global) -> ChangeIndex
        ensures { HasNone result }
    {
        ChangeIndex {
            rows: RunMap::new(alloc),
            columns: RunMap::new(alloc),
            cells: RunMap::new(alloc),
        }
    }

    pub fn clear(&mut self)
        ensures { HasNone self.new }
    {
        self.rows.clear();
        self.columns.clear();
        self.cells.clear();
    }

    /// Stores the index of the latest change for an entity other than the entire table. If an
    /// allocation fails, no entry changes.
    pub fn insert(&mut self, entity: Entity, place: usize) -> Result<(), AllocError>
        requires { IsPart entity }
        ensures ok { OnOk result (IsReindexed self.old self.new entity place) }
        ensures err { OnErr result (SamePlaces self.old self.new) }
    {
        match entity {
            Entity::Global => unreachable!(),
            Entity::Row(row) => self.rows.insert(row, place),
            Entity::Column(column) => self.columns.insert(column, place),
            Entity::Cell(row, column) => self.cells.insert_cell(row, column, place),
        }
    }

    #[inline(always)]
    pub fn in_row(&self, row: usize) -> RowChanges<'_>
        ensures { (column : ℕ) → latest_at result column ≡ latest (found self.now) row column }
    {
        let of_row = self.rows.get(row).copied();
        // Two tests in place of a lookup and more, since many tables have only settings of rows.
        if self.columns.is_empty() && self.cells.is_empty() {
            return RowChanges::Same(of_row);
        }
        RowChanges::new(of_row, &self.columns, self.cells.get(row))
    }

    /// Whether there is no entry for a row, nor for one of its cells.
    #[inline(always)]
    pub fn is_plain(&self, row: usize) -> bool
        ensures { result ≡ true → (column : ℕ)
            → latest (found self.now) row column ≡ found self.now (Column column) }
    {
        self.rows.get(row).is_none() && self.cells.get(row).is_none()
    }

    /// Whether all rows are known to have the same latest change in each column: there is no entry
    /// for any row or cell.
    pub fn are_all_alike(&self) -> bool
        ensures { result ≡ true → (row other column : ℕ)
            → latest (found self.now) row column ≡ latest (found self.now) other column }
    {
        self.cells.is_empty() && self.rows.is_empty()
    }
}

/// The latest changes that cover the cells of a row, by their indices in the list of changes.
#[derive(Clone, Copy)]
pub(crate) enum RowChanges<'a> {
    /// One change for all cells, or none.
    Same(Option<usize>),
    /// Those for the row's cells, and no others.
    Cells(&'a RowPlaces),
    /// The change for the row, those for columns, and those for the row's cells.
    Mixed(Option<usize>, &'a RunMap<usize>, Option<&'a RowPlaces>),
}

/// Returns the later of two changes, by their indices.
#[inline(always)]
fn later(a: Option<usize>, b: Option<usize>) -> Option<usize>
    ensures { result ≡ later a b }
{
    match (a, b) {
        (Some(i), Some(j)) => Some(i.max(j)),
        (Some(i), None) => Some(i),
        (None, other) => other,
    }
}

impl<'a> RowChanges<'a> {
    /// Makes the changes from the one for the row, those for columns and those for its cells.
    #[inline(always)]
    pub fn new(
        row: Option<usize>,
        columns: &'a RunMap<usize>,
        cells: Option<&'a RowPlaces>,
    ) -> RowChanges<'a>
        ensures { (column : ℕ) → latest_at result column
            ≡ latest_of row columns.now cells.entry column }
    {
        if !columns.is_empty() {
            return RowChanges::Mixed(row, columns, cells);
        }
        match (row, cells) {
            (_, None) => RowChanges::Same(row),
            (None, Some(cells)) => RowChanges::Cells(cells),
            _ => RowChanges::Mixed(row, columns, cells),
        }
    }

    /// Returns the latest change that covers the cell in a column.
    #[inline(always)]
    pub fn at(&self, column: usize) -> Option<usize>
        ensures { result ≡ latest_at self.now column }
    {
        match self {
            RowChanges::Same(place) => *place,
            RowChanges::Cells(cells) => cells.places.get(column).copied(),
            RowChanges::Mixed(row, columns, cells) => {
                let of_column = columns.get(column).copied();
                let of_cell = cells.and_then(|cells| cells.places.get(column).copied());
                later(*row, later(of_column, of_cell))
            }
        }
    }
}

/// The values of a row's cells, by the latest change for each.
#[derive(Clone, Copy)]
pub struct SetValues<'a, T> {
    // The value of the entire table.
    global: &'a T,
    // The changes since then, in order.
    changes: &'a [(Entity, T)],
    latest: RowChanges<'a>,
}

impl<'a, T> SetValues<'a, T> {
    /// Returns the value of the cell in a column. It isn't inlined, so that loops stay short.
    #[inline(never)]
    fn at(&self, column: usize) -> &'a T
        ensures { result.now ≡ value_of self.now.global.now self.now.changes.now
            (latest_at self.now.latest column) }
    {
        value_of(self.global, self.changes, self.latest.at(column))
    }
}

/// The values of a row's cells, where successive ones were set in order and nothing else was.
#[derive(Clone, Copy)]
pub struct RunValues<'a, T> {
    // The first column that was set.
    first: usize,
    // The changes for it and the columns after it.
    changes: &'a [(Entity, T)],
    // The value of all others.
    global: &'a T,
}

impl<'a, T> RunValues<'a, T> {
    /// Returns the value of the cell in a column.
    #[inline(always)]
    pub fn at(&self, column: usize) -> &'a T
        ensures { result.now ≡ run_at self.now column }
    {
        match in_dense(self.first, self.changes, column) {
            Some(change) => &change.1,
            None => self.global,
        }
    }
}

/// The values of a row's cells, which can be read in any order.
#[derive(Clone, Copy)]
pub enum RowValues<'a, T> {
    /// One value for all cells.
    Uniform(&'a T),
    /// The values of successive cells, and one value for all others.
    Run(RunValues<'a, T>),
    /// The values that were set for rows, columns and cells.
    Set(SetValues<'a, T>),
}

/// Returns the value of the change at an index, or of the entire table for `None`.
#[inline(always)]
fn value_of<'a, T>(global: &'a T, changes: &'a [(Entity, T)], place: Option<usize>) -> &'a T
    ensures { result.now ≡ value_of global.now changes.now place }
{
    match place {
        Some(place) if place < changes.len() => &changes[place].1,
        _ => global,
    }
}

impl<'a, T: Copy> RowValues<'a, T> {
    /// Makes the values of a row from all changes, and the latest ones for its cells.
    #[inline(always)]
    pub(crate) fn new(global: &'a T, changes: &'a [(Entity, T)], latest: RowChanges<'a>) -> Self
        ensures { (column : ℕ) → value_at result column
            ≡ value_of global.now changes.now (latest_at latest.entry column) }
    {
        let set = RowValues::Set(SetValues {
            global,
            changes,
            latest,
        });
        match latest {
            RowChanges::Same(place) => RowValues::Uniform(value_of(global, changes, place)),
            RowChanges::Cells(cells) => match cells.span(changes) {
                Some((first, changes)) => RowValues::Run(RunValues {
                    first,
                    changes,
                    global,
                }),
                None => set,
            },
            RowChanges::Mixed(..) => set,
        }
    }

    /// Returns the value of all cells, if they are known to be equal.
    #[inline(always)]
    pub fn shared(&self) -> Option<&'a T>
        ensures { IfSome result (λ value. (column : ℕ) → value_at self.now column ≡ value.now) }
    {
        match self {
            RowValues::Uniform(value) => Some(*value),
            _ => None,
        }
    }

    /// Returns the value of the cell in a column.
    #[inline(always)]
    pub fn at(&self, column: usize) -> &'a T
        ensures { result.now ≡ value_at self.now column }
    {
        match self {
            RowValues::Uniform(value) => *value,
            RowValues::Run(values) => values.at(column),
            RowValues::Set(values) => values.at(column),
        }
    }
}
