//! `RunMap`, a map from numbers, and `RowPlaces`, one of the changes for a row's cells.
ghost use Rattle.std.specs.Prelude.{◌≡◌, ◌+◌, ◌<◌, ◌≤◌, [], ℕ, length, slice_get, slice_index};
ghost use Rattle.std.specs.Prelude.{IfNone, IfSome, None, OnErr, OnOk, true};
ghost use Rattle.std.specs.Option.{option_and_then, option_copied};
ghost use Rattle.tabled_entity.specs.RunMap.{AreSuccessive, GrowsBy, HasNoValue, HoldsValue};
ghost use Rattle.tabled_entity.specs.RunMap.{SameValues, in_dense, in_run, value_in};

use std::alloc::{AllocError, Global};
use std::collections::BTreeMap;

/// A map from numbers. Numbers that were inserted one after another are a dense run, found by
/// index, and all others are in a B-tree. The run wins where both have a number.
#[derive(Debug, Drop)]
pub(crate) struct RunMap<V> {
    // The first number of the run.
    first: usize,
    run: Vec<V>,
    others: BTreeMap<usize, V>,
}

/// Returns the value of a number in a dense run from the number `first`.
#[inline(always)]
pub(crate) fn in_dense<V>(first: usize, run: &[V], number: usize) -> Option<&V>
    ensures { option_copied result ≡ in_dense first run.now number }
{
    if number < first {
        return None;
    }
    run.get(number - first)
}

impl<V: Drop> RunMap<V> {
    pub fn new(alloc: Global) -> RunMap<V>
        ensures none { HasNoValue result }
        ensures run { result.run.items ≡ [] }
    {
        RunMap {
            first: 0,
            run: Vec::new(alloc),
            others: BTreeMap::new(alloc),
        }
    }

    pub fn clear(&mut self)
        ensures { HasNoValue self.new }
    {
        self.run.clear();
        self.others.clear();
    }

    #[inline(always)]
    pub fn is_empty(&self) -> bool
        ensures { result ≡ true → HasNoValue self.now }
    {
        self.run.is_empty() && self.others.is_empty()
    }

    #[inline(always)]
    pub fn get(&self, number: usize) -> Option<&V>
        ensures { option_copied result ≡ value_in self.now number }
    {
        match in_dense(self.first, &self.run, number) {
            Some(value) => Some(value),
            None if self.others.is_empty() => None,
            None => self.others.get(&number),
        }
    }

    /// Returns the index in the run for a number, if it is in the run or the next one.
    #[inline(always)]
    fn index_of(&self, number: usize) -> Option<usize>
        ensures some { IfSome result (λ index. (index ≤ length self.now.run.items)
            × (number ≡ self.now.first + index)) }
        ensures none { IfNone result (in_run self.now number ≡ None) }
    {
        if number < self.first || number - self.first > self.run.len() {
            None
        } else {
            Some(number - self.first)
        }
    }

    fn insert_in_run(&mut self, index: usize, value: V) -> Result<(), AllocError>
        requires { index ≤ length self.old.run.items }
        ensures ok { OnOk result (HoldsValue self.old self.new (self.old.first + index) value) }
        ensures err { OnErr result (SameValues self.old self.new) }
        ensures run { GrowsBy self.old self.new value }
    {
        if index == self.run.len() {
            self.run.push(value)?;
        } else {
            self.run[index] = value;
        }
        Ok(())
    }

    fn insert_in_others(&mut self, number: usize, value: V) -> Result<(), AllocError>
        requires { in_run self.old number ≡ None }
        ensures ok { OnOk result (HoldsValue self.old self.new number value) }
        ensures err { OnErr result (SameValues self.old self.new) }
        ensures run { GrowsBy self.old self.new value }
    {
        self.others.insert(number, value)?;
        Ok(())
    }

    /// Stores the value of a number. If an allocation fails, no value changes. A run that grows
    /// has the value at its end.
    pub fn insert(&mut self, number: usize, value: V) -> Result<(), AllocError>
        ensures ok { OnOk result (HoldsValue self.old self.new number value) }
        ensures err { OnErr result (SameValues self.old self.new) }
        ensures run { GrowsBy self.old self.new value }
    {
        if self.run.is_empty() {
            self.first = number;
        }
        match self.index_of(number) {
            Some(index) => self.insert_in_run(index, value),
            None => self.insert_in_others(number, value),
        }
    }
}

/// For the cells of a row, by column, the index of the latest change in the list of changes.
#[derive(Debug, Drop)]
pub(crate) struct RowPlaces {
    pub places: RunMap<usize>,
    // Whether the changes of the run are known to follow each other in the list.
    in_order: bool,
    ghost ordered: { in_order ≡ true → AreSuccessive places.run.items },
}

/// Whether a run is longer than `count`, and `place` is its first one plus `count`.
fn goes_on(run: &[usize], count: usize, place: usize) -> bool
    ensures { result ≡ true → (count < length run.now) × (place ≡ slice_index run.now 0 + count) }
{
    count < run.len() && place >= run[0] && place - run[0] == count
}

impl RowPlaces {
    /// Returns the first column and the changes, if they are known to follow each other in the
    /// list, for one column after another.
    #[inline(always)]
    pub fn span<'a, C>(&self, changes: &'a [C]) -> Option<(usize, &'a [C])>
        ensures { IfSome result (λ span. (column : ℕ) → in_dense span.0 span.1.now column
            ≡ option_and_then (slice_get changes.now) (value_in self.now.places column)) }
    {
        let run = self.places.run.as_slice();
        if !self.in_order || run.is_empty() || !self.places.others.is_empty() {
            return None;
        }
        let end = run[0].checked_add(run.len())?;
        Some((self.places.first, changes.get(run[0]..end)?))
    }

    /// Stores the index of the change for a column. If an allocation fails, no entry changes.
    fn insert(&mut self, column: usize, place: usize) -> Result<(), AllocError>
        ensures ok { OnOk result (HoldsValue self.old.places self.new.places column place) }
        ensures err { OnErr result (SameValues self.old.places self.new.places) }
    {
        let count = self.places.run.len();
        let inserted = self.places.insert(column, place);
        self.in_order = self.in_order && goes_on(&self.places.run, count, place);
        inserted
    }
}

/// A map from rows and columns.
impl RunMap<RowPlaces> {
    ghost use Rattle.tabled_entity.specs.RowPlaces.{HoldsCell, SameCells};

    /// Stores the value of a cell in a row outside of the run.
    fn insert_outside(&mut self, row: usize, column: usize, value: usize) -> Result<(), AllocError>
        requires { in_run self.old row ≡ None }
        ensures ok { OnOk result (HoldsCell self.old self.new row column value) }
        ensures err { OnErr result (SameCells self.old self.new) }
    {
        if let Some(cells) = self.others.get_mut(&row) {
            return cells.insert(column, value);
        }
        let mut cells = RowPlaces {
            places: RunMap::new(*self.run.allocator()),
            in_order: true,
        };
        cells.insert(column, value)?;
        self.insert(row, cells)
    }

    /// Stores the value of a cell. If an allocation fails, no value changes.
    pub fn insert_cell(&mut self, row: usize, column: usize, value: usize) -> Result<(), AllocError>
        ensures ok { OnOk result (HoldsCell self.old self.new row column value) }
        ensures err { OnErr result (SameCells self.old self.new) }
    {
        match self.index_of(row) {
            Some(index) if index < self.run.len() => self.run[index].insert(column, value),
            _ => self.insert_outside(row, column, value),
        }
    }
}
