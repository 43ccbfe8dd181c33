//! `Union`: two selections, one behind the other.
ghost use Rattle.std.specs.Prelude.{◌≡◌, ◌++◌};
ghost use Rattle.tabled_base.specs.PicksLaws.{both-inside};

use crate::error::TableError;
use crate::objects::{Cell, Columns, Object, Rows};
use crate::position::Entity;
use crate::records::ExactRecords;
use crate::segment::Segment;
use std::alloc::Global;

/// The entities of one selection, and behind them those of another. A cell that lies in both is
/// changed twice.
///
/// ```rust
/// table.modify(Rows::first().and(Columns::first()), marks())?;
/// ```
#[derive(Clone, Copy, Debug, Drop, PartialEq, Eq)]
pub struct Union<A, B> {
    first: A,
    second: B,
}

impl<A, B> Union<A, B> {
    /// Joins two selections.
    pub fn new(first: A, second: B) -> Union<A, B>
        ensures { result ≡ record { first = first; second = second } }
    {
        Union { first, second }
    }

    /// Adds a selection behind these.
    pub fn and<C>(self, next: C) -> Union<Union<A, B>, C>
        ensures { result ≡ record { first = self; second = next } }
    {
        Union::new(self, next)
    }
}

impl Rows {
    /// Adds a selection behind this one.
    pub fn and<B>(self, next: B) -> Union<Rows, B>
        ensures { result ≡ record { first = self; second = next } }
    {
        Union::new(self, next)
    }
}

impl Columns {
    /// Adds a selection behind this one.
    pub fn and<B>(self, next: B) -> Union<Columns, B>
        ensures { result ≡ record { first = self; second = next } }
    {
        Union::new(self, next)
    }
}

impl Cell {
    /// Adds a selection behind this one.
    pub fn and<B>(self, next: B) -> Union<Cell, B>
        ensures { result ≡ record { first = self; second = next } }
    {
        Union::new(self, next)
    }
}

impl Segment {
    /// Adds a selection behind this one.
    pub fn and<B>(self, next: B) -> Union<Segment, B>
        ensures { result ≡ record { first = self; second = next } }
    {
        Union::new(self, next)
    }
}

impl<R: ExactRecords, A: Object<R>, B: Object<R>> Object<R> for Union<A, B> {
    ghost picks = { λ s rows columns. A.picks s.first rows columns ++ B.picks s.second rows columns };

    ghost inside = { λ s rows columns. both-inside rows columns (A.picks s.first rows columns)
        (B.picks s.second rows columns) (A.inside s.first rows columns)
        (B.inside s.second rows columns) };

    fn cells(&self, alloc: Global, records: &R) -> Result<Vec<Entity>, TableError> {
        let mut all = self.first.cells(alloc, records)?;
        let mut more = self.second.cells(alloc, records)?;
        all.append(&mut more)?;
        Ok(all)
    }
}
