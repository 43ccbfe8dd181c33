//! `EntityMap`, one setting of a table.
ghost use Rattle.std.specs.Cmp.{and_equiv, and_per, on_equiv, on_per};
ghost use Rattle.std.specs.Cmp.Lexicographic.{lists_equiv, lists_per, pointwise};
ghost use Rattle.std.specs.Prelude.{◌≡◌, ◌&&◌, ℕ, IfOk, IfSome, IsOk, OnErr, OnOk, reverse, true};
ghost use Rattle.tabled_base.specs.contracts.position.EntityEq.TheImpl.Laws.{laws-law as entity_eq};
ghost use Rattle.tabled_base.specs.contracts.position.EntityPartialEq.TheImpl.Laws.{laws-law as entity_per};
ghost use Rattle.tabled_entity.specs.Changes.{for_all, setting_at, shared, with_change};
ghost use Rattle.tabled_entity.specs.ChangeIndex.{AreParts, IsIndexed, IsPart, IsWhole};
ghost use Rattle.tabled_entity.specs.RowValues.{value_at};

use crate::row_values::{ChangeIndex, RowValues};
use std::alloc::{AllocError, Global};
use std::marker::Model;
use tabled_base::Entity;

/// One setting of a table, made for all of it, for rows, for columns and for cells. The last one
/// that covers a cell wins.
///
/// Values that were set for one row, column or cell after another are found by index, and all
/// others in a B-tree.
#[derive(Debug)]
pub struct EntityMap<T> {
    // The value of the entire table.
    global: T,
    // The values that were set for parts since then, in order.
    changes: Vec<(Entity, T)>,
    // The index in `changes` of the latest change for each part.
    places: ChangeIndex,
}

/// Makes the index of a list of changes. Fails if an allocation fails.
fn index_of<T: Copy>(alloc: Global, changes: &[(Entity, T)]) -> Result<ChangeIndex, AllocError>
    requires { AreParts (reverse changes.now) }
    ensures { IfOk result (λ places. IsIndexed places (reverse changes.now)) }
{
    let mut places = ChangeIndex::new(alloc);
    'places: for place in 0..changes.len() {
        places.insert(changes[place].0, place)?;
    }
    Ok(places)
}

/// A map is dropped by one call, so that its owner needn't prove the drop of each field.
impl<T: Drop> Drop for EntityMap<T> {
    fn drop(self) {
        let EntityMap {
            global: _,
            changes: _,
            places: _,
        } = self;
    }
}

impl<T> Model for EntityMap<T> {
    ghost use Rattle.std.specs.Prelude.{reverse};
    ghost use Rattle.tabled_entity.specs.Changes.{Changes};
    ghost use Rattle.tabled_entity.specs.ChangeIndex.{IsIndexed};

    ghost Value = { Changes T };

    ghost view = { λ m. record { global = m.global; parts = reverse m.changes.items } };

    ghost invariant = { λ m. IsIndexed m.places (reverse m.changes.items) };
}

impl<T: Copy> EntityMap<T> {
    /// Makes a map with one value for the entire table.
    pub fn new(alloc: Global, value: T) -> EntityMap<T>
        ensures { result ≡ for_all value }
    {
        EntityMap {
            global: value,
            changes: Vec::new(alloc),
            places: ChangeIndex::new(alloc),
        }
    }

    /// Sets a value for the entire table, and forgets all others.
    pub fn set_all(&mut self, value: T)
        ensures { self.new ≡ for_all value }
    {
        self.global = value;
        self.changes.clear();
        self.places.clear();
    }

    /// Returns the allocator of the map.
    pub fn allocator(&self) -> Global {
        *self.changes.allocator()
    }

    /// Returns the value of every cell, or `None` if a value was set for a part.
    #[inline]
    pub fn shared(&self) -> Option<T>
        ensures value { result ≡ shared self.now }
        ensures everywhere { IfSome result (λ value. (row column : ℕ)
            → setting_at self.now row column ≡ value) }
    {
        if self.changes.is_empty() {
            Some(self.global)
        } else {
            None
        }
    }

    /// Whether two rows are known to have the same value in each column: nothing was set for either
    /// row, nor for one of their cells.
    #[inline]
    pub fn are_alike(&self, row: usize, other: usize) -> bool
        ensures { result ≡ true → (column : ℕ)
            → setting_at self.now row column ≡ setting_at self.now other column }
    {
        if self.changes.is_empty() {
            return true;
        }
        self.places.is_plain(row) && self.places.is_plain(other)
    }

    /// Whether all rows are known to have the same value in each column: nothing was set for any
    /// row or cell.
    pub fn are_all_alike(&self) -> bool
        ensures { result ≡ true → (row other column : ℕ)
            → setting_at self.now row column ≡ setting_at self.now other column }
    {
        self.places.are_all_alike()
    }

    /// Returns the values of a row's cells.
    #[inline(always)]
    pub fn in_row(&self, row: usize) -> RowValues<'_, T>
        ensures { (column : ℕ) → value_at result column ≡ setting_at self.now row column }
    {
        if self.changes.is_empty() {
            return RowValues::Uniform(&self.global);
        }
        RowValues::new(&self.global, &self.changes, self.places.in_row(row))
    }

    /// Looks up the value of a cell among the changes.
    #[inline(never)]
    fn found(&self, row: usize, column: usize) -> &T
        ensures { result.now ≡ setting_at self.now row column }
    {
        self.in_row(row).at(column)
    }

    /// Returns the value of a cell.
    #[inline]
    pub fn get(&self, row: usize, column: usize) -> T
        ensures { result ≡ setting_at self.now row column }
    {
        if let Some(value) = self.shared() {
            return value;
        }
        *self.found(row, column)
    }

    /// Returns a copy. Fails if an allocation fails.
    pub fn clone(&self) -> Result<EntityMap<T>, AllocError>
        ensures { IfOk result (λ copy. copy ≡ self.now) }
    {
        let alloc = *self.changes.allocator();
        Ok(EntityMap {
            global: self.global,
            changes: Vec::from_slice(alloc, &self.changes)?,
            places: index_of(alloc, &self.changes)?,
        })
    }

    /// Sets a value for a part of the table. If an allocation fails, the map is unchanged.
    fn set_part(&mut self, entity: Entity, value: T) -> Result<(), AllocError>
        requires { IsPart entity }
        ensures ok { OnOk result (self.new ≡ with_change self.old entity value) }
        ensures err { OnErr result (self.new ≡ self.old) }
    {
        let place = self.changes.len();
        self.changes.try_reserve(1)?;
        self.places.insert(entity, place)?;
        self.changes.push((entity, value))?;
        Ok(())
    }

    /// Sets a value for an entity. If an allocation fails, the map is unchanged. Never fails for
    /// the entire table.
    pub fn set(&mut self, entity: Entity, value: T) -> Result<(), AllocError>
        ensures ok { OnOk result (self.new ≡ with_change self.old entity value) }
        ensures err { OnErr result (self.new ≡ self.old) }
        ensures whole { IsWhole entity → IsOk result }
    {
        match entity {
            Entity::Global => {
                self.set_all(value);
                Ok(())
            }
            part => self.set_part(part, value),
        }
    }
}

impl<T: PartialEq> PartialEq for EntityMap<T> {
    ghost eq = { λ a b. T.eq a.global b.global
        && pointwise (λ p q. ⟦<Entity as PartialEq>⟧.eq p.0 q.0 && T.eq p.1 q.1) (reverse a.parts) (reverse b.parts) };

    ghost laws = { and_per (on_per (λ m. m.global) T.laws) (on_per (λ m. reverse m.parts)
        (lists_per (and_per (on_per (λ p. p.0) entity_per) (on_per (λ p. p.1) T.laws)))) };

    fn eq(&self, other: &EntityMap<T>) -> bool {
        self.global == other.global && self.changes == other.changes
    }
}

impl<T: Eq> Eq for EntityMap<T> {
    ghost laws = { and_equiv (on_equiv (λ m. m.global) T.Eq.laws) (on_equiv (λ m. reverse m.parts)
        (lists_equiv (and_equiv (on_equiv (λ p. p.0) entity_eq)
        (on_equiv (λ p. p.1) T.Eq.laws)))) };
}
