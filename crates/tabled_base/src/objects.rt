//! `Object`, and the selections of one row, column or cell.
ghost use Rattle.std.specs.Prelude.{◌≡◌, ◌<◌, ℕ, IfErr, IfOk, OnErr, List, length, map};
ghost use Rattle.std.specs.Option.{option_to_list};
ghost use Rattle.tabled_base.specs.Cells.{columns};
ghost use Rattle.std.specs.List.{All};
ghost use Rattle.tabled_base.specs.Picks.{IsPart, picked, picked_cell};
ghost use Rattle.tabled_base.specs.PicksLaws.{picked_cell-inside, picked_columns-inside};
ghost use Rattle.tabled_base.specs.PicksLaws.{picked_rows-inside};
ghost use Rattle.tabled_base.specs.declared.error.TableError.TheVariants.{Memory};
ghost use Rattle.tabled_base.specs.declared.objects.Place.TheVariants.{At, Last};
ghost use Rattle.tabled_base.specs.declared.position.Entity.{Entity};
ghost use Rattle.tabled_base.specs.declared.position.Entity.TheVariants.{Column, Row};

use crate::error::TableError;
use crate::position::Entity;
use crate::records::ExactRecords;
use std::alloc::Global;

/// A selection of entities of records.
pub trait Object<R: ExactRecords> {
    // The selected entities, in order, for a number of rows and of columns.
    ghost picks: { Self → ℕ → ℕ → List Entity };

    /// Returns the selected entities, in order. All lie inside the records. Fails with `Memory`
    /// only if at least one is selected.
    fn cells(&self, alloc: Global, records: &R) -> Result<Vec<Entity>, TableError>
        ensures picked { IfOk result (λ all. all.items
            ≡ picks self.now (length (R.cells records.now)) (columns (R.cells records.now))) }
        ensures some { OnErr result (0 < length
            (picks self.now (length (R.cells records.now)) (columns (R.cells records.now)))) }
        ensures only { IfErr result (λ e. e ≡ Memory) };

    // Every selected entity lies inside the records.
    ghost inside: { (s : Self) (rows columns : ℕ)
        → All (IsPart rows columns) (picks s rows columns) };
}

/// The index of a row or column, or the last one.
#[derive(Clone, Copy, Debug)]
pub(crate) enum Place {
    /// The one at an index, from 0.
    At(usize),
    /// The last one.
    Last,
}

/// A selection of one row. It is empty if there is no such row.
#[derive(Debug, Drop)]
pub struct Rows {
    place: Place,
}

impl Rows {
    /// Selects the row at an index, from 0 at the top.
    pub fn one(index: usize) -> Rows
        ensures { result.place ≡ At index }
    {
        let place = Place::At(index);
        Rows { place }
    }

    /// Selects the first row.
    pub fn first() -> Rows
        ensures { result.place ≡ At 0 }
    {
        Rows::one(0)
    }

    /// Selects the last row.
    pub fn last() -> Rows
        ensures { result.place ≡ Last }
    {
        Rows { place: Place::Last }
    }
}

impl<R: ExactRecords> Object<R> for Rows {
    ghost picks = { λ s rows columns. map Row (picked s.place rows) };

    ghost inside = { λ s. picked_rows-inside s.place };

    fn cells(&self, alloc: Global, records: &R) -> Result<Vec<Entity>, TableError> {
        let mut all = Vec::new(alloc);
        if let Some(row) = find(self.place, records.count_rows()) {
            all.push(Entity::Row(row))?;
        }
        Ok(all)
    }
}

/// A selection of one column. It is empty if there is no such column.
#[derive(Debug, Drop)]
pub struct Columns {
    place: Place,
}

impl Columns {
    /// Selects the column at an index, from 0 at the left.
    pub fn one(index: usize) -> Columns
        ensures { result.place ≡ At index }
    {
        let place = Place::At(index);
        Columns { place }
    }

    /// Selects the first column.
    pub fn first() -> Columns
        ensures { result.place ≡ At 0 }
    {
        Columns::one(0)
    }

    /// Selects the last column.
    pub fn last() -> Columns
        ensures { result.place ≡ Last }
    {
        Columns { place: Place::Last }
    }
}

impl<R: ExactRecords> Object<R> for Columns {
    ghost picks = { λ s rows columns. map Column (picked s.place columns) };

    ghost inside = { λ s. picked_columns-inside s.place };

    fn cells(&self, alloc: Global, records: &R) -> Result<Vec<Entity>, TableError> {
        let mut all = Vec::new(alloc);
        if let Some(column) = find(self.place, records.count_columns()) {
            all.push(Entity::Column(column))?;
        }
        Ok(all)
    }
}

/// A selection of one cell. It is empty if there is no such cell.
#[derive(Debug, Drop)]
pub struct Cell {
    row: usize,
    column: usize,
}

impl Cell {
    /// Selects the cell in a row and a column, both from 0.
    pub fn new(row: usize, column: usize) -> Cell
        ensures { result ≡ record { row = row; column = column } }
    {
        Cell { row, column }
    }
}

impl<R: ExactRecords> Object<R> for Cell {
    ghost picks = { λ s rows columns. picked_cell s.row s.column rows columns };

    ghost inside = { λ s. picked_cell-inside s.row s.column };

    fn cells(&self, alloc: Global, records: &R) -> Result<Vec<Entity>, TableError> {
        let mut all = Vec::new(alloc);
        if self.row < records.count_rows() && self.column < records.count_columns() {
            all.push(Entity::Cell(self.row, self.column))?;
        }
        Ok(all)
    }
}

/// Selects the cell in a row and a column, both from 0.
impl<R: ExactRecords> Object<R> for (usize, usize) {
    ghost picks = { λ s rows columns. picked_cell s.0 s.1 rows columns };

    ghost inside = { λ s. picked_cell-inside s.0 s.1 };

    fn cells(&self, alloc: Global, records: &R) -> Result<Vec<Entity>, TableError> {
        Cell::new(self.0, self.1).cells(alloc, records)
    }
}

/// Returns the index of the row or column, or `None` if there is no such one.
fn find(place: Place, count: usize) -> Option<usize>
    ensures { option_to_list result ≡ picked place count }
{
    match place {
        Place::At(index) if index < count => Some(index),
        Place::Last if count > 0 => Some(count - 1),
        _ => None,
    }
}
