//! Rows, and what they are read from.
ghost use Rattle.csv.specs.Records.{fields_of};
ghost use Rattle.std.specs.Prelude.{◌≡◌, ◌==◌, ◌++◌, [], ◌∷◌, ℕ, Contains, IfOk, IsTrue, List, None, OnOk, Option, Some, if◌then◌else◌, length, option_map, ⊤, ◌↔◌};
ghost use Rattle.tabview_read.specs.Shown.{cell_or, is_null, shown_cells};

use crate::error::ReadError;
use csv::StringRecord;
use std::alloc::{AllocError, Global};

/// A row: its cells, and which of them are null.
#[derive(Drop)]
pub struct Row {
    /// The text of each cell, empty if it is null.
    pub cells: StringRecord,
    /// The columns of the cells that are null.
    pub nulls: Vec<usize>,
}

impl Row {
    /// Makes a row with no cell.
    pub fn new(alloc: Global) -> Row
        ensures cells { fields_of result.cells ≡ [] }
        ensures nulls { result.nulls.items ≡ [] }
    {
        Row {
            cells: StringRecord::new(alloc),
            nulls: Vec::new(alloc),
        }
    }

    /// Whether the cell of a column is null.
    pub fn is_null(&self, column: usize) -> bool
        ensures listed { IsTrue result ↔ Contains self.now.nulls.items column }
        ensures value { result ≡ is_null self.now column }
    {
        self.nulls.contains(&column)
    }

    /// Whether no cell is null.
    pub fn has_no_null(&self) -> bool
        ensures { result ≡ (length self.now.nulls.items == 0) }
    {
        self.nulls.is_empty()
    }

    /// Removes all cells.
    pub fn clear(&mut self)
        ensures cells { fields_of self.new.cells ≡ [] }
        ensures nulls { self.new.nulls.items ≡ [] }
    {
        self.cells.clear();
        self.nulls.clear();
    }

    /// Adds a cell.
    pub fn push_text(&mut self, text: &str) -> Result<(), AllocError>
        ensures cells { OnOk result (fields_of self.new.cells
            ≡ fields_of self.old.cells ++ text.now ∷ []) }
        ensures nulls { self.new.nulls.items ≡ self.old.nulls.items }
    {
        self.cells.push_field(text)
    }

    /// Adds a cell that is null.
    pub fn push_null(&mut self) -> Result<(), AllocError>
        ensures cells { OnOk result (fields_of self.new.cells
            ≡ fields_of self.old.cells ++ [] ∷ []) }
        ensures nulls { OnOk result (self.new.nulls.items
            ≡ self.old.nulls.items ++ length (fields_of self.old.cells) ∷ []) }
    {
        let column = self.cells.len();
        self.nulls.push(column)?;
        self.cells.push_field("")
    }

    /// Returns the cells, with a text for those that are null.
    pub fn shown_cells(&self, alloc: Global, null: &str) -> Result<StringRecord, AllocError>
        ensures { IfOk result (λ cells. fields_of cells ≡ shown_cells null.now self.now) }
    {
        let mut cells = StringRecord::new(alloc);
        for column in 0..self.cells.len() {
            cells.push_field(self.cell_or(column, null))?;
        }
        Ok(cells)
    }

    /// Returns the cell of a column, or a text if it is null.
    fn cell_or<'t>(&'t self, column: usize, null: &'t str) -> &'t str
        ensures { result.now ≡ cell_or null.now self.now column }
    {
        if self.is_null(column) {
            return null;
        }
        self.cells.get(column).unwrap_or("")
    }
}

/// Rows that are read one by one.
pub trait Rows {
    ghost use Rattle.tabview_read.specs.declared.row.Row.{Row};

    /// Holds of a source and the names of its columns.
    ghost names_give: { Self → Option (List (List ℕ)) → Type 0 } = { λ _ _. ⊤ };

    /// Holds of the source before a call of `read`, the row that it read, and the source after.
    ghost read_gives: { Self → Option Row → Self → Type 0 } = { λ _ _ _. ⊤ };

    /// Returns the names of the columns, if the rows have some.
    fn names(&self) -> Option<&StringRecord>
        ensures { names_give self.now (option_map (λ n. fields_of n.now) result) };

    /// Reads the next row, and returns whether there is one.
    fn read(&mut self, row: &mut Row) -> Result<bool, ReadError>
        ensures { IfOk result (λ is_there.
            read_gives self.old (if is_there then Some row.new else None) self.new) };
}
