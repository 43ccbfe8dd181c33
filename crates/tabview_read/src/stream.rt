//! Rows that are shown as they are read.
ghost use Rattle.csv.specs.Records.{fields_of};
ghost use Rattle.std.specs.Iterator.{at_most};
ghost use Rattle.std.specs.Prelude.{◌≡◌, ◌++◌, IfOk, codes, decimal, map, string_bytes};
ghost use Rattle.tabview_read.specs.Shown.{number_of, shown_cells, texts_of};

use crate::chosen::Chosen;
use crate::error::ReadError;
use crate::row::{Row, Rows};
use crate::sheet::{Wanted, number_text};
use csv::StringRecord;
use std::alloc::{AllocError, Global};
use tabview_cells::chosen_cells;

/// The rows that are shown, below the names of their columns. Each is read when it is asked for.
pub struct Stream<'a, T: Rows> {
    alloc: Global,
    wanted: &'a Wanted<'a>,
    chosen: Chosen<'a>,
    rows: &'a mut T,
    /// The names of the columns, until they are shown.
    names: Option<StringRecord>,
    row: Row,
    /// Whether a row or the names were shown.
    is_begun: bool,
    /// The rows that were read.
    count: u64,
    /// The rows that may still come.
    left: u64,
}

impl<T: Rows> Drop for Stream<'_, T> {
    fn drop(self) {
        let Stream {
            alloc: _,
            wanted: _,
            chosen: _,
            rows: _,
            names: _,
            row: _,
            is_begun: _,
            count: _,
            left: _,
        } = self;
    }
}

impl<'a, T: Rows> Stream<'a, T> {
    /// Makes a stream of rows.
    pub fn new(
        alloc: Global,
        wanted: &'a Wanted<'a>,
        rows: &'a mut T,
    ) -> Result<Stream<'a, T>, AllocError> {
        let names = match rows.names() {
            Some(names) => Some(names.clone()?),
            None => None,
        };
        let left = wanted.rows.map_or(u64::MAX, |rows| rows as u64);
        Ok(Stream {
            alloc,
            wanted,
            chosen: Chosen::new(alloc, wanted.columns),
            rows,
            left: left.saturating_add(u64::from(names.is_some())),
            names,
            row: Row::new(alloc),
            is_begun: false,
            count: 0,
        })
    }

    /// Returns the next row, or the names before the first.
    fn next_row(&mut self) -> Result<Option<Vec<String>>, ReadError> {
        if let Some(names) = self.names.take() {
            return Ok(Some(self.show_names(&names)?));
        }
        if !self.rows.read(&mut self.row)? {
            return Ok(None);
        }
        if !self.is_begun {
            self.is_begun = true;
            self.chosen.find(None, self.row.cells.len())?;
        }
        Ok(Some(self.show_row()?))
    }

    /// Returns the names of the columns that are shown.
    fn show_names(&mut self, names: &StringRecord) -> Result<Vec<String>, ReadError>
        ensures { let w = self.old.wanted.now in IfOk result (λ texts.
            map string_bytes texts.items ≡ texts_of w.numbers (codes "#") w.shown
            (fields_of names.now) self.new.chosen.columns.items) }
    {
        self.is_begun = true;
        self.chosen.find(Some(names), names.len())?;
        Ok(self.cells_of(names, "#")?)
    }

    /// Returns the cells that are shown of the row that was read.
    fn show_row(&mut self) -> Result<Vec<String>, ReadError>
        ensures { let w = self.old.wanted.now in IfOk result (λ texts.
            map string_bytes texts.items ≡ texts_of w.numbers (decimal self.new.count) w.shown
            (shown_cells w.null.now self.old.row) self.new.chosen.columns.items) }
    {
        self.chosen.widen(self.row.cells.len())?;
        self.count = self.count.saturating_add(1);
        let number = number_text(self.alloc, self.wanted.numbers, self.count)?;
        if self.row.has_no_null() {
            return Ok(self.cells_of(&self.row.cells, &number)?);
        }
        let cells = self.row.shown_cells(self.alloc, self.wanted.null)?;
        Ok(self.cells_of(&cells, &number)?)
    }

    /// Returns the cells that are shown of a row, as they are or escaped, after its number.
    fn cells_of(&self, cells: &StringRecord, number: &str) -> Result<Vec<String>, AllocError>
        ensures { let w = self.now.wanted.now in IfOk result (λ texts.
            map string_bytes texts.items ≡ texts_of w.numbers number.now w.shown
            (fields_of cells.now) self.now.chosen.columns.items) }
    {
        let columns = self.chosen.columns.as_slice();
        let shown = chosen_cells(self.alloc, cells, columns, self.wanted.shown)?;
        numbered(self.alloc, self.wanted.numbers, number, shown)
    }
}

/// Puts the number of a row before its cells, if rows have one.
fn numbered(
    alloc: Global,
    numbers: bool,
    number: &str,
    cells: Vec<String>,
) -> Result<Vec<String>, AllocError>
    ensures { IfOk result (λ texts. map string_bytes texts.items
        ≡ number_of numbers number.now ++ map string_bytes cells.items) }
{
    let mut texts = cells;
    if numbers {
        texts.insert(0, String::from_str(alloc, number)?)?;
    }
    Ok(texts)
}

impl<T: Rows> Iterator for Stream<'_, T> {
    type Item = Result<Vec<String>, ReadError>;

    ghost remaining = { λ s. at_most s.left };

    fn next(&mut self) -> Option<Result<Vec<String>, ReadError>> {
        if self.left == 0 {
            return None;
        }
        let left = self.left - 1;
        let row = self.next_row().transpose();
        self.left = left;
        row
    }
}
