//! Records of empty cells.
ghost use Rattle.std.specs.Prelude.{◌≡◌, [], map, replicate, ⊤};
ghost use Rattle.std.specs.Iterator.{YieldsFirst, YieldsFirstBy, item_count};
ghost use Rattle.tabled_records.specs.Empty.{cells_left, rows_left};

use tabled_base::{ExactRecords, PeekableRecords, Position, Records};

/// A number of rows of empty cells. They take no memory.
#[derive(Clone, Copy, Debug, Default, Eq, PartialEq)]
pub struct EmptyRecords {
    pub rows: usize,
    pub columns: usize,
}

impl EmptyRecords {
    /// Makes `rows` rows of `columns` empty cells.
    pub fn new(rows: usize, columns: usize) -> EmptyRecords
        ensures rows { result.rows ≡ rows }
        ensures columns { result.columns ≡ columns }
    {
        EmptyRecords { rows, columns }
    }
}

/// The remaining cells of a row, all of them empty.
#[derive(Clone, Copy, Debug, Drop)]
pub struct EmptyCells {
    pub(crate) count: usize,
}

impl Iterator for EmptyCells {
    type Item = &'static str;

    ghost next_gives = { YieldsFirstBy (λ cell. cell.now) cells_left };

    ghost remaining = { item_count cells_left };

    fn next(&mut self) -> Option<&'static str> {
        self.count = self.count.checked_sub(1)?;
        Some("")
    }
}

/// The remaining rows.
#[derive(Clone, Copy, Debug, Drop)]
pub struct EmptyRows {
    pub(crate) count: usize,
    pub(crate) columns: usize,
}

impl Iterator for EmptyRows {
    type Item = EmptyCells;

    ghost next_gives = { YieldsFirst rows_left };

    ghost remaining = { item_count rows_left };

    fn next(&mut self) -> Option<EmptyCells> {
        self.count = self.count.checked_sub(1)?;
        let count = self.columns;
        Some(EmptyCells { count })
    }
}

impl Records for EmptyRecords {
    type Iter = EmptyRows;

    ghost ends = { λ _. ⊤ };

    ghost gives = { λ records cells. map (map (λ cell. cell.now)) cells
        ≡ replicate records.rows (replicate records.columns []) };

    fn iter_rows(self) -> EmptyRows {
        EmptyRows {
            count: self.rows,
            columns: self.columns,
        }
    }
}

/// Without rows it has no columns, whatever `columns` is.
impl ExactRecords for EmptyRecords {
    ghost cells = { λ records. replicate records.rows (replicate records.columns []) };

    fn count_rows(&self) -> usize {
        self.rows
    }

    fn count_columns(&self) -> usize {
        if self.rows == 0 { 0 } else { self.columns }
    }
}

impl PeekableRecords for EmptyRecords {
    fn get_text(&self, _at: Position) -> &str {
        ""
    }

    fn get_width(&self, _at: Position) -> usize {
        0
    }

    fn count_lines(&self, _at: Position) -> usize {
        1
    }
}
