//! `Position`, a row and a column, and `Entity`, the cells that a setting covers.
ghost use Rattle.std.specs.Prelude.{◌≡◌};

/// The row and the column of a cell, both from 0.
#[derive(Clone, Copy, Debug, PartialEq, Eq, PartialOrd, Ord, Hash)]
pub struct Position {
    /// The row, from the top.
    pub row: usize,
    /// The column, from the left.
    pub column: usize,
}

impl Position {
    /// Makes the position in a row and a column.
    pub fn new(row: usize, column: usize) -> Position
        ensures { result ≡ record { row = row; column = column } }
    {
        Position { row, column }
    }
}

impl From<(usize, usize)> for Position {
    ghost from_gives = { λ place at. at ≡ record { row = place.0; column = place.1 } };

    fn from(place: (usize, usize)) -> Position {
        Position::new(place.0, place.1)
    }
}

/// The cells that a setting or a change applies to. Rows and columns count from 0.
#[derive(Clone, Copy, Debug, PartialEq, Eq, PartialOrd, Ord, Hash)]
pub enum Entity {
    /// All cells.
    Global,
    /// The cells of a row.
    Row(usize),
    /// The cells of a column.
    Column(usize),
    /// One cell, by its row and its column.
    Cell(usize, usize),
}
