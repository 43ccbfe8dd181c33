//! What the cells of a column are, and whether the column keeps its width.
ghost use Rattle.csv.specs.Records.{text_of};
ghost use Rattle.std.specs.Char.{is_whitespace};
ghost use Rattle.std.specs.List.{list_any};
ghost use Rattle.std.specs.Prelude.{◌≡◌, chars, length, nat_le, true};
ghost use Rattle.tabview_cells.specs.Kinds.{is_code, joined, keeps_width, kind_of};
ghost use Rattle.tabled_base.specs.Printable.{is_printable};
ghost use Rattle.tabview_cells.specs.Graphic.{is_graphic};

use crate::dates::is_date;
use crate::numbers::{is_digits, is_number};
use crate::printable::{is_graphic, is_printable};
use csv::StringRecord;
use tabled_text::text_width;

/// The columns that a code takes at most.
const CODE_COLUMNS: usize = 12;

/// What a cell is, or what all cells of a column are.
#[derive(Clone, Copy, Debug, PartialEq, Eq)]
pub enum Kind {
    /// Nothing, as before the first cell. Empty cells don't change the kind of a column.
    Empty,
    /// Decimal numbers: digits, which commas may group, with a sign, a fraction, an exponent or a
    /// percent sign.
    Number,
    /// Dates and times of digits, such as `2024-02-29` and `23:59:59`.
    Date,
    /// Words of at most 12 columns.
    Code,
    /// Anything else.
    Text,
}

impl Kind {
    /// Returns the kind of a cell.
    pub fn of(cell: &str) -> Kind
        ensures { result ≡ kind_of cell.now }
    {
        if cell.is_empty() {
            Kind::Empty
        } else if is_number(cell.as_bytes()) {
            Kind::Number
        } else if is_date(cell.as_bytes()) {
            Kind::Date
        } else if is_code(cell) {
            Kind::Code
        } else {
            Kind::Text
        }
    }

    /// Returns the kind of a column with one more cell: that of both, if they are alike or one is
    /// empty. A column of different kinds is text if one of them is, else codes.
    pub fn with(self, cell: Kind) -> Kind
        ensures { result ≡ joined self cell }
    {
        match (self, cell) {
            (Kind::Empty, kind) | (kind, Kind::Empty) => kind,
            (Kind::Number, Kind::Number) => Kind::Number,
            (Kind::Date, Kind::Date) => Kind::Date,
            (Kind::Text, _) | (_, Kind::Text) => Kind::Text,
            _ => Kind::Code,
        }
    }

    /// Returns the kind of a column with one more cell, by its text. A cell that is like those
    /// before it takes the fewest steps.
    pub fn with_cell(self, cell: &str) -> Kind
        ensures { result ≡ joined self (kind_of cell.now) }
    {
        match self {
            Kind::Text => Kind::Text,
            Kind::Number if is_number(cell.as_bytes()) => Kind::Number,
            Kind::Code if is_code(cell) => Kind::Code,
            kind => kind.with(Kind::of(cell)),
        }
    }

    /// Returns the kind of a column with one more cell, as `with_cell` does. The cell is printable
    /// ASCII without spaces: a code has as many columns as bytes, and isn't read.
    #[inline(always)]
    pub fn with_graphic(self, cell: &str) -> Kind
        requires { is_graphic cell.now ≡ true }
        ensures { result ≡ joined self (kind_of cell.now) }
    {
        match self {
            Kind::Text => Kind::Text,
            Kind::Code if is_short(cell) => Kind::Code,
            Kind::Number if is_digits(cell.as_bytes()) => Kind::Number,
            kind => kind.with_cell(cell),
        }
    }

    /// Whether a column of this kind keeps its width where others give: each but text does.
    pub fn keeps_width(self) -> bool
        ensures { result ≡ keeps_width self }
    {
        self != Kind::Text
    }
}

/// Whether all cells of a row are printable ASCII without spaces.
pub fn is_graphic_row(row: &StringRecord) -> bool
    ensures { result ≡ is_graphic (text_of row.now) }
{
    is_graphic(row.as_byte_record().as_slice())
}

/// Whether all cells of a row are printable ASCII.
pub fn is_printable_row(row: &StringRecord) -> bool
    ensures { result ≡ is_printable (text_of row.now) }
{
    is_printable(row.as_byte_record().as_slice())
}

/// Whether a cell is a word of at most 12 columns.
fn is_code(cell: &str) -> bool
    ensures { result ≡ is_code cell.now }
{
    if is_graphic(cell.as_bytes()) {
        return is_short(cell);
    }
    text_width(cell) <= CODE_COLUMNS && !has_space(cell)
}

/// Whether a cell has at most as many bytes as a code has columns.
#[inline(always)]
fn is_short(cell: &str) -> bool
    ensures { result ≡ nat_le (length cell.now) CODE_COLUMNS }
{
    cell.len() <= CODE_COLUMNS
}

fn has_space(cell: &str) -> bool
    ensures { result ≡ list_any is_whitespace (chars cell.now) }
{
    cell.chars().any(|c| c.is_whitespace())
}
