//! Handles an error, and shows how wide strings are.

use std::alloc::Global;
use tabled::grid::util::string::text_width;
use tabled::settings::Width;
use tabled::{Table, TableError};

/// The second column is set to a width of 2, and its first cell needs 4 with its padding.
pub fn too_narrow(alloc: Global) -> Result<&'static str, TableError> {
    let widths = Width::list(alloc, [5, 2])?;
    let mut table = Table::nohead(alloc, [("a", "bb"), ("ccc", "")])?;
    match table.with(widths)?.to_text() {
        Err(TableError::Narrow { row: 0, column: 1 }) => Ok("the second column is too narrow"),
        Err(other) => Err(other),
        Ok(_) => Ok("printed"),
    }
}

/// The widths of strings in a terminal, by `unicode_width`.
pub fn widths() -> [usize; 4] {
    [
        text_width("Paris"),
        text_width("北京"),
        text_width("Москва"),
        text_width("a\nbc"),
    ]
}
