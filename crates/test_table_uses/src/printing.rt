//! Tables printed to a given width and alignment, and formatted tables.

use crate::sheet::{Sheet, table_of};
use std::alloc::Global;
use tabled_base::TableError;
use tabled_config::AlignmentHorizontal;

/// The arguments of `print_with`: a total width, an alignment, and what fills missing columns.
#[derive(Clone, Copy)]
pub struct Look {
    pub width: Option<usize>,
    pub align: Option<AlignmentHorizontal>,
    pub fill: char,
}

/// Returns the result of `print_with`, and what was written.
pub fn put_with(
    alloc: Global,
    sheet: &Sheet,
    look: &Look,
) -> Result<(Result<(), TableError>, String), TableError> {
    let table = table_of(alloc, sheet)?;
    let mut text = String::new(alloc);
    let answer = table.print_with(&mut text, look.width, look.align, look.fill);
    Ok((answer, text))
}

/// Formats a table. Returns whether that succeeds, and what was written.
pub fn formatted(alloc: Global, sheet: &Sheet) -> Result<(bool, String), TableError> {
    let table = table_of(alloc, sheet)?;
    let mut text = String::new(alloc);
    let answer = write!(text, "{table}");
    Ok((answer.is_ok(), text))
}
