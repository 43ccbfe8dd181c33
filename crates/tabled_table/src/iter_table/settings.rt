//! The settings of a stream: how many rows are read and shown, the sizes that are set, and whether
//! the cells of a row fit in them.
ghost use Rattle.std.specs.Prelude.{IfOk, MatchOption, Some, [], false, length, map, min};
ghost use Rattle.std.specs.Prelude.{slice_index_or, true, unwrap_or, ℕ, ◌<◌, ◌≡◌, ◌≢◌, ◌≤◌, ◌⊎◌};
ghost use Rattle.tabled_table.specs.Stream.Marked.{StaysWhole};
ghost use Rattle.tabled_table.specs.Stream.Progress.{left_of};
ghost use Rattle.tabled_table.specs.Stream.Row.{content_at};
ghost use Rattle.tabled_table.specs.Stream.Streamed.{ahead};
ghost use Rattle.tabled_text.specs.Cut.{IsCut};

use crate::iter_table::layout::Layout;
use std::alloc::{AllocError, Global};
use std::borrow::CowStr;
use tabled_base::{CellText, Text};
use tabled_text::{cut_length, cut_str};

/// How many rows a stream reads ahead and prints, and which sizes are set.
#[derive(Clone, Copy, Debug, PartialEq, Eq, PartialOrd, Ord, Hash)]
pub struct StreamSettings {
    /// The greatest number of rows that are read ahead.
    pub sniff: usize,
    /// The number of columns, if it is set.
    pub columns: Option<usize>,
    /// The greatest number of rows that are printed, if it is set.
    pub rows: Option<usize>,
    /// The content width of each column, if it is set.
    pub width: Option<usize>,
    /// The lines for text in each row, if they are set.
    pub height: Option<usize>,
    /// The character that ends each cell that is cut, if it is set.
    pub mark: Option<char>,
}

/// Returns how many rows are read ahead at most: none if both the number of columns and their width
/// are set.
pub(crate) fn ahead(settings: &StreamSettings) -> usize
    ensures { result ≡ ahead settings.now }
{
    if settings.width.is_some() && settings.columns.is_some() {
        0
    } else {
        settings.sniff
    }
}

pub(crate) fn is_none_left(left: Option<usize>) -> bool
    ensures going { result ≡ false → left ≢ Some 0 }
    ensures reached { result ≡ true → left ≡ Some 0 }
{
    matches!(left, Some(0))
}

/// Returns how many rows are read before the first byte: those that are read ahead, or else the
/// first if it may be shown.
pub(crate) fn first_rows(settings: &StreamSettings) -> usize
    ensures ahead { ahead settings.now ≤ result }
    ensures needed { (result ≡ ahead settings.now)
        ⊎ ((ahead settings.now ≡ 0) × (result ≡ 1)
        × (0 < unwrap_or settings.now.columns 0) × (settings.now.rows ≢ Some 0)) }
    ensures none { result ≡ 0
        → (unwrap_or settings.now.columns 0 ≡ 0) ⊎ (settings.now.rows ≡ Some 0) }
{
    let ahead = ahead(settings);
    if ahead == 0 && settings.columns.unwrap_or(0) > 0 && !is_none_left(settings.rows) {
        1
    } else {
        ahead
    }
}

pub(crate) fn up_to(limit: Option<usize>, count: usize) -> usize
    ensures { MatchOption limit (result ≡ count) (λ n. result ≡ min n count) }
{
    limit.map_or(count, |limit| limit.min(count))
}

/// Returns how many more rows may be shown after `count`; `None` if there is no limit.
pub(crate) fn fewer(limit: Option<usize>, count: usize) -> Option<usize>
    ensures { result ≡ left_of limit count }
{
    limit.map(|limit| limit.saturating_sub(count))
}

/// Returns whether cutting a text to n columns changes nothing.
pub(crate) fn stays_whole(text: &str, n: usize) -> bool
    ensures whole { result ≡ true → StaysWhole n text.now }
    ensures cut { result ≡ false → StaysWhole n text.now → ⊥ }
{
    cut_length(text, n) == Some(text.len())
}

/// Returns whether the text of a cell is at most n columns wide.
fn fits<C: CellText>(cell: &C, n: usize) -> bool
    ensures { result ≡ true → IsCut n (C.text cell.now) (C.text cell.now) }
{
    stays_whole(cell.text(), n)
}

/// Returns whether each cell of a row fits in its column.
pub(crate) fn all_fit<C: CellText>(layout: &Layout, cells: &[C]) -> bool
    ensures { result ≡ true → (column : ℕ) → column < length cells.now
        → IsCut (content_at layout.now column) (slice_index_or (map C.text cells.now) column [])
        (slice_index_or (map C.text cells.now) column []) }
{
    'cells: for column in 0..cells.len() {
        if !fits(&cells[column], layout.content_width(column)) {
            return false;
        }
    }
    true
}

/// Cuts the cells of a row and measures them.
pub(crate) fn cut_cells<'a, C: CellText>(
    alloc: Global,
    layout: &Layout,
    cells: &'a [C],
) -> Result<Vec<Text<CowStr<'a>>>, AllocError>
    ensures as_many { IfOk result (λ cut. length cut.items ≡ length cells.now) }
    ensures each { IfOk result (λ cut. (column : ℕ) → column < length cells.now
        → IsCut (content_at layout.now column) (slice_index_or (map C.text cells.now) column [])
        (slice_index_or cut.items column [])) }
{
    let mut cut = Vec::with_capacity(alloc, cells.len())?;
    'cells: for column in 0..cells.len() {
        let text = cut_str(alloc, cells[column].text(), layout.content_width(column))?;
        cut.push(Text::new(text))?;
    }
    Ok(cut)
}
