//! Cuts the cells of a row where a mark shows that a cell was cut.
ghost use Rattle.std.specs.Cow.{cow_str_bytes};
ghost use Rattle.std.specs.Prelude.{IfOk, [], encode_utf8, length, map, slice_index_or};
ghost use Rattle.std.specs.Prelude.{string_bytes, ℕ, ◌<◌, ◌≡◌};
ghost use Rattle.tabled_set.specs.Truncated.{IsEnded};
ghost use Rattle.tabled_table.specs.Stream.Marked.{IsCutCell, IsMarked};
ghost use Rattle.tabled_table.specs.Stream.Row.{content_at};
ghost use Rattle.tabled_text.specs.Measure.{char_count};

use crate::iter_table::layout::Layout;
use crate::iter_table::settings::{cut_cells, stays_whole};
use std::alloc::{AllocError, Global};
use std::borrow::CowStr;
use tabled_base::{CellText, Text};
use tabled_text::{append_cut, cut_str};
use unicode_width::UnicodeWidthChar;

/// Returns what a mark counts where a text is cut: its columns, at least 1.
fn mark_count(mark: char) -> usize
    ensures { result ≡ char_count mark }
{
    mark.width().unwrap_or(0).max(1)
}

/// Returns a text cut to n columns, and the mark after it.
fn ended_text(alloc: Global, text: &str, n: usize, mark: char) -> Result<String, AllocError>
    ensures { IfOk result (λ answer.
        IsEnded n (encode_utf8 mark) text.now (string_bytes answer)) }
{
    let mut answer = String::new(alloc);
    append_cut(&mut answer, text, n)?;
    answer.push(mark)?;
    Ok(answer)
}

/// Cuts a text to n columns. The result ends in the mark if the text doesn't fit and the mark does.
fn cut_marked(
    alloc: Global,
    text: &str,
    n: usize,
    mark: char,
) -> Result<CowStr<'_, Global>, AllocError>
    ensures { IfOk result (λ answer. IsMarked mark n text.now (cow_str_bytes answer)) }
{
    if stays_whole(text, n) {
        return Ok(CowStr::Borrowed(text));
    }
    let count = mark_count(mark);
    if count > n {
        return cut_str(alloc, text, n);
    }
    let answer = ended_text(alloc, text, n - count, mark)?;
    Ok(CowStr::Owned(answer))
}

/// Cuts the cells of a row with a mark and measures them.
fn mark_cells<'a, C: CellText>(
    alloc: Global,
    layout: &Layout,
    mark: char,
    cells: &'a [C],
) -> Result<Vec<Text<CowStr<'a>>>, AllocError>
    ensures as_many { IfOk result (λ cut. length cut.items ≡ length cells.now) }
    ensures each { IfOk result (λ cut. (column : ℕ) → column < length cells.now
        → IsMarked mark (content_at layout.now column)
        (slice_index_or (map C.text cells.now) column [])
        (slice_index_or cut.items column [])) }
{
    let mut cut = Vec::with_capacity(alloc, cells.len())?;
    'cells: for column in 0..cells.len() {
        let text = cut_marked(
            alloc,
            cells[column].text(),
            layout.content_width(column),
            mark,
        )?;
        cut.push(Text::new(text))?;
    }
    Ok(cut)
}

/// Cuts the cells of a row, with the mark if one is set, and measures them.
pub(crate) fn cut_row<'a, C: CellText>(
    alloc: Global,
    layout: &Layout,
    cells: &'a [C],
) -> Result<Vec<Text<CowStr<'a>>>, AllocError>
    ensures as_many { IfOk result (λ cut. length cut.items ≡ length cells.now) }
    ensures each { IfOk result (λ cut. (column : ℕ) → column < length cells.now
        → IsCutCell layout.now.mark (content_at layout.now column)
        (slice_index_or (map C.text cells.now) column [])
        (slice_index_or cut.items column [])) }
{
    match layout.mark {
        None => cut_cells(alloc, layout, cells),
        Some(mark) => mark_cells(alloc, layout, mark, cells),
    }
}
