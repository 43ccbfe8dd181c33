//! `PackedCells`, cells that are given as one text and the byte where each of them ends.
ghost use Rattle.std.specs.Prelude.{◌≡◌, ◌⊎◌, ◌↔◌, IfErr, IfOk, MatchOption, length, map, true};
ghost use Rattle.std.specs.Str.{IsCharBoundary, IsUtf8};
ghost use Rattle.tabled_base.specs.Cells.{row_texts};
ghost use Rattle.tabled_base.specs.declared.error.TableError.TheVariants as table;
ghost use Rattle.tabled_c.specs.Asked.{IsCounted};
ghost use Rattle.tabled_c.specs.Cells.{AreEnds, IsEnd, IsTextsCause, cell_text, end_of};
ghost use Rattle.tabled_c.specs.Cells.{in_rows, texts_at};
ghost use Rattle.tabled_c.specs.declared.error_code.ErrorCode.TheVariants.{Ends, Memory};

use crate::error_code::ErrorCode;
use simdutf8::compat::from_utf8;
use std::alloc::Global;
use tabled::{TableError, Text};

/// The cells of a table, row by row. C passes a pointer to them.
#[derive(Clone, Copy, Debug)]
#[repr(C)]
pub struct PackedCells<'a> {
    /// The texts of all cells, one behind the other.
    pub text: &'a [u8],
    /// For each cell the byte behind it, or `usize::MAX` if it has no value.
    pub ends: &'a [usize],
    pub rows: usize,
    /// The number of cells in each row.
    pub columns: usize,
}

impl<'a> PackedCells<'a> {
    /// Whether the counts of rows and columns go with those of cells and of alignments.
    pub(crate) fn has_counts(&self, alignments: usize) -> bool
        ensures { (result ≡ true) ↔ IsCounted self.now.rows self.now.columns
            (length self.now.ends.now) alignments }
    {
        let cells = self.ends.len();
        let count = self.rows.checked_mul(self.columns);
        count == Some(cells) && self.rows <= cells && alignments <= self.columns
    }

    /// Returns the texts of the cells. Those without a value have the text `null`.
    pub(crate) fn texts(&self, alloc: Global, null: &'a [u8]) -> Result<Vec<&'a str>, ErrorCode>
        ensures utf8 { IfOk result (λ _. IsUtf8 self.now.text.now) }
        ensures null { IfOk result (λ _. IsUtf8 null.now) }
        ensures ends { IfOk result (λ _. AreEnds self.now.text.now 0 self.now.ends.now) }
        ensures ok { IfOk result (λ texts. map (λ t. t.now) texts.items
            ≡ texts_at null.now self.now.text.now 0 self.now.ends.now) }
        ensures err { IfErr result (IsTextsCause self.now null.now) }
    {
        let Ok(text) = from_utf8(self.text) else {
            return Err(ErrorCode::NoText);
        };
        let Ok(null) = from_utf8(null) else {
            return Err(ErrorCode::NoText);
        };
        texts_at(alloc, text, self.ends, null)
    }
}

/// Returns the text of the cell that begins at `start`, and where it ends; or `None` if it ends
/// before it begins, or within a character.
fn cell_at<'a>(text: &'a str, null: &'a str, start: usize, end: usize) -> Option<(&'a str, usize)>
    requires { IsCharBoundary text.now start }
    ensures { MatchOption result (¬ IsEnd text.now start (end_of start end))
        (λ cell. (cell.0.now ≡ cell_text null.now text.now start end)
        × (cell.1 ≡ end_of start end) × IsEnd text.now start cell.1) }
{
    if end == usize::MAX {
        return Some((null, start));
    }
    if end < start || !text.is_char_boundary(end) {
        return None;
    }
    Some((&text[start..end], end))
}

/// Returns the texts that end at `ends`. Each begins where the one before it ends, and the last one
/// ends with the whole text. Cells without a value have the text `null`.
fn texts_at<'a>(
    alloc: Global,
    text: &'a str,
    ends: &[usize],
    null: &'a str,
) -> Result<Vec<&'a str>, ErrorCode>
    ensures ends { IfOk result (λ _. AreEnds text.now 0 ends.now) }
    ensures ok { IfOk result (λ texts. map (λ t. t.now) texts.items
        ≡ texts_at null.now text.now 0 ends.now) }
    ensures err { IfErr result (λ e. (e ≡ Memory)
        ⊎ ((e ≡ Ends) × (¬ AreEnds text.now 0 ends.now))) }
{
    let mut texts = Vec::new(alloc);
    let mut start: usize = 0;
    'ends: for end in ends {
        let Some((cell, next)) = cell_at(text, null, start, *end) else {
            return Err(ErrorCode::Ends);
        };
        if texts.push(cell).is_err() {
            return Err(ErrorCode::Memory);
        }
        start = next;
    }
    if start != text.len() {
        return Err(ErrorCode::Ends);
    }
    Ok(texts)
}

/// Copies the texts of a row, and measures them.
fn row_of(alloc: Global, texts: &[&str]) -> Result<Vec<Text<String>>, TableError>
    ensures ok { IfOk result (λ row. row.items ≡ map (λ t. t.now) texts.now) }
    ensures only { IfErr result (λ e. e ≡ table.Memory) }
{
    let mut row = Vec::with_capacity(alloc, texts.len())?;
    for text in texts {
        row.push(Text::copied(alloc, text)?)?;
    }
    Ok(row)
}

/// Copies texts into rows of `columns` cells.
pub(crate) fn rows_of(
    alloc: Global,
    texts: &[&str],
    rows: usize,
    columns: usize,
) -> Result<Vec<Vec<Text<String>>>, TableError>
    ensures ok { IfOk result (λ made. row_texts made.items
        ≡ in_rows rows columns (map (λ t. t.now) texts.now)) }
    ensures only { IfErr result (λ e. e ≡ table.Memory) }
{
    let mut made = Vec::with_capacity(alloc, rows)?;
    let mut start: usize = 0;
    'rows: for _row in 0..rows {
        let end = start.saturating_add(columns).min(texts.len());
        made.push(row_of(alloc, &texts[start..end])?)?;
        start = end;
    }
    Ok(made)
}
