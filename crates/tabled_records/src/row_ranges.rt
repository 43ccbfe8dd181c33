//! Rows as ranges of a list of texts, and pairs of numbers in half the memory.
ghost use Rattle.std.specs.Prelude.{◌≡◌, ◌<◌, ◌++◌, [], ◌∷◌, IfErr, IfSome, OnErr, OnOk};
ghost use Rattle.std.specs.Prelude.{◌^◌, MatchOption, length};
ghost use Rattle.std.specs.List.{slice_index_or};
ghost use Rattle.tabled_base.specs.declared.error.TableError.TheVariants.{Memory};
ghost use Rattle.tabled_base.specs.Cells.{IsInside, cell_at};
ghost use Rattle.tabled_records.specs.Joined.{AreJoined, AreRanges, IsCell, begin, longest_range};
ghost use Rattle.tabled_records.specs.Joined.{rows_in, texts_from};
ghost use Rattle.tabled_text.specs.Measure.{text_columns};

use std::alloc::{AllocError, Global};
use std::marker::Model;
use tabled_base::{Position, TableError};

/// A list of pairs. A pair takes 8 bytes up to the first number that doesn't fit 32 bits, and 16
/// bytes from there on.
#[derive(Debug, Drop)]
pub struct Pairs {
    small: Vec<(u32, u32)>,
    great: Vec<(usize, usize)>,
}

impl Model for Pairs {
    ghost use Rattle.std.specs.Prelude.{ℕ, List, ◌++◌};

    ghost Value = { List (ℕ × ℕ) };

    ghost view = { λ p. p.small.items ++ p.great.items };
}

/// Converts a pair to 32 bits, if both numbers fit.
#[inline(always)]
fn small(pair: (usize, usize)) -> Option<(u32, u32)>
    ensures { IfSome result (λ s. s ≡ pair) }
{
    const LAST: usize = u32::MAX as usize;
    if pair.0 <= LAST && pair.1 <= LAST {
        Some((pair.0 as u32, pair.1 as u32))
    } else {
        None
    }
}

impl Pairs {
    /// Makes an empty list.
    pub fn new(alloc: Global) -> Pairs
        ensures { result ≡ [] }
    {
        Pairs {
            small: Vec::new(alloc),
            great: Vec::new(alloc),
        }
    }

    /// Returns the number of pairs.
    #[inline(always)]
    pub fn len(&self) -> usize
        ensures { result ≡ length self.now }
    {
        self.small.len() + self.great.len()
    }

    /// Returns the pair at an index.
    #[inline(always)]
    pub fn at(&self, place: usize) -> (usize, usize)
        requires { place < length self.now }
        ensures { result ≡ slice_index_or self.now place result }
    {
        match place.checked_sub(self.small.len()) {
            None => {
                let (first, second) = self.small[place];
                (first as usize, second as usize)
            }
            Some(behind) => self.great[behind],
        }
    }

    /// Adds a pair. If it fails, the list is unchanged.
    #[inline(always)]
    pub fn push(&mut self, pair: (usize, usize)) -> Result<(), AllocError>
        ensures ok { OnOk result (self.new ≡ self.old ++ pair ∷ []) }
        ensures err { OnErr result (self.new ≡ self.old) }
    {
        match small(pair) {
            Some(small) if self.great.is_empty() => self.small.push(small)?,
            _ => self.great.push(pair)?,
        }
        Ok(())
    }
}

/// For each row the index of its first text, and the number of its texts.
#[derive(Debug, Drop)]
pub(crate) struct RowRanges {
    ranges: Pairs,
    // The number of texts in the longest row.
    columns: usize,
}

impl Model for RowRanges {
    ghost use Rattle.std.specs.Prelude.{◌≡◌, ℕ, List};
    ghost use Rattle.tabled_records.specs.Joined.{longest_range};

    ghost Value = { List (ℕ × ℕ) };

    ghost view = { λ r. r.ranges };

    ghost invariant = { λ r. r.columns ≡ longest_range r.ranges };
}

/// Returns the byte where a text begins, `gap` bytes after the end of the one before it, and its
/// end with its columns.
#[inline(always)]
fn bounds_of(ends: &Pairs, gap: usize, place: usize) -> (usize, (usize, usize))
    requires inside { place < length ends.now }
    requires fits { begin gap 0 ends.now place < 2 ^ 64 }
    ensures begin { result.0 ≡ begin gap 0 ends.now place }
    ensures end { result.1 ≡ slice_index_or ends.now place result.1 }
{
    if place == 0 {
        return (0, ends.at(place));
    }
    let before = place - 1;
    // The pair before a small one is small.
    if place < ends.small.len() {
        let first = ends.small[before].0 as usize;
        let (end, columns) = ends.small[place];
        return (first + gap, (end as usize, columns as usize));
    }
    (ends.at(before).0 + gap, ends.at(place))
}

/// Returns the text at an index, of texts that are parts of `whole`, `gap` bytes apart, with its
/// columns.
#[inline(always)]
pub(crate) fn text_at<'a>(
    whole: &'a str,
    ends: &Pairs,
    gap: usize,
    place: usize,
) -> (&'a str, usize)
    requires joined { AreJoined gap whole.now 0 ends.now }
    requires inside { place < length ends.now }
    ensures text { result.0.now ≡ slice_index_or (texts_from gap whole.now 0 ends.now) place [] }
    ensures columns { result.1 ≡ text_columns result.0.now }
{
    let (first, (end, columns)) = bounds_of(ends, gap, place);
    (&whole[first..end], columns)
}

impl RowRanges {
    /// Makes an empty list.
    pub fn new(alloc: Global) -> RowRanges
        ensures { result ≡ [] }
    {
        let ranges = Pairs::new(alloc);
        RowRanges { ranges, columns: 0 }
    }

    /// Returns the number of rows.
    #[inline(always)]
    pub fn len(&self) -> usize
        ensures { result ≡ length self.now }
    {
        self.ranges.len()
    }

    /// Returns the number of texts in the longest row.
    #[inline(always)]
    pub fn columns(&self) -> usize
        ensures { result ≡ longest_range self.now }
    {
        self.columns
    }

    /// Returns the range of a row.
    #[inline(always)]
    pub fn at(&self, row: usize) -> (usize, usize)
        requires { row < length self.now }
        ensures { result ≡ slice_index_or self.now row result }
    {
        self.ranges.at(row)
    }

    /// Adds a row. Error: `Memory`; the rows are unchanged then.
    #[inline(always)]
    pub fn push(&mut self, start: usize, count: usize) -> Result<(), TableError>
        ensures ok { OnOk result (self.new ≡ self.old ++ (start, count) ∷ []) }
        ensures err { OnErr result (self.new ≡ self.old) }
        ensures only { IfErr result (λ e. e ≡ Memory) }
    {
        self.ranges.push((start, count))?;
        self.columns = self.columns.max(count);
        Ok(())
    }

    /// Returns the text of a cell, its columns and its index among all texts; `None` if the cell
    /// only fills up its row. The texts are parts of `whole`, `gap` bytes apart.
    #[inline(always)]
    pub fn cell<'a>(
        &self,
        whole: &'a str,
        ends: &Pairs,
        gap: usize,
        at: Position,
    ) -> Option<(&'a str, usize, usize)>
        requires joined { AreJoined gap whole.now 0 ends.now }
        requires ranges { AreRanges (length ends.now) self.now }
        requires inside { IsInside (rows_in (texts_from gap whole.now 0 ends.now) self.now)
            at.row at.column }
        ensures { let texts = texts_from gap whole.now 0 ends.now in
            MatchOption result (cell_at (rows_in texts self.now) at.row at.column ≡ [])
            (λ cell. IsCell texts (cell_at (rows_in texts self.now) at.row at.column)
            cell.0.now cell.1 cell.2) }
    {
        let (start, count) = self.at(at.row);
        if at.column >= count {
            return None;
        }
        // The number of texts is a `usize`, and so each index is in range.
        let _count = ends.len();
        let place = start + at.column;
        let (text, columns) = text_at(whole, ends, gap, place);
        Some((text, columns, place))
    }
}
