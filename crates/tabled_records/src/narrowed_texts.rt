//! `NarrowedTexts`: what is known of the texts of rows that are narrowed to the widths of their
//! columns when they are read.
ghost use Rattle.std.specs.Prelude.{IfErr, IfNone, IfOk, IfSome, List, None, OnErr, OnOk, length};
ghost use Rattle.std.specs.Prelude.{slice_index_or, string_bytes, ℕ, ◌+◌, ◌<◌, ◌≡◌, ◌≤◌};
ghost use Rattle.tabled_base.specs.declared.error.TableError.TheVariants.{Memory};
ghost use Rattle.tabled_records.specs.NarrowedTexts.{AddsTold, AreKnown, IsNarrowed};
ghost use Rattle.tabled_text.specs.Measure.{lines_of, text_columns};

use crate::joined_records::{JoinedTexts, LentRows};
use crate::row_ranges::{Pairs, RowRanges};
use std::alloc::{AllocError, Global};
use tabled_base::{ExactRecords, Position, TableError};

/// A line as it is narrowed to n columns.
#[derive(Clone, Copy)]
pub(crate) enum Narrowed {
    /// It needn't be made: two numbers describe it, the second one at least 1.
    Told(usize, usize),
    /// It was made. The numbers are its columns and its lines.
    Made(usize, usize),
}

/// A way to narrow a line to n columns, at least 1.
pub(crate) trait Narrowing {
    // The narrowed line.
    ghost makes: { Self → ℕ → List ℕ → List ℕ };

    // Relates a line that needn't be made to two numbers that describe it.
    ghost tells: { Self → ℕ → List ℕ → ℕ × ℕ → Type 0 };

    /// Narrows a line, whose width is `columns`. If it has to be made, `out` is replaced by it.
    fn narrow(
        &self,
        out: &mut String,
        line: &str,
        columns: usize,
        n: usize,
    ) -> Result<Narrowed, AllocError>
        requires some { 0 < n }
        requires one { length (lines_of line.now) ≡ 1 }
        requires columns { columns ≡ text_columns line.now }
        ensures { IfOk result (IsNarrowed (Self.makes self.now) (Self.tells self.now) n line.now
            (string_bytes out.new)) };
}

/// What is known of the narrowed texts of rows.
#[derive(Debug, Drop)]
pub(crate) struct NarrowedTexts {
    /// Two numbers that describe each; or, if it had to be made, its index in `made` and 0.
    pub told: Pairs,
    /// Those that had to be made.
    pub made: JoinedTexts,
    /// The texts of each row.
    pub ranges: RowRanges,
}

impl NarrowedTexts {
    /// Returns the two numbers of a cell's text, or `None` if the cell only fills up its row.
    #[inline(always)]
    pub fn told(&self, at: Position) -> Option<(usize, usize)>
        requires row { at.row < length self.now.ranges }
        requires inside { (range : ℕ × ℕ) → (slice_index_or self.now.ranges at.row range).0
            + (slice_index_or self.now.ranges at.row range).1 ≤ length self.now.told }
        ensures some { IfSome result (λ told. (range other : ℕ × ℕ)
            → (at.column < (slice_index_or self.now.ranges at.row range).1)
            × (told ≡ slice_index_or self.now.told
            ((slice_index_or self.now.ranges at.row range).0 + at.column) other)) }
        ensures none { IfNone result ((range : ℕ × ℕ)
            → (slice_index_or self.now.ranges at.row range).1 ≤ at.column) }
    {
        let (start, count) = self.ranges.at(at.row);
        if at.column >= count {
            return None;
        }
        // The number of pairs is a `usize`, and so each index is in range.
        let _count = self.told.len();
        Some(self.told.at(start + at.column))
    }
}

/// Narrows the cells of rows, row after row.
#[derive(Drop)]
struct CellNarrower<'w, N> {
    narrowing: N,
    widths: &'w [Option<usize>],
    texts: NarrowedTexts,
    /// The last text that was made.
    out: String,
}

impl<'w, N: Narrowing> CellNarrower<'w, N> {
    /// Adds the text of a cell: one line, whose width is `columns`.
    fn push(&mut self, text: &str, columns: usize, width: Option<usize>) -> Result<(), AllocError>
        requires line { length (lines_of text.now) ≡ 1 }
        requires columns { columns ≡ text_columns text.now }
        ensures ok { let by = self.old.narrowing in OnOk result (AddsTold (N.makes by) (N.tells by)
            width text.now self.old.texts self.new.texts) }
        ensures narrowing { self.new.narrowing ≡ self.old.narrowing }
        ensures widths { self.new.widths ≡ self.old.widths }
        ensures ranges { self.new.texts.ranges ≡ self.old.texts.ranges }
    {
        let n = width.unwrap_or(0);
        if n == 0 {
            return self.texts.told.push((columns, 1));
        }
        let index = self.texts.made.len();
        match self.narrowing.narrow(&mut self.out, text, columns, n)? {
            Narrowed::Told(first, second) => self.texts.told.push((first, second)),
            Narrowed::Made(columns, lines) => {
                self.texts.made.push(self.out.as_str(), columns, lines)?;
                self.texts.told.push((index, 0))
            }
        }
    }

    /// Adds the cells of the next row.
    fn push_row(&mut self, rows: &LentRows<'_>, row: usize) -> Result<(), TableError>
        requires inside { row < length rows.now }
        requires next { row ≡ length self.old.texts.ranges }
        requires known { let by = self.old.narrowing in AreKnown (N.makes by) (N.tells by)
            self.old.widths.now rows.now self.old.texts }
        ensures known { let by = self.old.narrowing in OnOk result (AreKnown (N.makes by)
            (N.tells by) self.old.widths.now rows.now self.new.texts) }
        ensures next { OnOk result (length self.new.texts.ranges ≡ row + 1) }
        ensures narrowing { self.new.narrowing ≡ self.old.narrowing }
        ensures widths { self.new.widths ≡ self.old.widths }
        ensures only { IfErr result (λ e. e ≡ Memory) }
    {
        let start = self.texts.told.len();
        let count = rows.count_cells(row);
        'columns: for column in 0..count {
            let (text, columns) = rows.line(Position { row, column });
            self.push(text, columns, width_at(self.widths, column))?;
        }
        self.texts.ranges.push(start, count)
    }
}

/// Returns the width of a column, if it has one.
#[inline(always)]
pub(crate) fn width_at(widths: &[Option<usize>], column: usize) -> Option<usize>
    ensures { result ≡ slice_index_or widths.now column None }
{
    widths.get(column).copied().unwrap_or(None)
}

/// Returns what is known of the texts of rows that are narrowed to the widths of their columns.
pub(crate) fn narrowed_texts<N: Narrowing + Drop>(
    alloc: Global,
    narrowing: N,
    rows: &LentRows<'_>,
    widths: &[Option<usize>],
) -> Result<NarrowedTexts, TableError>
    ensures known { IfOk result (AreKnown (N.makes narrowing) (N.tells narrowing)
        widths.now rows.now) }
    ensures count { IfOk result (λ texts. length texts.ranges ≡ length rows.now) }
    ensures some { OnErr result (0 < length rows.now) }
    ensures only { IfErr result (λ e. e ≡ Memory) }
{
    let mut narrower = CellNarrower {
        narrowing,
        widths,
        texts: NarrowedTexts {
            told: Pairs::new(alloc),
            made: JoinedTexts::new(alloc),
            ranges: RowRanges::new(alloc),
        },
        out: String::new(alloc),
    };
    'rows: for row in 0..rows.count_rows() {
        narrower.push_row(rows, row)?;
    }
    Ok(narrower.texts)
}
