//! `WrappedLentRows`: rows whose cells are wrapped to the widths of their columns when they are
//! read.
ghost use Rattle.std.specs.Prelude.{IfErr, IfNone, IfOk, IfSome, None, OnErr, OnOk, Some, [], false};
ghost use Rattle.std.specs.Prelude.{length, slice_index_or, string_bytes, ◌+◌, ◌<◌, ◌≡◌, ◌≤◌, ◌⊎◌, ℕ};
ghost use Rattle.tabled_base.specs.Content.{content_text};
ghost use Rattle.tabled_base.specs.declared.error.TableError.TheVariants.{Memory};
ghost use Rattle.tabled_records.specs.CutLentRows.{ArePrintable};
ghost use Rattle.tabled_base.specs.Printable.{IsPrintableAscii};
ghost use Rattle.tabled_records.specs.WrappedLentRows.{tells_wrapped, wrapped_cell, wrapped_rows, wraps};
ghost use Rattle.tabled_text.specs.Measure.{lines_of, text_columns};
ghost use Rattle.tabled_text.specs.declared.line_ends.LineEnds.TheVariants.{Bytes, Columns};

use crate::joined_records::LentRows;
use crate::narrowed_texts::{Narrowed, NarrowedTexts, Narrowing, narrowed_texts, width_at};
use std::alloc::{AllocError, Global};
use std::marker::Model;
use tabled_base::{Content, ContentRecords, ExactRecords, Position, TableError};
use tabled_text::{LineEnds, measures_by_bytes, measures_in_place, wrap_into};

/// Wraps each line to n columns. With `words`, words that fit on a line are kept whole.
#[derive(Clone, Copy, Drop)]
struct Wrapping {
    words: bool,
}

impl Narrowing for Wrapping {
    ghost makes = { λ by. wraps by.words };

    ghost tells = { λ by. tells_wrapped by.words };

    fn narrow(
        &self,
        out: &mut String,
        line: &str,
        columns: usize,
        n: usize,
    ) -> Result<Narrowed, AllocError> {
        if let Some((columns, lines)) = measures_in_place(line, columns, n, self.words) {
            return Ok(Narrowed::Told(columns, lines));
        }
        let (columns, lines) = wrap_into(out, line, n, self.words)?;
        Ok(Narrowed::Made(columns, lines))
    }
}

/// Rows that borrow a text. Each cell is wrapped to the width of its column when it is read: its
/// text is broken without a copy, and only that of other characters than letters, or of several
/// words that are kept whole, is made beforehand.
///
/// ```rust
/// let rows = text_rows(alloc, "Ada\t1815\nGrace\t1906\n")?;
/// let widths = vec![in alloc; Some(2), None]?;
/// let wrapped = WrappedLentRows::new(alloc, &rows, widths, false)?; // the first cell has 2 lines
/// ```
#[derive(Debug, Drop)]
pub struct WrappedLentRows<'r, 'a> {
    rows: &'r LentRows<'a>,
    // A column without a width isn't wrapped.
    widths: Vec<Option<usize>>,
    words: bool,
    // `None`: all cells are printable ASCII, and broken between any two bytes.
    texts: Option<NarrowedTexts>,
}

impl<'r, 'a> Model for WrappedLentRows<'r, 'a> {
    ghost use Rattle.std.specs.Prelude.{List, ℕ};
    ghost use Rattle.tabled_records.specs.WrappedLentRows.{IsKnown, wrapped_rows};

    ghost Value = { List (List (List ℕ)) };

    ghost view = { λ r. wrapped_rows r.words r.widths.items r.rows.now };

    ghost invariant = { λ r. IsKnown r.words r.widths.items r.rows.now r.texts };
}

/// Returns printable ASCII as it is wrapped to n columns.
#[inline(always)]
fn printable_content(text: &str, n: usize) -> Content<'_>
    requires { IsPrintableAscii text.now }
    ensures { content_text result ≡ wrapped_cell false (Some n) text.now }
{
    let bytes = text.len();
    if bytes <= n {
        return Content::measured(text, bytes, 1);
    }
    if n == 0 {
        return Content::measured("", 0, 1);
    }
    let (columns, lines) = measures_by_bytes(text, n);
    Content {
        text,
        ends: LineEnds::Bytes(n),
        columns,
        lines,
    }
}

/// Returns what ends the lines of a cell that is wrapped to n columns without a copy.
#[inline(always)]
fn ends_in(rows: &LentRows<'_>, n: usize) -> LineEnds
    ensures { (result ≡ Columns n) ⊎ ((result ≡ Bytes n) × ArePrintable rows.now) }
{
    if rows.is_printable() {
        LineEnds::Bytes(n)
    } else {
        LineEnds::Columns(n)
    }
}

impl<'r, 'a> WrappedLentRows<'r, 'a> {
    /// Wraps the cells of each column that has a width to that many columns. With `words`, words
    /// that fit on a line are kept whole. Error: `Memory`, unless there is no row.
    pub fn new(
        alloc: Global,
        rows: &'r LentRows<'a>,
        widths: Vec<Option<usize>>,
        words: bool,
    ) -> Result<WrappedLentRows<'r, 'a>, TableError>
        ensures ok { IfOk result (λ wrapped. wrapped ≡ wrapped_rows words widths.items rows.now) }
        ensures some { OnErr result (0 < length rows.now) }
        ensures only { IfErr result (λ e. e ≡ Memory) }
    {
        let texts = if rows.is_printable() && !words {
            None
        } else {
            Some(narrowed_texts(alloc, Wrapping { words }, rows, &widths)?)
        };
        Ok(WrappedLentRows {
            rows,
            widths,
            words,
            texts,
        })
    }
}

impl<'r, 'a> ExactRecords for WrappedLentRows<'r, 'a> {
    ghost cells = { λ r. r };

    #[inline(always)]
    fn count_rows(&self) -> usize {
        self.rows.count_rows()
    }

    #[inline(always)]
    fn count_columns(&self) -> usize {
        self.rows.count_columns()
    }
}

impl<'r, 'a> ContentRecords for WrappedLentRows<'r, 'a> {
    #[inline(always)]
    fn content(&self, at: Position) -> Content<'_> {
        let (text, columns) = self.rows.line(at);
        let Some(n) = width_at(&self.widths, at.column) else {
            return Content::measured(text, columns, 1);
        };
        let Some(texts) = &self.texts else {
            return printable_content(text, n);
        };
        let Some((first, lines)) = texts.told(at) else {
            return Content::measured("", 0, 1);
        };
        if n == 0 {
            return Content::measured("", 0, 1);
        }
        match lines {
            0 => texts.made.content(first),
            1 => Content::measured(text, columns, 1),
            _ => Content {
                text,
                ends: ends_in(self.rows, n),
                columns: first,
                lines,
            },
        }
    }

    #[inline(always)]
    fn content_columns(&self, at: Position) -> usize {
        self.content(at).columns
    }

    #[inline(always)]
    fn content_lines(&self, at: Position) -> usize {
        self.content(at).lines
    }
}
