//! `CutLentRows`: rows whose cells are cut to the widths of their columns when they are read.
ghost use Rattle.std.specs.Prelude.{IfErr, IfOk, IfSome, OnErr, OnOk, length, string_bytes, ◌<◌};
ghost use Rattle.std.specs.Prelude.{◌≡◌};
ghost use Rattle.tabled_base.specs.declared.error.TableError.TheVariants.{Memory};
ghost use Rattle.tabled_records.specs.CutLentRows.{cut_rows, cuts, tells_cut};
ghost use Rattle.tabled_base.specs.Printable.{IsPrintableAscii};
ghost use Rattle.tabled_text.specs.Cut.{cut_text};
ghost use Rattle.tabled_text.specs.Measure.{lines_of, text_columns};

use crate::joined_records::LentRows;
use crate::narrowed_texts::{Narrowed, NarrowedTexts, Narrowing, narrowed_texts, width_at};
use std::alloc::{AllocError, Global};
use std::marker::Model;
use tabled_base::{ExactRecords, PeekableRecords, Position, TableError};
use tabled_text::{append_cut, cut_letters, text_width};

/// Cuts each line that is wider than n columns.
#[derive(Clone, Copy, Drop)]
struct Cutting;

impl Narrowing for Cutting {
    ghost makes = { λ _. cuts };

    ghost tells = { λ _. tells_cut };

    fn narrow(
        &self,
        out: &mut String,
        line: &str,
        columns: usize,
        n: usize,
    ) -> Result<Narrowed, AllocError> {
        if columns <= n {
            return Ok(Narrowed::Told(0, 1));
        }
        match cut_letters(line, n) {
            Some((bytes, false)) => Ok(Narrowed::Told(bytes, 1)),
            Some((bytes, true)) => {
                // U+FFFD alone is left.
                if bytes == 0 {
                    return Ok(Narrowed::Told(0, 2));
                }
                out.clear();
                out.push_str(&line[..bytes])?;
                out.push('\u{FFFD}')?;
                Ok(Narrowed::Made(n, 1))
            }
            None => {
                out.clear();
                append_cut(out, line, n)?;
                Ok(Narrowed::Made(text_width(out.as_str()), 1))
            }
        }
    }
}

/// Rows that borrow a text. Each cell that is wider than its column is cut to it when it is read,
/// as `cut_str` does: its text isn't copied, or is U+FFFD alone. Only letters that U+FFFD follows,
/// and a text of other characters, are made beforehand.
///
/// ```rust
/// let rows = text_rows(alloc, "Ada\t1815\nGrace\t1906\n")?;
/// let widths = vec![in alloc; Some(2), None]?;
/// let cut = CutLentRows::new(alloc, &rows, widths)?; // the first row's cells are `Ad` and `1815`
/// ```
#[derive(Debug, Drop)]
pub struct CutLentRows<'r, 'a> {
    rows: &'r LentRows<'a>,
    // A column without a width isn't cut.
    widths: Vec<Option<usize>>,
    // `None`: all cells are printable ASCII.
    texts: Option<NarrowedTexts>,
}

impl<'r, 'a> Model for CutLentRows<'r, 'a> {
    ghost use Rattle.std.specs.Prelude.{List, ℕ};
    ghost use Rattle.tabled_records.specs.CutLentRows.{IsCutKnown, cut_rows};

    ghost Value = { List (List (List ℕ)) };

    ghost view = { λ r. cut_rows r.widths.items r.rows.now };

    ghost invariant = { λ r. IsCutKnown r.widths.items r.rows.now r.texts };
}

impl<'r, 'a> CutLentRows<'r, 'a> {
    /// Cuts the cells of each column that has a width to that many columns. Error: `Memory`, unless
    /// there is no row.
    pub fn new(
        alloc: Global,
        rows: &'r LentRows<'a>,
        widths: Vec<Option<usize>>,
    ) -> Result<CutLentRows<'r, 'a>, TableError>
        ensures ok { IfOk result (λ cut. cut ≡ cut_rows widths.items rows.now) }
        ensures some { OnErr result (0 < length rows.now) }
        ensures only { IfErr result (λ e. e ≡ Memory) }
    {
        let texts = if rows.is_printable() {
            None
        } else {
            Some(narrowed_texts(alloc, Cutting, rows, &widths)?)
        };
        Ok(CutLentRows {
            rows,
            widths,
            texts,
        })
    }
}

impl<'r, 'a> ExactRecords for CutLentRows<'r, 'a> {
    ghost cells = { λ r. r };

    #[inline(always)]
    fn count_rows(&self) -> usize {
        self.rows.count_rows()
    }

    #[inline(always)]
    fn count_columns(&self) -> usize {
        self.rows.count_columns()
    }
}

impl<'r, 'a> PeekableRecords for CutLentRows<'r, 'a> {
    #[inline(always)]
    fn get_text(&self, at: Position) -> &str {
        self.get_measured(at).0
    }

    #[inline(always)]
    fn get_width(&self, at: Position) -> usize {
        self.get_measured(at).1
    }

    // No cell has a line feed.
    #[inline(always)]
    fn count_lines(&self, _: Position) -> usize {
        self.rows.are_texts();
        1
    }

    #[inline(always)]
    fn get_measured(&self, at: Position) -> (&str, usize, usize) {
        self.rows.are_texts();
        let (text, columns) = self.rows.line(at);
        let Some(n) = width_at(&self.widths, at.column) else {
            return (text, columns, 1);
        };
        if columns <= n {
            return (text, columns, 1);
        }
        let Some(texts) = &self.texts else {
            return (&text[..n], n, 1);
        };
        if n == 0 {
            return ("", 0, 1);
        }
        let Some((first, kept)) = texts.told(at) else {
            unreachable!()
        };
        if kept == 0 {
            let (text, columns) = texts.made.text(first);
            return (text, columns, 1);
        }
        if kept == 1 {
            return (&text[..first], n, 1);
        }
        ("\u{FFFD}", n, 1)
    }
}
