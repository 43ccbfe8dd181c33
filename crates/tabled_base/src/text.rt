//! `Text`, a string with its width and number of lines, and `ShortOr`, a string that is stored
//! inline if it is short.
ghost use Rattle.std.specs.Cmp.{partial_equiv_from_equiv};
ghost use Rattle.std.specs.Cmp.Lexicographic.{nat_list_eq_equiv, pointwise};
ghost use Rattle.std.specs.Prelude.{IfErr, IfOk, List, length, nat_eq, string_bytes, take, ℕ, ◌++◌};
ghost use Rattle.std.specs.Prelude.{◌+◌, ◌-◌, ◌<◌, ◌^◌, ◌≡◌, ◌≤◌, min};
ghost use Rattle.std.specs.Str.{IsCharBoundary};
ghost use Rattle.tabled_base.specs.Printable.{IsPrintableAscii};
ghost use Rattle.tabled_base.specs.ShortOr.{FitsBehind, IsMeasured, bytes_of};
ghost use Rattle.tabled_base.specs.ShortOr.{columns_in, lines_in};
ghost use Rattle.tabled_text.specs.Measure.{lines_of, text_columns};
ghost use Rattle.tabled_base.specs.declared.error.TableError.TheVariants.{Memory};

use crate::error::TableError;
use crate::records::CellText;
use arrayvec::ArrayString;
use std::alloc::{AllocError, Global};
use std::convert::AsStr;
use std::fmt;
use std::marker::Model;
use tabled_text::{count_lines, text_measures, text_width};

/// A string with its width in columns and its number of lines, both measured once. `Text<String>`
/// owns it, `Text<&str>` borrows it. `new`, `copied` and `copied_printable` store strings of at
/// most 16 bytes inline. More than 4,294,967,294 columns or 65,534 lines are measured whenever they
/// are asked for.
#[derive(Debug, Drop)]
pub struct Text<S: AsStr> {
    text: ShortOr<S>,
}

impl<S: AsStr> Model for Text<S> {
    ghost use Rattle.std.specs.Prelude.{ℕ, List};
    ghost use Rattle.tabled_base.specs.ShortOr.{IsMeasured, bytes_of};

    ghost Value = { List ℕ };

    ghost view = { λ t. bytes_of S.text t.text };

    ghost invariant = { λ t. IsMeasured (bytes_of S.text t.text) t.text };
}

impl<S: AsStr + Drop> Text<S> {
    /// Measures a text. If it has at most 16 bytes, a copy is stored inline and `text` is dropped.
    pub fn new(text: S) -> Self
        ensures { result ≡ S.text text }
    {
        Text {
            text: ShortOr::kept(text),
        }
    }
}

impl<S: AsStr> CellText for Text<S> {
    ghost text = { λ t. t };

    #[inline(always)]
    fn text(&self) -> &str {
        self.text.as_str()
    }

    #[inline(always)]
    fn width(&self) -> usize {
        let columns = self.text.columns();
        if columns < u32::MAX {
            columns as usize
        } else {
            many_columns(self.text())
        }
    }

    #[inline(always)]
    fn count_lines(&self) -> usize {
        let lines = self.text.lines();
        if lines < u16::MAX {
            lines as usize
        } else {
            many_lines(self.text())
        }
    }
}

/// Measures a text of more columns than 32 bits hold. As a function of its own it keeps `width`
/// short.
#[inline(never)]
fn many_columns(text: &str) -> usize
    ensures { result ≡ text_columns text.now }
{
    text_width(text)
}

/// Counts the lines of a text that has more than 16 bits hold.
#[inline(never)]
fn many_lines(text: &str) -> usize
    ensures { result ≡ length (lines_of text.now) }
{
    count_lines(text)
}

impl Text<String> {
    /// Truncates the text to `bytes` bytes and appends an ending. A nonempty ending must leave at
    /// most 16 bytes in all.
    pub(crate) fn shorten(&mut self, bytes: usize, ending: &str)
        requires boundary { IsCharBoundary self.old bytes }
        requires fits { FitsBehind bytes ending.now }
        ensures { self.new ≡ take bytes self.old ++ ending.now }
    {
        if ending.is_empty() {
            self.text.shorten(bytes);
        } else {
            self.text.end_with(bytes, ending);
        }
        self.text.measure();
    }

    /// Copies and measures a text. Texts of at most 16 bytes are stored inline, so only a longer
    /// one may fail with `Memory`.
    #[inline(always)]
    pub fn copied(alloc: Global, text: &str) -> Result<Text<String>, TableError>
        ensures ok { IfOk result (λ copy. copy ≡ text.now) }
        ensures only { IfErr result (λ e. e ≡ Memory) }
        ensures long { IfErr result (λ _. SHORT_TEXT < length text.now) }
    {
        let (columns, lines) = noted(text_measures(text));
        Ok(Text {
            text: ShortOr::copied(alloc, text, columns, lines)?,
        })
    }

    /// Copies a text of printable ASCII, as `copied` does, without measuring it.
    #[inline(always)]
    pub fn copied_printable(alloc: Global, text: &str) -> Result<Text<String>, TableError>
        requires { IsPrintableAscii text.now }
        ensures ok { IfOk result (λ copy. copy ≡ text.now) }
        ensures only { IfErr result (λ e. e ≡ Memory) }
        ensures long { IfErr result (λ _. SHORT_TEXT < length text.now) }
    {
        let (columns, lines) = noted(printable_measures(text));
        Ok(Text {
            text: ShortOr::copied(alloc, text, columns, lines)?,
        })
    }

    /// Returns a copy. Texts of at most 16 bytes are stored inline, so only a longer one may fail
    /// with `Memory`.
    pub fn clone(&self) -> Result<Text<String>, TableError>
        ensures ok { IfOk result (λ copy. copy ≡ self.now) }
        ensures only { IfErr result (λ e. e ≡ Memory) }
        ensures long { IfErr result (λ _. SHORT_TEXT < length self.now) }
    {
        Ok(Text {
            text: self.text.clone()?,
        })
    }
}

/// Returns the measures of a text of printable ASCII: a column for each byte, and one line.
#[inline(always)]
fn printable_measures(text: &str) -> (usize, usize)
    requires { IsPrintableAscii text.now }
    ensures columns { result.0 ≡ text_columns text.now }
    ensures lines { result.1 ≡ length (lines_of text.now) }
{
    (text.len(), 1)
}

/// Returns columns and lines in 32 and 16 bits. One that doesn't fit is the greatest number of its
/// bits.
#[inline(always)]
fn noted(measures: (usize, usize)) -> (u32, u16)
    ensures columns { result.0 ≡ min measures.0 (2 ^ 32 - 1) }
    ensures lines { result.1 ≡ min measures.1 (2 ^ 16 - 1) }
{
    const MOST_COLUMNS: usize = u32::MAX as usize;
    const MOST_LINES: usize = u16::MAX as usize;
    let (columns, lines) = measures;
    (
        columns.min(MOST_COLUMNS) as u32,
        lines.min(MOST_LINES) as u16,
    )
}

impl<S: AsStr> PartialEq for Text<S> {
    ghost eq = { pointwise nat_eq };

    ghost laws = { partial_equiv_from_equiv nat_list_eq_equiv };

    fn eq(&self, other: &Text<S>) -> bool {
        self.text() == other.text()
    }
}

impl<S: AsStr> Eq for Text<S> {
    ghost laws = { nat_list_eq_equiv };
}

/// The most bytes of a string that is stored inline. With its length it is as large as a `String`.
pub const SHORT_TEXT: usize = 16;

/// A string that is stored inline, or one of another type, with its measures as `noted` returns
/// them. The measures fill the space beside the tag, so that it has 32 bytes.
#[derive(Drop)]
pub(crate) enum ShortOr<S> {
    Short {
        lines: u16,
        columns: u32,
        text: ArrayString<SHORT_TEXT>,
    },
    Other {
        lines: u16,
        columns: u32,
        text: S,
    },
}

impl<S> ShortOr<S> {
    /// Returns the columns.
    #[inline(always)]
    fn columns(&self) -> u32
        ensures { result ≡ columns_in self.now }
    {
        match self {
            ShortOr::Short { columns, .. } => *columns,
            ShortOr::Other { columns, .. } => *columns,
        }
    }

    /// Returns the number of lines.
    #[inline(always)]
    fn lines(&self) -> u16
        ensures { result ≡ lines_in self.now }
    {
        match self {
            ShortOr::Short { lines, .. } => *lines,
            ShortOr::Other { lines, .. } => *lines,
        }
    }
}

impl<S: AsStr> ShortOr<S> {
    /// Returns the text.
    #[inline(always)]
    pub fn as_str(&self) -> &str
        ensures { result.now ≡ bytes_of S.text self.now }
    {
        match self {
            ShortOr::Short { text, .. } => text.as_str(),
            ShortOr::Other { text, .. } => text.as_str(),
        }
    }

    /// Measures the text anew.
    fn measure(&mut self)
        ensures text { bytes_of S.text self.new ≡ bytes_of S.text self.old }
        ensures measured { IsMeasured (bytes_of S.text self.old) self.new }
    {
        let (new_columns, new_lines) = noted(text_measures(self.as_str()));
        match self {
            ShortOr::Short { lines, columns, .. } => {
                *columns = new_columns;
                *lines = new_lines;
            }
            ShortOr::Other { lines, columns, .. } => {
                *columns = new_columns;
                *lines = new_lines;
            }
        }
    }
}

impl<S: AsStr + Drop> ShortOr<S> {
    /// Truncates the text to `bytes` bytes and appends an ending. The result is stored inline. It
    /// isn't measured.
    pub fn end_with(&mut self, bytes: usize, ending: &str)
        requires boundary { IsCharBoundary (bytes_of S.text self.old) bytes }
        requires few { bytes + length ending.now ≤ SHORT_TEXT }
        ensures { bytes_of S.text self.new ≡ take bytes (bytes_of S.text self.old) ++ ending.now }
    {
        let (front, _) = self.as_str().split_at(bytes);
        let mut text = ArrayString::new();
        text.push_str(front);
        text.push_str(ending);
        *self = ShortOr::Short {
            lines: 0,
            columns: 0,
            text,
        };
    }

    /// Measures a text. Stores a short one inline and drops `text`. Stores any other as it is.
    pub fn kept(text: S) -> ShortOr<S>
        ensures text { bytes_of S.text result ≡ S.text text }
        ensures measured { IsMeasured (S.text text) result }
    {
        let (columns, lines) = noted(text_measures(text.as_str()));
        match ArrayString::from(text.as_str()) {
            Ok(text) => ShortOr::Short {
                lines,
                columns,
                text,
            },
            Err(_) => ShortOr::Other {
                lines,
                columns,
                text,
            },
        }
    }
}

impl ShortOr<String> {
    /// Truncates the text to `length` bytes. Never allocates. The result isn't measured.
    pub fn shorten(&mut self, length: usize)
        requires { IsCharBoundary (bytes_of string_bytes self.old) length }
        ensures { bytes_of string_bytes self.new ≡ take length (bytes_of string_bytes self.old) }
    {
        match self {
            ShortOr::Short { text, .. } => text.truncate(length),
            ShortOr::Other { text, .. } => text.truncate(length),
        }
    }

    /// Copies a text with its measures. Allocates only if it has more than 16 bytes, and may then
    /// fail with `Memory`.
    #[inline(always)]
    pub fn copied(
        alloc: Global,
        text: &str,
        columns: u32,
        lines: u16,
    ) -> Result<ShortOr<String>, AllocError>
        ensures ok { IfOk result (λ copy. bytes_of string_bytes copy ≡ text.now) }
        ensures measures { IfOk result (λ copy. (columns_in copy ≡ columns) × (lines_in copy ≡ lines)) }
        ensures long { IfErr result (λ _. SHORT_TEXT < length text.now) }
    {
        match ArrayString::from(text) {
            Ok(text) => Ok(ShortOr::Short {
                lines,
                columns,
                text,
            }),
            Err(_) => Ok(ShortOr::Other {
                lines,
                columns,
                text: String::from_str(alloc, text)?,
            }),
        }
    }

    /// Returns a copy. Allocates only if the text has more than 16 bytes, and may then fail with
    /// `Memory`.
    pub fn clone(&self) -> Result<ShortOr<String>, AllocError>
        ensures ok { IfOk result (λ copy.
            bytes_of string_bytes copy ≡ bytes_of string_bytes self.now) }
        ensures measures { IfOk result (λ copy. (columns_in copy ≡ columns_in self.now)
            × (lines_in copy ≡ lines_in self.now)) }
        ensures long { IfErr result (λ _. SHORT_TEXT < length (bytes_of string_bytes self.now)) }
    {
        match self {
            ShortOr::Short {
                lines,
                columns,
                text,
            } => Ok(ShortOr::Short {
                lines: *lines,
                columns: *columns,
                text: *text,
            }),
            ShortOr::Other {
                lines,
                columns,
                text,
            } => ShortOr::copied(*text.allocator(), text.as_str(), *columns, *lines),
        }
    }
}

impl<S: AsStr> fmt::Debug for ShortOr<S> {
    fn fmt<W: fmt::Write>(&self, f: &mut fmt::Formatter<W>) -> fmt::Result {
        fmt::Debug::fmt(&self.as_str(), f)
    }
}
