//! What ends the lines of a text: line feeds, or a length at which a text is wrapped in place.
ghost use Rattle.std.specs.Prelude.{IfSome, false, length, true, ◌<◌, ◌≡◌};
ghost use Rattle.std.specs.List.{list_all};
ghost use Rattle.tabled_text.specs.Letters.{BeginsBy, IsLetter, is_letter_byte};
ghost use Rattle.tabled_text.specs.LineEnds.{AreEnds, IsFirstLine, IsWrappedInPlace, wrapped_text};
ghost use Rattle.tabled_text.specs.Measure.{lines_of, text_columns};
ghost use Rattle.tabled_text.specs.declared.line_ends.LineEnds.TheVariants.{Bytes, Columns, Feeds};

use crate::letters::split_letters;
use crate::measure::{line_width, split_line};
use crate::runs::{is_run, run_end};
use crate::wrap::{fits_bytes, is_letter_line};

/// What ends a line of a text. A text that is wrapped in place is read line by line with it, so no
/// wrapped copy has to be made.
///
/// ```rust
/// let (line, columns, rest) = first_line("a weir", LineEnds::Bytes(4)); // `a we`, 4 and `ir`
/// ```
#[derive(Clone, Copy, Debug, PartialEq, Eq)]
pub enum LineEnds {
    /// A line feed.
    Feeds,
    /// A number of bytes, at least 1. The text is printable ASCII.
    Bytes(usize),
    /// A number of columns, at least 1. The text passes `is_letter_text`. A letter that is wider
    /// than that is a line of U+FFFD.
    Columns(usize),
}

/// Returns the first line of a text whose lines end with line feeds. A line of printable ASCII is
/// read once.
#[inline(always)]
fn fed_line(text: &str) -> (&str, usize, Option<&str>)
    ensures { IsFirstLine Feeds text.now result.0.now result.1 result.2 }
{
    let bytes = text.as_bytes();
    let run = run_end(bytes, 0, b' ', b'~');
    if run == bytes.len() {
        return (text, run, None);
    }
    if bytes[run] == b'\n' {
        let (line, _) = text.split_at(run);
        let (_, rest) = text.split_at(run + 1);
        return (line, run, Some(rest));
    }
    let (line, rest) = split_line(text);
    (line, line_width(line), rest)
}

/// Returns the first line of printable ASCII whose lines end after n bytes.
#[inline(always)]
fn line_of_bytes(text: &str, n: usize) -> (&str, usize, Option<&str>)
    requires { AreEnds (Bytes n) text.now }
    ensures { IsFirstLine (Bytes n) text.now result.0.now result.1 result.2 }
{
    if text.len() <= n {
        return (text, text.len(), None);
    }
    let (line, rest) = text.split_at(n);
    (line, n, Some(rest))
}

/// Returns the columns of the first of some letters, and the others.
#[inline(always)]
fn split_known_letter(text: &str) -> (usize, &str)
    requires letters { list_all is_letter_byte text.now ≡ true }
    requires some { 0 < length text.now }
    ensures { BeginsBy (λ c. IsLetter c result.0) text.now result.1.now }
{
    let lead = text.as_bytes()[0];
    let (bytes, columns) = if lead < 0x80 {
        (1, 1)
    } else if lead < 0xE0 {
        (2, 1)
    } else {
        (3, 2)
    };
    let (_, after) = text.split_at(bytes);
    (columns, after)
}

/// Returns the first line of letters whose lines end after n columns.
#[inline(never)]
fn line_of_letters(text: &str, n: usize) -> (&str, usize, Option<&str>)
    requires { AreEnds (Columns n) text.now }
    ensures { IsFirstLine (Columns n) text.now result.0.now result.1 result.2 }
{
    let (_, mut columns, mut rest) = split_letters(text, n);
    'letters: while !rest.is_empty() {
        let (count, after) = split_known_letter(rest);
        if count > n - columns {
            if columns == 0 {
                return (
                    "\u{FFFD}",
                    1,
                    if after.is_empty() { None } else { Some(after) },
                );
            }
            let (line, _) = text.split_at(text.len() - rest.len());
            return (line, columns, Some(rest));
        }
        columns += count;
        rest = after;
    }
    (text, columns, None)
}

/// Returns the first line of a text, its width in columns, and the text after it, if it has more
/// lines.
#[inline(always)]
pub fn first_line(text: &str, ends: LineEnds) -> (&str, usize, Option<&str>)
    requires { AreEnds ends text.now }
    ensures { IsFirstLine ends text.now result.0.now result.1 result.2 }
{
    match ends {
        LineEnds::Feeds => fed_line(text),
        LineEnds::Bytes(n) => line_of_bytes(text, n),
        LineEnds::Columns(n) => line_of_letters(text, n),
    }
}

/// Returns the columns and the number of lines of printable ASCII of more than n bytes that is
/// wrapped to n columns.
#[inline(always)]
pub fn measures_by_bytes(text: &str, n: usize) -> (usize, usize)
    requires ends { AreEnds (Bytes n) text.now }
    requires more { n < length text.now }
    ensures columns { result.0 ≡ text_columns (wrapped_text n false text.now) }
    ensures lines { result.1 ≡ length (lines_of (wrapped_text n false text.now)) }
    ensures several { 1 < result.1 }
{
    (n, text.len().div_ceil(n))
}

/// Returns the columns and the number of lines of letters that are wrapped to n columns. Letters
/// wider than that are counted with n columns.
fn measures_by_columns(text: &str, n: usize) -> (usize, usize)
    requires { AreEnds (Columns n) text.now }
    ensures columns { result.0 ≡ text_columns (wrapped_text n false text.now) }
    ensures lines { result.1 ≡ length (lines_of (wrapped_text n false text.now)) }
{
    let mut widest: usize = 0;
    let mut count: usize = 1;
    let mut columns: usize = 0;
    let mut rest = text;
    'letters: while !rest.is_empty() {
        let (own, after) = split_known_letter(rest);
        let needed = own.min(n);
        if needed > n - columns {
            widest = widest.max(columns);
            count += 1;
            columns = 0;
        }
        columns += needed;
        rest = after;
    }
    (widest.max(columns), count)
}

/// Returns the columns and the number of lines of a text that is wrapped to n columns, if it
/// needn't be made: the text isn't changed, or its lines end after n columns. The text is one line,
/// whose width is `columns`.
pub fn measures_in_place(
    text: &str,
    columns: usize,
    n: usize,
    words: bool,
) -> Option<(usize, usize)>
    requires some { 0 < n }
    requires line { length (lines_of text.now) ≡ 1 }
    requires columns { columns ≡ text_columns text.now }
    ensures { IfSome result (λ told. IsWrappedInPlace n words text.now told.0 told.1) }
{
    if fits_bytes(text, n) {
        return Some((columns, 1));
    }
    let bytes = text.as_bytes();
    let first = if words { b'!' } else { b' ' };
    if is_run(bytes, 0, first, b'~') {
        return Some(measures_by_bytes(text, n));
    }
    if n < columns && words && !is_run(bytes, 0, b'!', u8::MAX) {
        return None;
    }
    if !is_letter_line(text) {
        return None;
    }
    if columns <= n {
        return Some((columns, 1));
    }
    let told = measures_by_columns(text, n);
    if told.1 == 1 { None } else { Some(told) }
}
