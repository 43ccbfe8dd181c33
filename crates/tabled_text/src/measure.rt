//! The columns and lines of a text, and an iterator over its lines.
ghost use Rattle.std.specs.Prelude.{◌≡◌, ◌*◌, ◌<◌, ◌≤◌, drop, length, map, IfSome, ◌∷◌};
ghost use Rattle.std.specs.Prelude.{slice_range, IsUtf8};
ghost use Rattle.std.specs.Int.{is_in_range};
ghost use Rattle.std.specs.List.{list_all};
ghost use Rattle.std.specs.Str.{IsCharBoundary};
ghost use Rattle.tabled_text.specs.Measure.{lines_of, line_columns, text_columns};
ghost use Rattle.std.specs.Iterator.{YieldsFirstBy, item_count};
ghost use Rattle.tabled_text.specs.Lines.{lines_in, lines_left};
ghost use Rattle.tabled_text.specs.FramedLines.{IsLine};
ghost use Rattle.tabled_text.specs.Runs.{EndsRun};

use crate::character::split_letter;
use crate::letters::{HALF_BLOCK, letter_columns, whole_columns};
use crate::runs::{BLOCK, is_run, run_end, split_at_byte};
use unicode_width::UnicodeWidthStr;

/// Returns the columns of a line, as `unicode_width` counts them. The text is taken as one line,
/// and line feeds are measured too.
pub fn line_width(line: &str) -> usize
    ensures value { result ≡ line_columns line.now }
    ensures bound { result ≤ 2 * length line.now }
{
    if is_printable(line) {
        return line.len();
    }
    mixed_width(line)
}

/// Returns the columns of a line that isn't printable ASCII alone.
fn mixed_width(line: &str) -> usize
    ensures value { result ≡ line_columns line.now }
    ensures bound { result ≤ 2 * length line.now }
{
    match letters_width(line) {
        Some(columns) => columns,
        None => line.width(),
    }
}

/// Returns the columns of a text: those of its widest line.
pub fn text_width(text: &str) -> usize
    ensures value { result ≡ text_columns text.now }
    ensures bound { result ≤ 2 * length text.now }
{
    text_measures(text).0
}

/// Returns the number of lines of a text: one more than its line feeds.
pub fn count_lines(text: &str) -> usize
    ensures { result ≡ length (lines_of text.now) }
{
    text.split('\n').count()
}

/// Whether a text is printable ASCII, and so one line with as many columns as bytes.
#[inline(always)]
pub(crate) fn is_printable(text: &str) -> bool
    ensures { result ≡ list_all (is_in_range 0x20 0x7E) text.now }
{
    is_run(text.as_bytes(), 0, b' ', b'~')
}

/// Returns the columns of the first line of a text, and the rest after its line feed, if it has
/// one. `run` is the end of the printable ASCII that the text begins with.
fn measure_line(text: &str, run: usize) -> (usize, Option<&str>)
    requires { EndsRun 0x20 0x7E text.now 0 run }
    ensures columns { map line_columns (lines_of text.now)
        ≡ result.0 ∷ map line_columns (lines_in result.1) }
    ensures bound { result.0 ≤ 2 * length text.now }
    ensures after { IfSome result.1 (λ after. IsUtf8 after.now
        × (length after.now < length text.now)) }
{
    let (line, after) = split_at_byte(text, run, b'\n');
    if line.len() == run {
        return (run, after);
    }
    (mixed_width(line), after)
}

/// Returns the columns and the number of lines of a text. `run` is the end of the printable ASCII
/// that it begins with.
#[inline(never)]
fn measures_of_lines(text: &str, run: usize) -> (usize, usize)
    requires { EndsRun 0x20 0x7E text.now 0 run }
    ensures columns { result.0 ≡ text_columns text.now }
    ensures lines { result.1 ≡ length (lines_of text.now) }
    ensures bound { result.0 ≤ 2 * length text.now }
{
    let mut widest: usize = 0;
    let mut count: usize = 1;
    let mut rest = text;
    let mut run = run;
    'lines: loop {
        let (columns, after) = measure_line(rest, run);
        widest = widest.max(columns);
        match after {
            None => return (widest, count),
            Some(next) => {
                run = run_end(next.as_bytes(), 0, b' ', b'~');
                rest = next;
                count += 1;
            }
        }
    }
}

/// Returns the columns and the number of lines of a text. Printable ASCII is measured fastest.
#[inline]
pub fn text_measures(text: &str) -> (usize, usize)
    ensures columns { result.0 ≡ text_columns text.now }
    ensures lines { result.1 ≡ length (lines_of text.now) }
    ensures bound { result.0 ≤ 2 * length text.now }
{
    let run = run_end(text.as_bytes(), 0, b' ', b'~');
    if run == text.len() {
        return (run, 1);
    }
    if text.as_bytes()[run] >= 0x80 {
        if let Some(columns) = letters_width(text) {
            return (columns, 1);
        }
    }
    measures_of_lines(text, run)
}

/// Returns the columns of the line from byte `start` on if it is letters alone and the text has a
/// block of bytes, else `None`.
fn tail_width(text: &str, start: usize) -> Option<usize>
    requires { IsCharBoundary text.now start }
    ensures { IfSome result (IsLine (drop start text.now)) }
{
    if text.len() < BLOCK {
        return None;
    }
    letter_columns(text.as_bytes(), start)
}

/// Returns the columns of the line between two byte offsets of a text.
pub fn columns_between(text: &str, start: usize, end: usize) -> usize
    requires ordered { start ≤ end }
    requires begins { IsCharBoundary text.now start }
    requires ends { IsCharBoundary text.now end }
    ensures { result ≡ line_columns (slice_range text.now start end) }
{
    let (front, _) = text.split_at(end);
    match tail_width(front, start) {
        Some(columns) => columns,
        None => mixed_width(&front[start..]),
    }
}

/// Returns the columns of a line of letters alone, or `None` if it has other characters.
fn letters_width(line: &str) -> Option<usize>
    ensures line { IfSome result (IsLine line.now) }
    ensures bound { IfSome result (λ columns. columns ≤ 2 * length line.now) }
{
    if line.len() < HALF_BLOCK {
        return few_letters_width(line);
    }
    whole_columns(line.as_bytes())
}

/// Returns the columns of a line of letters alone, which goes letter by letter, or `None` if it has
/// other characters.
fn few_letters_width(line: &str) -> Option<usize>
    ensures line { IfSome result (IsLine line.now) }
    ensures bound { IfSome result (λ columns. columns ≤ 2 * length line.now) }
{
    let mut rest = line;
    let mut columns = 0;
    'letters: while !rest.is_empty() {
        let (count, after) = split_letter(rest)?;
        columns += count;
        rest = after;
    }
    Some(columns)
}

/// An iterator over the lines of a text. `lines` returns it.
#[derive(Debug, Drop)]
pub struct TextLines<'a> {
    rest: Option<&'a str>,
}

/// Returns an iterator over the lines of a text, without their line feeds. The empty text has one
/// empty line.
pub fn lines(text: &str) -> TextLines<'_>
    ensures { lines_left result ≡ lines_of text.now }
{
    TextLines { rest: Some(text) }
}

/// Returns the first line of a text, and the rest after its line feed, if it has one.
pub(crate) fn split_line(text: &str) -> (&str, Option<&str>)
    ensures { lines_of text.now ≡ result.0.now ∷ lines_in result.1 }
{
    split_at_byte(text, 0, b'\n')
}

impl<'a> Iterator for TextLines<'a> {
    type Item = &'a str;

    ghost next_gives = { YieldsFirstBy (λ line. line.now) lines_left };

    ghost remaining = { item_count lines_left };

    fn next(&mut self) -> Option<&'a str> {
        let (line, rest) = split_line(self.rest?);
        self.rest = rest;
        Some(line)
    }
}
