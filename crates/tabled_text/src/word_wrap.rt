//! Wraps texts to n columns between words. A line feed takes the place of the space at which a line
//! is broken.
ghost use Rattle.std.specs.Prelude.{◌≡◌, ◌<◌, ◌∷◌, IfOk, OnErr, OnOk, chars, encode_utf8_all};
ghost use Rattle.std.specs.Prelude.{false, length, string_bytes, true};
ghost use Rattle.tabled_text.specs.Breaking.{EachUnitFits, words_of};
ghost use Rattle.tabled_text.specs.Measure.{columns_of, lines_of, text_columns};
ghost use Rattle.tabled_text.specs.Walk.{append_all, used_after};
ghost use Rattle.tabled_text.specs.WordWalk.{first_needed, line_of_words, next_used, next_word};
ghost use Rattle.tabled_text.specs.WordWalk.{next_words, pending_words, word_at, word_lead};
ghost use Rattle.tabled_text.specs.WordWrap.{HasFewestWordLines, IsLeastWordBreaking};
ghost use Rattle.tabled_text.specs.WordWrap.{IsWordWrapped, word_units};

use crate::character::{char_count, split_first};
use crate::measure::{line_width, lines, text_measures};
use crate::sink::Sink;
use crate::wrap::{append_chars, append_word, fits_bytes, split_word};
use std::alloc::{AllocError, Global};

/// Returns the columns that a line needs for the beginning of a word: for the word, or for its
/// first character if the word is wider than n columns.
fn needed_columns(word: &str, width: usize, n: usize) -> usize
    requires some { 0 < n }
    requires width { width ≡ columns_of (chars word.now) }
    ensures { result ≡ first_needed n (word_units n (chars word.now)) }
{
    if width <= n {
        return width;
    }
    match split_first(word) {
        None => 0,
        Some((c, _)) => {
            let count = char_count(c);
            if count <= n { count } else { 1 }
        }
    }
}

/// Writes a space before a word, or a line feed if the line has no columns left for the beginning
/// of the word after a space. Returns the column at which the word begins.
fn begin_word<S: Sink>(out: &mut S, used: usize, n: usize, needed: usize) -> Result<usize, S::Error>
    ensures at { IfOk result (λ column. column ≡ word_at n used needed) }
    ensures text { OnOk result (S.adds out.old (word_lead n used needed) out.new) }
{
    if needed < n.saturating_sub(used) {
        out.append_char(' ')?;
        return Ok(used + 1);
    }
    out.append_char('\n')?;
    Ok(0)
}

/// Writes a word, or its characters if it is wider than n columns. Returns the columns then used.
fn append_whole<S: Sink>(
    out: &mut S,
    used: usize,
    n: usize,
    word: &str,
    width: usize,
) -> Result<usize, S::Error>
    requires some { 0 < n }
    requires width { width ≡ columns_of (chars word.now) }
    ensures used { IfOk result (λ column. column
        ≡ used_after n used (word_units n (chars word.now))) }
    ensures text { OnOk result (S.adds out.old
        (encode_utf8_all (append_all n used (word_units n (chars word.now)))) out.new) }
{
    if width <= n {
        append_word(out, used, n, word, width)
    } else {
        append_chars(out, used, n, word)
    }
}

/// Writes a word that isn't the first of its line. Returns the columns then used.
fn append_next_word<S: Sink>(
    out: &mut S,
    used: usize,
    n: usize,
    word: &str,
) -> Result<usize, S::Error>
    requires { 0 < n }
    ensures used { IfOk result (λ column. column
        ≡ next_used n used (word_units n (chars word.now))) }
    ensures text { OnOk result (S.adds out.old
        (encode_utf8_all (next_word n used (word_units n (chars word.now)))) out.new) }
{
    let width = line_width(word);
    let column = begin_word(out, used, n, needed_columns(word, width, n))?;
    append_whole(out, column, n, word, width)
}

/// Writes the words that follow the first of a line, each after a space or on a new line.
fn append_next_words<S: Sink>(
    out: &mut S,
    used: usize,
    n: usize,
    words: &str,
) -> Result<(), S::Error>
    requires { 0 < n }
    ensures { OnOk result (S.adds out.old
        (encode_utf8_all (next_words n used (words_of (chars words.now)))) out.new) }
{
    let mut column = used;
    let mut rest = words;
    'words: loop {
        let (word, after) = split_word(rest);
        column = append_next_word(out, column, n, word)?;
        match after {
            None => return Ok(()),
            Some(next) => rest = next,
        }
    }
}

/// Writes the words of a line.
fn append_line_of_words<S: Sink>(out: &mut S, n: usize, line: &str) -> Result<(), S::Error>
    requires { 0 < n }
    ensures { OnOk result (S.adds out.old
        (encode_utf8_all (line_of_words n (words_of (chars line.now)))) out.new) }
{
    let (word, after) = split_word(line);
    let column = append_whole(out, 0, n, word, line_width(word))?;
    match after {
        None => Ok(()),
        Some(next) => append_next_words(out, column, n, next),
    }
}

/// Writes the lines of a text, each broken to n columns.
fn append_lines_of_words<S: Sink>(out: &mut S, n: usize, text: &str) -> Result<(), S::Error>
    requires { 0 < n }
    ensures { OnOk result (S.adds out.old
        (encode_utf8_all (pending_words n false (lines_of (chars text.now)))) out.new) }
{
    let mut begun = false;
    for line in lines(text) {
        if begun {
            out.append_char('\n')?;
        }
        begun = true;
        append_line_of_words(out, n, line)?;
    }
    Ok(())
}

/// Wraps a text to lines of at most n columns between words, and drops the space at which a line is
/// broken. Returns an empty text if n is 0.
///
/// A line is broken in place of a space, of which one is dropped, or between the characters of a
/// word that is wider than n columns. Each line takes words while they fit. Words are measured as
/// lines, and the characters of wider words each as its own columns, at least 1. A character wider
/// than n columns is replaced by U+FFFD in the columns left, at least one. No other such breaking
/// has fewer lines.
///
/// Fails only if an allocation fails. Nothing is allocated if n is 0 or the text is empty.
///
/// ```rust
/// let wrapped = wrap_words(alloc, "over the weir", 8)?; // `over the` and `weir`
/// ```
pub fn wrap_words(alloc: Global, text: &str, n: usize) -> Result<String, AllocError>
    ensures wrapped { IfOk result (λ answer. IsWordWrapped n text.now (string_bytes answer)) }
    ensures fewest { IfOk result (λ answer. HasFewestWordLines n text.now (string_bytes answer)) }
    ensures least { 0 < n → EachUnitFits n true text.now
        → IfOk result (λ answer. IsLeastWordBreaking n text.now (string_bytes answer)) }
    ensures memory { OnErr result ((0 < n) × (0 < length text.now)) }
{
    let mut out = String::new(alloc);
    wrap_words_into(&mut out, text, n)?;
    Ok(out)
}

/// Replaces `out` by a text wrapped to lines of at most n columns, as `wrap_words` returns it.
/// Returns the columns and the number of lines of `out`.
pub fn wrap_words_into(out: &mut String, text: &str, n: usize) -> Result<(usize, usize), AllocError>
    ensures wrapped { OnOk result (IsWordWrapped n text.now (string_bytes out.new)) }
    ensures columns { IfOk result (λ answer. answer.0 ≡ text_columns (string_bytes out.new)) }
    ensures lines { IfOk result (λ answer. answer.1 ≡ length (lines_of (string_bytes out.new))) }
    ensures memory { OnErr result ((0 < n) × (0 < length text.now)) }
{
    out.clear();
    if n == 0 || text.is_empty() {
        return Ok((0, 1));
    }
    if fits_bytes(text, n) {
        out.push_str(text)?;
        return Ok(text_measures(out.as_str()));
    }
    out.reserve_exact(text.len())?;
    append_lines_of_words(out, n, text)?;
    Ok(text_measures(out.as_str()))
}
