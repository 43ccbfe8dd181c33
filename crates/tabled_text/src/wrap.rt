//! Wraps texts to n columns. One walk writes unit after unit to a `Sink`.
ghost use Rattle.std.specs.Prelude.{◌≡◌, Bool, nat_le, ◌<◌, ◌≤◌, ◌+◌, ◌-◌, slice_index, ◌∷◌, chars};
ghost use Rattle.std.specs.Prelude.{encode_utf8_all, length, map, IfOk, OnOk, IfSome, IsUtf8};
ghost use Rattle.std.specs.Prelude.{string_bytes, OnErr, [], false, true, ℕ};
ghost use Rattle.std.specs.Int.{is_in_range};
ghost use Rattle.std.specs.List.{list_all};
ghost use Rattle.tabled_text.specs.Cut.{IsCut, NeedsFill};
ghost use Rattle.tabled_text.specs.Measure.{char_count, lines_of, text_columns};
ghost use Rattle.tabled_text.specs.Letters.{is_letter_byte};
ghost use Rattle.tabled_text.specs.Breaking.{unit_of_char, words_of, units, units_of_word};
ghost use Rattle.tabled_text.specs.Breaking.{units_of_words, EachUnitFits, HasFewestLines};
ghost use Rattle.tabled_text.specs.Breaking.{IsLeastBreaking};
ghost use Rattle.tabled_text.specs.LineEnds.{wrapped_text};
ghost use Rattle.tabled_text.specs.Wrapping.{IsWrapped};
ghost use Rattle.tabled_text.specs.Walk.{BreaksAt, words_in, begin_at, begin_text, append_text};
ghost use Rattle.tabled_text.specs.Walk.{append_used, append_all, used_after, pending};
ghost use Rattle.tabled_text.specs.Walk.{written_line, IsLetterLine};

use crate::character::{char_count, split_count, split_first, split_piece};
use crate::letters::{HALF_BLOCK, is_letter_text, whole_columns};
use crate::measure::{is_printable, line_width, lines, text_measures};
use crate::runs::{is_run, split_at_byte};
use crate::sink::{Sink, append_copies};
use std::alloc::{AllocError, Global};

/// Returns the column at which a unit of `needed` columns begins. Begins a new line if the current
/// one has fewer columns left.
fn begin<S: Sink>(out: &mut S, used: usize, n: usize, needed: usize) -> Result<usize, S::Error>
    ensures at { IfOk result (λ column. column ≡ begin_at n used needed) }
    ensures text { OnOk result (S.adds out.old (begin_text n used needed) out.new) }
{
    if used <= n && needed <= n - used {
        return Ok(used);
    }
    out.append_char('\n')?;
    Ok(0)
}

/// Writes a word, and returns the columns then used.
pub(crate) fn append_word<S: Sink>(
    out: &mut S,
    used: usize,
    n: usize,
    word: &str,
    width: usize,
) -> Result<usize, S::Error>
    requires { width ≤ n }
    ensures used { IfOk result (λ column.
        column ≡ append_used n used (record { text = chars word.now; width = width })) }
    ensures text { OnOk result (S.adds out.old (encode_utf8_all (append_text n used
        (record { text = chars word.now; width = width }))) out.new) }
{
    let column = begin(out, used, n, width)?;
    out.append_str(word)?;
    Ok(column + width)
}

/// Writes a character, and returns the columns then used. If it is wider than n, writes U+FFFD in
/// the columns left; the line is then full.
#[inline(always)]
fn append_char<S: Sink>(out: &mut S, used: usize, n: usize, c: char) -> Result<usize, S::Error>
    requires { 0 < n }
    ensures used { IfOk result (λ column. column ≡ append_used n used (unit_of_char c)) }
    ensures text { OnOk result (S.adds out.old
        (encode_utf8_all (append_text n used (unit_of_char c))) out.new) }
{
    let count = char_count(c);
    if count <= n {
        let column = begin(out, used, n, count)?;
        out.append_char(c)?;
        return Ok(column + count);
    }
    let column = begin(out, used, n, 1)?;
    append_copies(out, '\u{FFFD}', n - column)?;
    Ok(column + count)
}

/// Writes the characters of a text, those of a line at once, and returns the columns then used.
pub(crate) fn append_chars<S: Sink>(
    out: &mut S,
    used: usize,
    n: usize,
    text: &str,
) -> Result<usize, S::Error>
    requires { 0 < n }
    ensures used { IfOk result (λ column. column
        ≡ used_after n used (map unit_of_char (chars text.now))) }
    ensures text { OnOk result (S.adds out.old
        (encode_utf8_all (append_all n used (map unit_of_char (chars text.now)))) out.new) }
{
    let mut column = used;
    let mut rest = text;
    'pieces: loop {
        let (piece, columns, after) = split_piece(rest, n.saturating_sub(column));
        out.append_str(piece)?;
        column += columns;
        match split_first(after) {
            None => return Ok(column),
            Some((c, next)) => {
                column = append_char(out, column, n, c)?;
                rest = next;
            }
        }
    }
}

/// Writes a word, or its characters if it is wider than n columns. Returns the columns then used.
fn append_unit<S: Sink>(out: &mut S, used: usize, n: usize, word: &str) -> Result<usize, S::Error>
    requires { 0 < n }
    ensures used { IfOk result (λ column. column
        ≡ used_after n used (units_of_word n (chars word.now))) }
    ensures text { OnOk result (S.adds out.old
        (encode_utf8_all (append_all n used (units_of_word n (chars word.now)))) out.new) }
{
    if word.is_empty() {
        return Ok(used);
    }
    let width = line_width(word);
    if width <= n {
        append_word(out, used, n, word, width)
    } else {
        append_chars(out, used, n, word)
    }
}

/// Returns the first word of a line, and the rest after its space, if it has one.
pub(crate) fn split_word(text: &str) -> (&str, Option<&str>)
    ensures words { words_of (chars text.now) ≡ chars result.0.now ∷ words_in result.1 }
    ensures word { IsUtf8 result.0.now }
    ensures after { IfSome result.1 (λ after. IsUtf8 after.now
        × (length after.now < length text.now)) }
{
    split_at_byte(text, 0, b' ')
}

/// Writes the words of a line and the spaces between them.
fn append_words<S: Sink>(out: &mut S, n: usize, line: &str) -> Result<(), S::Error>
    requires { 0 < n }
    ensures { OnOk result (S.adds out.old
        (encode_utf8_all (append_all n 0 (units_of_words n (words_of (chars line.now))))) out.new) }
{
    let mut column = 0;
    let mut rest = line;
    'words: loop {
        let (word, after) = split_word(rest);
        column = append_unit(out, column, n, word)?;
        match after {
            None => return Ok(()),
            Some(next) => {
                column = append_word(out, column, n, " ", 1)?;
                rest = next;
            }
        }
    }
}

/// Returns the index after the last space before `end`, or 0 if there is none.
fn after_space(bytes: &[u8], end: usize) -> usize
    requires { end ≤ length bytes.now }
    ensures within { result ≤ end }
    ensures space { 0 < result → slice_index bytes.now (result - 1) ≡ 32 }
    ensures none { (k : ℕ) → result ≤ k → k < end → slice_index bytes.now k ≡ 32 → ⊥ }
{
    let mut at = end;
    'bytes: while at > 0 && bytes[at - 1] != b' ' {
        at -= 1;
    }
    at
}

/// Returns where the first of several lines of printable ASCII ends. With `words`, that is before
/// the word that would pass n columns, unless it is wider than that.
#[inline(always)]
fn line_end(line: &str, n: usize, words: bool) -> usize
    requires some { 0 < n }
    requires more { n < length line.now }
    requires printable { list_all (is_in_range 0x20 0x7E) line.now ≡ true }
    ensures { BreaksAt n words line.now result }
{
    if !words {
        return n;
    }
    let bytes = line.as_bytes();
    let next = bytes[n];
    if next == b' ' {
        return n;
    }
    let at = after_space(bytes, n);
    if at == 0 {
        return n;
    }
    let (_, after) = line.split_at(at);
    let (word, _) = split_at_byte(after, 0, b' ');
    let width = word.len();
    if width > n {
        return n;
    }
    at
}

/// Writes a line of printable ASCII, broken to n columns. Returns the columns and the number of
/// lines of what it wrote.
fn append_printable<S: Sink>(
    out: &mut S,
    n: usize,
    words: bool,
    line: &str,
) -> Result<(usize, usize), S::Error>
    requires some { 0 < n }
    requires printable { list_all (is_in_range 0x20 0x7E) line.now ≡ true }
    ensures columns { IfOk result (λ answer.
        answer.0 ≡ text_columns (written_line n words line.now)) }
    ensures lines { IfOk result (λ answer.
        answer.1 ≡ length (lines_of (written_line n words line.now))) }
    ensures text { OnOk result (S.adds out.old (written_line n words line.now) out.new) }
{
    let mut widest: usize = 0;
    let mut count: usize = 1;
    let mut rest = line;
    'lines: while rest.len() > n {
        let (front, after) = rest.split_at(line_end(rest, n, words));
        out.append_str(front)?;
        out.append_char('\n')?;
        widest = widest.max(front.len());
        count += 1;
        rest = after;
    }
    out.append_str(rest)?;
    Ok((widest.max(rest.len()), count))
}

/// Splits the first line off letters that are broken to n columns. Returns the line, its columns
/// and the rest. The line of a letter that is wider than n columns is U+FFFD.
#[inline(always)]
pub(crate) fn split_letter_line(text: &str, n: usize) -> (&str, usize, &str)
    requires some { 0 < n }
    requires letters { list_all is_letter_byte text.now ≡ true }
    ensures { IsLetterLine n text.now result.0.now result.1 result.2.now }
{
    if n > 1 {
        return split_piece(text, n);
    }
    let Some((count, after)) = split_count(text) else {
        return (text, 0, text);
    };
    if count > 1 {
        return ("\u{FFFD}", 1, after);
    }
    let (front, _) = text.split_at(text.len() - after.len());
    (front, 1, after)
}

/// Writes a line of letters, broken between characters. Returns the columns and the number of lines
/// of what it wrote.
fn append_letters<S: Sink>(out: &mut S, n: usize, line: &str) -> Result<(usize, usize), S::Error>
    requires some { 0 < n }
    requires letters { list_all is_letter_byte line.now ≡ true }
    ensures columns { IfOk result (λ answer.
        answer.0 ≡ text_columns (written_line n false line.now)) }
    ensures lines { IfOk result (λ answer.
        answer.1 ≡ length (lines_of (written_line n false line.now))) }
    ensures text { OnOk result (S.adds out.old (written_line n false line.now) out.new) }
{
    let mut widest: usize = 0;
    let mut count: usize = 1;
    let mut rest = line;
    'lines: loop {
        let (piece, columns, after) = split_letter_line(rest, n);
        out.append_str(piece)?;
        widest = widest.max(columns);
        if after.is_empty() {
            return Ok((widest, count));
        }
        out.append_char('\n')?;
        count += 1;
        rest = after;
    }
}

/// Writes a line, broken to n columns.
fn append_line<S: Sink>(out: &mut S, n: usize, words: bool, line: &str) -> Result<(), S::Error>
    requires { 0 < n }
    ensures { OnOk result (S.adds out.old (written_line n words line.now) out.new) }
{
    if line.len() <= n {
        return out.append_str(line);
    }
    if is_printable(line) {
        append_printable(out, n, words, line)?;
        return Ok(());
    }
    if words {
        return append_words(out, n, line);
    }
    append_chars(out, 0, n, line)?;
    Ok(())
}

/// Writes the lines of a text, each broken to n columns.
pub(crate) fn append_lines<S: Sink>(
    out: &mut S,
    n: usize,
    words: bool,
    text: &str,
) -> Result<(), S::Error>
    requires { 0 < n }
    ensures { OnOk result (S.adds out.old
        (encode_utf8_all (pending n words false (lines_of (chars text.now)))) out.new) }
{
    let mut begun = false;
    for line in lines(text) {
        if begun {
            out.append_char('\n')?;
        }
        begun = true;
        append_line(out, n, words, line)?;
    }
    Ok(())
}

/// Wraps a text to lines of at most n columns. Returns an empty text if n is 0.
///
/// A text is broken only between units, and each line takes units while they fit. Units are the
/// characters, each counted as its own columns, at least 1. With `words`, units are the spaces, the
/// words of at most n columns, measured as lines, and the characters of wider words. A character
/// wider than n columns is replaced by U+FFFD in the columns left, at least one. No other breaking
/// has fewer lines.
///
/// Fails only if an allocation fails. Nothing is allocated if n is 0 or the text is empty.
pub fn wrap_text(alloc: Global, text: &str, n: usize, words: bool) -> Result<String, AllocError>
    ensures wrapped { IfOk result (λ answer. IsWrapped n words text.now (string_bytes answer)) }
    ensures fewest { IfOk result (λ answer. HasFewestLines n words text.now (string_bytes answer)) }
    ensures least { 0 < n → EachUnitFits n words text.now
        → IfOk result (λ answer. IsLeastBreaking n words text.now (string_bytes answer)) }
    ensures memory { OnErr result ((0 < n) × (0 < length text.now)) }
{
    let mut out = String::new(alloc);
    wrap_into(&mut out, text, n, words)?;
    Ok(out)
}

/// Whether a text is letters alone.
pub(crate) fn is_letter_line(text: &str) -> bool
    ensures { result ≡ true → list_all is_letter_byte text.now ≡ true }
{
    let bytes = text.as_bytes();
    if bytes.len() >= HALF_BLOCK {
        return whole_columns(bytes).is_some();
    }
    is_run(bytes, 0, b' ', u8::MAX) && is_letter_text(text)
}

/// Whether a text is a line of letters, and one word if words are kept.
fn breaks_letters(text: &str, words: bool) -> bool
    ensures letters { result ≡ true → list_all is_letter_byte text.now ≡ true }
    ensures word { result ≡ true → words ≡ true → words_of (chars text.now) ≡ chars text.now ∷ [] }
{
    if !words {
        return is_letter_line(text);
    }
    is_run(text.as_bytes(), 0, b'!', u8::MAX) && is_letter_line(text)
}

/// Replaces `out` by a text wrapped to lines of at most n columns, as `wrap_text` returns it.
/// Returns the columns and the number of lines of `out`.
pub fn wrap_into(
    out: &mut String,
    text: &str,
    n: usize,
    words: bool,
) -> Result<(usize, usize), AllocError>
    ensures wrapped { OnOk result (IsWrapped n words text.now (string_bytes out.new)) }
    ensures text { OnOk result (string_bytes out.new ≡ wrapped_text n words text.now) }
    ensures columns { IfOk result (λ answer. answer.0 ≡ text_columns (string_bytes out.new)) }
    ensures lines { IfOk result (λ answer. answer.1 ≡ length (lines_of (string_bytes out.new))) }
    ensures memory { OnErr result ((0 < n) × (0 < length text.now)) }
{
    out.clear();
    if n == 0 || text.is_empty() {
        return Ok((0, 1));
    }
    if fits_bytes(text, n) {
        out.push_str(text)?;
        return Ok(text_measures(out.as_str()));
    }
    out.reserve_exact(text.len().saturating_add(text.len() / n))?;
    if is_printable(text) {
        return append_printable(out, n, words, text);
    }
    if breaks_letters(text, words) {
        return append_letters(out, n, text);
    }
    append_lines(out, n, words, text)?;
    Ok(text_measures(out.as_str()))
}

/// Whether a text has at most n bytes. Wrapping or cutting it to n columns, which are then at least
/// 1 if it isn't empty, leaves it as it is. The text isn't read.
#[inline(always)]
pub fn fits_bytes(text: &str, n: usize) -> bool
    ensures value { result ≡ nat_le (length text.now) n }
    ensures wrapped { (words : Bool) → result ≡ true → 0 < n → IsWrapped n words text.now text.now }
    ensures cut { result ≡ true → IsCut n text.now text.now }
    ensures unfilled { result ≡ true → NeedsFill n text.now → ⊥ }
{
    text.len() <= n
}
