//! What a character counts, and whether it is plain, additive or a separator.
ghost use Rattle.std.specs.Prelude.{◌≡◌, ◌<◌, ◌≤◌, ◌∷◌, [], ◌++◌, ◌+◌, chars, encode_utf8, length};
ghost use Rattle.std.specs.Prelude.{List, MatchOption, ◌↔◌, IfSome, ℕ, IsTrue};
ghost use Rattle.tabled_text.specs.Letters.{BeginsBy, IsLetter, is_narrow_lead, is_wide_lead};
ghost use Rattle.tabled_text.specs.Letters.{lead_byte};
ghost use Rattle.tabled_text.specs.Measure.{char_count};
ghost use Rattle.tabled_text.specs.Walk.{IsPiece};
ghost use Rattle.std.specs.List.{list_all};
ghost use Rattle.tabled_text.specs.Plain.{is_plain_or_feed, is_additive_or_feed, is_listed};
ghost use Rattle.tabled_text.specs.Plain.{is_drawn, has_plain_width, is_plain_character, IsPlain};
ghost use Rattle.tabled_text.specs.Plain.{IsPlainColumn, is_listed_or_drawn, is_additive};
ghost use Rattle.tabled_text.specs.Plain.{IsAdditive, IsAdditiveColumn};
ghost use Rattle.tabled_text.specs.FramedLines.{IsSeparatorColumn};

use crate::letters::split_letters;
use unicode_width::UnicodeWidthChar;

/// Returns what a character counts in cutting and wrapping: its columns, at least 1.
pub(crate) fn char_count(c: char) -> usize
    ensures value { result ≡ char_count c }
    ensures low { 1 ≤ result }
    ensures high { result ≤ 3 }
{
    c.width().unwrap_or(0).max(1)
}

/// Returns the first character of a text and the rest, or `None` if the text is empty.
pub(crate) fn split_first(text: &str) -> Option<(char, &str)>
    ensures { MatchOption result (chars text.now ≡ []) (λ x. (text.now ≡ encode_utf8 x.0 ++ x.1.now)
        × (length x.1.now < length text.now) × (chars text.now ≡ x.0 ∷ chars x.1.now)) }
{
    let mut chars = text.chars();
    let first = chars.next()?;
    Some((first, chars.as_str()))
}

/// Whether a byte is printable ASCII, or begins a character from U+00C0 to U+02FF or from U+0380 to
/// U+047F.
#[inline(always)]
pub(crate) fn is_narrow_lead(lead: u8) -> bool
    ensures { result ≡ is_narrow_lead lead }
{
    matches!(lead, b' '..=b'~' | 0xC3..=0xCB | 0xCE..=0xD1)
}

/// Whether a byte begins a character from U+4000 to U+9FFF.
#[inline(always)]
pub(crate) fn is_wide_lead(lead: u8) -> bool
    ensures { result ≡ is_wide_lead lead }
{
    matches!(lead, 0xE4..=0xE9)
}

/// Returns the bytes and the columns of a character by its first byte: 1 column for printable ASCII
/// and the ranges of Latin, Greek and Cyrillic letters, 2 for that of ideographs, else `None`.
#[inline(always)]
fn letter_size(lead: u8) -> Option<(usize, usize)>
    ensures { (c : ℕ) → lead ≡ lead_byte c → IfSome result (λ size. IsLetter c size.1
        × (length (encode_utf8 c) ≡ size.0)) }
{
    if is_wide_lead(lead) {
        return Some((3, 2));
    }
    if !is_narrow_lead(lead) {
        return None;
    }
    if lead < 0x80 {
        return Some((1, 1));
    }
    Some((2, 1))
}

/// Returns the columns of a text's first character and the rest, or `None` if the first byte isn't
/// enough or there is none.
#[inline(always)]
pub(crate) fn split_letter(text: &str) -> Option<(usize, &str)>
    ensures { IfSome result (λ x. BeginsBy (λ c. IsLetter c x.0) text.now x.1.now) }
{
    if text.is_empty() {
        return None;
    }
    let size = letter_size(text.as_bytes()[0])?;
    let (_, after) = text.split_at(size.0);
    Some((size.1, after))
}

/// Returns what the first character of a text counts, and the rest, or `None` if the text is empty.
/// Letters aren't decoded.
#[inline(always)]
pub(crate) fn split_count(text: &str) -> Option<(usize, &str)>
    ensures { MatchOption result (chars text.now ≡ [])
        (λ x. BeginsBy (λ c. x.0 ≡ char_count c) text.now x.1.now) }
{
    if let Some(letter) = split_letter(text) {
        return Some(letter);
    }
    let (c, after) = split_first(text)?;
    Some((char_count(c), after))
}

/// Splits off the most characters that count at most n together. Returns their text, their count
/// and the rest.
pub(crate) fn split_piece(text: &str, n: usize) -> (&str, usize, &str)
    ensures piece { IsPiece n text.now result.0.now result.1 result.2.now }
    ensures most { (c : ℕ) (cs : List ℕ) → chars result.2.now ≡ c ∷ cs
        → n < result.1 + char_count c }
{
    let (_, mut columns, mut rest) = split_letters(text, n);
    'chars: while let Some((count, after)) = split_count(rest) {
        if count > n - columns {
            break;
        }
        columns += count;
        rest = after;
    }
    let (piece, _) = text.split_at(text.len() - rest.len());
    (piece, columns, rest)
}

fn is_listed(c: char) -> bool
    ensures { result ≡ is_listed c }
{
    matches!(
        c,
        ' '..='~' | 'À'..='ÿ' | 'А'..='я' | '─'..='╿' | '\u{4E00}'..='\u{9FFF}' | '\u{FFFD}'
    )
}

fn is_drawn(c: char) -> bool
    ensures { result ≡ is_drawn c }
{
    matches!(
        c,
        '\u{2010}'..='\u{2017}'
            | '\u{201A}'..='\u{201B}'
            | '\u{201E}'..='\u{2027}'
            | '▀'..='▟'
            | '\u{2800}'..='⣿'
    )
}

fn is_listed_or_drawn(c: char) -> bool
    ensures { result ≡ is_listed_or_drawn c }
{
    is_listed(c) || is_drawn(c)
}

fn has_plain_width(c: char) -> bool
    ensures { result ≡ has_plain_width c }
{
    let width = c.width().unwrap_or(0);
    width == 1 || width == 2
}

/// Whether a character is plain. The tables of `unicode_width` name no listed character as the end
/// of a special sequence, so its width decides.
fn is_plain_char(c: char) -> bool
    ensures { result ≡ is_plain_character c }
{
    is_listed(c) && has_plain_width(c)
}

/// Whether a character is additive. The tables name no drawn character either.
fn is_additive_char(c: char) -> bool
    ensures { result ≡ is_additive c }
{
    is_listed_or_drawn(c) && has_plain_width(c)
}

fn has_plain_chars(text: &str) -> bool
    ensures { result ≡ list_all is_plain_or_feed (chars text.now) }
{
    text.chars().all(|c| c == '\n' || is_plain_char(c))
}

fn has_additive_chars(text: &str) -> bool
    ensures { result ≡ list_all is_additive_or_feed (chars text.now) }
{
    text.chars().all(|c| c == '\n' || is_additive_char(c))
}

/// Whether every character of a text is plain or a line feed.
///
/// These characters are plain, if they take one or two columns:
///
/// - printable ASCII;
/// - the Latin letters and signs from U+00C0 to U+00FF;
/// - the Cyrillic letters from U+0410 to U+044F;
/// - the box-drawing lines from U+2500 to U+257F;
/// - the ideographs from U+4E00 to U+9FFF;
/// - U+FFFD.
pub fn is_plain(text: &str) -> bool
    ensures { IsTrue result ↔ IsPlain text.now }
{
    has_plain_chars(text)
}

/// Whether a character is plain and takes one column.
pub fn is_plain_column(c: char) -> bool
    ensures { IsTrue result ↔ IsPlainColumn c }
{
    is_plain_char(c) && c.width() == Some(1)
}

/// Whether every character of a text is additive or a line feed. A line of additive characters
/// takes the sum of their columns.
///
/// Plain characters are additive, and so are these, if they take one or two columns:
///
/// - dashes, dots and daggers from U+2010 to U+2027, except the quotes ‘ ’ “ ”;
/// - blocks from U+2580 to U+259F;
/// - braille from U+2800 to U+28FF.
pub fn is_additive(text: &str) -> bool
    ensures { IsTrue result ↔ IsAdditive text.now }
{
    has_additive_chars(text)
}

/// Whether a character is additive and takes one column. Borders, fills and margins of such
/// characters take one column for each character.
pub fn is_additive_column(c: char) -> bool
    ensures { IsTrue result ↔ IsAdditiveColumn c }
{
    is_additive_char(c) && c.width() == Some(1)
}

/// Whether a character takes one column whatever text is around it. These are the additive
/// characters of one column except `#`, `*` and digits, which U+FE0F widens.
pub fn is_separator_column(c: char) -> bool
    ensures { IsTrue result ↔ IsSeparatorColumn c }
{
    is_additive_column(c) && !matches!(c, '#' | '*' | '0'..='9')
}
