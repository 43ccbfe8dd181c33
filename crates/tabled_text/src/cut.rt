//! Cuts texts to n columns.
ghost use Rattle.std.specs.Prelude.{◌≡◌, ◌++◌, ◌<◌, chars, length, replicate, take};
ghost use Rattle.std.specs.Prelude.{encode_utf8_all, IfNone, IfOk, IfSome, IsUtf8, OnErr, OnOk};
ghost use Rattle.std.specs.Prelude.{string_bytes, if◌then◌else◌};
ghost use Rattle.std.specs.Str.{IsCharBoundary};
ghost use Rattle.std.specs.Cow.{cow_str_bytes, IsOwnedStr};
ghost use Rattle.tabled_text.specs.Cut.{AddsCut, IsCut, IsCutAt, IsSplit, IsParted, NeedsFill};

use crate::character::{split_count, split_letter};
use crate::letters::split_letters;
use crate::runs::is_run;
use crate::sink::append_copies;
use std::alloc::{AllocError, Global};
use std::borrow::CowStr;

/// Cuts a text to n columns. Returns the cut text, the number of columns that a dropped character
/// leaves, and the rest after the cut.
#[inline(never)]
fn part_by_chars(text: &str, n: usize) -> (&str, usize, &str)
    ensures parted { IsParted n (chars text.now) (chars result.0.now) result.1
        (chars result.2.now) }
    ensures front { IsUtf8 result.0.now }
    ensures after { IsUtf8 result.2.now }
    ensures beginning { take (length result.0.now) text.now ≡ result.0.now }
    ensures boundary { IsCharBoundary text.now (length result.0.now) }
{
    let (_, mut columns, mut rest) = split_letters(text, n);
    'chars: while let Some((count, after)) = split_count(rest) {
        if columns == n {
            break;
        }
        if rest.as_bytes()[0] == b'\n' {
            columns = 0;
        } else {
            if count > n - columns {
                let (front, _) = text.split_at(text.len() - rest.len());
                return (front, n - columns, after);
            }
            columns += count;
        }
        rest = after;
    }
    let (front, after) = text.split_at(text.len() - rest.len());
    (front, 0, after)
}

/// Cuts a text to n columns. A text of at most n bytes isn't cut, and if the first n bytes are
/// printable ASCII, they are the cut text.
#[inline(always)]
fn part(text: &str, n: usize) -> (&str, usize, &str)
    ensures parted { IsParted n (chars text.now) (chars result.0.now) result.1
        (chars result.2.now) }
    ensures front { IsUtf8 result.0.now }
    ensures after { IsUtf8 result.2.now }
    ensures beginning { take (length result.0.now) text.now ≡ result.0.now }
    ensures boundary { IsCharBoundary text.now (length result.0.now) }
{
    if text.len() <= n {
        return (text, 0, "");
    }
    let (bytes, _) = text.as_bytes().split_at(n);
    if is_run(bytes, 0, b' ', b'~') {
        let (front, after) = text.split_at(n);
        return (front, 0, after);
    }
    part_by_chars(text, n)
}

/// Returns `front` with U+FFFD in the missing columns, borrowed if there are none.
fn fill(alloc: Global, front: &str, missing: usize) -> Result<CowStr<'_, Global>, AllocError>
    ensures text { IfOk result (λ answer.
        cow_str_bytes answer ≡ front.now ++ encode_utf8_all (replicate missing 0xFFFD)) }
    ensures owned { IfOk result (λ answer. IsOwnedStr answer → 0 < missing) }
    ensures err { OnErr result (0 < missing) }
{
    if missing == 0 {
        return Ok(CowStr::Borrowed(front));
    }
    let mut answer = String::from_str(alloc, front)?;
    append_copies(&mut answer, '\u{FFFD}', missing)?;
    Ok(CowStr::Owned(answer))
}

/// Appends a text as `cut_str` cuts it. Fails only if an allocation fails. Nothing is allocated if
/// n is 0 or the text is empty.
pub fn append_cut(out: &mut String, text: &str, n: usize) -> Result<(), AllocError>
    ensures added { OnOk result
        (AddsCut n text.now (string_bytes out.old) (string_bytes out.new)) }
    ensures memory { OnErr result ((0 < n) × (0 < length text.now)) }
{
    let (front, missing, _) = part(text, n);
    out.push_str(front)?;
    append_copies(out, '\u{FFFD}', missing)
}

/// Cuts a text as soon as one of its lines is n columns wide, even before a line feed. Each
/// character counts as its own columns, at least 1. A character that would pass n columns is
/// dropped, and U+FFFD fills the columns left.
///
/// The result is borrowed unless it is filled. Fails only if the allocation of a filled text fails.
pub fn cut_str(alloc: Global, text: &str, n: usize) -> Result<CowStr<'_, Global>, AllocError>
    ensures cut { IfOk result (λ answer. IsCut n text.now (cow_str_bytes answer)) }
    ensures owned { IfOk result (λ answer. IsOwnedStr answer → NeedsFill n text.now) }
    ensures err { OnErr result (NeedsFill n text.now) }
{
    let (front, missing, _) = part(text, n);
    fill(alloc, front, missing)
}

/// Returns the length in bytes of what `cut_str` returns, or `None` if `cut_str` fills columns with
/// U+FFFD.
#[inline]
pub fn cut_length(text: &str, n: usize) -> Option<usize>
    ensures cut { IfSome result (λ length. IsCut n text.now (take length text.now)) }
    ensures boundary { IfSome result (λ length. IsCharBoundary text.now length) }
    ensures some { IfSome result (λ _. NeedsFill n text.now → ⊥) }
    ensures none { IfNone result (NeedsFill n text.now) }
{
    let (front, missing, _) = part(text, n);
    if missing == 0 {
        Some(front.len())
    } else {
        None
    }
}

/// Returns the length in bytes of what `cut_str` leaves of a text that begins with more than n
/// columns of letters, as `is_letter_text` knows them, or with n; and whether U+FFFD fills a last
/// column.
pub fn cut_letters(text: &str, n: usize) -> Option<(usize, bool)>
    ensures { IfSome result (λ cut. IsCutAt n text.now cut.0 (if cut.1 then 1 else 0)) }
{
    let (_, mut columns, mut rest) = split_letters(text, n);
    'letters: while let Some((count, after)) = split_letter(rest) {
        if count > n - columns {
            return Some((text.len() - rest.len(), columns < n));
        }
        columns += count;
        rest = after;
    }
    if columns == n {
        Some((text.len() - rest.len(), false))
    } else {
        None
    }
}

/// Returns a text as `cut_str` cuts it, and the rest after the cut. A dropped character is in
/// neither. Fails as `cut_str` does.
pub fn split_str(
    alloc: Global,
    text: &str,
    n: usize,
) -> Result<(CowStr<'_, Global>, &str), AllocError>
    ensures cut { IfOk result (λ parts. IsSplit n text.now (cow_str_bytes parts.0) parts.1.now) }
    ensures owned { IfOk result (λ parts. IsOwnedStr parts.0 → NeedsFill n text.now) }
    ensures err { OnErr result (NeedsFill n text.now) }
{
    let (cut, missing, after) = part(text, n);
    let front = fill(alloc, cut, missing)?;
    Ok((front, after))
}
