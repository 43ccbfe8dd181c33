//! Control characters and directional marks as visible ones.
ghost use Rattle.std.specs.Cow.{cow_str_bytes};
ghost use Rattle.std.specs.List.{list_all, list_any};
ghost use Rattle.std.specs.Prelude.{◌≡◌, ◌++◌, IfOk, OnOk, chars, encode_utf8_all, string_bytes};
ghost use Rattle.std.specs.Prelude.{true, ◌<◌, ◌≤◌, ◌+◌, ◌-◌, ◌∷◌, []};
ghost use Rattle.tabview_cells.specs.Escaping.{escape, escape_char, escaped, is_acting};
ghost use Rattle.tabview_cells.specs.Escaping.{is_control, is_directional, is_escaped, is_shown};
ghost use Rattle.tabview_cells.specs.Escaping.{unescape};

use std::alloc::{AllocError, Global};
use std::borrow::CowStr;

/// The mark before a sign that represents itself, and before the letter of a control character or
/// of a directional mark.
const MARK: char = '␦';

/// The picture of U+0000. Those of the other control characters follow it.
const PICTURES: u32 = 0x2400;

/// Whether a character is a control character: U+0000 to U+001F, or U+007F to U+009F.
pub fn is_control(c: char) -> bool
    ensures { result ≡ is_control c }
{
    matches!(c, '\0'..='\x1F' | '\x7F'..='\u{9F}')
}

/// Whether a character turns the direction of a text: U+202A to U+202E, or U+2066 to U+2069.
fn is_directional(c: char) -> bool
    ensures { result ≡ is_directional c }
{
    matches!(c, '\u{202A}'..='\u{202E}' | '\u{2066}'..='\u{2069}')
}

/// Whether a character acts on a terminal where it is printed.
fn is_acting(c: char) -> bool
    ensures { result ≡ is_acting c }
{
    is_control(c) || is_directional(c)
}

/// Whether escaping changes a character: a control character, a directional mark, or one of the
/// signs that represent these. A line feed stays if `lines`.
fn is_escaped(lines: bool, c: char) -> bool
    ensures { result ≡ is_escaped lines c }
{
    match c {
        '\n' => !lines,
        '\u{2400}'..='\u{2426}' => true,
        _ => is_acting(c),
    }
}

/// Returns the picture of a control character up to U+001F.
fn picture(c: char) -> char
    requires { c < 0x20 }
    ensures { result ≡ 0x2400 + c }
{
    char::from_u32(PICTURES + c as u32).unwrap_or(MARK)
}

/// Returns the letter of a control character from U+0080 to U+009F, as after ESC.
fn letter(c: char) -> char
    requires { 0x80 ≤ c × c < 0xA0 }
    ensures { result ≡ c - 0x40 }
{
    char::from_u32(c as u32 - 0x40).unwrap_or(MARK)
}

/// Returns the letter of a directional mark from U+202A to U+202E: `a` to `e`.
fn embedding_letter(c: char) -> char
    requires { 0x202A ≤ c × c ≤ 0x202E }
    ensures { result ≡ c - 0x1FC9 }
{
    char::from_u32(c as u32 - 0x1FC9).unwrap_or(MARK)
}

/// Returns the letter of a directional mark from U+2066 to U+2069: `f` to `i`.
fn isolate_letter(c: char) -> char
    requires { 0x2066 ≤ c × c ≤ 0x2069 }
    ensures { result ≡ c - 0x2000 }
{
    char::from_u32(c as u32 - 0x2000).unwrap_or(MARK)
}

/// Appends the mark, and a character behind it.
fn push_marked(out: &mut String, c: char) -> Result<(), AllocError>
    ensures { OnOk result (string_bytes out.new
        ≡ string_bytes out.old ++ encode_utf8_all (0x2426 ∷ c ∷ [])) }
{
    out.push(MARK)?;
    out.push(c)
}

/// Appends what is shown for a character.
fn push_escaped(out: &mut String, lines: bool, c: char) -> Result<(), AllocError>
    ensures { OnOk result (string_bytes out.new
        ≡ string_bytes out.old ++ encode_utf8_all (escape_char lines c)) }
{
    if !is_escaped(lines, c) {
        return out.push(c);
    }
    match c {
        '\0'..='\x1F' => out.push(picture(c)),
        '\x7F' => out.push('␡'),
        '\u{80}'..='\u{9F}' => push_marked(out, letter(c)),
        '\u{202A}'..='\u{202E}' => push_marked(out, embedding_letter(c)),
        '\u{2066}'..='\u{2069}' => push_marked(out, isolate_letter(c)),
        _ => push_marked(out, c),
    }
}

/// Appends a text with its control characters and directional marks as visible ones.
///
/// U+0000 to U+001F become their pictures `␀` to `␟`, and U+007F becomes `␡`. U+0080 to U+009F
/// become `␦` and the letter that follows ESC in their other form, as `␦[` for U+009B. U+202A to
/// U+202E become `␦a` to `␦e`, and U+2066 to U+2069 `␦f` to `␦i`. A character from `␀` to `␦` gets
/// a `␦` before it, so that nothing is lost. A line feed stays if `lines`.
pub(crate) fn escape_into(out: &mut String, text: &str, lines: bool) -> Result<(), AllocError>
    ensures ok { OnOk result (string_bytes out.new
        ≡ string_bytes out.old ++ escaped lines text.now) }
{
    for c in text.chars() {
        push_escaped(out, lines, c)?;
    }
    Ok(())
}

/// Whether escaping changes a text.
fn needs_escape(text: &str, lines: bool) -> bool
    ensures { result ≡ list_any (is_escaped lines) (chars text.now) }
{
    text.chars().any(|c| is_escaped(lines, c))
}

/// Returns a text with its control characters and directional marks as visible ones, as
/// `escape_into` writes it. A text without any is borrowed.
///
/// ```rust
/// assert_eq!(escape(alloc, "\x1b[1mbold", true)?.as_str(), "␛[1mbold");
/// ```
pub fn escape(alloc: Global, text: &str, lines: bool) -> Result<CowStr<'_, Global>, AllocError>
    ensures ok { IfOk result (λ shown. cow_str_bytes shown ≡ escaped lines text.now) }
    ensures lossless { IfOk result (λ shown. unescape (chars (cow_str_bytes shown))
        ≡ chars text.now) }
    ensures visible { IfOk result (λ shown.
        list_all (is_shown lines) (chars (cow_str_bytes shown)) ≡ true) }
{
    if !needs_escape(text, lines) {
        return Ok(CowStr::Borrowed(text));
    }
    let mut shown = String::with_capacity(alloc, text.len())?;
    escape_into(&mut shown, text, lines)?;
    Ok(CowStr::Owned(shown))
}
