//! The tokens of SQL.
ghost use Rattle.std.specs.Prelude.{◌≤◌, ◌<◌, IfSome, length};

/// A token of SQL: the offsets where it begins and ends.
#[derive(Clone, Copy)]
pub(crate) struct Token {
    pub start: usize,
    pub end: usize,
}

impl Token {
    /// Returns the bytes of a token.
    pub(crate) fn text(self, sql: &[u8]) -> &[u8] {
        sql.get(self.start..self.end).unwrap_or(&[])
    }
}

/// Returns the first token at an offset or behind it. Blanks and comments are none.
pub(crate) fn token_from(sql: &[u8], at: usize) -> Option<Token>
    ensures { IfSome result (λ token. (token.start < length sql.now)
        × (token.end ≤ length sql.now)) }
{
    let start = skip_blanks(sql, at);
    let first = *sql.get(start)?;
    let end = start.saturating_add(len_of(first, behind(sql, start)));
    Some(Token {
        start,
        end: end.min(sql.len()),
    })
}

/// Returns the bytes from an offset on, none past the end.
fn behind(sql: &[u8], at: usize) -> &[u8] {
    sql.get(at..).unwrap_or(&[])
}

/// Returns the offset of the first byte that is no blank and in no comment.
fn skip_blanks(sql: &[u8], at: usize) -> usize {
    let mut at = at;
    for _turn in 0..sql.len() {
        let blank = blank_len(behind(sql, at));
        if blank == 0 {
            return at;
        }
        at = at.saturating_add(blank);
    }
    at
}

/// Returns the length of the blanks or of the comment that bytes begin with.
fn blank_len(bytes: &[u8]) -> usize {
    if bytes.starts_with(b"--") {
        return len_until(bytes, |b| *b == b'\n');
    }
    if bytes.starts_with(b"/*") {
        return comment_len(bytes);
    }
    len_until(bytes, |b| !b.is_ascii_whitespace())
}

/// Returns the length of a comment that `*/` ends, or the end of the bytes.
fn comment_len(bytes: &[u8]) -> usize {
    for end in 2..bytes.len() {
        if behind(bytes, end).starts_with(b"*/") {
            return end.saturating_add(2);
        }
    }
    bytes.len()
}

/// Returns the length of the token that bytes begin with.
fn len_of(first: u8, bytes: &[u8]) -> usize {
    match first {
        b'\'' | b'"' | b'`' => quoted_len(bytes, first),
        b'[' => quoted_len(bytes, b']'),
        _ if is_word(first) => len_until(bytes, |b| !is_word(*b)),
        _ => 1,
    }
}

/// Returns the length of a token that a quote begins and ends.
fn quoted_len(bytes: &[u8], quote: u8) -> usize {
    len_until(behind(bytes, 1), |b| *b == quote).saturating_add(2)
}

/// Returns the count of the bytes before the first of some kind.
fn len_until<F: Fn(&u8) -> bool>(bytes: &[u8], is_end: F) -> usize
    requires { F.IsAlwaysCallable is_end }
{
    bytes.iter().position(is_end).unwrap_or(bytes.len())
}

/// Whether a byte is part of a name, a keyword or a number.
fn is_word(byte: u8) -> bool {
    byte.is_ascii_alphanumeric() || byte == b'_' || byte == b'$' || byte >= 0x80
}

/// Returns the name that a token is, without its quotes.
pub(crate) fn name_of(token: &[u8]) -> Option<&[u8]> {
    match token {
        [b'"', name @ .., b'"'] => Some(name),
        [b'`', name @ .., b'`'] => Some(name),
        [b'[', name @ .., b']'] => Some(name),
        [first, ..] if is_word(*first) => Some(token),
        _ => None,
    }
}
