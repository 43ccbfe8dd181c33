//! The trait of what wrapping writes to, and copies of a character.
ghost use Rattle.std.specs.Prelude.{◌≡◌, ◌++◌, encode_utf8, encode_utf8_all, replicate, List, ℕ};
ghost use Rattle.std.specs.Prelude.{IfOk, OnErr, OnOk, [], ◌<◌, string_bytes};
ghost use Rattle.std.proofs.Common.{sym, ap, ◌∙◌, append-nil, append_assoc};

use std::alloc::{AllocError, Global};

/// What a text is written to, piece by piece.
pub(crate) trait Sink {
    type Error;

    // Holds of the sink before a write, the bytes written, and the sink after it.
    ghost adds: { Self → List ℕ → Self → Type 0 };

    fn append_str(&mut self, text: &str) -> Result<(), Self::Error>
        ensures { OnOk result (adds self.old text.now self.new) };

    fn append_char(&mut self, c: char) -> Result<(), Self::Error>
        ensures { OnOk result (adds self.old (encode_utf8 c) self.new) };

    ghost adds_nothing: { (s : Self) → adds s [] s };

    ghost adds_more: { (s t u : Self) (x y : List ℕ) → adds s x t → adds t y u
        → adds s (x ++ y) u };
}

impl Sink for String {
    type Error = AllocError;

    ghost adds = { λ s x t. string_bytes t ≡ string_bytes s ++ x };

    fn append_str(&mut self, text: &str) -> Result<(), AllocError> {
        self.push_str(text)
    }

    fn append_char(&mut self, c: char) -> Result<(), AllocError> {
        self.push(c)
    }

    ghost adds_nothing = { λ s. sym (append-nil (string_bytes s)) };

    ghost adds_more = { λ s t u x y h k. k ∙ ap (λ l. l ++ y) h ∙ append_assoc
        (string_bytes s) x y };
}

/// Writes n copies of a character.
pub(crate) fn append_copies<S: Sink>(out: &mut S, c: char, n: usize) -> Result<(), S::Error>
    ensures added { OnOk result (S.adds out.old (encode_utf8_all (replicate n c)) out.new) }
    ensures some { OnErr result (0 < n) }
{
    for _i in 0..n {
        out.append_char(c)?;
    }
    Ok(())
}

/// Appends n copies of a character to a text. Fails if an allocation fails. All memory is allocated
/// before the first copy, so an excessive n fails at once.
pub fn push_copies(text: &mut String, c: char, n: usize) -> Result<(), AllocError>
    ensures { OnOk result (string_bytes text.new
        ≡ string_bytes text.old ++ encode_utf8_all (replicate n c)) }
{
    text.reserve(n.saturating_mul(c.len_utf8()))?;
    append_copies(text, c, n)
}

/// Returns n copies of a character. Fails if an allocation fails.
pub fn copies(alloc: Global, c: char, n: usize) -> Result<String, AllocError>
    ensures { IfOk result (λ answer. string_bytes answer ≡ encode_utf8_all (replicate n c)) }
{
    let mut text = String::new(alloc);
    push_copies(&mut text, c, n)?;
    Ok(text)
}
