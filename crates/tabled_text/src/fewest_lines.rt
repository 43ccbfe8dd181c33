//! Checks whether a text is another one wrapped: the wrapping walk compares instead of writing.
ghost use Rattle.std.specs.Prelude.{◌≡◌, ◌++◌, ◌↔◌, ◌<◌, ℕ, List, [], Some, None, chars};
ghost use Rattle.std.specs.Prelude.{encode_utf8, IsTrue};
ghost use Rattle.std.specs.List.{list_all};
ghost use Rattle.std.specs.Option.{option_copied};
ghost use Rattle.tabled_text.specs.Breaking.{HasFewestLines, IsLeastBreaking, words_of};
ghost use Rattle.tabled_text.specs.Walk.{Expects, Expects-nothing, Expects-more, fits_word};
ghost use Rattle.tabled_text.specs.Walk.{fits_line};
ghost use Rattle.tabled_text.specs.Measure.{lines_of};
ghost use Rattle.tabled_text.specs.OldText.{all_chars_fit};
ghost use Rattle.tabled_text.specs.Wrapping.{IsFittingWrapping};

use crate::character::char_count;
use crate::measure::{line_width, lines};
use crate::sink::Sink;
use crate::wrap::{append_lines, split_word};
use std::convert::Infallible;

/// Removes `text` from the front of `rest`, or returns `None` if `rest` doesn't begin with it.
fn strip<'a>(rest: Option<&'a [u8]>, text: &[u8]) -> Option<&'a [u8]>
    ensures { (z : List ℕ)
        → (option_copied rest.entry ≡ Some (text.now ++ z)) ↔ (option_copied result ≡ Some z) }
{
    rest?.strip_prefix(text)
}

/// A sink that compares what is written with an expected text. `rest` is what is still expected, or
/// `None` after a difference.
#[derive(Drop)]
struct Expected<'a> {
    rest: Option<&'a [u8]>,
}

impl<'a> Sink for Expected<'a> {
    type Error = Infallible;

    ghost adds = { λ s x t. Expects (option_copied s.rest) x (option_copied t.rest) };

    fn append_str(&mut self, text: &str) -> Result<(), Infallible> {
        self.rest = strip(self.rest, text.as_bytes());
        Ok(())
    }

    fn append_char(&mut self, c: char) -> Result<(), Infallible> {
        let mut bytes = [0; 4];
        let text = c.encode_utf8(&mut bytes);
        self.rest = strip(self.rest, text.as_bytes());
        Ok(())
    }

    ghost adds_nothing = { λ s. Expects-nothing (option_copied s.rest) };

    ghost adds_more = { λ s t u x y h k.
        Expects-more (option_copied s.rest) (option_copied t.rest) (option_copied u.rest) x y h k };
}

/// Whether everything expected was written.
fn is_done(rest: Option<&[u8]>) -> bool
    ensures { IsTrue result ↔ (option_copied rest.entry ≡ Some []) }
{
    match rest {
        Some(rest) => rest.is_empty(),
        None => false,
    }
}

/// Whether each character of a text counts at most n.
fn chars_fit(text: &str, n: usize) -> bool
    ensures { result ≡ all_chars_fit n (chars text.now) }
{
    text.chars().all(|c| char_count(c) <= n)
}

/// Whether each unit of a line broken at words is at most n columns wide.
fn words_fit(line: &str, n: usize) -> bool
    ensures { result ≡ list_all (fits_word n) (words_of (chars line.now)) }
{
    let mut rest = line;
    'words: loop {
        let (word, after) = split_word(rest);
        if line_width(word) > n && !chars_fit(word, n) {
            return false;
        }
        match after {
            None => return true,
            Some(next) => rest = next,
        }
    }
}

/// The most that a character counts.
const WIDEST: usize = 3;

/// Whether each unit of a text is at most n columns wide. The text isn't read if n is at least
/// `WIDEST`.
fn units_fit(text: &str, n: usize, words: bool) -> bool
    ensures { result ≡ list_all (fits_line n words) (lines_of (chars text.now)) }
{
    if n >= WIDEST {
        return true;
    }
    for line in lines(text) {
        let fits = if words {
            words_fit(line, n)
        } else {
            chars_fit(line, n)
        };
        if !fits {
            return false;
        }
    }
    true
}

/// Whether `wrapped` is what `wrap_text` returns, n is at least 1 and no unit of the text is wider
/// than n columns. Then `wrapped` has the fewest lines of all breakings of the text. Doesn't
/// allocate.
pub fn is_fullest(text: &str, wrapped: &str, n: usize, words: bool) -> bool
    ensures fullest { IsTrue result ↔ IsFittingWrapping n words text.now wrapped.now }
    ensures fewest { IsTrue result → HasFewestLines n words text.now wrapped.now }
    ensures least { IsTrue result → IsLeastBreaking n words text.now wrapped.now }
{
    if n == 0 || !units_fit(text, n, words) {
        return false;
    }
    let mut expected = Expected {
        rest: Some(wrapped.as_bytes()),
    };
    match append_lines(&mut expected, n, words, text) {
        Ok(()) => is_done(expected.rest),
        Err(never) => match never {},
    }
}
