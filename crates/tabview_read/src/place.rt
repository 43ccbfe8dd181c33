//! Places in a text, and texts of bytes.
ghost use Rattle.std.specs.Prelude.{◌≡◌, take};
ghost use Rattle.tabview_read.specs.Places.{column_after, line_after};

use crate::error::{Place, ReadError};
use crate::format::without_mark;
use std::alloc::Global;
use std::str::from_utf8;

/// Returns the place behind the first bytes of a text.
pub(crate) fn place_after(text: &[u8], bytes: usize) -> Place
    ensures line { result.line ≡ line_after (take bytes text.now) }
    ensures column { result.column ≡ column_after (take bytes text.now) }
{
    place_behind(first_bytes(text, bytes))
}

/// Returns the first bytes of a text, or all if it has fewer.
#[tactic(auto, using(std::proofs::lemmas::List::take_all))]
fn first_bytes(text: &[u8], bytes: usize) -> &[u8]
    ensures { result.now ≡ take bytes text.now }
{
    if bytes < text.len() {
        text.split_at(bytes).0
    } else {
        text
    }
}

/// Returns the place behind some bytes.
fn place_behind(before: &[u8]) -> Place
    ensures line { result.line ≡ line_after before.now }
    ensures column { result.column ≡ column_after before.now }
{
    let mut place = Place { line: 1, column: 1 };
    for byte in before {
        place = place.after(*byte);
    }
    place
}

/// Returns bytes as text, without a byte-order mark. Invalid UTF-8 is an error with its place,
/// or U+FFFD if `lossy`.
pub fn text_of(alloc: Global, bytes: &[u8], lossy: bool) -> Result<String, ReadError> {
    let bytes = without_mark(bytes);
    if lossy {
        return Ok(String::from_utf8_lossy(alloc, bytes)?);
    }
    match from_utf8(bytes) {
        Ok(text) => Ok(String::from_str(alloc, text)?),
        Err(error) => Err(ReadError::NotUtf8(place_after(bytes, error.valid_up_to()))),
    }
}
