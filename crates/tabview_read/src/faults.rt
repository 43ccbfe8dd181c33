//! Where a JSON text is wrong.

use crate::error::{Fault, Place, ReadError};
use crate::nesting::Nesting;
use crate::place::place_after;
use json::{Error, MAX_DEPTH, Reader, Scratch, Token};
use std::alloc::{AllocError, Global};

/// Says where a text is wrong.
pub(crate) fn why(alloc: Global, text: &str, error: Error) -> ReadError {
    match error {
        Error::OutOfMemory | Error::TooLong => return ReadError::Memory,
        Error::Invalid | Error::DuplicateKey => {}
    }
    match broken_at(alloc, text) {
        Ok(begin) => Fault::NotJson.at(place_after(text.as_bytes(), begin)),
        Err(error) => ReadError::from(error),
    }
}

/// Returns where a text ceases to be JSON: at a token, behind a key without a colon, or at its end.
fn broken_at(alloc: Global, text: &str) -> Result<usize, AllocError> {
    let mut scratch = Scratch::new(alloc);
    let mut reader = Reader::new(text, &mut scratch)?;
    let mut nesting = Nesting::new(alloc);
    for _token in 0..text.len() {
        let begin = reader.offset();
        let Some(token) = reader.next() else {
            return Ok(begin);
        };
        if !nesting.take(&token)? {
            return Ok(match token {
                Token::String(_) => colon_at(text, reader.offset()),
                _ => begin,
            });
        }
    }
    Ok(reader.offset())
}

/// Returns where a key lacks its colon. The reader has passed the key, and a comma behind it.
fn colon_at(text: &str, passed: usize) -> usize {
    let before = text.get(..passed).unwrap_or(text).trim_end();
    match before.strip_suffix(',') {
        Some(key) => key.len(),
        None => passed,
    }
}

/// Returns the place where a row of an array begins.
pub(crate) fn place_of(alloc: Global, text: &str, row: usize) -> Result<Place, AllocError> {
    let mut scratch = Scratch::new(alloc);
    let mut reader = Reader::new(text, &mut scratch)?;
    let _bracket = reader.next();
    for _row in 0..row {
        let _passed = reader.skip_value(MAX_DEPTH);
    }
    Ok(place_after(text.as_bytes(), reader.offset()))
}
