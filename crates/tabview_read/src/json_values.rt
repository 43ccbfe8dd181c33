//! The values of a sequence of JSON.

use crate::error::{Place, ReadError};
use crate::format::without_mark;
use crate::place::{place_after, text_of};
use crate::value_scan::ValueScan;
use std::alloc::Global;
use std::io::BufRead;

/// The text of a value, and where it begins.
#[derive(Drop)]
pub(crate) struct ValueText {
    pub(crate) place: Place,
    pub(crate) text: String,
}

impl ValueText {
    /// Returns an error in the text as one in the input.
    pub(crate) fn error_in(&self, error: ReadError) -> ReadError {
        moved(error, self.place)
    }
}

/// Returns an error in a text that begins at a place as one in the input.
fn moved(mut error: ReadError, begin: Place) -> ReadError {
    match &mut error {
        ReadError::NotUtf8(place) => *place = begin.behind(*place),
        ReadError::Json(place, _) => *place = begin.behind(*place),
        _ => {}
    }
    error
}

/// The values of an input, each in one line or in several, with white space between them or none.
#[derive(Drop)]
pub(crate) struct ValuesOf<B: BufRead + Drop> {
    alloc: Global,
    input: B,
    /// Whether invalid UTF-8 is shown as U+FFFD.
    lossy: bool,
    /// The line that was read last, and its number, from 1.
    line: Vec<u8>,
    number: u64,
    /// The bytes of the line that were taken.
    taken: usize,
}

impl<B: BufRead + Drop> ValuesOf<B> {
    /// Begins before the first value.
    pub(crate) fn new(alloc: Global, lossy: bool, input: B) -> ValuesOf<B> {
        ValuesOf {
            alloc,
            input,
            lossy,
            line: Vec::new(alloc),
            number: 0,
            taken: 0,
        }
    }

    /// Returns the text of the next value, or what is there in its place. Reads no further than the
    /// line in which it ends.
    pub(crate) fn next_value(&mut self) -> Result<Option<ValueText>, ReadError> {
        if !self.pass_spaces()? {
            return Ok(None);
        }
        let place = self.place();
        let mut bytes = Vec::new(self.alloc);
        let mut scan = ValueScan::new();
        for _line in self.number..u64::MAX {
            self.take(&mut scan, &mut bytes)?;
            if scan.is_ended() || !self.read_line()? {
                break;
            }
        }
        match text_of(self.alloc, bytes.trim_ascii_end(), self.lossy) {
            Ok(text) => Ok(Some(ValueText { place, text })),
            Err(error) => Err(moved(error, place)),
        }
    }

    /// Takes bytes of the line, up to the end of the value or of the line.
    fn take(&mut self, scan: &mut ValueScan, bytes: &mut Vec<u8>) -> Result<(), ReadError> {
        let rest = self.rest();
        let count = scan.take(rest);
        bytes.extend_from_slice(&rest[..count])?;
        self.taken = self.taken.saturating_add(count);
        Ok(())
    }

    /// Passes white space and blank lines. Returns whether something follows.
    fn pass_spaces(&mut self) -> Result<bool, ReadError> {
        for _line in self.number..u64::MAX {
            if let Some(count) = self.rest().iter().position(|b| !b.is_ascii_whitespace()) {
                self.taken = self.taken.saturating_add(count);
                return Ok(true);
            }
            if !self.read_line()? {
                break;
            }
        }
        Ok(false)
    }

    /// Reads the next line, and returns whether there is one.
    fn read_line(&mut self) -> Result<bool, ReadError> {
        self.line.clear();
        self.taken = 0;
        if self.input.read_until(b'\n', &mut self.line)? == 0 {
            return Ok(false);
        }
        self.number = self.number.saturating_add(1);
        if self.number == 1 {
            self.taken = self.line.len() - without_mark(&self.line).len();
        }
        Ok(true)
    }

    /// Returns the bytes of the line that weren't taken.
    fn rest(&self) -> &[u8] {
        self.line.get(self.taken..).unwrap_or(&[])
    }

    /// Returns the place of the next byte.
    fn place(&self) -> Place {
        Place {
            line: self.number,
            column: place_after(&self.line, self.taken).column,
        }
    }
}
