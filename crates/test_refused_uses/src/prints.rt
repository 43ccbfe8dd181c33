//! Prints into a string that grows, and into a fixed buffer that needs no allocation.

use crate::found::{Found, refused_if, whole_if};
use crate::printers::{Printer, picture, put};
use std::alloc::Global;
use std::io;
use tabled::{IoSink, TableError};

// The outcome of a print. A failed one must have written a beginning of the expected output.
fn judge(answer: Result<(), TableError>, bytes: &[u8], wanted: &str) -> Found {
    match answer {
        Ok(()) => whole_if(bytes == wanted.as_bytes()),
        Err(error) => {
            refused_if(error == TableError::Memory && wanted.as_bytes().starts_with(bytes))
        }
    }
}

/// Prints into a string, and returns the outcome.
pub fn printed(alloc: Global, printer: Printer) -> Found {
    let mut text = String::new(alloc);
    let answer = put(alloc, printer, &mut text);
    judge(answer, text.as_bytes(), picture(printer))
}

/// Prints into a buffer of 128 bytes, and returns the outcome.
pub fn held(alloc: Global, printer: Printer) -> Found {
    let mut room = io::Cursor::new([0u8; 128]);
    let answer = put(alloc, printer, &mut IoSink::new(&mut room));
    let end = usize::try_from(room.position()).unwrap_or(128).min(128);
    judge(answer, &room.get_ref()[..end], picture(printer))
}
