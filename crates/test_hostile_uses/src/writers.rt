//! Printers and the program, with writers that stop after any number of bytes.

use crate::meagre::{End, Meagre};
use std::alloc::{AllocError, Global};
use tabled::{IoSink, TableError, run};
use test_refused_uses::{PRINTERS, Printer, picture, put};

const ENDS: [End; 3] = [End::TakesNone, End::Fails, End::IsInterrupted];

// Whether a writer that takes `room` bytes got exactly the first ones of a text, and no further
// call after its first failure.
fn has_beginning(writer: &Meagre, text: &str, room: usize) -> bool {
    let taken = writer.taken.as_slice();
    if room < text.len() {
        taken.len() == room && text.as_bytes().starts_with(taken) && writer.refused == 1
    } else {
        taken == text.as_bytes() && writer.refused == 0
    }
}

// Whether a printer stops at the writer's first failure, and returns `Writer`.
fn stops(alloc: Global, printer: Printer, step: usize, room: usize, end: End) -> bool {
    let text = picture(printer);
    let mut writer = Meagre::new(alloc, step, room, end);
    let mut sink = IoSink::new(&mut writer);
    let answer = put(alloc, printer, &mut sink);
    let failures = sink.failures();
    let wanted = if room < text.len() {
        (Err(TableError::Writer), 1)
    } else {
        (Ok(()), 0)
    };
    (answer, failures) == wanted && has_beginning(&writer, text, room)
}

// Tries each length and each failure, with writes of one byte and of any length.
fn stops_anywhere(alloc: Global, printer: Printer) -> bool {
    for room in 0..picture(printer).len().saturating_add(1) {
        for end in ENDS {
            if !stops(alloc, printer, 1, room, end)
                || !stops(alloc, printer, usize::MAX, room, end)
            {
                return false;
            }
        }
    }
    true
}

/// A line for each printer: whether it stops at every failure of its writer.
pub fn stopped_printers(alloc: Global) -> Result<String, AllocError> {
    let mut report = String::new(alloc);
    for &printer in PRINTERS {
        let is_right = stops_anywhere(alloc, printer);
        write!(
            report,
            "{printer:?} stops where its writer does: {is_right}\n"
        )?;
    }
    Ok(report)
}

// Splits a command line into arguments.
fn words_of(alloc: Global, line: &str) -> Result<Vec<String>, AllocError> {
    let mut words = Vec::new(alloc);
    for word in line.split(' ').filter(|word| !word.is_empty()) {
        words.push(String::from_str(alloc, word)?)?;
    }
    Ok(words)
}

// Whether the program stops at the writer's first failure, and reports it.
fn run_stops(alloc: Global, words: &[String], text: &str, room: usize, end: End) -> bool {
    let mut out = Meagre::new(alloc, 3, room, end);
    let mut err = Vec::new(alloc);
    let status = run(
        alloc,
        words,
        &mut "a\tbb\nccc\n".as_bytes(),
        &mut out,
        &mut err,
    );
    let wanted: (u8, &[u8]) = if room < text.len() {
        (1, b"Writer\n")
    } else {
        (0, b"")
    };
    (status, err.as_slice()) == wanted && has_beginning(&out, text, room)
}

// Tries each length and each failure.
fn run_stops_anywhere(alloc: Global, line: &str, printer: Printer) -> Result<bool, AllocError> {
    let words = words_of(alloc, line)?;
    let mut text = String::from_str(alloc, picture(printer))?;
    text.push('\n')?;
    for room in 0..text.len().saturating_add(1) {
        for end in ENDS {
            if !run_stops(alloc, words.as_slice(), text.as_str(), room, end) {
                return Ok(false);
            }
        }
    }
    Ok(true)
}

const LINES: [(&str, Printer); 4] = [
    ("", Printer::Buffered),
    ("--stream", Printer::Streamed),
    ("--wrap 9", Printer::Wrapped),
    ("--cut 9 --priority right", Printer::Shortened),
];

/// A line for each plan: whether the program stops at every failure of its writer.
pub fn stopped_runs(alloc: Global) -> Result<String, AllocError> {
    let mut report = String::new(alloc);
    for (line, printer) in LINES {
        let is_right = run_stops_anywhere(alloc, line, printer)?;
        write!(
            report,
            "{printer:?} run stops where its writer does: {is_right}\n"
        )?;
    }
    Ok(report)
}
