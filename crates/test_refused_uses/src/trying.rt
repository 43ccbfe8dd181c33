//! Calls, listed and run by kind and number.

use crate::calls::{CALLS, called};
use crate::drawings::{DRAWINGS, drawn};
use crate::found::Found;
use crate::materials::{MATERIALS, handled};
use crate::printers::PRINTERS;
use crate::prints::{held, printed};
use crate::sparing::{SPARING, spared};
use std::alloc::{AllocError, Global};
use tabled::TableError;

fn names_of(kind: &str) -> &'static [&'static str] {
    match kind {
        "call" => CALLS,
        "material" => MATERIALS,
        "drawing" => DRAWINGS,
        "sparing" => SPARING,
        _ => &[],
    }
}

fn run(alloc: Global, kind: &str, name: &str) -> Result<Found, TableError> {
    match kind {
        "call" => called(alloc, name),
        "material" => handled(alloc, name),
        "drawing" => drawn(alloc, name),
        _ => spared(alloc, name),
    }
}

fn print_at(alloc: Global, number: usize, into_room: bool) -> Option<Found> {
    match PRINTERS.get(number) {
        Some(&printer) if into_room => Some(held(alloc, printer)),
        Some(&printer) => Some(printed(alloc, printer)),
        None => None,
    }
}

/// Runs one call and returns its outcome, or `None` if there is no such call. The kinds `text` and
/// `room` print into a string and into a fixed buffer.
pub fn tried(alloc: Global, kind: &str, number: usize) -> Result<Option<Found>, TableError> {
    if kind == "text" || kind == "room" {
        return Ok(print_at(alloc, number, kind == "room"));
    }
    match names_of(kind).get(number) {
        Some(name) => Ok(Some(run(alloc, kind, name)?)),
        None => Ok(None),
    }
}

// Writes a line for each call of a kind: kind, number and name.
fn list_calls(report: &mut String, kind: &str, names: &[&'static str]) -> Result<(), AllocError> {
    for (number, name) in names.iter().enumerate() {
        write!(report, "{kind} {number} {name}\n")?;
    }
    Ok(())
}

// Writes two lines for each printer, one for a string and one for a fixed buffer.
fn list_printers(report: &mut String) -> Result<(), AllocError> {
    for (number, printer) in PRINTERS.iter().enumerate() {
        write!(
            report,
            "text {number} {printer:?}\nroom {number} {printer:?}\n"
        )?;
    }
    Ok(())
}

fn list_all(report: &mut String) -> Result<(), AllocError> {
    for kind in ["call", "material", "drawing"] {
        list_calls(report, kind, names_of(kind))?;
    }
    list_printers(report)?;
    list_calls(report, "sparing", SPARING)
}

/// Lists all calls, one per line: kind, number and name.
pub fn names(alloc: Global) -> Result<String, AllocError> {
    let mut report = String::new(alloc);
    list_all(&mut report)?;
    Ok(report)
}
