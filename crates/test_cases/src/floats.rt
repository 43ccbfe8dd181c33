//! Shows floats as cells, and compares them with texts that were made outside of the library.

use serde::Serialize;
use std::alloc::{AllocError, Global};
use std::num::{f32_from_bits_with_nan, f64_from_bits_with_nan};
use tabled::settings::{Padding, Style};
use tabled::{Table, TableError, Tabled};
use tabled_serde::read_record;

// The text of a table of one value without borders and padding.
fn text_in_table<T: Tabled + Drop>(alloc: Global, value: T) -> Result<String, TableError> {
    let mut values = Vec::new(alloc);
    values.push(value)?;
    let mut table = Table::nohead(alloc, values)?;
    table.with(Style::empty())?;
    table.with(Padding::new(0, 0, 0, 0))?;
    table.to_string()
}

// A value that serializes, with one field.
#[derive(Drop, Serialize)]
struct Reading<T> {
    number: T,
}

// Whether the cell of a field with this value has the wanted text.
fn is_field<T: Serialize + Drop>(alloc: Global, number: T, wanted: &str) -> bool {
    match read_record(alloc, &Reading { number }, "") {
        Ok(record) => match record.cells.as_slice() {
            [cell] => cell.as_str() == wanted,
            _ => false,
        },
        Err(_) => false,
    }
}

// Whether both the table of a value and a field with it have the wanted text.
fn is_shown<T: Tabled + Serialize + Copy + Drop>(alloc: Global, value: T, wanted: &str) -> bool {
    match text_in_table(alloc, value) {
        Ok(text) => text.as_str() == wanted && is_field(alloc, value, wanted),
        Err(_) => false,
    }
}

// Checks a line `TYPE BITS TEXT`, the bits in hexadecimal digits.
fn holds(alloc: Global, line: &str) -> bool {
    let mut words = line.split(' ');
    let (kind, bits) = (words.next().unwrap_or(""), words.next().unwrap_or(""));
    let (Ok(bits), Some(wanted)) = (u64::from_str_radix(bits, 16), words.next()) else {
        return false;
    };
    match (kind, u32::try_from(bits)) {
        ("f32", Ok(bits)) => is_shown(alloc, f32_from_bits_with_nan(bits), wanted),
        ("f64", _) => is_shown(alloc, f64_from_bits_with_nan(bits), wanted),
        _ => false,
    }
}

/// Checks lines `TYPE BITS TEXT`, each a float and the text that its cells must have. Returns each
/// line that fails, and then a line with how many pass and fail.
pub fn told_floats(alloc: Global, lines: &str) -> Result<String, AllocError> {
    let mut report = String::new(alloc);
    let mut held: usize = 0;
    let mut failed: usize = 0;
    for line in lines.lines() {
        if holds(alloc, line) {
            held = held.saturating_add(1);
        } else {
            failed = failed.saturating_add(1);
            write!(report, "{line}\n")?;
        }
    }
    write!(report, "{held} floats have their text, {failed} don't\n")?;
    Ok(report)
}
