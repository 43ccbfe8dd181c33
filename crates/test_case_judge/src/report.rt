//! Writes actual and expected values as text, and reports those that differ.

use crate::fault::Fault;
use crate::reading::{number_of, text_of};
use std::alloc::{AllocError, Global};
use std::fmt;
use toml::Value;

// Displays each line between bars, so that trailing spaces are visible.
#[derive(Drop)]
struct Barred<'a>(&'a str);

impl fmt::Display for Barred<'_> {
    fn fmt<W: fmt::Write>(&self, f: &mut fmt::Formatter<W>) -> fmt::Result {
        for line in self.0.split('\n') {
            writeln!(f, "¦{line}¦")?;
        }
        Ok(())
    }
}

/// Adds nothing to the report if both are equal.
pub fn compare(
    report: &mut String,
    key: &str,
    actual: &str,
    expected: &str,
) -> Result<(), AllocError> {
    if actual == expected {
        return Ok(());
    }
    let (actual, expected) = (Barred(actual), Barred(expected));
    write!(report, "{key}:\n{actual}wanted:\n{expected}")
}

/// Each number is followed by a space.
pub fn shown_numbers(alloc: Global, numbers: &[usize]) -> Result<String, AllocError> {
    let mut text = String::new(alloc);
    for number in numbers {
        write!(text, "{number} ")?;
    }
    Ok(text)
}

// A string in quotes, or a number, followed by a space.
fn show_item(text: &mut String, item: &Value) -> Result<(), Fault> {
    if item.is_str() {
        let item = text_of(item)?;
        write!(text, "{item:?} ")?;
    } else {
        let number = number_of(item)?;
        write!(text, "{number} ")?;
    }
    Ok(())
}

fn show_row(text: &mut String, row: &[Value]) -> Result<(), Fault> {
    for item in row {
        show_item(text, item)?;
    }
    text.push('\n')?;
    Ok(())
}

fn show_list(text: &mut String, list: &[Value]) -> Result<(), Fault> {
    for item in list {
        match item {
            Value::Array(row) => show_row(text, row.as_slice())?,
            _ => show_item(text, item)?,
        }
    }
    Ok(())
}

/// An expected value, in the form in which actual values are written. Each inner list is a line.
pub fn expected_text(alloc: Global, value: &Value) -> Result<String, Fault> {
    let mut text = String::new(alloc);
    match value {
        Value::String(string) => text.push_str(string.as_str())?,
        Value::Boolean(boolean) => write!(text, "{boolean}")?,
        Value::Array(list) => show_list(&mut text, list.as_slice())?,
        _ => write!(text, "{}", number_of(value)?)?,
    }
    Ok(text)
}
