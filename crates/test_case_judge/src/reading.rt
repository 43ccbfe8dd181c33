//! Reads typed values of a TOML document, with an error for each missing or wrong one.

use crate::fault::Fault;
use crate::words::number;
use std::alloc::Global;
use toml::{Table, Value};

pub fn text_at<'a>(entry: &'a Table, key: &str) -> Result<&'a str, Fault> {
    match entry.get(key) {
        Some(value) => text_of(value),
        None => Err(Fault::Unknown("a text is missing")),
    }
}

pub fn text_of(value: &Value) -> Result<&str, Fault> {
    match value.as_str() {
        Some(text) => Ok(text),
        None => Err(Fault::Unknown("no text")),
    }
}

pub fn list_of(value: &Value) -> Result<&[Value], Fault> {
    match value.as_array() {
        Some(list) => Ok(list.as_slice()),
        None => Err(Fault::Unknown("no list")),
    }
}

/// The list is empty if the key is missing.
pub fn list_at<'a>(entry: &'a Table, key: &str) -> Result<&'a [Value], Fault> {
    match entry.get(key) {
        Some(value) => list_of(value),
        None => Ok(Default::default()),
    }
}

/// A number may also be a string: digits, or `greatest` for `usize::MAX`.
pub fn number_of(value: &Value) -> Result<usize, Fault> {
    match value {
        Value::Integer(integer) => match usize::try_from(*integer) {
            Ok(number) => Ok(number),
            Err(_) => Err(Fault::Unknown("a number below zero")),
        },
        _ => number(text_of(value)?),
    }
}

pub fn number_at(entry: &Table, key: &str) -> Result<usize, Fault> {
    match entry.get(key) {
        Some(value) => number_of(value),
        None => Err(Fault::Unknown("a number is missing")),
    }
}

pub fn numbers_of(alloc: Global, list: &[Value]) -> Result<Vec<usize>, Fault> {
    let mut numbers = Vec::new(alloc);
    for value in list {
        numbers.push(number_of(value)?)?;
    }
    Ok(numbers)
}
