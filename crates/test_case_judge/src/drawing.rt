//! Makes tables of the rows of a case, and writes their properties as text.
ghost use Rattle.std.specs.Prelude.{◌<◌, length};

use crate::checking::Judge;
use crate::columns::KnownColumns;
use crate::fault::Fault;
use crate::reading::{list_of, text_of};
use crate::report::shown_numbers;
use std::alloc::{AllocError, Global};
use tabled::builder::Builder;
use tabled::grid::config::{Position, SpannedConfig};
use tabled::grid::records::{ExactRecords, PeekableRecords, Text, VecRecords};
use tabled::grid::util::string::{line_width, lines};
use tabled::settings::measurement::{Max, Measurement, Min};
use tabled::settings::{Height, Width};
use tabled::{IoSink, Table, TableError};
use toml::Value;

pub fn table_of(alloc: Global, rows: &[Value]) -> Result<Table, Fault> {
    let mut builder = Builder::new(alloc);
    for row in rows {
        builder.push_record(texts_of(alloc, list_of(row)?)?)?;
    }
    Ok(Table::from(builder))
}

pub fn texts_of<'a>(alloc: Global, list: &'a [Value]) -> Result<Vec<&'a str>, Fault> {
    let mut texts = Vec::new(alloc);
    for text in list {
        texts.push(text_of(text)?)?;
    }
    Ok(texts)
}

/// A property of a table, as text. A property that fails is the name of its error.
pub fn property(judge: Judge<'_>, table: &Table, key: &str) -> Result<String, Fault> {
    let alloc = judge.alloc;
    match key {
        "picture" | "top" | "refused" => printed_property(judge, table, key),
        "width" => shown_number(alloc, table.total_width()),
        "height" => shown_number(alloc, table.total_height()),
        "widths" => shown_sizes(alloc, table.get_dimension().get_widths()),
        "heights" => shown_sizes(alloc, table.get_dimension().get_heights()),
        "cells" => shown_cells(alloc, table.get_records()),
        "plain" => shown_answer(alloc, table.is_plain()),
        "apart" => shown_answer(alloc, table.is_apart()),
        "extremes" => extremes(alloc, table),
        _ => Err(Fault::Unknown("no such question")),
    }
}

// The picture, or its first line. `refused` is empty unless printing fails.
fn printed_property(judge: Judge<'_>, table: &Table, key: &str) -> Result<String, Fault> {
    let alloc = judge.alloc;
    match (printed(judge, table)?, key) {
        (Ok(text), "picture") => Ok(text),
        (Ok(text), "top") => {
            let top = text.split('\n').next().unwrap_or("");
            Ok(String::from_str(alloc, top)?)
        }
        (Ok(_), _) => Ok(String::new(alloc)),
        (Err(error), _) => error_name(alloc, error),
    }
}

pub fn error_name(alloc: Global, error: TableError) -> Result<String, Fault> {
    Ok(format!(in alloc; "{error:?}")?)
}

pub fn shown_answer(alloc: Global, answer: bool) -> Result<String, Fault> {
    Ok(String::from_str(alloc, if answer { "true" } else { "false" })?)
}

fn shown_number(alloc: Global, outcome: Result<usize, TableError>) -> Result<String, Fault> {
    match outcome {
        Ok(number) => Ok(format!(in alloc; "{number}")?),
        Err(error) => error_name(alloc, error),
    }
}

fn shown_sizes(alloc: Global, sizes: Option<&[usize]>) -> Result<String, Fault> {
    match sizes {
        Some(sizes) => Ok(shown_numbers(alloc, sizes)?),
        None => Ok(String::from_str(alloc, "none")?),
    }
}

// Also checks that a writer gets the same as a string, and nothing if printing fails. If the
// settings separate cells, each line must have the table's total width.
fn printed(judge: Judge<'_>, table: &Table) -> Result<Result<String, TableError>, Fault> {
    let printed = table.to_string();
    let mut bytes: Vec<u8> = Vec::new(judge.alloc);
    let outcome = table.write_to(&mut IoSink::new(&mut bytes));
    let same = match &printed {
        Ok(text) => outcome == Ok(()) && bytes.as_slice() == text.as_bytes(),
        Err(error) => outcome == Err(*error) && bytes.is_empty(),
    };
    if !same {
        return Err(Fault::Unknown("a writer gets another picture"));
    }
    if let Ok(text) = &printed {
        if table.is_apart() {
            count_lines(judge.columns, text.as_str(), table.total_width()?)?;
        }
    }
    Ok(printed)
}

/// Lines, and those of them that are measured by a table made outside of the library.
#[derive(Clone, Copy)]
pub struct Counts {
    pub lines: usize,
    pub by_table: usize,
}

impl Counts {
    /// Adds other lines to these.
    pub fn add(&mut self, others: Counts) {
        self.lines = self.lines.saturating_add(others.lines);
        self.by_table = self.by_table.saturating_add(others.by_table);
    }
}

/// Counts the lines. Fails if one of them isn't `columns` wide by the table or, for characters that
/// aren't in it or may join, by `line_width`.
pub fn count_lines(known: &KnownColumns, text: &str, columns: usize) -> Result<Counts, Fault> {
    let mut counts = Counts {
        lines: 0,
        by_table: 0,
    };
    for line in lines(text) {
        let found = known.columns_of(line);
        if found.unwrap_or(line_width(line)) != columns {
            return Err(Fault::Unknown("a line takes other columns"));
        }
        counts.add(Counts {
            lines: 1,
            by_table: usize::from(found.is_some()),
        });
    }
    Ok(counts)
}

// One line per row, with each cell in quotes and followed by a space.
fn shown_cells(alloc: Global, records: &VecRecords<Text<String>>) -> Result<String, Fault> {
    let mut text = String::new(alloc);
    for row in 0..records.count_rows() {
        show_row(&mut text, records, row)?;
    }
    Ok(text)
}

fn show_row(
    text: &mut String,
    records: &VecRecords<Text<String>>,
    row: usize,
) -> Result<(), AllocError>
    requires { row < length records.now }
{
    for column in 0..records.count_columns() {
        let cell = records.get_text(Position { row, column });
        write!(text, "{cell:?} ")?;
    }
    text.push('\n')?;
    Ok(())
}

// The maximum and minimum width of the cells, then the maximum and minimum height.
fn extremes(alloc: Global, table: &Table) -> Result<String, Fault> {
    let records = table.get_records();
    let config: &SpannedConfig = table.get_config().as_ref();
    let measures = [
        Measurement::<Width>::measure(&Max, records, config)?,
        Measurement::<Width>::measure(&Min, records, config)?,
        Measurement::<Height>::measure(&Max, records, config)?,
        Measurement::<Height>::measure(&Min, records, config)?,
    ];
    Ok(shown_numbers(alloc, &measures)?)
}
