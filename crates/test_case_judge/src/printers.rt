//! Runs the printers that keep no `Table`: `IterTable`, `CompactTable`, `PoolTable` and
//! `ExtendedTable`.

use crate::drawing::{error_name, shown_answer, texts_of};
use crate::fault::Fault;
use crate::print_options::PrintOptions;
use crate::reading::{list_at, list_of, text_of};
use crate::words::Words;
use std::alloc::Global;
use tabled::TableError;
use tabled::grid::config::CompactMultilineConfig;
use tabled::grid::dimension::{DimensionValue, StaticDimension};
use tabled::tables::{CompactTable, ExtendedTable, IterTable, PoolTable, TableValue};
use toml::Value;

/// The result of a printer. What a printer doesn't report is `None`.
#[derive(Drop)]
pub struct Printed {
    text: String,
    outcome: Result<(), TableError>,
    // Whether the settings separate cells.
    is_apart: Option<bool>,
    // Whether all boxes and texts are plain.
    is_plain: Option<bool>,
    // The number of `truncate` commands that changed something.
    truncated: Option<usize>,
}

impl Printed {
    fn new(alloc: Global) -> Printed {
        Printed {
            text: String::new(alloc),
            outcome: Ok(()),
            is_apart: None,
            is_plain: None,
            truncated: None,
        }
    }

    /// A property, as text. The text printed before an error is part of the picture.
    pub fn property(&self, alloc: Global, key: &str) -> Result<String, Fault> {
        match (key, self.is_apart, self.is_plain, self.truncated) {
            ("picture", _, _, _) => Ok(String::from_str(alloc, self.text.as_str())?),
            ("refused", _, _, _) => match self.outcome {
                Ok(()) => Ok(String::new(alloc)),
                Err(error) => error_name(alloc, error),
            },
            ("apart", Some(is_apart), _, _) => shown_answer(alloc, is_apart),
            ("plain", _, Some(is_plain), _) => shown_answer(alloc, is_plain),
            ("truncated", _, _, Some(count)) => Ok(format!(in alloc; "{count}")?),
            _ => Err(Fault::Unknown("no such question")),
        }
    }
}

/// Prints the rows or the tree of a case of the given kind.
pub fn print_case(alloc: Global, kind: &str, case: &toml::Table) -> Result<Printed, Fault> {
    let commands = list_at(case, "set")?;
    if kind == "records" {
        return print_records(alloc, rows_of(alloc, case)?, commands);
    }
    print_set(alloc, kind, case, &options_of(alloc, kind, commands)?)
}

fn options_of(alloc: Global, kind: &str, commands: &[Value]) -> Result<PrintOptions, Fault> {
    let mut options = PrintOptions::new(alloc);
    for command in commands {
        options.set(alloc, kind, text_of(command)?)?;
    }
    Ok(options)
}

fn print_set(
    alloc: Global,
    kind: &str,
    case: &toml::Table,
    options: &PrintOptions,
) -> Result<Printed, Fault> {
    match (kind, case.get("tree")) {
        ("stream", None) => print_stream(alloc, rows_of(alloc, case)?, options),
        ("compact", None) => print_compact(alloc, rows_of(alloc, case)?, options),
        ("boxes", None) => print_boxes(PoolTable::new(alloc, rows_of(alloc, case)?)?, options),
        ("boxes", Some(tree)) => {
            print_boxes(PoolTable::from_value(tree_of(alloc, tree, 9)?), options)
        }
        _ => Err(Fault::Unknown("no such kind of case")),
    }
}

fn rows_of<'a>(alloc: Global, case: &'a toml::Table) -> Result<Vec<Vec<&'a str>>, Fault> {
    let mut rows = Vec::new(alloc);
    for row in list_at(case, "rows")? {
        rows.push(texts_of(alloc, list_of(row)?)?)?;
    }
    Ok(rows)
}

fn print_stream(
    alloc: Global,
    rows: Vec<Vec<&str>>,
    options: &PrintOptions,
) -> Result<Printed, Fault> {
    let mut table = IterTable::new(rows);
    table.apply(options.config)?;
    limit_stream(&mut table, options);
    let mut printed = Printed::new(alloc);
    printed.outcome = table.fmt(alloc, &mut printed.text);
    Ok(printed)
}

fn limit_stream(table: &mut IterTable<Vec<Vec<&str>>>, options: &PrintOptions) {
    if let Some(count) = options.sniff {
        table.sniff(count);
    }
    if let Some(count) = options.columns {
        table.columns(count);
    }
    if let Some(count) = options.rows {
        table.rows(count);
    }
    if let Some(columns) = options.width {
        table.width(columns);
    }
    if let Some(lines) = options.height {
        table.height(lines);
    }
}

fn print_compact(
    alloc: Global,
    rows: Vec<Vec<&str>>,
    options: &PrintOptions,
) -> Result<Printed, Fault> {
    let mut table = CompactTable::with_dimension(rows, sizes_of(alloc, options)?)
        .columns(options.columns.unwrap_or(0))
        .skip(options.skip);
    if let Some(count) = options.rows {
        table = table.rows(count);
    }
    let table = table.with(options.config)?;
    let mut printed = Printed::new(alloc);
    printed.outcome = table.fmt(&mut printed.text);
    Ok(printed)
}

// The widths of a compact table, whose rows have one line.
fn sizes_of(alloc: Global, options: &PrintOptions) -> Result<StaticDimension, Fault> {
    let widths = match options.width {
        Some(width) => DimensionValue::Exact(width),
        None => DimensionValue::List(Vec::from_slice(alloc, options.widths.as_slice())?),
    };
    Ok(StaticDimension::new(widths, DimensionValue::Exact(1)))
}

fn print_boxes(mut table: PoolTable, options: &PrintOptions) -> Result<Printed, Fault> {
    set_boxes(&mut table, options)?;
    let mut printed = Printed::new(*options.widths.allocator());
    printed.is_apart = Some(table.is_apart());
    printed.is_plain = Some(table.is_plain());
    printed.outcome = table.write_to(&mut printed.text);
    Ok(printed)
}

fn set_boxes(table: &mut PoolTable, options: &PrintOptions) -> Result<(), TableError> {
    table.apply(CompactMultilineConfig::from(options.config))?;
    table.apply(options.boxes)
}

// A text, or a row or a column of values. Fails if the tree is deeper than `levels`.
fn tree_of(alloc: Global, value: &Value, levels: usize) -> Result<TableValue, Fault> {
    let Some(table) = value.as_table() else {
        return Ok(TableValue::Cell(String::from_str(alloc, text_of(value)?)?));
    };
    if levels == 0 {
        return Err(Fault::Unknown("too deep a tree"));
    }
    let is_row = table.contains_key("row");
    let mut children = Vec::new(alloc);
    for child in list_at(table, if is_row { "row" } else { "column" })? {
        children.push(tree_of(alloc, child, levels - 1)?)?;
    }
    if is_row {
        Ok(TableValue::Row(children))
    } else {
        Ok(TableValue::Column(children))
    }
}

// Truncates the records by each command in order.
fn print_records(
    alloc: Global,
    rows: Vec<Vec<&str>>,
    commands: &[Value],
) -> Result<Printed, Fault> {
    let mut table = ExtendedTable::from_rows(alloc, rows)?;
    let count = truncate_by_each(&mut table, commands)?;
    let mut printed = Printed::new(alloc);
    printed.truncated = Some(count);
    printed.outcome = table.write_to(&mut printed.text);
    Ok(printed)
}

// Returns the number of commands that changed something.
fn truncate_by_each(table: &mut ExtendedTable, commands: &[Value]) -> Result<usize, Fault> {
    let mut count: usize = 0;
    for command in commands {
        if truncate(table, text_of(command)?)? {
            count = count.saturating_add(1);
        }
    }
    Ok(count)
}

fn truncate(table: &mut ExtendedTable, command: &str) -> Result<bool, Fault> {
    let mut words = Words::new(command);
    if words.word() != "truncate" {
        return Err(Fault::Unknown("no such command"));
    }
    Ok(table.truncate(words.number()?, words.others())?)
}
