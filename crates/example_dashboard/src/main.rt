//! Prints readings as a dashboard of a given width: a headline, and below it panels side by side.
//! Each panel lists its readings from top to bottom.
#![tactic(auto)]

use anyhow::{Context, Result, bail, ensure};
use indexmap::IndexMap;
use std::alloc::Global;
use std::{env, io};
use tabled::TableError;
use tabled::grid::util::string::{cut_str, text_width, wrap_text};
use tabled::settings::Style;
use tabled::tables::{PoolTable, TableValue};

fn main(rt: HostRuntime) -> Result<()> {
    let width = width_of(&rt)?;
    let text = io::read_to_string(rt.alloc(), rt.stdin()).context("reading the input")?;
    let mut table = table_of(rt.alloc(), &text, width)?;
    table.apply(Style::modern())?;
    println!(rt; "{}", table.to_text()?)?;
    Ok(())
}

fn width_of(rt: &HostRuntime) -> Result<usize> {
    let Some(word) = env::args(rt)?.nth(1) else {
        bail!("the first word is a number of columns");
    };
    word.parse::<usize>()
        .context(format_args!("{word} is no number of columns"))
}

/// Returns the table: the first line as a headline, and the panels below it.
fn table_of(alloc: Global, text: &str, width: usize) -> Result<PoolTable> {
    let panels = panels_of(alloc, text)?;
    let Some(share) = width.saturating_sub(1).checked_div(panels.len()) else {
        bail!("there is no reading");
    };
    // Each panel has a border on its left, and a column of padding on both sides.
    let room = share.saturating_sub(3);
    ensure!(room > 0, "{width} columns are too few for the panels");
    let headline = text.lines().next().unwrap_or("");
    let headline = filled(alloc, headline, width.saturating_sub(4))?;
    let parts = [headline, row_of(alloc, panels, room)?];
    let parts = Vec::from_array(alloc, parts)?;
    Ok(PoolTable::from_value(TableValue::Column(parts)))
}

/// Returns the readings of each panel, from all lines after the first.
fn panels_of(alloc: Global, text: &str) -> Result<IndexMap<&str, Vec<String>>> {
    let mut panels = IndexMap::new(alloc);
    for (number, line) in (1..=u64::MAX).zip(text.lines()).skip(1) {
        let Some((panel, reading)) = line.split_once('\t') else {
            bail!("line {number} has no panel and reading");
        };
        let readings = panels.entry(panel)?.or_insert(Vec::new(alloc));
        readings.push(reading.replace(alloc, '\t', "\n")?)?;
    }
    Ok(panels)
}

/// Returns the panels side by side, each with a content width of `room`.
fn row_of(
    alloc: Global,
    panels: IndexMap<&str, Vec<String>>,
    room: usize,
) -> Result<TableValue, TableError> {
    let mut beside = Vec::new(alloc);
    for (panel, readings) in panels {
        beside.push(panel_of(alloc, panel, readings, room)?)?;
    }
    Ok(TableValue::Row(beside))
}

/// Returns a name above its readings, all wrapped to `room` columns.
fn panel_of(
    alloc: Global,
    name: &str,
    readings: Vec<String>,
    room: usize,
) -> Result<TableValue, TableError> {
    let mut parts = Vec::new(alloc);
    parts.push(TableValue::Cell(wrap_text(alloc, name, room, true)?))?;
    for reading in readings {
        parts.push(TableValue::Cell(wrap_text(alloc, &reading, room, true)?))?;
    }
    Ok(TableValue::Column(parts))
}

/// Cuts or pads a text to exactly `room` columns, so that the table gets its full width.
fn filled(alloc: Global, text: &str, room: usize) -> Result<TableValue, TableError> {
    let mut line = cut_str(alloc, text, room)?.into_owned(alloc)?;
    for _column in text_width(&line)..room {
        line.push(' ')?;
    }
    Ok(TableValue::Cell(line))
}
