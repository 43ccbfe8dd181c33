//! Prints a log as a table that is 64 columns wide. The message gets what the other columns leave,
//! and is wrapped between words.
#![tactic(auto)]

use anyhow::{Context, Result, bail, ensure};
use std::alloc::Global;
use std::io;
use tabled::builder::Builder;
use tabled::settings::peaker::Priority;
use tabled::settings::{Style, Width};
use tabled::{Table, TableError};

/// The total width of the table.
const WIDTH: usize = 64;

/// The left and right padding of a cell together.
const PADDING: usize = 2;

fn main(rt: HostRuntime) -> Result<()> {
    let alloc = rt.alloc();
    let text = io::read_to_string(alloc, rt.stdin()).context("reading the input")?;
    let table = fitted(Table::from(rows_of(alloc, &text)?))?;
    if let Some([.., message]) = table.get_dimension().get_widths() {
        ensure!(
            *message > PADDING,
            "the other columns leave none for the message"
        );
    }
    println!(rt; "{}", table.to_text()?)?;
    Ok(())
}

/// Returns a header, and a row for each line of the log.
fn rows_of(alloc: Global, text: &str) -> Result<Builder> {
    let mut builder = Builder::new(alloc);
    builder.add_record(["Time", "Level", "Source", "Message"])?;
    for (number, line) in (1..=u64::MAX).zip(text.lines()) {
        let Some((time, level, source, message)) = parts_of(line) else {
            bail!("line {number} has no time, level, source and message");
        };
        builder.add_record([time, level, source, message])?;
    }
    Ok(builder)
}

/// Splits a line into its time, level, source and message.
fn parts_of(line: &str) -> Option<(&str, &str, &str, &str)> {
    let (time, rest) = line.split_once(' ')?;
    let (level, rest) = rest.split_once(' ')?;
    let (source, message) = rest.split_once(' ')?;
    Some((time, level, source, message))
}

/// Fits a table to `WIDTH`. The last column shrinks first, and gets all columns that are missing.
fn fitted(mut table: Table) -> Result<Table, TableError> {
    let narrow = Width::wrap(WIDTH).keep_words(true);
    let widen = Width::increase(WIDTH);
    table.apply(Style::psql())?;
    table.apply(narrow.priority(Priority::right()))?;
    table.apply(widen.priority(Priority::right()))?;
    Ok(table)
}
