//! Prints pairs of characters in tables, and measures each line.

use crate::checking::{Judge, set_each};
use crate::drawing::{Counts, count_lines, texts_of};
use crate::fault::Fault;
use crate::reading::{list_at, list_of, number_at};
use std::alloc::Global;
use tabled::Table;
use tabled::builder::Builder;
use toml::Value;

/// Compares the numbers of lines of all tables with the expected ones: of all lines, and of those
/// that are measured by the table of columns. Each line must have the total width of its table.
pub fn check_pairs(judge: Judge<'_>, case: &toml::Table, report: &mut String) -> Result<(), Fault> {
    let characters = texts_of(judge.alloc, list_at(case, "characters")?)?;
    let ways = list_at(case, "ways")?;
    let found = count_each_way(judge, characters.as_slice(), ways, report)?;
    let expected = (number_at(case, "lines")?, number_at(case, "by_table")?);
    if (found.lines, found.by_table) != expected {
        let Counts { lines, by_table } = found;
        write!(
            report,
            "lines: {lines}, by the table: {by_table}, wanted: {expected:?}\n"
        )?;
    }
    Ok(())
}

fn count_each_way(
    judge: Judge<'_>,
    characters: &[&str],
    ways: &[Value],
    report: &mut String,
) -> Result<Counts, Fault> {
    let mut counts = Counts {
        lines: 0,
        by_table: 0,
    };
    for way in ways {
        counts.add(count_all_lines(judge, characters, list_of(way)?, report)?);
    }
    Ok(counts)
}

// The lines of one table per character, which pairs it with all characters.
fn count_all_lines(
    judge: Judge<'_>,
    characters: &[&str],
    commands: &[Value],
    report: &mut String,
) -> Result<Counts, Fault> {
    let mut counts = Counts {
        lines: 0,
        by_table: 0,
    };
    for first in characters {
        let mut table = pairs_of(judge.alloc, *first, characters)?;
        counts.add(count_set_lines(judge, &mut table, commands, report)?);
    }
    Ok(counts)
}

fn count_set_lines(
    judge: Judge<'_>,
    table: &mut Table,
    commands: &[Value],
    report: &mut String,
) -> Result<Counts, Fault> {
    match set_each(judge.alloc, table, commands, report)? {
        Some(error) => Err(Fault::Refused(error)),
        None => count_printed(judge, table),
    }
}

// Fails if a line doesn't have the total width.
fn count_printed(judge: Judge<'_>, table: &Table) -> Result<Counts, Fault> {
    let text = table.to_string()?;
    count_lines(judge.columns, text.as_str(), table.total_width()?)
}

// One row per pair.
fn pairs_of(alloc: Global, first: &str, others: &[&str]) -> Result<Table, Fault> {
    let mut builder = Builder::new(alloc);
    for second in others {
        builder.add_record(cells_of(alloc, first, *second)?)?;
    }
    Ok(Table::from(builder))
}

// Each character alone, both joined, and both in the other order.
fn cells_of(alloc: Global, first: &str, second: &str) -> Result<Vec<String>, Fault> {
    let mut cells = Vec::new(alloc);
    cells.push(String::from_str(alloc, first)?)?;
    cells.push(String::from_str(alloc, second)?)?;
    cells.push(format!(in alloc; "{first}{second}")?)?;
    cells.push(format!(in alloc; "{second}{first}{second}{first}{first}")?)?;
    Ok(cells)
}
