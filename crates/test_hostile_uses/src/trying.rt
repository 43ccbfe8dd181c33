//! Options and calls, listed and run by kind and number.

use crate::changes::{BY_COLUMNS, BY_ROWS, Change, changed};
use std::alloc::{AllocError, Global};
use tabled::TableError;
use test_refused_uses::Found;

fn change_at(
    alloc: Global,
    changes: &[Change],
    number: usize,
    by_columns: bool,
) -> Result<Option<Found>, TableError> {
    match changes.get(number) {
        Some(&change) => Ok(Some(changed(alloc, change, by_columns)?)),
        None => Ok(None),
    }
}

/// Runs one option or call and returns the outcome, or `None` if there is none. The kinds `columns`
/// and `rows` are options; all others are calls of `test_refused_uses`.
pub fn tried(alloc: Global, kind: &str, number: usize) -> Result<Option<Found>, TableError> {
    match kind {
        "columns" => change_at(alloc, BY_COLUMNS, number, true),
        "rows" => change_at(alloc, BY_ROWS, number, false),
        _ => test_refused_uses::tried(alloc, kind, number),
    }
}

// Writes a line for each option: kind, number and command.
fn list_changes(report: &mut String, kind: &str, changes: &[Change]) -> Result<(), AllocError> {
    for (number, &(command, _)) in changes.iter().enumerate() {
        write!(report, "{kind} {number} {command}\n")?;
    }
    Ok(())
}

/// Lists all options and calls, one per line: kind, number and name.
pub fn names(alloc: Global) -> Result<String, AllocError> {
    let mut report = String::new(alloc);
    list_changes(&mut report, "columns", BY_COLUMNS)?;
    list_changes(&mut report, "rows", BY_ROWS)?;
    report.push_str(test_refused_uses::names(alloc)?.as_str())?;
    Ok(report)
}

// Counts the calls of a kind that succeed, and reports each other one. No kind has more than 100.
fn count_whole(alloc: Global, kind: &str, report: &mut String) -> Result<usize, TableError> {
    let mut count: usize = 0;
    for number in 0..100 {
        match tried(alloc, kind, number)? {
            Some(Found::Whole) => count = count.saturating_add(1),
            Some(Found::Refused) => write!(report, "{kind} {number}: refused\n")?,
            Some(Found::Wrong(what)) => write!(report, "{kind} {number}: {what}\n")?,
            None => return Ok(count),
        }
    }
    Ok(count)
}

/// Runs all options and calls. Returns a line for each one that fails, and a line for each kind:
/// how many succeeded.
pub fn tried_all(alloc: Global) -> Result<String, TableError> {
    let mut report = String::new(alloc);
    for kind in [
        "columns", "rows", "call", "material", "drawing", "text", "room", "sparing",
    ] {
        let count = count_whole(alloc, kind, &mut report)?;
        write!(report, "{kind}: {count} calls did what they are for\n")?;
    }
    Ok(report)
}
