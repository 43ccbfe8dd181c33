//! Checks one case, and writes a report that is empty if the case passes.

use crate::columns::KnownColumns;
use crate::drawing::{error_name, property, table_of};
use crate::fault::Fault;
use crate::pairs::check_pairs;
use crate::printers::{Printed, print_case};
use crate::reading::{list_at, text_at, text_of};
use crate::report::{compare, expected_text};
use crate::settings::set;
use crate::shrinking::check_sizes;
use crate::sizing::narrowed;
use std::alloc::{AllocError, Global};
use tabled::{Table, TableError};
use toml::Value;

/// The allocator, and the columns of characters by which lines are measured.
#[derive(Clone, Copy)]
pub struct Judge<'a> {
    pub alloc: Global,
    pub columns: &'a KnownColumns,
}

// What the expected results are compared with. A table comes with the error of a failed command.
#[derive(Clone, Copy)]
enum Subject<'a> {
    Table(&'a Table, Option<TableError>),
    Printed(&'a Printed),
}

/// Returns a report, which is empty if the case passes. The kinds of cases:
///
/// - `case`: a table of rows, set by commands
/// - `stream`, `compact`, `boxes` and `records`: the printers that keep no `Table`
/// - `text`: one string, narrowed
/// - `shrink`: a list of sizes, shrunk by each named priority
/// - `pairs`: pairs of characters in tables, of which each line is measured
pub fn check_case(judge: Judge<'_>, kind: &str, case: &toml::Table) -> Result<String, AllocError> {
    match check(judge, kind, case) {
        Ok(report) => Ok(report),
        Err(fault) => format!(in judge.alloc; "{fault}\n"),
    }
}

fn check(judge: Judge<'_>, kind: &str, case: &toml::Table) -> Result<String, Fault> {
    let alloc = judge.alloc;
    let mut report = String::new(alloc);
    match kind {
        "case" => check_table(judge, case, &mut report)?,
        "text" => check_text(alloc, case, &mut report)?,
        "shrink" => check_sizes(alloc, case, &mut report)?,
        "pairs" => check_pairs(judge, case, &mut report)?,
        _ => {
            let printed = print_case(alloc, kind, case)?;
            check_results(judge, Subject::Printed(&printed), case, &mut report)?;
        }
    }
    Ok(report)
}

fn check_text(alloc: Global, case: &toml::Table, report: &mut String) -> Result<(), Fault> {
    let text = narrowed(alloc, text_at(case, "text")?, text_at(case, "by")?)?;
    compare(report, "text", text.as_str(), text_at(case, "becomes")?)?;
    Ok(())
}

fn check_table(judge: Judge<'_>, case: &toml::Table, report: &mut String) -> Result<(), Fault> {
    let mut table = table_of(judge.alloc, list_at(case, "rows")?)?;
    let stopped = set_each(judge.alloc, &mut table, list_at(case, "set")?, report)?;
    if stopped.is_some() && !case.contains_key("stopped") {
        return Err(Fault::Unknown("a setting is refused"));
    }
    check_results(judge, Subject::Table(&table, stopped), case, report)
}

/// Runs the commands up to the first one that fails, and returns its error.
pub fn set_each(
    alloc: Global,
    table: &mut Table,
    commands: &[Value],
    report: &mut String,
) -> Result<Option<TableError>, Fault> {
    for command in commands {
        let command = text_of(command)?;
        match set(alloc, table, command) {
            Ok(()) => {}
            Err(Fault::Refused(error)) => return Ok(Some(error)),
            Err(Fault::Unknown(what)) => {
                write!(report, "{what}: {command}\n")?;
                return Ok(None);
            }
        }
    }
    Ok(None)
}

// A case without expected results checks nothing, so it is an error.
fn check_results(
    judge: Judge<'_>,
    subject: Subject<'_>,
    case: &toml::Table,
    report: &mut String,
) -> Result<(), Fault> {
    let mut has_expected = false;
    for (key, value) in case {
        if !is_input(key.as_str()) {
            has_expected = true;
            check_result(judge, subject, key.as_str(), value, report)?;
        }
    }
    if has_expected {
        Ok(())
    } else {
        Err(Fault::Unknown("nothing is wanted"))
    }
}

fn is_input(key: &str) -> bool {
    key == "name" || key == "rows" || key == "tree" || key == "set"
}

// `stopped`, the error of a command, exists only if a command failed.
fn check_result(
    judge: Judge<'_>,
    subject: Subject<'_>,
    key: &str,
    value: &Value,
    report: &mut String,
) -> Result<(), Fault> {
    let alloc = judge.alloc;
    let actual = match subject {
        Subject::Table(_, Some(error)) if key == "stopped" => error_name(alloc, error)?,
        Subject::Table(table, _) => property(judge, table, key)?,
        Subject::Printed(printed) => printed.property(alloc, key)?,
    };
    let expected = expected_text(alloc, value)?;
    compare(report, key, actual.as_str(), expected.as_str())?;
    Ok(())
}
