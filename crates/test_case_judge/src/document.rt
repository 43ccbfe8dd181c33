//! Checks all cases of a document.

use crate::checking::{Judge, check_case};
use crate::columns::KnownColumns;
use crate::fault::Fault;
use crate::reading::{list_of, text_of};
use std::alloc::{AllocError, Global};
use toml::{Table, Value};

// The reports of the cases that failed, and the numbers of passed and failed cases.
#[derive(Drop)]
struct Results {
    reports: String,
    passed: usize,
    failed: usize,
}

/// Checks a list of cases for each kind. Returns the report of each case that fails, and then a
/// line with their numbers.
pub fn check_document(
    alloc: Global,
    document: &Table,
    columns: &KnownColumns,
) -> Result<String, Fault> {
    let judge = Judge { alloc, columns };
    let mut results = Results {
        reports: String::new(alloc),
        passed: 0,
        failed: 0,
    };
    for (kind, cases) in document {
        check_each(judge, kind.as_str(), list_of(cases)?, &mut results)?;
    }
    Ok(with_numbers(results)?)
}

fn check_each(
    judge: Judge<'_>,
    kind: &str,
    cases: &[Value],
    results: &mut Results,
) -> Result<(), Fault> {
    for case in cases {
        match case.as_table() {
            Some(case) => add_result(judge, kind, case, results)?,
            None => return Err(Fault::Unknown("a case is no table")),
        }
    }
    Ok(())
}

fn add_result(
    judge: Judge<'_>,
    kind: &str,
    case: &Table,
    results: &mut Results,
) -> Result<(), Fault> {
    let report = check_case(judge, kind, case)?;
    if report.is_empty() {
        results.passed = results.passed.saturating_add(1);
        return Ok(());
    }
    results.failed = results.failed.saturating_add(1);
    let name = name_of(case)?;
    write!(results.reports, "{kind}: {name}\n{report}\n")?;
    Ok(())
}

fn name_of(case: &Table) -> Result<&str, Fault> {
    match case.get("name").or(case.get("text")) {
        Some(name) => text_of(name),
        None => Ok("without a name"),
    }
}

fn with_numbers(results: Results) -> Result<String, AllocError> {
    let Results {
        mut reports,
        passed,
        failed,
    } = results;
    if failed > 0 {
        write!(reports, "{failed} cases don't hold, {passed} do\n")?;
    } else {
        write!(reports, "{passed} cases hold\n")?;
    }
    Ok(reports)
}
