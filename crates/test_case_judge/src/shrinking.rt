//! Shrinks lists of sizes by each priority.

use crate::fault::Fault;
use crate::reading::{list_at, list_of, number_at, numbers_of};
use crate::report::{compare, shown_numbers};
use std::alloc::Global;
use tabled::settings::peaker::{Peaker, Priority, Steps};
use toml::Value;

/// Compares the list that each priority leaves with the expected one.
pub fn check_sizes(alloc: Global, case: &toml::Table, report: &mut String) -> Result<(), Fault> {
    let mut has_expected = false;
    for (priority, value) in case {
        if !is_input(priority.as_str()) {
            has_expected = true;
            check_list(alloc, case, priority.as_str(), value, report)?;
        }
    }
    if has_expected {
        Ok(())
    } else {
        Err(Fault::Unknown("nothing is wanted"))
    }
}

fn is_input(key: &str) -> bool {
    key == "name" || key == "sizes" || key == "minimums" || key == "by"
}

fn check_list(
    alloc: Global,
    case: &toml::Table,
    priority: &str,
    value: &Value,
    report: &mut String,
) -> Result<(), Fault> {
    let actual = shrunk(alloc, case, priority)?;
    let expected = numbers_of(alloc, list_of(value)?)?;
    let expected = shown_numbers(alloc, expected.as_slice())?;
    compare(report, priority, actual.as_str(), expected.as_str())?;
    Ok(())
}

// The sizes that a priority leaves.
fn shrunk(alloc: Global, case: &toml::Table, priority: &str) -> Result<String, Fault> {
    let by = number_at(case, "by")?;
    let (minimums, sizes) = (list_at(case, "minimums")?, list_at(case, "sizes")?);
    let minimums = numbers_of(alloc, minimums)?;
    let mut sizes = numbers_of(alloc, sizes)?;
    shrink_quickly(priority, minimums.as_slice(), sizes.as_mut_slice(), by)?;
    Ok(shown_numbers(alloc, sizes.as_slice())?)
}

fn shrink_quickly(
    priority: &str,
    minimums: &[usize],
    sizes: &mut [usize],
    by: usize,
) -> Result<(), Fault> {
    let max_steps = max_steps(sizes.len());
    if shrink(priority, minimums, sizes, by)? > max_steps {
        return Err(Fault::Unknown("too many steps"));
    }
    Ok(())
}

// A bound that doesn't depend on the amount: shrinking must not take one step per column of width.
fn max_steps(count: usize) -> usize {
    let side = count.saturating_add(1);
    side.saturating_mul(side).saturating_mul(8)
}

// Returns the number of steps.
fn shrink(
    priority: &str,
    minimums: &[usize],
    sizes: &mut [usize],
    by: usize,
) -> Result<usize, Fault> {
    match priority {
        "none" => shrink_by(Priority::none(), minimums, sizes, by),
        "left" => shrink_by(Priority::left(), minimums, sizes, by),
        "right" => shrink_by(Priority::right(), minimums, sizes, by),
        "max_left" => shrink_by(Priority::max(false), minimums, sizes, by),
        "max_right" => shrink_by(Priority::max(true), minimums, sizes, by),
        "min_left" => shrink_by(Priority::min(false), minimums, sizes, by),
        "min_right" => shrink_by(Priority::min(true), minimums, sizes, by),
        _ => Err(Fault::Unknown("no such priority")),
    }
}

fn shrink_by<P: Peaker + Drop>(
    mut priority: P,
    minimums: &[usize],
    sizes: &mut [usize],
    by: usize,
) -> Result<usize, Fault> {
    if !minimums.is_empty() && minimums.len() != sizes.len() {
        return Err(Fault::Unknown("a minimum for each size, or none"));
    }
    let mut steps = Steps::new();
    let _taken = priority.shrink(minimums, sizes, by, &mut steps);
    Ok(steps.count())
}
