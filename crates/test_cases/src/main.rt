//! Checks the cases on standard input and the lines of the files `extremes` and `floats`, and tests
//! writers that stop early and calls in which an allocation may fail. The file `columns` has the
//! columns of characters. With the argument `names` it lists these calls instead; with a kind and a
//! number it runs one of them.
#![tactic(auto)]

mod floats;

use crate::floats::told_floats;
use anyhow::Result;
use std::{env, fs, io};
use tabled::TableError;
use test_case_judge::{KnownColumns, check_document};
use test_hostile_uses::{names, stopped_printers, stopped_runs, told, tried, tried_all};
use test_refused_uses::Found;

fn main(rt: HostRuntime) -> Result<()> {
    let mut words = env::args(&rt)?.skip(1);
    match (words.next(), words.next()) {
        (Some(kind), Some(number)) => tell_call(&rt, kind.as_str(), number.as_str()),
        (Some(_), None) => tell_names(&rt),
        _ => tell_all(&rt),
    }
}

fn tell_all(rt: &HostRuntime) -> Result<()> {
    tell_cases(rt)?;
    tell_lines(rt)?;
    tell_tests(rt)
}

fn tell_cases(rt: &HostRuntime) -> Result<()> {
    let input = io::read_to_string(rt.alloc(), rt.stdin())?;
    let document = toml::table_from_str(rt.alloc(), input.as_str())?;
    let columns = fs::read_to_string(rt, "columns")?;
    let columns = KnownColumns::read(rt.alloc(), columns.as_str())?;
    print!(rt; "{}", check_document(rt.alloc(), &document, &columns)?)?;
    Ok(())
}

fn tell_lines(rt: &HostRuntime) -> Result<()> {
    let lines = fs::read_to_string(rt, "extremes")?;
    print!(rt; "{}", told(rt.alloc(), lines.as_str())?)?;
    let lines = fs::read_to_string(rt, "floats")?;
    print!(rt; "{}", told_floats(rt.alloc(), lines.as_str())?)?;
    Ok(())
}

fn tell_tests(rt: &HostRuntime) -> Result<()> {
    let alloc = rt.alloc();
    print!(rt; "{}{}", stopped_printers(alloc)?, stopped_runs(alloc)?)?;
    print!(rt; "{}", tried_all(alloc)?)?;
    Ok(())
}

fn tell_names(rt: &HostRuntime) -> Result<()> {
    print!(rt; "{}", names(rt.alloc())?)?;
    Ok(())
}

fn tell_call(rt: &HostRuntime, kind: &str, number: &str) -> Result<()> {
    let number = number.parse().unwrap_or(usize::MAX);
    let (outcome, what) = outcome(tried(rt.alloc(), kind, number));
    println!(rt; "{outcome}{what}")?;
    Ok(())
}

// The outcome of a call in one word, and what is wrong. `elsewhere`: an allocation failed in the
// setup or the check of the call.
fn outcome(found: Result<Option<Found>, TableError>) -> (&'static str, &'static str) {
    match found {
        Ok(Some(Found::Whole)) => ("whole", ""),
        Ok(Some(Found::Refused)) => ("refused", ""),
        Ok(Some(Found::Wrong(what))) => ("wrong: ", what),
        Ok(None) => ("wrong: ", "no such call"),
        Err(TableError::Memory) => ("elsewhere", ""),
        Err(_) => ("wrong: ", "another refusal"),
    }
}
