//! Looks at tables: prints CSV, TSV, JSON, JSON lines or a query of SQLite as a table that fits the
//! terminal.
#![tactic(auto)]

mod message;
#[cfg(test)]
mod tests;

use clap::ArgMatches;
use message::{complain, explain};
use std::process::ExitCode;
use std::rt::Env;
use std::{env, io};
use tabview_options::{Options, command, width_of};
use tabview_show::{ViewError, show};

fn main(rt: HostRuntime) -> io::Result<ExitCode> {
    let words: Vec<String> = env::args(&rt)?.collect(rt.alloc())?;
    run(&rt, words.as_slice())
}

/// Runs the viewer with the words of a command line.
fn run(rt: &HostRuntime, words: &[String]) -> io::Result<ExitCode> {
    match command(rt.alloc())?.try_get_matches_from(words) {
        Ok(matches) => view(rt, &matches),
        Err(error) => {
            explain(rt, &error)?;
            Ok(ExitCode::from(error.exit_code() as u8))
        }
    }
}

fn view(rt: &HostRuntime, matches: &ArgMatches<'_>) -> io::Result<ExitCode> {
    match Options::of(rt.alloc(), matches, terminal_width(rt)) {
        Ok(options) => outcome(rt, &options, show(rt, &options)),
        Err(error) => {
            complain(rt, &format!(in rt.alloc(); "{error}")?)?;
            Ok(ExitCode::from(2))
        }
    }
}

/// Reports an error, and returns the status.
fn outcome(
    rt: &HostRuntime,
    options: &Options<'_>,
    shown: Result<(), ViewError>,
) -> io::Result<ExitCode> {
    match shown {
        Ok(()) => Ok(ExitCode::SUCCESS),
        Err(error) => {
            let input = options.input.file.unwrap_or("standard input");
            complain(rt, &format!(in rt.alloc(); "{input}: {error}")?)?;
            Ok(ExitCode::from(1))
        }
    }
}

/// Returns the columns of the terminal, by the variable `COLUMNS`.
fn terminal_width<R: Env + Alloc>(rt: &R) -> Option<usize> {
    let columns = env::var(rt, "COLUMNS").ok()?;
    width_of(&columns)
}
