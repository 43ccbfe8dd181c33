//! Prints tab-separated rows from standard input as a table on standard output.
//! The recorded output shows a table that is wrapped.
#![tactic(auto)]

use std::process::ExitCode;
use std::{env, io};
use tabled::run;

/// Returns the status of `run`. If the arguments can't be read, prints an error and returns 1.
fn main(rt: HostRuntime) -> ExitCode {
    let arguments = match read_arguments(&rt) {
        Ok(arguments) => arguments,
        Err(error) => {
            let _ = eprintln!(rt; "{}", error_name(&error));
            return ExitCode::from(1);
        }
    };
    ExitCode::from(run(
        rt.alloc(),
        arguments.as_slice(),
        &mut rt.stdin(),
        &mut rt.stdout(),
        &mut rt.stderr(),
    ))
}

/// Reading arguments fails for one of two reasons: an allocation failed, or one isn't UTF-8.
fn error_name(error: &io::Error) -> &'static str {
    match error.kind() {
        io::ErrorKind::OutOfMemory => "Memory",
        _ => "Input",
    }
}

/// The arguments without the program's name.
fn read_arguments(rt: &HostRuntime) -> io::Result<Vec<String>> {
    let mut arguments = Vec::new(rt.alloc());
    for argument in env::args(rt)?.skip(1) {
        arguments.push(argument)?;
    }
    Ok(arguments)
}
