//! Messages on a terminal. What they quote, as names and keys, is shown as cells are.

use std::io;
use tabview_cells::escape;

/// Prints a message of one line on standard error.
pub fn complain(rt: &HostRuntime, message: &str) -> io::Result<()> {
    let message = escape(rt.alloc(), message, false)?;
    eprintln!(rt; "tabview: {message}")
}

/// Prints the help, the version, or what is wrong with a command line.
pub fn explain(rt: &HostRuntime, error: &clap::Error) -> io::Result<()> {
    let text = format!(in rt.alloc(); "{error}")?;
    let text = escape(rt.alloc(), &text, true)?;
    if error.use_stderr() {
        eprint!(rt; "{text}")
    } else {
        print!(rt; "{text}")
    }
}
