//! The outcome of a call in which an allocation may fail.

use tabled::TableError;

/// The outcome of a call.
#[derive(Clone, Copy, Debug, PartialEq, Eq)]
pub enum Found {
    /// It succeeded with the right result.
    Whole,
    /// It failed with `Memory`, and left the right state.
    Refused,
    /// It did something else; the string says what.
    Wrong(&'static str),
}

/// The outcome of a call that succeeded. `is_right`: its result is the wanted one.
pub fn whole_if(is_right: bool) -> Found {
    if is_right {
        Found::Whole
    } else {
        Found::Wrong("another answer")
    }
}

/// The outcome of calls that must all return true, or the first error.
pub fn whole_if_all(answers: &[Result<bool, TableError>]) -> Result<Found, TableError> {
    for answer in answers {
        if !(*answer)? {
            return Ok(whole_if(false));
        }
    }
    Ok(whole_if(true))
}

/// The outcome of a call that failed. `is_right`: its error and what it left are the wanted ones.
pub fn refused_if(is_right: bool) -> Found {
    if is_right {
        Found::Refused
    } else {
        Found::Wrong("another state after the refusal")
    }
}
