//! Which token of JSON may follow others.

use json::{MAX_DEPTH, Token};
use std::alloc::{AllocError, Global};

/// A bracket that is open.
#[derive(Clone, Copy)]
enum Bracket {
    Array,
    Object,
}

/// What may follow the tokens that were read.
#[derive(Drop)]
pub(crate) struct Nesting {
    /// The brackets that are open, the innermost last.
    open: Vec<Bracket>,
    /// Whether a value has to follow: at the beginning, and after a key.
    needs_value: bool,
}

impl Nesting {
    pub(crate) fn new(alloc: Global) -> Nesting {
        Nesting {
            open: Vec::new(alloc),
            needs_value: true,
        }
    }

    /// Takes the next token, and returns whether it may follow.
    pub(crate) fn take(&mut self, token: &Token<'_>) -> Result<bool, AllocError> {
        let inner = self.open.last().copied();
        match (token, inner) {
            (Token::Key(_), Some(Bracket::Object)) if !self.needs_value => {
                self.needs_value = true;
                Ok(true)
            }
            (Token::EndObject, Some(Bracket::Object)) if !self.needs_value => {
                Ok(self.open.pop().is_some())
            }
            (Token::EndArray, Some(Bracket::Array)) => Ok(self.open.pop().is_some()),
            (Token::Key(_) | Token::EndObject | Token::EndArray | Token::Bad, _) => Ok(false),
            (value, Some(Bracket::Array)) => self.begin(value),
            (value, _) if self.needs_value => self.begin(value),
            _ => Ok(false),
        }
    }

    /// Takes a value, or the bracket that it begins with.
    fn begin(&mut self, value: &Token<'_>) -> Result<bool, AllocError> {
        self.needs_value = false;
        let bracket = match value {
            Token::BeginArray => Bracket::Array,
            Token::BeginObject => Bracket::Object,
            _ => return Ok(true),
        };
        if self.open.len() >= MAX_DEPTH {
            return Ok(false);
        }
        self.open.push(bracket)?;
        Ok(true)
    }
}
