//! A JSON text.
ghost use Rattle.json.specs.Tree.{HasNumbers};
ghost use Rattle.json.specs.Value.{value_view};
ghost use Rattle.std.specs.Prelude.{IfSome};
ghost use Rattle.tabview_read.specs.Numbers.{HasNumbers-prop};

use crate::error::ReadError;
use crate::faults::why;
use json::{Scratch, Value};
use std::alloc::Global;

/// A value of JSON whose numbers can be written.
#[derive(Drop)]
pub(crate) struct Document<'a> {
    pub(crate) value: Value<'a>,
    ghost writable: { HasNumbers (value_view value) } by { HasNumbers-prop (value_view value) },
}

impl<'a> Document<'a> {
    /// Reads a text. Fails if it isn't JSON.
    pub(crate) fn parse(
        alloc: Global,
        text: &'a str,
        scratch: &'a mut Scratch,
    ) -> Result<Document<'a>, ReadError> {
        match Value::parse(alloc, text, scratch) {
            Ok(value) => Ok(Document { value }),
            Err(error) => Err(why(alloc, text, error)),
        }
    }

    /// Returns the count of the rows: those of an array, or one.
    pub(crate) fn count(&self) -> usize {
        match &self.value {
            Value::Array(items) => items.len(),
            _ => 1,
        }
    }

    /// Returns a row of an array, or another value itself.
    pub(crate) fn row(&self, row: usize) -> Option<&Value<'a>>
        ensures { IfSome result (λ v. HasNumbers (value_view v.now)) }
    {
        match &self.value {
            Value::Array(_) => self.value.at(row),
            _ if row == 0 => Some(&self.value),
            _ => None,
        }
    }
}
