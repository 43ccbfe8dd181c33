//! Rows of a sequence of JSON values.

use crate::document::Document;
use crate::error::ReadError;
use crate::json_values::{ValueText, ValuesOf};
use crate::row::{Row, Rows};
use crate::values::{JsonOptions, Values};
use csv::StringRecord;
use json::Scratch;
use std::alloc::Global;
use std::collections::VecDeque;
use std::io::BufRead;

/// Objects, arrays or plain values, as one in each line. A value may also take several lines, and
/// several values one line.
pub struct JsonLines<B: BufRead + Drop> {
    alloc: Global,
    texts: ValuesOf<B>,
    scratch: Scratch,
    values: Values,
    /// The values that were read ahead.
    ahead: VecDeque<ValueText>,
}

impl<B: BufRead + Drop> Drop for JsonLines<B> {
    fn drop(self) {
        let JsonLines {
            alloc: _,
            texts: _,
            scratch: _,
            values: _,
            ahead: _,
        } = self;
    }
}

impl<B: BufRead + Drop> JsonLines<B> {
    /// Reads values ahead, at least one, of which the names of the columns are taken. A key of a
    /// later value that is none of these is an error, or passed over.
    pub fn new(
        alloc: Global,
        options: JsonOptions,
        lossy: bool,
        input: B,
        ahead: usize,
    ) -> Result<JsonLines<B>, ReadError> {
        let mut rows = JsonLines::begin(alloc, options, lossy, input);
        for _value in 0..ahead.max(1) {
            if !rows.read_ahead()? {
                break;
            }
        }
        rows.name()?;
        Ok(rows)
    }

    /// Begins before the first value.
    fn begin(alloc: Global, options: JsonOptions, lossy: bool, input: B) -> JsonLines<B> {
        JsonLines {
            alloc,
            texts: ValuesOf::new(alloc, lossy, input),
            scratch: Scratch::new(alloc),
            values: Values::new(alloc, options),
            ahead: VecDeque::new(alloc),
        }
    }

    /// Reads a value ahead, and returns whether there is one.
    fn read_ahead(&mut self) -> Result<bool, ReadError> {
        match self.texts.next_value()? {
            Some(text) => {
                self.look(text)?;
                Ok(true)
            }
            None => Ok(false),
        }
    }

    /// Looks at a value, and keeps it.
    fn look(&mut self, text: ValueText) -> Result<(), ReadError> {
        match Document::parse(self.alloc, &text.text, &mut self.scratch) {
            Ok(document) => {
                if let Err(fault) = self.values.look(&document.value) {
                    return Err(fault.at(text.place));
                }
            }
            Err(error) => return Err(text.error_in(error)),
        }
        self.ahead.push_back(text)?;
        Ok(())
    }

    /// Names the columns by the values that were read ahead.
    fn name(&mut self) -> Result<(), ReadError> {
        let Some(first) = self.ahead.front() else {
            return Ok(());
        };
        let document = Document::parse(self.alloc, &first.text, &mut self.scratch)?;
        let has_names = match self.values.name(&document.value) {
            Ok(has_names) => has_names,
            Err(fault) => return Err(fault.at(first.place)),
        };
        drop(document);
        if has_names {
            let _names = self.ahead.pop_front();
        }
        Ok(())
    }

    /// Makes a row of a value.
    fn put(&mut self, text: &ValueText, row: &mut Row) -> Result<(), ReadError> {
        match Document::parse(self.alloc, &text.text, &mut self.scratch) {
            Ok(document) => match self.values.put(&document.value, row) {
                Ok(()) => Ok(()),
                Err(fault) => Err(fault.at(text.place)),
            },
            Err(error) => Err(text.error_in(error)),
        }
    }
}

impl<B: BufRead + Drop> Rows for JsonLines<B> {
    fn names(&self) -> Option<&StringRecord> {
        self.values.names.as_ref()
    }

    fn read(&mut self, row: &mut Row) -> Result<bool, ReadError> {
        let text = match self.ahead.pop_front() {
            Some(text) => text,
            None => match self.texts.next_value()? {
                Some(text) => text,
                None => return Ok(false),
            },
        };
        self.put(&text, row)?;
        Ok(true)
    }
}
