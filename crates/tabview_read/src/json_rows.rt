//! The rows of a JSON text.

use crate::document::Document;
use crate::error::{Fault, ReadError};
use crate::faults::place_of;
use crate::row::{Row, Rows};
use crate::values::{JsonOptions, Values};
use csv::StringRecord;
use json::Scratch;
use std::alloc::Global;

/// The rows of an array of objects, of arrays or of plain values, or the row of another value.
pub struct JsonRows<'a> {
    alloc: Global,
    text: &'a str,
    document: Document<'a>,
    values: Values,
    /// The rows of the array.
    count: usize,
    /// The rows that were read, or taken as names.
    taken: usize,
}

impl Drop for JsonRows<'_> {
    fn drop(self) {
        let JsonRows {
            alloc: _,
            text: _,
            document: _,
            values: _,
            count: _,
            taken: _,
        } = self;
    }
}

impl<'a> JsonRows<'a> {
    /// Reads a text. Fails unless it is a value whose rows are all of one kind.
    pub fn new(
        alloc: Global,
        options: JsonOptions,
        text: &'a str,
        scratch: &'a mut Scratch,
    ) -> Result<JsonRows<'a>, ReadError> {
        let document = Document::parse(alloc, text, scratch)?;
        let mut rows = JsonRows {
            alloc,
            text,
            count: document.count(),
            document,
            values: Values::new(alloc, options),
            taken: 0,
        };
        rows.look()?;
        rows.name()?;
        Ok(rows)
    }

    /// Looks at all rows.
    fn look(&mut self) -> Result<(), ReadError> {
        for index in 0..self.count {
            if let Some(value) = self.document.row(index)
                && let Err(fault) = self.values.look(value)
            {
                return Err(self.error_at(index, fault));
            }
        }
        Ok(())
    }

    /// Names the columns.
    fn name(&mut self) -> Result<(), ReadError> {
        if let Some(first) = self.document.row(0) {
            match self.values.name(first) {
                Ok(true) => self.taken = 1,
                Ok(false) => (),
                Err(fault) => return Err(self.error_at(0, fault)),
            }
        }
        Ok(())
    }

    /// Says where a row is wrong.
    #[cold]
    fn error_at(&self, index: usize, fault: Fault) -> ReadError {
        match place_of(self.alloc, self.text, index) {
            Ok(place) => fault.at(place),
            Err(error) => ReadError::from(error),
        }
    }
}

impl Rows for JsonRows<'_> {
    fn names(&self) -> Option<&StringRecord> {
        self.values.names.as_ref()
    }

    fn read(&mut self, row: &mut Row) -> Result<bool, ReadError> {
        let index = self.taken;
        let Some(value) = self.document.row(index) else {
            row.clear();
            return Ok(false);
        };
        if let Err(fault) = self.values.put(value, row) {
            return Err(self.error_at(index, fault));
        }
        self.taken = index.saturating_add(1);
        Ok(true)
    }
}
