//! How JSON values become rows.
ghost use Rattle.json.specs.Tree.{HasNumbers};
ghost use Rattle.json.specs.Value.{value_view};

use crate::error::Fault;
use crate::json_cells::{push_items, push_members, push_value};
use crate::keys::Keys;
use crate::row::Row;
use csv::StringRecord;
use json::Value;
use std::alloc::Global;

/// How a JSON text is read.
#[derive(Clone, Copy)]
pub struct JsonOptions {
    /// Whether the first array has the names of the columns. The names of objects are their keys.
    pub has_header: bool,
    /// Whether arrays may have more or fewer cells than the first.
    pub fill: bool,
    /// Whether a key that none of the rows read ahead has is passed over.
    pub passes_keys: bool,
}

/// What rows are made of.
#[derive(Clone, Copy)]
enum Shape {
    Objects,
    Arrays { width: usize },
    /// Numbers, texts, truth values and null.
    Plain,
}

/// The name of the column of plain values.
const VALUE: &str = "value";

/// What the values of some rows have in common.
#[derive(Drop)]
pub(crate) struct Values {
    alloc: Global,
    options: JsonOptions,
    keys: Keys,
    /// What the rows are made of, once there is one.
    shape: Option<Shape>,
    pub(crate) names: Option<StringRecord>,
}

impl Values {
    pub(crate) fn new(alloc: Global, options: JsonOptions) -> Values {
        Values {
            alloc,
            options,
            keys: Keys::new(alloc),
            shape: None,
            names: None,
        }
    }

    /// Looks at a value that becomes a row: takes its keys, or compares its cells with the first.
    pub(crate) fn look(&mut self, value: &Value<'_>) -> Result<(), Fault> {
        match (value, self.shape) {
            (Value::Object(members), None | Some(Shape::Objects)) => {
                self.shape = Some(Shape::Objects);
                Ok(self.keys.add(members)?)
            }
            (Value::Array(items), None) => {
                self.shape = Some(Shape::Arrays { width: items.len() });
                Ok(())
            }
            (Value::Object(_) | Value::Array(_), _) => self.check(value),
            (_, None) => {
                self.shape = Some(Shape::Plain);
                Ok(())
            }
            _ => self.check(value),
        }
    }

    /// Whether a value is like the rows before it.
    fn check(&self, value: &Value<'_>) -> Result<(), Fault> {
        match (value, self.shape) {
            (Value::Object(members), Some(Shape::Objects)) => self.check_keys(members),
            (Value::Array(items), Some(Shape::Arrays { width })) => {
                if items.len() == width || self.options.fill {
                    return Ok(());
                }
                Err(Fault::Ragged {
                    cells: items.len(),
                    wanted: width,
                })
            }
            (Value::Object(_) | Value::Array(_), Some(_)) => Err(Fault::Mixed),
            (_, Some(Shape::Plain)) => Ok(()),
            _ => Err(Fault::NotRow),
        }
    }

    fn check_keys(&self, members: &[(&str, Value<'_>)]) -> Result<(), Fault> {
        if self.options.passes_keys {
            return Ok(());
        }
        match self.keys.unknown(members) {
            Some(key) => Err(Fault::Unknown(String::from_str(self.alloc, key)?)),
            None => Ok(()),
        }
    }

    /// Names the columns: by the keys of the objects that were looked at, or by the cells of the
    /// first array. That of plain values is `value`. Returns whether the first value has the names.
    pub(crate) fn name(&mut self, first: &Value<'_>) -> Result<bool, Fault>
        requires { HasNumbers (value_view first.now) }
    {
        let has_names = self.options.has_header;
        match first {
            Value::Array(items) if has_names => {
                let mut row = Row::new(self.alloc);
                push_items(self.alloc, &mut row, items)?;
                self.names = Some(row.cells);
                Ok(true)
            }
            Value::Array(_) => Ok(false),
            Value::Object(_) => {
                self.names = Some(self.keys.names()?);
                Ok(false)
            }
            _ => {
                self.names = Some(StringRecord::from_fields(self.alloc, &[VALUE])?);
                Ok(false)
            }
        }
    }

    /// Makes a row of a value.
    pub(crate) fn put(&self, value: &Value<'_>, row: &mut Row) -> Result<(), Fault>
        requires { HasNumbers (value_view value.now) }
    {
        self.check(value)?;
        row.clear();
        match (value, &self.names) {
            (Value::Array(items), _) => push_items(self.alloc, row, items)?,
            (Value::Object(_), Some(names)) => push_members(self.alloc, row, names, value)?,
            (Value::Object(_), None) => (),
            _ => push_value(self.alloc, row, value)?,
        }
        Ok(())
    }
}
