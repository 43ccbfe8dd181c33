//! The keys of objects, in the order of their first occurrence.

use csv::StringRecord;
use indexmap::IndexSet;
use json::Value;
use std::alloc::{AllocError, Global};

/// The keys of the objects that were read.
#[derive(Drop)]
pub(crate) struct Keys {
    alloc: Global,
    set: IndexSet<String>,
}

impl Keys {
    pub(crate) fn new(alloc: Global) -> Keys {
        Keys {
            alloc,
            set: IndexSet::new(alloc),
        }
    }

    /// Adds the keys of an object that are new.
    pub(crate) fn add(&mut self, members: &[(&str, Value<'_>)]) -> Result<(), AllocError> {
        for (index, (key, _)) in members.iter().enumerate() {
            if self
                .set
                .get_index(index)
                .is_some_and(|name| name.as_str() == *key)
            {
                continue;
            }
            if !self.set.contains(*key) {
                let _is_new = self.set.insert(String::from_str(self.alloc, key)?)?;
            }
        }
        Ok(())
    }

    /// Returns a key of an object that is none of these, if there is one.
    pub(crate) fn unknown<'m>(&self, members: &[(&'m str, Value<'_>)]) -> Option<&'m str> {
        for (index, (key, _)) in members.iter().enumerate() {
            let is_next = self
                .set
                .get_index(index)
                .is_some_and(|name| name.as_str() == *key);
            if !is_next && !self.set.contains(*key) {
                return Some(*key);
            }
        }
        None
    }

    /// Returns the keys as a row.
    pub(crate) fn names(&self) -> Result<StringRecord, AllocError> {
        let mut names = StringRecord::new(self.alloc);
        for key in self.set.iter() {
            names.push_field(key)?;
        }
        Ok(names)
    }
}
