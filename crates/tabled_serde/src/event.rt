//! The events that a value writes.
ghost use Rattle.std.specs.Prelude.{◌≡◌, ◌++◌, ◌∷◌, IfErr, IfOk, MatchOption, OnOk, Some, [], map};
ghost use Rattle.std.specs.Prelude.{string_bytes};
ghost use Rattle.std.specs.List.{All};
ghost use Rattle.tabled_serde.specs.Errors.{HasLastKey, IsCustom, IsLastField, IsNoKey, row_error};
ghost use Rattle.tabled_serde.specs.Events.{WritesShown, event_of};
ghost use Rattle.tabled_serde.specs.declared.event.EventError.TheVariants as event_error;

use crate::error::RowError;
use serde::{Case, NameKind, Serializer};
use std::alloc::{AllocError, AllocFailed, Global};
use std::fmt::Display;
use std::string::ToString;

/// One event. A text is a copy.
#[derive(Debug, Drop)]
pub enum Step {
    Bool(bool),
    Signed(i128),
    Unsigned(u128),
    Single(f32),
    Double(f64),
    Char(char),
    Text(String),
    Bytes(Vec<u8>),
    Unit,
    Variant(String, Case),
    BeginList(Option<usize>),
    EndList,
    BeginMap(Option<usize>),
    EndMap,
    Field(String, Case),
    VariantKey(String, Case),
    BeginKey,
    EndKey,
    Flatten,
}

/// Why a value doesn't write its events.
#[derive(Debug, Drop)]
pub enum EventError {
    /// An allocation failed.
    Memory,
    /// The value itself fails, at a field or after it.
    Custom { field: String, message: String },
}

impl From<AllocError> for EventError {
    ghost from_gives = { λ _ e. e ≡ event_error.Memory };

    fn from(_error: AllocError) -> EventError {
        EventError::Memory
    }
}

impl<T: Drop> From<AllocFailed<T>> for EventError {
    ghost from_gives = { λ _ e. e ≡ event_error.Memory };

    fn from(_error: AllocFailed<T>) -> EventError {
        EventError::Memory
    }
}

impl From<EventError> for RowError {
    ghost from_gives = { λ error e. e ≡ row_error error };

    fn from(error: EventError) -> RowError {
        match error {
            EventError::Memory => RowError::Memory,
            EventError::Custom { field, message } => RowError::Custom { field, message },
        }
    }
}

/// A serializer that keeps all events.
#[derive(Debug, Drop)]
pub struct Events {
    pub steps: Vec<Step>,
}

impl Events {
    pub fn new(alloc: Global) -> Events
        ensures { result.steps.items ≡ [] }
    {
        Events {
            steps: Vec::new(alloc),
        }
    }

    fn add(&mut self, step: Step) -> Result<(), EventError>
        ensures ok { OnOk result (map event_of self.new.steps.items
            ≡ map event_of self.old.steps.items ++ event_of step ∷ []) }
        ensures failed { IfErr result (λ e. e ≡ event_error.Memory) }
    {
        self.steps.push(step)?;
        Ok(())
    }

    fn copied(&self, text: &str) -> Result<String, EventError>
        ensures ok { IfOk result (λ copy. string_bytes copy ≡ text.now) }
        ensures failed { IfErr result (λ e. e ≡ event_error.Memory) }
    {
        Ok(String::from_str(*self.steps.allocator(), text)?)
    }

    /// Returns the name of the last field, as it is spelled, or an empty text.
    fn last_field(&self) -> Result<String, EventError>
        ensures ok { IfOk result (λ name.
            IsLastField (map event_of self.now.steps.items) (string_bytes name)) }
        ensures failed { IfErr result (λ e. e ≡ event_error.Memory) }
    {
        let mut spelled = String::new(*self.steps.allocator());
        if let Some((name, case)) = last_key(self.steps.as_slice()) {
            case.append(NameKind::Field, name, &mut spelled)?;
        }
        Ok(spelled)
    }

    /// Returns the value's own error with this message, at the last field.
    fn custom_error(&self, message: &str) -> Result<EventError, EventError>
        ensures ok { IfOk result (λ e.
            IsCustom (map event_of self.now.steps.items) message.now e) }
        ensures failed { IfErr result (λ e. e ≡ event_error.Memory) }
    {
        Ok(EventError::Custom {
            field: self.last_field()?,
            message: self.copied(message)?,
        })
    }
}

/// Returns the name of the last field among events.
fn last_key(steps: &[Step]) -> Option<(&str, Case)>
    ensures { MatchOption result (All IsNoKey (map event_of steps.now))
        (λ key. HasLastKey (map event_of steps.now) key.0.now key.1) }
{
    let mut rest = steps;
    'steps: while let Some((last, before)) = rest.split_last() {
        if let Step::Field(name, case) = last {
            return Some((name.as_str(), *case));
        }
        rest = before;
    }
    None
}

impl Serializer for Events {
    type Error = EventError;

    ghost written = { λ s. Some (map event_of s.steps.items) };

    fn bool(&mut self, v: bool) -> Result<(), EventError> {
        self.add(Step::Bool(v))
    }

    fn i64(&mut self, v: i64) -> Result<(), EventError> {
        self.add(Step::Signed(i128::from(v)))
    }

    fn u64(&mut self, v: u64) -> Result<(), EventError> {
        self.add(Step::Unsigned(u128::from(v)))
    }

    fn i128(&mut self, v: i128) -> Result<(), EventError> {
        self.add(Step::Signed(v))
    }

    fn u128(&mut self, v: u128) -> Result<(), EventError> {
        self.add(Step::Unsigned(v))
    }

    fn f32(&mut self, v: f32) -> Result<(), EventError> {
        self.add(Step::Single(v))
    }

    fn f64(&mut self, v: f64) -> Result<(), EventError> {
        self.add(Step::Double(v))
    }

    fn char(&mut self, v: char) -> Result<(), EventError> {
        self.add(Step::Char(v))
    }

    fn str(&mut self, v: &str) -> Result<(), EventError> {
        let text = self.copied(v)?;
        self.add(Step::Text(text))
    }

    fn bytes(&mut self, v: &[u8]) -> Result<(), EventError> {
        let bytes = v.to_vec(*self.steps.allocator())?;
        self.add(Step::Bytes(bytes))
    }

    fn unit(&mut self) -> Result<(), EventError> {
        self.add(Step::Unit)
    }

    fn str_cased(&mut self, name: &str, case: Case) -> Result<(), EventError> {
        let name = self.copied(name)?;
        self.add(Step::Variant(name, case))
    }

    fn begin_seq(&mut self, len: Option<usize>) -> Result<(), EventError> {
        self.add(Step::BeginList(len))
    }

    fn end_seq(&mut self) -> Result<(), EventError> {
        self.add(Step::EndList)
    }

    fn begin_map(&mut self, len: Option<usize>) -> Result<(), EventError> {
        self.add(Step::BeginMap(len))
    }

    fn end_map(&mut self) -> Result<(), EventError> {
        self.add(Step::EndMap)
    }

    fn key_cased(&mut self, name: &str, case: Case) -> Result<(), EventError> {
        let name = self.copied(name)?;
        self.add(Step::Field(name, case))
    }

    fn variant_key(&mut self, name: &str, case: Case) -> Result<(), EventError> {
        let name = self.copied(name)?;
        self.add(Step::VariantKey(name, case))
    }

    fn begin_key(&mut self) -> Result<(), EventError> {
        self.add(Step::BeginKey)
    }

    fn end_key(&mut self) -> Result<(), EventError> {
        self.add(Step::EndKey)
    }

    fn flatten_next(&mut self) -> Result<(), EventError> {
        self.add(Step::Flatten)
    }

    fn collect_str<T: Display>(&mut self, value: &T) -> Result<(), EventError>
        ensures { OnOk result (WritesShown (T.output value.now)
            (map event_of self.old.steps.items) (map event_of self.new.steps.items)) }
    {
        let text = value.to_string(*self.steps.allocator())?;
        self.add(Step::Text(text))
    }

    fn custom(&self, message: &str) -> EventError
        ensures { IsCustom (map event_of self.now.steps.items) message.now result }
    {
        match self.custom_error(message) {
            Ok(error) | Err(error) => error,
        }
    }
}
