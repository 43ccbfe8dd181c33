//! The names and cells of a value, read from its events.
ghost use Rattle.std.specs.Prelude.{◌≡◌, ◌⊎◌, ◌++◌, ◌<◌, ◌≤◌, ◌∷◌, [], IfErr, IfOk, IfSome};
ghost use Rattle.std.specs.Prelude.{IsSomeAnd, List, MatchOption, OnOk, OnSome, Option, length};
ghost use Rattle.std.specs.Prelude.{map, string_bytes, ℕ, ⊤};
ghost use Rattle.std.specs.List.{AllZip};
ghost use Rattle.serde.specs.Event.{Event, key_ends, map_begins, map_ends, seq_ends};
ghost use Rattle.serde.specs.Spelling.{spelled};
ghost use Rattle.tabled_serde.specs.Errors.{HasCause, IsFieldError, IsNested};
ghost use Rattle.tabled_serde.specs.Errors.{IsRecordError, NoCellFirst, NoItemsFirst, NoKeyFirst};
ghost use Rattle.tabled_serde.specs.Errors.{NoMapFirst, NoNameFirst, NoStructFirst, NoTextIs};
ghost use Rattle.tabled_serde.specs.Events.{event_of};
ghost use Rattle.tabled_serde.specs.Records.{AreRecord, IsCell, IsName, IsScalar, IsText, joined};
ghost use Rattle.tabled_serde.specs.Reader.{BeginsStruct, FieldRead, FieldsRead, bytes_of, left};
ghost use Rattle.tabled_serde.specs.declared.error.RowError.TheVariants.{Malformed, Memory, NoFields, NoName};

use crate::error::RowError;
use crate::event::Step;
use serde::{Case, NameKind};
use std::alloc::Global;
use std::fmt::Display;
use std::string::ToString;

/// The fields of a value: their names, and as many cells.
#[derive(Debug, Drop)]
pub struct Record {
    /// The names, in the order of the fields.
    pub names: Vec<String>,
    /// The cells, in the same order.
    pub cells: Vec<String>,
}

/// Reads the events of a value.
#[derive(Drop)]
pub(crate) struct Reader<'a> {
    alloc: Global,
    none: &'a str,
    /// The events that weren't read.
    steps: &'a [Step],
}

impl<'a> Reader<'a> {
    pub fn new(alloc: Global, none: &'a str, steps: &'a [Step]) -> Reader<'a>
        ensures none { result.none.now ≡ none.now }
        ensures steps { result.steps.now ≡ steps.now }
    {
        Reader { alloc, none, steps }
    }

    /// Reads a struct or a map, which is all.
    pub fn read(mut self) -> Result<Record, RowError>
        ensures fields { IfOk result (λ found. AreRecord self.entry.none.now (left self.entry)
            (bytes_of found.names) (bytes_of found.cells)) }
        ensures as_many { IfOk result
            (λ found. length found.names.items ≡ length found.cells.items) }
        ensures failed { IfErr result (IsRecordError self.entry.none.now (left self.entry)) }
    {
        self.begin()?;
        let mut record = Record {
            names: Vec::new(self.alloc),
            cells: Vec::new(self.alloc),
        };
        self.read_fields(&mut record)?;
        if self.steps.is_empty() {
            Ok(record)
        } else {
            Err(RowError::Malformed)
        }
    }

    /// Takes the beginning of a struct or a map.
    fn begin(&mut self) -> Result<(), RowError>
        ensures none { self.new.none.now ≡ self.old.none.now }
        ensures ok { OnOk result
            ((n : Option ℕ) × (left self.old ≡ map_begins n ∷ left self.new)) }
        ensures failed { IfErr result (λ e. (e ≡ NoFields) × NoMapFirst (left self.old)) }
    {
        match self.next() {
            Some(Step::BeginMap(_)) => Ok(()),
            _ => Err(RowError::NoFields),
        }
    }

    /// Takes the next event.
    fn next(&mut self) -> Option<&'a Step>
        ensures none { self.new.none.now ≡ self.old.none.now }
        ensures fewer { length self.new.steps.now ≤ length self.old.steps.now }
        ensures fewer_still { OnSome result
            (length self.new.steps.now < length self.old.steps.now) }
        ensures took { MatchOption result (self.old.steps.now ≡ [])
            (λ step. self.old.steps.now ≡ step.now ∷ self.new.steps.now) }
    {
        let (step, rest) = self.steps.split_first()?;
        self.steps = rest;
        Some(step)
    }

    /// Reads fields to the end of their struct, and those of a flattened struct among them.
    fn read_fields(&mut self, fields: &mut Record) -> Result<(), RowError>
        ensures none { self.new.none.now ≡ self.old.none.now }
        ensures fewer { length self.new.steps.now ≤ length self.old.steps.now }
        ensures ok { OnOk result (FieldsRead self.old.none.now (left self.old)
            (map_ends ∷ left self.new) fields.old fields.new) }
        ensures failed { IfErr result (IsFieldError self.old.none.now (left self.old)) }
    {
        'fields: while let Some(step) = self.next() {
            match step {
                Step::EndMap => return Ok(()),
                Step::Flatten => {
                    if self.begins_struct()? {
                        self.read_fields(fields)?;
                    }
                }
                _ => self.read_field(step, fields)?,
            }
        }
        Err(RowError::Malformed)
    }

    /// Takes the beginning of a flattened struct, or returns false if there is `None` in its place.
    fn begins_struct(&mut self) -> Result<bool, RowError>
        ensures none { self.new.none.now ≡ self.old.none.now }
        ensures fewer { length self.new.steps.now ≤ length self.old.steps.now }
        ensures ok { IfOk result (λ begins. BeginsStruct begins (left self.old) (left self.new)) }
        ensures failed { IfErr result (λ e. (e ≡ Malformed) × NoStructFirst (left self.old)) }
    {
        match self.next() {
            Some(Step::BeginMap(_)) => Ok(true),
            Some(Step::Unit) => Ok(false),
            _ => Err(RowError::Malformed),
        }
    }

    /// Reads a field, whose first event is taken.
    fn read_field(&mut self, first: &Step, fields: &mut Record) -> Result<(), RowError>
        ensures none { self.new.none.now ≡ self.old.none.now }
        ensures fewer { length self.new.steps.now ≤ length self.old.steps.now }
        ensures ok { OnOk result (FieldRead self.old.none.now (event_of first.now ∷ left self.old)
            (left self.new) fields.old fields.new) }
        ensures failed { IfErr result
            (HasCause self.old.none.now NoNameFirst (event_of first.now ∷ left self.old)) }
    {
        let name = self.read_name(first)?;
        let cell = self.read_cell(&name)?;
        fields.names.push(name)?;
        fields.cells.push(cell)?;
        Ok(())
    }

    /// Reads a name, whose first event is taken.
    fn read_name(&mut self, first: &Step) -> Result<String, RowError>
        ensures none { self.new.none.now ≡ self.old.none.now }
        ensures fewer { length self.new.steps.now ≤ length self.old.steps.now }
        ensures ok { IfOk result (λ name. (events : List Event)
            × IsName events (string_bytes name)
            × (event_of first.now ∷ left self.old ≡ events ++ left self.new)) }
        ensures failed { IfErr result
            (HasCause self.old.none.now NoNameFirst (event_of first.now ∷ left self.old)) }
    {
        match first {
            Step::Field(name, case) => spelling(self.alloc, NameKind::Field, name, *case),
            Step::VariantKey(name, case) => spelling(self.alloc, NameKind::Variant, name, *case),
            Step::BeginKey => self.read_key(),
            _ => Err(RowError::Malformed),
        }
    }

    /// Reads a key of a map, which is one text, and its end.
    fn read_key(&mut self) -> Result<String, RowError>
        ensures none { self.new.none.now ≡ self.old.none.now }
        ensures fewer { length self.new.steps.now ≤ length self.old.steps.now }
        ensures ok { IfOk result (λ name. (e : Event) × IsScalar e (string_bytes name)
            × (left self.old ≡ e ∷ key_ends ∷ left self.new)) }
        ensures failed { IfErr result
            (λ e. (e ≡ Memory) ⊎ ((e ≡ NoName) × NoKeyFirst (left self.old))) }
    {
        let Some(step) = self.next() else {
            return Err(RowError::NoName);
        };
        let Some(name) = scalar_text(self.alloc, step)? else {
            return Err(RowError::NoName);
        };
        match self.next() {
            Some(Step::EndKey) => Ok(name),
            _ => Err(RowError::NoName),
        }
    }

    /// Reads the cell of the field of this name.
    fn read_cell(&mut self, name: &str) -> Result<String, RowError>
        ensures none { self.new.none.now ≡ self.old.none.now }
        ensures fewer { length self.new.steps.now ≤ length self.old.steps.now }
        ensures ok { IfOk result (λ cell. (events : List Event)
            × IsCell self.old.none.now events (string_bytes cell)
            × (left self.old ≡ events ++ left self.new)) }
        ensures failed { IfErr result
            (IsNested name.now (NoCellFirst self.old.none.now (left self.old))) }
    {
        let Some(step) = self.next() else {
            return Err(self.nested(name));
        };
        if let Step::BeginList(_) = step {
            let items = self.read_items(name)?;
            return joined_text(self.alloc, items.as_slice());
        }
        match self.text_of(step)? {
            Some(text) => Ok(text),
            None => Err(self.nested(name)),
        }
    }

    /// Reads the items of a list, and its end.
    fn read_items(&mut self, name: &str) -> Result<Vec<String>, RowError>
        ensures none { self.new.none.now ≡ self.old.none.now }
        ensures fewer { length self.new.steps.now ≤ length self.old.steps.now }
        ensures ok { IfOk result (λ items. (events : List Event)
            × AllZip (IsText self.old.none.now) events (bytes_of items)
            × (left self.old ≡ events ++ seq_ends ∷ left self.new)) }
        ensures failed { IfErr result
            (IsNested name.now (NoItemsFirst self.old.none.now (left self.old))) }
    {
        let mut items = Vec::new(self.alloc);
        'items: while let Some(step) = self.next() {
            if let Step::EndList = step {
                return Ok(items);
            }
            match self.text_of(step)? {
                Some(text) => items.push(text)?,
                None => return Err(self.nested(name)),
            }
        }
        Err(self.nested(name))
    }

    /// Returns the text of a scalar or of `None`, or none of another event.
    fn text_of(&self, step: &Step) -> Result<Option<String>, RowError>
        ensures ok { IfOk result (λ some. MatchOption some
            (NoTextIs (IsText self.now.none.now (event_of step.now)))
            (λ text. IsText self.now.none.now (event_of step.now) (string_bytes text))) }
        ensures failed { IfErr result (λ e. e ≡ Memory) }
    {
        match step {
            Step::Unit => Ok(Some(String::from_str(self.alloc, self.none)?)),
            _ => scalar_text(self.alloc, step),
        }
    }

    /// The error of the field of this name.
    fn nested(&self, name: &str) -> RowError
        ensures { IsNested name.now ⊤ result }
    {
        match String::from_str(self.alloc, name) {
            Ok(field) => RowError::Nested { field },
            Err(_) => RowError::Memory,
        }
    }
}

/// Returns the text of a scalar, or none of another event.
fn scalar_text(alloc: Global, step: &Step) -> Result<Option<String>, RowError>
    ensures ok { IfOk result (λ some. MatchOption some
        (NoTextIs (IsScalar (event_of step.now)))
        (λ text. IsScalar (event_of step.now) (string_bytes text))) }
    ensures failed { IfErr result (λ e. e ≡ Memory) }
{
    match step {
        Step::Bool(b) => shown(alloc, b),
        Step::Signed(z) => shown(alloc, z),
        Step::Unsigned(n) => shown(alloc, n),
        Step::Single(x) => shown(alloc, x),
        Step::Double(x) => shown(alloc, x),
        Step::Char(c) => shown(alloc, c),
        Step::Text(text) => shown(alloc, &text.as_str()),
        Step::Variant(name, case) => Ok(Some(spelling(alloc, NameKind::Variant, name, *case)?)),
        _ => Ok(None),
    }
}

fn shown<T: Display>(alloc: Global, value: &T) -> Result<Option<String>, RowError>
    ensures ok { IfOk result (λ some. IsSomeAnd some
        (λ text. IfSome (T.output value.now) (λ bytes. string_bytes text ≡ bytes))) }
    ensures failed { IfErr result (λ e. e ≡ Memory) }
{
    Ok(Some(value.to_string(alloc)?))
}

fn spelling(alloc: Global, kind: NameKind, name: &str, case: Case) -> Result<String, RowError>
    ensures ok { IfOk result (λ text. string_bytes text ≡ spelled case kind name.now) }
    ensures failed { IfErr result (λ e. e ≡ Memory) }
{
    let mut text = String::new(alloc);
    case.append(kind, name, &mut text)?;
    Ok(text)
}

/// Joins texts with a comma and a space.
fn joined_text(alloc: Global, texts: &[String]) -> Result<String, RowError>
    ensures ok { IfOk result (λ text. string_bytes text ≡ joined (map string_bytes texts.now)) }
    ensures failed { IfErr result (λ e. e ≡ Memory) }
{
    let mut all = String::new(alloc);
    let Some((first, others)) = texts.split_first() else {
        return Ok(all);
    };
    all.push_str(first)?;
    'others: for text in others {
        all.push_str(", ")?;
        all.push_str(text)?;
    }
    Ok(all)
}
