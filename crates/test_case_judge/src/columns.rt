//! The columns of lines, by a table of characters that was made outside of the library.

use crate::fault::Fault;
use std::alloc::Global;
use std::collections::BTreeMap;

/// How a character may take other columns beside another one.
#[derive(Clone, Copy, PartialEq, Eq)]
enum Joining {
    /// Beside none.
    Never,
    /// Beside an active one.
    Base,
    /// Beside a base, and another active one.
    Active,
}

#[derive(Clone, Copy)]
struct Known {
    columns: usize,
    joining: Joining,
}

/// The characters of a table.
#[derive(Drop)]
pub struct KnownColumns {
    characters: BTreeMap<char, Known>,
}

fn may_join(first: Joining, second: Joining) -> bool {
    match (first, second) {
        (Joining::Never, _) | (_, Joining::Never) => false,
        (Joining::Base, Joining::Base) => false,
        _ => true,
    }
}

// Reads a line `CODE COLUMNS JOINING`.
fn character_of(line: &str) -> Option<(char, Known)> {
    let mut words = line.split(' ');
    let code = u32::from_str_radix(words.next()?, 16).ok()?;
    let character = char::from_u32(code)?;
    let columns = words.next()?.parse().ok()?;
    let joining = match words.next()? {
        "never" => Joining::Never,
        "base" => Joining::Base,
        "active" => Joining::Active,
        _ => return None,
    };
    Some((character, Known { columns, joining }))
}

impl KnownColumns {
    /// Reads a table of lines `CODE COLUMNS JOINING`, the code in hexadecimal digits.
    pub fn read(alloc: Global, lines: &str) -> Result<KnownColumns, Fault> {
        let mut characters = BTreeMap::new(alloc);
        for line in lines.lines() {
            match character_of(line) {
                Some((character, known)) => characters.insert(character, known)?,
                None => return Err(Fault::Unknown("no line of columns")),
            };
        }
        Ok(KnownColumns { characters })
    }

    /// Returns the columns of a line: those of its characters. `None` if one of them isn't known,
    /// or if two of them may join.
    pub fn columns_of(&self, line: &str) -> Option<usize> {
        let mut columns: usize = 0;
        let mut last = Joining::Never;
        for character in line.chars() {
            let known = *self.characters.get(&character)?;
            if may_join(last, known.joining) {
                return None;
            }
            last = known.joining;
            columns = columns.saturating_add(known.columns);
        }
        Some(columns)
    }
}
