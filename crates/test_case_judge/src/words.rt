//! Reads commands word by word.

use crate::fault::Fault;
use std::alloc::Global;
use tabled::grid::config::Entity;

/// The unread words of a command, separated by single spaces.
#[derive(Clone, Copy)]
pub struct Words<'a> {
    rest: &'a str,
}

impl<'a> Words<'a> {
    pub fn new(rest: &'a str) -> Words<'a> {
        Words { rest }
    }

    /// The next word, or an empty string at the end.
    pub fn word(&mut self) -> &'a str {
        let (word, rest) = match self.rest.split_once(' ') {
            Some((word, rest)) => (word, rest),
            None => (self.rest, ""),
        };
        self.rest = rest;
        word
    }

    /// All remaining words.
    pub fn others(&mut self) -> &'a str {
        let others = self.rest;
        self.rest = "";
        others
    }

    pub fn number(&mut self) -> Result<usize, Fault> {
        number(self.word())
    }

    pub fn mark(&mut self) -> Result<Option<char>, Fault> {
        mark(self.word())
    }

    /// The cells that the next words name, or `None` for `table`.
    pub fn part(&mut self) -> Result<Option<Entity>, Fault> {
        match self.word() {
            "table" => Ok(None),
            "all" => Ok(Some(Entity::Global)),
            "row" => Ok(Some(Entity::Row(self.number()?))),
            "column" => Ok(Some(Entity::Column(self.number()?))),
            "cell" => {
                let row = self.number()?;
                Ok(Some(Entity::Cell(row, self.number()?)))
            }
            _ => Err(Fault::Unknown("no such part")),
        }
    }

    /// All remaining words as numbers.
    pub fn numbers(&mut self, alloc: Global) -> Result<Vec<usize>, Fault> {
        let mut numbers = Vec::new(alloc);
        for word in self.others().split(' ') {
            if !word.is_empty() {
                numbers.push(number(word)?)?;
            }
        }
        Ok(numbers)
    }

    pub fn has_more(&self) -> bool {
        !self.rest.is_empty()
    }
}

/// Digits, or `greatest` for `usize::MAX`.
pub fn number(word: &str) -> Result<usize, Fault> {
    if word == "greatest" {
        return Ok(usize::MAX);
    }
    match word.parse::<usize>() {
        Ok(number) => Ok(number),
        Err(_) => Err(Fault::Unknown("no number")),
    }
}

/// A single character, or `none`.
pub fn mark(word: &str) -> Result<Option<char>, Fault> {
    if word == "none" {
        return Ok(None);
    }
    let mut characters = word.chars();
    match (characters.next(), characters.next()) {
        (Some(character), None) => Ok(Some(character)),
        _ => Err(Fault::Unknown("no single character")),
    }
}
