//! Runs the commands that change the width or height of strings, cells and tables.

use crate::fault::Fault;
use crate::never::Never;
use crate::words::{Words, mark, number};
use std::alloc::Global;
use tabled::grid::config::{ColoredConfig, Entity};
use tabled::grid::records::{Text, VecRecords};
use tabled::grid::util::string::split_str;
use tabled::settings::measurement::{Max, Min, Percent};
use tabled::settings::object::{Columns, Rows, Segment};
use tabled::settings::peaker::{Peaker, Priority};
use tabled::settings::width::{Justify, MinWidth, SuffixLimit, Truncate, Wrap};
use tabled::settings::{CellOption, Height, Width};
use tabled::{Table, TableError};

/// The way to change a width or height. The last two change heights.
#[derive(Clone, Copy)]
pub enum Change {
    Wrap,
    Truncate,
    Increase,
    Heighten,
    Limit,
}

/// The new width or height, and the options of the change.
#[derive(Clone, Copy)]
struct Sizing<'a> {
    size: usize,
    keep_words: bool,
    suffix: &'a str,
    limit: SuffixLimit,
    multiline: bool,
    fill: char,
    priority: &'a str,
}

impl<'a> Sizing<'a> {
    // `keep_words`, `multiline`, `suffix=`, `limit=`, `fill=` or `priority=`.
    fn set_option(&mut self, word: &'a str) -> Result<(), Fault> {
        match word.split_once('=') {
            Some(("suffix", suffix)) => self.suffix = suffix,
            Some(("priority", priority)) => self.priority = priority,
            Some(("limit", name)) => self.limit = limit(name)?,
            Some(("fill", name)) => self.fill = mark(name)?.unwrap_or(' '),
            None if word == "keep_words" => self.keep_words = true,
            None if word == "multiline" => self.multiline = true,
            _ => return Err(Fault::Unknown("no such way to size")),
        }
        Ok(())
    }

    fn wrap(self) -> Wrap {
        Width::wrap(self.size).keep_words(self.keep_words)
    }

    fn truncate(self) -> Truncate<'a> {
        Width::truncate(self.size)
            .suffix(self.suffix)
            .suffix_limit(self.limit)
            .multiline(self.multiline)
    }

    fn increase(self) -> MinWidth {
        Width::increase(self.size).fill_with(self.fill)
    }
}

// What to do if the suffix is too wide: `cut`, `ignore`, or a character that replaces it.
fn limit(name: &str) -> Result<SuffixLimit, Fault> {
    match name {
        "cut" => Ok(SuffixLimit::Cut),
        "ignore" => Ok(SuffixLimit::Ignore),
        _ => match mark(name)? {
            Some(character) => Ok(SuffixLimit::Replace(character)),
            None => Err(Fault::Unknown("no such limit")),
        },
    }
}

fn read<'a>(words: &mut Words<'a>) -> Result<Sizing<'a>, Fault> {
    let mut sizing = Sizing {
        size: words.number()?,
        keep_words: false,
        suffix: "",
        limit: SuffixLimit::Cut,
        multiline: false,
        fill: ' ',
        priority: "none",
    };
    for word in words.others().split(' ') {
        if !word.is_empty() {
            sizing.set_option(word)?;
        }
    }
    Ok(sizing)
}

/// Changes the cells of an entity, or the entire table.
pub fn resize(table: &mut Table, change: Change, words: &mut Words<'_>) -> Result<(), Fault> {
    let part = words.part()?;
    let sizing = read(words)?;
    match part {
        Some(entity) => Ok(resize_cells(table, change, entity, sizing)?),
        None => resize_table(table, change, sizing),
    }
}

fn resize_cells(
    table: &mut Table,
    change: Change,
    entity: Entity,
    sizing: Sizing<'_>,
) -> Result<(), TableError> {
    match change {
        Change::Wrap => set_part(table, entity, &sizing.wrap()),
        Change::Truncate => set_part(table, entity, &sizing.truncate()),
        Change::Increase => set_part(table, entity, &sizing.increase()),
        Change::Heighten => set_part(table, entity, &Height::increase(sizing.size)),
        Change::Limit => set_part(table, entity, &Height::limit(sizing.size)),
    }
}

/// Applies an option to the cells of an entity.
pub fn set_part<O: CellOption<VecRecords<Text<String>>, ColoredConfig>>(
    table: &mut Table,
    entity: Entity,
    option: &O,
) -> Result<(), TableError> {
    match entity {
        Entity::Global => table.apply_to(Segment::all(), option),
        Entity::Row(row) => table.apply_to(Rows::one(row), option),
        Entity::Column(column) => table.apply_to(Columns::one(column), option),
        Entity::Cell(row, column) => table.apply_to((row, column), option),
    }
}

fn resize_table(table: &mut Table, change: Change, sizing: Sizing<'_>) -> Result<(), Fault> {
    let outcome = match sizing.priority {
        "none" => resize_by(table, change, sizing, Priority::none()),
        "left" => resize_by(table, change, sizing, Priority::left()),
        "right" => resize_by(table, change, sizing, Priority::right()),
        "max_left" => resize_by(table, change, sizing, Priority::max(false)),
        "max_right" => resize_by(table, change, sizing, Priority::max(true)),
        "min_left" => resize_by(table, change, sizing, Priority::min(false)),
        "min_right" => resize_by(table, change, sizing, Priority::min(true)),
        "never" => resize_by(table, change, sizing, Never),
        _ => return Err(Fault::Unknown("no such priority")),
    };
    Ok(outcome?)
}

fn resize_by<P: Peaker + Drop>(
    table: &mut Table,
    change: Change,
    sizing: Sizing<'_>,
    priority: P,
) -> Result<(), TableError> {
    match change {
        Change::Wrap => table.apply(sizing.wrap().priority(priority)),
        Change::Truncate => table.apply(sizing.truncate().priority(priority)),
        Change::Increase => table.apply(sizing.increase().priority(priority)),
        Change::Heighten => table.apply(Height::increase(sizing.size).priority(priority)),
        Change::Limit => table.apply(Height::limit(sizing.size).priority(priority)),
    }
}

/// Wraps the table to the width of its widest or narrowest cell, or to a percentage of its width.
pub fn wrap_to(table: &mut Table, measure: &str) -> Result<(), Fault> {
    let outcome = match measure {
        "max" => table.apply(Width::wrap(Max)),
        "min" => table.apply(Width::wrap(Min)),
        _ => table.apply(Width::wrap(percent(measure)?)),
    };
    Ok(outcome?)
}

/// Truncates the table to a width as in `wrap_to`.
pub fn truncate_to(table: &mut Table, measure: &str) -> Result<(), Fault> {
    let outcome = match measure {
        "max" => table.apply(Width::truncate(Max)),
        "min" => table.apply(Width::truncate(Min)),
        _ => table.apply(Width::truncate(percent(measure)?)),
    };
    Ok(outcome?)
}

/// Makes all cells equally wide: as the widest, as the narrowest, or n columns.
pub fn justify_to(table: &mut Table, measure: &str) -> Result<(), Fault> {
    let outcome = match measure {
        "max" => table.apply(Justify::max()),
        "min" => table.apply(Justify::min()),
        _ => table.apply(Width::justify(number(measure)?)),
    };
    Ok(outcome?)
}

/// Limits the table to a percentage of its height.
pub fn limit_to(table: &mut Table, measure: &str) -> Result<(), Fault> {
    table.apply(Height::limit(percent(measure)?))?;
    Ok(())
}

/// Wraps or truncates the table to `less` columns less than its total width. Fails if it gets
/// another width.
pub fn narrow_by(table: &mut Table, kind: &str, less: usize) -> Result<(), Fault> {
    let wanted = table.total_width()?.saturating_sub(less);
    let outcome = if kind == "wrap_by" {
        table.apply(Width::wrap(wanted))
    } else {
        table.apply(Width::truncate(wanted))
    };
    outcome?;
    if table.total_width()? == wanted {
        Ok(())
    } else {
        Err(Fault::Unknown("other columns than were asked for"))
    }
}

fn percent(measure: &str) -> Result<Percent, Fault> {
    match measure.strip_suffix('%') {
        Some(word) => Ok(Percent(number(word)?)),
        None => Err(Fault::Unknown("no such measure")),
    }
}

fn cut(alloc: Global, text: &str, columns: usize) -> Result<String, TableError> {
    Ok(Truncate::truncate(alloc, text, columns)?.into_owned(alloc)?)
}

// Puts a bar between the two parts.
fn split(alloc: Global, text: &str, columns: usize) -> Result<String, TableError> {
    let (cut, rest) = split_str(alloc, text, columns)?;
    Ok(format!(in alloc; "{}|{rest}", cut.as_str())?)
}

/// Cuts, splits, wraps or truncates one string.
pub fn narrowed(alloc: Global, text: &str, by: &str) -> Result<String, Fault> {
    let mut words = Words::new(by);
    let kind = words.word();
    let sizing = read(&mut words)?;
    let narrowed = match kind {
        "cut" => cut(alloc, text, sizing.size),
        "split" => split(alloc, text, sizing.size),
        "wrap" => Wrap::wrap(alloc, text, sizing.size, sizing.keep_words),
        "truncate" => sizing.truncate().shorten(alloc, text, sizing.size),
        _ => return Err(Fault::Unknown("no such way to narrow a text")),
    };
    Ok(narrowed?)
}
