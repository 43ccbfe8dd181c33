//! Runs the commands that change the settings of a table.

use crate::fault::Fault;
use crate::sizing::{
    Change, justify_to, limit_to, narrow_by, resize, set_part, truncate_to, wrap_to,
};
use crate::words::Words;
use std::alloc::Global;
use tabled::Table;
use tabled::grid::config::{
    AlignmentHorizontal as Horizontal, AlignmentVertical as Vertical, Borders, HorizontalLine,
    Indent, Sides,
};
use tabled::settings::{Height, Margin, Padding, Style, Width};

/// Fails if the command is unknown or malformed, or if the library returns an error.
pub fn set(alloc: Global, table: &mut Table, command: &str) -> Result<(), Fault> {
    let mut words = Words::new(command);
    set_kind(alloc, table, words.word(), &mut words)?;
    if words.has_more() {
        return Err(Fault::Unknown("too many words"));
    }
    Ok(())
}

fn set_kind(
    alloc: Global,
    table: &mut Table,
    kind: &str,
    words: &mut Words<'_>,
) -> Result<(), Fault> {
    match kind {
        "wrap" => resize(table, Change::Wrap, words),
        "truncate" => resize(table, Change::Truncate, words),
        "increase" => resize(table, Change::Increase, words),
        "heighten" => resize(table, Change::Heighten, words),
        "limit" => resize(table, Change::Limit, words),
        "widths" | "heights" | "list" => set_sizes(alloc, table, kind, words),
        _ => set_measured(table, kind, words),
    }
}

// Sizes that are read from the table.
fn set_measured(table: &mut Table, kind: &str, words: &mut Words<'_>) -> Result<(), Fault> {
    match kind {
        "wrap_to" => wrap_to(table, words.word()),
        "truncate_to" => truncate_to(table, words.word()),
        "justify_to" => justify_to(table, words.word()),
        "limit_to" => limit_to(table, words.word()),
        "wrap_by" | "truncate_by" => narrow_by(table, kind, words.number()?),
        _ => set_format(table, kind, words),
    }
}

// `list` sets the sizes by an option; without it they are stored directly.
fn set_sizes(
    alloc: Global,
    table: &mut Table,
    kind: &str,
    words: &mut Words<'_>,
) -> Result<(), Fault> {
    if kind == "list" {
        let direction = words.word();
        return apply_list(alloc, table, direction, words.numbers(alloc)?);
    }
    let sizes = words.numbers(alloc)?;
    if kind == "widths" {
        table.get_dimension_mut().set_widths(sizes);
    } else {
        table.get_dimension_mut().set_heights(sizes);
    }
    Ok(())
}

fn apply_list(
    alloc: Global,
    table: &mut Table,
    direction: &str,
    sizes: Vec<usize>,
) -> Result<(), Fault> {
    let outcome = match direction {
        "widths" => table.apply(Width::list(alloc, sizes)?),
        "heights" => table.apply(Height::list(alloc, sizes)?),
        _ => return Err(Fault::Unknown("no such list")),
    };
    Ok(outcome?)
}

fn set_format(table: &mut Table, kind: &str, words: &mut Words<'_>) -> Result<(), Fault> {
    match kind {
        "style" => Ok(table.apply(style_of(words.word())?)?),
        "bare" => set_bare(table),
        "border" => set_border(table, words),
        "line" => set_line(table, words),
        "padding" => set_padding(table, words),
        "margin" => Ok(table.apply(Margin::from(read_sides(words)?))?),
        "horizontal" | "vertical" | "lines" => set_alignment(table, kind, words),
        _ => Err(Fault::Unknown("no such command")),
    }
}

pub fn style_of(name: &str) -> Result<Style, Fault> {
    match name {
        "ascii" => Ok(Style::ascii()),
        "modern" => Ok(Style::modern()),
        "extended" => Ok(Style::extended()),
        "markdown" => Ok(Style::markdown()),
        "psql" => Ok(Style::psql()),
        "empty" => Ok(Style::empty()),
        _ => Err(Fault::Unknown("no such style")),
    }
}

fn set_bare(table: &mut Table) -> Result<(), Fault> {
    table.apply(Style::empty())?;
    table.apply(Padding::zero())?;
    Ok(())
}

fn set_border(table: &mut Table, words: &mut Words<'_>) -> Result<(), Fault> {
    let config = table.get_config_mut().as_mut();
    let borders = with_border(*config.get_borders(), words.word(), words.mark()?)?;
    config.set_borders(borders);
    Ok(())
}

fn with_border(
    mut borders: Borders<char>,
    place: &str,
    mark: Option<char>,
) -> Result<Borders<char>, Fault> {
    match place {
        "horizontal" => borders.horizontal = mark,
        "vertical" => borders.vertical = mark,
        "left" => borders.left = mark,
        "right" => borders.right = mark,
        "intersection" => borders.intersection = mark,
        "left_intersection" => borders.left_intersection = mark,
        "right_intersection" => borders.right_intersection = mark,
        _ => return Err(Fault::Unknown("no such border")),
    }
    Ok(borders)
}

// Arguments: the index of the line, then its main, left, intersection and right characters.
fn set_line(table: &mut Table, words: &mut Words<'_>) -> Result<(), Fault> {
    let index = words.number()?;
    let main = words.mark()?;
    let left = words.mark()?;
    let intersection = words.mark()?;
    let right = words.mark()?;
    let line = HorizontalLine {
        main,
        left,
        intersection,
        right,
    };
    let config = table.get_config_mut().as_mut();
    config.insert_horizontal_line(index, line)?;
    Ok(())
}

/// Reads the sizes of the left, right, top and bottom, and then their fill characters, which may be
/// missing.
pub fn read_sides(words: &mut Words<'_>) -> Result<Sides<Indent>, Fault> {
    let sizes = [
        words.number()?,
        words.number()?,
        words.number()?,
        words.number()?,
    ];
    let mut fills = [' '; 4];
    if words.has_more() {
        for fill in &mut fills {
            *fill = words.mark()?.unwrap_or(' ');
        }
    }
    Ok(Sides::new(
        Indent::new(sizes[0], fills[0]),
        Indent::new(sizes[1], fills[1]),
        Indent::new(sizes[2], fills[2]),
        Indent::new(sizes[3], fills[3]),
    ))
}

fn set_padding(table: &mut Table, words: &mut Words<'_>) -> Result<(), Fault> {
    let part = words.part()?;
    let padding = Padding::from(read_sides(words)?);
    let outcome = match part {
        None => table.apply(padding),
        Some(entity) => set_part(table, entity, &padding),
    };
    Ok(outcome?)
}

// `lines` sets whether each line of a cell is aligned separately.
fn set_alignment(table: &mut Table, kind: &str, words: &mut Words<'_>) -> Result<(), Fault> {
    let Some(entity) = words.part()? else {
        return Err(Fault::Unknown("no such entity"));
    };
    let config = table.get_config_mut().as_mut();
    let outcome = match (kind, words.word()) {
        ("horizontal", "left") => config.set_alignment_horizontal(entity, Horizontal::Left),
        ("horizontal", "center") => config.set_alignment_horizontal(entity, Horizontal::Center),
        ("horizontal", "right") => config.set_alignment_horizontal(entity, Horizontal::Right),
        ("vertical", "top") => config.set_alignment_vertical(entity, Vertical::Top),
        ("vertical", "center") => config.set_alignment_vertical(entity, Vertical::Center),
        ("vertical", "bottom") => config.set_alignment_vertical(entity, Vertical::Bottom),
        ("lines", "each") => config.set_line_alignment(entity, true),
        ("lines", "together") => config.set_line_alignment(entity, false),
        _ => return Err(Fault::Unknown("no such alignment")),
    };
    Ok(outcome?)
}
