//! The options of the printers that keep no `Table`, read from commands.

use crate::fault::Fault;
use crate::settings::{read_sides, style_of};
use crate::words::Words;
use std::alloc::Global;
use tabled::grid::config::{ANSIStr, AlignmentHorizontal, Borders, CompactConfig, Indent, Sides};
use tabled::grid::dimension::{DimensionPriority, PoolTableDimension};
use tabled::settings::Style;

/// The options of one case. A printer uses those that apply to it.
#[derive(Drop)]
pub struct PrintOptions {
    pub config: CompactConfig,
    pub boxes: PoolTableDimension,
    pub widths: Vec<usize>,
    pub width: Option<usize>,
    pub height: Option<usize>,
    pub columns: Option<usize>,
    pub rows: Option<usize>,
    pub sniff: Option<usize>,
    pub skip: usize,
}

impl PrintOptions {
    /// Ascii borders, and one column of padding on the left and right.
    pub fn new(alloc: Global) -> PrintOptions {
        let one = Indent::spaced(1);
        let none = Indent::zero();
        PrintOptions {
            config: CompactConfig::new()
                .set_borders(Style::ascii().get_borders())
                .set_padding(Sides::new(one, one, none, none)),
            boxes: PoolTableDimension::new(DimensionPriority::List, DimensionPriority::List),
            widths: Vec::new(alloc),
            width: None,
            height: None,
            columns: None,
            rows: None,
            sniff: None,
            skip: 0,
        }
    }

    /// Sets the option that a command names. `kind` says which options exist.
    pub fn set(&mut self, alloc: Global, kind: &str, command: &str) -> Result<(), Fault> {
        let mut words = Words::new(command);
        let name = words.word();
        if has_number(kind, name) {
            self.set_number(name, words.number()?);
        } else {
            self.set_other(alloc, (kind, name), &mut words)?;
        }
        if words.has_more() {
            return Err(Fault::Unknown("too many words"));
        }
        Ok(())
    }

    fn set_number(&mut self, name: &str, number: usize) {
        match name {
            "skip" => self.skip = number,
            "sniff" => self.sniff = Some(number),
            "height" => self.height = Some(number),
            "width" => self.width = Some(number),
            "columns" => self.columns = Some(number),
            _ => self.rows = Some(number),
        }
    }

    fn set_other(
        &mut self,
        alloc: Global,
        kind_and_name: (&str, &str),
        words: &mut Words<'_>,
    ) -> Result<(), Fault> {
        match kind_and_name {
            ("compact", "widths") => self.widths = words.numbers(alloc)?,
            ("boxes", "left_over") => self.boxes = left_over(words)?,
            (_, name) => self.config = configured(self.config, name, words)?,
        }
        Ok(())
    }
}

// Whether an option of a kind of printers is one number.
fn has_number(kind: &str, name: &str) -> bool {
    match kind {
        "stream" => matches!(name, "sniff" | "height" | "width" | "columns" | "rows"),
        "compact" => matches!(name, "skip" | "width" | "columns" | "rows"),
        _ => false,
    }
}

fn left_over(words: &mut Words<'_>) -> Result<PoolTableDimension, Fault> {
    let width = priority(words.word())?;
    Ok(PoolTableDimension::new(width, priority(words.word())?))
}

// Which boxes get the surplus size.
fn priority(word: &str) -> Result<DimensionPriority, Fault> {
    match word {
        "first" => Ok(DimensionPriority::First),
        "last" => Ok(DimensionPriority::Last),
        "all" => Ok(DimensionPriority::List),
        _ => Err(Fault::Unknown("no such boxes")),
    }
}

fn configured(
    config: CompactConfig,
    name: &str,
    words: &mut Words<'_>,
) -> Result<CompactConfig, Fault> {
    match name {
        "style" => Ok(config.set_borders(style_of(words.word())?.get_borders())),
        "padding" => Ok(config.set_padding(read_sides(words)?)),
        "margin" => Ok(config.set_margin(read_sides(words)?)),
        "right" => Ok(config.set_alignment_horizontal(AlignmentHorizontal::Right)),
        _ => colored(config, name, words),
    }
}

fn colored(
    config: CompactConfig,
    name: &str,
    words: &mut Words<'_>,
) -> Result<CompactConfig, Fault> {
    match name {
        "color" => {
            let colors = with_color(*config.get_borders_color(), words)?;
            Ok(config.set_borders_color(colors))
        }
        "padding_colors" => Ok(config.set_padding_color(read_colors(words)?)),
        "margin_colors" => Ok(config.set_margin_color(read_colors(words)?)),
        _ => Err(Fault::Unknown("no such command")),
    }
}

// A colour writes its letter in upper case before a run, and in lower case after it.
fn color(letter: &str) -> Result<ANSIStr<'static>, Fault> {
    match letter {
        "none" => Ok(ANSIStr::new("", "")),
        "A" => Ok(ANSIStr::new("A", "a")),
        "B" => Ok(ANSIStr::new("B", "b")),
        "C" => Ok(ANSIStr::new("C", "c")),
        "D" => Ok(ANSIStr::new("D", "d")),
        "L" => Ok(ANSIStr::new("L", "l")),
        "R" => Ok(ANSIStr::new("R", "r")),
        "T" => Ok(ANSIStr::new("T", "t")),
        _ => Err(Fault::Unknown("no such colour")),
    }
}

fn with_color(
    mut colors: Borders<ANSIStr<'static>>,
    words: &mut Words<'_>,
) -> Result<Borders<ANSIStr<'static>>, Fault> {
    let place = words.word();
    let color = Some(color(words.word())?);
    match place {
        "top" => colors.top = color,
        "top_left" => colors.top_left = color,
        "left" => colors.left = color,
        "right" => colors.right = color,
        "bottom" => colors.bottom = color,
        "bottom_right" => colors.bottom_right = color,
        _ => return Err(Fault::Unknown("no such border")),
    }
    Ok(colors)
}

// Left, right, top and bottom.
fn read_colors(words: &mut Words<'_>) -> Result<Sides<ANSIStr<'static>>, Fault> {
    let left = color(words.word())?;
    let right = color(words.word())?;
    let top = color(words.word())?;
    Ok(Sides::new(left, right, top, color(words.word())?))
}
