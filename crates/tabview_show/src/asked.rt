//! What is asked for, in the words of the crates below.
ghost use Rattle.std.specs.Prelude.{◌≡◌, ◌&&◌, None, if◌then◌else◌, not, unwrap_or};
ghost use Rattle.tabview_show.specs.Asked.{IsWanted, alignment, format_of, measured, shown_by};
ghost use Rattle.tabview_show.specs.Asked.{is_marked, rows_ahead, side_of_kind};
ghost use Rattle.tabview_show.specs.Asked.{wants_head};

use tabled_config::AlignmentHorizontal;
use tabview_cells::{Kind, Shown};
use tabview_options::{Input, Look, Options, Side};
use tabview_print::{Narrowing, is_markdown};
use tabview_read::{CsvOptions, Format, JsonOptions, Wanted};

/// Returns which rows and columns are shown.
pub(crate) fn wanted<'a>(options: &'a Options<'_>) -> Wanted<'a>
    ensures { IsWanted options.now result }
{
    let columns = options.choice.columns.as_slice();
    let null = match options.input.null {
        Some(text) => text,
        None => "NULL",
    };
    let blank = match options.input.null {
        Some(text) => text,
        None => "",
    };
    Wanted {
        columns,
        rows: options.choice.rows,
        tail: options.choice.tail,
        numbers: options.choice.numbers,
        count: options.choice.count,
        null,
        blank,
        shown: shown(options.look.raw),
    }
}

/// Returns how comma-separated values are read, with the byte that is between cells if none is
/// asked for.
pub(crate) fn csv_options(input: &Input<'_>, delimiter: u8) -> CsvOptions
    ensures { let i = input.now in result ≡ record {
      delimiter = unwrap_or i.delimiter delimiter;
      has_header = i.has_header;
      fill = i.fill;
      lossy = i.lossy;
    } }
{
    CsvOptions {
        delimiter: input.delimiter.unwrap_or(delimiter),
        has_header: input.has_header,
        fill: input.fill,
        lossy: input.lossy,
    }
}

/// Returns how JSON is read, with keys that weren't read ahead passed over or not.
pub(crate) fn json_options(input: &Input<'_>, passes_keys: bool) -> JsonOptions
    ensures { result ≡ record {
      has_header = input.now.has_header;
      fill = input.now.fill;
      passes_keys = passes_keys;
    } }
{
    JsonOptions {
        has_header: input.has_header,
        fill: input.fill,
        passes_keys,
    }
}

/// Returns the count of the values that are read ahead, by which the columns are known: those that
/// a stream measures, or the first ones if no others are shown, or all.
pub(crate) fn rows_ahead(options: &Options<'_>) -> usize
    ensures { result ≡ rows_ahead options.now.stream options.now.choice.rows
        options.now.choice.tail }
{
    let measured = options.stream.unwrap_or(usize::MAX);
    match options.choice.tail {
        Some(_) => measured,
        None => measured.min(options.choice.rows.unwrap_or(usize::MAX)),
    }
}

/// Whether the first bytes of an input are read, to know its format or its delimiter.
pub(crate) fn wants_head(input: &Input<'_>, format: Option<Format>) -> bool
    ensures { result ≡ wants_head input.now.delimiter format }
{
    match format {
        None => true,
        Some(Format::Csv) => input.delimiter.is_none(),
        Some(_) => false,
    }
}

/// Returns the format that was named, else that of the file's ending.
pub(crate) fn format_of(input: &Input<'_>) -> Option<Format>
    ensures { result ≡ format_of input.now.format input.now.file }
{
    match input.format {
        Some(name) => Format::of_name(name),
        None => match input.file {
            Some(path) => Format::of_path(path),
            None => None,
        },
    }
}

/// Whether a table of Markdown is printed: its style is asked for, and records one below the other
/// aren't.
pub(crate) fn is_marked(look: &Look<'_>) -> bool
    ensures { result ≡ is_marked look.now.style look.now.expand }
{
    is_markdown(look.style) && !look.expand
}

/// Returns the width to which a table is fitted. One of Markdown isn't wrapped, since each of its
/// lines is a row.
pub(crate) fn fitted_width(look: &Look<'_>) -> Option<usize>
    ensures { result ≡ (if is_marked look.now.style look.now.expand && not look.now.cut then None
        else look.now.width) }
{
    if is_marked(look) && !look.cut {
        return None;
    }
    look.width
}

pub(crate) fn narrowing(cut: bool) -> Narrowing
    ensures { result ≡ (if cut then Narrowing.Cut else Narrowing.Wrap) }
{
    if cut { Narrowing::Cut } else { Narrowing::Wrap }
}

fn shown(raw: bool) -> Shown
    ensures { result ≡ shown_by raw }
{
    if raw { Shown::Raw } else { Shown::Lines }
}

pub(crate) fn alignment(side: Side) -> AlignmentHorizontal
    ensures { result ≡ alignment side }
{
    match side {
        Side::Left => AlignmentHorizontal::Left,
        Side::Right => AlignmentHorizontal::Right,
        Side::Center => AlignmentHorizontal::Center,
    }
}

/// Returns the side of a column that none is asked for: numbers are at the right.
pub(crate) fn side_of_kind(kind: Kind) -> Side
    ensures { result ≡ side_of_kind kind }
{
    if kind == Kind::Number {
        Side::Right
    } else {
        Side::Left
    }
}

/// Returns the count of the rows that a stream measures, with that of the names.
pub(crate) fn measured(rows: Option<usize>, has_names: bool) -> usize
    ensures { result ≡ measured rows has_names }
{
    rows.unwrap_or(usize::MAX)
        .saturating_add(usize::from(has_names))
}
