//! Reads an input by its format, and shows it.
ghost use Rattle.std.specs.Prelude.{◌↔◌, ◌≡◌, None};

use crate::asked::{
    csv_options, format_of, is_marked, json_options, rows_ahead, wanted, wants_head,
};
use crate::database::show_database_at;
use crate::error::{DatabaseOption, ViewError};
use crate::hint::{HINT, Measured, wants_hint};
use crate::layout::layout_of;
use crate::progress::Progress;
use crate::view::{put_sheet, put_stream};
use json::Scratch;
use std::fs::File;
use std::io::{self, BufRead, BufReader, BufWriter, IsTerminal, Read, Write};
use tabview_options::{Input, Options};
use tabview_read::{
    CsvRows, Format, JsonLines, JsonRows, MarkdownRows, ReadError, Rows, Sheet, Wanted,
    delimiter_of, is_sequence, read_sheet, text_of,
};

/// The bytes that are written at once.
const BLOCK: usize = 65_536;

/// The bytes by which a format and a delimiter are known.
const HEAD: usize = 4096;

/// Shows the file, or standard input without one, on standard output.
///
/// Errors: the rows can't be read; the table can't be laid out; the output can't be written; a
/// database was given at standard input; there is a query, but no database.
pub fn show(rt: &HostRuntime, options: &Options<'_>) -> Result<(), ViewError> {
    match BufWriter::with_capacity(rt.alloc(), BLOCK, io::writer(rt)) {
        Ok(mut out) => show_hinting(rt, options, &mut out),
        Err(error) => Err(ViewError::Output(error)),
    }
}

/// Shows the input. On a terminal, a table that may be too wide for it brings a hint.
fn show_hinting<W: Write>(
    rt: &HostRuntime,
    options: &Options<'_>,
    out: &mut W,
) -> Result<(), ViewError> {
    if !wants_hint(options) || !rt.stdout().is_terminal() {
        return show_on(rt, options, out);
    }
    let mut out = Measured::new(out);
    let shown = show_on(rt, options, &mut out);
    if out.is_wide() {
        let _told = eprintln!(rt; "{HINT}");
    }
    shown
}

fn show_on<W: Write>(
    rt: &HostRuntime,
    options: &Options<'_>,
    out: &mut W,
) -> Result<(), ViewError> {
    match options.input.file {
        Some(path) => show_file(rt, options, path, out),
        None => show_stdin(rt, options, out),
    }
}

fn show_stdin<W: Write>(
    rt: &HostRuntime,
    options: &Options<'_>,
    out: &mut W,
) -> Result<(), ViewError> {
    if show_input(rt, options, rt.stdin(), out)? {
        return Ok(());
    }
    Err(ViewError::Database)
}

fn show_file<W: Write>(
    rt: &HostRuntime,
    options: &Options<'_>,
    path: &str,
    out: &mut W,
) -> Result<(), ViewError> {
    let file = File::open(rt, path).map_err(ReadError::Input)?;
    if show_input(rt, options, file, out)? {
        return Ok(());
    }
    show_database_at(rt, options, path, out)
}

/// Shows an input, unless it is a database of SQLite. Returns whether it is none.
///
/// Errors: as of `show`.
pub fn show_input<R: Read + Drop, W: Write>(
    rt: &HostRuntime,
    options: &Options<'_>,
    mut input: R,
    out: &mut W,
) -> Result<bool, ViewError> {
    let known = format_of(&options.input);
    let mut head = Vec::new(rt.alloc());
    if wants_head(&options.input, known) {
        read_head(&mut input, options.stream.is_some(), &mut head)?;
    }
    let format = known.unwrap_or(Format::of_head(&head));
    if format == Format::Sqlite {
        return Ok(false);
    }
    if let Some(option) = option_for_databases(&options.input) {
        return Err(ViewError::NoDatabase(option));
    }
    if format == Format::Csv {
        let delimiter = delimiter_of(&head, head.len() < HEAD);
        show_csv(rt, options, delimiter, head.as_slice().chain(input), out)?;
    } else {
        show_text(rt, options, format, head.as_slice().chain(input), out)?;
    }
    Ok(true)
}

/// Returns the option that only databases have, if there is one.
fn option_for_databases(input: &Input<'_>) -> Option<DatabaseOption>
    ensures { (result ≡ None) ↔ ((input.now.query ≡ None) × (input.now.table ≡ None)) }
{
    match (input.query, input.table) {
        (Some(_), _) => Some(DatabaseOption::Query),
        (None, Some(_)) => Some(DatabaseOption::Table),
        (None, None) => None,
    }
}

/// Reads the first bytes of an input, or of a stream those of its first line.
fn read_head<R: Read>(input: &mut R, is_stream: bool, head: &mut Vec<u8>) -> Result<(), ReadError> {
    let step = if is_stream { 1 } else { HEAD as u64 };
    for _step in 0..HEAD {
        let mut bytes = input.by_ref().take(step);
        if bytes.read_to_end(head)? == 0 || head.len() >= HEAD {
            break;
        }
        if is_stream && head.last() == Some(&b'\n') {
            break;
        }
    }
    Ok(())
}

/// Shows an input in a format of text.
fn show_text<R: Read + Drop, W: Write>(
    rt: &HostRuntime,
    options: &Options<'_>,
    format: Format,
    input: R,
    out: &mut W,
) -> Result<(), ViewError> {
    match format {
        Format::Json => show_json(rt, options, input, out),
        Format::JsonLines => show_lines(rt, options, input, out),
        Format::Tsv => show_csv(rt, options, b'\t', input, out),
        Format::Csv | Format::Sqlite => show_csv(rt, options, b',', input, out),
    }
}

fn show_csv<R: Read + Drop, W: Write>(
    rt: &HostRuntime,
    options: &Options<'_>,
    delimiter: u8,
    input: R,
    out: &mut W,
) -> Result<(), ViewError> {
    let csv = csv_options(&options.input, delimiter);
    let mut rows = CsvRows::new(rt.alloc(), csv, input)?;
    show_rows(rt, options, &mut rows, out)
}

fn show_json<R: Read + Drop, W: Write>(
    rt: &HostRuntime,
    options: &Options<'_>,
    input: R,
    out: &mut W,
) -> Result<(), ViewError> {
    let text = read_text(rt, options.input.lossy, input)?;
    show_json_text(rt, options, &text, out)
}

fn read_text<R: Read + Drop>(
    rt: &HostRuntime,
    lossy: bool,
    mut input: R,
) -> Result<String, ReadError> {
    let mut bytes = Vec::new(rt.alloc());
    match input.read_to_end(&mut bytes) {
        Ok(_) => text_of(rt.alloc(), &bytes, lossy),
        Err(error) => Err(ReadError::Input(error)),
    }
}

fn show_json_text<W: Write>(
    rt: &HostRuntime,
    options: &Options<'_>,
    text: &str,
    out: &mut W,
) -> Result<(), ViewError> {
    if is_sequence(text.as_bytes()) {
        return show_values(rt, options, text.as_bytes(), out);
    }
    let mut scratch = Scratch::new(rt.alloc());
    let json = json_options(&options.input, options.stream.is_none());
    let mut rows = JsonRows::new(rt.alloc(), json, text, &mut scratch)?;
    show_rows(rt, options, &mut rows, out)
}

fn show_lines<R: Read + Drop, W: Write>(
    rt: &HostRuntime,
    options: &Options<'_>,
    input: R,
    out: &mut W,
) -> Result<(), ViewError> {
    match BufReader::new(rt.alloc(), input) {
        Ok(input) => show_values(rt, options, input, out),
        Err(error) => Err(ViewError::Read(ReadError::Input(error))),
    }
}

fn show_values<B: BufRead + Drop, W: Write>(
    rt: &HostRuntime,
    options: &Options<'_>,
    input: B,
    out: &mut W,
) -> Result<(), ViewError> {
    let json = json_options(&options.input, options.stream.is_none());
    let ahead = rows_ahead(options);
    let mut rows = JsonLines::new(rt.alloc(), json, options.input.lossy, input, ahead)?;
    show_rows(rt, options, &mut rows, out)
}

/// Shows rows, as those of Markdown if a table of it is printed.
pub(crate) fn show_rows<T: Rows, W: Write>(
    rt: &HostRuntime,
    options: &Options<'_>,
    rows: &mut T,
    out: &mut W,
) -> Result<(), ViewError> {
    if is_marked(&options.look) {
        let mut rows = MarkdownRows::new(rt.alloc(), rows)?;
        return show_cells(rt, options, &mut rows, out);
    }
    show_cells(rt, options, rows, out)
}

/// Shows rows, as they are read or when all are.
fn show_cells<T: Rows, W: Write>(
    rt: &HostRuntime,
    options: &Options<'_>,
    rows: &mut T,
    out: &mut W,
) -> Result<(), ViewError> {
    if options.stream.is_some() {
        return put_stream(rt.alloc(), options, rows, out);
    }
    let sheet = read_rows(rt, options, rows)?;
    let layout = layout_of(rt.alloc(), options, rows.names(), &sheet)?;
    put_sheet(rt.alloc(), options, layout, &sheet, out)
}

fn read_rows<T: Rows>(
    rt: &HostRuntime,
    options: &Options<'_>,
    rows: &mut T,
) -> Result<Sheet, ReadError> {
    let wanted = wanted(options);
    if options.progress {
        read_watched(rt, &wanted, rows)
    } else {
        read_sheet(rt.alloc(), &wanted, rows)
    }
}

/// Reads rows, and shows how many were read.
fn read_watched<T: Rows>(
    rt: &HostRuntime,
    wanted: &Wanted<'_>,
    rows: &mut T,
) -> Result<Sheet, ReadError> {
    let mut watched = Progress::new(rt, rows);
    let sheet = read_sheet(rt.alloc(), wanted, &mut watched);
    watched.clear();
    sheet
}
