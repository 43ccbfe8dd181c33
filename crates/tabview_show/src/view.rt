//! Shows rows: all that are read, or each as it is read.
ghost use Rattle.std.specs.Prelude.{◌≡◌, if◌then◌else◌};

use crate::asked::{is_marked, measured, wanted};
use crate::ending::{Hidden, Noted, end, end_stream};
use crate::error::ViewError;
use crate::ruled::Ruled;
use std::alloc::Global;
use std::io::Write;
use tabled_base::{ExactRecords, TableError};
use tabled_config::Style;
use tabled_grid::IoSink;
use tabled_records::TryRows;
use tabview_options::{Choice, Options};
use tabview_print::{Layout, print_or_expand, print_stream, style_of};
use tabview_read::{ReadError, Rows, Sheet, Stream};
use tabview_records::PrintError;

/// Prints the rows of a sheet, and how many aren't shown if that is asked for.
pub(crate) fn put_sheet<W: Write>(
    alloc: Global,
    options: &Options<'_>,
    layout: Layout,
    sheet: &Sheet,
    out: &mut W,
) -> Result<(), ViewError> {
    if sheet.records.count_rows() == 0 || sheet.records.count_columns() == 0 {
        return Ok(());
    }
    if !is_marked(&options.look) {
        return put_table(alloc, options, layout, sheet, out);
    }
    let columns = Vec::from_slice(alloc, layout.columns.as_slice())?;
    let mut out = Ruled::new(alloc, out, columns.as_slice());
    put_table(alloc, options, layout, sheet, &mut out)
}

fn put_table<W: Write>(
    alloc: Global,
    options: &Options<'_>,
    layout: Layout,
    sheet: &Sheet,
    out: &mut W,
) -> Result<(), ViewError> {
    let mut out = Noted::new(out);
    let hidden = Hidden {
        rows: hidden(&options.choice, sheet),
        is_apart: is_marked(&options.look),
    };
    match print_sheet(alloc, options.look.expand, layout, sheet, &mut out) {
        Ok(()) => end(Ok(()), hidden, &mut out),
        Err(PrintError::Table(error)) => end(Err(error), hidden, &mut out),
        Err(PrintError::TooNarrow(least)) => Err(ViewError::TooNarrow(least)),
    }
}

/// Returns the count of the rows that aren't shown, 0 if that isn't asked for.
fn hidden(choice: &Choice<'_>, sheet: &Sheet) -> u64
    ensures { result ≡ (if choice.now.count then sheet.now.hidden else 0) }
{
    if choice.count { sheet.hidden } else { 0 }
}

fn print_sheet<W: Write>(
    alloc: Global,
    expand: bool,
    layout: Layout,
    sheet: &Sheet,
    out: &mut W,
) -> Result<(), PrintError> {
    print_or_expand(alloc, &sheet.records, layout, expand, &mut IoSink::new(out))
}

/// Prints rows as they are read, as wide as the first ones.
pub(crate) fn put_stream<T: Rows, W: Write>(
    alloc: Global,
    options: &Options<'_>,
    rows: &mut T,
    out: &mut W,
) -> Result<(), ViewError> {
    if !is_marked(&options.look) {
        return put_rows(alloc, options, rows, out);
    }
    put_rows(alloc, options, rows, &mut Ruled::new(alloc, out, &[]))
}

fn put_rows<T: Rows, W: Write>(
    alloc: Global,
    options: &Options<'_>,
    rows: &mut T,
    out: &mut W,
) -> Result<(), ViewError> {
    let wanted = wanted(options);
    let measured = measured(options.stream, rows.names().is_some());
    let stream = Stream::new(alloc, &wanted, rows)?;
    let mut out = Noted::new(out);
    let style = style_of(options.look.style);
    let (printed, read) = print_rows(alloc, stream, style, measured, &mut out);
    end_stream(printed, read, &mut out)
}

fn print_rows<T: Rows, W: Write>(
    alloc: Global,
    rows: Stream<'_, T>,
    style: Style,
    measured: usize,
    out: &mut W,
) -> (Result<(), TableError>, Result<(), ReadError>) {
    let mut sink = IoSink::new(out);
    print_stream(alloc, TryRows::new(rows), style, measured, &mut sink)
}
