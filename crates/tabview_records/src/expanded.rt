//! Records one below the other.
ghost use Rattle.std.specs.Prelude.{◌≡◌, ◌<◌, ◌+◌, ◌^◌, [], IfErr, IfOk, drop, length, map};
ghost use Rattle.std.specs.Prelude.{slice_index_or, string_bytes};
ghost use Rattle.std.specs.List.{AllZip};
ghost use Rattle.tabled_base.specs.Cells.{columns};
ghost use Rattle.tabview_records.specs.Expanded.{CanLay, CannotLay, PrintsExpanded, PrintsSheet};
ghost use Rattle.tabview_records.specs.Narrowed.{IsNarrowedText};
ghost use Rattle.tabview_records.specs.Records.{IsRecord, record_layout};

use crate::error::PrintError;
use crate::layout::RecordLayout;
use crate::narrowed::narrowed_text;
use crate::records::{push_field, push_head};
use crate::rows::{first_record, names_of, widest_cell, widest_name};
use std::alloc::{AllocError, Global};
use tabled_base::{ExactRecords, PeekableRecords, Position, TableError};
use tabled_line::{TextSink, write_break};
use tabled_records::JoinedRecords;

/// The columns that are enough for records: three for a name, for the bar and for a value.
pub const LEAST_COLUMNS: usize = 9;

/// How rows are printed one below the other.
#[derive(Clone, Copy, Debug)]
pub struct RecordOptions {
    /// Whether the first row has the names of the columns.
    pub has_header: bool,
    /// The columns that a line may take.
    pub width: Option<usize>,
    /// Whether texts that are too wide are cut, and end in `…`. Else they are wrapped.
    pub cuts: bool,
}

/// The rows that are records.
#[derive(Clone, Copy)]
struct RecordSheet<'a> {
    rows: &'a JoinedRecords,
    /// The index of the first record.
    first: usize,
    /// The names of the columns, as they are printed.
    names: &'a [String],
    layout: RecordLayout,
}

/// Prints records one below the other, a line for each cell behind the name of its column. Without
/// a header the names are the numbers of the columns, from 1. Records are numbered from 1. Where a
/// name and a value don't fit the width, they are wrapped or cut: values get at least half of it.
///
/// Errors: `TooNarrow` if the width is less than records need; `Range` if there is no width, and
/// that of the lines passes `usize::MAX`; `Memory`. Nothing is sent then, or exactly the records
/// before the one that an allocation failed for. Or the error of the sink.
pub fn print_expanded<S: TextSink>(
    alloc: Global,
    records: &JoinedRecords,
    options: RecordOptions,
    sink: &mut S,
) -> Result<(), PrintError>
    ensures { PrintsExpanded options records.now (S.sent sink.old) result (S.sent sink.new) }
{
    let first = first_record(options.has_header);
    let names = names_of(alloc, records, options.has_header)?;
    let widest = widest_name(names.as_slice());
    let layout = layout_of(options, widest, widest_cell(records, first))?;
    let shown = narrowed_names(alloc, names.as_slice(), layout)?;
    let sheet = RecordSheet {
        rows: records,
        first,
        names: shown.as_slice(),
        layout,
    };
    print_sheet(alloc, &sheet, sink)?;
    Ok(())
}

/// Returns how records are laid out, by the columns of their widest name and of their widest value.
fn layout_of(options: RecordOptions, name: usize, value: usize) -> Result<RecordLayout, PrintError>
    ensures ok { IfOk result (λ layout. CanLay options.width name value
        × (layout ≡ record_layout options.width options.cuts name value)) }
    ensures range { IfOk result (λ layout. layout.names + 3 + layout.values < 2 ^ 64) }
    ensures err { IfErr result (CannotLay options.width name value) }
{
    match options.width {
        None => whole_layout(options.cuts, name, value),
        Some(width) => narrow_layout(options.cuts, width, name, value),
    }
}

/// Returns the layout of records whose lines take at most a width.
fn narrow_layout(
    cuts: bool,
    width: usize,
    name: usize,
    value: usize,
) -> Result<RecordLayout, PrintError>
    ensures ok { IfOk result (λ layout. CanLay (Some width) name value
        × (layout ≡ record_layout (Some width) cuts name value)) }
    ensures range { IfOk result (λ layout. layout.names + 3 + layout.values < 2 ^ 64) }
    ensures err { IfErr result (CannotLay (Some width) name value) }
{
    let needed = name.saturating_add(3).saturating_add(value);
    let least = needed.min(LEAST_COLUMNS);
    if width < least {
        return Err(PrintError::TooNarrow(least));
    }
    let left = width - 3;
    let names = name.min((left / 2).max(left.saturating_sub(value)));
    Ok(RecordLayout {
        names,
        values: value.min(left - names),
        width: Some(width),
        cuts,
    })
}

/// Returns the layout of records whose lines may take any width.
fn whole_layout(cuts: bool, name: usize, value: usize) -> Result<RecordLayout, PrintError>
    ensures ok { IfOk result (λ layout. CanLay None name value
        × (layout ≡ record_layout None cuts name value)) }
    ensures range { IfOk result (λ layout. layout.names + 3 + layout.values < 2 ^ 64) }
    ensures err { IfErr result (CannotLay None name value) }
{
    if name > usize::MAX - 3 || value > usize::MAX - 3 - name {
        return Err(PrintError::Table(TableError::Range));
    }
    Ok(RecordLayout {
        names: name,
        values: value,
        width: None,
        cuts,
    })
}

/// Returns names as they are printed.
fn narrowed_names(
    alloc: Global,
    names: &[String],
    layout: RecordLayout,
) -> Result<Vec<String>, AllocError>
    ensures { IfOk result (λ shown. AllZip (IsNarrowedText layout.cuts layout.names)
        (map string_bytes names.now) (map string_bytes shown.items)) }
{
    let mut shown = Vec::with_capacity(alloc, names.len())?;
    for name in names {
        let text = narrowed_text(alloc, name.as_str(), layout.names, layout.cuts)?;
        shown.push(text)?;
    }
    Ok(shown)
}

/// Prints the records of a sheet.
fn print_sheet<S: TextSink>(
    alloc: Global,
    sheet: &RecordSheet<'_>,
    sink: &mut S,
) -> Result<(), TableError>
    requires range { sheet.now.layout.names + 3 + sheet.now.layout.values < 2 ^ 64 }
    requires long { length sheet.now.names.now ≡ columns sheet.now.rows.now }
    ensures { PrintsSheet sheet.now.layout (map string_bytes sheet.now.names.now)
        (drop sheet.now.first sheet.now.rows.now) (S.sent sink.old) result (S.sent sink.new) }
{
    let mut begun = false;
    for index in 0..sheet.rows.count_rows().saturating_sub(sheet.first) {
        let text = record_text(alloc, sheet, sheet.first + index, index + 1)?;
        write_break(sink, &mut begun)?;
        sink.write_text(text.as_str())?;
    }
    Ok(())
}

/// Returns the text of the record in a row, with a number.
fn record_text(
    alloc: Global,
    sheet: &RecordSheet<'_>,
    row: usize,
    number: usize,
) -> Result<String, AllocError>
    requires range { sheet.now.layout.names + 3 + sheet.now.layout.values < 2 ^ 64 }
    requires long { length sheet.now.names.now ≡ columns sheet.now.rows.now }
    requires inside { row < length sheet.now.rows.now }
    ensures { IfOk result (λ text. IsRecord sheet.now.layout (map string_bytes sheet.now.names.now)
        number (slice_index_or sheet.now.rows.now row []) (string_bytes text)) }
{
    let layout = sheet.layout;
    let mut text = String::new(alloc);
    push_head(&mut text, layout, number)?;
    for column in 0..sheet.rows.count_columns() {
        let value = sheet.rows.get_text(Position { row, column });
        let shown = narrowed_text(alloc, value, layout.values, layout.cuts)?;
        push_field(
            &mut text,
            layout.names,
            sheet.names[column].as_str(),
            shown.as_str(),
        )?;
    }
    Ok(text)
}
