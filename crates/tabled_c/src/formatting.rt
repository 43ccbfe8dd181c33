//! The text of a table of cells, and of one of tab-separated rows.
ghost use Rattle.std.specs.List.{All};
ghost use Rattle.std.specs.Prelude.{◌≡◌, ◌*◌, IfErr, IfOk, length, map, string_bytes};
ghost use Rattle.std.specs.Str.{IsUtf8};
ghost use Rattle.tabled_records.specs.TextRows.{text_rows};
ghost use Rattle.tabled_c.specs.Cells.{in_rows};
ghost use Rattle.tabled_c.specs.Printed.{IsCellsCause, IsCellsTable, IsTextTable, IsTextTableCause};
ghost use Rattle.tabled_c.specs.Printed.{formatted};
ghost use Rattle.tabled_c.specs.Sends.{HasPrinted, IsPrintCause};

use crate::cells::{PackedCells, rows_of};
use crate::error_code::ErrorCode;
use crate::layout::{Format, Layout, drawn, settings_of};
use crate::printing::{records_text, rows_text};
use simdutf8::compat::from_utf8;
use std::alloc::Global;
use tabled::grid::records::{ExactRecords, VecRecords};
use tabled_records::text_rows;

/// Returns the text of the table of some cells, in a format.
fn texts_table(
    alloc: Global,
    texts: &[&str],
    cells: &PackedCells<'_>,
    alignments: &[u8],
    format: Format,
) -> Result<String, ErrorCode>
    requires texts { All IsUtf8 (map (λ t. t.now) texts.now) }
    requires count { length texts.now ≡ cells.now.rows * cells.now.columns }
    ensures ok { IfOk result (λ table. HasPrinted format.plan
        (formatted (in_rows cells.now.rows cells.now.columns (map (λ t. t.now) texts.now))
        alignments.now format) (string_bytes table)) }
    ensures err { IfErr result (IsPrintCause format.plan
        (formatted (in_rows cells.now.rows cells.now.columns (map (λ t. t.now) texts.now))
        alignments.now format)) }
{
    let Format {
        style,
        header,
        plan,
    } = format;
    let Ok(rows) = rows_of(alloc, texts, cells.rows, cells.columns) else {
        return Err(ErrorCode::Memory);
    };
    let style = drawn(style, header, cells.rows);
    let Ok(settings) = settings_of(alloc, style, alignments) else {
        return Err(ErrorCode::Memory);
    };
    records_text(alloc, VecRecords::new(rows), settings, plan)
}

/// Returns the text of a table of cells.
pub(crate) fn cells_table(
    alloc: Global,
    cells: &PackedCells<'_>,
    layout: &Layout<'_>,
) -> Result<String, ErrorCode>
    ensures ok { IfOk result (λ table. IsCellsTable cells.now layout.now (string_bytes table)) }
    ensures err { IfErr result (IsCellsCause cells.now layout.now) }
{
    let format = layout.read()?;
    if !cells.has_counts(layout.alignments.len()) {
        return Err(ErrorCode::Counts);
    }
    let texts = cells.texts(alloc, layout.null)?;
    texts_table(alloc, &texts, cells, layout.alignments, format)
}

/// Returns the text of the table of the rows of a text, in a format.
fn lines_table(
    alloc: Global,
    text: &str,
    alignments: &[u8],
    format: Format,
) -> Result<String, ErrorCode>
    ensures ok { IfOk result (λ table. HasPrinted format.plan
        (formatted (text_rows text.now) alignments.now format) (string_bytes table)) }
    ensures err { IfErr result (IsPrintCause format.plan
        (formatted (text_rows text.now) alignments.now format)) }
{
    let Format {
        style,
        header,
        plan,
    } = format;
    let Ok(rows) = text_rows(alloc, text) else {
        return Err(ErrorCode::Memory);
    };
    let style = drawn(style, header, rows.count_rows());
    let Ok(settings) = settings_of(alloc, style, alignments) else {
        return Err(ErrorCode::Memory);
    };
    rows_text(alloc, &rows, settings.as_ref(), plan)
}

/// Returns the text of a table of tab-separated rows.
pub(crate) fn text_table(
    alloc: Global,
    text: &[u8],
    layout: &Layout<'_>,
) -> Result<String, ErrorCode>
    ensures ok { IfOk result (λ table. IsTextTable text.now layout.now (string_bytes table)) }
    ensures err { IfErr result (IsTextTableCause text.now layout.now) }
{
    let format = layout.read()?;
    let Ok(text) = from_utf8(text) else {
        return Err(ErrorCode::NoText);
    };
    lines_table(alloc, text, layout.alignments, format)
}
