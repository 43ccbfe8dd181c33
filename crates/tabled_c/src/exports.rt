//! The exported functions. A slice is a pointer and a length.
ghost use Rattle.std.specs.Prelude.{◌<◌, MatchResult, string_bytes};
ghost use Rattle.tabled_text.specs.Cut.{NeedsFill};
ghost use Rattle.tabled_c.specs.ReturnsText.{ReturnsError, IsPut, ReturnsText};
ghost use Rattle.tabled_c.specs.Printed.{IsCellsCause, IsCellsTable, IsCutText, IsMeasured};
ghost use Rattle.tabled_c.specs.Printed.{IsTextCause, IsTextTable, IsTextTableCause, IsWrappedText};

use crate::cells::PackedCells;
use crate::error_code::ErrorCode;
use crate::formatting::{cells_table, text_table};
use crate::layout::Layout;
use simdutf8::compat::from_utf8;
use std::alloc::Global;
use tabled::grid::util::string::{cut_str, text_width, wrap_text};

/// Copies a text into a buffer, unless the buffer is too small. Returns the number of bytes needed.
fn put(text: &str, buffer: &mut [u8]) -> isize
    ensures { IsPut text.now buffer.old result buffer.new }
{
    let bytes = text.as_bytes();
    if bytes.len() <= buffer.len() {
        buffer[..bytes.len()].copy_from_slice(bytes);
    }
    bytes.len() as isize
}

/// Copies a text into a buffer, as `put` does, or returns the number of an error.
fn put_or_fail(made: Result<String, ErrorCode>, buffer: &mut [u8]) -> isize
    ensures { MatchResult made
        (λ text. IsPut (string_bytes text) buffer.old result buffer.new)
        (λ error. ReturnsError error buffer.old result buffer.new) }
{
    match made {
        Ok(text) => put(text.as_str(), buffer),
        Err(error) => error.code(),
    }
}

/// Formats a table of cells into `buffer`. Returns the number of bytes needed, or an error code
/// below 0. If `buffer` is too small, nothing is written.
#[unsafe(no_mangle)]
pub extern "C" fn fanlightnard_core_cells(
    alloc: Global,
    cells: &PackedCells<'_>,
    layout: &Layout<'_>,
    buffer: &mut [u8],
) -> isize
    ensures { ReturnsText (IsCellsTable cells.now layout.now) (IsCellsCause cells.now layout.now)
        buffer.old result buffer.new }
{
    put_or_fail(cells_table(alloc, cells, layout), buffer)
}

/// Formats tab-separated rows as a table into `buffer`. Returns the number of bytes needed, or an
/// error code below 0. If `buffer` is too small, nothing is written. Alignments of columns that the
/// rows lack are allowed.
#[unsafe(no_mangle)]
pub extern "C" fn fanlightnard_core_text(
    alloc: Global,
    text: &[u8],
    layout: &Layout<'_>,
    buffer: &mut [u8],
) -> isize
    ensures { ReturnsText (IsTextTable text.now layout.now) (IsTextTableCause text.now layout.now)
        buffer.old result buffer.new }
{
    put_or_fail(text_table(alloc, text, layout), buffer)
}

/// Returns the width of a text in columns, or an error code below 0. The widest line counts.
#[unsafe(no_mangle)]
pub extern "C" fn fanlightnard_core_measure(text: &[u8]) -> isize
    ensures { IsMeasured text.now result }
{
    let Ok(text) = from_utf8(text) else {
        return ErrorCode::NoText.code();
    };
    let columns = text_width(text);
    if columns > isize::MAX as usize {
        return ErrorCode::Range.code();
    }
    columns as isize
}

/// Truncates a text to `columns` and writes it to `buffer`. Returns the number of bytes needed, or
/// an error code below 0. If `buffer` is too small, nothing is written.
#[unsafe(no_mangle)]
pub extern "C" fn fanlightnard_core_truncate(
    alloc: Global,
    text: &[u8],
    columns: usize,
    buffer: &mut [u8],
) -> isize
    ensures { ReturnsText (IsCutText columns text.now)
        (IsTextCause text.now (NeedsFill columns text.now)) buffer.old result buffer.new }
{
    let Ok(text) = from_utf8(text) else {
        return ErrorCode::NoText.code();
    };
    match cut_str(alloc, text, columns) {
        Ok(cut) => put(cut.as_str(), buffer),
        Err(_) => ErrorCode::Memory.code(),
    }
}

/// Wraps a text to `columns` and writes it to `buffer`. Returns the number of bytes needed, or an
/// error code below 0. If `buffer` is too small, nothing is written.
///
/// - `words`: wrap between words where possible.
#[unsafe(no_mangle)]
pub extern "C" fn fanlightnard_core_wrap(
    alloc: Global,
    text: &[u8],
    columns: usize,
    words: bool,
    buffer: &mut [u8],
) -> isize
    ensures { ReturnsText (IsWrappedText columns words text.now)
        (IsTextCause text.now (0 < columns)) buffer.old result buffer.new }
{
    let Ok(text) = from_utf8(text) else {
        return ErrorCode::NoText.code();
    };
    match wrap_text(alloc, text, columns, words) {
        Ok(wrapped) => put(wrapped.as_str(), buffer),
        Err(_) => ErrorCode::Memory.code(),
    }
}
