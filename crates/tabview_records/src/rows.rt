//! The names of the columns of a table, and its widest cells.
ghost use Rattle.std.specs.Prelude.{◌≡◌, ◌<◌, [], IfOk, drop, length, map, slice_index_or};
ghost use Rattle.std.specs.Prelude.{string_bytes};
ghost use Rattle.tabview_records.specs.Records.{column_numbers, first_record, names_of};
ghost use Rattle.tabview_records.specs.Records.{widest, widest_cell};

use std::alloc::{AllocError, Global};
use tabled_base::{ExactRecords, PeekableRecords, Position};
use tabled_records::JoinedRecords;
use tabled_text::text_width;

/// Returns the index of the first row that is a record.
pub(crate) fn first_record(has_header: bool) -> usize
    ensures { result ≡ first_record has_header }
{
    if has_header { 1 } else { 0 }
}

/// Returns the names of the columns: the texts of the first row, or without a header the numbers of
/// the columns, from 1.
pub(crate) fn names_of(
    alloc: Global,
    records: &JoinedRecords,
    has_header: bool,
) -> Result<Vec<String>, AllocError>
    ensures { IfOk result (λ names. map string_bytes names.items
        ≡ names_of has_header records.now) }
{
    if has_header && records.count_rows() > 0 {
        return row_of(alloc, records, 0);
    }
    column_numbers(alloc, records.count_columns())
}

/// Returns the texts of a row.
fn row_of(alloc: Global, records: &JoinedRecords, row: usize) -> Result<Vec<String>, AllocError>
    requires { row < length records.now }
    ensures { IfOk result (λ cells. map string_bytes cells.items
        ≡ slice_index_or records.now row []) }
{
    let mut cells = Vec::with_capacity(alloc, records.count_columns())?;
    for column in 0..records.count_columns() {
        let text = records.get_text(Position { row, column });
        cells.push(String::from_str(alloc, text)?)?;
    }
    Ok(cells)
}

/// Returns the numbers of columns, from 1.
fn column_numbers(alloc: Global, count: usize) -> Result<Vec<String>, AllocError>
    ensures { IfOk result (λ v. map string_bytes v.items ≡ column_numbers count) }
{
    let mut numbers = Vec::new(alloc);
    for column in 0..count {
        let number = column as u128 + 1;
        numbers.push(format!(in alloc; "{number}")?)?;
    }
    Ok(numbers)
}

/// Returns the columns of the widest name.
pub(crate) fn widest_name(names: &[String]) -> usize
    ensures { result ≡ widest (map string_bytes names.now) }
{
    let mut most: usize = 0;
    for name in names {
        most = most.max(text_width(name.as_str()));
    }
    most
}

/// Returns the columns of the widest cell in the rows from one on.
pub(crate) fn widest_cell(records: &JoinedRecords, first: usize) -> usize
    ensures { result ≡ widest_cell (drop first records.now) }
{
    let mut most: usize = 0;
    for index in 0..records.count_rows().saturating_sub(first) {
        most = most.max(widest_in_row(records, first + index));
    }
    most
}

/// Returns the columns of the widest cell of a row.
fn widest_in_row(records: &JoinedRecords, row: usize) -> usize
    requires { row < length records.now }
    ensures { result ≡ widest (slice_index_or records.now row []) }
{
    let mut most: usize = 0;
    for column in 0..records.count_columns() {
        most = most.max(records.get_width(Position { row, column }));
    }
    most
}
