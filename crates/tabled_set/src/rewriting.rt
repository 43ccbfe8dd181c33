//! Writes records anew, row by row, with some of their cells changed.
ghost use Rattle.std.specs.Prelude.{◌≡◌, ◌++◌, ◌<◌, [], IfErr, IfOk, OnOk, length, true};
ghost use Rattle.tabled_set.specs.Common.{IsInside, Memory, cell_at};
ghost use Rattle.tabled_set.specs.CellChanges.{AddsRow, AddsText, AreChanged, for_content_size};
ghost use Rattle.tabled_set.specs.CellChanges.{if_taken};

use crate::resize::{Change, ContentSizes, TextTransform};
use std::alloc::Global;
use tabled_base::{PeekableRecords, Position, TableError};
use tabled_records::{JoinedRecords, RecordsWriter};
use tabled_text::text_measures;

/// Adds a text that is joined of two. It is made in `out`, unless the second is empty.
fn push_ended(
    writer: &mut RecordsWriter,
    front: &str,
    ending: &str,
    out: &mut String,
) -> Result<(), TableError>
    ensures ok { OnOk result (AddsText (λ text. text ≡ front.now ++ ending.now)
        writer.old writer.new) }
    ensures only { IfErr result (λ e. e ≡ Memory) }
{
    if ending.is_empty() {
        let (columns, lines) = text_measures(front);
        return writer.push(front, columns, lines);
    }
    out.clear();
    out.push_str(front)?;
    out.push_str(ending)?;
    let (columns, lines) = text_measures(out.as_str());
    writer.push(out.as_str(), columns, lines)
}

impl<'a, T: TextTransform, M: ContentSizes> Change<'a, T, M> {
    /// Adds what becomes of a cell: its text, or the changed text if it has a content size and
    /// passes the filter. `out` is a buffer for texts that are made.
    #[inline(always)]
    fn push_cell<R: PeekableRecords>(
        &self,
        records: &R,
        at: Position,
        out: &mut String,
        writer: &mut RecordsWriter,
    ) -> Result<(), TableError>
        requires { IsInside (R.cells records.now) at.row at.column }
        ensures ok { let by = self.now in OnOk result (AddsText
            (for_content_size (if_taken by.cell_filter (T.makes by.transform.now))
            (M.content_size_at by.content_sizes.now) at.row at.column
            (cell_at (R.cells records.now) at.row at.column)) writer.old writer.new) }
        ensures only { IfErr result (λ e. e ≡ Memory) }
    {
        let (text, columns, lines) = records.get_measured(at);
        let Some(content_size) = self.content_sizes.content_size(at) else {
            return writer.push(text, columns, lines);
        };
        let by = self.transform;
        if !self.cell_filter.takes(columns, lines, content_size) || by.keeps(text, content_size) {
            return writer.push(text, columns, lines);
        }
        let Some(kept) = by.beginning(text, content_size) else {
            let (columns, lines) = by.apply_measured(out, text, content_size)?;
            return writer.push(out.as_str(), columns, lines);
        };
        if kept.bytes == text.len() && kept.ending.is_empty() {
            return writer.push(text, columns, lines);
        }
        let (front, _) = text.split_at(kept.bytes);
        push_ended(writer, front, kept.ending, out)
    }

    /// Adds what becomes of a row.
    fn push_row<R: PeekableRecords>(
        &self,
        records: &R,
        row: usize,
        out: &mut String,
        writer: &mut RecordsWriter,
    ) -> Result<(), TableError>
        requires row_in { row < length (R.cells records.now) }
        requires empty { writer.old.begun ≡ [] }
        ensures ok { let by = self.now in OnOk result (AddsRow
            (for_content_size (if_taken by.cell_filter (T.makes by.transform.now))
            (M.content_size_at by.content_sizes.now)) (R.cells records.now) row
            writer.old writer.new) }
        ensures only { IfErr result (λ e. e ≡ Memory) }
    {
        'columns: for column in 0..records.count_columns() {
            self.push_cell(records, Position { row, column }, out, writer)?;
        }
        writer.end_row()
    }
}

/// Returns a copy of records in which the cells that have a content size and pass the filter are
/// changed. Fails only with `Memory`.
pub fn changed_records<T: TextTransform, M: ContentSizes, R: PeekableRecords>(
    alloc: Global,
    by: &Change<'_, T, M>,
    records: &R,
) -> Result<JoinedRecords, TableError>
    ensures ok { let it = by.now in IfOk result (λ changed. AreChanged (λ row column. true)
        (for_content_size (if_taken it.cell_filter (T.makes it.transform.now))
        (M.content_size_at it.content_sizes.now))
        (R.cells records.now) changed) }
    ensures only { IfErr result (λ e. e ≡ Memory) }
{
    let _columns = records.count_columns();
    let mut writer = RecordsWriter::new(alloc);
    let mut out = String::new(alloc);
    'rows: for row in 0..records.count_rows() {
        by.push_row(records, row, &mut out, &mut writer)?;
    }
    Ok(writer.finish())
}
