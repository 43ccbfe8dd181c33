//! The rows that are shown.
ghost use Rattle.csv.specs.Records.{fields_of, text_of};
ghost use Rattle.std.specs.Prelude.{◌≡◌, ◌==◌, ◌&&◌, ◌++◌, [], IfOk, List, OnOk, decimal, length};
ghost use Rattle.std.specs.Prelude.{map, string_bytes, true};
ghost use Rattle.tabled_base.specs.Cells.{lengthened_rows};
ghost use Rattle.tabled_records.specs.Joined.{with_row_ended};
ghost use Rattle.tabview_cells.specs.Choice.{shown_cell, with_texts};
ghost use Rattle.tabled_base.specs.Printable.{is_printable};
ghost use Rattle.tabview_cells.specs.declared.choice.Shown.{Shown};
ghost use Rattle.tabview_read.specs.Sheets.{HasLines, IsWidened, Line, name_lines, row_line};
ghost use Rattle.tabview_read.specs.Shown.{number_of, shown_cells, texts_of};
ghost use Rattle.tabview_read.specs.declared.sheet.Wanted.{Wanted};

use crate::chosen::Chosen;
use crate::error::ReadError;
use crate::row::Row;
use csv::StringRecord;
use std::alloc::{AllocError, Global};
use std::collections::VecDeque;
use tabled_base::TableError;
use tabled_records::{JoinedRecords, RecordsWriter};
use tabview_cells::{
    Kind, Shown, is_graphic_row, is_printable_row, push_cell, push_chosen, push_joining,
};

/// Which rows and columns are shown, and how.
#[derive(Drop)]
pub struct Wanted<'a> {
    /// The names of the columns, or their numbers from 1. If there are none, all are shown.
    pub columns: &'a [&'a str],
    /// The count of the first rows that are shown.
    pub rows: Option<usize>,
    /// The count of the last rows that are shown.
    pub tail: Option<usize>,
    /// Whether rows have their number before them.
    pub numbers: bool,
    /// Whether the rows that aren't shown are counted.
    pub count: bool,
    /// What is shown for null.
    pub null: &'a str,
    /// The text of cells that don't count for the kind of their column.
    pub blank: &'a str,
    /// How the text of a cell is shown.
    pub shown: Shown,
}

/// The rows that are shown, below the names of their columns.
pub struct Sheet {
    pub records: JoinedRecords,
    /// Whether the first record has the names of the columns.
    pub has_names: bool,
    /// The columns that are shown, without that of the numbers.
    pub columns: Vec<usize>,
    /// What their cells are.
    pub kinds: Vec<Kind>,
    /// The count of the rows that were read and aren't shown.
    pub hidden: u64,
}

impl Drop for Sheet {
    fn drop(self) {
        let Sheet {
            records: _,
            has_names: _,
            columns: _,
            kinds: _,
            hidden: _,
        } = self;
    }
}

/// The columns that are shown, and the lines that were written.
#[derive(Drop)]
pub(crate) struct Collector<'a> {
    alloc: Global,
    pub(crate) wanted: &'a Wanted<'a>,
    chosen: Chosen<'a>,
    writer: RecordsWriter,
}

impl<'a> Collector<'a> {
    pub(crate) fn new(alloc: Global, wanted: &'a Wanted<'a>) -> Collector<'a>
        ensures { HasLines wanted.now [] result }
    {
        let writer = RecordsWriter::new(alloc);
        Collector {
            alloc,
            wanted,
            chosen: Chosen::new(alloc, wanted.columns),
            writer,
        }
    }

    /// Finds the columns that are wanted, and writes their names.
    pub(crate) fn write_names(&mut self, names: &StringRecord) -> Result<(), ReadError>
        ensures { (w : Wanted) → HasLines w [] self.old → OnOk result
            (HasLines w (name_lines (Some (fields_of names.now))) self.new) }
    {
        self.chosen.find(Some(names), names.len())?;
        self.write(names, "#")?;
        Ok(())
    }

    /// Finds the columns that are wanted at the first row if there are no names, and shows all
    /// columns of a row if none are wanted.
    pub(crate) fn find_columns(&mut self, is_first: bool, count: usize) -> Result<(), ReadError>
        ensures { IsWidened self.old self.new }
    {
        if is_first {
            self.chosen.find(None, count)
        } else {
            Ok(self.chosen.widen(count)?)
        }
    }

    /// Writes rows with their numbers.
    pub(crate) fn write_rows(&mut self, mut rows: VecDeque<(u64, Row)>) -> Result<(), ReadError>
        ensures { (w : Wanted) (lines : List Line) → HasLines w lines self.old → OnOk result
            (HasLines w (lines ++ map (row_line w.null.now) rows.items) self.new) }
    {
        while let Some((number, row)) = rows.pop_front() {
            self.write_row(&row, number)?;
        }
        Ok(())
    }

    /// Writes a row with its number, from 1.
    pub(crate) fn write_row(&mut self, row: &Row, number: u64) -> Result<(), ReadError>
        ensures texts { let w = self.old.wanted.now in OnOk result (self.new.writer
            ≡ with_row_ended (with_texts self.old.writer (texts_of w.numbers (decimal number)
            w.shown (shown_cells w.null.now row.now) self.old.chosen.columns.items))) }
        ensures columns { self.new.chosen.columns.items ≡ self.old.chosen.columns.items }
        ensures wanted { self.new.wanted ≡ self.old.wanted }
    {
        if self.is_joinable(row) {
            self.write_joining(&row.cells, number)?;
            return Ok(());
        }
        self.write_apart(row, number)
    }

    /// Whether the cells of a row are printable ASCII, none is null, and none is compared with a
    /// text that doesn't count.
    fn is_joinable(&self, row: &Row) -> bool
        ensures { result ≡ ((length row.now.nulls.items == 0)
            && ((length self.now.wanted.now.blank.now == 0)
            && is_printable (text_of row.now.cells))) }
    {
        row.has_no_null() && self.wanted.blank.is_empty() && is_printable_row(&row.cells)
    }

    /// Writes a row of printable ASCII, and takes its cells into the kinds of their columns.
    fn write_joining(&mut self, cells: &StringRecord, number: u64) -> Result<(), TableError>
        requires { is_printable (text_of cells.now) ≡ true }
        ensures texts { let w = self.old.wanted.now in OnOk result (self.new.writer
            ≡ with_row_ended (with_texts self.old.writer (texts_of w.numbers (decimal number)
            w.shown (fields_of cells.now) self.old.chosen.columns.items))) }
        ensures columns { self.new.chosen.columns.items ≡ self.old.chosen.columns.items }
        ensures wanted { self.new.wanted ≡ self.old.wanted }
    {
        push_row_number(self.alloc, &mut self.writer, self.wanted.numbers, number)?;
        push_cells(&mut self.writer, &mut self.chosen, cells)?;
        self.writer.end_row()
    }

    /// Writes a row, and takes its cells into the kinds of their columns beforehand.
    fn write_apart(&mut self, row: &Row, number: u64) -> Result<(), ReadError>
        ensures texts { let w = self.old.wanted.now in OnOk result (self.new.writer
            ≡ with_row_ended (with_texts self.old.writer (texts_of w.numbers (decimal number)
            w.shown (shown_cells w.null.now row.now) self.old.chosen.columns.items))) }
        ensures columns { self.new.chosen.columns.items ≡ self.old.chosen.columns.items }
        ensures wanted { self.new.wanted ≡ self.old.wanted }
    {
        self.chosen.join_kinds(row, self.wanted.blank);
        let text = number_text(self.alloc, self.wanted.numbers, number)?;
        if row.has_no_null() {
            self.write(&row.cells, &text)?;
            return Ok(());
        }
        let cells = row.shown_cells(self.alloc, self.wanted.null)?;
        self.write(&cells, &text)?;
        Ok(())
    }

    /// Writes the cells that are shown of a row, as they are or escaped, after its number.
    fn write(&mut self, cells: &StringRecord, number: &str) -> Result<(), TableError>
        ensures texts { let w = self.old.wanted.now in OnOk result
            (self.new.writer ≡ with_row_ended (with_texts self.old.writer
            (texts_of w.numbers number.now w.shown (fields_of cells.now)
            self.old.chosen.columns.items))) }
        ensures columns { self.new.chosen.columns.items ≡ self.old.chosen.columns.items }
        ensures wanted { self.new.wanted ≡ self.old.wanted }
    {
        let columns = self.chosen.columns.as_slice();
        push_number(&mut self.writer, self.wanted.numbers, number)?;
        push_chosen(
            self.alloc,
            &mut self.writer,
            cells,
            columns,
            self.wanted.shown,
        )?;
        self.writer.end_row()
    }

    /// Returns the lines that were written.
    pub(crate) fn finish(self, has_names: bool, hidden: u64) -> Sheet
        ensures records { result.records ≡ lengthened_rows self.entry.writer.rows }
        ensures columns { result.columns.items ≡ self.entry.chosen.columns.items }
        ensures has_names { result.has_names ≡ has_names }
        ensures hidden { result.hidden ≡ hidden }
    {
        let Collector { chosen, writer, .. } = self;
        let Chosen { columns, kinds, .. } = chosen;
        Sheet {
            records: writer.finish(),
            has_names,
            columns,
            kinds,
            hidden,
        }
    }
}

/// Returns the text of a row's number, empty if rows have none.
pub(crate) fn number_text(alloc: Global, numbers: bool, number: u64) -> Result<String, AllocError>
    ensures { IfOk result (λ text. number_of numbers (string_bytes text)
        ≡ number_of numbers (decimal number)) }
{
    if numbers {
        return format!(in alloc; "{number}");
    }
    Ok(String::new(alloc))
}

/// Adds the number of a row, if rows have one.
fn push_number(writer: &mut RecordsWriter, numbers: bool, number: &str) -> Result<(), TableError>
    ensures { OnOk result (writer.new
        ≡ with_texts writer.old (number_of numbers number.now)) }
{
    if numbers {
        push_cell(writer, number)?;
    }
    Ok(())
}

/// Adds the number of a row, from 1, if rows have one.
fn push_row_number(
    alloc: Global,
    writer: &mut RecordsWriter,
    numbers: bool,
    number: u64,
) -> Result<(), TableError>
    ensures { OnOk result (writer.new
        ≡ with_texts writer.old (number_of numbers (decimal number))) }
{
    if numbers {
        push_cell(writer, &format!(in alloc; "{number}")?)?;
    }
    Ok(())
}

/// Adds the chosen cells of a row of printable ASCII, and takes them into the kinds of their
/// columns.
fn push_cells(
    writer: &mut RecordsWriter,
    chosen: &mut Chosen<'_>,
    cells: &StringRecord,
) -> Result<(), TableError>
    requires { is_printable (text_of cells.now) ≡ true }
    ensures texts { (shown : Shown) → OnOk result (writer.new ≡ with_texts writer.old
        (map (shown_cell shown (fields_of cells.now)) chosen.old.columns.items)) }
    ensures columns { chosen.new.columns.items ≡ chosen.old.columns.items }
{
    let graphic = is_graphic_row(cells);
    let columns = chosen.columns.as_slice();
    let kinds = chosen.kinds.as_mut_slice();
    push_joining(writer, cells, columns, kinds, graphic)
}
