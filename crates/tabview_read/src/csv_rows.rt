//! Rows of comma- or tab-separated values.
ghost use Rattle.csv.specs.Records.{fields_of};
ghost use Rattle.std.specs.Prelude.{◌≡◌, ◌∷◌, [], IfOk, OnOk, false, option_map, true};
ghost use Rattle.tabview_read.specs.Csv.{CsvGives, Gives, HasDefaultSyntax, IsAhead, IsReady};

use crate::csv_records::{CsvOptions, CsvRecords};
use crate::error::ReadError;
use crate::row::{Row, Rows};
use csv::StringRecord;
use std::alloc::Global;
use std::io::Read;
use std::mem;

/// Rows of comma-separated values. In a text of one column, each blank line behind the first record
/// is a row with an empty cell.
pub struct CsvRows<R: Read + Drop> {
    records: CsvRecords<R>,
    /// The cells of the first record, once it was read.
    width: Option<usize>,
    /// The blank lines before the next record that aren't given yet.
    blank: u64,
    /// The blank lines that were read.
    passed: u64,
    /// The cells of the next record, if it was read ahead.
    next: StringRecord,
    has_next: bool,
}

impl<R: Read + Drop> Drop for CsvRows<R> {
    fn drop(self) {
        let CsvRows {
            records: _,
            width: _,
            blank: _,
            passed: _,
            next: _,
            has_next: _,
        } = self;
    }
}

impl<R: Read + Drop> CsvRows<R> {
    /// Begins to read. The first record is read if it has the names.
    pub fn new(alloc: Global, options: CsvOptions, input: R) -> Result<CsvRows<R>, ReadError>
        ensures { IfOk result (λ rows. HasDefaultSyntax rows.records.reader) }
    {
        let records = CsvRecords::new(alloc, options, input)?;
        let width = records.names.as_ref().map(|names| names.len());
        Ok(CsvRows {
            width,
            blank: 0,
            passed: records.blank_lines(),
            records,
            next: StringRecord::new(alloc),
            has_next: false,
        })
    }

    /// Reads the next record ahead if no row is waiting.
    fn make_ready(&mut self) -> Result<(), ReadError>
        ensures { OnOk result (HasDefaultSyntax self.old.records.reader
            → IsReady R.remaining self.old self.new) }
    {
        if self.blank > 0 || self.has_next {
            return Ok(());
        }
        self.read_ahead()
    }

    /// Gives a blank line or the record that was read ahead, and returns whether there is one.
    fn give(&mut self, row: &mut Row) -> Result<bool, ReadError>
        ensures { IfOk result (λ found. Gives self.old found row.new self.new) }
    {
        if self.blank > 0 {
            self.blank -= 1;
            return put_blank(row);
        }
        row.nulls.clear();
        mem::swap(&mut row.cells, &mut self.next);
        Ok(mem::replace(&mut self.has_next, false))
    }

    /// Reads the next record ahead, if there is one, and counts the blank lines before it.
    fn read_ahead(&mut self) -> Result<(), ReadError>
        requires blank { self.old.blank ≡ 0 }
        requires none { self.old.has_next ≡ false }
        ensures { OnOk result (HasDefaultSyntax self.old.records.reader
            → IsAhead R.remaining self.old self.new) }
    {
        self.has_next = self.records.read(&mut self.next)?;
        match self.width {
            Some(1) => {
                self.count_blank();
                Ok(())
            }
            Some(_) => Ok(()),
            None => {
                self.begin_rows();
                Ok(())
            }
        }
    }

    /// Takes the width from the record that was read ahead. Blank lines before it are no rows.
    fn begin_rows(&mut self)
        ensures records { self.new.records ≡ self.old.records }
        ensures next { self.new.next ≡ self.old.next }
        ensures has_next { self.new.has_next ≡ self.old.has_next }
        ensures blank { self.new.blank ≡ self.old.blank }
    {
        self.passed = self.records.blank_lines();
        self.width = Some(self.next.len());
    }

    /// Counts the blank lines before the record that was read ahead.
    fn count_blank(&mut self)
        ensures records { self.new.records ≡ self.old.records }
        ensures next { self.new.next ≡ self.old.next }
        ensures has_next { self.new.has_next ≡ self.old.has_next }
        ensures width { self.new.width ≡ self.old.width }
    {
        let passed = self.records.blank_lines();
        self.blank = passed.saturating_sub(self.passed);
        self.passed = passed;
    }
}

/// Makes a row with an empty cell.
fn put_blank(row: &mut Row) -> Result<bool, ReadError>
    ensures cells { OnOk result (fields_of row.new.cells ≡ [] ∷ []) }
    ensures nulls { row.new.nulls.items ≡ [] }
    ensures found { IfOk result (λ found. found ≡ true) }
{
    row.clear();
    row.push_text("")?;
    Ok(true)
}

impl<R: Read + Drop> Rows for CsvRows<R> {
    ghost names_give = { λ s names. names ≡ option_map fields_of s.records.names };

    ghost read_gives = { λ from row to. HasDefaultSyntax from.records.reader
        → CsvGives R.remaining from row to };

    fn names(&self) -> Option<&StringRecord> {
        self.records.names.as_ref()
    }

    fn read(&mut self, row: &mut Row) -> Result<bool, ReadError> {
        self.make_ready()?;
        self.give(row)
    }
}
