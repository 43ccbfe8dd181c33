//! Records that are written text by text.
ghost use Rattle.std.specs.Prelude.{IfErr, OnErr, OnOk, [], length, ◌≡◌};
ghost use Rattle.tabled_base.specs.Cells.{lengthened_rows};
ghost use Rattle.tabled_base.specs.declared.error.TableError.TheVariants.{Memory};
ghost use Rattle.tabled_text.specs.Measure.{lines_of, text_columns};
ghost use Rattle.tabled_records.specs.Joined.{with_row_ended, with_text};

use crate::joined_records::{JoinedRecords, JoinedTexts};
use crate::row_ranges::RowRanges;
use std::alloc::Global;
use std::marker::Model;
use tabled_base::TableError;

/// Writes `JoinedRecords` text by text, row after row.
///
/// ```rust
/// let mut writer = RecordsWriter::new(alloc);
/// writer.push("Rome", 4, 1)?;
/// writer.push("Italy", 5, 1)?;
/// writer.end_row()?;
/// let records = writer.finish();
/// ```
#[derive(Debug, Drop)]
pub struct RecordsWriter {
    texts: JoinedTexts,
    rows: RowRanges,
    // The number of texts in all rows that are ended.
    ended: usize,
}

impl Model for RecordsWriter {
    ghost use Rattle.tabled_records.specs.Joined.{AreWritten, Written, written_in};

    ghost Value = { Written };

    ghost view = { λ w. written_in w.texts w.rows w.ended };

    ghost invariant = { λ w. AreWritten w.texts w.rows w.ended };
}

impl RecordsWriter {
    /// Makes a writer with no rows.
    pub fn new(alloc: Global) -> RecordsWriter
        ensures { result ≡ record { rows = []; begun = [] } }
    {
        RecordsWriter {
            texts: JoinedTexts::new(alloc),
            rows: RowRanges::new(alloc),
            ended: 0,
        }
    }

    /// Adds a text to the row that is begun. `columns` and `lines` are those of the text. Error:
    /// `Memory`; the writer is unchanged then.
    #[inline(always)]
    pub fn push(&mut self, text: &str, columns: usize, lines: usize) -> Result<(), TableError>
        requires columns { columns ≡ text_columns text.now }
        requires lines { lines ≡ length (lines_of text.now) }
        ensures ok { OnOk result (self.new ≡ with_text self.old text.now) }
        ensures err { OnErr result (self.new ≡ self.old) }
        ensures only { IfErr result (λ e. e ≡ Memory) }
    {
        self.texts.push(text, columns, lines)?;
        Ok(())
    }

    /// Ends the row that is begun. Error: `Memory`; the writer is unchanged then.
    #[inline(always)]
    pub fn end_row(&mut self) -> Result<(), TableError>
        ensures ok { OnOk result (self.new ≡ with_row_ended self.old) }
        ensures err { OnErr result (self.new ≡ self.old) }
        ensures only { IfErr result (λ e. e ≡ Memory) }
    {
        let end = self.texts.len();
        self.rows.push(self.ended, end - self.ended)?;
        self.ended = end;
        Ok(())
    }

    /// Returns the rows that are ended, each filled up to the longest with empty cells.
    pub fn finish(self) -> JoinedRecords
        ensures { result ≡ lengthened_rows self.rows }
    {
        JoinedRecords {
            texts: self.texts,
            rows: self.rows,
        }
    }
}
