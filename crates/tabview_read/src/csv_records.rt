//! Records of comma- or tab-separated values.
ghost use Rattle.csv.specs.Records.{fields_of};
ghost use Rattle.std.specs.Prelude.{◌≡◌, IfOk, OnOk, map, option_map};
ghost use Rattle.std.specs.Str.Lossy.{utf8_lossy};
ghost use Rattle.tabview_read.specs.Csv.{BeginsCsv, CsvGives, HasDefaultSyntax, ReadsCells, ReadsFields, ReadsLossy};

use crate::error::ReadError;
use crate::watched::Watched;
use csv::{ByteRecord, Error, ErrorKind, Position, Reader, ReaderBuilder, StringRecord};
use std::alloc::{AllocError, Global};
use std::io::Read;

/// How comma-separated values are read.
#[derive(Clone, Copy)]
pub struct CsvOptions {
    /// The byte between two cells.
    pub delimiter: u8,
    /// Whether the first record has the names of the columns.
    pub has_header: bool,
    /// Whether records may have more or fewer cells than the first.
    pub fill: bool,
    /// Whether invalid UTF-8 is shown as U+FFFD.
    pub lossy: bool,
}

/// Records of comma-separated values. A byte-order mark is skipped, and CR LF ends a line.
pub(crate) struct CsvRecords<R: Read + Drop> {
    alloc: Global,
    reader: Reader<Watched<R>>,
    pub(crate) names: Option<StringRecord>,
    /// The record as bytes, if it may be invalid UTF-8.
    bytes: Option<ByteRecord>,
}

impl<R: Read + Drop> Drop for CsvRecords<R> {
    fn drop(self) {
        let CsvRecords {
            alloc: _,
            reader: _,
            names: _,
            bytes: _,
        } = self;
    }
}

impl<R: Read + Drop> CsvRecords<R> {
    /// Begins to read. The first record is read if it has the names.
    pub(crate) fn new(
        alloc: Global,
        options: CsvOptions,
        input: R,
    ) -> Result<CsvRecords<R>, ReadError>
        ensures { IfOk result (λ records. HasDefaultSyntax records.reader) }
    {
        let mut records = CsvRecords::begin(alloc, options, input);
        if options.has_header {
            records.read_names()?;
        }
        Ok(records)
    }

    /// Begins before the first record.
    fn begin(alloc: Global, options: CsvOptions, input: R) -> CsvRecords<R>
        ensures { BeginsCsv R.remaining options input result }
    {
        let mut builder = ReaderBuilder::new();
        CsvRecords {
            alloc,
            reader: builder
                .has_headers(false)
                .flexible(options.fill)
                .delimiter(options.delimiter)
                .from_reader(alloc, Watched::new(alloc, options.delimiter, input)),
            names: None,
            bytes: options.lossy.then(|| ByteRecord::new(alloc)),
        }
    }

    /// Takes the names of the columns from the first record, if there is one.
    fn read_names(&mut self) -> Result<(), ReadError>
        ensures { HasDefaultSyntax self.old.reader → OnOk result (HasDefaultSyntax self.new.reader) }
    {
        let mut names = StringRecord::new(self.alloc);
        if self.read(&mut names)? {
            self.names = Some(names);
        }
        Ok(())
    }

    /// Reads the cells of the next record, and returns whether there is one. Fails if the text ends
    /// in quotes.
    pub(crate) fn read(&mut self, cells: &mut StringRecord) -> Result<bool, ReadError>
        ensures { IfOk result (λ found. HasDefaultSyntax self.old.reader
            → ReadsCells R.remaining self.old found (fields_of cells.new) self.new) }
    {
        let read = self.read_cells(cells);
        match self.reader.get_ref().open_quote() {
            Some(line) => Err(ReadError::OpenQuote(line)),
            None => read,
        }
    }

    /// Reads the cells of the next record, and returns whether there is one.
    #[tactic(auto, using(crate::proofs::CsvRecords::cells_text, crate::proofs::CsvRecords::cells_lossy))]
    fn read_cells(&mut self, cells: &mut StringRecord) -> Result<bool, ReadError>
        ensures { IfOk result (λ found. HasDefaultSyntax self.old.reader
            → ReadsCells R.remaining self.old found (fields_of cells.new) self.new) }
    {
        match &mut self.bytes {
            None => read_text(&mut self.reader, cells),
            Some(bytes) => read_lossy(self.alloc, &mut self.reader, bytes, cells),
        }
    }

    /// Returns the count of the blank lines up to the end of the record that was read.
    pub(crate) fn blank_lines(&self) -> u64 {
        let end = self.reader.position().byte;
        self.reader.get_ref().blank_before(end)
    }
}

/// Reads the next record, and returns whether there is one.
#[tactic(auto, using(crate::proofs::CsvRecords::reads_fields))]
fn read_text<R: Read>(reader: &mut Reader<R>, cells: &mut StringRecord) -> Result<bool, ReadError>
    ensures { IfOk result (λ found. HasDefaultSyntax reader.old
        → ReadsFields R.remaining reader.old found (fields_of cells.new) reader.new) }
{
    match reader.read_record(cells) {
        Ok(found) => Ok(found),
        Err(error) => Err(read_error(error)),
    }
}

/// Reads the next record with U+FFFD for invalid UTF-8, and returns whether there is one.
#[tactic(auto, using(crate::proofs::CsvRecords::reads_lossy, crate::proofs::CsvRecords::reads_none))]
fn read_lossy<R: Read>(
    alloc: Global,
    reader: &mut Reader<R>,
    bytes: &mut ByteRecord,
    cells: &mut StringRecord,
) -> Result<bool, ReadError>
    ensures { IfOk result (λ found. HasDefaultSyntax reader.old
        → ReadsLossy R.remaining reader.old found (fields_of cells.new) reader.new) }
{
    match reader.read_byte_record(bytes) {
        Ok(true) => {
            put_lossy(alloc, bytes, cells)?;
            Ok(true)
        }
        Ok(false) => Ok(false),
        Err(error) => Err(read_error(error)),
    }
}

/// Puts the cells of a record of bytes, with U+FFFD for invalid UTF-8.
fn put_lossy(alloc: Global, bytes: &ByteRecord, cells: &mut StringRecord) -> Result<(), AllocError>
    ensures { OnOk result (fields_of cells.new ≡ map utf8_lossy (fields_of bytes.now)) }
{
    cells.clear();
    for field in bytes {
        cells.push_field(&String::from_utf8_lossy(alloc, field)?)?;
    }
    Ok(())
}

/// Says where a record is wrong.
fn read_error(error: Error) -> ReadError {
    match error.into_kind() {
        ErrorKind::Io(error) => ReadError::Input(error),
        ErrorKind::Utf8 { pos, err } => {
            ReadError::CellNotUtf8(at(pos), err.field().saturating_add(1))
        }
        ErrorKind::UnequalLengths {
            pos,
            expected_len,
            len,
        } => ReadError::Ragged {
            at: at(pos),
            cells: len,
            wanted: expected_len,
        },
        // The others are errors of values that are written or read as types.
        ErrorKind::Serialize(_) | ErrorKind::Deserialize { .. } | ErrorKind::OutOfMemory => {
            ReadError::Memory
        }
    }
}

fn at(position: Option<Position>) -> Position {
    position.unwrap_or(Position::new())
}
