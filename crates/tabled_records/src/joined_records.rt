//! Texts that are joined in one buffer: rows whose cells borrow one text, and records of texts that
//! are appended.
ghost use Rattle.std.specs.Iterator.{IsFiniteIterable};
ghost use Rattle.std.specs.List.{slice_index_or, slice_range};
ghost use Rattle.std.specs.Prelude.{IfErr, IfOk, List, OnErr, OnOk, [], length, map};
ghost use Rattle.std.specs.Prelude.{true, ℕ, ◌++◌, ◌+◌, ◌<◌, ◌∷◌, ◌≡◌, ◌≤◌};
ghost use Rattle.std.specs.Str.{IsCharBoundary, IsUtf8};
ghost use Rattle.tabled_base.specs.Cells.{IsInside, cell_at, columns, lengthened, with_record};
ghost use Rattle.tabled_base.specs.Content.{content_text};
ghost use Rattle.tabled_base.specs.Given.{Given};
ghost use Rattle.tabled_base.specs.declared.error.TableError.TheVariants.{Memory};
ghost use Rattle.tabled_records.specs.TextRows.{tab_separated, most_cells, text_rows};
ghost use Rattle.tabled_text.specs.Measure.{lines_of, text_columns};
ghost use Rattle.tabled_records.specs.CutLentRows.{ArePrintable};
ghost use Rattle.tabled_records.specs.Joined.{AreLentRows, AreMeasures, AreRanges, HasNo, IsLent};
ghost use Rattle.tabled_base.specs.Printable.{IsPrintableAscii};
ghost use Rattle.tabled_records.specs.Joined.{rows_in, texts_from};

use crate::row_ranges::{Pairs, RowRanges, text_at};
use std::alloc::{AllocError, Global};
use std::marker::Model;
use tabled_base::{CellText, Content, ExactRecords, PeekableRecords, Position, TableError};
use tabled_text::{columns_between, run_end, text_measures};

/// Does nothing. Its contract says that a text is UTF-8.
#[inline(always)]
fn is_text(text: &str)
    ensures { IsUtf8 text.now }
{}

/// Rows whose cells borrow one text. Rows shorter than the longest end with empty cells.
#[derive(Debug, Drop)]
pub struct LentRows<'a> {
    text: &'a str,
    // For each cell the byte where it ends, and its columns. A cell begins one byte after the end
    // of the cell before it, and is one line.
    cells: Pairs,
    rows: RowRanges,
    // Whether all cells are known to be printable ASCII.
    printable: bool,
}

impl<'a> Model for LentRows<'a> {
    ghost Value = { List (List (List ℕ)) };

    ghost view = { λ r. rows_in (texts_from 1 r.text.now 0 r.cells) r.rows };

    ghost invariant = { λ r. AreLentRows r.text.now r.cells r.rows r.printable };
}

impl<'a> LentRows<'a> {
    /// Whether all cells are known to be printable ASCII.
    #[inline(always)]
    pub fn is_printable(&self) -> bool
        ensures { result ≡ true → ArePrintable self.now }
    {
        self.printable
    }

    /// Does nothing. Its contract says that all cells are lines of UTF-8.
    #[inline(always)]
    pub fn are_texts(&self)
        ensures utf8 { (row column : ℕ) → IsUtf8 (cell_at self.now row column) }
        ensures lines { (row column : ℕ) → length (lines_of (cell_at self.now row column)) ≡ 1 }
    {
        is_text(self.text);
    }

    /// Returns the number of cells of a row, without the empty ones that only fill it up.
    pub(crate) fn count_cells(&self, row: usize) -> usize
        requires { row < length self.now }
        ensures within { result ≤ columns self.now }
        ensures rest { (column : ℕ) → result ≤ column → cell_at self.now row column ≡ [] }
    {
        self.rows.at(row).1
    }

    /// Returns the text of a cell, which is one line, and its columns.
    #[inline(always)]
    pub(crate) fn line(&self, at: Position) -> (&'a str, usize)
        requires { IsInside self.now at.row at.column }
        ensures text { result.0.now ≡ cell_at self.now at.row at.column }
        ensures columns { result.1 ≡ text_columns result.0.now }
        ensures one { length (lines_of result.0.now) ≡ 1 }
    {
        match self.rows.cell(self.text, &self.cells, 1, at) {
            Some((text, columns, _)) => (text, columns),
            None => ("", 0),
        }
    }
}

impl<'a> ExactRecords for LentRows<'a> {
    ghost cells = { λ r. r };

    #[inline(always)]
    fn count_rows(&self) -> usize {
        self.rows.len()
    }

    #[inline(always)]
    fn count_columns(&self) -> usize {
        self.rows.columns()
    }
}

impl<'a> PeekableRecords for LentRows<'a> {
    #[inline(always)]
    fn get_text(&self, at: Position) -> &str {
        self.get_measured(at).0
    }

    #[inline(always)]
    fn get_width(&self, at: Position) -> usize {
        self.get_measured(at).1
    }

    #[inline(always)]
    fn count_lines(&self, at: Position) -> usize {
        self.get_measured(at).2
    }

    // No cell has a line feed.
    #[inline(always)]
    fn get_measured(&self, at: Position) -> (&str, usize, usize) {
        let (text, columns) = self.line(at);
        (text, columns, 1)
    }
}

/// Splits a text at line feeds into rows, and rows at tabs into cells. Short rows get empty cells.
/// A last line feed ends the last row, and the empty text has no rows. All cells borrow the text.
/// Error: `Memory`, unless the text is empty.
#[tactic(auto, unfolding(crate::specs::TextRows::text_rows))]
pub fn text_rows(alloc: Global, text: &str) -> Result<LentRows<'_>, TableError>
    ensures ok { IfOk result (λ rows. rows ≡ text_rows text.now) }
    ensures some { OnErr result (0 < length text.now) }
    ensures only { IfErr result (λ e. e ≡ Memory) }
{
    if text.is_empty() {
        return Ok(LentRows {
            text,
            cells: Pairs::new(alloc),
            rows: RowRanges::new(alloc),
            printable: true,
        });
    }
    let last = text.len() - 1;
    let ends_line = text.as_bytes()[last] == b'\n';
    split_rows(alloc, if ends_line { &text[..last] } else { text })
}

fn split_rows(alloc: Global, text: &str) -> Result<LentRows<'_>, TableError>
    ensures ok { IfOk result (λ rows. rows
        ≡ map (λ line. lengthened (most_cells (lines_of text.now)) (tab_separated line))
        (lines_of text.now)) }
    ensures only { IfErr result (λ e. e ≡ Memory) }
{
    let bytes = text.as_bytes();
    let mut cells = Pairs::new(alloc);
    let mut rows = RowRanges::new(alloc);
    let mut start: usize = 0;
    let mut first: usize = 0;
    // Whether all cells so far are printable ASCII.
    let mut all_printable = true;
    // Whether all of the cell so far is printable ASCII.
    let mut printable = true;
    let mut at = run_end(bytes, 0, b' ', b'~');
    'bytes: while at < bytes.len() {
        let byte = bytes[at];
        if byte != b'\t' && byte != b'\n' {
            printable = false;
            all_printable = false;
            at = run_end(bytes, at + 1, b' ', u8::MAX);
            continue;
        }
        let columns = cell_columns(text, start, at, printable);
        cells.push((at, columns))?;
        start = at + 1;
        printable = true;
        at = run_end(bytes, start, b' ', b'~');
        if byte == b'\t' {
            continue;
        }
        let count = cells.len() - first;
        rows.push(first, count)?;
        first = cells.len();
    }
    let end = bytes.len();
    let columns = cell_columns(text, start, end, printable);
    cells.push((end, columns))?;
    let count = cells.len() - first;
    rows.push(first, count)?;
    Ok(LentRows {
        text,
        cells,
        rows,
        printable: all_printable,
    })
}

/// Returns the columns of the cell between two byte offsets: in printable ASCII the number of
/// bytes.
fn cell_columns(text: &str, start: usize, end: usize, printable: bool) -> usize
    requires ordered { start ≤ end }
    requires begins { IsCharBoundary text.now start }
    requires ends { IsCharBoundary text.now end }
    requires line { HasNo 10 (slice_range text.now start end) }
    requires printable { printable ≡ true → IsPrintableAscii (slice_range text.now start end) }
    ensures { IsLent text.now start (end, result) }
{
    if printable {
        end - start
    } else {
        columns_between(text, start, end)
    }
}

/// Texts that are joined in one buffer, each with its columns and lines.
#[derive(Debug, Drop)]
pub(crate) struct JoinedTexts {
    whole: String,
    // For each text the byte where it ends, and its columns. It begins where the one before it
    // ends.
    ends: Pairs,
    // The lines of the texts up to the last one with several lines. Each text after it has one.
    lines: Vec<usize>,
}

impl Model for JoinedTexts {
    ghost use Rattle.std.specs.Prelude.{ℕ, List, string_bytes};
    ghost use Rattle.tabled_records.specs.Joined.{AreFilled, texts_from};

    ghost Value = { List (List ℕ) };

    ghost view = { λ t. texts_from 0 (string_bytes t.whole) 0 t.ends };

    ghost invariant = { λ t. AreFilled (string_bytes t.whole) t.ends t.lines.items };
}

#[inline(always)]
fn lines_at(lines: &[usize], place: usize) -> usize
    ensures { result ≡ slice_index_or lines.now place 1 }
{
    lines.get(place).copied().unwrap_or(1)
}

/// Stores the end, the columns and the lines of a text. If it fails, those of the texts before it
/// are unchanged.
#[inline(always)]
fn push_ends(
    ends: &mut Pairs,
    lines: &mut Vec<usize>,
    place: (usize, usize),
    count: usize,
) -> Result<(), AllocError>
    requires { length lines.old.items ≤ length ends.old }
    ensures ok { OnOk result (ends.new ≡ ends.old ++ place ∷ []) }
    ensures same { (k : ℕ) → k < length ends.old
        → slice_index_or lines.new.items k 1 ≡ slice_index_or lines.old.items k 1 }
    ensures noted { OnOk result (slice_index_or lines.new.items (length ends.old) 1 ≡ count) }
    ensures few { OnOk result (length lines.new.items ≤ length ends.old + 1) }
    ensures err { OnErr result (ends.new ≡ ends.old) }
{
    if count == 1 {
        return ends.push(place);
    }
    'ones: for _before in lines.len()..ends.len() {
        lines.push(1)?;
    }
    lines.push(count)?;
    ends.push(place)
}

impl JoinedTexts {
    /// Makes an empty list.
    pub fn new(alloc: Global) -> JoinedTexts
        ensures { result ≡ [] }
    {
        JoinedTexts {
            whole: String::new(alloc),
            ends: Pairs::new(alloc),
            lines: Vec::new(alloc),
        }
    }

    /// Returns the number of texts.
    pub fn len(&self) -> usize
        ensures { result ≡ length self.now }
    {
        self.ends.len()
    }

    /// Returns the text at an index, and its columns.
    #[inline(always)]
    pub fn text(&self, place: usize) -> (&str, usize)
        requires { place < length self.now }
        ensures text { result.0.now ≡ slice_index_or self.now place [] }
        ensures columns { result.1 ≡ text_columns result.0.now }
    {
        text_at(self.whole.as_str(), &self.ends, 0, place)
    }

    /// Returns the text at an index.
    pub fn content(&self, place: usize) -> Content<'_>
        requires { place < length self.now }
        ensures { content_text result ≡ slice_index_or self.now place [] }
    {
        let (text, columns) = self.text(place);
        Content::measured(text, columns, lines_at(&self.lines, place))
    }

    /// Returns the text of a cell, its columns and its lines. A cell that only fills up its row is
    /// empty.
    #[inline(always)]
    pub fn cell(&self, rows: &RowRanges, at: Position) -> (&str, usize, usize)
        requires ranges { AreRanges (length self.now) rows.now }
        requires inside { IsInside (rows_in self.now rows.now) at.row at.column }
        ensures { AreMeasures (cell_at (rows_in self.now rows.now) at.row at.column)
            result.0.now result.1 result.2 }
    {
        match rows.cell(self.whole.as_str(), &self.ends, 0, at) {
            Some((text, columns, place)) => (text, columns, lines_at(&self.lines, place)),
            None => ("", 0, 1),
        }
    }

    /// Adds a text with its columns and lines. If it fails, the texts are unchanged.
    #[inline(always)]
    pub fn push(&mut self, text: &str, columns: usize, lines: usize) -> Result<(), AllocError>
        requires columns { columns ≡ text_columns text.now }
        requires lines { lines ≡ length (lines_of text.now) }
        ensures ok { OnOk result (self.new ≡ self.old ++ text.now ∷ []) }
        ensures err { OnErr result (self.new ≡ self.old) }
    {
        let start = self.whole.as_str().len();
        self.whole.push_str(text)?;
        let end = self.whole.as_str().len();
        let count = self.ends.len();
        match push_ends(&mut self.ends, &mut self.lines, (end, columns), lines) {
            Ok(()) => Ok(()),
            Err(error) => {
                self.lines.truncate(count);
                self.whole.truncate(start);
                Err(error)
            }
        }
    }
}

/// Rows whose texts are joined in one buffer. Rows shorter than the longest end with empty cells.
#[derive(Debug, Drop)]
pub struct JoinedRecords {
    pub(crate) texts: JoinedTexts,
    pub(crate) rows: RowRanges,
}

impl Model for JoinedRecords {
    ghost use Rattle.std.specs.Prelude.{ℕ, List, length};
    ghost use Rattle.tabled_records.specs.Joined.{AreRanges, rows_in};

    ghost Value = { List (List (List ℕ)) };

    ghost view = { λ r. rows_in r.texts r.rows };

    ghost invariant = { λ r. AreRanges (length r.texts) r.rows };
}

/// Adds the texts of a row. Some of them may be there after an allocation failed.
fn push_texts<I: IntoIterator>(texts: &mut JoinedTexts, cells: I) -> Result<(), AllocError>
where
    I::Item: CellText + Drop,
    requires { IsFiniteIterable I.into_iter_gives I.IntoIter.can_next I.IntoIter.remaining cells }
    ensures more { (added : List (List ℕ)) × (texts.new ≡ texts.old ++ added) }
    ensures ok { OnOk result ((items : List I.Item)
        × Given I.into_iter_gives I.IntoIter.next_gives cells items
        × (texts.new ≡ texts.old ++ map I.Item.text items)) }
{
    let cells = cells.into_iter();
    for cell in cells {
        let text = cell.text();
        let (columns, lines) = text_measures(text);
        texts.push(text, columns, lines)?;
    }
    Ok(())
}

impl JoinedRecords {
    /// Makes empty records.
    pub fn new(alloc: Global) -> JoinedRecords
        ensures { result ≡ [] }
    {
        let texts = JoinedTexts::new(alloc);
        let rows = RowRanges::new(alloc);
        JoinedRecords { texts, rows }
    }

    /// Adds a row. Error: `Memory`; the records are unchanged then.
    pub fn push_record<I: IntoIterator>(&mut self, cells: I) -> Result<(), TableError>
    where
        I::Item: CellText + Drop,
        requires { IsFiniteIterable I.into_iter_gives I.IntoIter.can_next
            I.IntoIter.remaining cells }
        ensures ok { OnOk result ((items : List I.Item)
            × Given I.into_iter_gives I.IntoIter.next_gives cells items
            × (self.new ≡ with_record self.old (map I.Item.text items))) }
        ensures err { OnErr result (self.new ≡ self.old) }
        ensures only { IfErr result (λ e. e ≡ Memory) }
    {
        let start = self.texts.len();
        push_texts(&mut self.texts, cells)?;
        let count = self.texts.len() - start;
        self.rows.push(start, count)
    }
}

impl ExactRecords for JoinedRecords {
    ghost cells = { λ r. r };

    #[inline(always)]
    fn count_rows(&self) -> usize {
        self.rows.len()
    }

    #[inline(always)]
    fn count_columns(&self) -> usize {
        self.rows.columns()
    }
}

impl PeekableRecords for JoinedRecords {
    #[inline(always)]
    fn get_text(&self, at: Position) -> &str {
        self.get_measured(at).0
    }

    #[inline(always)]
    fn get_width(&self, at: Position) -> usize {
        self.get_measured(at).1
    }

    #[inline(always)]
    fn count_lines(&self, at: Position) -> usize {
        self.get_measured(at).2
    }

    #[inline(always)]
    fn get_measured(&self, at: Position) -> (&str, usize, usize) {
        self.texts.cell(&self.rows, at)
    }
}
