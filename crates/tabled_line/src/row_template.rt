//! Row templates: a blank row with its vertical lines and edges is built once. A line of a row is
//! its texts and the parts of the blank row between them.
ghost use Rattle.std.specs.Prelude.{IfOk, IfSome, IsUtf8, [], length, string_bytes, take};
ghost use Rattle.std.specs.Prelude.{◌++◌, ◌+◌, ◌≡◌, ◌≤◌, ◌∷◌};
ghost use Rattle.tabled_line.specs.BlankRow.{blank_row, first_offset};
ghost use Rattle.tabled_line.specs.Copied.{IsCopied};
ghost use Rattle.tabled_line.specs.Slots.{AreSlots, IsBlankOf, IsFilled, IsTemplateOf};
ghost use Rattle.tabled_line.specs.Row.{piece};
ghost use Rattle.tabled_line.specs.RowLines.{IsRowLine};

use crate::borders::{TableColumns, write_left_edge, write_right_edge, write_rule_pieces};
use crate::cell_lines::RowLine;
use crate::padding::SPACES;
use crate::placement::{KnownPlacements, RowPlacements, place_text};
use crate::row::Row;
use crate::text_sink::TextSink;
use std::alloc::{AllocError, Global};
use tabled_base::TableError;
use tabled_config::{HorizontalLine, RowStyles, VerticalLine};

/// The most columns of a template, not counting vertical lines. A longer one isn't worth the
/// memory, and a table can be wider than memory is large.
const MOST_COLUMNS: usize = 65_536;

/// The bytes of the buffer for each byte of the blank row, beside those that the padded row has
/// more. A longer line is written without the template.
const BYTES_PER_COLUMN: usize = 4;

/// Whether the columns and the side margins are short enough for a template. This decides what is
/// cached, not what is printed.
fn is_short<C: TableColumns>(columns: &C) -> bool {
    if columns.count_columns() > MOST_COLUMNS {
        return false;
    }
    let margin = columns.frame().margin;
    let mut taken = margin.left.size.saturating_add(margin.right.size);
    for column in 0..columns.count_columns() {
        taken = taken.saturating_add(columns.width(column));
    }
    taken <= MOST_COLUMNS
}

/// Writes a line feed and a blank row. Returns the offset of the first cell, in bytes.
fn write_blank<C: TableColumns>(blank: &mut String, columns: &C) -> Result<usize, TableError>
    requires empty { string_bytes blank.old ≡ [] }
    ensures row { IfOk result (λ _. string_bytes blank.new ≡ 10 ∷ blank_row (C.sheet columns.now)) }
    ensures start { IfOk result (λ start. start ≡ first_offset (C.sheet columns.now)) }
{
    let frame = columns.frame();
    blank.write_text("\n")?;
    write_left_edge(blank, frame, frame.left.main)?;
    let start = blank.as_str().len();
    let line = HorizontalLine {
        main: Some(' '),
        left: Some(frame.left.main),
        intersection: Some(frame.inner.main),
        right: Some(frame.right.main),
    };
    write_rule_pieces(blank, columns, &line)?;
    write_right_edge(blank, frame, frame.right.main)?;
    Ok(start)
}

/// The byte at which a cell begins, and its width in columns. A blank cell has as many bytes as
/// columns.
#[derive(Clone, Copy)]
pub(crate) struct Slot {
    pub place: usize,
    pub width: usize,
}

/// Returns the number of bytes of a vertical line; 0 if it isn't there.
fn bar_length(bar: VerticalLine) -> usize
    ensures { result ≡ length (piece bar.there bar.main) }
{
    if bar.there { bar.main.len_utf8() } else { 0 }
}

/// Fills an empty list with the slot of each cell; the first one begins at `start`. `None` if an
/// offset overflows or an allocation failed.
fn list_slots<C: TableColumns>(slots: &mut Vec<Slot>, columns: &C, start: usize) -> Option<()>
    requires empty { slots.old.items ≡ [] }
    requires start { start ≡ first_offset (C.sheet columns.now) }
    ensures { IfSome result (λ _. AreSlots (C.sheet columns.now) slots.new.items) }
{
    let bar = bar_length(columns.frame().inner);
    let mut place = start;
    'slots: for column in 0..columns.count_columns() {
        let width = columns.width(column);
        slots.push(Slot { place, width }).ok()?;
        place = place.checked_add(width)?.checked_add(bar)?;
    }
    Some(())
}

/// A blank row with a line feed before it, and the slots of its cells.
#[derive(Drop)]
pub(crate) struct BlankRow {
    text: String,
    /// The text with spaces behind it, so that its last parts are copied in one block, too.
    padded: String,
    slots: Vec<Slot>,
}

/// The bytes that are copied at once.
const BLOCK: usize = 16;

/// Returns a row with at least `BLOCK` spaces behind it.
fn padded_row(alloc: Global, row: &str) -> Result<String, AllocError>
    ensures { IfOk result (λ padded.
        take (length row.now) (string_bytes padded) ≡ row.now) }
{
    let mut padded = String::from_str(alloc, row)?;
    padded.push_str(SPACES)?;
    Ok(padded)
}

/// Copies bytes over those of a line from `place` on.
#[inline(always)]
fn copy_at(line: &mut [u8], place: usize, bytes: &[u8])
    requires { place + length bytes.now ≤ length line.old }
    ensures { IsCopied place bytes.now line.old line.new }
{
    line[place..place + bytes.len()].copy_from_slice(bytes);
}

/// Copies bytes as `copy_at` does: the first `size` and the last `size` of them, which is all.
#[inline(always)]
fn copy_ends(line: &mut [u8], place: usize, bytes: &[u8], size: usize)
    requires fits { place + length bytes.now ≤ length line.old }
    requires size { size ≤ length bytes.now }
    requires all { length bytes.now ≤ size + size }
    ensures { IsCopied place bytes.now line.old line.new }
{
    let last = bytes.len() - size;
    copy_at(line, place, &bytes[..size]);
    copy_at(line, place + last, &bytes[last..]);
}

/// Copies bytes as `copy_at` does. Up to 16 are copied without a call.
#[inline(always)]
fn copy_text(line: &mut [u8], place: usize, bytes: &[u8])
    requires { place + length bytes.now ≤ length line.old }
    ensures { IsCopied place bytes.now line.old line.new }
{
    let count = bytes.len();
    if count > BLOCK {
        copy_at(line, place, bytes);
    } else if count >= 8 {
        copy_ends(line, place, bytes, 8);
    } else if count >= 4 {
        copy_ends(line, place, bytes, 4);
    } else if count >= 2 {
        copy_ends(line, place, bytes, 2);
    } else if count == 1 {
        copy_ends(line, place, bytes, 1);
    }
}

/// Copies the first `count` bytes of a part of the blank row over those of a line from `place` on.
/// A few are copied in one block, which the next text overwrites.
#[inline(always)]
fn copy_part(line: &mut [u8], place: usize, part: &[u8], count: usize)
    requires fits { place + length part.now ≤ length line.old }
    requires count { count ≤ length part.now }
    ensures length { length line.new ≡ length line.old }
    ensures copied { take (place + count) line.new ≡ take place line.old ++ take count part.now }
{
    if count <= BLOCK && part.len() >= BLOCK {
        copy_at(line, place, &part[..BLOCK]);
    } else {
        copy_at(line, place, &part[..count]);
    }
}

/// Fills a buffer with a line of a row: copies the texts, at their placements, over a copy of the
/// blank row. Returns its length in bytes. `None` if a text has no placement, doesn't fit, or
/// hasn't as many bytes as columns.
#[inline(always)]
fn overlay_texts<'a, R: Row<'a>, A: RowPlacements>(
    line: &mut [u8],
    blank: &BlankRow,
    row: &R,
    placements: &A,
    at: &RowLine<'_, 'a>,
) -> Option<usize>
    requires at { IsRowLine (R.sheet row.now) at.now }
    requires blank { IsBlankOf (R.sheet row.now).columns blank.now }
    requires describes { A.describes placements.now (R.sheet row.now) }
    ensures { IfSome result (IsFilled (R.sheet row.now) at.now.index line.new) }
{
    let bytes = blank.text.as_bytes();
    let slots = blank.slots.as_slice();
    if line.len() < bytes.len() {
        return None;
    }
    copy_at(line, 0, bytes);
    'texts: for column in 0..slots.len() {
        let slot = slots[column];
        let placed = place_text(row, placements, at, column, slot.width)?;
        if placed.text.len() != placed.columns {
            return None;
        }
        copy_text(line, slot.place + placed.before, placed.text.as_bytes());
    }
    Some(bytes.len())
}

/// Fills a buffer with a line of a row: appends the texts, at their placements, and what the blank
/// row has between them. Returns its length in bytes. `None` if a text has no placement or doesn't
/// fit, a column with a text has no width, or the buffer is too small.
#[inline(never)]
fn append_texts<'a, R: Row<'a>, A: RowPlacements>(
    line: &mut [u8],
    blank: &BlankRow,
    row: &R,
    placements: &A,
    at: &RowLine<'_, 'a>,
) -> Option<usize>
    requires at { IsRowLine (R.sheet row.now) at.now }
    requires blank { IsBlankOf (R.sheet row.now).columns blank.now }
    requires describes { A.describes placements.now (R.sheet row.now) }
    ensures { IfSome result (IsFilled (R.sheet row.now) at.now.index line.new) }
{
    // A copy, so that the fields are read once.
    let here = *at;
    let bytes = blank.padded.as_bytes();
    let slots = blank.slots.as_slice();
    // The bytes of the buffer that are left if each further text has as many bytes as columns.
    let mut spare = line.len().checked_sub(bytes.len())?;
    // The end of the line so far, and of the bytes of the blank row that it has or that a text took
    // the place of.
    let mut end = 0;
    let mut passed = 0;
    'texts: for column in 0..slots.len() {
        let slot = slots[column];
        let placed = place_text(row, placements, &here, column, slot.width)?;
        if placed.text.is_empty() && placed.columns == 0 {
            continue;
        }
        if slot.width == 0 {
            return None;
        }
        spare = (spare + placed.columns).checked_sub(placed.text.len())?;
        let start = slot.place + placed.before;
        let count = start - passed;
        let begin = end + count;
        copy_part(line, end, &bytes[passed..], count);
        copy_text(line, begin, placed.text.as_bytes());
        end = begin + placed.text.len();
        passed = start + placed.columns;
    }
    let count = blank.text.len() - passed;
    copy_part(line, end, &bytes[passed..], count);
    Some(end + count)
}

/// A blank row that is built once, and a buffer for lines. Lines have a line feed before them.
#[derive(Drop)]
pub(crate) struct RowTemplate {
    blank: BlankRow,
    buffer: Vec<u8>,
    /// Whether a text of the last line had more bytes than columns. The next line is mostly alike,
    /// and appended at once then.
    appends: bool,
}

impl RowTemplate {
    /// Builds the template of rows over these columns. `None` if it would be too long or an
    /// allocation failed.
    pub fn new<C: TableColumns>(columns: &C, alloc: Global) -> Option<RowTemplate>
        ensures { IfSome result (IsTemplateOf (C.sheet columns.now)) }
    {
        if !is_short(columns) {
            return None;
        }
        let mut text = String::new(alloc);
        let mut slots = Vec::new(alloc);
        let start = write_blank(&mut text, columns).ok()?;
        list_slots(&mut slots, columns, start)?;
        let padded = padded_row(alloc, text.as_str()).ok()?;
        let most = text.as_str().len().checked_mul(BYTES_PER_COLUMN)?;
        Some(RowTemplate {
            buffer: vec![in alloc; 0; most.checked_add(SPACES.len())?].ok()?,
            blank: BlankRow {
                text,
                padded,
                slots,
            },
            appends: false,
        })
    }

    /// Fills the buffer with a line of a row, with its texts at these placements.
    #[inline(always)]
    fn fill_placed<'a, R: Row<'a>, A: RowPlacements + Drop>(
        &mut self,
        row: &R,
        placements: A,
        at: &RowLine<'_, 'a>,
    ) -> Option<usize>
        requires known { IsTemplateOf (R.sheet row.now).columns self.old }
        requires at { IsRowLine (R.sheet row.now) at.now }
        requires describes { A.describes placements (R.sheet row.now) }
        ensures blank { self.new.blank ≡ self.old.blank }
        ensures filled { IfSome result
            (IsFilled (R.sheet row.now) at.now.index self.new.buffer.items) }
    {
        if !self.appends
            && let Some(end) = overlay_texts(&mut self.buffer, &self.blank, row, &placements, at)
        {
            return Some(end);
        }
        let end = append_texts(&mut self.buffer, &self.blank, row, &placements, at)?;
        self.appends = end != self.blank.text.len();
        Some(end)
    }

    /// Fills the buffer as `fill_placed` does, for placements that few rows have. Not inlined, so
    /// that the calls of `fill_placed` for most rows are.
    #[inline(never)]
    fn fill_apart<'a, R: Row<'a>, A: RowPlacements + Drop>(
        &mut self,
        row: &R,
        placements: A,
        at: &RowLine<'_, 'a>,
    ) -> Option<usize>
        requires known { IsTemplateOf (R.sheet row.now).columns self.old }
        requires at { IsRowLine (R.sheet row.now) at.now }
        requires describes { A.describes placements (R.sheet row.now) }
        ensures blank { self.new.blank ≡ self.old.blank }
        ensures filled { IfSome result
            (IsFilled (R.sheet row.now) at.now.index self.new.buffer.items) }
    {
        self.fill_placed(row, placements, at)
    }

    /// Fills the buffer with a line of a row, with its texts where the styles of the cells place
    /// them. Not inlined: the values that inlined code has on the stack are cleared on each call,
    /// even for rows that don't need them.
    #[inline(never)]
    fn fill_styled<'a, R: Row<'a>>(&mut self, row: &R, at: &RowLine<'_, 'a>) -> Option<usize>
        requires known { IsTemplateOf (R.sheet row.now).columns self.old }
        requires at { IsRowLine (R.sheet row.now) at.now }
        ensures blank { self.new.blank ≡ self.old.blank }
        ensures filled { IfSome result
            (IsFilled (R.sheet row.now) at.now.index self.new.buffer.items) }
    {
        match row.styles() {
            RowStyles::Set(styles) => self.fill_apart(row, styles, at),
            styles => self.fill_apart(row, styles, at),
        }
    }

    /// Fills the buffer with a line of a row. Returns its length in bytes. `None`: the line must be
    /// written without the template.
    #[inline(always)]
    pub fn fill_line<'a, R: Row<'a>>(&mut self, row: &R, at: &RowLine<'_, 'a>) -> Option<usize>
        requires known { IsTemplateOf (R.sheet row.now).columns self.old }
        requires at { IsRowLine (R.sheet row.now) at.now }
        ensures known { IsTemplateOf (R.sheet row.now).columns self.new }
        ensures filled { IfSome result
            (IsFilled (R.sheet row.now) at.now.index self.new.buffer.items) }
    {
        if at.height != 1 && !at.top {
            return None;
        }
        match row.placements() {
            KnownPlacements::Cached(cells) => self.fill_placed(row, cells, at),
            KnownPlacements::Uniform(uniform) => self.fill_placed(row, uniform, at),
            KnownPlacements::Aligned(cells) => self.fill_apart(row, cells, at),
            KnownPlacements::Styled => self.fill_styled(row, at),
        }
    }

    /// Returns the first `end` bytes of the buffer.
    pub fn text(&self, end: usize) -> &str
        requires within { end ≤ length self.now.buffer.items }
        requires utf8 { IsUtf8 (take end self.now.buffer.items) }
        ensures { result.now ≡ take end self.now.buffer.items }
    {
        // Sound: the precondition says that these bytes are UTF-8.
        unsafe { std::str::from_utf8_unchecked(&self.buffer[..end]) }
    }
}
