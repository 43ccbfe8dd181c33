//! Writes rows, horizontal lines and margins below each other, with line feeds between them. What
//! later lines can share is cached: the last horizontal line and a row template.
ghost use Rattle.std.specs.Prelude.{◌≡◌, [], ◌∷◌, None, Some, drop, false, replicate, true};
ghost use Rattle.tabled_line.specs.Buffers.{buffer_text};
ghost use Rattle.tabled_line.specs.Fill.{fill};
ghost use Rattle.tabled_line.specs.LineCache.{IsCacheOf, IsCachedRule};
ghost use Rattle.tabled_line.specs.Leading.{WritesLines, break};
ghost use Rattle.tabled_line.specs.Row.{row_line, row_lines, rule_if, rule_line};
ghost use Rattle.tabled_line.specs.RowLines.{IsRowLine};
ghost use Rattle.tabled_line.specs.Sent.{Sent, Writes};

use crate::borders::{TableColumns, write_rule_line};
use crate::cell_lines::{RowLine, advance_cursors, are_top, begin_cursors};
use crate::cursor::Cursor;
use crate::padding::write_fill;
use crate::row::{Row, write_row_line};
use crate::row_template::RowTemplate;
use crate::text_sink::{LineBuffer, TextSink};
use std::alloc::Global;
use tabled_base::TableError;
use tabled_config::{HorizontalLine, Indent};

/// Writes a line feed if a line was written before, and sets `begun`.
pub fn write_break<S: TextSink>(sink: &mut S, begun: &mut bool) -> Result<(), TableError>
    ensures printed { Writes (S.sent sink.old) result (S.sent sink.new) (break begun.old) }
    ensures after { begun.new ≡ true }
{
    let before = *begun;
    *begun = true;
    if before {
        sink.write_text("\n")
    } else {
        Ok(())
    }
}

/// Writes a line that is stored with a line feed before it. The line feed is left out before the
/// first line.
#[inline(always)]
fn write_feed_and_line<S: TextSink>(
    sink: &mut S,
    begun: &mut bool,
    led: &str,
) -> Result<(), TableError>
    requires { led.now ≡ 10 ∷ drop 1 led.now }
    ensures { WritesLines (S.sent sink.old) begun.old result (S.sent sink.new) begun.new
        (drop 1 led.now ∷ []) }
{
    if *begun {
        return sink.write_text(led);
    }
    *begun = true;
    sink.write_text(&led[1..])
}

/// Writes a line of a row piece by piece, without the template.
#[inline(always)]
fn write_unfilled_line<'a, R: Row<'a>, S: TextSink>(
    sink: &mut S,
    begun: &mut bool,
    row: &R,
    line: &RowLine<'_, 'a>,
) -> Result<(), TableError>
    requires { IsRowLine (R.sheet row.now) line.now }
    ensures { WritesLines (S.sent sink.old) begun.old result (S.sent sink.new) begun.new
        (row_line (R.sheet row.now) line.now.index ∷ []) }
{
    write_break(sink, begun)?;
    write_row_line(sink, row, line)
}

/// The last horizontal line, and its text with a line feed before it, if the buffer could hold
/// that. Lines between rows are mostly the same, and a cached one is written in one piece.
#[derive(Drop)]
pub(crate) struct CachedRule {
    line: Option<HorizontalLine>,
    buffer: LineBuffer,
    whole: bool,
}

impl CachedRule {
    #[inline(never)]
    fn lay_out<C: TableColumns>(&mut self, columns: &C, line: HorizontalLine)
        ensures line { self.new.line ≡ Some line }
        ensures kept { IsCachedRule (C.sheet columns.now) self.new }
    {
        self.buffer.clear();
        self.line = Some(line);
        self.whole = false;
        let Ok(()) = self.buffer.write_text("\n") else {
            return;
        };
        self.whole = write_rule_line(&mut self.buffer, columns, &line).is_ok();
    }

    /// Replaces the cached line, unless it is the same. Returns whether its text is cached.
    #[inline(always)]
    pub fn update<C: TableColumns>(&mut self, columns: &C, line: HorizontalLine) -> bool
        requires known { IsCachedRule (C.sheet columns.now) self.old }
        ensures known { IsCachedRule (C.sheet columns.now) self.new }
        ensures text { result ≡ true
            → buffer_text self.new.buffer ≡ 10 ∷ rule_line (C.sheet columns.now) line }
    {
        if let Some(cached) = &self.line
            && *cached == line
        {
            return self.whole;
        }
        self.lay_out(columns, line);
        self.whole
    }
}

/// A cached horizontal line and, with an allocator, a row template.
#[derive(Drop)]
pub(crate) struct LineCache {
    pub rule: CachedRule,
    pub row: Option<RowTemplate>,
}

impl LineCache {
    pub fn new<C: TableColumns>(columns: &C, memory: Option<Global>) -> LineCache
        ensures { IsCacheOf (C.sheet columns.now) result }
    {
        LineCache {
            rule: CachedRule {
                line: None,
                buffer: LineBuffer::new(memory),
                whole: false,
            },
            row: match memory {
                Some(alloc) => RowTemplate::new(columns, alloc),
                None => None,
            },
        }
    }
}

/// Prints lines over the same columns. It remembers whether a line was written, and caches what
/// later lines can share.
#[derive(Drop)]
pub struct LinePrinter<C: TableColumns> {
    /// The columns.
    pub columns: C,
    begun: bool,
    kept: LineCache,
}

impl<C: TableColumns> LinePrinter<C> {
    /// Returns a printer that has written no line yet. With an allocator it caches a horizontal
    /// line of up to 1 MiB and a row template, else a horizontal line of up to 4 KiB.
    pub fn new(columns: C, memory: Option<Global>) -> LinePrinter<C>
        ensures columns { result.columns ≡ columns }
        ensures begun { result.begun ≡ false }
        ensures kept { IsCacheOf (C.sheet result.columns) result.kept }
    {
        let kept = LineCache::new(&columns, memory);
        LinePrinter {
            columns,
            begun: false,
            kept,
        }
    }

    /// Whether a line was written.
    pub fn has_begun(&self) -> bool
        ensures { result ≡ self.now.begun }
    {
        self.begun
    }

    /// Begins a line that the caller writes: writes the line feed before it, if it isn't the first.
    pub fn begin_line<S: TextSink>(&mut self, sink: &mut S) -> Result<(), TableError>
        requires kept { IsCacheOf (C.sheet self.old.columns) self.old.kept }
        ensures printed { Writes (S.sent sink.old) result (S.sent sink.new) (break self.old.begun) }
        ensures begun { self.new.begun ≡ true }
        ensures same { self.new.columns ≡ self.old.columns }
        ensures kept { IsCacheOf (C.sheet self.new.columns) self.new.kept }
    {
        write_break(sink, &mut self.begun)
    }

    /// Writes the lines of a margin, each with `width` fill characters.
    pub fn write_margin<S: TextSink>(
        &mut self,
        sink: &mut S,
        side: Indent,
        width: usize,
    ) -> Result<(), TableError>
        requires kept { IsCacheOf (C.sheet self.old.columns) self.old.kept }
        ensures printed { WritesLines (S.sent sink.old) self.old.begun result (S.sent sink.new)
            self.new.begun (replicate side.size (fill side.fill width)) }
        ensures same { self.new.columns ≡ self.old.columns }
        ensures kept { IsCacheOf (C.sheet self.new.columns) self.new.kept }
    {
        'lines: for _i in 0..side.size {
            write_break(sink, &mut self.begun)?;
            write_fill(sink, side.fill, width)?;
        }
        Ok(())
    }

    /// Writes a horizontal line, if there is one. It is built again only if it differs from the
    /// cached one.
    #[inline(always)]
    pub fn write_rule<S: TextSink>(
        &mut self,
        sink: &mut S,
        rule: Option<HorizontalLine>,
    ) -> Result<(), TableError>
        requires kept { IsCacheOf (C.sheet self.old.columns) self.old.kept }
        ensures printed { WritesLines (S.sent sink.old) self.old.begun result (S.sent sink.new)
            self.new.begun (rule_if (C.sheet self.old.columns) rule) }
        ensures same { self.new.columns ≡ self.old.columns }
        ensures kept { IsCacheOf (C.sheet self.new.columns) self.new.kept }
    {
        let Some(line) = rule else {
            return Ok(());
        };
        if self.kept.rule.update(&self.columns, line) {
            return write_feed_and_line(sink, &mut self.begun, self.kept.rule.buffer.text());
        }
        write_break(sink, &mut self.begun)?;
        write_rule_line(sink, &self.columns, &line)
    }

    /// Writes a line of a row over these columns. Inlined, since the height is mostly known to be
    /// 1.
    #[inline(always)]
    fn write_row_line<'a, R: Row<'a>, S: TextSink>(
        &mut self,
        sink: &mut S,
        row: &R,
        line: &RowLine<'_, 'a>,
    ) -> Result<(), TableError>
        requires kept { IsCacheOf (C.sheet self.old.columns) self.old.kept }
        requires over { (R.sheet row.now).columns ≡ C.sheet self.old.columns }
        requires line { IsRowLine (R.sheet row.now) line.now }
        ensures printed { WritesLines (S.sent sink.old) self.old.begun result (S.sent sink.new)
            self.new.begun (row_line (R.sheet row.now) line.now.index ∷ []) }
        ensures same { self.new.columns ≡ self.old.columns }
        ensures kept { IsCacheOf (C.sheet self.new.columns) self.new.kept }
    {
        if let Some(template) = &mut self.kept.row
            && let Some(end) = template.fill_line(row, line)
        {
            return write_feed_and_line(sink, &mut self.begun, template.text(end));
        }
        write_unfilled_line(sink, &mut self.begun, row, line)
    }

    /// Writes the lines of a row of any height.
    #[inline(never)]
    #[tactic(auto, unfolding(crate::specs::Row::row_lines))]
    fn write_lines<'a, R: Row<'a>, S: TextSink>(
        &mut self,
        sink: &mut S,
        row: &R,
        cursors: &mut [Cursor<'a>],
        height: usize,
    ) -> Result<(), TableError>
        requires kept { IsCacheOf (C.sheet self.old.columns) self.old.kept }
        requires over { (R.sheet row.now).columns ≡ C.sheet self.old.columns }
        requires height { height ≡ (R.sheet row.now).height }
        ensures printed { WritesLines (S.sent sink.old) self.old.begun result (S.sent sink.new)
            self.new.begun (row_lines (R.sheet row.now)) }
        ensures same { self.new.columns ≡ self.old.columns }
        ensures kept { IsCacheOf (C.sheet self.new.columns) self.new.kept }
    {
        let count = cursors.len().min(row.count_columns());
        let cursors = &mut cursors[..count];
        let top = are_top(row);
        begin_cursors(cursors, row, top);
        'lines: for index in 0..height {
            advance_cursors(cursors, index);
            let line = RowLine {
                index,
                height,
                top,
                cursors,
            };
            self.write_row_line(sink, row, &line)?;
        }
        Ok(())
    }

    /// Writes the lines of a row over these columns. A text with a cursor isn't searched from its
    /// start for each line. The cursors may be in any state.
    #[inline(always)]
    pub fn write_row<'a, R: Row<'a>, S: TextSink>(
        &mut self,
        sink: &mut S,
        row: &R,
        cursors: &mut [Cursor<'a>],
    ) -> Result<(), TableError>
        requires kept { IsCacheOf (C.sheet self.old.columns) self.old.kept }
        requires over { (R.sheet row.now).columns ≡ C.sheet self.old.columns }
        ensures printed { WritesLines (S.sent sink.old) self.old.begun result (S.sent sink.new)
            self.new.begun (row_lines (R.sheet row.now)) }
        ensures same { self.new.columns ≡ self.old.columns }
        ensures kept { IsCacheOf (C.sheet self.new.columns) self.new.kept }
    {
        let height = row.height();
        if height == 1 {
            return self.write_row_line(sink, row, &RowLine::only());
        }
        self.write_lines(sink, row, cursors, height)
    }
}
