//! Writes one line of a drawing, run by run, and in it the lines of the blocks of texts.
ghost use Rattle.std.specs.List.{range_with_len};
ghost use Rattle.std.specs.Prelude.{List, encode_utf8, flat_map, map, true, ℕ, ◌++◌, ◌+◌, ◌<◌};
ghost use Rattle.std.specs.Prelude.{◌-◌, ◌≡◌, ◌≤◌};
ghost use Rattle.tabled_base.specs.Content.{content_text};
ghost use Rattle.tabled_line.specs.Block.{columns_before, inner_width};
ghost use Rattle.tabled_line.specs.Sent.{Sent, Writes};
ghost use Rattle.tabled_pool.specs.Block.{leaf_line, text_line};
ghost use Rattle.tabled_pool.specs.Boxes.{is_line_kind, part_of, drawn_part};
ghost use Rattle.tabled_pool.specs.Colours.{marks_of, within_marks};
ghost use Rattle.tabled_pool.specs.Drawn.{IsRun, drawn_line, part_text, place_text};
ghost use Rattle.tabled_pool.specs.Plan.{around_of, plan_of};
ghost use Rattle.tabled_pool.specs.TallTexts.{IsInLine};
ghost use Rattle.tabled_pool.specs.declared.kind.Kind.TheVariants.{Leaf};
ghost use Rattle.tabled_text.specs.Measure.{line_columns, text_columns};

use crate::color_marks::{Marks, draw_colored_fill, marks_at};
use crate::drawing::Drawing;
use crate::kind::Kind;
use crate::line_runs::{Line, Run};
use crate::rectangle::Rectangle;
use crate::tall_texts::BoxText;
use tabled_base::TableError;
use tabled_config::{CellStyle, Indent, Sides};
use tabled_line::{CellBlock, TextSink, before_text, write_char, write_fill, write_padded_text};

/// A line of a text, and what its place depends on.
#[derive(Clone, Copy)]
struct TextLine<'t> {
    line: &'t str,
    /// The columns that it takes.
    columns: usize,
    /// The columns of the entire text.
    all: usize,
}

/// The columns of spaces before and behind a line of a text.
#[derive(Clone, Copy)]
struct Spaces {
    before: usize,
    behind: usize,
}

/// Returns the spaces around a line of a text, in `width` columns with the padding.
fn spaces_around(style: &CellStyle, width: usize, text: &TextLine<'_>) -> Spaces
    requires { text.now.columns ≡ line_columns text.now.line.now }
    ensures before { (whole : List ℕ) → text.now.all ≡ text_columns whole → result.before
        ≡ columns_before style.now (inner_width style.now width) whole text.now.line.now }
    ensures behind { result.behind ≡ inner_width style.now width - result.before
        - line_columns text.now.line.now }
{
    let Sides { left, right, .. } = style.padding;
    let inner = width.saturating_sub(left.size).saturating_sub(right.size);
    let used = if style.line_alignment {
        text.columns
    } else {
        text.all
    };
    let before = before_text(style.horizontal, inner.saturating_sub(used));
    Spaces {
        before,
        behind: inner.saturating_sub(before).saturating_sub(text.columns),
    }
}

/// Writes a line of a text in `width` columns, with padding and alignment.
fn draw_text_line<S: TextSink>(
    sink: &mut S,
    drawing: &Drawing<'_, '_>,
    width: usize,
    text: &TextLine<'_>,
) -> Result<(), TableError>
    requires { text.now.columns ≡ line_columns text.now.line.now }
    ensures { (whole : List ℕ) → text.now.all ≡ text_columns whole
        → Writes (S.sent sink.old) result (S.sent sink.new) (text_line drawing.now.style
        (marks_of drawing.now.padding_colors) width whole text.now.line.now) }
{
    let padding = &drawing.style.padding;
    let spaces = spaces_around(&drawing.style, width, text);
    if drawing.uncolored_padding {
        return write_padded_text(sink, padding, spaces.before, text.line, spaces.behind);
    }
    let colors = &drawing.padding_colors;
    draw_colored_fill(sink, colors.left, padding.left.fill, padding.left.size)?;
    let none = Sides::filled(Indent::zero());
    write_padded_text(sink, &none, spaces.before, text.line, spaces.behind)?;
    draw_colored_fill(sink, colors.right, padding.right.fill, padding.right.size)
}

/// Writes line `index` of the block of a text.
pub fn draw_block_line<S: TextSink>(
    sink: &mut S,
    drawing: &Drawing<'_, '_>,
    place: Rectangle,
    text: &BoxText<'_, '_>,
    index: usize,
) -> Result<(), TableError>
    requires inside { index < place.height }
    requires cursor { IsInLine drawing.now.style place index text.now }
    ensures { Writes (S.sent sink.old) result (S.sent sink.new) (leaf_line (plan_of drawing.now)
        (part_of Leaf place (content_text text.now.content)) index) }
{
    let colors = &drawing.padding_colors;
    let cell = CellBlock {
        style: drawing.style,
        width: place.width,
        height: place.height,
        content: text.content,
    };
    let above = cell.lines_above();
    if index < above {
        return write_fill(sink, ' ', place.width);
    }
    let Sides { top, bottom, .. } = drawing.style.padding;
    let padded = index - above;
    if padded < top.size {
        return draw_colored_fill(sink, colors.top, top.fill, place.width);
    }
    let row = padded - top.size;
    let Some((line, columns)) = text.line(row) else {
        let below = row - text.content.lines;
        if below < bottom.size {
            return draw_colored_fill(sink, colors.bottom, bottom.fill, place.width);
        }
        return write_fill(sink, ' ', place.width);
    };
    let line = TextLine {
        line,
        columns,
        all: text.content.columns,
    };
    draw_text_line(sink, drawing, place.width, &line)
}

/// Writes a mark. Most are empty, and need no call.
#[inline(always)]
pub fn write_mark<S: TextSink>(sink: &mut S, mark: &str) -> Result<(), TableError>
    ensures { Writes (S.sent sink.old) result (S.sent sink.new) mark.now }
{
    if mark.is_empty() {
        return Ok(());
    }
    sink.write_text(mark)
}

pub fn draw_marked<S: TextSink>(sink: &mut S, marks: Marks, c: char) -> Result<(), TableError>
    ensures { Writes (S.sent sink.old) result (S.sent sink.new)
        (within_marks (around_of marks) (encode_utf8 c)) }
{
    write_mark(sink, marks.close)?;
    write_mark(sink, marks.start)?;
    write_char(sink, c)?;
    write_mark(sink, marks.behind)
}

/// Writes copies of a border character, each with its colour.
fn draw_border<S: TextSink>(
    sink: &mut S,
    line: &Line<'_, '_, '_, '_>,
    run: &Run<'_, '_>,
    x: usize,
) -> Result<(), TableError>
    requires kind { is_line_kind run.now.piece.now.kind ≡ true }
    requires run { IsRun (plan_of line.now.drawing.now) x line.now.y run.now.count run.now.c
        (drawn_part run.now.piece.now) }
    ensures { Writes (S.sent sink.old) result (S.sent sink.new)
        (flat_map (place_text (plan_of line.now.drawing.now) line.now.y)
        (range_with_len x run.now.count)) }
{
    if line.drawing.uncolored_borders {
        return write_fill(sink, run.c, run.count);
    }
    'places: for at in 0..run.count {
        draw_marked(sink, marks_at(line, x + at), run.c)?;
    }
    Ok(())
}

fn draw_run<S: TextSink>(
    sink: &mut S,
    line: &Line<'_, '_, '_, '_>,
    run: &Run<'_, '_>,
    x: usize,
) -> Result<(), TableError>
    requires { IsRun (plan_of line.now.drawing.now) x line.now.y run.now.count run.now.c
        (drawn_part run.now.piece.now) }
    ensures { Writes (S.sent sink.old) result (S.sent sink.new)
        (flat_map (place_text (plan_of line.now.drawing.now) line.now.y)
        (range_with_len x run.now.count)) }
{
    let place = run.piece.place;
    match run.piece.kind {
        Kind::Bar | Kind::Rule => draw_border(sink, line, run, x),
        Kind::Leaf if place.x == x => {
            let text = line.text(run.piece, x);
            draw_block_line(sink, line.drawing, place, &text, line.y - place.y)
        }
        Kind::Leaf => Ok(()),
    }
}

#[tactic(auto, unfolding(crate::specs::Drawn::drawn_line))]
pub fn draw_line<S: TextSink>(sink: &mut S, line: &Line<'_, '_, '_, '_>) -> Result<(), TableError>
    ensures { Writes (S.sent sink.old) result (S.sent sink.new)
        (drawn_line (plan_of line.now.drawing.now) line.now.y) }
{
    let mut at = line.start();
    'runs: while let Some(piece) = at.piece {
        let x = at.x;
        let run = line.next_run(piece, &mut at);
        draw_run(sink, line, &run, x)?;
    }
    Ok(())
}
