//! `TableLines`: all lines of a table, and how they are written with the margin around them.
ghost use Rattle.std.specs.List.{join_with_byte};
ghost use Rattle.std.specs.Prelude.{[], length, map, replicate, slice_index_or, ◌-◌, ◌<◌, ◌∷◌, ◌≡◌};
ghost use Rattle.tabled_line.specs.Fill.{indent};
ghost use Rattle.tabled_line.specs.Leading.{WritesLines};
ghost use Rattle.tabled_line.specs.Sent.{Sent, Writes};
ghost use Rattle.tabled_pool.specs.Colours.{coloured, marks_of};
ghost use Rattle.tabled_pool.specs.Pool.{with_margin, within_margin};
ghost use Rattle.tabled_pool.specs.TableLines.{AreSizedLines, IsSwept, content_of, sheet_of};

use crate::color_marks::draw_colored_fill;
use crate::draw::draw_line;
use crate::drawing::Drawing;
use crate::drawn_block::DrawnBlock;
use crate::line_runs::Line;
use crate::sizes::Size;
use crate::sweep::Sweep;
use tabled_base::TableError;
use tabled_config::{ANSIStr, Indent, Sides};
use tabled_line::{TextSink, write_break};

#[derive(Clone, Copy)]
pub struct ColoredMargin {
    pub indent: Sides<Indent>,
    pub colors: Sides<ANSIStr<'static>>,
}

/// The lines of a table without its margin.
#[derive(Clone, Copy)]
pub enum TableLines<'l, 'd, 'a> {
    /// Of placed pieces: they are drawn one by one.
    Placed(&'l Drawing<'d, 'a>),
    /// Of a block that is drawn already.
    Drawn(&'l DrawnBlock),
}

/// What is between the side margins of a line.
#[derive(Clone, Copy)]
pub enum LineContent<'l, 's, 'd, 'a> {
    /// Copies of a character in a colour, as in the top and bottom margin.
    Fill(ANSIStr<'static>, char, usize),
    Placed(Line<'l, 's, 'd, 'a>),
    Text(&'l str),
}

impl LineContent<'_, '_, '_, '_> {
    fn write<S: TextSink>(self, sink: &mut S) -> Result<(), TableError>
        ensures { Writes (S.sent sink.old) result (S.sent sink.new) (content_of self.entry) }
    {
        match self {
            LineContent::Fill(color, c, width) => draw_colored_fill(sink, color, c, width),
            LineContent::Placed(line) => draw_line(sink, &line),
            LineContent::Text(text) => sink.write_text(text),
        }
    }
}

impl<'l, 'd, 'a> TableLines<'l, 'd, 'a> {
    fn size(self) -> Size
        ensures width { result.width ≡ (sheet_of self.entry).width }
        ensures height { result.height ≡ length (sheet_of self.entry).lines }
    {
        match self {
            TableLines::Placed(drawing) => Size {
                width: drawing.width,
                height: drawing.height,
            },
            TableLines::Drawn(block) => Size {
                width: block.width,
                height: block.lines.len(),
            },
        }
    }

    /// A sweep above the first line.
    fn sweep(self) -> Sweep<'a>
        ensures { IsSwept self.entry 0 result }
    {
        match self {
            TableLines::Placed(drawing) => Sweep::new(drawing),
            TableLines::Drawn(block) => Sweep::empty(*block.lines.allocator()),
        }
    }

    /// Moves a sweep to line `y`, from the line before it.
    fn advance(self, sweep: &mut Sweep<'a>, y: usize)
        ensures { IsSwept self.entry (y - 1) sweep.old → IsSwept self.entry y sweep.new }
    {
        if let TableLines::Placed(drawing) = self {
            sweep.advance(drawing, y);
        }
    }

    /// Line `y`, which the sweep is at.
    fn line<'s>(self, sweep: &'s Sweep<'a>, y: usize) -> LineContent<'l, 's, 'd, 'a>
        requires inside { y < length (sheet_of self).lines }
        requires sized { AreSizedLines self }
        requires swept { IsSwept self y sweep.now }
        ensures { content_of result ≡ slice_index_or (sheet_of self.entry).lines y [] }
    {
        match self {
            TableLines::Placed(drawing) => LineContent::Placed(Line { drawing, sweep, y }),
            TableLines::Drawn(block) => LineContent::Text(block.lines[y].as_str()),
        }
    }
}

/// Writes the next line, between the side margins.
fn draw_next<S: TextSink>(
    sink: &mut S,
    begun: &mut bool,
    margin: &ColoredMargin,
    content: LineContent<'_, '_, '_, '_>,
) -> Result<(), TableError>
    ensures { WritesLines (S.sent sink.old) begun.old result (S.sent sink.new) begun.new
        (within_margin margin.now.indent (marks_of margin.now.colors)
        (content_of content.entry) ∷ []) }
{
    write_break(sink, begun)?;
    let Sides { left, right, .. } = margin.indent;
    draw_colored_fill(sink, margin.colors.left, left.fill, left.size)?;
    content.write(sink)?;
    draw_colored_fill(sink, margin.colors.right, right.fill, right.size)
}

/// Writes the lines of the top or the bottom margin.
fn draw_margin<S: TextSink>(
    sink: &mut S,
    begun: &mut bool,
    margin: &ColoredMargin,
    content: LineContent<'_, '_, '_, '_>,
    count: usize,
) -> Result<(), TableError>
    ensures { WritesLines (S.sent sink.old) begun.old result (S.sent sink.new) begun.new
        (replicate count (within_margin margin.now.indent (marks_of margin.now.colors)
        (content_of content.entry))) }
{
    'lines: for _i in 0..count {
        draw_next(sink, begun, margin, content)?;
    }
    Ok(())
}

/// Writes the lines between the top and the bottom margin.
fn draw_inner_lines<S: TextSink>(
    sink: &mut S,
    begun: &mut bool,
    margin: &ColoredMargin,
    lines: TableLines<'_, '_, '_>,
) -> Result<(), TableError>
    requires { AreSizedLines lines }
    ensures { WritesLines (S.sent sink.old) begun.old result (S.sent sink.new) begun.new
        (map (within_margin margin.now.indent (marks_of margin.now.colors))
        (sheet_of lines.entry).lines) }
{
    let mut sweep = lines.sweep();
    let height = lines.size().height;
    'lines: for y in 0..height {
        lines.advance(&mut sweep, y);
        draw_next(sink, begun, margin, lines.line(&sweep, y))?;
    }
    Ok(())
}

/// Writes all lines with their margin, with line feeds between them.
pub fn draw_lines<S: TextSink>(
    sink: &mut S,
    lines: TableLines<'_, '_, '_>,
    margin: &ColoredMargin,
) -> Result<(), TableError>
    requires { AreSizedLines lines }
    ensures { Writes (S.sent sink.old) result (S.sent sink.new) (join_with_byte 10
        (with_margin margin.now.indent (marks_of margin.now.colors)
        (sheet_of lines.entry).width (sheet_of lines.entry).lines)) }
{
    let ColoredMargin { indent, colors } = *margin;
    let width = lines.size().width;
    let c = indent.top.fill;
    let top = LineContent::Fill(colors.top, c, width);
    let c = indent.bottom.fill;
    let bottom = LineContent::Fill(colors.bottom, c, width);
    let mut begun = false;
    draw_margin(sink, &mut begun, margin, top, indent.top.size)?;
    draw_inner_lines(sink, &mut begun, margin, lines)?;
    draw_margin(sink, &mut begun, margin, bottom, indent.bottom.size)
}
