//! The lines of one text with the borders that it draws.
ghost use Rattle.std.specs.Prelude.{IfOk, MatchOption, None, [], if◌then◌else◌, length, map, option_map};
ghost use Rattle.std.specs.Prelude.{slice_index_or, slice_set, string_bytes, unwrap_or, ◌++◌, ◌+◌, ◌-◌, ◌<◌, ◌^◌};
ghost use Rattle.std.specs.Prelude.{◌≡◌, ◌≤◌};
ghost use Rattle.tabled_base.specs.Content.{content_text};
ghost use Rattle.tabled_pool.specs.Colours.{mark_of, within_marks};
ghost use Rattle.tabled_pool.specs.Inherited.{beside, block_sheet_of, bordered_block, bottom_text};
ghost use Rattle.tabled_pool.specs.Inherited.{IsInText, inherited_by, inheriting_box, inner_text};
ghost use Rattle.tabled_pool.specs.Inherited.{is_left, is_right, is_top, marked_text, outer_line};
ghost use Rattle.tabled_pool.specs.Inherited.{plan_for, run_text, text_block, top_text, written};
ghost use Rattle.tabled_pool.specs.Plan.{around_of, plan_of};
ghost use Rattle.tabled_priority.specs.Sums.{one_if};

use crate::color_marks::{LineColors, Marks, alone, begun, ended, used_after};
use crate::draw::{draw_block_line, draw_marked, write_mark};
use crate::drawing::Drawing;
use crate::drawn_block::DrawnBlock;
use crate::inherited_sizes::is_split;
use crate::inheriting_box::InheritingBox;
use crate::pool_table::one_if;
use crate::tall_texts::{BoxText, text_start};
use crate::tree_walk::{own_borders, own_sides};
use std::alloc::AllocError;
use tabled_base::Content;
use tabled_config::Borders;
use tabled_line::{Cursor, write_fill};

/// Appends the character of a border, if that is there. A missing character is a space.
fn add_char(line: &mut String, marks: Marks, there: bool, c: Option<char>) -> Result<(), AllocError>
    ensures { IfOk result (λ _. string_bytes line.new
        ≡ string_bytes line.old ++ marked_text (around_of marks) (written there c)) }
{
    if there {
        draw_marked(line, marks, c.unwrap_or(' ')).map_err(|_| AllocError)?;
    }
    Ok(())
}

/// A horizontal border of `width` columns, with `split` where vertical ones meet it.
#[derive(Clone, Copy)]
struct BorderRun<'s> {
    sizes: &'s [usize],
    width: usize,
    split: Option<char>,
    main: Option<char>,
}

impl BorderRun<'_> {
    /// Appends the run: as many copies of `main` as each size, and `split` after each but the last.
    fn add_to(&self, line: &mut String) -> Result<(), AllocError>
        ensures { IfOk result (λ _. string_bytes line.new ≡ string_bytes line.old
            ++ run_text self.now.sizes.now self.now.width self.now.split self.now.main) }
    {
        let main = self.main.unwrap_or(' ');
        let split = self.split.unwrap_or(' ');
        let mut left = self.width;
        let mut rest = self.width;
        for entry in self.sizes {
            if *entry >= left || *entry >= rest {
                break;
            }
            write_fill(line, main, *entry).map_err(|_| AllocError)?;
            line.push(split)?;
            left -= *entry;
            rest = rest - *entry - 1;
        }
        write_fill(line, main, rest).map_err(|_| AllocError)
    }
}

/// The border above or below a text.
#[derive(Clone, Copy)]
struct OuterLine<'s> {
    colors: LineColors,
    /// The corners at its start and its end.
    start: Option<char>,
    end: Option<char>,
    run: BorderRun<'s>,
}

/// Appends a horizontal border with its marks.
fn add_run(line: &mut String, marks: Marks, run: &BorderRun<'_>) -> Result<(), AllocError>
    ensures { IfOk result (λ _. string_bytes line.new ≡ string_bytes line.old
        ++ within_marks (around_of marks)
        (run_text run.now.sizes.now run.now.width run.now.split run.now.main)) }
{
    write_mark(line, marks.close).map_err(|_| AllocError)?;
    write_mark(line, marks.start).map_err(|_| AllocError)?;
    run.add_to(line)?;
    write_mark(line, marks.behind).map_err(|_| AllocError)
}

/// A text and the borders that it draws.
#[derive(Clone, Copy)]
pub struct BorderedText<'r, 'd, 'a> {
    drawing: &'r Drawing<'d, 'a>,
    own: Borders<char>,
    inherited: &'r InheritingBox,
    content: &'r Content<'r>,
}

impl<'r> BorderedText<'r, '_, '_> {
    /// Appends the border above or below the text: a corner, a run, a corner, each with its colour.
    fn add_outer(&self, line: &mut String, outer: &OuterLine<'_>) -> Result<(), AllocError>
        ensures { IfOk result (λ _. string_bytes line.new ≡ string_bytes line.old
            ++ outer_line (option_map mark_of outer.now.colors.corner)
            (option_map mark_of outer.now.colors.main) (option_map mark_of outer.now.colors.right)
            (written (is_left self.now.own) outer.now.start)
            (run_text outer.now.run.sizes.now outer.now.run.width outer.now.run.split outer.now.run.main)
            (written (is_right self.now.own) outer.now.end)) }
    {
        let OuterLine { colors, run, .. } = outer;
        let sides = own_sides(&self.own);
        let first = if sides.left { colors.corner } else { None };
        let used = used_after(first, colors.main);
        let last = if sides.right { colors.right } else { None };
        add_char(line, begun(None, colors.corner), sides.left, outer.start)?;
        add_run(line, begun(first, colors.main), run)?;
        add_char(line, begun(used, colors.right), sides.right, outer.end)?;
        write_mark(line, ended(used_after(used, last))).map_err(|_| AllocError)
    }

    fn add_top(&self, line: &mut String) -> Result<(), AllocError>
        ensures { IfOk result (λ _. string_bytes line.new ≡ string_bytes line.old
            ++ top_text (plan_for self.now) self.now.own (inherited_by self.now)) }
    {
        let drawing = self.drawing;
        let run = BorderRun {
            sizes: self.inherited.above.as_slice(),
            width: self.inherited.place.width,
            split: drawing.borders.bottom_intersection,
            main: self.own.top,
        };
        let colors = LineColors {
            corner: drawing.colors.top_left,
            main: drawing.colors.top,
            right: drawing.colors.top_right,
        };
        let outer = OuterLine {
            colors,
            start: self.own.top_left,
            run,
            end: self.own.top_right,
        };
        self.add_outer(line, &outer)
    }

    fn add_bottom(&self, line: &mut String) -> Result<(), AllocError>
        ensures { IfOk result (λ _. string_bytes line.new ≡ string_bytes line.old
            ++ bottom_text (plan_for self.now) self.now.own (inherited_by self.now)) }
    {
        let drawing = self.drawing;
        let run = BorderRun {
            sizes: &[],
            width: self.inherited.place.width,
            split: None,
            main: self.own.bottom,
        };
        let colors = LineColors {
            corner: drawing.colors.bottom_left,
            main: drawing.colors.bottom,
            right: drawing.colors.bottom_right,
        };
        let outer = OuterLine {
            colors,
            start: self.own.bottom_left,
            run,
            end: self.own.bottom_right,
        };
        self.add_outer(line, &outer)
    }

    fn add_inner(&self, line: &mut String, cursor: &Cursor<'_>, y: usize) -> Result<(), AllocError>
        requires inside { y < self.now.inherited.now.place.height }
        requires cursor { IsInText self.now y cursor.now }
        ensures { IfOk result (λ _. string_bytes line.new ≡ string_bytes line.old
            ++ inner_text (plan_for self.now) self.now.own (inherited_by self.now)
            (content_text self.now.content.now) y) }
    {
        let drawing = self.drawing;
        let own = &self.own;
        let place = self.inherited.place;
        let sides = own_sides(own);
        let first = if is_split(self.inherited.before.as_slice(), place.height, y) {
            drawing.borders.right_intersection
        } else {
            own.left
        };
        let colors = &drawing.colors;
        add_char(line, alone(colors.left), sides.left, first)?;
        let text = BoxText {
            content: *self.content,
            cursor: Some(cursor),
        };
        draw_block_line(line, drawing, place, &text, y).map_err(|_| AllocError)?;
        add_char(line, alone(colors.right), sides.right, own.right)
    }

    /// How many lines its block has.
    fn count_lines(&self) -> Option<usize>
        ensures { MatchOption result (2 ^ 64 ≤ length (bordered_block (plan_for self.now)
            self.now.own (inherited_by self.now) (content_text self.now.content.now)).lines)
            (λ n. n ≡ length (bordered_block (plan_for self.now) self.now.own
            (inherited_by self.now) (content_text self.now.content.now)).lines) }
    {
        let sides = own_sides(&self.own);
        let borders = one_if(sides.top) + one_if(sides.bottom);
        self.inherited.place.height.checked_add(borders)
    }

    /// How wide its block is.
    fn width(&self) -> Option<usize>
        ensures { MatchOption result (2 ^ 64 ≤ (bordered_block (plan_for self.now)
            self.now.own (inherited_by self.now) (content_text self.now.content.now)).width)
            (λ n. n ≡ (bordered_block (plan_for self.now) self.now.own
            (inherited_by self.now) (content_text self.now.content.now)).width) }
    {
        let sides = own_sides(&self.own);
        let borders = one_if(sides.left) + one_if(sides.right);
        self.inherited.place.width.checked_add(borders)
    }

    /// Whether a horizontal border is above the text: 1, else 0.
    fn top(&self) -> usize
        ensures { result ≡ one_if (is_top self.now.own) }
    {
        one_if(own_sides(&self.own).top)
    }

    /// Returns a cursor in its text, in the first line of its rectangle.
    fn cursor(&self) -> Cursor<'r>
        ensures { IsInText self.now 0 result }
    {
        let start = text_start(&self.drawing.style, self.inherited.place, self.content);
        Cursor::new(self.content, start)
    }

    /// Moves the cursor from line `y` of its block to the next line.
    fn move_cursor(&self, cursor: &mut Cursor<'_>, y: usize)
        ensures { IsInText self.now (y - one_if (is_top self.now.own)) cursor.old
            → IsInText self.now (y + 1 - one_if (is_top self.now.own)) cursor.new }
    {
        if y >= self.top() {
            cursor.advance();
        }
    }

    /// Appends a line of its block.
    fn append_line(
        &self,
        line: &mut String,
        cursor: &Cursor<'_>,
        y: usize,
    ) -> Result<(), AllocError>
        requires there { y < length (bordered_block (plan_for self.now) self.now.own
            (inherited_by self.now) (content_text self.now.content.now)).lines }
        requires cursor { IsInText self.now (y - one_if (is_top self.now.own)) cursor.now }
        ensures { IfOk result (λ _. string_bytes line.new ≡ string_bytes line.old
            ++ slice_index_or (bordered_block (plan_for self.now) self.now.own
            (inherited_by self.now) (content_text self.now.content.now)).lines y []) }
    {
        let top = self.top();
        if y < top {
            return self.add_top(line);
        }
        let row = y - top;
        if row < self.inherited.place.height {
            return self.add_inner(line, cursor, row);
        }
        self.add_bottom(line)
    }

    /// Appends a line of its block to line `y` of another one.
    fn add_line(
        &self,
        block: &mut DrawnBlock,
        cursor: &Cursor<'_>,
        y: usize,
    ) -> Result<(), AllocError>
        requires there { y < length block.old.lines.items }
        requires own { y < length (bordered_block (plan_for self.now) self.now.own
            (inherited_by self.now) (content_text self.now.content.now)).lines }
        requires cursor { IsInText self.now (y - one_if (is_top self.now.own)) cursor.now }
        ensures width { block.new.width ≡ block.old.width }
        ensures lines { IfOk result (λ _. map string_bytes block.new.lines.items
            ≡ slice_set (map string_bytes block.old.lines.items) y
            (slice_index_or (map string_bytes block.old.lines.items) y []
            ++ slice_index_or (bordered_block (plan_for self.now) self.now.own
            (inherited_by self.now) (content_text self.now.content.now)).lines y [])) }
    {
        self.append_line(&mut block.lines[y], cursor, y)
    }

    /// Appends its block at the right of another one.
    fn add_to(&self, block: &mut DrawnBlock) -> Result<(), AllocError>
        ensures { IfOk result (λ _. block_sheet_of block.new ≡ beside (block_sheet_of block.old)
            (bordered_block (plan_for self.now) self.now.own (inherited_by self.now)
            (content_text self.now.content.now))) }
    {
        let (Some(width), Some(own)) = (self.width(), self.count_lines()) else {
            return Err(AllocError);
        };
        let mut cursor = self.cursor();
        for y in 0..own.max(block.lines.len()) {
            block.begin_line(y)?;
            if y < own {
                self.add_line(block, &cursor, y)?;
            } else {
                block.add_spaces(y, width)?;
            }
            self.move_cursor(&mut cursor, y);
        }
        block.widen(width)
    }
}

/// Appends the block of a text at the right of another one. A zero-width text is one empty line.
pub fn add_text(
    block: &mut DrawnBlock,
    drawing: &Drawing<'_, '_>,
    inherited: &InheritingBox,
    content: &Content<'_>,
) -> Result<(), AllocError>
    ensures { IfOk result (λ _. block_sheet_of block.new ≡ beside (block_sheet_of block.old)
        (text_block (plan_of drawing.now) (inheriting_box inherited.now)
        (content_text content.now))) }
{
    if inherited.place.width == 0 {
        return block.begin_line(0);
    }
    let text = BorderedText {
        drawing,
        own: own_borders(&drawing.borders, inherited.flags),
        inherited,
        content,
    };
    text.add_to(block)
}
