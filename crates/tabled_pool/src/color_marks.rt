//! The marks around a border character or a run: a prefix and a suffix of a colour.
ghost use Rattle.std.specs.Prelude.{[], option_map, ℕ, ◌++◌, ◌+◌, ◌-◌, ◌<◌, ◌^◌, ◌≡◌, ◌≤◌};
ghost use Rattle.tabled_line.specs.Fill.{fill};
ghost use Rattle.tabled_line.specs.Sent.{Sent, Writes};
ghost use Rattle.tabled_pool.specs.Around.{across, around_at, around_part, beside, is_last_column};
ghost use Rattle.tabled_pool.specs.Around.{main_around, right_around, run_side, written_corner};
ghost use Rattle.tabled_pool.specs.Boxes.{drawn_part};
ghost use Rattle.tabled_pool.specs.Colours.{alone, begun, coloured, ended, mark_of, nothing_around};
ghost use Rattle.tabled_pool.specs.Colours.{used_after};
ghost use Rattle.tabled_pool.specs.Numbers.{IsEarlier, IsFirst, Skips, SkipsBeside};
ghost use Rattle.tabled_pool.specs.Plan.{around_of, plan_of};

use crate::drawing::Drawing;
use crate::junction::{ends_at, has_bottom, has_top};
use crate::kind::is_line_kind;
use crate::line_runs::Line;
use crate::piece::Piece;
use crate::rectangle::Rectangle;
use crate::sweep::number_at;
use tabled_base::TableError;
use tabled_config::ANSIStr;
use tabled_line::{TextSink, write_fill};

/// The marks around a character.
#[derive(Clone, Copy)]
pub struct Marks {
    /// The suffix of the colour before.
    pub close: &'static str,
    /// The prefix of the character's own colour.
    pub start: &'static str,
    /// The suffix after the character.
    pub behind: &'static str,
}

impl Marks {
    pub fn none() -> Marks
        ensures { around_of result ≡ nothing_around }
    {
        Marks {
            close: "",
            start: "",
            behind: "",
        }
    }
}

/// The colours of the top or the bottom border of a text.
#[derive(Clone, Copy)]
pub struct LineColors {
    pub corner: Option<ANSIStr<'static>>,
    pub main: Option<ANSIStr<'static>>,
    pub right: Option<ANSIStr<'static>>,
}

/// Returns the current colour after a part of a border: the first one that is set.
pub fn used_after(
    used: Option<ANSIStr<'static>>,
    color: Option<ANSIStr<'static>>,
) -> Option<ANSIStr<'static>>
    ensures { option_map mark_of result
        ≡ used_after (option_map mark_of used.entry) (option_map mark_of color.entry) }
{
    used.or(color)
}

/// Returns the marks that start a part in `color`, where `used` is the current colour.
pub fn begun(used: Option<ANSIStr<'static>>, color: Option<ANSIStr<'static>>) -> Marks
    ensures { around_of result ≡ begun (option_map mark_of used.entry)
        (option_map mark_of color.entry) }
{
    let Some(color) = color else {
        return Marks::none();
    };
    if let Some(used) = used
        && used.get_prefix() == color.get_prefix()
        && used.get_suffix() == color.get_suffix()
    {
        return Marks::none();
    }
    Marks {
        close: ended(used),
        start: color.get_prefix(),
        behind: "",
    }
}

pub fn ended(used: Option<ANSIStr<'static>>) -> &'static str
    ensures { result.now ≡ ended (option_map mark_of used.entry) }
{
    match used {
        Some(used) => used.get_suffix(),
        None => "",
    }
}

pub fn alone(color: Option<ANSIStr<'static>>) -> Marks
    ensures { around_of result ≡ alone (option_map mark_of color.entry) }
{
    match color {
        Some(color) => Marks {
            close: "",
            start: color.get_prefix(),
            behind: color.get_suffix(),
        },
        None => Marks::none(),
    }
}

/// Writes `count` copies of a character between the marks of a colour, even if `count` is 0.
pub fn draw_colored_fill<S: TextSink>(
    sink: &mut S,
    color: ANSIStr<'static>,
    c: char,
    count: usize,
) -> Result<(), TableError>
    ensures { Writes (S.sent sink.old) result (S.sent sink.new)
        (coloured (mark_of color.entry) (fill c count)) }
{
    sink.write_text(color.get_prefix())?;
    write_fill(sink, c, count)?;
    sink.write_text(color.get_suffix())
}

/// Where a position is relative to a range of columns or lines.
#[derive(Clone, Copy)]
pub enum RunSide {
    /// Directly before the range.
    Before,
    /// In the range.
    Inside,
    /// Directly after the range.
    Behind,
    /// Anywhere else.
    Outside,
}

fn run_side(start: usize, size: usize, at: usize) -> RunSide
    requires { at < 2 ^ 64 - 1 }
    ensures { result ≡ run_side start size at }
{
    if at + 1 == start {
        return RunSide::Before;
    }
    if at < start || at - start > size {
        return RunSide::Outside;
    }
    if at - start < size {
        RunSide::Inside
    } else {
        RunSide::Behind
    }
}

fn is_last_column(drawing: &Drawing<'_, '_>, place: Rectangle) -> bool
    ensures { result ≡ is_last_column (plan_of drawing.now) place }
{
    drawing.borders.has_right()
        && drawing.width > 0
        && ends_at(place.x, place.width, drawing.width - 1)
}

fn written_corner(
    drawing: &Drawing<'_, '_>,
    corner: Option<ANSIStr<'static>>,
) -> Option<ANSIStr<'static>>
    ensures { option_map mark_of result
        ≡ written_corner (plan_of drawing.now) (option_map mark_of corner.entry) }
{
    if drawing.borders.has_left() {
        corner
    } else {
        None
    }
}

fn main_around(drawing: &Drawing<'_, '_>, line: LineColors, place: Rectangle, x: usize) -> Marks
    requires { x < 2 ^ 64 - 1 }
    ensures { around_of result ≡ main_around (plan_of drawing.now) (option_map mark_of line.corner)
        (option_map mark_of line.main) place x }
{
    let corner = written_corner(drawing, line.corner);
    let first = if x == place.x {
        begun(corner, line.main)
    } else {
        Marks::none()
    };
    let behind = if !is_last_column(drawing, place) && ends_at(place.x, place.width, x + 1) {
        ended(used_after(corner, line.main))
    } else {
        ""
    };
    Marks { behind, ..first }
}

fn right_around(drawing: &Drawing<'_, '_>, line: LineColors) -> Marks
    ensures { around_of result ≡ right_around (plan_of drawing.now) (option_map mark_of line.corner)
        (option_map mark_of line.main) (option_map mark_of line.right) }
{
    let used = used_after(written_corner(drawing, line.corner), line.main);
    let behind = ended(used_after(used, line.right));
    Marks {
        behind,
        ..begun(used, line.right)
    }
}

fn across(drawing: &Drawing<'_, '_>, line: LineColors, place: Rectangle, x: usize) -> Option<Marks>
    requires { x < 2 ^ 64 - 1 }
    ensures { option_map around_of result
        ≡ across (plan_of drawing.now) (option_map mark_of line.corner)
        (option_map mark_of line.main) (option_map mark_of line.right) place
        (run_side place.x place.width x) x }
{
    match run_side(place.x, place.width, x) {
        RunSide::Before if drawing.borders.has_left() => Some(begun(None, line.corner)),
        RunSide::Inside => Some(main_around(drawing, line, place, x)),
        RunSide::Behind if is_last_column(drawing, place) => Some(right_around(drawing, line)),
        _ => None,
    }
}

fn beside(drawing: &Drawing<'_, '_>, place: Rectangle, x: usize) -> Option<Marks>
    requires { x < 2 ^ 64 - 1 }
    ensures { option_map around_of result
        ≡ beside (plan_of drawing.now) place (run_side place.x place.width x) }
{
    match run_side(place.x, place.width, x) {
        RunSide::Before if drawing.borders.has_left() => Some(alone(drawing.colors.left)),
        RunSide::Behind if is_last_column(drawing, place) => Some(alone(drawing.colors.right)),
        _ => None,
    }
}

/// The marks that a piece puts around a position, if it is a text that draws the border there.
fn around_piece(drawing: &Drawing<'_, '_>, piece: &Piece<'_>, x: usize, y: usize) -> Option<Marks>
    requires across { x < 2 ^ 64 - 1 }
    requires down { y < 2 ^ 64 - 1 }
    ensures { option_map around_of result
        ≡ around_part (plan_of drawing.now) (drawn_part piece.now) x y }
{
    if is_line_kind(piece.kind) {
        return None;
    }
    let place = piece.place;
    let colors = &drawing.colors;
    let top = LineColors {
        corner: colors.top_left,
        main: colors.top,
        right: colors.top_right,
    };
    let bottom = LineColors {
        corner: colors.bottom_left,
        main: colors.bottom,
        right: colors.bottom_right,
    };
    match run_side(place.y, place.height, y) {
        RunSide::Before if has_top(&drawing.borders) => across(drawing, top, place, x),
        RunSide::Inside => beside(drawing, place, x),
        RunSide::Behind
            if has_bottom(&drawing.borders)
                && drawing.height > 0
                && ends_at(place.y, place.height, drawing.height - 1) => {
            across(drawing, bottom, place, x)
        }
        _ => None,
    }
}

/// The first piece, of those looked at, that draws the border at column `x` of a line.
#[derive(Clone, Copy)]
pub struct First {
    x: usize,
    /// Its number, or that of pieces if none draws the border.
    number: usize,
    marks: Marks,
}

impl First {
    /// Looks at the piece at a position, too.
    fn or_at(self, line: &Line<'_, '_, '_, '_>, numbers: &[u32], x: usize, y: usize) -> First
        requires { IsFirst (plan_of line.now.drawing.now) line.now.y self }
        ensures earlier { IsEarlier (plan_of line.now.drawing.now) line.now.y self result }
        ensures skips { Skips (plan_of line.now.drawing.now) self.x line.now.y result.number x y }
    {
        let Some(number) = number_at(line.drawing, numbers, x, y) else {
            return self;
        };
        if number >= self.number {
            return self;
        }
        match around_piece(line.drawing, &line.drawing.pieces[number], self.x, line.y) {
            Some(marks) => First {
                number,
                marks,
                ..self
            },
            None => self,
        }
    }

    /// Looks at the pieces of line `y` at the column and on both sides of it, too.
    fn or_beside(self, line: &Line<'_, '_, '_, '_>, numbers: &[u32], y: usize) -> First
        requires { IsFirst (plan_of line.now.drawing.now) line.now.y self }
        ensures earlier { IsEarlier (plan_of line.now.drawing.now) line.now.y self result }
        ensures skips { SkipsBeside (plan_of line.now.drawing.now) line.now.y self result y }
    {
        let x = self.x;
        let left = self.or_at(line, numbers, x.saturating_sub(1), y);
        let here = left.or_at(line, numbers, x, y);
        here.or_at(line, numbers, x + 1, y)
    }
}

/// The marks around a border character at column `x` of a line.
pub fn marks_at(line: &Line<'_, '_, '_, '_>, x: usize) -> Marks
    requires { x < line.now.drawing.now.width }
    ensures { around_of result ≡ around_at (plan_of line.now.drawing.now)
        (plan_of line.now.drawing.now).parts x line.now.y }
{
    let sweep = line.sweep;
    let above = if line.y == 0 {
        sweep.here.as_slice()
    } else {
        sweep.above.as_slice()
    };
    let none = First {
        x,
        number: line.drawing.pieces.len(),
        marks: Marks::none(),
    };
    let first = none.or_beside(line, above, line.y.saturating_sub(1));
    let first = first.or_beside(line, sweep.here.as_slice(), line.y);
    let first = first.or_beside(line, sweep.below.as_slice(), line.y + 1);
    first.marks
}
