//! The runs of a line of a drawing: columns of one text, or of equal border characters.
ghost use Rattle.std.proofs.Props.{props};
ghost use Rattle.std.specs.Prelude.{Some, map, option_map, true, ℕ, ◌+◌, ◌-◌, ◌<◌, ◌==◌, ◌≡◌, ◌≤◌};
ghost use Rattle.std.specs.Prelude.{IfSome, MatchOption, ◌⊎◌};
ghost use Rattle.tabled_base.specs.Content.{content_text};
ghost use Rattle.tabled_pool.specs.Boxes.{Part, is_border, is_border_above, is_line, is_line_kind};
ghost use Rattle.tabled_pool.specs.Boxes.{owner};
ghost use Rattle.tabled_pool.specs.Boxes.{drawn_part};
ghost use Rattle.tabled_pool.specs.Drawn.{IsAt, RunsFrom};
ghost use Rattle.tabled_pool.specs.Numbers.{AreSized};
ghost use Rattle.tabled_pool.specs.Plan.{plan_of};
ghost use Rattle.tabled_pool.specs.TallTexts.{AreTall, IsIn, IsInLine};

use crate::drawing::Drawing;
use crate::junction::{Arms, border_char, own_char};
use crate::kind::{Kind, is_line_kind};
use crate::piece::{NOT_KNOWN, Piece};
use crate::sweep::{Sweep, number_at, piece_at};
use crate::tall_texts::{BoxText, TallText};

#[derive(Clone, Copy)]
pub struct Line<'l, 's, 'd, 'a> {
    pub drawing: &'l Drawing<'d, 'a>,
    pub sweep: &'s Sweep<'a>,
    pub y: usize,
    ghost inside: { y < drawing.now.height },
    ghost sized: { AreSized (map drawn_part drawing.now.pieces.now) },
    ghost tall: { AreTall (plan_of drawing.now) y sweep.now.texts } by { Prim.hlevel props },
}

/// Columns of a line that belong to one piece and, if that is a border, have the same character.
#[derive(Clone, Copy)]
pub struct Run<'d, 'a> {
    pub piece: &'d Piece<'a>,
    /// The character of a border.
    pub c: char,
    /// The number of columns.
    pub count: usize,
}

/// A column of a line, and what is known there.
#[derive(Clone, Copy)]
pub struct Cursor<'d, 'a> {
    pub x: usize,
    /// The piece there, if the line doesn't end.
    pub piece: Option<&'d Piece<'a>>,
    /// Whether there is a border before it.
    left: bool,
    /// The borders above it and after, or a stretch that ends before it.
    up: Stretch,
    /// The borders below it and after, or a stretch that ends before it.
    down: Stretch,
}

/// Whether there are borders at a column and those after it, and where that ends.
#[derive(Clone, Copy)]
pub struct Stretch {
    border: bool,
    end: usize,
}

/// The borders of line `y` at a column and after: those that were seen, if they reach so far.
/// Inlined, since most calls return `seen`.
#[inline(always)]
fn stretch_at(drawing: &Drawing<'_, '_>, seen: Stretch, line: &[u32], x: usize, y: usize) -> Stretch
    requires inside { x < drawing.now.width }
    requires known { (v : ℕ) → x ≤ v → v < seen.end
        → is_border (plan_of drawing.now).parts v y ≡ seen.border }
    ensures some { x < result.end }
    ensures same { (v : ℕ) → x ≤ v → v < result.end
        → is_border (plan_of drawing.now).parts v y ≡ result.border }
{
    if x < seen.end {
        return seen;
    }
    match piece_at(drawing, line, x, y) {
        Some(piece) => Stretch {
            border: is_line_kind(piece.kind),
            end: piece.place.x + piece.place.width,
        },
        None => Stretch {
            border: false,
            end: drawing.width,
        },
    }
}

/// The end of the columns from `x` to `end` at which a border has the same arms to its sides, where
/// there is one before column `x` if `left`, and one at `end` if `behind`.
fn run_end(x: usize, end: usize, left: bool, behind: bool) -> usize
    requires { x < end }
    ensures some { x < result }
    ensures within { result ≤ end }
    ensures begun { (left ≡ true) ⊎ (result ≡ x + 1) }
    ensures ended { (result < end) ⊎ ((behind ≡ true) ⊎ (result ≡ x + 1)) }
{
    if !left {
        return x + 1;
    }
    if behind || end == x + 1 {
        return end;
    }
    end - 1
}

impl<'l, 's, 'd, 'a> Line<'l, 's, 'd, 'a> {
    /// The first column.
    pub fn start(&self) -> Cursor<'d, 'a>
        ensures first { result.x ≡ 0 }
        ensures at { IsAt (plan_of self.now.drawing.now) self.now.y result }
    {
        let unknown = Stretch {
            border: false,
            end: 0,
        };
        Cursor {
            x: 0,
            piece: piece_at(self.drawing, self.sweep.here.as_slice(), 0, self.y),
            left: false,
            up: unknown,
            down: unknown,
        }
    }

    fn above(&self, at: &Cursor<'d, 'a>) -> Stretch
        requires inside { at.now.x < self.now.drawing.now.width }
        requires at { IsAt (plan_of self.now.drawing.now) self.now.y at.now }
        ensures some { at.now.x < result.end }
        ensures same { (v : ℕ) → at.now.x ≤ v → v < result.end
            → is_border_above (plan_of self.now.drawing.now).parts v self.now.y ≡ result.border }
    {
        if self.y == 0 {
            return Stretch {
                border: false,
                end: self.drawing.width,
            };
        }
        let line = self.sweep.above.as_slice();
        stretch_at(self.drawing, at.up, line, at.x, self.y - 1)
    }

    /// The run of a vertical border of one column that has no border at its left or right: its
    /// character is the same whatever is above and below. Returns `None` at any other border, and
    /// leaves the cursor as it is.
    fn lone_run(&self, piece: &'d Piece<'a>, at: &mut Cursor<'d, 'a>) -> Option<Run<'d, 'a>>
        requires at { IsAt (plan_of self.now.drawing.now) self.now.y at.old }
        requires here { owner (plan_of self.now.drawing.now).parts at.old.x self.now.y
            ≡ Some (drawn_part piece.now) }
        requires kind { is_line_kind piece.now.kind ≡ true }
        ensures { MatchOption result (at.new ≡ at.old)
            (λ run. RunsFrom (plan_of self.now.drawing.now) self.now.y at.old run at.new) }
    {
        let Kind::Bar = piece.kind else {
            return None;
        };
        let end = piece.place.x + piece.place.width;
        if at.left || end > at.x + 1 {
            return None;
        }
        let next = piece_at(self.drawing, self.sweep.here.as_slice(), end, self.y);
        if next.is_some_and(|next| is_line_kind(next.kind)) {
            return None;
        }
        at.x = end;
        at.piece = next;
        at.left = true;
        Some(Run {
            piece,
            c: own_char(self.drawing, piece),
            count: 1,
        })
    }

    /// The run of a border: as long as the same pieces are above and below, and borders are on
    /// both sides.
    fn border_run(&self, piece: &'d Piece<'a>, at: &mut Cursor<'d, 'a>) -> Run<'d, 'a>
        requires at { IsAt (plan_of self.now.drawing.now) self.now.y at.old }
        requires kind { is_line_kind piece.now.kind ≡ true }
        requires here { owner (plan_of self.now.drawing.now).parts at.old.x self.now.y
            ≡ Some (drawn_part piece.now) }
        ensures { RunsFrom (plan_of self.now.drawing.now) self.now.y at.old result at.new }
    {
        let up = self.above(at);
        let line = self.sweep.below.as_slice();
        let down = stretch_at(self.drawing, at.down, line, at.x, self.y + 1);
        let own = piece.place.x + piece.place.width;
        let end = own.min(up.end).min(down.end);
        let behind = if end < own {
            Some(piece)
        } else {
            piece_at(self.drawing, self.sweep.here.as_slice(), end, self.y)
        };
        let border = behind.is_some_and(|piece| is_line_kind(piece.kind));
        let last = run_end(at.x, end, at.left, border);
        let next = if last < end { Some(piece) } else { behind };
        let followed = last < end || border;
        let arms = Arms {
            left: at.left,
            right: followed,
            up: up.border,
            down: down.border,
        };
        let run = Run {
            piece,
            c: border_char(self.drawing, piece, arms),
            count: last - at.x,
        };
        *at = Cursor {
            x: last,
            piece: next,
            left: true,
            up,
            down,
        };
        run
    }

    /// Looks for a text of several lines in the sweep. Not inlined, since most texts have one line.
    #[inline(never)]
    fn find_tall(&self, x: usize) -> Option<&'s TallText<'a>>
        ensures { (p : Part) → owner (plan_of self.now.drawing.now).parts x self.now.y ≡ Some p
            → IfSome result (λ tall. IsIn self.now.drawing.now.style p self.now.y tall.now) }
    {
        let number = number_at(self.drawing, self.sweep.here.as_slice(), x, self.y)?;
        self.sweep.texts.get(number, x)
    }

    /// Returns the text of a piece that begins in column `x`. If it has several lines, its cursor
    /// comes with it, unless there was no memory for that.
    #[inline(always)]
    pub fn text(&self, piece: &Piece<'a>, x: usize) -> BoxText<'s, 'a>
        requires { owner (plan_of self.now.drawing.now).parts x self.now.y ≡ Some (drawn_part piece.now) }
        ensures text { content_text result.content ≡ (drawn_part piece.now).text }
        ensures cursor { IsInLine self.now.drawing.now.style piece.now.place
            (self.now.y - piece.now.place.y) result }
    {
        if piece.columns == NOT_KNOWN
            && let Some(tall) = self.find_tall(x)
        {
            return BoxText {
                content: tall.content,
                cursor: Some(&tall.cursor),
            };
        }
        BoxText {
            content: piece.content(),
            cursor: None,
        }
    }

    /// The run at a cursor, where `piece` is. The cursor goes to the column after it.
    pub fn next_run(&self, piece: &'d Piece<'a>, at: &mut Cursor<'d, 'a>) -> Run<'d, 'a>
        requires at { IsAt (plan_of self.now.drawing.now) self.now.y at.old }
        requires here { owner (plan_of self.now.drawing.now).parts at.old.x self.now.y
            ≡ Some (drawn_part piece.now) }
        ensures { RunsFrom (plan_of self.now.drawing.now) self.now.y at.old result at.new }
    {
        if is_line_kind(piece.kind) {
            if let Some(run) = self.lone_run(piece, at) {
                return run;
            }
            return self.border_run(piece, at);
        }
        let x = at.x;
        let end = piece.place.x + piece.place.width;
        at.x = end;
        at.piece = piece_at(self.drawing, self.sweep.here.as_slice(), end, self.y);
        at.left = false;
        Run {
            piece,
            c: ' ',
            count: end - x,
        }
    }
}
