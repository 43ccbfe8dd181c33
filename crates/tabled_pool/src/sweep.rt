//! `Sweep`: where to look first for the pieces on a line and on the lines next to it; and the piece
//! at a position.
ghost use Rattle.std.specs.Prelude.{map, option_map, true, ◌+◌, ◌-◌, ◌<◌, ◌≡◌, ◌≤◌};
ghost use Rattle.tabled_pool.specs.Boxes.{contains, owner, drawn_part, within};
ghost use Rattle.tabled_pool.specs.Numbers.{IsNumber};
ghost use Rattle.tabled_pool.specs.Plan.{plan_of};
ghost use Rattle.tabled_pool.specs.TallTexts.{AreTall};

use crate::drawing::Drawing;
use crate::piece::Piece;
use crate::piece_list::{NO_PIECE, no_pieces};
use crate::rectangle::Rectangle;
use crate::tall_texts::TallTexts;
use std::alloc::Global;
use std::mem;

/// Where to look for pieces: numbers of which no contract says that they are right. Who uses one
/// looks whether the piece is there. A list is too short if an allocation failed.
#[derive(Drop)]
pub struct Sweep<'a> {
    /// The pieces on three lines, by column.
    pub above: Vec<u32>,
    pub here: Vec<u32>,
    pub below: Vec<u32>,
    /// The texts of several lines.
    pub texts: TallTexts<'a>,
}

/// Sets the number of the piece in the columns of a rectangle.
fn mark(line: &mut [u32], place: Rectangle, number: u32) {
    let end = place.x.saturating_add(place.width).min(line.len());
    if place.x < end {
        line[place.x..end].fill(number);
    }
}

impl<'a> Sweep<'a> {
    /// A sweep over no pieces.
    pub fn empty(alloc: Global) -> Sweep<'a> {
        Sweep {
            above: Vec::new(alloc),
            here: Vec::new(alloc),
            below: Vec::new(alloc),
            texts: TallTexts::new(alloc),
        }
    }

    /// A sweep above the first line. Its texts are in the first line already.
    pub fn new(drawing: &Drawing<'_, 'a>) -> Sweep<'a>
        ensures { AreTall (plan_of drawing.now) 0 result.texts }
    {
        let mut sweep = Sweep {
            above: Vec::new(drawing.alloc),
            here: no_pieces(drawing.alloc, drawing.width),
            below: no_pieces(drawing.alloc, drawing.width),
            texts: TallTexts::new(drawing.alloc),
        };
        sweep.mark_line(drawing, 0, 0);
        sweep
    }

    /// Sets the pieces that begin on line `below`, which is the line below. The texts are in line
    /// `y`.
    fn mark_line(&mut self, drawing: &Drawing<'_, 'a>, below: usize, y: usize)
        ensures { AreTall (plan_of drawing.now) y self.old.texts
            → AreTall (plan_of drawing.now) y self.new.texts }
    {
        let mut number = drawing.begins.get(below).copied().unwrap_or(NO_PIECE);
        'pieces: while let Some(piece) = drawing.pieces.get(number as usize) {
            mark(self.below.as_mut_slice(), piece.place, number);
            self.texts.begin(drawing, number as usize, y);
            if piece.earlier >= number {
                return;
            }
            number = piece.earlier;
        }
    }

    /// Goes on to line `y`, from the line before it.
    pub fn advance(&mut self, drawing: &Drawing<'_, 'a>, y: usize)
        ensures { AreTall (plan_of drawing.now) (y - 1) self.old.texts
            → AreTall (plan_of drawing.now) y self.new.texts }
    {
        self.texts.advance(y);
        mem::swap(&mut self.above, &mut self.here);
        mem::swap(&mut self.here, &mut self.below);
        self.below.clear();
        if self.below.extend_from_slice(self.here.as_slice()).is_ok() {
            self.mark_line(drawing, y.saturating_add(1), y);
        }
    }
}

#[tactic(auto, using(crate::proofs::Contains::contains_left, crate::proofs::Contains::contains_right, crate::proofs::Contains::contains_above, crate::proofs::Contains::contains_last,))]
fn contains(place: Rectangle, x: usize, y: usize) -> bool
    ensures value { result ≡ contains place x y }
    ensures lines { result ≡ true → (place.y ≤ y) × (y < place.y + place.height) }
{
    if x < place.x || y < place.y {
        return false;
    }
    x - place.x < place.width && y - place.y < place.height
}

/// Returns the number of the first piece of a list that contains a position.
fn find(pieces: &[Piece<'_>], x: usize, y: usize) -> Option<usize>
    ensures { IsNumber pieces.now x y result }
{
    for number in 0..pieces.len() {
        if contains(pieces[number].place, x, y) {
            return Some(number);
        }
    }
    None
}

/// Returns the number of the piece at a position. It is seldom called, and not inlined, since its
/// loop would take the registers of its callers.
#[inline(never)]
fn search(drawing: &Drawing<'_, '_>, x: usize, y: usize) -> Option<usize>
    ensures { IsNumber drawing.now.pieces.now x y result }
{
    if x >= drawing.width {
        return None;
    }
    if y >= drawing.height {
        return None;
    }
    find(drawing.pieces, x, y)
}

/// Returns the number of the piece at a position: the one that `line` has for the column, if it is
/// there, else the one that a search finds. Inlined, since drawing a line calls it for each run and
/// for what is above and below.
#[inline(always)]
pub fn number_at(drawing: &Drawing<'_, '_>, line: &[u32], x: usize, y: usize) -> Option<usize>
    ensures { IsNumber drawing.now.pieces.now x y result }
{
    if let Some(number) = line.get(x)
        && let Some(piece) = drawing.pieces.get(*number as usize)
        && contains(piece.place, x, y)
    {
        return Some(*number as usize);
    }
    search(drawing, x, y)
}

/// Returns the piece at a position, which `number_at` finds.
#[inline(always)]
pub fn piece_at<'d, 'a>(
    drawing: &Drawing<'d, 'a>,
    line: &[u32],
    x: usize,
    y: usize,
) -> Option<&'d Piece<'a>>
    ensures { option_map (λ p. drawn_part p.now) result ≡ owner (map drawn_part drawing.now.pieces.now) x y }
{
    let number = number_at(drawing, line, x, y)?;
    Some(&drawing.pieces[number])
}
