//! The character of a border at a position: of a straight line, or of the junction where borders of
//! boxes meet.
ghost use Rattle.std.specs.Prelude.{unwrap_or, ◌+◌, ◌-◌, ◌<◌, ◌==◌, ◌≡◌};
ghost use Rattle.tabled_pool.specs.Drawn.{armed_char, main_of};
ghost use Rattle.tabled_pool.specs.Plan.{has_bottom, has_top, plan_of};

use crate::drawing::Drawing;
use crate::kind::Kind;
use crate::piece::Piece;
use crate::rectangle::Rectangle;
use tabled_config::Borders;

/// Whether there is a top border: any of its characters is set.
pub fn has_top(borders: &Borders<char>) -> bool
    ensures { result ≡ has_top borders.now }
{
    borders.top.is_some()
        || borders.top_left.is_some()
        || borders.top_intersection.is_some()
        || borders.top_right.is_some()
}

/// Whether there is a bottom border: any of its characters is set.
pub fn has_bottom(borders: &Borders<char>) -> bool
    ensures { result ≡ has_bottom borders.now }
{
    borders.bottom.is_some()
        || borders.bottom_left.is_some()
        || borders.bottom_intersection.is_some()
        || borders.bottom_right.is_some()
}

/// Whether `size` columns or lines from `start` on are the last of `whole`.
pub fn ends_at(start: usize, size: usize, whole: usize) -> bool
    ensures { result ≡ (start + size == whole) }
{
    size <= whole && start == whole - size
}

/// The character of a border where no other meets it. The outer right and bottom borders have their
/// own. A text has none.
fn main_of(drawing: &Drawing<'_, '_>, kind: Kind, place: Rectangle) -> Option<char>
    ensures { result ≡ main_of (plan_of drawing.now) kind place }
{
    let borders = &drawing.borders;
    match kind {
        Kind::Leaf => None,
        Kind::Bar => {
            if ends_at(place.x, place.width, drawing.width) && borders.has_right() {
                borders.right
            } else {
                borders.left
            }
        }
        Kind::Rule => {
            if ends_at(place.y, place.height, drawing.height) && has_bottom(borders) {
                borders.bottom
            } else {
                borders.top
            }
        }
    }
}

/// The character of a border where no other meets it. A missing one is a space.
pub fn own_char(drawing: &Drawing<'_, '_>, piece: &Piece<'_>) -> char
    ensures { result ≡ unwrap_or (main_of (plan_of drawing.now) piece.now.kind piece.now.place) 32 }
{
    main_of(drawing, piece.kind, piece.place).unwrap_or(' ')
}

/// On which sides of a position a border is.
#[derive(Clone, Copy)]
pub struct Arms {
    pub left: bool,
    pub right: bool,
    pub up: bool,
    pub down: bool,
}

/// The character of a border at a position: that of a junction if borders are at its left or right
/// and above or below, else that of the border. A missing character is a space.
pub fn border_char(drawing: &Drawing<'_, '_>, piece: &Piece<'_>, arms: Arms) -> char
    ensures { result ≡ armed_char (plan_of drawing.now) piece.now.kind piece.now.place arms.left
        arms.right arms.up arms.down }
{
    let found = if (arms.left || arms.right) && (arms.up || arms.down) {
        let borders = &drawing.borders;
        borders.junction(arms.left, arms.right, arms.up, arms.down)
    } else {
        main_of(drawing, piece.kind, piece.place)
    };
    found.unwrap_or(' ')
}
