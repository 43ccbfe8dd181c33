//! `Rectangle`, and how one of several boxes is split after the first.
ghost use Rattle.std.specs.Prelude.{[], ◌+◌, ◌<◌, ◌^◌, ◌≡◌, ◌≤◌};
ghost use Rattle.tabled_pool.specs.Boxes.{CanSplit, Fits, behind_border, border_kind, border_part};
ghost use Rattle.tabled_pool.specs.Boxes.{box_along, first_part, given_in, part_of, place_along};
ghost use Rattle.tabled_pool.specs.Boxes.{rest_part, share, sized};

use crate::sizes::{BoxSpacing, Direction, Size};
use tabled_size::DimensionPriority;

/// A rectangle of a drawing, in columns from the left and lines from the top.
#[derive(Clone, Copy)]
pub struct Rectangle {
    /// The columns to its left.
    pub x: usize,
    /// The lines above it.
    pub y: usize,
    /// Its width in columns.
    pub width: usize,
    /// Its height in lines.
    pub height: usize,
}

impl Rectangle {
    /// Returns the first columns, or the first lines.
    pub fn first_part(self, direction: Direction, size: usize) -> Rectangle
        ensures { result ≡ first_part direction size self }
    {
        let Rectangle { x, y, .. } = self;
        Rectangle {
            x,
            y,
            width: direction.pick(size, self.width),
            height: direction.pick(self.height, size),
        }
    }

    /// Returns what is behind the first columns, or below the first lines.
    pub fn rest_part(self, direction: Direction, size: usize) -> Rectangle
        requires within { size ≤ place_along direction self }
        requires right { self.x + self.width < 2 ^ 64 }
        requires low { self.y + self.height < 2 ^ 64 }
        ensures { result ≡ rest_part direction size self }
    {
        match direction {
            Direction::Across => Rectangle {
                x: self.x + size,
                width: self.width - size,
                ..self
            },
            Direction::Down => Rectangle {
                y: self.y + size,
                height: self.height - size,
                ..self
            },
        }
    }
}

/// What the first of `count` boxes gets of a surplus of columns or lines.
#[tactic(auto, using(crate::proofs::Directions::share_within))]
fn share(priority: DimensionPriority, surplus: usize, count: usize) -> usize
    requires { 0 < count }
    ensures value { result ≡ share priority surplus count }
    ensures within { result ≤ surplus }
{
    match priority {
        DimensionPriority::First => surplus,
        DimensionPriority::Last => 0,
        DimensionPriority::List => surplus.div_ceil(count),
    }
}

/// The boxes of a row or a column that are still to be placed.
#[derive(Clone, Copy)]
pub struct BoxesLeft {
    /// The size in the direction that they and the borders between them need.
    pub size: usize,
    /// How many they are.
    pub count: usize,
}

/// A box that is placed: the size that it needs, and the rectangle that it is given.
#[derive(Clone, Copy)]
pub struct BoxPlace {
    pub own: Size,
    pub place: Rectangle,
}

/// A rectangle of several boxes, split after the first.
#[derive(Clone, Copy)]
pub struct SplitPlace {
    /// The width or height that the first box needs.
    pub own: usize,
    /// The first box.
    pub given: BoxPlace,
    /// The rectangle of the border after it.
    pub line: Rectangle,
    /// The rectangle of the other boxes.
    pub rest: Rectangle,
}

/// Splits a rectangle of boxes after the first, which needs `size`.
pub fn split(
    direction: Direction,
    size: Size,
    spacing: &BoxSpacing,
    left: BoxesLeft,
    place: Rectangle,
) -> SplitPlace
    requires { CanSplit direction spacing.now (sized size) left place }
    ensures own { result.own ≡ box_along direction (sized size) }
    ensures size { result.given.own ≡ size }
    ensures given { result.given.place ≡ first_part direction
        (given_in direction spacing.now (sized size) left place) place }
    ensures line { part_of (border_kind direction) result.line []
        ≡ border_part direction spacing.now (given_in direction spacing.now (sized size) left place)
        place }
    ensures rest { result.rest ≡ behind_border direction spacing.now
        (given_in direction spacing.now (sized size) left place) place }
    ensures fits { Fits (sized size) result.given.place }
{
    let own = direction.pick(size.width, size.height);
    let surplus = direction.pick(place.width, place.height) - left.size;
    let priority = direction.pick(spacing.across, spacing.down);
    let given = own + share(priority, surplus, left.count);
    let border = direction.pick(spacing.bar, spacing.rule);
    let behind = place.rest_part(direction, given);
    let first = BoxPlace {
        own: size,
        place: place.first_part(direction, given),
    };
    SplitPlace {
        own,
        given: first,
        line: behind.first_part(direction, border),
        rest: behind.rest_part(direction, border),
    }
}
