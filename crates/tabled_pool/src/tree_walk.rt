//! The walk over a tree that is drawn box by box, and where a box is in it.
ghost use Rattle.std.specs.Prelude.{IfOk, None, Some, [], if◌then◌else◌, length, map, string_bytes};
ghost use Rattle.std.specs.Prelude.{◌++◌, ◌+◌, ◌<◌, ◌^◌, ◌∷◌, ◌≡◌, ◌≤◌};
ghost use Rattle.tabled_pool.specs.Boxes.{Fits, IsSize, box_of, list_box, drawn_part};
ghost use Rattle.tabled_pool.specs.Inherited.{block_sheet_of, drawer, first_flags, has_zero_width};
ghost use Rattle.tabled_pool.specs.Inherited.{inherited_block, inheriting_box, is_bottom, is_left};
ghost use Rattle.tabled_pool.specs.Inherited.{is_right, is_top, later_flags, list_drawer};
ghost use Rattle.tabled_pool.specs.Inherited.{no_block, own_borders, passed_beside, passed_on};
ghost use Rattle.tabled_pool.specs.Inherited.{top_left};
ghost use Rattle.tabled_pool.specs.Plan.{plan_of};
ghost use Rattle.tabled_pool.specs.Sizes.{EndsWith, measured, sizes_in, sizes_within};

use crate::drawing::Drawing;
use crate::drawn_block::DrawnBlock;
use crate::inheriting_box::{DrawnBoxes, InheritingBox};
use crate::kind::is_line_kind;
use crate::piece::Piece;
use crate::places::{leaf_content, take_size};
use crate::rectangle::{BoxesLeft, Rectangle};
use crate::sizes::{Direction, Size, SizeList, measure};
use crate::tree::{BoxList, TableValue};
use std::alloc::AllocError;
use tabled_base::Content;
use tabled_config::{Borders, Sides};

/// Where a box is in its tree, and which borders meet at its top left corner.
#[derive(Clone, Copy)]
pub struct Flags {
    /// Nothing is to its left.
    pub first_column: bool,
    /// Nothing is to its right.
    pub last_column: bool,
    /// Nothing is above it.
    pub first_row: bool,
    /// Nothing is below it.
    pub last_row: bool,
    /// A box is to its left, and it is the first box of each column inside its innermost row.
    pub leans: bool,
    /// A box is above it in a column, and it is at the left edge of that column.
    pub side: bool,
    /// A border between the boxes above, or between those to the left, ends at its top left corner.
    pub cross: bool,
}

impl Flags {
    /// The flags of the first of several boxes; `last` if no other follows.
    pub fn first(self, direction: Direction, last: bool) -> Flags
        ensures { result ≡ first_flags direction self last }
    {
        match direction {
            Direction::Across => Flags {
                last_column: self.last_column && last,
                leans: !self.first_column,
                ..self
            },
            Direction::Down => Flags {
                last_row: self.last_row && last,
                ..self
            },
        }
    }

    /// The flags of the boxes after the first one; `met` if an inherited border ends at their
    /// corner.
    pub fn later(self, direction: Direction, met: bool) -> Flags
        ensures { result ≡ later_flags direction self met }
    {
        match direction {
            Direction::Across => Flags {
                first_column: false,
                side: false,
                cross: met,
                ..self
            },
            Direction::Down => Flags {
                first_row: false,
                leans: false,
                side: true,
                cross: met,
                ..self
            },
        }
    }
}

fn top_left(borders: &Borders<char>, flags: Flags) -> Option<char>
    ensures { result ≡ top_left borders.now flags }
{
    if flags.cross {
        borders.intersection
    } else if flags.side {
        borders.left_intersection
    } else if flags.leans {
        borders.top_intersection
    } else if flags.first_column && !flags.first_row {
        borders.left_intersection
    } else {
        borders.top_left
    }
}

fn either(first: bool, c: Option<char>, d: Option<char>) -> Option<char>
    ensures { result ≡ (if first then c else d) }
{
    if first { c } else { d }
}

/// The borders of a text. One that it doesn't draw has no character.
pub fn own_borders(borders: &Borders<char>, flags: Flags) -> Borders<char>
    ensures { result ≡ own_borders borders.now flags }
{
    let right = borders.right_intersection;
    let bottom = borders.bottom_intersection;
    let top_right = either(flags.first_row, borders.top_right, right);
    let bottom_left = either(flags.first_column, borders.bottom_left, bottom);
    let is_last = flags.last_row && flags.last_column;
    Borders {
        top_left: top_left(borders, flags),
        top_right: either(flags.last_column, top_right, None),
        right: either(flags.last_column, borders.right, None),
        bottom_left: either(flags.last_row, bottom_left, None),
        bottom: either(flags.last_row, borders.bottom, None),
        bottom_right: either(is_last, borders.bottom_right, None),
        ..*borders
    }
}

/// Which borders a text has: those whose character, or that of a corner, is set.
pub fn own_sides(own: &Borders<char>) -> Sides<bool>
    ensures left { result.left ≡ is_left own.now }
    ensures right { result.right ≡ is_right own.now }
    ensures top { result.top ≡ is_top own.now }
    ensures bottom { result.bottom ≡ is_bottom own.now }
{
    let top_left = own.top_left.is_some();
    let top_right = own.top_right.is_some();
    let bottom_left = own.bottom_left.is_some();
    let bottom_right = own.bottom_right.is_some();
    Sides {
        left: own.left.is_some() || top_left || bottom_left,
        right: own.right.is_some() || top_right || bottom_right,
        top: own.top.is_some() || top_left || top_right,
        bottom: own.bottom.is_some() || bottom_left || bottom_right,
    }
}

pub fn has_zero_width(pieces: &[Piece<'_>]) -> bool
    ensures { result ≡ has_zero_width (map drawn_part pieces.now) }
{
    for piece in pieces {
        if !is_line_kind(piece.kind) && piece.place.width == 0 {
            return true;
        }
    }
    false
}

/// Takes the size of the last box of a list, which has those in `front` before it. If these are
/// none, its size is that of the list.
fn take_last_size(front: &[TableValue], own: Size, sizes: &mut Vec<Size>) -> Size
    requires { 0 < length front.now → 0 < length sizes.old.items }
    ensures only { length front.now ≡ 0 → (result ≡ own) × (sizes.new.items ≡ sizes.old.items) }
    ensures other { 0 < length front.now → sizes.old.items ≡ sizes.new.items ++ (result ∷ []) }
{
    if front.is_empty() {
        return own;
    }
    take_size(sizes)
}

#[cycle(draws)]
#[inline(never)]
#[tactic(auto, using(crate::proofs::Steps::left_first, crate::proofs::Steps::left_all, crate::proofs::Steps::left_count, crate::proofs::NodeSums::nodes_in_push, crate::proofs::NodeSums::nodes_in_at))]
fn draw_list(
    boxes: BoxList<'_>,
    drawing: &Drawing<'_, '_>,
    sizes: &mut Vec<Size>,
    inherited: &mut InheritingBox,
    drawn: &mut DrawnBoxes,
) -> Result<(), AllocError>
    requires next { block_sheet_of drawn.old.next.block ≡ no_block }
    requires blocks { drawn.old.blocks.items ≡ [] }
    requires drawn_sizes { drawn.old.sizes.items ≡ [] }
    requires sizes { EndsWith sizes.old.items
        (sizes_in (map (measured drawing.now.spacing) boxes.children.now)) }
    requires own { IsSize (Some drawn.old.own) (list_box boxes.direction drawing.now.spacing
        (map (box_of drawing.now.spacing) boxes.children.now)) }
    requires fits { Fits (list_box boxes.direction drawing.now.spacing
        (map (box_of drawing.now.spacing) boxes.children.now)) inherited.old.place }
    ensures passed { IfOk result (λ _. passed_on inherited.new
        ≡ passed_beside (block_sheet_of inherited.old.block)
        ((list_drawer boxes.entry.direction (plan_of drawing.now) drawing.now.spacing
        (map (drawer (plan_of drawing.now) drawing.now.spacing) boxes.entry.children.now)).draw
        (inheriting_box inherited.old))) }
    ensures sizes { IfOk result (λ _. sizes.old.items ≡ sizes.new.items
        ++ sizes_in (map (measured drawing.now.spacing) boxes.entry.children.now)) }
{
    let spacing = &drawing.spacing;
    let BoxList {
        direction,
        children,
    } = boxes;
    let Some((last, front)) = children.split_last() else {
        return inherited.draw_text(drawing, &Content::new(""));
    };
    let all = drawn.own;
    let border = direction.pick(spacing.bar, spacing.rule);
    let size = direction.pick(all.width, all.height);
    let count = children.len();
    let mut left = BoxesLeft { size, count };
    drawn.begin(direction, inherited);
    for child in front {
        let own = take_size(sizes);
        let needed = inherited.pass_to(direction, &mut drawn.next, own, spacing, left)?;
        draw_value(child, own, drawing, sizes, &mut drawn.next)?;
        drawn.add(direction, inherited)?;
        left.size -= needed + border;
        left.count -= 1;
    }
    let own = take_last_size(front, all, sizes);
    inherited.pass_rest(direction, &mut drawn.next)?;
    draw_value(last, own, drawing, sizes, &mut drawn.next)?;
    drawn.add(direction, inherited)?;
    drawn.join(direction, inherited)
}

/// Draws a box that needs `own`, at the right of the block that it inherits. Takes the sizes of the
/// boxes in it. Recurses at each level.
#[cycle(draws)]
#[inline(never)]
#[tactic(auto, using(crate::proofs::Steps::left_first, crate::proofs::Steps::left_all, crate::proofs::Steps::left_count, crate::proofs::NodeSums::nodes_in_push, crate::proofs::NodeSums::nodes_in_at))]
fn draw_value(
    value: &TableValue,
    own: Size,
    drawing: &Drawing<'_, '_>,
    sizes: &mut Vec<Size>,
    inherited: &mut InheritingBox,
) -> Result<(), AllocError>
    requires sizes { EndsWith sizes.old.items (sizes_within drawing.now.spacing value.now) }
    requires own { IsSize (Some own) (box_of drawing.now.spacing value.now) }
    requires fits { Fits (box_of drawing.now.spacing value.now) inherited.old.place }
    ensures passed { IfOk result (λ _. passed_on inherited.new
        ≡ passed_beside (block_sheet_of inherited.old.block)
        ((drawer (plan_of drawing.now) drawing.now.spacing value.now).draw
        (inheriting_box inherited.old))) }
    ensures sizes { IfOk result (λ _. sizes.old.items ≡ sizes.new.items
        ++ sizes_within drawing.now.spacing value.now) }
{
    match value {
        TableValue::Cell(text) => {
            let content = leaf_content(text.as_str(), own, &drawing.spacing);
            inherited.draw_text(drawing, &content)
        }
        TableValue::Row(children) => {
            let mut drawn = DrawnBoxes::boxed(drawing.alloc, own, inherited.place)?;
            let boxes = BoxList {
                direction: Direction::Across,
                children: children.as_slice(),
            };
            let result = draw_list(boxes, drawing, sizes, inherited, &mut drawn);
            DrawnBoxes::finish(drawn);
            result
        }
        TableValue::Column(children) => {
            let mut drawn = DrawnBoxes::boxed(drawing.alloc, own, inherited.place)?;
            let boxes = BoxList {
                direction: Direction::Down,
                children: children.as_slice(),
            };
            let result = draw_list(boxes, drawing, sizes, inherited, &mut drawn);
            DrawnBoxes::finish(drawn);
            result
        }
    }
}

/// Draws a tree in a rectangle of the size that it needs.
#[tactic(auto, unfolding(crate::specs::Inherited::inherited_block))]
pub fn draw_tree(value: &TableValue, drawing: &Drawing<'_, '_>) -> Result<DrawnBlock, AllocError>
    requires wide { (box_of drawing.now.spacing value.now).width ≤ drawing.now.width }
    requires tall { (box_of drawing.now.spacing value.now).height ≤ drawing.now.height }
    ensures { IfOk result (λ block. block_sheet_of block
        ≡ inherited_block (plan_of drawing.now) drawing.now.spacing value.now) }
{
    let mut measured = SizeList::new(value);
    let Some(own) = measure(value, &drawing.spacing, &mut measured) else {
        unreachable!()
    };
    let mut sizes = measured.all()?;
    let Size { width, height } = own;
    let place = Rectangle {
        x: 0,
        y: 0,
        width,
        height,
    };
    let mut whole = InheritingBox::new(drawing.alloc, place);
    draw_value(value, own, drawing, &mut sizes, &mut whole)?;
    Ok(whole.block)
}
