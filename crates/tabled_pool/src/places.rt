//! Where boxes are placed: the rectangles of texts, of the borders between boxes, and of those
//! around a tree.
ghost use Rattle.std.specs.Prelude.{IfOk, Some, [], length, map, vec_len, ◌++◌, ◌+◌, ◌<◌, ◌^◌};
ghost use Rattle.std.specs.Prelude.{◌∷◌, ◌≡◌};
ghost use Rattle.tabled_base.specs.Content.{content_text};
ghost use Rattle.tabled_pool.specs.Boxes.{Fits, IsSize, border_kind, box_of, framed, leaf_box};
ghost use Rattle.tabled_pool.specs.Boxes.{list_box, part_of, drawn_part};
ghost use Rattle.tabled_pool.specs.PieceText.{own_text};
ghost use Rattle.tabled_pool.specs.Sizes.{EndsWith, sizes_of_all, sizes_within};
ghost use Rattle.tabled_pool.specs.declared.kind.Kind.TheVariants.{Leaf};

use crate::kind::Kind;
use crate::piece::{NOT_KNOWN, own_text};
use crate::piece_list::PieceList;
use crate::rectangle::{BoxPlace, BoxesLeft, Rectangle, split};
use crate::sizes::{BoxSpacing, Direction, Size};
use crate::tree::{BoxList, TableValue};
use std::alloc::AllocError;
use tabled_base::Content;
use tabled_config::Sides;

/// The pieces of the boxes that are placed, and the sizes of those that are not yet.
#[derive(Drop)]
pub struct Placer<'a> {
    pub list: PieceList<'a>,
    /// The last size is that of the box to be placed next.
    pub sizes: Vec<Size>,
}

/// Returns the text of a box that needs `own`, with its measures.
#[inline(always)]
pub fn leaf_content<'a>(text: &'a str, own: Size, spacing: &BoxSpacing) -> Content<'a>
    requires { IsSize (Some own) (leaf_box spacing.now text.now) }
    ensures { content_text result ≡ text.now }
{
    let padding = &spacing.padding;
    let columns = own.width - padding.left.size - padding.right.size;
    let lines = own.height - padding.top.size - padding.bottom.size;
    Content::measured(text, columns, lines)
}

/// Adds the text of a value: its own, or none if it is a list.
fn place_text<'a>(
    value: &'a TableValue,
    spacing: &BoxSpacing,
    whole: &BoxPlace,
    list: &mut PieceList<'a>,
) -> Result<(), AllocError>
    requires { IsSize (Some whole.now.own) (leaf_box spacing.now (own_text value.now)) }
    ensures { IfOk result (λ _. map drawn_part list.new.pieces.items ≡ map drawn_part list.old.pieces.items
        ++ (part_of Leaf whole.now.place (own_text value.now) ∷ [])) }
{
    let content = leaf_content(own_text(value), whole.own, spacing);
    let columns = match u16::try_from(content.columns) {
        Ok(columns) if content.lines == 1 => columns,
        _ => NOT_KNOWN,
    };
    list.add(Kind::Leaf, columns, whole.place, value)
}

/// Adds a border.
fn place_border<'a>(
    direction: Direction,
    place: Rectangle,
    value: &'a TableValue,
    list: &mut PieceList<'a>,
) -> Result<(), AllocError>
    ensures { IfOk result (λ _. map drawn_part list.new.pieces.items ≡ map drawn_part list.old.pieces.items
        ++ (part_of (border_kind direction) place [] ∷ [])) }
{
    match direction {
        Direction::Across => list.add(Kind::Bar, 0, place, value),
        Direction::Down => list.add(Kind::Rule, 0, place, value),
    }
}

/// Takes the size of the next box.
pub fn take_size(sizes: &mut Vec<Size>) -> Size
    requires { 0 < vec_len sizes.old }
    ensures { sizes.old.items ≡ sizes.new.items ++ (result ∷ []) }
{
    let Some(size) = sizes.pop() else {
        unreachable!()
    };
    size
}

#[cycle(places)]
#[tactic(auto, using(crate::proofs::Steps::left_first, crate::proofs::Steps::left_all, crate::proofs::Steps::left_count, crate::proofs::NodeSums::nodes_in_push, crate::proofs::NodeSums::nodes_in_at))]
fn place_list<'a>(
    boxes: BoxList<'a>,
    value: &'a TableValue,
    spacing: &BoxSpacing,
    whole: &BoxPlace,
    placer: &mut Placer<'a>,
) -> Result<(), AllocError>
    requires list { own_text value.now ≡ [] }
    requires sizes { EndsWith placer.old.sizes.items (sizes_of_all spacing.now boxes.children.now) }
    requires own { IsSize (Some whole.now.own)
        (list_box boxes.direction spacing.now (map (box_of spacing.now) boxes.children.now)) }
    requires fits { Fits (list_box boxes.direction spacing.now (map (box_of spacing.now) boxes.children.now))
        whole.now.place }
    ensures pieces { IfOk result (λ _. map drawn_part placer.new.list.pieces.items
        ≡ map drawn_part placer.old.list.pieces.items
        ++ (list_box boxes.entry.direction spacing.now (map (box_of spacing.now) boxes.entry.children.now)).parts
        whole.now.place) }
    ensures sizes { IfOk result (λ _. placer.old.sizes.items
        ≡ placer.new.sizes.items ++ sizes_of_all spacing.now boxes.entry.children.now) }
{
    let BoxList {
        direction,
        children,
    } = boxes;
    let Some((last, front)) = children.split_last() else {
        return place_text(value, spacing, whole, &mut placer.list);
    };
    let border = direction.pick(spacing.bar, spacing.rule);
    let size = direction.pick(whole.own.width, whole.own.height);
    let count = children.len();
    let mut left = BoxesLeft { size, count };
    let mut place = whole.place;
    for child in front {
        let own = take_size(&mut placer.sizes);
        let cut = split(direction, own, spacing, left, place);
        // A copy, so that the stack frame has no more of `cut`.
        let given = cut.given;
        place_value(child, spacing, &given, placer)?;
        place_border(direction, cut.line, value, &mut placer.list)?;
        left.size -= cut.own + border;
        left.count -= 1;
        place = cut.rest;
    }
    let own = take_size(&mut placer.sizes);
    let given = BoxPlace { own, place };
    place_value(last, spacing, &given, placer)
}

/// Adds the texts of a tree and the borders between its boxes. Recurses at each level of several
/// boxes.
#[cycle(places)]
#[tactic(auto, using(crate::proofs::Steps::left_first, crate::proofs::Steps::left_all, crate::proofs::Steps::left_count, crate::proofs::NodeSums::nodes_in_push, crate::proofs::NodeSums::nodes_in_at))]
pub fn place_value<'a>(
    value: &'a TableValue,
    spacing: &BoxSpacing,
    whole: &BoxPlace,
    placer: &mut Placer<'a>,
) -> Result<(), AllocError>
    requires sizes { EndsWith placer.old.sizes.items (sizes_within spacing.now value.now) }
    requires own { IsSize (Some whole.now.own) (box_of spacing.now value.now) }
    requires fits { Fits (box_of spacing.now value.now) whole.now.place }
    ensures pieces { IfOk result (λ _. map drawn_part placer.new.list.pieces.items
        ≡ map drawn_part placer.old.list.pieces.items
        ++ (box_of spacing.now value.now).parts whole.now.place) }
    ensures sizes { IfOk result (λ _. placer.old.sizes.items
        ≡ placer.new.sizes.items ++ sizes_within spacing.now value.now) }
{
    let inner = value.inner();
    match inner {
        TableValue::Cell(_) => place_text(inner, spacing, whole, &mut placer.list),
        TableValue::Row(children) => {
            let boxes = BoxList {
                direction: Direction::Across,
                children: children.as_slice(),
            };
            place_list(boxes, inner, spacing, whole, placer)
        }
        TableValue::Column(children) => {
            let boxes = BoxList {
                direction: Direction::Down,
                children: children.as_slice(),
            };
            place_list(boxes, inner, spacing, whole, placer)
        }
    }
}

/// Adds the texts and borders of a tree and the borders around it, in a rectangle of their size.
/// `frame` is the thickness of each outer border, in columns or lines. Recurses at each level of
/// several boxes.
#[tactic(auto, unfolding(crate::specs::Boxes::framed))]
pub fn place_tree<'a>(
    value: &'a TableValue,
    spacing: &BoxSpacing,
    frame: &Sides<usize>,
    whole: Rectangle,
    placer: &mut Placer<'a>,
) -> Result<(), AllocError>
    requires sizes { EndsWith placer.old.sizes.items (sizes_within spacing.now value.now) }
    requires wide { whole.width
        ≡ frame.now.left + (box_of spacing.now value.now).width + frame.now.right }
    requires tall { whole.height
        ≡ frame.now.top + (box_of spacing.now value.now).height + frame.now.bottom }
    requires right { whole.x + whole.width < 2 ^ 64 }
    requires low { whole.y + whole.height < 2 ^ 64 }
    ensures { IfOk result (λ _. map drawn_part placer.new.list.pieces.items
        ≡ map drawn_part placer.old.list.pieces.items
        ++ framed (frame.now) (box_of spacing.now value.now) whole) }
{
    let rest = whole.rest_part(Direction::Across, frame.left);
    let width = rest.width - frame.right;
    let middle = rest.first_part(Direction::Across, width);
    let below = middle.rest_part(Direction::Down, frame.top);
    let height = below.height - frame.bottom;
    let left = whole.first_part(Direction::Across, frame.left);
    let right = rest.rest_part(Direction::Across, width);
    let top = middle.first_part(Direction::Down, frame.top);
    let place = below.first_part(Direction::Down, height);
    let own = Size { width, height };
    let bottom = below.rest_part(Direction::Down, height);
    place_border(Direction::Across, left, value, &mut placer.list)?;
    place_border(Direction::Across, right, value, &mut placer.list)?;
    place_border(Direction::Down, top, value, &mut placer.list)?;
    place_border(Direction::Down, bottom, value, &mut placer.list)?;
    place_value(value, spacing, &BoxPlace { own, place }, placer)?;
    Ok(())
}
