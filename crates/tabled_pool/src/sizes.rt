//! The sizes that boxes need; `SizeList`, those of a tree; and `BoxSpacing`, on which they depend.
ghost use Rattle.std.specs.Prelude.{IfOk, IfSome, MatchOption, [], false, map, true, ◌+◌, ◌^◌};
ghost use Rattle.std.specs.Prelude.{◌∷◌, ◌≡◌, ◌≤◌};
ghost use Rattle.tabled_pool.specs.Boxes.{IsSize, box_of, joined_box, leaf_box, list_box, pick};
ghost use Rattle.tabled_pool.specs.Boxes.{sized};
ghost use Rattle.tabled_pool.specs.Sizes.{AreAdded, sizes_of_all, sizes_within};

use crate::tree::TableValue;
use std::alloc::{AllocError, Global};
use tabled_config::{Indent, Sides};
use tabled_size::DimensionPriority;
use tabled_text::text_measures;

/// The padding of texts, the borders between boxes, and which boxes take a surplus.
#[derive(Clone, Copy)]
pub struct BoxSpacing {
    /// The padding of each text.
    pub padding: Sides<Indent>,
    /// The width of the border between boxes side by side, in columns.
    pub bar: usize,
    /// The height of the border between boxes below each other, in lines.
    pub rule: usize,
    /// Which of the boxes side by side take surplus columns.
    pub across: DimensionPriority,
    /// Which of the boxes below each other take surplus lines.
    pub down: DimensionPriority,
}

/// A width and a height.
#[derive(Clone, Copy)]
pub struct Size {
    /// In columns.
    pub width: usize,
    /// In lines.
    pub height: usize,
}

/// An empty list with capacity for `count` items, or without any if that can't be allocated.
pub fn empty_list<T>(alloc: Global, count: usize) -> Vec<T>
    ensures { result.items ≡ [] }
{
    Vec::with_capacity(alloc, count).unwrap_or_else(|_| Vec::new(alloc))
}

/// The sizes of the boxes in a tree, so that each text is measured once. The last size is that of
/// the box to be placed first.
#[derive(Drop)]
pub struct SizeList {
    pub sizes: Vec<Size>,
    /// Whether no size is missing. After an allocation failure, no more sizes are stored: `Range`
    /// comes before `Memory`, so measuring goes on.
    pub is_complete: bool,
}

impl SizeList {
    /// An empty list for the boxes in a tree. It has capacity for two levels, since a list that
    /// grows is copied: that of many rows takes megabytes.
    pub fn new(value: &TableValue) -> SizeList
        ensures { result.sizes.items ≡ [] }
    {
        let alloc = value.allocator();
        SizeList {
            sizes: empty_list(alloc, value.count_two_levels()),
            is_complete: true,
        }
    }

    fn add(&mut self, size: Size)
        ensures { AreAdded self.old self.new (size ∷ []) }
    {
        if self.is_complete {
            self.is_complete = self.sizes.push(size).is_ok();
        }
    }

    /// Returns the sizes. Fails if one is missing.
    pub fn all(self) -> Result<Vec<Size>, AllocError>
        ensures complete { IfOk result (λ _. self.is_complete ≡ true) }
        ensures sizes { IfOk result (λ sizes. sizes.items ≡ self.sizes.items) }
    {
        if self.is_complete {
            Ok(self.sizes)
        } else {
            Err(AllocError)
        }
    }
}

/// Whether boxes are side by side or below each other.
#[derive(Clone, Copy)]
pub enum Direction {
    /// Side by side, from the left.
    Across,
    /// Below each other, from the top.
    Down,
}

impl Direction {
    /// Returns the first value for boxes side by side, else the second.
    pub fn pick<T: Copy>(self, across: T, down: T) -> T
        ensures { result ≡ pick self across down }
    {
        match self {
            Direction::Across => across,
            Direction::Down => down,
        }
    }
}

pub fn sum(first: usize, second: usize, third: usize) -> Option<usize>
    ensures { MatchOption result (2 ^ 64 ≤ first + second + third)
        (λ all. all ≡ first + second + third) }
{
    first.checked_add(second)?.checked_add(third)
}

fn leaf_size(text: &str, spacing: &BoxSpacing) -> Option<Size>
    ensures { IsSize result (leaf_box spacing.now text.now) }
{
    let (columns, lines) = text_measures(text);
    let padding = spacing.padding;
    let width = sum(columns, padding.left.size, padding.right.size)?;
    let height = sum(lines, padding.top.size, padding.bottom.size)?;
    Some(Size { width, height })
}

/// The size that two boxes need with the border between them, if it fits in `usize`.
fn joined_size(direction: Direction, spacing: &BoxSpacing, first: Size, other: Size) -> Option<Size>
    ensures { IsSize result (joined_box direction spacing.now 2 (sized first) (sized other)) }
{
    match direction {
        Direction::Across => {
            let width = sum(first.width, spacing.bar, other.width)?;
            let height = first.height.max(other.height);
            Some(Size { width, height })
        }
        Direction::Down => {
            let height = sum(first.height, spacing.rule, other.height)?;
            let width = first.width.max(other.width);
            Some(Size { width, height })
        }
    }
}

/// Returns the size that boxes in a direction need, if it fits in `usize`, and adds their sizes and
/// those of the boxes in them. The last box comes first, since placing takes sizes from the end.
#[cycle(sizes)]
#[tactic(auto, using(crate::proofs::NodeSums::nodes_in_push))]
fn measure_list(
    direction: Direction,
    children: &[TableValue],
    spacing: &BoxSpacing,
    list: &mut SizeList,
) -> Option<Size>
    ensures size { IsSize result (list_box direction spacing.now
        (map (box_of spacing.now) children.now)) }
    ensures list { IfSome result (λ _. AreAdded list.old list.new
        (sizes_of_all spacing.now children.now)) }
{
    let Some((last, front)) = children.split_last() else {
        return leaf_size("", spacing);
    };
    let mut all = measure(last, spacing, list)?;
    list.add(all);
    let mut left = front;
    'children: while let Some((child, before)) = left.split_last() {
        let own = measure(child, spacing, list)?;
        list.add(own);
        all = joined_size(direction, spacing, own, all)?;
        left = before;
    }
    Some(all)
}

/// Returns the size that a box needs, if it fits in `usize`, and adds the sizes of the boxes in it.
/// Recurses at each level of several boxes.
#[cycle(sizes)]
#[tactic(auto, using(crate::proofs::NodeSums::nodes_in_push))]
pub fn measure(value: &TableValue, spacing: &BoxSpacing, list: &mut SizeList) -> Option<Size>
    ensures size { IsSize result (box_of spacing.now value.now) }
    ensures list { IfSome result (λ _. AreAdded list.old list.new
        (sizes_within spacing.now value.now)) }
{
    match value.inner() {
        TableValue::Cell(text) => leaf_size(text.as_str(), spacing),
        TableValue::Row(children) => {
            measure_list(Direction::Across, children.as_slice(), spacing, list)
        }
        TableValue::Column(children) => {
            measure_list(Direction::Down, children.as_slice(), spacing, list)
        }
    }
}
