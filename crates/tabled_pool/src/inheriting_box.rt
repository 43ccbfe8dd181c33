//! What boxes inherit and pass on. No function of a box is inlined, so that the recursive walk has
//! a small stack frame.
ghost use Rattle.std.specs.Prelude.{IfOk, [], map, ◌++◌, ◌∷◌, ◌≡◌};
ghost use Rattle.tabled_base.specs.Content.{content_text};
ghost use Rattle.tabled_pool.specs.Boxes.{CanSplit, Fits, box_along, given_in, pick, sized};
ghost use Rattle.tabled_pool.specs.Inherited.{beside, block_sheet_of, inheriting_box, no_block};
ghost use Rattle.tabled_pool.specs.Inherited.{passed_beside, passed_on, passes_across};
ghost use Rattle.tabled_pool.specs.Inherited.{passes_along, sizes_left, stacked};
ghost use Rattle.tabled_pool.specs.Inherited.{text_passes, to_first, to_last, to_later};
ghost use Rattle.tabled_pool.specs.Inherited.{whole_flags, with_passed};
ghost use Rattle.tabled_pool.specs.Plan.{plan_of};

use crate::bordered_text::add_text;
use crate::drawing::Drawing;
use crate::drawn_block::{DrawnBlock, stacked};
use crate::inherited_sizes::InheritedSizes;
use crate::rectangle::{BoxesLeft, Rectangle, split};
use crate::sizes::{BoxSpacing, Direction, Size};
use crate::tree_walk::Flags;
use std::alloc::{AllocError, Global};
use std::mem;
use tabled_base::Content;

/// A box: what it inherits, and once it is drawn, what it passes on.
#[derive(Drop)]
pub struct InheritingBox {
    pub place: Rectangle,
    pub flags: Flags,
    /// The widths of the boxes above it; once it is drawn, its own for the boxes below it.
    pub above: InheritedSizes,
    /// The heights of the boxes to its left; once it is drawn, its own for the boxes to its right.
    pub before: InheritedSizes,
    /// Its drawn lines.
    pub block: DrawnBlock,
}

/// Boxes of a row or a column: the drawn ones, and the one that is drawn next. In a row, that is
/// drawn at the right of those before it.
#[derive(Drop)]
pub struct DrawnBoxes {
    /// The size that all of them need together.
    pub own: Size,
    /// The drawn ones of a column.
    pub blocks: Vec<DrawnBlock>,
    /// The sizes that the drawn ones pass on together: widths in a row, heights in a column.
    pub sizes: Vec<usize>,
    pub next: InheritingBox,
}

impl InheritingBox {
    /// A box that is alone in its rectangle.
    #[inline(never)]
    pub fn new(alloc: Global, place: Rectangle) -> InheritingBox
        ensures inherited { inheriting_box result
            ≡ record { place = place; flags = whole_flags; above = []; before = [] } }
        ensures block { block_sheet_of result.block ≡ no_block }
    {
        InheritingBox {
            place,
            flags: Flags {
                first_column: true,
                last_column: true,
                first_row: true,
                last_row: true,
                leans: false,
                side: false,
                cross: false,
            },
            above: InheritedSizes::new(alloc),
            before: InheritedSizes::new(alloc),
            block: DrawnBlock::new(alloc),
        }
    }

    /// Draws a text at the right of the block. It passes on its own width and height.
    #[inline(never)]
    pub fn draw_text(
        &mut self,
        drawing: &Drawing<'_, '_>,
        content: &Content<'_>,
    ) -> Result<(), AllocError>
        ensures { IfOk result (λ _. passed_on self.new ≡ passed_beside
            (block_sheet_of self.old.block) (text_passes (plan_of drawing.now)
            (content_text content.now) (inheriting_box self.old))) }
    {
        let none = DrawnBlock::new(drawing.alloc);
        let mut block = mem::replace(&mut self.block, none);
        add_text(&mut block, drawing, self, content)?;
        self.block = block;
        self.above.set(self.place.width)?;
        self.before.set(self.place.height)
    }

    /// The sizes that it inherits or passes on in a direction.
    fn along(&self, direction: Direction) -> &[usize]
        ensures { result.now ≡ pick direction (sizes_left self.now.above)
            (sizes_left self.now.before) }
    {
        match direction {
            Direction::Across => self.above.as_slice(),
            Direction::Down => self.before.as_slice(),
        }
    }

    /// Passes to the first of the boxes that are left, which needs `own`, its part of what they
    /// inherit. Returns what it needs in the direction.
    #[inline(never)]
    pub fn pass_to(
        &mut self,
        direction: Direction,
        first: &mut InheritingBox,
        own: Size,
        spacing: &BoxSpacing,
        left: BoxesLeft,
    ) -> Result<usize, AllocError>
        requires { CanSplit direction spacing.now (sized own) left self.old.place }
        ensures own { IfOk result (λ size. size ≡ box_along direction (sized own)) }
        ensures first { IfOk result (λ _. inheriting_box first.new ≡ to_first direction
            (given_in direction spacing.now (sized own) left self.old.place)
            (inheriting_box self.old)) }
        ensures others { IfOk result (λ _. inheriting_box self.new ≡ to_later direction spacing.now
            (given_in direction spacing.now (sized own) left self.old.place)
            (inheriting_box self.old)
            (pick direction (sizes_left self.new.before) (sizes_left self.new.above))) }
        ensures fits { IfOk result (λ _. Fits (sized own) first.new.place) }
        ensures blocks { (block_sheet_of self.new.block ≡ block_sheet_of self.old.block)
            × (block_sheet_of first.new.block ≡ block_sheet_of first.old.block) }
    {
        let cut = split(direction, own, spacing, left, self.place);
        let Rectangle { width, height, .. } = cut.given.place;
        let given = direction.pick(width, height);
        let met = match direction {
            Direction::Across => {
                mem::swap(&mut first.before, &mut self.before);
                self.above.take(given, &mut first.above)?
            }
            Direction::Down => {
                mem::swap(&mut first.above, &mut self.above);
                self.before.take(given, &mut first.before)?
            }
        };
        first.place = cut.given.place;
        first.flags = self.flags.first(direction, false);
        self.place = cut.rest;
        self.flags = self.flags.later(direction, met);
        Ok(cut.own)
    }

    /// Passes to the last of the boxes what is left.
    #[inline(never)]
    pub fn pass_rest(
        &mut self,
        direction: Direction,
        last: &mut InheritingBox,
    ) -> Result<(), AllocError>
        ensures last { IfOk result (λ _. inheriting_box last.new
            ≡ to_last direction (inheriting_box self.old)) }
        ensures blocks { (block_sheet_of self.new.block ≡ block_sheet_of self.old.block)
            × (block_sheet_of last.new.block ≡ block_sheet_of last.old.block) }
    {
        let size = direction.pick(self.place.width, self.place.height);
        match direction {
            Direction::Across => {
                mem::swap(&mut last.before, &mut self.before);
                self.above.take(size, &mut last.above)?;
            }
            Direction::Down => {
                mem::swap(&mut last.above, &mut self.above);
                self.before.take(size, &mut last.before)?;
            }
        }
        last.place = self.place;
        last.flags = self.flags.first(direction, true);
        Ok(())
    }
}

impl DrawnBoxes {
    /// No drawn boxes yet, of boxes that need `own`. They are on the heap, so that the recursive
    /// walk has a small stack frame.
    #[inline(never)]
    pub fn boxed(alloc: Global, own: Size, place: Rectangle) -> Result<Box<DrawnBoxes>, AllocError>
        ensures own { IfOk result (λ drawn. drawn.value.own ≡ own) }
        ensures next { IfOk result (λ drawn. block_sheet_of drawn.value.next.block ≡ no_block) }
        ensures blocks { IfOk result (λ drawn. drawn.value.blocks.items ≡ []) }
        ensures sizes { IfOk result (λ drawn. drawn.value.sizes.items ≡ []) }
    {
        let drawn = DrawnBoxes {
            own,
            blocks: Vec::new(alloc),
            sizes: Vec::new(alloc),
            next: InheritingBox::new(alloc, place),
        };
        Ok(Box::new(alloc, drawn)?)
    }

    /// Drops boxes that are drawn. Not inlined either: the stack frame of the walk would have all
    /// that is dropped.
    #[inline(never)]
    pub fn finish(boxes: Box<DrawnBoxes>) {
        mem::drop(boxes);
    }

    /// Begins with the block that a row is drawn at the right of.
    #[inline(never)]
    pub fn begin(&mut self, direction: Direction, all: &mut InheritingBox)
        ensures kept { (self.new.blocks.items ≡ self.old.blocks.items)
            × (self.new.sizes.items ≡ self.old.sizes.items) × (self.new.own ≡ self.old.own) }
        ensures next { block_sheet_of self.new.next.block ≡ pick direction
            (block_sheet_of all.old.block) (block_sheet_of self.old.next.block) }
        ensures all { block_sheet_of all.new.block ≡ pick direction
            (block_sheet_of self.old.next.block) (block_sheet_of all.old.block) }
        ensures inherited { inheriting_box all.new ≡ inheriting_box all.old }
    {
        if let Direction::Across = direction {
            mem::swap(&mut self.next.block, &mut all.block);
        }
    }

    /// Adds the drawn box, and passes its sizes in the other direction on to the boxes after it.
    #[inline(never)]
    pub fn add(&mut self, direction: Direction, all: &mut InheritingBox) -> Result<(), AllocError>
        ensures blocks { IfOk result (λ _. map block_sheet_of self.new.blocks.items
            ≡ pick direction (map block_sheet_of self.old.blocks.items)
            (map block_sheet_of self.old.blocks.items
            ++ (block_sheet_of self.old.next.block ∷ []))) }
        ensures next { IfOk result (λ _. block_sheet_of self.new.next.block
            ≡ pick direction (block_sheet_of self.old.next.block) no_block) }
        ensures all { block_sheet_of all.new.block ≡ block_sheet_of all.old.block }
        ensures sizes { IfOk result (λ _. self.new.sizes.items
            ≡ self.old.sizes.items ++ passes_along direction (passed_on self.old.next)) }
        ensures others { IfOk result (λ _. inheriting_box all.new
            ≡ with_passed direction (inheriting_box all.old)
            (passes_across direction (passed_on self.old.next))) }
    {
        self.sizes.extend_from_slice(self.next.along(direction))?;
        match direction {
            Direction::Across => mem::swap(&mut all.before, &mut self.next.before),
            Direction::Down => {
                mem::swap(&mut all.above, &mut self.next.above);
                let none = DrawnBlock::new(*self.sizes.allocator());
                self.blocks.push(mem::replace(&mut self.next.block, none))?;
            }
        }
        Ok(())
    }

    /// Joins the boxes at the right of the block. The sizes of all in their direction pass on, and
    /// in the other one those of the last.
    #[inline(never)]
    pub fn join(&mut self, direction: Direction, all: &mut InheritingBox) -> Result<(), AllocError>
        ensures { IfOk result (λ _. passed_on all.new ≡ record {
          block = pick direction (block_sheet_of self.old.next.block)
              (beside (block_sheet_of all.old.block)
              (stacked (map block_sheet_of self.old.blocks.items)));
          above = pick direction self.old.sizes.items (sizes_left all.old.above);
          before = pick direction (sizes_left all.old.before) self.old.sizes.items;
        }) }
    {
        match direction {
            Direction::Across => {
                mem::swap(&mut all.block, &mut self.next.block);
                all.above.swap(&mut self.sizes);
            }
            Direction::Down => {
                let alloc = *self.sizes.allocator();
                let blocks = mem::replace(&mut self.blocks, Vec::new(alloc));
                all.block.add(stacked(alloc, blocks)?)?;
                all.before.swap(&mut self.sizes);
            }
        }
        Ok(())
    }
}
