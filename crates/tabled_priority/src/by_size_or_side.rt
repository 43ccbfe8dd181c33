//! The priorities without a state: they choose a size by the sizes alone.
ghost use Rattle.std.specs.Prelude.{◌≡◌, ◌+◌, ◌<◌, ◌^◌, true, false, sum};
ghost use Rattle.tabled_priority.specs.declared.choice.Choice.TheVariants.{Outermost, Greatest};
ghost use Rattle.tabled_priority.specs.declared.choice.Choice.TheVariants.{Least};
ghost use Rattle.tabled_priority.specs.Changes.{Grows, Shrinks};
ghost use Rattle.tabled_priority.specs.Choices.{grows_by, peaks_by, shrinks_by};
ghost use Rattle.tabled_priority.specs.Grown.{IsMaxGrown, IsMinGrown, IsSideGrown};
ghost use Rattle.tabled_priority.specs.Laws.Choices.{grows_by-none, grows_by-nothing};
ghost use Rattle.tabled_priority.specs.Laws.Choices.{grows_by-step, shrinks_by-done};
ghost use Rattle.tabled_priority.specs.Laws.Choices.{shrinks_by-none, shrinks_by-step};
ghost use Rattle.tabled_priority.specs.Laws.Choices.{shrinks_by-takes};
ghost use Rattle.tabled_priority.specs.Least.{HasGreatestLeast, HasLeastGreatest, IsLevel};
ghost use Rattle.tabled_priority.specs.Permitted.{HasOneBetween};
ghost use Rattle.tabled_priority.specs.Shrunk.{IsMaxShrunk, IsMinShrunk, IsSideShrunk};

use crate::choice::Choice;
use crate::column_changes::{Steps, change_columns};
use crate::in_order::{shrink_from, shrink_smallest};
use crate::priority::{Peaker, TakesAll};
use crate::schedule::Schedule;

/// Chooses the first size above its minimum.
#[derive(Debug, Clone, Copy, Default, PartialEq, Eq, PartialOrd, Ord, Hash)]
pub struct PriorityLeft;

impl PriorityLeft {
    /// Makes the priority.
    pub const fn new() -> Self {
        PriorityLeft
    }
}

impl Peaker for PriorityLeft {
    ghost peaks = { peaks_by (λ (s : Self). Outermost false) };

    ghost shrinks = { shrinks_by (λ (s : Self). Outermost false) };

    ghost grows = { grows_by (λ (s : Self). Outermost false) };

    ghost one_by_one = { false };

    fn peak(&mut self, mins: &[usize], sizes: &[usize]) -> Option<usize> {
        Choice::Outermost(false).chosen(mins, sizes, &mut Steps::new())
    }

    fn shrink(&mut self, mins: &[usize], sizes: &mut [usize], by: usize, steps: &mut Steps) -> usize
        ensures shrinks { IsSideShrunk false sizes.old mins.now by sizes.new
            × (self.new ≡ self.old) }
        ensures between { HasOneBetween sizes.old mins.now sizes.new }
        ensures shrinking { Shrinks sizes.old mins.now by sizes.new result steps.old steps.new }
    {
        shrink_from(false, mins, sizes, by, steps)
    }

    fn grow(&mut self, sizes: &mut [usize], by: usize, steps: &mut Steps) -> usize
        requires { sum sizes.old + by < 2 ^ 64 }
        ensures grows { IsSideGrown false sizes.old by sizes.new × (self.new ≡ self.old) }
        ensures growing { Grows sizes.old by sizes.new result steps.old steps.new }
    {
        Choice::Outermost(false).grow(sizes, by, steps)
    }

    ghost nothing = { shrinks_by-none (λ (s : Self). Outermost false) };

    ghost ends = { shrinks_by-done (λ (s : Self). Outermost false) };

    ghost goes_on = { shrinks_by-step (λ (s : Self). Outermost false) };

    ghost grows_nothing = { grows_by-nothing (λ (s : Self). Outermost false) };

    ghost growing_ends = { grows_by-none (λ (s : Self). Outermost false) };

    ghost growing_goes_on = { grows_by-step (λ (s : Self). Outermost false) };
}

impl TakesAll for PriorityLeft {
    ghost takes_all = { shrinks_by-takes (λ (s : Self). Outermost false) };
}

/// Chooses the last size above its minimum.
#[derive(Debug, Clone, Copy, Default, PartialEq, Eq, PartialOrd, Ord, Hash)]
pub struct PriorityRight;

impl PriorityRight {
    /// Makes the priority.
    pub const fn new() -> Self {
        PriorityRight
    }
}

impl Peaker for PriorityRight {
    ghost peaks = { peaks_by (λ (s : Self). Outermost true) };

    ghost shrinks = { shrinks_by (λ (s : Self). Outermost true) };

    ghost grows = { grows_by (λ (s : Self). Outermost true) };

    ghost one_by_one = { false };

    fn peak(&mut self, mins: &[usize], sizes: &[usize]) -> Option<usize> {
        Choice::Outermost(true).chosen(mins, sizes, &mut Steps::new())
    }

    fn shrink(&mut self, mins: &[usize], sizes: &mut [usize], by: usize, steps: &mut Steps) -> usize
        ensures shrinks { IsSideShrunk true sizes.old mins.now by sizes.new
            × (self.new ≡ self.old) }
        ensures between { HasOneBetween sizes.old mins.now sizes.new }
        ensures shrinking { Shrinks sizes.old mins.now by sizes.new result steps.old steps.new }
    {
        shrink_from(true, mins, sizes, by, steps)
    }

    fn grow(&mut self, sizes: &mut [usize], by: usize, steps: &mut Steps) -> usize
        requires { sum sizes.old + by < 2 ^ 64 }
        ensures grows { IsSideGrown true sizes.old by sizes.new × (self.new ≡ self.old) }
        ensures growing { Grows sizes.old by sizes.new result steps.old steps.new }
    {
        Choice::Outermost(true).grow(sizes, by, steps)
    }

    ghost nothing = { shrinks_by-none (λ (s : Self). Outermost true) };

    ghost ends = { shrinks_by-done (λ (s : Self). Outermost true) };

    ghost goes_on = { shrinks_by-step (λ (s : Self). Outermost true) };

    ghost grows_nothing = { grows_by-nothing (λ (s : Self). Outermost true) };

    ghost growing_ends = { grows_by-none (λ (s : Self). Outermost true) };

    ghost growing_goes_on = { grows_by-step (λ (s : Self). Outermost true) };
}

impl TakesAll for PriorityRight {
    ghost takes_all = { shrinks_by-takes (λ (s : Self). Outermost true) };
}

/// Chooses the greatest size above its minimum, of equal ones that on its side.
#[derive(Debug, Clone, Copy, Default, PartialEq, Eq, PartialOrd, Ord, Hash)]
pub struct PriorityMax {
    right: bool,
}

impl PriorityMax {
    /// Chooses of equal sizes the rightmost if `right`, else the leftmost.
    pub const fn new(right: bool) -> Self
        ensures { result.right ≡ right }
    {
        PriorityMax { right }
    }

    /// Chooses of equal sizes the leftmost.
    pub const fn left() -> Self
        ensures { result.right ≡ false }
    {
        PriorityMax::new(false)
    }

    /// Chooses of equal sizes the rightmost.
    pub const fn right() -> Self
        ensures { result.right ≡ true }
    {
        PriorityMax::new(true)
    }
}

impl Peaker for PriorityMax {
    ghost peaks = { peaks_by (λ (s : Self). Greatest s.right) };

    ghost shrinks = { shrinks_by (λ (s : Self). Greatest s.right) };

    ghost grows = { grows_by (λ (s : Self). Greatest s.right) };

    ghost one_by_one = { false };

    fn peak(&mut self, mins: &[usize], sizes: &[usize]) -> Option<usize> {
        Choice::Greatest(self.right).chosen(mins, sizes, &mut Steps::new())
    }

    fn shrink(&mut self, mins: &[usize], sizes: &mut [usize], by: usize, steps: &mut Steps) -> usize
        ensures shrinks { IsMaxShrunk self.old.right sizes.old mins.now by sizes.new
            × (self.new ≡ self.old) }
        ensures shrinking { Shrinks sizes.old mins.now by sizes.new result steps.old steps.new }
        ensures level { IsLevel sizes.old mins.now sizes.new }
        ensures least { HasLeastGreatest sizes.old mins.now sizes.new }
    {
        change_columns(Schedule::Depths(self.right), mins, sizes, by, steps).amount
    }

    fn grow(&mut self, sizes: &mut [usize], by: usize, steps: &mut Steps) -> usize
        requires { sum sizes.old + by < 2 ^ 64 }
        ensures grows { IsMaxGrown self.old.right sizes.old by sizes.new × (self.new ≡ self.old) }
        ensures growing { Grows sizes.old by sizes.new result steps.old steps.new }
    {
        Choice::Greatest(self.right).grow(sizes, by, steps)
    }

    ghost nothing = { shrinks_by-none (λ (s : Self). Greatest s.right) };

    ghost ends = { shrinks_by-done (λ (s : Self). Greatest s.right) };

    ghost goes_on = { shrinks_by-step (λ (s : Self). Greatest s.right) };

    ghost grows_nothing = { grows_by-nothing (λ (s : Self). Greatest s.right) };

    ghost growing_ends = { grows_by-none (λ (s : Self). Greatest s.right) };

    ghost growing_goes_on = { grows_by-step (λ (s : Self). Greatest s.right) };
}

impl TakesAll for PriorityMax {
    ghost takes_all = { shrinks_by-takes (λ (s : Self). Greatest s.right) };
}

/// Chooses the smallest size above its minimum, of equal ones that on its side.
#[derive(Debug, Clone, Copy, Default, PartialEq, Eq, PartialOrd, Ord, Hash)]
pub struct PriorityMin {
    right: bool,
}

impl PriorityMin {
    /// Chooses of equal sizes the rightmost if `right`, else the leftmost.
    pub const fn new(right: bool) -> Self
        ensures { result.right ≡ right }
    {
        PriorityMin { right }
    }

    /// Chooses of equal sizes the leftmost.
    pub const fn left() -> Self
        ensures { result.right ≡ false }
    {
        PriorityMin::new(false)
    }

    /// Chooses of equal sizes the rightmost.
    pub const fn right() -> Self
        ensures { result.right ≡ true }
    {
        PriorityMin::new(true)
    }
}

impl Peaker for PriorityMin {
    ghost peaks = { peaks_by (λ (s : Self). Least s.right) };

    ghost shrinks = { shrinks_by (λ (s : Self). Least s.right) };

    ghost grows = { grows_by (λ (s : Self). Least s.right) };

    ghost one_by_one = { false };

    fn peak(&mut self, mins: &[usize], sizes: &[usize]) -> Option<usize> {
        Choice::Least(self.right).chosen(mins, sizes, &mut Steps::new())
    }

    fn shrink(&mut self, mins: &[usize], sizes: &mut [usize], by: usize, steps: &mut Steps) -> usize
        ensures shrinks { IsMinShrunk self.old.right sizes.old mins.now by sizes.new
            × (self.new ≡ self.old) }
        ensures between { HasOneBetween sizes.old mins.now sizes.new }
        ensures shrinking { Shrinks sizes.old mins.now by sizes.new result steps.old steps.new }
    {
        shrink_smallest(self.right, mins, sizes, by, steps)
    }

    fn grow(&mut self, sizes: &mut [usize], by: usize, steps: &mut Steps) -> usize
        requires { sum sizes.old + by < 2 ^ 64 }
        ensures grows { IsMinGrown self.old.right sizes.old by sizes.new × (self.new ≡ self.old) }
        ensures growing { Grows sizes.old by sizes.new result steps.old steps.new }
        ensures least { HasGreatestLeast sizes.old sizes.new }
    {
        change_columns(Schedule::Heights(self.right), &[], sizes, by, steps).amount
    }

    ghost nothing = { shrinks_by-none (λ (s : Self). Least s.right) };

    ghost ends = { shrinks_by-done (λ (s : Self). Least s.right) };

    ghost goes_on = { shrinks_by-step (λ (s : Self). Least s.right) };

    ghost grows_nothing = { grows_by-nothing (λ (s : Self). Least s.right) };

    ghost growing_ends = { grows_by-none (λ (s : Self). Least s.right) };

    ghost growing_goes_on = { grows_by-step (λ (s : Self). Least s.right) };
}

impl TakesAll for PriorityMin {
    ghost takes_all = { shrinks_by-takes (λ (s : Self). Least s.right) };
}
