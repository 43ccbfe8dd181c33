//! The traits of priorities, the five priorities by name, and the one that changes sizes in turn.
ghost use Rattle.std.proofs.Common.{subst, sym};
ghost use Rattle.std.specs.Prelude.{Bool, IfSome, List, MatchOption, None, Option, Some, [], false};
ghost use Rattle.std.specs.Prelude.{length, sum, true, ℕ, ◌*◌, ◌+◌, ◌<◌, ◌^◌, ◌≡◌, ◌≤◌};
ghost use Rattle.tabled_priority.specs.Changes.{Grows, Shrinks};
ghost use Rattle.tabled_priority.specs.Grown.{IsNoneSmaller, IsRoundGrown};
ghost use Rattle.tabled_priority.specs.Laws.Grown.{IsRoundGrown-step, IsRoundGrown-still};
ghost use Rattle.tabled_priority.specs.Laws.Grown.{added-none, added-nothing};
ghost use Rattle.tabled_priority.specs.Laws.Round.{IsRoundShrunk-done, IsRoundShrunk-none};
ghost use Rattle.tabled_priority.specs.Laws.Round.{IsRoundShrunk-step};
ghost use Rattle.tabled_priority.specs.Peak.{IsNext, NoneAbove};
ghost use Rattle.tabled_priority.specs.Permitted.{FitsMinimums, HasEvenLosses, IsAbove};
ghost use Rattle.tabled_priority.specs.Permitted.{IsPermitted, IsTakenFrom, lowered, raised};
ghost use Rattle.tabled_priority.specs.Shrunk.{IsRoundShrunk, place_after};
ghost use Rattle.tabled_priority.specs.Visits.{changed, counted, times_asked};

use crate::by_size_or_side::{PriorityLeft, PriorityMax, PriorityMin, PriorityRight};
use crate::column_changes::{Steps, change_columns, place_after, visit};
use crate::schedule::Schedule;

/// An order in which sizes shrink or grow. An implementation needs `peak`, three relations and
/// their laws; by default `shrink` and `grow` change one size by one at a time.
pub trait Peaker {
    // What `peak` may return: the state, the sizes, the minimums, the result, the new state.
    ghost peaks: { Self → List ℕ → List ℕ → Option ℕ → Self → Type 0 };

    // What `shrink` may leave: the state, the sizes, the minimums, the amount, the new sizes, the
    // new state.
    ghost shrinks: { Self → List ℕ → List ℕ → ℕ → List ℕ → Self → Type 0 };

    // What `grow` may leave: the state, the sizes, the amount, the new sizes, the new state.
    ghost grows: { Self → List ℕ → ℕ → List ℕ → Self → Type 0 };

    // Whether `shrink` and `grow` ask `peak` for each one that they take or add, as the bodies
    // below do. A priority with bodies of its own says `false`, unless they count as many visits.
    ghost one_by_one: { Bool } = { true };

    /// Returns the index of the size to change next, if there is one. That size is above its
    /// minimum. `mins` has a minimum for each size, or is empty: then all minimums are 0.
    fn peak(&mut self, mins: &[usize], sizes: &[usize]) -> Option<usize>
        requires { FitsMinimums sizes.now mins.now }
        ensures place { IfSome result (IsAbove sizes.now mins.now) }
        ensures peaks { peaks self.old sizes.now mins.now result self.new };

    /// Takes `by` from the sizes, or as much as `peak` allows, and returns how much was taken.
    /// `mins` is that of `peak`. `steps` counts how often a column is read: at least once for each
    /// that changes, and if one is taken at a time, every column each time that `peak` is asked.
    fn shrink(&mut self, mins: &[usize], sizes: &mut [usize], by: usize, steps: &mut Steps) -> usize
        requires { FitsMinimums sizes.old mins.now }
        ensures shrinks { shrinks self.old sizes.old mins.now by sizes.new self.new }
        ensures permitted { IsPermitted sizes.old mins.now sizes.new }
        ensures total { sum sizes.new + result ≡ sum sizes.old }
        ensures at_most { result ≤ by }
        ensures visits { counted steps.old.count (changed sizes.old sizes.new) ≤ steps.new.count }
        ensures reads { one_by_one ≡ true → steps.new.count
            ≡ counted steps.old.count (times_asked by result * length sizes.old) }
    {
        for taken in 0..by {
            steps.add(sizes.len());
            let Some(place) = self.peak(mins, sizes) else {
                return taken;
            };
            sizes[place] -= 1;
        }
        by
    }

    /// Adds `by` to the sizes, or as much as `peak` allows, and returns how much was added. Sizes
    /// that are 0 stay 0. `steps` counts how often a column is read, as in `shrink`.
    fn grow(&mut self, sizes: &mut [usize], by: usize, steps: &mut Steps) -> usize
        requires { sum sizes.old + by < 2 ^ 64 }
        ensures grows { grows self.old sizes.old by sizes.new self.new }
        ensures kept { IsNoneSmaller sizes.old sizes.new }
        ensures total { sum sizes.new ≡ sum sizes.old + result }
        ensures at_most { result ≤ by }
        ensures visits { counted steps.old.count (changed sizes.old sizes.new) ≤ steps.new.count }
        ensures reads { one_by_one ≡ true → steps.new.count
            ≡ counted steps.old.count (times_asked by result * length sizes.old) }
    {
        for added in 0..by {
            steps.add(sizes.len());
            let Some(place) = self.peak(&[], sizes) else {
                return added;
            };
            sizes[place] += 1;
        }
        by
    }

    // Taking nothing changes nothing.
    ghost nothing: { (s : Self) (sizes mins : List ℕ) → shrinks s sizes mins 0 sizes s };

    // If no index is chosen, the list may stay.
    ghost ends: { (s t : Self) (sizes mins : List ℕ) (by : ℕ) → FitsMinimums sizes mins
        → peaks s sizes mins None t → shrinks s sizes mins by sizes t };

    // One is taken from the chosen size, and then the amount less one.
    ghost goes_on: { (s t u : Self) (sizes mins new : List ℕ) (by place : ℕ)
        → FitsMinimums sizes mins → IsAbove sizes mins place
        → peaks s sizes mins (Some place) t → shrinks t (lowered sizes place) mins by new u
        → shrinks s sizes mins (by + 1) new u };

    // Adding nothing changes nothing.
    ghost grows_nothing: { (s : Self) (sizes : List ℕ) → grows s sizes 0 sizes s };

    // If no index is chosen, the list may stay.
    ghost growing_ends: { (s t : Self) (sizes : List ℕ) (by : ℕ) → peaks s sizes [] None t
        → grows s sizes by sizes t };

    // One is added to the chosen size, and then the amount less one.
    ghost growing_goes_on: { (s t u : Self) (sizes new : List ℕ) (by place : ℕ)
        → IsAbove sizes [] place → peaks s sizes [] (Some place) t
        → grows t (raised sizes place) by new u → grows s sizes (by + 1) new u };
}

/// A priority that stops only if no size is above its minimum.
pub trait TakesAll: Peaker {
    // The whole amount is taken, or all that there is.
    ghost takes_all: { (s t : Self) (old mins new : List ℕ) (by : ℕ)
        → Self.shrinks s old mins by new t → IsTakenFrom old mins by new };
}

/// Makes priorities.
#[derive(Debug, Clone, Copy, Default, PartialEq, Eq, PartialOrd, Ord, Hash)]
pub struct Priority;

impl Priority {
    /// Changes each size in turn by one, from the first.
    pub fn none() -> PriorityNone
        ensures { result.kept ≡ 0 }
    {
        PriorityNone::new()
    }

    /// Changes the smallest size first; of equal ones the rightmost if `right`, else the leftmost.
    pub fn min(right: bool) -> PriorityMin
        ensures { result.right ≡ right }
    {
        PriorityMin::new(right)
    }

    /// Changes the greatest size first; of equal ones the rightmost if `right`, else the leftmost.
    pub fn max(right: bool) -> PriorityMax
        ensures { result.right ≡ right }
    {
        PriorityMax::new(right)
    }

    /// Changes the first size first.
    pub fn left() -> PriorityLeft {
        PriorityLeft::new()
    }

    /// Changes the last size first.
    pub fn right() -> PriorityRight {
        PriorityRight::new()
    }
}

/// Chooses the next size above its minimum, round the list, and stores the index after it.
#[derive(Debug, Clone, Copy, Default, PartialEq, Eq, PartialOrd, Ord, Hash)]
pub struct PriorityNone {
    kept: usize,
}

impl PriorityNone {
    /// Begins with the first size.
    pub const fn new() -> Self
        ensures { result.kept ≡ 0 }
    {
        PriorityNone { kept: 0 }
    }
}

impl Peaker for PriorityNone {
    ghost peaks = { λ s sizes mins answer t. MatchOption answer
        (NoneAbove sizes mins × (t ≡ s))
        (λ i. IsNext s.kept sizes mins i × (t.kept ≡ place_after (length sizes) i)) };

    ghost shrinks = { λ s old mins by new t. IsRoundShrunk s.kept old mins by new t.kept };

    ghost grows = { λ s old by new t. IsRoundGrown s.kept old by new t.kept };

    ghost one_by_one = { false };

    fn peak(&mut self, mins: &[usize], sizes: &[usize]) -> Option<usize> {
        let count = sizes.len();
        let start = if self.kept < count { self.kept } else { 0 };
        let mut place = start;
        for _turn in 0..count {
            let next = place_after(count, place);
            let column = visit(mins, sizes, place, &mut Steps::new());
            if column.value > column.least {
                self.kept = next;
                return Some(place);
            }
            place = next;
        }
        None
    }

    fn shrink(&mut self, mins: &[usize], sizes: &mut [usize], by: usize, steps: &mut Steps) -> usize
        ensures shrinks { IsRoundShrunk self.old.kept sizes.old mins.now by sizes.new
            self.new.kept }
        ensures even { HasEvenLosses sizes.old mins.now sizes.new }
        ensures shrinking { Shrinks sizes.old mins.now by sizes.new result steps.old steps.new }
    {
        let change = change_columns(Schedule::Rounds(self.kept), mins, sizes, by, steps);
        self.kept = change.kept;
        change.amount
    }

    fn grow(&mut self, sizes: &mut [usize], by: usize, steps: &mut Steps) -> usize
        requires { sum sizes.old + by < 2 ^ 64 }
        ensures grows { IsRoundGrown self.old.kept sizes.old by sizes.new self.new.kept }
        ensures growing { Grows sizes.old by sizes.new result steps.old steps.new }
    {
        let change = change_columns(Schedule::Gains(self.kept), &[], sizes, by, steps);
        self.kept = change.kept;
        change.amount
    }

    ghost nothing = { λ s sizes mins. IsRoundShrunk-none s.kept sizes mins };

    ghost ends = { λ s t sizes mins by fits named.
        subst (λ k. IsRoundShrunk s.kept sizes mins by sizes k.kept) (sym named.1)
        (IsRoundShrunk-done s.kept sizes mins by named.0) };

    ghost goes_on = { λ s t u sizes mins new by i fits above named rest.
        IsRoundShrunk-step s.kept sizes mins i by new u.kept named.0
        (subst (λ k. IsRoundShrunk k (lowered sizes i) mins by new u.kept) named.1 rest) };

    ghost grows_nothing = { λ s sizes.
        IsRoundGrown-still s.kept sizes 0 (added-nothing sizes) };

    ghost growing_ends = { λ s t sizes by named.
        subst (λ k. IsRoundGrown s.kept sizes by sizes k.kept) (sym named.1)
        (IsRoundGrown-still s.kept sizes by (added-none sizes by named.0)) };

    ghost growing_goes_on = { λ s t u sizes new by i above named rest.
        IsRoundGrown-step s.kept sizes i by new u.kept named.0
        (subst (λ k. IsRoundGrown k (raised sizes i) by new u.kept) named.1 rest) };
}

impl TakesAll for PriorityNone {
    ghost takes_all = { λ s t old mins new by h. h.takes };
}
