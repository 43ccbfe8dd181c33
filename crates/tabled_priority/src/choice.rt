//! Which size comes first, and growing that one.
ghost use Rattle.std.specs.Prelude.{◌≡◌, ◌+◌, ◌<◌, ◌^◌, IfSome, MatchOption, [], length, sum};
ghost use Rattle.tabled_priority.specs.Peak.{NoneAbove, place_at};
ghost use Rattle.tabled_priority.specs.Choices.{IsChosen, is_ahead};
ghost use Rattle.tabled_priority.specs.Grown.{IsGrownAt};
ghost use Rattle.tabled_priority.specs.Changes.{Grows};
ghost use Rattle.tabled_priority.specs.Visits.{counted};

use crate::column_changes::{Steps, visit};

/// Which of the sizes above their minimums comes first, counted from the right if `right`, else
/// from the left.
#[derive(Clone, Copy)]
pub(crate) enum Choice {
    /// The first one from the side.
    Outermost(bool),
    /// The greatest, of equal ones that on the side.
    Greatest(bool),
    /// The smallest, of equal ones that on the side.
    Least(bool),
}

/// Returns the index at a turn, from the right if `right`, else from the left.
#[inline]
pub(crate) fn place_at(right: bool, count: usize, turn: usize) -> usize
    requires { turn < count }
    ensures { result ≡ place_at right count turn }
{
    if right { count - 1 - turn } else { turn }
}

impl Choice {
    /// Whether a size comes before another one that is further left.
    fn is_ahead(self, size: usize, other: usize) -> bool
        ensures { result ≡ is_ahead self size other }
    {
        match self {
            Choice::Outermost(right) => right,
            Choice::Greatest(right) => other < size || (right && other == size),
            Choice::Least(right) => size < other || (right && other == size),
        }
    }

    /// Returns the index of the size above its minimum that comes first.
    pub(crate) fn chosen(self, mins: &[usize], values: &[usize], steps: &mut Steps) -> Option<usize>
        ensures answer { MatchOption result (NoneAbove values.now mins.now)
            (IsChosen self values.now mins.now) }
        ensures inside { IfSome result (λ i. i < length values.now) }
        ensures steps { steps.new.count ≡ counted steps.old.count (length values.now) }
    {
        let mut best = None;
        let mut size: usize = 0;
        for place in 0..values.len() {
            let column = visit(mins, values, place, steps);
            let beats = best.is_none() || self.is_ahead(column.value, size);
            if column.value > column.least && beats {
                best = Some(place);
                size = column.value;
            }
        }
        best
    }

    /// Adds the whole amount to the size that comes first. Returns 0 if all sizes are 0.
    pub(crate) fn grow(self, values: &mut [usize], by: usize, steps: &mut Steps) -> usize
        requires { sum values.old + by < 2 ^ 64 }
        ensures grows { IsGrownAt (λ v. IsChosen self v []) values.old by values.new }
        ensures growing { Grows values.old by values.new result steps.old steps.new }
    {
        let Some(place) = self.chosen(&[], values, steps) else {
            return 0;
        };
        let column = visit(&[], values, place, steps);
        values[place] = column.value + by;
        by
    }
}
