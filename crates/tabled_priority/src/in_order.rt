//! Taking as much as possible from each size in order: from one side, or the smallest first.
ghost use Rattle.tabled_priority.specs.Changes.{Shrinks};
ghost use Rattle.tabled_priority.specs.Permitted.{HasOneBetween, at};
ghost use Rattle.tabled_priority.specs.Shrunk.{IsSideShrunk, IsMinShrunk};
ghost use Rattle.std.specs.Prelude.{◌≡◌, ℕ, ◌+◌, ◌-◌, ◌*◌, ◌<◌, ◌≤◌, ◌&&◌, length, nat_le, nat_lt};
ghost use Rattle.std.specs.Prelude.{if◌then◌else◌};
ghost use Rattle.tabled_priority.specs.Spares.{IsTakenInOrder, spare_up_to};
ghost use Rattle.tabled_priority.specs.Visits.{counted};

use crate::choice::place_at;
use crate::column_changes::{Column, Steps, visit};
use crate::schedule::{Bracket, Levels, Schedule, amount_by, halved};

/// The columns of some sizes, in order from one side. Their sizes are above the base, and at most
/// the ceiling.
#[derive(Clone, Copy)]
struct Pass {
    right: bool,
    sizes: Bracket,
}

impl Pass {
    /// Returns how much can be taken from a column, 0 if it doesn't have one of the sizes.
    fn spare(self, column: Column) -> usize
        ensures { result ≡ (if nat_lt self.sizes.base column.value
            && nat_le column.value self.sizes.ceiling then column.value - column.least else 0) }
    {
        if self.sizes.base < column.value && column.value <= self.sizes.ceiling {
            column.spare()
        } else {
            0
        }
    }

    /// Takes an amount, or as much as it can: from each column in order all that it can give.
    /// Returns how much was taken.
    fn take(self, mins: &[usize], values: &mut [usize], by: usize, steps: &mut Steps) -> usize
        ensures taken { IsTakenInOrder self.right self.sizes values.old mins.now by values.new
            result }
        ensures fits { (i : ℕ) → at values.old i ≤ usize.MAX }
        ensures steps { steps.new.count ≡ counted steps.old.count (length values.old) }
    {
        let count = values.len();
        let mut left = by;
        for turn in 0..count {
            let place = place_at(self.right, count, turn);
            let column = visit(mins, values, place, steps);
            let taken = self.spare(column).min(left);
            values[place] = column.value - taken;
            left -= taken;
        }
        by - left
    }
}

/// Takes as much as it can from each size, from the right if `right`, else from the left.
pub(crate) fn shrink_from(
    right: bool,
    mins: &[usize],
    values: &mut [usize],
    by: usize,
    steps: &mut Steps,
) -> usize
    ensures shrinks { IsSideShrunk right values.old mins.now by values.new }
    ensures between { HasOneBetween values.old mins.now values.new }
    ensures shrinking { Shrinks values.old mins.now by values.new result steps.old steps.new }
{
    let sizes = Bracket {
        base: 0,
        ceiling: usize::MAX,
    };
    Pass { right, sizes }.take(mins, values, by, steps)
}

/// Columns that give what they have above their minimums.
#[derive(Clone, Copy)]
struct Spares<'a> {
    mins: &'a [usize],
    values: &'a [usize],
}

/// A level is a size: the columns up to this size give all they can.
impl Levels for Spares<'_> {
    ghost total = { λ s size. spare_up_to s.values.now s.mins.now size };

    ghost columns = { λ s. length s.values.now };

    #[tactic(auto, using(crate::proofs::Sums::sum_step))]
    fn total(&self, level: usize, steps: &mut Steps) -> usize {
        let mut total: usize = 0;
        for place in 0..self.values.len() {
            let column = visit(self.mins, self.values, place, steps);
            if column.value <= level {
                total = total.saturating_add(column.spare());
            }
        }
        total
    }
}

/// Returns two sizes with no column's size between them: columns up to the base give less than is
/// wanted, and columns up to the ceiling give enough.
fn find_sizes(spares: &Spares, wanted: usize, steps: &mut Steps) -> Bracket
    requires some { 0 < wanted }
    requires enough { wanted ≤ spare_up_to spares.now.values.now spares.now.mins.now usize.MAX }
    ensures below { spare_up_to spares.now.values.now spares.now.mins.now result.base < wanted }
    ensures enough { wanted ≤ spare_up_to spares.now.values.now spares.now.mins.now result.ceiling }
    ensures outside { (i : ℕ) → i < length spares.now.values.now
        → result.base < at spares.now.values.now i → result.ceiling ≤ at spares.now.values.now i }
    ensures fewest { steps.old.count ≤ steps.new.count }
    ensures most { let n = length spares.now.values.now in
        steps.new.count ≤ counted steps.old.count (n * (2 * n + 1)) }
{
    let mut bracket = Bracket {
        base: 0,
        ceiling: usize::MAX,
    };
    for place in 0..spares.values.len() {
        let size = visit(spares.mins, spares.values, place, steps).value;
        bracket = halved(spares, wanted, bracket, size, steps);
    }
    bracket
}

/// Takes an amount, or as much as it can, from the smallest sizes first.
pub(crate) fn shrink_smallest(
    right: bool,
    mins: &[usize],
    values: &mut [usize],
    by: usize,
    steps: &mut Steps,
) -> usize
    ensures shrinks { IsMinShrunk right values.old mins.now by values.new }
    ensures between { HasOneBetween values.old mins.now values.new }
    ensures shrinking { Shrinks values.old mins.now by values.new result steps.old steps.new }
{
    let wanted = amount_by(Schedule::Rounds(0), mins, values, by, steps);
    if wanted == 0 {
        return 0;
    }
    let sizes = find_sizes(&Spares { mins, values }, wanted, steps);
    let ceiling = sizes.base;
    let low = Bracket { base: 0, ceiling };
    let taken = Pass { right, sizes: low }.take(mins, values, wanted, steps);
    Pass { right, sizes }.take(mins, values, wanted - taken, steps);
    wanted
}
