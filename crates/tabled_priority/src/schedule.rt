//! How sizes change while a level rises, and the search for the level that is reached.
ghost use Rattle.std.specs.Prelude.{◌≡◌, ℕ, ◌+◌, ◌-◌, ◌<◌, ◌≤◌, nat_le, nat_lt, ◌&&◌, length, min};
ghost use Rattle.std.specs.Prelude.{true, ◌*◌};
ghost use Rattle.tabled_priority.specs.Permitted.{at};
ghost use Rattle.tabled_priority.specs.Schedule.{CanChange, IsBase, IsChanged, IsReached, last_of};
ghost use Rattle.tabled_priority.specs.Schedule.{StaysInRange, amount_by, ramp_count, first_level};
ghost use Rattle.tabled_priority.specs.Schedule.{first_of, is_from_right, is_open, last_level};
ghost use Rattle.tabled_priority.specs.Schedule.{open_of, start_of, total_amount, total_of};
ghost use Rattle.tabled_priority.specs.Shrunk.{start};
ghost use Rattle.tabled_priority.specs.Visits.{counted};

use crate::column_changes::{Steps, visit};

/// What a level means. Up to a level, each column takes its part of the amount; for what is then
/// missing, some columns take one more.
#[derive(Clone, Copy)]
pub(crate) enum Schedule {
    /// The level is how far a ceiling is below `usize::MAX`. A column gives what is above the
    /// ceiling, down to its minimum. One more is given on the right if true, else on the left.
    Depths(bool),
    /// The level is a number of rounds. In each a column gives one, down to its minimum. One more
    /// is given from the index on, round the list.
    Rounds(usize),
    /// The level is a floor. A column that isn't 0 gains what it is below the floor. One more is
    /// added on the right if true, else on the left.
    Heights(bool),
    /// The level is a number of rounds. In each a column that isn't 0 gains one. One more is added
    /// from the index on, round the list.
    Gains(usize),
}

impl Schedule {
    /// Whether columns on the right take one more.
    pub(crate) fn is_from_right(&self) -> bool
        ensures { result ≡ is_from_right self.now }
    {
        match self {
            Schedule::Depths(right) | Schedule::Heights(right) => *right,
            Schedule::Rounds(_) | Schedule::Gains(_) => false,
        }
    }

    /// Returns the index from which columns take one more, if those on the right don't.
    pub(crate) fn kept(&self) -> usize
        ensures { result ≡ start_of self.now }
    {
        match self {
            Schedule::Depths(_) | Schedule::Heights(_) => 0,
            Schedule::Rounds(kept) | Schedule::Gains(kept) => *kept,
        }
    }

    /// Returns that index in a list of `count` columns: 0 if it is past the end.
    pub(crate) fn start(&self, count: usize) -> usize
        ensures { result ≡ start (start_of self.now) count }
    {
        let kept = self.kept();
        if kept < count { kept } else { 0 }
    }

    /// Returns the size of a column after it has taken an amount.
    pub(crate) fn changed(&self, value: usize, amount: usize) -> usize
        requires { CanChange self.now value amount }
        ensures { IsChanged self.now value amount result }
    {
        match self {
            Schedule::Depths(_) | Schedule::Rounds(_) => value - amount,
            Schedule::Heights(_) | Schedule::Gains(_) => value + amount,
        }
    }
}

/// A column, and the levels between which it takes one a level.
#[derive(Clone, Copy)]
pub(crate) struct Ramp {
    pub(crate) value: usize,
    pub(crate) from: usize,
    pub(crate) to: usize,
}

impl Ramp {
    /// Returns what the column takes up to a level.
    pub(crate) fn amount(&self, level: usize) -> usize
        ensures { result ≡ min level self.now.to - self.now.from }
    {
        level.min(self.to).saturating_sub(self.from)
    }

    /// Whether the column takes one more at a level.
    fn is_open(&self, level: usize) -> bool
        ensures { result ≡ (nat_le self.now.from level && nat_lt level self.now.to) }
    {
        self.from <= level && level < self.to
    }
}

/// Columns that take one a level, each between two levels of its own.
#[derive(Clone, Copy)]
pub(crate) struct Ramps<'a> {
    pub(crate) schedule: Schedule,
    pub(crate) mins: &'a [usize],
    pub(crate) values: &'a [usize],
}

/// Returns what all columns take up to a level, `usize::MAX` at most.
#[tactic(auto, using(crate::proofs::Sums::sum_step))]
pub(crate) fn total_amount(
    schedule: Schedule,
    mins: &[usize],
    values: &[usize],
    level: usize,
    steps: &mut Steps,
) -> usize
    ensures total { result ≡ min
        (total_amount (first_level schedule values.now mins.now)
        (last_level schedule values.now mins.now) (length values.now) level)
        usize.MAX }
    ensures values_fit { (i : ℕ) → at values.now i ≤ usize.MAX }
    ensures mins_fit { (i : ℕ) → at mins.now i ≤ usize.MAX }
    ensures steps { steps.new.count ≡ counted steps.old.count (length values.now) }
{
    let mut total: usize = 0;
    for place in 0..values.len() {
        let ramps = Ramps {
            schedule,
            mins,
            values,
        };
        total = total.saturating_add(ramps.visit(place, steps).amount(level));
    }
    total
}

/// Returns what is taken or added of an amount: all of it, or as much as the columns can.
pub(crate) fn amount_by(
    schedule: Schedule,
    mins: &[usize],
    values: &[usize],
    by: usize,
    steps: &mut Steps,
) -> usize
    requires { StaysInRange schedule values.now by }
    ensures amount { result ≡ amount_by schedule values.now mins.now by }
    ensures most { result ≤ by }
    ensures enough { result ≤ total_amount (first_level schedule values.now mins.now)
        (last_level schedule values.now mins.now) (length values.now) usize.MAX }
    ensures values_fit { (i : ℕ) → at values.now i ≤ usize.MAX }
    ensures mins_fit { (i : ℕ) → at mins.now i ≤ usize.MAX }
    ensures steps { steps.new.count ≡ counted steps.old.count (length values.now) }
{
    by.min(total_amount(schedule, mins, values, usize::MAX, steps))
}

impl Levels for Ramps<'_> {
    ghost total = { total_of };

    ghost columns = { ramp_count };

    fn total(&self, level: usize, steps: &mut Steps) -> usize {
        total_amount(self.schedule, self.mins, self.values, level, steps)
    }
}

impl Ramps<'_> {
    /// Reads a column, and returns it with its levels.
    pub(crate) fn visit(&self, place: usize, steps: &mut Steps) -> Ramp
        requires { place < ramp_count self.now }
        ensures value { result.value ≡ at self.now.values.now place }
        ensures from { result.from ≡ first_of self.now place }
        ensures to { result.to ≡ last_of self.now place }
        ensures steps { steps.new.count ≡ counted steps.old.count 1 }
    {
        let column = visit(self.mins, self.values, place, steps);
        let value = column.value;
        let nonzero_end = if value == 0 { 0 } else { usize::MAX };
        let (from, to) = match self.schedule {
            Schedule::Depths(_) => (usize::MAX - value, usize::MAX - column.least),
            Schedule::Rounds(_) => (0, column.spare()),
            Schedule::Heights(_) => (value, nonzero_end),
            Schedule::Gains(_) => (0, nonzero_end),
        };
        Ramp { value, from, to }
    }

    /// Returns how many of the columns before `end` take one more at a level.
    #[tactic(auto, using(crate::proofs::Sums::sum_step))]
    pub(crate) fn count_open(&self, end: usize, level: usize, steps: &mut Steps) -> usize
        requires { end ≤ ramp_count self.now }
        ensures count { result ≡ open_of self.now end level }
        ensures steps { steps.new.count ≡ counted steps.old.count end }
    {
        let mut count: usize = 0;
        for place in 0..end {
            if self.visit(place, steps).is_open(level) {
                count += 1;
            }
        }
        count
    }

    /// Returns the index of the n-th column from the left that takes one more at a level.
    #[tactic(auto, using(crate::proofs::Sums::sum_step))]
    pub(crate) fn nth_open(&self, level: usize, nth: usize, steps: &mut Steps) -> usize
        requires some { 0 < nth }
        requires enough { nth ≤ open_of self.now (ramp_count self.now) level }
        ensures inside { result < ramp_count self.now }
        ensures opened { is_open (first_of self.now) (last_of self.now) level result ≡ true }
        ensures nth { open_of self.now result level + 1 ≡ nth }
        ensures fewest { steps.old.count ≤ steps.new.count }
        ensures most { steps.new.count ≤ counted steps.old.count (ramp_count self.now) }
    {
        let mut before: usize = 0;
        for place in 0..self.values.len() {
            if self.visit(place, steps).is_open(level) {
                before += 1;
                if before == nth {
                    return place;
                }
            }
        }
        unreachable!()
    }
}

/// Columns that give no less up to a higher level.
pub(crate) trait Levels {
    // What all columns give up to a level.
    ghost total: { Self → ℕ → ℕ };

    // The number of columns.
    ghost columns: { Self → ℕ };

    /// Returns what all columns give up to a level, `usize::MAX` at most.
    fn total(&self, level: usize, steps: &mut Steps) -> usize
        ensures total { result ≡ min (total self.now level) usize.MAX }
        ensures steps { steps.new.count ≡ counted steps.old.count (columns self.now) };
}

/// A level that gives less than is wanted, and one that gives enough.
#[derive(Clone, Copy)]
pub(crate) struct Bracket {
    pub(crate) base: usize,
    pub(crate) ceiling: usize,
}

/// Replaces the base or the ceiling of a bracket by a level between them.
fn narrowed<L: Levels>(
    levels: &L,
    wanted: usize,
    mut bracket: Bracket,
    level: usize,
    steps: &mut Steps,
) -> Bracket
    requires base { L.total levels.now bracket.base < wanted }
    requires ceiling { wanted ≤ L.total levels.now bracket.ceiling }
    ensures below { L.total levels.now result.base < wanted }
    ensures enough { wanted ≤ L.total levels.now result.ceiling }
    ensures higher { bracket.base ≤ result.base }
    ensures lower { result.ceiling ≤ bracket.ceiling }
    ensures outside { result.base < level → result.ceiling ≤ level }
    ensures fewest { steps.old.count ≤ steps.new.count }
    ensures most { steps.new.count ≤ counted steps.old.count (L.columns levels.now) }
{
    if level <= bracket.base || level >= bracket.ceiling {
        return bracket;
    }
    if levels.total(level, steps) < wanted {
        bracket.base = level;
    } else {
        bracket.ceiling = level;
    }
    bracket
}

/// Replaces the base or the ceiling of a bracket by a level between them. The bracket is halved
/// first, so that at most 64 of the levels in all calls are tried.
pub(crate) fn halved<L: Levels>(
    levels: &L,
    wanted: usize,
    bracket: Bracket,
    level: usize,
    steps: &mut Steps,
) -> Bracket
    requires base { L.total levels.now bracket.base < wanted }
    requires ceiling { wanted ≤ L.total levels.now bracket.ceiling }
    ensures below { L.total levels.now result.base < wanted }
    ensures enough { wanted ≤ L.total levels.now result.ceiling }
    ensures higher { bracket.base ≤ result.base }
    ensures lower { result.ceiling ≤ bracket.ceiling }
    ensures outside { result.base < level → result.ceiling ≤ level }
    ensures fewest { steps.old.count ≤ steps.new.count }
    ensures most { steps.new.count ≤ counted steps.old.count (2 * L.columns levels.now) }
{
    if level <= bracket.base || level >= bracket.ceiling {
        return bracket;
    }
    let middle = bracket.base + (bracket.ceiling - bracket.base) / 2;
    let half = narrowed(levels, wanted, bracket, middle, steps);
    narrowed(levels, wanted, half, level, steps)
}

/// The highest level that takes less than is wanted, and how much is missing.
#[derive(Clone, Copy)]
pub(crate) struct Reached {
    pub(crate) level: usize,
    pub(crate) rest: usize,
}

/// Returns the highest of the columns' first and last levels that takes less than is wanted, or 0.
/// Only levels inside the bracket are tried.
fn find_base(ramps: &Ramps, wanted: usize, steps: &mut Steps) -> usize
    requires some { 0 < wanted }
    requires enough { wanted ≤ total_of ramps.now usize.MAX }
    ensures base { IsBase (first_of ramps.now) (last_of ramps.now) (ramp_count ramps.now) wanted
        result }
    ensures fewest { steps.old.count ≤ steps.new.count }
    ensures most { let n = ramp_count ramps.now in
        steps.new.count ≤ counted steps.old.count (n * (4 * n + 1)) }
{
    let mut bracket = Bracket {
        base: 0,
        ceiling: usize::MAX,
    };
    for place in 0..ramps.values.len() {
        let ramp = ramps.visit(place, steps);
        bracket = halved(ramps, wanted, bracket, ramp.from, steps);
        bracket = halved(ramps, wanted, bracket, ramp.to, steps);
    }
    bracket.base
}

/// Returns the level that is reached. Each open column takes one a level above the base, until less
/// than one for each is missing.
pub(crate) fn reach(ramps: &Ramps, wanted: usize, steps: &mut Steps) -> Reached
    requires some { 0 < wanted }
    requires enough { wanted ≤ total_of ramps.now usize.MAX }
    ensures reached { IsReached (first_of ramps.now) (last_of ramps.now) (ramp_count ramps.now)
        wanted result.level result.rest }
    ensures below { result.level < usize.MAX }
    ensures fewest { steps.old.count ≤ steps.new.count }
    ensures most { let n = ramp_count ramps.now in
        steps.new.count ≤ counted steps.old.count (n * (4 * n + 1) + 2 * n) }
{
    let base = find_base(ramps, wanted, steps);
    let open = ramps.count_open(ramps.values.len(), base, steps);
    let missing = wanted - total_amount(ramps.schedule, ramps.mins, ramps.values, base, steps);
    let levels = (missing - 1) / open;
    Reached {
        level: base + levels,
        rest: missing - levels * open,
    }
}
