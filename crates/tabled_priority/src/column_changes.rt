//! Changes all columns by a schedule: reads each column, counts these reads, and checks whether the
//! sizes are level.
ghost use Rattle.std.specs.Prelude.{IsTrue, MatchOption, length, ℕ, ◌*◌, ◌+◌, ◌-◌, ◌<◌, ◌↔◌, ◌≡◌};
ghost use Rattle.std.specs.Prelude.{◌≤◌};
ghost use Rattle.tabled_priority.specs.Least.{HasLeastGreatest, IsHighest, IsLevel};
ghost use Rattle.tabled_priority.specs.Permitted.{FitsMinimums, IsPermitted, at};
ghost use Rattle.tabled_priority.specs.Schedule.{CanChange, IsChanged, IsScheduled, IsSpan};
ghost use Rattle.tabled_priority.specs.Schedule.{IsSpanBy, StaysInRange, amount_by, ramp_count};
ghost use Rattle.tabled_priority.specs.Schedule.{first_level, first_of, last_level, last_of};
ghost use Rattle.tabled_priority.specs.Schedule.{open_of, share};
ghost use Rattle.tabled_priority.specs.Shrunk.{is_met, place_after, start};
ghost use Rattle.tabled_priority.specs.Sums.{one_if};
ghost use Rattle.tabled_priority.specs.Visits.{IsBounded, counted};

use crate::schedule::{Ramps, Reached, Schedule, amount_by, reach};

/// Returns the greatest new size above its minimum, or 0 if there is none. Returns `None` if the
/// new list isn't permitted.
fn highest(old: &[usize], mins: &[usize], new: &[usize]) -> Option<usize>
    ensures { MatchOption result (IsPermitted old.now mins.now new.now → ⊥)
        (IsHighest old.now mins.now new.now) }
{
    if new.len() != old.len() {
        return None;
    }
    let mut top: usize = 0;
    for place in 0..old.len() {
        let least = minimum(mins, place);
        let size = new[place];
        if size < old[place].min(least) || size > old[place] {
            return None;
        }
        if size > least {
            top = size.max(top);
        }
    }
    Some(top)
}

/// Whether `new` is `old` shrunk to a level:
/// - It is as long as `old`.
/// - Each size is at most its old size, and at least the lesser of its old size and its minimum.
/// - No lowered size is two or more below one that is above its minimum.
///
/// `mins` has a minimum for each size, or is empty: then all minimums are 0. Returns `false` for
/// other `mins`.
pub fn is_level(old: &[usize], mins: &[usize], new: &[usize]) -> bool
    ensures exact { IsTrue result
        ↔ (FitsMinimums old.now mins.now × IsLevel old.now mins.now new.now) }
    ensures least { IsTrue result → HasLeastGreatest old.now mins.now new.now }
{
    if !mins.is_empty() && mins.len() != old.len() {
        return false;
    }
    let Some(top) = highest(old, mins, new) else {
        return false;
    };
    for place in 0..old.len() {
        if new[place] < old[place] && new[place] + 1 < top {
            return false;
        }
    }
    true
}

/// The size and the minimum of a column.
#[derive(Clone, Copy)]
pub(crate) struct Column {
    /// Its size.
    pub(crate) value: usize,
    /// Its minimum, 0 if there are no minimums.
    pub(crate) least: usize,
}

impl Column {
    /// Returns how much can be taken from it.
    pub(crate) fn spare(&self) -> usize
        ensures { result ≡ self.now.value - self.now.least }
    {
        self.value.saturating_sub(self.least)
    }
}

/// Returns the minimum at an index, 0 if there are no minimums.
pub(crate) fn minimum(mins: &[usize], place: usize) -> usize
    ensures { result ≡ at mins.now place }
{
    mins.get(place).copied().unwrap_or(0)
}

/// Reads a column, and counts the visit.
pub(crate) fn visit(mins: &[usize], values: &[usize], place: usize, steps: &mut Steps) -> Column
    requires { place < length values.now }
    ensures value { result.value ≡ at values.now place }
    ensures least { result.least ≡ at mins.now place }
    ensures steps { steps.new.count ≡ counted steps.old.count 1 }
{
    steps.add(1);
    Column {
        value: values[place],
        least: minimum(mins, place),
    }
}

/// How often a column was read while sizes shrank or grew. The count stops at `usize::MAX`.
#[derive(Debug, Drop)]
pub struct Steps {
    count: usize,
}

impl Steps {
    /// Starts at 0.
    pub fn new() -> Self
        ensures { result.count ≡ 0 }
    {
        Steps { count: 0 }
    }

    /// Returns the count.
    pub fn count(&self) -> usize
        ensures { result ≡ self.now.count }
    {
        self.count
    }

    pub(crate) fn add(&mut self, visits: usize)
        ensures { self.new.count ≡ counted self.old.count visits }
    {
        self.count = self.count.saturating_add(visits);
    }
}

/// Returns the index after this one, and 0 after the last.
pub(crate) fn place_after(count: usize, place: usize) -> usize
    requires { place < usize.MAX }
    ensures { result ≡ place_after count place }
{
    if place + 1 < count { place + 1 } else { 0 }
}

/// The level up to which columns take their amounts, and the indices, from the first to the last
/// round the list, whose columns take up to one level more.
#[derive(Clone, Copy)]
struct Span {
    level: usize,
    first: usize,
    last: usize,
}

impl Span {
    /// Returns the level at an index.
    fn level_at(&self, place: usize) -> usize
        requires { self.now.level < usize.MAX }
        ensures { result ≡ self.now.level + one_if (is_met self.now.first self.now.last place) }
    {
        let is_met = if self.first <= self.last {
            self.first <= place && place <= self.last
        } else {
            self.first <= place || place <= self.last
        };
        if is_met { self.level + 1 } else { self.level }
    }
}

/// Returns the span of a schedule that has as many open columns as are missing.
fn find_span(ramps: &Ramps, reached: Reached, steps: &mut Steps) -> Span
    requires some { 0 < reached.rest }
    requires enough { reached.rest ≤ open_of ramps.now (ramp_count ramps.now) reached.level }
    ensures span { IsSpan (first_of ramps.now) (last_of ramps.now) (ramp_count ramps.now)
        reached.level reached.rest result.first result.last }
    ensures level { result.level ≡ reached.level }
    ensures side { IsSpanBy ramps.now.schedule (first_of ramps.now) (last_of ramps.now)
        (ramp_count ramps.now) reached.level result.first result.last }
    ensures fewest { steps.old.count ≤ steps.new.count }
    ensures most { steps.new.count ≤ counted steps.old.count (3 * ramp_count ramps.now) }
{
    let Reached { level, rest } = reached;
    let count = ramps.values.len();
    let open = ramps.count_open(count, level, steps);
    if ramps.schedule.is_from_right() {
        let first = ramps.nth_open(level, open - rest + 1, steps);
        let last = count - 1;
        return Span { level, first, last };
    }
    let first = ramps.schedule.start(count);
    let before = ramps.count_open(first, level, steps);
    let ahead = open - before;
    let nth = if rest <= ahead {
        before + rest
    } else {
        rest - ahead
    };
    let last = ramps.nth_open(level, nth, steps);
    Span { level, first, last }
}

/// Changes each column by its amount up to the level at its index.
fn change_to(schedule: Schedule, mins: &[usize], sizes: &mut [usize], span: Span, steps: &mut Steps)
    requires room { span.level < usize.MAX }
    requires fits { (i : ℕ) → i < length sizes.old → CanChange schedule (at sizes.old i)
        (share (first_level schedule sizes.old mins.now) (last_level schedule sizes.old mins.now)
        span.level span.first span.last i) }
    ensures same_length { length sizes.new ≡ length sizes.old }
    ensures each { (i : ℕ) → i < length sizes.old → IsChanged schedule (at sizes.old i)
        (share (first_level schedule sizes.old mins.now) (last_level schedule sizes.old mins.now)
        span.level span.first span.last i) (at sizes.new i) }
    ensures steps { steps.new.count ≡ counted steps.old.count (length sizes.old) }
{
    for place in 0..sizes.len() {
        let ramps = Ramps {
            schedule,
            mins,
            values: sizes,
        };
        let ramp = ramps.visit(place, steps);
        let share = ramp.amount(span.level_at(place));
        sizes[place] = schedule.changed(ramp.value, share);
    }
}

/// What was taken or added, and the index to store after it.
#[derive(Clone, Copy)]
pub(crate) struct Change {
    pub(crate) amount: usize,
    pub(crate) kept: usize,
}

/// Changes all columns by an amount, or as much as the schedule allows.
pub(crate) fn change_columns(
    schedule: Schedule,
    mins: &[usize],
    values: &mut [usize],
    by: usize,
    steps: &mut Steps,
) -> Change
    requires { StaysInRange schedule values.old by }
    ensures changed { IsScheduled schedule values.old mins.now by values.new result.kept }
    ensures amount { result.amount ≡ amount_by schedule values.old mins.now by }
    ensures visits { IsBounded values.old values.new steps.old.count steps.new.count }
{
    let amount = amount_by(schedule, mins, values, by, steps);
    if amount == 0 {
        let kept = schedule.kept();
        return Change { amount, kept };
    }
    let ramps = Ramps {
        schedule,
        mins,
        values,
    };
    let reached = reach(&ramps, amount, steps);
    let span = find_span(&ramps, reached, steps);
    change_to(schedule, mins, values, span, steps);
    let kept = place_after(values.len(), span.last);
    Change { amount, kept }
}
