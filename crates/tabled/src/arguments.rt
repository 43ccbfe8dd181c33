//! The plan of `render`, which is how a text becomes a table; its priority, which is chosen at run
//! time; and the arguments of the program, which make a plan.
ghost use Rattle.std.specs.Prelude.{IfNone, IfSome, List, MatchOption, Some, [], map, string_bytes};
ghost use Rattle.std.specs.Prelude.{false, ℕ, ◌↔◌, ◌∷◌, ◌≡◌};
ghost use Rattle.tabled.specs.Arguments.{Adds, Begins, GoTogether, HasValues, IsNumber, IsOnce};
ghost use Rattle.tabled.specs.Arguments.{Makes, Notes, NotesName, NotesWords, Spells, SpellsPlan};
ghost use Rattle.tabled.specs.Arguments.{name_of, order_word};
ghost use Rattle.tabled.specs.Orders.{Grows, Grows-done, Grows-nothing, Grows-step, Names, Shrinks};
ghost use Rattle.tabled.specs.Orders.{Shrinks-done, Shrinks-none, Shrinks-step, Shrinks-takes};
ghost use Rattle.tabled.specs.declared.arguments.Argument.{Argument};
ghost use Rattle.tabled.specs.declared.arguments.Order.{Order};
ghost use Rattle.tabled.specs.declared.arguments.Plan.{Plan};

use tabled_size::{
    Peaker, PriorityLeft, PriorityMax, PriorityMin, PriorityNone, PriorityRight, Steps, TakesAll,
};

/// The order in which the columns of a table shrink, as `--priority` names it.
#[derive(Clone, Copy, Debug)]
pub enum Order {
    /// `none`: each column in turn, by one column at a time.
    Round,
    /// `min`: the narrowest column first, the rightmost of equal ones.
    Least,
    /// `max`: the widest column first, the rightmost of equal ones.
    Greatest,
    /// `left`: from the left.
    Leftmost,
    /// `right`: from the right.
    Rightmost,
}

/// How `render` prints a table.
#[derive(Clone, Copy, Debug)]
pub enum Plan {
    /// Measures the whole table, and then prints it.
    Buffered,
    /// Cuts each cell to its column, as an `IterTable` that reads all rows ahead.
    Streamed,
    /// Wraps the cells of a table that is wider than `target` columns, with `words` between words
    /// where possible.
    Wrapped {
        target: usize,
        words: bool,
        order: Order,
    },
    /// Truncates the cells of a table that is wider than `target` columns.
    Shortened {
        target: usize,
        order: Order,
    },
}

/// A priority whose order is chosen at run time.
#[derive(Clone, Copy)]
pub struct OrderPriority {
    order: Order,
    /// Stores the next index for `Order::Round`.
    round: PriorityNone,
}

impl OrderPriority {
    /// Returns a priority that hasn't shrunk anything.
    pub fn new(order: Order) -> Self
        ensures order { result.order ≡ order }
        ensures kept { result.round.kept ≡ 0 }
    {
        OrderPriority {
            order,
            round: PriorityNone::new(),
        }
    }
}

impl Peaker for OrderPriority {
    ghost peaks = { Names };

    ghost shrinks = { Shrinks };

    ghost grows = { Grows };

    ghost one_by_one = { false };

    fn peak(&mut self, mins: &[usize], values: &[usize]) -> Option<usize> {
        match self.order {
            Order::Round => self.round.peak(mins, values),
            Order::Least => PriorityMin::right().peak(mins, values),
            Order::Greatest => PriorityMax::right().peak(mins, values),
            Order::Leftmost => PriorityLeft::new().peak(mins, values),
            Order::Rightmost => PriorityRight::new().peak(mins, values),
        }
    }

    fn shrink(
        &mut self,
        mins: &[usize],
        values: &mut [usize],
        by: usize,
        steps: &mut Steps,
    ) -> usize {
        match self.order {
            Order::Round => self.round.shrink(mins, values, by, steps),
            Order::Least => PriorityMin::right().shrink(mins, values, by, steps),
            Order::Greatest => PriorityMax::right().shrink(mins, values, by, steps),
            Order::Leftmost => PriorityLeft::new().shrink(mins, values, by, steps),
            Order::Rightmost => PriorityRight::new().shrink(mins, values, by, steps),
        }
    }

    fn grow(&mut self, values: &mut [usize], by: usize, steps: &mut Steps) -> usize {
        match self.order {
            Order::Round => self.round.grow(values, by, steps),
            Order::Least => PriorityMin::right().grow(values, by, steps),
            Order::Greatest => PriorityMax::right().grow(values, by, steps),
            Order::Leftmost => PriorityLeft::new().grow(values, by, steps),
            Order::Rightmost => PriorityRight::new().grow(values, by, steps),
        }
    }

    ghost nothing = { λ s values mins. Shrinks-none s values mins };

    ghost ends = { λ s t values mins by fits named. Shrinks-done s t values mins by named };

    ghost goes_on = { λ s t u values mins new by i fits above named rest. Shrinks-step s t u values
        mins new by i named rest };

    ghost grows_nothing = { λ s values. Grows-nothing s values };

    ghost growing_ends = { λ s t values by named. Grows-done s t values by named };

    ghost growing_goes_on = { λ s t u values new by i above named rest. Grows-step s t u values new
        by i named rest };
}

impl TakesAll for OrderPriority {
    ghost takes_all = { λ s t old mins new by h. Shrinks-takes s t old mins new by h };
}

#[derive(Clone, Copy)]
enum Argument {
    /// `--wrap N`
    Wrap(usize),
    /// `--cut N`
    Cut(usize),
    /// `--priority P`
    Priority(Order),
    /// `--words`
    Words,
    /// `--stream`
    Stream,
}

#[derive(Clone, Copy, Default)]
struct Arguments {
    wrap: Option<usize>,
    cut: Option<usize>,
    order: Option<Order>,
    words: bool,
    stream: bool,
}

/// Returns the number that decimal digits write, if it fits a `usize`.
fn number_of(word: &str) -> Option<usize>
    ensures value { IfSome result (IsNumber word.now) }
    ensures number { (number : ℕ) → IsNumber word.now number → result ≡ Some number }
{
    if !word.bytes().all(|byte| byte.is_ascii_digit()) {
        return None;
    }
    word.parse().ok()
}

fn order_of(word: &str) -> Option<Order>
    ensures { (order : Order) → (result ≡ Some order) ↔ (word.now ≡ order_word order) }
{
    match word {
        "none" => Some(Order::Round),
        "min" => Some(Order::Least),
        "max" => Some(Order::Greatest),
        "left" => Some(Order::Leftmost),
        "right" => Some(Order::Rightmost),
        _ => None,
    }
}

fn valued_argument(name: &str, value: &str) -> Option<Argument>
    ensures { MatchOption result
        ((setting : Argument) → name.now ≡ name_of setting → ¬ HasValues setting (value.now ∷ []))
        (λ setting. (name.now ≡ name_of setting) × HasValues setting (value.now ∷ [])) }
{
    match name {
        "--wrap" => Some(Argument::Wrap(number_of(value)?)),
        "--cut" => Some(Argument::Cut(number_of(value)?)),
        "--priority" => Some(Argument::Priority(order_of(value)?)),
        _ => None,
    }
}

fn first_argument(words: &[String]) -> Option<(Argument, &[String])>
    ensures { MatchOption result
        ((setting : Argument) (rest : List (List ℕ))
        → ¬ Begins (map string_bytes words.now) setting rest)
        (λ first. Begins (map string_bytes words.now) first.0 (map string_bytes first.1.now)) }
{
    let (name, rest) = words.split_first()?;
    match name.as_str() {
        "--words" => return Some((Argument::Words, rest)),
        "--stream" => return Some((Argument::Stream, rest)),
        _ => {}
    }
    let (value, rest) = rest.split_first()?;
    let setting = valued_argument(name.as_str(), value.as_str())?;
    Some((setting, rest))
}

impl Arguments {
    /// Adds a setting, unless one of that name is there.
    fn with(mut self, setting: Argument) -> Option<Arguments>
        ensures { MatchOption result (NotesName self setting)
            (λ settings. Adds self setting settings) }
    {
        match setting {
            Argument::Wrap(target) if self.wrap.is_none() => self.wrap = Some(target),
            Argument::Cut(target) if self.cut.is_none() => self.cut = Some(target),
            Argument::Priority(order) if self.order.is_none() => self.order = Some(order),
            Argument::Words if !self.words => self.words = true,
            Argument::Stream if !self.stream => self.stream = true,
            _ => return None,
        }
        Some(self)
    }

    /// Returns the plan of the settings, if they go together.
    fn plan(self) -> Option<Plan>
        ensures { (plan : Plan)
            → (result ≡ Some plan) ↔ (GoTogether (Notes self) × Makes (Notes self) plan) }
    {
        let order = self.order.unwrap_or(Order::Round);
        match (self.wrap, self.cut) {
            (Some(target), None) if !self.stream => Some(Plan::Wrapped {
                target,
                words: self.words,
                order,
            }),
            (None, Some(target)) if !self.words && !self.stream => {
                Some(Plan::Shortened { target, order })
            }
            (None, None) if self.order.is_none() && !self.words => Some(if self.stream {
                Plan::Streamed
            } else {
                Plan::Buffered
            }),
            _ => None,
        }
    }
}

/// Returns the settings of all arguments; `None` if one is wrong or given twice.
fn arguments_of(words: &[String]) -> Option<Arguments>
    ensures { MatchOption result
        ((settings : List Argument) → Spells (map string_bytes words.now) settings
        → ¬ IsOnce settings)
        (NotesWords (map string_bytes words.now)) }
{
    let mut settings = Arguments::default();
    let mut rest = words;
    while !rest.is_empty() {
        let (setting, left) = first_argument(rest)?;
        settings = settings.with(setting)?;
        rest = left;
    }
    Some(settings)
}

/// Returns the plan of the arguments: `[--wrap N | --cut N] [--priority none|min|max|left|right]
/// [--words] [--stream]`. Returns `None` for all others.
///
/// The settings come in any order, each at most once. `N` is decimal digits and fits a `usize`.
/// `--words` needs `--wrap`, `--priority` needs `--wrap` or `--cut`, and `--stream` excludes both.
/// The default priority is `none`.
pub(crate) fn plan_of(words: &[String]) -> Option<Plan>
    ensures plan { (plan : Plan)
        → (result ≡ Some plan) ↔ SpellsPlan (map string_bytes words.now) plan }
    ensures spelled { IfSome result (SpellsPlan (map string_bytes words.now)) }
    ensures none { IfNone result ((plan : Plan) → ¬ SpellsPlan (map string_bytes words.now) plan) }
{
    arguments_of(words)?.plan()
}
