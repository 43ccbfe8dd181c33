//! The trait `Measurement`, the numbers that options read from a table, and the measurements `Max`,
//! `Min` and `Percent`.
ghost use Rattle.std.specs.Prelude.{◌≡◌, ℕ, ◌+◌, ◌<◌, IfErr, IfOk, List, OnOk, []};
ghost use Rattle.std.specs.Prelude.{false, length, map};
ghost use Rattle.std.specs.Iterator.{IsFiniteIterable};
ghost use Rattle.std.specs.List.{range_with_len};
ghost use Rattle.tabled_set.specs.Common.{estimated, Memory, Range, SpannedConfig};
ghost use Rattle.tabled_base.specs.Given.{Given};
ghost use Rattle.tabled_set.specs.Extremes.{min_of, picked, picked_in_row};
ghost use Rattle.tabled_set.specs.Extremes.{picked_of_rows, HasNoPercent, percent_of, total_of};
ghost use Rattle.tabled_set.specs.Extremes.{Greatest, TextMeasure, Columns, Lines};
ghost use Rattle.tabled_set.specs.Truncated.{Cut};

use crate::heights::{CellHeightIncrease, CellHeightLimit};
use crate::min_width::{Justify, MinWidth};
use crate::sizes::{HeightList, WidthList};
use crate::truncate::Truncate;
use crate::wrap::Wrap;
use std::alloc::Global;
use tabled_base::{PeekableRecords, Position, TableError};
use tabled_config::SpannedConfig;
use tabled_size::{estimated_total_height, estimated_total_width};

/// The horizontal direction: its measurements count terminal columns, its options change the widths
/// of cells and columns.
#[derive(Debug, Drop)]
pub struct Width;

/// The vertical direction: its measurements count lines, its options change the heights of cells
/// and rows.
#[derive(Debug, Drop)]
pub struct Height;

/// What is measured of a text: its columns or its lines.
#[derive(Clone, Copy)]
pub enum TextMeasure {
    Columns,
    Lines,
}

/// `Width` or `Height`.
pub trait Direction {
    ghost COUNTED: { TextMeasure };

    /// What is counted of a text.
    const COUNTED: TextMeasure;
}

impl Direction for Width {
    ghost COUNTED = { Columns };

    const COUNTED: TextMeasure = TextMeasure::Columns;
}

impl Direction for Height {
    ghost COUNTED = { Lines };

    const COUNTED: TextMeasure = TextMeasure::Lines;
}

/// A number that an option reads from the table that it changes: terminal columns if `A` is
/// `Width`, lines if it is `Height`.
pub trait Measurement<A> {
    // The number for some cells, row by row, and a configuration.
    ghost measures: { Self → List (List (List ℕ)) → SpannedConfig → ℕ };

    // Holds if a sum or product in the measurement overflows `usize`. By default none does.
    ghost out_of_range: { Self → List (List (List ℕ)) → SpannedConfig → Type 0 } = { λ _ _ _. ⊥ };

    /// Reads the number. Fails with `Range`, exactly if one of its sums or products overflows
    /// `usize`.
    fn measure<R: PeekableRecords>(
        &self,
        records: &R,
        cfg: &SpannedConfig,
    ) -> Result<usize, TableError>
        ensures ok { IfOk result (λ n. n ≡ measures self.now (R.cells records.now) cfg.now) }
        ensures fits { OnOk result (out_of_range self.now (R.cells records.now) cfg.now → ⊥) }
        ensures err { IfErr result (λ e.
            (e ≡ Range) × out_of_range self.now (R.cells records.now) cfg.now) };
}

/// Measures a fixed number, the same for every table.
impl<A> Measurement<A> for usize {
    ghost measures = { λ n cells config. n };

    fn measure<R: PeekableRecords>(&self, _: &R, _: &SpannedConfig) -> Result<usize, TableError> {
        Ok(*self)
    }
}

/// Whether the maximum or the minimum is picked.
#[derive(Clone, Copy)]
pub(crate) enum Pick {
    Greatest,
    Least,
}

impl Pick {
    /// Returns the pick of the first n + 1 numbers of a sequence: `best` is the pick of the first
    /// n, `next` the number after them.
    fn with(self, n: usize, best: usize, next: usize) -> usize
        ensures { (f : ℕ → ℕ) → best ≡ picked self (map f (range_with_len 0 n)) → next ≡ f n
            → result ≡ picked self (map f (range_with_len 0 (n + 1))) }
    {
        match self {
            Pick::Greatest => best.max(next),
            Pick::Least => { if n == 0 { next } else { best.min(next) } }
        }
    }
}

/// Returns the maximum or minimum size of a row's cells, 0 if it has none.
fn picked_in_row<R: PeekableRecords>(
    within: Pick,
    extent: TextMeasure,
    records: &R,
    row: usize,
) -> usize
    requires { row < length (R.cells records.now) }
    ensures { result ≡ picked_in_row within extent (R.cells records.now) row }
{
    let mut best: usize = 0;
    'columns: for column in 0..records.count_columns() {
        let at = Position { row, column };
        let size = match extent {
            TextMeasure::Columns => records.get_width(at),
            TextMeasure::Lines => records.count_lines(at),
        };
        best = within.with(column, best, size);
    }
    best
}

/// Returns the maximum or minimum over the rows of what `picked_in_row` finds, 0 without rows.
fn picked_of_rows<R: PeekableRecords>(
    across: Pick,
    within: Pick,
    extent: TextMeasure,
    records: &R,
) -> usize
    ensures { result ≡ picked_of_rows across within extent (R.cells records.now) }
{
    let mut best: usize = 0;
    'rows: for row in 0..records.count_rows() {
        best = across.with(row, best, picked_in_row(within, extent, records, row));
    }
    best
}

/// Measures the largest cell: as a width, the columns of the widest cell; as a height, the lines of
/// the tallest. Padding doesn't count. A table without cells measures 0. Never fails.
#[derive(Debug, Drop)]
pub struct Max;

/// Measures a minimum of the cells. As a width, it is the maximum over the rows of each row's
/// narrowest cell. As a height, it is the minimum over the rows of each row's tallest cell.
///
/// Padding doesn't count. A table without cells measures 0. Never fails.
#[derive(Debug, Drop)]
pub struct Min;

impl<A: Direction> Measurement<A> for Max {
    ghost measures = { λ s cells config. picked_of_rows Greatest Greatest A.COUNTED cells };

    fn measure<R: PeekableRecords>(
        &self,
        records: &R,
        _: &SpannedConfig,
    ) -> Result<usize, TableError> {
        Ok(picked_of_rows(Pick::Greatest, Pick::Greatest, A::COUNTED, records))
    }
}

impl<A: Direction> Measurement<A> for Min {
    ghost measures = { λ s cells config. min_of A.COUNTED cells };

    fn measure<R: PeekableRecords>(
        &self,
        records: &R,
        _: &SpannedConfig,
    ) -> Result<usize, TableError> {
        let (most, least) = (Pick::Greatest, Pick::Least);
        match A::COUNTED {
            TextMeasure::Columns => Ok(picked_of_rows(most, least, TextMeasure::Columns, records)),
            TextMeasure::Lines => Ok(picked_of_rows(least, most, TextMeasure::Lines, records)),
        }
    }
}

/// Measures a percentage of the table's total width or height, rounded down. The total includes
/// borders and margins. It is estimated: stored sizes don't count. Fails with `Range` if the total,
/// or its product with the percentage, overflows `usize`.
#[derive(Debug, Drop)]
pub struct Percent(pub usize);

impl<A: Direction> Measurement<A> for Percent {
    ghost measures = { λ s cells config.
        percent_of s.0 (total_of A.COUNTED (estimated cells config)) };

    ghost out_of_range = { λ s cells config.
        HasNoPercent s.0 (total_of A.COUNTED (estimated cells config)) };

    fn measure<R: PeekableRecords>(
        &self,
        records: &R,
        cfg: &SpannedConfig,
    ) -> Result<usize, TableError> {
        let total = match A::COUNTED {
            TextMeasure::Columns => estimated_total_width(records, cfg),
            TextMeasure::Lines => estimated_total_height(records, cfg),
        };
        let total = total.ok_or(TableError::Range)?;
        let product = total.checked_mul(self.0).ok_or(TableError::Range)?;
        Ok(product / 100)
    }
}

impl Width {
    /// Creates an option that wraps to `width` columns, as `Wrap::new` does.
    pub fn wrap<W: Measurement<Width>>(width: W) -> Wrap<W>
        ensures size { result.size ≡ width }
        ensures keep_words { result.transform.keep_words ≡ false }
        ensures priority { result.priority.kept ≡ 0 }
    {
        Wrap::new(width)
    }

    /// Creates an option that truncates to `width` columns, as `Truncate::new` does.
    pub fn truncate<W: Measurement<Width>>(width: W) -> Truncate<'static, W>
        ensures size { result.size ≡ width }
        ensures suffix { result.transform.suffix.now ≡ [] }
        ensures limit { result.transform.limit ≡ Cut }
        ensures multiline { result.transform.multiline ≡ false }
        ensures priority { result.priority.kept ≡ 0 }
    {
        Truncate::new(width)
    }

    /// Creates an option that widens to `width` columns, as `MinWidth::new` does.
    pub fn increase<W: Measurement<Width>>(width: W) -> MinWidth<W>
        ensures size { result.size ≡ width }
        ensures fill { result.transform.fill ≡ 32 }
        ensures priority { result.priority.kept ≡ 0 }
    {
        MinWidth::new(width)
    }

    /// Creates an option that makes all cells `width` columns wide, as `Justify::new` does.
    pub fn justify<W: Measurement<Width>>(width: W) -> Justify<W>
        ensures size { result.size ≡ width }
        ensures priority { result.priority.kept ≡ 0 }
    {
        Justify::new(width)
    }

    /// Creates an option that stores these column widths, as `WidthList::from_iter` does. Fails
    /// only with `Memory`.
    pub fn list<I: IntoIterator<Item = usize>>(
        alloc: Global,
        widths: I,
    ) -> Result<WidthList, TableError>
    where
        requires { IsFiniteIterable I.into_iter_gives
            I.IntoIter.can_next I.IntoIter.remaining widths }
        ensures ok { IfOk result (λ answer.
            Given I.into_iter_gives I.IntoIter.next_gives widths answer.list.items) }
        ensures only { IfErr result (λ e. e ≡ Memory) }
    {
        WidthList::from_iter(alloc, widths)
    }
}

impl Height {
    /// Creates an option that grows cells to `height` lines, as `CellHeightIncrease::new` does.
    pub fn increase<W: Measurement<Height>>(height: W) -> CellHeightIncrease<W>
        ensures size { result.size ≡ height }
        ensures priority { result.priority.kept ≡ 0 }
    {
        CellHeightIncrease::new(height)
    }

    /// Creates an option that limits cells to `height` lines, as `CellHeightLimit::new` does.
    pub fn limit<W: Measurement<Height>>(height: W) -> CellHeightLimit<W>
        ensures size { result.size ≡ height }
        ensures priority { result.priority.kept ≡ 0 }
    {
        CellHeightLimit::new(height)
    }

    /// Creates an option that stores these row heights, as `HeightList::from_iter` does. Fails only
    /// with `Memory`.
    pub fn list<I: IntoIterator<Item = usize>>(
        alloc: Global,
        heights: I,
    ) -> Result<HeightList, TableError>
    where
        requires { IsFiniteIterable I.into_iter_gives
            I.IntoIter.can_next I.IntoIter.remaining heights }
        ensures ok { IfOk result (λ answer.
            Given I.into_iter_gives I.IntoIter.next_gives heights answer.list.items) }
        ensures only { IfErr result (λ e. e ≡ Memory) }
    {
        HeightList::from_iter(alloc, heights)
    }
}
