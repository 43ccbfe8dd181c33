//! Sets widths and heights: by one number for all, by an array of one each, or by a `ConstSize`.
//! Measures the widths that fit the cells of an array of rows, and the total width.
ghost use Rattle.std.specs.Prelude.{List, MatchOption, [], map, slice_index_or, ℕ, ◌*◌, ◌+◌, ◌<◌};
ghost use Rattle.std.specs.Prelude.{◌^◌, ◌≡◌, ◌≤◌};
ghost use Rattle.tabled_compact.specs.Fitting.{fitting_widths, widest_cell};
ghost use Rattle.tabled_line.specs.Apart.{line_total};
ghost use Rattle.tabled_priority.specs.Sums.{sum_below};
ghost use Rattle.tabled_text.specs.Measure.{text_columns};

use tabled_base::CellText;
use tabled_line::TableColumns;
use tabled_size::{ConstDimension, ConstSize};

/// A dimension whose widths or heights can be set by a value of type `S`, which converts to
/// `ConstSize<COUNT>`.
///
/// As a trait of the dimension, it lets `CompactTable::width` and `CompactTable::height` take
/// everything that is `Into<ConstSize>`.
pub trait SetSizes<S, const COUNT: usize> {
    /// The dimension with these widths.
    type Wide;

    /// The dimension with these heights.
    type High;

    ghost widened: { Self → S → Self.Wide → Type 0 };

    ghost heightened: { Self → S → Self.High → Type 0 };

    /// Returns the dimension with these widths and its old heights.
    fn set_width(self, width: S) -> Self::Wide
        ensures { widened self width result };

    /// Returns the dimension with these heights and its old widths.
    fn set_height(self, height: S) -> Self::High
        ensures { heightened self height result };
}

impl<
    S: Into<ConstSize<COUNT>>,
    const COUNT: usize,
    const COLUMNS: usize,
    const ROWS: usize,
> SetSizes<S, COUNT> for ConstDimension<COLUMNS, ROWS> {
    type Wide = ConstDimension<COUNT, ROWS>;

    type High = ConstDimension<COLUMNS, COUNT>;

    ghost widened = { λ old width new. S.converts width new.width × (new.height ≡ old.height) };

    ghost heightened = { λ old height new. S.converts height new.height × (new.width ≡ old.width) };

    fn set_width(self, width: S) -> ConstDimension<COUNT, ROWS> {
        let (_, height): (ConstSize<COLUMNS>, ConstSize<ROWS>) = self.into();
        ConstDimension::new(width.into(), height)
    }

    fn set_height(self, height: S) -> ConstDimension<COLUMNS, COUNT> {
        let (width, _): (ConstSize<COLUMNS>, ConstSize<ROWS>) = self.into();
        ConstDimension::new(width, height.into())
    }
}

/// Rows of cells that are measured before they are printed: an array of equally long arrays.
pub trait CellRows<const COLUMNS: usize, const ROWS: usize> {
    // The texts of the cells, row by row.
    ghost cells: { Self → List (List (List ℕ)) };

    /// Returns the width of each column: that of its widest cell, plus 2 for padding, at most
    /// `usize::MAX`.
    fn fitting_widths(&self) -> [usize; COLUMNS]
        ensures { result ≡ fitting_widths COLUMNS (cells self.now) };
}

impl<T: CellText, const COLUMNS: usize, const ROWS: usize> CellRows<COLUMNS, ROWS>
    for [[T; COLUMNS]; ROWS] {
    ghost cells = { λ rows. map (map T.text) rows };

    fn fitting_widths(&self) -> [usize; COLUMNS] {
        let mut widths = [0; COLUMNS];
        'columns: for column in 0..COLUMNS {
            widths[column] = widest_cell(self, column).saturating_add(2);
        }
        widths
    }
}

fn widest_cell<T: CellText, const COLUMNS: usize, const ROWS: usize>(
    rows: &[[T; COLUMNS]; ROWS],
    column: usize,
) -> usize
    requires { column < COLUMNS }
    ensures { result ≡ widest_cell (map (map T.text) rows.now) column }
{
    let mut widest: usize = 0;
    'rows: for row in rows {
        widest = widest.max(row[column].width());
    }
    widest
}

/// Returns `sum + times * each`; `None` if it exceeds `usize::MAX`.
fn add_times(sum: usize, times: usize, each: usize) -> Option<usize>
    ensures { let whole = sum + times * each in
        MatchOption result (2 ^ 64 ≤ whole) (λ n. n ≡ whole) }
{
    sum.checked_add(times.checked_mul(each)?)
}

/// Returns the sum of all widths; `None` if it exceeds `usize::MAX`. The equal widths at the end
/// are multiplied.
#[tactic(auto, using(tabled_priority::proofs::Sums::sum_step))]
fn sum_widths<C: TableColumns>(columns: &C) -> Option<usize>
    ensures { let sheet = C.sheet columns.now in let sum = sum_below sheet.width sheet.count in
        MatchOption result (2 ^ 64 ≤ sum) (λ n. n ≡ sum) }
{
    let count = columns.count_columns();
    let known = columns.alike_from().min(count);
    let mut total: usize = 0;
    'columns: for column in 0..known {
        total = total.checked_add(columns.width(column))?;
    }
    if known == count {
        return Some(total);
    }
    let last = columns.width(known);
    add_times(total, count - known, last)
}

/// Returns the columns of each line: all widths, the vertical lines and the side margins. `None` if
/// that exceeds `usize::MAX`.
#[tactic(auto, unfolding(tabled_line::specs::Apart::line_total), using(crate::proofs::Widths::as_number))]
pub(crate) fn line_total<C: TableColumns>(columns: &C) -> Option<usize>
    ensures { let whole = line_total (C.sheet columns.now) in MatchOption result (2 ^ 64 ≤ whole)
        (λ n. (n ≡ whole) × (whole < 2 ^ 64)) }
{
    let frame = columns.frame();
    let margin = frame.margin;
    let left = margin.left.size.checked_add(usize::from(frame.left.there))?;
    let right = usize::from(frame.right.there).checked_add(margin.right.size)?;
    let bars = columns.count_columns().saturating_sub(1) * usize::from(frame.inner.there);
    let inside = sum_widths(columns)?.checked_add(bars)?;
    left.checked_add(inside.checked_add(right)?)
}
