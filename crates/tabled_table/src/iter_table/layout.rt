//! The layout of a stream: its columns, the lines and padding around its cells, its total width.
ghost use Rattle.std.specs.Prelude.{◌≡◌, ◌+◌, ◌*◌, ◌<◌, ◌≤◌, ◌^◌, IfSome, MatchOption, false};
ghost use Rattle.std.specs.Prelude.{if◌then◌else◌};
ghost use Rattle.std.proofs.Props.{props};
ghost use Rattle.tabled_line.specs.Placements.{IsUniform};
ghost use Rattle.tabled_priority.specs.Sums.{sum_below};

use tabled_config::{CellStyle, Frame, HorizontalLine};
use tabled_line::{ColumnSeparator, UniformPlacement};

/// The columns of a stream, the lines around and between them, and the placement of texts.
#[derive(Drop)]
pub(crate) struct Layout {
    /// The number of columns.
    pub count: usize,
    /// The content widths of the first columns.
    pub contents: Vec<usize>,
    /// The content width of each further column.
    pub rest: usize,
    /// The character that ends each cell that is cut, if it is set.
    pub mark: Option<char>,
    /// Left and right padding, in columns.
    pub side: usize,
    /// The margin and the vertical lines.
    pub frame: Frame,
    /// The horizontal line above the first row.
    pub top: Option<HorizontalLine>,
    /// The horizontal line above each further row.
    pub inner: Option<HorizontalLine>,
    /// The horizontal line below the last row.
    pub bottom: Option<HorizontalLine>,
    /// Padding and alignment of all cells.
    pub style: CellStyle,
    /// The separator between two texts, for a row of one line.
    pub separator: ColumnSeparator,
    /// The placement that all texts share, if there is one.
    pub uniform: Option<UniformPlacement>,
    ghost bar: { separator.bar ≡ frame.inner },
    ghost uniform_is: { IfSome uniform (IsUniform style) } by { Prim.hlevel props },
}

/// Returns `sum + times * each`; `None` if it exceeds `usize::MAX`.
fn add_times(sum: usize, times: usize, each: usize) -> Option<usize>
    ensures { let whole = sum + times * each in
        MatchOption result (2 ^ 64 ≤ whole) (λ n. n ≡ whole) }
{
    sum.checked_add(times.checked_mul(each)?)
}

impl Layout {
    ghost use Rattle.tabled_table.specs.Stream.Row.{TakesNoMore, content_at, layout_total};
    ghost use Rattle.tabled_table.specs.Stream.Row.{width_at};

    pub fn content_width(&self, column: usize) -> usize
        ensures { result ≡ content_at self.now column }
    {
        if column < self.contents.len() {
            self.contents[column]
        } else {
            self.rest
        }
    }

    /// Whether an empty cell takes columns in a further column: a content width, padding, or the
    /// vertical line before it.
    pub fn takes_more(&self) -> bool
        ensures { result ≡ false → TakesNoMore self.now }
    {
        let padding = self.style.padding;
        self.rest > 0
            || self.side > 0
            || padding.left.size > 0
            || padding.right.size > 0
            || self.frame.inner.there
    }

    pub fn rule(&self, first: bool) -> Option<HorizontalLine>
        ensures { result ≡ (if first then self.now.top else self.now.inner) }
    {
        if first { self.top } else { self.inner }
    }

    /// Returns the height of a row with this many lines for text, padding included. `None` if it
    /// exceeds `usize::MAX`.
    pub fn padded_height(&self, lines: usize) -> Option<usize>
        ensures { let padding = self.now.style.padding in
            let height = lines + (padding.top.size + padding.bottom.size) in
            MatchOption result (2 ^ 64 ≤ height) (λ n. (n ≡ height) × (height < 2 ^ 64)) }
    {
        let padding = self.style.padding;
        lines
            .checked_add(padding.top.size)?
            .checked_add(padding.bottom.size)
    }

    /// Returns the sum of all widths; `None` if it exceeds `usize::MAX`. The equal widths at the
    /// end are multiplied.
    #[tactic(auto, using(tabled_priority::proofs::Sums::sum_step))]
    fn sum_widths(&self) -> Option<usize>
        ensures { let whole = sum_below (width_at self.now) self.now.count in
            MatchOption result (2 ^ 64 ≤ whole) (λ n. n ≡ whole) }
    {
        let known = self.count.min(self.contents.len());
        let mut sum: usize = 0;
        'columns: for column in 0..known {
            let width = self.content_width(column).checked_add(self.side)?;
            sum = sum.checked_add(width)?;
        }
        if known == self.count {
            return Some(sum);
        }
        let last = self.rest.checked_add(self.side)?;
        add_times(sum, self.count - known, last)
    }

    /// Returns the total width: all widths, the vertical lines and the side margins. `None` if it
    /// exceeds `usize::MAX`.
    #[tactic(auto, unfolding(crate::specs::Stream::Row::layout_total), using(crate::proofs::Stream::Widths::as_number))]
    pub fn total_width(&self) -> Option<usize>
        ensures { MatchOption result (2 ^ 64 ≤ layout_total self.now)
            (λ n. (n ≡ layout_total self.now) × (layout_total self.now < 2 ^ 64)) }
    {
        let frame = self.frame;
        let margin = frame.margin;
        let left = margin.left.size.checked_add(usize::from(frame.left.there))?;
        let right = usize::from(frame.right.there).checked_add(margin.right.size)?;
        let bars = self.count.saturating_sub(1) * usize::from(frame.inner.there);
        let inside = self.sum_widths()?.checked_add(bars)?;
        left.checked_add(inside.checked_add(right)?)
    }
}
