//! The options `CellHeightIncrease`, `CellHeightLimit`, `TableHeightIncrease` and
//! `TableHeightLimit`, which change the heights of cells and tables.
ghost use Rattle.std.specs.Prelude.{◌≡◌, None, Some, false};
ghost use Rattle.tabled_set.specs.Common.{at, effective, estimated, is_empty};
ghost use Rattle.tabled_set.specs.Increased.{HeightOutOfRange, IncreasesHeight};
ghost use Rattle.tabled_set.specs.Narrowed.{LimitsHeight, StopsLimiting};
ghost use Rattle.tabled_set.specs.Priorities.{growing_to, shrinking_to};
ghost use Rattle.tabled_set.specs.Promised.{AfterClearing, HeightensAsPromised, LimitsAsPromised};
ghost use Rattle.tabled_set.specs.SizedTable.{sized_table};
ghost use Rattle.tabled_set.specs.TextLines.{lengthening, limiting};
ghost use Rattle.tabled_set.specs.CellChanges.{Higher, Lower};

use crate::measurement::{Height, Measurement};
use crate::resize::{Beginning, CellFilter, Change, ContentSizes, Resize, TextTransform};
use crate::sizes::{PaddedSizes, estimated_rows, grown, shrunk};
use crate::walk::{WalkOrder, change_cells};
use std::alloc::AllocError;
use tabled_base::{Entity, PeekableRecords, Position, RecordsMut, TableError, TableOption};
use tabled_config::ColoredConfig;
use tabled_size::{CompleteDimension, Peaker, PriorityNone, is_empty};
use tabled_text::{count_lines, lines, push_copies};

/// Appends empty lines to cells that have fewer lines than measured. As a table option it grows the
/// rows of a table to a total of that height, in turn.
pub type CellHeightIncrease<W = usize> = Resize<Lengthening, W>;

/// Grows the rows of a table that has fewer lines than measured to a total of that height.
pub type TableHeightIncrease<W = usize, P = PriorityNone> = Resize<Lengthening, W, P>;

/// Appends a line feed for each line that a text has less than the content size.
#[derive(Clone, Copy, Debug, PartialEq, Eq, PartialOrd, Ord)]
pub struct Lengthening;

impl TextTransform for Lengthening {
    type Direction = Height;

    ghost cell_filter = { Lower };

    ghost makes = { λ s. lengthening };

    fn filter() -> CellFilter {
        CellFilter::Lower
    }

    fn new() -> Lengthening {
        Lengthening
    }

    fn beginning(&self, _: &str, _: usize) -> Option<Beginning<'_>> {
        None
    }

    fn apply(&self, out: &mut String, text: &str, content_size: usize) -> Result<(), AllocError> {
        out.clear();
        out.push_str(text)?;
        let wanting = content_size.saturating_sub(count_lines(text));
        push_copies(out, '\n', wanting)
    }
}

/// Grows the rows of a table that has fewer lines than measured, in the order of its priority, by
/// the difference. Starts from the estimated heights, whatever is stored, and stores the result.
/// Nothing else changes.
impl<W: Measurement<Height> + Drop, P: Peaker + Drop, R: PeekableRecords> TableOption<
    R,
    ColoredConfig,
    CompleteDimension,
> for TableHeightIncrease<W, P> {
    ghost changes = { λ s r c d r' c' d'. let n = W.measures s.size (R.cells r) c.config in
        IncreasesHeight (growing_to P.grows s.priority n)
        (sized_table (R.cells r) c.config d) d' × ((r' ≡ r) × (c' ≡ c)) };

    ghost fails = { λ s e r c d r' c' d'. (is_empty (R.cells r) ≡ false)
        × ((r' ≡ r) × ((c' ≡ c) × (d' ≡ d))) };

    ghost out_of_range = { λ s r c d.
        HeightOutOfRange (W.out_of_range s.size (R.cells r) c.config) (R.cells r) c.config };

    ghost promises = { λ s r c d r' c' d'. AfterClearing None d' (λ left.
        HeightensAsPromised P.grows s.priority (W.measures s.size (R.cells r) c.config)
        (R.cells r) c.config (effective (R.cells r') c'.config left)) };

    ghost hint = { λ s. None };

    fn change(
        self,
        records: &mut R,
        cfg: &mut ColoredConfig,
        dims: &mut CompleteDimension,
    ) -> Result<(), TableError> {
        if is_empty(records) {
            return Ok(());
        }
        let config = cfg.as_ref();
        let n = self.size.measure(records, config)?;
        let alloc = dims.allocator();
        let (heights, total) = estimated_rows(alloc, records, config)?;
        if n <= total {
            return Ok(());
        }
        let higher = grown(alloc, self.priority, &heights, n - total)?;
        dims.set_heights(higher);
        Ok(())
    }

    fn hint_change(&self) -> Option<Entity> {
        None
    }
}

/// Limits cells to as many of their first lines as measured. As a table option it shrinks the rows
/// of a table to a total of that height, in turn.
pub type CellHeightLimit<W = usize> = Resize<Limiting, W>;

/// Shrinks the rows of a table that has more lines than measured to a total of that height. Cells
/// keep their first lines.
pub type TableHeightLimit<W = usize, P = PriorityNone> = Resize<Limiting, W, P>;

/// Keeps as many of the first lines of a text as the content size says. The result is empty for 0
/// lines.
#[derive(Clone, Copy, Debug, PartialEq, Eq, PartialOrd, Ord)]
pub struct Limiting;

impl TextTransform for Limiting {
    type Direction = Height;

    ghost cell_filter = { Higher };

    ghost makes = { λ s. limiting };

    fn filter() -> CellFilter {
        CellFilter::Higher
    }

    fn new() -> Limiting {
        Limiting
    }

    fn beginning(&self, _: &str, _: usize) -> Option<Beginning<'_>> {
        None
    }

    fn apply(&self, out: &mut String, text: &str, content_size: usize) -> Result<(), AllocError> {
        out.clear();
        let mut left = content_size;
        for line in lines(text) {
            if left == 0 {
                return Ok(());
            }
            if left < content_size {
                out.push('\n')?;
            }
            left -= 1;
            out.push_str(line)?;
        }
        Ok(())
    }
}

/// The content height of a cell is its row's height, whatever its padding.
impl<'a> ContentSizes for PaddedSizes<'a> {
    ghost content_size_at = { λ s row column. Some (at s.sizes.now row) };

    fn content_size(&self, at: Position) -> Option<usize> {
        Some(self.sizes.get(at.row).copied().unwrap_or(0))
    }
}

/// Shrinks the rows of a table that has more lines than measured, in the order of its priority, by
/// the excess, without minimums. Starts from the estimated heights, whatever is stored, and stores
/// the result. Each cell keeps as many of its first lines as its row is high, whatever its padding.
/// The widths don't change.
impl<W: Measurement<Height> + Drop, P: Peaker + Drop, R: RecordsMut> TableOption<
    R,
    ColoredConfig,
    CompleteDimension,
> for TableHeightLimit<W, P> {
    ghost changes = { λ s r c d r' c' d'. let n = W.measures s.size (R.cells r) c.config in
        LimitsHeight (shrinking_to P.shrinks s.priority n)
        (sized_table (R.cells r) c.config d) (R.cells r') d' × (c' ≡ c) };

    ghost fails = { λ s e r c d r' c' d'. let n = W.measures s.size (R.cells r) c.config in
        (is_empty (R.cells r) ≡ false) × StopsLimiting (shrinking_to P.shrinks s.priority n) e
        (estimated (R.cells r) c.config) (R.cells r') × ((c' ≡ c) × (d' ≡ d)) };

    ghost out_of_range = { λ s r c d.
        HeightOutOfRange (W.out_of_range s.size (R.cells r) c.config) (R.cells r) c.config };

    ghost promises = { λ s r c d r' c' d'. AfterClearing None d' (λ left.
        LimitsAsPromised P.shrinks s.priority (W.measures s.size (R.cells r) c.config)
        (R.cells r) c.config (effective (R.cells r') c'.config left)) };

    ghost hint = { λ s. None };

    fn change(
        self,
        records: &mut R,
        cfg: &mut ColoredConfig,
        dims: &mut CompleteDimension,
    ) -> Result<(), TableError> {
        if is_empty(records) {
            return Ok(());
        }
        let config = cfg.as_ref();
        let n = self.size.measure(records, config)?;
        let alloc = records.allocator();
        let (heights, total) = estimated_rows(alloc, records, config)?;
        if total <= n {
            return Ok(());
        }
        let lower = shrunk(alloc, self.priority, &heights, &[], total - n)?;
        let change = Change {
            transform: &self.transform,
            cell_filter: CellFilter::Higher,
            content_sizes: &PaddedSizes { sizes: &lower },
        };
        change_cells(&change, records, WalkOrder::ByRow, Entity::Global)?;
        dims.set_heights(lower);
        Ok(())
    }

    fn hint_change(&self) -> Option<Entity> {
        None
    }
}
