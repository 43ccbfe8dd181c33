//! The options `MinWidth`, which widens cells and tables, and `Justify`, which makes all cells
//! equally wide.
ghost use Rattle.std.specs.Prelude.{IfErr, None, OnOk, false, ◌≡◌, ◌⊎◌};
ghost use Rattle.tabled_set.specs.CellChanges.{ChangesEntity, Narrower, NotAsWide, StopsEntity};
ghost use Rattle.tabled_set.specs.CellChanges.{if_taken, never_in_place};
ghost use Rattle.tabled_set.specs.Common.{Global, Memory, Range, effective, is_empty};
ghost use Rattle.tabled_set.specs.Increased.{IncreasesWidth, StopsIncreasing, WidthOutOfRange};
ghost use Rattle.tabled_set.specs.Priorities.{growing_to};
ghost use Rattle.tabled_set.specs.Promised.{AfterClearing, WidensAsPromised};
ghost use Rattle.tabled_set.specs.SizedTable.{sized_table};
ghost use Rattle.tabled_set.specs.TextLines.{IsJustified, filling};

use crate::measurement::{Max, Measurement, Min, Width};
use crate::resize::{Beginning, CellFilter, Resize, TextTransform};
use crate::sizes::{grown, stored_columns};
use crate::truncate::Truncating;
use std::alloc::AllocError;
use tabled_base::{CellOption, Entity, PeekableRecords, RecordsMut, TableError, TableOption};
use tabled_config::{ColoredConfig, SpannedConfig};
use tabled_size::{CompleteDimension, Estimate, Peaker, PriorityNone, is_empty};
use tabled_text::{line_width, lines, push_copies, text_width};

/// Widens cells that are narrower than the measured width, by filling up their lines. As a table
/// option it widens the columns of a table to a total of that width, and changes no text. A new one
/// fills up lines with spaces.
pub type MinWidth<W = usize, P = PriorityNone> = Resize<Filling, W, P>;

/// Fills up each line of a text to the content size, in columns.
#[derive(Clone, Copy, Debug, PartialEq, Eq, PartialOrd, Ord)]
pub struct Filling {
    /// The character to append. It counts as one column, whatever its width.
    pub fill: char,
}

impl TextTransform for Filling {
    type Direction = Width;

    ghost cell_filter = { Narrower };

    ghost is_new = { λ s. s.fill ≡ 32 };

    ghost makes = { λ s. filling s.fill };

    fn filter() -> CellFilter {
        CellFilter::Narrower
    }

    fn new() -> Filling {
        Filling { fill: ' ' }
    }

    fn beginning(&self, _: &str, _: usize) -> Option<Beginning<'_>> {
        None
    }

    fn apply(&self, out: &mut String, text: &str, content_size: usize) -> Result<(), AllocError> {
        out.clear();
        let mut begun = false;
        for line in lines(text) {
            if begun {
                out.push('\n')?;
            }
            begun = true;
            out.push_str(line)?;
            let wanting = content_size.saturating_sub(line_width(line));
            push_copies(out, self.fill, wanting)?;
        }
        Ok(())
    }
}

impl<W, P> MinWidth<W, P> {
    /// Sets the character that fills up lines. It counts as one column, whatever its width.
    pub fn fill_with(mut self, c: char) -> MinWidth<W, P>
        ensures { result ≡ record self { transform = record { fill = c } } }
    {
        self.transform.fill = c;
        self
    }
}

/// Widens a table to a total of at least the measured width. Missing sizes are estimated first, and
/// are stored even if an error follows.
fn increase_width<W: Measurement<Width> + Drop, P: Peaker + Drop, R: PeekableRecords>(
    option: MinWidth<W, P>,
    records: &R,
    config: &SpannedConfig,
    sizes: &mut CompleteDimension,
) -> Result<(), TableError>
    ensures ok { let n = W.measures option.size (R.cells records.now) config.now in
        OnOk result (IncreasesWidth (growing_to P.grows option.priority n)
        (sized_table (R.cells records.now) config.now sizes.old) sizes.new) }
    ensures err { IfErr result (λ e. (is_empty (R.cells records.now) ≡ false)
        × StopsIncreasing (W.measures option.size (R.cells records.now) config.now) e
        (R.cells records.now) config.now sizes.old sizes.new) }
    ensures only { IfErr result (λ e. (e ≡ Memory) ⊎ ((e ≡ Range)
        × WidthOutOfRange (W.out_of_range option.size (R.cells records.now) config.now)
        (R.cells records.now) config.now sizes.old)) }
{
    if is_empty(records) {
        return Ok(());
    }
    let n = option.size.measure(records, config)?;
    sizes.estimate(records, config)?;
    let (widths, total) = stored_columns(records, config, sizes)?;
    if n <= total {
        return Ok(());
    }
    let widths = grown(sizes.allocator(), option.priority, widths, n - total)?;
    sizes.set_widths(widths);
    Ok(())
}

/// Widens a table that is narrower than the measured width to it: its columns grow by the
/// difference. Columns of width 0 don't grow.
///
/// The widths are stored. Missing sizes are estimated first, and stored even if the table is wide
/// enough. Fails with `Memory` only if sizes are missing or the table is too narrow.
impl<W: Measurement<Width> + Drop, P: Peaker + Drop, R: PeekableRecords> TableOption<
    R,
    ColoredConfig,
    CompleteDimension,
> for MinWidth<W, P> {
    ghost changes = { λ s r c d r' c' d'. let n = W.measures s.size (R.cells r) c.config in
        IncreasesWidth (growing_to P.grows s.priority n)
        (sized_table (R.cells r) c.config d) d' × ((r' ≡ r) × (c' ≡ c)) };

    ghost fails = { λ s e r c d r' c' d'. (is_empty (R.cells r) ≡ false)
        × StopsIncreasing (W.measures s.size (R.cells r) c.config) e (R.cells r) c.config d d'
        × ((r' ≡ r) × (c' ≡ c)) };

    ghost out_of_range = { λ s r c d.
        WidthOutOfRange (W.out_of_range s.size (R.cells r) c.config) (R.cells r) c.config d };

    ghost promises = { λ s r c d r' c' d'. AfterClearing None d' (λ left.
        WidensAsPromised P.grows s.priority (W.measures s.size (R.cells r) c.config)
        (effective (R.cells r) c.config d) (effective (R.cells r') c'.config left)) };

    ghost hint = { λ s. None };

    fn change(
        self,
        records: &mut R,
        cfg: &mut ColoredConfig,
        dims: &mut CompleteDimension,
    ) -> Result<(), TableError> {
        increase_width(self, records, cfg.as_ref(), dims)
    }

    fn hint_change(&self) -> Option<Entity> {
        None
    }
}

/// Gives all cells of a table the same width: fills up the lines of narrower cells with spaces, and
/// cuts wider ones. As a cell option it does so with an entity's cells.
pub type Justify<W> = Resize<Justifying, W>;

impl Justify<Max> {
    /// Creates an option that justifies to the width of the widest cell.
    pub fn max() -> Justify<Max> {
        Justify::new(Max)
    }
}

impl Justify<Min> {
    /// Creates an option that justifies to the maximum over the rows of each row's narrowest cell.
    pub fn min() -> Justify<Min> {
        Justify::new(Min)
    }
}

/// Fills up the lines of a text that is too narrow with spaces, and then cuts what is too wide.
#[derive(Clone, Copy, Debug, PartialEq, Eq, PartialOrd, Ord)]
pub struct Justifying;

impl TextTransform for Justifying {
    type Direction = Width;

    ghost cell_filter = { NotAsWide };

    ghost makes = { λ s. IsJustified };

    fn filter() -> CellFilter {
        CellFilter::NotAsWide
    }

    fn new() -> Justifying {
        Justifying
    }

    fn beginning(&self, _: &str, _: usize) -> Option<Beginning<'_>> {
        None
    }

    fn apply(&self, out: &mut String, text: &str, content_size: usize) -> Result<(), AllocError> {
        if text_width(text) < content_size {
            Filling::new().apply(out, text, content_size)?;
        } else {
            out.clear();
            out.push_str(text)?;
        }
        if text_width(out.as_str()) <= content_size {
            return Ok(());
        }
        let filled = String::from_str(*out.allocator(), out.as_str())?;
        Truncating::new().apply(out, filled.as_str(), content_size)
    }
}

/// Measures the width once. Fails with `Range` if the measurement does, before any change, or with
/// `Memory` at a cell. The cells before that, row by row, have changed.
impl<W: Measurement<Width> + Drop, R: RecordsMut, D> TableOption<R, ColoredConfig, D>
    for Justify<W> {
    ghost changes = { λ s r c d r' c' d'. ChangesEntity (if_taken NotAsWide IsJustified)
        (W.measures s.size (R.cells r) c.config) Global
        (R.cells r) (R.cells r') × ((c' ≡ c) × (d' ≡ d)) };

    ghost fails = { λ s e r c d r' c' d'. let n = W.measures s.size (R.cells r) c.config in
        StopsEntity (record {
          cell_filter = NotAsWide;
          in_place = never_in_place;
          change = IsJustified;
        }) n Global e (R.cells r) (R.cells r') × ((c' ≡ c) × (d' ≡ d)) };

    ghost out_of_range = { λ s r c d. W.out_of_range s.size (R.cells r) c.config };

    fn change(self, records: &mut R, cfg: &mut ColoredConfig, _: &mut D) -> Result<(), TableError> {
        CellOption::change(&self, records, cfg, Entity::Global)
    }

    fn hint_change(&self) -> Option<Entity> {
        Some(Entity::Global)
    }
}
