//! The styles of the columns, and where texts are placed in them: looked up once for rows with the
//! same settings.
ghost use Rattle.std.specs.List.{slice_index};
ghost use Rattle.std.specs.Prelude.{IfSome, length, true, ℕ, ◌≡◌, ◌≤◌};
ghost use Rattle.tabled_config.specs.Settings.{style_at};
ghost use Rattle.tabled_grid.specs.ColumnStyles.{AreStyles, columns_by, columns_in, styles_of};
ghost use Rattle.tabled_line.specs.Placements.{ArePlacements};
ghost use Rattle.tabled_size.specs.Reached.{reached};

use std::alloc::Global;
use tabled_base::ContentRecords;
use tabled_config::{AlignmentHorizontal, CellStyle, SpannedConfig};
use tabled_line::{Placement, UniformPlacement};
use tabled_size::{Dimension, check_widths};

/// Nothing is cached for a table with more columns.
const MOST_COLUMNS: usize = 65_536;

/// Nothing is cached for a table with fewer rows, which would gain too little.
const FEWEST_ROWS: usize = 4;

/// A placeholder that buffers are filled with.
pub(crate) const NO_PLACEMENT: Placement = Placement {
    before: 0,
    content_width: 0,
    horizontal: AlignmentHorizontal::Left,
};

/// Returns how many placements a table caches: one for each column, or none if there are more than
/// `most`. Without settings for columns, most rows have one style that is looked up directly.
pub(crate) fn count_kept<R: ContentRecords>(
    records: &R,
    config: &SpannedConfig,
    most: usize,
) -> usize
    ensures { result ≤ most }
{
    let rows = records.count_rows();
    let columns = records.count_columns();
    if rows < FEWEST_ROWS || columns > most || config.row_style(rows).is_some() {
        return 0;
    }
    columns
}

/// Returns a buffer for the cached placements, which is empty if the allocation failed.
pub(crate) fn placement_buffer<R: ContentRecords>(
    alloc: Global,
    records: &R,
    config: &SpannedConfig,
) -> Vec<Placement> {
    let mut buffer = Vec::new(alloc);
    let _ = buffer.resize(count_kept(records, config, MOST_COLUMNS), NO_PLACEMENT);
    buffer
}

/// Returns the styles of a row of `columns` cells, if they can be allocated.
fn styles_in(
    memory: Option<Global>,
    config: &SpannedConfig,
    row: usize,
    columns: usize,
) -> Option<Vec<CellStyle>>
    ensures { IfSome result (λ styles. styles.items ≡ styles_of config.now row columns) }
{
    let mut styles = Vec::with_capacity(memory?, columns).ok()?;
    'columns: for column in 0..columns {
        styles.push(config.style_at(row, column)).ok()?;
    }
    Some(styles)
}

/// The styles of one row's cells, which hold for every row with the same settings.
#[derive(Drop)]
pub(crate) struct ColumnStyles<'a> {
    row: usize,
    // Whether all rows are known to have these settings.
    everywhere: bool,
    // Cached only with an allocator.
    styles: Option<Vec<CellStyle>>,
    // The placements, if each text is known to have one.
    placements: Option<&'a [Placement]>,
}

impl<'a> ColumnStyles<'a> {
    /// Caches the styles of the row at index `row`, which is after the last one, and its placements
    /// in a buffer with one for each column. An allocation failure changes what is cached, not what
    /// is printed.
    pub fn new<D: Dimension>(
        memory: Option<Global>,
        config: &SpannedConfig,
        dimension: &D,
        row: usize,
        buffer: &'a mut [Placement],
    ) -> ColumnStyles<'a>
        ensures { let columns = length buffer.old in AreStyles config.now
            (slice_index (reached (D.width_at dimension.now) columns)) columns result }
    {
        ColumnStyles {
            row,
            everywhere: config.are_all_alike(),
            styles: styles_in(memory, config, row, buffer.len()),
            placements: placements_in(buffer, config, dimension, row),
        }
    }

    #[inline(always)]
    fn is_set_in(&self, config: &SpannedConfig, row: usize) -> bool
        ensures { (width : ℕ → ℕ) (columns : ℕ) → AreStyles config.now width columns self.now
            → result ≡ true → (column : ℕ)
            → style_at config.now row column ≡ style_at config.now self.now.row column }
    {
        self.everywhere || config.are_alike(row, self.row)
    }

    /// Returns the styles of a row's cells, if they are cached and the row is known to have the
    /// same settings.
    pub fn in_row(&self, config: &SpannedConfig, row: usize) -> Option<&[CellStyle]>
        ensures { (width : ℕ → ℕ) (columns : ℕ) → AreStyles config.now width columns self.now
            → IfSome result (λ styles. styles.now ≡ styles_of config.now row columns) }
    {
        match &self.styles {
            Some(styles) if self.is_set_in(config, row) => Some(styles.as_slice()),
            _ => None,
        }
    }

    /// Returns the placements of a row's cells, if they are cached and the row is known to have the
    /// same settings.
    pub fn placements_in_row(&self, config: &SpannedConfig, row: usize) -> Option<&[Placement]>
        ensures { (width : ℕ → ℕ) (columns : ℕ) → AreStyles config.now width columns self.now
            → IfSome result (λ placements. ArePlacements (style_at config.now row)
            (columns_in config.now width columns) placements.now) }
    {
        match &self.placements {
            Some(placements) if self.is_set_in(config, row) => Some(*placements),
            _ => None,
        }
    }
}

/// Computes the placements of a row in a buffer with one for each column. `None` if a width is
/// missing or a text has no placement.
fn placements_in<'a, D: Dimension>(
    buffer: &'a mut [Placement],
    config: &SpannedConfig,
    dimension: &D,
    row: usize,
) -> Option<&'a [Placement]>
    ensures { IfSome result (λ placements. ArePlacements (style_at config.now row)
        (columns_by config.now (D.width_at dimension.now) (length buffer.old)) placements.now) }
{
    check_widths(dimension, buffer.len()).ok()?;
    'columns: for column in 0..buffer.len() {
        let uniform = UniformPlacement::new(&config.style_at(row, column))?;
        let placement = uniform.placement(dimension.get_width(column))?;
        buffer[column] = placement;
    }
    Some(buffer)
}
