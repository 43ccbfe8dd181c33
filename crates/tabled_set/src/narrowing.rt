//! The widths to which the columns of a table shrink, and the change of a table to them.
ghost use Rattle.std.specs.Prelude.{◌≡◌, ◌⊎◌, ℕ, IfErr, IfOk, IfSome, ◌<◌, ◌≤◌, MatchOption, OnErr};
ghost use Rattle.std.specs.Prelude.{Some, false, is_some, true, None, ◌-◌, OnOk, slice_index_or};
ghost use Rattle.std.specs.Prelude.{IfNone, unwrap_or};
ghost use Rattle.tabled_set.specs.Common.{effective, is_empty, IsRectangular, Memory, Range};
ghost use Rattle.tabled_set.specs.Common.{total_width, widths_of};
ghost use Rattle.tabled_set.specs.CellChanges.{if_taken};
ghost use Rattle.tabled_set.specs.Narrowed.{content_of, permitted_width, WiderOutOfRange};
ghost use Rattle.tabled_set.specs.Narrowed.{NarrowingOutOfRange, Narrows, StopsNarrowing, IsFound};
ghost use Rattle.tabled_set.specs.Narrowed.{FitsAlready, HasWidths, StopsBeforeNarrowing};
ghost use Rattle.tabled_set.specs.Minimums.{emptied, side_columns};
ghost use Rattle.tabled_set.specs.Priorities.{shrinking_to};
ghost use Rattle.tabled_set.specs.SizedTable.{sized_table};

use crate::measurement::{Measurement, Width};
use crate::resize::{CellFilter, Change, ContentSizes, Resize, TextTransform};
use crate::sizes::{shrunk, stored_columns};
use crate::walk::{WalkOrder, change_cells};
use std::alloc::{AllocError, Global};
use tabled_base::{Entity, ExactRecords, PeekableRecords, Position, RecordsMut, TableError};
use tabled_config::{Indent, Sides, SpannedConfig};
use tabled_records::EmptyRecords;
use tabled_size::{CompleteDimension, Estimate, Peaker, estimate_widths, is_empty};

/// Returns the widths to which the columns of a table shrink, with the content widths of its cells,
/// or `None` if the total is at most n.
fn narrowed_widths<'a, P: Peaker + Drop, R: ExactRecords>(
    priority: P,
    records: &R,
    config: &'a SpannedConfig,
    sizes: &CompleteDimension,
    n: usize,
) -> Result<Option<ColumnWidths<'a>>, TableError>
    requires filled { is_empty (R.cells records.now) ≡ false }
    requires stored { is_some (widths_of sizes.now) ≡ true }
    ensures ok { let t = effective (R.cells records.now) config.now sizes.now in
        IfOk result (λ answer. MatchOption answer (total_width t ≤ n)
        (IsFound (shrinking_to P.shrinks priority n) t)) }
    ensures settings { IfOk result (λ answer.
        IfSome answer (λ found. found.config.now ≡ config.now)) }
    ensures wider { OnErr result
        (n < total_width (effective (R.cells records.now) config.now sizes.now)) }
    ensures err { IfErr result (λ e. (e ≡ Memory)
        ⊎ ((e ≡ Range) × WiderOutOfRange n (R.cells records.now) config.now sizes.now)) }
{
    let (widths, total) = stored_columns(records, config, sizes)?;
    if total <= n {
        return Ok(None);
    }
    let alloc = sizes.allocator();
    let empty = EmptyRecords::new(records.count_rows(), records.count_columns());
    let mut mins = estimate_widths(alloc, &empty, config)?;
    mins.truncate(widths.len());
    let widths = shrunk(alloc, priority, widths, &mins, total - n)?;
    let content = content_widths(alloc, &widths, &mins, config.shared_padding())?;
    Ok(Some(ColumnWidths {
        widths,
        content,
        config,
    }))
}

/// Returns the columns that the padding at the sides leaves of a width, all if there is none.
#[inline(always)]
fn inner_width(width: usize, padding: Option<Sides<Indent>>) -> usize
    ensures { result ≡ width - side_columns padding }
{
    let Some(padding) = padding else {
        return width;
    };
    let inner = width.saturating_sub(padding.left.size);
    inner.saturating_sub(padding.right.size)
}

/// Returns the width of each column that isn't below its minimum, less the padding if all cells
/// share it.
fn content_widths(
    alloc: Global,
    widths: &[usize],
    mins: &[usize],
    shared: Option<Sides<Indent>>,
) -> Result<Vec<Option<usize>>, AllocError>
    ensures { IfOk result (λ list. (column : ℕ) → slice_index_or list.items column None
        ≡ permitted_width widths.now mins.now (side_columns shared) column) }
{
    let mut list = Vec::with_capacity(alloc, widths.len())?;
    'columns: for column in 0..widths.len() {
        let inner = inner_width(widths[column], shared);
        let is_permitted = mins.get(column).copied().unwrap_or(0) <= widths[column];
        list.push(if is_permitted { Some(inner) } else { None })?;
    }
    Ok(list)
}

/// The widths of a table's columns, and the content width of each cell: its column's width less its
/// own padding. Cells of a column below its minimum have none.
#[derive(Drop)]
pub(crate) struct ColumnWidths<'a> {
    pub(crate) widths: Vec<usize>,
    // The content width of each column, or its width if its cells have paddings of their own.
    pub(crate) content: Vec<Option<usize>>,
    config: &'a SpannedConfig,
}

impl<'a> ContentSizes for ColumnWidths<'a> {
    ghost content_size_at = { content_of };

    #[inline(always)]
    fn content_size(&self, at: Position) -> Option<usize> {
        let width = self.content.get(at.column).copied().unwrap_or(None)?;
        if self.config.shared_padding().is_some() {
            return Some(width);
        }
        Some(inner_width(width, Some(self.config.get_padding(at))))
    }
}

/// Returns the widths to which the columns of a table shrink, so that its total is the measured
/// width, or `None` if the table isn't wider. Missing sizes are estimated first, and are stored
/// even if an error follows.
pub(crate) fn wanted_widths<'a, W: Measurement<Width>, P: Peaker + Drop, R: PeekableRecords>(
    size: &W,
    priority: P,
    records: &R,
    config: &'a SpannedConfig,
    sizes: &mut CompleteDimension,
) -> Result<Option<ColumnWidths<'a>>, TableError>
    ensures rectangular { IsRectangular (R.cells records.now) }
    ensures none { IfOk result (λ answer. IfNone answer
        (FitsAlready (W.measures size.now (R.cells records.now) config.now)
        (R.cells records.now) config.now sizes.old sizes.new)) }
    ensures some { let n = W.measures size.now (R.cells records.now) config.now in
        IfOk result (λ answer. IfSome answer (HasWidths (shrinking_to P.shrinks priority n)
        (sized_table (R.cells records.now) config.now sizes.old) sizes.new)) }
    ensures settings { IfOk result (λ answer.
        IfSome answer (λ found. found.config.now ≡ config.now)) }
    ensures err { IfErr result (λ e. StopsBeforeNarrowing
        (W.measures size.now (R.cells records.now) config.now) e
        (R.cells records.now) config.now sizes.old sizes.new) }
    ensures only { IfErr result (λ e. (e ≡ Memory) ⊎ ((e ≡ Range)
        × NarrowingOutOfRange (W.out_of_range size.now (R.cells records.now) config.now)
        (W.measures size.now (R.cells records.now) config.now)
        (R.cells records.now) config.now sizes.old)) }
{
    if is_empty(records) {
        return Ok(None);
    }
    let n = size.measure(records, config)?;
    sizes.estimate(records, config)?;
    narrowed_widths(priority, records, config, sizes, n)
}

/// Narrows a table to a total of the measured width, and changes its cells, column by column from
/// the top. Missing sizes are estimated first, and are stored even if an error follows.
pub(crate) fn narrow_table<
    T: TextTransform + Drop,
    W: Measurement<Width> + Drop,
    P: Peaker + Drop,
    R: RecordsMut,
>(
    option: Resize<T, W, P>,
    cell_filter: CellFilter,
    records: &mut R,
    config: &SpannedConfig,
    sizes: &mut CompleteDimension,
) -> Result<(), TableError>
    ensures rectangular { IsRectangular (R.cells records.old) }
    ensures ok { let n = W.measures option.size (R.cells records.old) config.now in
        OnOk result (Narrows (shrinking_to P.shrinks option.priority n)
        (if_taken cell_filter (T.makes option.transform))
        (sized_table (R.cells records.old) config.now sizes.old)
        (R.cells records.new) sizes.new) }
    ensures err { let n = W.measures option.size (R.cells records.old) config.now in
        IfErr result (λ e. (is_empty (R.cells records.old) ≡ false)
        × StopsNarrowing (shrinking_to P.shrinks option.priority n) (record {
          cell_filter = cell_filter;
          in_place = T.shortens option.transform;
          change = T.makes option.transform;
        }) e (sized_table (R.cells records.old) config.now sizes.old)
        (R.cells records.new) sizes.new) }
    ensures only { IfErr result (λ e. (e ≡ Memory) ⊎ ((e ≡ Range)
        × NarrowingOutOfRange (W.out_of_range option.size (R.cells records.old) config.now)
        (W.measures option.size (R.cells records.old) config.now)
        (R.cells records.old) config.now sizes.old)) }
{
    let priority = option.priority;
    let Some(found) = wanted_widths(&option.size, priority, records, config, sizes)? else {
        return Ok(());
    };
    let change = Change {
        transform: &option.transform,
        cell_filter,
        content_sizes: &found,
    };
    change_cells(&change, records, WalkOrder::ByColumn, Entity::Global)?;
    sizes.set_widths(found.widths);
    sizes.clear_height();
    Ok(())
}
