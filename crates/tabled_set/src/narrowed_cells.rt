//! The cells of a narrowed table, for records that are only borrowed: cells that are narrowed when
//! they are read, and cells that are made anew.
ghost use Rattle.std.specs.Prelude.{◌≡◌, ◌⊎◌, [], IfErr, IfOk, OnSome, false, is_some, true};
ghost use Rattle.std.specs.Prelude.{unwrap_or};
ghost use Rattle.tabled_entity.specs.Changes.{shared};
ghost use Rattle.tabled_set.specs.CellChanges.{if_taken, if_wider, truncating, wrapping};
ghost use Rattle.tabled_set.specs.Common.{IsRectangular, Memory, Range};
ghost use Rattle.tabled_set.specs.Narrowed.{MustNarrow, NarrowingOutOfRange, Narrows, StopsBeforeNarrowing};
ghost use Rattle.tabled_set.specs.NarrowedCells.{cells_of_or};
ghost use Rattle.tabled_set.specs.Priorities.{shrinking_to};
ghost use Rattle.tabled_set.specs.SizedTable.{sized_table};

use crate::measurement::{Measurement, Width};
use crate::narrowing::wanted_widths;
use crate::resize::{CellFilter, Change, Resize, TextTransform};
use crate::rewriting::changed_records;
use crate::truncate::Truncating;
use crate::wrap::Wrapping;
use tabled_base::{PeekableRecords, TableError};
use tabled_config::SpannedConfig;
use tabled_records::{CutLentRows, JoinedRecords, LentRows, WrappedLentRows};
use tabled_size::{CompleteDimension, Peaker};

/// The rows of a narrowed table.
///
/// ```rust
/// let rows = text_rows(alloc, "Grace Hopper\t1906\n")?;
/// let narrowed = Truncate::new(20).narrowed(&rows, &config, &mut sizes)?;
/// if let Some(NarrowedRows::Cut(cells)) = narrowed {
///     print_standing(sink, &cells, &config, &sizes)?;
/// }
/// ```
#[derive(Debug, Drop)]
pub enum NarrowedRows<'r, 't> {
    /// Rows of which each cell is cut when it is read.
    Cut(CutLentRows<'r, 't>),
    /// Rows of which each cell is wrapped when it is read.
    Wrapped(WrappedLentRows<'r, 't>),
    /// Rows that were made.
    Made(JoinedRecords),
}

/// Returns the cells of a table as `narrow_table` changes them, or `None` if it isn't too wide. The
/// sizes are stored as by `narrow_table`, but no record changes.
pub(crate) fn narrowed_records<
    T: TextTransform + Drop,
    W: Measurement<Width> + Drop,
    P: Peaker + Drop,
    R: PeekableRecords,
>(
    option: Resize<T, W, P>,
    cell_filter: CellFilter,
    records: &R,
    config: &SpannedConfig,
    sizes: &mut CompleteDimension,
) -> Result<Option<JoinedRecords>, TableError>
    ensures rectangular { IsRectangular (R.cells records.now) }
    ensures ok { let n = W.measures option.size (R.cells records.now) config.now in
        IfOk result (λ changed. Narrows (shrinking_to P.shrinks option.priority n)
        (if_taken cell_filter (T.makes option.transform))
        (sized_table (R.cells records.now) config.now sizes.old)
        (unwrap_or changed (R.cells records.now)) sizes.new) }
    ensures wider { IfOk result (λ changed. OnSome changed (MustNarrow
        (W.measures option.size (R.cells records.now) config.now)
        (R.cells records.now) config.now sizes.old)) }
    ensures err { IfErr result (λ e. StopsBeforeNarrowing
        (W.measures option.size (R.cells records.now) config.now) e
        (R.cells records.now) config.now sizes.old sizes.new) }
    ensures only { IfErr result (λ e. (e ≡ Memory) ⊎ ((e ≡ Range)
        × NarrowingOutOfRange (W.out_of_range option.size (R.cells records.now) config.now)
        (W.measures option.size (R.cells records.now) config.now)
        (R.cells records.now) config.now sizes.old)) }
{
    let priority = option.priority;
    let Some(found) = wanted_widths(&option.size, priority, records, config, sizes)? else {
        return Ok(None);
    };
    let change = Change {
        transform: &option.transform,
        cell_filter,
        content_sizes: &found,
    };
    let changed = changed_records(sizes.allocator(), &change, records)?;
    sizes.set_widths(found.widths);
    sizes.clear_height();
    Ok(Some(changed))
}

/// Returns the rows of a table, wrapped when they are read, or `None` if it isn't too wide. All
/// cells have the same padding. The sizes are stored as by `narrow_table`.
pub(crate) fn wrapped_rows<'r, 't, W: Measurement<Width> + Drop, P: Peaker + Drop>(
    option: Resize<Wrapping, W, P>,
    rows: &'r LentRows<'t>,
    config: &SpannedConfig,
    sizes: &mut CompleteDimension,
) -> Result<Option<NarrowedRows<'r, 't>>, TableError>
    requires { is_some (shared config.now.padding) ≡ true }
    ensures rectangular { IsRectangular rows.now }
    ensures ok { let n = W.measures option.size rows.now config.now in IfOk result (λ changed.
        Narrows (shrinking_to P.shrinks option.priority n) (wrapping option.transform.keep_words)
        (sized_table rows.now config.now sizes.old) (cells_of_or changed rows.now) sizes.new) }
    ensures wider { IfOk result (λ changed. OnSome changed (MustNarrow
        (W.measures option.size rows.now config.now) rows.now config.now sizes.old)) }
    ensures err { IfErr result (λ e. StopsBeforeNarrowing (W.measures option.size rows.now config.now) e
        rows.now config.now sizes.old sizes.new) }
    ensures only { IfErr result (λ e. (e ≡ Memory) ⊎ ((e ≡ Range)
        × NarrowingOutOfRange (W.out_of_range option.size rows.now config.now)
        (W.measures option.size rows.now config.now) rows.now config.now sizes.old)) }
{
    let words = option.transform.keep_words;
    let priority = option.priority;
    let Some(found) = wanted_widths(&option.size, priority, rows, config, sizes)? else {
        return Ok(None);
    };
    rows.are_texts();
    let wrapped = WrappedLentRows::new(sizes.allocator(), rows, found.content, words)?;
    sizes.set_widths(found.widths);
    sizes.clear_height();
    Ok(Some(NarrowedRows::Wrapped(wrapped)))
}

/// Returns the rows of a table, cut when they are read, or `None` if it isn't too wide. All cells
/// have the same padding. The sizes are stored as by `narrow_table`.
pub(crate) fn cut_rows<'r, 't, W: Measurement<Width> + Drop, P: Peaker + Drop>(
    option: Resize<Truncating<'_>, W, P>,
    rows: &'r LentRows<'t>,
    config: &SpannedConfig,
    sizes: &mut CompleteDimension,
) -> Result<Option<NarrowedRows<'r, 't>>, TableError>
    requires { is_some (shared config.now.padding) ≡ true }
    ensures rectangular { IsRectangular rows.now }
    ensures ok { let n = W.measures option.entry.size rows.now config.now in
        IfOk result (λ changed. Narrows (shrinking_to P.shrinks option.entry.priority n)
        (if_wider (truncating [] option.entry.transform.limit false))
        (sized_table rows.now config.now sizes.old) (cells_of_or changed rows.now) sizes.new) }
    ensures wider { IfOk result (λ changed. OnSome changed (MustNarrow
        (W.measures option.entry.size rows.now config.now) rows.now config.now sizes.old)) }
    ensures err { IfErr result (λ e. StopsBeforeNarrowing
        (W.measures option.entry.size rows.now config.now) e
        rows.now config.now sizes.old sizes.new) }
    ensures only { IfErr result (λ e. (e ≡ Memory) ⊎ ((e ≡ Range)
        × NarrowingOutOfRange (W.out_of_range option.entry.size rows.now config.now)
        (W.measures option.entry.size rows.now config.now) rows.now config.now sizes.old)) }
{
    let priority = option.priority;
    let Some(found) = wanted_widths(&option.size, priority, rows, config, sizes)? else {
        return Ok(None);
    };
    rows.are_texts();
    let cut = CutLentRows::new(sizes.allocator(), rows, found.content)?;
    sizes.set_widths(found.widths);
    sizes.clear_height();
    Ok(Some(NarrowedRows::Cut(cut)))
}
