//! Changes the cells of an entity, one after another.
ghost use Rattle.std.specs.Prelude.{◌≡◌, ◌≤◌, ◌<◌, ◌==◌, ◌&&◌, ◌⊎◌, ℕ, IfErr, OnErr, OnOk, length};
ghost use Rattle.std.specs.Prelude.{true};
ghost use Rattle.tabled_set.specs.Common.{columns, covers, IsInside, Memory};
ghost use Rattle.tabled_set.specs.CellChanges.{line_of, place_of, AreChanged, AreChangedBefore};
ghost use Rattle.tabled_set.specs.CellChanges.{ByRow, for_content_size, if_taken, is_within};
ghost use Rattle.tabled_set.specs.CellChanges.{lines_in, NeedNoMemory, needs, on_line, places_in};

use crate::resize::{Change, ContentSizes, TextTransform};
use std::ops::Range;
use tabled_base::{Entity, ExactRecords, Position, RecordsMut, TableError};

/// The order in which cells are changed. It decides which of them have changed after an error.
#[derive(Clone, Copy, Debug)]
pub enum WalkOrder {
    /// Row by row, each from the left.
    ByRow,
    /// Column by column, each from the top.
    ByColumn,
}

impl WalkOrder {
    /// Returns the position of the cell at index `place` of a line, which is a row or a column.
    pub(crate) fn cell(self, line: usize, place: usize) -> Position
        ensures line { line_of self result.row result.column ≡ line }
        ensures place { place_of self result.row result.column ≡ place }
    {
        match self {
            WalkOrder::ByRow => Position::new(line, place),
            WalkOrder::ByColumn => Position::new(place, line),
        }
    }
}

/// Returns the range of one of `count` rows or columns, empty if `place` is out of range.
fn one_of(place: usize, count: usize) -> Range<usize>
    ensures within { (k : ℕ) → k < count → is_within result k ≡ (place == k) }
    ensures end { result.end ≤ count }
{
    place..place.saturating_add(1).min(count)
}

/// Returns the lines of an entity's cells and their places in each.
pub(crate) fn lines_of_entity<R: ExactRecords>(
    entity: Entity,
    order: WalkOrder,
    records: &R,
) -> (Range<usize>, Range<usize>)
    ensures cells { (r c : ℕ) → IsInside (R.cells records.now) r c
        → covers entity r c
        ≡ (is_within result.0 (line_of order r c) && is_within result.1 (place_of order r c)) }
    ensures lines { result.0.end ≤ lines_in order (R.cells records.now) }
    ensures places { result.1.end ≤ places_in order (R.cells records.now) }
{
    let (rows, columns) = (records.count_rows(), records.count_columns());
    let (rows, columns) = match entity {
        Entity::Global => (0..rows, 0..columns),
        Entity::Row(row) => (one_of(row, rows), 0..columns),
        Entity::Column(column) => (0..rows, one_of(column, columns)),
        Entity::Cell(row, column) => (one_of(row, rows), one_of(column, columns)),
    };
    match order {
        WalkOrder::ByRow => (rows, columns),
        WalkOrder::ByColumn => (columns, rows),
    }
}

fn change_line<T: TextTransform, M: ContentSizes, R: RecordsMut>(
    by: &Change<'_, T, M>,
    records: &mut R,
    order: WalkOrder,
    line: usize,
    band: &Range<usize>,
) -> Result<(), TableError>
    requires line_in { line < lines_in order (R.cells records.old) }
    requires places_in { band.now.end ≤ places_in order (R.cells records.old) }
    ensures ok { let it = by.now in OnOk result (AreChanged (on_line order line band.now)
        (for_content_size (if_taken it.cell_filter (T.makes it.transform.now))
        (M.content_size_at it.content_sizes.now))
        (R.cells records.old) (R.cells records.new)) }
    ensures err { let it = by.now in
        OnErr result (AreChangedBefore order (on_line order line band.now)
        (needs it.cell_filter (T.shortens it.transform.now)
        (M.content_size_at it.content_sizes.now))
        (for_content_size (if_taken it.cell_filter (T.makes it.transform.now))
        (M.content_size_at it.content_sizes.now))
        (R.cells records.old) (R.cells records.new)) }
    ensures only { IfErr result (λ e. e ≡ Memory) }
{
    let mut out = String::new(records.allocator());
    'places: for place in band.start..band.end {
        by.change_cell(records, order.cell(line, place), &mut out)?;
    }
    Ok(())
}

fn are_cut_in_place_in<T: TextTransform, M: ContentSizes, R: RecordsMut>(
    by: &Change<'_, T, M>,
    records: &R,
    row: usize,
    band: &Range<usize>,
) -> bool
    requires row_in { row < length (R.cells records.now) }
    requires columns_in { band.now.end ≤ columns (R.cells records.now) }
    ensures { let it = by.now in result ≡ true → NeedNoMemory (on_line ByRow row band.now)
        (needs it.cell_filter (T.shortens it.transform.now)
        (M.content_size_at it.content_sizes.now)) (R.cells records.now) }
{
    'columns: for column in band.start..band.end {
        let at = Position { row, column };
        let Some(content_size) = by.content_sizes.content_size(at) else {
            continue;
        };
        let (text, columns, lines) = records.get_measured(at);
        let is_taken = by.cell_filter.takes(columns, lines, content_size);
        if is_taken && by.transform.beginning(text, content_size).is_none() {
            return false;
        }
    }
    true
}

/// Returns the order in which the cells of an entity are changed: in memory order if each of them
/// doesn't change or is cut in place, so that nothing is allocated and the order can't be seen.
fn order_for<T: TextTransform, M: ContentSizes, R: RecordsMut>(
    by: &Change<'_, T, M>,
    records: &R,
    order: WalkOrder,
    entity: Entity,
) -> WalkOrder
    ensures { let it = by.now in (result ≡ order) ⊎ NeedNoMemory (covers entity)
        (needs it.cell_filter (T.shortens it.transform.now)
        (M.content_size_at it.content_sizes.now)) (R.cells records.now) }
{
    if let WalkOrder::ByRow = order {
        return order;
    }
    let (rows, columns) = lines_of_entity(entity, WalkOrder::ByRow, records);
    'rows: for row in rows.start..rows.end {
        if !are_cut_in_place_in(by, records, row, &columns) {
            return order;
        }
    }
    WalkOrder::ByRow
}

/// Changes the entity's cells that have a content size and pass the filter, in the given order. No
/// other cell changes. Fails only with `Memory`, at one of these cells that can't be cut in place.
/// That cell and those after it are unchanged.
pub(crate) fn change_cells<T: TextTransform, M: ContentSizes, R: RecordsMut>(
    by: &Change<'_, T, M>,
    records: &mut R,
    order: WalkOrder,
    entity: Entity,
) -> Result<(), TableError>
    ensures ok { let it = by.now in OnOk result (AreChanged (covers entity)
        (for_content_size (if_taken it.cell_filter (T.makes it.transform.now))
        (M.content_size_at it.content_sizes.now))
        (R.cells records.old) (R.cells records.new)) }
    ensures err { let it = by.now in OnErr result (AreChangedBefore order (covers entity)
        (needs it.cell_filter (T.shortens it.transform.now)
        (M.content_size_at it.content_sizes.now))
        (for_content_size (if_taken it.cell_filter (T.makes it.transform.now))
        (M.content_size_at it.content_sizes.now))
        (R.cells records.old) (R.cells records.new)) }
    ensures only { IfErr result (λ e. e ≡ Memory) }
{
    let walked = order_for(by, records, order, entity);
    let (lines, places) = lines_of_entity(entity, walked, records);
    'lines: for line in lines.start..lines.end {
        change_line(by, records, walked, line, &places)?;
    }
    Ok(())
}
