//! Reading rows one by one, and cells to their end.
ghost use Rattle.std.specs.Prelude.{◌≡◌, ◌<◌, ◌≤◌, ◌∷◌, ◌++◌, List, [], false, true, length, IfErr};
ghost use Rattle.std.specs.Prelude.{IfOk, OnErr};
ghost use Rattle.std.specs.Prelude.{OnOk, MatchOption, Some, None};
ghost use Rattle.std.specs.Iterator.{IsFinite, IsFiniteIterable, YieldsThen, size};
ghost use Rattle.tabled_base.specs.declared.error.TableError.TheVariants.{Memory};
ghost use Rattle.tabled_base.specs.Given.{Given};
ghost use Rattle.tabled_records.specs.Buffered.{cells_ahead};
ghost use Rattle.tabled_records.specs.Reading.{IsAppended, MayGive, Reads, ReadsSome, ReadsTo};
ghost use Rattle.tabled_records.specs.Reading.{Walked};

use std::alloc::Global;
use tabled_base::TableError;

/// Appends cells to a row. Error: `Memory`; the cells after the failed one aren't read then.
fn keep_cells<I: Iterator<Item = C>, C: Drop>(
    row: &mut Vec<C>,
    cells: &mut I,
) -> Result<(), TableError>
    requires can { I.can_next cells.old }
    requires finite { IsFinite (I.remaining cells.old) }
    ensures ok { OnOk result ((items : List C)
        × YieldsThen I.next_gives cells.old items None cells.new
        × (row.new.items ≡ row.old.items ++ items)) }
    ensures err { OnErr result (Walked I.can_next I.next_gives I.remaining cells.old cells.new) }
    ensures only { IfErr result (λ e. e ≡ Memory) }
{
    'cells: while let Some(cell) = cells.next() {
        row.push(cell)?;
    }
    Ok(())
}

/// Appends the cells of a row to a list. Error: `Memory`; the other cells are read and dropped
/// then, so that a source whose rows share their input goes on with its next row.
fn append_row<I: IntoIterator<Item = C>, C: Drop>(
    list: &mut Vec<C>,
    cells: I,
) -> Result<(), TableError>
    requires { IsFiniteIterable I.into_iter_gives I.IntoIter.can_next I.IntoIter.remaining cells }
    ensures ok { OnOk result ((row : List C)
        × Given I.into_iter_gives I.IntoIter.next_gives cells row
        × (list.new.items ≡ list.old.items ++ row)) }
    ensures err { OnErr result ((row : List C)
        × Given I.into_iter_gives I.IntoIter.next_gives cells row) }
    ensures only { IfErr result (λ e. e ≡ Memory) }
{
    let mut cells = cells.into_iter();
    if let Err(error) = keep_cells(list, &mut cells) {
        walk_rest(&mut cells);
        return Err(error);
    }
    Ok(())
}

/// Appends the cells of the next row to a list. Returns whether there is a row. Error: `Memory`,
/// only if there is a row; its cells are read to their end then.
pub fn append_cells<I: Iterator<Item = W>, W: IntoIterator<Item = C>, C: Drop>(
    list: &mut Vec<C>,
    rows: &mut I,
) -> Result<bool, TableError>
    requires { MayGive I.can_next I.next_gives I.remaining W.into_iter_gives W.IntoIter.can_next
        W.IntoIter.remaining rows.old }
    ensures ok { IfOk result (λ more. IsAppended I.next_gives W.into_iter_gives
        W.IntoIter.next_gives
        rows.old list.old.items more list.new.items rows.new) }
    ensures goes { IfOk result (λ more. more ≡ true
        → MayGive I.can_next I.next_gives I.remaining W.into_iter_gives W.IntoIter.can_next W.IntoIter.remaining rows.new
        × (size (I.remaining rows.new) < size (I.remaining rows.old))) }
    ensures err { OnErr result ((row : List C)
        × Reads I.next_gives W.into_iter_gives W.IntoIter.next_gives rows.old (row ∷ []) rows.new) }
    ensures only { IfErr result (λ e. e ≡ Memory) }
{
    match rows.next() {
        Some(row) => {
            append_row(list, row)?;
            Ok(true)
        }
        None => Ok(false),
    }
}

/// Reads the cells of the next row, if there is one. Error: `Memory`, only if there is a row; its
/// cells are read to their end then.
pub fn next_cells<I: Iterator<Item = W>, W: IntoIterator<Item = C>, C: Drop>(
    alloc: Global,
    rows: &mut I,
) -> Result<Option<Vec<C>>, TableError>
    requires { MayGive I.can_next I.next_gives I.remaining W.into_iter_gives W.IntoIter.can_next
        W.IntoIter.remaining rows.old }
    ensures ok { IfOk result (λ next. MatchOption next (I.next_gives rows.old None rows.new)
        (λ row. Reads I.next_gives W.into_iter_gives W.IntoIter.next_gives rows.old
        (row.items ∷ []) rows.new)) }
    ensures goes { IfOk result (λ next. MatchOption next (Unit {0})
        (λ row. MayGive I.can_next I.next_gives I.remaining W.into_iter_gives W.IntoIter.can_next
        W.IntoIter.remaining rows.new
        × (size (I.remaining rows.new) < size (I.remaining rows.old)))) }
    ensures err { OnErr result ((row : List C)
        × Reads I.next_gives W.into_iter_gives W.IntoIter.next_gives rows.old (row ∷ []) rows.new) }
    ensures only { IfErr result (λ e. e ≡ Memory) }
{
    let mut row = Vec::new(alloc);
    let more = append_cells(&mut row, rows)?;
    Ok(if more { Some(row) } else { None })
}

/// Rows that were read, and whether they are all.
#[derive(Drop)]
pub struct Taken<R> {
    /// The rows, with their cells.
    pub rows: R,
    /// Whether there are no more rows.
    pub whole: bool,
}

/// Reads the first `count` rows, or all if there are fewer. Requests no row after these. Error:
/// `Memory`, only if there is a row.
pub(crate) fn take_rows<I: Iterator<Item = W>, W: IntoIterator<Item = C>, C: Drop>(
    alloc: Global,
    rows: &mut I,
    count: usize,
) -> Result<Taken<Vec<Vec<C>>>, TableError>
    requires { MayGive I.can_next I.next_gives I.remaining W.into_iter_gives W.IntoIter.can_next
        W.IntoIter.remaining rows.old }
    ensures ok { IfOk result (λ taken. ReadsTo I.next_gives W.into_iter_gives W.IntoIter.next_gives
        rows.old
        (cells_ahead taken.rows.items) taken.whole rows.new) }
    ensures open { IfOk result (λ taken. taken.whole ≡ false → (length taken.rows.items ≡ count)
        × MayGive I.can_next I.next_gives I.remaining W.into_iter_gives W.IntoIter.can_next W.IntoIter.remaining rows.new) }
    ensures within { IfOk result (λ taken. length taken.rows.items ≤ count) }
    ensures fewer { IfOk result (λ taken. taken.whole ≡ true → length taken.rows.items < count) }
    ensures only { IfErr result (λ e. e ≡ Memory) }
    ensures err { OnErr result (ReadsSome I.next_gives W.into_iter_gives W.IntoIter.next_gives
        rows.old count rows.new) }
{
    let mut taken = Vec::new(alloc);
    'rows: while taken.len() < count {
        match next_cells(alloc, rows)? {
            Some(cells) => taken.push(cells)?,
            None => {
                return Ok(Taken {
                    rows: taken,
                    whole: true,
                });
            }
        }
    }
    Ok(Taken {
        rows: taken,
        whole: false,
    })
}

/// Reads the remaining cells and drops them.
pub(crate) fn walk_rest<I: Iterator>(cells: &mut I)
where
    I::Item: Drop,
    requires can { I.can_next cells.old }
    requires finite { IsFinite (I.remaining cells.old) }
    ensures walked { (items : List I.Item)
        × YieldsThen I.next_gives cells.old items None cells.new }
    ensures finite { IsFinite (I.remaining cells.new) }
{
    while let Some(_cell) = cells.next() {}
}
