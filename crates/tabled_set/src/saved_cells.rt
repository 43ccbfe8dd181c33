//! Copies of the cells of an entity, which are put back if a change fails.
ghost use Rattle.std.specs.Prelude.{◌≡◌, ◌≤◌, ◌<◌, ◌==◌, ◌&&◌, ◌||◌, ℕ, IfErr, IfOk, List, OnOk};
ghost use Rattle.std.specs.Prelude.{length, string_bytes};
ghost use Rattle.tabled_set.specs.CellChanges.{AreChanged, is_within};
ghost use Rattle.tabled_set.specs.Common.{Cell, Memory, cell_at, columns, covers};
ghost use Rattle.tabled_set.specs.PutBack.{AreCopies, is_part, is_saved};

use crate::walk::{WalkOrder, lines_of_entity};
use std::ops::Range;
use tabled_base::{
    Entity, ExactRecords, PeekableRecords, Position, RecordsMut, TableError, Text, VecRecords,
};

/// A copy of a cell's text.
#[derive(Debug, Drop)]
pub struct SavedCell {
    at: Position,
    text: String,
}

/// Returns copies of the cells of an entity. Fails only with `Memory`, if an allocation fails.
pub fn save_cells(
    records: &VecRecords<Text<String>>,
    entity: Entity,
) -> Result<Vec<SavedCell>, TableError>
    ensures texts { IfOk result (λ saved. AreCopies records.now saved.items) }
    ensures cells { IfOk result (λ saved. (r k : ℕ)
        → is_saved saved.items r k ≡ is_part entity records.now r k) }
    ensures only { IfErr result (λ e. e ≡ Memory) }
{
    let (rows, columns) = lines_of_entity(entity, WalkOrder::ByRow, records);
    let mut saved = Vec::new(records.allocator());
    'rows: for row in rows.start..rows.end {
        save_row(records, row, &columns, &mut saved)?;
    }
    Ok(saved)
}

/// Adds copies of some cells of a row. Fails only with `Memory`, if an allocation fails.
fn save_row(
    records: &VecRecords<Text<String>>,
    row: usize,
    band: &Range<usize>,
    saved: &mut Vec<SavedCell>,
) -> Result<(), TableError>
    requires row_in { row < length records.now }
    requires columns_in { band.now.end ≤ columns records.now }
    requires texts { AreCopies records.now saved.old.items }
    ensures texts { OnOk result (AreCopies records.now saved.new.items) }
    ensures cells { OnOk result ((r k : ℕ) → is_saved saved.new.items r k
        ≡ (is_saved saved.old.items r k || (r == row && is_within band.now k))) }
    ensures only { IfErr result (λ e. e ≡ Memory) }
{
    'columns: for column in band.start..band.end {
        let at = Position { row, column };
        let text = String::from_str(records.allocator(), records.get_text(at))?;
        saved.push(SavedCell { at, text })?;
    }
    Ok(())
}

/// Puts the texts of some cells back. Cells that are no longer there are left out. Nothing is
/// allocated.
pub fn put_back(records: &mut VecRecords<Text<String>>, saved: Vec<SavedCell>)
    ensures { (before : List (List (List ℕ))) → AreCopies before saved.items
        → AreChanged (is_saved saved.items) (λ row column old new. new ≡ cell_at before row column)
        records.old records.new }
{
    'cells: for cell in saved {
        put_cell(records, cell);
    }
}

/// Puts the text of a cell back, if the cell is there.
fn put_cell(records: &mut VecRecords<Text<String>>, cell: SavedCell)
    ensures { AreChanged (covers (Cell cell.at.row cell.at.column))
        (λ row column old new. new ≡ string_bytes cell.text) records.old records.new }
{
    let SavedCell { at, text } = cell;
    if at.row < records.count_rows() && at.column < records.count_columns() {
        let _always_set = records.set(at, text);
    }
}
