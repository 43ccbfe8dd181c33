//! Options for some cells of a table.
ghost use Rattle.std.specs.Prelude.{◌≡◌, ◌⊎◌, IfErr, ⊤};
ghost use Rattle.tabled_base.specs.declared.error.TableError.TheVariants.{Memory, Range};

use crate::applying::{Stored, stored};
use crate::sheet::{Sheet, table_of};
use std::alloc::Global;
use tabled_base::{
    CellOption, Entity, ExactRecords, PeekableRecords, Position, RecordsMut, Segment, TableError,
    Text, VecRecords,
};
use tabled_config::{AlignmentHorizontal, ColoredConfig};
use tabled_table::Table;

// Aligns cells to the right. A single cell also gets the text of its left neighbour as a prefix and
// a dot as a suffix, or fails with `Range` if it is `!`.
#[derive(Drop)]
struct Joins;

impl CellOption<VecRecords<Text<String>>, ColoredConfig> for Joins {
    ghost changes = { λ _ _ _ _ _ _. ⊤ };

    ghost fails = { λ _ _ _ _ _ _ _. ⊤ };

    ghost out_of_range = { λ _ _ _ _. ⊤ };

    fn change(
        &self,
        records: &mut VecRecords<Text<String>>,
        cfg: &mut ColoredConfig,
        entity: Entity,
    ) -> Result<(), TableError> {
        let config = cfg.as_mut();
        config.set_alignment_horizontal(entity, AlignmentHorizontal::Right)?;
        match entity {
            Entity::Cell(row, column) => join(records, row, column),
            _ => Ok(()),
        }
    }

    fn hint_change(&self) -> Option<Entity> {
        Some(Entity::Global)
    }

    fn needs_undo(&self) -> bool {
        true
    }
}

// Adds the prefix and the suffix to a cell.
fn join(records: &mut VecRecords<Text<String>>, row: usize, column: usize) -> Result<(), TableError>
    ensures only { IfErr result (λ e. (e ≡ Memory) ⊎ (e ≡ Range)) }
{
    if row >= records.count_rows() || column >= records.count_columns() {
        return Ok(());
    }
    let at = Position::new(row, column);
    if records.get_text(at) == "!" {
        return Err(TableError::Range);
    }
    let mut text = String::new(records.allocator());
    if column > 0 {
        text.push_str(records.get_text(Position::new(row, column - 1)))?;
    }
    text.push_str(records.get_text(at))?;
    text.push_str(".")?;
    records.set(at, text)
}

/// Applies `Joins` to each cell. Returns its result, which sizes are stored after it, and whether
/// the first cell is aligned to the right.
pub fn joined(
    alloc: Global,
    sheet: &Sheet,
) -> Result<(Result<(), TableError>, Stored, bool), TableError> {
    let mut table = table_of(alloc, sheet)?;
    let answer = table.apply_to(Segment::new(.., ..), &Joins);
    Ok((answer, stored(&table), is_at_the_right(&table)))
}

/// Prints a table after `Joins`.
pub fn joined_picture(alloc: Global, sheet: &Sheet) -> Result<String, TableError> {
    let mut table = table_of(alloc, sheet)?;
    let _answer = table.apply_to(Segment::new(.., ..), &Joins);
    table.to_string()
}

// Whether the first cell is aligned to the right.
fn is_at_the_right(table: &Table) -> bool {
    let config = table.get_config().as_ref();
    config.get_alignment_horizontal(Position::new(0, 0)) == AlignmentHorizontal::Right
}
