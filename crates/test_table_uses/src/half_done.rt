//! Two cell options in turn, of which the second one fails at a cell.
ghost use Rattle.std.specs.Prelude.{◌≡◌, ◌⊎◌, IfErr, ⊤};
ghost use Rattle.tabled_base.specs.declared.error.TableError.TheVariants.{Memory, Range};

use crate::sheet::{Sheet, table_of};
use std::alloc::Global;
use tabled_base::{
    CellOption, Entity, ExactRecords, Object, PeekableRecords, Position, RecordsMut, Segment,
    Settings, TableError, Text, VecRecords,
};
use tabled_config::{AlignmentHorizontal, ColoredConfig};
use tabled_table::Table;

// Aligns cells to the right. A single cell also gets a digit behind it; the second option fails
// with `Range` at `b1`.
#[derive(Clone, Copy, Drop)]
enum Marks {
    First,
    Second,
}

impl CellOption<VecRecords<Text<String>>, ColoredConfig> for Marks {
    ghost changes = { λ _ _ _ _ _ _. ⊤ };

    ghost fails = { λ _ _ _ _ _ _ _. ⊤ };

    ghost out_of_range = { λ _ _ _ _. ⊤ };

    fn change(
        &self,
        records: &mut VecRecords<Text<String>>,
        cfg: &mut ColoredConfig,
        entity: Entity,
    ) -> Result<(), TableError> {
        let config = cfg.as_mut();
        config.set_alignment_horizontal(entity, AlignmentHorizontal::Right)?;
        match entity {
            Entity::Cell(row, column) => mark_cell(*self, records, row, column),
            _ => Ok(()),
        }
    }

    fn hint_change(&self) -> Option<Entity> {
        Some(Entity::Global)
    }

    fn needs_undo(&self) -> bool {
        true
    }
}

// Adds the digit of an option to a cell.
fn mark_cell(
    option: Marks,
    records: &mut VecRecords<Text<String>>,
    row: usize,
    column: usize,
) -> Result<(), TableError>
    ensures only { IfErr result (λ e. (e ≡ Memory) ⊎ (e ≡ Range)) }
{
    if row >= records.count_rows() || column >= records.count_columns() {
        return Ok(());
    }
    let at = Position::new(row, column);
    let mut text = String::new(records.allocator());
    text.push_str(records.get_text(at))?;
    match option {
        Marks::First => text.push_str("1")?,
        Marks::Second => {
            if text.as_str() == "b1" {
                return Err(TableError::Range);
            }
            text.push_str("2")?
        }
    }
    records.set(at, text)
}

fn mark<T: Object<VecRecords<Text<String>>> + Drop>(
    table: &mut Table,
    target: T,
) -> Result<(), TableError> {
    table.apply_to(target, &Settings::new(Marks::First, Marks::Second))
}

/// Marks all cells, one after another. Returns the result, and prints the table.
pub fn half_marked(
    alloc: Global,
    sheet: &Sheet,
) -> Result<(Result<(), TableError>, String), TableError> {
    let mut table = table_of(alloc, sheet)?;
    let answer = mark(&mut table, Segment::new(.., ..));
    Ok((answer, table.to_text()?))
}

/// Marks the second cell. Returns the result, and prints the table.
pub fn half_marked_cell(
    alloc: Global,
    sheet: &Sheet,
) -> Result<(Result<(), TableError>, String), TableError> {
    let mut table = table_of(alloc, sheet)?;
    let answer = mark(&mut table, (0, 1));
    Ok((answer, table.to_text()?))
}
