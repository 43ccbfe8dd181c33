//! A table option that fails, and the sizes that stay stored.
ghost use Rattle.std.specs.Prelude.{None, ⊤};

use crate::sheet::{Sheet, table_of};
use std::alloc::Global;
use tabled_base::{
    Entity, ExactRecords, Position, RecordsMut, Settings, TableError, TableOption, Text, VecRecords,
};
use tabled_config::{ColoredConfig, Style};
use tabled_table::Table;

/// Whether widths are stored, and whether heights are stored.
pub type Stored = (bool, bool);

/// Returns which sizes of a table are stored.
pub fn stored(table: &Table) -> Stored {
    let sizes = table.get_dimension();
    (sizes.get_widths().is_some(), sizes.get_heights().is_some())
}

// Sets modern borders, empties the second cell of the first row, then fails. It gives no hint.
#[derive(Drop)]
struct Broken;

impl<D> TableOption<VecRecords<Text<String>>, ColoredConfig, D> for Broken {
    ghost changes = { λ _ _ _ _ _ _ _. ⊤ };

    ghost fails = { λ _ _ _ _ _ _ _ _. ⊤ };

    ghost out_of_range = { λ _ _ _ _. ⊤ };

    ghost hint = { λ _. None };

    fn change(
        self,
        records: &mut VecRecords<Text<String>>,
        cfg: &mut ColoredConfig,
        _dims: &mut D,
    ) -> Result<(), TableError> {
        cfg.as_mut().set_borders(Style::modern().get_borders());
        if records.count_rows() > 0 && records.count_columns() > 1 {
            let empty = String::new(records.allocator());
            records.set(Position::new(0, 1), empty)?;
        }
        Err(TableError::Memory)
    }

    fn hint_change(&self) -> Option<Entity> {
        None
    }
}

/// Applies `Broken`. Returns its result, and which sizes are stored after it.
pub fn broken_off(
    alloc: Global,
    sheet: &Sheet,
) -> Result<(Result<(), TableError>, Stored), TableError> {
    let mut table = table_of(alloc, sheet)?;
    let answer = table.apply(Broken);
    Ok((answer, stored(&table)))
}

/// Prints a table after `Broken`.
pub fn picture_of_broken(alloc: Global, sheet: &Sheet) -> Result<String, TableError> {
    let mut table = table_of(alloc, sheet)?;
    let _answer = table.apply(Broken);
    table.to_text()
}

/// Prints a table after two options in turn: modern borders, and `Broken`.
pub fn picture_of_broken_settings(alloc: Global, sheet: &Sheet) -> Result<String, TableError> {
    let mut table = table_of(alloc, sheet)?;
    let _answer = table.apply(Settings::new(Style::modern(), Broken));
    table.to_text()
}
