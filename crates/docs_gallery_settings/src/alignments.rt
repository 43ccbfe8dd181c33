//! Alignments. Each is an option for the whole table or a part of it, and also a setting of
//! the configuration. The last one that covers a cell wins.

use tabled::grid::config::{AlignmentHorizontal, Entity};
use tabled::settings::Alignment;
use tabled::settings::object::{Columns, Rows};
use tabled::{Table, TableError};

/// A column at the right, as for numbers.
pub fn right(table: &mut Table) -> Result<(), TableError> {
    table.modify(Columns::one(1), Alignment::right())?;
    Ok(())
}

/// The same as a setting of the configuration.
pub fn by_setting(table: &mut Table) -> Result<(), TableError> {
    let config = table.get_config_mut().as_mut();
    config.set_alignment_horizontal(Entity::Column(1), AlignmentHorizontal::Right)
}

/// All texts in the middle. An odd space goes to the right.
pub fn center(table: &mut Table) -> Result<(), TableError> {
    table.with(Alignment::center())?;
    Ok(())
}

/// A column at the right. Its first cell is set later, to the left.
pub fn last_one_wins(table: &mut Table) -> Result<(), TableError> {
    let config = table.get_config_mut().as_mut();
    config.set_alignment_horizontal(Entity::Column(1), AlignmentHorizontal::Right)?;
    config.set_alignment_horizontal(Entity::Cell(0, 1), AlignmentHorizontal::Left)
}

/// The lines of a text move together.
pub fn block(table: &mut Table) -> Result<(), TableError> {
    let config = table.get_config_mut().as_mut();
    config.set_alignment_horizontal(Entity::Global, AlignmentHorizontal::Right)
}

/// Each line of a text moves alone.
pub fn lines(table: &mut Table) -> Result<(), TableError> {
    let config = table.get_config_mut().as_mut();
    config.set_line_alignment(Entity::Column(1), true)?;
    config.set_alignment_horizontal(Entity::Global, AlignmentHorizontal::Right)
}

/// Half way down.
pub fn middle(table: &mut Table) -> Result<(), TableError> {
    table.with(Alignment::center_vertical())?;
    Ok(())
}

/// At the bottom.
pub fn bottom(table: &mut Table) -> Result<(), TableError> {
    table.modify(Rows::first(), Alignment::bottom())?;
    Ok(())
}
