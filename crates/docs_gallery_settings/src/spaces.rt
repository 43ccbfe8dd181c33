//! Padding and margins. The sides come in the order left, right, top, bottom.

use tabled::grid::config::{Entity, Indent, Sides};
use tabled::settings::object::Columns;
use tabled::settings::padding_expand::PaddingExpand;
use tabled::settings::{Margin, Padding};
use tabled::{Table, TableError};

/// Padding around the texts of all cells.
pub fn padding(table: &mut Table) -> Result<(), TableError> {
    table.with(Padding::new(3, 1, 1, 0))?;
    Ok(())
}

/// No padding.
pub fn no_padding(table: &mut Table) -> Result<(), TableError> {
    table.with(Padding::zero())?;
    Ok(())
}

/// Padding of other characters than spaces.
pub fn filled(table: &mut Table) -> Result<(), TableError> {
    table.with(Padding::new(2, 2, 1, 0).fill('>', '<', '.', ' '))?;
    Ok(())
}

/// Padding in a direction that is chosen at run time.
pub fn expanded(table: &mut Table) -> Result<(), TableError> {
    let padding = match Padding::expand(false) {
        PaddingExpand::Horizontal => Padding::new(3, 3, 0, 0),
        PaddingExpand::Vertical => Padding::new(0, 0, 1, 1),
    };
    table.with(padding)?;
    Ok(())
}

/// Padding in one column.
pub fn of_a_column(table: &mut Table) -> Result<(), TableError> {
    table.modify(Columns::one(1), Padding::new(4, 0, 0, 0))?;
    Ok(())
}

/// The same as a setting of the configuration.
pub fn configured(table: &mut Table) -> Result<(), TableError> {
    let none = Indent::zero();
    let padding = Sides::new(Indent::spaced(4), none, none, none);
    let config = table.get_config_mut().as_mut();
    config.set_padding(Entity::Column(1), padding)
}

/// A margin around the frame.
pub fn margin(table: &mut Table) -> Result<(), TableError> {
    table.with(Margin::new(4, 0, 0, 0))?;
    Ok(())
}

/// A margin of other characters than spaces.
pub fn filled_margin(table: &mut Table) -> Result<(), TableError> {
    table.with(Margin::new(2, 2, 1, 1).fill('>', '<', 'v', '^'))?;
    Ok(())
}
