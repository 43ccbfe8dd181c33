//! Borders and lines. A line is drawn if one of its characters is set; characters that aren't
//! set are spaces.

use tabled::grid::config::{AlignmentHorizontal, Borders, CompactConfig, HorizontalLine};
use tabled::settings::Style;
use tabled::{Table, TableError};

/// The borders of a style, with one character changed.
pub fn changed(table: &mut Table) -> Result<(), TableError> {
    let config = table.get_config_mut().as_mut();
    config.set_borders(Borders {
        intersection: Some('o'),
        ..Style::ascii().get_borders()
    });
    Ok(())
}

/// Lines above, below and between columns, of your own characters.
pub fn own(table: &mut Table) -> Result<(), TableError> {
    let config = table.get_config_mut().as_mut();
    config.set_borders(Borders {
        top: Some('='),
        bottom: Some('='),
        vertical: Some(':'),
        ..Borders::empty()
    });
    Ok(())
}

/// A line above the row of an index, counted from 0. The number of rows is the index of the line
/// below the last row.
pub fn line(table: &mut Table) -> Result<(), TableError> {
    let config = table.get_config_mut().as_mut();
    let double = HorizontalLine {
        main: Some('='),
        left: Some('#'),
        intersection: Some('#'),
        right: Some('#'),
    };
    config.insert_horizontal_line(1, double)
}

/// `remove_horizontal_lines` removes the lines that were set by index, here by the style.
pub fn without_lines(table: &mut Table) -> Result<(), TableError> {
    table.with(Style::markdown())?;
    table.get_config_mut().as_mut().remove_horizontal_lines();
    Ok(())
}

/// A whole configuration replaces the table's own. A new one has no borders and no padding.
pub fn configured(table: &mut Table) -> Result<(), TableError> {
    let config = CompactConfig::new()
        .set_borders(Style::modern().get_borders())
        .set_alignment_horizontal(AlignmentHorizontal::Right);
    table.with(config)?;
    Ok(())
}
