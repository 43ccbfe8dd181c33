//! Styles. `with` gives a style to a table, or to another printer.

use tabled::settings::Style;
use tabled::settings::style::HorizontalLine;
use tabled::{Table, TableError};

/// Round corners, and one line below the first row.
pub fn rounded(table: &mut Table) -> Result<(), TableError> {
    table.with(Style::rounded())?;
    Ok(())
}

/// The style of a new table.
pub fn ascii(table: &mut Table) -> Result<(), TableError> {
    table.with(Style::ascii())?;
    Ok(())
}

/// Thin lines around all cells.
pub fn modern(table: &mut Table) -> Result<(), TableError> {
    table.with(Style::modern())?;
    Ok(())
}

/// Thin lines, and one line below the first row.
pub fn sharp(table: &mut Table) -> Result<(), TableError> {
    table.with(Style::sharp())?;
    Ok(())
}

/// Round corners, and lines between all rows.
pub fn modern_rounded(table: &mut Table) -> Result<(), TableError> {
    table.with(Style::modern_rounded())?;
    Ok(())
}

/// Double lines.
pub fn extended(table: &mut Table) -> Result<(), TableError> {
    table.with(Style::extended())?;
    Ok(())
}

/// A table to paste into a page of Markdown.
pub fn markdown(table: &mut Table) -> Result<(), TableError> {
    table.with(Style::markdown())?;
    Ok(())
}

/// The style of the program `psql`.
pub fn psql(table: &mut Table) -> Result<(), TableError> {
    table.with(Style::psql())?;
    Ok(())
}

/// A simple table of reStructuredText.
pub fn re_structured_text(table: &mut Table) -> Result<(), TableError> {
    table.with(Style::re_structured_text())?;
    Ok(())
}

/// A frame with dots and quotes for corners.
pub fn ascii_rounded(table: &mut Table) -> Result<(), TableError> {
    table.with(Style::ascii_rounded())?;
    Ok(())
}

/// Spaces between columns, and no lines.
pub fn blank(table: &mut Table) -> Result<(), TableError> {
    table.with(Style::blank())?;
    Ok(())
}

/// No lines, and nothing between columns.
pub fn empty(table: &mut Table) -> Result<(), TableError> {
    table.with(Style::empty())?;
    Ok(())
}

/// A style without its lines between rows.
pub fn without_horizontal(table: &mut Table) -> Result<(), TableError> {
    table.with(Style::modern().remove_horizontal())?;
    Ok(())
}

/// A style without its line below the first row.
pub fn without_horizontals(table: &mut Table) -> Result<(), TableError> {
    table.with(Style::rounded().remove_horizontals())?;
    Ok(())
}

/// A style without its lines between columns.
pub fn without_vertical(table: &mut Table) -> Result<(), TableError> {
    table.with(Style::modern().remove_vertical())?;
    Ok(())
}

/// A style without its frame.
pub fn without_frame(table: &mut Table) -> Result<(), TableError> {
    table.with(Style::modern().remove_frame())?;
    Ok(())
}

/// A style without its left and right edge. Each side has a call.
pub fn without_sides(table: &mut Table) -> Result<(), TableError> {
    table.with(Style::ascii().remove_left().remove_right())?;
    Ok(())
}

/// A style without its lines above and below.
pub fn without_ends(table: &mut Table) -> Result<(), TableError> {
    table.with(Style::extended().remove_top().remove_bottom())?;
    Ok(())
}

/// A line above the row of each index, counted from 0.
pub fn horizontals(table: &mut Table) -> Result<(), TableError> {
    let line = HorizontalLine::inherit(Style::modern()).horizontal('═');
    let style = Style::modern().horizontals([(1, line)]);
    table.with(style.remove_horizontal().remove_vertical())?;
    Ok(())
}

/// Lines of your own characters.
pub fn own_line(table: &mut Table) -> Result<(), TableError> {
    let line = HorizontalLine::new('=')
        .left('[')
        .intersection('+')
        .right(']');
    table.with(Style::ascii_rounded().horizontals([(1, line), (2, line)]))?;
    Ok(())
}
