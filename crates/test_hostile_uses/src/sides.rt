//! Commands for margin, padding and borders.

use tabled::grid::config::{CompactConfig, Indent, Sides};
use tabled::settings::Style;
use test_case_judge::{Fault, Words};

/// The configuration of a new table: ASCII borders, one column of padding on the left and right.
pub fn new_config() -> CompactConfig {
    let (one, none) = (Indent::spaced(1), Indent::zero());
    CompactConfig::new()
        .set_borders(Style::ascii().get_borders())
        .set_padding(Sides::new(one, one, none, none))
}

// Parses spaces on the left, right, top and bottom.
fn sides(words: &mut Words<'_>) -> Result<Sides<Indent>, Fault> {
    let (left, right) = (words.number()?, words.number()?);
    let (top, bottom) = (words.number()?, words.number()?);
    Ok(Sides::new(
        Indent::spaced(left),
        Indent::spaced(right),
        Indent::spaced(top),
        Indent::spaced(bottom),
    ))
}

/// Sets the margin, the padding, or empty borders.
pub fn set_sides(
    config: CompactConfig,
    kind: &str,
    words: &mut Words<'_>,
) -> Result<CompactConfig, Fault> {
    match kind {
        "margin" => Ok(config.set_margin(sides(words)?)),
        "padding" => Ok(config.set_padding(sides(words)?)),
        "empty" => Ok(config.set_borders(Style::empty().get_borders())),
        _ => Err(Fault::Unknown("no such command")),
    }
}
