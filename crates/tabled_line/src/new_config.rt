//! The configuration of a new table that is printed while its rows are read.
ghost use Rattle.tabled_line.specs.NewConfig.{IsNewConfig};

use tabled_config::{AlignmentHorizontal, CompactConfig, Indent, Sides, Style};

/// Returns the configuration of a new table: ASCII borders, one column of padding on the left and
/// right, and text at the left.
pub fn new_compact_config() -> CompactConfig
    ensures { IsNewConfig result }
{
    CompactConfig::new()
        .set_padding(Sides::new(
            Indent::spaced(1),
            Indent::spaced(1),
            Indent::zero(),
            Indent::zero(),
        ))
        .set_alignment_horizontal(AlignmentHorizontal::Left)
        .set_borders(Style::ascii().get_borders())
}
