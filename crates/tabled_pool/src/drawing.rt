//! `Drawing`: the pieces of a table and their settings.
ghost use Rattle.std.specs.Prelude.{map, true, ◌<◌, ◌^◌, ◌≡◌};
ghost use Rattle.tabled_config.specs.Compact.{each_side};
ghost use Rattle.tabled_pool.specs.Boxes.{AreTiles, drawn_part};
ghost use Rattle.tabled_pool.specs.Colours.{AreNoMarks, line_marks_of, marks_of, no_mark};

use crate::piece::Piece;
use crate::sizes::BoxSpacing;
use std::alloc::Global;
use tabled_config::{ANSIStr, Borders, CellStyle, Sides};

/// Placed pieces, and the settings that they are drawn with.
#[derive(Clone, Copy)]
pub struct Drawing<'d, 'a> {
    /// In the order of their tree.
    pub pieces: &'d [Piece<'a>],
    /// For each line, the number of the last piece that begins there.
    pub begins: &'d [u32],
    pub width: usize,
    pub height: usize,
    pub borders: Borders<char>,
    pub style: CellStyle,
    pub spacing: BoxSpacing,
    pub padding_colors: Sides<ANSIStr<'static>>,
    /// The colours of the borders.
    pub colors: Borders<ANSIStr<'static>>,
    /// Whether no padding is coloured.
    pub uncolored_padding: bool,
    /// Whether no border is coloured.
    pub uncolored_borders: bool,
    /// The allocator for lists of pieces and for drawn lines.
    pub alloc: Global,
    ghost wide: { width < 2 ^ 64 },
    ghost tall: { height < 2 ^ 64 },
    ghost bare_padding: { uncolored_padding ≡ true
        → marks_of padding_colors ≡ each_side no_mark },
    ghost bare_borders: { uncolored_borders ≡ true → AreNoMarks (line_marks_of colors) },
    /// Each position is in exactly one piece.
    ghost tiles: { AreTiles (map drawn_part pieces.now)
        (record { x = 0; y = 0; width = width; height = height }) },
}
