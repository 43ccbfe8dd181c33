//! The alignment of a text in its cell, and the flags for trimming and aligning its lines.
ghost use Rattle.std.specs.Prelude.{◌≡◌};

/// Where text is placed within its content width.
#[derive(Clone, Copy, Debug, PartialEq, Eq, PartialOrd, Ord, Hash)]
pub enum AlignmentHorizontal {
    /// At the left.
    Left,
    /// In the middle; of an odd number of free columns, the extra one is on the right.
    Center,
    /// At the right.
    Right,
}

/// Where text is placed among the lines of its cell.
#[derive(Clone, Copy, Debug, PartialEq, Eq, PartialOrd, Ord, Hash)]
pub enum AlignmentVertical {
    /// At the top.
    Top,
    /// In the middle; of an odd number of free lines, the extra one is below.
    Center,
    /// At the bottom.
    Bottom,
}

/// How the lines of a cell are trimmed and aligned.
#[derive(Clone, Copy, Debug, Default, PartialEq, Eq, PartialOrd, Ord, Hash)]
pub struct Formatting {
    /// Whether to trim spaces at the ends of lines. Stored only: no printer reads it.
    pub horizontal_trim: bool,
    /// Whether to trim empty lines at the top and bottom. Stored only: no printer reads it.
    pub vertical_trim: bool,
    /// Whether each line is aligned by its own width, instead of all lines by the widest.
    pub allow_lines_alignment: bool,
}

impl Formatting {
    /// Creates the three flags, in the order of the fields.
    pub fn new(horizontal_trim: bool, vertical_trim: bool, align_lines: bool) -> Formatting
        ensures { result
            ≡ record {
              horizontal_trim = horizontal_trim;
              vertical_trim = vertical_trim;
              allow_lines_alignment = align_lines;
            } }
    {
        Formatting {
            horizontal_trim,
            vertical_trim,
            allow_lines_alignment: align_lines,
        }
    }
}
