//! The negative results of the exported functions.
ghost use Rattle.std.specs.Prelude.{◌≡◌};
ghost use Rattle.tabled_c.specs.ReturnsText.{code_of};

#[derive(Clone, Copy, Debug)]
pub(crate) enum ErrorCode {
    /// An allocation failed.
    Memory,
    /// A total exceeds `usize::MAX`, or the width of a text exceeds `isize::MAX`.
    Range,
    /// The text is not UTF-8.
    NoText,
    /// No style has the number.
    NoStyle,
    /// No plan has these numbers.
    NoPlan,
    /// The ends of cells are not in order, not within the text, or within a character.
    Ends,
    /// The counts of rows, columns, cells and alignments don't go together.
    Counts,
    /// No alignment has the number.
    NoAlignment,
}

impl ErrorCode {
    /// Returns the number of the error.
    pub fn code(self) -> isize
        ensures { result ≡ code_of self }
    {
        match self {
            ErrorCode::Memory => -1,
            ErrorCode::Range => -2,
            ErrorCode::NoText => -3,
            ErrorCode::NoStyle => -4,
            ErrorCode::NoPlan => -5,
            ErrorCode::Ends => -6,
            ErrorCode::Counts => -7,
            ErrorCode::NoAlignment => -8,
        }
    }
}
