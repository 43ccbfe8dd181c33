//! The columns of a record.

/// How records are laid out.
#[derive(Clone, Copy, Debug)]
pub(crate) struct RecordLayout {
    /// The columns of names.
    pub names: usize,
    /// The columns of values.
    pub values: usize,
    /// The columns of a line.
    pub width: Option<usize>,
    /// Whether texts that are too wide are cut. Else they are wrapped between words.
    pub cuts: bool,
}
