//! `Kind`: whether a piece is a text or a border.
ghost use Rattle.std.specs.Prelude.{◌≡◌};
ghost use Rattle.tabled_pool.specs.Boxes.{is_line_kind};

#[derive(Clone, Copy)]
pub enum Kind {
    /// A text with its padding.
    Leaf,
    /// A vertical border.
    Bar,
    /// A horizontal border.
    Rule,
}

pub fn is_line_kind(kind: Kind) -> bool
    ensures { result ≡ is_line_kind kind }
{
    match kind {
        Kind::Leaf => false,
        Kind::Bar | Kind::Rule => true,
    }
}
