//! `Piece`: a text or a border in its rectangle.
ghost use Rattle.std.specs.Prelude.{length, ◌<◌, ◌≡◌};
ghost use Rattle.tabled_base.specs.Content.{content_text};
ghost use Rattle.tabled_pool.specs.PieceText.{own_text, piece_text};
ghost use Rattle.tabled_text.specs.Measure.{lines_of, text_columns};

use crate::kind::Kind;
use crate::rectangle::Rectangle;
use crate::tree::TableValue;
use tabled_base::Content;

/// A text or a border, with its rectangle.
#[derive(Clone, Copy)]
pub struct Piece<'a> {
    /// What it is.
    pub kind: Kind,
    /// The columns of its text if that is one line of fewer than `NOT_KNOWN`, else `NOT_KNOWN`.
    pub columns: u16,
    /// The number of the piece before it that begins on the same line, if there is one. No
    /// contract says that it is right.
    pub earlier: u32,
    /// Where it is.
    pub place: Rectangle,
    /// The value whose text it is, or any other for a border. Tables have many pieces, so they are
    /// kept small: a text itself would take twice as much.
    pub value: &'a TableValue,
    ghost measured: { columns < 65535 → (columns ≡ text_columns (piece_text kind value.now))
        × (1 ≡ length (lines_of (piece_text kind value.now))) },
}

/// The columns of a text that is measured when it is drawn.
pub const NOT_KNOWN: u16 = u16::MAX;

/// Returns the text of a value. A list has none.
#[inline(always)]
pub fn own_text(value: &TableValue) -> &str
    ensures { result.now ≡ own_text value.now }
{
    match value {
        TableValue::Cell(text) => text.as_str(),
        TableValue::Row(_) | TableValue::Column(_) => "",
    }
}

impl<'a> Piece<'a> {
    #[inline(always)]
    fn text(&self) -> &'a str
        ensures { result.now ≡ piece_text self.now.kind self.now.value.now }
    {
        match self.kind {
            Kind::Leaf => own_text(self.value),
            Kind::Bar | Kind::Rule => "",
        }
    }

    /// Returns the text with its measures.
    #[inline(always)]
    pub fn content(&self) -> Content<'a>
        ensures { content_text result ≡ piece_text self.now.kind self.now.value.now }
    {
        let text = self.text();
        if self.columns < NOT_KNOWN {
            return Content::measured(text, self.columns as usize, 1);
        }
        Content::new(text)
    }
}
