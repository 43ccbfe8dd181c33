//! The lines of a text in the lines of a row, which a cursor keeps, so that the text isn't searched
//! from its start for each line.
ghost use Rattle.std.proofs.Props.{props};
ghost use Rattle.std.specs.Prelude.{IfSome, List, ℕ, ◌≡◌};
ghost use Rattle.tabled_base.specs.Content.{content_text};
ghost use Rattle.tabled_text.specs.LineEnds.{AreEnds};

use tabled_base::Content;
use tabled_text::{LineEnds, first_line};

/// The line of a text in a line of a row, and the text after it.
#[derive(Clone, Copy)]
pub struct Cursor<'a> {
    /// How many lines of the row come before the text.
    above: usize,
    /// The line and its width in columns. `None` above and below the text.
    pub line: Option<(&'a str, usize)>,
    /// The text from its next line on, if it has one.
    rest: Option<&'a str>,
    /// What ends the lines of the text.
    ends: LineEnds,
    /// The width of the text in columns.
    pub(crate) widest: usize,
    ghost ends_are: { IfSome rest (λ rest. AreEnds ends rest.now) } by { Prim.hlevel props },
}

impl<'a> Cursor<'a> {
    ghost use Rattle.tabled_line.specs.Cursors.{IsAhead, IsAt, nowhere};

    /// Returns a cursor that isn't in a text yet.
    pub fn nowhere() -> Cursor<'a>
        ensures { result ≡ nowhere }
    {
        Cursor {
            above: 0,
            line: None,
            rest: None,
            ends: LineEnds::Feeds,
            widest: 0,
        }
    }

    /// Returns the cursor of a text in the first line of a row. `above` lines come before the text.
    #[inline(always)]
    pub fn new(content: &Content<'a>, above: usize) -> Cursor<'a>
        ensures { IsAt (content_text content.now) above 0 result }
    {
        if above == 0 && content.lines == 1 {
            return Cursor {
                above,
                line: Some((content.text, content.columns)),
                rest: None,
                ends: content.ends,
                widest: content.columns,
            };
        }
        let mut cursor = Cursor {
            above,
            line: None,
            rest: Some(content.text),
            ends: content.ends,
            widest: content.columns,
        };
        cursor.advance();
        cursor
    }

    /// Moves to the next line of the row.
    #[inline(always)]
    pub fn advance(&mut self)
        ensures { (text : List ℕ) (above index : ℕ) → IsAhead text above index self.old
            → IsAt text above index self.new }
    {
        if self.above > 0 {
            self.above -= 1;
            self.line = None;
            return;
        }
        let Some(text) = self.rest else {
            self.line = None;
            return;
        };
        if let LineEnds::Bytes(n) = self.ends {
            // The common case has a way of its own, so that its parts stay in registers.
            let (line, columns, rest) = first_line(text, LineEnds::Bytes(n));
            self.line = Some((line, columns));
            self.rest = rest;
            return;
        }
        let (line, columns, rest) = first_line(text, self.ends);
        self.line = Some((line, columns));
        self.rest = rest;
    }
}
