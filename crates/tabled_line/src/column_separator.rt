//! The separator between two texts: the spaces after the first one, a vertical line, and the spaces
//! before the second one, cached in one string.
ghost use Rattle.std.specs.Prelude.{IfSome, take, true, ◌≡◌};
ghost use Rattle.std.specs.Str.{is_utf8};
ghost use Rattle.tabled_line.specs.Row.{separator_text};
ghost use Rattle.tabled_line.specs.Sent.{Sent, Writes};

use crate::borders::write_bar;
use crate::padding::write_spaces;
use crate::text_sink::{FixedBuffer, TextSink};
use tabled_base::TableError;
use tabled_config::VerticalLine;

/// The number of spaces on each side of the vertical line in the cached string.
const SPACES: usize = 64;

fn write_separator_text<S: TextSink>(sink: &mut S, bar: VerticalLine) -> Result<(), TableError>
    ensures { Writes (S.sent sink.old) result (S.sent sink.new) (separator_text bar 64 64) }
{
    write_spaces(sink, SPACES)?;
    write_bar(sink, bar.there, bar.main)?;
    write_spaces(sink, SPACES)
}

/// The cached string of a separator: a vertical line with 64 spaces on each side.
#[derive(Clone, Copy)]
pub(crate) struct SeparatorText<'a> {
    bar: VerticalLine,
    text: &'a str,
    ghost whole: { text.now ≡ separator_text bar 64 64 },
    ghost utf8: { is_utf8 text.now ≡ true },
}

impl<'a> SeparatorText<'a> {
    /// Writes `behind` spaces after a text, the vertical line, and `before` spaces before the next
    /// text.
    #[inline(always)]
    pub fn write<S: TextSink>(
        &self,
        sink: &mut S,
        behind: usize,
        before: usize,
    ) -> Result<(), TableError>
        ensures { Writes (S.sent sink.old) result (S.sent sink.new)
            (separator_text self.now.bar behind before) }
    {
        let first = behind.min(SPACES);
        let last = before.min(SPACES);
        write_spaces(sink, behind - first)?;
        let end = self.text.len() - (SPACES - last);
        sink.write_text(&self.text[SPACES - first..end])?;
        write_spaces(sink, before - last)
    }
}

/// The vertical line between two columns, cached with spaces around it.
#[derive(Drop)]
pub struct ColumnSeparator {
    bar: VerticalLine,
    buffer: FixedBuffer,
    whole: bool,
    ghost kept: { whole ≡ true → take buffer.used buffer.bytes ≡ separator_text bar 64 64 },
}

impl ColumnSeparator {
    /// Builds the separator for a vertical line.
    pub fn new(bar: VerticalLine) -> ColumnSeparator
        ensures { result.bar ≡ bar }
    {
        let mut buffer = FixedBuffer::new();
        let whole = write_separator_text(&mut buffer, bar).is_ok();
        ColumnSeparator { bar, buffer, whole }
    }

    /// Returns the cached string, if it could be built.
    pub(crate) fn text(&self) -> Option<SeparatorText<'_>>
        ensures { IfSome result (λ separator. separator.bar ≡ self.now.bar) }
    {
        if !self.whole {
            return None;
        }
        Some(SeparatorText {
            bar: self.bar,
            text: self.buffer.text(),
        })
    }
}
