//! Writes padding, and runs of one character.
ghost use Rattle.std.specs.Prelude.{encode_utf8, ◌++◌};
ghost use Rattle.tabled_line.specs.Fill.{IsRun, fill, indent, padded_text};
ghost use Rattle.tabled_line.specs.Sent.{Sent, Writes};

use crate::text_sink::TextSink;
use tabled_base::TableError;
use tabled_config::{Indent, Sides};

pub(crate) const SPACES: &str = "                                                                ";

const DASHES: &str = "----------------------------------------------------------------";

/// Writes one character.
pub fn write_char<S: TextSink>(sink: &mut S, c: char) -> Result<(), TableError>
    ensures { Writes (S.sent sink.old) result (S.sent sink.new) (encode_utf8 c) }
{
    let mut buffer = [0u8; 4];
    let text = c.encode_utf8(&mut buffer);
    sink.write_text(text)
}

/// Writes `count` copies of the character that `run` consists of, 64 at a time. Inlined, since
/// there are mostly few of them, and a call would take longer.
#[inline(always)]
fn write_run<S: TextSink>(sink: &mut S, run: &str, count: usize) -> Result<(), TableError>
    requires { IsRun run.now }
    ensures { (run_is : IsRun run.now)
        → Writes (S.sent sink.old) result (S.sent sink.new) (fill run_is.c count) }
{
    let mut left = count;
    while left > 0 {
        let part = left.min(64);
        sink.write_text(&run[..part])?;
        left -= part;
    }
    Ok(())
}

#[inline(always)]
pub(crate) fn write_spaces<S: TextSink>(sink: &mut S, count: usize) -> Result<(), TableError>
    ensures { Writes (S.sent sink.old) result (S.sent sink.new) (fill 32 count) }
{
    write_run(sink, SPACES, count)
}

fn write_copies<S: TextSink>(sink: &mut S, c: char, count: usize) -> Result<(), TableError>
    ensures { Writes (S.sent sink.old) result (S.sent sink.new) (fill c count) }
{
    let mut buffer = [0u8; 4];
    let text = c.encode_utf8(&mut buffer);
    'copies: for _i in 0..count {
        sink.write_text(text)?;
    }
    Ok(())
}

/// Writes a character `count` times. Spaces and dashes are written 64 at a time.
pub fn write_fill<S: TextSink>(sink: &mut S, c: char, count: usize) -> Result<(), TableError>
    ensures { Writes (S.sent sink.old) result (S.sent sink.new) (fill c count) }
{
    match c {
        ' ' => write_spaces(sink, count),
        '-' => write_run(sink, DASHES, count),
        _ => write_copies(sink, c, count),
    }
}

/// Writes two indents, in one run if both are spaces.
#[inline(always)]
fn write_indents<S: TextSink>(sink: &mut S, first: Indent, second: Indent) -> Result<(), TableError>
    ensures { Writes (S.sent sink.old) result (S.sent sink.new) (indent first ++ indent second) }
{
    if first.fill == ' '
        && second.fill == ' '
        && let Some(spaces) = first.size.checked_add(second.size)
    {
        return write_spaces(sink, spaces);
    }
    write_fill(sink, first.fill, first.size)?;
    write_fill(sink, second.fill, second.size)
}

/// Writes a text between the side paddings, with `before` and `behind` spaces around it.
pub fn write_padded_text<S: TextSink>(
    sink: &mut S,
    padding: &Sides<Indent>,
    before: usize,
    text: &str,
    behind: usize,
) -> Result<(), TableError>
    ensures { Writes (S.sent sink.old) result (S.sent sink.new)
        (padded_text padding.now before text.now behind) }
{
    write_indents(sink, padding.left, Indent::spaced(before))?;
    sink.write_text(text)?;
    write_indents(sink, Indent::spaced(behind), padding.right)
}
