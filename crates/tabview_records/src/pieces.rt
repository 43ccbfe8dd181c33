//! Pieces of the text of a record.
ghost use Rattle.std.specs.Prelude.{◌≡◌, ◌++◌, [], OnOk, drop, slice_index_or, string_bytes};
ghost use Rattle.tabled_line.specs.Fill.{fill};
ghost use Rattle.tabled_line.specs.Leading.{break};
ghost use Rattle.tabled_text.specs.Lines.{lines_left};

use std::alloc::AllocError;
use tabled_text::{TextLines, push_copies};

/// Appends a line feed, if a line was appended before.
pub(crate) fn push_break(out: &mut String, begun: bool) -> Result<(), AllocError>
    ensures { OnOk result (string_bytes out.new ≡ string_bytes out.old ++ break begun) }
{
    if begun { out.push_str("\n") } else { Ok(()) }
}

/// Appends n copies of a character.
#[tactic(auto, using(crate::proofs::NarrowedTexts::fill_copies))]
pub(crate) fn push_fill(out: &mut String, c: char, n: usize) -> Result<(), AllocError>
    ensures { OnOk result (string_bytes out.new ≡ string_bytes out.old ++ fill c n) }
{
    push_copies(out, c, n)
}

/// Takes the first of the lines that are left, or an empty one if there is none.
pub(crate) fn next_line<'a>(left: &mut TextLines<'a>) -> &'a str
    ensures line { result.now ≡ slice_index_or (lines_left left.old) 0 [] }
    ensures rest { lines_left left.new ≡ drop 1 (lines_left left.old) }
{
    match left.next() {
        Some(line) => line,
        None => "",
    }
}
