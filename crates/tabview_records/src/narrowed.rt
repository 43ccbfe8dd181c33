//! Texts of records, narrowed to some columns.
ghost use Rattle.std.specs.Prelude.{◌≡◌, ◌++◌, ◌-◌, ◌<◌, ◌≤◌, ℕ, List, IfOk, OnOk, string_bytes};
ghost use Rattle.std.specs.Prelude.{take};
ghost use Rattle.std.specs.Str.{IsCharBoundary};
ghost use Rattle.tabled_text.specs.Cut.{IsCut, NeedsFill};
ghost use Rattle.tabview_records.specs.Narrowed.{IsMarked, IsNarrowedLine, IsNarrowedText};
ghost use Rattle.tabview_records.specs.Narrowed.{IsWholeCut};

use crate::pieces::{push_break, push_fill};
use std::alloc::{AllocError, Global};
use tabled_text::{cut_length, line_width, lines, wrap_words};

/// The mark of a text that is cut.
const MARK: &str = "…";

/// Returns a text whose lines take at most n columns: one that is wider is cut, or wrapped between
/// words.
pub(crate) fn narrowed_text(
    alloc: Global,
    text: &str,
    n: usize,
    cuts: bool,
) -> Result<String, AllocError>
    ensures { IfOk result (λ shown. IsNarrowedText cuts n text.now (string_bytes shown)) }
{
    let mut out = String::new(alloc);
    let mut begun = false;
    for line in lines(text) {
        push_break(&mut out, begun)?;
        begun = true;
        push_line(&mut out, line, n, cuts)?;
    }
    Ok(out)
}

/// Appends a line, narrowed to n columns if it is wider.
fn push_line(out: &mut String, line: &str, n: usize, cuts: bool) -> Result<(), AllocError>
    ensures { OnOk result ((shown : List ℕ) × IsNarrowedLine cuts n line.now shown
        × (string_bytes out.new ≡ string_bytes out.old ++ shown)) }
{
    if line_width(line) <= n {
        return out.push_str(line);
    }
    if cuts {
        return push_marked(out, line, n.saturating_sub(1));
    }
    let wrapped = wrap_words(*out.allocator(), line, n)?;
    out.push_str(wrapped.as_str())
}

/// Appends a line that is cut to n columns, and the mark. Spaces fill columns that are left.
fn push_marked(out: &mut String, line: &str, n: usize) -> Result<(), AllocError>
    ensures { OnOk result ((shown : List ℕ) × IsMarked n line.now shown
        × (string_bytes out.new ≡ string_bytes out.old ++ shown)) }
{
    let (columns, bytes) = whole_cut(line, n);
    out.push_str(&line[..bytes])?;
    push_fill(out, ' ', n - columns)?;
    out.push_str(MARK)
}

/// Returns the most columns, up to n, to which a line can be cut between two characters, and the
/// bytes that are left of it.
fn whole_cut(line: &str, n: usize) -> (usize, usize)
    ensures whole { IsWholeCut n line.now result.0 }
    ensures cut { IsCut result.0 line.now (take result.1 line.now) }
    ensures boundary { IsCharBoundary line.now result.1 }
{
    for fewer in 0..n {
        if let Some(bytes) = cut_length(line, n - fewer) {
            return (n - fewer, bytes);
        }
    }
    match cut_length(line, 0) {
        Some(bytes) => (0, bytes),
        None => (0, 0),
    }
}
