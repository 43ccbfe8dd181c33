//! The lines of a record.
ghost use Rattle.std.specs.Prelude.{◌≡◌, ◌+◌, ◌<◌, ◌^◌, ◌++◌, ℕ, List, IfOk, OnOk, string_bytes, true};
ghost use Rattle.tabled_line.specs.Leading.{lines_after};
ghost use Rattle.tabview_records.specs.Records.{IsHead, field_lines, head_of, pair_line, rule_behind};

use crate::layout::RecordLayout;
use crate::pieces::{next_line, push_fill};
use std::alloc::{AllocError, Global};
use tabled_text::{append_cut, count_lines, lines, text_width};

/// Appends the head of a record, cut to the width of its lines.
pub(crate) fn push_head(
    out: &mut String,
    layout: RecordLayout,
    number: usize,
) -> Result<(), AllocError>
    requires { layout.names + 3 + layout.values < 2 ^ 64 }
    ensures { OnOk result ((head : List ℕ) × IsHead layout number head
        × (string_bytes out.new ≡ string_bytes out.old ++ head)) }
{
    let head = head_of(*out.allocator(), layout, number)?;
    match layout.width {
        None => out.push_str(head.as_str()),
        Some(width) => append_cut(out, head.as_str(), width),
    }
}

/// Returns the head of a record with a number, however wide it is.
fn head_of(alloc: Global, layout: RecordLayout, number: usize) -> Result<String, AllocError>
    requires { layout.names + 3 + layout.values < 2 ^ 64 }
    ensures { IfOk result (λ head. string_bytes head ≡ head_of layout number) }
{
    let mut head = format!(in alloc; "-[ RECORD {number} ]-")?;
    let columns = text_width(head.as_str());
    push_rule(&mut head, layout, columns)?;
    Ok(head)
}

/// Appends dashes to a head of some columns, with a cross above the bar.
fn push_rule(head: &mut String, layout: RecordLayout, columns: usize) -> Result<(), AllocError>
    requires { layout.names + 3 + layout.values < 2 ^ 64 }
    ensures { OnOk result (string_bytes head.new
        ≡ string_bytes head.old ++ rule_behind layout.names layout.values columns) }
{
    let whole = layout.names + 3 + layout.values;
    if columns >= whole {
        return Ok(());
    }
    if columns >= layout.names + 2 {
        return push_fill(head, '-', whole - columns);
    }
    push_fill(head, '-', layout.names + 1 - columns)?;
    head.push_str("+")?;
    push_fill(head, '-', layout.values + 1)
}

/// Appends the lines of a field, each behind a line feed: those of its name beside those of its
/// value.
pub(crate) fn push_field(
    out: &mut String,
    columns: usize,
    name: &str,
    value: &str,
) -> Result<(), AllocError>
    ensures { OnOk result (string_bytes out.new ≡ string_bytes out.old
        ++ lines_after true (field_lines columns name.now value.now)) }
{
    let mut names = lines(name);
    let mut values = lines(value);
    for _index in 0..count_lines(name).max(count_lines(value)) {
        out.push_str("\n")?;
        push_pair(out, columns, next_line(&mut names), next_line(&mut values))?;
    }
    Ok(())
}

/// Appends a line of a name and of its value.
fn push_pair(out: &mut String, columns: usize, name: &str, value: &str) -> Result<(), AllocError>
    ensures { OnOk result (string_bytes out.new
        ≡ string_bytes out.old ++ pair_line columns name.now value.now) }
{
    out.push_str(name)?;
    push_fill(out, ' ', columns.saturating_sub(text_width(name)))?;
    out.push_str(" | ")?;
    out.push_str(value)
}
