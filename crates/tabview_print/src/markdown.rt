//! The line below the header of a table of Markdown.
ghost use Rattle.std.specs.Prelude.{◌≡◌, ◌++◌, OnOk, string_bytes};
ghost use Rattle.tabview_print.specs.MarkdownRules.{rule_part};

use crate::layout::Column;
use std::alloc::{AllocError, Global};
use tabled_config::AlignmentHorizontal;
use tabled_text::{push_copies, text_width};

/// Returns the line below the header of a table of Markdown, as wide as the header, which is one
/// line. A `:` is at the side of a column that isn't at the left; columns past the last one are.
pub fn markdown_rule(
    alloc: Global,
    header: &str,
    columns: &[Column],
) -> Result<String, AllocError> {
    let mut rule = String::new(alloc);
    let mut begin = 0;
    let mut count = 0;
    let mut is_escaped = false;
    for (index, c) in header.char_indices() {
        if c == '|' && !is_escaped {
            if let Some(part) = header.get(begin..index)
                && begin > 0
            {
                push_part(&mut rule, text_width(part), side_at(columns, count))?;
                count = count.saturating_add(1);
            }
            rule.push('|')?;
            begin = index.saturating_add(1);
        }
        is_escaped = c == '\\' && !is_escaped;
    }
    Ok(rule)
}

/// Returns the side of a column, the left past the last one.
fn side_at(columns: &[Column], column: usize) -> AlignmentHorizontal {
    match columns.get(column) {
        Some(column) => column.side,
        None => AlignmentHorizontal::Left,
    }
}

/// Adds the part of a column: dashes, and a colon at its side.
fn push_part(rule: &mut String, width: usize, side: AlignmentHorizontal) -> Result<(), AllocError>
    ensures { OnOk result (string_bytes rule.new
        ≡ string_bytes rule.old ++ rule_part width side) }
{
    match side {
        AlignmentHorizontal::Left => push_copies(rule, '-', width),
        AlignmentHorizontal::Right => {
            push_copies(rule, '-', width.saturating_sub(1))?;
            rule.push(':')
        }
        AlignmentHorizontal::Center => {
            rule.push(':')?;
            push_copies(rule, '-', width.saturating_sub(2))?;
            rule.push(':')
        }
    }
}
