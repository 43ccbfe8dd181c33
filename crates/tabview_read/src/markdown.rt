//! Cells of Markdown.
ghost use Rattle.csv.specs.Records.{fields_of};
ghost use Rattle.std.specs.Prelude.{◌≡◌, ◌++◌, IfOk, OnOk, encode_utf8_all, map, string_bytes};
ghost use Rattle.tabview_read.specs.MarkedCells.{GivesMarkdown, IsMarkdownOf, markdown, markdown_char};

use crate::error::ReadError;
use crate::json_cells::name_at;
use crate::row::{Row, Rows};
use csv::StringRecord;
use std::alloc::{AllocError, Global};

/// Appends what is written for a character: a backslash before `|` and `\`, and `<br>` for a line
/// feed.
fn push_markdown(out: &mut String, c: char) -> Result<(), AllocError>
    ensures { OnOk result (string_bytes out.new
        ≡ string_bytes out.old ++ encode_utf8_all (markdown_char c)) }
{
    match c {
        '|' => out.push_str("\\|"),
        '\\' => out.push_str("\\\\"),
        '\n' => out.push_str("<br>"),
        _ => out.push(c),
    }
}

/// Returns a text as a cell of Markdown.
fn markdown(alloc: Global, text: &str) -> Result<String, AllocError>
    ensures { IfOk result (λ s. string_bytes s ≡ markdown text.now) }
{
    let mut out = String::with_capacity(alloc, text.len())?;
    for c in text.chars() {
        push_markdown(&mut out, c)?;
    }
    Ok(out)
}

/// Returns cells as those of Markdown.
fn markdown_cells(alloc: Global, cells: &StringRecord) -> Result<StringRecord, AllocError>
    ensures { IfOk result (λ out. fields_of out ≡ map markdown (fields_of cells.now)) }
{
    let mut out = StringRecord::new(alloc);
    for column in 0..cells.len() {
        out.push_field(&markdown(alloc, name_at(cells, column))?)?;
    }
    Ok(out)
}

/// Rows as those of a table of Markdown: `|`, `\` and line feeds are written so that each row keeps
/// its cells, in one line.
pub struct MarkdownRows<'a, T: Rows> {
    alloc: Global,
    rows: &'a mut T,
    names: Option<StringRecord>,
}

impl<T: Rows> Drop for MarkdownRows<'_, T> {
    fn drop(self) {
        let MarkdownRows {
            alloc: _,
            rows: _,
            names: _,
        } = self;
    }
}

impl<'a, T: Rows> MarkdownRows<'a, T> {
    /// Makes them of other rows.
    pub fn new(alloc: Global, rows: &'a mut T) -> Result<MarkdownRows<'a, T>, AllocError> {
        let names = match rows.names() {
            Some(names) => Some(markdown_cells(alloc, names)?),
            None => None,
        };
        Ok(MarkdownRows { alloc, rows, names })
    }
}

/// Makes the cells of a row those of Markdown.
fn write_cells(alloc: Global, row: &mut Row) -> Result<(), AllocError>
    ensures { OnOk result (IsMarkdownOf row.old row.new) }
{
    row.cells = markdown_cells(alloc, &row.cells)?;
    Ok(())
}

impl<T: Rows> Rows for MarkdownRows<'_, T> {
    ghost read_gives = { λ from row to. GivesMarkdown T.Rows.read_gives from.rows.now row
        to.rows.now };

    fn names(&self) -> Option<&StringRecord> {
        self.names.as_ref()
    }

    fn read(&mut self, row: &mut Row) -> Result<bool, ReadError> {
        if !self.rows.read(row)? {
            return Ok(false);
        }
        write_cells(self.alloc, row)?;
        Ok(true)
    }
}
