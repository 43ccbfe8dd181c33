//! The cells that are shown of a row.
ghost use Rattle.csv.specs.Records.{fields_of, text_of};
ghost use Rattle.std.specs.Prelude.{◌≡◌, IfErr, IfOk, OnErr, OnOk, map, string_bytes, true};
ghost use Rattle.tabled_base.specs.declared.error.TableError.TheVariants.{Memory};
ghost use Rattle.tabled_records.specs.Joined.{with_text};
ghost use Rattle.tabview_cells.specs.Choice.{cell_of, counting, counting_cell, shown_cell, shown_text, with_texts};
ghost use Rattle.tabview_cells.specs.Kinds.{joined_at, joined_kinds};
ghost use Rattle.tabled_base.specs.Printable.{is_printable};
ghost use Rattle.tabview_cells.specs.Graphic.{is_graphic};

use crate::escaping::{escape, escape_into};
use crate::kinds::{Kind, is_graphic_row};
use crate::printable::is_printable;
use csv::StringRecord;
use std::alloc::{AllocError, Global};
use tabled_base::TableError;
use tabled_records::RecordsWriter;
use tabled_text::text_measures;

/// How the text of a cell is shown.
#[derive(Clone, Copy, Debug, PartialEq, Eq)]
pub enum Shown {
    /// As it is.
    Raw,
    /// With control characters and directional marks as visible ones, except line feeds.
    Lines,
    /// With control characters and directional marks as visible ones, line feeds too.
    OneLine,
}

/// Adds a text to the row that is begun. Error: `Memory`; the records are unchanged then.
pub fn push_cell(out: &mut RecordsWriter, text: &str) -> Result<(), TableError>
    ensures ok { OnOk result (out.new ≡ with_text out.old text.now) }
    ensures err { OnErr result (out.new ≡ out.old) }
    ensures only { IfErr result (λ e. e ≡ Memory) }
{
    let (columns, lines) = text_measures(text);
    out.push(text, columns, lines)
}

/// Adds the chosen cells of a row to the row that is begun, in that order. A cell that the row
/// lacks is empty. Error: `Memory`; the rows that are ended are unchanged then.
pub fn push_chosen(
    alloc: Global,
    out: &mut RecordsWriter,
    row: &StringRecord,
    columns: &[usize],
    shown: Shown,
) -> Result<(), TableError>
    ensures ok { OnOk result (out.new
        ≡ with_texts out.old (map (shown_cell shown (fields_of row.now)) columns.now)) }
    ensures ended { out.new.rows ≡ out.old.rows }
    ensures only { IfErr result (λ e. e ≡ Memory) }
{
    let printable = is_printable(row.as_byte_record().as_slice());
    for column in columns {
        let cell = row.get(*column).unwrap_or("");
        push_shown(alloc, out, cell, shown, printable)?;
    }
    Ok(())
}

/// Adds the chosen cells of a row of printable ASCII, as `push_chosen` does, and joins each with
/// the kind of its column. If the row is known to be `graphic`, its cells have no spaces. Error:
/// `Memory`; the rows that are ended are unchanged then.
pub fn push_joining(
    out: &mut RecordsWriter,
    row: &StringRecord,
    columns: &[usize],
    kinds: &mut [Kind],
    graphic: bool,
) -> Result<(), TableError>
    requires printable { is_printable (text_of row.now) ≡ true }
    requires graphic { graphic ≡ true → is_graphic (text_of row.now) ≡ true }
    ensures ok { (shown : Shown) → OnOk result (out.new
        ≡ with_texts out.old (map (shown_cell shown (fields_of row.now)) columns.now)) }
    ensures kinds { OnOk result (kinds.new
        ≡ joined_kinds kinds.old (map (cell_of (fields_of row.now)) columns.now)) }
    ensures ended { out.new.rows ≡ out.old.rows }
    ensures only { IfErr result (λ e. e ≡ Memory) }
{
    for index in 0..columns.len() {
        let cell = row.get(columns[index]).unwrap_or("");
        join_kind(kinds, index, cell, graphic);
        out.push(cell, cell.len(), 1)?;
    }
    Ok(())
}

/// Joins the kinds of columns with those of the chosen cells of a row. A cell that the row lacks,
/// or that is `blank`, changes nothing.
pub fn join_kinds(kinds: &mut [Kind], columns: &[usize], row: &StringRecord, blank: &str)
    ensures { kinds.new ≡ joined_kinds kinds.old
        (map (counting_cell blank.now (fields_of row.now)) columns.now) }
{
    let graphic = is_graphic_row(row);
    for index in 0..columns.len() {
        let cell = row.get(columns[index]).unwrap_or("");
        join_kind(kinds, index, counting(cell, blank), graphic);
    }
}

/// Returns a cell, or an empty one if it is `blank`.
fn counting<'t>(cell: &'t str, blank: &str) -> &'t str
    ensures { result.now ≡ counting blank.now cell.now }
{
    if cell == blank { "" } else { cell }
}

/// Joins the kind of a column, if it has one, with that of a cell. If the cell is known to be
/// `graphic`, it is printable ASCII without spaces.
#[inline(always)]
fn join_kind(kinds: &mut [Kind], column: usize, cell: &str, graphic: bool)
    requires { graphic ≡ true → is_graphic cell.now ≡ true }
    ensures { kinds.new ≡ joined_at kinds.old column cell.now }
{
    if column >= kinds.len() {
        return;
    }
    kinds[column] = if graphic {
        kinds[column].with_graphic(cell)
    } else {
        kinds[column].with_cell(cell)
    };
}

/// Whether a cell is printable ASCII. If that is `known`, the cell isn't read.
#[inline(always)]
fn is_plain(cell: &str, known: bool) -> bool
    requires { known ≡ true → is_printable cell.now ≡ true }
    ensures { result ≡ is_printable cell.now }
{
    if known {
        return true;
    }
    is_printable(cell.as_bytes())
}

/// Adds a cell as it is shown. If it is known to be `printable` ASCII, it isn't read.
#[inline(always)]
fn push_shown(
    alloc: Global,
    out: &mut RecordsWriter,
    cell: &str,
    shown: Shown,
    printable: bool,
) -> Result<(), TableError>
    requires { printable ≡ true → is_printable cell.now ≡ true }
    ensures ok { OnOk result (out.new ≡ with_text out.old (shown_text shown cell.now)) }
    ensures err { OnErr result (out.new ≡ out.old) }
    ensures only { IfErr result (λ e. e ≡ Memory) }
{
    if is_plain(cell, printable) {
        return out.push(cell, cell.len(), 1);
    }
    match shown {
        Shown::Raw => push_cell(out, cell),
        Shown::Lines => push_cell(out, &escape(alloc, cell, true)?),
        Shown::OneLine => push_cell(out, &escape(alloc, cell, false)?),
    }
}

/// Returns the chosen cells of a row, in that order. A cell that the row lacks is empty.
pub fn chosen_cells(
    alloc: Global,
    row: &StringRecord,
    columns: &[usize],
    shown: Shown,
) -> Result<Vec<String>, AllocError>
    ensures { IfOk result (λ cells. map string_bytes cells.items
        ≡ map (shown_cell shown (fields_of row.now)) columns.now) }
{
    let mut cells = Vec::with_capacity(alloc, columns.len())?;
    for column in columns {
        let cell = row.get(*column).unwrap_or("");
        cells.push(shown_string(alloc, cell, shown)?)?;
    }
    Ok(cells)
}

/// Returns a cell as it is shown.
fn shown_string(alloc: Global, cell: &str, shown: Shown) -> Result<String, AllocError>
    ensures { IfOk result (λ text. string_bytes text ≡ shown_text shown cell.now) }
{
    let mut text = String::new(alloc);
    match shown {
        Shown::Raw => text.push_str(cell)?,
        Shown::Lines => escape_into(&mut text, cell, true)?,
        Shown::OneLine => escape_into(&mut text, cell, false)?,
    }
    Ok(text)
}
