//! Prints the records of an extended table, in which line feeds and other control characters are
//! escaped.
ghost use Rattle.std.specs.Cow.{cow_str_bytes};
ghost use Rattle.std.specs.List.{zip};
ghost use Rattle.std.specs.Prelude.{IfErr, IfNone, IfOk, IfSome, List, OnOk, [], false, length};
ghost use Rattle.std.specs.Prelude.{map, min, slice_index_or, string_bytes, true, ℕ, ◌++◌, ◌+◌};
ghost use Rattle.std.specs.Prelude.{◌-◌, ◌<◌, ◌^◌, ◌∷◌, ◌≡◌, ◌≤◌, ◌⊎◌};
ghost use Rattle.tabled_base.specs.Cells.{row_texts};
ghost use Rattle.tabled_base.specs.declared.error.TableError.TheVariants.{Memory, Range};
ghost use Rattle.tabled_extended.specs.Escaped.{escape, escaped};
ghost use Rattle.tabled_extended.specs.PrintedRecords.{IsTooWide, PrintsRecord, PrintsRecords};
ghost use Rattle.tabled_extended.specs.PrintedRecords.{sheet_of};
ghost use Rattle.tabled_extended.specs.RecordLines.{AreRecordLines, header, record_lines};
ghost use Rattle.tabled_extended.specs.RecordLines.{rule_behind, text_of, title, value_line};
ghost use Rattle.tabled_extended.specs.RecordLines.{widest, widest_value};
ghost use Rattle.tabled_line.specs.Fill.{fill};
ghost use Rattle.tabled_line.specs.Leading.{WritesLines};
ghost use Rattle.tabled_line.specs.Sent.{Sent, Writes};
ghost use Rattle.tabled_text.specs.Measure.{text_columns};

use crate::extended_table::ExtendedTable;
use crate::template::Template;
use std::alloc::{AllocError, Global};
use std::borrow::CowStr;
use std::fmt;
use tabled_base::{CellText, TableError, Text};
use tabled_line::{TextSink, write_break, write_fill};
use tabled_text::{line_width, lines};

fn push_escaped(text: &mut String, c: char) -> Result<(), AllocError>
    ensures { OnOk result (string_bytes text.new ≡ string_bytes text.old ++ escape c) }
{
    match c {
        '"' | '\'' | '\\' => {
            text.push('\\')?;
            text.push(c)
        }
        '\t' => text.push_str("\\t"),
        '\r' => text.push_str("\\r"),
        '\n' => text.push_str("\\n"),
        '\0' => text.push_str("\\0"),
        _ if c.is_control() => {
            let code = format!(in *text.allocator(); "\\u{{{:x}}}", c as u32)?;
            text.push_str(&code)
        }
        _ => text.push(c),
    }
}

pub(crate) fn escaped(alloc: Global, text: &str) -> Result<String, AllocError>
    ensures { IfOk result (λ answer. string_bytes answer ≡ escaped text.now) }
{
    let mut answer = String::new(alloc);
    'characters: for c in text.chars() {
        push_escaped(&mut answer, c)?;
    }
    Ok(answer)
}

pub(crate) fn escaped_texts(
    alloc: Global,
    texts: Vec<CowStr<'_>>,
) -> Result<Vec<Text<String>>, AllocError>
    ensures { IfOk result (λ row. row.items ≡ map escaped (map cow_str_bytes texts.entry.items)) }
{
    let mut row = Vec::with_capacity(alloc, texts.len())?;
    'texts: for text in texts {
        row.push(Text::new(escaped(alloc, &text)?))?;
    }
    Ok(row)
}

/// The columns of the widest field and of the widest value.
#[derive(Clone, Copy)]
struct Widths {
    field: usize,
    value: usize,
    ghost in_range: { field + 3 + value < 2 ^ 64 },
}

pub(crate) fn widest(texts: &[Text<String>]) -> usize
    ensures { result ≡ widest texts.now }
{
    let mut columns: usize = 0;
    'texts: for text in texts {
        columns = columns.max(text.width());
    }
    columns
}

fn widest_value(records: &[Vec<Text<String>>]) -> usize
    ensures { result ≡ widest_value (row_texts records.now) }
{
    let mut columns: usize = 0;
    'records: for record in records {
        columns = columns.max(widest(record.as_slice()));
    }
    columns
}

/// Returns the columns of a label between dashes, `usize::MAX` at most. The dashes add a column to
/// the first line and to the last one.
fn title_width(label: &str) -> usize
    ensures { result ≡ min (2 ^ 64 - 1) (text_columns (title label.now)) }
{
    let mut widest: usize = 0;
    let mut before: usize = 1;
    let mut last: usize = 0;
    'lines: for line in lines(label) {
        widest = widest.max(last);
        last = before + line_width(line);
        before = 0;
    }
    widest.max(last.saturating_add(1))
}

fn write_title_rule<S: TextSink>(
    sink: &mut S,
    widths: Widths,
    columns: usize,
) -> Result<(), TableError>
    ensures { Writes (S.sent sink.old) result (S.sent sink.new)
        (rule_behind widths.field widths.value columns) }
{
    let whole = widths.field + 3 + widths.value;
    if columns >= whole {
        return Ok(());
    }
    if columns >= widths.field + 2 {
        return write_fill(sink, '-', whole - columns);
    }
    write_fill(sink, '-', widths.field + 1 - columns)?;
    sink.write_text("+")?;
    write_fill(sink, '-', widths.value + 1)
}

fn write_header<S: TextSink>(
    sink: &mut S,
    begun: &mut bool,
    widths: Widths,
    label: &str,
) -> Result<(), TableError>
    ensures { WritesLines (S.sent sink.old) begun.old result (S.sent sink.new) begun.new
        (header widths.field widths.value (title label.now) ∷ []) }
{
    write_break(sink, begun)?;
    sink.write_text("-")?;
    sink.write_text(label)?;
    sink.write_text("-")?;
    write_title_rule(sink, widths, title_width(label))
}

fn write_value_line<S: TextSink>(
    sink: &mut S,
    begun: &mut bool,
    columns: usize,
    field: &Text<String>,
    value: &Text<String>,
) -> Result<(), TableError>
    ensures { WritesLines (S.sent sink.old) begun.old result (S.sent sink.new) begun.new
        (value_line columns (field.now, value.now) ∷ []) }
{
    let spaces = columns.saturating_sub(field.width());
    write_break(sink, begun)?;
    sink.write_text(field.text())?;
    write_fill(sink, ' ', spaces)?;
    sink.write_text(" | ")?;
    sink.write_text(value.text())
}

fn write_value_lines<S: TextSink>(
    sink: &mut S,
    begun: &mut bool,
    columns: usize,
    fields: &[Text<String>],
    values: &[Text<String>],
) -> Result<(), TableError>
    ensures { WritesLines (S.sent sink.old) begun.old result (S.sent sink.new) begun.new
        (map (value_line columns) (zip fields.now values.now)) }
{
    let count = fields.len().min(values.len());
    'values: for index in 0..count {
        write_value_line(sink, begun, columns, &fields[index], &values[index])?;
    }
    Ok(())
}

fn write_record<F: Template, S: TextSink>(
    sink: &mut S,
    begun: &mut bool,
    table: &ExtendedTable<F>,
    widths: Widths,
    index: usize,
) -> Result<(), TableError>
    requires { index < length table.now.records.items }
    ensures { PrintsRecord (record {
      labels = F.answers table.now.template index;
      fails = F.fails table.now.template index;
      lines = λ label. record_lines widths.field widths.value table.now.fields.items label
          (slice_index_or (row_texts table.now.records.items) index []);
    }) (S.sent sink.old) begun.old result (S.sent sink.new) begun.new }
{
    let label = table.template.label(*table.fields.allocator(), index)?;
    write_header(sink, begun, widths, label.as_str())?;
    let values = table.records[index].as_slice();
    write_value_lines(sink, begun, widths.field, table.fields.as_slice(), values)
}

impl Widths {
    fn of<F>(table: &ExtendedTable<F>) -> Option<Widths>
        ensures fields { IfSome result (λ widths. widths.field ≡ widest table.now.fields.items) }
        ensures values { IfSome result
            (λ widths. widths.value ≡ widest_value (row_texts table.now.records.items)) }
        ensures none { IfNone result (2 ^ 64 ≤ widest table.now.fields.items + 3
            + widest_value (row_texts table.now.records.items)) }
    {
        let field = widest(table.fields.as_slice());
        let value = widest_value(table.records.as_slice());
        field.checked_add(3)?.checked_add(value)?;
        Some(Widths { field, value })
    }
}

impl<F: Template> ExtendedTable<F> {
    /// Prints the header and the fields of each record. A table without records prints nothing.
    ///
    /// A header has the label that the template returns for the record's index. Each field that has
    /// a value takes a line. Other fields and values aren't printed, but their widths count. Only
    /// the template allocates.
    ///
    /// Errors:
    /// - `Range`: the columns of the widest field, a bar and the widest value pass `usize::MAX`.
    ///   Nothing is written.
    /// - `Memory`: the template failed. All records before that one are written.
    /// - The error of the sink: a beginning of the text is written.
    pub fn write_to<S: TextSink>(&self, sink: &mut S) -> Result<(), TableError>
        ensures { PrintsRecords (sheet_of F.answers F.fails self.now) (S.sent sink.old) result
            (S.sent sink.new) }
    {
        if self.records.is_empty() {
            return Ok(());
        }
        let Some(widths) = Widths::of(self) else {
            return Err(TableError::Range);
        };
        let mut begun = false;
        'records: for index in 0..self.records.len() {
            write_record(sink, &mut begun, self, widths, index)?;
        }
        Ok(())
    }

    /// Returns the text that `write_to` writes. Fails as `write_to` does.
    pub fn to_string(&self) -> Result<String, TableError>
        ensures ok { IfOk result (λ text. (parts : List (List (List ℕ)))
            × (length parts ≡ length (row_texts self.now.records.items))
            × AreRecordLines (F.answers self.now.template) self.now.fields.items
            (row_texts self.now.records.items) parts
            × (string_bytes text ≡ text_of parts)) }
        ensures in_range { OnOk result
            (IsTooWide self.now.fields.items (row_texts self.now.records.items) → ⊥) }
        ensures err { IfErr result (λ e. ((e ≡ Memory)
            × (0 < length (row_texts self.now.records.items)))
            ⊎ ((e ≡ Range) × IsTooWide self.now.fields.items (row_texts self.now.records.items))) }
    {
        let mut text = String::new(*self.fields.allocator());
        self.write_to(&mut text)?;
        Ok(text)
    }
}

/// Writes the text of `to_string`. Fails with `fmt::Error` if `to_string` or the formatter does.
/// The contract names no text, since a template may return different labels; `to_string` has the
/// details.
impl<F: Template> fmt::Display for ExtendedTable<F> {
    ghost use Rattle.std.specs.Prelude.{None};

    ghost output = { λ _. None };

    fn fmt<W: fmt::Write>(&self, f: &mut fmt::Formatter<W>) -> fmt::Result {
        match self.to_string() {
            Ok(text) => f.write_str(&text),
            Err(_) => Err(fmt::Error),
        }
    }
}
