//! Truncating the fields and values of records, and the widths to which they are truncated.
ghost use Rattle.std.specs.Prelude.{◌≡◌, IfOk, MatchOption, OnErr, OnOk, string_bytes};
ghost use Rattle.std.specs.List.{AllZip};
ghost use Rattle.tabled_base.specs.Cells.{row_texts};
ghost use Rattle.tabled_set.specs.Truncated.{suffix_columns};
ghost use Rattle.tabled_extended.specs.Truncated.{AreTruncated, StopsAtText, IsTruncated};
ghost use Rattle.tabled_extended.specs.Truncated.{StopsInRecord, StopsInRecords, StopsTruncating};
ghost use Rattle.tabled_extended.specs.Truncated.{TakesMemory, Truncates, least_columns};
ghost use Rattle.tabled_extended.specs.Truncated.{record_texts, text_widths_in};

use crate::extended_table::ExtendedTable;
use crate::printing::widest;
use std::alloc::{AllocError, Global};
use tabled_base::{CellText, TableError, Text};
use tabled_set::columns_beside;
use tabled_text::cut_str;

/// The greatest widths of fields, if they are truncated, and of values, in columns.
#[derive(Clone, Copy)]
struct TextWidths {
    fields: Option<usize>,
    values: usize,
}

/// Returns the columns of a default header with the number of records.
fn least_columns(count: usize) -> usize
    ensures { result ≡ least_columns count }
{
    match count.checked_ilog10() {
        Some(log) => 14 + log as usize,
        None => 14,
    }
}

/// Returns the widths for lines of `max` columns, `count` records and a widest field of `field`
/// columns. Fields stay if they, a bar and the suffix fit, else they are cut and values emptied.
fn text_widths_in(max: usize, count: usize, field: usize, suffix: &str) -> Option<TextWidths>
    ensures { result ≡ text_widths_in max count field (suffix_columns suffix.now) }
{
    let left = columns_beside(suffix, max)?;
    if max < least_columns(count) {
        return None;
    }
    let texts = left.checked_sub(3)?.checked_sub(max - left)?;
    if left - 3 < field {
        let fields = Some(texts);
        return Some(TextWidths { fields, values: 0 });
    }
    Some(TextWidths {
        fields: None,
        values: texts.checked_sub(field)?,
    })
}

/// Returns a text cut to a width, with the suffix after it; `None` if nothing was cut off.
fn truncated(
    alloc: Global,
    text: &str,
    width_limit: usize,
    suffix: &str,
) -> Result<Option<String>, AllocError>
    ensures ok { IfOk result (λ answer. MatchOption answer
        (IsTruncated suffix.now width_limit text.now text.now)
        (λ answer. IsTruncated suffix.now width_limit text.now (string_bytes answer))) }
    ensures err { OnErr result (TakesMemory suffix.now width_limit text.now) }
{
    let cut = cut_str(alloc, text, width_limit)?;
    if *cut == *text {
        return Ok(None);
    }
    let mut answer = String::new(alloc);
    answer.push_str(&cut)?;
    answer.push_str(suffix)?;
    Ok(Some(answer))
}

fn truncate_text(
    alloc: Global,
    text: &mut Text<String>,
    width_limit: usize,
    suffix: &str,
) -> Result<(), AllocError>
    ensures ok { OnOk result (IsTruncated suffix.now width_limit text.old text.new) }
    ensures err { OnErr result (StopsAtText suffix.now width_limit text.old text.new) }
{
    if let Some(answer) = truncated(alloc, text.text(), width_limit, suffix)? {
        *text = Text::new(answer);
    }
    Ok(())
}

fn truncate_row(
    alloc: Global,
    row: &mut Vec<Text<String>>,
    width_limit: usize,
    suffix: &str,
) -> Result<(), AllocError>
    ensures ok { OnOk result
        (AllZip (IsTruncated suffix.now width_limit) row.old.items row.new.items) }
    ensures err { OnErr result (StopsInRecord suffix.now width_limit row.old.items row.new.items) }
{
    'texts: for index in 0..row.len() {
        truncate_text(alloc, &mut row[index], width_limit, suffix)?;
    }
    Ok(())
}

fn truncate_rows(
    alloc: Global,
    rows: &mut Vec<Vec<Text<String>>>,
    width_limit: usize,
    suffix: &str,
) -> Result<(), AllocError>
    ensures ok { OnOk result (AllZip (AllZip (IsTruncated suffix.now width_limit))
        (row_texts rows.old.items) (row_texts rows.new.items)) }
    ensures err { OnErr result (StopsInRecords suffix.now width_limit
        (row_texts rows.old.items) (row_texts rows.new.items)) }
{
    'rows: for index in 0..rows.len() {
        truncate_row(alloc, &mut rows[index], width_limit, suffix)?;
    }
    Ok(())
}

impl<F> ExtendedTable<F> {
    fn truncate_to(&mut self, text_widths: TextWidths, suffix: &str) -> Result<(), AllocError>
        ensures ok { OnOk result (AreTruncated suffix.now text_widths
            (record_texts self.old) (record_texts self.new)) }
        ensures err { OnErr result (StopsTruncating suffix.now text_widths
            (record_texts self.old) (record_texts self.new)) }
        ensures template { self.new.template ≡ self.old.template }
    {
        let alloc = *self.fields.allocator();
        if let Some(columns) = text_widths.fields {
            truncate_row(alloc, &mut self.fields, columns, suffix)?;
        }
        truncate_rows(alloc, &mut self.records, text_widths.values, suffix)
    }

    /// Truncates fields and values for lines of `max` columns, and returns whether it could. Below,
    /// the rest is `max` less the columns of the suffix, and a bar takes 3 columns.
    /// - If the widest field and a bar fit into the rest, the fields stay. Values are cut to what
    ///   these and the suffix leave of it.
    /// - Otherwise fields are cut to what a bar and the suffix leave of it, and values are emptied.
    ///
    /// Returns `false`, and changes nothing, if the rest is too small for that, or if `max` is less
    /// than the columns of a default header: 13, and one for each digit of the number of records.
    ///
    /// The suffix is put after each text that was cut, an emptied one too, but not into an empty
    /// text. Widths are display columns; a line feed of the suffix counts as one.
    ///
    /// Error: `Memory`, for a text that is cut. The texts before it, fields first, are truncated
    /// then; it and the later ones are unchanged.
    pub fn truncate(&mut self, max: usize, suffix: &str) -> Result<bool, TableError>
        ensures texts { Truncates max suffix.now (record_texts self.old) result
            (record_texts self.new) }
        ensures template { self.new.template ≡ self.old.template }
    {
        let field = widest(self.fields.as_slice());
        let Some(text_widths) = text_widths_in(max, self.records.len(), field, suffix) else {
            return Ok(false);
        };
        self.truncate_to(text_widths, suffix)?;
        Ok(true)
    }
}
