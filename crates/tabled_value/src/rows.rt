//! The records that values make, with or without a header, from the strings of their fields.
ghost use Rattle.std.specs.Cow.{cow_str_bytes};
ghost use Rattle.std.specs.Fmt.{signed_decimal};
ghost use Rattle.std.specs.Iterator.{Drains, IsFinite, IsFiniteIterable};
ghost use Rattle.std.specs.List.{AllZip, flat_map};
ghost use Rattle.std.specs.Prelude.{IfErr, IfOk, IsUtf8, List, OnOk, [], decimal, length, map};
ghost use Rattle.std.specs.Prelude.{replicate};
ghost use Rattle.std.specs.Prelude.{vec_len, ℕ, ◌++◌, ◌+◌, ◌∷◌, ◌≡◌};
ghost use Rattle.tabled_base.specs.Cells.{row_texts};
ghost use Rattle.tabled_base.specs.Given.{Given};
ghost use Rattle.tabled_base.specs.Printable.{IsPrintableAscii};
ghost use Rattle.tabled_base.specs.declared.error.TableError.TheVariants.{Memory};
ghost use Rattle.tabled_value.specs.Fields.{CellsAdded, Says};
ghost use Rattle.tabled_value.specs.ValueRows.{ValuesAdded, pairs};

use crate::value::Tabled;
use itoa::Buffer;
use std::alloc::{AllocError, Global};
use std::borrow::CowStr;
use std::fmt::Display;
use std::string::ToString;
use tabled_base::{TableError, Text, VecRecords};

pub(crate) fn one_text<'a>(alloc: Global, text: CowStr<'a>) -> Result<Vec<CowStr<'a>>, TableError>
    ensures ok { IfOk result (λ v. map cow_str_bytes v.items ≡ cow_str_bytes text.entry ∷ []) }
    ensures length { IfOk result (λ v. vec_len v ≡ 1) }
    ensures only { IfErr result (λ e. e ≡ Memory) }
{
    Ok(vec![in alloc; text]?)
}

/// Returns what `Display` writes of a value. A `Display` that fails is reported as `Memory`.
pub(crate) fn displayed<'a, T: Display>(alloc: Global, value: &T) -> Result<CowStr<'a>, AllocError>
    ensures text { IfOk result (λ text. Says (T.output value.now) (cow_str_bytes text)) }
    ensures utf8 { IfOk result (λ text. IsUtf8 (cow_str_bytes text)) }
{
    Ok(CowStr::Owned(value.to_string(alloc)?))
}

pub(crate) fn empty_texts<'a>(alloc: Global, count: usize) -> Result<Vec<CowStr<'a>>, AllocError>
    ensures ok { IfOk result (λ v. map cow_str_bytes v.items ≡ replicate count []) }
    ensures length { IfOk result (λ v. vec_len v ≡ count) }
{
    let mut texts = Vec::with_capacity(alloc, count)?;
    'empty: for _field in 0..count {
        texts.push(CowStr::Borrowed(""))?;
    }
    Ok(texts)
}

pub(crate) fn joined<'a>(
    mut front: Vec<CowStr<'a>>,
    mut behind: Vec<CowStr<'a>>,
) -> Result<Vec<CowStr<'a>>, TableError>
    ensures ok { IfOk result (λ v. map cow_str_bytes v.items
        ≡ map cow_str_bytes front.entry.items ++ map cow_str_bytes behind.entry.items) }
    ensures length { IfOk result (λ v. vec_len v ≡ vec_len front.entry + vec_len behind.entry) }
    ensures only { IfErr result (λ e. e ≡ Memory) }
{
    front.append(&mut behind)?;
    Ok(front)
}

/// Appends a cell with a copy of a text.
#[inline(always)]
pub(crate) fn push_text(row: &mut Vec<Text<String>>, text: &str) -> Result<(), TableError>
    ensures texts { OnOk result
        (CellsAdded (λ texts. texts ≡ text.now ∷ []) row.old.items row.new.items) }
    ensures length { OnOk result (vec_len row.new ≡ vec_len row.old + 1) }
    ensures only { IfErr result (λ e. e ≡ Memory) }
{
    let text = Text::copied(*row.allocator(), text)?;
    Ok(row.push(text)?)
}

/// Appends a cell with a copy of a text of printable ASCII, which isn't measured.
#[inline(always)]
pub(crate) fn push_printable(row: &mut Vec<Text<String>>, text: &str) -> Result<(), TableError>
    requires { IsPrintableAscii text.now }
    ensures texts { OnOk result
        (CellsAdded (λ texts. texts ≡ text.now ∷ []) row.old.items row.new.items) }
    ensures length { OnOk result (vec_len row.new ≡ vec_len row.old + 1) }
    ensures only { IfErr result (λ e. e ≡ Memory) }
{
    let text = Text::copied_printable(*row.allocator(), text)?;
    Ok(row.push(text)?)
}

/// Appends a cell with the digits of a signed number.
#[inline(always)]
pub(crate) fn push_signed(row: &mut Vec<Text<String>>, number: i64) -> Result<(), TableError>
    ensures texts { OnOk result
        (CellsAdded (λ texts. texts ≡ signed_decimal number ∷ []) row.old.items row.new.items) }
    ensures length { OnOk result (vec_len row.new ≡ vec_len row.old + 1) }
    ensures only { IfErr result (λ e. e ≡ Memory) }
{
    push_printable(row, Buffer::new().format(number))
}

/// Appends a cell with the digits of an unsigned number.
#[inline(always)]
pub(crate) fn push_unsigned(row: &mut Vec<Text<String>>, number: u64) -> Result<(), TableError>
    ensures texts { OnOk result
        (CellsAdded (λ texts. texts ≡ decimal number ∷ []) row.old.items row.new.items) }
    ensures length { OnOk result (vec_len row.new ≡ vec_len row.old + 1) }
    ensures only { IfErr result (λ e. e ≡ Memory) }
{
    push_printable(row, Buffer::new().format(number))
}

pub(crate) fn push_texts(row: &mut Vec<Text<String>>, texts: Vec<CowStr>) -> Result<(), AllocError>
    ensures texts { OnOk result
        (row.new.items ≡ row.old.items ++ map cow_str_bytes texts.entry.items) }
    ensures length { OnOk result (vec_len row.new ≡ vec_len row.old + vec_len texts.entry) }
{
    let alloc = *row.allocator();
    'texts: for text in texts {
        row.push(Text::new(text.into_owned(alloc)?))?;
    }
    Ok(())
}

/// Makes a row of each value. Fails only with `Memory`.
pub fn value_records<I: IntoIterator>(
    alloc: Global,
    iter: I,
) -> Result<VecRecords<Text<String>>, TableError>
where
    I::Item: Tabled + Drop,
    requires { IsFiniteIterable I.into_iter_gives I.IntoIter.can_next I.IntoIter.remaining iter }
    ensures ok { IfOk result (λ records. (values : List I.Item)
        × Given I.into_iter_gives I.IntoIter.next_gives iter values
        × AllZip I.Item.shows values records) }
    ensures only { IfErr result (λ e. e ≡ Memory) }
{
    let mut cells = Vec::new(alloc);
    let count = push_values(&mut cells, iter.into_iter())?;
    Ok(VecRecords::from_cells(cells, I::Item::length(), count))
}

/// Makes a row of the field names, then a row of each value. `room` is the number of rows to
/// allocate in advance, the header included. Fails only with `Memory`.
pub fn named_records<I: IntoIterator>(
    alloc: Global,
    iter: I,
    room: usize,
) -> Result<VecRecords<Text<String>>, TableError>
where
    I::Item: Tabled + Drop,
    requires { IsFiniteIterable I.into_iter_gives I.IntoIter.can_next I.IntoIter.remaining iter }
    ensures ok { IfOk result (λ records. (values : List I.Item) × (rows : List (List (List ℕ)))
        × Given I.into_iter_gives I.IntoIter.next_gives iter values
        × AllZip I.Item.shows values rows × (records ≡ I.Item.names ∷ rows)) }
    ensures only { IfErr result (λ e. e ≡ Memory) }
{
    let values = iter.into_iter();
    let headers = I::Item::headers(alloc)?;
    let columns = headers.len();
    let mut cells = Vec::with_capacity(alloc, room.saturating_mul(columns))?;
    push_texts(&mut cells, headers)?;
    let count = push_values(&mut cells, values)?;
    Ok(VecRecords::from_cells(cells, columns, one_more(count)?))
}

/// Appends the cells of each value to a list, and returns the number of values.
fn push_values<I: Iterator>(cells: &mut Vec<Text<String>>, values: I) -> Result<usize, TableError>
where
    I::Item: Tabled + Drop,
    requires can_next { I.can_next values }
    requires ends { IsFinite (I.remaining values) }
    ensures ok { IfOk result (λ count. (given : List I.Item) × Drains I.next_gives values given
        × ValuesAdded I.Item.shows I.Item.LENGTH given count cells.old.items cells.new.items) }
    ensures only { IfErr result (λ e. e ≡ Memory) }
{
    let mut count: usize = 0;
    'values: for value in values {
        value.push_cells(cells)?;
        count = one_more(count)?;
    }
    Ok(count)
}

/// Adds one. A sum that exceeds `usize::MAX`, which only rows without cells reach, is reported as
/// `Memory`.
#[inline(always)]
fn one_more(count: usize) -> Result<usize, TableError>
    ensures ok { IfOk result (λ more. more ≡ count + 1) }
    ensures only { IfErr result (λ e. e ≡ Memory) }
{
    count.checked_add(1).ok_or(TableError::Memory)
}

/// Makes a row of name and string for each field of each value. Fails only with `Memory`.
pub fn field_records<I: IntoIterator>(
    alloc: Global,
    iter: I,
) -> Result<VecRecords<Text<String>>, TableError>
where
    I::Item: Tabled + Drop,
    requires { IsFiniteIterable I.into_iter_gives I.IntoIter.can_next I.IntoIter.remaining iter }
    ensures ok { IfOk result (λ records. (values : List I.Item) × (rows : List (List (List ℕ)))
        × Given I.into_iter_gives I.IntoIter.next_gives iter values
        × AllZip I.Item.shows values rows
        × (records ≡ flat_map (pairs I.Item.names) rows)) }
    ensures only { IfErr result (λ e. e ≡ Memory) }
{
    let values = iter.into_iter();
    let names = I::Item::headers(alloc)?;
    let mut rows = Vec::new(alloc);
    'values: for value in values {
        let texts = value.fields(alloc)?;
        push_fields(&mut rows, names.as_slice(), texts)?;
    }
    Ok(VecRecords::new(rows))
}

fn push_fields(
    rows: &mut Vec<Vec<Text<String>>>,
    names: &[CowStr<'_>],
    texts: Vec<CowStr<'_>>,
) -> Result<(), TableError>
    ensures ok { OnOk result (row_texts rows.new.items ≡ row_texts rows.old.items
        ++ pairs (map cow_str_bytes names.now) (map cow_str_bytes texts.entry.items)) }
    ensures only { IfErr result (λ e. e ≡ Memory) }
{
    let alloc = *rows.allocator();
    'fields: for (name, text) in names.iter().zip(texts) {
        let mut row = Vec::with_capacity(alloc, 2)?;
        row.push(Text::copied(alloc, name.as_str())?)?;
        row.push(Text::new(text.into_owned(alloc)?))?;
        rows.push(row)?;
    }
    Ok(())
}
