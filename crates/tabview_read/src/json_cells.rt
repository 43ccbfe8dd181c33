//! The cells of values of JSON.
ghost use Rattle.csv.specs.Records.{fields_of};
ghost use Rattle.json.specs.Find.{get};
ghost use Rattle.json.specs.Print.{print};
ghost use Rattle.json.specs.Tree.{HasNumbers, ItemsHaveNumbers, json_tokens};
ghost use Rattle.json.specs.Value.{items_view, value_view};
ghost use Rattle.std.specs.Prelude.{◌≡◌, ◌<◌, [], IfOk, IfSome, OnOk, Some, get_or, length, map, option_map, string_bytes};
ghost use Rattle.tabview_read.specs.Cells.{AddsCell, AddsCells};

use crate::row::Row;
use csv::StringRecord;
use json::{Value, to_vec};
use std::alloc::{AllocError, Global};

/// Adds the cell of a value: a string or a number as it is, `true` or `false`, and an array or an
/// object as compact JSON. Null is null.
pub(crate) fn push_value(alloc: Global, row: &mut Row, value: &Value<'_>) -> Result<(), AllocError>
    requires { HasNumbers (value_view value.now) }
    ensures { OnOk result (AddsCell (Some (value_view value.now)) row.old row.new) }
{
    match value {
        Value::Null => row.push_null(),
        Value::Bool(true) => row.push_text("true"),
        Value::Bool(false) => row.push_text("false"),
        Value::Number(text) | Value::String(text) => row.push_text(text),
        Value::Array(_) | Value::Object(_) => row.push_text(&compact(alloc, value)?),
    }
}

/// Returns a value as JSON without spaces.
fn compact(alloc: Global, value: &Value<'_>) -> Result<String, AllocError>
    requires { HasNumbers (value_view value.now) }
    ensures { IfOk result (λ s. string_bytes s ≡ print (json_tokens (value_view value.now))) }
{
    let bytes = to_vec(alloc, value)?;
    match String::from_utf8(bytes) {
        Ok(text) => Ok(text),
        Err(_) => unreachable!(),
    }
}

/// Adds the cells of an array.
pub(crate) fn push_items(
    alloc: Global,
    row: &mut Row,
    items: &[Value<'_>],
) -> Result<(), AllocError>
    requires { ItemsHaveNumbers (items_view items.now) }
    ensures { OnOk result
        (AddsCells (map (λ v. Some (value_view v)) items.now) row.old row.new) }
{
    for item in items {
        push_value(alloc, row, item)?;
    }
    Ok(())
}

/// Adds the cells of an object: for each name that of its member, or an empty one.
pub(crate) fn push_members(
    alloc: Global,
    row: &mut Row,
    names: &StringRecord,
    object: &Value<'_>,
) -> Result<(), AllocError>
    requires { HasNumbers (value_view object.now) }
    ensures { OnOk result (AddsCells
        (map (λ name. get name (value_view object.now)) (fields_of names.now)) row.old row.new) }
{
    for column in 0..names.len() {
        let name = name_at(names, column);
        push_member(alloc, row, object.get(name))?;
    }
    Ok(())
}

/// Returns the name of a column.
pub(crate) fn name_at(names: &StringRecord, column: usize) -> &str
    requires { column < length (fields_of names.now) }
    ensures { result.now ≡ get_or (fields_of names.now) column [] }
{
    names.get(column).unwrap_or("")
}

/// Adds the cell of a member, empty if there is none.
fn push_member(alloc: Global, row: &mut Row, member: Option<&Value<'_>>) -> Result<(), AllocError>
    requires { IfSome member (λ v. HasNumbers (value_view v.now)) }
    ensures { OnOk result
        (AddsCell (option_map (λ v. value_view v.now) member.entry) row.old row.new) }
{
    match member {
        Some(value) => push_value(alloc, row, value),
        None => row.push_text(""),
    }
}
