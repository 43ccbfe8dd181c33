//! Tests copies of `PoolTable`, and deep trees, which must be dropped without recursion.

use std::alloc::Global;
use std::test::Fail;
use tabled_base::TableError;
use tabled_config::Style;
use tabled_pool::{PoolTable, TableValue};

const PAIR: &str = "\
+-------+-------+
| Hello | World |
+-------+-------+";

// Whether a copy equals its table, before and after the style of the table changes.
fn equal_copies(table: &mut PoolTable) -> Result<(bool, bool), TableError> {
    let copy = table.clone()?;
    let is_equal = copy == *table;
    table.apply(Style::empty())?;
    Ok((is_equal, copy == *table))
}

#[test]
fn a_copy_keeps_its_settings(rt: HostRuntime) -> Result<(), Fail> {
    let mut table = PoolTable::new(rt.alloc(), [["Hello", "World"]])?;
    assert!(rt; equal_copies(&mut table)? == (true, false));
    Ok(())
}

#[test]
fn a_table_is_displayed_without_a_width(rt: HostRuntime) -> Result<(), Fail> {
    let table = PoolTable::new(rt.alloc(), [["Hello", "World"]])?;
    let text = format!(in rt.alloc(); "{table:>99.3}")?;
    assert!(rt; text.as_str() == PAIR);
    Ok(())
}

// A text in `levels` nested rows and columns of one box each.
fn wrapped(alloc: Global, levels: usize) -> Result<TableValue, TableError> {
    let mut value = TableValue::Cell(String::from_str(alloc, "a")?);
    for level in 0..levels {
        let children = Vec::from_array(alloc, [value])?;
        value = if level % 2 == 0 {
            TableValue::Row(children)
        } else {
            TableValue::Column(children)
        };
    }
    Ok(value)
}

fn copied(table: &PoolTable) -> Result<String, TableError> {
    table.clone()?.to_string()
}

#[test]
fn a_tree_of_two_thousand_levels_is_copied_and_printed(rt: HostRuntime) -> Result<(), Fail> {
    let table = PoolTable::from_value(wrapped(rt.alloc(), 2000)?);
    assert_eq!(rt; copied(&table)?.as_str(), "+---+\n| a |\n+---+");
    Ok(())
}

// `levels` nested rows and columns, each of a text and the level below it.
fn nested(alloc: Global, levels: usize) -> Result<TableValue, TableError> {
    let mut value = TableValue::Cell(String::from_str(alloc, "a")?);
    for level in 0..levels {
        let beside = TableValue::Cell(String::from_str(alloc, "b")?);
        let children = Vec::from_array(alloc, [beside, value])?;
        value = if level % 2 == 0 {
            TableValue::Row(children)
        } else {
            TableValue::Column(children)
        };
    }
    Ok(value)
}

const ROW_IN_COLUMN: &str = "\
+-------+
| b     |
+---+---+
| b | a |
+---+---+";

// Counts the levels of two boxes, down the second one, up to `most`.
fn count_levels(value: &TableValue, most: usize) -> usize {
    let mut inside = value;
    for level in 0..most {
        let (TableValue::Row(children) | TableValue::Column(children)) = inside else {
            return level;
        };
        match children.as_slice() {
            [_, below] => inside = below,
            _ => return level,
        }
    }
    most
}

#[test]
fn a_row_is_below_the_text_beside_it(rt: HostRuntime) -> Result<(), Fail> {
    let table = PoolTable::from_value(nested(rt.alloc(), 2)?);
    assert_eq!(rt; table.to_string()?.as_str(), ROW_IN_COLUMN);
    Ok(())
}

// Printing takes stack for each level, but any tree can be dropped: alone, in a table, and while
// another one is there.
#[test]
fn a_tree_that_is_too_deep_to_be_printed_is_dropped(rt: HostRuntime) -> Result<(), Fail> {
    let kept = nested(rt.alloc(), 300_000)?;
    drop(nested(rt.alloc(), 300_000)?);
    drop(PoolTable::from_value(nested(rt.alloc(), 300_000)?));
    assert_eq!(rt; count_levels(&kept, usize::MAX), 300_000);
    Ok(())
}
