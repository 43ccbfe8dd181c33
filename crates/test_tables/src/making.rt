//! Conversions between tables and builders, empty tables, and counts.

use crate::showing::{assert_text, picture};
use std::test::Fail;
use test_table_uses::{
    PAIRS, Sheet, counts_of, counts_of_none, is_the_empty_table, of_no_pairs, of_no_values,
    pair_begins, there_and_back,
};

const GREETINGS: &str = picture! {
    "+-------+------+"
    "| &str  | i32  |"
    "+-------+------+"
    "| Hello | 100  |"
    "+-------+------+"
    "| World | 1000 |"
    "+-------+------+"
};

#[test]
fn a_table_gives_its_rows_back(rt: HostRuntime) -> Result<(), Fail> {
    let text = there_and_back(rt.alloc(), [("Hello", 100), ("World", 1000)]);
    assert_text(&rt, text, GREETINGS)
}

const HEADER: &str = picture! {
    "+----+"
    "| u8 |"
    "+----+"
};

#[test]
fn without_values_the_header_stands_alone(rt: HostRuntime) -> Result<(), Fail> {
    assert_text(&rt, of_no_values(rt.alloc()), HEADER)
}

#[test]
fn a_table_without_rows_prints_nothing(rt: HostRuntime) -> Result<(), Fail> {
    assert_text(&rt, of_no_pairs(rt.alloc()), "")
}

const THREE_COLUMNS: Sheet = Sheet {
    rows: &[&["a", "b", "c"], &["d"]],
    ..PAIRS
};

#[test]
fn a_table_counts_its_rows_and_columns(rt: HostRuntime) -> Result<(), Fail> {
    let counts = counts_of(rt.alloc(), &THREE_COLUMNS)?;
    assert_eq!(rt; counts, ((2, 3), (2, 3), false));
    assert_eq!(rt; counts_of_none(rt.alloc()), ((0, 0), (0, 0), true));
    Ok(())
}

#[test]
fn another_table_is_not_equal(rt: HostRuntime) -> Result<(), Fail> {
    assert!(rt; !is_the_empty_table(rt.alloc(), &PAIRS)?);
    Ok(())
}

#[test]
fn each_value_begins_at_a_batch_of_its_fields(rt: HostRuntime) -> Result<(), Fail> {
    assert_eq!(rt; pair_begins(rt.alloc())?, Some(2));
    Ok(())
}
