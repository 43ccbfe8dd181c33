//! Tests the rows of values, in a table and in a stream.

use serde::Serialize;
use std::test::Fail;
use tabled_base::Builder;
use tabled_records::TryRows;
use tabled_serde::{RowError, ValueRows, builder};
use tabled_table::{IterTable, Table};

#[derive(Drop, Serialize)]
enum Size {
    Small,
    VeryLarge,
}

#[derive(Drop, Serialize)]
struct City {
    name: &'static str,
    #[serde(rename = "inhabitants")]
    people: u32,
    #[serde(skip)]
    _id: u8,
    size: Size,
    area: Option<f64>,
    rivers: [&'static str; 2],
}

const PARIS: City = City {
    name: "Paris",
    people: 2_103_778,
    _id: 1,
    size: Size::VeryLarge,
    area: Some(105.4),
    rivers: ["Seine", "Bièvre"],
};

const VADUZ: City = City {
    name: "Vaduz",
    people: 5_774,
    _id: 2,
    size: Size::Small,
    area: None,
    rivers: ["Rhine", "Spiersbach"],
};

const CITIES: &str = "\
+-------+-------------+-----------+-------+-------------------+
| name  | inhabitants | size      | area  | rivers            |
+-------+-------------+-----------+-------+-------------------+
| Paris | 2103778     | VeryLarge | 105.4 | Seine, Bièvre     |
+-------+-------------+-----------+-------+-------------------+
| Vaduz | 5774        | Small     |       | Rhine, Spiersbach |
+-------+-------------+-----------+-------+-------------------+";

#[test]
fn a_table_has_a_header_and_a_row_for_each_value(rt: HostRuntime) -> Result<(), Fail> {
    let table = Table::from(builder(rt.alloc(), [PARIS, VADUZ], "")?);
    assert_eq!(rt; table.to_text()?.as_str(), CITIES);
    Ok(())
}

fn is_zero(n: &u8) -> bool {
    *n == 0
}

#[derive(Drop, Serialize)]
struct Score {
    name: char,
    #[serde(skip_serializing_if = "is_zero")]
    goals: u8,
    #[serde(skip_serializing_if = "is_zero")]
    cards: u8,
    note: Option<u8>,
}

const FULL: Score = Score {
    name: 'a',
    goals: 1,
    cards: 2,
    note: None,
};

const SHORT: Score = Score {
    name: 'b',
    goals: 0,
    cards: 3,
    note: Some(4),
};

const SCORES: &str = "\
+------+-------+-------+------+
| name | goals | cards | note |
+------+-------+-------+------+
| a    | 1     | 2     | -    |
+------+-------+-------+------+
| b    |       | 3     | 4    |
+------+-------+-------+------+";

#[test]
fn a_field_that_is_left_out_has_an_empty_cell(rt: HostRuntime) -> Result<(), Fail> {
    let table = Table::from(builder(rt.alloc(), [FULL, SHORT], "-")?);
    assert_eq!(rt; table.to_text()?.as_str(), SCORES);
    Ok(())
}

#[test]
fn rows_are_streamed(rt: HostRuntime) -> Result<(), Fail> {
    let rows = ValueRows::new(rt.alloc(), [FULL, SHORT].into_iter(), "-");
    let mut text = String::new(rt.alloc());
    let table = IterTable::new(TryRows::new(rows));
    assert_eq!(rt; table.try_fmt(rt.alloc(), &mut text), (Ok(()), Ok(())));
    assert_eq!(rt; text.as_str(), SCORES);
    Ok(())
}

fn unknown_field(outcome: Result<Builder, RowError>) -> Option<String> {
    match outcome {
        Err(RowError::Unknown { field }) => Some(field),
        _ => None,
    }
}

#[test]
fn a_field_without_a_column_is_an_error(rt: HostRuntime) -> Result<(), Fail> {
    let field = unknown_field(builder(rt.alloc(), [SHORT, FULL], "")).ok_or("unknown")?;
    assert_eq!(rt; field.as_str(), "goals");
    Ok(())
}

#[test]
fn no_values_are_no_rows(rt: HostRuntime) -> Result<(), Fail> {
    let none: [City; 0] = [];
    let table = Table::from(builder(rt.alloc(), none, "")?);
    assert_eq!(rt; table.to_text()?.as_str(), "");
    Ok(())
}
