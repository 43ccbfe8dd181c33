//! Tests the names and cells of one value.

use serde::{Described, Serialize, Serializer};
use std::alloc::Global;
use std::collections::BTreeMap;
use std::fmt;
use std::fmt::Display;
use std::test::Fail;
use tabled_serde::{Record, RowError, read_record};

#[derive(Drop, Serialize)]
struct Place {
    x: i8,
    y: Option<i8>,
}

#[derive(Drop, Serialize)]
struct Named {
    name: char,
    #[serde(flatten)]
    place: Place,
    seen: bool,
}

#[derive(Drop, Serialize)]
struct Nested {
    name: char,
    place: Place,
}

#[derive(Drop, Serialize)]
#[serde(rename_all = "camelCase")]
struct Grid {
    first_row: [[u8; 2]; 2],
}

fn joined(alloc: Global, texts: &Vec<String>) -> Result<String, RowError> {
    let mut all = String::new(alloc);
    for text in texts {
        all.push_str(text)?;
        all.push('|')?;
    }
    Ok(all)
}

/// The names and the cells, each with a bar after it.
fn shown(alloc: Global, record: &Record) -> Result<(String, String), RowError> {
    Ok((joined(alloc, &record.names)?, joined(alloc, &record.cells)?))
}

#[test]
fn a_flattened_struct_puts_its_fields_beside_the_others(rt: HostRuntime) -> Result<(), Fail> {
    let value = Named {
        name: 'é',
        place: Place { x: -7, y: None },
        seen: true,
    };
    let (names, cells) = shown(rt.alloc(), &read_record(rt.alloc(), &value, "?")?)?;
    assert_eq!(rt; names.as_str(), "name|x|y|seen|");
    assert_eq!(rt; cells.as_str(), "é|-7|?|true|");
    Ok(())
}

#[test]
fn a_map_has_its_keys_as_names(rt: HostRuntime) -> Result<(), Fail> {
    let mut map = BTreeMap::new(rt.alloc());
    map.insert(10u8, 2.5f32)?;
    map.insert(9u8, -1f32)?;
    let (names, cells) = shown(rt.alloc(), &read_record(rt.alloc(), &map, "")?)?;
    assert_eq!(rt; names.as_str(), "9|10|");
    assert_eq!(rt; cells.as_str(), "-1|2.5|");
    Ok(())
}

fn field_of(outcome: Result<Record, RowError>) -> Option<String> {
    match outcome {
        Err(RowError::Nested { field }) => Some(field),
        _ => None,
    }
}

#[test]
fn an_error_says_which_field(rt: HostRuntime) -> Result<(), Fail> {
    let value = Nested {
        name: 'a',
        place: Place { x: 1, y: Some(2) },
    };
    let field = field_of(read_record(rt.alloc(), &value, "")).ok_or("nested")?;
    assert_eq!(rt; field.as_str(), "place");
    let grid = Grid {
        first_row: [[1, 2], [3, 4]],
    };
    let field = field_of(read_record(rt.alloc(), &grid, "")).ok_or("nested")?;
    assert_eq!(rt; field.as_str(), "firstRow");
    assert!(rt; matches!(read_record(rt.alloc(), &5u8, ""), Err(RowError::NoFields)));
    Ok(())
}

/// A time of day, which is written as it is displayed.
#[derive(Drop)]
struct Time {
    hour: u8,
    minute: u8,
}

impl Display for Time {
    fn fmt<W: fmt::Write>(&self, f: &mut fmt::Formatter<W>) -> fmt::Result {
        write!(f, "{}.{}", self.hour, self.minute)
    }
}

impl Described for Time {}

impl Serialize for Time {
    fn serialize<S: Serializer>(&self, out: &mut S) -> Result<(), S::Error> {
        out.collect_str(self)
    }
}

#[derive(Drop, Serialize)]
struct Train {
    leaves: Time,
    #[serde(flatten)]
    place: Place,
}

#[test]
fn a_value_that_is_displayed_is_its_text(rt: HostRuntime) -> Result<(), Fail> {
    let value = Train {
        leaves: Time {
            hour: 7,
            minute: 45,
        },
        place: Place { x: 1, y: None },
    };
    let (names, cells) = shown(rt.alloc(), &read_record(rt.alloc(), &value, "")?)?;
    assert_eq!(rt; names.as_str(), "leaves|x|y|");
    assert_eq!(rt; cells.as_str(), "7.45|1||");
    Ok(())
}

/// Fails at its second field.
#[derive(Drop)]
struct Failing;

impl Described for Failing {}

impl Serialize for Failing {
    fn serialize<S: Serializer>(&self, out: &mut S) -> Result<(), S::Error> {
        out.begin_map(None)?;
        out.key("first")?;
        out.u64(1)?;
        out.key("second")?;
        Err(out.custom("not today"))
    }
}

#[test]
fn an_error_of_the_value_says_which_field(rt: HostRuntime) -> Result<(), Fail> {
    let Err(error) = read_record(rt.alloc(), &Failing, "") else {
        return Err(Fail::from("read"));
    };
    let text = format!(in rt.alloc(); "{error}")?;
    assert_eq!(rt; text.as_str(), "the field `second`: not today");
    Ok(())
}
