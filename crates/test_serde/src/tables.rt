//! Tests tables of values, and the errors of a value that is no row.

use serde::{Described, Serialize, Serializer};
use std::alloc::Global;
use std::test::Fail;
use tabled_base::TableError;
use tabled_serde::{RowError, table};
use tabled_table::Table;

#[derive(Drop, Serialize)]
#[serde(rename_all = "SCREAMING_SNAKE_CASE")]
enum Kind {
    Inland,
    OnTheCoast,
}

#[derive(Drop, Serialize)]
struct Place {
    lat: i8,
    lon: i8,
}

#[derive(Drop, Serialize)]
#[serde(rename_all = "camelCase")]
struct Town {
    name: &'static str,
    #[serde(rename = "people")]
    inhabitants: u32,
    #[serde(skip)]
    _id: u8,
    town_kind: Kind,
    twin: Option<&'static str>,
    tags: [Option<u8>; 3],
    #[serde(flatten)]
    place: Place,
}

const LIMA: Town = Town {
    name: "Lima",
    inhabitants: 10_092_000,
    _id: 1,
    town_kind: Kind::OnTheCoast,
    twin: Some("Miami"),
    tags: [Some(1), None, Some(3)],
    place: Place { lat: -12, lon: -77 },
};

const BERN: Town = Town {
    name: "Bern",
    inhabitants: 134_506,
    _id: 2,
    town_kind: Kind::Inland,
    twin: None,
    tags: [None, None, None],
    place: Place { lat: 47, lon: 7 },
};

const TOWNS: &str = "\
+------+----------+--------------+-------+--------+-----+-----+
| name | people   | townKind     | twin  | tags   | lat | lon |
+------+----------+--------------+-------+--------+-----+-----+
| Lima | 10092000 | ON_THE_COAST | Miami | 1, , 3 | -12 | -77 |
+------+----------+--------------+-------+--------+-----+-----+
| Bern | 134506   | INLAND       |       | , ,    | 47  | 7   |
+------+----------+--------------+-------+--------+-----+-----+";

#[test]
fn fields_are_renamed_skipped_joined_and_flattened(rt: HostRuntime) -> Result<(), Fail> {
    let text = table(rt.alloc(), [LIMA, BERN])?.to_text()?;
    assert_eq!(rt; text.as_str(), TOWNS);
    Ok(())
}

#[test]
fn a_table_without_values_is_empty(rt: HostRuntime) -> Result<(), Fail> {
    let none: [Place; 0] = [];
    assert_eq!(rt; table(rt.alloc(), none)?.to_text()?.as_str(), "");
    Ok(())
}

fn one<T: Drop>(alloc: Global, value: T) -> Result<Vec<T>, TableError> {
    let mut values = Vec::new(alloc);
    values.push(value)?;
    Ok(values)
}

// A function over any value that serializes asks for no other bound.
fn picture_of<T: Serialize + Drop>(alloc: Global, value: T) -> Result<String, Fail> {
    Ok(table(alloc, one(alloc, value)?)?.to_text()?)
}

#[test]
fn values_of_any_type_that_serializes_are_shown(rt: HostRuntime) -> Result<(), Fail> {
    let text = picture_of(rt.alloc(), Place { lat: -12, lon: 7 })?;
    assert_eq!(rt;
        text.as_str(),
        "+-----+-----+\n| lat | lon |\n+-----+-----+\n| -12 | 7   |\n+-----+-----+"
    );
    Ok(())
}

fn message(alloc: Global, outcome: Result<Table, RowError>) -> Result<String, Fail> {
    match outcome {
        Ok(_) => Err(Fail::from("a table")),
        Err(error) => Ok(format!(in alloc; "{error}")?),
    }
}

#[derive(Drop, Serialize)]
struct Trip {
    day: u8,
    to: Option<Place>,
}

#[test]
fn a_struct_in_a_later_value_names_its_field(rt: HostRuntime) -> Result<(), Fail> {
    let trips = [
        Trip { day: 1, to: None },
        Trip {
            day: 2,
            to: Some(Place { lat: 1, lon: 2 }),
        },
    ];
    let text = message(rt.alloc(), table(rt.alloc(), trips))?;
    assert_eq!(rt; text.as_str(), "the field `to` has no text of its own");
    Ok(())
}

/// A date, which fails unless it is in June.
#[derive(Drop)]
struct June(u8);

impl Described for June {}

impl Serialize for June {
    fn serialize<S: Serializer>(&self, out: &mut S) -> Result<(), S::Error> {
        match self.0 {
            0 => Err(out.custom("no day in June")),
            day => out.u64(u64::from(day)),
        }
    }
}

#[derive(Drop, Serialize)]
#[serde(rename_all = "camelCase")]
struct Visit {
    guest: char,
    first_day: June,
    last_day: June,
}

#[test]
fn an_error_of_a_value_names_its_field_as_it_is_spelled(rt: HostRuntime) -> Result<(), Fail> {
    let visits = [
        Visit {
            guest: 'a',
            first_day: June(1),
            last_day: June(2),
        },
        Visit {
            guest: 'b',
            first_day: June(0),
            last_day: June(2),
        },
    ];
    let text = message(rt.alloc(), table(rt.alloc(), visits))?;
    assert_eq!(rt; text.as_str(), "the field `firstDay`: no day in June");
    Ok(())
}

fn is_zero(n: &u8) -> bool {
    *n == 0
}

/// Counts that are left out where they are 0.
#[derive(Drop, Serialize)]
struct Counts {
    #[serde(skip_serializing_if = "is_zero")]
    a: u8,
    #[serde(skip_serializing_if = "is_zero")]
    b: u8,
    #[serde(skip_serializing_if = "is_zero")]
    c: u8,
}

#[test]
fn the_first_field_without_a_column_is_named(rt: HostRuntime) -> Result<(), Fail> {
    let counts = [Counts { a: 1, b: 0, c: 0 }, Counts { a: 2, b: 3, c: 4 }];
    let text = message(rt.alloc(), table(rt.alloc(), counts))?;
    assert_eq!(rt;
        text.as_str(),
        "the field `b` is not one of the first value"
    );
    Ok(())
}

#[test]
fn numbers_alone_have_no_fields(rt: HostRuntime) -> Result<(), Fail> {
    let text = message(rt.alloc(), table(rt.alloc(), [1u8, 2]))?;
    assert_eq!(rt; text.as_str(), "the value has no fields");
    Ok(())
}
