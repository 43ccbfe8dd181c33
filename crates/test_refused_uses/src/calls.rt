//! Calls that make, copy and measure rows and tables.

use crate::found::{Found, refused_if, whole_if};
use crate::joined::{end_row, joined_picture, push_text};
use crate::printers::{PAIRS, PICTURE, table_of_pairs};
use std::alloc::Global;
use tabled::builder::Builder;
use tabled::grid::records::JoinedRecords;
use tabled::tables::{ExtendedTable, PoolTable};
use tabled::{Table, TableError};

/// The names of the calls.
pub const CALLS: &[&str] = &[
    "push_record",
    "push_record longer",
    "push_record joined",
    "push text",
    "end row",
    "new",
    "with_capacity",
    "nohead",
    "kv",
    "builder",
    "from_iter",
    "total_width",
    "total_height",
    "clone",
    "records new",
    "records from_rows",
    "records truncate",
    "boxes new",
    "boxes clone",
];

// The outcome of a call without state: it must return the wanted text, or fail with `Memory`.
fn made(answer: Result<String, TableError>, wanted: &str) -> Found {
    match answer {
        Ok(text) => whole_if(text.as_str() == wanted),
        Err(error) => refused_if(error == TableError::Memory),
    }
}

fn printed(table: Result<Table, TableError>) -> Result<String, TableError> {
    table?.to_string()
}

// The outcome of pushing a record below `a` and `bb`. `picture` shows the records after the call.
fn pushed(answer: Result<(), TableError>, picture: &str, wanted: &str) -> Found {
    match answer {
        Ok(()) => whole_if(picture == wanted),
        Err(error) => refused_if(error == TableError::Memory && picture == ONE_ROW),
    }
}

// A failed push must leave the builder unchanged.
fn push(alloc: Global, record: &[&'static str], wanted: &str) -> Result<Found, TableError> {
    let mut builder = Builder::new(alloc);
    builder.push_record(["a", "bb"])?;
    let answer = builder.push_record(record.iter().copied()).map(|_| ());
    let picture = Table::from(builder).to_string()?;
    Ok(pushed(answer, picture.as_str(), wanted))
}

// A failed push must leave the records unchanged.
fn push_joined(alloc: Global) -> Result<Found, TableError> {
    let mut records = JoinedRecords::new(alloc);
    records.push_record(["a", "bb"])?;
    let answer = records.push_record(["c", "d", "e"]);
    let picture = joined_picture(alloc, &records)?;
    Ok(pushed(answer, picture.as_str(), LONGER))
}

const ONE_ROW: &str = "\
+---+----+
| a | bb |
+---+----+";

const LONGER: &str = "\
+---+----+---+
| a | bb |   |
+---+----+---+
| c | d  | e |
+---+----+---+";

const HEADED: &str = "\
+------+------+
| &str | &str |
+------+------+
| a    | bb   |
+------+------+
| ccc  |      |
+------+------+";

const NAMED: &str = "\
+------+-----+
| &str | a   |
+------+-----+
| &str | bb  |
+------+-----+
| &str | ccc |
+------+-----+
| &str |     |
+------+-----+";

const TUPLES: [(&str, &str); 2] = [("a", "bb"), ("ccc", "")];

fn table_made(alloc: Global, name: &str) -> Found {
    match name {
        "new" => made(printed(Table::new(alloc, TUPLES)), HEADED),
        "with_capacity" => made(printed(Table::with_capacity(alloc, TUPLES, 3)), HEADED),
        "nohead" => made(printed(Table::nohead(alloc, TUPLES)), PICTURE),
        "kv" => made(printed(Table::kv(alloc, TUPLES)), NAMED),
        "builder" => made(
            printed(Table::builder(alloc, TUPLES).map(Table::from)),
            HEADED,
        ),
        _ => made(printed(table_of_pairs(alloc)), PICTURE),
    }
}

// Measuring must leave the table unchanged, and store no sizes.
fn measured(alloc: Global, name: &str) -> Result<Found, TableError> {
    let table = table_of_pairs(alloc)?;
    let (answer, wanted) = match name {
        "total_width" => (table.total_width(), 12),
        _ => (table.total_height(), 5),
    };
    let is_kept = table.get_dimension().is_empty() && table.to_string()?.as_str() == PICTURE;
    Ok(match answer {
        Ok(number) => whole_if(is_kept && number == wanted),
        Err(error) => refused_if(is_kept && error == TableError::Memory),
    })
}

fn copied(alloc: Global) -> Result<Found, TableError> {
    let table = table_of_pairs(alloc)?;
    match table.clone() {
        Ok(copy) => Ok(whole_if(copy == table)),
        Err(error) => Ok(refused_if(
            error == TableError::Memory && table.to_string()?.as_str() == PICTURE,
        )),
    }
}

const ESCAPED: &str = "\
-[ RECORD 0 ]-
&str | a\\n
-[ RECORD 1 ]-
&str | b";

const WIDE: [[&str; 2]; 2] = [["a", "bb"], ["cccccccccccc", "dddddddddddd"]];

const UNCUT: &str = "-[ RECORD 0 ]----\na  | cccccccccccc\nbb | dddddddddddd";

const FIRST_CUT: &str = "-[ RECORD 0 ]----\na  | ccccc..\nbb | dddddddddddd";

const BOTH_CUT: &str = "-[ RECORD 0 ]-\na  | ccccc..\nbb | ddddd..";

// Whether no value of the wide record is truncated, only the first, or both.
fn is_left(text: &str) -> bool {
    text == UNCUT || text == FIRST_CUT || text == BOTH_CUT
}

// If truncating fails at a value, only the values before it may be truncated.
fn truncated(alloc: Global) -> Result<Found, TableError> {
    let mut table = ExtendedTable::from_rows(alloc, WIDE)?;
    let answer = table.truncate(14, "..");
    let text = table.to_string()?;
    Ok(match answer {
        Ok(done) => whole_if(done && text.as_str() == BOTH_CUT),
        Err(error) => refused_if(error == TableError::Memory && is_left(text.as_str())),
    })
}

fn shown(table: Result<ExtendedTable, TableError>) -> Result<String, TableError> {
    table?.to_string()
}

fn records_made(alloc: Global, name: &str) -> Found {
    match name {
        "records new" => made(shown(ExtendedTable::new(alloc, ["a\n", "b"])), ESCAPED),
        _ => made(shown(ExtendedTable::from_rows(alloc, WIDE)), UNCUT),
    }
}

const BOXES: &str = "\
+---+----+
| a | bb |
+---+-+--+
| ccc |  |
+-----+--+";

fn drawn(table: Result<PoolTable, TableError>) -> Result<String, TableError> {
    table?.to_string()
}

fn drawn_new(alloc: Global) -> Found {
    made(drawn(PoolTable::new(alloc, PAIRS)), BOXES)
}

fn drawn_copy(alloc: Global) -> Result<Found, TableError> {
    let table = PoolTable::new(alloc, PAIRS)?;
    Ok(made(drawn(table.clone()), BOXES))
}

/// Runs a call by name, and returns its outcome.
pub fn called(alloc: Global, name: &str) -> Result<Found, TableError> {
    match name {
        "push_record" => push(alloc, &["ccc"], PICTURE),
        "push_record longer" => push(alloc, &["c", "d", "e"], LONGER),
        "push_record joined" => push_joined(alloc),
        "push text" => push_text(alloc),
        "end row" => end_row(alloc),
        "total_width" | "total_height" => measured(alloc, name),
        "clone" => copied(alloc),
        "records new" | "records from_rows" => Ok(records_made(alloc, name)),
        "records truncate" => truncated(alloc),
        "boxes new" => Ok(drawn_new(alloc)),
        "boxes clone" => drawn_copy(alloc),
        _ => Ok(table_made(alloc, name)),
    }
}
