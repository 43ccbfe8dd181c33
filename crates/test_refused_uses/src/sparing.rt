//! Calls that allocate nothing, and so succeed while every allocation fails. Only their setup
//! allocates.

use crate::found::{Found, whole_if};
use crate::printers::{PAIRS, PICTURE, sized_table_of_pairs};
use std::alloc::Global;
use std::io;
use tabled::builder::Builder;
use tabled::grid::records::ExactRecords;
use tabled::grid::util::string::{count_lines, cut_str, is_fullest, is_plain, text_width};
use tabled::settings::width::Truncate;
use tabled::{IoSink, Table, TableError};

/// The names of the calls.
pub const SPARING: &[&str] = &["builders", "stored sizes", "texts"];

// Converts between builders, tables and records.
fn turned(alloc: Global) -> Result<Found, TableError> {
    let mut builder = Builder::new(alloc);
    builder.push_record(PAIRS[0])?.push_record(PAIRS[1])?;
    let records = Builder::from(Table::from(builder)).build();
    let counts = (records.count_rows(), records.count_columns());
    Ok(whole_if(counts == (2, 2)))
}

// Measures a table with stored sizes, and prints it into a buffer.
fn stored(alloc: Global) -> Result<Found, TableError> {
    let table = sized_table_of_pairs(alloc)?;
    let totals = (table.total_width(), table.total_height());
    let mut room = io::Cursor::new([0u8; 128]);
    let answer = table.write_to(&mut IoSink::new(&mut room));
    let is_whole = room.get_ref().starts_with(PICTURE.as_bytes());
    Ok(whole_if(totals == (Ok(12), Ok(5)) && answer == Ok(()) && is_whole))
}

// Whether texts are cut right. No fill character is needed, so the results are borrowed.
fn is_cut(alloc: Global) -> Result<bool, TableError> {
    let cut = cut_str(alloc, "123\n45", 3)?;
    let truncated = Truncate::truncate(alloc, "123\n456789", 4)?;
    Ok(cut.as_str() == "123" && truncated.as_str() == "123\n4567")
}

// Cuts, measures and tests texts.
fn cut(alloc: Global) -> Found {
    let measures = (text_width("ab\nc"), count_lines("ab\nc"));
    let is_tested = is_plain("ab") && is_fullest("111 234 1", "111 \n234 \n1", 4, true);
    match is_cut(alloc) {
        Ok(is_right) => whole_if(is_right && is_tested && measures == (2, 2)),
        Err(_) => Found::Refused,
    }
}

/// Runs a call by name, and returns its outcome.
pub fn spared(alloc: Global, name: &str) -> Result<Found, TableError> {
    match name {
        "builders" => turned(alloc),
        "stored sizes" => stored(alloc),
        _ => Ok(cut(alloc)),
    }
}
