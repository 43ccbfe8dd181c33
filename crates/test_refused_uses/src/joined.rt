//! Calls that write joined records text by text. A call that fails must leave the writer unchanged.

use crate::found::{Found, refused_if, whole_if};
use crate::printers::PICTURE;
use std::alloc::Global;
use tabled::TableError;
use tabled::grid::config::new_config;
use tabled::grid::print_estimated;
use tabled::grid::records::{JoinedRecords, RecordsWriter};
use tabled::grid::util::string::{count_lines, text_width};

/// Prints joined records as a table.
pub fn joined_picture(alloc: Global, records: &JoinedRecords) -> Result<String, TableError> {
    let mut picture = String::new(alloc);
    print_estimated(alloc, &mut picture, records, &new_config(alloc))?;
    Ok(picture)
}

fn push(writer: &mut RecordsWriter, text: &str) -> Result<(), TableError> {
    writer.push(text, text_width(text), count_lines(text))
}

// Ends the row that is begun, and prints all rows.
fn ended(alloc: Global, mut writer: RecordsWriter) -> Result<String, TableError> {
    writer.end_row()?;
    joined_picture(alloc, &writer.finish())
}

// The outcome of a call. `left` shows the rows after a failure.
fn outcome(answer: Result<(), TableError>, picture: &str, wanted: &str, left: &str) -> Found {
    match answer {
        Ok(()) => whole_if(picture == wanted),
        Err(error) => refused_if(error == TableError::Memory && picture == left),
    }
}

const PUSHED: &str = "\
+-----+----+------+
| a   | bb |      |
+-----+----+------+
| ccc |    | dddd |
|     |    | e    |
+-----+----+------+";

/// Pushes a text of two lines behind four texts of one line. The buffer and the list of ends have
/// to grow, and the list of lines twice.
pub fn push_text(alloc: Global) -> Result<Found, TableError> {
    let mut writer = RecordsWriter::new(alloc);
    push(&mut writer, "a")?;
    push(&mut writer, "bb")?;
    writer.end_row()?;
    push(&mut writer, "ccc")?;
    push(&mut writer, "")?;
    let answer = push(&mut writer, "dddd\ne");
    let picture = ended(alloc, writer)?;
    Ok(outcome(answer, picture.as_str(), PUSHED, PICTURE))
}

const TWO_ROWS: &str = "\
+-----+
| ccc |
+-----+
| d   |
+-----+";

const ONE_ROW: &str = "\
+-----+---+
| ccc | d |
+-----+---+";

/// Ends a row, and pushes a text. After a failure that text is in the same row.
pub fn end_row(alloc: Global) -> Result<Found, TableError> {
    let mut writer = RecordsWriter::new(alloc);
    push(&mut writer, "ccc")?;
    let answer = writer.end_row();
    push(&mut writer, "d")?;
    let picture = ended(alloc, writer)?;
    Ok(outcome(answer, picture.as_str(), TWO_ROWS, ONE_ROW))
}
