//! Options of tables and cells, run one at a time. If one fails at a cell, only the cells before it
//! are changed, the configuration is unchanged, and no size is stored.

use std::alloc::Global;
use tabled::grid::config::Position;
use tabled::grid::records::{ExactRecords, PeekableRecords, Text, VecRecords};
use tabled::{Table, TableError};
use test_case_judge::{Fault, set};
use test_refused_uses::{Found, refused_if, sized_table_of_pairs, whole_if};

/// A command, and the cells of the pairs after it, separated by slashes.
pub type Change = (&'static str, &'static str);

const PAIRED: &str = "a/bb/ccc/";

const WRAPPED: &str = "a/b\nb/c\nc\nc/";

/// Options that change cells column by column.
pub const BY_COLUMNS: &[Change] = &[
    ("wrap table 9", WRAPPED),
    ("wrap table 9 keep_words", WRAPPED),
    ("wrap table 9 priority=max_right", WRAPPED),
    ("wrap table 9 priority=min_left", "a//cc\nc/"),
    ("wrap table 100", PAIRED),
    ("wrap_to 75%", WRAPPED),
    ("truncate table 9 priority=right", "a//cc/"),
    ("truncate table 9 priority=right suffix=.", "a//c./"),
    (
        "truncate table 9 priority=right suffix=. multiline",
        "a//c./",
    ),
    ("truncate table 9 priority=left suffix=.. limit=#", "/bb//"),
];

/// Options that change cells row by row.
pub const BY_ROWS: &[Change] = &[
    ("increase table 20", PAIRED),
    ("heighten table 9", PAIRED),
    ("limit table 3", "///"),
    ("limit table 4", "//ccc/"),
    ("justify_to 2", "a /bb/cc/  "),
    ("justify_to max", "a  /bb /ccc/   "),
    ("wrap all 1", WRAPPED),
    ("wrap row 1 1", "a/bb/c\nc\nc/"),
    ("wrap column 0 1", "a/bb/c\nc\nc/"),
    ("wrap cell 0 1 1 keep_words", "a/b\nb/ccc/"),
    ("truncate all 2 suffix=.", "a/bb/c./"),
    ("truncate all 1 suffix=.. limit=#", "a/#/#/"),
    ("truncate all 2 suffix=. multiline", "a/bb/c./"),
    ("increase all 3 fill=.", "a../bb./ccc/..."),
    ("heighten all 2", "a\n/bb\n/ccc\n/\n"),
    ("limit all 0", "///"),
    ("padding all 2 2 1 1", PAIRED),
    ("padding row 1 2 2 1 1", PAIRED),
    ("padding cell 1 1 2 2 1 1", PAIRED),
    ("padding table 2 2 1 1", PAIRED),
    ("margin 2 2 1 1", PAIRED),
    ("style psql", PAIRED),
];

// The position of the nth cell of two rows and two columns, column by column or row by row.
fn place_at(step: usize, by_columns: bool) -> Position {
    let (first, second) = (step / 2, step % 2);
    if by_columns {
        Position::new(second, first)
    } else {
        Position::new(first, second)
    }
}

fn has_text(records: &VecRecords<Text<String>>, place: Position, cells: &str) -> bool {
    let (row, column) = (place.row, place.column);
    if row > 1 || column > 1 || row >= records.count_rows() || column >= records.count_columns() {
        return false;
    }
    cells.split('/').nth(row * 2 + column) == Some(records.get_text(place))
}

// Whether the first `count` cells are changed, and the others are not.
fn are_changed(
    records: &VecRecords<Text<String>>,
    changed: &str,
    by_columns: bool,
    count: usize,
) -> bool {
    for step in 0..4 {
        let place = place_at(step, by_columns);
        let cells = if step < count { changed } else { PAIRED };
        if !has_text(records, place, cells) {
            return false;
        }
    }
    true
}

fn some_are_changed(records: &VecRecords<Text<String>>, changed: &str, by_columns: bool) -> bool {
    for count in 0..5 {
        if are_changed(records, changed, by_columns, count) {
            return true;
        }
    }
    false
}

// Returns a new table with the same cells, at most two rows and two columns.
fn fresh(alloc: Global, records: &VecRecords<Text<String>>) -> Result<Table, TableError> {
    let mut rows = Vec::new(alloc);
    for row in 0..records.count_rows().min(2) {
        let mut texts = Vec::new(alloc);
        for column in 0..records.count_columns().min(2) {
            let text = text_at(records, row, column);
            texts.push(String::from_str(alloc, text)?)?;
        }
        rows.push(texts)?;
    }
    Table::from_iter(alloc, rows)
}

fn text_at(records: &VecRecords<Text<String>>, row: usize, column: usize) -> &str {
    if row < records.count_rows() && column < records.count_columns() {
        records.get_text(Position::new(row, column))
    } else {
        ""
    }
}

// Whether a failed option left what it must: a table that prints like a new one with its cells.
fn is_left(
    alloc: Global,
    table: &Table,
    changed: &str,
    by_columns: bool,
) -> Result<bool, TableError> {
    let fresh = fresh(alloc, table.get_records())?;
    let same = *table.get_config() == *fresh.get_config();
    let picture = table.to_string()?;
    Ok(
        some_are_changed(table.get_records(), changed, by_columns)
            && table.get_dimension().is_empty()
            && same
            && picture.as_str() == fresh.to_string()?.as_str(),
    )
}

/// Applies an option to a table with stored sizes, and returns the outcome.
pub fn changed(alloc: Global, change: Change, by_columns: bool) -> Result<Found, TableError> {
    let (command, cells) = change;
    let mut table = sized_table_of_pairs(alloc)?;
    match set(alloc, &mut table, command) {
        Ok(()) => Ok(whole_if(are_changed(table.get_records(), &cells, by_columns, 4))),
        Err(Fault::Refused(TableError::Memory)) => {
            Ok(refused_if(is_left(alloc, &table, cells, by_columns)?))
        }
        Err(_) => Ok(Found::Wrong("another refusal")),
    }
}
