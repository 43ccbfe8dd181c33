//! Records for the tests, and a compact text form of their cells.
ghost use Rattle.std.specs.Prelude.{◌<◌, length};

use std::alloc::Global;
use tabled_base::{Builder, PeekableRecords, Position, TableError, Text, VecRecords};

pub(crate) type Rows = &'static [&'static [&'static str]];

pub(crate) const ROWS: Rows = &[&["abc", "de"], &["fgh", "ijk"]];

pub(crate) fn records_of(
    alloc: Global,
    rows: Rows,
) -> Result<VecRecords<Text<String>>, TableError> {
    let mut builder = Builder::new(alloc);
    for row in rows {
        builder.add_record(row.iter().copied())?;
    }
    Ok(builder.build())
}

/// The shape, and then each row with its cells in brackets.
pub(crate) fn shown<R: PeekableRecords>(alloc: Global, records: &R) -> Result<String, TableError> {
    let mut all = format!(in alloc; "{}x{}", records.count_rows(), records.count_columns())?;
    for row in 0..records.count_rows() {
        show_row(&mut all, records, row)?;
    }
    Ok(all)
}

fn show_row<R: PeekableRecords>(all: &mut String, records: &R, row: usize) -> Result<(), TableError>
    requires { row < length (R.cells records.now) }
{
    all.push_str(" ")?;
    for column in 0..records.count_columns() {
        write!(all, "[{}]", records.get_text(Position { row, column }))?;
    }
    Ok(())
}
