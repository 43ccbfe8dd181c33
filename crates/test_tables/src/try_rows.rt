//! Tests rows that may fail: in the middle, at once, and never.

use std::alloc::Global;
use std::test::Fail;
use std::vec::IntoIter;
use tabled::settings::Style;
use tabled_base::TableError;
use tabled_records::TryRows;
use tabled_table::IterTable;

pub(crate) type Row = Result<[&'static str; 2], u8>;

fn copied(alloc: Global, rows: &[Row]) -> Result<IntoIter<Row>, TableError> {
    let mut copied = Vec::new(alloc);
    for row in rows {
        copied.push(*row)?;
    }
    Ok(copied.into_iter())
}

pub(crate) fn rows(alloc: Global, rows: &[Row]) -> Result<TryRows<IntoIter<Row>, u8>, TableError> {
    Ok(TryRows::new(copied(alloc, rows)?))
}

const MIDDLE: [Row; 4] = [Ok(["a", "b"]), Ok(["cc", "d"]), Err(7), Ok(["e", "f"])];

const AT_ONCE: [Row; 3] = [Err(8), Ok(["a", "b"]), Err(9)];

const NEVER: [Row; 2] = [Ok(["a", "b"]), Ok(["cc", "d"])];

const TWO: &str = "+----+---+\n| a  | b |\n+----+---+\n| cc | d |\n+----+---+";

// Rows, the text of their table, and the error that is returned after it.
const READ: [(&[Row], &str, Result<(), u8>); 3] = [
    (&MIDDLE, TWO, Err(7)),
    (&AT_ONCE, "", Err(8)),
    (&NEVER, TWO, Ok(())),
];

#[test]
fn the_rows_before_the_first_error_are_printed(rt: HostRuntime) -> Result<(), Fail> {
    for (source, text, read) in READ {
        let mut out = String::new(rt.alloc());
        let found = IterTable::new(rows(rt.alloc(), source)?).try_fmt(rt.alloc(), &mut out);
        assert_eq!(rt; found, (Ok(()), read));
        assert_eq!(rt; out.as_str(), text);
        let mut out = Vec::new(rt.alloc());
        let found = IterTable::new(rows(rt.alloc(), source)?).try_build(rt.alloc(), &mut out);
        assert_eq!(rt; found, (Ok(()), read));
        assert_eq!(rt; out.as_slice(), text.as_bytes());
    }
    Ok(())
}

/// Prints rows in the widths of the first ones.
fn put_rows(
    alloc: Global,
    rows: IntoIter<Row>,
    ahead: usize,
    out: &mut Vec<u8>,
) -> Result<Result<(), u8>, TableError> {
    let mut table = IterTable::new(TryRows::new(rows));
    table.sniff(ahead);
    table.apply(Style::modern())?;
    let (printed, read) = table.try_build(alloc, out);
    printed?;
    Ok(read)
}

const CUT: &str = "┌───┬───┐\n│ a │ b │\n├───┼───┤\n│ c │ d │\n└───┴───┘";

// The same, as wide as the first row.
const STYLED: [(&[Row], &str, Result<(), u8>); 3] = [
    (&MIDDLE, CUT, Err(7)),
    (&AT_ONCE, "", Err(8)),
    (&NEVER, CUT, Ok(())),
];

#[test]
fn rows_that_fail_in_a_style(rt: HostRuntime) -> Result<(), Fail> {
    for (source, text, wanted) in STYLED {
        let mut out = Vec::new(rt.alloc());
        let read = put_rows(rt.alloc(), copied(rt.alloc(), source)?, 1, &mut out)?;
        assert_eq!(rt; read, wanted);
        assert_eq!(rt; out.as_slice(), text.as_bytes());
    }
    Ok(())
}
