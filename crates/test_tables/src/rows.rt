//! Tests the messages of errors, and the types of rows and records that can be iterated.

use crate::showing::assert_text;
use crate::shown::{records_of, shown};
use std::alloc::Global;
use std::test::Fail;
use tabled_base::{Builder, CellText, IntoRecords, Records, RowSlices, TableError, Text};
use tabled_records::{CutCell, EmptyRecords};

const MESSAGES: [(TableError, &str); 6] = [
    (TableError::Memory, "memory"),
    (TableError::ShortWidths, "short widths"),
    (TableError::ShortHeights, "short heights"),
    (TableError::Narrow { row: 1, column: 2 }, "narrow"),
    (TableError::Range, "range"),
    (TableError::Writer, "writer"),
];

#[test]
fn each_error_has_its_message(rt: HostRuntime) -> Result<(), Fail> {
    for (error, message) in MESSAGES {
        let found = format!(in rt.alloc(); "{error}")?;
        assert!(rt; found.as_str() == message, "at {message}");
    }
    Ok(())
}

// Reads the rows as a builder does, through `IntoRecords` alone.
fn collect_rows<I: IntoRecords>(alloc: Global, rows: I) -> Result<String, TableError>
where
    I::Cell: CellText + Drop,
    requires { I.ends rows }
{
    let records = Builder::from_iter(alloc, rows)?.build();
    shown(alloc, &records)
}

const WANT: &str = "2x2 [a][bb] [ccc][]";

#[test]
fn slices_of_rows_are_iterated(rt: HostRuntime) -> Result<(), Fail> {
    let rows = [["a", "bb"], ["ccc", ""]];
    assert_text(&rt, collect_rows(rt.alloc(), &rows[..]), WANT)
}

#[test]
fn iterators_of_rows_are_iterated(rt: HostRuntime) -> Result<(), Fail> {
    let rows = "a,bb;ccc".split(';').map(|row: &str| row.split(','));
    assert_text(&rt, collect_rows(rt.alloc(), rows), WANT)
}

#[test]
fn borrowed_records_give_their_rows(rt: HostRuntime) -> Result<(), Fail> {
    let records = records_of(rt.alloc(), &[&["a", "bb"], &["ccc", ""]])?;
    let rows: RowSlices<'_, Text<String>> = Records::iter_rows(&records);
    assert_text(&rt, collect_rows(rt.alloc(), rows), WANT)
}

#[test]
fn empty_records_have_empty_cells(rt: HostRuntime) -> Result<(), Fail> {
    let text = shown(rt.alloc(), &EmptyRecords::new(2, 3));
    assert_text(&rt, text, "2x3 [][][] [][][]")?;
    let text = shown(rt.alloc(), &EmptyRecords::new(0, 2));
    assert_text(&rt, text, "0x0")
}

#[test]
fn a_cell_is_cut_to_its_column(rt: HostRuntime) -> Result<(), Fail> {
    let cell = CutCell {
        cell: "中文字",
        width: Some(3),
    };
    assert!(rt; cell.text(rt.alloc())?.as_str() == "中\u{FFFD}");
    Ok(())
}
