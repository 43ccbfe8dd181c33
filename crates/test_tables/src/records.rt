//! Tests `ExtendedTable`: escaping, copies, and headers that a function returns.

use crate::named::Quoted;
use crate::showing::assert_text;
use std::alloc::{AllocError, Global};
use std::test::Fail;
use tabled_base::TableError;
use tabled_extended::{ExtendedTable, FnTemplate, LabelFn};

fn escaped(alloc: Global, text: &'static str) -> Result<String, TableError> {
    ExtendedTable::new(alloc, [Quoted(text)])?.to_string()
}

const ESCAPED: [(&str, &str); 3] = [
    ("x\ny", "-[ RECORD 0 ]-\na\\\"b | x\\ny"),
    (
        "'\\\t\r\0\u{1}\u{1f}",
        "-[ RECORD 0 ]---------------\na\\\"b | \\'\\\\\\t\\r\\0\\u{1}\\u{1f}",
    ),
    (
        "\u{7f}\u{9f}\u{a0}",
        "-[ RECORD 0 ]-------\na\\\"b | \\u{7f}\\u{9f}\u{a0}",
    ),
];

#[test]
fn new_escapes_names_and_texts(rt: HostRuntime) -> Result<(), Fail> {
    for (text, wanted) in ESCAPED {
        assert_text(&rt, escaped(rt.alloc(), text), wanted)?;
    }
    Ok(())
}

fn both(alloc: Global, first: &'static str) -> Result<ExtendedTable, TableError> {
    ExtendedTable::from_rows(alloc, [["k"], [first], ["w"]])
}

// Returns also the text that was printed before an error.
fn print_under<G: LabelFn + Drop>(
    alloc: Global,
    table: ExtendedTable,
    g: G,
) -> (Result<(), TableError>, String)
    requires { G.callable g }
{
    let mut text = String::new(alloc);
    let outcome = table.template(FnTemplate::new(g)).write_to(&mut text);
    (outcome, text)
}

// The line is as wide as `中`, which is two columns wide.
#[test]
fn an_empty_header_is_a_line(rt: HostRuntime) -> Result<(), Fail> {
    let alloc = rt.alloc();
    let table = both(alloc, "中")?;
    let (outcome, text) = print_under(alloc, table, |_index: usize| Ok(String::new(alloc)));
    assert_eq!(rt;
        (outcome, text.as_str()),
        (Ok(()), "--+---\nk | 中\n--+---\nk | w")
    );
    Ok(())
}

#[test]
fn a_failed_header_leaves_the_records_before_its_own(rt: HostRuntime) -> Result<(), Fail> {
    let alloc = rt.alloc();
    for (first, wanted) in [
        (0, ""),
        (1, "-r0--\nk | v"),
        (2, "-r0--\nk | v\n-r1--\nk | w"),
    ] {
        let table = both(alloc, "v")?;
        let (outcome, text) = print_under(alloc, table, |index: usize| {
            if index < first {
                format!(in alloc; "r{index}")
            } else {
                Err(AllocError)
            }
        });
        assert_eq!(rt; (outcome.is_ok(), text.as_str()), (first == 2, wanted));
    }
    Ok(())
}

fn display_copy(alloc: Global, table: &ExtendedTable) -> Result<String, TableError> {
    let copy = table.clone()?;
    Ok(format!(in alloc; "{copy}")?)
}

#[test]
fn a_copy_displays_the_same_picture(rt: HostRuntime) -> Result<(), Fail> {
    let table = both(rt.alloc(), "v")?;
    let wanted = "-[ RECORD 0 ]-\nk | v\n-[ RECORD 1 ]-\nk | w";
    assert_text(&rt, display_copy(rt.alloc(), &table), wanted)
}
