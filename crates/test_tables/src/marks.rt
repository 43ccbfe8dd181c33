//! Tests where an `IterTable` marks that it cut a cell.

use std::alloc::Global;
use std::test::Fail;
use tabled_base::TableError;
use tabled_table::IterTable;

// The first row is sniffed. The second is wider in both columns.
const CITIES: [[&str; 2]; 2] = [["Ottawa", "Ontario"], ["Vancouver", "British Columbia"]];

const MARKED: &str = "\
+--------+---------+
| Ottawa | Ontario |
+--------+---------+
| Vanco… | Britis… |
+--------+---------+";

fn marked(alloc: Global, sniffed: usize) -> Result<String, TableError> {
    let mut table = IterTable::new(CITIES);
    table.sniff(sniffed).cut_mark('…');
    table.to_string(alloc)
}

#[test]
fn cut_cells_end_in_the_mark(rt: HostRuntime) -> Result<(), Fail> {
    assert_eq!(rt; marked(rt.alloc(), 1)?.as_str(), MARKED);
    Ok(())
}

#[test]
fn a_mark_changes_nothing_where_no_cell_is_cut(rt: HostRuntime) -> Result<(), Fail> {
    let whole = IterTable::new(CITIES).to_string(rt.alloc())?;
    assert_eq!(rt; marked(rt.alloc(), 2)?, whole);
    Ok(())
}

// Prints one cell in a column of this content width.
fn cell(alloc: Global, width: usize, mark: char, text: &str) -> Result<String, TableError> {
    let mut table = IterTable::new([[text]]);
    table.width(width).cut_mark(mark);
    table.to_string(alloc)
}

// Content width, mark, text, and the table. The mark of U+0301 takes no column, and counts 1. That
// of two columns leaves one of three, none of two, and doesn't fit in one.
const CELLS: [(usize, char, &str, &str); 9] = [
    (3, '…', "abc", "+-----+\n| abc |\n+-----+"),
    (3, '…', "abcd", "+-----+\n| ab… |\n+-----+"),
    (1, '…', "abcd", "+---+\n| … |\n+---+"),
    (0, '…', "abcd", "+--+\n|  |\n+--+"),
    (3, '中', "abcd", "+-----+\n| a中 |\n+-----+"),
    (2, '中', "abcd", "+----+\n| 中 |\n+----+"),
    (1, '中', "abcd", "+---+\n| a |\n+---+"),
    (3, '\u{301}', "abcd", "+-----+\n| ab\u{301}  |\n+-----+"),
    (3, '…', "a中中", "+-----+\n| a\u{FFFD}… |\n+-----+"),
];

#[test]
fn a_mark_takes_columns_of_the_cell(rt: HostRuntime) -> Result<(), Fail> {
    for (width, mark, text, table) in CELLS {
        let found = cell(rt.alloc(), width, mark, text)?;
        assert_eq!(rt; found.as_str(), table, "{text} with {mark} in {width}");
    }
    Ok(())
}

// Two rows of two lines. A line of 4 columns ends the cut, so that the mark takes its last column.
const LINES: &str = "\
+------+------+
| ab   | abc… |
| cde… |      |
+------+------+";

#[test]
fn the_mark_ends_the_line_that_is_cut(rt: HostRuntime) -> Result<(), Fail> {
    let mut table = IterTable::new([["ab\ncdefg", "abcd\nef"]]);
    table.width(4).height(2).cut_mark('…');
    assert_eq!(rt; table.to_string(rt.alloc())?.as_str(), LINES);
    Ok(())
}

// The second line fits in its column. Only the height of the row drops it.
#[test]
fn lines_that_a_row_has_no_height_for_leave_no_mark(rt: HostRuntime) -> Result<(), Fail> {
    let found = cell(rt.alloc(), 4, '…', "abc\nef")?;
    assert_eq!(rt; found.as_str(), "+------+\n| abc  |\n+------+");
    Ok(())
}
