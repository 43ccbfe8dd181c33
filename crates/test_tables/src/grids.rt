//! Grids with stored and with estimated sizes, and errors before the first byte.

use crate::showing::assert_text;
use std::alloc::Global;
use std::test::Fail;
use tabled_base::TableError;
use test_table_uses::{PAIRS, Sheet, Sizes, answered, drawn, printed};

const NARROW: TableError = TableError::Narrow { row: 0, column: 0 };

// Widths and heights, and the error of the pairs with a margin of `usize::MAX`.
const REFUSED: [(Sizes, Sizes, TableError); 4] = [
    (Some(&[5]), Some(&[1]), TableError::ShortWidths),
    (Some(&[2, 2]), Some(&[1]), TableError::ShortHeights),
    (Some(&[2, 2]), Some(&[1, 1]), NARROW),
    (Some(&[5, 4]), Some(&[1, 1]), TableError::Range),
];

#[test]
fn a_grid_is_refused_before_the_first_byte(rt: HostRuntime) {
    for (widths, heights, refusal) in REFUSED {
        let sheet = Sheet {
            rows: PAIRS.rows,
            margin: usize::MAX,
            widths,
            heights,
        };
        assert_eq!(rt; answered(rt.alloc(), &sheet), (Err(refusal), 0));
    }
}

const EMPTY: Sheet = Sheet {
    rows: &[],
    margin: usize::MAX,
    ..PAIRS
};

#[test]
fn an_empty_grid_is_never_refused(rt: HostRuntime) {
    assert_eq!(rt; answered(rt.alloc(), &EMPTY), (Ok(()), 0));
}

// More columns than `MANY_CURSORS`, so that the cursors don't fit on the stack.
const COLUMNS: usize = 1_030;

const CROWD: Sheet = Sheet {
    rows: &[&["a\nbc\nd"; COLUMNS]],
    ..PAIRS
};

const SIZED_CROWD: Sheet = Sheet {
    widths: Some(&[4; COLUMNS]),
    heights: Some(&[3]),
    ..CROWD
};

// The lines of the crowded row: a piece for each cell, and an end.
const PIECES: [(&str, &str); 5] = [
    ("+----", "+\n"),
    ("| a  ", "|\n"),
    ("| bc ", "|\n"),
    ("| d  ", "|\n"),
    ("+----", "+"),
];

// Appends a line of `COLUMNS` pieces and an end.
fn push_line(text: &mut String, piece: &str, end: &str) -> Result<(), TableError> {
    for _column in 0..COLUMNS {
        text.push_str(piece)?;
    }
    text.push_str(end)?;
    Ok(())
}

fn crowd(alloc: Global) -> Result<String, TableError> {
    let mut text = String::new(alloc);
    for (piece, end) in PIECES {
        push_line(&mut text, piece, end)?;
    }
    Ok(text)
}

#[test]
fn many_cells_of_several_lines_stand_side_by_side(rt: HostRuntime) -> Result<(), Fail> {
    let want = crowd(rt.alloc())?;
    assert_text(&rt, drawn(rt.alloc(), &CROWD), want.as_str())
}

#[test]
fn many_cells_of_given_sizes_stand_side_by_side(rt: HostRuntime) -> Result<(), Fail> {
    let want = crowd(rt.alloc())?;
    assert_text(&rt, printed(rt.alloc(), &SIZED_CROWD), want.as_str())
}
