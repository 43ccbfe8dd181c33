//! Options that fail, and what they leave.

use crate::made::CELLS;
use crate::showing::{assert_text, picture};
use std::test::Fail;
use tabled_base::TableError;
use test_table_uses::{
    Sheet, broken_off, half_marked, half_marked_cell, picture_of_broken, picture_of_broken_settings,
};

const EMPTIED: &str = picture! {
    "┌─────┬───┐"
    "│ a   │   │"
    "├─────┼───┤"
    "│ ccc │ d │"
    "└─────┴───┘"
};

#[test]
fn a_refused_option_leaves_no_sizes(rt: HostRuntime) -> Result<(), Fail> {
    let refused = (Err(TableError::Memory), (false, false));
    assert_eq!(rt; broken_off(rt.alloc(), &CELLS)?, refused);
    Ok(())
}

#[test]
fn a_refused_option_leaves_its_changes(rt: HostRuntime) -> Result<(), Fail> {
    assert_text(&rt, picture_of_broken(rt.alloc(), &CELLS), EMPTIED)
}

const EMPTIED_ALONE: &str = picture! {
    "+-----+---+"
    "| a   |   |"
    "+-----+---+"
    "| ccc | d |"
    "+-----+---+"
};

#[test]
fn failed_settings_leave_the_configuration(rt: HostRuntime) -> Result<(), Fail> {
    assert_text(
        &rt,
        picture_of_broken_settings(rt.alloc(), &CELLS),
        EMPTIED_ALONE,
    )
}

const LETTERS: Sheet = Sheet {
    rows: &[&["a", "b", "c"]],
    margin: 0,
    widths: None,
    heights: None,
};

const FIRST_MARKED: &str = picture! {
    "+-----+---+---+"
    "| a12 | b | c |"
    "+-----+---+---+"
};

const UNMARKED: &str = picture! {
    "+---+---+---+"
    "| a | b | c |"
    "+---+---+---+"
};

#[test]
fn failed_settings_change_the_cells_before_by_both(rt: HostRuntime) -> Result<(), Fail> {
    let (answer, text) = half_marked(rt.alloc(), &LETTERS)?;
    assert_eq!(rt; answer, Err(TableError::Range));
    assert_text(&rt, Ok(text), FIRST_MARKED)
}

#[test]
fn failed_settings_leave_their_cell(rt: HostRuntime) -> Result<(), Fail> {
    let (answer, text) = half_marked_cell(rt.alloc(), &LETTERS)?;
    assert_eq!(rt; answer, Err(TableError::Range));
    assert_text(&rt, Ok(text), UNMARKED)
}
