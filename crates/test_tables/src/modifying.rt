//! Options for some cells of a table.

use crate::made::CELLS;
use crate::showing::{assert_text, picture};
use std::test::Fail;
use tabled_base::TableError;
use test_table_uses::{PAIRS, Sheet, joined, joined_picture};

const LETTERS: Sheet = Sheet {
    rows: &[&["a", "b", "c"]],
    ..PAIRS
};

const IN_ORDER: &str = picture! {
    "+----+------+--------+"
    "| a. | a.b. | a.b.c. |"
    "+----+------+--------+"
};

#[test]
fn cells_are_modified_in_order(rt: HostRuntime) -> Result<(), Fail> {
    assert_text(&rt, joined_picture(rt.alloc(), &LETTERS), IN_ORDER)
}

const REFUSING: Sheet = Sheet {
    rows: &[&["a", "!"], &["bbbb", "cc"]],
    ..CELLS
};

const REFUSED: &str = picture! {
    "+------+----+"
    "| a.   | !  |"
    "+------+----+"
    "| bbbb | cc |"
    "+------+----+"
};

#[test]
fn a_refused_modification_puts_the_settings_back(rt: HostRuntime) -> Result<(), Fail> {
    let refused = (Err(TableError::Range), (false, false), false);
    assert_eq!(rt; joined(rt.alloc(), &REFUSING)?, refused);
    Ok(())
}

#[test]
fn a_refused_modification_leaves_the_cells_before(rt: HostRuntime) -> Result<(), Fail> {
    assert_text(&rt, joined_picture(rt.alloc(), &REFUSING), REFUSED)
}
