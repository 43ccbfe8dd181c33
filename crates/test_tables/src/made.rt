//! Sheets that several tests share.

use test_table_uses::{PAIRS, Sheet};

/// Four cells, with stored sizes greater than the estimated ones.
pub const CELLS: Sheet = Sheet {
    rows: &[&["a", "bb"], &["ccc", "d"]],
    widths: Some(&[9, 9]),
    heights: Some(&[2, 2]),
    ..PAIRS
};
