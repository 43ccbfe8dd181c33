//! Makes, changes and prints the tables of `test_tables`. Functions return no tables: a test crate
//! sees the full definition of each type that it names, and this one only the interface.
#![tactic(auto)]

mod applying;
mod grids;
mod half_done;
mod making;
mod modifying;
mod options;
mod printing;
mod sheet;
mod sized;

pub use applying::{Stored, broken_off, picture_of_broken, picture_of_broken_settings};
pub use grids::{answered, drawn, printed};
pub use half_done::{half_marked, half_marked_cell};
pub use making::{
    Counts, counts_of, counts_of_none, is_the_empty_table, of_no_pairs, of_no_values, pair_begins,
    there_and_back,
};
pub use modifying::{joined, joined_picture};
pub use options::{changed_by, modified_by};
pub use printing::{Look, formatted, put_with};
pub use sheet::{PAIRS, Rows, Sheet, Sizes};
pub use sized::{limited, word_wrapped, wrapped};
