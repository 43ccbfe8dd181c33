//! Sets a style, right-aligned numbers, and a width.

use tabled::settings::object::Columns;
use tabled::settings::peaker::Priority;
use tabled::settings::{Alignment, Style, Width};
use tabled::{Table, TableError};

/// At most 44 columns wide: the widest column shrinks first, and lines break between words.
pub fn styled(mut table: Table) -> Result<String, TableError> {
    let narrow = Width::wrap(44).keep_words(true);
    table
        .with(Style::modern())?
        .modify(Columns::one(2), Alignment::right())?
        .with(narrow.priority(Priority::max(true)))?
        .to_text()
}
