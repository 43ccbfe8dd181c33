//! A whole function, into which the snippets of the guide can be pasted.

use std::alloc::Global;
use tabled::settings::Style;
use tabled::{Table, TableError};

/// A table of cities in a style.
pub fn cities(alloc: Global) -> Result<String, TableError> {
    let rows = [("City", "People"), ("Paris", "2103778"), ("Oslo", "717710")];
    let mut table = Table::nohead(alloc, rows)?;
    table.with(Style::rounded())?;
    table.to_text()
}
