//! Widths of whole tables. A wider table is wrapped or cut to n columns, unless its borders
//! and padding alone need more. A narrower one is widened.

use tabled::settings::Width;
use tabled::settings::measurement::Percent;
use tabled::settings::peaker::Priority;
use tabled::settings::width::SuffixLimit;
use tabled::{Table, TableError};

/// Wrapped to 30 columns. Each column in turn gives one, until the table fits. Words are broken.
pub fn wrapped(table: &mut Table) -> Result<(), TableError> {
    table.with(Width::wrap(30))?;
    Ok(())
}

/// The widest column gives first.
pub fn widest_wrapped(table: &mut Table) -> Result<(), TableError> {
    table.with(Width::wrap(24).priority(Priority::max(true)))?;
    Ok(())
}

/// Words that fit on a line of their own are kept whole.
pub fn words(table: &mut Table) -> Result<(), TableError> {
    let narrow = Width::wrap(24).keep_words(true);
    table.with(narrow.priority(Priority::max(true)))?;
    Ok(())
}

/// A line feed takes the place of the space at which a line is broken.
pub fn spaces_dropped(table: &mut Table) -> Result<(), TableError> {
    let narrow = Width::wrap(20).drop_spaces();
    table.with(narrow.priority(Priority::max(true)))?;
    Ok(())
}

/// Cut instead of wrapped.
pub fn truncated(table: &mut Table) -> Result<(), TableError> {
    table.with(Width::truncate(24).priority(Priority::max(true)))?;
    Ok(())
}

/// A suffix marks each cell that is cut.
pub fn suffixed(table: &mut Table) -> Result<(), TableError> {
    let narrow = Width::truncate(24).suffix("..");
    table.with(narrow.priority(Priority::max(true)))?;
    Ok(())
}

/// A suffix that would leave no column for the text is cut itself.
pub fn suffix_cut(table: &mut Table) -> Result<(), TableError> {
    let narrow = Width::truncate(12).suffix(" and so on");
    table.with(narrow.priority(Priority::max(true)))?;
    Ok(())
}

/// Such a suffix is left out.
pub fn suffix_ignored(table: &mut Table) -> Result<(), TableError> {
    let narrow = Width::truncate(12).suffix(" and so on");
    let narrow = narrow.suffix_limit(SuffixLimit::Ignore);
    table.with(narrow.priority(Priority::max(true)))?;
    Ok(())
}

/// Such a suffix is replaced by copies of a character.
pub fn suffix_replaced(table: &mut Table) -> Result<(), TableError> {
    let narrow = Width::truncate(12).suffix(" and so on");
    let narrow = narrow.suffix_limit(SuffixLimit::Replace('~'));
    table.with(narrow.priority(Priority::max(true)))?;
    Ok(())
}

/// A share of the table's own columns, in percent.
pub fn share(table: &mut Table) -> Result<(), TableError> {
    let narrow = Width::truncate(Percent(75));
    table.with(narrow.priority(Priority::max(true)))?;
    Ok(())
}

/// Each column in turn gives one. This is the default.
pub fn in_turn(table: &mut Table) -> Result<(), TableError> {
    table.with(Width::truncate(52).priority(Priority::none()))?;
    Ok(())
}

/// The narrowest column gives first, and keeps its padding.
pub fn narrowest_first(table: &mut Table) -> Result<(), TableError> {
    table.with(Width::truncate(52).priority(Priority::min(true)))?;
    Ok(())
}

/// The widest column gives first; with `true`, of equal ones the rightmost.
pub fn widest_first(table: &mut Table) -> Result<(), TableError> {
    table.with(Width::truncate(52).priority(Priority::max(true)))?;
    Ok(())
}

/// The leftmost column gives first.
pub fn leftmost_first(table: &mut Table) -> Result<(), TableError> {
    table.with(Width::truncate(52).priority(Priority::left()))?;
    Ok(())
}

/// The rightmost column gives first.
pub fn rightmost_first(table: &mut Table) -> Result<(), TableError> {
    table.with(Width::truncate(52).priority(Priority::right()))?;
    Ok(())
}

/// A narrower table grows: each column in turn gets one more.
pub fn increased(table: &mut Table) -> Result<(), TableError> {
    table.with(Width::increase(26))?;
    Ok(())
}

/// A narrower table grows in its rightmost column alone.
pub fn last_increased(table: &mut Table) -> Result<(), TableError> {
    table.with(Width::increase(26).priority(Priority::right()))?;
    Ok(())
}
