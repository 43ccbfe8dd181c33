//! Texts. The functions that measure, wrap and cut a text are public too.
ghost use Rattle.std.specs.Prelude.{◌≤◌, chars};
ghost use Rattle.tabled_text.specs.Measure.{count_of};

use std::alloc::Global;
use tabled::TableError;
use tabled::grid::util::string::{cut_str, line_width, text_width, wrap_text};
use tabled::laws::count_is_bound;

/// The columns of texts. A text of several lines is as wide as the widest.
pub fn measured(alloc: Global) -> Result<String, TableError> {
    let columns = [text_width("Paris"), text_width("北京"), text_width("a\nbc")];
    Ok(format!(in alloc; "{columns:?}")?)
}

/// A text wrapped to 12 columns, with words kept whole.
pub fn wrapped(alloc: Global) -> Result<String, TableError> {
    Ok(wrap_text(alloc, "goes to the next field", 12, true)?)
}

/// A text cut to 12 columns.
pub fn cut(alloc: Global) -> Result<String, TableError> {
    let beginning = cut_str(alloc, "goes to the next field", 12)?;
    Ok(beginning.into_owned(alloc)?)
}

/// A function with a contract that follows from a law: a line takes at most as many columns as its
/// characters count.
pub fn counted(line: &str) -> usize
    ensures { result ≤ count_of (chars line.now) }
{
    count_is_bound();
    line_width(line)
}
