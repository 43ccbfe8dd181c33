//! Rows as a table, or one below the other.
ghost use Rattle.std.specs.Prelude.{◌≡◌};
ghost use Rattle.tabview_print.specs.Fallback.{PrintsOrExpands, record_options};

use crate::fitting::print_table;
use crate::layout::{Layout, Narrowing};
use std::alloc::Global;
use tabled_grid::TextSink;
use tabled_records::JoinedRecords;
use tabview_records::{PrintError, RecordOptions, print_expanded};

/// Prints rows as a table. Where that can't be fitted, or if `expand` asks for it, they are printed
/// one below the other.
///
/// Errors: as of `print_table`, or of `print_expanded`.
pub fn print_or_expand<S: TextSink>(
    alloc: Global,
    records: &JoinedRecords,
    layout: Layout,
    expand: bool,
    sink: &mut S,
) -> Result<(), PrintError>
    ensures { PrintsOrExpands expand layout records.now (S.sent sink.old) result (S.sent sink.new) }
{
    let options = record_options(&layout);
    if expand {
        return print_expanded(alloc, records, options, sink);
    }
    match print_table(alloc, records, layout, sink) {
        Ok(true) => Ok(()),
        Ok(false) => print_expanded(alloc, records, options, sink),
        Err(error) => Err(PrintError::Table(error)),
    }
}

/// Returns how a layout prints records.
fn record_options(layout: &Layout) -> RecordOptions
    ensures { result ≡ record_options layout.now }
{
    let cuts = match layout.narrowing {
        Narrowing::Wrap => false,
        Narrowing::Cut => true,
    };
    RecordOptions {
        has_header: layout.has_header,
        width: layout.width,
        cuts,
    }
}
