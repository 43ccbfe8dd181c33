//! A table that is fitted to a width.
ghost use Rattle.std.specs.Prelude.{◌≡◌, ◌-◌, ◌<◌, ◌≤◌, [], IfErr, IfOk, None, OnOk, Some};
ghost use Rattle.std.specs.Prelude.{length, unwrap_or};
ghost use Rattle.tabled_base.specs.declared.error.TableError.TheVariants.{Memory};
ghost use Rattle.tabled_priority.specs.Permitted.{spare_total};
ghost use Rattle.tabled_set.specs.Minimums.{side_padding};
ghost use Rattle.tabled_set.specs.Common.{at};
ghost use Rattle.tabled_size.specs.Effective.{effective};
ghost use Rattle.tabled_size.specs.Estimates.{estimated_heights, estimated_widths};
ghost use Rattle.tabled_size.specs.Sheet.{estimated};
ghost use Rattle.tabled_size.specs.Stored.{heights_of, widths_of};
ghost use Rattle.tabled_size.specs.Totals.{total_width};
ghost use Rattle.tabview_cells.specs.Fitted.{GivesToFloors};
ghost use Rattle.tabview_print.specs.Fitted.{IsCutTo, IsFitted, IsTooNarrow, ShowsWithin};
ghost use Rattle.tabview_print.specs.Floors.{floors_of};
ghost use Rattle.tabview_print.specs.PrintedTables.{CannotShow, PrintsShown, Shows, StopsBeforePrinting};
ghost use Rattle.tabview_print.specs.PrintedTables.{whole_table};

use crate::floors::{Floors, fitting_floors};
use crate::layout::{Fit, Layout, Narrowing, settings};
use std::alloc::{AllocError, Global};
use tabled_base::{Position, TableError};
use tabled_config::SpannedConfig;
use tabled_grid::{TextSink, print_estimated, print_standing};
use tabled_records::JoinedRecords;
use tabled_set::{
    CellFilter, Change, ContentSizes, SuffixLimit, Truncating, Wrap, changed_records,
};
use tabled_size::{CompleteDimension, Estimate, Peaker, Steps, total_width};
use tabview_cells::AboveFloors;

/// The mark of a text that is cut.
const MARK: &str = "…";

/// Prints rows as a table, and returns whether it could. A table that is wider than the layout's
/// width is fitted to it, exactly: columns that don't keep their width give, the widest first, and
/// each keeps its longest word up to 10 columns, in its name too. If even that is too wide, nothing
/// is printed.
///
/// Errors: `Memory` or `Range` before anything is sent; `Range` if a total passes `usize::MAX`. Or
/// those of printing, as of `print_standing`.
pub fn print_table<S: TextSink>(
    alloc: Global,
    records: &JoinedRecords,
    layout: Layout,
    sink: &mut S,
) -> Result<bool, TableError>
    ensures { let t = whole_table layout records.now in PrintsShown (Shows layout t)
        (CannotShow layout t) t (S.sent sink.old) result (S.sent sink.new) }
{
    let Layout {
        style,
        width,
        narrowing,
        columns,
        has_header,
    } = layout;
    let config = settings(alloc, style, columns.as_slice())?;
    let Some(width) = width else {
        return print_whole(alloc, records, config.as_ref(), sink);
    };
    let fit = Fit {
        columns: columns.as_slice(),
        has_header,
        narrowing,
        width,
    };
    print_within(alloc, records, config.as_ref(), &fit, sink)
}

/// Prints a whole table, however wide it is.
fn print_whole<S: TextSink>(
    alloc: Global,
    records: &JoinedRecords,
    config: &SpannedConfig,
    sink: &mut S,
) -> Result<bool, TableError>
    ensures { let t = estimated records.now config.now in PrintsShown (λ shown. shown ≡ t) ⊥ t
        (S.sent sink.old) result (S.sent sink.new) }
{
    print_estimated(alloc, sink, records, config)?;
    Ok(true)
}

/// Prints a table within a width, if it can be fitted.
fn print_within<S: TextSink>(
    alloc: Global,
    records: &JoinedRecords,
    config: &SpannedConfig,
    fit: &Fit<'_>,
    sink: &mut S,
) -> Result<bool, TableError>
    ensures { let t = estimated records.now config.now in PrintsShown
        (ShowsWithin fit.now.columns.now fit.now.has_header fit.now.narrowing fit.now.width t)
        (IsTooNarrow fit.now.columns.now fit.now.has_header fit.now.width t) t
        (S.sent sink.old) result (S.sent sink.new) }
{
    let mut sizes = CompleteDimension::new(alloc);
    let total = measured(records, config, &mut sizes)?;
    if total <= fit.width {
        return print_whole(alloc, records, config, sink);
    }
    let found = fitting_floors(records, config, fit, &sizes, total - fit.width)?;
    let Some(floors) = found else {
        return Ok(false);
    };
    let cells = narrowed(records, config, fit, &floors, &mut sizes)?;
    print_standing(sink, cells.as_ref().unwrap_or(records), config, &sizes)?;
    Ok(true)
}

/// Estimates the sizes of a table, stores them, and returns the total width.
fn measured(
    records: &JoinedRecords,
    config: &SpannedConfig,
    sizes: &mut CompleteDimension,
) -> Result<usize, TableError>
    requires no_widths { widths_of sizes.old ≡ None }
    requires no_heights { heights_of sizes.old ≡ None }
    ensures total { IfOk result (λ total. total ≡ total_width (estimated records.now config.now)) }
    ensures widths { OnOk result (widths_of sizes.new
        ≡ Some (estimated_widths records.now config.now)) }
    ensures heights { OnOk result (heights_of sizes.new
        ≡ Some (estimated_heights records.now config.now)) }
    ensures only { IfErr result (StopsBeforePrinting (estimated records.now config.now)) }
{
    sizes.estimate(records, config)?;
    total_width(records, config, sizes)
}

/// Narrows the cells of a table, and stores the widths of its columns. Returns the cells, or `None`
/// if none changes.
fn narrowed(
    records: &JoinedRecords,
    config: &SpannedConfig,
    fit: &Fit<'_>,
    floors: &Floors,
    sizes: &mut CompleteDimension,
) -> Result<Option<JoinedRecords>, TableError>
    requires widths { widths_of sizes.old ≡ Some (estimated_widths records.now config.now) }
    requires heights { heights_of sizes.old ≡ Some (estimated_heights records.now config.now) }
    requires wider { fit.now.width < total_width (estimated records.now config.now) }
    requires floors { floors.now.widths.items ≡ floors_of fit.now.columns.now fit.now.has_header
        (estimated records.now config.now) }
    requires excess { floors.now.excess
        ≡ total_width (estimated records.now config.now) - fit.now.width }
    requires enough { floors.now.excess ≤ spare_total (estimated_widths records.now config.now)
        floors.now.widths.items }
    ensures ok { IfOk result (λ cells. IsFitted fit.now.columns.now fit.now.has_header
        fit.now.narrowing fit.now.width (estimated records.now config.now)
        (effective (unwrap_or cells records.now) config.now sizes.new)) }
    ensures only { IfErr result (StopsBeforePrinting (estimated records.now config.now)) }
{
    match fit.narrowing {
        Narrowing::Wrap => {
            let priority = AboveFloors {
                floors: floors.widths.as_slice(),
            };
            let option = Wrap::new(fit.width).drop_spaces().priority(priority);
            option.narrowed(records, config, sizes)
        }
        Narrowing::Cut => cut(records, config, floors, sizes),
    }
}

/// The content widths of cells: the widths of their columns less their padding.
#[derive(Drop)]
struct ContentWidths<'a> {
    config: &'a SpannedConfig,
    widths: &'a [usize],
}

impl<'a> ContentSizes for ContentWidths<'a> {
    ghost content_size_at = { λ s row column.
        Some (at s.widths.now column - side_padding s.config.now row column) };

    #[inline(always)]
    fn content_size(&self, position: Position) -> Option<usize> {
        let padding = self.config.get_padding(position);
        let width = self.widths.get(position.column).copied().unwrap_or(0);
        let inner = width.saturating_sub(padding.left.size);
        Some(inner.saturating_sub(padding.right.size))
    }
}

/// Cuts the cells of a table to the widths of its shrunk columns, and stores these. Returns the
/// cells.
fn cut(
    records: &JoinedRecords,
    config: &SpannedConfig,
    floors: &Floors,
    sizes: &mut CompleteDimension,
) -> Result<Option<JoinedRecords>, TableError>
    requires { widths_of sizes.old ≡ Some (estimated_widths records.now config.now) }
    ensures ok { IfOk result (λ cells. IsCutTo floors.now.widths.items floors.now.excess
        records.now config.now (unwrap_or cells records.now) sizes.new) }
    ensures only { IfErr result (λ e. e ≡ Memory) }
{
    let alloc = sizes.allocator();
    let widths = shrunk(alloc, sizes.get_widths().unwrap_or(&[]), floors)?;
    let transform = Truncating {
        suffix: MARK,
        limit: SuffixLimit::Cut,
        multiline: false,
    };
    let change = Change {
        transform: &transform,
        cell_filter: CellFilter::Wider,
        content_sizes: &ContentWidths {
            config,
            widths: widths.as_slice(),
        },
    };
    let cells = changed_records(alloc, &change, records)?;
    sizes.set_widths(widths);
    sizes.clear_height();
    Ok(Some(cells))
}

/// Returns the widths of columns that give their excess, none below its floor.
fn shrunk(alloc: Global, widths: &[usize], floors: &Floors) -> Result<Vec<usize>, AllocError>
    ensures { IfOk result (λ new. (length new.items ≡ length widths.now)
        × GivesToFloors floors.now.widths.items widths.now [] floors.now.excess new.items) }
{
    let mut list = Vec::from_slice(alloc, widths)?;
    let mut priority = AboveFloors {
        floors: floors.widths.as_slice(),
    };
    let _taken = priority.shrink(&[], &mut list, floors.excess, &mut Steps::new());
    Ok(list)
}
