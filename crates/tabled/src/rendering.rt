//! `render`: prints a text as a table, and narrows it by wrapping or truncating its cells.
ghost use Rattle.std.specs.Prelude.{◌≡◌, ◌⊎◌, ◌-◌, IfErr, IfOk, None, Some, false};
ghost use Rattle.tabled_base.specs.Cells.{IsRectangular};
ghost use Rattle.tabled_base.specs.declared.error.TableError.TheVariants.{Memory, Range, Writer};
ghost use Rattle.tabled_config.specs.Options.{with_style};
ghost use Rattle.tabled_grid.specs.Printed.{IsOutOfRange};
ghost use Rattle.tabled_records.specs.TextRows.{text_rows};
ghost use Rattle.tabled_set.specs.Common.{at};
ghost use Rattle.tabled_set.specs.Minimums.{side_padding};
ghost use Rattle.tabled_set.specs.NarrowedCells.{cells_of_or};
ghost use Rattle.tabled_size.specs.Effective.{effective};
ghost use Rattle.tabled_size.specs.Sheet.{estimated, is_empty};
ghost use Rattle.tabled_size.specs.Stored.{heights_of, widths_of};
ghost use Rattle.tabled_size.specs.TextCells.{AreTexts};
ghost use Rattle.tabled_table.specs.NewConfig.{new_config};
ghost use Rattle.tabled.specs.declared.arguments.Plan.TheVariants.{Streamed};
ghost use Rattle.tabled.specs.Planned.{measured};
ghost use Rattle.tabled.specs.Rendered.{IsReadyOf, IsRendered, IsRenderedOf};

use crate::arguments::{OrderPriority, Plan};
use std::alloc::Global;
use tabled_base::{PeekableRecords, Position, TableError, TableOption};
use tabled_config::{ColoredConfig, SpannedConfig, Style};
use tabled_grid::{TextSink, print_standing};
use tabled_records::{LentRows, text_rows};
use tabled_set::{
    CellFilter, Change, ContentSizes, NarrowedRows, SuffixLimit, Truncate, Truncating, Wrap,
    changed_records,
};
use tabled_size::{CompleteDimension, Estimate};
use tabled_table::new_config;
use tabled_text::is_letter_text;

/// Wraps or truncates the cells of a table, as a plan says, and stores its new sizes. Returns the
/// changed cells, or `None` if none changes.
fn narrow<'r, 't>(
    plan: Plan,
    rows: &'r LentRows<'t>,
    config: &SpannedConfig,
    sizes: &mut CompleteDimension,
) -> Result<Option<NarrowedRows<'r, 't>>, TableError>
    requires texts { AreTexts rows.now }
    requires rectangular { IsRectangular rows.now }
    requires no_widths { widths_of sizes.old ≡ None }
    requires no_heights { heights_of sizes.old ≡ None }
    ensures made { IfOk result (λ changed. IsReadyOf (measured plan)
        (estimated rows.now config.now)
        (effective (cells_of_or changed rows.now) config.now sizes.new)) }
    ensures only { IfErr result (λ e. (e ≡ Memory) ⊎ (e ≡ Range)) }
    ensures range { IfErr result (λ e. e ≡ Range → (is_empty rows.now ≡ false)
        × IsOutOfRange (estimated rows.now config.now)) }
{
    match plan {
        Plan::Buffered | Plan::Streamed => Ok(None),
        Plan::Wrapped {
            target,
            words,
            order,
        } => {
            let wrap = Wrap::new(target).keep_words(words);
            let wrap = wrap.priority(OrderPriority::new(order));
            let wrapped = wrap.narrowed_rows(rows, config, sizes)?;
            sizes.clear_height();
            Ok(wrapped)
        }
        Plan::Shortened { target, order } => {
            let truncate = Truncate::new(target).priority(OrderPriority::new(order));
            let truncated = truncate.narrowed(rows, config, sizes)?;
            Ok(truncated)
        }
    }
}

/// Prints the table of some rows and settings under a plan. Measures all of it first.
pub fn print_measured<S: TextSink>(
    alloc: Global,
    rows: &LentRows<'_>,
    config: &SpannedConfig,
    plan: Plan,
    sink: &mut S,
) -> Result<(), TableError>
    requires texts { AreTexts rows.now }
    requires rectangular { IsRectangular rows.now }
    ensures { IsRenderedOf (measured plan) (estimated rows.now config.now)
        (S.sent sink.old) result (S.sent sink.new) }
{
    let mut sizes = CompleteDimension::new(alloc);
    match narrow(plan, rows, config, &mut sizes)? {
        Some(NarrowedRows::Cut(cells)) => print_standing(sink, &cells, config, &sizes),
        Some(NarrowedRows::Wrapped(cells)) => print_standing(sink, &cells, config, &sizes),
        Some(NarrowedRows::Made(cells)) => print_standing(sink, &cells, config, &sizes),
        None => print_standing(sink, rows, config, &sizes),
    }
}

/// The content widths of a streamed table's cells: the widths of their columns less their padding.
#[derive(Drop)]
struct StreamedWidths<'a> {
    config: &'a SpannedConfig,
    widths: &'a [usize],
}

impl<'a> ContentSizes for StreamedWidths<'a> {
    ghost content_size_at = { λ s row column.
        Some (at s.widths.now column - side_padding s.config.now row column) };

    #[inline(always)]
    fn content_size(&self, place: Position) -> Option<usize> {
        let padding = self.config.get_padding(place);
        let width = self.widths.get(place.column).copied().unwrap_or(0);
        let inner = width.saturating_sub(padding.left.size);
        Some(inner.saturating_sub(padding.right.size))
    }
}

/// Prints the table that an `IterTable` streams that reads all rows ahead: each cell is cut to its
/// column.
fn print_streamed<R: PeekableRecords, S: TextSink>(
    alloc: Global,
    rows: &R,
    config: &SpannedConfig,
    sink: &mut S,
) -> Result<(), TableError>
    requires texts { AreTexts (R.cells rows.now) }
    requires rectangular { IsRectangular (R.cells rows.now) }
    ensures { IsRenderedOf Streamed (estimated (R.cells rows.now) config.now)
        (S.sent sink.old) result (S.sent sink.new) }
{
    let mut sizes = CompleteDimension::new(alloc);
    sizes.estimate(rows, config)?;
    let widths = sizes.get_widths().unwrap_or(&[]);
    let transform = Truncating {
        suffix: "",
        limit: SuffixLimit::Cut,
        multiline: false,
    };
    let change = Change {
        transform: &transform,
        cell_filter: CellFilter::Every,
        content_sizes: &StreamedWidths { config, widths },
    };
    let cells = changed_records(alloc, &change, rows)?;
    print_standing(sink, &cells, config, &sizes)
}

/// Prints tab-separated rows as a table, under a plan.
///
/// A row ends at a line feed and a cell at a tab. The empty text has no rows, and short rows get
/// empty cells. All lines of the table are equally wide, whatever the cells hold. The cells are
/// copied only if the plan wraps or cuts some.
///
/// Errors:
/// - `Memory`: an allocation failed. Something may be written already, if the plan streams or the
///   sink grows.
/// - `Range`: a total passes `usize::MAX`. Nothing is written.
/// - `Writer`: the sink failed to write. A beginning of the table may be written.
pub fn render<S: TextSink>(
    alloc: Global,
    text: &str,
    plan: Plan,
    sink: &mut S,
) -> Result<(), TableError>
    ensures rendered { IsRendered plan (text_rows text.now) (S.sent sink.old) result
        (S.sent sink.new) }
    ensures only { IfErr result (λ e. (e ≡ Memory) ⊎ ((e ≡ Range) ⊎ (e ≡ Writer))) }
{
    let rows = text_rows(alloc, text)?;
    let config = new_config(alloc);
    match plan {
        // Letters fit in their columns, so no cell is cut.
        Plan::Streamed if !is_letter_text(text) => print_streamed(alloc, &rows, &config, sink),
        _ => print_measured(alloc, &rows, &config, plan, sink),
    }
}

/// Prints tab-separated rows as a table in a style, under a plan.
///
/// Same input and errors as `render`. All of the table is measured before it is printed, so that
/// `Plan::Streamed` prints what `Plan::Buffered` does. All lines are equally wide if the style
/// separates the cells.
pub fn render_styled<S: TextSink>(
    alloc: Global,
    text: &str,
    style: Style,
    plan: Plan,
    sink: &mut S,
) -> Result<(), TableError>
    ensures rendered { IsRenderedOf (measured plan) (estimated (text_rows text.now)
        (with_style new_config style))
        (S.sent sink.old) result (S.sent sink.new) }
    ensures only { IfErr result (λ e. (e ≡ Memory) ⊎ ((e ≡ Range) ⊎ (e ≡ Writer))) }
{
    let mut config = ColoredConfig::new(new_config(alloc));
    TableOption::change(style, &mut (), &mut config, &mut ())?;
    let rows = text_rows(alloc, text)?;
    print_measured(alloc, &rows, config.as_ref(), plan, sink)
}
