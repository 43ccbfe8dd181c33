//! Printing records under a plan into a text.
ghost use Rattle.std.specs.Prelude.{◌≡◌, ◌⊎◌, IfErr, IfOk, None, OnOk, false, string_bytes};
ghost use Rattle.tabled_base.specs.Cells.{IsRectangular};
ghost use Rattle.tabled_base.specs.declared.error.TableError.TheVariants.{Memory, Range};
ghost use Rattle.tabled_grid.specs.Printed.{IsOutOfRange};
ghost use Rattle.tabled_size.specs.Effective.{effective};
ghost use Rattle.tabled_size.specs.Sheet.{estimated, is_empty};
ghost use Rattle.tabled_size.specs.Stored.{heights_of, widths_of};
ghost use Rattle.tabled_size.specs.TextCells.{AreTexts};
ghost use Rattle.tabled.specs.Planned.{measured};
ghost use Rattle.tabled.specs.Rendered.{IsReadyOf, IsRenderedOf};
ghost use Rattle.tabled_c.specs.Sends.{HasPrinted, IsPrintCause};

use crate::error_code::ErrorCode;
use std::alloc::Global;
use tabled::grid::config::{ColoredConfig, SpannedConfig};
use tabled::grid::dimension::CompleteDimension;
use tabled::grid::print_standing;
use tabled::grid::records::{LentRows, VecRecords};
use tabled::settings::TableOption;
use tabled::settings::width::{Truncate, Wrap};
use tabled::{OrderPriority, Plan, TableError, Text, TextSink, print_measured};

/// Wraps or truncates the cells of a table, as a plan says, and stores its new sizes.
fn narrow(
    plan: Plan,
    rows: &mut VecRecords<Text<String>>,
    settings: &mut ColoredConfig,
    sizes: &mut CompleteDimension,
) -> Result<(), TableError>
    requires texts { AreTexts rows.old }
    requires rectangular { IsRectangular rows.old }
    requires no_widths { widths_of sizes.old ≡ None }
    requires no_heights { heights_of sizes.old ≡ None }
    ensures made { OnOk result (IsReadyOf (measured plan) (estimated rows.old settings.old.config)
        (effective rows.new settings.new.config sizes.new)) }
    ensures only { IfErr result (λ e. (e ≡ Memory) ⊎ (e ≡ Range)) }
    ensures range { IfErr result (λ e. e ≡ Range → (is_empty rows.old ≡ false)
        × IsOutOfRange (estimated rows.old settings.old.config)) }
{
    match plan {
        Plan::Buffered | Plan::Streamed => Ok(()),
        Plan::Wrapped {
            target,
            words,
            order,
        } => {
            let wrap = Wrap::new(target).keep_words(words);
            let wrap = wrap.priority(OrderPriority::new(order));
            wrap.change(rows, settings, sizes)?;
            sizes.clear_height();
            Ok(())
        }
        Plan::Shortened { target, order } => {
            let truncate = Truncate::new(target).priority(OrderPriority::new(order));
            truncate.change(rows, settings, sizes)?;
            Ok(())
        }
    }
}

/// Prints the table of some records and settings under a plan. Measures all of it first.
fn print_planned<S: TextSink>(
    alloc: Global,
    mut rows: VecRecords<Text<String>>,
    mut settings: ColoredConfig,
    plan: Plan,
    sink: &mut S,
) -> Result<(), TableError>
    requires texts { AreTexts rows }
    requires rectangular { IsRectangular rows }
    ensures { IsRenderedOf (measured plan) (estimated rows settings.config)
        (S.sent sink.old) result (S.sent sink.new) }
{
    let mut sizes = CompleteDimension::new(alloc);
    narrow(plan, &mut rows, &mut settings, &mut sizes)?;
    print_standing(sink, &rows, settings.as_ref(), &sizes)
}

/// Returns the text of the table of some records and settings under a plan.
pub(crate) fn records_text(
    alloc: Global,
    rows: VecRecords<Text<String>>,
    settings: ColoredConfig,
    plan: Plan,
) -> Result<String, ErrorCode>
    requires texts { AreTexts rows }
    requires rectangular { IsRectangular rows }
    ensures ok { IfOk result (λ table. HasPrinted plan
        (estimated rows settings.config) (string_bytes table)) }
    ensures err { IfErr result (IsPrintCause plan (estimated rows settings.config)) }
{
    let mut out = String::new(alloc);
    match print_planned(alloc, rows, settings, plan, &mut out) {
        Ok(()) => Ok(out),
        Err(TableError::Range) => Err(ErrorCode::Range),
        Err(_) => Err(ErrorCode::Memory),
    }
}

/// Returns the text of the table of some rows that borrow their cells, under a plan.
pub(crate) fn rows_text(
    alloc: Global,
    rows: &LentRows<'_>,
    settings: &SpannedConfig,
    plan: Plan,
) -> Result<String, ErrorCode>
    requires texts { AreTexts rows.now }
    requires rectangular { IsRectangular rows.now }
    ensures ok { IfOk result (λ table. HasPrinted plan
        (estimated rows.now settings.now) (string_bytes table)) }
    ensures err { IfErr result (IsPrintCause plan (estimated rows.now settings.now)) }
{
    let mut out = String::new(alloc);
    match print_measured(alloc, rows, settings, plan, &mut out) {
        Ok(()) => Ok(out),
        Err(TableError::Range) => Err(ErrorCode::Range),
        Err(_) => Err(ErrorCode::Memory),
    }
}
