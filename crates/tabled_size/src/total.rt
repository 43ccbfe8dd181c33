//! The total width and height of a table: of given sizes, of its effective sizes (stored ones, else
//! estimates), and of estimates alone.
ghost use Rattle.std.specs.Prelude.{◌≡◌, ◌⊎◌, ◌<◌, ◌≤◌, IfErr, IfSome, None, Ok, OnOk, false, length};
ghost use Rattle.std.specs.Prelude.{true, ℕ};
ghost use Rattle.tabled_base.specs.Cells.{IsRectangular, columns};
ghost use Rattle.tabled_base.specs.declared.error.TableError.TheVariants.{Memory, Range};
ghost use Rattle.tabled_base.specs.declared.error.TableError.TheVariants.{ShortHeights};
ghost use Rattle.tabled_base.specs.declared.error.TableError.TheVariants.{ShortWidths};
ghost use Rattle.tabled_size.specs.Effective.{effective};
ghost use Rattle.tabled_size.specs.EffectiveTotals.{ReturnsHeight, ReturnsWidth};
ghost use Rattle.tabled_size.specs.Reached.{reached};
ghost use Rattle.tabled_size.specs.Sheet.{is_empty, estimated};
ghost use Rattle.tabled_size.specs.Stored.{heights_of, widths_of};
ghost use Rattle.tabled_size.specs.Totals.{IsTotal, filled_height, filled_width, framed_height};
ghost use Rattle.tabled_size.specs.Totals.{framed_width, rules_at, total_height, total_width};

use crate::complete_dimension::CompleteDimension;
use crate::dimension::Dimension;
use crate::estimate::{column_width, estimate_heights, estimate_widths, row_height};
use tabled_base::{ContentRecords, ExactRecords, TableError};
use tabled_config::SpannedConfig;

/// Whether there are no rows or no columns.
pub fn is_empty<R: ExactRecords>(records: &R) -> bool
    ensures value { result ≡ is_empty (R.cells records.now) }
    ensures rectangular { IsRectangular (R.cells records.now) }
{
    let columns = records.count_columns();
    records.count_rows() == 0 || columns == 0
}

/// Checks that the widths of the first `columns` columns are known. Fails with `ShortWidths` if one
/// isn't.
pub fn check_widths<D: Dimension>(sizes: &D, columns: usize) -> Result<(), TableError>
    ensures ok { OnOk result (columns ≤ length (reached (D.width_at sizes.now) columns)) }
    ensures err { IfErr result (λ e. (e ≡ ShortWidths)
        × (length (reached (D.width_at sizes.now) columns) < columns)) }
{
    // All columns from `alike` on share one width.
    let alike = sizes.alike_from().unwrap_or(columns);
    'columns: for column in 0..columns.min(alike.saturating_add(1)) {
        if !sizes.has_width(column) {
            return Err(TableError::ShortWidths);
        }
    }
    Ok(())
}

/// Checks that the heights of the first `rows` rows are known. Fails with `ShortHeights` if one
/// isn't.
pub fn check_heights<D: Dimension>(sizes: &D, rows: usize) -> Result<(), TableError>
    ensures ok { OnOk result (rows ≤ length (reached (D.height_at sizes.now) rows)) }
    ensures err { IfErr result (λ e. (e ≡ ShortHeights)
        × (length (reached (D.height_at sizes.now) rows) < rows)) }
{
    'rows: for row in 0..rows {
        if !sizes.has_height(row) {
            return Err(TableError::ShortHeights);
        }
    }
    Ok(())
}

#[tactic(auto, unfolding(crate::specs::Totals::framed_width), using(crate::proofs::EstimatedTotals::as_number))]
fn framed_width(config: &SpannedConfig, columns: usize, inside: usize) -> Option<usize>
    ensures { IsTotal (framed_width config.now columns inside) result }
{
    let frame = config.frame();
    let margin = frame.margin;
    let left = margin.left.size.checked_add(usize::from(frame.left.there))?;
    let right = usize::from(frame.right.there).checked_add(margin.right.size)?;
    let bars = columns.saturating_sub(1) * usize::from(frame.inner.there);
    let inside = inside.checked_add(bars)?;
    left.checked_add(inside.checked_add(right)?)
}

/// Returns the total width of a table with `columns` columns, at least one, whose widths are all
/// known: the widths, the vertical lines and the side margins. `None` if it exceeds `usize::MAX`.
#[tactic(auto, unfolding(crate::specs::Totals::filled_width, crate::specs::Totals::framed_width), using(tabled_priority::proofs::Sums::sum_step, crate::proofs::Reaching::reached_is))]
pub fn filled_width<D: Dimension>(
    config: &SpannedConfig,
    columns: usize,
    sizes: &D,
) -> Option<usize>
    requires { columns ≤ length (reached (D.width_at sizes.now) columns) }
    ensures { let widths = reached (D.width_at sizes.now) columns in
        IsTotal (filled_width config.now columns widths) result }
{
    let mut total: usize = 0;
    'columns: for column in 0..columns {
        total = total.checked_add(sizes.get_width(column))?;
    }
    framed_width(config, columns, total)
}

#[tactic(auto, unfolding(crate::specs::Totals::framed_height), using(crate::proofs::EstimatedTotals::as_number))]
fn framed_height(config: &SpannedConfig, rows: usize, inside: usize) -> Option<usize>
    ensures { IsTotal (framed_height config.now rows inside) result }
{
    let margin = config.frame().margin;
    let last = usize::from(config.rule_at(rows, rows).is_some());
    let below = last.checked_add(margin.bottom.size)?;
    margin.top.size.checked_add(inside.checked_add(below)?)
}

/// How many lines the horizontal line above a row takes: `shared`, where it is known for the lines
/// between any two rows.
fn rules_above(config: &SpannedConfig, shared: Option<usize>, rows: usize, row: usize) -> usize
    requires { IfSome shared (λ lines. (row : ℕ) → 0 < row → row < rows
        → rules_at config.now rows row ≡ lines) }
    ensures { result ≡ rules_at config.now rows row }
{
    match shared {
        Some(lines) if 0 < row && row < rows => lines,
        _ => usize::from(config.rule_at(rows, row).is_some()),
    }
}

/// How many lines the horizontal line between any two rows takes, if no line was set by index.
fn rules_between(config: &SpannedConfig) -> Option<usize>
    ensures { IfSome result (λ lines. (rows row : ℕ) → 0 < row → row < rows
        → rules_at config.now rows row ≡ lines) }
{
    let rule = config.shared_rule()?;
    Some(usize::from(rule.is_some()))
}

/// Returns the total height of a table with `rows` rows, at least one, whose heights are all known:
/// the heights, the horizontal lines, top and bottom margin. `None` if it exceeds `usize::MAX`.
#[tactic(auto, unfolding(crate::specs::Totals::filled_height, crate::specs::Totals::framed_height, crate::specs::Totals::part_height), using(tabled_priority::proofs::Sums::sum_step, crate::proofs::Reaching::reached_is))]
pub fn filled_height<D: Dimension>(config: &SpannedConfig, rows: usize, sizes: &D) -> Option<usize>
    requires { rows ≤ length (reached (D.height_at sizes.now) rows) }
    ensures { let heights = reached (D.height_at sizes.now) rows in
        IsTotal (filled_height config.now rows heights) result }
{
    let shared = rules_between(config);
    let mut total: usize = 0;
    'rows: for row in 0..rows {
        let line = rules_above(config, shared, rows, row);
        let part = line.checked_add(sizes.get_height(row))?;
        total = total.checked_add(part)?;
    }
    framed_height(config, rows, total)
}

fn reached_width<D: Dimension>(
    config: &SpannedConfig,
    columns: usize,
    sizes: &D,
) -> Result<usize, TableError>
    ensures answers { let widths = reached (D.width_at sizes.now) columns in
        ReturnsWidth config.now columns widths result }
    ensures only { IfErr result (λ e. (e ≡ ShortWidths) ⊎ (e ≡ Range)) }
{
    check_widths(sizes, columns)?;
    filled_width(config, columns, sizes).ok_or(TableError::Range)
}

fn reached_height<D: Dimension>(
    config: &SpannedConfig,
    rows: usize,
    sizes: &D,
) -> Result<usize, TableError>
    ensures answers { let heights = reached (D.height_at sizes.now) rows in
        ReturnsHeight config.now rows heights result }
    ensures only { IfErr result (λ e. (e ≡ ShortHeights) ⊎ (e ≡ Range)) }
{
    check_heights(sizes, rows)?;
    filled_height(config, rows, sizes).ok_or(TableError::Range)
}

/// Returns the total width of a table, in columns: effective widths, vertical lines and side
/// margins. It is 0 without rows or columns.
///
/// Errors:
/// - `Memory`: an allocation failed. Never if widths are stored.
/// - `ShortWidths`: the stored list is shorter than the table.
/// - `Range`: the sum exceeds `usize::MAX`.
pub fn total_width<R: ContentRecords>(
    records: &R,
    config: &SpannedConfig,
    stored: &CompleteDimension,
) -> Result<usize, TableError>
    ensures empty { is_empty (R.cells records.now) ≡ true → result ≡ Ok 0 }
    ensures filled { is_empty (R.cells records.now) ≡ false → ReturnsWidth config.now
        (columns (R.cells records.now))
        (effective (R.cells records.now) config.now stored.now).widths result }
    ensures memory { IfErr result (λ e. e ≡ Memory → widths_of stored.now ≡ None) }
    ensures rectangular { IsRectangular (R.cells records.now) }
{
    if is_empty(records) {
        return Ok(0);
    }
    let columns = records.count_columns();
    match stored.get_widths() {
        Some(_) => reached_width(config, columns, stored),
        None => {
            let alloc = stored.allocator();
            let mut sizes = CompleteDimension::new(alloc);
            sizes.set_widths(estimate_widths(alloc, records, config)?);
            reached_width(config, columns, &sizes)
        }
    }
}

/// Returns the total height of a table, in lines: effective heights, horizontal lines, top and
/// bottom margin. It is 0 without rows or columns.
///
/// Errors:
/// - `Memory`: an allocation failed. Never if heights are stored.
/// - `ShortHeights`: the stored list is shorter than the table.
/// - `Range`: the sum exceeds `usize::MAX`.
pub fn total_height<R: ContentRecords>(
    records: &R,
    config: &SpannedConfig,
    stored: &CompleteDimension,
) -> Result<usize, TableError>
    ensures empty { is_empty (R.cells records.now) ≡ true → result ≡ Ok 0 }
    ensures filled { is_empty (R.cells records.now) ≡ false → ReturnsHeight config.now
        (length (R.cells records.now))
        (effective (R.cells records.now) config.now stored.now).heights result }
    ensures memory { IfErr result (λ e. e ≡ Memory → heights_of stored.now ≡ None) }
    ensures rectangular { IsRectangular (R.cells records.now) }
{
    if is_empty(records) {
        return Ok(0);
    }
    let rows = records.count_rows();
    match stored.get_heights() {
        Some(_) => reached_height(config, rows, stored),
        None => {
            let alloc = stored.allocator();
            let mut sizes = CompleteDimension::new(alloc);
            sizes.set_heights(estimate_heights(alloc, records, config)?);
            reached_height(config, rows, &sizes)
        }
    }
}

/// Returns the total width of a table with estimated widths, in columns. It is 0 without rows or
/// columns. `None` if it exceeds `usize::MAX`.
pub fn estimated_total_width<R: ContentRecords>(
    records: &R,
    config: &SpannedConfig,
) -> Option<usize>
    ensures { IsTotal (total_width (estimated (R.cells records.now) config.now)) result }
{
    if is_empty(records) {
        return Some(0);
    }
    let columns = records.count_columns();
    let mut total: usize = 0;
    'columns: for column in 0..columns {
        total = total.checked_add(column_width(records, config, column)?)?;
    }
    framed_width(config, columns, total)
}

/// Returns the total height of a table with estimated heights, in lines. It is 0 without rows or
/// columns. `None` if it exceeds `usize::MAX`.
pub fn estimated_total_height<R: ContentRecords>(
    records: &R,
    config: &SpannedConfig,
) -> Option<usize>
    ensures { IsTotal (total_height (estimated (R.cells records.now) config.now)) result }
{
    if is_empty(records) {
        return Some(0);
    }
    let rows = records.count_rows();
    let shared = rules_between(config);
    let mut total: usize = 0;
    'rows: for row in 0..rows {
        let line = rules_above(config, shared, rows, row);
        let part = line.checked_add(row_height(records, config, row)?)?;
        total = total.checked_add(part)?;
    }
    framed_height(config, rows, total)
}
