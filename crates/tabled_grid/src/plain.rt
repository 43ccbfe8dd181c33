//! Whether the settings of a table make all lines equally wide, for plain cells or for any cells.
ghost use Rattle.std.specs.Prelude.{◌≡◌, ◌↔◌, ◌<◌, ◌≤◌, ℕ, IsTrue, Some, [], length};
ghost use Rattle.std.specs.Prelude.{slice_index_or};
ghost use Rattle.std.specs.List.{All};
ghost use Rattle.tabled_text.specs.Plain.{IsAdditiveColumn, IsPlain};
ghost use Rattle.tabled_config.specs.Settings.{frame, rule_at, style_at};
ghost use Rattle.tabled_config.specs.declared.borders.HorizontalLine.{HorizontalLine};
ghost use Rattle.tabled_size.specs.PlainCells.{ArePlain};
ghost use Rattle.tabled_line.specs.Apart.{AreApartCells, ArePaddedLeft, HasSeparators, HasSteadyBars};
ghost use Rattle.tabled_line.specs.Apart.{IsApartFrame, IsApartStyle};
ghost use Rattle.tabled_line.specs.Additive.{IsAdditiveFrame, IsAdditiveRule, IsAdditiveStyle};
ghost use Rattle.tabled_grid.specs.ApartSheet.{IsApartConfig};
ghost use Rattle.tabled_grid.specs.AdditiveSheet.{IsAdditiveConfig};

use tabled_base::{PeekableRecords, Position};
use tabled_config::{Frame, SpannedConfig};
use tabled_text::{is_additive_column, is_plain, is_separator_column};

fn is_additive_rule_at(config: &SpannedConfig, rows: usize, index: usize) -> bool
    ensures { IsTrue result ↔ ((line : HorizontalLine) → rule_at config.now rows index ≡ Some line
        → IsAdditiveRule line) }
{
    config.rule_at(rows, index).is_none_or(|line| {
        is_additive_column(line.main.unwrap_or(' '))
            && is_additive_column(line.left.unwrap_or(' '))
            && is_additive_column(line.intersection.unwrap_or(' '))
            && is_additive_column(line.right.unwrap_or(' '))
    })
}

fn are_additive_rules(config: &SpannedConfig, rows: usize) -> bool
    ensures { IsTrue result ↔ ((i : ℕ) → i ≤ rows → (line : HorizontalLine)
        → rule_at config.now rows i ≡ Some line → IsAdditiveRule line) }
{
    'lines: for index in 0..rows {
        if !is_additive_rule_at(config, rows, index) {
            return false;
        }
    }
    is_additive_rule_at(config, rows, rows)
}

fn is_additive_style_at(config: &SpannedConfig, row: usize, column: usize) -> bool
    ensures { IsTrue result ↔ IsAdditiveStyle (style_at config.now row column) }
{
    let padding = config.style_at(row, column).padding;
    is_additive_column(padding.left.fill)
        && is_additive_column(padding.right.fill)
        && is_additive_column(padding.top.fill)
        && is_additive_column(padding.bottom.fill)
}

fn are_additive_styles_in(config: &SpannedConfig, row: usize, columns: usize) -> bool
    ensures { IsTrue result ↔ ((column : ℕ) → column < columns
        → IsAdditiveStyle (style_at config.now row column)) }
{
    (0..columns).all(|column| is_additive_style_at(config, row, column))
}

fn are_additive_styles(config: &SpannedConfig, rows: usize, columns: usize) -> bool
    ensures { IsTrue result ↔ ((row column : ℕ) → row < rows → column < columns
        → IsAdditiveStyle (style_at config.now row column)) }
{
    'rows: for row in 0..rows {
        if !are_additive_styles_in(config, row, columns) {
            return false;
        }
    }
    true
}

fn is_additive_frame(frame: Frame) -> bool
    ensures { IsTrue result ↔ IsAdditiveFrame frame }
{
    is_additive_column(frame.inner.main)
        && is_additive_column(frame.left.main)
        && is_additive_column(frame.right.main)
        && is_additive_column(frame.margin.left.fill)
        && is_additive_column(frame.margin.right.fill)
        && is_additive_column(frame.margin.top.fill)
        && is_additive_column(frame.margin.bottom.fill)
}

/// Whether the borders, fills and margins of a table with `rows` and `columns` are additive
/// characters of one column: plain ones or separators.
///
/// Characters that aren't drawn count too, and a missing character is a space. Horizontal lines and
/// paddings past the last row or column don't count.
pub fn is_additive_config(config: &SpannedConfig, rows: usize, columns: usize) -> bool
    ensures { IsTrue result ↔ IsAdditiveConfig config.now rows columns }
{
    is_additive_frame(config.frame())
        && are_additive_rules(config, rows)
        && are_additive_styles(config, rows, columns)
}

fn is_plain_row<R: PeekableRecords>(records: &R, row: usize) -> bool
    requires { row < length (R.cells records.now) }
    ensures { IsTrue result ↔ All IsPlain (slice_index_or (R.cells records.now) row []) }
{
    (0..records.count_columns()).all(|column| is_plain(records.get_text(Position { row, column })))
}

/// Whether all cells are plain (`tabled_text::is_plain`).
pub fn is_plain_records<R: PeekableRecords>(records: &R) -> bool
    ensures { IsTrue result ↔ ArePlain (R.cells records.now) }
{
    'rows: for row in 0..records.count_rows() {
        if !is_plain_row(records, row) {
            return false;
        }
    }
    true
}

fn is_apart_style_at(config: &SpannedConfig, row: usize, column: usize) -> bool
    ensures { IsTrue result ↔ IsApartStyle (style_at config.now row column) }
{
    let padding = config.style_at(row, column).padding;
    is_separator_column(padding.left.fill)
        && is_separator_column(padding.right.fill)
        && is_separator_column(padding.top.fill)
        && is_separator_column(padding.bottom.fill)
}

fn has_left_padding(config: &SpannedConfig, row: usize, columns: usize) -> bool
    ensures { IsTrue result ↔ ArePaddedLeft columns (style_at config.now row) }
{
    (0..columns).all(|column| config.style_at(row, column).padding.left.size > 0)
}

fn has_right_padding(config: &SpannedConfig, row: usize, columns: usize) -> bool
    ensures { IsTrue result ↔ ((column : ℕ) → column < columns
        → 0 < (style_at config.now row column).padding.right.size) }
{
    (0..columns).all(|column| config.style_at(row, column).padding.right.size > 0)
}

/// Whether no cell of a row can join with the vertical line before it: the line is a separator, or
/// left padding follows it.
fn has_steady_bars(config: &SpannedConfig, row: usize, columns: usize) -> bool
    ensures { IsTrue result ↔ HasSteadyBars (frame config.now) columns (style_at config.now row) }
{
    let frame = config.frame();
    (is_separator_column(frame.left.main) && is_separator_column(frame.inner.main))
        || has_left_padding(config, row, columns)
}

/// Whether there is a vertical line or padding between each two cells of a row.
fn has_separators(config: &SpannedConfig, row: usize, columns: usize) -> bool
    ensures { IsTrue result ↔ HasSeparators (frame config.now) columns (style_at config.now row) }
{
    config.frame().inner.there
        || has_left_padding(config, row, columns)
        || has_right_padding(config, row, columns)
}

fn are_apart_styles_in(config: &SpannedConfig, row: usize, columns: usize) -> bool
    ensures { IsTrue result ↔ ((column : ℕ) → column < columns
        → IsApartStyle (style_at config.now row column)) }
{
    (0..columns).all(|column| is_apart_style_at(config, row, column))
}

fn are_apart_cells(config: &SpannedConfig, row: usize, columns: usize) -> bool
    ensures { IsTrue result ↔ AreApartCells (frame config.now) columns (style_at config.now row) }
{
    are_apart_styles_in(config, row, columns)
        && has_steady_bars(config, row, columns)
        && has_separators(config, row, columns)
}

fn are_apart_rows(config: &SpannedConfig, rows: usize, columns: usize) -> bool
    ensures { IsTrue result ↔ ((row : ℕ) → row < rows
        → AreApartCells (frame config.now) columns (style_at config.now row)) }
{
    (0..rows).all(|row| are_apart_cells(config, row, columns))
}

/// Whether vertical lines are additive, side margins are separators, and top and bottom margins are
/// additive.
fn is_apart_around(frame: Frame) -> bool
    ensures { IsTrue result ↔ (IsApartFrame frame × IsAdditiveColumn frame.margin.top.fill
        × IsAdditiveColumn frame.margin.bottom.fill) }
{
    is_additive_column(frame.inner.main)
        && is_additive_column(frame.left.main)
        && is_additive_column(frame.right.main)
        && is_separator_column(frame.margin.left.fill)
        && is_separator_column(frame.margin.right.fill)
        && is_additive_column(frame.margin.top.fill)
        && is_additive_column(frame.margin.bottom.fill)
}

/// Whether the settings of a table with `rows` and `columns` separate its cells: no text can join
/// with what is next to it. Then all lines are equally wide, whatever the cells contain.
///
/// All of these must hold, also for characters that aren't drawn:
/// - Padding and side margins are separators (`is_separator_column`).
/// - Vertical lines are separators too, or other additive characters, such as `#`, with left
///   padding in each cell.
/// - Between each two cells of a row there is a vertical line or padding.
/// - Horizontal lines and the lines of margins are additive characters of one column
///   (`is_additive_column`).
pub fn is_apart_config(config: &SpannedConfig, rows: usize, columns: usize) -> bool
    ensures { IsTrue result ↔ IsApartConfig config.now rows columns }
{
    is_apart_around(config.frame())
        && are_additive_rules(config, rows)
        && are_apart_rows(config, rows, columns)
}
