//! The configuration of a table, with settings for rows, columns and cells (`SpannedConfig`).
ghost use Rattle.std.specs.Prelude.{◌≡◌, ◌==◌, ℕ, if◌then◌else◌, IfErr, IfOk, IfSome, IsSome, None, OnErr};
ghost use Rattle.std.specs.Prelude.{OnOk, Some, [], length, ◌<◌};
ghost use Rattle.tabled_base.specs.declared.error.TableError.TheVariants.{Memory};
ghost use Rattle.tabled_config.specs.Lines.{line_set, with_line};
ghost use Rattle.tabled_config.specs.StyleChanges.{with_lines};

mod entity_settings;
mod row_styles;

use crate::alignment::{AlignmentHorizontal, AlignmentVertical};
use crate::borders::{Borders, Frame, HorizontalLine, HorizontalLines};
use crate::compact::{CompactConfig, CompactMultilineConfig};
use crate::sides::{Indent, Sides};
use crate::style::Style;
pub use row_styles::{RowStyles, SetStyles};
use std::alloc::Global;
use tabled_base::TableError;
use tabled_entity::EntityMap;

/// The padding and the alignment of one cell.
#[derive(Clone, Copy, Debug)]
pub struct CellStyle {
    /// The padding: columns at the left and right, lines at the top and bottom.
    pub padding: Sides<Indent>,
    /// The alignment within the content width.
    pub horizontal: AlignmentHorizontal,
    /// The alignment among the lines that the padding leaves.
    pub vertical: AlignmentVertical,
    /// Whether each line is aligned by its own width, instead of all lines by the widest.
    pub line_alignment: bool,
}

/// The settings of a table. The last value that covers a cell wins, and a value for the whole table
/// removes all earlier ones of that setting. A horizontal line set by index replaces the borders'
/// line. Two configurations are equal if the same values were set in the same order.
#[derive(Debug, PartialEq, Eq)]
pub struct SpannedConfig {
    /// The characters of the frame.
    pub borders: Borders<char>,
    /// The margin around the frame.
    pub margin: Sides<Indent>,
    padding: EntityMap<Sides<Indent>>,
    alignment_horizontal: EntityMap<AlignmentHorizontal>,
    alignment_vertical: EntityMap<AlignmentVertical>,
    line_alignment: EntityMap<bool>,
    trim_horizontal: EntityMap<bool>,
    trim_vertical: EntityMap<bool>,
    lines: HorizontalLines,
}

/// Drops all settings in one call, so that callers need no proof for each of them.
impl Drop for SpannedConfig {
    fn drop(self) {
        let SpannedConfig {
            borders: _,
            margin: _,
            padding: _,
            alignment_horizontal: _,
            alignment_vertical: _,
            line_alignment: _,
            trim_horizontal: _,
            trim_vertical: _,
            lines: _,
        } = self;
    }
}

impl SpannedConfig {
    ghost use Rattle.tabled_config.specs.Options.{with_style};
    ghost use Rattle.tabled_config.specs.Settings.{frame, rule_at, style_at};
    ghost use Rattle.tabled_config.specs.Spanned.{new_spanned, spanned_of_compact};
    ghost use Rattle.tabled_config.specs.Spanned.{spanned_of_multiline};

    /// Creates a configuration without borders, padding, margin or lines. Text is at the left and
    /// the top. It doesn't allocate.
    pub fn new(alloc: Global) -> SpannedConfig
        ensures { result ≡ new_spanned }
    {
        SpannedConfig::from_compact(alloc, CompactConfig::new())
    }

    /// Converts a `CompactConfig` and drops its colours. The other settings are those of `new`. It
    /// doesn't allocate.
    pub fn from_compact(alloc: Global, compact: CompactConfig) -> SpannedConfig
        ensures { result ≡ spanned_of_compact compact }
    {
        SpannedConfig::from_multiline(alloc, CompactMultilineConfig::from_compact(compact))
    }

    /// Converts a `CompactMultilineConfig`, with its vertical alignment and flags, and drops its
    /// colours. It doesn't allocate.
    pub fn from_multiline(alloc: Global, multiline: CompactMultilineConfig) -> SpannedConfig
        ensures { result ≡ spanned_of_multiline multiline }
    {
        let formatting = multiline.get_formatting();
        SpannedConfig {
            borders: *multiline.get_borders(),
            margin: *multiline.get_margin(),
            padding: EntityMap::new(alloc, *multiline.get_padding()),
            alignment_horizontal: EntityMap::new(alloc, multiline.get_alignment_horizontal()),
            alignment_vertical: EntityMap::new(alloc, multiline.get_alignment_vertical()),
            line_alignment: EntityMap::new(alloc, formatting.allow_lines_alignment),
            trim_horizontal: EntityMap::new(alloc, formatting.horizontal_trim),
            trim_vertical: EntityMap::new(alloc, formatting.vertical_trim),
            lines: HorizontalLines::new(alloc),
        }
    }

    /// Clones the settings. Fails only with `Memory`.
    pub fn clone(&self) -> Result<SpannedConfig, TableError>
        ensures equal { IfOk result (λ copy. copy ≡ self.now) }
        ensures only { IfErr result (λ e. e ≡ Memory) }
    {
        Ok(SpannedConfig {
            borders: self.borders,
            margin: self.margin,
            padding: self.padding.clone()?,
            alignment_horizontal: self.alignment_horizontal.clone()?,
            alignment_vertical: self.alignment_vertical.clone()?,
            line_alignment: self.line_alignment.clone()?,
            trim_horizontal: self.trim_horizontal.clone()?,
            trim_vertical: self.trim_vertical.clone()?,
            lines: self.lines.clone()?,
        })
    }

    /// Sets the borders.
    pub fn set_borders(&mut self, borders: Borders<char>)
        ensures { self.new ≡ record self.old { borders = borders } }
    {
        self.borders = borders;
    }

    /// Returns the borders.
    pub fn get_borders(&self) -> &Borders<char>
        ensures { result.now ≡ self.now.borders }
    {
        &self.borders
    }

    /// Sets the margin.
    pub fn set_margin(&mut self, margin: Sides<Indent>)
        ensures { self.new ≡ record self.old { margin = margin } }
    {
        self.margin = margin;
    }

    /// Returns the margin.
    pub fn get_margin(&self) -> &Sides<Indent>
        ensures { result.now ≡ self.now.margin }
    {
        &self.margin
    }

    /// Sets the horizontal line above `row`, or below the last row, in place of the borders' line.
    /// Fails only with `Memory`, and then changes nothing. Replacing a line that was set before
    /// can't fail.
    pub fn insert_horizontal_line(
        &mut self,
        row: usize,
        line: HorizontalLine,
    ) -> Result<(), TableError>
        ensures ok { OnOk result (self.new
            ≡ record self.old { lines = with_line self.old.lines row line }) }
        ensures latest { OnOk result ((i : ℕ) → line_set self.new.lines i
            ≡ (if row == i then Some line else line_set self.old.lines i)) }
        ensures err { OnErr result (self.new ≡ self.old) }
        ensures absent { OnErr result (line_set self.old.lines row ≡ None) }
        ensures only { IfErr result (λ e. e ≡ Memory) }
    {
        Ok(self.lines.insert(row, line)?)
    }

    /// Removes all horizontal lines set by index. It doesn't allocate.
    pub fn remove_horizontal_lines(&mut self)
        ensures { self.new ≡ record self.old { lines = [] } }
    {
        self.lines = HorizontalLines::new(self.allocator());
    }

    /// Returns the horizontal line set by index above a row, if any.
    pub fn get_horizontal_line(&self, row: usize) -> Option<HorizontalLine>
        ensures { result ≡ line_set self.now.lines row }
    {
        self.lines.get(row)
    }

    /// Sets the borders of a style, and replaces all lines set by index with the style's. Fails
    /// only with `Memory`, and then changes nothing. A style without such a line can't fail.
    pub(crate) fn set_style(&mut self, style: &Style) -> Result<(), TableError>
        ensures ok { OnOk result (self.new ≡ with_style self.old style.now) }
        ensures err { OnErr result (self.new ≡ self.old) }
        ensures line { OnErr result (IsSome style.now.below_first) }
        ensures only { IfErr result (λ e. e ≡ Memory) }
    {
        let mut lines = HorizontalLines::new(self.allocator());
        if let Some(line) = style.get_horizontal_line(1) {
            lines.insert(1, line)?;
        }
        self.borders = style.get_borders();
        self.lines = lines;
        Ok(())
    }

    /// Sets borders, and replaces all lines set by index. Of several lines with one index the
    /// latest counts. Fails only with `Memory`, and then changes nothing. Without lines it can't
    /// fail.
    pub(crate) fn set_lines(
        &mut self,
        borders: Borders<char>,
        lines: &[(usize, HorizontalLine)],
    ) -> Result<(), TableError>
        ensures ok { OnOk result (self.new ≡ with_lines self.old borders lines.now) }
        ensures err { OnErr result (self.new ≡ self.old) }
        ensures line { OnErr result (0 < length lines.now) }
        ensures only { IfErr result (λ e. e ≡ Memory) }
    {
        let mut all = HorizontalLines::new(self.allocator());
        'lines: for (row, line) in lines {
            all.insert(*row, *line)?;
        }
        self.borders = borders;
        self.lines = all;
        Ok(())
    }

    pub(crate) fn allocator(&self) -> Global {
        self.padding.allocator()
    }

    /// Returns the padding and the alignment of a cell.
    #[inline]
    #[tactic(auto, unfolding(crate::specs::Settings::style_at))]
    pub fn style_at(&self, row: usize, column: usize) -> CellStyle
        ensures { result ≡ style_at self.now row column }
    {
        CellStyle {
            padding: self.padding.get(row, column),
            horizontal: self.alignment_horizontal.get(row, column),
            vertical: self.alignment_vertical.get(row, column),
            line_alignment: self.line_alignment.get(row, column),
        }
    }

    /// Returns the horizontal line above row `index` of `rows` rows, or below the last row for
    /// `index == rows`. `None` if there is no line.
    #[tactic(auto, unfolding(crate::specs::Settings::rule_at))]
    pub fn rule_at(&self, rows: usize, index: usize) -> Option<HorizontalLine>
        ensures { result ≡ rule_at self.now rows index }
    {
        match self.lines.get(index) {
            Some(line) => Some(line),
            None => self.borders.line_at(rows, index),
        }
    }

    /// Returns the horizontal line between two rows, if no line was set by index: then it is the
    /// same between any two.
    #[tactic(auto, unfolding(crate::specs::Settings::rule_at))]
    pub fn shared_rule(&self) -> Option<Option<HorizontalLine>>
        ensures { IfSome result (λ rule. (rows index : ℕ) → 0 < index → index < rows
            → rule_at self.now rows index ≡ rule) }
    {
        if self.lines.is_empty() {
            Some(self.borders.line_between())
        } else {
            None
        }
    }

    /// Returns the margin and the vertical lines.
    pub fn frame(&self) -> Frame
        ensures { result ≡ frame self.now }
    {
        Frame::new(&self.borders, self.margin)
    }
}
