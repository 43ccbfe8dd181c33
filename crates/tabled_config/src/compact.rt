//! Configurations with one setting for all cells: of one line (`CompactConfig`), or of several
//! (`CompactMultilineConfig`).
ghost use Rattle.std.specs.Prelude.{◌≡◌};
ghost use Rattle.tabled_config.specs.Compact.{IsPlainCompact, IsPlainMultiline, with_no_flag};
ghost use Rattle.tabled_config.specs.Frame.{frame_of};

use crate::alignment::{AlignmentHorizontal, AlignmentVertical, Formatting};
use crate::borders::{Borders, Frame};
use crate::colored::ANSIStr;
use crate::sides::{Indent, Sides};
use tabled_base::{Configuration, TableError};

/// The settings of a table whose cells share them. It never allocates.
#[derive(Clone, Copy, Debug, PartialEq, Eq, PartialOrd, Ord, Hash)]
pub struct CompactConfig {
    margin: Sides<Indent>,
    padding: Sides<Indent>,
    borders: Borders<char>,
    borders_color: Borders<ANSIStr<'static>>,
    margin_color: Sides<ANSIStr<'static>>,
    padding_color: Sides<ANSIStr<'static>>,
    alignment_horizontal: AlignmentHorizontal,
}

impl CompactConfig {
    /// Creates a configuration without borders, padding, margin or colours. Text is at the left.
    pub fn new() -> CompactConfig
        ensures { IsPlainCompact result }
    {
        let none = Sides::filled(Indent::zero());
        let colorless = Sides::filled(ANSIStr::new("", ""));
        CompactConfig {
            margin: none,
            padding: none,
            borders: Borders::empty(),
            borders_color: Borders::empty(),
            margin_color: colorless,
            padding_color: colorless,
            alignment_horizontal: AlignmentHorizontal::Left,
        }
    }

    /// Sets the margin around the frame.
    pub fn set_margin(self, margin: Sides<Indent>) -> CompactConfig
        ensures { result ≡ record self { margin = margin } }
    {
        CompactConfig { margin, ..self }
    }

    /// Returns the margin around the frame.
    pub fn get_margin(&self) -> &Sides<Indent>
        ensures { result.now ≡ self.now.margin }
    {
        &self.margin
    }

    /// Sets the padding of all cells.
    pub fn set_padding(self, padding: Sides<Indent>) -> CompactConfig
        ensures { result ≡ record self { padding = padding } }
    {
        CompactConfig { padding, ..self }
    }

    /// Returns the padding of all cells.
    pub fn get_padding(&self) -> &Sides<Indent>
        ensures { result.now ≡ self.now.padding }
    {
        &self.padding
    }

    /// Sets the borders.
    pub fn set_borders(self, borders: Borders<char>) -> CompactConfig
        ensures { result ≡ record self { borders = borders } }
    {
        CompactConfig { borders, ..self }
    }

    /// Returns the borders.
    pub fn get_borders(&self) -> &Borders<char>
        ensures { result.now ≡ self.now.borders }
    {
        &self.borders
    }

    /// Returns the margin and the vertical lines.
    pub fn frame(&self) -> Frame
        ensures { result ≡ frame_of self.now.borders self.now.margin }
    {
        Frame::new(&self.borders, self.margin)
    }

    /// Sets the colours of the borders. Only a `PoolTable` shows them.
    pub fn set_borders_color(mut self, colors: Borders<ANSIStr<'static>>) -> CompactConfig
        ensures { result ≡ record self { borders_color = colors.entry } }
    {
        self.borders_color = colors;
        self
    }

    /// Returns the colours of the borders.
    pub fn get_borders_color(&self) -> &Borders<ANSIStr<'static>>
        ensures { result.now ≡ self.now.borders_color }
    {
        &self.borders_color
    }

    /// Sets the colours of the margin. Only a `PoolTable` shows them.
    pub fn set_margin_color(mut self, colors: Sides<ANSIStr<'static>>) -> CompactConfig
        ensures { result ≡ record self { margin_color = colors.entry } }
    {
        self.margin_color = colors;
        self
    }

    /// Returns the colours of the margin.
    pub fn get_margin_color(&self) -> &Sides<ANSIStr<'static>>
        ensures { result.now ≡ self.now.margin_color }
    {
        &self.margin_color
    }

    /// Sets the colours of the padding. Only a `PoolTable` shows them.
    pub fn set_padding_color(mut self, colors: Sides<ANSIStr<'static>>) -> CompactConfig
        ensures { result ≡ record self { padding_color = colors.entry } }
    {
        self.padding_color = colors;
        self
    }

    /// Returns the colours of the padding.
    pub fn get_padding_color(&self) -> &Sides<ANSIStr<'static>>
        ensures { result.now ≡ self.now.padding_color }
    {
        &self.padding_color
    }

    /// Sets the horizontal alignment of all cells.
    pub fn set_alignment_horizontal(mut self, alignment: AlignmentHorizontal) -> CompactConfig
        ensures { result ≡ record self { alignment_horizontal = alignment } }
    {
        self.alignment_horizontal = alignment;
        self
    }

    /// Returns the horizontal alignment of all cells.
    pub fn get_alignment_horizontal(&self) -> AlignmentHorizontal
        ensures { result ≡ self.now.alignment_horizontal }
    {
        self.alignment_horizontal
    }
}

impl Default for CompactConfig {
    ghost is_default = { IsPlainCompact };

    fn default() -> CompactConfig {
        CompactConfig::new()
    }
}

/// A `CompactConfig` with vertical alignment and `Formatting`, for cells of several lines.
#[derive(Clone, Copy, Debug, PartialEq, Eq, PartialOrd, Ord)]
pub struct CompactMultilineConfig {
    config: CompactConfig,
    alignment_vertical: AlignmentVertical,
    formatting: Formatting,
}

impl CompactMultilineConfig {
    /// Creates the settings of `CompactConfig::new`, with text at the top and no flag set.
    pub fn new() -> CompactMultilineConfig
        ensures { IsPlainMultiline result }
    {
        CompactMultilineConfig::from_compact(CompactConfig::new())
    }

    /// Extends a `CompactConfig`, with text at the top and no flag set.
    pub fn from_compact(config: CompactConfig) -> CompactMultilineConfig
        ensures { result ≡ with_no_flag config }
    {
        CompactMultilineConfig {
            config,
            alignment_vertical: AlignmentVertical::Top,
            formatting: Formatting::new(false, false, false),
        }
    }

    /// Sets the margin around the frame.
    pub fn set_margin(&mut self, margin: Sides<Indent>)
        ensures { self.new ≡ record
            self.old { config = record self.old.config { margin = margin } } }
    {
        self.config = self.config.set_margin(margin);
    }

    /// Returns the margin around the frame.
    pub fn get_margin(&self) -> &Sides<Indent>
        ensures { result.now ≡ self.now.config.margin }
    {
        self.config.get_margin()
    }

    /// Sets the padding of all cells.
    pub fn set_padding(&mut self, padding: Sides<Indent>)
        ensures { self.new ≡ record
            self.old { config = record self.old.config { padding = padding } } }
    {
        self.config = self.config.set_padding(padding);
    }

    /// Returns the padding of all cells.
    pub fn get_padding(&self) -> &Sides<Indent>
        ensures { result.now ≡ self.now.config.padding }
    {
        self.config.get_padding()
    }

    /// Sets the borders.
    pub fn set_borders(&mut self, borders: Borders<char>)
        ensures { self.new ≡ record
            self.old { config = record self.old.config { borders = borders } } }
    {
        self.config = self.config.set_borders(borders);
    }

    /// Returns the borders.
    pub fn get_borders(&self) -> &Borders<char>
        ensures { result.now ≡ self.now.config.borders }
    {
        self.config.get_borders()
    }

    /// Sets the colours of the borders.
    pub fn set_borders_color(&mut self, colors: Borders<ANSIStr<'static>>)
        ensures { self.new ≡ record
            self.old { config = record self.old.config { borders_color = colors.entry } } }
    {
        self.config = self.config.set_borders_color(colors);
    }

    /// Returns the colours of the borders.
    pub fn get_borders_color(&self) -> &Borders<ANSIStr<'static>>
        ensures { result.now ≡ self.now.config.borders_color }
    {
        self.config.get_borders_color()
    }

    /// Sets the colours of the margin.
    pub fn set_margin_color(&mut self, colors: Sides<ANSIStr<'static>>)
        ensures { self.new ≡ record
            self.old { config = record self.old.config { margin_color = colors.entry } } }
    {
        self.config = self.config.set_margin_color(colors);
    }

    /// Returns the colours of the margin.
    pub fn get_margin_color(&self) -> &Sides<ANSIStr<'static>>
        ensures { result.now ≡ self.now.config.margin_color }
    {
        self.config.get_margin_color()
    }

    /// Sets the colours of the padding.
    pub fn set_padding_color(&mut self, colors: Sides<ANSIStr<'static>>)
        ensures { self.new ≡ record
            self.old { config = record self.old.config { padding_color = colors.entry } } }
    {
        self.config = self.config.set_padding_color(colors);
    }

    /// Returns the colours of the padding.
    pub fn get_padding_color(&self) -> &Sides<ANSIStr<'static>>
        ensures { result.now ≡ self.now.config.padding_color }
    {
        self.config.get_padding_color()
    }

    /// Sets the horizontal alignment of all cells.
    pub fn set_alignment_horizontal(&mut self, alignment: AlignmentHorizontal)
        ensures { self.new ≡ record
            self.old { config = record self.old.config { alignment_horizontal = alignment } } }
    {
        self.config = self.config.set_alignment_horizontal(alignment);
    }

    /// Returns the horizontal alignment of all cells.
    pub fn get_alignment_horizontal(&self) -> AlignmentHorizontal
        ensures { result ≡ self.now.config.alignment_horizontal }
    {
        self.config.get_alignment_horizontal()
    }

    /// Sets the vertical alignment of all cells.
    pub fn set_alignment_vertical(&mut self, alignment: AlignmentVertical)
        ensures { self.new ≡ record self.old { alignment_vertical = alignment } }
    {
        self.alignment_vertical = alignment;
    }

    /// Returns the vertical alignment of all cells.
    pub fn get_alignment_vertical(&self) -> AlignmentVertical
        ensures { result ≡ self.now.alignment_vertical }
    {
        self.alignment_vertical
    }

    /// Sets the flags for trimming and aligning lines.
    pub fn set_formatting(&mut self, formatting: Formatting)
        ensures { self.new ≡ record self.old { formatting = formatting } }
    {
        self.formatting = formatting;
    }

    /// Returns the flags for trimming and aligning lines.
    pub fn get_formatting(&self) -> Formatting
        ensures { result ≡ self.now.formatting }
    {
        self.formatting
    }
}

impl Default for CompactMultilineConfig {
    ghost is_default = { IsPlainMultiline };

    fn default() -> CompactMultilineConfig {
        CompactMultilineConfig::new()
    }
}

impl From<CompactConfig> for CompactMultilineConfig {
    ghost from_gives = { λ config multiline. multiline ≡ with_no_flag config };

    fn from(config: CompactConfig) -> CompactMultilineConfig {
        CompactMultilineConfig::from_compact(config)
    }
}

impl From<CompactMultilineConfig> for CompactConfig {
    ghost from_gives = { λ multiline config. config ≡ multiline.config };

    fn from(multiline: CompactMultilineConfig) -> CompactConfig {
        multiline.config
    }
}

impl Configuration for CompactConfig {
    ghost needs_memory = { λ _. ⊥ };

    fn copied(&self) -> Result<CompactConfig, TableError> {
        Ok(*self)
    }
}

impl Configuration for CompactMultilineConfig {
    ghost needs_memory = { λ _. ⊥ };

    fn copied(&self) -> Result<CompactMultilineConfig, TableError> {
        Ok(*self)
    }
}
