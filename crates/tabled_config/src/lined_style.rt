//! A style with horizontal lines that were set by index (`LinedStyle`).
ghost use Rattle.std.specs.Prelude.{◌≡◌, ◌<◌, length};
ghost use Rattle.tabled_config.specs.Options.{Becomes, Stays, colored};
ghost use Rattle.tabled_config.specs.StyleChanges.{no_bottom, no_frame, no_horizontal, no_left};
ghost use Rattle.tabled_config.specs.StyleChanges.{no_right, no_top, no_vertical, with_lines};

use crate::borders::{Borders, HorizontalLine};
use crate::colored::ColoredConfig;
use crate::compact::{CompactConfig, CompactMultilineConfig};
use tabled_base::{Entity, TableError, TableOption};

/// Borders, and horizontal lines by index; `Style::horizontals` makes it. Of a line
/// by index, the characters at vertical lines are drawn only where the borders have these.
///
/// ```rust
/// let line = HorizontalLine::inherit(Style::modern());
/// table.with(Style::modern().horizontals([(1, line)]).remove_horizontal())?;
/// ```
#[derive(Debug, Drop)]
pub struct LinedStyle<const N: usize> {
    borders: Borders<char>,
    lines: [(usize, HorizontalLine); N],
}

impl<const N: usize> LinedStyle<N> {
    /// Makes a style of its borders and lines.
    pub(crate) fn new(borders: Borders<char>, lines: [(usize, HorizontalLine); N]) -> LinedStyle<N>
        ensures { result ≡ record { borders = borders; lines = lines.entry } }
    {
        LinedStyle { borders, lines }
    }

    /// Removes the lines between all rows. Those by index stay.
    pub fn remove_horizontal(self) -> LinedStyle<N>
        ensures { result ≡ record self.entry { borders = no_horizontal self.entry.borders } }
    {
        let borders = self.borders.without_horizontal();
        LinedStyle { borders, ..self }
    }

    /// Removes the lines between columns.
    pub fn remove_vertical(self) -> LinedStyle<N>
        ensures { result ≡ record self.entry { borders = no_vertical self.entry.borders } }
    {
        let borders = self.borders.without_vertical();
        LinedStyle { borders, ..self }
    }

    /// Removes the line above the first row.
    pub fn remove_top(self) -> LinedStyle<N>
        ensures { result ≡ record self.entry { borders = no_top self.entry.borders } }
    {
        let borders = self.borders.without_top();
        LinedStyle { borders, ..self }
    }

    /// Removes the line below the last row.
    pub fn remove_bottom(self) -> LinedStyle<N>
        ensures { result ≡ record self.entry { borders = no_bottom self.entry.borders } }
    {
        let borders = self.borders.without_bottom();
        LinedStyle { borders, ..self }
    }

    /// Removes the line before the first column.
    pub fn remove_left(self) -> LinedStyle<N>
        ensures { result ≡ record self.entry { borders = no_left self.entry.borders } }
    {
        let borders = self.borders.without_left();
        LinedStyle { borders, ..self }
    }

    /// Removes the line behind the last column.
    pub fn remove_right(self) -> LinedStyle<N>
        ensures { result ≡ record self.entry { borders = no_right self.entry.borders } }
    {
        let borders = self.borders.without_right();
        LinedStyle { borders, ..self }
    }

    /// Removes the lines on all four sides.
    pub fn remove_frame(self) -> LinedStyle<N>
        ensures { result ≡ record self.entry { borders = no_frame self.entry.borders } }
    {
        let borders = self.borders.without_frame();
        LinedStyle { borders, ..self }
    }

    /// Returns the borders.
    pub fn get_borders(&self) -> Borders<char>
        ensures { result ≡ self.now.borders }
    {
        self.borders
    }
}

/// Replaces the borders and all lines by index. Of several lines with one index the latest counts.
impl<R, D, const N: usize> TableOption<R, ColoredConfig, D> for LinedStyle<N> {
    ghost changes = { λ option r c d.
        Becomes (colored (with_lines c.config option.borders option.lines)) r d };

    // Only a style with a line by index allocates.
    ghost fails = { λ option e r c d r' c' d'.
        (0 < length option.lines) × Stays e r c d r' c' d' };

    fn change(self, _: &mut R, cfg: &mut ColoredConfig, _: &mut D) -> Result<(), TableError> {
        cfg.as_mut().set_lines(self.borders, &self.lines)
    }

    fn hint_change(&self) -> Option<Entity> {
        Some(Entity::Global)
    }
}

/// Replaces the borders alone.
impl<R, D, const N: usize> TableOption<R, CompactConfig, D> for LinedStyle<N> {
    ghost changes = { λ option r c d. Becomes (record c { borders = option.borders }) r d };

    fn change(self, _: &mut R, cfg: &mut CompactConfig, _: &mut D) -> Result<(), TableError> {
        *cfg = cfg.set_borders(self.borders);
        Ok(())
    }

    fn hint_change(&self) -> Option<Entity> {
        Some(Entity::Global)
    }
}

/// Replaces the borders alone.
impl<R, D, const N: usize> TableOption<R, CompactMultilineConfig, D> for LinedStyle<N> {
    ghost changes = { λ option r c d.
        Becomes (record c { config = record c.config { borders = option.borders } }) r d };

    fn change(
        self,
        _: &mut R,
        cfg: &mut CompactMultilineConfig,
        _: &mut D,
    ) -> Result<(), TableError> {
        cfg.set_borders(self.borders);
        Ok(())
    }

    fn hint_change(&self) -> Option<Entity> {
        Some(Entity::Global)
    }
}
