//! The settings of an entity: its padding, its alignment and its flags.
ghost use Rattle.std.specs.Prelude.{◌≡◌};
ghost use Rattle.tabled_config.specs.Settings.{IsSetFor, style_at};
ghost use Rattle.tabled_entity.specs.Changes.{setting_at, with_change};

use super::SpannedConfig;
use crate::alignment::{AlignmentHorizontal, AlignmentVertical};
use crate::sides::{Indent, Sides};
use tabled_base::{Entity, Position, TableError};

impl SpannedConfig {
    /// Sets the padding of an entity. Fails only with `Memory`, and then changes nothing.
    pub fn set_padding(&mut self, entity: Entity, padding: Sides<Indent>) -> Result<(), TableError>
        ensures { IsSetFor entity result self.old self.new
            (record self.old { padding = with_change self.old.padding entity padding }) }
    {
        Ok(self.padding.set(entity, padding)?)
    }

    /// Returns the padding of a cell.
    #[inline]
    #[tactic(auto, unfolding(crate::specs::Settings::style_at))]
    pub fn get_padding(&self, at: Position) -> Sides<Indent>
        ensures set { result ≡ setting_at self.now.padding at.row at.column }
        ensures style { result ≡ (style_at self.now at.row at.column).padding }
    {
        self.padding.get(at.row, at.column)
    }

    /// Sets the horizontal alignment of an entity. Fails only with `Memory`, and then changes
    /// nothing.
    pub fn set_alignment_horizontal(
        &mut self,
        entity: Entity,
        alignment: AlignmentHorizontal,
    ) -> Result<(), TableError>
        ensures { IsSetFor entity result self.old self.new (record self.old {
          alignment_horizontal = with_change self.old.alignment_horizontal entity alignment;
        }) }
    {
        Ok(self.alignment_horizontal.set(entity, alignment)?)
    }

    /// Returns the horizontal alignment of a cell.
    pub fn get_alignment_horizontal(&self, at: Position) -> AlignmentHorizontal
        ensures { result ≡ setting_at self.now.alignment_horizontal at.row at.column }
    {
        self.alignment_horizontal.get(at.row, at.column)
    }

    /// Sets the vertical alignment of an entity. Fails only with `Memory`, and then changes
    /// nothing.
    pub fn set_alignment_vertical(
        &mut self,
        entity: Entity,
        alignment: AlignmentVertical,
    ) -> Result<(), TableError>
        ensures { IsSetFor entity result self.old self.new (record self.old {
          alignment_vertical = with_change self.old.alignment_vertical entity alignment;
        }) }
    {
        Ok(self.alignment_vertical.set(entity, alignment)?)
    }

    /// Returns the vertical alignment of a cell.
    pub fn get_alignment_vertical(&self, at: Position) -> AlignmentVertical
        ensures { result ≡ setting_at self.now.alignment_vertical at.row at.column }
    {
        self.alignment_vertical.get(at.row, at.column)
    }

    /// Sets whether each line of an entity's cells is aligned by its own width. Fails only with
    /// `Memory`, and then changes nothing.
    pub fn set_line_alignment(&mut self, entity: Entity, allowed: bool) -> Result<(), TableError>
        ensures { let all = with_change self.old.line_alignment entity allowed in
            IsSetFor entity result self.old self.new (record self.old { line_alignment = all }) }
    {
        Ok(self.line_alignment.set(entity, allowed)?)
    }

    /// Whether each line of a cell is aligned by its own width, instead of all lines by the widest.
    pub fn get_line_alignment(&self, at: Position) -> bool
        ensures { result ≡ setting_at self.now.line_alignment at.row at.column }
    {
        self.line_alignment.get(at.row, at.column)
    }

    /// Sets whether to trim spaces at the ends of an entity's lines. Stored only: no printer reads
    /// it. Fails only with `Memory`, and then changes nothing.
    pub fn set_trim_horizontal(&mut self, entity: Entity, trimmed: bool) -> Result<(), TableError>
        ensures { let all = with_change self.old.trim_horizontal entity trimmed in
            IsSetFor entity result self.old self.new (record self.old { trim_horizontal = all }) }
    {
        Ok(self.trim_horizontal.set(entity, trimmed)?)
    }

    /// Whether to trim spaces at the ends of a cell's lines.
    pub fn get_trim_horizontal(&self, at: Position) -> bool
        ensures { result ≡ setting_at self.now.trim_horizontal at.row at.column }
    {
        self.trim_horizontal.get(at.row, at.column)
    }

    /// Sets whether to trim empty lines at the top and bottom of an entity's cells. Stored only: no
    /// printer reads it. Fails only with `Memory`, and then changes nothing.
    pub fn set_trim_vertical(&mut self, entity: Entity, trimmed: bool) -> Result<(), TableError>
        ensures { let all = with_change self.old.trim_vertical entity trimmed in
            IsSetFor entity result self.old self.new (record self.old { trim_vertical = all }) }
    {
        Ok(self.trim_vertical.set(entity, trimmed)?)
    }

    /// Whether to trim empty lines at the top and bottom of a cell.
    pub fn get_trim_vertical(&self, at: Position) -> bool
        ensures { result ≡ setting_at self.now.trim_vertical at.row at.column }
    {
        self.trim_vertical.get(at.row, at.column)
    }
}
