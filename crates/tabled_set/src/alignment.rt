//! The option `Alignment`: where texts are placed in their cells.
ghost use Rattle.std.specs.Prelude.{◌≡◌, IfErr, None, OnErr, OnOk, false};
ghost use Rattle.tabled_base.specs.declared.position.Entity.TheVariants.{Global};
ghost use Rattle.tabled_config.specs.Options.{Becomes, colored};
ghost use Rattle.tabled_config.specs.declared.alignment.AlignmentHorizontal.TheVariants as horizontal;
ghost use Rattle.tabled_config.specs.declared.alignment.AlignmentVertical.TheVariants as vertical;
ghost use Rattle.tabled_entity.specs.ChangeIndex.{IsPart};
ghost use Rattle.tabled_set.specs.Alignment.{aligned, aligned_compact, aligned_multiline};
ghost use Rattle.tabled_set.specs.Common.{Memory};
ghost use Rattle.tabled_set.specs.declared.alignment.Alignment.TheVariants.{Horizontal, Vertical};

use tabled_base::{CellOption, Entity, TableError, TableOption};
use tabled_config::{
    AlignmentHorizontal, AlignmentVertical, ColoredConfig, CompactConfig, CompactMultilineConfig,
    SpannedConfig,
};

/// Where texts are placed in their cells. As a table option it replaces the alignment of all cells,
/// as a cell option that of an entity's cells. That in the other direction stays, and no size
/// changes.
///
/// ```rust
/// table.with(Alignment::center())?;
/// table.modify(Columns::one(2), Alignment::right())?;
/// ```
#[derive(Clone, Copy, Debug, PartialEq, Eq, PartialOrd, Ord, Hash)]
pub enum Alignment {
    /// Within the content width.
    Horizontal(AlignmentHorizontal),
    /// Among the lines of the cell.
    Vertical(AlignmentVertical),
}

impl Alignment {
    /// Places texts at the left.
    pub fn left() -> Alignment
        ensures { result ≡ Horizontal horizontal.Left }
    {
        Alignment::Horizontal(AlignmentHorizontal::Left)
    }

    /// Places texts in the middle of the width.
    pub fn center() -> Alignment
        ensures { result ≡ Horizontal horizontal.Center }
    {
        Alignment::Horizontal(AlignmentHorizontal::Center)
    }

    /// Places texts at the right.
    pub fn right() -> Alignment
        ensures { result ≡ Horizontal horizontal.Right }
    {
        Alignment::Horizontal(AlignmentHorizontal::Right)
    }

    /// Places texts at the top.
    pub fn top() -> Alignment
        ensures { result ≡ Vertical vertical.Top }
    {
        Alignment::Vertical(AlignmentVertical::Top)
    }

    /// Places texts in the middle of the height.
    pub fn center_vertical() -> Alignment
        ensures { result ≡ Vertical vertical.Center }
    {
        Alignment::Vertical(AlignmentVertical::Center)
    }

    /// Places texts at the bottom.
    pub fn bottom() -> Alignment
        ensures { result ≡ Vertical vertical.Bottom }
    {
        Alignment::Vertical(AlignmentVertical::Bottom)
    }

    /// Sets the alignment of an entity. Fails only with `Memory`, and then changes nothing.
    fn set_for(self, config: &mut SpannedConfig, entity: Entity) -> Result<(), TableError>
        ensures ok { OnOk result (config.new ≡ aligned self entity config.old) }
        ensures err { OnErr result (IsPart entity × (config.new ≡ config.old)) }
        ensures only { IfErr result (λ e. e ≡ Memory) }
    {
        match self {
            Alignment::Horizontal(alignment) => config.set_alignment_horizontal(entity, alignment),
            Alignment::Vertical(alignment) => config.set_alignment_vertical(entity, alignment),
        }
    }
}

/// A configuration that has an alignment for all cells.
pub trait HasAlignment {
    ghost use Rattle.tabled_set.specs.declared.alignment.Alignment.{Alignment};

    // The configuration with another alignment.
    ghost with_alignment: { Self → Alignment → Self };

    /// Replaces the alignment of all cells. Never fails.
    fn align(&mut self, alignment: Alignment) -> Result<(), TableError>
        ensures ok { OnOk result (self.new ≡ with_alignment self.old alignment) }
        ensures err { OnErr result ⊥ };
}

impl HasAlignment for ColoredConfig {
    ghost with_alignment = { λ c alignment. colored (aligned alignment Global c.config) };

    fn align(&mut self, alignment: Alignment) -> Result<(), TableError> {
        alignment.set_for(self.as_mut(), Entity::Global)
    }
}

/// A vertical alignment changes nothing, since all cells have one line.
impl HasAlignment for CompactConfig {
    ghost with_alignment = { λ c alignment. aligned_compact alignment c };

    fn align(&mut self, alignment: Alignment) -> Result<(), TableError> {
        if let Alignment::Horizontal(alignment) = alignment {
            *self = self.set_alignment_horizontal(alignment);
        }
        Ok(())
    }
}

impl HasAlignment for CompactMultilineConfig {
    ghost with_alignment = { λ c alignment. aligned_multiline alignment c };

    fn align(&mut self, alignment: Alignment) -> Result<(), TableError> {
        match alignment {
            Alignment::Horizontal(alignment) => self.set_alignment_horizontal(alignment),
            Alignment::Vertical(alignment) => self.set_alignment_vertical(alignment),
        }
        Ok(())
    }
}

impl<R, C: HasAlignment, D> TableOption<R, C, D> for Alignment {
    ghost changes = { λ s r c d. Becomes (C.with_alignment c s) r d };

    ghost hint = { λ s. None };

    fn change(self, _: &mut R, cfg: &mut C, _: &mut D) -> Result<(), TableError> {
        cfg.align(self)
    }

    fn hint_change(&self) -> Option<Entity> {
        None
    }
}

/// Fails only with `Memory`, and only for a row, a column or a cell. Nothing has changed then.
impl<R> CellOption<R, ColoredConfig> for Alignment {
    ghost changes = { λ s r c e r' c'. (r' ≡ r) × (c' ≡ colored (aligned s e c.config)) };

    ghost fails = { λ s f r c e r' c'. IsPart e × ((f ≡ Memory) × ((r' ≡ r) × (c' ≡ c))) };

    ghost hint = { λ s. None };

    ghost is_undone = { λ s. false };

    fn change(&self, _: &mut R, cfg: &mut ColoredConfig, entity: Entity) -> Result<(), TableError> {
        self.set_for(cfg.as_mut(), entity)
    }

    fn hint_change(&self) -> Option<Entity> {
        None
    }

    fn needs_undo(&self) -> bool {
        false
    }
}
