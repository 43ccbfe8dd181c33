//! Configurations and styles as table options.
//!
//! - A configuration replaces the old one entirely. Settings that a `CompactConfig` lacks get the
//!   defaults of `SpannedConfig::new`. A borrowed configuration is cloned, which allocates.
//! - A style replaces the borders and, where lines can be set by index, all of those lines.
ghost use Rattle.std.specs.Prelude.{IsSome};
ghost use Rattle.tabled_config.specs.Options.{Becomes, Stays, colored, with_style};
ghost use Rattle.tabled_config.specs.Spanned.{spanned_of_compact};

use crate::colored::ColoredConfig;
use crate::compact::{CompactConfig, CompactMultilineConfig};
use crate::spanned::SpannedConfig;
use crate::style::Style;
use tabled_base::{Entity, TableError, TableOption};

impl<R, D> TableOption<R, ColoredConfig, D> for ColoredConfig {
    ghost changes = { λ option r c d. Becomes option r d };

    fn change(self, _: &mut R, cfg: &mut ColoredConfig, _: &mut D) -> Result<(), TableError> {
        *cfg = self;
        Ok(())
    }

    fn hint_change(&self) -> Option<Entity> {
        Some(Entity::Global)
    }
}

impl<R, D> TableOption<R, ColoredConfig, D> for SpannedConfig {
    ghost changes = { λ option r c d. Becomes (colored option) r d };

    fn change(self, _: &mut R, cfg: &mut ColoredConfig, _: &mut D) -> Result<(), TableError> {
        *cfg = ColoredConfig::new(self);
        Ok(())
    }

    fn hint_change(&self) -> Option<Entity> {
        Some(Entity::Global)
    }
}

impl<R, D> TableOption<R, ColoredConfig, D> for &SpannedConfig {
    ghost changes = { λ option r c d. Becomes (colored option.now) r d };

    ghost fails = { λ option e. Stays e };

    fn change(self, _: &mut R, cfg: &mut ColoredConfig, _: &mut D) -> Result<(), TableError> {
        *cfg = ColoredConfig::new(self.clone()?);
        Ok(())
    }

    fn hint_change(&self) -> Option<Entity> {
        Some(Entity::Global)
    }
}

impl<R, D> TableOption<R, CompactConfig, D> for CompactConfig {
    ghost changes = { λ option r c d. Becomes option r d };

    fn change(self, _: &mut R, cfg: &mut CompactConfig, _: &mut D) -> Result<(), TableError> {
        *cfg = self;
        Ok(())
    }

    fn hint_change(&self) -> Option<Entity> {
        Some(Entity::Global)
    }
}

impl<R, D> TableOption<R, ColoredConfig, D> for CompactConfig {
    ghost changes = { λ option r c d. Becomes (colored (spanned_of_compact option)) r d };

    fn change(self, _: &mut R, cfg: &mut ColoredConfig, _: &mut D) -> Result<(), TableError> {
        let alloc = cfg.as_ref().allocator();
        *cfg = ColoredConfig::new(SpannedConfig::from_compact(alloc, self));
        Ok(())
    }

    fn hint_change(&self) -> Option<Entity> {
        Some(Entity::Global)
    }
}

impl<R, D> TableOption<R, CompactMultilineConfig, D> for CompactMultilineConfig {
    ghost changes = { λ option r c d. Becomes option r d };

    fn change(self, _: &mut R, cfg: &mut Self, _: &mut D) -> Result<(), TableError> {
        *cfg = self;
        Ok(())
    }

    fn hint_change(&self) -> Option<Entity> {
        Some(Entity::Global)
    }
}

impl<R, D> TableOption<R, CompactConfig, D> for Style {
    ghost changes = { λ option r c d. Becomes (record c { borders = option.borders }) r d };

    fn change(self, _: &mut R, cfg: &mut CompactConfig, _: &mut D) -> Result<(), TableError> {
        *cfg = cfg.set_borders(self.get_borders());
        Ok(())
    }

    fn hint_change(&self) -> Option<Entity> {
        Some(Entity::Global)
    }
}

impl<R, D> TableOption<R, CompactMultilineConfig, D> for Style {
    ghost changes = { λ option r c d.
        Becomes (record c { config = record c.config { borders = option.borders } }) r d };

    fn change(
        self,
        _: &mut R,
        cfg: &mut CompactMultilineConfig,
        _: &mut D,
    ) -> Result<(), TableError> {
        cfg.set_borders(self.get_borders());
        Ok(())
    }

    fn hint_change(&self) -> Option<Entity> {
        Some(Entity::Global)
    }
}

impl<R, D> TableOption<R, ColoredConfig, D> for Style {
    ghost changes = { λ option r c d. Becomes (colored (with_style c.config option)) r d };

    // Only a style with a line by index allocates.
    ghost fails = { λ option e r c d r' c' d'.
        IsSome option.below_first × Stays e r c d r' c' d' };

    fn change(self, _: &mut R, cfg: &mut ColoredConfig, _: &mut D) -> Result<(), TableError> {
        cfg.as_mut().set_style(&self)
    }

    fn hint_change(&self) -> Option<Entity> {
        Some(Entity::Global)
    }
}
