//! The options `Margin` and `Padding`, the space around a table and around the text of a cell.
ghost use Rattle.std.specs.Prelude.{◌≡◌, if◌then◌else◌, OnErr, OnOk, false};
ghost use Rattle.tabled_set.specs.Common.{Memory};
ghost use Rattle.tabled_config.specs.Options.{Becomes, colored};
ghost use Rattle.tabled_config.specs.declared.sides.Indent.{Indent};
ghost use Rattle.tabled_config.specs.declared.sides.Sides.{Sides};
ghost use Rattle.tabled_entity.specs.ChangeIndex.{IsPart};
ghost use Rattle.tabled_entity.specs.Changes.{for_all, with_change};
ghost use Rattle.tabled_set.specs.Sides.{filled, spaced};
ghost use Rattle.tabled_set.specs.declared.spaces.PaddingExpand.TheVariants.{Horizontal, Vertical};

use std::marker::PhantomData;
use tabled_base::{CellOption, Entity, TableError, TableOption};
use tabled_config::{ColoredConfig, CompactConfig, CompactMultilineConfig, Indent, Sides};

/// The space on the four sides of a table or of the text of a cell.
#[derive(Clone, Copy, Debug, PartialEq, Eq, PartialOrd, Ord)]
pub struct Space<K> {
    indent: Sides<Indent>,
    around: PhantomData<K>,
}

/// The kind of space that is around a table.
#[derive(Clone, Copy, Debug, PartialEq, Eq, PartialOrd, Ord)]
pub struct AroundTable;

/// The kind of space that is around the text of a cell.
#[derive(Clone, Copy, Debug, PartialEq, Eq, PartialOrd, Ord)]
pub struct AroundText;

/// The space around a table, outside its frame. As an option it replaces the table's margin, and
/// never fails.
pub type Margin = Space<AroundTable>;

/// The space around the text of a cell. As a table option it replaces the padding of all cells, as
/// a cell option that of an entity's cells.
pub type Padding = Space<AroundText>;

/// A direction in which padding expands.
#[derive(Debug, Drop)]
pub enum PaddingExpand {
    /// To the left and right.
    Horizontal,
    /// To the top and bottom.
    Vertical,
}

impl<K: Copy> Space<K> {
    /// Creates a space of space characters: columns at the left and right, lines at the top and
    /// bottom.
    pub fn new(left: usize, right: usize, top: usize, bottom: usize) -> Space<K>
        ensures { result.indent ≡ spaced left right top bottom }
    {
        Space::from(Sides::new(
            Indent::spaced(left),
            Indent::spaced(right),
            Indent::spaced(top),
            Indent::spaced(bottom),
        ))
    }

    /// Fills the space with other characters, one for each side.
    pub fn fill(self, left: char, right: char, top: char, bottom: char) -> Space<K>
        ensures { result.indent ≡ filled self.indent left right top bottom }
    {
        let old = self.indent;
        Space::from(Sides::new(
            Indent::new(old.left.size, left),
            Indent::new(old.right.size, right),
            Indent::new(old.top.size, top),
            Indent::new(old.bottom.size, bottom),
        ))
    }
}

impl Padding {
    /// Creates a padding of size 0 on all sides.
    pub fn zero() -> Padding
        ensures { result.indent ≡ spaced 0 0 0 0 }
    {
        Padding::new(0, 0, 0, 0)
    }

    /// Returns `Horizontal` if `horizontal` is true, else `Vertical`.
    pub fn expand(horizontal: bool) -> PaddingExpand
        ensures { result ≡ (if horizontal then Horizontal else Vertical) }
    {
        if horizontal {
            PaddingExpand::Horizontal
        } else {
            PaddingExpand::Vertical
        }
    }
}

impl<K: Copy> From<Space<K>> for Sides<Indent> {
    ghost from_gives = { λ space sides. sides ≡ space.indent };

    fn from(space: Space<K>) -> Sides<Indent> {
        space.indent
    }
}

impl<K: Copy> From<Sides<Indent>> for Space<K> {
    ghost from_gives = { λ sides space. space.indent ≡ sides };

    fn from(indent: Sides<Indent>) -> Space<K> {
        let around = PhantomData;
        Space { indent, around }
    }
}

/// A configuration with a space of kind `K`.
pub trait HasSpace<K> {
    // The configuration with another space.
    ghost with_space: { Self → Sides Indent → Self };

    /// Replaces the space. Never fails.
    fn set_space(&mut self, indent: Sides<Indent>) -> Result<(), TableError>
        ensures ok { OnOk result (self.new ≡ with_space self.old indent) }
        ensures err { OnErr result ⊥ };
}

impl HasSpace<AroundTable> for ColoredConfig {
    ghost with_space = { λ c indent. colored (record c.config { margin = indent }) };

    fn set_space(&mut self, indent: Sides<Indent>) -> Result<(), TableError> {
        self.as_mut().set_margin(indent);
        Ok(())
    }
}

impl HasSpace<AroundText> for ColoredConfig {
    ghost with_space = { λ c indent. colored (record c.config { padding = for_all indent }) };

    fn set_space(&mut self, indent: Sides<Indent>) -> Result<(), TableError> {
        self.as_mut().set_padding(Entity::Global, indent)
    }
}

impl HasSpace<AroundTable> for CompactConfig {
    ghost with_space = { λ c indent. record c { margin = indent } };

    fn set_space(&mut self, indent: Sides<Indent>) -> Result<(), TableError> {
        *self = self.set_margin(indent);
        Ok(())
    }
}

impl HasSpace<AroundText> for CompactConfig {
    ghost with_space = { λ c indent. record c { padding = indent } };

    fn set_space(&mut self, indent: Sides<Indent>) -> Result<(), TableError> {
        *self = self.set_padding(indent);
        Ok(())
    }
}

impl HasSpace<AroundTable> for CompactMultilineConfig {
    ghost with_space = { λ c indent. record c { config = record c.config { margin = indent } } };

    fn set_space(&mut self, indent: Sides<Indent>) -> Result<(), TableError> {
        self.set_margin(indent);
        Ok(())
    }
}

impl HasSpace<AroundText> for CompactMultilineConfig {
    ghost with_space = { λ c indent. record c { config = record c.config { padding = indent } } };

    fn set_space(&mut self, indent: Sides<Indent>) -> Result<(), TableError> {
        self.set_padding(indent);
        Ok(())
    }
}

impl<K: Copy, R, C: HasSpace<K>, D> TableOption<R, C, D> for Space<K> {
    ghost changes = { λ s r c d. Becomes (C.with_space c s.indent) r d };

    fn change(self, _: &mut R, cfg: &mut C, _: &mut D) -> Result<(), TableError> {
        cfg.set_space(self.indent)
    }

    fn hint_change(&self) -> Option<Entity> {
        Some(Entity::Global)
    }
}

/// Fails only with `Memory`, and only for a row, a column or a cell. Nothing has changed then.
impl<R> CellOption<R, ColoredConfig> for Padding {
    ghost changes = { λ s r c e r' c'. (r' ≡ r)
        × (c' ≡ colored (record c.config { padding = with_change c.config.padding e s.indent })) };

    ghost fails = { λ s f r c e r' c'. IsPart e × ((f ≡ Memory) × ((r' ≡ r) × (c' ≡ c))) };

    ghost is_undone = { λ s. false };

    fn change(&self, _: &mut R, cfg: &mut ColoredConfig, entity: Entity) -> Result<(), TableError> {
        cfg.as_mut().set_padding(entity, self.indent)
    }

    fn hint_change(&self) -> Option<Entity> {
        Some(Entity::Global)
    }

    fn needs_undo(&self) -> bool {
        false
    }
}
