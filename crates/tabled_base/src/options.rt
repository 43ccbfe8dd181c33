//! `TableOption` and `CellOption`, which change tables and cells, and the sizes that a table
//! stores.
ghost use Rattle.std.specs.Prelude.{◌≡◌, ◌⊎◌, Bool, IfErr, IfOk, OnErr, OnOk, Option, Some, false};
ghost use Rattle.std.specs.Prelude.{true};
ghost use Rattle.tabled_base.specs.declared.error.TableError.{TableError};
ghost use Rattle.tabled_base.specs.declared.error.TableError.TheVariants.{Memory, Range};
ghost use Rattle.tabled_base.specs.declared.position.Entity.{Entity};
ghost use Rattle.tabled_base.specs.declared.position.Entity.TheVariants.{Global};

use crate::error::TableError;
use crate::position::Entity;

/// An option that changes a table: its records, its configuration and its stored sizes.
pub trait TableOption<R, C, D> {
    // Relates the option and the three parts before the change to what the parts may be after it.
    ghost changes: { Self → R → C → D → R → C → D → Type 0 };

    // The same relation for a change that fails with an error. By default no change fails.
    ghost fails: { Self → TableError → R → C → D → R → C → D
        → Type 0 } = { λ _ _ _ _ _ _ _ _. ⊥ };

    // Holds if a sum or product of the change exceeds `usize::MAX`. By default none does.
    ghost out_of_range: { Self → R → C → D → Type 0 } = { λ _ _ _ _. ⊥ };

    // What a caller may rely on after a change, of the same parts. By default nothing.
    ghost promises: { Self → R → C → D → R → C → D → Type 0 } = { λ _ _ _ _ _ _ _. Unit {0} };

    // The entity whose sizes must be measured again after the change. By default the entire table.
    ghost hint: { Self → Option Entity } = { λ _. Some Global };

    /// Changes the table. Fails with `Memory` if an allocation fails, or with `Range` if a sum or
    /// product exceeds `usize::MAX`.
    fn change(self, records: &mut R, cfg: &mut C, dims: &mut D) -> Result<(), TableError>
        ensures ok { OnOk result (changes self
            records.old cfg.old dims.old records.new cfg.new dims.new) }
        ensures promised { OnOk result (promises self
            records.old cfg.old dims.old records.new cfg.new dims.new) }
        ensures err { IfErr result (λ e. fails self e
            records.old cfg.old dims.old records.new cfg.new dims.new) }
        ensures only { IfErr result (λ e. (e ≡ Memory) ⊎ (e ≡ Range)) }
        ensures range { IfErr result (λ e. e ≡ Range → out_of_range self
            records.old cfg.old dims.old) };

    /// Returns the entity whose sizes must be measured again after the change, or `None`.
    fn hint_change(&self) -> Option<Entity>
        ensures { result ≡ hint self.now };
}

/// An option that changes cells of a table, or settings for them.
pub trait CellOption<R, C> {
    // Relates the option, the records, the configuration and an entity before the change to what
    // records and configuration may be after it.
    ghost changes: { Self → R → C → Entity → R → C → Type 0 };

    // The same relation for a change that fails with an error. By default no change fails.
    ghost fails: { Self → TableError → R → C → Entity → R → C → Type 0 } = { λ _ _ _ _ _ _ _. ⊥ };

    // Holds if a sum or product of the change exceeds `usize::MAX`. By default none does.
    ghost out_of_range: { Self → R → C → Entity → Type 0 } = { λ _ _ _ _. ⊥ };

    // The entity whose sizes must be measured again after the change. By default the entire table.
    ghost hint: { Self → Option Entity } = { λ _. Some Global };

    // Whether a table undoes a failed change. If it doesn't, the change leaves the configuration as
    // it was. By default it does.
    ghost is_undone: { Self → Bool } = { λ _. true };

    /// Changes the cells of an entity. Fails with `Memory` if an allocation fails, or with `Range`
    /// if a sum or product exceeds `usize::MAX`.
    fn change(&self, records: &mut R, cfg: &mut C, entity: Entity) -> Result<(), TableError>
        ensures ok { OnOk result (changes self.now
            records.old cfg.old entity records.new cfg.new) }
        ensures err { IfErr result (λ e. fails self.now e
            records.old cfg.old entity records.new cfg.new) }
        ensures only { IfErr result (λ e. (e ≡ Memory) ⊎ (e ≡ Range)) }
        ensures range { IfErr result (λ e. e ≡ Range
            → out_of_range self.now records.old cfg.old entity) }
        ensures kept { OnErr result (is_undone self.now ≡ false → cfg.new ≡ cfg.old) };

    /// Returns the entity whose sizes must be measured again after the change, or `None`.
    fn hint_change(&self) -> Option<Entity>
        ensures { result ≡ hint self.now };

    /// Whether a `Table` undoes a change that failed: it then copies the configuration and the
    /// cells of the entity before the change, and restores them after an error. `true` is always
    /// right. An option may return `false` if it leaves the configuration as it was when it fails.
    /// The cells of that entity then stay as the failed change left them.
    fn needs_undo(&self) -> bool
        ensures { result ≡ is_undone self.now };
}

/// The configuration of a table, as its options see it.
pub trait Configuration {
    // Holds of a configuration whose copy needs an allocation. By default all do.
    ghost needs_memory: { Self → Type 0 } = { λ _. Unit {0} };

    /// Returns a copy. Fails only with `Memory`, if an allocation fails.
    fn copied(&self) -> Result<Self, TableError>
        ensures ok { IfOk result (λ copy. copy ≡ self.now) }
        ensures needed { OnErr result (needs_memory self.now) }
        ensures only { IfErr result (λ e. e ≡ Memory) };
}

/// The sizes of a table, as its options see them.
pub trait StoredSizes {
    // Relates a hint and the sizes to those that are left when what it names is cleared.
    ghost clears: { Option Entity → Self → Self → Type 0 };

    /// Clears the stored sizes of an entity, which must be measured again. Sizes that were not
    /// measured stay.
    fn clear_for(&mut self, hint: Option<Entity>)
        ensures { clears hint self.old self.new };
}
