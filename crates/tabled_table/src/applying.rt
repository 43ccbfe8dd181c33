//! Applies options to a whole table, or to some of its cells.
ghost use Rattle.std.specs.Prelude.{◌≡◌, ◌⊎◌, ◌<◌, IfErr, IfOk, None, OnErr, OnOk, false, length};
ghost use Rattle.std.specs.Borrow.{RestsIfErr, sem};
ghost use Rattle.tabled_base.specs.Cells.{columns};
ghost use Rattle.tabled_base.specs.declared.error.TableError.TheVariants.{Memory, Range};
ghost use Rattle.tabled_table.specs.Applied.{ChangesEach, FailsAt, FailsBy, IsApplied, IsModified};
ghost use Rattle.tabled_table.specs.Applied.{CanFail, StopsAtPart, ModifyingFails, StopsModifying};
ghost use Rattle.tabled_table.specs.Applied.{kept_config, named_in};
ghost use Rattle.tabled_table.specs.declared.table.Table.{Table};

use crate::table::Table;
use tabled_base::{CellOption, Entity, Object, TableError, TableOption, Text, VecRecords};
use tabled_config::ColoredConfig;
use tabled_set::{put_back, save_cells};
use tabled_size::CompleteDimension;

impl Table {
    ghost use Rattle.tabled_table.specs.contracts.table.Table.{the_row};

    /// Applies an option, and then clears the stored sizes that its hint names. Use it instead of
    /// `with` if you need the table after an error: it is then as the option left it, with no sizes
    /// stored.
    ///
    /// Fails with `Memory`, and with `Range` if a sum or product of the option exceeds
    /// `usize::MAX`.
    pub fn apply<O: TableOption<VecRecords<Text<String>>, ColoredConfig, CompleteDimension>>(
        &mut self,
        option: O,
    ) -> Result<(), TableError>
        ensures ok { OnOk result (IsApplied (O.changes option) (O.hint option) self.old self.new) }
        ensures promised { OnOk result
            (IsApplied (O.promises option) (O.hint option) self.old self.new) }
        ensures err { IfErr result (λ e. FailsBy (O.fails option e) self.old self.new) }
        ensures only { IfErr result (λ e. (e ≡ Memory) ⊎ (e ≡ Range)) }
        ensures range { IfErr result (λ e. e ≡ Range
            → O.out_of_range option self.old.records self.old.config self.old.dimension) }
    {
        let hint = option.hint_change();
        match option.change(&mut self.records, &mut self.config, &mut self.dimension) {
            Ok(()) => {
                self.dimension.reastimate(hint);
                Ok(())
            }
            Err(e) => {
                self.dimension.clear();
                Err(e)
            }
        }
    }

    /// Applies an option, clears the stored sizes that its hint names, and returns the table.
    ///
    /// Fails with `Memory`, and with `Range` if a sum or product of the option exceeds
    /// `usize::MAX`. After an error the table is as the option left it, with no sizes stored.
    pub fn with<O: TableOption<VecRecords<Text<String>>, ColoredConfig, CompleteDimension>>(
        &mut self,
        option: O,
    ) -> Result<&mut Self, TableError>
        ensures* rests { sem 𝓛 (RestsIfErr the_row self.entry (λ table. table.ghost_name) result
            (λ last. IfErr result (λ e. FailsBy (O.fails option e) self.old last))) }
        ensures same_reference { IfOk result (λ table. table.ghost_name ≡ self.entry.ghost_name) }
        ensures ok { IfOk result
            (λ table. IsApplied (O.changes option) (O.hint option) self.old table.now) }
        ensures promised { IfOk result
            (λ table. IsApplied (O.promises option) (O.hint option) self.old table.now) }
        ensures only { IfErr result (λ e. (e ≡ Memory) ⊎ (e ≡ Range)) }
        ensures range { IfErr result (λ e. e ≡ Range
            → O.out_of_range option self.old.records self.old.config self.old.dimension) }
    {
        match self.apply(option) {
            Ok(()) => Ok(self),
            Err(error) => Err(error),
        }
    }

    /// Applies a cell option to each part that a target names, in order, and then clears the stored
    /// sizes that the option's hint names. Use it instead of `modify` if you need the table after
    /// an error.
    ///
    /// If the option fails at a part, the parts before it stay changed, the configuration is as it
    /// was, and no sizes are stored. The failed part is as the option left it, or unchanged if the
    /// option needs to be undone, as `Settings` do.
    ///
    /// Fails with `Memory`, and with `Range` if a sum or product of the option exceeds
    /// `usize::MAX`. If the target names a part, `Memory` can also come before the first change;
    /// then cells and configuration are unchanged.
    pub fn apply_to<
        T: Object<VecRecords<Text<String>>> + Drop,
        O: CellOption<VecRecords<Text<String>>, ColoredConfig>,
    >(&mut self, target: T, option: &O) -> Result<(), TableError>
        ensures ok { OnOk result (IsModified (O.changes option.now)
            (named_in self.old (T.picks target)) (O.hint option.now) self.old self.new) }
        ensures err { IfErr result (λ e. ModifyingFails (record {
          is_undone = O.is_undone option.now;
          changes = O.changes option.now;
          fails = O.fails option.now;
          out_of_range = O.out_of_range option.now;
          entities = named_in self.old (T.picks target);
        }) e self.old self.new) }
        ensures only { IfErr result (λ e. (e ≡ Memory) ⊎ (e ≡ Range)) }
    {
        match change_target(&mut self.records, &mut self.config, &target, option) {
            Ok(()) => {
                self.dimension.reastimate(option.hint_change());
                Ok(())
            }
            Err(e) => {
                self.dimension.clear();
                Err(e)
            }
        }
    }

    /// Applies a cell option to each part that a target names, in order, clears the stored sizes
    /// that the option's hint names, and returns the table.
    ///
    /// Fails with `Memory` or `Range`, as `apply_to` does. Then the parts before the failed one are
    /// changed, the configuration is as it was, and no sizes are stored.
    pub fn modify<
        T: Object<VecRecords<Text<String>>> + Drop,
        O: CellOption<VecRecords<Text<String>>, ColoredConfig> + Drop,
    >(&mut self, target: T, option: O) -> Result<&mut Self, TableError>
        ensures* rests { sem 𝓛 (RestsIfErr the_row self.entry (λ table. table.ghost_name) result
            (λ last. IfErr result (λ e. ModifyingFails (record {
              is_undone = O.is_undone option;
              changes = O.changes option;
              fails = O.fails option;
              out_of_range = O.out_of_range option;
              entities = named_in self.old (T.picks target);
            }) e self.old last))) }
        ensures same_reference { IfOk result (λ table. table.ghost_name ≡ self.entry.ghost_name) }
        ensures ok { IfOk result (λ table. IsModified (O.changes option)
            (named_in self.old (T.picks target)) (O.hint option) self.old table.now) }
        ensures cause { IfErr result (λ e. CanFail (record {
          is_undone = O.is_undone option;
          changes = O.changes option;
          fails = O.fails option;
          out_of_range = O.out_of_range option;
          entities = named_in self.old (T.picks target);
        }) self.old e) }
        ensures only { IfErr result (λ e. (e ≡ Memory) ⊎ (e ≡ Range)) }
    {
        match self.apply_own(target, option) {
            Ok(()) => Ok(self),
            Err(error) => Err(error),
        }
    }

    /// Does what `apply_to` does, and drops the option.
    fn apply_own<
        T: Object<VecRecords<Text<String>>> + Drop,
        O: CellOption<VecRecords<Text<String>>, ColoredConfig> + Drop,
    >(&mut self, target: T, option: O) -> Result<(), TableError>
        ensures ok { OnOk result (IsModified (O.changes option)
            (named_in self.old (T.picks target)) (O.hint option) self.old self.new) }
        ensures err { IfErr result (λ e. ModifyingFails (record {
          is_undone = O.is_undone option;
          changes = O.changes option;
          fails = O.fails option;
          out_of_range = O.out_of_range option;
          entities = named_in self.old (T.picks target);
        }) e self.old self.new) }
        ensures only { IfErr result (λ e. (e ≡ Memory) ⊎ (e ≡ Range)) }
    {
        self.apply_to(target, &option)
    }
}

/// Returns a copy of the configuration if it may have to be restored: if there are several parts,
/// or one at which the option has to be undone. Fails only if an allocation fails (`Memory`).
fn copy_config(
    entities: &[Entity],
    is_undone: bool,
    config: &ColoredConfig,
) -> Result<Option<ColoredConfig>, TableError>
    ensures copied { IfOk result (λ before. before ≡ kept_config is_undone entities.now config.now) }
    ensures some { OnErr result (0 < length entities.now) }
    ensures only { IfErr result (λ e. e ≡ Memory) }
{
    if entities.len() > 1 || (is_undone && entities.len() == 1) {
        Ok(Some(config.clone()?))
    } else {
        Ok(None)
    }
}

/// Applies an option to each part that a target names, in order. If it fails at one, the parts
/// before it stay changed, and the configuration is as it was.
pub(crate) fn change_target<
    T: Object<VecRecords<Text<String>>>,
    O: CellOption<VecRecords<Text<String>>, ColoredConfig>,
>(
    records: &mut VecRecords<Text<String>>,
    config: &mut ColoredConfig,
    target: &T,
    option: &O,
) -> Result<(), TableError>
    ensures ok { OnOk result (ChangesEach (O.changes option.now)
        (T.picks target.now (length records.old) (columns records.old))
        records.old config.old records.new config.new) }
    ensures err { IfErr result (λ e. StopsModifying (record {
      is_undone = O.is_undone option.now;
      changes = O.changes option.now;
      fails = O.fails option.now;
      out_of_range = O.out_of_range option.now;
      entities = T.picks target.now (length records.old) (columns records.old);
    }) e records.old config.old records.new config.new) }
    ensures only { IfErr result (λ e. (e ≡ Memory) ⊎ (e ≡ Range)) }
{
    let entities = target.cells(records.allocator(), records)?;
    let before = copy_config(entities.as_slice(), option.needs_undo(), config)?;
    match change_parts(records, config, entities.as_slice(), option) {
        Ok(()) => Ok(()),
        Err(e) => match before {
            Some(before) => {
                *config = before;
                Err(e)
            }
            None => Err(e),
        },
    }
}

/// Applies an option to some parts in order, up to the first at which it fails. The parts before
/// that one stay changed.
fn change_parts<O: CellOption<VecRecords<Text<String>>, ColoredConfig>>(
    records: &mut VecRecords<Text<String>>,
    config: &mut ColoredConfig,
    entities: &[Entity],
    option: &O,
) -> Result<(), TableError>
    ensures ok { OnOk result (ChangesEach (O.changes option.now) entities.now
        records.old config.old records.new config.new) }
    ensures err { IfErr result (λ e. StopsAtPart (record {
      is_undone = O.is_undone option.now;
      changes = O.changes option.now;
      fails = O.fails option.now;
      out_of_range = O.out_of_range option.now;
      entities = entities.now;
    }) e records.old config.old records.new config.new) }
    ensures kept { OnErr result (kept_config (O.is_undone option.now) entities.now config.old ≡ None
        → config.new ≡ config.old) }
    ensures only { IfErr result (λ e. (e ≡ Memory) ⊎ (e ≡ Range)) }
{
    for entity in entities {
        change_part(records, config, *entity, option)?;
    }
    Ok(())
}

/// Applies an option to a part. If it fails and has to be undone, the cells of the part are put
/// back.
fn change_part<O: CellOption<VecRecords<Text<String>>, ColoredConfig>>(
    records: &mut VecRecords<Text<String>>,
    config: &mut ColoredConfig,
    entity: Entity,
    option: &O,
) -> Result<(), TableError>
    ensures ok { OnOk result (O.changes option.now records.old config.old entity
        records.new config.new) }
    ensures err { IfErr result (λ e. FailsAt (O.is_undone option.now) (O.fails option.now) e
        records.old config.old entity records.new config.new) }
    ensures kept { OnErr result (O.is_undone option.now ≡ false → config.new ≡ config.old) }
    ensures only { IfErr result (λ e. (e ≡ Memory) ⊎ (e ≡ Range)) }
    ensures range { IfErr result (λ e. e ≡ Range
        → O.out_of_range option.now records.old config.old entity) }
{
    if !option.needs_undo() {
        return option.change(records, config, entity);
    }
    let saved = save_cells(records, entity)?;
    match option.change(records, config, entity) {
        Ok(()) => Ok(()),
        Err(e) => {
            put_back(records, saved);
            Err(e)
        }
    }
}
