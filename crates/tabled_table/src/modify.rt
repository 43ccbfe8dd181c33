//! `Modify`: a cell option for a part of a table, as an option of the table.
ghost use Rattle.std.specs.Prelude.{List, length, ℕ, ◌≡◌};
ghost use Rattle.tabled_base.specs.Cells.{columns};
ghost use Rattle.tabled_base.specs.declared.error.TableError.TheVariants.{Range};
ghost use Rattle.tabled_config.specs.declared.colored.ColoredConfig.{ColoredConfig};
ghost use Rattle.tabled_table.specs.Applied.{ChangesEach, StopsModifying};

use crate::applying::change_target;
use tabled_base::{CellOption, Entity, Object, TableError, TableOption, Text, VecRecords};
use tabled_config::ColoredConfig;

/// The cells of a table that a cell option will change.
///
/// ```rust
/// table.with(Modify::new(Columns::first()).with(Alignment::right()))?;
/// ```
#[derive(Clone, Copy, Debug, Drop, PartialEq, Eq)]
pub struct Modify<T> {
    /// Names the cells.
    pub target: T,
}

impl<T> Modify<T> {
    /// Names the cells that an option will change.
    pub fn new(target: T) -> Modify<T>
        ensures { result ≡ record { target = target } }
    {
        Modify { target }
    }

    /// Returns a table option that changes them by a cell option.
    pub fn with<O>(self, option: O) -> ModifyBy<T, O>
        ensures { result ≡ record { target = self.target; option = option } }
    {
        ModifyBy {
            target: self.target,
            option,
        }
    }
}

/// A cell option for the cells that a target names. As a table option it does what `Table::modify`
/// does.
#[derive(Clone, Copy, Debug, Drop, PartialEq, Eq)]
pub struct ModifyBy<T, O> {
    /// Names the cells.
    pub target: T,
    /// What changes them.
    pub option: O,
}

/// Changes each part that the target names, in order. If the option fails at a part, the parts
/// before it stay changed, and the configuration is as it was.
impl<
    D,
    T: Object<VecRecords<Text<String>>> + Drop,
    O: CellOption<VecRecords<Text<String>>, ColoredConfig> + Drop,
> TableOption<VecRecords<Text<String>>, ColoredConfig, D> for ModifyBy<T, O> {
    ghost changes = { λ s r c d r' c' d'. ChangesEach (O.changes s.option)
        (T.picks s.target (length r) (columns r)) r c r' c' × (d' ≡ d) };

    ghost fails = { λ s e r c d r' c' d'. StopsModifying (record {
      is_undone = O.is_undone s.option;
      changes = O.changes s.option;
      fails = O.fails s.option;
      out_of_range = O.out_of_range s.option;
      entities = T.picks s.target (length r) (columns r);
    }) e r c r' c' × (d' ≡ d) };

    ghost out_of_range = { λ s r c d. (r' : List (List (List ℕ))) × (c' : ColoredConfig)
        × StopsModifying (record {
          is_undone = O.is_undone s.option;
          changes = O.changes s.option;
          fails = O.fails s.option;
          out_of_range = O.out_of_range s.option;
          entities = T.picks s.target (length r) (columns r);
        }) Range r c r' c' };

    ghost hint = { λ s. O.hint s.option };

    fn change(
        self,
        records: &mut VecRecords<Text<String>>,
        cfg: &mut ColoredConfig,
        _: &mut D,
    ) -> Result<(), TableError> {
        change_target(records, cfg, &self.target, &self.option)
    }

    fn hint_change(&self) -> Option<Entity> {
        self.option.hint_change()
    }
}
