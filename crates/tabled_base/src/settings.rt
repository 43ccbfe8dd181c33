//! `Settings`: two options in turn.
ghost use Rattle.std.specs.Prelude.{◌≡◌, ◌⊎◌, IfErr, OnOk};
ghost use Rattle.tabled_base.specs.Settings.{Both, CellsHoldInTurn, CellsInTurn, EitherCellsInTurn};
ghost use Rattle.tabled_base.specs.Settings.{EitherInTurn, FailsInTurn, HoldsInTurn, InTurn, both};
ghost use Rattle.tabled_base.specs.declared.error.TableError.TheVariants.{Memory, Range};

use crate::error::TableError;
use crate::options::{CellOption, Configuration, StoredSizes, TableOption};
use crate::position::Entity;

/// Two options, which change a table, or cells of it, in turn. A table changes as by two calls of
/// `with`: behind each option the stored sizes that its hint names are cleared. If one of them
/// fails, the configuration is as it was before both.
///
/// ```rust
/// table.with(Settings::new(Style::modern(), Padding::zero()).with(Width::wrap(40)))?;
/// ```
#[derive(Clone, Copy, Debug, Drop, PartialEq, Eq)]
pub struct Settings<A, B> {
    /// What changes the table first.
    pub first: A,
    /// What changes it then.
    pub second: B,
}

impl<A, B> Settings<A, B> {
    /// Makes an option of two.
    pub fn new(first: A, second: B) -> Settings<A, B>
        ensures { result ≡ record { first = first; second = second } }
    {
        Settings { first, second }
    }

    /// Adds an option behind these.
    pub fn with<C>(self, next: C) -> Settings<Settings<A, B>, C>
        ensures { result ≡ record { first = self; second = next } }
    {
        Settings::new(self, next)
    }
}

/// Returns the part of a table that two options ask to be measured again.
fn both(first: Option<Entity>, second: Option<Entity>) -> Option<Entity>
    ensures { result ≡ both first second }
{
    match (first, second) {
        (None, second) => second,
        (first, None) => first,
        _ => Some(Entity::Global),
    }
}

/// Copies the configuration first, and fails if that fails, or where the first option fails, or the
/// second one behind it. Then the configuration is as it was, and the records are as the options
/// left them.
impl<
    R,
    C: Configuration + Drop,
    D: StoredSizes,
    A: TableOption<R, C, D> + Drop,
    B: TableOption<R, C, D> + Drop,
> TableOption<R, C, D> for Settings<A, B> {
    ghost changes = { λ s. InTurn (A.changes s.first) (D.clears (A.hint s.first))
        (B.changes s.second) };

    ghost fails = { λ s e. FailsInTurn C.needs_memory e (A.changes s.first)
        (D.clears (A.hint s.first)) (A.fails s.first e) (B.fails s.second e) };

    ghost out_of_range = { λ s. HoldsInTurn (A.changes s.first) (D.clears (A.hint s.first))
        (A.out_of_range s.first) (B.out_of_range s.second) };

    ghost promises = { λ s. InTurn (Both (A.changes s.first) (A.promises s.first))
        (D.clears (A.hint s.first)) (B.promises s.second) };

    ghost hint = { λ s. B.hint s.second };

    fn change(self, records: &mut R, cfg: &mut C, dims: &mut D) -> Result<(), TableError> {
        let before = cfg.copied()?;
        match self.change_in_turn(records, cfg, dims) {
            Ok(()) => Ok(()),
            Err(e) => {
                *cfg = before;
                Err(e)
            }
        }
    }

    fn hint_change(&self) -> Option<Entity> {
        self.second.hint_change()
    }
}

impl<A, B> Settings<A, B> {
    /// Changes a table by the first option, and then by the second one.
    fn change_in_turn<R, C, D: StoredSizes>(
        self,
        records: &mut R,
        cfg: &mut C,
        dims: &mut D,
    ) -> Result<(), TableError>
    where
        A: TableOption<R, C, D> + Drop,
        B: TableOption<R, C, D> + Drop,
        ensures ok { OnOk result (InTurn (A.changes self.first) (D.clears (A.hint self.first))
            (B.changes self.second) records.old cfg.old dims.old records.new cfg.new dims.new) }
        ensures promised { OnOk result (InTurn (Both (A.changes self.first) (A.promises self.first))
            (D.clears (A.hint self.first)) (B.promises self.second)
            records.old cfg.old dims.old records.new cfg.new dims.new) }
        ensures err { IfErr result (λ e. EitherInTurn (A.changes self.first)
            (D.clears (A.hint self.first)) (A.fails self.first e) (B.fails self.second e)
            records.old cfg.old dims.old records.new cfg.new dims.new) }
        ensures only { IfErr result (λ e. (e ≡ Memory) ⊎ (e ≡ Range)) }
        ensures range { IfErr result (λ e. e ≡ Range → HoldsInTurn (A.changes self.first)
            (D.clears (A.hint self.first)) (A.out_of_range self.first)
            (B.out_of_range self.second) records.old cfg.old dims.old) }
    {
        let Settings { first, second } = self;
        let hint = first.hint_change();
        first.change(records, cfg, dims)?;
        dims.clear_for(hint);
        second.change(records, cfg, dims)
    }
}

/// Fails where the first option fails, or the second one behind it.
impl<R, C, A: CellOption<R, C>, B: CellOption<R, C>> CellOption<R, C> for Settings<A, B> {
    ghost changes = { λ s. CellsInTurn (A.changes s.first) (B.changes s.second) };

    ghost fails = { λ s e. EitherCellsInTurn (A.changes s.first) (A.fails s.first e)
        (B.fails s.second e) };

    ghost out_of_range = { λ s. CellsHoldInTurn (A.changes s.first) (A.out_of_range s.first)
        (B.out_of_range s.second) };

    ghost hint = { λ s. both (A.hint s.first) (B.hint s.second) };

    fn change(&self, records: &mut R, cfg: &mut C, entity: Entity) -> Result<(), TableError> {
        self.first.change(records, cfg, entity)?;
        self.second.change(records, cfg, entity)
    }

    fn hint_change(&self) -> Option<Entity> {
        both(self.first.hint_change(), self.second.hint_change())
    }

    fn needs_undo(&self) -> bool {
        true
    }
}
