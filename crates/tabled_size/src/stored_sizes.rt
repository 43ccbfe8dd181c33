//! Which stored sizes each dimension clears when a change may have made them wrong. Only those of a
//! `CompleteDimension` were measured.
ghost use Rattle.std.specs.Prelude.{◌≡◌};
ghost use Rattle.tabled_size.specs.Cleared.{AreCleared};

use crate::complete_dimension::{CompleteDimension, PoolTableDimension};
use crate::const_dimension::{ConstDimension, StaticDimension, ZeroDimension};
use tabled_base::{Entity, StoredSizes};

impl StoredSizes for CompleteDimension {
    ghost clears = { λ hint old new. AreCleared hint old new };

    fn clear_for(&mut self, hint: Option<Entity>) {
        self.reastimate(hint);
    }
}

impl StoredSizes for PoolTableDimension {
    ghost clears = { λ hint old new. new ≡ old };

    fn clear_for(&mut self, _: Option<Entity>) {}
}

impl<const COLUMNS: usize, const ROWS: usize> StoredSizes for ConstDimension<COLUMNS, ROWS> {
    ghost clears = { λ hint old new. new ≡ old };

    fn clear_for(&mut self, _: Option<Entity>) {}
}

impl StoredSizes for StaticDimension {
    ghost clears = { λ hint old new. new ≡ old };

    fn clear_for(&mut self, _: Option<Entity>) {}
}

impl StoredSizes for ZeroDimension {
    ghost clears = { λ hint old new. new ≡ old };

    fn clear_for(&mut self, _: Option<Entity>) {}
}
