//! Tests custom options and measurements.
ghost use Rattle.std.specs.Prelude.{◌≡◌, ◌≤◌, ◌+◌, ◌^◌, length};
ghost use Rattle.tabled_base.specs.declared.error.TableError.TheVariants.{Range};

use crate::shown::{ROWS, records_of, shown};
use std::alloc::Global;
use std::test::Fail;
use tabled_base::{
    CellOption, Entity, ExactRecords, PeekableRecords, TableError, TableOption, Text, VecRecords,
};
use tabled_config::{ColoredConfig, SpannedConfig};
use tabled_set::{Measurement, Width, Wrap};

// The configuration is the number of times that the option was applied.
#[derive(Drop)]
struct Counted;

impl<R> CellOption<R, usize> for Counted {
    ghost changes = { λ _ r c _ r2 c2. (r2 ≡ r) × (c2 ≡ c + 1) };

    ghost fails = { λ _ e r c _ r2 c2. (e ≡ Range) × (r2 ≡ r) × (c2 ≡ c) };

    ghost out_of_range = { λ _ _ c _. 2 ^ 64 ≤ c + 1 };

    fn change(&self, _: &mut R, cfg: &mut usize, _: Entity) -> Result<(), TableError> {
        let Some(more) = cfg.checked_add(1) else {
            return Err(TableError::Range);
        };
        *cfg = more;
        Ok(())
    }

    fn hint_change(&self) -> Option<Entity> {
        Some(Entity::Global)
    }

    fn needs_undo(&self) -> bool {
        true
    }
}

impl<R, D> TableOption<R, usize, D> for Counted {
    ghost changes = { λ _ r c d r2 c2 d2. (r2 ≡ r) × (c2 ≡ c + 1) × (d2 ≡ d) };

    ghost fails = { λ _ e r c d r2 c2 d2. (e ≡ Range) × (r2 ≡ r) × (c2 ≡ c) × (d2 ≡ d) };

    ghost out_of_range = { λ _ _ c _. 2 ^ 64 ≤ c + 1 };

    fn change(self, records: &mut R, cfg: &mut usize, _: &mut D) -> Result<(), TableError> {
        CellOption::change(&self, records, cfg, Entity::Global)
    }

    fn hint_change(&self) -> Option<Entity> {
        Some(Entity::Global)
    }
}

#[test]
fn an_option_counts_up_to_the_range(rt: HostRuntime) {
    let mut count = usize::MAX - 1;
    let first = TableOption::change(Counted, &mut (), &mut count, &mut ());
    let second = TableOption::change(Counted, &mut (), &mut count, &mut ());
    assert_eq!(rt; (first, second), (Ok(()), Err(TableError::Range)));
}

// Measures the number of rows.
#[derive(Drop)]
struct AsRows;

impl Measurement<Width> for AsRows {
    ghost measures = { λ s cells config. length cells };

    fn measure<R: PeekableRecords>(
        &self,
        records: &R,
        _cfg: &SpannedConfig,
    ) -> Result<usize, TableError> {
        Ok(records.count_rows())
    }
}

// Always fails with `Range`.
#[derive(Drop)]
struct Endless;

impl Measurement<Width> for Endless {
    ghost measures = { λ s cells config. 0 };

    ghost out_of_range = { λ s cells config. Unit {0} };

    fn measure<R: PeekableRecords>(
        &self,
        _records: &R,
        _cfg: &SpannedConfig,
    ) -> Result<usize, TableError> {
        Err(TableError::Range)
    }
}

// Returns the result of an option on the second row, and the cells afterwards.
fn change_row<O: CellOption<VecRecords<Text<String>>, ColoredConfig>>(
    alloc: Global,
    option: &O,
) -> Result<(Result<(), TableError>, String), TableError> {
    let mut records = records_of(alloc, ROWS)?;
    let mut config = ColoredConfig::new(SpannedConfig::new(alloc));
    let outcome = option.change(&mut records, &mut config, Entity::Row(1));
    Ok((outcome, shown(alloc, &records)?))
}

#[test]
fn a_measure_reads_the_records(rt: HostRuntime) -> Result<(), Fail> {
    let (outcome, left) = change_row(rt.alloc(), &Wrap::new(AsRows))?;
    assert!(rt; outcome == Ok(()) && left.as_str() == "2x2 [abc][de] [fg\nh][ij\nk]");
    Ok(())
}

#[test]
fn a_failed_measure_leaves_the_cells(rt: HostRuntime) -> Result<(), Fail> {
    let (outcome, left) = change_row(rt.alloc(), &Width::truncate(Endless))?;
    assert!(rt; outcome == Err(TableError::Range));
    assert!(rt; left.as_str() == "2x2 [abc][de] [fgh][ijk]");
    Ok(())
}
