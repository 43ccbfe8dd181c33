//! A priority of your own, about which nothing is promised: one column gives first.
ghost use Rattle.std.specs.Prelude.{⊤};

use std::alloc::Global;
use tabled::settings::Width;
use tabled::settings::peaker::{Peaker, Priority};
use tabled::{Table, TableError};

/// A column gives until nothing is left of it, and then the others from the left.
#[derive(Clone, Copy)]
struct ColumnFirst(usize);

impl Peaker for ColumnFirst {
    ghost peaks = { λ _ _ _ _ _. ⊤ };

    ghost shrinks = { λ _ _ _ _ _ _. ⊤ };

    ghost grows = { λ _ _ _ _ _. ⊤ };

    fn peak(&mut self, mins: &[usize], sizes: &[usize]) -> Option<usize> {
        let least = mins.get(self.0).copied().unwrap_or(0);
        match sizes.get(self.0) {
            Some(size) if *size > least => Some(self.0),
            _ => Priority::left().peak(mins, sizes),
        }
    }

    ghost nothing = { λ _ _ _. tt };

    ghost ends = { λ _ _ _ _ _ _ _. tt };

    ghost goes_on = { λ _ _ _ _ _ _ _ _ _ _ _ _. tt };

    ghost grows_nothing = { λ _ _. tt };

    ghost growing_ends = { λ _ _ _ _ _. tt };

    ghost growing_goes_on = { λ _ _ _ _ _ _ _ _ _ _. tt };
}

/// A table whose second column gives first.
pub fn narrowed(alloc: Global) -> Result<String, TableError> {
    let rows = [
        ("Tab", "goes to the next field"),
        ("Esc", "leaves the prompt"),
    ];
    let mut table = Table::nohead(alloc, rows)?;
    table.with(Width::truncate(18).priority(ColumnFirst(1)))?;
    table.to_text()
}
