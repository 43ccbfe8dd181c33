//! A custom priority, as a user of the library may write one.
ghost use Rattle.std.specs.Prelude.{⊤};

use tabled::settings::peaker::Peaker;

/// A priority that never returns a column.
#[derive(Clone, Copy)]
pub struct Never;

impl Peaker for Never {
    ghost peaks = { λ s values mins answer t. ⊤ };

    ghost shrinks = { λ s old mins by new t. ⊤ };

    ghost grows = { λ s old by new t. ⊤ };

    fn peak(&mut self, _mins: &[usize], _values: &[usize]) -> Option<usize> {
        None
    }

    ghost nothing = { λ s values mins. tt };

    ghost ends = { λ s t values mins by fits named. tt };

    ghost goes_on = { λ s t u values mins new by place fits above named rest. tt };

    ghost grows_nothing = { λ s values. tt };

    ghost growing_ends = { λ s t values by named. tt };

    ghost growing_goes_on = { λ s t u values new by place above named rest. tt };
}
