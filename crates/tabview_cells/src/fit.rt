//! The order in which columns give way: none below its floor.
ghost use Rattle.std.specs.Prelude.{◌≡◌, ◌↔◌, ◌<◌, IsTrue, MatchOption, length, max, ⊤};
ghost use Rattle.std.proofs.Common.{◌∙◌, refl, subst};
ghost use Rattle.tabled_priority.specs.Permitted.{lowered};
ghost use Rattle.tabview_cells.specs.Fitted.{CanGive, GivesToFloors, IsWidest, NoneGives, floor_at};
ghost use Rattle.tabview_cells.specs.Laws.{GivesToFloors-done, GivesToFloors-none};
ghost use Rattle.tabview_cells.specs.Laws.{GivesToFloors-step};
ghost use Rattle.tabview_cells.specs.Words.{longest_in_line, longest_word};

use tabled_priority::Peaker;
use tabled_text::{line_width, lines};

/// The widest column gives first, and none goes below its floor, its minimum width. A column whose
/// floor is its width doesn't give. Columns without a floor have 0.
///
/// ```rust
/// // The second column keeps its 10 columns.
/// let priority = AboveFloors { floors: &[0, 10] };
/// ```
#[derive(Clone, Copy, Debug)]
pub struct AboveFloors<'a> {
    /// The floor of each column, with its padding.
    pub floors: &'a [usize],
}

impl AboveFloors<'_> {
    /// Returns the greater of a column's floor and its minimum.
    fn floor_at(&self, mins: &[usize], column: usize) -> usize
        ensures { result ≡ floor_at self.now.floors.now mins.now column }
    {
        let own = self.floors.get(column).copied().unwrap_or(0);
        mins.get(column).copied().unwrap_or(0).max(own)
    }

    /// Returns the widest column above its floor, of equal ones the last.
    fn widest(&self, mins: &[usize], values: &[usize]) -> Option<usize>
        ensures { MatchOption result (NoneGives self.now.floors.now values.now mins.now)
            (IsWidest self.now.floors.now values.now mins.now) }
    {
        let mut best = None;
        let mut most: usize = 0;
        for column in 0..values.len() {
            if values[column] > self.floor_at(mins, column) && values[column] >= most {
                best = Some(column);
                most = values[column];
            }
        }
        best
    }
}

impl Peaker for AboveFloors<'_> {
    ghost peaks = { λ s values mins answer t. MatchOption answer
        (NoneGives s.floors.now values mins) (IsWidest s.floors.now values mins) × (t ≡ s) };

    ghost shrinks = { λ s old mins by new t.
        GivesToFloors s.floors.now old mins by new × (t ≡ s) };

    // No table is widened.
    ghost grows = { λ s old by new t. ⊤ };

    fn peak(&mut self, mins: &[usize], values: &[usize]) -> Option<usize> {
        self.widest(mins, values)
    }

    ghost nothing = { λ s values mins. (GivesToFloors-none s.floors.now values mins, refl) };

    ghost ends = { λ s t values mins by fits named.
        (GivesToFloors-done s.floors.now values mins by named.0, named.1) };

    ghost goes_on = { λ s t u values mins new by i fits above named rest. (
      GivesToFloors-step s.floors.now values mins i by new named.0
          (subst (λ k. GivesToFloors k.floors.now (lowered values i) mins by new)
          named.1 rest.0),
      rest.1 ∙ named.1,
    ) };

    ghost grows_nothing = { λ s values. tt };

    ghost growing_ends = { λ s t values by named. tt };

    ghost growing_goes_on = { λ s t u values new by i above named rest. tt };
}

/// Returns the columns of the widest word of a text. Spaces and line feeds end words.
pub fn longest_word(text: &str) -> usize
    ensures { result ≡ longest_word text.now }
{
    let mut most: usize = 0;
    for line in lines(text) {
        most = most.max(longest_in_line(line));
    }
    most
}

/// Returns the columns of the widest word of a line. Spaces end words.
fn longest_in_line(line: &str) -> usize
    ensures { result ≡ longest_in_line line.now }
{
    let mut most: usize = 0;
    for word in line.split(' ') {
        most = most.max(line_width(word));
    }
    most
}
