//! `Resize`, the type of the options that change widths and heights: their transforms of one text,
//! the cells that they are for, and the change of one, in place if possible.
ghost use Rattle.std.specs.Prelude.{◌≡◌, ℕ, Option, Some, true, IfErr, IfNone, IfSome, List};
ghost use Rattle.std.specs.Prelude.{IfOk, OnErr, OnOk, length, string_bytes, false};
ghost use Rattle.std.specs.Str.{IsCharBoundary};
ghost use Rattle.tabled_set.specs.Common.{Cell, cell_at, covers, IsInside, lines_of, Memory};
ghost use Rattle.tabled_set.specs.Common.{text_columns};
ghost use Rattle.tabled_base.specs.ShortOr.{FitsBehind};
ghost use Rattle.tabled_set.specs.CellChanges.{takes_size, AreChanged, CellFilter};
ghost use Rattle.tabled_set.specs.CellChanges.{for_content_size, needs, ChangesEntity, StopsEntity};
ghost use Rattle.tabled_set.specs.CellChanges.{if_taken};
ghost use Rattle.tabled_set.specs.Truncated.{ended_text};

use crate::measurement::Measurement;
use crate::walk::{WalkOrder, change_cells};
use std::alloc::AllocError;
use tabled_base::{CellOption, Entity, Position, RecordsMut, SHORT_TEXT, TableError};
use tabled_config::ColoredConfig;
use tabled_size::{Peaker, PriorityNone};
use tabled_text::text_measures;

/// Changes cells that have too few or too many columns or lines. As a table option it changes the
/// total width or height of a table, and its columns or rows in the order of `priority`.
#[derive(Clone, Copy, Debug, Drop, PartialEq, Eq, PartialOrd, Ord)]
pub struct Resize<T, W = usize, P = PriorityNone> {
    pub(crate) size: W,
    pub(crate) transform: T,
    pub(crate) priority: P,
}

impl<T: TextTransform, W> Resize<T, W> {
    /// Creates an option for `size` columns or lines. The columns or rows of a table change in
    /// turn.
    pub fn new(size: W) -> Resize<T, W>
    where
        W: Measurement<T::Direction>,
        ensures size { result.size ≡ size }
        ensures transform { T.is_new result.transform }
        ensures priority { result.priority.kept ≡ 0 }
    {
        Resize {
            size,
            transform: T::new(),
            priority: PriorityNone::new(),
        }
    }
}

impl<T, W, P: Drop> Resize<T, W, P> {
    /// Sets the order in which the columns or rows of a table change.
    pub fn priority<Q: Peaker>(self, priority: Q) -> Resize<T, W, Q>
        ensures { result
            ≡ record { size = self.size; transform = self.transform; priority = priority } }
    {
        Resize {
            size: self.size,
            transform: self.transform,
            priority,
        }
    }
}

/// Changes the entity's cells that pass the transform's filter. No other cell changes. Fails with
/// `Range` if the measurement does, before any change, or with `Memory` at a cell that can't be cut
/// in place. The cells before that, row by row, have changed.
impl<T: TextTransform, W: Measurement<T::Direction>, P, R: RecordsMut> CellOption<R, ColoredConfig>
    for Resize<T, W, P> {
    ghost changes = { λ s r c e r' c'. ChangesEntity (if_taken T.cell_filter (T.makes s.transform))
        (W.measures s.size (R.cells r) c.config) e (R.cells r) (R.cells r') × (c' ≡ c) };

    ghost fails = { λ s f r c e r' c'. let n = W.measures s.size (R.cells r) c.config in
        StopsEntity (record {
          cell_filter = T.cell_filter;
          in_place = T.shortens s.transform;
          change = T.makes s.transform;
        }) n e f (R.cells r) (R.cells r') × (c' ≡ c) };

    ghost out_of_range = { λ s r c e. W.out_of_range s.size (R.cells r) c.config };

    ghost is_undone = { λ s. false };

    fn change(
        &self,
        records: &mut R,
        cfg: &mut ColoredConfig,
        entity: Entity,
    ) -> Result<(), TableError> {
        let n = self.size.measure(records, cfg.as_ref())?;
        let change = Change {
            transform: &self.transform,
            cell_filter: T::filter(),
            content_sizes: &n,
        };
        change_cells(&change, records, WalkOrder::ByRow, entity)
    }

    fn hint_change(&self) -> Option<Entity> {
        Some(Entity::Global)
    }

    fn needs_undo(&self) -> bool {
        false
    }
}

/// Which cells are changed, by the size of their text and their content size.
#[derive(Clone, Copy, Debug)]
pub enum CellFilter {
    /// All cells.
    Every,
    /// Cells with more columns than the content size.
    Wider,
    /// Cells with fewer columns than the content size.
    Narrower,
    /// Cells with more or fewer columns than the content size.
    NotAsWide,
    /// Cells with more lines than the content size.
    Higher,
    /// Cells with fewer lines than the content size.
    Lower,
}

impl CellFilter {
    /// Whether a text of these measures passes the filter.
    #[inline(always)]
    pub(crate) fn takes(self, columns: usize, lines: usize, content_size: usize) -> bool
        ensures { result ≡ takes_size self content_size columns lines }
    {
        match self {
            CellFilter::Every => true,
            CellFilter::Wider => content_size < columns,
            CellFilter::Narrower => columns < content_size,
            CellFilter::NotAsWide => columns != content_size,
            CellFilter::Higher => content_size < lines,
            CellFilter::Lower => lines < content_size,
        }
    }
}

/// The content size of each cell, in columns or lines.
pub trait ContentSizes {
    // The content size at a row and a column. A cell without one doesn't change.
    ghost content_size_at: { Self → ℕ → ℕ → Option ℕ };

    /// Returns the content size of a cell, or `None` if the cell doesn't change.
    fn content_size(&self, at: Position) -> Option<usize>
        ensures { result ≡ content_size_at self.now at.row at.column };
}

/// The same content size for all cells.
impl ContentSizes for usize {
    ghost content_size_at = { λ n row column. Some n };

    fn content_size(&self, _at: Position) -> Option<usize> {
        Some(*self)
    }
}

/// What a text becomes if it is cut in place: its first `bytes` bytes, and then `ending`.
#[derive(Clone, Copy, Debug)]
pub struct Beginning<'a> {
    pub bytes: usize,
    pub ending: &'a str,
}

/// A transform of one text, for a content size in columns or lines.
pub trait TextTransform {
    /// The direction that its option measures: `Width` or `Height`.
    type Direction;

    ghost cell_filter: { CellFilter };

    // Holds for the transform of a new option. By default there is only one.
    ghost is_new: { Self → Type 0 } = { λ _. Unit {0} };

    // Relates a content size, a text, and what may be made of it.
    ghost makes: { Self → ℕ → List ℕ → List ℕ → Type 0 };

    // Holds for a content size and a text that is cut in place, without an allocation. By default
    // none is.
    ghost shortens: { Self → ℕ → List ℕ → Type 0 } = { λ _ _ _. ⊥ };

    /// Returns the filter for cells that have too few columns or lines, or too many.
    fn filter() -> CellFilter
        ensures { result ≡ cell_filter };

    /// Returns the transform of a new option.
    fn new() -> Self
        ensures { is_new result };

    /// Whether the text is known to stay as it is. Returning `false` is always safe: the text is
    /// then made anew.
    fn keeps(&self, text: &str, content_size: usize) -> bool
        ensures { result ≡ true → makes self.now content_size text.now text.now }
    {
        false
    }

    /// Returns what the text becomes if it is cut in place.
    fn beginning(&self, text: &str, content_size: usize) -> Option<Beginning<'_>>
        ensures made { IfSome result (λ kept.
            makes self.now content_size text.now (ended_text kept text.now)) }
        ensures boundary { IfSome result (λ kept. IsCharBoundary text.now kept.bytes) }
        ensures fits { IfSome result (λ kept. FitsBehind kept.bytes kept.ending.now) }
        ensures some { IfSome result (λ _. shortens self.now content_size text.now) }
        ensures none { IfNone result (shortens self.now content_size text.now → ⊥) };

    /// Replaces `out` by the transformed text.
    fn apply(&self, out: &mut String, text: &str, content_size: usize) -> Result<(), AllocError>
        ensures { OnOk result (makes self.now content_size text.now (string_bytes out.new)) };

    /// Replaces `out` by the transformed text, and returns its columns and its number of lines.
    fn apply_measured(
        &self,
        out: &mut String,
        text: &str,
        content_size: usize,
    ) -> Result<(usize, usize), AllocError>
        ensures made { OnOk result (makes self.now content_size text.now (string_bytes out.new)) }
        ensures columns { IfOk result (λ found. found.0 ≡ text_columns (string_bytes out.new)) }
        ensures lines { IfOk result (λ found. found.1 ≡ length (lines_of (string_bytes out.new))) }
    {
        self.apply(out, text, content_size)?;
        Ok(text_measures(out.as_str()))
    }
}

/// Does nothing. Its contract says that a text can be cut at its start.
#[inline(always)]
fn starts(text: &str)
    ensures { IsCharBoundary text.now 0 }
{}

/// A change of cells: the transform, which cells it is for, and their content sizes.
#[derive(Drop)]
pub struct Change<'a, T, M> {
    pub transform: &'a T,
    pub cell_filter: CellFilter,
    pub content_sizes: &'a M,
}

impl<'a, T: TextTransform, M: ContentSizes> Change<'a, T, M> {
    /// Changes a cell if it has a content size and passes the filter. A text that isn't cut in
    /// place is made in `out`.
    #[inline(always)]
    pub(crate) fn change_cell<R: RecordsMut>(
        &self,
        records: &mut R,
        at: Position,
        out: &mut String,
    ) -> Result<(), TableError>
        requires { IsInside (R.cells records.old) at.row at.column }
        ensures ok { let by = self.now in OnOk result (AreChanged (covers (Cell at.row at.column))
            (for_content_size (if_taken by.cell_filter (T.makes by.transform.now))
            (M.content_size_at by.content_sizes.now))
            (R.cells records.old) (R.cells records.new)) }
        ensures err { OnErr result (R.cells records.new ≡ R.cells records.old) }
        ensures needed { let by = self.now in OnErr result (
            needs by.cell_filter (T.shortens by.transform.now)
            (M.content_size_at by.content_sizes.now) at.row at.column
            (cell_at (R.cells records.old) at.row at.column)) }
        ensures only { IfErr result (λ e. e ≡ Memory) }
    {
        let Some(content_size) = self.content_sizes.content_size(at) else {
            return Ok(());
        };
        let (text, columns, lines) = records.get_measured(at);
        let by = self.transform;
        if !self.cell_filter.takes(columns, lines, content_size) || by.keeps(text, content_size) {
            return Ok(());
        }
        let _columns = records.count_columns();
        if let Some(kept) = by.beginning(text, content_size) {
            records.shorten(at, kept.bytes, kept.ending);
            return Ok(());
        }
        starts(text);
        by.apply(out, text, content_size)?;
        if out.len() <= SHORT_TEXT {
            records.shorten(at, 0, out.as_str());
            return Ok(());
        }
        records.set(at, String::from_str(records.allocator(), out.as_str())?)
    }
}
