//! The option `WordWrap`, which wraps cells between words and narrows tables.
ghost use Rattle.std.specs.Prelude.{◌≡◌, IfErr, IfOk, OnSome, Some, false, unwrap_or, ◌⊎◌};
ghost use Rattle.tabled_set.specs.Common.{effective, is_empty, Memory, Range, Row};
ghost use Rattle.tabled_set.specs.CellChanges.{never_in_place, word_wrapping, Every, Wider};
ghost use Rattle.tabled_set.specs.Narrowed.{MustNarrow, Narrows, NarrowingOutOfRange, StopsBeforeNarrowing};
ghost use Rattle.tabled_set.specs.Narrowed.{StopsNarrowing};
ghost use Rattle.tabled_set.specs.Priorities.{shrinking_to};
ghost use Rattle.tabled_set.specs.Promised.{AfterClearing, WordWrapsAsPromised};
ghost use Rattle.tabled_set.specs.SizedTable.{sized_table};

use crate::measurement::{Measurement, Width};
use crate::narrowed_cells::narrowed_records;
use crate::narrowing::narrow_table;
use crate::resize::{Beginning, CellFilter, Resize, TextTransform};
use crate::wrap::Wrap;
use std::alloc::AllocError;
use tabled_base::{Entity, PeekableRecords, RecordsMut, TableError, TableOption};
use tabled_config::{ColoredConfig, SpannedConfig};
use tabled_records::JoinedRecords;
use tabled_size::{CompleteDimension, Peaker, PriorityNone};
use tabled_text::{fits_bytes, wrap_words_into};

/// Wraps cells as `Wrap` with words kept, and drops the space at which a line is broken, so that no
/// line begins or ends with it. As a table option it narrows a table to a total of the measured
/// width, and wraps its cells to fit.
///
/// ```rust
/// let option = Width::wrap(24).drop_spaces().priority(Priority::max(true));
/// ```
pub type WordWrap<W = usize, P = PriorityNone> = Resize<WordWrapping, W, P>;

/// Wraps a text between words to lines of at most the content size, in columns, as
/// `tabled_text::wrap_words` does.
#[derive(Clone, Copy, Debug, PartialEq, Eq, PartialOrd, Ord)]
pub struct WordWrapping;

impl TextTransform for WordWrapping {
    type Direction = Width;

    ghost cell_filter = { Wider };

    ghost makes = { λ s. word_wrapping };

    fn filter() -> CellFilter {
        CellFilter::Wider
    }

    fn new() -> WordWrapping {
        WordWrapping
    }

    fn keeps(&self, text: &str, content_size: usize) -> bool {
        content_size > 0 && fits_bytes(text, content_size)
    }

    fn beginning(&self, _: &str, _: usize) -> Option<Beginning<'_>> {
        None
    }

    fn apply(&self, out: &mut String, text: &str, content_size: usize) -> Result<(), AllocError> {
        wrap_words_into(out, text, content_size)?;
        Ok(())
    }

    fn apply_measured(
        &self,
        out: &mut String,
        text: &str,
        content_size: usize,
    ) -> Result<(usize, usize), AllocError> {
        wrap_words_into(out, text, content_size)
    }
}

impl<W, P> Wrap<W, P> {
    /// Returns the option that keeps words whole and drops the space at which a line is broken. A
    /// word that doesn't fit on a line of its own is still broken.
    pub fn drop_spaces(self) -> WordWrap<W, P>
        ensures size { result.size ≡ self.size }
        ensures priority { result.priority ≡ self.priority }
    {
        Resize {
            size: self.size,
            transform: WordWrapping,
            priority: self.priority,
        }
    }
}

impl<W: Measurement<Width> + Drop, P: Peaker + Drop> WordWrap<W, P> {
    /// Returns the cells of a table as the table option changes them, or `None` if the table isn't
    /// too wide. The sizes are stored, and errors come, as by the table option, but no record
    /// changes.
    pub fn narrowed<R: PeekableRecords>(
        self,
        records: &R,
        cfg: &SpannedConfig,
        dims: &mut CompleteDimension,
    ) -> Result<Option<JoinedRecords>, TableError>
        ensures ok { let n = W.measures self.size (R.cells records.now) cfg.now in
            IfOk result (λ changed. Narrows (shrinking_to P.shrinks self.priority n) word_wrapping
            (sized_table (R.cells records.now) cfg.now dims.old)
            (unwrap_or changed (R.cells records.now)) dims.new) }
        ensures wider { IfOk result (λ changed. OnSome changed (MustNarrow
            (W.measures self.size (R.cells records.now) cfg.now)
            (R.cells records.now) cfg.now dims.old)) }
        ensures promised { let t = effective (R.cells records.now) cfg.now dims.old in
            IfOk result (λ changed. AfterClearing (Some (Row 0)) dims.new (λ left.
            WordWrapsAsPromised P.shrinks self.priority
            (W.measures self.size (R.cells records.now) cfg.now) t
            (effective (unwrap_or changed (R.cells records.now)) cfg.now left))) }
        ensures err { IfErr result (λ e. StopsBeforeNarrowing
            (W.measures self.size (R.cells records.now) cfg.now) e
            (R.cells records.now) cfg.now dims.old dims.new) }
        ensures only { IfErr result (λ e. (e ≡ Memory) ⊎ ((e ≡ Range)
            × NarrowingOutOfRange (W.out_of_range self.size (R.cells records.now) cfg.now)
            (W.measures self.size (R.cells records.now) cfg.now)
            (R.cells records.now) cfg.now dims.old)) }
    {
        narrowed_records(self, CellFilter::Every, records, cfg, dims)
    }
}

/// Narrows a table that is wider than the measured width to it, as `Wrap` does. Columns shrink by
/// the excess, and each cell is wrapped between words to its column's new width less its own
/// padding. Cells of a column that ends up below its minimum, its width with empty cells, don't
/// change.
///
/// The widths are stored. Missing sizes are estimated first, and stored even if the table isn't too
/// wide. Fails with `Memory` only if sizes are missing or the table is too wide.
impl<W: Measurement<Width> + Drop, P: Peaker + Drop, R: RecordsMut> TableOption<
    R,
    ColoredConfig,
    CompleteDimension,
> for WordWrap<W, P> {
    ghost changes = { λ s r c d r' c' d'. let n = W.measures s.size (R.cells r) c.config in
        Narrows (shrinking_to P.shrinks s.priority n) word_wrapping
        (sized_table (R.cells r) c.config d) (R.cells r') d' × (c' ≡ c) };

    ghost fails = { λ s e r c d r' c' d'. let n = W.measures s.size (R.cells r) c.config in
        (is_empty (R.cells r) ≡ false) × StopsNarrowing (shrinking_to P.shrinks s.priority n)
        (record { cell_filter = Every; in_place = never_in_place; change = word_wrapping }) e
        (sized_table (R.cells r) c.config d) (R.cells r') d' × (c' ≡ c) };

    ghost out_of_range = { λ s r c d.
        NarrowingOutOfRange (W.out_of_range s.size (R.cells r) c.config)
        (W.measures s.size (R.cells r) c.config) (R.cells r) c.config d };

    ghost promises = { λ s r c d r' c' d'. AfterClearing (Some (Row 0)) d' (λ left.
        WordWrapsAsPromised P.shrinks s.priority (W.measures s.size (R.cells r) c.config)
        (effective (R.cells r) c.config d) (effective (R.cells r') c'.config left)) };

    ghost hint = { λ s. Some (Row 0) };

    fn change(
        self,
        records: &mut R,
        cfg: &mut ColoredConfig,
        dims: &mut CompleteDimension,
    ) -> Result<(), TableError> {
        narrow_table(self, CellFilter::Every, records, cfg.as_ref(), dims)
    }

    fn hint_change(&self) -> Option<Entity> {
        Some(Entity::Row(0))
    }
}
