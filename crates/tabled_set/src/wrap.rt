//! The option `Wrap`, which wraps cells and narrows tables.
ghost use Rattle.std.specs.Prelude.{◌≡◌, ◌<◌, IfErr, IfOk, OnErr, OnSome, Some, false, length};
ghost use Rattle.std.specs.Prelude.{string_bytes, unwrap_or, ◌⊎◌};
ghost use Rattle.tabled_set.specs.Common.{effective, is_empty, Memory, Range, Row};
ghost use Rattle.tabled_set.specs.CellChanges.{never_in_place, wrapping, Every, Wider};
ghost use Rattle.tabled_set.specs.Narrowed.{MustNarrow, Narrows, NarrowingOutOfRange, StopsBeforeNarrowing};
ghost use Rattle.tabled_set.specs.Narrowed.{StopsNarrowing};
ghost use Rattle.tabled_set.specs.NarrowedCells.{cells_of_or};
ghost use Rattle.tabled_set.specs.Priorities.{shrinking_to};
ghost use Rattle.tabled_set.specs.Promised.{AfterClearing, WrapsAsPromised};
ghost use Rattle.tabled_set.specs.SizedTable.{sized_table};
ghost use Rattle.tabled_text.specs.Breaking.{EachUnitFits, HasFewestLines, IsLeastBreaking};
ghost use Rattle.tabled_text.specs.Wrapping.{IsWrapped};

use crate::measurement::{Measurement, Width};
use crate::narrowed_cells::{NarrowedRows, narrowed_records, wrapped_rows};
use crate::narrowing::narrow_table;
use crate::resize::{Beginning, CellFilter, Resize, TextTransform};
use std::alloc::{AllocError, Global};
use tabled_base::{Entity, PeekableRecords, RecordsMut, TableError, TableOption};
use tabled_config::{ColoredConfig, SpannedConfig};
use tabled_records::{JoinedRecords, LentRows};
use tabled_size::{CompleteDimension, Peaker, PriorityNone};
use tabled_text::{fits_bytes, wrap_into, wrap_text};

/// Wraps cells that are wider than the measured width into more lines. As a table option it narrows
/// a table to a total of that width, and wraps its cells to fit. A new one breaks words.
pub type Wrap<W = usize, P = PriorityNone> = Resize<Wrapping, W, P>;

/// Wraps a text to lines of at most the content size, in columns.
#[derive(Clone, Copy, Debug, PartialEq, Eq, PartialOrd, Ord)]
pub struct Wrapping {
    /// Whether words that fit on a line of their own are kept whole.
    pub keep_words: bool,
}

impl TextTransform for Wrapping {
    type Direction = Width;

    ghost cell_filter = { Wider };

    ghost is_new = { λ s. s.keep_words ≡ false };

    ghost makes = { λ s. wrapping s.keep_words };

    fn filter() -> CellFilter {
        CellFilter::Wider
    }

    fn new() -> Wrapping {
        Wrapping { keep_words: false }
    }

    fn keeps(&self, text: &str, content_size: usize) -> bool {
        content_size > 0 && fits_bytes(text, content_size)
    }

    fn beginning(&self, _: &str, _: usize) -> Option<Beginning<'_>> {
        None
    }

    fn apply(&self, out: &mut String, text: &str, content_size: usize) -> Result<(), AllocError> {
        wrap_into(out, text, content_size, self.keep_words)?;
        Ok(())
    }

    fn apply_measured(
        &self,
        out: &mut String,
        text: &str,
        content_size: usize,
    ) -> Result<(usize, usize), AllocError> {
        wrap_into(out, text, content_size, self.keep_words)
    }
}

impl<W, P> Wrap<W, P> {
    /// Sets whether words that fit on a line of their own are kept whole.
    pub fn keep_words(mut self, on: bool) -> Wrap<W, P>
        ensures { result ≡ record self { transform = record { keep_words = on } } }
    {
        self.transform.keep_words = on;
        self
    }
}

impl<W: Measurement<Width> + Drop, P: Peaker + Drop> Wrap<W, P> {
    /// Returns the cells of a table as the table option changes them, or `None` if the table isn't
    /// too wide. The sizes are stored, and errors come, as by the table option, but no record
    /// changes.
    pub fn narrowed<R: PeekableRecords>(
        self,
        records: &R,
        cfg: &SpannedConfig,
        dims: &mut CompleteDimension,
    ) -> Result<Option<JoinedRecords>, TableError>
        ensures ok { let n = W.measures self.size (R.cells records.now) cfg.now in
            IfOk result (λ changed. Narrows (shrinking_to P.shrinks self.priority n)
            (wrapping self.transform.keep_words)
            (sized_table (R.cells records.now) cfg.now dims.old)
            (unwrap_or changed (R.cells records.now)) dims.new) }
        ensures wider { IfOk result (λ changed. OnSome changed (MustNarrow
            (W.measures self.size (R.cells records.now) cfg.now)
            (R.cells records.now) cfg.now dims.old)) }
        ensures promised { let t = effective (R.cells records.now) cfg.now dims.old in
            IfOk result (λ changed. AfterClearing (Some (Row 0)) dims.new (λ left.
            WrapsAsPromised P.shrinks self.priority self.transform.keep_words
            (W.measures self.size (R.cells records.now) cfg.now) t
            (effective (unwrap_or changed (R.cells records.now)) cfg.now left))) }
        ensures err { IfErr result (λ e. StopsBeforeNarrowing
            (W.measures self.size (R.cells records.now) cfg.now) e
            (R.cells records.now) cfg.now dims.old dims.new) }
        ensures only { IfErr result (λ e. (e ≡ Memory) ⊎ ((e ≡ Range)
            × NarrowingOutOfRange (W.out_of_range self.size (R.cells records.now) cfg.now)
            (W.measures self.size (R.cells records.now) cfg.now)
            (R.cells records.now) cfg.now dims.old)) }
    {
        narrowed_records(self, CellFilter::Every, records, cfg, dims)
    }

    /// Returns the rows of a table as the table option changes them, or `None` if the table isn't
    /// too wide. The sizes are stored, and errors come, as by the table option, but no row changes.
    /// Cells are wrapped when they are read, if all of them have the same padding.
    pub fn narrowed_rows<'r, 't>(
        self,
        rows: &'r LentRows<'t>,
        cfg: &SpannedConfig,
        dims: &mut CompleteDimension,
    ) -> Result<Option<NarrowedRows<'r, 't>>, TableError>
        ensures ok { let n = W.measures self.size rows.now cfg.now in
            IfOk result (λ changed. Narrows (shrinking_to P.shrinks self.priority n)
            (wrapping self.transform.keep_words)
            (sized_table rows.now cfg.now dims.old) (cells_of_or changed rows.now) dims.new) }
        ensures wider { IfOk result (λ changed. OnSome changed (MustNarrow
            (W.measures self.size rows.now cfg.now) rows.now cfg.now dims.old)) }
        ensures promised { let t = effective rows.now cfg.now dims.old in
            IfOk result (λ changed. AfterClearing (Some (Row 0)) dims.new (λ left.
            WrapsAsPromised P.shrinks self.priority self.transform.keep_words
            (W.measures self.size rows.now cfg.now) t
            (effective (cells_of_or changed rows.now) cfg.now left))) }
        ensures err { IfErr result (λ e. StopsBeforeNarrowing (W.measures self.size rows.now cfg.now) e
            rows.now cfg.now dims.old dims.new) }
        ensures only { IfErr result (λ e. (e ≡ Memory) ⊎ ((e ≡ Range)
            × NarrowingOutOfRange (W.out_of_range self.size rows.now cfg.now)
            (W.measures self.size rows.now cfg.now) rows.now cfg.now dims.old)) }
    {
        if cfg.shared_padding().is_some() {
            return wrapped_rows(self, rows, cfg, dims);
        }
        let Some(made) = narrowed_records(self, CellFilter::Every, rows, cfg, dims)? else {
            return Ok(None);
        };
        Ok(Some(NarrowedRows::Made(made)))
    }
}

impl Wrap<(), ()> {
    /// Wraps a text to lines of at most `width` columns, as `tabled_text::wrap_text` does. With
    /// `keep_words`, words that fit on a line are kept whole. No other breaking has fewer lines.
    /// The result is empty if `width` is 0.
    ///
    /// Fails only with `Memory`, and never for 0 columns or an empty text.
    pub fn wrap(
        alloc: Global,
        text: &str,
        width: usize,
        keep_words: bool,
    ) -> Result<String, TableError>
        ensures wrapped { IfOk result (λ answer.
            IsWrapped width keep_words text.now (string_bytes answer)) }
        ensures fewest { IfOk result (λ answer.
            HasFewestLines width keep_words text.now (string_bytes answer)) }
        ensures least { 0 < width → EachUnitFits width keep_words text.now → IfOk result (λ answer.
            IsLeastBreaking width keep_words text.now (string_bytes answer)) }
        ensures memory { OnErr result ((0 < width) × (0 < length text.now)) }
        ensures only { IfErr result (λ e. e ≡ Memory) }
    {
        Ok(wrap_text(alloc, text, width, keep_words)?)
    }
}

/// Narrows a table that is wider than the measured width to it. Columns shrink by the excess, and
/// each cell is wrapped to its column's new width less its own padding. Cells of a column that ends
/// up below its minimum, its width with empty cells, don't change.
///
/// The widths are stored. Missing sizes are estimated first, and stored even if the table isn't too
/// wide. Fails with `Memory` only if sizes are missing or the table is too wide.
impl<W: Measurement<Width> + Drop, P: Peaker + Drop, R: RecordsMut> TableOption<
    R,
    ColoredConfig,
    CompleteDimension,
> for Wrap<W, P> {
    ghost changes = { λ s r c d r' c' d'. let n = W.measures s.size (R.cells r) c.config in
        Narrows (shrinking_to P.shrinks s.priority n) (wrapping s.transform.keep_words)
        (sized_table (R.cells r) c.config d) (R.cells r') d' × (c' ≡ c) };

    ghost fails = { λ s e r c d r' c' d'. let n = W.measures s.size (R.cells r) c.config in
        (is_empty (R.cells r) ≡ false) × StopsNarrowing (shrinking_to P.shrinks s.priority n)
        (record {
          cell_filter = Every;
          in_place = never_in_place;
          change = wrapping s.transform.keep_words;
        }) e (sized_table (R.cells r) c.config d) (R.cells r') d' × (c' ≡ c) };

    ghost out_of_range = { λ s r c d.
        NarrowingOutOfRange (W.out_of_range s.size (R.cells r) c.config)
        (W.measures s.size (R.cells r) c.config) (R.cells r) c.config d };

    ghost promises = { λ s r c d r' c' d'. AfterClearing (Some (Row 0)) d' (λ left.
        WrapsAsPromised P.shrinks s.priority s.transform.keep_words
        (W.measures s.size (R.cells r) c.config)
        (effective (R.cells r) c.config d) (effective (R.cells r') c'.config left)) };

    ghost hint = { λ s. Some (Row 0) };

    fn change(
        self,
        records: &mut R,
        cfg: &mut ColoredConfig,
        dims: &mut CompleteDimension,
    ) -> Result<(), TableError> {
        narrow_table(self, CellFilter::Every, records, cfg.as_ref(), dims)
    }

    fn hint_change(&self) -> Option<Entity> {
        Some(Entity::Row(0))
    }
}
