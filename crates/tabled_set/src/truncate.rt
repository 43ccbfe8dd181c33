//! The option `Truncate`, which truncates cells and narrows tables, and the suffix that ends a
//! text.
ghost use Rattle.std.specs.Cow.{cow_str_bytes, IsOwnedStr};
ghost use Rattle.std.specs.Prelude.{◌≡◌, ◌-◌, [], IfErr, IfNone, IfOk, IfSome, None, OnErr, OnOk};
ghost use Rattle.std.specs.Prelude.{OnSome, Some, false, if◌then◌else◌, nat_lt, string_bytes, ◌⊎◌};
ghost use Rattle.tabled_set.specs.Common.{effective, is_empty, IsCut, Memory, NeedsFill, Range};
ghost use Rattle.tabled_set.specs.CellChanges.{truncating, if_wider, Wider};
ghost use Rattle.tabled_set.specs.Narrowed.{MustNarrow, Narrows, NarrowingOutOfRange, StopsBeforeNarrowing};
ghost use Rattle.tabled_set.specs.Narrowed.{StopsNarrowing};
ghost use Rattle.tabled_set.specs.Truncated.{AddsEnded, Cut, HasEndedLines, NeedsNewSuffix, IsTruncated};
ghost use Rattle.tabled_set.specs.Truncated.{IsUsed, suffix_columns, truncating_in_place};
ghost use Rattle.tabled_set.specs.NarrowedCells.{cells_of_or};
ghost use Rattle.tabled_set.specs.Priorities.{shrinking_to};
ghost use Rattle.tabled_set.specs.Promised.{AfterClearing, TruncatesAsPromised};
ghost use Rattle.tabled_set.specs.SizedTable.{sized_table};

use crate::measurement::{Measurement, Width};
use crate::narrowed_cells::{NarrowedRows, cut_rows, narrowed_records};
use crate::narrowing::narrow_table;
use crate::resize::{Beginning, CellFilter, Resize, TextTransform};
use std::alloc::{AllocError, Global};
use std::borrow::CowStr;
use tabled_base::{Entity, RecordsMut, SHORT_TEXT, TableError, TableOption};
use tabled_config::{ColoredConfig, SpannedConfig};
use tabled_records::LentRows;
use tabled_size::{CompleteDimension, Peaker, PriorityNone};
use tabled_text::{append_cut, copies, count_lines, cut_length, cut_str, line_width, lines};

/// What happens to a suffix that is as wide as the content width, or wider.
#[derive(Clone, Copy, Debug, PartialEq, Eq, PartialOrd, Ord)]
pub enum SuffixLimit {
    /// The suffix is cut to the content width. Nothing of the text is left.
    Cut,
    /// The suffix is left out. The text gets the whole content width.
    Ignore,
    /// The suffix is replaced by n copies of this character, where n is the content width in
    /// columns. Nothing of the text is left.
    Replace(char),
}

/// Cuts a text to the columns that the suffix leaves of the content size, and appends the suffix.
/// If the suffix leaves none, the limit says what is written. For 0 columns every line is empty.
#[derive(Clone, Copy, Debug, PartialEq, Eq, PartialOrd, Ord)]
pub struct Truncating<'a> {
    /// The suffix, which ends each truncated text.
    pub suffix: &'a str,
    /// What happens to a suffix that is as wide as the content size, or wider.
    pub limit: SuffixLimit,
    /// Whether each line is truncated on its own, and ends with the suffix.
    pub multiline: bool,
}

impl<'a> TextTransform for Truncating<'a> {
    type Direction = Width;

    ghost cell_filter = { Wider };

    ghost is_new = { λ s. (s.suffix.now ≡ []) × (s.limit ≡ Cut) × (s.multiline ≡ false) };

    ghost makes = { λ s. truncating s.suffix.now s.limit s.multiline };

    ghost shortens = { λ s. truncating_in_place s.suffix.now s.limit s.multiline };

    fn filter() -> CellFilter
        ensures { result ≡ Wider }
    {
        CellFilter::Wider
    }

    fn new() -> Truncating<'a>
        ensures { (result.suffix.now ≡ []) × (result.limit ≡ Cut) × (result.multiline ≡ false) }
    {
        Truncating {
            suffix: "",
            limit: SuffixLimit::Cut,
            multiline: false,
        }
    }

    #[inline(always)]
    fn beginning(&self, text: &str, content_size: usize) -> Option<Beginning<'_>> {
        if self.multiline && count_lines(text) > 1 {
            return None;
        }
        let used = borrowed_suffix(self.suffix, self.limit, content_size)?;
        let bytes = cut_length(text, used.left)?;
        if used.text.len() > SHORT_TEXT.saturating_sub(bytes) {
            return None;
        }
        let ending = used.text;
        Some(Beginning { bytes, ending })
    }

    fn apply(&self, out: &mut String, text: &str, content_size: usize) -> Result<(), AllocError> {
        let used = used_suffix(*out.allocator(), self.suffix, self.limit, content_size)?;
        if self.multiline {
            return ended_lines(out, text, &used);
        }
        out.clear();
        push_ended(out, text, &used)
    }
}

/// The suffix that is written for a content size, and the columns that it leaves to the text.
#[derive(Drop)]
struct UsedSuffix<T> {
    text: T,
    left: usize,
}

/// Returns the columns that a suffix leaves of a content size, if it leaves any.
pub fn columns_beside(suffix: &str, content_size: usize) -> Option<usize>
    ensures { let own = suffix_columns suffix.now in
        result ≡ (if nat_lt own content_size then Some (content_size - own) else None) }
{
    // Each line takes one column more than its own, for its line feed. The last line has no line
    // feed, hence the `+ 1`.
    let mut left = content_size;
    for line in lines(suffix) {
        left = left.checked_sub(line_width(line))?.checked_sub(1)?;
    }
    Some(left + 1)
}

/// Returns the suffix to write for `content_size` columns, or `None` if it has to be allocated.
#[inline(always)]
fn borrowed_suffix(
    suffix: &str,
    limit: SuffixLimit,
    content_size: usize,
) -> Option<UsedSuffix<&str>>
    ensures used { IfSome result (λ lent.
        IsUsed content_size suffix.now limit lent.text.now lent.left) }
    ensures some { IfSome result (λ _. NeedsNewSuffix content_size suffix.now limit → ⊥) }
    ensures none { IfNone result (NeedsNewSuffix content_size suffix.now limit) }
{
    let none = UsedSuffix {
        text: "",
        left: content_size,
    };
    if content_size == 0 || suffix.is_empty() {
        return Some(none);
    }
    if let Some(left) = columns_beside(suffix, content_size) {
        return Some(UsedSuffix { text: suffix, left });
    }
    match limit {
        SuffixLimit::Cut => {
            let bytes = cut_length(suffix, content_size)?;
            let (text, _) = suffix.split_at(bytes);
            Some(UsedSuffix { text, left: 0 })
        }
        SuffixLimit::Ignore => Some(none),
        SuffixLimit::Replace(_) => None,
    }
}

/// Returns the suffix to write for `content_size` columns, borrowed if possible.
fn used_suffix(
    alloc: Global,
    suffix: &str,
    limit: SuffixLimit,
    content_size: usize,
) -> Result<UsedSuffix<CowStr<'_, Global>>, AllocError>
    ensures { IfOk result (λ used.
        IsUsed content_size suffix.now limit (cow_str_bytes used.text) used.left) }
{
    if let Some(UsedSuffix { text, left }) = borrowed_suffix(suffix, limit, content_size) {
        let text = CowStr::Borrowed(text);
        return Ok(UsedSuffix { text, left });
    }
    let text = match limit {
        SuffixLimit::Cut => cut_str(alloc, suffix, content_size)?,
        SuffixLimit::Ignore => unreachable!(),
        SuffixLimit::Replace(c) => CowStr::Owned(copies(alloc, c, content_size)?),
    };
    Ok(UsedSuffix { text, left: 0 })
}

/// Appends a text, cut to the columns left, and the suffix.
fn push_ended(
    answer: &mut String,
    text: &str,
    used: &UsedSuffix<CowStr<'_, Global>>,
) -> Result<(), AllocError>
    ensures { OnOk result (AddsEnded used.now.left (cow_str_bytes used.now.text) text.now
        (string_bytes answer.old) (string_bytes answer.new)) }
{
    append_cut(answer, text, used.left)?;
    answer.push_str(&used.text)?;
    Ok(())
}

/// Replaces `answer` by the lines of a text, each cut to the columns left, with the suffix.
fn ended_lines(
    answer: &mut String,
    text: &str,
    used: &UsedSuffix<CowStr<'_, Global>>,
) -> Result<(), AllocError>
    ensures { OnOk result (HasEndedLines used.now.left (cow_str_bytes used.now.text)
        text.now (string_bytes answer.new)) }
{
    answer.clear();
    let mut begun = false;
    for line in lines(text) {
        if begun {
            answer.push('\n')?;
        }
        begun = true;
        push_ended(answer, line, used)?;
    }
    Ok(())
}

/// Truncates cells that are wider than the measured width: cuts the text, and appends a suffix. As
/// a table option it narrows a table to a total of that width, and truncates its cells to fit. A
/// new one has no suffix, and cuts a text as a whole.
///
/// A text is cut in place, without an allocation, if all of these hold:
/// - `multiline` is off, or the text has one line.
/// - Neither the text nor the suffix needs U+FFFD, and the suffix isn't replaced.
/// - It ends without a suffix, or takes at most 16 bytes with it.
pub type Truncate<'a, W = usize, P = PriorityNone> = Resize<Truncating<'a>, W, P>;

impl<'a, W, P> Truncate<'a, W, P> {
    /// Sets the suffix, which ends each truncated text.
    pub fn suffix(self, suffix: &'a str) -> Truncate<'a, W, P>
        ensures { result ≡ record self.entry {
          transform = record self.entry.transform { suffix = suffix.entry };
        } }
    {
        let mut transform = self.transform;
        transform.suffix = suffix;
        Resize { transform, ..self }
    }

    /// Sets what happens to a suffix that is as wide as the content width, or wider.
    pub fn suffix_limit(self, limit: SuffixLimit) -> Truncate<'a, W, P>
        ensures { result ≡ record self.entry {
          transform = record self.entry.transform { limit = limit };
        } }
    {
        let mut transform = self.transform;
        transform.limit = limit;
        Resize { transform, ..self }
    }

    /// Sets whether each line of a text is truncated on its own. Each line then ends with the
    /// suffix, even a short one.
    pub fn multiline(mut self, on: bool) -> Truncate<'a, W, P>
        ensures { result ≡ record self.entry {
          transform = record self.entry.transform { multiline = on };
        } }
    {
        self.transform.multiline = on;
        self
    }

    /// Truncates a text to `content_size` columns as [`Truncating`] says, whatever the option's
    /// width is. Fails only with `Memory`.
    pub fn shorten(
        &self,
        alloc: Global,
        text: &str,
        content_size: usize,
    ) -> Result<String, TableError>
        ensures truncated { let by = self.now.transform in IfOk result (λ answer.
            IsTruncated content_size by.suffix.now by.limit by.multiline
            text.now (string_bytes answer)) }
        ensures only { IfErr result (λ e. e ≡ Memory) }
    {
        let mut answer = String::new(alloc);
        self.transform.apply(&mut answer, text, content_size)?;
        Ok(answer)
    }
}

impl<'a, W: Measurement<Width> + Drop, P: Peaker + Drop> Truncate<'a, W, P> {
    /// Returns the rows of a table as the table option changes them, or `None` if the table isn't
    /// too wide. The sizes are stored, and errors come, as by the table option, but no row changes.
    pub fn narrowed<'r, 't>(
        self,
        rows: &'r LentRows<'t>,
        cfg: &SpannedConfig,
        dims: &mut CompleteDimension,
    ) -> Result<Option<NarrowedRows<'r, 't>>, TableError>
        ensures ok { let by = self.entry.transform in
            let n = W.measures self.entry.size rows.now cfg.now in
            IfOk result (λ changed. Narrows (shrinking_to P.shrinks self.entry.priority n)
            (if_wider (truncating by.suffix.now by.limit by.multiline))
            (sized_table rows.now cfg.now dims.old) (cells_of_or changed rows.now) dims.new) }
        ensures wider { IfOk result (λ changed. OnSome changed (MustNarrow
            (W.measures self.entry.size rows.now cfg.now) rows.now cfg.now dims.old)) }
        ensures promised { let by = self.entry.transform in
            IfOk result (λ changed. AfterClearing None dims.new (λ left.
            TruncatesAsPromised P.shrinks self.entry.priority by.suffix.now by.limit by.multiline
            (W.measures self.entry.size rows.now cfg.now) (effective rows.now cfg.now dims.old)
            (effective (cells_of_or changed rows.now) cfg.now left))) }
        ensures err { IfErr result (λ e. StopsBeforeNarrowing (W.measures self.entry.size rows.now cfg.now) e
            rows.now cfg.now dims.old dims.new) }
        ensures only { IfErr result (λ e. (e ≡ Memory) ⊎ ((e ≡ Range)
            × NarrowingOutOfRange (W.out_of_range self.entry.size rows.now cfg.now)
            (W.measures self.entry.size rows.now cfg.now) rows.now cfg.now dims.old)) }
    {
        let by = self.transform;
        if by.suffix.is_empty() && !by.multiline && cfg.shared_padding().is_some() {
            return cut_rows(self, rows, cfg, dims);
        }
        let Some(made) = narrowed_records(self, CellFilter::Wider, rows, cfg, dims)? else {
            return Ok(None);
        };
        Ok(Some(NarrowedRows::Made(made)))
    }
}

impl Truncate<'static, (), ()> {
    /// Cuts a text as soon as one of its lines is `width` columns wide, as `tabled_text::cut_str`
    /// does. The result is borrowed unless U+FFFD fills columns that a dropped character leaves.
    /// Fails only with `Memory`, and only in that case.
    pub fn truncate(
        alloc: Global,
        text: &str,
        width: usize,
    ) -> Result<CowStr<'_, Global>, TableError>
        ensures cut { IfOk result (λ answer. IsCut width text.now (cow_str_bytes answer)) }
        ensures owned { IfOk result (λ answer. IsOwnedStr answer → NeedsFill width text.now) }
        ensures err { OnErr result (NeedsFill width text.now) }
        ensures only { IfErr result (λ e. e ≡ Memory) }
    {
        Ok(cut_str(alloc, text, width)?)
    }
}

/// Narrows a table that is wider than the measured width to it. Columns shrink by the excess, and
/// each cell that is wider than its column's new width less its own padding is truncated to that.
/// Cells of a column that ends up below its minimum, its width with empty cells, don't change.
///
/// The widths are stored, and the heights of a table that was too wide are cleared. Fails with
/// `Memory` only if sizes are missing or the table is too wide, and at a cell only if it can't be
/// cut in place.
impl<'a, W: Measurement<Width> + Drop, P: Peaker + Drop, R: RecordsMut> TableOption<
    R,
    ColoredConfig,
    CompleteDimension,
> for Truncate<'a, W, P> {
    ghost changes = { λ s r c d r' c' d'. let by = s.transform in
        let n = W.measures s.size (R.cells r) c.config in
        Narrows (shrinking_to P.shrinks s.priority n)
        (if_wider (truncating by.suffix.now by.limit by.multiline))
        (sized_table (R.cells r) c.config d) (R.cells r') d' × (c' ≡ c) };

    ghost fails = { λ s e r c d r' c' d'. let by = s.transform in
        let n = W.measures s.size (R.cells r) c.config in
        (is_empty (R.cells r) ≡ false) × StopsNarrowing (shrinking_to P.shrinks s.priority n)
        (record {
          cell_filter = Wider;
          in_place = truncating_in_place by.suffix.now by.limit by.multiline;
          change = truncating by.suffix.now by.limit by.multiline;
        }) e (sized_table (R.cells r) c.config d) (R.cells r') d' × (c' ≡ c) };

    ghost out_of_range = { λ s r c d.
        NarrowingOutOfRange (W.out_of_range s.size (R.cells r) c.config)
        (W.measures s.size (R.cells r) c.config) (R.cells r) c.config d };

    ghost promises = { λ s r c d r' c' d'. let by = s.transform in
        AfterClearing None d' (λ left.
        TruncatesAsPromised P.shrinks s.priority by.suffix.now by.limit by.multiline
        (W.measures s.size (R.cells r) c.config)
        (effective (R.cells r) c.config d) (effective (R.cells r') c'.config left)) };

    ghost hint = { λ s. None };

    fn change(
        self,
        records: &mut R,
        cfg: &mut ColoredConfig,
        dims: &mut CompleteDimension,
    ) -> Result<(), TableError> {
        narrow_table(self, CellFilter::Wider, records, cfg.as_ref(), dims)
    }

    fn hint_change(&self) -> Option<Entity> {
        None
    }
}
