//! Cells that are cut to the widths of their columns.
ghost use Rattle.std.specs.Prelude.{◌≡◌, map, IfErr, IfOk, OnErr};
ghost use Rattle.std.specs.Cow.{cow_str_bytes, IsOwnedStr};
ghost use Rattle.tabled_base.specs.declared.error.TableError.TheVariants.{Memory};
ghost use Rattle.tabled_records.specs.Views.{AreChanged, IsShown, RowOfRow, WantsFill, changed_of};
ghost use Rattle.tabled_records.specs.Views.{cut_cells_steps, with_widths};

use std::alloc::Global;
use std::borrow::CowStr;
use tabled_base::{CellText, IntoRecords, TableError};
use tabled_text::cut_str;

/// A cell, and the columns to which its text is cut, if any.
///
/// It is no `CellText`: the cut may end with U+FFFD in place of half a wide character, which has to
/// be allocated, and `CellText::text` can't fail. Call `text(alloc)` on each cell.
#[derive(Clone, Copy, Debug, Drop)]
pub struct CutCell<C> {
    pub cell: C,
    pub width: Option<usize>,
}

impl<C: CellText> CutCell<C> {
    /// Returns the text of the cell, cut to its width if it has one. The text is borrowed unless it
    /// ends with such a U+FFFD; then it is allocated. Error: `Memory`.
    pub fn text(&self, alloc: Global) -> Result<CowStr<'_, Global>, TableError>
        ensures text { IfOk result (λ answer. IsShown self.now.width (C.text self.now.cell)
            (cow_str_bytes answer)) }
        ensures owned { IfOk result (λ answer. IsOwnedStr answer
            → WantsFill self.now.width (C.text self.now.cell)) }
        ensures only { IfErr result (λ e. e ≡ Memory) }
        ensures err { OnErr result (WantsFill self.now.width (C.text self.now.cell)) }
    {
        match self.width {
            Some(width) => Ok(cut_str(alloc, self.cell.text(), width)?),
            None => Ok(CowStr::Borrowed(self.cell.text())),
        }
    }
}

/// Records whose cells are cut to the widths of their columns. Cells of columns after the list of
/// widths aren't cut. A table prints the texts that `text(alloc)` returns for the cells, not these.
#[derive(Clone, Copy, Debug, Drop)]
pub struct TruncateContent<'a, R> {
    records: R,
    widths: &'a [usize],
}

impl<'a, R> TruncateContent<'a, R> {
    /// Cuts the cells of column i to `widths[i]` columns.
    pub fn new(records: R, widths: &'a [usize]) -> TruncateContent<'a, R>
        ensures records { result.records ≡ records }
        ensures widths { result.widths.now ≡ widths.now }
    {
        TruncateContent { records, widths }
    }
}

/// The cells of a row, with the widths of their columns.
#[derive(Clone, Copy, Debug, Drop)]
pub struct CutCells<'a, I> {
    pub(crate) cells: I,
    pub(crate) widths: &'a [usize],
}

impl<'a, I: Iterator> Iterator for CutCells<'a, I> {
    type Item = CutCell<I::Item>;

    ghost can_next = { λ s. I.can_next s.cells };

    ghost next_gives = { cut_cells_steps I.next_gives };

    ghost remaining = { λ s. I.remaining s.cells };

    fn next(&mut self) -> Option<CutCell<I::Item>> {
        let cell = self.cells.next()?;
        let Some((width, others)) = self.widths.split_first() else {
            return Some(CutCell { cell, width: None });
        };
        self.widths = others;
        let width = Some(*width);
        Some(CutCell { cell, width })
    }
}

/// Rows of cells, with the widths of their columns.
#[derive(Clone, Copy, Debug, Drop)]
pub struct CutRows<'a, I> {
    pub(crate) rows: I,
    pub(crate) widths: &'a [usize],
}

impl<'a, I: Iterator> Iterator for CutRows<'a, I>
where
    I::Item: IntoIterator,
{
    type Item = CutCells<'a, <I::Item as IntoIterator>::IntoIter>;

    ghost can_next = { λ s. I.can_next s.rows };

    ghost next_gives = { λ s r t. (t.widths.now ≡ s.widths.now) × RowOfRow I.next_gives
        (λ row cells. I.Item.into_iter_gives row cells.cells
        × (cells.widths.now ≡ s.widths.now)) s.rows r t.rows };

    ghost remaining = { λ s. I.remaining s.rows };

    fn next(&mut self) -> Option<CutCells<'a, <I::Item as IntoIterator>::IntoIter>> {
        let row = self.rows.next()?;
        Some(CutCells {
            cells: row.into_iter(),
            widths: self.widths,
        })
    }
}

impl<'a, R: IntoRecords> IntoRecords for TruncateContent<'a, R> {
    type Cell = CutCell<R::Cell>;

    type IterColumns = CutCells<'a, <R::IterColumns as IntoIterator>::IntoIter>;

    type IterRows = CutRows<'a, <R::IterRows as IntoIterator>::IntoIter>;

    ghost ends = { λ view. R.ends view.records };

    ghost gives = { λ view. AreChanged (R.gives view.records) (map (with_widths view.widths.now)) };

    ghost begins = { λ view cells whole. AreChanged (λ all. R.begins view.records all whole)
        (map (with_widths view.widths.now)) cells };

    fn iter_rows(self) -> CutRows<'a, <R::IterRows as IntoIterator>::IntoIter> {
        CutRows {
            rows: self.records.iter_rows().into_iter(),
            widths: self.widths,
        }
    }

    ghost whole_rows = { λ view cells begun. changed_of (R.whole_rows view.records) begun };
}
