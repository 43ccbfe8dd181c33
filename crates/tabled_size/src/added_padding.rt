//! What padding adds to the width and height of each cell.
ghost use Rattle.std.specs.Prelude.{◌≡◌, ℕ, IfNone, IfSome, true};
ghost use Rattle.std.specs.List.{slice_index_or};
ghost use Rattle.tabled_config.specs.Settings.{style_at};
ghost use Rattle.tabled_entity.specs.RowValues.{run_at, value_at};
ghost use Rattle.tabled_size.specs.Added.{IsListed, KnowsAdded, PassesRange, added_by};
ghost use Rattle.tabled_size.specs.Added.{nothing};

use std::alloc::Global;
use tabled_base::Position;
use tabled_config::{Indent, Sides, SpannedConfig};
use tabled_entity::{RowValues, RunValues};

/// A number of columns and lines: what padding adds to a cell, or what a cell needs.
#[derive(Clone, Copy)]
pub(crate) struct Extent {
    pub(crate) columns: usize,
    pub(crate) lines: usize,
}

/// Looks up what padding adds in each column of a row.
pub(crate) trait RowPadding {
    ghost use Rattle.tabled_size.specs.declared.added_padding.Extent.{Extent};

    // What padding adds in a column.
    ghost known: { Self → ℕ → Extent };

    /// Returns what padding adds in a column, or `None` if it exceeds `usize::MAX`.
    fn at(&self, column: usize) -> Option<Extent>
        ensures some { IfSome result (λ extent. extent ≡ known self.now column) }
        ensures none { IfNone result (PassesRange (known self.now column)) };
}

/// What padding adds in each column of one row, and of every row with the same padding.
#[derive(Drop)]
pub(crate) struct ListedRow {
    pub(crate) reference: usize,
    // Whether all rows are known to have this padding.
    pub(crate) everywhere: bool,
    pub(crate) extents: Vec<Extent>,
}

/// What padding adds in a table, computed once for several rows if possible. Uniform padding is a
/// variant of its own, so that the row loop is compiled separately for it.
#[derive(Drop)]
pub(crate) enum KnownAdded {
    /// The same for all cells.
    Alike(Extent),
    /// The list for one row, or `None` if nothing is known.
    Unlike(Option<ListedRow>),
}

#[inline(always)]
fn added_by(padding: Sides<Indent>) -> Option<Extent>
    ensures some { IfSome result (λ extent. extent ≡ added_by padding) }
    ensures none { IfNone result (PassesRange (added_by padding)) }
{
    Some(Extent {
        columns: padding.left.size.checked_add(padding.right.size)?,
        lines: padding.top.size.checked_add(padding.bottom.size)?,
    })
}

/// Lists what padding adds in the first `columns` columns of a row. `None` if a sum exceeds
/// `usize::MAX` or an allocation failed.
fn list_row(alloc: Global, config: &SpannedConfig, row: usize, columns: usize) -> Option<ListedRow>
    ensures { IfSome result (IsListed config.now columns) }
{
    let mut extents = Vec::with_capacity(alloc, columns).ok()?;
    'columns: for column in 0..columns {
        let extent = added_by(config.get_padding(Position { row, column }))?;
        extents.push(extent).ok()?;
    }
    Some(ListedRow {
        reference: row,
        everywhere: config.are_all_padded_alike(),
        extents,
    })
}

/// The same in all columns.
impl RowPadding for Extent {
    ghost known = { λ extent column. extent };

    #[inline(always)]
    fn at(&self, _column: usize) -> Option<Extent> {
        Some(*self)
    }
}

/// One padding in all columns.
impl RowPadding for Sides<Indent> {
    ghost known = { λ padding column. added_by padding };

    #[inline(always)]
    fn at(&self, _column: usize) -> Option<Extent> {
        added_by(*self)
    }
}

/// One entry for each column, and 0 after the last one.
impl<'a> RowPadding for &'a [Extent] {
    ghost known = { λ extents column. slice_index_or extents.now column nothing };

    #[inline(always)]
    fn at(&self, column: usize) -> Option<Extent> {
        let nothing = Extent {
            columns: 0,
            lines: 0,
        };
        Some(self.get(column).copied().unwrap_or(nothing))
    }
}

/// Paddings looked up in the configuration.
impl<'a> RowPadding for RowValues<'a, Sides<Indent>> {
    ghost known = { λ paddings column. added_by (value_at paddings column) };

    #[inline(always)]
    fn at(&self, column: usize) -> Option<Extent> {
        added_by(*RowValues::at(self, column))
    }
}

/// Paddings of successive cells.
impl<'a> RowPadding for RunValues<'a, Sides<Indent>> {
    ghost known = { λ paddings column. added_by (run_at paddings column) };

    #[inline(always)]
    fn at(&self, column: usize) -> Option<Extent> {
        added_by(*RunValues::at(self, column))
    }
}

impl ListedRow {
    /// Whether a row is known to have the same paddings as the listed one.
    #[inline(always)]
    pub(crate) fn is_padded_in(&self, config: &SpannedConfig, row: usize) -> bool
        ensures { (columns : ℕ) → IsListed config.now columns self.now → result ≡ true
            → (column : ℕ) → (style_at config.now row column).padding
            ≡ (style_at config.now self.now.reference column).padding }
    {
        self.everywhere || config.are_padded_alike(row, self.reference)
    }
}

impl KnownAdded {
    /// Computes what padding adds in a table with `rows` rows and `columns` columns. It is listed
    /// only if padding was set for a column. If an allocation fails, nothing is listed, and each
    /// row looks up its paddings.
    pub(crate) fn new(alloc: Global, config: &SpannedConfig, rows: usize, columns: usize) -> Self
        ensures { KnowsAdded result config.now columns }
    {
        if let Some(padding) = config.shared_padding()
            && let Some(extent) = added_by(padding)
        {
            return KnownAdded::Alike(extent);
        }
        // If padding was set only for rows and cells, each row looks up its own. Hardly anything is
        // set for the row after the last one, so most rows have its padding.
        let are_shared = config.paddings_in(rows).shared().is_some();
        if rows < 2 || are_shared || !config.are_padded_alike(rows, rows) {
            return KnownAdded::Unlike(None);
        }
        KnownAdded::Unlike(list_row(alloc, config, rows, columns))
    }
}
