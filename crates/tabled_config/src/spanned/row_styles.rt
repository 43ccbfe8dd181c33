//! The styles of the cells of a row, and whether cells or rows share their settings.
ghost use Rattle.std.specs.Prelude.{IfSome, true, ℕ, ◌≡◌};
ghost use Rattle.tabled_config.specs.RowStyles.{DescribesStyles, set_style, style_in};
ghost use Rattle.tabled_config.specs.Settings.{shared_style, style_at};
ghost use Rattle.tabled_entity.specs.Changes.{shared};
ghost use Rattle.tabled_entity.specs.RowValues.{value_at};

use super::{CellStyle, SpannedConfig};
use crate::alignment::{AlignmentHorizontal, AlignmentVertical};
use crate::sides::{Indent, Sides};
use tabled_entity::RowValues;

/// The styles that were set for a row's cells.
#[derive(Clone, Copy)]
pub struct SetStyles<'a> {
    padding: RowValues<'a, Sides<Indent>>,
    horizontal: RowValues<'a, AlignmentHorizontal>,
    // The rest is looked up for each cell: only rows of several lines ask for it.
    config: &'a SpannedConfig,
    row: usize,
}

/// The styles of a row's cells.
#[derive(Drop)]
pub enum RowStyles<'a> {
    /// One style for all columns.
    Alike(CellStyle),
    /// One style for each column.
    Listed(&'a [CellStyle]),
    /// The styles set in the configuration.
    Set(SetStyles<'a>),
}

impl<'a> SetStyles<'a> {
    /// Returns the padding and horizontal alignment of a column.
    #[inline(always)]
    pub fn sides(&self, column: usize) -> (&'a Sides<Indent>, AlignmentHorizontal)
        ensures padding { result.0.now ≡ (set_style self.now column).padding }
        ensures horizontal { result.1 ≡ (set_style self.now column).horizontal }
    {
        (self.padding.at(column), *self.horizontal.at(column))
    }
}

impl<'a> RowStyles<'a> {
    /// Returns the style of a column. Columns after a list have no padding and are at the left and
    /// the top.
    #[inline(always)]
    #[tactic(auto, unfolding(crate::specs::Settings::style_at))]
    pub fn at(&self, column: usize) -> CellStyle
        ensures { result ≡ style_in self.now column }
    {
        match self {
            RowStyles::Alike(style) => *style,
            RowStyles::Listed(styles) => styles.get(column).copied().unwrap_or(CellStyle {
                padding: Sides::filled(Indent::zero()),
                horizontal: AlignmentHorizontal::Left,
                vertical: AlignmentVertical::Top,
                line_alignment: false,
            }),
            RowStyles::Set(styles) => CellStyle {
                padding: *styles.padding.at(column),
                horizontal: *styles.horizontal.at(column),
                vertical: styles.config.alignment_vertical.get(styles.row, column),
                line_alignment: styles.config.line_alignment.get(styles.row, column),
            },
        }
    }
}

#[tactic(auto, unfolding(crate::specs::Settings::style_at))]
impl SpannedConfig {
    /// Returns the style shared by all cells of a row. `None` only if a style was set for a column
    /// or for a cell of the row.
    pub fn row_style(&self, row: usize) -> Option<CellStyle>
        ensures { IfSome result (λ style. (column : ℕ) → style_at self.now row column ≡ style) }
    {
        Some(CellStyle {
            padding: *self.padding.in_row(row).shared()?,
            horizontal: *self.alignment_horizontal.in_row(row).shared()?,
            vertical: *self.alignment_vertical.in_row(row).shared()?,
            line_alignment: *self.line_alignment.in_row(row).shared()?,
        })
    }

    /// Returns the styles of a row's cells.
    pub fn styles_in(&self, row: usize) -> RowStyles<'_>
        ensures { DescribesStyles result (style_at self.now row) }
    {
        RowStyles::Set(SetStyles {
            padding: self.padding.in_row(row),
            horizontal: self.alignment_horizontal.in_row(row),
            config: self,
            row,
        })
    }

    /// Returns the paddings of a row's cells.
    #[inline(always)]
    pub fn paddings_in(&self, row: usize) -> RowValues<'_, Sides<Indent>>
        ensures { (column : ℕ) → value_at result column ≡ (style_at self.now row column).padding }
    {
        self.padding.in_row(row)
    }

    /// Returns the horizontal alignments of a row's cells.
    #[inline(always)]
    pub fn horizontals_in(&self, row: usize) -> RowValues<'_, AlignmentHorizontal>
        ensures { (column : ℕ)
            → value_at result column ≡ (style_at self.now row column).horizontal }
    {
        self.alignment_horizontal.in_row(row)
    }
}

#[tactic(auto, unfolding(crate::specs::Settings::style_at))]
impl SpannedConfig {
    /// Whether two rows are known to have the same styles, column by column: no style was set for
    /// either row, nor for one of their cells.
    pub fn are_alike(&self, row: usize, other: usize) -> bool
        ensures { result ≡ true → (column : ℕ)
            → style_at self.now row column ≡ style_at self.now other column }
    {
        self.padding.are_alike(row, other)
            && self.alignment_horizontal.are_alike(row, other)
            && self.alignment_vertical.are_alike(row, other)
            && self.line_alignment.are_alike(row, other)
    }

    /// Whether all rows are known to have the same styles, column by column: no style was set for a
    /// row or a cell.
    pub fn are_all_alike(&self) -> bool
        ensures { result ≡ true → (row other column : ℕ)
            → style_at self.now row column ≡ style_at self.now other column }
    {
        self.padding.are_all_alike()
            && self.alignment_horizontal.are_all_alike()
            && self.alignment_vertical.are_all_alike()
            && self.line_alignment.are_all_alike()
    }

    /// Whether two rows are known to have the same paddings, column by column: no padding was set
    /// for either row, nor for one of their cells.
    #[inline]
    pub fn are_padded_alike(&self, row: usize, other: usize) -> bool
        ensures { result ≡ true → (column : ℕ)
            → (style_at self.now row column).padding ≡ (style_at self.now other column).padding }
    {
        self.padding.are_alike(row, other)
    }

    /// Whether all rows are known to have the same paddings, column by column: no padding was set
    /// for a row or a cell.
    pub fn are_all_padded_alike(&self) -> bool
        ensures { result ≡ true → (row other column : ℕ)
            → (style_at self.now row column).padding ≡ (style_at self.now other column).padding }
    {
        self.padding.are_all_alike()
    }

    /// Returns the style of all cells, if none was set for a row, a column or a cell.
    #[tactic(auto, unfolding(crate::specs::Settings::shared_style, crate::specs::Settings::style_at))]
    pub fn shared_style(&self) -> Option<CellStyle>
        ensures value { result ≡ shared_style self.now }
        ensures everywhere { IfSome result (λ style. (row column : ℕ)
            → style_at self.now row column ≡ style) }
    {
        Some(CellStyle {
            padding: self.padding.shared()?,
            horizontal: self.alignment_horizontal.shared()?,
            vertical: self.alignment_vertical.shared()?,
            line_alignment: self.line_alignment.shared()?,
        })
    }

    /// Returns the padding of all cells, if none was set for a row, a column or a cell.
    #[inline]
    pub fn shared_padding(&self) -> Option<Sides<Indent>>
        ensures value { result ≡ shared self.now.padding }
        ensures everywhere { IfSome result (λ padding. (row column : ℕ)
            → (style_at self.now row column).padding ≡ padding) }
    {
        self.padding.shared()
    }
}
