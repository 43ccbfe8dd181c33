//! `Grid`, which is records with their settings and sizes, and its columns and rows as
//! `tabled_line` reads them.
ghost use Rattle.std.specs.List.{slice_index};
ghost use Rattle.std.specs.Prelude.{IfSome, length, ℕ, ◌<◌, ◌≡◌};
ghost use Rattle.tabled_base.specs.Cells.{columns};
ghost use Rattle.tabled_config.specs.RowStyles.{style_in};
ghost use Rattle.tabled_config.specs.Settings.{frame, rule_at, style_at};
ghost use Rattle.tabled_grid.specs.ColumnStyles.{AreStyles};
ghost use Rattle.tabled_grid.specs.Grid.{sheet_by};
ghost use Rattle.tabled_grid.specs.Picture.{sheet_columns, row_of};
ghost use Rattle.tabled_line.specs.Placements.{AreKnown, ArePlacements, IsUniform};
ghost use Rattle.tabled_size.specs.Holds.{IsSized};
ghost use Rattle.tabled_size.specs.Reached.{reached};
ghost use Rattle.tabled_size.specs.Sheet.{Sheet};

use crate::column_styles::ColumnStyles;
use std::alloc::Global;
use std::marker::Model;
use tabled_base::{Content, ContentRecords, Position};
use tabled_config::{CellStyle, Frame, HorizontalLine, RowStyles, SpannedConfig};
use tabled_line::{
    ColumnSeparator, KnownPlacements, Placement, Row, TableColumns, UniformPlacement,
};
use tabled_size::Dimension;

/// Records, settings and sizes, with what is looked up once for all rows. Contracts see them as a
/// `Sheet`.
#[derive(Drop)]
pub(crate) struct Grid<'a, R: ContentRecords, D: Dimension> {
    pub records: &'a R,
    pub config: &'a SpannedConfig,
    /// The width of each column and the height of each row, padding included.
    pub dimension: &'a D,
    /// The allocator for caches, if there is one.
    pub memory: Option<Global>,
    /// The vertical lines and the margin.
    pub around: Frame,
    /// The separator between the texts of two columns.
    pub separator: ColumnSeparator,
    /// The placement of all texts, if nothing was set for a part of the table.
    pub uniform: Option<UniformPlacement>,
    // The style of all cells, if nothing was set for a part of the table.
    shared: Option<CellStyle>,
    // The horizontal line between any two rows, if none was set by index.
    shared_rule: Option<Option<HorizontalLine>>,
    by_column: Option<ColumnStyles<'a>>,
}

impl<'a, R: ContentRecords, D: Dimension> Model for Grid<'a, R, D> {
    ghost Value = { Sheet };

    ghost view = { λ g. sheet_by (R.cells g.records.now) g.config.now (D.width_at g.dimension.now)
        (D.height_at g.dimension.now) };

    ghost invariant = { λ g. (g.around ≡ frame g.config.now)
        × (g.separator.bar ≡ (frame g.config.now).inner)
        × IfSome g.uniform (λ uniform. (row column : ℕ)
        → IsUniform (style_at g.config.now row column) uniform)
        × IfSome g.by_column (let count = columns (R.cells g.records.now) in
        AreStyles g.config.now (slice_index (reached (D.width_at g.dimension.now) count)) count)
        × IfSome g.shared (λ style. (row column : ℕ)
        → style_at g.config.now row column ≡ style)
        × IfSome g.shared_rule (λ rule. (rows index : ℕ) → 0 < index → index < rows
        → rule_at g.config.now rows index ≡ rule) };
}

impl<'a, R: ContentRecords, D: Dimension> Grid<'a, R, D> {
    /// Borrows records, settings and sizes, and looks up what all rows share. `buffer` is for
    /// cached placements, one for each column; nothing is cached for columns in one of another
    /// size.
    pub fn new(
        records: &'a R,
        config: &'a SpannedConfig,
        dimension: &'a D,
        memory: Option<Global>,
        buffer: &'a mut [Placement],
    ) -> Grid<'a, R, D>
        ensures { result ≡ sheet_by (R.cells records.now) config.now (D.width_at dimension.now)
            (D.height_at dimension.now) }
    {
        let around = config.frame();
        let rows = records.count_rows();
        let shared = config.shared_style();
        let by_column = if buffer.len() == records.count_columns() {
            Some(ColumnStyles::new(memory, config, dimension, rows, buffer))
        } else {
            None
        };
        Grid {
            records,
            config,
            dimension,
            memory,
            around,
            separator: ColumnSeparator::new(around.inner),
            uniform: match &shared {
                Some(style) => UniformPlacement::new(style),
                None => None,
            },
            shared,
            shared_rule: config.shared_rule(),
            by_column,
        }
    }

    pub fn styles(&self, row: usize) -> RowStyles<'_>
        ensures { (column : ℕ) → column < columns self.now.cells
            → style_in result column ≡ style_at self.now.config row column }
    {
        if let Some(style) = self.shared {
            return RowStyles::Alike(style);
        }
        if let Some(kept) = &self.by_column
            && let Some(styles) = kept.in_row(self.config, row)
        {
            return RowStyles::Listed(styles);
        }
        self.config.styles_in(row)
    }

    /// Returns the placement of each cell of a row, if they are cached.
    #[inline(always)]
    pub fn placements(&self, row: usize) -> Option<&[Placement]>
        ensures { IfSome result (λ placements. ArePlacements (style_at self.now.config row)
            (sheet_columns self.now) placements.now) }
    {
        self.by_column.as_ref()?.placements_in_row(self.config, row)
    }

    /// Returns the horizontal line above a row, or below the last one, if there is one.
    #[inline(always)]
    pub fn rule_at(&self, index: usize) -> Option<HorizontalLine>
        ensures { result ≡ rule_at self.now.config (length self.now.cells) index }
    {
        let rows = self.records.count_rows();
        match self.shared_rule {
            Some(rule) if 0 < index && index < rows => rule,
            _ => self.config.rule_at(rows, index),
        }
    }

    pub fn width(&self, column: usize) -> usize
        requires { column < length self.now.widths }
        ensures { result ≡ slice_index self.now.widths column }
    {
        self.dimension.get_width(column)
    }
}

/// The columns of a grid whose sizes are complete.
#[derive(Drop)]
pub(crate) struct GridColumns<'a, R: ContentRecords, D: Dimension> {
    /// The grid.
    pub grid: &'a Grid<'a, R, D>,
    ghost sized: { IsSized grid.now },
}

impl<'a, R: ContentRecords, D: Dimension> TableColumns for GridColumns<'a, R, D> {
    ghost sheet = { λ c. sheet_columns c.grid.now };

    fn count_columns(&self) -> usize {
        let grid = self.grid;
        grid.records.count_columns()
    }

    fn width(&self, column: usize) -> usize {
        self.grid.width(column)
    }

    fn frame(&self) -> &Frame {
        let grid = self.grid;
        &grid.around
    }
}

/// A row of a grid whose sizes are complete.
#[derive(Drop)]
pub(crate) struct GridRow<'a, R: ContentRecords, D: Dimension> {
    /// The grid.
    pub grid: &'a Grid<'a, R, D>,
    /// The index of the row.
    pub row: usize,
    ghost sized: { IsSized grid.now },
    ghost inside: { row < length grid.now.cells },
}

impl<'a, R: ContentRecords, D: Dimension> GridRow<'a, R, D> {
    /// Returns what is known of the placements by the settings of the row. Not inlined: the values
    /// that inlined code has on the stack are cleared on each call, even for rows that don't need
    /// them.
    #[inline(never)]
    fn styled_placements(&self) -> KnownPlacements<'_>
        ensures { let row = row_of self.now.grid.now self.now.row in
            AreKnown row.style row.columns result }
    {
        let grid = self.grid;
        match grid.config.paddings_in(self.row).shared() {
            Some(padding) => KnownPlacements::of(padding, grid.config.horizontals_in(self.row)),
            None => KnownPlacements::Styled,
        }
    }
}

impl<'a, R: ContentRecords, D: Dimension> Row<'a> for GridRow<'a, R, D> {
    ghost sheet = { λ r. row_of r.grid.now r.row };

    fn count_columns(&self) -> usize {
        let grid = self.grid;
        grid.records.count_columns()
    }

    fn height(&self) -> usize {
        let grid = self.grid;
        grid.dimension.get_height(self.row)
    }

    fn frame(&self) -> &Frame {
        let grid = self.grid;
        &grid.around
    }

    fn separator(&self) -> &ColumnSeparator {
        let grid = self.grid;
        &grid.separator
    }

    #[inline(always)]
    fn placements(&self) -> KnownPlacements<'_> {
        let grid = self.grid;
        if let Some(uniform) = grid.uniform {
            return KnownPlacements::Uniform(uniform);
        }
        if let Some(cells) = grid.placements(self.row) {
            return KnownPlacements::Cached(cells);
        }
        self.styled_placements()
    }

    fn styles(&self) -> RowStyles<'_> {
        self.grid.styles(self.row)
    }

    fn width(&self, column: usize) -> usize {
        self.grid.width(column)
    }

    #[inline(always)]
    fn content(&self, column: usize) -> Content<'a> {
        let grid = self.grid;
        grid.records.content(Position {
            row: self.row,
            column,
        })
    }

    fn count_drawn(&self) -> usize {
        self.count_columns()
    }
}
