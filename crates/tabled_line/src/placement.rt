//! The placements of the texts in a line of a row, from what is known of the row.
ghost use Rattle.std.specs.Prelude.{◌≡◌, ◌<◌, ℕ, IfSome};
ghost use Rattle.tabled_config.specs.declared.spanned.CellStyle.{CellStyle};
ghost use Rattle.tabled_line.specs.PlacedText.{IsPlacedText};
ghost use Rattle.tabled_entity.specs.RowValues.{value_at};
ghost use Rattle.tabled_line.specs.Placements.{AreKnown, IsPlacementIn, IsUniform};
ghost use Rattle.tabled_line.specs.Row.{ColumnSheet};
ghost use Rattle.tabled_line.specs.RowLines.{IsRowLine};

use crate::cell_block::before_text;
use crate::cell_lines::{CellLine, RowLine};
use crate::row::Row;
use tabled_config::{AlignmentHorizontal, CellStyle, Indent, RowStyles, SetStyles, Sides};
use tabled_entity::RowValues;

/// Where a text is in its column. Side padding is spaces, and there is no top padding.
#[derive(Clone, Copy)]
pub struct Placement {
    /// The columns of left padding.
    pub before: usize,
    /// The content width: the columns that the padding leaves for the text.
    pub content_width: usize,
    /// The alignment within the content width.
    pub horizontal: AlignmentHorizontal,
}

/// The placement that texts with one style have in columns of any width.
#[derive(Clone, Copy)]
pub struct UniformPlacement {
    before: usize,
    // The columns of left and right padding together.
    sides: usize,
    horizontal: AlignmentHorizontal,
}

/// What is known of the placements of the texts in a row.
#[derive(Clone, Copy)]
pub enum KnownPlacements<'a> {
    /// The cached placements of the texts, one for each column.
    Cached(&'a [Placement]),
    /// One placement for all texts.
    Uniform(UniformPlacement),
    /// One for all texts, except for the alignment.
    Aligned(AlignedCells<'a>),
    /// Nothing: each placement follows from the style of the cell.
    Styled,
}

impl UniformPlacement {
    /// Returns the placement of texts with this padding and alignment. `None` if side padding isn't
    /// spaces, there is top padding, or the padding overflows a `usize`.
    #[inline(always)]
    pub fn of(padding: &Sides<Indent>, horizontal: AlignmentHorizontal) -> Option<UniformPlacement>
        ensures { (style : CellStyle) → padding.now ≡ style.padding
            → horizontal ≡ style.horizontal → IfSome result (IsUniform style) }
    {
        if padding.left.fill != ' ' || padding.right.fill != ' ' || padding.top.size != 0 {
            return None;
        }
        Some(UniformPlacement {
            before: padding.left.size,
            sides: padding.left.size.checked_add(padding.right.size)?,
            horizontal,
        })
    }

    /// Returns the placement of texts with a style; `None` as for `UniformPlacement::of`.
    #[inline(always)]
    pub fn new(style: &CellStyle) -> Option<UniformPlacement>
        ensures { IfSome result (IsUniform style.now) }
    {
        UniformPlacement::of(&style.padding, style.horizontal)
    }

    /// Returns the placement in a column of `width` columns; `None` if the padding doesn't fit.
    #[inline(always)]
    pub fn placement(self, width: usize) -> Option<Placement>
        ensures { (style : CellStyle) → IsUniform style self
            → IfSome result (IsPlacementIn style width) }
    {
        Some(Placement {
            before: self.before,
            content_width: width.checked_sub(self.sides)?,
            horizontal: self.horizontal,
        })
    }
}

/// The placements in a row whose cells share one padding, each with an alignment of its own.
#[derive(Clone, Copy)]
pub struct AlignedCells<'a> {
    // The placement of all texts, except for the alignment.
    uniform: UniformPlacement,
    horizontal: RowValues<'a, AlignmentHorizontal>,
}

impl<'a> KnownPlacements<'a> {
    /// Returns what is known of the placements of texts with one padding and these alignments.
    #[inline(always)]
    pub fn of(
        padding: &Sides<Indent>,
        horizontal: RowValues<'a, AlignmentHorizontal>,
    ) -> KnownPlacements<'a>
        ensures { (style : ℕ → CellStyle) (columns : ColumnSheet)
            → ((column : ℕ) → padding.now ≡ (style column).padding)
            → ((column : ℕ) → value_at horizontal.entry column ≡ (style column).horizontal)
            → AreKnown style columns result }
    {
        // Any alignment will do: each text has its own.
        let Some(mut uniform) = UniformPlacement::of(padding, AlignmentHorizontal::Left) else {
            return KnownPlacements::Styled;
        };
        match horizontal.shared() {
            Some(shared) => {
                uniform.horizontal = *shared;
                KnownPlacements::Uniform(uniform)
            }
            None => KnownPlacements::Aligned(AlignedCells {
                uniform,
                horizontal,
            }),
        }
    }
}

/// A line of a text, with the spaces around it in its cell.
#[derive(Clone, Copy)]
pub(crate) struct PlacedText<'a> {
    /// The spaces before it, padding included.
    pub before: usize,
    /// The line.
    pub text: &'a str,
    /// Its width in columns.
    pub columns: usize,
    /// The spaces after it, padding included.
    pub behind: usize,
}

/// A source of the placements in a row.
pub(crate) trait RowPlacements {
    ghost use Rattle.tabled_line.specs.Placements.{IsDescribedColumn, IsPlacementIn};
    ghost use Rattle.tabled_line.specs.Row.{RowSheet};

    // Whether this is true of a row.
    ghost describes: { Self → RowSheet → Type 0 };

    /// Returns the placement of the text in a column of `width` columns. `None` if side padding
    /// isn't spaces, there is top padding, or the padding doesn't fit.
    fn at(&self, column: usize, width: usize) -> Option<Placement>
        requires { IsDescribedColumn (describes self.now) column }
        ensures { (row : RowSheet) → describes self.now row → column < row.columns.count
            → width ≡ row.columns.width column
            → IfSome result (IsPlacementIn (row.style column) width) };
}

impl<'a> RowPlacements for &'a [Placement] {
    ghost use Rattle.tabled_line.specs.Placements.{ArePlacements};

    ghost describes = { λ cells row. ArePlacements row.style row.columns cells.now };

    #[inline(always)]
    fn at(&self, column: usize, _width: usize) -> Option<Placement> {
        Some(self[column])
    }
}

impl RowPlacements for UniformPlacement {
    ghost use Rattle.std.specs.Prelude.{◌<◌, ℕ};
    ghost use Rattle.tabled_line.specs.Placements.{IsUniform};

    ghost describes = { λ uniform row. (column : ℕ) → column < row.columns.count
        → IsUniform (row.style column) uniform };

    #[inline(always)]
    fn at(&self, _column: usize, width: usize) -> Option<Placement> {
        self.placement(width)
    }
}

/// Placements from the style of each text.
impl<'a> RowPlacements for RowStyles<'a> {
    ghost use Rattle.std.specs.Prelude.{◌≡◌, ◌<◌, ℕ};
    ghost use Rattle.tabled_config.specs.RowStyles.{style_in};

    ghost describes = { λ styles row. (column : ℕ) → column < row.columns.count
        → style_in styles column ≡ row.style column };

    #[inline(always)]
    fn at(&self, column: usize, width: usize) -> Option<Placement> {
        UniformPlacement::new(&self.at(column))?.placement(width)
    }
}

/// Placements from the styles that were set.
impl<'a> RowPlacements for SetStyles<'a> {
    ghost use Rattle.std.specs.Prelude.{◌≡◌, ◌<◌, ℕ};
    ghost use Rattle.tabled_config.specs.RowStyles.{set_style};

    ghost describes = { λ styles row. (column : ℕ) → column < row.columns.count
        → set_style styles column ≡ row.style column };

    #[inline(always)]
    fn at(&self, column: usize, width: usize) -> Option<Placement> {
        let (padding, horizontal) = self.sides(column);
        UniformPlacement::of(padding, horizontal)?.placement(width)
    }
}

impl<'a> RowPlacements for AlignedCells<'a> {
    ghost use Rattle.std.specs.Prelude.{◌<◌, ℕ};
    ghost use Rattle.tabled_line.specs.Placements.{IsUniform, aligned_in};

    ghost describes = { λ cells row. (column : ℕ) → column < row.columns.count
        → IsUniform (row.style column) (aligned_in cells column) };

    #[inline(always)]
    fn at(&self, column: usize, width: usize) -> Option<Placement> {
        let mut uniform = self.uniform;
        uniform.horizontal = *self.horizontal.at(column);
        uniform.placement(width)
    }
}

/// Places the line of the text of a cell in a column of `width` columns. `None` if there is no
/// placement, the text doesn't fit, or the line of the cell isn't known.
#[inline(always)]
pub(crate) fn place_text<'c, R: Row<'c>, A: RowPlacements>(
    row: &R,
    placements: &A,
    line: &RowLine<'_, 'c>,
    column: usize,
    width: usize,
) -> Option<PlacedText<'c>>
    requires describes { A.describes placements.now (R.sheet row.now) }
    requires inside { column < (R.sheet row.now).columns.count }
    requires width { width ≡ (R.sheet row.now).columns.width column }
    requires line { IsRowLine (R.sheet row.now) line.now }
    ensures { IfSome result (IsPlacedText (R.sheet row.now) line.now.index column) }
{
    match line.cell_line(row, column) {
        CellLine::Text(text_line) => {
            let placement = placements.at(column, width)?;
            let free = placement.content_width.checked_sub(text_line.widest)?;
            let before = placement.before + before_text(placement.horizontal, free);
            Some(PlacedText {
                before,
                text: text_line.text,
                columns: text_line.columns,
                behind: width - before - text_line.columns,
            })
        }
        CellLine::Blank => Some(PlacedText {
            before: 0,
            text: "",
            columns: 0,
            behind: width,
        }),
        CellLine::Unknown => None,
    }
}
