//! Sizes that never change (`ConstDimension`, `StaticDimension`, `ZeroDimension`).
ghost use Rattle.std.specs.Prelude.{◌≡◌, ◌⊎◌, IfErr, IfOk, OnErr, OnOk, Some, is_some, true, ℕ};
ghost use Rattle.tabled_base.specs.declared.error.TableError.TheVariants.{Memory, Range};
ghost use Rattle.tabled_size.specs.declared.const_dimension.ConstSize.TheVariants.{List as Listed};
ghost use Rattle.tabled_size.specs.declared.const_dimension.ConstSize.TheVariants.{Value};
ghost use Rattle.tabled_size.specs.FixedSizes.{HasList, IsSameValue, listed_at, size_at, value_at};

use crate::dimension::{Dimension, Estimate};
use tabled_base::TableError;

/// Sizes from an array, or one size for all.
#[derive(Debug, Clone, Copy)]
pub enum ConstSize<const N: usize> {
    /// One for each of the first columns or rows.
    List([usize; N]),
    /// The same for all.
    Value(usize),
}

impl From<usize> for ConstSize<0> {
    ghost from_gives = { λ size all. all ≡ Value size };

    fn from(size: usize) -> Self {
        ConstSize::Value(size)
    }
}

impl<const N: usize> From<[usize; N]> for ConstSize<N> {
    ghost from_gives = { λ sizes all. all ≡ Listed sizes };

    fn from(sizes: [usize; N]) -> Self {
        ConstSize::List(sizes)
    }
}

/// Sizes from the first on, and that of all others, if they have one.
#[derive(Clone, Copy)]
pub(crate) struct SizeList<'a>(&'a [usize], Option<usize>);

impl SizeList<'_> {
    /// Returns the size at an index, if it is known.
    fn get(&self, place: usize) -> Option<usize>
        ensures { result ≡ listed_at self.now place }
    {
        self.0.get(place).copied().or(self.1)
    }
}

impl<const N: usize> ConstSize<N> {
    fn list(&self) -> SizeList<'_>
        ensures { (place : ℕ) → listed_at result place ≡ size_at self.now place }
    {
        match self {
            ConstSize::List(sizes) => SizeList(sizes, None),
            ConstSize::Value(size) => SizeList(&[], Some(*size)),
        }
    }
}

/// Widths and heights from arrays or single values. They never change or allocate.
#[derive(Debug, Clone, Copy)]
pub struct ConstDimension<const COLUMNS: usize, const ROWS: usize> {
    width: ConstSize<COLUMNS>,
    height: ConstSize<ROWS>,
}

impl<const COLUMNS: usize, const ROWS: usize> ConstDimension<COLUMNS, ROWS> {
    /// Creates a dimension from widths and heights.
    pub const fn new(width: ConstSize<COLUMNS>, height: ConstSize<ROWS>) -> Self
        ensures widths { result.width ≡ width.entry }
        ensures heights { result.height ≡ height.entry }
    {
        ConstDimension { width, height }
    }
}

impl<const COLUMNS: usize, const ROWS: usize> From<ConstDimension<COLUMNS, ROWS>>
    for (ConstSize<COLUMNS>, ConstSize<ROWS>) {
    ghost from_gives = { λ sizes pair. (pair.0 ≡ sizes.width) × (pair.1 ≡ sizes.height) };

    fn from(sizes: ConstDimension<COLUMNS, ROWS>) -> Self {
        (sizes.width, sizes.height)
    }
}

impl<const COLUMNS: usize, const ROWS: usize> Dimension for ConstDimension<COLUMNS, ROWS> {
    ghost width_at = { λ s column. size_at s.width column };

    ghost height_at = { λ s row. size_at s.height row };

    fn has_width(&self, column: usize) -> bool {
        self.width.list().get(column).is_some()
    }

    fn has_height(&self, row: usize) -> bool {
        self.height.list().get(row).is_some()
    }

    fn get_width(&self, column: usize) -> usize {
        self.width.list().get(column).unwrap()
    }

    fn get_height(&self, row: usize) -> usize {
        self.height.list().get(row).unwrap()
    }

    fn alike_from(&self) -> Option<usize> {
        Some(self.width.list().0.len())
    }
}

impl<R, C, const COLUMNS: usize, const ROWS: usize> Estimate<R, C>
    for ConstDimension<COLUMNS, ROWS> {
    fn estimate(&mut self, _records: &R, _config: &C) -> Result<(), TableError>
        ensures ok { OnOk result (self.new ≡ self.old) }
        ensures err { OnErr result (self.new ≡ self.old) }
        ensures only { IfErr result (λ e. (e ≡ Memory) ⊎ ((e ≡ Range) × ⊥)) }
        ensures never { OnErr result ⊥ }
    {
        Ok(())
    }
}

/// Widths or heights from a list, a single value, or both.
#[derive(Debug, Drop)]
pub enum DimensionValue {
    /// The same for all.
    Exact(usize),
    /// One for each of the first columns or rows.
    List(Vec<usize>),
    /// One for each of the first columns or rows, and one for the rest.
    Partial(Vec<usize>, usize),
}

impl DimensionValue {
    /// Returns the size of a column or row. A `List` must have an entry for it.
    pub fn get(&self, col: usize) -> usize
        requires { is_some (value_at self.now col) ≡ true }
        ensures { Some result ≡ value_at self.now col }
    {
        self.list().get(col).unwrap()
    }

    fn list(&self) -> SizeList<'_>
        ensures { (place : ℕ) → listed_at result place ≡ value_at self.now place }
    {
        match self {
            DimensionValue::Exact(size) => SizeList(&[], Some(*size)),
            DimensionValue::List(sizes) => SizeList(sizes, None),
            DimensionValue::Partial(sizes, rest) => SizeList(sizes, Some(*rest)),
        }
    }

    /// Clones the sizes. Fails only with `Memory`, and never for `Exact`.
    pub fn clone(&self) -> Result<Self, TableError>
        ensures ok { IfOk result (IsSameValue self.now) }
        ensures list { OnErr result (HasList self.now) }
        ensures only { IfErr result (λ e. e ≡ Memory) }
    {
        match self {
            DimensionValue::Exact(size) => Ok(DimensionValue::Exact(*size)),
            DimensionValue::List(sizes) => Ok(DimensionValue::List(sizes.clone()?)),
            DimensionValue::Partial(sizes, rest) => {
                Ok(DimensionValue::Partial(sizes.clone()?, *rest))
            }
        }
    }
}

/// Widths and heights from lists or single values. They never change.
#[derive(Debug, Drop)]
pub struct StaticDimension {
    width: DimensionValue,
    height: DimensionValue,
}

impl StaticDimension {
    /// Creates a dimension from widths and heights.
    pub fn new(width: DimensionValue, height: DimensionValue) -> Self
        ensures widths { result.width ≡ width }
        ensures heights { result.height ≡ height }
    {
        StaticDimension { width, height }
    }

    /// Clones the sizes. Fails only with `Memory`, and only if one of them has a list.
    pub fn clone(&self) -> Result<Self, TableError>
        ensures widths { IfOk result (λ sizes. IsSameValue self.now.width sizes.width) }
        ensures heights { IfOk result (λ sizes. IsSameValue self.now.height sizes.height) }
        ensures list { OnErr result (HasList self.now.width ⊎ HasList self.now.height) }
        ensures only { IfErr result (λ e. e ≡ Memory) }
    {
        Ok(StaticDimension {
            width: self.width.clone()?,
            height: self.height.clone()?,
        })
    }
}

impl From<StaticDimension> for (DimensionValue, DimensionValue) {
    ghost from_gives = { λ sizes pair. (pair.0 ≡ sizes.width) × (pair.1 ≡ sizes.height) };

    fn from(sizes: StaticDimension) -> Self {
        (sizes.width, sizes.height)
    }
}

impl Dimension for StaticDimension {
    ghost width_at = { λ s column. value_at s.width column };

    ghost height_at = { λ s row. value_at s.height row };

    fn has_width(&self, column: usize) -> bool {
        self.width.list().get(column).is_some()
    }

    fn has_height(&self, row: usize) -> bool {
        self.height.list().get(row).is_some()
    }

    fn get_width(&self, column: usize) -> usize {
        self.width.list().get(column).unwrap()
    }

    fn get_height(&self, row: usize) -> usize {
        self.height.list().get(row).unwrap()
    }

    fn alike_from(&self) -> Option<usize> {
        Some(self.width.list().0.len())
    }
}

impl<R, C> Estimate<R, C> for StaticDimension {
    fn estimate(&mut self, _records: &R, _config: &C) -> Result<(), TableError>
        ensures ok { OnOk result (self.new ≡ self.old) }
        ensures never { OnErr result ⊥ }
    {
        Ok(())
    }
}

/// Sizes that are 0 for every column and row.
#[derive(Debug, Clone, Copy, Default, PartialEq, Eq, PartialOrd, Ord, Hash)]
pub struct ZeroDimension;

impl ZeroDimension {
    /// Creates the dimension.
    pub fn new() -> Self {
        ZeroDimension
    }
}

impl Dimension for ZeroDimension {
    ghost width_at = { λ s column. Some 0 };

    ghost height_at = { λ s row. Some 0 };

    fn has_width(&self, _column: usize) -> bool {
        true
    }

    fn has_height(&self, _row: usize) -> bool {
        true
    }

    fn get_width(&self, _column: usize) -> usize {
        0
    }

    fn get_height(&self, _row: usize) -> usize {
        0
    }

    fn alike_from(&self) -> Option<usize> {
        Some(0)
    }
}

impl<R, C> Estimate<R, C> for ZeroDimension {
    fn estimate(&mut self, _records: &R, _config: &C) -> Result<(), TableError>
        ensures ok { OnOk result (self.new ≡ self.old) }
        ensures never { OnErr result ⊥ }
    {
        Ok(())
    }
}
