//! Sizes that are stored or not (`CompleteDimension`), and which boxes of a pool table are made
//! wider or taller (`PoolTableDimension`).
ghost use Rattle.std.specs.Prelude.{IfErr, IfOk, IsSome, None, OnErr, Some, is_none};
ghost use Rattle.std.specs.Prelude.{option_map, ◌&&◌, ◌≡◌, ◌⊎◌};
ghost use Rattle.tabled_base.specs.declared.error.TableError.TheVariants.{Memory};
ghost use Rattle.tabled_size.specs.Entries.{clears_heights, clears_widths, stored_at};
ghost use Rattle.tabled_size.specs.Entries.{unless_cleared};
ghost use Rattle.tabled_size.specs.Stored.{heights_of, is_stored, widths_of};

use crate::dimension::Dimension;
use std::alloc::Global;
use tabled_base::{Entity, TableError, TableOption};

/// The widths and the heights of a table, each stored or not. What isn't stored is estimated when
/// needed.
#[derive(Debug, Drop, PartialEq, Eq, PartialOrd, Ord)]
pub struct CompleteDimension {
    alloc: Global,
    width: Option<Vec<usize>>,
    height: Option<Vec<usize>>,
}

impl CompleteDimension {
    /// Creates a dimension without stored sizes.
    pub fn new(alloc: Global) -> Self
        ensures widths { widths_of result ≡ None }
        ensures heights { heights_of result ≡ None }
    {
        CompleteDimension {
            alloc,
            width: None,
            height: None,
        }
    }

    /// Whether both widths and heights are stored.
    pub fn is_complete(&self) -> bool
        ensures { result ≡ is_stored self.now }
    {
        self.width.is_some() && self.height.is_some()
    }

    /// Whether neither widths nor heights are stored.
    pub fn is_empty(&self) -> bool
        ensures { result ≡ (is_none (widths_of self.now) && is_none (heights_of self.now)) }
    {
        self.width.is_none() && self.height.is_none()
    }

    /// Stores the width of each column of the table, in terminal columns, padding included.
    pub fn set_widths(&mut self, columns: Vec<usize>)
        ensures widths { widths_of self.new ≡ Some columns.items }
        ensures heights { heights_of self.new ≡ heights_of self.old }
    {
        self.width = Some(columns);
    }

    /// Stores the height of each row of the table, in lines, padding included.
    pub fn set_heights(&mut self, rows: Vec<usize>)
        ensures heights { heights_of self.new ≡ Some rows.items }
        ensures widths { widths_of self.new ≡ widths_of self.old }
    {
        self.height = Some(rows);
    }

    /// Removes the stored widths.
    pub fn clear_width(&mut self)
        ensures widths { widths_of self.new ≡ None }
        ensures heights { heights_of self.new ≡ heights_of self.old }
    {
        self.width = None;
    }

    /// Removes the stored heights.
    pub fn clear_height(&mut self)
        ensures heights { heights_of self.new ≡ None }
        ensures widths { widths_of self.new ≡ widths_of self.old }
    {
        self.height = None;
    }

    /// Removes the stored widths and heights.
    pub fn clear(&mut self)
        ensures widths { widths_of self.new ≡ None }
        ensures heights { heights_of self.new ≡ None }
    {
        self.clear_width();
        self.clear_height();
    }

    /// Removes the stored sizes that a change may have made wrong: the widths for a column, the
    /// heights for a row, both for a cell or the whole table, none without a hint.
    pub fn reastimate(&mut self, hint: Option<Entity>)
        ensures widths { widths_of self.new
            ≡ unless_cleared (clears_widths hint) (widths_of self.old) }
        ensures heights { heights_of self.new
            ≡ unless_cleared (clears_heights hint) (heights_of self.old) }
    {
        match hint {
            None => {}
            Some(Entity::Global | Entity::Cell(_, _)) => self.clear(),
            Some(Entity::Row(_)) => self.clear_height(),
            Some(Entity::Column(_)) => self.clear_width(),
        }
    }

    /// Returns the stored widths, if any.
    pub fn get_widths(&self) -> Option<&[usize]>
        ensures { option_map (λ sizes. sizes.now) result ≡ widths_of self.now }
    {
        self.width.as_deref()
    }

    /// Returns the stored heights, if any.
    pub fn get_heights(&self) -> Option<&[usize]>
        ensures { option_map (λ sizes. sizes.now) result ≡ heights_of self.now }
    {
        self.height.as_deref()
    }

    /// Returns the allocator of the stored sizes.
    pub fn allocator(&self) -> Global
        ensures { result ≡ self.now.alloc }
    {
        self.alloc
    }

    /// Clones the sizes. Fails only with `Memory`, and only if sizes are stored.
    pub fn clone(&self) -> Result<Self, TableError>
        ensures widths { IfOk result (λ sizes. widths_of sizes ≡ widths_of self.now) }
        ensures heights { IfOk result (λ sizes. heights_of sizes ≡ heights_of self.now) }
        ensures stored { OnErr result (IsSome (widths_of self.now) ⊎ IsSome (heights_of self.now)) }
        ensures only { IfErr result (λ e. e ≡ Memory) }
    {
        Ok(CompleteDimension {
            alloc: self.alloc,
            width: self.width.as_ref().cloned()?,
            height: self.height.as_ref().cloned()?,
        })
    }
}

impl Dimension for CompleteDimension {
    ghost width_at = { λ s column. stored_at (widths_of s) column };

    ghost height_at = { λ s row. stored_at (heights_of s) row };

    fn has_width(&self, column: usize) -> bool {
        matches!(&self.width, Some(widths) if column < widths.len())
    }

    fn has_height(&self, row: usize) -> bool {
        matches!(&self.height, Some(heights) if row < heights.len())
    }

    // A lookup through an `Option` costs a printed cell 17 instructions more.
    fn get_width(&self, column: usize) -> usize {
        match &self.width {
            None => unreachable!(),
            Some(widths) => widths[column],
        }
    }

    fn get_height(&self, row: usize) -> usize {
        match &self.height {
            None => unreachable!(),
            Some(heights) => heights[row],
        }
    }
}

/// Which of several neighbouring boxes get the columns or lines that are left over.
#[derive(Debug, Clone, Copy, PartialEq, Eq, PartialOrd, Ord)]
pub enum DimensionPriority {
    /// The first.
    First,
    /// The last.
    Last,
    /// All of them, as evenly as possible. A remainder goes to the first ones, one each.
    List,
}

/// Which boxes of a `PoolTable` are made wider, and which taller.
#[derive(Debug, Clone, Copy, PartialEq, Eq, PartialOrd, Ord)]
pub struct PoolTableDimension {
    width: DimensionPriority,
    height: DimensionPriority,
}

impl PoolTableDimension {
    /// Creates a dimension from the priorities of widths and heights.
    pub fn new(width: DimensionPriority, height: DimensionPriority) -> Self
        ensures widths { result.width ≡ width }
        ensures heights { result.height ≡ height }
    {
        PoolTableDimension { width, height }
    }

    /// Returns the priority of widths.
    pub fn width(&self) -> DimensionPriority
        ensures { result ≡ self.now.width }
    {
        self.width
    }

    /// Returns the priority of heights.
    pub fn height(&self) -> DimensionPriority
        ensures { result ≡ self.now.height }
    {
        self.height
    }
}

/// Replaces the dimension of a table. Its records and its configuration don't change.
impl<R, C> TableOption<R, C, PoolTableDimension> for PoolTableDimension {
    ghost changes = { λ option r c d r' c' d'. (r' ≡ r) × ((c' ≡ c) × (d' ≡ option)) };

    fn change(self, _: &mut R, _: &mut C, dims: &mut Self) -> Result<(), TableError> {
        *dims = self;
        Ok(())
    }

    fn hint_change(&self) -> Option<Entity> {
        Some(Entity::Global)
    }
}
