//! `DrawnBlock`, the lines of a drawn box; and how blocks are joined.
ghost use Rattle.std.specs.Prelude.{IfOk, flat_map, length, map, slice_index_or, slice_set};
ghost use Rattle.std.specs.Prelude.{string_bytes, [], ◌++◌, ◌+◌, ◌<◌, ◌≡◌};
ghost use Rattle.tabled_line.specs.Fill.{fill};
ghost use Rattle.tabled_pool.specs.Inherited.{beside, block_sheet_of, most_columns, no_block};
ghost use Rattle.tabled_pool.specs.Inherited.{stacked, widened, with_line};

use std::alloc::{AllocError, Global};
use tabled_line::write_fill;

/// The capacity of a new line behind its spaces, in bytes.
const CAPACITY: usize = 64;

/// The lines of a drawn box, and their width in columns.
#[derive(Drop)]
pub struct DrawnBlock {
    pub width: usize,
    pub lines: Vec<String>,
}

impl DrawnBlock {
    /// A block that has nothing yet.
    pub fn new(alloc: Global) -> DrawnBlock
        ensures { block_sheet_of result ≡ no_block }
    {
        DrawnBlock {
            width: 0,
            lines: Vec::new(alloc),
        }
    }

    /// Makes line `y` if it is the next one. It begins with spaces.
    pub fn begin_line(&mut self, y: usize) -> Result<(), AllocError>
        ensures width { self.new.width ≡ self.old.width }
        ensures lines { IfOk result (λ _. map string_bytes self.new.lines.items
            ≡ with_line y (block_sheet_of self.old)) }
    {
        if y < self.lines.len() {
            return Ok(());
        }
        let mut line = String::with_capacity(
            *self.lines.allocator(),
            self.width.saturating_add(CAPACITY),
        )?;
        write_fill(&mut line, ' ', self.width).map_err(|_| AllocError)?;
        self.lines.push(line)?;
        Ok(())
    }

    /// Appends spaces to line `y`.
    pub fn add_spaces(&mut self, y: usize, count: usize) -> Result<(), AllocError>
        requires { y < length self.old.lines.items }
        ensures width { self.new.width ≡ self.old.width }
        ensures lines { IfOk result (λ _. map string_bytes self.new.lines.items
            ≡ slice_set (map string_bytes self.old.lines.items) y
            (slice_index_or (map string_bytes self.old.lines.items) y [] ++ fill 32 count)) }
    {
        write_fill(&mut self.lines[y], ' ', count).map_err(|_| AllocError)
    }

    /// Appends a text to line `y`.
    fn add_str(&mut self, y: usize, text: &str) -> Result<(), AllocError>
        requires { y < length self.old.lines.items }
        ensures width { self.new.width ≡ self.old.width }
        ensures lines { IfOk result (λ _. map string_bytes self.new.lines.items
            ≡ slice_set (map string_bytes self.old.lines.items) y
            (slice_index_or (map string_bytes self.old.lines.items) y [] ++ text.now)) }
    {
        self.lines[y].push_str(text)?;
        Ok(())
    }

    /// Adds to its width, after each line was appended to.
    pub fn widen(&mut self, by: usize) -> Result<(), AllocError>
        ensures { IfOk result (λ _. (self.new.width ≡ self.old.width + by)
            × (self.new.lines.items ≡ self.old.lines.items)) }
    {
        let Some(width) = self.width.checked_add(by) else {
            return Err(AllocError);
        };
        self.width = width;
        Ok(())
    }

    /// Appends another block at its right. Below its last line, a block is spaces.
    pub fn add(&mut self, other: DrawnBlock) -> Result<(), AllocError>
        ensures { IfOk result (λ _. block_sheet_of self.new
            ≡ beside (block_sheet_of self.old) (block_sheet_of other)) }
    {
        if self.width == 0 && self.lines.as_slice().is_empty() {
            *self = other;
            return Ok(());
        }
        for y in 0..other.lines.len().max(self.lines.len()) {
            self.begin_line(y)?;
            if y < other.lines.len() {
                self.add_str(y, other.lines[y].as_str())?;
            } else {
                self.add_spaces(y, other.width)?;
            }
        }
        self.widen(other.width)
    }
}

fn most_columns(blocks: &[DrawnBlock]) -> usize
    ensures { result ≡ most_columns (map block_sheet_of blocks.now) }
{
    let mut columns = 0;
    for block in blocks {
        columns = block.width.max(columns);
    }
    columns
}

/// Appends the lines of a block, filled with spaces to `width` columns.
fn push_widened(lines: &mut Vec<String>, block: DrawnBlock, width: usize) -> Result<(), AllocError>
    ensures { IfOk result (λ _. map string_bytes lines.new.items
        ≡ map string_bytes lines.old.items ++ widened width (block_sheet_of block)) }
{
    let DrawnBlock {
        width: own,
        lines: texts,
    } = block;
    let spaces = width.saturating_sub(own);
    for mut line in texts {
        write_fill(&mut line, ' ', spaces).map_err(|_| AllocError)?;
        lines.push(line)?;
    }
    Ok(())
}

/// Joins blocks below each other, filled with spaces to the greatest width.
pub fn stacked(alloc: Global, blocks: Vec<DrawnBlock>) -> Result<DrawnBlock, AllocError>
    ensures { IfOk result (λ joined. block_sheet_of joined
        ≡ stacked (map block_sheet_of blocks.items)) }
{
    let width = most_columns(blocks.as_slice());
    let mut lines = Vec::new(alloc);
    for block in blocks {
        push_widened(&mut lines, block, width)?;
    }
    Ok(DrawnBlock { width, lines })
}
