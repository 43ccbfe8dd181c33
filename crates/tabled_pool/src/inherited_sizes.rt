//! `InheritedSizes`: the sizes that a box inherits in a direction, and later those that it passes
//! on.
ghost use Rattle.std.specs.Prelude.{IfOk, [], ◌∷◌, ◌≡◌};
ghost use Rattle.tabled_pool.specs.Inherited.{is_split, sizes_left, taken};

use std::alloc::{AllocError, Global};
use std::mem;

/// Sizes that are taken from the first one on. Those that are taken stay in the list, so that
/// taking needs no other one.
#[derive(Drop)]
pub struct InheritedSizes {
    pub sizes: Vec<usize>,
    /// The index of the first one that isn't taken.
    pub start: usize,
}

impl InheritedSizes {
    pub fn new(alloc: Global) -> InheritedSizes
        ensures { sizes_left result ≡ [] }
    {
        InheritedSizes {
            sizes: Vec::new(alloc),
            start: 0,
        }
    }

    /// The sizes that aren't taken.
    pub fn as_slice(&self) -> &[usize]
        ensures { result.now ≡ sizes_left self.now }
    {
        if self.start < self.sizes.len() {
            &self.sizes[self.start..]
        } else {
            &[]
        }
    }

    /// Makes this one size the only one.
    pub fn set(&mut self, size: usize) -> Result<(), AllocError>
        ensures { IfOk result (λ _. sizes_left self.new ≡ size ∷ []) }
    {
        self.start = 0;
        self.sizes.clear();
        self.sizes.push(size)?;
        Ok(())
    }

    /// Exchanges its sizes, those that are taken too, for others.
    pub fn swap(&mut self, sizes: &mut Vec<usize>)
        ensures { sizes_left self.new ≡ sizes.old.items }
    {
        self.start = 0;
        mem::swap(&mut self.sizes, sizes);
    }

    /// Takes the sizes within the first `size` columns or lines, where each is followed by a
    /// border of one, and makes them the sizes of `part`. A size that reaches beyond loses what is
    /// before that, and one for the border there. Returns whether one ends just there.
    pub fn take(&mut self, size: usize, part: &mut InheritedSizes) -> Result<bool, AllocError>
        ensures { IfOk result (λ met. record {
          part = sizes_left part.new;
          rest = sizes_left self.new;
          met = met;
        } ≡ taken size (sizes_left self.old)) }
    {
        part.start = 0;
        part.sizes.clear();
        let mut left = size;
        'sizes: while self.start < self.sizes.len() {
            let entry = self.sizes[self.start];
            if entry > left {
                self.sizes[self.start] = entry - left - 1;
                return Ok(false);
            }
            self.start += 1;
            if entry == left {
                return Ok(true);
            }
            part.sizes.push(entry)?;
            left = left - entry - 1;
        }
        Ok(false)
    }
}

/// Whether a border is at `place`: after the first of the sizes, the first two, and so on, while
/// these add up to less than `size`.
pub fn is_split(sizes: &[usize], size: usize, place: usize) -> bool
    ensures { result ≡ is_split sizes.now size place }
{
    let mut left = size;
    let mut at = place;
    for entry in sizes {
        if *entry >= left || at < *entry {
            return false;
        }
        if at == *entry {
            return true;
        }
        left -= *entry;
        at = at - *entry - 1;
    }
    false
}
