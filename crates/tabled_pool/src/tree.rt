//! `TableValue`, a tree of texts: how it is dropped, and how it is copied.
ghost use Rattle.std.specs.Prelude.{IfErr, IfOk, IfSome, MatchOption, [], map, ◌+◌, ◌<◌, ◌≡◌, ◌≢◌};
ghost use Rattle.std.specs.Prelude.{◌≤◌};
ghost use Rattle.tabled_base.specs.declared.error.TableError.TheVariants.{Memory};
ghost use Rattle.tabled_pool.specs.Tree.{IsBegun, IsInner, IsOnlyChild, child_count};
ghost use Rattle.tabled_pool.specs.Tree.{left_in, list, nodes, nodes_in, tree_of, within};

use crate::sizes::Direction;
use std::alloc::{AllocError, Global};
use tabled_base::TableError;

/// A tree of texts, which a `PoolTable` prints. An empty row or column is drawn as an empty text.
///
/// Comparing a tree recurses at each level. How deep a printed tree may be, `PoolTable` says.
/// Copying and dropping a tree don't recurse.
#[derive(Debug, PartialEq, Eq, PartialOrd, Ord)]
pub enum TableValue {
    /// Values side by side, from the left.
    Row(Vec<TableValue>),
    /// Values below each other, from the top.
    Column(Vec<TableValue>),
    /// One text.
    Cell(String),
}

/// Boxes side by side or below each other.
#[derive(Clone, Copy)]
pub struct BoxList<'v> {
    pub direction: Direction,
    pub children: &'v [TableValue],
}

impl TableValue {
    /// Returns the allocator of the text or the list.
    pub fn allocator(&self) -> Global {
        match self {
            TableValue::Row(children) | TableValue::Column(children) => *children.allocator(),
            TableValue::Cell(text) => *text.allocator(),
        }
    }

    fn only_child(&self) -> Option<&TableValue>
        ensures { MatchOption result (child_count self.now ≢ 1)
            (λ child. IsOnlyChild self.now child.now) }
    {
        match self {
            TableValue::Row(children) | TableValue::Column(children) => match children.as_slice() {
                [child] => Some(child),
                _ => None,
            },
            TableValue::Cell(_) => None,
        }
    }

    fn children(&self) -> &[TableValue] {
        match self {
            TableValue::Row(children) | TableValue::Column(children) => children.as_slice(),
            TableValue::Cell(_) => &[],
        }
    }

    /// How many values are in a list and in the lists in it.
    pub(crate) fn count_two_levels(&self) -> usize {
        let mut count = self.children().len();
        for child in self.children() {
            count = count.saturating_add(child.children().len());
        }
        count
    }

    /// Descends through lists of one value, which need no more than that. Returns the text or the
    /// list in them.
    pub(crate) fn inner(&self) -> &TableValue
        ensures same { IsInner self.now result.now }
        ensures several { child_count result.now ≢ 1 }
    {
        let mut value = self;
        'lists: loop {
            match value.only_child() {
                Some(child) => value = child,
                None => return value,
            }
        }
    }

    /// Returns the children of a row or column. A text is dropped, and has none.
    fn into_children(self) -> Option<Vec<TableValue>>
        ensures { MatchOption result (nodes self ≡ 1)
            (λ children. nodes self ≡ nodes_in children.items + 1) }
    {
        match self {
            TableValue::Row(children) | TableValue::Column(children) => Some(children),
            TableValue::Cell(_) => None,
        }
    }

    /// Descends to the last text or empty list of a value, and drops it. Returns what is left to
    /// drop: in each list on the way down, the list above it replaces the last child.
    #[tactic(auto, using(crate::proofs::NodeSums::nodes_in_push))]
    fn drop_last_leaf(self, above: Vec<TableValue>) -> Vec<TableValue>
        ensures { nodes_in result.items < nodes self + nodes_in above.items }
    {
        let mut value = self;
        let mut rest = above;
        'lists: loop {
            let Some(mut children) = value.into_children() else {
                return rest;
            };
            let Some(last) = children.pop() else {
                children.destroy_empty();
                return rest;
            };
            children.push_reserved(TableValue::Row(rest));
            rest = children;
            value = last;
        }
    }
}

/// Takes the next value from the lists that `drop_last_leaf` returned. A list without further
/// children is freed, and the list above it continues.
#[tactic(auto, using(crate::proofs::NodeSums::nodes_in_push))]
fn take_next(left: Vec<TableValue>) -> Option<(TableValue, Vec<TableValue>)>
    ensures { IfSome result (λ next. nodes next.0 + nodes_in next.1.items ≤ nodes_in left.items) }
{
    let mut rest = left;
    'lists: loop {
        let Some(above) = rest.pop() else {
            rest.destroy_empty();
            return None;
        };
        if let Some(value) = rest.pop() {
            rest.push_reserved(above);
            return Some((value, rest));
        }
        rest.destroy_empty();
        match above.into_children() {
            Some(children) => rest = children,
            None => return None,
        }
    }
}

/// Drops a tree of any depth, without recursion or allocation: each list stores the list above it.
impl Drop for TableValue {
    fn drop(self) {
        let root = Vec::new(self.allocator());
        let mut rest = self.drop_last_leaf(root);
        'values: loop {
            match take_next(rest) {
                Some((value, left)) => rest = value.drop_last_leaf(left),
                None => return,
            }
        }
    }
}

/// A list that is being copied: the copies so far, and the values after the current one.
#[derive(Drop)]
pub(crate) struct Level<'a> {
    is_row: bool,
    copies: Vec<TableValue>,
    left: &'a [TableValue],
}

fn list_of(is_row: bool, children: Vec<TableValue>) -> TableValue
    ensures { tree_of result ≡ list is_row (map tree_of children.items) }
{
    if is_row {
        TableValue::Row(children)
    } else {
        TableValue::Column(children)
    }
}

/// Starts to copy a list, and returns its first value if there is one.
#[tactic(auto, using(crate::proofs::Levels::within_push, crate::proofs::Levels::left_in_push))]
fn begin<'a>(
    alloc: Global,
    is_row: bool,
    children: &'a [TableValue],
    levels: &mut Vec<Level<'a>>,
) -> Result<Option<&'a TableValue>, AllocError>
    ensures { IfOk result (λ first. MatchOption first
        ((children.now ≡ []) × (levels.new.items ≡ levels.old.items))
        (λ v. IsBegun levels.old.items (list is_row (map tree_of children.now))
        (nodes_in children.now + 1) levels.new.items v.now)) }
{
    let Some((first, left)) = children.split_first() else {
        return Ok(None);
    };
    let copies = Vec::with_capacity(alloc, children.len())?;
    levels.push(Level {
        is_row,
        copies,
        left,
    })?;
    Ok(Some(first))
}

/// Descends to the first text or empty list of a value, and copies it.
fn copy_first<'a>(
    value: &'a TableValue,
    levels: &mut Vec<Level<'a>>,
) -> Result<TableValue, AllocError>
    ensures copy { IfOk result (λ copy. within levels.new.items (tree_of copy)
        ≡ within levels.old.items (tree_of value.now)) }
    ensures left { IfOk result (λ _. left_in levels.new.items < nodes value.now + left_in
        levels.old.items) }
{
    let mut now = value;
    'values: loop {
        match now {
            TableValue::Cell(text) => return Ok(TableValue::Cell(text.clone()?)),
            TableValue::Row(children) => {
                let alloc = *children.allocator();
                match begin(alloc, true, children.as_slice(), levels)? {
                    Some(first) => now = first,
                    None => return Ok(TableValue::Row(Vec::new(alloc))),
                }
            }
            TableValue::Column(children) => {
                let alloc = *children.allocator();
                match begin(alloc, false, children.as_slice(), levels)? {
                    Some(first) => now = first,
                    None => return Ok(TableValue::Column(Vec::new(alloc))),
                }
            }
        }
    }
}

impl TableValue {
    /// Returns a copy of the tree, whatever its depth: copying doesn't recurse. Fails only with
    /// `Memory`, if an allocation fails.
    #[tactic(auto, using(crate::proofs::Levels::left_in_push, crate::proofs::NodeSums::nodes_in_cons))]
    pub fn clone(&self) -> Result<TableValue, TableError>
        ensures ok { IfOk result (λ copy. tree_of copy ≡ tree_of self.now) }
        ensures only { IfErr result (λ e. e ≡ Memory) }
    {
        let mut levels = Vec::new(self.allocator());
        let mut copy = copy_first(self, &mut levels)?;
        'values: loop {
            let Some(mut level) = levels.pop() else {
                return Ok(copy);
            };
            level.copies.push(copy)?;
            let Some((next, left)) = level.left.split_first() else {
                copy = list_of(level.is_row, level.copies);
                continue;
            };
            level.left = left;
            levels.push(level)?;
            copy = copy_first(next, &mut levels)?;
        }
    }
}
