//! The cells of a later value, below the names of the first.
ghost use Rattle.std.specs.Prelude.{◌≡◌, ◌∷◌, [], IfErr, IfNone, IfOk, MatchOption, length, map};
ghost use Rattle.std.specs.Prelude.{string_bytes};
ghost use Rattle.std.specs.Vec.Iter.{into_iter_items};
ghost use Rattle.tabled_serde.specs.Reader.{bytes_of};
ghost use Rattle.tabled_serde.specs.RowErrors.{IsColumnError, IsNext};
ghost use Rattle.tabled_serde.specs.Rows.{IsPlaced};

use crate::error::RowError;
use crate::reader::Record;
use std::alloc::Global;
use std::vec::IntoIter;

/// The names and cells that weren't placed.
#[derive(Drop)]
struct Unplaced<'a> {
    names: &'a [String],
    cells: IntoIter<String>,
}

impl Unplaced<'_> {
    /// Takes the next cell, if it is one of this name.
    fn take(&mut self, name: &String) -> Option<String>
        ensures names { MatchOption result (self.new.names.now ≡ self.old.names.now)
            (λ cell. map string_bytes self.old.names.now
            ≡ string_bytes name.now ∷ map string_bytes self.new.names.now) }
        ensures cells { MatchOption result
            (into_iter_items self.new.cells ≡ into_iter_items self.old.cells)
            (λ cell. into_iter_items self.old.cells ≡ cell ∷ into_iter_items self.new.cells) }
        ensures other { IfNone result (IsNext self.old.names.now (string_bytes name.now)
            → into_iter_items self.old.cells ≡ []) }
    {
        let (next, rest) = self.names.split_first()?;
        if next != name {
            return None;
        }
        let cell = self.cells.next()?;
        self.names = rest;
        Some(cell)
    }
}

/// Returns a row of cells below these names, where a name that doesn't come next has an empty cell.
/// Fails with `Unknown` at the first field that has no column there.
pub(crate) fn cells_below(
    alloc: Global,
    header: &[String],
    fields: Record,
) -> Result<Vec<String>, RowError>
    requires { length fields.names.items ≡ length fields.cells.items }
    ensures ok { IfOk result (λ row. IsPlaced (map string_bytes header.now) (bytes_of fields.names)
        (bytes_of fields.cells) (bytes_of row)) }
    ensures failed { IfErr result
        (IsColumnError (map string_bytes header.now) (bytes_of fields.names)) }
{
    let Record { names, cells } = fields;
    let mut unplaced = Unplaced {
        names: names.as_slice(),
        cells: cells.into_iter(),
    };
    let mut row = Vec::new(alloc);
    'columns: for name in header {
        match unplaced.take(name) {
            Some(cell) => row.push(cell)?,
            None => row.push(String::new(alloc))?,
        }
    }
    match unplaced.names.split_first() {
        Some((name, _)) => Err(RowError::Unknown {
            field: name.clone()?,
        }),
        None => Ok(row),
    }
}
