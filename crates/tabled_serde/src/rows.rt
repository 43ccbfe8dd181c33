//! Values as rows, one by one and all at once.
ghost use Rattle.std.specs.Iterator.{IsFiniteIterable};
ghost use Rattle.std.specs.List.{All};
ghost use Rattle.std.specs.Prelude.{◌≡◌, IfErr, IfOk, IsUtf8, List, None, OnErr, ℕ};
ghost use Rattle.tabled_base.specs.Given.{Given};
ghost use Rattle.tabled_serde.specs.Reader.{bytes_of};
ghost use Rattle.tabled_serde.specs.RowErrors.{IsSourceError};
ghost use Rattle.tabled_serde.specs.RowSteps.{FailsAt, GivesRow, row_steps, rows_left};
ghost use Rattle.tabled_serde.specs.Rows.{AreRows};

use crate::error::RowError;
use crate::own_errors::OwnErrors;
use crate::placed::cells_below;
use crate::record::read_record;
use std::alloc::Global;
use tabled_base::Builder;

/// The rows of an iterator of values: first the names of the fields of the first value, then a row
/// of cells for each value. A later value that leaves out a field has an empty cell there. With
/// `TryRows` they are a source of any table.
///
/// ```rust
/// let rows = ValueRows::new(alloc, cities, "unknown");
/// let table = IterTable::new(TryRows::new(rows));
/// ```
#[derive(Drop)]
pub struct ValueRows<'a, I> {
    alloc: Global,
    values: I,
    none: &'a str,
    /// The names of the fields of the first value, once it is read.
    header: Option<Vec<String>>,
    /// The cells of the first value, until they are yielded.
    first: Option<Vec<String>>,
}

impl<'a, I> ValueRows<'a, I> {
    /// Makes rows of values. The cell of a `None` has the text `none`.
    pub fn new(alloc: Global, values: I, none: &'a str) -> ValueRows<'a, I>
        ensures values { result.values ≡ values }
        ensures none { result.none.now ≡ none.now }
        ensures header { result.header ≡ None }
        ensures first { result.first ≡ None }
    {
        ValueRows {
            alloc,
            values,
            none,
            header: None,
            first: None,
        }
    }

    /// Returns the row of a value. That of the first is the header, and its cells are kept.
    fn row_of<T: OwnErrors>(&mut self, value: &T) -> Result<Vec<String>, RowError>
        ensures gives { IfOk result
            (λ row. GivesRow T.writes self.old value.now (bytes_of row) self.new) }
        ensures unchanged { OnErr result (self.new ≡ self.old) }
        ensures failed { IfErr result (FailsAt T.writes T.own_error self.old value.now) }
    {
        let fields = read_record(self.alloc, value, self.none)?;
        if let Some(header) = &self.header {
            return cells_below(self.alloc, header.as_slice(), fields);
        }
        let header = fields.names.clone()?;
        self.header = Some(header);
        self.first = Some(fields.cells);
        Ok(fields.names)
    }
}

impl<I: Iterator<Item = T>, T: OwnErrors + Drop> Iterator for ValueRows<'_, I> {
    type Item = Result<Vec<String>, RowError>;

    ghost can_next = { λ s. I.can_next s.values };

    ghost next_gives = { row_steps I.next_gives T.writes T.own_error };

    ghost remaining = { rows_left I.remaining };

    fn next(&mut self) -> Option<Result<Vec<String>, RowError>> {
        if let Some(cells) = self.first.take() {
            return Some(Ok(cells));
        }
        let value = self.values.next()?;
        Some(self.row_of(&value))
    }
}

/// Returns a builder of values: a header of the names of their fields, and a row for each value.
/// The cell of a `None` has the text `none`. Fails at the first value that has no row.
///
/// ```rust
/// let table = Table::from(builder(alloc, cities, "")?);
/// ```
pub fn builder<I: IntoIterator<Item = T>, T: OwnErrors + Drop>(
    alloc: Global,
    values: I,
    none: &str,
) -> Result<Builder, RowError>
    requires { IsFiniteIterable I.into_iter_gives I.IntoIter.can_next I.IntoIter.remaining values }
    ensures ok { IfOk result (λ builder. (items : List T)
        × (rows : List (List (List ℕ)))
        × Given I.into_iter_gives I.IntoIter.next_gives values items
        × AreRows T.writes none.now items rows × (builder ≡ rows)) }
    ensures texts { IfOk result (λ builder. All (All IsUtf8) builder) }
    ensures failed { IfErr result (IsSourceError (record {
      source = values;
      becomes = I.into_iter_gives;
      steps = I.IntoIter.next_gives;
      writes = T.writes;
      own = T.own_error;
      none = none.now;
    })) }
{
    let mut builder = Builder::new(alloc);
    'rows: for row in ValueRows::new(alloc, values.into_iter(), none) {
        let row = row?;
        if builder.add_record(&row).is_err() {
            return Err(RowError::Memory);
        }
    }
    Ok(builder)
}
