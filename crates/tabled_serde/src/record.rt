//! The names and cells of a value.
ghost use Rattle.std.specs.Prelude.{◌≡◌, IfErr, IfOk, length};
ghost use Rattle.tabled_serde.specs.Errors.{IsValueError};
ghost use Rattle.tabled_serde.specs.Reader.{bytes_of};
ghost use Rattle.tabled_serde.specs.Rows.{HasFields};

use crate::error::RowError;
use crate::event::Events;
use crate::own_errors::OwnErrors;
use crate::reader::{Reader, Record};
use std::alloc::Global;

/// Reads the fields of a value. A scalar is its text, a variant without data its name, and `None`
/// the text `none`. What is written by `collect_str` is the text that it displays. The items of a
/// list are joined by `, `.
///
/// ```rust
/// let record = read_record(alloc, &city, "")?;
/// ```
pub fn read_record<T: OwnErrors>(alloc: Global, value: &T, none: &str) -> Result<Record, RowError>
    ensures fields { IfOk result (λ found. HasFields T.writes none.now value.now
        (bytes_of found.names) (bytes_of found.cells)) }
    ensures as_many { IfOk result (λ found. length found.names.items ≡ length found.cells.items) }
    ensures failed { IfErr result (IsValueError T.writes T.own_error none.now value.now) }
{
    let mut events = Events::new(alloc);
    value.send(&mut events)?;
    let reader = Reader::new(alloc, none, events.steps.as_slice());
    reader.read()
}
