//! Tables of values.
ghost use Rattle.std.specs.Iterator.{IsFiniteIterable};
ghost use Rattle.std.specs.List.{All};
ghost use Rattle.std.specs.Prelude.{IfErr, IfOk, IsUtf8, List, [], ℕ};
ghost use Rattle.tabled_base.specs.Given.{Given};
ghost use Rattle.tabled_serde.specs.RowErrors.{IsSourceError};
ghost use Rattle.tabled_serde.specs.Rows.{AreRows};
ghost use Rattle.tabled_table.specs.NewTable.{IsNew};
ghost use Rattle.tabled_table.specs.TableSheet.{cells_of};

use crate::error::RowError;
use crate::own_errors::OwnErrors;
use crate::rows::builder;
use std::alloc::Global;
use tabled_table::Table;

/// Returns a table of values, as `Table::new` does of values that are `Tabled`: a header of the
/// names of their fields, and a row for each value. The cell of a `None` is empty; `builder` takes
/// another text. Without a value the table is empty, since no value says the names. Fails at the
/// first value that has no row.
///
/// ```rust
/// let table = tabled_serde::table(alloc, cities)?;
/// ```
pub fn table<I: IntoIterator<Item = T>, T: OwnErrors + Drop>(
    alloc: Global,
    values: I,
) -> Result<Table, RowError>
    requires { IsFiniteIterable I.into_iter_gives I.IntoIter.can_next I.IntoIter.remaining values }
    ensures ok { IfOk result (λ table. (items : List T) × (rows : List (List (List ℕ)))
        × Given I.into_iter_gives I.IntoIter.next_gives values items
        × AreRows T.writes [] items rows × IsNew rows table) }
    ensures texts { IfOk result (λ table. All (All IsUtf8) (cells_of table)) }
    ensures failed { IfErr result (IsSourceError (record {
      source = values;
      becomes = I.into_iter_gives;
      steps = I.IntoIter.next_gives;
      writes = T.writes;
      own = T.own_error;
      none = [];
    })) }
{
    Ok(Table::from(builder(alloc, values, "")?))
}
