//! Records of an iterator.
ghost use Rattle.std.specs.Prelude.{◌≡◌};

use tabled_base::{IntoRecords, Records};

/// The rows of an iterator, with a declared number of columns and rows. Neither is a limit: all
/// rows are yielded, with all their cells.
#[derive(Clone, Copy, Debug, Drop)]
pub struct IterRecords<I> {
    iter: I,
    columns: usize,
    rows: Option<usize>,
}

impl<I> IterRecords<I> {
    /// Makes records of rows. `columns` and `rows` are only declared.
    pub fn new(iter: I, columns: usize, rows: Option<usize>) -> IterRecords<I>
        ensures iter { result.iter ≡ iter }
        ensures columns { result.columns ≡ columns }
        ensures rows { result.rows ≡ rows }
    {
        IterRecords {
            iter,
            columns,
            rows,
        }
    }

    /// Returns the declared number of columns.
    pub fn count_columns(&self) -> usize
        ensures { result ≡ self.now.columns }
    {
        self.columns
    }

    /// Returns the declared number of rows, if there is one.
    pub fn count_rows(&self) -> Option<usize>
        ensures { result ≡ self.now.rows }
    {
        self.rows
    }
}

impl<I: IntoRecords> IntoRecords for IterRecords<I> {
    type Cell = I::Cell;

    type IterColumns = I::IterColumns;

    type IterRows = I::IterRows;

    ghost ends = { λ records. I.ends records.iter };

    ghost gives = { λ records. I.gives records.iter };

    ghost begins = { λ records. I.begins records.iter };

    fn iter_rows(self) -> I::IterRows {
        self.iter.iter_rows()
    }

    ghost whole_rows = { λ records cells begun. I.whole_rows records.iter cells begun };
}

impl<I: IntoRecords> Records for IterRecords<I> {
    type Iter = I;

    ghost ends = { λ records. I.ends records.iter };

    ghost gives = { λ records. I.gives records.iter };

    fn iter_rows(self) -> I {
        self.iter
    }
}
