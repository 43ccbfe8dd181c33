//! `RowSlices`, the rows of records as slices.
ghost use Rattle.std.specs.Iterator.{YieldsFirstBy, item_count};
ghost use Rattle.std.specs.Prelude.{◌≡◌, map};
ghost use Rattle.tabled_base.specs.Slices.{slices_left};

use crate::records::{CellText, ExactRecords};
use crate::vec_records::VecRecords;

/// An iterator over the rows of records, as slices. `VecRecords::as_rows` returns it.
#[derive(Debug, Drop)]
pub struct RowSlices<'a, T: CellText> {
    pub(crate) records: &'a VecRecords<T>,
    pub(crate) next: usize,
}

impl<'a, T: CellText> Iterator for RowSlices<'a, T> {
    type Item = &'a [T];

    ghost next_gives = { YieldsFirstBy (λ row. map T.text row.now) slices_left };

    ghost remaining = { item_count slices_left };

    fn next(&mut self) -> Option<&'a [T]> {
        if self.next >= self.records.count_rows() {
            return None;
        }
        let row = self.records.row(self.next);
        self.next += 1;
        Some(row)
    }
}
