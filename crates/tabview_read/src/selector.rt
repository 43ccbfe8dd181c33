//! Selects the rows that are shown.
ghost use Rattle.csv.specs.Records.{fields_of};
ghost use Rattle.std.specs.Prelude.{◌≡◌, ◌<◌, ◌≤◌, ◌-◌, ◌^◌, ◌++◌, ◌∷◌, [], ℕ, IfOk, List, OnOk, Option, Some, length, option_map};
ghost use Rattle.tabview_read.specs.Selection.{first_count, has_first, last, shown_rows};
ghost use Rattle.tabview_read.specs.Sheets.{HasRows, IsSheetOf, ReadsRows, ShowsRows, is_full};
ghost use Rattle.tabview_read.specs.declared.sheet.Wanted.{Wanted};
ghost use Rattle.tabview_read.specs.declared.row.Row.{Row};

use crate::error::ReadError;
use crate::row::{Row, Rows};
use crate::sheet::{Collector, Sheet, Wanted};
use csv::StringRecord;
use std::alloc::{AllocError, Global};
use std::collections::VecDeque;

/// Reads all rows, and keeps those that are shown.
pub fn read_sheet<T: Rows>(
    alloc: Global,
    wanted: &Wanted<'_>,
    rows: &mut T,
) -> Result<Sheet, ReadError>
    ensures { IfOk result (λ sheet.
        IsSheetOf T.names_give T.read_gives wanted.now rows.old sheet rows.new) }
{
    let mut selector = Selector::begin(alloc, wanted, rows.names())?;
    selector.read(rows)?;
    selector.finish()
}

/// The rows so far: those that are shown are written, or kept until all were read.
#[derive(Drop)]
pub(crate) struct Selector<'a> {
    alloc: Global,
    collector: Collector<'a>,
    has_names: bool,
    /// The last rows with their numbers, if these are shown.
    last: VecDeque<(u64, Row)>,
    /// The count of the rows that were read.
    count: u64,
}

impl<'a> Selector<'a> {
    /// Begins with the names of the columns, if there are some.
    fn begin(
        alloc: Global,
        wanted: &'a Wanted<'a>,
        names: Option<&StringRecord>,
    ) -> Result<Selector<'a>, ReadError>
        ensures { IfOk result
            (HasRows wanted.now (option_map (λ n. fields_of n.now) names.entry) []) }
    {
        let mut collector = Collector::new(alloc, wanted);
        match names {
            None => Ok(Selector::of(alloc, collector, false)),
            Some(names) => {
                collector.write_names(names)?;
                Ok(Selector::of(alloc, collector, true))
            }
        }
    }

    /// Makes a selector that has read no row.
    fn of(alloc: Global, collector: Collector<'a>, has_names: bool) -> Selector<'a>
        ensures collector { result.collector ≡ collector.entry }
        ensures has_names { result.has_names ≡ has_names }
        ensures last { result.last.items ≡ [] }
        ensures count { result.count ≡ 0 }
    {
        Selector {
            alloc,
            collector,
            has_names,
            last: VecDeque::new(alloc),
            count: 0,
        }
    }

    /// Reads rows until there is none, or no further one is wanted.
    fn read<T: Rows>(&mut self, rows: &mut T) -> Result<(), ReadError>
        ensures { (w : Wanted) (names : Option (List (List ℕ))) → HasRows w names [] self.old
            → OnOk result ((all : List Row) × ReadsRows T.read_gives w rows.old all rows.new
            × HasRows w names all self.new) }
    {
        let mut row = Row::new(self.alloc);
        for _row in 0..u64::MAX {
            if self.is_full() {
                return Ok(());
            }
            let is_there = rows.read(&mut row)?;
            if !is_there {
                return Ok(());
            }
            self.take(&mut row)?;
        }
        Ok(())
    }

    /// Whether no further row is wanted.
    fn is_full(&self) -> bool
        ensures { result ≡ is_full self.now.collector.wanted.now self.now.count }
    {
        !self.collector.wanted.count && self.has_first()
    }

    /// Whether as many rows were read as are wanted first.
    fn has_first(&self) -> bool
        ensures { result ≡ has_first self.now.collector.wanted.now.rows self.now.count }
    {
        match self.collector.wanted.rows {
            Some(rows) => rows as u64 <= self.count,
            None => false,
        }
    }

    /// Takes the next row: writes or keeps it if it is wanted.
    fn take(&mut self, row: &mut Row) -> Result<(), ReadError>
        ensures { (w : Wanted) (names : Option (List (List ℕ))) (rows : List Row)
            → HasRows w names rows self.old → length rows < 2 ^ 64 - 1
            → OnOk result (HasRows w names (rows ++ row.old ∷ []) self.new) }
    {
        let is_first = self.count == 0 && !self.has_names;
        self.collector.find_columns(is_first, row.cells.len())?;
        let has_first = self.has_first();
        self.count = self.count.saturating_add(1);
        if has_first {
            return Ok(());
        }
        match self.collector.wanted.tail {
            None => {
                self.collector.write_row(row, self.count)?;
                Ok(())
            }
            Some(most) => {
                keep_last(self.alloc, &mut self.last, most, self.count, row)?;
                Ok(())
            }
        }
    }

    /// Returns the count of the rows that are shown.
    fn count_shown(&self) -> u64
        ensures { (w : Wanted) (names : Option (List (List ℕ))) (rows : List Row)
            → HasRows w names rows self.now → result ≡ length (shown_rows w.rows w.tail rows) }
    {
        match self.collector.wanted.tail {
            Some(_) => self.last.len() as u64,
            None => self.count_first(),
        }
    }

    /// Returns how many of the rows that were read are among the first that are wanted.
    fn count_first(&self) -> u64
        ensures { result ≡ first_count self.now.collector.wanted.now.rows self.now.count }
    {
        match self.collector.wanted.rows {
            Some(rows) => self.count.min(rows as u64),
            None => self.count,
        }
    }

    /// Writes the rows that were kept, and returns all that are shown.
    fn finish(self) -> Result<Sheet, ReadError>
        ensures { (w : Wanted) (names : Option (List (List ℕ))) (rows : List Row)
            → HasRows w names rows self.entry → IfOk result (ShowsRows w names rows) }
    {
        let hidden = self.count.saturating_sub(self.count_shown());
        let Selector {
            mut collector,
            has_names,
            last,
            ..
        } = self;
        collector.write_rows(last)?;
        Ok(collector.finish(has_names, hidden))
    }
}

/// Keeps a row with its number behind the last ones, of which there are at most as many as wanted.
/// The row that is dropped for it is given back to be read into.
fn keep_last(
    alloc: Global,
    kept: &mut VecDeque<(u64, Row)>,
    most: usize,
    number: u64,
    row: &mut Row,
) -> Result<(), AllocError>
    ensures { length kept.old.items ≤ most → OnOk result
        (kept.new.items ≡ last (Some most) (kept.old.items ++ (number, row.old) ∷ [])) }
{
    if kept.len() < most {
        kept.push_back((number, std::mem::replace(row, Row::new(alloc))))?;
        return Ok(());
    }
    if let Some((_, spare)) = kept.pop_front() {
        kept.push_back((number, std::mem::replace(row, spare)))?;
    }
    Ok(())
}
