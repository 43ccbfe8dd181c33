//! The columns that are shown.
ghost use Rattle.csv.specs.Records.{fields_of};
ghost use Rattle.std.specs.Prelude.{◌≡◌, ◌↔◌, ◌++◌, ◌∷◌, [], IfErr, IsTrue, MatchOption, OnOk, map};
ghost use Rattle.tabview_cells.specs.Choice.{counting_cell};
ghost use Rattle.tabview_cells.specs.Kinds.{joined_kinds};
ghost use Rattle.tabview_read.specs.Columns.{CannotFind, FindsColumns, IsFirstNamed, IsNamed};
ghost use Rattle.tabview_read.specs.Columns.{IsNameOf, IsNoNumber, IsNumberOf, IsUnnamed, Means};
ghost use Rattle.tabview_read.specs.Columns.{MeansNone, names_in, widened};
ghost use Rattle.tabview_read.specs.Selection.{Grows};

use crate::error::ReadError;
use crate::row::Row;
use csv::StringRecord;
use std::alloc::{AllocError, Global};
use tabview_cells::{Kind, join_kinds};

/// The columns that are shown, and what their cells are.
#[derive(Drop)]
pub struct Chosen<'a> {
    alloc: Global,
    /// The names or numbers of the columns that are wanted. If there are none, all are.
    pub wanted: &'a [&'a str],
    /// The columns, in the order in which they are shown.
    pub columns: Vec<usize>,
    /// The kinds of these columns.
    pub kinds: Vec<Kind>,
}

impl<'a> Chosen<'a> {
    /// Makes a choice of these columns, none of which is found yet.
    pub fn new(alloc: Global, wanted: &'a [&'a str]) -> Chosen<'a>
        ensures wanted { result.wanted ≡ wanted.entry }
        ensures columns { result.columns.items ≡ [] }
        ensures kinds { result.kinds.items ≡ [] }
    {
        Chosen {
            alloc,
            wanted,
            columns: Vec::new(alloc),
            kinds: Vec::new(alloc),
        }
    }

    /// Finds the columns that are wanted, or all of a row of `count` cells if none are. Fails at a
    /// name that means no column.
    pub fn find(&mut self, names: Option<&StringRecord>, count: usize) -> Result<(), ReadError>
        ensures grows { Grows self.old.columns.items self.new.columns.items }
        ensures found { OnOk result (FindsColumns (names_in names.entry) count
            (map (λ s. s.now) self.old.wanted.now)
            self.old.columns.items self.new.columns.items) }
        ensures missing { IfErr result (CannotFind (names_in names.entry) count
            (map (λ s. s.now) self.old.wanted.now)) }
        ensures wanted { self.new.wanted ≡ self.old.wanted }
    {
        for name in self.wanted {
            match column_of(names, count, name) {
                Some(column) => self.push(column)?,
                None => {
                    let name = String::from_str(self.alloc, name)?;
                    return Err(ReadError::NoColumn(name));
                }
            }
        }
        self.widen(count)?;
        Ok(())
    }

    /// Shows all columns of a row of `count` cells, if none were wanted.
    pub fn widen(&mut self, count: usize) -> Result<(), AllocError>
        ensures grows { Grows self.old.columns.items self.new.columns.items }
        ensures widened { OnOk result (self.new.columns.items
            ≡ widened self.old.wanted.now count self.old.columns.items) }
        ensures wanted { self.new.wanted ≡ self.old.wanted }
    {
        if self.wanted.is_empty() {
            for column in self.columns.len()..count {
                self.push(column)?;
            }
        }
        Ok(())
    }

    /// Adds a column.
    fn push(&mut self, column: usize) -> Result<(), AllocError>
        ensures grows { Grows self.old.columns.items self.new.columns.items }
        ensures column { OnOk result
            (self.new.columns.items ≡ self.old.columns.items ++ column ∷ []) }
        ensures wanted { self.new.wanted ≡ self.old.wanted }
    {
        self.columns.push(column)?;
        self.kinds.push(Kind::Empty)?;
        Ok(())
    }

    /// Joins the kinds of the columns with those of a row's cells. Null, and cells that are
    /// `blank`, don't count.
    pub fn join_kinds(&mut self, row: &Row, blank: &str)
        ensures columns { self.new.columns.items ≡ self.old.columns.items }
        ensures kinds { self.new.kinds.items ≡ joined_kinds self.old.kinds.items
            (map (counting_cell blank.now (fields_of row.now.cells)) self.old.columns.items) }
        ensures wanted { self.new.wanted ≡ self.old.wanted }
    {
        let columns = self.columns.as_slice();
        join_kinds(self.kinds.as_mut_slice(), columns, &row.cells, blank);
    }
}

/// Whether a name is that of a column. If no column has that name, it may be the column's number,
/// from 1.
pub fn is_column(names: Option<&StringRecord>, column: usize, name: &str) -> bool
    ensures { IsTrue result ↔ IsNameOf (names_in names.entry) name.now column }
{
    match column_named(names, name) {
        None => index_of(name) == Some(column),
        Some(_) => match names {
            Some(names) => is_named(names, column, name),
            None => false,
        },
    }
}

/// Returns the column of a name. If no column has that name, it may be a number from 1.
fn column_of(names: Option<&StringRecord>, count: usize, name: &str) -> Option<usize>
    ensures { let own = names_in names.entry in
        MatchOption result (MeansNone own count name.now) (Means own count name.now) }
{
    if let Some(column) = column_named(names, name) {
        return Some(column);
    }
    let Some(column) = index_of(name) else {
        return None;
    };
    if column < count { Some(column) } else { None }
}

/// Returns the first column that has a name.
fn column_named(names: Option<&StringRecord>, name: &str) -> Option<usize>
    ensures { let own = names_in names.entry in
        MatchOption result (IsUnnamed own name.now) (IsFirstNamed own name.now) }
{
    let Some(names) = names else {
        return None;
    };
    for column in 0..names.len() {
        if is_named(names, column, name) {
            return Some(column);
        }
    }
    None
}

/// Whether a column has a name.
fn is_named(names: &StringRecord, column: usize, name: &str) -> bool
    ensures { IsTrue result ↔ IsNamed (fields_of names.now) name.now column }
{
    match names.get(column) {
        Some(own) => own == name,
        None => false,
    }
}

/// Returns the index that a number from 1 means.
fn index_of(number: &str) -> Option<usize>
    ensures { MatchOption result (IsNoNumber number.now) (IsNumberOf number.now) }
{
    match number.parse::<usize>() {
        Ok(number) => number.checked_sub(1),
        Err(_) => None,
    }
}
