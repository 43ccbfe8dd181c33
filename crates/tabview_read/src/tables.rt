//! The tables of a database.
ghost use Rattle.csv.specs.Records.{fields_of};
ghost use Rattle.std.specs.Prelude.{◌≡◌, ◌++◌, [], IfOk, OnOk, codes, encode_utf8_all, string_bytes};
ghost use Rattle.tabview_read.specs.Tables.{GivesTable, count_nulls, double_char, doubled, in_quotes};
ghost use Rattle.tabview_read.specs.Tables.{listed_cells};

use crate::error::ReadError;
use crate::query_fault::{object_named, visible};
use crate::row::{Row, Rows};
use crate::sqlite_rows::SqliteRows;
use csv::StringRecord;
use sqlite::types::ValueRef;
use sqlite::{Alter, Connection, Error, ErrorCode, Statement};
use sqlite_resolve::CompileError;
use std::alloc::{AllocError, Global};
use tabview_database::{LeftOut, Obstacle};

/// The tables and views of a database, without those of SQLite itself.
const TABLES: &str = "SELECT name FROM sqlite_schema \
    WHERE (type = 'table' OR type = 'view') AND lower(substr(name, 1, 7)) <> 'sqlite_'";

/// What is shown of a database if no query is asked for.
pub enum Overview {
    /// There is one table: the query of its rows.
    Query(String),
    /// There are several, which are listed.
    List(TableList),
}

/// A line of the list: a table or a view.
#[derive(Drop)]
struct Listed {
    name: String,
    /// The names of its columns, or why they can't be read.
    columns: String,
    /// The count of its rows, if they can be counted.
    count: Option<u64>,
}

/// A list of tables, with the names of their columns and the count of their rows.
#[derive(Drop)]
pub struct TableList {
    alloc: Global,
    names: StringRecord,
    tables: Vec<Listed>,
    /// The tables that were read.
    next: usize,
}

impl TableList {
    fn new(alloc: Global) -> Result<TableList, AllocError> {
        let mut names = StringRecord::new(alloc);
        names.push_field("table")?;
        names.push_field("columns")?;
        names.push_field("rows")?;
        Ok(TableList {
            alloc,
            names,
            tables: Vec::new(alloc),
            next: 0,
        })
    }
}

impl Rows for TableList {
    ghost read_gives = { GivesTable };

    fn names(&self) -> Option<&StringRecord> {
        Some(&self.names)
    }

    fn read(&mut self, row: &mut Row) -> Result<bool, ReadError> {
        row.clear();
        match self.tables.get(self.next) {
            Some(table) => {
                put_listed(self.alloc, row, table)?;
                self.next = self.next.saturating_add(1);
                Ok(true)
            }
            None => Ok(false),
        }
    }
}

/// Adds the cells of a line of the list. The count is null if the rows can't be counted.
fn put_listed(alloc: Global, row: &mut Row, table: &Listed) -> Result<(), AllocError>
    ensures cells { fields_of row.old.cells ≡ [] → OnOk result
        (fields_of row.new.cells ≡ listed_cells table.now) }
    ensures nulls { fields_of row.old.cells ≡ [] → row.old.nulls.items ≡ [] → OnOk result
        (row.new.nulls.items ≡ count_nulls table.now) }
{
    row.push_text(&table.name)?;
    row.push_text(&table.columns)?;
    match table.count {
        Some(count) => row.push_text(&format!(in alloc; "{count}")?),
        None => row.push_null(),
    }
}

/// Returns what is shown of a database: its only table, or a list of its tables and views, with
/// those that were left out. Fails if there is none.
pub fn overview_of<S: Alter>(
    alloc: Global,
    connection: &mut Connection<S>,
    left_out: &[LeftOut],
) -> Result<Overview, ReadError> {
    let names = names_of_tables(alloc, connection)?;
    let is_whole = left_out.iter().all(|object| !object.obstacle.has_rows());
    match names.as_slice() {
        [] if is_whole => Err(ReadError::NoTable),
        [name] if is_whole => Ok(Overview::Query(select_all(alloc, name)?)),
        _ => Ok(Overview::List(list_of(alloc, connection, names, left_out)?)),
    }
}

fn names_of_tables<S: Alter>(
    alloc: Global,
    connection: &mut Connection<S>,
) -> Result<Vec<String>, ReadError> {
    let mut rows = SqliteRows::new(alloc, connection, &[], TABLES, true)?;
    let mut names = Vec::new(alloc);
    put_first_cells(alloc, &mut rows, &mut names)?;
    Ok(names)
}

/// Adds the first cell of each row.
fn put_first_cells<S: Alter>(
    alloc: Global,
    rows: &mut SqliteRows<'_, S>,
    cells: &mut Vec<String>,
) -> Result<(), ReadError> {
    let mut row = Row::new(alloc);
    for _row in 0..u64::MAX {
        if !rows.read(&mut row)? {
            break;
        }
        cells.push(String::from_str(alloc, row.cells.get(0).unwrap_or(""))?)?;
    }
    Ok(())
}

fn list_of<S: Alter>(
    alloc: Global,
    connection: &mut Connection<S>,
    names: Vec<String>,
    left_out: &[LeftOut],
) -> Result<TableList, ReadError> {
    let mut list = TableList::new(alloc)?;
    for name in names {
        list.tables.push(line_of(alloc, connection, name)?)?;
    }
    for object in left_out {
        if object.obstacle.has_rows() {
            list.tables.push(line_without(alloc, object)?)?;
        }
    }
    Ok(list)
}

/// Returns the line of a table or a view.
fn line_of<S: Alter>(
    alloc: Global,
    connection: &mut Connection<S>,
    name: String,
) -> Result<Listed, ReadError> {
    let columns = columns_of(alloc, connection, &name)?;
    let count = count_of(alloc, connection, &name)?;
    Ok(Listed {
        name,
        columns,
        count,
    })
}

/// Returns the line of an object that was left out of the schema.
fn line_without(alloc: Global, object: &LeftOut) -> Result<Listed, AllocError> {
    Ok(Listed {
        name: object.name.clone()?,
        columns: unsupported(alloc, object.obstacle)?,
        count: None,
    })
}

/// Returns the names of the columns of a table, or that it can't be read.
fn columns_of<S: Alter>(
    alloc: Global,
    connection: &mut Connection<S>,
    name: &str,
) -> Result<String, ReadError> {
    match connection.prepare(&select_all(alloc, name)?) {
        Ok(statement) => Ok(joined_columns(alloc, &statement)?),
        Err(error) if is_memory(error) => Err(ReadError::Memory),
        Err(_) => Ok(unsupported(alloc, Obstacle::Table)?),
    }
}

/// Returns what is shown in place of the columns of an object that can't be read.
fn unsupported(alloc: Global, obstacle: Obstacle) -> Result<String, AllocError> {
    format!(in alloc; "(not supported: {obstacle})")
}

fn is_memory(error: Error) -> bool {
    matches!(
        error,
        Error::SqliteFailure(ErrorCode::OutOfMemory)
            | Error::SqlInputError(CompileError::OutOfMemory)
    )
}

fn joined_columns(alloc: Global, statement: &Statement) -> Result<String, AllocError> {
    let mut list = String::new(alloc);
    for name in statement.column_names() {
        if !list.is_empty() {
            list.push_str(", ")?;
        }
        list.push_str(&String::from_utf8_lossy(alloc, name.as_slice())?)?;
    }
    Ok(list)
}

/// Returns the count of the rows of a table, if they can be counted.
fn count_of<S: Alter>(
    alloc: Global,
    connection: &mut Connection<S>,
    name: &str,
) -> Result<Option<u64>, ReadError> {
    match connection.query_row(&count_all(alloc, name)?, &[]) {
        Ok(row) => Ok(number_in(&row)),
        Err(error) if is_memory(error) => Err(ReadError::Memory),
        Err(_) => Ok(None),
    }
}

/// Returns the number that is a row's first value, unless it is below zero.
fn number_in(row: &sqlite::Row) -> Option<u64> {
    match row.get_ref(0) {
        Ok(ValueRef::Int(number)) => u64::try_from(number).ok(),
        _ => None,
    }
}

/// Returns the query of the rows of a table that is asked for. Fails if there is none, or if it
/// was left out.
pub fn query_of_table<S: Alter>(
    alloc: Global,
    connection: &mut Connection<S>,
    left_out: &[LeftOut],
    name: &str,
) -> Result<String, ReadError>
    ensures { IfOk result (λ query.
        string_bytes query ≡ codes "SELECT * FROM " ++ in_quotes name.now) }
{
    let query = select_all(alloc, name)?;
    match connection.prepare(&query) {
        Ok(_) => Ok(query),
        Err(Error::SqlInputError(CompileError::NoSuchTable)) => Err(no_table(
            alloc, left_out, name,
        )?),
        Err(Error::SqlInputError(CompileError::Unsupported)) => Err(ReadError::LeftOut(
            Obstacle::Table,
            visible(alloc, name.as_bytes())?,
        )),
        Err(error) => Err(ReadError::Query(error)),
    }
}

/// Returns why there is no table of a name.
fn no_table(alloc: Global, left_out: &[LeftOut], name: &str) -> Result<ReadError, AllocError> {
    let shown = visible(alloc, name.as_bytes())?;
    match object_named(left_out, name.as_bytes()) {
        Some(object) => Ok(ReadError::LeftOut(object.obstacle, shown)),
        None => Ok(ReadError::NoSuchTable(shown)),
    }
}

/// Returns a query of the rows of a table.
pub(crate) fn select_all(alloc: Global, table: &str) -> Result<String, AllocError>
    ensures { IfOk result (λ query.
        string_bytes query ≡ codes "SELECT * FROM " ++ in_quotes table.now) }
{
    query_of(alloc, "SELECT * FROM ", table)
}

/// Returns a query of the count of the rows of a table.
fn count_all(alloc: Global, table: &str) -> Result<String, AllocError>
    ensures { IfOk result (λ query.
        string_bytes query ≡ codes "SELECT count(*) FROM " ++ in_quotes table.now) }
{
    query_of(alloc, "SELECT count(*) FROM ", table)
}

/// Returns a query that ends in the name of a table.
fn query_of(alloc: Global, beginning: &str, table: &str) -> Result<String, AllocError>
    ensures { IfOk result (λ query. string_bytes query ≡ beginning.now ++ in_quotes table.now) }
{
    let mut query = String::from_str(alloc, beginning)?;
    query.push('"')?;
    push_doubled(&mut query, table)?;
    query.push('"')?;
    Ok(query)
}

/// Appends a name with each quote in it twice.
fn push_doubled(query: &mut String, name: &str) -> Result<(), AllocError>
    ensures { OnOk result (string_bytes query.new ≡ string_bytes query.old ++ doubled name.now) }
{
    for c in name.chars() {
        push_char(query, c)?;
    }
    Ok(())
}

/// Appends a character, twice if it is a quote.
fn push_char(query: &mut String, c: char) -> Result<(), AllocError>
    ensures { OnOk result (string_bytes query.new
        ≡ string_bytes query.old ++ encode_utf8_all (double_char c)) }
{
    if c == '"' {
        query.push('"')?;
    }
    query.push(c)
}
