//! The objects of a schema that can't be read.
ghost use Rattle.std.specs.Prelude.{◌≡◌};
ghost use Rattle.tabview_database.specs.Obstacles.{has_rows};

use crate::error::DatabaseError;
use crate::held::Held;
use crate::merging::pager_over;
use sqlite::Files;
use sqlite::types::ValueRef;
use sqlite_btree::{Scratch, destroy, table};
use sqlite_pool::Pool;
use sqlite_resolve::{CompileError, define_view, is_read};
use sqlite_store::Unopened;
use sqlite_value::row::Row;
use std::alloc::{AllocError, Global};
use std::fmt;

/// The root page of the table of the schema.
const SCHEMA: u32 = 1;

/// Why an object of a schema is left out.
#[derive(Clone, Copy, Debug, PartialEq, Eq)]
pub enum Obstacle {
    /// Its rows are made by a module.
    VirtualTable,
    /// Its query has what isn't supported.
    View,
    /// Its definition, or that of an index of it, has what isn't supported.
    Table,
    /// Its definition has what isn't supported. Tables can be read without it.
    Index,
    /// It does nothing where tables are only read.
    Trigger,
}

impl Obstacle {
    /// Whether the object has rows, which can't be shown.
    pub fn has_rows(self) -> bool
        ensures { result ≡ has_rows self }
    {
        match self {
            Obstacle::VirtualTable | Obstacle::View | Obstacle::Table => true,
            Obstacle::Index | Obstacle::Trigger => false,
        }
    }
}

impl fmt::Display for Obstacle {
    fn fmt<W: fmt::Write>(&self, f: &mut fmt::Formatter<W>) -> fmt::Result {
        f.write_str(match self {
            Obstacle::VirtualTable => "a virtual table",
            Obstacle::View => "a view whose query can't be read",
            Obstacle::Table => "a table whose definition can't be read",
            Obstacle::Index => "an index whose definition can't be read",
            Obstacle::Trigger => "a trigger",
        })
    }
}

/// An object of a schema that is left out.
#[derive(Drop)]
pub struct LeftOut {
    pub obstacle: Obstacle,
    pub name: String,
    rowid: i64,
    /// Its root page, 0 if it has none.
    root: u32,
}

/// Removes the objects that can't be read from the schema in memory, and returns them.
pub(crate) fn without_obstacles(
    alloc: Global,
    files: Files<Held>,
) -> Result<(Files<Held>, Vec<LeftOut>), DatabaseError> {
    let (files, rows) = read_schema(alloc, files)?;
    let left_out = obstacles(alloc, &rows)?;
    if left_out.is_empty() {
        return Ok((files, left_out));
    }
    let files = removed(alloc, files, &left_out)?;
    Ok((files, left_out))
}

/// Reads the rows of the schema: rowid, type, name, table, root page and SQL.
fn read_schema(
    alloc: Global,
    files: Files<Held>,
) -> Result<(Files<Held>, Vec<Row>), DatabaseError> {
    let pager = pager_over(alloc, files)?;
    match Unopened::new(alloc, pager, &[]) {
        Ok(mut unopened) => {
            let rows = unopened.read_catalog()?;
            Ok((unopened.close(), rows))
        }
        Err(_) => Err(DatabaseError::Memory),
    }
}

/// Returns the objects that can't be read.
fn obstacles(alloc: Global, rows: &[Row]) -> Result<Vec<LeftOut>, AllocError> {
    let mut left_out = Vec::new(alloc);
    for row in rows {
        if let Some(obstacle) = obstacle_of(alloc, row)? {
            left_out.push(LeftOut {
                obstacle,
                name: String::from_utf8_lossy(alloc, bytes_of(row.get(2)))?,
                rowid: rowid_of(row),
                root: root_of(row),
            })?;
        }
    }
    Ok(left_out)
}

/// Returns why an object can't be read, if it can't.
fn obstacle_of(alloc: Global, row: &Row) -> Result<Option<Obstacle>, AllocError> {
    match bytes_of(row.get(1)) {
        b"trigger" => Ok(Some(Obstacle::Trigger)),
        b"table" if has_no_page(row) => Ok(Some(Obstacle::VirtualTable)),
        b"view" => view_obstacle(alloc, bytes_of(row.get(5))),
        b"index" => index_obstacle(alloc, row.get(5)),
        _ => Ok(None),
    }
}

/// Returns why a view can't be read, if it can't.
fn view_obstacle(alloc: Global, sql: &[u8]) -> Result<Option<Obstacle>, AllocError> {
    match define_view(alloc, sql) {
        Ok(_) => Ok(None),
        Err(CompileError::OutOfMemory) => Err(AllocError),
        Err(_) => Ok(Some(Obstacle::View)),
    }
}

/// Returns why an index can't be read, if it can't. One of a key of its table has no SQL.
fn index_obstacle(alloc: Global, sql: ValueRef<'_>) -> Result<Option<Obstacle>, AllocError> {
    match sql {
        ValueRef::Text(sql) if !is_read(alloc, sql)? => Ok(Some(Obstacle::Index)),
        _ => Ok(None),
    }
}

/// Whether a table has no root page, as a virtual one.
fn has_no_page(row: &Row) -> bool {
    root_of(row) == 0
}

/// Returns the root page of an object, 0 if it has none.
fn root_of(row: &Row) -> u32 {
    match row.get(4) {
        ValueRef::Int(page) => u32::try_from(page).unwrap_or(0),
        _ => 0,
    }
}

fn rowid_of(row: &Row) -> i64 {
    match row.get(0) {
        ValueRef::Int(rowid) => rowid,
        _ => 0,
    }
}

fn bytes_of<'a>(value: ValueRef<'a>) -> &'a [u8] {
    match value {
        ValueRef::Text(bytes) => bytes,
        _ => &[],
    }
}

/// Removes rows of the schema, and the pages of indexes.
fn removed(
    alloc: Global,
    files: Files<Held>,
    left_out: &[LeftOut],
) -> Result<Files<Held>, DatabaseError> {
    let pager = pager_over(alloc, files)?;
    let mut pool = match Pool::new(alloc, pager, false) {
        Ok(pool) => pool,
        Err(_) => return Err(DatabaseError::Memory),
    };
    let mut scratch = Scratch::new(alloc);
    pool.recover(false)?;
    for object in left_out {
        if object.root != 0 {
            destroy(&mut pool, alloc, object.root)?;
        }
        table::remove(&mut pool, &mut scratch, SCHEMA, object.rowid)?;
    }
    pool.commit()?;
    pool.checkpoint()?;
    Ok(pool.close())
}
