//! Opens a database in memory.

use crate::error::{DatabaseError, Lack};
use crate::header::{has_sums, is_database, lack_of};
use crate::held::Held;
use crate::merging::{merged, options};
use crate::schema::{LeftOut, without_obstacles};
use crate::settling::Image;
use sqlite::{Connection, Error, ErrorCode, FileStore, Files};
use std::alloc::Global;

/// A database in memory. What a statement writes is lost with it.
pub struct Database {
    pub connection: Connection<FileStore<Held>>,
    /// The objects of its schema that can't be read.
    pub left_out: Vec<LeftOut>,
}

impl Drop for Database {
    fn drop(self) {
        let Database {
            connection: _,
            left_out: _,
        } = self;
    }
}

/// Whether a file is empty to SQLite, which takes one of a single byte so too.
pub fn is_empty(image: &Image) -> bool {
    image.db.len() <= 1
}

/// Opens a database. An empty file is one without tables.
///
/// Errors: an allocation failed; the file is no database; it has what isn't supported.
pub fn open(alloc: Global, image: Image) -> Result<Database, DatabaseError> {
    if is_empty(&image) {
        return connected(alloc, empty_files(alloc), Vec::new(alloc));
    }
    if !is_database(&image.db) {
        return Err(DatabaseError::NotDatabase);
    }
    let Image { db, log } = image;
    let files = Files {
        log: Held::new(log),
        db: Held::new(db),
    };
    if has_sums(files.db.bytes()) {
        return connected(alloc, files, Vec::new(alloc));
    }
    open_merged(alloc, merged(alloc, files)?)
}

/// Opens a database whose log has no commit.
fn open_merged(alloc: Global, files: Files<Held>) -> Result<Database, DatabaseError> {
    if let Some(lack) = lack_of(files.db.bytes()) {
        return Err(DatabaseError::Unsupported(lack));
    }
    let (files, left_out) = without_obstacles(alloc, files)?;
    connected(alloc, files, left_out)
}

fn empty_files(alloc: Global) -> Files<Held> {
    Files {
        log: Held::new(Vec::new(alloc)),
        db: Held::new(Vec::new(alloc)),
    }
}

fn connected(
    alloc: Global,
    files: Files<Held>,
    left_out: Vec<LeftOut>,
) -> Result<Database, DatabaseError> {
    match Connection::open_files(alloc, files, options()) {
        Ok(connection) => Ok(Database {
            connection,
            left_out,
        }),
        Err((error, _)) => Err(refusal(error)),
    }
}

/// Returns why a database isn't opened.
fn refusal(error: Error) -> DatabaseError {
    match error {
        Error::SqliteFailure(ErrorCode::OutOfMemory) => DatabaseError::Memory,
        Error::SqliteFailure(ErrorCode::NotADatabase) => DatabaseError::Unsupported(Lack::Schema),
        _ => DatabaseError::Malformed,
    }
}
