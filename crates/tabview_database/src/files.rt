//! The files at a path, which are opened for reading alone.
ghost use Rattle.std.specs.Prelude.{IfOk};
ghost use Rattle.tabview_database.specs.Inputs.{IsRestOf, IsStartOf};

use crate::error::DatabaseError;
use crate::settling::{Image, Source, Stamp};
use std::alloc::Global;
use std::fs::{self, File, Metadata};
use std::io::{self, Read};
use std::os::unix::fs::MetadataExt;

/// The bytes of a header up to its change counter, and the header of a log.
const HEADER: u64 = 28;

const LOG_HEADER: u64 = 32;

/// The bytes that are allocated beyond a file, so that the read that finds its end needs no more.
const SPARE: usize = 1024;

/// The database at a path, with its log and its journal. Each is opened by `File::open`, for
/// reading alone, and no lock is held.
pub struct DatabaseFiles<'a> {
    rt: &'a HostRuntime,
    db: String,
    log: String,
    journal: String,
}

impl Drop for DatabaseFiles<'_> {
    fn drop(self) {
        let DatabaseFiles {
            rt: _,
            db: _,
            log: _,
            journal: _,
        } = self;
    }
}

impl<'a> DatabaseFiles<'a> {
    /// Finds the files where a link leads, as SQLite does.
    pub fn at(rt: &'a HostRuntime, path: &str) -> Result<DatabaseFiles<'a>, DatabaseError> {
        let alloc = rt.alloc();
        let real = match fs::canonicalize(rt, path) {
            Ok(real) => real,
            Err(error) => return Err(DatabaseError::Input(error)),
        };
        let db = String::from_str(alloc, real.as_str())?;
        Ok(DatabaseFiles {
            rt,
            log: format!(in alloc; "{db}-wal")?,
            journal: format!(in alloc; "{db}-journal")?,
            db,
        })
    }

    /// Opens the database file, unless it is a pipe or a device.
    fn open(&self) -> Result<(File, Metadata), DatabaseError> {
        match opened(self.rt, &self.db) {
            Ok(Some(found)) => Ok(found),
            Ok(None) => Err(DatabaseError::NotFile),
            Err(error) => Err(DatabaseError::Input(error)),
        }
    }

    /// Returns the first bytes of the log.
    fn log_header(&self) -> Result<Vec<u8>, DatabaseError> {
        first_bytes(self.rt, &self.log, LOG_HEADER).map_err(DatabaseError::Log)
    }

    /// Whether there is a journal with something to play back. It begins with a zero until then.
    fn has_journal(&self) -> Result<bool, DatabaseError> {
        match first_bytes(self.rt, &self.journal, 1) {
            Ok(first) => Ok(matches!(first.as_slice(), [byte] if *byte != 0)),
            Err(error) => Err(DatabaseError::Input(error)),
        }
    }
}

impl Source for DatabaseFiles<'_> {
    fn stamp(&mut self) -> Result<Stamp, DatabaseError> {
        let (file, found) = self.open()?;
        let header = match read_up_to(self.rt.alloc(), file, HEADER) {
            Ok(header) => header,
            Err(error) => return Err(DatabaseError::Input(error)),
        };
        Ok(Stamp {
            len: found.len(),
            node: found.ino(),
            second: found.mtime(),
            nanosecond: found.mtime_nsec(),
            header,
            log: self.log_header()?,
            has_journal: self.has_journal()?,
        })
    }

    fn read(&mut self) -> Result<Image, DatabaseError> {
        let (file, found) = self.open()?;
        let db = match read_all(self.rt.alloc(), file, found.len()) {
            Ok(db) => db,
            Err(error) => return Err(DatabaseError::Input(error)),
        };
        match read_beside(self.rt, &self.log) {
            Ok(log) => Ok(Image { db, log }),
            Err(error) => Err(DatabaseError::Log(error)),
        }
    }
}

/// Opens a file. Returns none for a pipe or a device, which isn't opened.
fn opened(rt: &HostRuntime, path: &str) -> io::Result<Option<(File, Metadata)>> {
    if !fs::metadata(rt, path)?.is_file() {
        return Ok(None);
    }
    let file = File::open(rt, path)?;
    let found = file.metadata()?;
    Ok(Some((file, found)))
}

/// Opens a file that may be missing.
fn opened_beside(rt: &HostRuntime, path: &str) -> io::Result<Option<(File, Metadata)>> {
    match opened(rt, path) {
        Err(error) if error.kind() == io::ErrorKind::NotFound => Ok(None),
        found => found,
    }
}

/// Returns the first bytes of a file, none if it is missing.
fn first_bytes(rt: &HostRuntime, path: &str, count: u64) -> io::Result<Vec<u8>> {
    match opened_beside(rt, path)? {
        Some((file, _)) => read_up_to(rt.alloc(), file, count),
        None => Ok(Vec::new(rt.alloc())),
    }
}

/// Returns the bytes of a file, none if it is missing.
fn read_beside(rt: &HostRuntime, path: &str) -> io::Result<Vec<u8>> {
    match opened_beside(rt, path)? {
        Some((file, found)) => read_all(rt.alloc(), file, found.len()),
        None => Ok(Vec::new(rt.alloc())),
    }
}

/// Returns the first bytes of an input, at most `count`.
fn read_up_to<R: Read + Drop>(alloc: Global, input: R, count: u64) -> io::Result<Vec<u8>>
    ensures { IfOk result (λ bytes. IsStartOf count (R.remaining input) bytes.items) }
{
    let mut bytes = Vec::new(alloc);
    input.take(count).read_to_end(&mut bytes)?;
    Ok(bytes)
}

/// Returns the bytes of an input, which is likely to have `len`.
fn read_all<R: Read + Drop>(alloc: Global, mut input: R, len: u64) -> io::Result<Vec<u8>>
    ensures { IfOk result (λ bytes. IsRestOf (R.remaining input) bytes.items) }
{
    let len = usize::try_from(len).unwrap_or(0);
    let mut bytes = Vec::with_capacity(alloc, len.saturating_add(SPARE))?;
    input.read_to_end(&mut bytes)?;
    Ok(bytes)
}
