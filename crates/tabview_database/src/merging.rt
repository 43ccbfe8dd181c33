//! Copies a log into its database.

use crate::error::DatabaseError;
use crate::held::Held;
use sqlite::{Files, Options};
use sqlite_pager::Pager;
use sqlite_wal::probe_page_size;
use std::alloc::Global;

/// What is mixed into the headers of logs, which nobody reads.
const SEED: u64 = 0;

/// Returns how files are opened.
pub(crate) fn options() -> Options {
    Options::new(SEED)
}

/// Copies the commits of a log into its database, if it has some.
pub(crate) fn merged(alloc: Global, files: Files<Held>) -> Result<Files<Held>, DatabaseError> {
    if files.log.bytes().is_empty() {
        return Ok(files);
    }
    let mut pager = pager_over(alloc, files)?;
    pager.recover()?;
    pager.checkpoint()?;
    Ok(pager.close())
}

/// Returns a pager of the pages of two files, which has read nothing yet.
pub(crate) fn pager_over(
    alloc: Global,
    mut files: Files<Held>,
) -> Result<Pager<Held>, DatabaseError> {
    let size = match probe_page_size(&mut files) {
        Ok(Some(size)) => size,
        Ok(None) | Err(_) => return Err(DatabaseError::Malformed),
    };
    match Pager::new(alloc, files, size, options()) {
        Ok(pager) => Ok(pager),
        Err(_) => Err(DatabaseError::Memory),
    }
}
