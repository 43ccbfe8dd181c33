//! Opens databases of SQLite in memory: their files are read, and nothing is written to them.
//!
//! - `error`: why a database can't be shown.
//! - `files`: the files at a path, which are opened for reading alone.
//! - `header`: what the first bytes of a database say.
//! - `held`: a file in memory.
//! - `merging`: copies a log into its database.
//! - `opening`: opens a database in memory.
//! - `schema`: the objects of a schema that can't be read.
//! - `settling`: reads files again that change while they are read.
#![tactic(auto)]

mod error;
mod files;
mod header;
mod held;
mod merging;
mod opening;
mod schema;
mod settling;
#[cfg(test)]
mod tests;

pub use error::{DatabaseError, Lack};
pub use files::DatabaseFiles;
pub use held::Held;
pub use opening::{Database, is_empty, open};
pub use schema::{LeftOut, Obstacle};
pub use settling::{Image, Source, Stamp, read_settled};
