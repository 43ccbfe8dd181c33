//! Reads files again that change while they are read.
ghost use Rattle.std.specs.Prelude.{IfOk, IfSome, IsTrue};
ghost use Rattle.tabview_database.specs.Settled.{AreAlike, IsFile, ReadsSettled, Rests};

use crate::error::DatabaseError;

/// How often files are read that change while they are.
const ATTEMPTS: usize = 3;

/// How often files are looked at while a write isn't finished: some hundredths of a second.
const LOOKS: usize = 1000;

/// What shows whether files were written between two looks at them.
#[derive(Debug, Drop)]
pub struct Stamp {
    /// The length of the database file.
    pub len: u64,
    /// Its number in its file system, which changes if another file takes its place.
    pub node: u64,
    /// The second of its last change.
    pub second: i64,
    /// The nanosecond in that second.
    pub nanosecond: i64,
    /// The beginning of its header, up to its change counter.
    pub header: Vec<u8>,
    /// The header of its log, empty if there is none.
    pub log: Vec<u8>,
    /// Whether it has a rollback journal, of a write that isn't finished.
    pub has_journal: bool,
}

impl Stamp {
    /// Whether two looks show the same.
    fn is_like(&self, other: &Stamp) -> bool
        ensures { IsTrue result → AreAlike self.now other.now }
    {
        self.is_file(other) && self.header == other.header && self.log == other.log
    }

    /// Whether two looks show the same file.
    fn is_file(&self, other: &Stamp) -> bool
        ensures { IsTrue result → IsFile self.now other.now }
    {
        let is_node = self.node == other.node && self.len == other.len;
        is_node && self.second == other.second && self.nanosecond == other.nanosecond
    }
}

/// The bytes of a database file and of its log.
#[derive(Drop)]
pub struct Image {
    pub db: Vec<u8>,
    pub log: Vec<u8>,
}

/// Files of a database that can be read more than once.
pub trait Source {
    ghost use Rattle.std.specs.Prelude.{⊤};
    ghost use Rattle.tabview_database.specs.declared.settling.Image.{Image};
    ghost use Rattle.tabview_database.specs.declared.settling.Stamp.{Stamp};

    /// Holds of the files before a call of `stamp`, what it returned, and the files after.
    ghost shows: { Self → Stamp → Self → Type 0 } = { λ _ _ _. ⊤ };

    /// Holds of the files before a call of `read`, what it returned, and the files after.
    ghost gives: { Self → Image → Self → Type 0 } = { λ _ _ _. ⊤ };

    /// Looks at the files.
    fn stamp(&mut self) -> Result<Stamp, DatabaseError>
        ensures { IfOk result (λ stamp. shows self.old stamp self.new) };

    /// Reads the files.
    fn read(&mut self) -> Result<Image, DatabaseError>
        ensures { IfOk result (λ image. gives self.old image self.new) };
}

/// Reads files until they look the same after it as before, three times at most. They aren't read
/// while a write isn't finished.
pub fn read_settled<T: Source>(files: &mut T) -> Result<Image, DatabaseError>
    ensures { IfOk result (λ image. ReadsSettled T.shows T.gives image files.new) }
{
    for _attempt in 0..ATTEMPTS {
        if let Some(image) = read_once(files)? {
            return Ok(image);
        }
    }
    Err(DatabaseError::Written)
}

/// Reads files, unless they change meanwhile.
fn read_once<T: Source>(files: &mut T) -> Result<Option<Image>, DatabaseError>
    ensures { IfOk result (λ found. IfSome found
        (λ image. ReadsSettled T.shows T.gives image files.new)) }
{
    let before = stamp_of_rest(files)?;
    let image = files.read()?;
    let after = files.stamp()?;
    if before.is_like(&after) {
        return Ok(Some(image));
    }
    Ok(None)
}

/// Looks at files until no write is unfinished. Fails if one stays so.
fn stamp_of_rest<T: Source>(files: &mut T) -> Result<Stamp, DatabaseError>
    ensures { IfOk result (λ stamp. Rests T.shows stamp files.new) }
{
    for _look in 0..LOOKS {
        let stamp = files.stamp()?;
        if !stamp.has_journal {
            return Ok(stamp);
        }
    }
    Err(DatabaseError::Unfinished)
}
