//! Files that change while they are read, and databases that other programs wrote.

use crate::header::lack_of;
use crate::held::Held;
use crate::merging::pager_over;
use crate::{
    Database, DatabaseError, Image, Lack, Obstacle, Source, Stamp, is_empty, open, read_settled,
};
use sqlite::{Connection, FileStore, Files, Options};
use sqlite_btree::{Scratch, table};
use sqlite_disk::Disk;
use sqlite_pool::Pool;
use std::alloc::Global;
use std::test::Fail;

/// Files that look another way at each of the first looks.
#[derive(Drop)]
struct Changing {
    alloc: Global,
    changes: u64,
    has_journal: bool,
    looks: u64,
    reads: u64,
}

impl Source for Changing {
    fn stamp(&mut self) -> Result<Stamp, DatabaseError> {
        self.looks = self.looks.saturating_add(1);
        let is_changed = self.looks <= self.changes;
        Ok(Stamp {
            len: if is_changed { self.looks } else { 0 },
            node: 1,
            second: 2,
            nanosecond: 3,
            header: Vec::new(self.alloc),
            log: Vec::new(self.alloc),
            has_journal: self.has_journal,
        })
    }

    fn read(&mut self) -> Result<Image, DatabaseError> {
        self.reads = self.reads.saturating_add(1);
        Ok(Image {
            db: Vec::new(self.alloc),
            log: Vec::new(self.alloc),
        })
    }
}

/// Reads files, and returns how often they were read, and whether that succeeded.
fn reads_of(alloc: Global, changes: u64, has_journal: bool) -> (u64, &'static str) {
    let mut files = Changing {
        alloc,
        changes,
        has_journal,
        looks: 0,
        reads: 0,
    };
    let outcome = match &read_settled(&mut files) {
        Ok(_) => "read",
        Err(DatabaseError::Written) => "written",
        Err(DatabaseError::Unfinished) => "unfinished",
        Err(_) => "another error",
    };
    (files.reads, outcome)
}

#[test]
fn files_that_change_are_read_again(rt: HostRuntime) -> Result<(), Fail> {
    let alloc = rt.alloc();
    assert_eq!(rt; reads_of(alloc, 0, false), (1, "read"));
    // The second look of the first attempt differs from the first one.
    assert_eq!(rt; reads_of(alloc, 1, false), (2, "read"));
    assert_eq!(rt; reads_of(alloc, 4, false), (3, "read"));
    assert_eq!(rt; reads_of(alloc, 6, false), (3, "written"));
    // A write that stays unfinished keeps them from being read.
    assert_eq!(rt; reads_of(alloc, 0, true), (0, "unfinished"));
    Ok(())
}

#[test]
fn a_file_in_memory_is_written(rt: HostRuntime) -> Result<(), Fail> {
    let mut file = Held::new(Vec::from_slice(rt.alloc(), b"abc")?);
    file.write_at(4, b"de")?;
    assert_eq!(rt; file.bytes(), b"abc\0de".as_slice());
    let mut two = [0; 2];
    file.read_at(3, &mut two)?;
    assert_eq!(rt; two, *b"\0d");
    assert!(rt; file.read_at(5, &mut two).is_err());
    file.set_len(2)?;
    assert_eq!(rt; file.len()?, 2);
    assert_eq!(rt; file.bytes(), b"ab".as_slice());
    Ok(())
}

/// Makes a database of some statements. Its last commits are in its log.
fn made(alloc: Global, sql: &str) -> Result<Files<Held>, Fail> {
    let files = Files {
        log: Held::new(Vec::new(alloc)),
        db: Held::new(Vec::new(alloc)),
    };
    let mut connection = match Connection::open_files(alloc, files, Options::new(1)) {
        Ok(connection) => connection,
        Err(_) => return Err("not made".into()),
    };
    connection.execute_batch(sql)?;
    Ok(connection.into_store().close())
}

fn image_of(alloc: Global, files: &Files<Held>) -> Result<Image, Fail> {
    Ok(Image {
        db: Vec::from_slice(alloc, files.db.bytes())?,
        log: Vec::from_slice(alloc, files.log.bytes())?,
    })
}

/// Returns the number that a query of a database gives.
fn number(database: &mut Database, sql: &str) -> Result<i64, Fail> {
    Ok(database.connection.query_row(sql, &[])?.get(0)?)
}

#[test]
fn a_log_is_read(rt: HostRuntime) -> Result<(), Fail> {
    let alloc = rt.alloc();
    let files = made(alloc, "CREATE TABLE t (a); INSERT INTO t VALUES (20), (22)")?;
    assert!(rt; !files.log.bytes().is_empty());
    let mut database = open(alloc, image_of(alloc, &files)?)?;
    assert_eq!(rt; number(&mut database, "SELECT sum(a) FROM t")?, 42);
    assert!(rt; database.left_out.is_empty());
    Ok(())
}

#[test]
fn files_without_a_database(rt: HostRuntime) -> Result<(), Fail> {
    let alloc = rt.alloc();
    for (bytes, empty) in [(b"".as_slice(), true), (b"x", true), (b"a,b\n1,2\n", false)] {
        let image = Image {
            db: Vec::from_slice(alloc, bytes)?,
            log: Vec::new(alloc),
        };
        assert_eq!(rt; is_empty(&image), empty);
        match open(alloc, image) {
            Ok(mut database) => {
                assert!(rt; empty);
                assert_eq!(rt; number(&mut database, "SELECT 42")?, 42);
            }
            Err(error) => assert!(rt; !empty && matches!(&error, DatabaseError::NotDatabase)),
        }
    }
    Ok(())
}

#[test]
fn headers_say_what_is_not_supported(rt: HostRuntime) -> Result<(), Fail> {
    let alloc = rt.alloc();
    let mut header = Vec::from_slice(alloc, &[0; 100])?;
    assert_eq!(rt; lack_of(&header), None);
    header[59] = 3;
    assert_eq!(rt; lack_of(&header), Some(Lack::Utf16));
    header[53] = 1;
    assert_eq!(rt; lack_of(&header), Some(Lack::AutoVacuum));
    Ok(())
}

/// The row of a schema that lists a virtual table `f`: the lengths of its five columns, and these.
/// A text of n bytes has the length 13 + 2 n, and the number 0 the length 8.
const VIRTUAL: &[u8] = b"\x06\x17\x0f\x0f\x08\x55tableffCREATE VIRTUAL TABLE f USING fts5(x)";

/// That of a trigger `g` of the table `t`.
const TRIGGER: &[u8] =
    b"\x06\x1b\x0f\x0f\x08\x79triggergtCREATE TRIGGER g AFTER INSERT ON t BEGIN SELECT 1; END";

/// Adds rows to the schema of a database, each with its number.
fn listed(alloc: Global, files: Files<Held>, rows: &[(i64, &[u8])]) -> Result<Files<Held>, Fail> {
    let mut pool = match Pool::new(alloc, pager_over(alloc, files)?, false) {
        Ok(pool) => pool,
        Err(_) => return Err("out of memory".into()),
    };
    pool.recover(false)?;
    let mut scratch = Scratch::new(alloc);
    for (rowid, row) in rows {
        let row: &[u8] = row;
        if row.len() > 1000 {
            return Err("the row is too long".into());
        }
        table::insert(&mut pool, &mut scratch, 1, *rowid, row)?;
    }
    pool.commit()?;
    Ok(pool.close())
}

#[test]
fn what_cannot_be_read_is_left_out(rt: HostRuntime) -> Result<(), Fail> {
    let alloc = rt.alloc();
    let files = made(alloc, "CREATE TABLE t (a); INSERT INTO t VALUES (42)")?;
    let files = listed(alloc, files, &[(11, VIRTUAL), (12, TRIGGER)])?;
    let mut database = open(alloc, image_of(alloc, &files)?)?;
    assert_eq!(rt; number(&mut database, "SELECT a FROM t")?, 42);
    assert_eq!(rt;
        number(&mut database, "SELECT count(*) FROM sqlite_schema")?,
        1
    );
    match database.left_out.as_slice() {
        [first, second] => {
            assert_eq!(rt; first.obstacle, Obstacle::VirtualTable);
            assert_eq!(rt; first.name.as_str(), "f");
            assert_eq!(rt; second.obstacle, Obstacle::Trigger);
            assert_eq!(rt; second.name.as_str(), "g");
        }
        _ => return Err("two objects are left out".into()),
    }
    Ok(())
}
