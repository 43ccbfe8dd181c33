//! A report of several pages on disks that fill up: what is done about each error, and that a page
//! is complete or isn't there.

use std::alloc::Global;
use std::io::{self, ErrorKind, Write};
use std::test::Fail;
use tabled::builder::Builder;
use tabled::{IoSink, Table, TableError, TextSink};

/// The rows of a page below its header.
const ROWS: usize = 2;

/// The widths of its columns.
const WIDTHS: [usize; 2] = [9, 17];

/// The bytes of a disk.
const SIZE: usize = 450;

/// A disk of limited size. A write to a full one fails.
#[derive(Drop)]
struct Disk {
    bytes: Vec<u8>,
    size: usize,
}

impl Disk {
    fn new(alloc: Global) -> Disk {
        Disk {
            bytes: Vec::new(alloc),
            size: SIZE,
        }
    }
}

impl Write for Disk {
    fn write(&mut self, bytes: &[u8]) -> io::Result<usize> {
        let free = self.size.saturating_sub(self.bytes.len());
        let count = free.min(bytes.len());
        if count == 0 {
            return Err(io::Error::from(ErrorKind::StorageFull));
        }
        self.bytes.extend_from_slice(&bytes[..count])?;
        Ok(count)
    }

    fn flush(&mut self) -> io::Result<()> {
        Ok(())
    }
}

/// Makes a page whose columns are as wide as those of the other pages.
fn page_of(alloc: Global, header: &str, rows: &[&str]) -> Result<Table, TableError> {
    let mut builder = Builder::new(alloc);
    builder.add_record(header.split('\t'))?;
    for row in rows {
        builder.add_record(row.split('\t'))?;
    }
    let mut table = Table::from(builder);
    let widths = Vec::from_slice(alloc, &WIDTHS)?;
    table.get_dimension_mut().set_widths(widths);
    Ok(table)
}

/// Writes a page below its number, and an empty line.
fn attempt(alloc: Global, number: u64, page: &Table, disk: &mut Disk) -> Result<(), TableError> {
    let heading = format!(in alloc; "Page {number}\n")?;
    let mut sink = IoSink::new(disk);
    sink.write_text(&heading)?;
    page.write_to(&mut sink)?;
    sink.write_text("\n\n")
}

/// Puts a page on the last disk, or on a new one, and logs each error.
fn put_page(
    alloc: Global,
    number: u64,
    page: &mut Table,
    disks: &mut Vec<Disk>,
    log: &mut Vec<(u64, TableError)>,
) -> Result<(), TableError> {
    for _attempt in 0..3 {
        let Some(disk) = disks.last_mut() else {
            return Err(TableError::Writer);
        };
        let before = disk.bytes.len();
        let Err(error) = attempt(alloc, number, page, disk) else {
            return Ok(());
        };
        // What came out of the page before the error.
        disk.bytes.truncate(before);
        log.push((number, error))?;
        match error {
            TableError::Narrow { .. } | TableError::ShortWidths => {
                page.get_dimension_mut().clear();
            }
            TableError::Writer => disks.push(Disk::new(alloc))?,
            other => return Err(other),
        }
    }
    Err(TableError::Writer)
}

const INPUT: [&str; 8] = [
    "City\tCountry",
    "Paris\tFrance",
    "Vaduz\tLiechtenstein",
    "Peking\tChina",
    "Thiruvananthapuram\tIndia",
    "Bern\tSwitzerland\tthe seat",
    "Rome\tItaly",
    "Oslo\tNorway",
];

const LOG: [(u64, TableError); 4] = [
    (2, TableError::Narrow { row: 2, column: 0 }),
    (2, TableError::Writer),
    (3, TableError::ShortWidths),
    (3, TableError::Writer),
];

const DISKS: [&str; 3] = [
    "Page 1
+---------+-----------------+
| City    | Country         |
+---------+-----------------+
| Paris   | France          |
+---------+-----------------+
| Vaduz   | Liechtenstein   |
+---------+-----------------+

",
    "Page 2
+--------------------+---------+
| City               | Country |
+--------------------+---------+
| Peking             | China   |
+--------------------+---------+
| Thiruvananthapuram | India   |
+--------------------+---------+

",
    "Page 3
+------+-------------+----------+
| City | Country     |          |
+------+-------------+----------+
| Bern | Switzerland | the seat |
+------+-------------+----------+
| Rome | Italy       |          |
+------+-------------+----------+

Page 4
+---------+-----------------+
| City    | Country         |
+---------+-----------------+
| Oslo    | Norway          |
+---------+-----------------+

",
];

#[test]
fn pages_on_small_disks_are_complete(rt: HostRuntime) -> Result<(), Fail> {
    let alloc = rt.alloc();
    let mut log = Vec::new(alloc);
    let mut disks = vec![in alloc; Disk::new(alloc)]?;
    let (header, rows) = INPUT.split_first().ok_or("no header")?;
    for (number, rows) in (1..=u64::MAX).zip(rows.chunks(ROWS)) {
        let mut page = page_of(alloc, header, rows)?;
        put_page(alloc, number, &mut page, &mut disks, &mut log)?;
    }
    assert_eq!(rt; log.as_slice(), LOG.as_slice());
    assert_eq!(rt; disks.len(), DISKS.len());
    for (disk, wanted) in disks.iter().zip(DISKS) {
        assert_eq!(rt; str::from_utf8(disk.bytes.as_slice())?, wanted);
    }
    Ok(())
}
