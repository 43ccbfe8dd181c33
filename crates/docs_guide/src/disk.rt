//! A writer of your own: a disk that may be full.

use std::alloc::Global;
use std::io::{self, ErrorKind, Write};
use tabled::{IoSink, Table, TableError};

/// A disk of limited size. A write to a full one fails.
#[derive(Drop)]
struct Disk {
    bytes: Vec<u8>,
    size: usize,
}

impl Write for Disk {
    fn write(&mut self, bytes: &[u8]) -> io::Result<usize> {
        let free = self.size.saturating_sub(self.bytes.len());
        let count = free.min(bytes.len());
        if count == 0 {
            return Err(io::Error::from(ErrorKind::StorageFull));
        }
        self.bytes.extend_from_slice(&bytes[..count])?;
        Ok(count)
    }

    fn flush(&mut self) -> io::Result<()> {
        Ok(())
    }
}

/// Prints a table of 71 bytes to a disk of 64.
pub fn printed(alloc: Global) -> Result<String, TableError> {
    let table = Table::nohead(alloc, [("Ada", 1815), ("Grace", 1906)])?;
    let mut disk = Disk {
        bytes: Vec::new(alloc),
        size: 64,
    };
    match table.write_to(&mut IoSink::new(&mut disk)) {
        Err(TableError::Writer) => Ok(format!(in alloc; "full after {} bytes", disk.bytes.len())?),
        Err(error) => Err(error),
        Ok(()) => Ok(format!(in alloc; "{} bytes", disk.bytes.len())?),
    }
}
