//! Comma-separated values that are watched as they are read.
ghost use Rattle.std.specs.Prelude.{◌≡◌, None, fold, if◌then◌else◌};
ghost use Rattle.tabview_read.specs.CsvText.{open_quote, scan_after};

use crate::scan::Scan;
use std::alloc::Global;
use std::io::{self, Read};

/// An input that knows its blank lines, and whether it ends in quotes. It is read in blocks, each
/// when the one before it is used up.
pub(crate) struct Watched<R: Read + Drop> {
    input: R,
    scan: Scan,
    /// The blank lines before the last block.
    before: u64,
    /// Where the blank lines of the last block end, by the count of the bytes before it.
    blank: Vec<u64>,
    is_ended: bool,
}

impl<R: Read + Drop> Drop for Watched<R> {
    fn drop(self) {
        let Watched {
            input: _,
            scan: _,
            before: _,
            blank: _,
            is_ended: _,
        } = self;
    }
}

impl<R: Read + Drop> Watched<R> {
    /// Begins before the first byte.
    pub(crate) fn new(alloc: Global, delimiter: u8, input: R) -> Watched<R>
        ensures { result.input ≡ input }
    {
        Watched {
            input,
            scan: Scan::new(delimiter),
            before: 0,
            blank: Vec::new(alloc),
            is_ended: false,
        }
    }

    /// Returns the line in which quotes began that the input doesn't close, if it has ended.
    pub(crate) fn open_quote(&self) -> Option<u64>
        ensures { result ≡ (if self.now.is_ended then open_quote self.now.scan else None) }
    {
        if self.is_ended {
            return self.scan.open_quote();
        }
        None
    }

    /// Returns the count of the blank lines that end before a byte of the last block.
    pub(crate) fn blank_before(&self, byte: u64) -> u64 {
        let within = self.blank.partition_point(|end| *end < byte);
        self.before.saturating_add(within as u64)
    }

    /// Watches a block.
    fn watch(&mut self, block: &[u8])
        ensures input { self.new.input ≡ self.old.input }
        ensures scan { self.new.scan ≡ fold scan_after self.old.scan block.now }
        ensures is_ended { self.new.is_ended ≡ self.old.is_ended }
    {
        for byte in block {
            if self.scan.ends_blank_line(*byte) {
                // There is space for one blank line a byte.
                let _pushed = self.blank.push(self.scan.bytes);
            }
            self.scan = self.scan.after(*byte);
        }
    }
}

impl<R: Read + Drop> Read for Watched<R> {
    ghost remaining = { λ s. R.remaining s.input };

    fn read(&mut self, buf: &mut [u8]) -> io::Result<usize> {
        self.before = self.before.saturating_add(self.blank.len() as u64);
        self.blank.clear();
        self.blank.reserve(buf.len())?;
        let count = self.input.read(buf)?;
        if count == 0 {
            self.is_ended = true;
        }
        self.watch(&buf[..count]);
        Ok(count)
    }
}
