//! Tables of Markdown: the line below their header.
ghost use Rattle.std.specs.Io.{WritesAtMost};

use std::alloc::Global;
use std::io::{self, Write};
use std::str::from_utf8;
use tabview_print::{Column, markdown_rule};

/// A writer that puts the line below the header behind the first line of a table of Markdown.
pub(crate) struct Ruled<'a, W: Write> {
    alloc: Global,
    out: &'a mut W,
    columns: &'a [Column],
    /// The first line, until it has ended.
    header: Vec<u8>,
    is_past: bool,
}

impl<W: Write> Drop for Ruled<'_, W> {
    fn drop(self) {
        let Ruled {
            alloc: _,
            out: _,
            columns: _,
            header: _,
            is_past: _,
        } = self;
    }
}

impl<'a, W: Write> Ruled<'a, W> {
    pub fn new(alloc: Global, out: &'a mut W, columns: &'a [Column]) -> Ruled<'a, W> {
        Ruled {
            alloc,
            out,
            columns,
            header: Vec::new(alloc),
            is_past: false,
        }
    }

    /// Takes bytes of the first line, up to its end.
    fn take(&mut self, bytes: &[u8]) -> io::Result<usize>
        ensures { WritesAtMost result bytes.now }
    {
        for index in 0..bytes.len() {
            let byte = bytes[index];
            self.header.push(byte)?;
            if byte == b'\n' {
                self.put_header()?;
                self.put_rule()?;
                return Ok(index + 1);
            }
        }
        Ok(bytes.len())
    }

    /// Writes what there is of the first line.
    fn put_header(&mut self) -> io::Result<()> {
        self.is_past = true;
        self.out.write_all(&self.header)
    }

    /// Writes the line below it, if it is that of a table.
    fn put_rule(&mut self) -> io::Result<()> {
        let Ok(header) = from_utf8(&self.header) else {
            return Ok(());
        };
        if header.starts_with('|') {
            let rule = markdown_rule(self.alloc, header, self.columns)?;
            self.out.write_all(rule.as_bytes())?;
            self.out.write_all(b"\n")?;
        }
        Ok(())
    }
}

impl<W: Write> Write for Ruled<'_, W> {
    fn write(&mut self, bytes: &[u8]) -> io::Result<usize> {
        if self.is_past {
            return self.out.write(bytes);
        }
        self.take(bytes)
    }

    fn flush(&mut self) -> io::Result<()> {
        if !self.is_past {
            self.put_header()?;
        }
        self.out.flush()
    }
}
