//! The end of a table, and readers that went away.
ghost use Rattle.std.specs.Io.{WritesAtMost};
ghost use Rattle.std.specs.Io.KnownBytes.{Appends, WriteAppends};
ghost use Rattle.std.specs.IoError.{error_kind};
ghost use Rattle.std.specs.Prelude.{◌↔◌, ◌≡◌, ◌++◌, IsTrue, OnOk, false, true};
ghost use Rattle.std.specs.declared.io.ErrorKind.TheVariants.{BrokenPipe};
ghost use Rattle.tabview_show.specs.Endings.{IsFailed, IsWritten, count_line, end_of, hidden_line};
ghost use Rattle.tabview_show.specs.Endings.{line_end};

use crate::error::ViewError;
use std::io::{self, Write};
use tabled_base::TableError;
use tabview_read::ReadError;

/// A writer that knows whether something was written.
pub(crate) struct Noted<'a, W: Write> {
    out: &'a mut W,
    is_begun: bool,
}

impl<'a, W: Write> Noted<'a, W> {
    pub fn new(out: &'a mut W) -> Noted<'a, W>
        ensures same_reference { result.out.ghost_name ≡ out.entry.ghost_name }
        ensures writer { result.out.now ≡ out.old }
        ensures begun { result.is_begun ≡ false }
    {
        Noted {
            out,
            is_begun: false,
        }
    }
}

impl<W: Write> Drop for Noted<'_, W> {
    fn drop(self) {
        let Noted {
            out: _,
            is_begun: _,
        } = self;
    }
}

impl<W: Write> Write for Noted<'_, W> {
    ghost contents = { λ s. W.contents s.out.now };

    fn write(&mut self, bytes: &[u8]) -> io::Result<usize>
        ensures bound { WritesAtMost result bytes.now }
        ensures bytes { WriteAppends (W.contents self.old.out.now) (W.contents self.new.out.now)
            result bytes.now }
        ensures begun { self.new.is_begun ≡ true }
    {
        self.is_begun = true;
        self.out.write(bytes)
    }

    fn flush(&mut self) -> io::Result<()> {
        self.out.flush()
    }
}

/// The rows that aren't shown.
#[derive(Clone, Copy)]
pub(crate) struct Hidden {
    /// Their count, 0 if it isn't asked for.
    pub rows: u64,
    /// Whether a blank line separates the count from the table.
    pub is_apart: bool,
}

const NONE_HIDDEN: Hidden = Hidden {
    rows: 0,
    is_apart: false,
};

/// Ends a table that was printed, and says how many rows aren't shown. Or says why it wasn't
/// printed.
pub(crate) fn end<W: Write>(
    printed: Result<(), TableError>,
    hidden: Hidden,
    out: &mut Noted<'_, W>,
) -> Result<(), ViewError> {
    match printed {
        Ok(()) => unless_closed(put_end(hidden, out)),
        Err(error) => failed(error, out),
    }
}

/// Ends a table that was printed while its rows were read.
pub(crate) fn end_stream<W: Write>(
    printed: Result<(), TableError>,
    read: Result<(), ReadError>,
    out: &mut Noted<'_, W>,
) -> Result<(), ViewError> {
    match printed {
        Ok(()) => {
            unless_closed(put_end(NONE_HIDDEN, out))?;
            read.map_err(ViewError::Read)
        }
        Err(error) => failed(error, out),
    }
}

/// Ends the last line, if there is one, and says how many rows aren't shown.
fn put_end<W: Write>(hidden: Hidden, out: &mut Noted<'_, W>) -> io::Result<()>
    ensures { OnOk result (Appends (W.contents out.old.out.now) (W.contents out.new.out.now)
        (end_of out.old.is_begun hidden)) }
{
    end_line(out)?;
    put_hidden(hidden, out)?;
    out.flush()
}

/// Ends the last line, if something was printed.
fn end_line<W: Write>(out: &mut Noted<'_, W>) -> io::Result<()>
    ensures { OnOk result (Appends (W.contents out.old.out.now) (W.contents out.new.out.now)
        (line_end out.old.is_begun)) }
{
    if out.is_begun {
        return out.write_all(b"\n");
    }
    Ok(())
}

/// Says how many rows aren't shown, if there are some.
fn put_hidden<W: Write>(hidden: Hidden, out: &mut Noted<'_, W>) -> io::Result<()>
    ensures { OnOk result (Appends (W.contents out.old.out.now) (W.contents out.new.out.now)
        (hidden_line hidden)) }
{
    if hidden.rows > 0 {
        return put_hidden_rows(hidden, out);
    }
    Ok(())
}

/// Says how many rows aren't shown, behind a blank line or not.
fn put_hidden_rows<W: Write>(hidden: Hidden, out: &mut Noted<'_, W>) -> io::Result<()>
    ensures { OnOk result (Appends (W.contents out.old.out.now) (W.contents out.new.out.now)
        (line_end hidden.is_apart ++ count_line hidden.rows)) }
{
    put_gap(hidden.is_apart, out)?;
    put_count(hidden.rows, out)
}

/// Writes a blank line, if one separates the count from the table.
fn put_gap<W: Write>(is_apart: bool, out: &mut Noted<'_, W>) -> io::Result<()>
    ensures { OnOk result (Appends (W.contents out.old.out.now) (W.contents out.new.out.now)
        (line_end is_apart)) }
{
    if is_apart {
        return out.write_all(b"\n");
    }
    Ok(())
}

/// Writes how many rows aren't shown.
fn put_count<W: Write>(rows: u64, out: &mut Noted<'_, W>) -> io::Result<()>
    ensures { OnOk result (Appends (W.contents out.old.out.now) (W.contents out.new.out.now)
        (count_line rows)) }
{
    if rows == 1 {
        return writeln!(out, "… 1 row more");
    }
    writeln!(out, "… {rows} rows more")
}

/// Says why a table wasn't printed. The writer says why it failed.
fn failed<W: Write>(error: TableError, out: &mut W) -> Result<(), ViewError>
    ensures { IsFailed error result }
{
    match (error, out.flush()) {
        (TableError::Writer, Err(error)) => unless_closed(Err(error)),
        (error, _) => Err(ViewError::Table(error)),
    }
}

/// A reader that went away, as `head` does, is no error.
fn unless_closed(written: io::Result<()>) -> Result<(), ViewError>
    ensures { IsWritten written result }
{
    match written {
        Ok(()) => Ok(()),
        Err(error) if is_closed(&error) => Ok(()),
        Err(error) => Err(ViewError::Output(error)),
    }
}

/// Whether a write failed because the reader went away.
fn is_closed(error: &io::Error) -> bool
    ensures { IsTrue result ↔ (error_kind error.now ≡ BrokenPipe) }
{
    matches!(error.kind(), io::ErrorKind::BrokenPipe)
}
