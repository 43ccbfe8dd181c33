//! A hint for tables that are too wide for a terminal.
ghost use Rattle.std.specs.Io.{WritesAtMost};
ghost use Rattle.std.specs.Io.KnownBytes.{WriteAppends};
ghost use Rattle.std.specs.Prelude.{◌≡◌, fold, max};
ghost use Rattle.tabview_show.specs.Hints.{wants_hint, widths_after};

use std::io::{self, Write};
use tabview_options::Options;

/// The columns of a terminal that most are at least as wide as.
const TERMINAL: u64 = 80;

/// What makes tables fit the terminal.
pub(crate) const HINT: &str = "tabview: for tables that fit the terminal, put this line into the \
    start file of the shell: alias tabview='tabview -w \"$COLUMNS\"'";

/// Whether a table that is too wide for the terminal brings the hint: no width is known, and the
/// rows are printed when all were read.
pub(crate) fn wants_hint(options: &Options<'_>) -> bool
    ensures { result ≡ wants_hint options.now }
{
    options.look.width.is_none() && options.stream.is_none()
}

/// The characters of the line that is begun, and of the longest one before it.
#[derive(Clone, Copy)]
struct Widths {
    line: u64,
    longest: u64,
}

impl Widths {
    /// Takes one more byte. One within a character isn't counted.
    fn after(self, byte: u8) -> Widths
        ensures { result ≡ widths_after self byte }
    {
        match byte {
            b'\n' => Widths {
                line: 0,
                longest: self.longest.max(self.line),
            },
            0x80..=0xBF => self,
            _ => Widths {
                line: self.line.saturating_add(1),
                longest: self.longest,
            },
        }
    }
}

/// A writer that knows how many characters its longest line has.
pub(crate) struct Measured<'a, W: Write> {
    out: &'a mut W,
    widths: Widths,
}

impl<W: Write> Drop for Measured<'_, W> {
    fn drop(self) {
        let Measured { out: _, widths: _ } = self;
    }
}

impl<'a, W: Write> Measured<'a, W> {
    pub fn new(out: &'a mut W) -> Measured<'a, W>
        ensures same_reference { result.out.ghost_name ≡ out.entry.ghost_name }
        ensures writer { result.out.now ≡ out.old }
    {
        Measured {
            out,
            widths: Widths {
                line: 0,
                longest: 0,
            },
        }
    }

    /// Whether a line has more characters than most terminals have columns.
    pub fn is_wide(&self) -> bool {
        self.widths.longest.max(self.widths.line) > TERMINAL
    }

    fn measure(&mut self, bytes: &[u8])
        ensures same_reference { self.new.out.ghost_name ≡ self.old.out.ghost_name }
        ensures writer { self.new.out.now ≡ self.old.out.now }
        ensures widths { self.new.widths ≡ fold widths_after self.old.widths bytes.now }
    {
        let mut widths = self.widths;
        for byte in bytes {
            widths = widths.after(*byte);
        }
        self.widths = widths;
    }
}

impl<W: Write> Write for Measured<'_, W> {
    ghost contents = { λ s. W.contents s.out.now };

    fn write(&mut self, bytes: &[u8]) -> io::Result<usize>
        ensures bound { WritesAtMost result bytes.now }
        ensures bytes { WriteAppends (W.contents self.old.out.now) (W.contents self.new.out.now)
            result bytes.now }
    {
        let count = self.out.write(bytes)?;
        self.measure(&bytes[..count]);
        Ok(count)
    }

    fn flush(&mut self) -> io::Result<()> {
        self.out.flush()
    }
}
