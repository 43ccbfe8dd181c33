//! Where a byte of comma-separated values is, as their reader takes it.
ghost use Rattle.std.specs.Prelude.{◌≡◌};
ghost use Rattle.tabview_read.specs.CsvText.{begin_field, ends_blank, is_mark_at, open_quote};
ghost use Rattle.tabview_read.specs.CsvText.{opens_quotes, scan_after, within_after, within_field};

/// What the next byte of a text belongs to.
#[derive(Clone, Copy, Debug, PartialEq, Eq)]
pub(crate) enum Within {
    /// It begins a record, or is part of a blank line.
    Record,
    /// It begins a field.
    Field,
    /// It continues a field without quotes.
    Plain,
    /// It is in quotes.
    Quotes,
    /// It is behind a quote, which it may double.
    Quote,
}

impl Within {
    /// Returns what the byte behind this one belongs to.
    pub(crate) fn after(self, byte: u8, delimiter: u8) -> Within
        ensures { result ≡ within_after delimiter self byte }
    {
        match self {
            Within::Record => match byte {
                b'\r' | b'\n' => Within::Record,
                _ => begin_field(byte, delimiter),
            },
            Within::Field | Within::Quote => begin_field(byte, delimiter),
            Within::Plain => within_field(byte, delimiter),
            Within::Quotes => match byte {
                b'"' => Within::Quote,
                _ => Within::Quotes,
            },
        }
    }
}

/// Returns what follows the first byte of a field.
fn begin_field(byte: u8, delimiter: u8) -> Within
    ensures { result ≡ begin_field delimiter byte }
{
    if byte == b'"' {
        return Within::Quotes;
    }
    within_field(byte, delimiter)
}

/// Returns what follows a byte of a field without quotes, or behind a field.
fn within_field(byte: u8, delimiter: u8) -> Within
    ensures { result ≡ within_field delimiter byte }
{
    if byte == delimiter {
        return Within::Field;
    }
    match byte {
        b'\r' | b'\n' => Within::Record,
        _ => Within::Plain,
    }
}

/// The bytes that were taken of a text.
#[derive(Clone, Copy)]
pub(crate) struct Scan {
    /// The byte between two cells.
    delimiter: u8,
    within: Within,
    /// Whether the last byte was a carriage return.
    is_return: bool,
    /// The count of the bytes.
    pub(crate) bytes: u64,
    /// The line of the next byte, from 1.
    line: u64,
    /// The line in which the last quotes began.
    quote_line: u64,
}

impl Scan {
    /// Begins before the first byte.
    pub(crate) fn new(delimiter: u8) -> Scan {
        Scan {
            delimiter,
            within: Within::Record,
            is_return: false,
            bytes: 0,
            line: 1,
            quote_line: 1,
        }
    }

    /// Takes one more byte. A byte-order mark is passed over.
    pub(crate) fn after(self, byte: u8) -> Scan
        ensures { result ≡ scan_after self byte }
    {
        let within = if is_mark_at(self.bytes, byte) {
            self.within
        } else {
            self.within.after(byte, self.delimiter)
        };
        Scan {
            delimiter: self.delimiter,
            within,
            is_return: byte == b'\r',
            bytes: self.bytes.saturating_add(1),
            line: self.line.saturating_add(u64::from(byte == b'\n')),
            quote_line: if self.opens_quotes(byte) {
                self.line
            } else {
                self.quote_line
            },
        }
    }

    /// Whether the next byte opens quotes.
    fn opens_quotes(self, byte: u8) -> bool
        ensures { result ≡ opens_quotes self.within byte }
    {
        byte == b'"' && matches!(self.within, Within::Record | Within::Field)
    }

    /// Whether the next byte ends a blank line. A line feed behind a carriage return ends none.
    pub(crate) fn ends_blank_line(self, byte: u8) -> bool
        ensures { result ≡ ends_blank self.within self.is_return byte }
    {
        match (self.within, byte) {
            (Within::Record, b'\r') => true,
            (Within::Record, b'\n') => !self.is_return,
            _ => false,
        }
    }

    /// Returns the line in which quotes began that aren't closed, if there are some.
    pub(crate) fn open_quote(self) -> Option<u64>
        ensures { result ≡ open_quote self }
    {
        match self.within {
            Within::Quotes => Some(self.quote_line),
            _ => None,
        }
    }
}

/// Whether a byte at an index is that of a byte-order mark.
fn is_mark_at(index: u64, byte: u8) -> bool
    ensures { result ≡ is_mark_at index byte }
{
    match index {
        0 => byte == 0xEF,
        1 => byte == 0xBB,
        2 => byte == 0xBF,
        _ => false,
    }
}
