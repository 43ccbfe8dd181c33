//! Dates and times of digits.
ghost use Rattle.std.specs.Prelude.{◌≡◌};
ghost use Rattle.tabview_cells.specs.Dates.{fits_byte, fits_shape, is_clock, is_date, is_day};
ghost use Rattle.tabview_cells.specs.Dates.{is_instant, is_moment};

/// Whether a text is a day, a month, a time, or a day with a time.
pub(crate) fn is_date(text: &[u8]) -> bool
    ensures { result ≡ is_date text.now }
{
    is_day(text) || is_clock(text) || is_moment(text) || is_instant(text)
}

fn is_day(text: &[u8]) -> bool
    ensures { result ≡ is_day text.now }
{
    fits_shape(text, b"0000-00-00")
        || fits_shape(text, b"0000/00/00")
        || fits_shape(text, b"00/00/0000")
        || fits_shape(text, b"00.00.0000")
}

/// Whether a text is a time, or a month.
fn is_clock(text: &[u8]) -> bool
    ensures { result ≡ is_clock text.now }
{
    fits_shape(text, b"00:00") || fits_shape(text, b"00:00:00") || fits_shape(text, b"0000-00")
}

/// Whether a text is a day with a time.
fn is_moment(text: &[u8]) -> bool
    ensures { result ≡ is_moment text.now }
{
    fits_shape(text, b"0000-00-00 00:00")
        || fits_shape(text, b"0000-00-00T00:00")
        || fits_shape(text, b"0000-00-00 00:00:00")
        || fits_shape(text, b"0000-00-00T00:00:00")
}

/// Whether a text is a day with a time in UTC, or in milliseconds.
fn is_instant(text: &[u8]) -> bool
    ensures { result ≡ is_instant text.now }
{
    fits_shape(text, b"0000-00-00T00:00:00Z")
        || fits_shape(text, b"0000-00-00 00:00:00.000")
        || fits_shape(text, b"0000-00-00T00:00:00.000Z")
}

/// Whether a byte fits one of a shape: a digit for `0`, else the same byte.
fn fits_byte(byte: u8, shape: u8) -> bool
    ensures { result ≡ fits_byte byte shape }
{
    if shape == b'0' {
        byte.is_ascii_digit()
    } else {
        byte == shape
    }
}

/// Whether each byte of a text fits that of a shape.
fn fits_shape(text: &[u8], shape: &[u8]) -> bool
    ensures { result ≡ fits_shape text.now shape.now }
{
    let mut bytes = text;
    let mut signs = shape;
    'bytes: while let Some((byte, later)) = bytes.split_first() {
        let Some((sign, after)) = signs.split_first() else {
            return false;
        };
        if !fits_byte(*byte, *sign) {
            return false;
        }
        bytes = later;
        signs = after;
    }
    signs.is_empty()
}
