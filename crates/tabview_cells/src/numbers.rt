//! Decimal numbers.
ghost use Rattle.std.specs.Prelude.{◌≡◌};
ghost use Rattle.tabview_cells.specs.Numbers.{begins_with_digit, is_number, is_digits, is_suffix};
ghost use Rattle.tabview_cells.specs.Numbers.{skip_digits, skip_fraction, skip_sign, skip_whole};

/// Whether a text is a decimal number: digits, which commas may group, with a sign, a fraction, an
/// exponent or a percent sign.
pub(crate) fn is_number(text: &[u8]) -> bool
    ensures { result ≡ is_number text.now }
{
    let unsigned = skip_sign(text);
    begins_with_digit(unsigned) && is_suffix(skip_fraction(skip_whole(unsigned)))
}

fn begins_with_digit(text: &[u8]) -> bool
    ensures { result ≡ begins_with_digit text.now }
{
    match text.split_first() {
        Some((first, _)) => first.is_ascii_digit(),
        None => false,
    }
}

/// Returns the text after a sign, if it begins with one.
fn skip_sign(text: &[u8]) -> &[u8]
    ensures { result.now ≡ skip_sign text.now }
{
    let Some((first, rest)) = text.split_first() else {
        return text;
    };
    if *first == b'+' || *first == b'-' {
        rest
    } else {
        text
    }
}

/// Returns the text after the digits at its beginning.
fn skip_digits(text: &[u8]) -> &[u8]
    ensures { result.now ≡ skip_digits text.now }
{
    let mut rest = text;
    'digits: while let Some((first, others)) = rest.split_first() {
        if !first.is_ascii_digit() {
            return rest;
        }
        rest = others;
    }
    rest
}

/// Returns the text after the digits at its beginning, and after commas that are before digits.
fn skip_whole(text: &[u8]) -> &[u8]
    ensures { result.now ≡ skip_whole text.now }
{
    let mut rest = text;
    'digits: while let Some((first, others)) = rest.split_first() {
        let digit = first.is_ascii_digit();
        let comma = *first == b',' && begins_with_digit(others);
        if !digit && !comma {
            return rest;
        }
        rest = others;
    }
    rest
}

/// Returns the text after a point and digits, if it begins with them.
fn skip_fraction(text: &[u8]) -> &[u8]
    ensures { result.now ≡ skip_fraction text.now }
{
    let Some((first, rest)) = text.split_first() else {
        return text;
    };
    if *first == b'.' && begins_with_digit(rest) {
        skip_digits(rest)
    } else {
        text
    }
}

/// Whether a text is empty, a percent sign, or an exponent.
fn is_suffix(text: &[u8]) -> bool
    ensures { result ≡ is_suffix text.now }
{
    let Some((first, rest)) = text.split_first() else {
        return true;
    };
    if *first == b'%' {
        return rest.is_empty();
    }
    (*first == b'e' || *first == b'E') && is_digits(skip_sign(rest))
}

/// Whether a text is digits alone, at least one.
pub(crate) fn is_digits(text: &[u8]) -> bool
    ensures { result ≡ is_digits text.now }
{
    begins_with_digit(text) && skip_digits(text).is_empty()
}
