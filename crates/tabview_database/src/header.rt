//! What the first bytes of a database say.
ghost use Rattle.std.specs.Prelude.{◌≡◌, slice_index};
ghost use Rattle.tabview_database.specs.Header.{has_encoding, has_parents, has_sums, lack_of};

use crate::error::Lack;

/// The first bytes of a database of SQLite.
const MAGIC: &[u8] = b"SQLite format 3\0";

/// Whether a file begins as a database does.
pub(crate) fn is_database(bytes: &[u8]) -> bool {
    bytes.starts_with(MAGIC)
}

/// Whether each page ends in a sum, for which eight bytes are reserved.
pub(crate) fn has_sums(bytes: &[u8]) -> bool
    ensures { result ≡ has_sums bytes.now }
{
    byte_at(bytes, 20) == 8
}

/// Returns what a database has by its header that isn't supported.
pub(crate) fn lack_of(bytes: &[u8]) -> Option<Lack>
    ensures { result ≡ lack_of bytes.now }
{
    if has_parents(bytes) {
        return Some(Lack::AutoVacuum);
    }
    if has_encoding(bytes) {
        return Some(Lack::Utf16);
    }
    None
}

/// Whether the largest root page is stored, as it is for `auto_vacuum` alone.
fn has_parents(bytes: &[u8]) -> bool
    ensures { result ≡ has_parents bytes.now }
{
    let high = u32::from(byte_at(bytes, 52)) + u32::from(byte_at(bytes, 53));
    let low = u32::from(byte_at(bytes, 54)) + u32::from(byte_at(bytes, 55));
    high + low != 0
}

/// Whether texts are in UTF-16.
fn has_encoding(bytes: &[u8]) -> bool
    ensures { result ≡ has_encoding bytes.now }
{
    let encoding = byte_at(bytes, 59);
    encoding == 2 || encoding == 3
}

/// Returns the byte at an offset, 0 past the end.
fn byte_at(bytes: &[u8], at: usize) -> u8
    ensures { result ≡ slice_index bytes.now at }
{
    bytes.get(at).copied().unwrap_or(0)
}
