//! Measures letters by their bytes, 16 at a time.
ghost use Rattle.std.specs.Prelude.{◌≡◌, ◌+◌, ◌/◌, ◌++◌, ◌≤◌, IfSome, bit_and, drop, length, map};
ghost use Rattle.std.specs.Prelude.{replicate, slice_index, take, true, IsUtf8};
ghost use Rattle.std.specs.List.{list_all};
ghost use Rattle.tabled_text.specs.Letters.{AreLetters, is_letter_byte, is_letter_or_break};

use crate::character::{is_narrow_lead, is_wide_lead};
use crate::runs::{BLOCK, block_at, short_run_end};
use std::simd::prelude::*;

/// The size of half a block in bytes.
pub(crate) const HALF_BLOCK: usize = 8;

/// The columns of the letter that a byte begins, by its upper half.
const COLUMNS: [u8; 16] = [0, 0, 1, 1, 1, 1, 1, 1, 0, 0, 0, 0, 1, 1, 2, 0];

/// What the upper half of a byte may say against it: a bit for each kind of byte that isn't a
/// letter's. It isn't one if its lower half has a bit of these. 1 is a tab or a line feed, 2
/// another control character up to U+000F, 4 a control character from U+0010 on or a character of 4
/// bytes, 8 U+007F, and 16, 32 and 64 are first bytes of 2, 2 and 3 bytes.
const UPPER: [u8; 16] = [3, 4, 0, 0, 0, 0, 0, 8, 0, 0, 0, 0, 16, 32, 64, 4];

/// The same by its lower half.
const LOWER: [u8; 16] = [
    86, 86, 118, 102, 38, 38, 38, 38, 38, 37, 101, 102, 118, 118, 102, 110,
];

/// Looks up the upper half of each byte.
#[inline(always)]
fn by_upper(table: [u8; 16], block: u8x16) -> u8x16
    ensures { result ≡ map (λ byte. slice_index table (byte / 16)) block }
{
    u8x16::from_array(table).swizzle_dyn(block >> u8x16::splat(4))
}

/// Looks up the lower half of each byte.
#[inline(always)]
fn by_lower(table: [u8; 16], block: u8x16) -> u8x16
    ensures { result ≡ map (λ byte. slice_index table (bit_and byte 15)) block }
{
    u8x16::from_array(table).swizzle_dyn(block & u8x16::splat(15))
}

/// Whether each byte of a block is a letter's.
#[inline(always)]
fn is_letter_block(block: u8x16) -> bool
    ensures { result ≡ list_all is_letter_byte block }
{
    let kinds = by_upper(UPPER, block) & by_lower(LOWER, block);
    u8x16::splat(0).simd_lt(kinds).to_bitmask() == 0
}

/// Returns the columns of a block of letters, or `None` if a byte isn't a letter's.
#[inline(always)]
fn block_columns(block: u8x16) -> Option<usize>
    ensures { IfSome result (λ columns. AreLetters block columns) }
{
    if !is_letter_block(block) {
        return None;
    }
    Some(by_upper(COLUMNS, block).strict_reduce_sum() as usize)
}

/// What replaces the front of a block, and zeros.
const FILL: [u8; 32] = [
    0x80, 0x80, 0x80, 0x80, 0x80, 0x80, 0x80, 0x80, 0x80, 0x80, 0x80, 0x80, 0x80, 0x80, 0x80, 0x80,
    0, 0, 0, 0, 0, 0, 0, 0, 0, 0, 0, 0, 0, 0, 0, 0,
];

/// Replaces the first `count` bytes of a block by 0x80, which takes no columns.
#[inline(always)]
fn filled(block: u8x16, count: usize) -> u8x16
    requires { count ≤ BLOCK }
    ensures { result ≡ replicate count 0x80 ++ drop count block }
{
    let fill = block_at(&FILL, BLOCK - count);
    fill.simd_eq(u8x16::splat(0)).select(block, fill)
}

/// Returns the columns of the bytes from `start` on, fewer than a block, or `None` if one isn't a
/// letter's. Reads the last block of all bytes.
#[inline(always)]
fn last_columns(bytes: &[u8], start: usize) -> Option<usize>
    requires room { BLOCK ≤ length bytes.now }
    requires start { start ≤ length bytes.now }
    requires few { length bytes.now ≤ start + BLOCK }
    ensures { IfSome result (λ columns. AreLetters (drop start bytes.now) columns) }
{
    let at = bytes.len() - BLOCK;
    block_columns(filled(block_at(bytes, at), start - at))
}

/// Returns the columns of the bytes from `start` on, or `None` if one isn't a letter's.
pub(crate) fn letter_columns(bytes: &[u8], start: usize) -> Option<usize>
    requires room { BLOCK ≤ length bytes.now }
    requires start { start ≤ length bytes.now }
    ensures { IfSome result (λ columns. AreLetters (drop start bytes.now) columns) }
{
    let mut at = start;
    let mut columns = 0;
    'whole: while bytes.len() - at >= BLOCK {
        let count = block_columns(block_at(bytes, at))?;
        columns += count;
        at += BLOCK;
    }
    let last = last_columns(bytes, at)?;
    Some(columns + last)
}

/// Returns the columns of 8 to 15 bytes, or `None` if one isn't a letter's. Reads the last 8 and
/// the first 8 in one block, and those that are read twice once.
#[inline(always)]
fn few_columns(bytes: &[u8]) -> Option<usize>
    requires some { HALF_BLOCK ≤ length bytes.now }
    requires few { length bytes.now ≤ BLOCK }
    ensures { IfSome result (λ columns. AreLetters bytes.now columns) }
{
    let front = u8x8::from_slice(bytes);
    let back = u8x8::from_slice(&bytes[bytes.len() - HALF_BLOCK..]);
    let both: u8x16 = back.shuffle(
        front,
        [0, 1, 2, 3, 4, 5, 6, 7, 8, 9, 10, 11, 12, 13, 14, 15],
    );
    block_columns(filled(both, BLOCK - bytes.len()))
}

/// Returns the columns of bytes, at least 8, or `None` if one isn't a letter's.
pub(crate) fn whole_columns(bytes: &[u8]) -> Option<usize>
    requires { HALF_BLOCK ≤ length bytes.now }
    ensures { IfSome result (λ columns. AreLetters bytes.now columns) }
{
    if bytes.len() < BLOCK {
        return few_columns(bytes);
    }
    letter_columns(bytes, 0)
}

/// Goes over blocks of letters at the front that take at most n columns together. Returns where
/// they end, which may be within a character, and their columns.
fn letter_blocks(bytes: &[u8], n: usize) -> (usize, usize)
    ensures end { result.0 ≤ length bytes.now }
    ensures letters { AreLetters (take result.0 bytes.now) result.1 }
    ensures fits { result.1 ≤ n }
{
    let mut at = 0;
    let mut columns = 0;
    'whole: while bytes.len() - at >= BLOCK {
        let Some(count) = block_columns(block_at(bytes, at)) else {
            break;
        };
        if count > n - columns {
            break;
        }
        columns += count;
        at += BLOCK;
    }
    (at, columns)
}

/// Splits off letters at the front of a text that take at most n columns together, if it has a
/// block of bytes. Returns their text, their columns and the rest, which may begin with more
/// letters.
#[inline(always)]
pub(crate) fn split_letters(text: &str, n: usize) -> (&str, usize, &str)
    ensures parts { text.now ≡ result.0.now ++ result.2.now }
    ensures front { IsUtf8 result.0.now }
    ensures rest { IsUtf8 result.2.now }
    ensures letters { AreLetters result.0.now result.1 }
    ensures fits { result.1 ≤ n }
{
    if text.len() < BLOCK {
        return ("", 0, text);
    }
    split_blocks(text, n)
}

/// Splits off blocks of letters, and the rest of the last letter.
fn split_blocks(text: &str, n: usize) -> (&str, usize, &str)
    ensures parts { text.now ≡ result.0.now ++ result.2.now }
    ensures front { IsUtf8 result.0.now }
    ensures rest { IsUtf8 result.2.now }
    ensures letters { AreLetters result.0.now result.1 }
    ensures fits { result.1 ≤ n }
{
    let bytes = text.as_bytes();
    let (at, columns) = letter_blocks(bytes, n);
    let (front, rest) = text.split_at(short_run_end(bytes, at, 0x80, 0xBF));
    (front, columns, rest)
}

/// Whether each byte of a block is a letter's, a tab or a line feed.
#[inline(always)]
fn is_text_block(block: u8x16) -> bool
    ensures { result ≡ list_all is_letter_or_break block }
{
    let kinds = by_upper(UPPER, block) & by_lower(LOWER, block);
    u8x16::splat(1).simd_lt(kinds).to_bitmask() == 0
}

/// Whether a byte is a letter's, a tab or a line feed.
fn is_letter_or_break(byte: u8) -> bool
    ensures { result ≡ is_letter_or_break byte }
{
    matches!(byte, b'\t' | b'\n' | 0x80..=0xBF) || is_narrow_lead(byte) || is_wide_lead(byte)
}

/// Whether all bytes are letters', tabs or line feeds, if those before `at` are. Less than a block
/// follows these.
fn ends_in_letters(bytes: &[u8], at: usize) -> bool
    requires before { list_all is_letter_or_break (take at bytes.now) ≡ true }
    requires few { length bytes.now ≤ at + BLOCK }
    ensures { result ≡ list_all is_letter_or_break bytes.now }
{
    if bytes.len() >= BLOCK {
        return is_text_block(block_at(bytes, bytes.len() - BLOCK));
    }
    bytes.iter().all(|byte| is_letter_or_break(*byte))
}

/// Whether a text is letters, tabs and line feeds alone. These letters are printable ASCII, the
/// characters from U+00C0 to U+02FF and from U+0380 to U+047F, and those from U+4000 to U+9FFF: a
/// line of them takes the sum of what its characters count.
pub fn is_letter_text(text: &str) -> bool
    ensures { result ≡ list_all is_letter_or_break text.now }
{
    let bytes = text.as_bytes();
    let mut at = 0;
    'whole: while bytes.len() - at >= BLOCK {
        if !is_text_block(block_at(bytes, at)) {
            return false;
        }
        at += BLOCK;
    }
    ends_in_letters(bytes, at)
}
