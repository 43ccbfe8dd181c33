//! Finds the end of a run of bytes within a range, 16 bytes at a time.
ghost use Rattle.std.specs.Prelude.{◌≡◌, ◌+◌, ◌-◌, ◌%◌, ◌<◌, ◌≤◌, drop, false, length, map, nat_lt};
ghost use Rattle.std.specs.Prelude.{not, slice_index};
ghost use Rattle.std.specs.Int.{is_in_range};
ghost use Rattle.std.specs.List.{list_all};
ghost use Rattle.std.specs.Simd.Lanes.{chunk, mask_l};
ghost use Rattle.tabled_text.specs.Runs.{EndsRun, IsFirstAt, IsMissing, IsSplitAt, LieWithin};

use std::simd::prelude::*;

/// The size of a block in bytes.
pub(crate) const BLOCK: usize = 16;

/// Returns the block at index `at`.
#[inline(always)]
pub(crate) fn block_at(bytes: &[u8], at: usize) -> u8x16
    requires { at + BLOCK ≤ length bytes.now }
    ensures { result ≡ chunk at BLOCK bytes.now }
{
    u8x16::from_slice(&bytes[at..])
}

/// Subtracts `by` from each byte, modulo 256.
#[inline(always)]
fn lowered(block: u8x16, by: u8) -> u8x16
    ensures { result ≡ map (λ byte. (byte + (256 - by)) % 256) block }
{
    block - u8x16::splat(by)
}

/// Returns a mask with a bit for each byte that is greater than `than`.
#[inline(always)]
fn greater(block: u8x16, than: u8) -> u64
    ensures { result ≡ mask_l (map (λ byte. nat_lt than byte) block) }
{
    block.simd_gt(u8x16::splat(than)).to_bitmask()
}

/// Returns a mask with a bit for each byte of the block at `at` that is outside of `first..=last`.
#[inline(always)]
fn outside(bytes: &[u8], at: usize, first: u8, last: u8) -> u64
    requires room { at + BLOCK ≤ length bytes.now }
    requires range { first ≤ last }
    ensures { result ≡ mask_l (map (λ byte. not (is_in_range first last byte))
        (chunk at BLOCK bytes.now)) }
{
    greater(lowered(block_at(bytes, at), first), last - first)
}

/// Returns how many bytes at the front of the block at `at` are in `first..=last`.
#[inline(always)]
fn run_in_block(bytes: &[u8], at: usize, first: u8, last: u8) -> usize
    requires room { at + BLOCK ≤ length bytes.now }
    requires range { first ≤ last }
    ensures bound { result ≤ BLOCK }
    ensures passed { LieWithin first last bytes.now at (at + result) }
    ensures stops { result < BLOCK → is_in_range first last (slice_index bytes.now (at + result))
        ≡ false }
{
    let outside = outside(bytes, at, first, last);
    if outside == 0 {
        BLOCK
    } else {
        outside.trailing_zeros() as usize
    }
}

/// Finds the end of a run byte by byte.
pub(crate) fn short_run_end(bytes: &[u8], from: usize, first: u8, last: u8) -> usize
    requires { from ≤ length bytes.now }
    ensures { EndsRun first last bytes.now from result }
{
    let mut at = from;
    'bytes: while at < bytes.len() {
        let byte = bytes[at];
        if byte < first || last < byte {
            return at;
        }
        at += 1;
    }
    at
}

/// Returns the index of the first byte from `from` on that is outside of `first..=last`, or the
/// length if there is none. The last bytes are tested in one block with bytes before them.
#[inline(always)]
pub fn run_end(bytes: &[u8], from: usize, first: u8, last: u8) -> usize
    requires from { from ≤ length bytes.now }
    requires range { first ≤ last }
    ensures { EndsRun first last bytes.now from result }
{
    if bytes.len() - from < BLOCK {
        return short_run_end(bytes, from, first, last);
    }
    let mut at = from;
    'whole: while bytes.len() - at >= BLOCK {
        let count = run_in_block(bytes, at, first, last);
        at += count;
        if count < BLOCK {
            return at;
        }
    }
    let start = bytes.len() - BLOCK;
    start + run_in_block(bytes, start, first, last)
}

/// Whether all bytes from `from` on are in `first..=last`.
#[inline(always)]
pub(crate) fn is_run(bytes: &[u8], from: usize, first: u8, last: u8) -> bool
    requires from { from ≤ length bytes.now }
    requires range { first ≤ last }
    ensures { result ≡ list_all (is_in_range first last) (drop from bytes.now) }
{
    run_end(bytes, from, first, last) == bytes.len()
}

/// Returns the index of the first byte that equals `byte`, or the length if there is none. No byte
/// before `from` equals it. Passes bytes that are greater 16 at a time.
#[inline(always)]
fn byte_index(bytes: &[u8], from: usize, byte: u8) -> usize
    requires from { from ≤ length bytes.now }
    requires before { IsMissing byte bytes.now from }
    requires byte { byte < 255 }
    ensures { IsFirstAt byte bytes.now result }
{
    let mut at = from;
    'runs: while at < bytes.len() && bytes[at] != byte {
        at = run_end(bytes, at + 1, byte + 1, u8::MAX);
    }
    at
}

/// Returns the text before the first `byte`, which is ASCII, and the rest after it, if it is there.
/// No byte before `from` equals it.
#[inline(always)]
pub(crate) fn split_at_byte(text: &str, from: usize, byte: u8) -> (&str, Option<&str>)
    requires from { from ≤ length text.now }
    requires before { IsMissing byte text.now from }
    requires byte { byte < 128 }
    ensures { IsSplitAt byte text.now result.0.now result.1 }
{
    let at = byte_index(text.as_bytes(), from, byte);
    if at == text.len() {
        return (text, None);
    }
    let (front, _) = text.split_at(at);
    let (_, after) = text.split_at(at + 1);
    (front, Some(after))
}
