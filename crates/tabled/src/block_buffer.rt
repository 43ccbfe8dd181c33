//! A buffer of bytes for a writer.
ghost use Rattle.std.specs.Prelude.{◌≡◌, ◌+◌, ◌≤◌, ◌^◌, [], ◌++◌, IfOk, length, vec_len};

use std::alloc::{AllocError, Global};

/// The bytes of the buffer, and of one read.
pub(crate) const BLOCK: usize = 1 << 16;

/// A buffer of `BLOCK` bytes. The first `used` are filled, and the writer took the first `taken`.
#[derive(Drop)]
pub(crate) struct BlockBuffer {
    bytes: Vec<u8>,
    pub used: usize,
    pub taken: usize,
    ghost whole: { vec_len bytes ≡ 2 ^ 16 },
    ghost within: { taken ≤ used },
    ghost inside: { used ≤ 2 ^ 16 },
}

impl BlockBuffer {
    ghost use Rattle.tabled.specs.BlockSent.{waiting};

    pub fn new(alloc: Global) -> Result<BlockBuffer, AllocError>
        ensures { IfOk result (λ held. waiting held ≡ []) }
    {
        let bytes = vec![in alloc; 0u8; BLOCK]?;
        Ok(BlockBuffer {
            bytes,
            used: 0,
            taken: 0,
        })
    }

    /// Returns the bytes that the writer didn't take yet.
    pub fn rest(&self) -> &[u8]
        ensures { result.now ≡ waiting self.now }
    {
        &self.bytes[self.taken..self.used]
    }

    /// Appends bytes, which must fit. A single byte, the most frequent case, is stored directly.
    #[inline(always)]
    pub fn add(&mut self, bytes: &[u8])
        requires room { self.old.used + length bytes.now ≤ BLOCK }
        ensures added { waiting self.new ≡ waiting self.old ++ bytes.now }
    {
        if let [byte] = bytes {
            self.bytes[self.used] = *byte;
            self.used += 1;
            return;
        }
        let end = self.used + bytes.len();
        self.bytes[self.used..end].copy_from_slice(bytes);
        self.used = end;
    }
}
