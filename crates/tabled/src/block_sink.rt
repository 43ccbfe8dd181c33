//! A sink that writes in blocks.
ghost use Rattle.std.specs.Prelude.{◌≡◌, ℕ, List, [], IfErr, OnOk};
ghost use Rattle.tabled_base.specs.declared.error.TableError.TheVariants.{Writer};
ghost use Rattle.tabled_line.specs.Sent.{Rose, Writes};
ghost use Rattle.tabled.specs.BlockSent.{Advances, Block, block, block_sent, sent_since, waiting};

use crate::block_buffer::{BLOCK, BlockBuffer};
use std::io::Write;
use std::marker::{Brand, PhantomData};
use tabled_base::TableError;
use tabled_grid::TextSink;

/// A sink that passes text to a writer in blocks. Every error of a write is a failure,
/// `Interrupted` too, and so is a write of no bytes. After a failure nothing is written, and
/// dropping the sink writes nothing.
#[derive(Drop)]
pub(crate) struct BlockSink<'a, W> {
    pub writer: &'a mut W,
    held: &'a mut BlockBuffer,
    failures: usize,
}

impl<'a, W: Write> BlockSink<'a, W> {
    pub fn new(writer: &'a mut W, held: &'a mut BlockBuffer) -> BlockSink<'a, W>
        ensures same_reference { result.writer.ghost_name ≡ writer.entry.ghost_name }
        ensures writer { result.writer.now ≡ writer.old }
        ensures held { result.held.now ≡ held.old }
    {
        BlockSink {
            writer,
            held,
            failures: 0,
        }
    }

    fn fail(&mut self) -> TableError
        ensures error { result ≡ Writer }
        ensures sent { (block_sent (block W.contents self.new)).bytes
            ≡ (block_sent (block W.contents self.old)).bytes }
        ensures rose { Rose self.old.failures self.new.failures }
        ensures advanced { Advances (block W.contents self.old) (block W.contents self.new) }
    {
        self.failures = self.failures.saturating_add(1);
        TableError::Writer
    }

    fn flush_block(&mut self) -> Result<(), TableError>
        ensures written { Writes (block_sent (block W.contents self.old)) result
            (block_sent (block W.contents self.new)) [] }
        ensures advanced { Advances (block W.contents self.old) (block W.contents self.new) }
        ensures emptied { OnOk result (waiting self.new.held.now ≡ []) }
        ensures cleared { OnOk result (self.new.held.now.used ≡ 0) }
        ensures only { IfErr result (λ e. e ≡ Writer) }
    {
        if self.failures > 0 {
            return Err(self.fail());
        }
        'taken: while self.held.taken < self.held.used {
            match self.writer.write(self.held.rest()) {
                Ok(n) if n > 0 => self.held.taken += n,
                _ => return Err(self.fail()),
            }
        }
        self.held.taken = 0;
        self.held.used = 0;
        Ok(())
    }

    /// Buffers bytes of any length, and writes each full buffer.
    #[inline(never)]
    fn buffer_parts(&mut self, bytes: &[u8]) -> Result<(), TableError>
        ensures written { Writes (block_sent (block W.contents self.old)) result
            (block_sent (block W.contents self.new)) bytes.now }
        ensures advanced { Advances (block W.contents self.old) (block W.contents self.new) }
    {
        let mut rest = bytes;
        'pieces: loop {
            let room = BLOCK - self.held.used;
            if rest.len() <= room {
                self.held.add(rest);
                return Ok(());
            }
            let (front, back) = rest.split_at(room);
            self.held.add(front);
            self.flush_block()?;
            rest = back;
        }
    }

    /// Writes all buffered bytes, and flushes the writer.
    pub fn finish(&mut self) -> Result<(), TableError>
        ensures written { Writes (block_sent (block W.contents self.old)) result
            (block_sent (block W.contents self.new)) [] }
        ensures advanced { Advances (block W.contents self.old) (block W.contents self.new) }
        ensures emptied { OnOk result (waiting self.new.held.now ≡ []) }
        ensures only { IfErr result (λ e. e ≡ Writer) }
    {
        self.flush_block()?;
        if self.writer.flush().is_err() {
            return Err(self.fail());
        }
        Ok(())
    }
}

/// A writer as it was before a sink used it.
pub(crate) trait WriterStart {
    // The name of the reference to the writer.
    ghost name: { ℕ };

    // The contents of the writer.
    ghost held: { List ℕ };
}

impl WriterStart for Brand {
    ghost name = { 0 };

    ghost held = { [] };
}

/// A block sink whose bytes are known as long as its writer is the one of `B` and still has its
/// contents.
#[derive(Drop)]
pub(crate) struct BytesSince<'a, W, B> {
    pub sink: BlockSink<'a, W>,
    pub start: PhantomData<B>,
}

impl<'a, W: Write, B: WriterStart> TextSink for BytesSince<'a, W, B> {
    ghost sent = { λ s. sent_since B.name B.held (block W.contents s.sink) };

    #[inline(always)]
    fn write_text(&mut self, text: &str) -> Result<(), TableError> {
        if self.sink.held.used + text.len() <= BLOCK {
            self.sink.held.add(text.as_bytes());
            return Ok(());
        }
        self.sink.buffer_parts(text.as_bytes())
    }
}
