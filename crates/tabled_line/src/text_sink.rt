//! What the text of a table is written to: the trait of sinks, sinks over writers, and buffers for
//! the text of a line. `String` and `Vec<u8>` are sinks whose only error is `Memory`: an allocation
//! failed.
ghost use Rattle.std.specs.Prelude.{IfErr, None, Some, [], false, if◌then◌else◌, is_ok, min};
ghost use Rattle.std.specs.Prelude.{string_bytes, take, true, ◌+◌, ◌≡◌, ◌≤◌};
ghost use Rattle.std.specs.Str.{is_utf8};
ghost use Rattle.tabled_base.specs.declared.error.TableError.TheVariants.{Memory, Writer};
ghost use Rattle.tabled_line.specs.Sent.{Sent, Took, Writes, memory_sent};
ghost use Rattle.tabled_line.specs.WriterSent.{io_sink_sent, writer_sink_sent};

use std::alloc::Global;
use std::io::Write;
use tabled_base::TableError;

/// A destination for text, which is written in pieces.
pub trait TextSink {
    // The bytes so far, if they are known, the number of failed writes, and whether `Memory` can
    // occur.
    ghost sent: { Self → Sent };

    /// Appends a text. `Memory`: the sink grows, and an allocation failed. `Writer`: a write
    /// failed. After an error, a beginning of the text was appended.
    fn write_text(&mut self, text: &str) -> Result<(), TableError>
        ensures written { Writes (sent self.old) result (sent self.new) text.now };
}

impl<S: TextSink> TextSink for &mut S {
    ghost sent = { λ s. S.sent s.now };

    fn write_text(&mut self, text: &str) -> Result<(), TableError> {
        TextSink::write_text(&mut **self, text)
    }
}

impl TextSink for String {
    ghost sent = { λ s. memory_sent (string_bytes s) };

    fn write_text(&mut self, text: &str) -> Result<(), TableError>
        ensures written { Writes (memory_sent (string_bytes self.old)) result
            (memory_sent (string_bytes self.new)) text.now }
        ensures only { IfErr result (λ e. e ≡ Memory) }
    {
        self.push_str(text)?;
        Ok(())
    }
}

impl TextSink for Vec<u8> {
    ghost sent = { λ v. memory_sent v.items };

    fn write_text(&mut self, text: &str) -> Result<(), TableError>
        ensures written { Writes (memory_sent self.old.items) result
            (memory_sent self.new.items) text.now }
        ensures only { IfErr result (λ e. e ≡ Memory) }
    {
        self.extend_from_slice(text.as_bytes())?;
        Ok(())
    }
}

/// A sink over a writer that it owns.
///
/// It calls `write` until all bytes are taken. Every error counts as a failure, including
/// `Interrupted`, and so does a write that takes no bytes. Nothing is retried, and the writer isn't
/// flushed.
#[derive(Debug, Drop)]
pub struct IoSink<W> {
    writer: W,
    failures: usize,
}

impl<W> IoSink<W> {
    /// Returns a sink over a writer, with no failures yet.
    pub fn new(writer: W) -> IoSink<W>
        ensures writer { result.writer ≡ writer }
        ensures failures { result.failures ≡ 0 }
    {
        IoSink {
            writer,
            failures: 0,
        }
    }

    /// Returns how many writes failed. The count stops at `usize::MAX`.
    pub fn failures(&self) -> usize
        ensures { result ≡ self.now.failures }
    {
        self.failures
    }
}

impl<W: Write> TextSink for IoSink<W> {
    ghost sent = { io_sink_sent W.contents };

    fn write_text(&mut self, text: &str) -> Result<(), TableError>
        ensures written { Writes (io_sink_sent W.contents self.old) result
            (io_sink_sent W.contents self.new) text.now }
        ensures only { IfErr result (λ e. e ≡ Writer) }
        ensures counted { self.new.failures
            ≡ (if is_ok result then self.old.failures else min (self.old.failures + 1) usize.MAX) }
    {
        let mut rest = text.as_bytes();
        'taken: while !rest.is_empty() {
            match self.writer.write(rest) {
                Ok(n) if n > 0 => rest = rest.split_at(n).1,
                _ => {
                    self.failures = self.failures.saturating_add(1);
                    return Err(TableError::Writer);
                }
            }
        }
        Ok(())
    }
}

/// A sink over a borrowed writer. Contracts of calls that print to it say what the writer took.
///
/// It writes as `IoSink` does, and nothing after a failed write. Proofs use `sent`: its bytes start
/// with the name of the reference, so that the writer is the same after the call. After a failure,
/// they end with the byte at which the write failed.
#[derive(Debug, Drop)]
pub struct WriterSink<'a, W> {
    /// The writer.
    pub writer: &'a mut W,
    // The byte at which a write failed, if one did.
    failed_at: Option<u8>,
}

impl<'a, W> WriterSink<'a, W> {
    /// Returns a sink over a writer, with no failures yet.
    pub fn new(writer: &'a mut W) -> WriterSink<'a, W>
        ensures same_reference { result.writer.ghost_name ≡ writer.entry.ghost_name }
        ensures writer { result.writer.now ≡ writer.old }
        ensures unfailed { result.failed_at ≡ None }
    {
        WriterSink {
            writer,
            failed_at: None,
        }
    }
}

impl<'a, W: Write> TextSink for WriterSink<'a, W> {
    ghost sent = { writer_sink_sent W.contents };

    fn write_text(&mut self, text: &str) -> Result<(), TableError> {
        if self.failed_at.is_some() {
            return Err(TableError::Writer);
        }
        let mut rest = text.as_bytes();
        'taken: while !rest.is_empty() {
            match self.writer.write(rest) {
                Ok(n) if n > 0 => rest = rest.split_at(n).1,
                _ => {
                    self.failed_at = Some(rest[0]);
                    return Err(TableError::Writer);
                }
            }
        }
        Ok(())
    }
}

/// The capacity of a `FixedBuffer`, in bytes.
const FIXED_BYTES: usize = 4096;

/// The most bytes that a `LineBuffer` allocates. A longer line isn't worth the memory, and a table
/// can be wider than memory is large.
const MOST_BYTES: usize = 1_048_576;

/// A sink of 4096 bytes without allocation. A text that doesn't fit fails with `Memory`, and
/// nothing of it is added.
#[derive(Drop)]
pub struct FixedBuffer {
    bytes: [u8; FIXED_BYTES],
    used: usize,
    ghost within: { used ≤ 4096 },
    ghost utf8: { is_utf8 (take used bytes) ≡ true },
}

impl FixedBuffer {
    /// Returns an empty buffer.
    pub fn new() -> FixedBuffer
        ensures { result.used ≡ 0 }
    {
        FixedBuffer {
            bytes: [0; FIXED_BYTES],
            used: 0,
        }
    }

    /// Returns the text in the buffer.
    pub fn text(&self) -> &str
        ensures { result.now ≡ take self.now.used self.now.bytes }
    {
        // Sound: only texts are added.
        unsafe { std::str::from_utf8_unchecked(&self.bytes[..self.used]) }
    }
}

impl TextSink for FixedBuffer {
    ghost sent = { λ r. memory_sent (take r.used r.bytes) };

    fn write_text(&mut self, text: &str) -> Result<(), TableError>
        ensures written { Writes (memory_sent (take self.old.used self.old.bytes)) result
            (memory_sent (take self.new.used self.new.bytes)) text.now }
        ensures only { IfErr result (λ e. e ≡ Memory) }
    {
        if text.len() > FIXED_BYTES - self.used {
            return Err(TableError::Memory);
        }
        let end = self.used + text.len();
        self.bytes[self.used..end].copy_from_slice(text.as_bytes());
        self.used = end;
        Ok(())
    }
}

/// A sink that holds up to 1 MiB with an allocator, and 4 KiB without one.
#[derive(Drop)]
pub enum LineBuffer {
    /// Without an allocator.
    Fixed(FixedBuffer),
    /// With an allocator.
    Grown(String),
}

impl LineBuffer {
    ghost use Rattle.tabled_line.specs.Buffers.{buffer_text};

    /// Returns an empty buffer, which allocates if there is an allocator.
    pub fn new(memory: Option<Global>) -> LineBuffer
        ensures { buffer_text result ≡ [] }
    {
        match memory {
            Some(alloc) => LineBuffer::Grown(String::new(alloc)),
            None => LineBuffer::Fixed(FixedBuffer::new()),
        }
    }

    /// Empties the buffer.
    pub fn clear(&mut self)
        ensures { buffer_text self.new ≡ [] }
    {
        match self {
            LineBuffer::Fixed(buffer) => buffer.used = 0,
            LineBuffer::Grown(text) => text.clear(),
        }
    }

    /// Returns the text in the buffer.
    pub fn text(&self) -> &str
        ensures { result.now ≡ buffer_text self.now }
    {
        match self {
            LineBuffer::Fixed(buffer) => buffer.text(),
            LineBuffer::Grown(text) => text.as_str(),
        }
    }
}

impl TextSink for LineBuffer {
    ghost use Rattle.tabled_line.specs.Buffers.{buffer_text};

    ghost sent = { λ r. memory_sent (buffer_text r) };

    fn write_text(&mut self, text: &str) -> Result<(), TableError> {
        match self {
            LineBuffer::Fixed(buffer) => buffer.write_text(text),
            LineBuffer::Grown(grown) if text.len() > MOST_BYTES.saturating_sub(grown.len()) => {
                Err(TableError::Memory)
            }
            LineBuffer::Grown(grown) => grown.write_text(text),
        }
    }
}
