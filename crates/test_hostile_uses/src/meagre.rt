//! A writer that takes a limited number of bytes.

use std::alloc::Global;
use std::io;
use std::io::Write;

/// What the writer returns once it is full.
#[derive(Clone, Copy, Debug)]
pub enum End {
    /// `Ok(0)`.
    TakesNone,
    /// An error.
    Fails,
    /// An `Interrupted` error.
    IsInterrupted,
}

/// Takes at most `step` bytes per call and `room` bytes in all, and counts the calls after that.
#[derive(Drop)]
pub struct Meagre {
    /// The bytes taken.
    pub taken: Vec<u8>,
    /// The number of calls after it was full.
    pub refused: usize,
    step: usize,
    room: usize,
    end: End,
}

impl Meagre {
    pub fn new(alloc: Global, step: usize, room: usize, end: End) -> Meagre {
        Meagre {
            taken: Vec::new(alloc),
            refused: 0,
            step,
            room,
            end,
        }
    }
}

impl Write for Meagre {
    fn write(&mut self, buf: &[u8]) -> io::Result<usize> {
        if self.room == 0 {
            self.refused = self.refused.saturating_add(1);
            return match self.end {
                End::TakesNone => Ok(0),
                End::Fails => Err(io::Error::from(io::ErrorKind::Other)),
                End::IsInterrupted => Err(io::Error::from(io::ErrorKind::Interrupted)),
            };
        }
        let count = buf.len().min(self.step).min(self.room);
        self.taken.extend_from_slice(&buf[..count])?;
        self.room -= count;
        Ok(count)
    }

    fn flush(&mut self) -> io::Result<()> {
        Ok(())
    }
}
