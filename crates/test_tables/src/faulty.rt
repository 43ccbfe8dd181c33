//! Readers and writers that fail.

use std::io;
use std::io::{Read, Write};
use std::test::Fail;
use tabled::run;

// Returns `left` bytes, one per read, then fails.
#[derive(Drop)]
struct Broken {
    left: usize,
    kind: io::ErrorKind,
}

impl Read for Broken {
    fn read(&mut self, buf: &mut [u8]) -> io::Result<usize> {
        if self.left == 0 || buf.is_empty() {
            return Err(io::Error::from(self.kind));
        }
        self.left -= 1;
        buf[0] = b'x';
        Ok(1)
    }
}

#[test]
fn every_read_error_is_a_failed_reading(rt: HostRuntime) -> Result<(), Fail> {
    for (left, kind) in [
        (0, io::ErrorKind::Other),
        (3, io::ErrorKind::Other),
        (3, io::ErrorKind::Interrupted),
    ] {
        let mut input = Broken { left, kind };
        let mut out = Vec::new(rt.alloc());
        let mut err = Vec::new(rt.alloc());
        let status = run(rt.alloc(), &[], &mut input, &mut out, &mut err);
        assert_eq!(rt; status, 1);
        assert_eq!(rt; str::from_utf8(err.as_slice())?, "Input\n");
        assert!(rt; out.is_empty());
    }
    Ok(())
}

// Fails at each write, or only at the flush.
#[derive(Drop)]
struct Faulty {
    fails_write: bool,
}

impl Write for Faulty {
    fn write(&mut self, buf: &[u8]) -> io::Result<usize> {
        if self.fails_write {
            return Err(io::Error::from(io::ErrorKind::Other));
        }
        Ok(buf.len())
    }

    fn flush(&mut self) -> io::Result<()> {
        Err(io::Error::from(io::ErrorKind::Interrupted))
    }
}

#[test]
fn a_failed_flush_is_a_failed_write(rt: HostRuntime) -> Result<(), Fail> {
    let mut out = Faulty { fails_write: false };
    let mut err = Vec::new(rt.alloc());
    let mut input = b"x\n".as_slice();
    assert_eq!(rt; run(rt.alloc(), &[], &mut input, &mut out, &mut err), 1);
    assert_eq!(rt; str::from_utf8(err.as_slice())?, "Writer\n");
    Ok(())
}

#[test]
fn a_failed_write_of_the_word_changes_nothing(rt: HostRuntime) -> Result<(), Fail> {
    let mut err = Faulty { fails_write: true };
    let mut out = Vec::new(rt.alloc());
    out.extend_from_slice(b"before")?;
    let mut input = b"\xFF".as_slice();
    assert_eq!(rt; run(rt.alloc(), &[], &mut input, &mut out, &mut err), 1);
    assert_eq!(rt; str::from_utf8(out.as_slice())?, "before");
    Ok(())
}
