//! Readers and writers of std that halt, fail, or take few bytes.

use crate::steps::insist;
use ob_io::{ReadErr, put_all, read_all};
use ob_outside::{StdSink, StdSource};
use std::alloc::Global;
use std::io::{self, ErrorKind, Read, Write};

// A reader of "abc": two bytes, an interruption, a byte, and then its end, or a failure.
#[derive(Drop)]
struct Halting {
    calls: u32,
    fails: bool,
}

impl Read for Halting {
    fn read(&mut self, buf: &mut [u8]) -> io::Result<usize> {
        self.calls = self.calls.saturating_add(1);
        let piece = match self.calls {
            1 => b"ab".as_slice(),
            2 => return Err(io::Error::from(ErrorKind::Interrupted)),
            3 => b"c".as_slice(),
            _ if self.fails => return Err(io::Error::from(ErrorKind::TimedOut)),
            _ => return Ok(0),
        };
        let count = piece.len().min(buf.len());
        buf[..count].copy_from_slice(&piece[..count]);
        Ok(count)
    }
}

// Whether so many of its bytes are read up to this limit; of none, whether that fails.
fn reads_so(alloc: Global, fails: bool, limit: u32, wanted: Option<usize>) -> bool {
    let mut source = StdSource::new(Halting { calls: 0, fails });
    match (read_all(alloc, &mut source, limit as usize), wanted) {
        (Ok(bytes), Some(many)) => bytes.len() == many && b"abc".starts_with(bytes.as_slice()),
        (Err(ReadErr::Failed), None) => true,
        _ => false,
    }
}

#[test]
fn a_reader_of_std_is_read_to_its_end_or_its_failure(rt: HostRuntime) {
    for (fails, limit, wanted) in [
        (false, 100, Some(3)),
        (false, 1, Some(2)),
        (true, 100, None),
    ] {
        insist(&rt, reads_so(rt.alloc(), fails, limit, wanted), "a reader");
    }
}

// A writer that takes three bytes a call, and fails from the named call on.
#[derive(Drop)]
struct Narrow {
    calls: u32,
    fails: u32,
}

impl Write for Narrow {
    fn write(&mut self, buf: &[u8]) -> io::Result<usize> {
        self.calls = self.calls.saturating_add(1);
        if self.calls >= self.fails {
            return Err(io::Error::from(ErrorKind::BrokenPipe));
        }
        Ok(buf.len().min(3))
    }

    fn flush(&mut self) -> io::Result<()> {
        Ok(())
    }
}

#[test]
fn a_writer_of_std_gets_every_piece_until_it_fails(rt: HostRuntime) {
    for (fails, whole) in [(3, true), (2, false), (1, false)] {
        let mut sink = StdSink::new(Narrow { calls: 0, fails });
        let put = put_all(&mut sink, b"abcdef").is_ok();
        insist(&rt, put == whole, "a writer");
    }
}
