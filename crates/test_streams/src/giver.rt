//! A reader of given bytes.

ghost use Rattle.std.specs.Prelude.{◌≡◌};

use std::io;
use std::io::{Error, ErrorKind, Read};

/// A reader of some bytes that gives so many of them at most at each read. It fails at one of its reads, or ends, and gives
/// the bytes again after its end, so that reading on shows.
#[derive(Drop)]
pub struct Giver<'a> {
    /// How many reads there were.
    pub reads: usize,
    /// The kind of its read error; `Other` in a new reader.
    pub kind: ErrorKind,
    bytes: &'a [u8],
    given: usize,
    at_once: usize,
    fails_at: usize,
}

impl<'a> Giver<'a> {
    /// Reads are counted from 1; at 0 none fails.
    pub fn new(bytes: &'a [u8], at_once: usize, fails_at: usize) -> Giver<'a>
        // A reader of given bytes was never read.
        // Refused: reads_start_at_1.
        ensures reads { result.reads ≡ 0 }
        ensures bytes { result.bytes.now ≡ bytes.now }
        ensures at_once { result.at_once ≡ at_once }
        ensures fails_at { result.fails_at ≡ fails_at }
    {
        Giver {
            reads: 0,
            kind: ErrorKind::Other,
            bytes,
            given: 0,
            at_once,
            fails_at,
        }
    }
}

impl<'a> Read for Giver<'a> {
    fn read(&mut self, buf: &mut [u8]) -> io::Result<usize> {
        self.reads = self.reads.saturating_add(1);
        if self.reads == self.fails_at {
            return Err(Error::from(self.kind));
        }
        let rest = self.bytes.get(self.given..).unwrap_or(&[]);
        let n = buf.len().min(rest.len()).min(self.at_once);
        buf[..n].copy_from_slice(&rest[..n]);
        self.given = if n == 0 {
            0
        } else {
            self.given.saturating_add(n)
        };
        Ok(n)
    }
}
