//! A reader of one byte over and over.

ghost use Rattle.std.specs.Prelude.{◌≡◌, Some, replicate};

use std::io;
use std::io::{Error, ErrorKind, Read};

/// A reader of so many equal bytes that fails at one of its reads.
#[derive(Drop)]
pub struct Filler {
    /// How many bytes it still gives.
    pub left: usize,
    /// How many reads there were.
    pub reads: usize,
    /// The kind of its read error; `Other` in a new reader.
    pub kind: ErrorKind,
    byte: u8,
    fails_at: usize,
}

impl Filler {
    /// Reads are counted from 1; at 0 none fails.
    pub fn new(byte: u8, left: usize, fails_at: usize) -> Filler
        // A reader of n equal bytes has all of them left and was never read.
        // Refused: half_of_the_bytes_are_given.
        ensures left { result.left ≡ left }
        ensures reads { result.reads ≡ 0 }
        ensures byte { result.byte ≡ byte }
        ensures fails_at { result.fails_at ≡ fails_at }
    {
        Filler {
            left,
            reads: 0,
            kind: ErrorKind::Other,
            byte,
            fails_at,
        }
    }
}

impl Read for Filler {
    ghost remaining = { λ filler. Some (replicate filler.left filler.byte) };

    // What it gives are these bytes, in order, to the last one; a read that fails gives none.
    // Refused: zeros_are_given.
    fn read(&mut self, buf: &mut [u8]) -> io::Result<usize> {
        self.reads = self.reads.saturating_add(1);
        if self.reads == self.fails_at {
            return Err(Error::from(self.kind));
        }
        let n = buf.len().min(self.left);
        buf[..n].fill(self.byte);
        self.left -= n;
        Ok(n)
    }
}
