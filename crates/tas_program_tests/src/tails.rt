//! A writer that keeps the end of what it is given, for long answers.

use std::io;
use std::io::Write;

/// How many bytes are kept.
const KEPT: usize = 100;

/// A writer that counts the bytes it is given, and keeps the last ones.
#[derive(Drop)]
pub struct Tail {
    pub bytes: usize,
    /// The last bytes of all writes; zeros before the first byte.
    last: [u8; KEPT],
}

impl Tail {
    /// A writer that was given nothing.
    pub fn new() -> Tail {
        Tail {
            bytes: 0,
            last: [0; KEPT],
        }
    }

    /// Whether these are the last bytes that it was given.
    pub fn ends_with(&self, bytes: &[u8]) -> bool {
        bytes.len() <= self.bytes && self.last.as_slice().ends_with(bytes)
    }
}

impl Write for Tail {
    fn write(&mut self, buf: &[u8]) -> io::Result<usize> {
        let new = buf.len().min(KEPT);
        self.last.copy_within(new.., 0);
        self.last[KEPT - new..].copy_from_slice(&buf[buf.len() - new..]);
        self.bytes = self.bytes.saturating_add(buf.len());
        Ok(buf.len())
    }

    fn flush(&mut self) -> io::Result<()> {
        Ok(())
    }
}
