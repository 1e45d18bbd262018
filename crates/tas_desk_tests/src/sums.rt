//! Writers that keep a sum over what they are given, in its order, or compare it.

use std::io;
use std::io::Write;
use vcs_tia::{Picture, ppm};

/// A writer that keeps how many bytes came, and a sum over them. Where it is full it takes none.
#[derive(Drop)]
pub struct Sum {
    room: usize,
    bytes: usize,
    sum: u64,
}

impl Sum {
    /// A writer with so much room.
    pub fn new(room: usize) -> Sum {
        Sum {
            room,
            bytes: 0,
            sum: 0xCBF2_9CE4_8422_2325,
        }
    }

    /// How many bytes came, and the sum over them.
    pub fn told(&self) -> (usize, u64) {
        (self.bytes, self.sum)
    }
}

impl Write for Sum {
    fn write(&mut self, buf: &[u8]) -> io::Result<usize> {
        let taken = self.room.min(buf.len());
        self.room -= taken;
        for byte in buf.iter().take(taken) {
            self.sum = (self.sum ^ u64::from(*byte)).wrapping_mul(0x100_0000_01B3);
        }
        self.bytes = self.bytes.saturating_add(taken);
        Ok(taken)
    }

    fn flush(&mut self) -> io::Result<()> {
        Ok(())
    }
}

/// A writer that compares what it is given with known bytes.
#[derive(Drop)]
pub struct Compared<'a> {
    rest: &'a [u8],
    is_same: bool,
}

impl<'a> Compared<'a> {
    /// A writer that wants these bytes.
    pub fn new(bytes: &'a [u8]) -> Compared<'a> {
        Compared {
            rest: bytes,
            is_same: true,
        }
    }

    /// Whether just these bytes came.
    pub fn is_same(&self) -> bool {
        self.is_same && self.rest.is_empty()
    }
}

impl Write for Compared<'_> {
    fn write(&mut self, buf: &[u8]) -> io::Result<usize> {
        let wanted = buf.len().min(self.rest.len());
        let (front, rest) = self.rest.split_at(wanted);
        self.is_same = self.is_same && front == buf;
        self.rest = rest;
        Ok(buf.len())
    }

    fn flush(&mut self) -> io::Result<()> {
        Ok(())
    }
}

/// How many bytes a picture's image has, and the sum over them.
pub fn sum_of(picture: &Picture) -> (usize, u64) {
    let mut out = Sum::new(usize::MAX);
    let _ = ppm(picture, &mut out);
    out.told()
}
