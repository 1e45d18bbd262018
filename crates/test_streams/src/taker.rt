//! A writer that gets full.

ghost use Rattle.std.specs.Prelude.{◌≡◌, [], Some};

use std::alloc::Global;
use std::io;
use std::io::{Error, ErrorKind, Write};

/// What a writer has room for.
#[derive(Clone, Copy)]
pub enum Room {
    /// So many bytes.
    Bytes(usize),
    /// What so many writes bring.
    Writes(usize),
}

/// What a write does when there is no room.
#[derive(Clone, Copy)]
pub enum Failure {
    /// It fails with `BrokenPipe`.
    Error,
    /// It fails with `Interrupted`, after which std's own loops try again.
    Interrupted,
    /// It takes no byte.
    Nothing,
}

/// A writer that takes so many bytes at most at each write while it has room, and fails from then on.
#[derive(Drop)]
pub struct Taker {
    /// The bytes that were taken.
    pub taken: Vec<u8>,
    /// How many writes there were, those that failed included.
    pub writes: usize,
    /// How many writes failed.
    pub failed: usize,
    at_once: usize,
    room: Room,
    failure: Failure,
}

impl Taker {
    /// A writer that has taken nothing yet.
    pub fn new(alloc: Global, at_once: usize, room: Room, failure: Failure) -> Taker
        // A writer has taken nothing, by no write.
        // Refused: a_write_has_failed_before_the_first.
        ensures taken { result.taken.items ≡ [] }
        ensures writes { result.writes ≡ 0 }
        ensures failed { result.failed ≡ 0 }
        ensures at_once { result.at_once ≡ at_once }
        ensures room { result.room ≡ room }
        ensures failure { result.failure ≡ failure }
    {
        Taker {
            taken: Vec::new(alloc),
            writes: 0,
            failed: 0,
            at_once,
            room,
            failure,
        }
    }

    /// For how many bytes there is room at the next write.
    fn room(&self) -> usize {
        match self.room {
            Room::Bytes(most) => most.saturating_sub(self.taken.len()),
            Room::Writes(most) if self.writes < most => self.at_once,
            Room::Writes(_) => 0,
        }
    }
}

impl Write for Taker {
    ghost contents = { λ taker. Some taker.taken.items };

    // What it has taken are the bytes that its writes said to have written, in order; a write that fails takes none.
    // Refused: write_counts_one_byte_less.
    fn write(&mut self, buf: &[u8]) -> io::Result<usize> {
        let n = buf.len().min(self.at_once).min(self.room());
        self.writes = self.writes.saturating_add(1);
        if n == 0 {
            self.failed = self.failed.saturating_add(1);
            return match self.failure {
                Failure::Error => Err(Error::from(ErrorKind::BrokenPipe)),
                Failure::Interrupted => Err(Error::from(ErrorKind::Interrupted)),
                Failure::Nothing => Ok(0),
            };
        }
        match self.taken.extend_from_slice(&buf[..n]) {
            Ok(()) => Ok(n),
            Err(_) => Err(Error::from(ErrorKind::OutOfMemory)),
        }
    }

    fn flush(&mut self) -> io::Result<()> {
        Ok(())
    }
}
