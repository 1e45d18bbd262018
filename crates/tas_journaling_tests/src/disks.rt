//! A file of a journal, and a writer of answers that looks at it.

ghost use Rattle.std.specs.Prelude.{Some};

use crate::checks::{expect_ok, expect_some};
use std::alloc::Global;
use std::io;
use std::io::{Error, ErrorKind, Write};
use std::process::Abort;
use std::sync::atomic::{AtomicU64, Ordering};
use tas_journaling::{Journal, JournalFile};
use tas_movie::Movie;
use test_streams::{Failure, Room, Taker};

/// A file with so much room that can be brought to the disk so many times, and fails from then on.
#[derive(Drop)]
pub struct Disk<'a> {
    /// What was written.
    pub taker: Taker,
    syncs: u64,
    done: &'a AtomicU64,
}

impl<'a> Disk<'a> {
    /// A file without bytes, which adds up in a counter how often it was brought to the disk.
    pub fn new(alloc: Global, room: usize, syncs: u64, done: &'a AtomicU64) -> Disk<'a> {
        Disk {
            taker: Taker::new(alloc, 7, Room::Bytes(room), Failure::Error),
            syncs,
            done,
        }
    }
}

impl Write for Disk<'_> {
    ghost contents = { λ disk. Some disk.taker.taken.items };

    fn write(&mut self, bytes: &[u8]) -> io::Result<usize> {
        self.taker.write(bytes)
    }

    fn flush(&mut self) -> io::Result<()> {
        Ok(())
    }
}

impl JournalFile for Disk<'_> {
    fn sync(&mut self) -> io::Result<()> {
        if self.syncs == 0 {
            return Err(Error::from(ErrorKind::StorageFull));
        }
        self.syncs = self.syncs.saturating_sub(1);
        self.done.fetch_add(1, Ordering::SeqCst);
        Ok(())
    }
}

/// A journal in this file that begins with a blank movie, the first line of which will be that of this entry.
pub fn begin<'a, R: Abort>(rt: &R, alloc: Global, disk: Disk<'a>, first: u64) -> Journal<Disk<'a>> {
    let movie = expect_ok(rt, Movie::blank(alloc));
    expect_some(rt, Journal::begin(alloc, disk, &movie, first).ok())
}

/// A writer of answers that keeps how often a journal had been brought to the disk at each of its writes.
#[derive(Drop)]
pub struct Watcher<'a> {
    /// The answers.
    pub taker: Taker,
    /// How often it had, at each write.
    pub seen: Vec<u64>,
    done: &'a AtomicU64,
}

impl<'a> Watcher<'a> {
    /// A writer with so much room that takes an answer whole where it has the room.
    pub fn new(alloc: Global, room: usize, done: &'a AtomicU64) -> Watcher<'a> {
        Watcher {
            taker: Taker::new(alloc, 1_000, Room::Bytes(room), Failure::Error),
            seen: Vec::new(alloc),
            done,
        }
    }
}

impl Write for Watcher<'_> {
    ghost contents = { λ watcher. Some watcher.taker.taken.items };

    fn write(&mut self, bytes: &[u8]) -> io::Result<usize> {
        if self.seen.push(self.done.load(Ordering::SeqCst)).is_err() {
            return Err(Error::from(ErrorKind::OutOfMemory));
        }
        self.taker.write(bytes)
    }

    fn flush(&mut self) -> io::Result<()> {
        Ok(())
    }
}
