//! Conversations with a journal: what they read, and what they leave.

ghost use Rattle.std.specs.Prelude.{Some};

use crate::checks::expect_ok;
use crate::movies::{PLAYFIELD, image_of};
use std::alloc::Global;
use std::io;
use std::io::{Error, ErrorKind, Write};
use std::process::Abort;
use std::sync::Wait;
use tas_movie::print_text;
use tas_tool::{JournalFile, TalkFault, noted_cart_talk_run, noted_movie_talk_run, noted_talk_run};
use test_streams::{Failure, Giver, Room, Taker};

/// A file with so much room that can be brought to the disk so many times, and fails from then on.
#[derive(Drop)]
pub struct Disk {
    taker: Taker,
    syncs: u64,
}

impl Write for Disk {
    ghost contents = { λ disk. Some disk.taker.taken.items };

    fn write(&mut self, bytes: &[u8]) -> io::Result<usize> {
        self.taker.write(bytes)
    }

    fn flush(&mut self) -> io::Result<()> {
        Ok(())
    }
}

impl JournalFile for Disk {
    fn sync(&mut self) -> io::Result<()> {
        if self.syncs == 0 {
            return Err(Error::from(ErrorKind::StorageFull));
        }
        self.syncs = self.syncs.saturating_sub(1);
        Ok(())
    }
}

/// What a conversation of these tests starts from.
#[derive(Clone, Copy)]
pub enum Begins {
    /// Nothing.
    Blank,
    /// The playfield's cartridge.
    Cart,
    /// The movie of it with this text.
    Movie(&'static [u8]),
}

/// What there is for a conversation: how many bytes come at once, room for the journal's bytes, how often it can be brought to the disk,
/// and room for the answers' bytes.
#[derive(Clone, Copy)]
pub struct Means {
    /// Bytes at once.
    pub at_once: usize,
    /// The read that fails, counted from 1.
    pub fails_at: usize,
    /// Room for the journal.
    pub room: usize,
    /// How often it can be brought to the disk.
    pub syncs: u64,
    /// Room for the answers.
    pub answers: usize,
}

/// Enough of all.
pub const AMPLE: Means = Means {
    at_once: 7,
    fails_at: 0,
    room: 1_000_000,
    syncs: 1_000_000,
    answers: 1_000_000,
};

/// What a conversation leaves.
#[derive(Drop)]
pub struct Noted {
    /// What the journal's file has.
    pub file: Vec<u8>,
    /// What the answers' writer has.
    pub answers: Vec<u8>,
    /// How it ended.
    pub end: Result<(), TalkFault>,
    /// The text of the movie that is left.
    pub left: Option<Vec<u8>>,
    /// How many reads there were.
    pub reads: usize,
}

/// Holds a conversation with a journal.
pub fn hold<R: Wait + Abort>(
    rt: &R,
    alloc: Global,
    begins: Begins,
    lines: &[u8],
    means: Means,
) -> Noted {
    let disk = Disk {
        taker: Taker::new(alloc, 5, Room::Bytes(means.room), Failure::Error),
        syncs: means.syncs,
    };
    let mut input = Giver::new(lines, means.at_once, means.fails_at);
    let mut output = Taker::new(alloc, 1_000, Room::Bytes(means.answers), Failure::Error);
    let image = image_of(rt, alloc, PLAYFIELD.bytes);
    let mut cart = image.as_slice();
    let talked = match begins {
        Begins::Blank => noted_talk_run(rt, alloc, disk, &mut input, &mut output),
        Begins::Cart => noted_cart_talk_run(rt, alloc, &mut cart, disk, &mut input, &mut output),
        Begins::Movie(text) => {
            let mut movie = text;
            noted_movie_talk_run(
                rt,
                alloc,
                &mut cart,
                &mut movie,
                disk,
                &mut input,
                &mut output,
            )
        }
    };
    let left = match &talked.movie {
        Some(movie) => Some(expect_ok(rt, print_text(alloc, movie))),
        None => None,
    };
    Noted {
        file: talked.file.taker.taken,
        answers: output.taken,
        end: talked.end,
        left,
        reads: input.reads,
    }
}
