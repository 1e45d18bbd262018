//! Doors of the tests, and desks over them.

ghost use Rattle.std.specs.Prelude.{◌≡◌, ◌≤◌, [], length, false, Some, None};
ghost use Rattle.tas_desk.specs.Seats.{most_seats};

use crate::checks::{check_that, expect_ok};
use std::alloc::{Allocator, Global};
use std::io;
use std::io::{Error, ErrorKind};
use std::process::Abort;
use std::sync::Wait;
use std::thread::Threads;
use tas_tool::{Door, MAX_SEATS, ToolFault, desk_run};
use test_streams::{Failure, Giver, Room, Taker};

/// A door whose input has these lines, 7 bytes at each read.
#[derive(Drop)]
pub struct TestDoor {
    /// What is said.
    pub lines: &'static [u8],
    /// The read that fails, counted from 1; at 0 none does.
    pub fails_at: usize,
    /// For how many bytes of answers there is room.
    pub room: usize,
    /// Whether it can be opened.
    pub opens: bool,
    /// How often it was opened and closed.
    pub turns: usize,
    /// The answers that were written.
    pub written: Vec<u8>,
    alloc: Global,
}

impl TestDoor {
    /// A door that opens, with room for all answers.
    pub fn new(alloc: Global, lines: &'static [u8]) -> TestDoor {
        TestDoor {
            lines,
            fails_at: 0,
            room: 1_000_000_000,
            opens: true,
            turns: 0,
            written: Vec::new(alloc),
            alloc,
        }
    }
}

impl Door for TestDoor {
    type Input = Giver<'static>;

    type Output = Taker;

    ghost facts = { record {
      given = λ door. None;
      held = λ door. Some [];
      left = λ door input output. output ≡ Some door.written.items;
      refused = λ door. door.opens ≡ false;
    } };

    fn open(&mut self) -> io::Result<(Giver<'static>, Taker)> {
        if !self.opens {
            return Err(Error::from(ErrorKind::NotFound));
        }
        self.turns = self.turns.saturating_add(1);
        let input = Giver::new(self.lines, 7, self.fails_at);
        let output = Taker::new(
            self.alloc,
            1_000_000,
            Room::Bytes(self.room),
            Failure::Error,
        );
        Ok((input, output))
    }

    fn close(&mut self, input: Giver<'static>, output: Taker) {
        drop(input);
        self.turns = self.turns.saturating_add(1);
        self.written = output.taken;
    }
}

/// A program that draws a playfield for ever, in a cartridge of 4,096 bytes.
pub fn image<R: Abort>(rt: &R, alloc: Global) -> Vec<u8> {
    let program: &[u8] = b"\xA9\x10\x85\x0D\xA9\x1E\x85\x08\x4C\x08\xF0";
    let mut image = expect_ok(rt, vec![in alloc; 0u8; 4096]);
    for (at, byte) in program.iter().enumerate() {
        if let Some(cell) = image.get_mut(at) {
            *cell = *byte;
        }
    }
    if let Some(cell) = image.get_mut(0xFFD) {
        *cell = 0xF0;
    }
    image
}

/// The text of its movie of three frames with nothing pressed. The digest is by another program.
pub const MOVIE: &[u8] =
    b"a26movie 2\ncart 820c64e9933496de683a000c5e11f0510fb7b1699b2ce86471295236b284906d\n..... ..... ..... x3\n";

/// What a desk wrote, and how it ended.
pub type Ran = (Vec<u8>, Result<(), ToolFault>);

/// Holds a desk at these doors, on the movie of three frames.
pub fn hold<R: Wait + Threads + Sync + Abort>(
    rt: &R,
    alloc: Global,
    doors: &mut Vec<TestDoor>,
) -> Ran {
    let image = image(rt, alloc);
    let mut output = Vec::new(alloc);
    let end = hold_on(rt, alloc, (image.as_slice(), MOVIE), doors, &mut output);
    (output, end)
}

/// Holds a desk at these doors, on the movie of a cartridge and a text.
pub fn hold_on<R: Wait + Threads + Sync + Abort, A: Allocator + Copy + Send + Sync, W: io::Write>(
    rt: &R,
    alloc: A,
    (image, text): (&[u8], &[u8]),
    doors: &mut Vec<TestDoor, A>,
    output: &mut W,
) -> Result<(), ToolFault> {
    let count = doors.len();
    check_that(rt, count, 1 <= count && count <= MAX_SEATS as usize);
    let mut cart = image;
    let mut movie = text;
    desk_run(rt, alloc, &mut cart, &mut movie, doors, output)
}
