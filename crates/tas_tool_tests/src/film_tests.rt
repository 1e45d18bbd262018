//! Films: against a shot of each frame.

use crate::checks::check_same;
use crate::commands::{PictureCommand, shots, write_pictures};
use crate::movies::{FOLDING, HALTING, IDLE, PICTURE, PLAYFIELD, RIGHT, recording_of};
use crate::pictures::{check_faults, check_full, check_pictures};
use std::io;
use std::io::Write;
use tas_tool::{ReadFault, RunFault, ToolFault};
use test_streams::Giver;

/// The first frame and the place after the last one, where they are given.
type Range = (Option<usize>, Option<usize>);

/// The film of these frames.
fn film((from, to): Range) -> PictureCommand {
    PictureCommand::Film(from, to)
}

/// Ranges of a movie of seven frames, and the frames that are written.
static RANGES: [(Range, (usize, usize)); 8] = [
    ((None, None), (0, 7)),
    ((Some(0), Some(7)), (0, 7)),
    ((None, Some(3)), (0, 3)),
    ((Some(2), None), (2, 7)),
    ((Some(2), Some(5)), (2, 5)),
    ((Some(3), Some(3)), (3, 3)),
    ((Some(7), None), (7, 7)),
    ((None, Some(0)), (0, 0)),
];

#[test]
fn a_film_is_the_shots_of_its_frames(rt: HostRuntime) {
    let alloc = rt.alloc();
    let movie = recording_of(&rt, alloc, FOLDING, 7, RIGHT);
    let files = movie.files();
    let all = shots(&rt, alloc, files, (0, 7));
    check_same(&rt, "all", all.len(), 7 * PICTURE);
    for row in RANGES.iter() {
        let (range, (from, to)) = *row;
        let (start, end) = (from.saturating_mul(PICTURE), to.saturating_mul(PICTURE));
        let wanted = all.get(start..end).unwrap_or(&[]);
        check_pictures(&rt, alloc, film(range), files, (wanted, Ok(())));
    }
}

#[test]
fn a_movie_without_frames_is_an_empty_film(rt: HostRuntime) {
    let alloc = rt.alloc();
    let movie = recording_of(&rt, alloc, PLAYFIELD, 0, IDLE);
    let files = movie.files();
    for range in [(None, None), (Some(0), None), (None, Some(0))] {
        check_pictures(&rt, alloc, film(range), files, (b"", Ok(())));
    }
}

/// Ranges that a movie of three frames hasn't, and the numbers that are reported.
static OTHER_RANGES: [(Range, (usize, usize)); 6] = [
    ((None, Some(4)), (0, 4)),
    ((Some(4), None), (4, 3)),
    ((Some(2), Some(1)), (2, 1)),
    ((Some(4), Some(4)), (4, 4)),
    ((None, Some(9_999_999)), (0, 9_999_999)),
    ((Some(usize::MAX), None), (usize::MAX, 3)),
];

#[test]
fn other_ranges_are_refused(rt: HostRuntime) {
    let alloc = rt.alloc();
    let movie = recording_of(&rt, alloc, PLAYFIELD, 3, RIGHT);
    let files = movie.files();
    for row in OTHER_RANGES.iter() {
        let (range, (from, to)) = *row;
        let fault = ToolFault::Run(RunFault::Range { from, to, len: 3 });
        check_pictures(&rt, alloc, film(range), files, (b"", Err(fault)));
    }
}

/// Ranges of a movie of five frames that is halted from frame 3 on, the pictures that are written, and the frame that is named.
static HALTED_RANGES: [(Range, (usize, usize), usize); 4] = [
    ((None, None), (0, 3), 3),
    ((Some(1), Some(4)), (1, 3), 3),
    ((Some(3), None), (3, 3), 3),
    ((Some(4), Some(5)), (4, 4), 4),
];

#[test]
fn a_film_ends_before_the_first_halted_frame(rt: HostRuntime) {
    let alloc = rt.alloc();
    let movie = recording_of(&rt, alloc, HALTING, 5, IDLE);
    let files = movie.files();
    for row in HALTED_RANGES.iter() {
        let (range, frames, frame) = *row;
        let pictures = shots(&rt, alloc, files, frames);
        let fault = ToolFault::Run(RunFault::HaltedFrame {
            frame,
            at: 0xF00D,
            opcode: 2,
        });
        let wanted = (pictures.as_slice(), Err(fault));
        check_pictures(&rt, alloc, film(range), files, wanted);
    }
    let pictures = shots(&rt, alloc, files, (0, 3));
    let before = film((None, Some(3)));
    let wanted = (pictures.as_slice(), Ok(()));
    check_pictures(&rt, alloc, before, files, wanted);
}

/// A failed write is the last one. It fails at each byte around the seams of two pictures, and at every 9,973rd between.
#[test]
fn a_writer_that_fails_has_the_first_bytes(rt: HostRuntime) {
    let alloc = rt.alloc();
    let movie = recording_of(&rt, alloc, FOLDING, 3, RIGHT);
    let files = movie.files();
    let pictures = shots(&rt, alloc, files, (1, 3));
    let pictures = pictures.as_slice();
    let command = film((Some(1), None));
    for (from, to) in [
        (0, 17),
        (PICTURE - 3, PICTURE + 17),
        (2 * PICTURE - 3, 2 * PICTURE),
    ] {
        for room in from..to {
            check_full(&rt, alloc, command, files, pictures, (60_000, room));
        }
    }
    for part in 1..20usize {
        let room = part.wrapping_mul(9973);
        check_full(&rt, alloc, command, files, pictures, (60_000, room));
    }
}

/// A writer that takes all and keeps nothing.
#[derive(Drop)]
struct Counter {
    bytes: usize,
    writes: usize,
}

impl Write for Counter {
    fn write(&mut self, buf: &[u8]) -> io::Result<usize> {
        self.bytes = self.bytes.saturating_add(buf.len());
        self.writes = self.writes.saturating_add(1);
        Ok(buf.len())
    }

    fn flush(&mut self) -> io::Result<()> {
        Ok(())
    }
}

/// One frame more than an export has. Each picture is one write, so that a pipe takes it in few pieces.
#[test]
fn a_film_of_1025_frames_is_1025_writes(rt: HostRuntime) {
    let alloc = rt.alloc();
    let movie = recording_of(&rt, alloc, PLAYFIELD, 1025, RIGHT);
    let mut output = Counter {
        bytes: 0,
        writes: 0,
    };
    let (mut cart, mut input) = movie.files();
    let whole = film((None, None));
    let end = write_pictures(&rt, alloc, whole, &mut cart, &mut input, &mut output);
    check_same(&rt, "end", end, Ok(()));
    check_same(&rt, "bytes", output.bytes, 1025 * PICTURE);
    check_same(&rt, "writes", output.writes, 1025);
}

/// The cartridge's size comes before the text's fault, and this before the range.
#[test]
fn faults_of_a_film_come_in_order(rt: HostRuntime) {
    let alloc = rt.alloc();
    check_faults(&rt, alloc, film((Some(2), Some(1))));
    let movie = recording_of(&rt, alloc, PLAYFIELD, 1, IDLE);
    let (image, text) = movie.files();
    let mut cart = Giver::new(image, usize::MAX, 0);
    let mut input = Giver::new(text, usize::MAX, 2);
    let mut output = Vec::new(alloc);
    let whole = film((None, None));
    let end = write_pictures(&rt, alloc, whole, &mut cart, &mut input, &mut output);
    check_same(&rt, "read", end, Err(ToolFault::Read(ReadFault::Failed)));
    check_same(&rt, "reads", (cart.reads, input.reads), (2, 2));
    check_same(&rt, "output", output.len(), 0);
}
