//! Exports of whole movies.

use crate::checks::{check_same, check_that};
use crate::commands::{PictureCommand, shots, write_pictures};
use crate::movies::{
    FOLDING, Files, HALTING, IDLE, PICTURE, PLAYFIELD, RIGHT, image_of, recording_of,
};
use crate::pictures::{check_faults, check_full, check_pictures};
use std::alloc::Global;
use std::process::Abort;
use std::sync::Wait;
use std::thread::Threads;
use tas_tool::{INPUT_LIMIT, ReadFault, RunFault, ToolFault};
use test_streams::{Filler, Giver};

/// Fails where an export's pictures aren't the shots.
fn check_shots<R: Wait + Threads + Sync + Abort>(
    rt: &R,
    alloc: Global,
    files: Files<'_>,
    (from, to): (usize, usize),
    workers: usize,
) {
    let pictures = shots(rt, alloc, files, (from, to));
    let length = to.saturating_sub(from).saturating_mul(PICTURE);
    check_same(rt, (from, to), pictures.len(), length);
    let wanted = (pictures.as_slice(), Ok(()));
    let command = PictureCommand::Export(from, to, workers);
    check_pictures(rt, alloc, command, files, wanted);
}

#[test]
fn one_frame_is_its_shot(rt: HostRuntime) {
    let alloc = rt.alloc();
    let movie = recording_of(&rt, alloc, PLAYFIELD, 1, IDLE);
    let files = movie.files();
    check_shots(&rt, alloc, files, (0, 1), 4);
    for at in [0, 1] {
        let command = PictureCommand::Export(at, at, 3);
        check_pictures(&rt, alloc, command, files, (b"", Ok(())));
    }
}

/// Ranges that movies of this many frames haven't, or that are too long.
static OTHER_RANGES: [(usize, usize, usize); 8] = [
    (0, 2, 1),
    (1, 0, 1),
    (2, 2, 1),
    (0, 1, 0),
    (0, 9_999_999, 1),
    (9_999_999, 0, 1),
    (0, 1025, 1025),
    (1, 1026, 1026),
];

#[test]
fn other_ranges_are_refused(rt: HostRuntime) {
    let alloc = rt.alloc();
    for row in OTHER_RANGES.iter() {
        let (from, to, len) = *row;
        let movie = recording_of(&rt, alloc, PLAYFIELD, len, RIGHT);
        let command = PictureCommand::Export(from, to, 1);
        let fault = ToolFault::Run(RunFault::Range { from, to, len });
        check_pictures(&rt, alloc, command, movie.files(), (b"", Err(fault)));
    }
}

#[test]
fn every_number_of_workers_writes_the_shots(rt: HostRuntime) {
    let alloc = rt.alloc();
    let movie = recording_of(&rt, alloc, FOLDING, 20, RIGHT);
    let files = movie.files();
    let pictures = shots(&rt, alloc, files, (2, 19));
    let pictures = pictures.as_slice();
    check_same(&rt, "pictures", pictures.len(), 17 * PICTURE);
    let third = pictures.get(..PICTURE);
    let fifth = pictures.get(2 * PICTURE..3 * PICTURE);
    check_that(&rt, "third", third != fifth);
    for workers in [1, 2, 3, 16, 0, 17, usize::MAX] {
        let command = PictureCommand::Export(2, 19, workers);
        check_pictures(&rt, alloc, command, files, (pictures, Ok(())));
    }
}

/// How exports of halted frames end.
const HALTED: ToolFault = ToolFault::Run(RunFault::Halted {
    at: 0xF00D,
    opcode: 2,
});

#[test]
fn halted_frames_are_not_written(rt: HostRuntime) {
    let alloc = rt.alloc();
    let movie = recording_of(&rt, alloc, HALTING, 5, IDLE);
    let files = movie.files();
    for (from, to) in [(1, 5), (3, 4), (4, 5), (0, 5)] {
        let command = PictureCommand::Export(from, to, 2);
        check_pictures(&rt, alloc, command, files, (b"", Err(HALTED)));
    }
    check_shots(&rt, alloc, files, (0, 3), 2);
}

/// The first frame.
const FIRST: PictureCommand = PictureCommand::Export(0, 1, 1);

#[test]
fn the_longest_movie_is_exported(rt: HostRuntime) {
    let alloc = rt.alloc();
    let movie = recording_of(&rt, alloc, PLAYFIELD, 262_144, RIGHT);
    let mut output = Vec::new(alloc);
    let (mut cart, mut input) = movie.files();
    let end = write_pictures(&rt, alloc, FIRST, &mut cart, &mut input, &mut output);
    check_same(&rt, "end", end, Ok(()));
    check_same(&rt, "output", output.len(), PICTURE);
}

/// A failed write is the last one.
#[test]
fn a_writer_that_fails_has_the_first_bytes(rt: HostRuntime) {
    let alloc = rt.alloc();
    let movie = recording_of(&rt, alloc, FOLDING, 4, RIGHT);
    let files = movie.files();
    let pictures = shots(&rt, alloc, files, (1, 3));
    let pictures = pictures.as_slice();
    let command = PictureCommand::Export(1, 3, 2);
    for room in [0, 1, 20, PICTURE, PICTURE + 1, 2 * PICTURE - 1] {
        check_full(&rt, alloc, command, files, pictures, (1000, room));
    }
}

/// At which reads cartridge and text fail, the end, and how often each is read.
static FAILED_READS: [(usize, usize, Result<(), ToolFault>, (usize, usize)); 5] = [
    (0, 0, Ok(()), (2, 2)),
    (1, 0, Err(ToolFault::Read(ReadFault::Failed)), (1, 0)),
    (2, 0, Err(ToolFault::Read(ReadFault::Failed)), (2, 0)),
    (0, 1, Err(ToolFault::Read(ReadFault::Failed)), (2, 1)),
    (0, 2, Err(ToolFault::Read(ReadFault::Failed)), (2, 2)),
];

/// A cartridge is one read and its end; a text of 99 bytes, too. Nothing is read after an end or a failure.
#[test]
fn an_export_does_not_read_on(rt: HostRuntime) {
    let alloc = rt.alloc();
    let movie = recording_of(&rt, alloc, PLAYFIELD, 1, IDLE);
    let (image, text) = movie.files();
    for row in FAILED_READS.iter() {
        let (cart_fails, text_fails, end, reads) = *row;
        let mut cart = Giver::new(image, usize::MAX, cart_fails);
        let mut input = Giver::new(text, usize::MAX, text_fails);
        let mut output = Vec::new(alloc);
        let ended = write_pictures(&rt, alloc, FIRST, &mut cart, &mut input, &mut output);
        check_same(&rt, reads, ended, end);
        check_same(&rt, "reads", (cart.reads, input.reads), reads);
        check_same(&rt, reads, output.is_empty(), end.is_err());
    }
}

#[test]
fn an_input_past_the_limit_is_too_long(rt: HostRuntime) {
    let alloc = rt.alloc();
    let image = image_of(&rt, alloc, PLAYFIELD.bytes);
    let mut output = Vec::new(alloc);
    let mut cart = Filler::new(0, INPUT_LIMIT + 2, 0);
    let mut input = Filler::new(0, 10, 0);
    let end = write_pictures(&rt, alloc, FIRST, &mut cart, &mut input, &mut output);
    let fault = ToolFault::Read(ReadFault::TooLong);
    check_same(&rt, "cartridge", end, Err(fault));
    check_same(&rt, "cart.left", (cart.left, input.reads), (1, 0));
    let mut cart = image.as_slice();
    let mut text = Filler::new(0, INPUT_LIMIT + 2, 0);
    let end = write_pictures(&rt, alloc, FIRST, &mut cart, &mut text, &mut output);
    check_same(&rt, "text", end, Err(fault));
    check_same(&rt, "text.left", text.left, 1);
    check_same(&rt, "output", output.len(), 0);
}

/// The cartridge's size comes before the text's fault, and this before the range.
#[test]
fn faults_of_an_export_come_in_order(rt: HostRuntime) {
    check_faults(&rt, rt.alloc(), PictureCommand::Export(0, 2, 1));
}
