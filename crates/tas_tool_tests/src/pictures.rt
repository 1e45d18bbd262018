//! Films and exports, and what they have to write.

use crate::answers::{Answer, DIGEST, SIZE};
use crate::checks::{check_same, check_that};
use crate::commands::{PictureCommand, write_pictures};
use crate::movies::{Files, HALTING, IDLE, PLAYFIELD, image_of, text_of};
use std::alloc::Global;
use std::process::Abort;
use std::sync::Wait;
use std::thread::Threads;
use tas_tool::{RunFault, ToolFault};
use test_streams::{Failure, Room, Taker};

/// Fails where a command ends in another way, or writes other pictures, which are too long to be shown.
pub fn check_pictures<R: Wait + Threads + Sync + Abort>(
    rt: &R,
    alloc: Global,
    command: PictureCommand,
    files: Files<'_>,
    (pictures, end): Answer<'_>,
) {
    let (mut cart, mut input) = files;
    let mut output = Vec::new(alloc);
    let ended = write_pictures(rt, alloc, command, &mut cart, &mut input, &mut output);
    check_same(rt, command, ended, end);
    check_same(rt, command, output.len(), pictures.len());
    check_that(rt, command, output.as_slice() == pictures);
}

/// Fails where a writer that takes so many bytes at once, and has room for this many, isn't left with the first bytes of these pictures,
/// or is written to again.
pub fn check_full<R: Wait + Threads + Sync + Abort>(
    rt: &R,
    alloc: Global,
    command: PictureCommand,
    files: Files<'_>,
    pictures: &[u8],
    (at_once, room): (usize, usize),
) {
    let (mut cart, mut input) = files;
    let mut output = Taker::new(alloc, at_once, Room::Bytes(room), Failure::Error);
    let ended = write_pictures(rt, alloc, command, &mut cart, &mut input, &mut output);
    let fault = ToolFault::Run(RunFault::Write { written: room });
    check_same(rt, ("room", room), ended, Err(fault));
    let found = (output.taken.len(), output.failed);
    check_same(rt, ("room", room), found, (room, 1));
    let is_first = pictures.starts_with(output.taken.as_slice());
    check_that(rt, ("room", room), is_first);
}

/// Fails where a command doesn't report the cartridge's size before the text's fault, and this before that of its range.
pub fn check_faults<R: Wait + Threads + Sync + Abort>(
    rt: &R,
    alloc: Global,
    command: PictureCommand,
) {
    let image = image_of(rt, alloc, PLAYFIELD.bytes);
    let other = text_of(rt, alloc, HALTING, 1, IDLE);
    for (image, fault) in [(b"1234567".as_slice(), SIZE), (image.as_slice(), DIGEST)] {
        let files = (image, other.as_bytes());
        check_pictures(rt, alloc, command, files, (b"", Err(fault)));
    }
}
