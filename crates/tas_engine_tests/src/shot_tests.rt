//! The engine that shows a frame.

use crate::checks::{check_same, check_that};
use crate::movies::{HALTING, PLAYFIELD, PLAYFIELD_MOVIE, image_of};
use crate::ran::{Engine, FAILURES, check_fault, check_filled, run_on, run_to};
use std::process::Abort;
use tas_engines::{RunFault, ToolFault};
use test_streams::{Room, Taker};

/// Fails where a picture isn't the one of the playfield.
fn check_playfield<R: Abort>(rt: &R, picture: &[u8]) {
    check_same(rt, "length", picture.len(), 100_815);
    let head = b"P6\n160 210\n255\n";
    check_that(rt, "head", picture.starts_with(head));
    let pixels = picture.get(15..).unwrap_or(&[]);
    for (pixel, colour) in pixels.chunks(3).enumerate() {
        let x = pixel % 80;
        let expected: &[u8] = if x < 4 {
            &[0xd2, 0xc8, 0x8c]
        } else {
            &[0, 0, 0]
        };
        check_same(rt, ("at", pixel), colour, expected);
    }
}

#[test]
fn a_playfield_is_drawn(rt: HostRuntime) {
    let alloc = rt.alloc();
    let cart = image_of(&rt, alloc, PLAYFIELD);
    let (picture, answer) = run_on(alloc, Engine::Shot(0), cart.as_slice(), PLAYFIELD_MOVIE);
    check_same(&rt, "answer", answer, Ok(()));
    check_playfield(&rt, picture.as_slice());
}

#[test]
fn no_frame_past_the_end_is_drawn(rt: HostRuntime) {
    let alloc = rt.alloc();
    let cart = image_of(&rt, alloc, PLAYFIELD);
    let ran = run_on(alloc, Engine::Shot(1), cart.as_slice(), PLAYFIELD_MOVIE);
    let fault = ToolFault::Run(RunFault::NoFrame { frame: 1, len: 1 });
    check_fault(&rt, "one", ran, fault);
}

#[test]
fn a_cut_picture_is_told_by_its_bytes(rt: HostRuntime) {
    let alloc = rt.alloc();
    let image = image_of(&rt, alloc, PLAYFIELD);
    let (whole, _end) = run_on(alloc, Engine::Shot(0), image.as_slice(), PLAYFIELD_MOVIE);
    check_playfield(&rt, whole.as_slice());
    for failure in FAILURES.iter() {
        for room in [0, 20, 300, 700, 1100] {
            let mut picture = Taker::new(alloc, 1000, Room::Bytes(room), *failure);
            let mut cart = [image.as_slice()];
            let mut text = PLAYFIELD_MOVIE;
            let end = run_to(alloc, Engine::Shot(0), &mut cart, &mut text, &mut picture);
            check_filled(&rt, &picture, end, whole.as_slice(), room);
        }
    }
}

/// The older text of a movie of the cartridge that halts, and five frames with nothing pressed.
static OLDER_HALTING_MOVIE: &[u8] =
    b"a26movie 1\ncart c914dfbc057cd1e5dd9cefcba07cec773cc85a8be3a04676377b60ded704d22d\n..... ..... .....\n..... ..... .....\n..... ..... .....\n..... ..... .....\n..... ..... .....\n";

/// Fails where a picture isn't black throughout.
fn check_black<R: Abort>(rt: &R, frame: usize, picture: &[u8]) {
    check_same(rt, frame, picture.len(), 100_815);
    check_that(rt, frame, picture.iter().skip(15).all(|byte| *byte == 0));
}

#[test]
fn frames_before_a_halt_have_pictures(rt: HostRuntime) {
    let alloc = rt.alloc();
    let cart = image_of(&rt, alloc, HALTING);
    check_same(&rt, "text", OLDER_HALTING_MOVIE.len(), 171);
    for frame in 0..3 {
        let (picture, answer) = run_on(
            alloc,
            Engine::Shot(frame),
            cart.as_slice(),
            OLDER_HALTING_MOVIE,
        );
        check_same(&rt, frame, answer, Ok(()));
        check_black(&rt, frame, picture.as_slice());
    }
}

#[test]
fn a_halted_frame_has_no_picture(rt: HostRuntime) {
    let alloc = rt.alloc();
    let cart = image_of(&rt, alloc, HALTING);
    let fault = ToolFault::Run(RunFault::Halted {
        at: 0xf00d,
        opcode: 2,
    });
    for frame in 3..5 {
        let ran = run_on(
            alloc,
            Engine::Shot(frame),
            cart.as_slice(),
            OLDER_HALTING_MOVIE,
        );
        check_fault(&rt, frame, ran, fault);
    }
}
