//! Searches over readers, and the bytes of their inputs.

use crate::checks::expect_ok;
use crate::goals::{cart_of, still};
use std::alloc::Global;
use std::process::Abort;
use tas_movie::print_text;
use tas_search::{Search, SpacePart};

/// Nothing, the left stick to the right, and to the left.
pub const CHOICES: &[u8] = b"..... ..... .....\nR.... ..... .....\n.L... ..... .....\n";

/// The cartridge with a program.
pub fn image_of<R: Abort>(rt: &R, alloc: Global, program: &[u8]) -> Vec<u8> {
    let cart = cart_of(rt, alloc, program);
    expect_ok(rt, Vec::from_slice(alloc, cart.bytes()))
}

/// The text of a movie of so many frames in which nothing is pressed.
pub fn text_of<R: Abort>(rt: &R, alloc: Global, program: &[u8], len: usize) -> Vec<u8> {
    expect_ok(rt, print_text(alloc, &still(rt, alloc, program, len)))
}

/// A search from frame 3 on among the choices of a file, with names.
pub fn search(frames: usize, hold: usize, states: usize, goal: &[u8]) -> Search<'_> {
    Search {
        from: 3,
        frames,
        hold,
        states,
        workers: 2,
        part: SpacePart::whole(),
        has_choices: true,
        has_names: true,
        goal,
    }
}
