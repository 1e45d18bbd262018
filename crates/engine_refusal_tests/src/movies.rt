//! A movie that engines read, made in memory that isn't refused.

use crate::checks::expect_ok;
use std::alloc::Global;
use std::process::Abort;
use tas_movie::{Edit, Inputs, Movie, apply, check};
use vcs_machine::{Cart, Input};

/// `000=A9028500A90085004C00F0 FFC=00F0`: ends frame after frame by vertical sync, so that they are soon played. Their pictures
/// are black.
const BRIEF: &[u8] = b"\xA9\x02\x85\x00\xA9\x00\x85\x00\x4C\x00\xF0";

/// The cartridge of brief frames, byte by byte.
pub fn brief_image() -> [u8; 4096] {
    let mut image = [0u8; 4096];
    for (cell, byte) in image.iter_mut().zip(BRIEF) {
        *cell = *byte;
    }
    image[4093] = 0xF0;
    image
}

/// The left stick pushed right.
pub fn right() -> Input {
    let mut input = Input::none();
    input.left.right = true;
    input
}

/// A movie of this many brief frames of one input.
pub fn brief_movie<R: Abort>(rt: &R, alloc: Global, input: Input, count: usize) -> Movie {
    let cart = expect_ok(rt, Cart::from_bytes(alloc, &brief_image()));
    let mut movie = expect_ok(rt, Movie::new(alloc, &cart));
    let inputs = expect_ok(rt, Inputs::repeated(alloc, input, count));
    let insert = Edit::Insert { at: 0, inputs };
    expect_ok(rt, check(&movie, &insert));
    apply(&mut movie, &insert);
    movie
}
