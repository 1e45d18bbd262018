//! What the calls are made on, in memory that isn't refused.

use crate::checks::expect_ok;
use std::alloc::{Allocator, Global};
use std::process::Abort;
use tas_green::{Batch, Green};
use tas_movie::{Edit, Inputs, Movie, apply, check};
use vcs_machine::{Cart, Input, Meter, State, play_unseen};

/// `000=A910850DA91E85084C08F0 FFC=00F0`: a playfield of 1,680 lit pixels in each frame.
pub const PLAYFIELD: &[u8] = b"\xA9\x10\x85\x0D\xA9\x1E\x85\x08\x4C\x08\xF0";

/// `000=A9028500A90085004C00F0 FFC=00F0`: ends frame after frame by vertical sync, so that they are soon played. Their pictures
/// are black.
pub const BRIEF: &[u8] = b"\xA9\x02\x85\x00\xA9\x00\x85\x00\x4C\x00\xF0";

/// `000=AD8002C9FFF00D658085808509A2508502 011=CAD0FBA9028500A90085004C00F0 FFC=00F0`: adds what the joysticks show to a byte,
/// colours the background by it for 80 lines, and ends the frame by vertical sync; while the joysticks are at rest, it ends it at
/// once. So a picture depends on all inputs up to it, and the frames are soon played.
pub const FOLDING: &[u8] =
    b"\xAD\x80\x02\xC9\xFF\xF0\x0D\x65\x80\x85\x80\x85\x09\xA2\x50\x85\x02\xCA\xD0\xFB\xA9\x02\x85\x00\xA9\x00\x85\x00\x4C\x00\xF0";

/// The places of the grid up to frame 384, after which a movie's states are kept.
pub static GRID: [usize; 6] = [64, 128, 192, 256, 320, 384];

/// Whether a zone keeps just the first two states of the grid, those after 64 and 128 frames.
pub fn has_first_two<A: Allocator>(green: &Green<A>) -> bool {
    green.count() == 2 && green.holds(64) && green.holds(128)
}

/// Whether a batch of the frames up to 384 has the states that a zone with the first two of the grid lacks, and neither of these two.
pub fn has_lacked<A: Allocator>(batch: &Batch<A>) -> bool {
    for frame in GRID.iter() {
        if batch.holds(*frame) != (*frame > 128) {
            return false;
        }
    }
    true
}

/// The cartridge with a program at F000, byte by byte.
pub fn image(program: &[u8]) -> [u8; 4096] {
    let mut image = [0u8; 4096];
    for (cell, byte) in image.iter_mut().zip(program) {
        *cell = *byte;
    }
    image[4093] = 0xF0;
    image
}

/// The left stick pushed right.
pub fn right() -> Input {
    let mut input = Input::none();
    input.left.right = true;
    input
}

/// Changes the movie by an edit, which fits it.
pub fn make<R: Abort>(rt: &R, movie: &mut Movie, edit: &Edit) {
    expect_ok(rt, check(movie, edit));
    apply(movie, edit);
}

/// A movie of this many frames of one input.
pub fn movie_of<R: Abort>(
    rt: &R,
    alloc: Global,
    program: &[u8],
    input: Input,
    count: usize,
) -> Movie {
    let cart = expect_ok(rt, Cart::from_bytes(alloc, &image(program)));
    let mut movie = expect_ok(rt, Movie::new(alloc, &cart));
    let inputs = expect_ok(rt, Inputs::repeated(alloc, input, count));
    make(rt, &mut movie, &Edit::Insert { at: 0, inputs });
    movie
}

/// The same movie with another input in the frame `at`.
pub fn replaced<R: Abort>(rt: &R, alloc: Global, movie: &Movie, at: usize) -> Movie {
    let mut other = expect_ok(rt, movie.copy(alloc));
    let replace = Edit::Replace {
        at,
        inputs: expect_ok(rt, Inputs::repeated(alloc, right(), 1)),
    };
    make(rt, &mut other, &replace);
    other
}

/// The machine after the first frames of these inputs, as many as `frames`, played from power-on.
pub fn played<A: Allocator>(cart: &Cart<A>, inputs: &[Input], frames: usize) -> State {
    let mut state = State::power_on(cart);
    for input in inputs.iter().take(frames) {
        let mut meter = Meter::new();
        // A halted machine stays as it is: its state has the halt.
        let _ = play_unseen(cart, &mut state, *input, &mut meter);
    }
    state
}

/// Whether two movies have the same cartridge and the same inputs.
pub fn are_equal<A: Allocator, B: Allocator>(one: &Movie<A>, other: &Movie<B>) -> bool {
    one.cart().bytes() == other.cart().bytes() && one.inputs() == other.inputs()
}
