//! Cartridges, inputs and movies of the tests.

use crate::checks::expect_ok;
use std::alloc::Global;
use std::process::Abort;
use tas_movie::{Edit, Inputs, Movie, apply, check};
use vcs_cpu::Halt;
use vcs_machine::{Cart, Input};

/// `000=A910850DA91E85084C08F0 FFC=00F0`: a playfield of 1,680 lit pixels in each frame.
pub const PLAYFIELD: &[u8] = b"\xA9\x10\x85\x0D\xA9\x1E\x85\x08\x4C\x08\xF0";

/// `000=A203A9028500A9008500CAD0F502 FFC=00F0`: three frames, then the undocumented opcode 02 at
/// F00D.
pub const HALTING: &[u8] = b"\xA2\x03\xA9\x02\x85\x00\xA9\x00\x85\x00\xCA\xD0\xF5\x02";

/// The halt of that program.
pub const HALT: Halt = Halt::Undocumented {
    at: 0xF00D,
    opcode: 2,
};

/// The cartridge with a program at F000, where execution starts too; all other bytes are 0.
pub fn cart_of<R: Abort>(rt: &R, alloc: Global, program: &[u8]) -> Cart {
    let mut image = [0u8; 4096];
    for (at, byte) in program.iter().enumerate() {
        if at < 4096 {
            image[at] = *byte;
        }
    }
    image[4093] = 0xF0;
    expect_ok(rt, Cart::from_bytes(alloc, &image))
}

/// This many inputs with nothing pressed.
pub fn idle<R: Abort>(rt: &R, alloc: Global, count: usize) -> Inputs {
    expect_ok(rt, Inputs::repeated(alloc, Input::none(), count))
}

/// One input with reset pressed.
pub fn reset<R: Abort>(rt: &R, alloc: Global) -> Inputs {
    let mut input = Input::none();
    input.reset = true;
    Inputs::from_vec(expect_ok(rt, vec![in alloc; input]))
}

/// A movie of this many frames with nothing pressed.
pub fn movie_of<R: Abort>(rt: &R, alloc: Global, program: &[u8], count: usize) -> Movie {
    let cart = cart_of(rt, alloc, program);
    let mut movie = expect_ok(rt, Movie::new(alloc, &cart));
    let inputs = idle(rt, alloc, count);
    let insert = Edit::Insert { at: 0, inputs };
    expect_ok(rt, check(&movie, &insert));
    apply(&mut movie, &insert);
    movie
}
