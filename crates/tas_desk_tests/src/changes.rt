//! Edits in short, and the cartridges that the tests play.

use crate::checks::expect_ok;
use std::alloc::{Allocator, Global};
use std::process::Abort;
use tas_movie::{Edit, Inputs};
use vcs_cpu::Halt;
use vcs_machine::{Cart, Input};

/// `000=A910850DA91E85084C08F0 FFC=00F0`: a playfield of 1,680 lit pixels in each frame.
pub const PLAYFIELD: &[u8] = b"\xA9\x10\x85\x0D\xA9\x1E\x85\x08\x4C\x08\xF0";

/// `000=A203A9028500A9008500CAD0F502 FFC=00F0`: three frames, then the undocumented opcode 02 at F00D.
pub const HALTING: &[u8] = b"\xA2\x03\xA9\x02\x85\x00\xA9\x00\x85\x00\xCA\xD0\xF5\x02";

/// `000=AD80026580858085094C00F0 FFC=00F0`: adds what the joysticks show to one byte, over and over, and colours the
/// background by it. So a picture depends on all inputs up to it.
pub const FOLDING: &[u8] = b"\xAD\x80\x02\x65\x80\x85\x80\x85\x09\x4C\x00\xF0";

/// `000=AD80026580858085098502 00B=4C00F0 FFC=00F0`: the same once a line, and waits for the next one.
pub const WAITING: &[u8] = b"\xAD\x80\x02\x65\x80\x85\x80\x85\x09\x85\x02\x4C\x00\xF0";

/// `000=A5802A4D800269F585808509A2248502CAD0FBA9028500A90085004C00F0 FFC=00F0`: folds what the joysticks show into one byte and
/// colours the frame by it, then waits for 36 lines and ends the frame by vertical sync. So a picture depends on all inputs up to
/// it, and is soon played: of its rows the first two are drawn.
pub const BRIEF_FOLDING: &[u8] =
    b"\xA5\x80\x2A\x4D\x80\x02\x69\xF5\x85\x80\x85\x09\xA2\x24\x85\x02\xCA\xD0\xFB\xA9\x02\x85\x00\xA9\x00\x85\x00\x4C\x00\xF0";

/// `000=E680A9028500A90085004C00F0 FFC=00F0`: adds 1 to the first byte of memory and ends the frame by vertical sync. So this byte says how
/// many frames were played.
pub const COUNTING: &[u8] = b"\xE6\x80\xA9\x02\x85\x00\xA9\x00\x85\x00\x4C\x00\xF0";

/// The halt of the second program.
pub const HALT: Halt = Halt::Undocumented {
    at: 0xF00D,
    opcode: 2,
};

/// An edit in short.
#[derive(Clone, Copy, Debug)]
pub enum Change {
    /// Another cartridge with this program at F000.
    Load(&'static [u8]),
    /// This many inputs with nothing pressed, at a place.
    Insert(usize, usize),
    /// This many inputs with the left stick pushed right, at a place.
    InsertRight(usize, usize),
    /// One input with the left fire pressed, at a place.
    InsertFire(usize),
    /// This many inputs with nothing pressed over those at a place.
    Replace(usize, usize),
    /// One input with the left stick pushed right over that at a place.
    ReplaceRight(usize),
    /// This many inputs taken out at a place.
    Delete(usize, usize),
}

/// The cartridge with a program at F000.
pub fn cart<R: Abort, A: Allocator>(rt: &R, alloc: A, program: &[u8]) -> Cart<A> {
    let mut image = [0u8; 4096];
    for (cell, byte) in image.iter_mut().zip(program) {
        *cell = *byte;
    }
    image[4093] = 0xF0;
    expect_ok(rt, Cart::from_bytes(alloc, &image))
}

/// The left stick pushed right.
pub fn right() -> Input {
    let mut input = Input::none();
    input.left.right = true;
    input
}

/// The left fire pressed.
pub fn fire() -> Input {
    let mut input = Input::none();
    input.left.fire = true;
    input
}

/// This many equal inputs.
fn copies<R: Abort>(rt: &R, alloc: Global, input: Input, count: usize) -> Inputs {
    Inputs::from_vec(expect_ok(rt, vec![in alloc; input; count]))
}

/// This many equal inputs put in at a place.
fn insert<R: Abort>(rt: &R, alloc: Global, at: usize, input: Input, count: usize) -> Edit {
    let inputs = copies(rt, alloc, input, count);
    Edit::Insert { at, inputs }
}

/// This many equal inputs over those at a place.
fn replace<R: Abort>(rt: &R, alloc: Global, at: usize, input: Input, count: usize) -> Edit {
    let inputs = copies(rt, alloc, input, count);
    Edit::Replace { at, inputs }
}

/// The edit.
pub fn edit_of<R: Abort>(rt: &R, alloc: Global, change: Change) -> Edit {
    match change {
        Change::Load(program) => Edit::Load(cart(rt, alloc, program)),
        Change::Insert(at, count) => insert(rt, alloc, at, Input::none(), count),
        Change::InsertRight(at, count) => insert(rt, alloc, at, right(), count),
        Change::InsertFire(at) => insert(rt, alloc, at, fire(), 1),
        Change::Replace(at, count) => replace(rt, alloc, at, Input::none(), count),
        Change::ReplaceRight(at) => replace(rt, alloc, at, right(), 1),
        Change::Delete(at, count) => Edit::Delete { at, count },
    }
}
