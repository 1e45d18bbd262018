//! Pictures by a plain replay from power-on, and the sum over them.

use crate::checks::expect_ok;
use crate::sums::Sum;
use std::alloc::Global;
use std::process::Abort;
use vcs_cpu::Halt;
use vcs_machine::{Cart, Input, Meter, State, play};
use vcs_tia::{Picture, ppm};

/// The pixmaps of some frames, one after the other: how many bytes they have and the sum over them, or the first halted frame of
/// these with its halt.
pub type Pixmaps = Result<(usize, u64), (usize, Halt)>;

/// The pixmaps of the frames of a range, all played from power-on.
pub fn pixmaps<R: Abort>(
    rt: &R,
    alloc: Global,
    cart: &Cart,
    inputs: &[Input],
    range: (usize, usize),
) -> Pixmaps {
    let mut picture = expect_ok(rt, Picture::blank(alloc));
    pixmaps_on(cart, &mut picture, inputs, range)
}

/// The same with a picture to draw on. A machine that has halted halts in each later frame, too.
fn pixmaps_on(
    cart: &Cart,
    picture: &mut Picture,
    inputs: &[Input],
    range: (usize, usize),
) -> Pixmaps {
    let mut state = State::power_on(cart);
    let mut out = Sum::new(usize::MAX);
    for (frame, input) in inputs.iter().enumerate().take(range.1) {
        let ended = play(cart, &mut state, *input, picture, &mut Meter::new());
        if range.0 <= frame {
            if let Err(halt) = ended {
                return Err((frame, halt));
            }
            let _ = ppm(picture, &mut out);
        }
    }
    Ok(out.told())
}
