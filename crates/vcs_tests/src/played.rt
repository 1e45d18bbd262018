//! What frames of a cartridge come to.

use crate::checks::{check_that, expect_ok};
use std::alloc::Global;
use std::fmt::Debug;
use std::process::Abort;
use vcs_cpu::Halt;
use vcs_machine::{Cart, Input, Meter, State, play, play_unseen};
use vcs_tia::Picture;

/// Plays frames from power-on with nothing pressed, each with its picture and without, from a state that was packed before;
/// both must be the same. Answers the halt, if there was one, and how many pixels of the last frame aren't black.
pub fn frames_of<R: Abort, C: Copy + Debug>(
    rt: &R,
    alloc: Global,
    case: C,
    cart: &Cart,
    frames: u32,
) -> (Option<Halt>, usize) {
    let mut picture = expect_ok(rt, Picture::blank(alloc));
    let (halt, alike) = play_frames(rt, cart, frames, &mut picture);
    check_that(rt, case, alike);
    (halt, picture.lit())
}

/// Plays the frames, and returns the halt and whether each is the same without a picture, from the state that was packed.
fn play_frames<R: Abort>(
    rt: &R,
    cart: &Cart,
    frames: u32,
    picture: &mut Picture,
) -> (Option<Halt>, bool) {
    let mut meter = Meter::new();
    let mut state = State::power_on(cart);
    let mut alike = true;
    for _ in 0..frames {
        let mut unseen = state.pack().unpack();
        check_that(rt, "meter", meter.room() >= 2);
        let seen = play(cart, &mut state, Input::none(), picture, &mut meter);
        let other = play_unseen(cart, &mut unseen, Input::none(), &mut meter);
        alike = alike && state == unseen && seen == other;
    }
    (state.halted(), alike)
}
