//! The masks of a TIA, against the slow one that draws each clock as it comes.

use super::plain::{Drawing, PLAIN, Plain};
use super::{latches, next_random, run};
use crate::checks::{check_same, check_that, expect_ok};
use std::alloc::Global;
use std::process::Abort;
use vcs_tia::{Picture, Tia};

/// A register, a byte for it, and how many clocks pass after the write.
fn random_step(state: u32) -> (u16, u8, u16) {
    let number = ((state >> 8) % 0x2d) as u16;
    let value = ((state >> 16) % 256) as u8;
    let few = ((state >> 24) % 97) as u16;
    (number, value, if state >> 24 < 240 { few } else { 500 })
}

/// A TIA and the slow one, with their pictures.
#[derive(Drop)]
struct Pair {
    tia: Tia,
    plain: Plain,
    masked: Picture,
    slow: Drawing,
}

impl Pair {
    fn new<R: Abort>(rt: &R, alloc: Global) -> Pair {
        Pair {
            tia: Tia::new(),
            plain: PLAIN,
            masked: expect_ok(rt, Picture::blank(alloc)),
            slow: expect_ok(rt, Drawing::blank(alloc)),
        }
    }

    /// A write to both, and then the clocks after it.
    fn step(&mut self, state: u32) {
        let (number, value, clocks) = random_step(state);
        self.tia.write(number, value);
        self.plain.write(number, value);
        run(&mut self.tia, clocks, &mut self.masked);
        self.plain.run(clocks, &mut self.slow);
    }

    /// The latches of both.
    fn latches(&self) -> ([u8; 8], [u8; 8]) {
        (latches(&self.tia), self.plain.latches())
    }

    /// Whether both pictures are alike. Then both begin a frame.
    fn ends_alike(&mut self) -> bool {
        let is_alike = self.slow.is_shown(&self.masked);
        self.tia.end_frame();
        self.plain.end_frame();
        is_alike
    }
}

#[test]
fn masks_against_the_plain_program(rt: HostRuntime) {
    let mut pair = Pair::new(&rt, rt.alloc());
    let mut state = 2600;
    for step in 0..12000u32 {
        state = next_random(state);
        pair.step(state);
        let (masked, plain) = pair.latches();
        check_same(&rt, step, masked, plain);
        if step % 1000 == 999 {
            check_that(&rt, step, pair.ends_alike());
        }
    }
}
