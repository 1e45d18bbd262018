//! TIAs that lag behind, against the slow one that draws each clock as it comes.

use super::plain::{Drawing, PLAIN, Plain};
use super::{next_random, run};
use crate::checks::{check_same, check_that, expect_ok};
use std::alloc::Global;
use std::process::Abort;
use vcs_tia::{Picture, Tia};

/// A TIA that lags behind: clocks are owed until a write may be seen. Either it draws them then, or they only pass.
#[derive(Drop)]
struct Lagging {
    tia: Tia,
    draws: bool,
    owed: u16,
    longest: u16,
}

impl Lagging {
    fn new(draws: bool) -> Self {
        Lagging {
            tia: Tia::new(),
            draws,
            owed: 0,
            longest: 0,
        }
    }

    /// This many clocks more are owed; all pass first where there are many already.
    fn owe(&mut self, clocks: u16, picture: &mut Picture) {
        if self.owed > 30000 {
            self.catch_up(picture);
        }
        self.owed = self.owed.saturating_add(clocks);
        if self.owed > self.longest {
            self.longest = self.owed;
        }
    }

    fn catch_up(&mut self, picture: &mut Picture) {
        let (line, _clock) = self.tia.beam();
        if self.draws {
            run(&mut self.tia, self.owed, picture);
        } else if line < 60000 {
            self.tia.pass(self.owed);
        }
        self.owed = 0;
    }

    /// A write; the clocks pass first where it may be seen.
    fn write(&mut self, number: u16, value: u8, picture: &mut Picture) {
        if !self.tia.write_if_unseen(number, value, self.draws) {
            self.catch_up(picture);
            self.tia.write(number, value);
        }
    }

    /// The clocks of a wait, which are owed then.
    fn wait(&mut self, picture: &mut Picture) -> u16 {
        let (_line, clock) = self.tia.beam();
        let behind = (clock as u32 + self.owed as u32) % 228;
        let clocks = if self.tia.take_wait() && behind != 0 {
            228 - behind as u16
        } else {
            0
        };
        self.owe(clocks, picture);
        clocks
    }

    fn read(&self, addr: u16) -> Option<u8> {
        let (line, _clock) = self.tia.beam();
        if line < 60000 {
            Some(self.tia.read_after(self.owed, addr))
        } else {
            None
        }
    }
}

/// What was last written to each register.
#[derive(Drop)]
struct Written {
    bytes: [u8; 45],
}

impl Written {
    /// A register and a byte for it, most often the one that it has.
    fn next(&mut self, state: u32) -> (u16, u8) {
        let number = (state >> 8) as usize % 45;
        if (state >> 16) % 8 == 0 {
            self.bytes[number] = ((state >> 20) % 256) as u8;
        }
        (number as u16, self.bytes[number])
    }
}

/// Registers whose writes are always seen: strobes, HMOVE and CXCLR.
fn is_strobe(number: u16) -> bool {
    (number >= 0x10 && number <= 0x14) || number == 0x2a || number == 0x2c
}

/// Two TIAs that lag behind, one of which draws, and the slow one, with their pictures.
#[derive(Drop)]
struct Race {
    drawing: Lagging,
    passing: Lagging,
    plain: Plain,
    fast: Picture,
    slow: Drawing,
}

impl Race {
    fn new<R: Abort>(rt: &R, alloc: Global) -> Race {
        Race {
            drawing: Lagging::new(true),
            passing: Lagging::new(false),
            plain: PLAIN,
            fast: expect_ok(rt, Picture::blank(alloc)),
            slow: expect_ok(rt, Drawing::blank(alloc)),
        }
    }

    fn write(&mut self, number: u16, value: u8) {
        self.drawing.write(number, value, &mut self.fast);
        self.passing.write(number, value, &mut self.fast);
        self.plain.write(number, value);
    }

    fn owe(&mut self, clocks: u16) {
        self.drawing.owe(clocks, &mut self.fast);
        self.passing.owe(clocks, &mut self.fast);
        self.plain.run(clocks, &mut self.slow);
    }

    /// How many clocks each of the three waits.
    fn wait(&mut self) -> [u16; 3] {
        let wait = self.plain.clocks_to_line_end();
        let drawing = self.drawing.wait(&mut self.fast);
        let passing = self.passing.wait(&mut self.fast);
        self.plain.run(wait, &mut self.slow);
        [drawing, passing, wait]
    }

    /// What each of the three reads.
    fn read(&self, addr: u16) -> [Option<u8>; 3] {
        [
            self.drawing.read(addr),
            self.passing.read(addr),
            Some(self.plain.read(addr)),
        ]
    }

    /// Whether all three are alike, once all clocks have passed. Then they begin a frame.
    fn ends_alike(&mut self) -> bool {
        self.drawing.catch_up(&mut self.fast);
        self.passing.catch_up(&mut self.fast);
        let is_alike = self.drawing.tia == self.passing.tia && self.slow.is_shown(&self.fast);
        self.drawing.tia.end_frame();
        self.passing.tia.end_frame();
        self.plain.end_frame();
        is_alike
    }
}

/// How many clocks are owed after a step.
fn random_clocks(state: u32) -> u16 {
    if state >> 24 < 250 {
        (state >> 24) as u16
    } else {
        3000
    }
}

/// One step of a race: a write, clocks, and at some steps a wait or a read, in which all three must agree.
fn check_step<R: Abort>(rt: &R, race: &mut Race, written: &mut Written, step: u32, state: u32) {
    let (number, value) = written.next(state);
    if !is_strobe(number) || state % 16 == 0 {
        race.write(number, value);
    }
    race.owe(random_clocks(state));
    if number == 2 {
        let [drawing, passing, wait] = race.wait();
        check_same(rt, step, (drawing, passing), (wait, wait));
    }
    if step % 7 == 0 {
        let [drawing, passing, byte] = race.read(((state >> 12) % 8) as u16);
        check_same(rt, step, (drawing, passing), (byte, byte));
    }
}

#[test]
fn long_debts_against_the_plain_program(rt: HostRuntime) {
    let mut race = Race::new(&rt, rt.alloc());
    let mut written = Written { bytes: [0; 45] };
    let mut state = 1977;
    for step in 0..6000u32 {
        state = next_random(state);
        check_step(&rt, &mut race, &mut written, step, state);
        if step % 500 == 499 {
            check_that(&rt, step, race.ends_alike());
        }
    }
    // Debts of many lines came up, without which the rest shows little.
    let longest = (race.drawing.longest, race.passing.longest);
    check_that(&rt, longest, longest.0 > 10 * 228 && longest.1 > longest.0);
}
