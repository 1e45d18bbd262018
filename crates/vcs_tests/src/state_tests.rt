//! States are equal only where all their parts are, and so are packed states: pairs of programs whose machines differ in one
//! part. A packed state's places are those of its TIA.

use crate::carts::program;
use crate::checks::{check_same, check_that};
use std::alloc::Global;
use std::fmt::Debug;
use std::process::Abort;
use vcs_machine::{Cart, Input, Meter, State, play_unseen};

/// The machine after one more frame.
fn next<R: Abort>(rt: &R, cart: &Cart, state: State, input: Input) -> State {
    let mut after = state;
    let mut meter = Meter::new();
    check_that(rt, "meter", meter.room() >= 1);
    let halt = play_unseen(cart, &mut after, input, &mut meter).err();
    check_same(rt, "halt", halt, after.halted());
    after
}

/// The machine after some frames of a program with nothing pressed.
fn after<R: Abort>(rt: &R, alloc: Global, code: &[u8], frames: u8) -> State {
    let cart = program(rt, alloc, code);
    let mut state = State::power_on(&cart);
    for _ in 0..frames {
        state = next(rt, &cart, state, Input::none());
    }
    state
}

/// Fails where two programs leave equal states after this many frames, or one of them leaves two that aren't equal.
fn check_differ<R: Abort, C: Copy + Debug>(
    rt: &R,
    alloc: Global,
    case: C,
    (one, other): (&[u8], &[u8]),
    frames: u8,
) {
    let first = after(rt, alloc, one, frames);
    let second = after(rt, alloc, other, frames);
    let again = after(rt, alloc, one, frames);
    let found = [first == second, second == first, first == again];
    check_same(rt, case, found, [false, false, true]);
    let (one, other, same) = (first.pack(), second.pack(), again.pack());
    let found = [one == other, other == one, one == same];
    check_same(rt, case, found, [false, false, true]);
    let found = [one.unpack() == first, other.unpack() == second];
    check_same(rt, case, found, [true; 2]);
}

/// What differs, both programs, and after how many frames.
type Pair = (&'static str, &'static [u8], &'static [u8], u8);

static REGISTERS: [Pair; 11] = [
    // LDA, LDX and LDY of 1 and 2, then a jump to itself
    ("A", b"\xa9\x01\x4c\x02\xf0", b"\xa9\x02\x4c\x02\xf0", 1),
    ("X", b"\xa2\x01\x4c\x02\xf0", b"\xa2\x02\x4c\x02\xf0", 1),
    ("Y", b"\xa0\x01\x4c\x02\xf0", b"\xa0\x02\x4c\x02\xf0", 1),
    // LDX of 1 and 2, TXS, LDX #0, a jump to itself
    (
        "S",
        b"\xa2\x01\x9a\xa2\x00\x4c\x05\xf0",
        b"\xa2\x02\x9a\xa2\x00\x4c\x05\xf0",
        1,
    ),
    // a jump to each of two jumps to themselves
    (
        "PC",
        b"\x4c\x03\xf0\x4c\x03\xf0\x4c\x06\xf0",
        b"\x4c\x06\xf0\x4c\x03\xf0\x4c\x06\xf0",
        1,
    ),
    // LDA of 34 and of it with another bit, PHA, LDA #0, PLP, STA FD, which clears the byte that was pushed
    (
        "N",
        b"\xa9\x34\x48\xa9\x00\x28\x85\xfd\x4c\x08\xf0",
        b"\xa9\xb4\x48\xa9\x00\x28\x85\xfd\x4c\x08\xf0",
        1,
    ),
    (
        "V",
        b"\xa9\x34\x48\xa9\x00\x28\x85\xfd\x4c\x08\xf0",
        b"\xa9\x74\x48\xa9\x00\x28\x85\xfd\x4c\x08\xf0",
        1,
    ),
    (
        "D",
        b"\xa9\x34\x48\xa9\x00\x28\x85\xfd\x4c\x08\xf0",
        b"\xa9\x3c\x48\xa9\x00\x28\x85\xfd\x4c\x08\xf0",
        1,
    ),
    (
        "I",
        b"\xa9\x34\x48\xa9\x00\x28\x85\xfd\x4c\x08\xf0",
        b"\xa9\x30\x48\xa9\x00\x28\x85\xfd\x4c\x08\xf0",
        1,
    ),
    (
        "Z",
        b"\xa9\x34\x48\xa9\x00\x28\x85\xfd\x4c\x08\xf0",
        b"\xa9\x36\x48\xa9\x00\x28\x85\xfd\x4c\x08\xf0",
        1,
    ),
    (
        "C",
        b"\xa9\x34\x48\xa9\x00\x28\x85\xfd\x4c\x08\xf0",
        b"\xa9\x35\x48\xa9\x00\x28\x85\xfd\x4c\x08\xf0",
        1,
    ),
];

static PARTS: [Pair; 12] = [
    // LDA #0, STA TIM1T and STA TIM8T: below 0 the count is the same
    (
        "the timer's interval",
        b"\xa9\x00\x8d\x94\x02\x4c\x05\xf0",
        b"\xa9\x00\x8d\x95\x02\x4c\x05\xf0",
        1,
    ),
    // LDA #0, STA TIM1T, LDA of INTIM, which clears the flag, and of INSTAT, LDA #0
    (
        "the timer's flag",
        b"\xa9\x00\x8d\x94\x02\xad\x84\x02\xa9\x00\x4c\x0a\xf0",
        b"\xa9\x00\x8d\x94\x02\xad\x85\x02\xa9\x00\x4c\x0a\xf0",
        1,
    ),
    // LDA #100, STA T1024T before a NOP and after it
    (
        "the cycles of the timer's interval",
        b"\xa9\x64\x8d\x97\x02\xea\x4c\x06\xf0",
        b"\xa9\x64\xea\x8d\x97\x02\x4c\x06\xf0",
        1,
    ),
    // LDA #2, STA VSYNC, which ends a frame, then LDA of 2 and 0, STA VSYNC, LDA #0
    (
        "VSYNC",
        b"\xa9\x02\x85\x00\xa9\x02\x85\x00\xa9\x00\x4c\x0a\xf0",
        b"\xa9\x02\x85\x00\xa9\x00\x85\x00\xa9\x00\x4c\x0a\xf0",
        2,
    ),
    // LDA #2, STA HMOVE and STA 2D, STA VSYNC
    (
        "HMOVE's black pixels",
        b"\xa9\x02\x85\x2a\x85\x00\x4c\x06\xf0",
        b"\xa9\x02\x85\x2d\x85\x00\x4c\x06\xf0",
        1,
    ),
    // LDA #F0, STA PF0, LDA #2, STA ENABL, STA WSYNC, LDA #0, STA PF0, STA ENABL, STA CXCLR and STA 2D
    (
        "a latch of collisions",
        b"\xa9\xf0\x85\x0d\xa9\x02\x85\x1f\x85\x02\xa9\x00\x85\x0d\x85\x1f\x85\x2c\x4c\x12\xf0",
        b"\xa9\xf0\x85\x0d\xa9\x02\x85\x1f\x85\x02\xa9\x00\x85\x0d\x85\x1f\x85\x2d\x4c\x12\xf0",
        1,
    ),
    // LDA of 1 and 2, STA GRP0, LDA #0, STA GRP1, STA GRP0
    (
        "the old graphics of player 0",
        b"\xa9\x01\x85\x1b\xa9\x00\x85\x1c\x85\x1b\x4c\x0a\xf0",
        b"\xa9\x02\x85\x1b\xa9\x00\x85\x1c\x85\x1b\x4c\x0a\xf0",
        1,
    ),
    // LDA of 1 and 2, STA GRP1, LDA #0, STA GRP0, STA GRP1
    (
        "the old graphics of player 1",
        b"\xa9\x01\x85\x1c\xa9\x00\x85\x1b\x85\x1c\x4c\x0a\xf0",
        b"\xa9\x02\x85\x1c\xa9\x00\x85\x1b\x85\x1c\x4c\x0a\xf0",
        1,
    ),
    // LDA of 2 and 0, STA ENABL, LDA #0, STA GRP1, STA ENABL
    (
        "the ball's old copy",
        b"\xa9\x02\x85\x1f\xa9\x00\x85\x1c\x85\x1f\x4c\x0a\xf0",
        b"\xa9\x00\x85\x1f\xa9\x00\x85\x1c\x85\x1f\x4c\x0a\xf0",
        1,
    ),
    // LDA #2, STA VSYNC, and then a byte that halts, or another one
    (
        "the opcode of a halt",
        b"\xa9\x02\x85\x00\x02",
        b"\xa9\x02\x85\x00\x12",
        2,
    ),
    // STA RESP0 and STA 2D
    (
        "the place of player 0",
        b"\x85\x10\x4c\x02\xf0",
        b"\x85\x2d\x4c\x02\xf0",
        1,
    ),
    // STA RESM1 and STA 2D
    (
        "the place of missile 1",
        b"\x85\x13\x4c\x02\xf0",
        b"\x85\x2d\x4c\x02\xf0",
        1,
    ),
];

/// Fails where the two programs of a pair leave equal states.
fn check_pairs<R: Abort>(rt: &R, alloc: Global, pairs: &[Pair]) {
    for (part, one, other, frames) in pairs.iter() {
        check_differ(rt, alloc, *part, (*one, *other), *frames);
    }
}

#[test]
fn states_that_differ_in_a_register(rt: HostRuntime) {
    check_pairs(&rt, rt.alloc(), &REGISTERS);
}

#[test]
fn states_that_differ_in_a_part(rt: HostRuntime) {
    check_pairs(&rt, rt.alloc(), &PARTS);
}

/// Programs, and the places of players 0 and 1, missiles 0 and 1 and the ball after a frame.
static PLACES: [(&'static [u8], [u8; 5]); 3] = [
    // a jump to itself
    (b"\x4c\x00\xf0", [0; 5]),
    // STA RESP0, RESP1, RESM0, RESM1 and RESBL at clocks 9, 18, 27, 36 and 45 of line 0, in the blank
    (
        b"\x85\x10\x85\x11\x85\x12\x85\x13\x85\x14\x4c\x0a\xf0",
        [3, 3, 2, 2, 2],
    ),
    // twelve NOPs, then the same at clocks 81, 90, 99, 108 and 117
    (
        b"\xea\xea\xea\xea\xea\xea\xea\xea\xea\xea\xea\xea\x85\x10\x85\x11\x85\x12\x85\x13\x85\x14\x4c\x16\xf0",
        [18, 27, 35, 44, 53],
    ),
];

#[test]
fn places_of_a_packed_state(rt: HostRuntime) {
    for (row, (code, places)) in PLACES.iter().enumerate() {
        let state = after(&rt, rt.alloc(), *code, 1);
        check_same(&rt, ("row", row), state.pack().places(), *places);
    }
}

/// Addresses, and two bytes that leave different machines where they are written there.
static STORES: [(u16, u8, u8); 43] = [
    // RAM: its first byte, one in its middle, its last
    (0x0080, 0x01, 0x02),
    (0x00c3, 0x00, 0x80),
    (0x00ff, 0xfe, 0xff),
    // the ports' latches and directions
    (0x0280, 0x01, 0x02),
    (0x0281, 0x01, 0x00),
    (0x0282, 0x40, 0x80),
    (0x0283, 0xff, 0xfe),
    // T1024T
    (0x0297, 0x64, 0x65),
    // VBLANK: blank, and the latch of presses
    (0x0001, 0x00, 0x02),
    (0x0001, 0x00, 0x40),
    // NUSIZ0 and NUSIZ1: copies, and a missile's width
    (0x0004, 0x00, 0x01),
    (0x0004, 0x10, 0x20),
    (0x0005, 0x06, 0x07),
    (0x0005, 0x00, 0x30),
    // COLUP0, COLUP1, COLUPF, COLUBK
    (0x0006, 0x02, 0x04),
    (0x0007, 0x02, 0x04),
    (0x0008, 0x02, 0x04),
    (0x0009, 0x02, 0x04),
    // CTRLPF: mirror, score, priority, the ball's width
    (0x000a, 0x00, 0x01),
    (0x000a, 0x00, 0x02),
    (0x000a, 0x00, 0x04),
    (0x000a, 0x10, 0x20),
    // REFP0, REFP1
    (0x000b, 0x00, 0x08),
    (0x000c, 0x00, 0x08),
    // PF0, PF1, PF2
    (0x000d, 0x10, 0x20),
    (0x000e, 0x01, 0x02),
    (0x000f, 0x01, 0x02),
    // GRP0, GRP1
    (0x001b, 0x01, 0x02),
    (0x001c, 0x01, 0x02),
    // ENAM0, ENAM1, ENABL
    (0x001d, 0x00, 0x02),
    (0x001e, 0x00, 0x02),
    (0x001f, 0x00, 0x02),
    // HMP0, HMP1, HMM0, HMM1, HMBL
    (0x0020, 0x10, 0x20),
    (0x0021, 0x10, 0x20),
    (0x0022, 0x10, 0x20),
    (0x0023, 0x70, 0x80),
    (0x0024, 0x10, 0xf0),
    // VDELP0, VDELP1, VDELBL
    (0x0025, 0x00, 0x01),
    (0x0026, 0x00, 0x01),
    (0x0027, 0x00, 0x01),
    // RESMP0, RESMP1
    (0x0028, 0x00, 0x02),
    (0x0029, 0x00, 0x02),
    (0x00d0, 0x7f, 0xff),
];

/// LDA of the byte, STA of the address, LDA #0, and a jump to itself.
fn store(address: u16, byte: u8) -> [u8; 10] {
    let [low, high] = address.to_le_bytes();
    [0xa9, byte, 0x8d, low, high, 0xa9, 0x00, 0x4c, 0x07, 0xf0]
}

#[test]
fn states_that_differ_in_what_was_stored(rt: HostRuntime) {
    for (address, one, other) in STORES.iter() {
        let (first, second) = (store(*address, *one), store(*address, *other));
        let case = (*address, *one, *other);
        let programs = (first.as_slice(), second.as_slice());
        check_differ(&rt, rt.alloc(), case, programs, 1);
    }
}

/// LDA #2, STA VSYNC, and a byte that halts: the second frame changes nothing but the halt.
#[test]
fn a_halt_is_part_of_the_state(rt: HostRuntime) {
    let cart = program(&rt, rt.alloc(), b"\xa9\x02\x85\x00\x02");
    let before = next(&rt, &cart, State::power_on(&cart), Input::none());
    let halted = next(&rt, &cart, before, Input::none());
    let again = next(&rt, &cart, halted, Input::none());
    let found = [before == halted, halted == before, halted == again];
    check_same(&rt, "a halt", found, [false, false, true]);
}

/// LDA #40, STA VBLANK, and a jump to itself: a press in the second frame stays latched.
#[test]
fn a_latched_press_is_part_of_the_state(rt: HostRuntime) {
    let cart = program(&rt, rt.alloc(), b"\xa9\x40\x85\x01\x4c\x04\xf0");
    let before = next(&rt, &cart, State::power_on(&cart), Input::none());
    let mut left = Input::none();
    left.left.fire = true;
    let mut right = Input::none();
    right.right.fire = true;
    let none = next(&rt, &cart, before, Input::none());
    let one = next(&rt, &cart, before, left);
    let other = next(&rt, &cart, before, right);
    let found = [none == one, none == other, one == other];
    check_same(&rt, "a press", found, [false; 3]);
}
