//! Which frames are lag frames, by hand; and that whatever the input of one, the next state and the picture are the same.

use crate::carts::{START, cart_with};
use crate::checks::{check_same, check_that, expect_ok};
use crate::switches::each_switch;
use std::alloc::Global;
use std::process::Abort;
use vcs_machine::{Cart, Input, Meter, State, play, play_for_lag};
use vcs_tia::Picture;

/// A program at F000, and whether its first three frames are lag frames.
type Row = (&'static str, &'static [u8], [bool; 3]);

const LAG: [bool; 3] = [true; 3];

/// Each frame reads the input or keeps a press.
const READS: [bool; 3] = [false; 3];
/// Its first frame alone reads the input or keeps a press; then it stays in a loop, or is halted.
const ONCE: [bool; 3] = [false, true, true];

static ROWS: &[Row] = &[
    ("JMP to itself", &[0x4c, 0x00, 0xf0], LAG),
    ("LDA SWCHA", &[0xad, 0x80, 0x02, 0x4c, 0x00, 0xf0], READS),
    ("LDA SWCHB", &[0xad, 0x82, 0x02, 0x4c, 0x00, 0xf0], READS),
    (
        "LDA SWCHB once",
        &[0xad, 0x82, 0x02, 0x4c, 0x03, 0xf0],
        ONCE,
    ),
    ("LDA SWACNT", &[0xad, 0x81, 0x02, 0x4c, 0x00, 0xf0], LAG),
    ("LDA SWBCNT", &[0xad, 0x83, 0x02, 0x4c, 0x00, 0xf0], LAG),
    ("LDA INTIM", &[0xad, 0x84, 0x02, 0x4c, 0x00, 0xf0], LAG),
    ("LDA 80", &[0xa5, 0x80, 0x4c, 0x00, 0xf0], LAG),
    (
        "LDA 1280 of the cartridge",
        &[0xad, 0x80, 0x12, 0x4c, 0x00, 0xf0],
        LAG,
    ),
    (
        "LDA SWCHA at a mirror",
        &[0xad, 0x98, 0x0f, 0x4c, 0x00, 0xf0],
        READS,
    ),
    ("LDA INPT4", &[0xa5, 0x0c, 0x4c, 0x00, 0xf0], READS),
    (
        "LDA INPT5 at a mirror",
        &[0xa5, 0x3d, 0x4c, 0x00, 0xf0],
        READS,
    ),
    ("LDA INPT3", &[0xa5, 0x0b, 0x4c, 0x00, 0xf0], LAG),
    ("LDA 0E", &[0xa5, 0x0e, 0x4c, 0x00, 0xf0], LAG),
    ("STA SWCHA", &[0x8d, 0x80, 0x02, 0x4c, 0x00, 0xf0], LAG),
    ("INC SWCHA", &[0xee, 0x80, 0x02, 0x4c, 0x00, 0xf0], READS),
    // LDA #FF, STA SWACNT, LDA SWCHA; and the same with #FE
    (
        "SWCHA, all outputs",
        &[
            0xa9, 0xff, 0x8d, 0x81, 0x02, 0xad, 0x80, 0x02, 0x4c, 0x05, 0xf0,
        ],
        LAG,
    ),
    (
        "SWCHA, seven outputs",
        &[
            0xa9, 0xfe, 0x8d, 0x81, 0x02, 0xad, 0x80, 0x02, 0x4c, 0x05, 0xf0,
        ],
        READS,
    ),
    // LDX #0B, TXS, PLA, and a loop: the byte at 10C is pulled
    (
        "PLA of INPT4",
        &[0xa2, 0x0b, 0x9a, 0x68, 0x4c, 0x04, 0xf0],
        ONCE,
    ),
    // Pointers whose bytes are INPT4 and INPT5, and INPT3 and INPT4
    ("LDA (0C),Y", &[0xb1, 0x0c, 0x4c, 0x02, 0xf0], ONCE),
    (
        "LDA (0B,X)",
        &[0xa2, 0x00, 0xa1, 0x0b, 0x4c, 0x04, 0xf0],
        ONCE,
    ),
    // To 00FF, where a BRK in RAM leads to F003
    ("JMP (0280)", &[0x6c, 0x80, 0x02, 0x4c, 0x03, 0xf0], ONCE),
    // FF is no opcode: the machine halts, and then reads nothing
    ("JMP to SWCHA", &[0x4c, 0x80, 0x02], ONCE),
    // BRK at 27F: neither byte after it is read; the vector leads to F003
    (
        "BRK before SWCHA",
        &[0x4c, 0x7f, 0x02, 0x4c, 0x03, 0xf0],
        LAG,
    ),
    // LDA #02, STA VSYNC, LDA #0, STA VSYNC, LDA #42, STA VBLANK, LDA #0, STA VBLANK, again and again
    (
        "latches on and off in each frame",
        &[
            0xa9, 0x02, 0x85, 0x00, 0xa9, 0x00, 0x85, 0x00, 0xa9, 0x42, 0x85, 0x01, 0xa9, 0x00,
            0x85, 0x01, 0x4c, 0x00, 0xf0,
        ],
        LAG,
    ),
    // LDA #40, STA VBLANK; then with LDA #0, STA VBLANK
    (
        "latches on",
        &[0xa9, 0x40, 0x85, 0x01, 0x4c, 0x04, 0xf0],
        READS,
    ),
    (
        "latches on and off",
        &[
            0xa9, 0x40, 0x85, 0x01, 0xa9, 0x00, 0x85, 0x01, 0x4c, 0x08, 0xf0,
        ],
        LAG,
    ),
    // The same with LDA INPT4 between: a latch that is read
    (
        "a latch is read",
        &[
            0xa9, 0x40, 0x85, 0x01, 0xa5, 0x0c, 0xa9, 0x00, 0x85, 0x01, 0x4c, 0x0a, 0xf0,
        ],
        ONCE,
    ),
    // LDA #40, STA VBLANK, and a byte that halts: the latch that a press sets is kept
    (
        "latches on at a halt",
        &[0xa9, 0x40, 0x85, 0x01, 0x02],
        ONCE,
    ),
    (
        "latches on and off before a halt",
        &[0xa9, 0x40, 0x85, 0x01, 0xa9, 0x00, 0x85, 0x01, 0x02],
        LAG,
    ),
    // LDA #42, STA VBLANK, STA VSYNC, and a byte that halts: the second frame begins with D6 on, and halts at once
    (
        "latches on at a halt at the first opcode",
        &[0xa9, 0x42, 0x85, 0x01, 0x85, 0x00, 0x02],
        [false, false, true],
    ),
    // To LDX #01, TXS, BRK at F00D, which pushes F0 to VBLANK and 0F to VSYNC: the frame ends with D6 on. The vector leads to
    // LDA #0, STA VBLANK and a loop, which clear what a press at the second frame's start has latched
    (
        "latches on at a frame's end within BRK",
        &[
            0x4c, 0x0a, 0xf0, 0xa9, 0x00, 0x85, 0x01, 0x4c, 0x07, 0xf0, 0xa2, 0x01, 0x9a, 0x00,
        ],
        ONCE,
    ),
    // The vector leads to a loop: D6 stays on
    (
        "latches stay on after BRK",
        &[
            0x4c, 0x0a, 0xf0, 0x4c, 0x03, 0xf0, 0x00, 0x00, 0x00, 0x00, 0xa2, 0x01, 0x9a, 0x00,
        ],
        READS,
    ),
    // The same at a mirror: BRK pushes 10 to VBLANK, and D6 stays off
    (
        "latches off at a frame's end within BRK",
        &[
            0x4c, 0x0a, 0x10, 0x4c, 0x03, 0xf0, 0x00, 0x00, 0x00, 0x00, 0xa2, 0x01, 0x9a, 0x00,
        ],
        LAG,
    ),
    // JMP to LDX #0A, TXS, RTS, which pulls INPT3 and INPT4 and goes to 8081, where a BRK in RAM leads to F003
    (
        "RTS over INPT4",
        &[0x4c, 0x06, 0xf0, 0x4c, 0x03, 0xf0, 0xa2, 0x0a, 0x9a, 0x60],
        ONCE,
    ),
    // The same with LDX #0D: the bytes at 10E and 10F are pulled
    (
        "RTS beside the buttons",
        &[0x4c, 0x06, 0xf0, 0x4c, 0x03, 0xf0, 0xa2, 0x0d, 0x9a, 0x60],
        LAG,
    ),
    // LDX #09, TXS, RTI pulls INPT2, INPT3 and INPT4 and goes to 8080
    (
        "RTI over INPT4",
        &[0x4c, 0x06, 0xf0, 0x4c, 0x03, 0xf0, 0xa2, 0x09, 0x9a, 0x40],
        ONCE,
    ),
    // LDX #08, TXS, RTI pulls INPT1 to INPT3 and goes to 8080
    (
        "RTI beside the buttons",
        &[0x4c, 0x06, 0xf0, 0x4c, 0x03, 0xf0, 0xa2, 0x08, 0x9a, 0x40],
        LAG,
    ),
    // LDX #0C, TXS, PLP, JMP to itself: the byte at 10D
    (
        "PLP of INPT5",
        &[0xa2, 0x0c, 0x9a, 0x28, 0x4c, 0x04, 0xf0],
        ONCE,
    ),
    // LDX #0A, TXS, PLP: the byte at 10B
    (
        "PLP of INPT3",
        &[0xa2, 0x0a, 0x9a, 0x28, 0x4c, 0x04, 0xf0],
        LAG,
    ),
    // LDA #05, STA TIM64T, then LDA INTIM, BNE until it is 0, whose polls pass at once; then LDA SWCHA, and LDA SWACNT
    (
        "polls of INTIM before LDA SWCHA",
        &[
            0xa9, 0x05, 0x8d, 0x96, 0x02, 0xad, 0x84, 0x02, 0xd0, 0xfb, 0xad, 0x80, 0x02, 0x4c,
            0x00, 0xf0,
        ],
        READS,
    ),
    (
        "polls of INTIM before LDA SWACNT",
        &[
            0xa9, 0x05, 0x8d, 0x96, 0x02, 0xad, 0x84, 0x02, 0xd0, 0xfb, 0xad, 0x81, 0x02, 0x4c,
            0x00, 0xf0,
        ],
        LAG,
    ),
    // LDA #A9, STA SWACNT, LDA #60, STA SWBCNT, JSR 0281: there LDA # takes its byte of SWCHB, and RTS comes back
    (
        "LDA # with its byte in SWCHB",
        &[
            0xa9, 0xa9, 0x8d, 0x81, 0x02, 0xa9, 0x60, 0x8d, 0x83, 0x02, 0x20, 0x81, 0x02, 0x4c,
            0x0d, 0xf0,
        ],
        ONCE,
    ),
];

/// Whether all pixels of two pictures are equal.
fn are_same_pictures(a: &Picture, b: &Picture) -> bool {
    (0..210).all(|row| (0..160).all(|x| a.pixel(row, x) == b.pixel(row, x)))
}

/// Plays a frame of a state with each input and without one, which must come to the same.
fn check_input_is_ignored<R: Abort>(
    rt: &R,
    name: &str,
    cart: &Cart,
    before: &State,
    pictures: &mut (Picture, Picture),
) {
    let mut meter = Meter::new();
    let mut still = *before;
    check_that(rt, name, meter.room() >= 1);
    let halt = play(cart, &mut still, Input::none(), &mut pictures.0, &mut meter);
    for (number, input) in each_switch().iter().enumerate() {
        let mut state = *before;
        check_that(rt, name, meter.room() >= 1);
        let same = play(cart, &mut state, *input, &mut pictures.1, &mut meter);
        check_same(rt, (name, number), same, halt);
        check_that(rt, (name, number), state == still);
        if halt.is_ok() {
            check_that(
                rt,
                (name, number),
                are_same_pictures(&pictures.0, &pictures.1),
            );
        }
    }
}

/// Plays three frames and checks what is said of them, and that the states are those of `play`; of each lag frame, that the
/// input makes no difference.
fn check_row<R: Abort>(
    rt: &R,
    cart: &Cart,
    (name, _, lags): Row,
    pictures: &mut (Picture, Picture),
) {
    let mut state = State::power_on(cart);
    let mut meter = Meter::new();
    for frame in 0..3 {
        let before = state;
        check_that(rt, name, meter.room() >= 1);
        let lag = play_for_lag(cart, &mut state, Input::none(), &mut meter);
        check_same(rt, (name, frame), lag, lags[frame]);
        let mut played = before;
        check_that(rt, name, meter.room() >= 1);
        let _halt = play(
            cart,
            &mut played,
            Input::none(),
            &mut pictures.0,
            &mut meter,
        );
        check_that(rt, (name, frame), state == played);
        if lag {
            check_input_is_ignored(rt, name, cart, &before, pictures);
        }
    }
}

#[test]
fn lag_frames_by_hand(rt: HostRuntime) {
    let alloc = rt.alloc();
    let first = expect_ok(&rt, Picture::blank(alloc));
    let second = expect_ok(&rt, Picture::blank(alloc));
    let mut pictures = (first, second);
    for row in ROWS.iter() {
        let cart = cart_with(&rt, alloc, &[(0, row.1), START, (0xffe, &[0x03, 0xf0])]);
        check_row(&rt, &cart, *row, &mut pictures);
    }
}
