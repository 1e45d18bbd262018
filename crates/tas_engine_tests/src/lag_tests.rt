//! `tas lag`. Its rows were found by hand, those of the last three cartridges and the digests by other programs
//! (`oracle/look`).

use crate::checks::expect_ok;
use crate::movies::{BLANK, HALTING, HALTING_DIGEST, NO_FRAMES, STORES, image_of, text_of};
use crate::ran::{Engine, check_fault, check_ran, run_on};
use std::alloc::Global;
use std::process::Abort;
use tas_engines::{RunFault, ToolFault};

/// Reads the sticks in each fourth frame: INC 80, LDA 80, AND #3, BNE F00B, LDA 280, LDA #2, STA VSYNC, LDA #0, STA VSYNC, JMP F000.
const FOURTH: &[u8] =
    b"\xe6\x80\xa5\x80\x29\x03\xd0\x03\xad\x80\x02\xa9\x02\x85\x00\xa9\x00\x85\x00\x4c\x00\xf0";

/// The SHA-256 of its cartridge.
const FOURTH_DIGEST: &str = "8eebbc0eed08fe2bdc687927fea9d44c3840e460081cb8f33387185bd8766659";

/// Reads the sticks, and halts at F007 where the left one is held right: INC 80, LDA 280, BMI F008, 02, JMP F000.
const STOPS: &[u8] = b"\xe6\x80\xad\x80\x02\x30\x01\x02\x4c\x00\xf0";

/// The SHA-256 of its cartridge.
const STOPS_DIGEST: &str = "d6e713bc50ccd20c6a27ef22630c568c760c7b130a7c788917dfd741c815fee0";

/// Reads the sticks in each frame, each second time with all eight pins as outputs: INC 80, LDA 80, AND #1, BEQ F008, LDA #FF, STA 281,
/// LDA 280, LDA #2, STA VSYNC, LDA #0, STA VSYNC, JMP F000.
const OUTPUTS: &[u8] =
    b"\xe6\x80\xa5\x80\x29\x01\xf0\x02\xa9\xff\x8d\x81\x02\xad\x80\x02\xa9\x02\x85\x00\xa9\x00\x85\x00\x4c\x00\xf0";

/// The SHA-256 of its cartridge.
const OUTPUTS_DIGEST: &str = "54dfa5ab01fa6613edfb044f13ad615873cd7ec57f268f483d905d9e8cb771aa";

/// Latches the fire buttons in four frames of eight: INC 80, LDA 80, ASL four times, AND #40, STA VBLANK, LDA #2, STA VSYNC, LDA #0,
/// STA VSYNC, JMP F000.
const LATCHES: &[u8] =
    b"\xe6\x80\xa5\x80\x0a\x0a\x0a\x0a\x29\x40\x85\x01\xa9\x02\x85\x00\xa9\x00\x85\x00\x4c\x00\xf0";

/// The SHA-256 of its cartridge.
const LATCHES_DIGEST: &str = "bbc036c16d02e236816b588fa420bbaabc4232588793700366f502a305738f02";

/// Reads the right fire button at 3D in four frames of eight: INC 80, LDA 80, AND #4, BEQ F008, LDA 3D, LDA #2, STA VSYNC, LDA #0,
/// STA VSYNC, JMP F000.
const BUTTON: &[u8] =
    b"\xe6\x80\xa5\x80\x29\x04\xf0\x02\xa5\x3d\xa9\x02\x85\x00\xa9\x00\x85\x00\x4c\x00\xf0";

/// The SHA-256 of its cartridge.
const BUTTON_DIGEST: &str = "4edf4e1cfbc2abe8d2737ce18acdc90330547823ff208a4fe55de921afb7b06a";

/// Cartridges, the frames of a movie, and the lines of its lag frames.
static ROWS: [(&[u8], &str, &[u8], &[u8]); 11] = [
    (FOURTH, FOURTH_DIGEST, b"", b""),
    (FOURTH, FOURTH_DIGEST, b".", b"0 1\n"),
    (FOURTH, FOURTH_DIGEST, b"R..", b"0 3\n"),
    (FOURTH, FOURTH_DIGEST, b"....", b"0 3\n"),
    (FOURTH, FOURTH_DIGEST, b"..R.R", b"0 3\n4 5\n"),
    (FOURTH, FOURTH_DIGEST, b".........", b"0 3\n4 7\n8 9\n"),
    // The third frame reads the stick and halts.
    (STOPS, STOPS_DIGEST, b"..R...", b"3 6\n"),
    (HALTING, HALTING_DIGEST, b"......", b"0 6\n"),
    (OUTPUTS, OUTPUTS_DIGEST, b"......", b"0 1\n2 3\n4 5\n"),
    (LATCHES, LATCHES_DIGEST, b"............", b"0 3\n7 11\n"),
    (BUTTON, BUTTON_DIGEST, b"...........", b"0 3\n7 11\n"),
];

#[test]
fn stretches_of_lag_frames(rt: HostRuntime) {
    let alloc = rt.alloc();
    for (row, (program, digest, frames, lines)) in ROWS.iter().enumerate() {
        let cart = image_of(&rt, alloc, program);
        let text = text_of(&rt, alloc, digest, frames);
        let ran = run_on(alloc, Engine::Lag, cart.as_slice(), text.as_slice());
        check_ran(&rt, row, ran, lines);
    }
}

/// The text of the longest movie of a cartridge, in which nothing is pressed.
fn longest_text<R: Abort>(rt: &R, alloc: Global, digest: &str) -> Vec<u8> {
    let text = expect_ok(
        rt,
        format!(in alloc; "a26movie 2\ncart {digest}\n..... ..... ..... x262144\n"),
    );
    expect_ok(rt, Vec::from_slice(alloc, text.as_bytes()))
}

/// The lines of its lag frames, where each fourth frame is none.
fn all_but_each_fourth<R: Abort>(rt: &R, alloc: Global) -> Vec<u8> {
    let mut lines = Vec::new(alloc);
    for stretch in 0..65_536u32 {
        let from = stretch.saturating_mul(4);
        let to = from.saturating_add(3);
        let line = expect_ok(rt, format!(in alloc; "{from} {to}\n"));
        expect_ok(rt, lines.extend_from_slice(line.as_bytes()));
    }
    lines
}

/// 262,144 frames are no reason to be out of memory, with one stretch or with 65,536.
#[test]
fn lag_frames_of_the_longest_movie(rt: HostRuntime) {
    let alloc = rt.alloc();
    let cart = image_of(&rt, alloc, HALTING);
    let text = longest_text(&rt, alloc, HALTING_DIGEST);
    let ran = run_on(alloc, Engine::Lag, cart.as_slice(), text.as_slice());
    check_ran(&rt, "halted", ran, b"0 262144\n");
    let cart = image_of(&rt, alloc, FOURTH);
    let text = longest_text(&rt, alloc, FOURTH_DIGEST);
    let ran = run_on(alloc, Engine::Lag, cart.as_slice(), text.as_slice());
    let lines = all_but_each_fourth(&rt, alloc);
    check_ran(&rt, "each fourth", ran, lines.as_slice());
}

#[test]
fn lag_frames_of_wrong_inputs(rt: HostRuntime) {
    let alloc = rt.alloc();
    let ran = run_on(alloc, Engine::Lag, STORES, NO_FRAMES);
    check_fault(&rt, "size", ran, ToolFault::Run(RunFault::Size(7)));
    let ran = run_on(alloc, Engine::Lag, &BLANK, NO_FRAMES);
    check_ran(&rt, "no frames", ran, b"");
}
