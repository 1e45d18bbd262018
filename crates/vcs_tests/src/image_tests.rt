//! Images whose code runs where none should stand, and images of one byte.

use crate::carts::{START, Traced, cart_with, check_traces, halt_line, program, traced};
use crate::checks::{check_same, check_that};
use crate::played::frames_of;
use std::alloc::Global;
use std::process::Abort;
use vcs_machine::Cart;

static IN_THE_PORTS: [Traced; 1] = [(
    &[
        (0, b"\xa9\xea\x8d\x81\x02\xa9\xa0\x8d\x80\x02\x4c\x80\x02"),
        START,
    ],
    9,
    b"F000 A9 EA 00 00 FD B4 2\nF002 8D EA 00 00 FD B4 4\nF005 A9 A0 00 00 FD B4 2\n\
    F007 8D A0 00 00 FD B4 4\nF00A 4C A0 00 00 FD B4 3\n0280 B5 00 00 00 FD 36 4\n0282 3F halt\n",
)];

// The latch and the directions of port A are made an instruction, LDA EA,X, which is read from the port.
#[test]
fn code_runs_in_the_ports(rt: HostRuntime) {
    check_traces(&rt, rt.alloc(), 4096, &IN_THE_PORTS);
}

/// A program that never halts, by its name.
type Endless = (&'static str, &'static [u8]);

/// Plays frames of a program that never halts, and returns how many pixels of the last one aren't black.
fn lit_after<R: Abort>(rt: &R, alloc: Global, (name, code): Endless, frames: u32) -> usize {
    let cart = program(rt, alloc, code);
    let (halt, lit) = frames_of(rt, alloc, name, &cart, frames);
    check_same(rt, name, halt, None);
    lit
}

static CIRCLES: [Endless; 3] = [
    ("pushes", b"\x48\x69\x03\x4c\x00\xf0"),
    ("calls", b"\x20\x00\xf0"),
    ("pulls", b"\x68\x28\x4c\x00\xf0"),
];

// Pushes and calls write on all of the TIA and of the RAM, again and again.
#[test]
fn the_stack_runs_in_circles(rt: HostRuntime) {
    for endless in CIRCLES.iter() {
        let _lit = lit_after(&rt, rt.alloc(), *endless, 5);
    }
}

/// Programs that colour the background, and how many pixels of their 30th frame aren't black: a frame ends as soon as vertical
/// sync begins, here after 39 clocks, and else behind line 319, below the picture's last row.
static SYNCS: [(Endless, usize); 3] = [
    (
        (
            "often",
            b"\xa9\x1e\x85\x09\xa9\x02\x85\x00\xa9\x00\x85\x00\x4c\x04\xf0",
        ),
        0,
    ),
    (
        ("always", b"\xa9\x1e\x85\x09\xa9\x02\x85\x00\x4c\x06\xf0"),
        33600,
    ),
    (("never", b"\xa9\x1e\x85\x09\x4c\x04\xf0"), 33600),
];

#[test]
fn frames_end_with_vsync_or_without(rt: HostRuntime) {
    for (endless, wanted) in SYNCS.iter() {
        let lit = lit_after(&rt, rt.alloc(), *endless, 30);
        check_same(&rt, endless.0, lit, *wanted);
    }
}

/// Whether the first instruction of an image of this byte halts, where its address repeats the byte.
fn halts_at_once<R: Abort>(rt: &R, alloc: Global, cart: &Cart, byte: u8) -> bool {
    let halt = halt_line(rt, alloc, u16::from_le_bytes([byte, byte]), byte);
    traced(rt, alloc, cart, 1).as_slice() == halt.as_slice()
}

/// Plays two frames of an image of this byte, and returns whether it starts in the cartridge and halts at once.
fn is_halt<R: Abort>(rt: &R, alloc: Global, byte: u8) -> bool {
    let cart = cart_with(rt, alloc, &[(0, &[byte; 4096])]);
    let (halt, _lit) = frames_of(rt, alloc, byte, &cart, 2);
    // With this bit of the address, A12, the code starts in the cartridge.
    let is_halt = byte & 0x10 != 0 && halts_at_once(rt, alloc, &cart, byte);
    check_that(rt, byte, !is_halt || halt.is_some());
    is_halt
}

#[test]
fn images_of_one_byte(rt: HostRuntime) {
    let alloc = rt.alloc();
    let mut halts = 0u32;
    for byte in 0..=255u8 {
        if is_halt(&rt, alloc, byte) {
            halts = halts.saturating_add(1);
        }
    }
    // 60 of the 105 undocumented bytes have bit 4, A12 of the address.
    check_same(&rt, "halts", halts, 60);
}
