//! Code in the registers of the TIA and of the RIOT, stacks that start at each place, and frames of two instructions.

use crate::carts::{START, Traced, cart_with, check_lines, check_traces, filled, program};
use crate::checks::{check_same, check_that, expect_ok};
use crate::played::frames_of;
use std::alloc::Global;
use std::process::Abort;
use vcs_cpu::Halt;
use vcs_machine::Cart;

/// What is read right after power-on with nothing pressed, outside the cartridge: from the TIA, the RAM, the ports or the
/// timer. (docs/MACHINE.md, sections 3, 5 and 6)
fn first_read(address: u16) -> u8 {
    if address & 0x80 == 0 {
        return if (8..14).contains(&(address & 0x0f)) {
            0x80
        } else {
            0
        };
    }
    match address & 0x207 {
        0x200 => 0xff,
        0x202 => 0x3f,
        _ => 0,
    }
}

/// The trace of a jump to an address and of what stands there: BRK, which goes back to the jump, or no instruction.
fn jump_lines<R: Abort>(rt: &R, alloc: Global, address: u16) -> Vec<u8> {
    let [low, high] = address.to_le_bytes();
    let opcode = first_read(address);
    let lines: &[u8] = if opcode == 0 {
        b"F000 4C 00 00 00 FD 34 3\n++-- 00 00 00 00 FA 34 7\nF000 4C 00 00 00 FA 34 3\n"
    } else {
        b"F000 4C 00 00 00 FD 34 3\n++-- ?? halt\n"
    };
    let bytes = [(b'+', high), (b'-', low), (b'?', opcode)];
    filled(rt, alloc, lines, &bytes)
}

/// The cartridge that jumps to an address, and to its start again at BRK.
fn jump_to<R: Abort>(rt: &R, alloc: Global, address: u16) -> Cart {
    let [low, high] = address.to_le_bytes();
    let vectors: &[u8] = &[0x00, 0xf0, 0x00, 0xf0];
    cart_with(rt, alloc, &[(0, &[0x4c, low, high]), (0xffc, vectors)])
}

fn check_jump<R: Abort>(rt: &R, alloc: Global, address: u16) {
    let cart = jump_to(rt, alloc, address);
    let lines = jump_lines(rt, alloc, address);
    check_lines(rt, alloc, address, &cart, (3, lines.as_slice()));
}

#[test]
fn code_runs_at_each_address(rt: HostRuntime) {
    for number in 0..0x180u16 {
        let address = if number < 0x100 {
            number
        } else {
            number + 0x180
        };
        check_jump(&rt, rt.alloc(), address);
    }
}

fn check_frames_at<R: Abort>(rt: &R, alloc: Global, address: u16) {
    let cart = jump_to(rt, alloc, address);
    let (halt, _lit) = frames_of(rt, alloc, address, &cart, 2);
    // A latch may become another instruction, so BRK may come to a halt too.
    check_that(rt, address, halt.is_some() || first_read(address) == 0);
}

/// The addresses of the TIA's sixteen registers, the RAM's first byte, the ports' four and the timer's two; the others show the
/// same ones again.
static FRAMES_AT: [u16; 23] = [
    0x00, 0x01, 0x02, 0x03, 0x04, 0x05, 0x06, 0x07, 0x08, 0x09, 0x0a, 0x0b, 0x0c, 0x0d, 0x0e, 0x0f,
    0x80, 0x280, 0x281, 0x282, 0x283, 0x284, 0x285,
];

// Where BRK stands it writes all over the TIA and the RAM, again and again.
#[test]
fn frames_of_code_at_each_register(rt: HostRuntime) {
    for address in FRAMES_AT.iter() {
        check_frames_at(&rt, rt.alloc(), *address);
    }
}

static IN_THE_TIMER: [Traced; 1] = [(
    &[(0, b"\xa9\xeb\x8d\x97\x02\x4c\x84\x02"), START],
    5,
    b"F000 A9 EB 00 00 FD B4 2\nF002 8D EB 00 00 FD B4 4\nF005 4C EB 00 00 FD B4 3\n\
    0284 EA EB 00 00 FD B4 2\n0285 00 EB 00 00 FA B4 7\n",
)];

// The timer is set to EB with one cycle left, so that its count is EA, NOP, for the next 1,024; it has not underflowed, so
// its other register reads 0, BRK.
#[test]
fn code_runs_in_the_timer(rt: HostRuntime) {
    check_traces(&rt, rt.alloc(), 4096, &IN_THE_TIMER);
}

static IN_THE_LATCHES: [Traced; 1] = [(
    &[
        (0, b"\xa2\xff\x86\x1b\x86\x1f\x86\x0d\x86\x02\x4c\x02\x00"),
        START,
    ],
    8,
    b"F000 A2 00 FF 00 FD B4 2\nF002 86 00 FF 00 FD B4 3\nF004 86 00 FF 00 FD B4 3\n\
    F006 86 00 FF 00 FD B4 3\nF008 86 00 FF 00 FD B4 3\nF00A 4C 00 FF 00 FD B4 3\n\
    0002 C0 00 FF 00 FD 37 2\n0004 00 00 FF 00 FA 37 7\n",
)];

// Player 0, ball and playfield meet on pixel 0 of line 0. So two latches of one byte are set, which is C0: CPY with the next
// byte, where none is.
#[test]
fn code_runs_in_the_collision_latches(rt: HostRuntime) {
    check_traces(&rt, rt.alloc(), 4096, &IN_THE_LATCHES);
}

/// The status byte after a load of a value at power-on: N, I and Z.
fn status_of(value: u8) -> u8 {
    0x34 | value & 0x80 | if value == 0 { 2 } else { 0 }
}

/// The trace of LDX, TXS, LDA 5A, PHA, PLA and no instruction, with the stack at this place of page 1: the RAM is its upper
/// half, and the TIA, which doesn't show what is written, its lower one.
fn stack_lines<R: Abort>(rt: &R, alloc: Global, place: u8) -> Vec<u8> {
    let before = status_of(place);
    let pulled = if place < 0x80 {
        first_read(u16::from(place))
    } else {
        0x5a
    };
    let bytes = [
        (b'#', place),
        (b'-', place.wrapping_sub(1)),
        (b'?', before),
        (b'+', pulled),
        (b'!', status_of(pulled)),
    ];
    let lines: &[u8] = b"F000 A2 00 ## 00 FD ?? 2\nF002 9A 00 ## 00 ## ?? 2\n\
        F003 A9 5A ## 00 ## 34 2\nF005 48 5A ## 00 -- 34 3\n\
        F006 68 ++ ## 00 ## !! 4\nF007 02 halt\n";
    filled(rt, alloc, lines, &bytes)
}

fn check_stack<R: Abort>(rt: &R, alloc: Global, place: u8) {
    let cart = program(
        rt,
        alloc,
        &[0xa2, place, 0x9a, 0xa9, 0x5a, 0x48, 0x68, 0x02],
    );
    let lines = stack_lines(rt, alloc, place);
    check_lines(rt, alloc, place, &cart, (9, lines.as_slice()));
    let _played = frames_of(rt, alloc, place, &cart, 2);
}

#[test]
fn stacks_start_at_each_place(rt: HostRuntime) {
    for place in 0..=255u8 {
        check_stack(&rt, rt.alloc(), place);
    }
}

/// After two loads 1,000 pairs of STA VSYNC, by which it rises and a frame ends, and STX VSYNC, and then no instruction.
fn vsync_pairs<R: Abort>(rt: &R, alloc: Global) -> Cart {
    let mut code = Vec::new(alloc);
    expect_ok(rt, code.extend_from_slice(b"\xa9\x02\xa2\x00"));
    for _ in 0..1000u32 {
        expect_ok(rt, code.extend_from_slice(b"\x85\x00\x86\x00"));
    }
    expect_ok(rt, code.push(0x02));
    program(rt, alloc, &code)
}

// 1,000 frames end, and the next one halts after the last pair.
#[test]
fn each_instruction_writes_vsync(rt: HostRuntime) {
    let alloc = rt.alloc();
    let cart = vsync_pairs(&rt, alloc);
    let halt = Halt::Undocumented {
        at: 0xffa4,
        opcode: 2,
    };
    for (frames, wanted) in [(1000, None), (1001, Some(halt))] {
        let (found, _lit) = frames_of(&rt, alloc, frames, &cart, frames);
        check_same(&rt, ("after", frames), found, wanted);
    }
}
