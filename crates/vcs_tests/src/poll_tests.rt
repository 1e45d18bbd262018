//! Polls of the timer in a frame, and how many cycles INTIM stays above 0 and the flag clear.

use crate::carts::{Part, START, cart_with};
use crate::checks::{check_same, check_that, expect_ok};
use std::alloc::Global;
use std::process::Abort;
use vcs_machine::{Cart, Input, Meter, State, play_for_lag, play_unseen};
use vcs_riot::{Pins, Riot};

/// The byte at 80 after the first frame of a cartridge.
fn first_byte<R: Abort>(rt: &R, cart: &Cart) -> u8 {
    let mut meter = Meter::new();
    let mut state = State::power_on(cart);
    let played = play_unseen(cart, &mut state, Input::none(), &mut meter);
    check_that(rt, "no halt", played.is_ok());
    let [first, ..] = state.ram();
    first
}

/// Sets TIM64T to 3, waits by polls until INTIM is 0, lets 101 cycles pass, and stores what INTIM shows four later.
/// The polls' first byte is at F005 plus the number of NOPs.
const AT_ONCE: &[u8] =
    b"\xa9\x03\x8d\x96\x02\xad\x84\x02\xd0\xfb\xa2\x14\xca\xd0\xfd\xad\x84\x02\x85\x80\xa9\x02\x85\x00";

// The timer is set at cycle 0; INTIM is 2 from cycle 1 on, 1 from 65, 0 from 129 and below 0 from 193. Polls read it at cycles
// 4, 11, 18 and so on: at 130 it is 0. The branch takes 2, LDX 2 and the loop 20 * 5 - 1, so the last LDA reads at 237: 255 - 44.
#[test]
fn polls_of_seven_cycles(rt: HostRuntime) {
    let cart = cart_with(&rt, rt.alloc(), &[(0, AT_ONCE), START]);
    check_same(&rt, "within a page", first_byte(&rt, &cart), 211);
}

// The same with the LDA at F0FC, whose branch goes back over a page's end: polls read at 4, 12, 20 and so on, at 132 a 0. So
// the last LDA reads at 239.
#[test]
fn polls_of_eight_cycles(rt: HostRuntime) {
    let start: Part<'_> = (0xffc, &[0xf7, 0xf0]);
    let cart = cart_with(&rt, rt.alloc(), &[(0xf7, AT_ONCE), start]);
    check_same(&rt, "over a page's end", first_byte(&rt, &cart), 209);
}

/// The same in RAM, to which a loop copies it; there no polls pass at once.
const COPIES: &[u8] = b"\xa2\x17\xbd\x00\xf1\x95\xa0\xca\x10\xf8\x4c\xa0\x00";

#[test]
fn polls_in_ram(rt: HostRuntime) {
    let cart = cart_with(&rt, rt.alloc(), &[(0, COPIES), (0x100, AT_ONCE), START]);
    check_same(&rt, "in RAM", first_byte(&rt, &cart), 211);
}

/// Four of INTIM's addresses and one that shows a 0 of the cartridge, each with what is stored after polls of it. The poll of the
/// 0 is the only one, so the last LDA reads at cycle 4 + 2 + 101 + 4, when INTIM is 1.
static ADDRESSES: [(u16, u8); 5] = [
    (0x0284, 211),
    (0x0294, 211),
    (0x0386, 211),
    (0xee8e, 211),
    (0x1ffb, 1),
];

/// A program that polls an address in place of INTIM.
fn polling<R: Abort>(rt: &R, alloc: Global, address: u16) -> Cart {
    let [low, high] = address.to_le_bytes();
    cart_with(rt, alloc, &[(0, AT_ONCE), (6, &[low, high]), START])
}

#[test]
fn polls_of_other_addresses(rt: HostRuntime) {
    for (address, wanted) in ADDRESSES.iter() {
        let cart = polling(&rt, rt.alloc(), *address);
        let found = first_byte(&rt, &cart);
        check_same(&rt, *address, found, *wanted);
    }
}

/// The same with LDA INSTAT and BEQ: polls wait until the count has gone below 0.
const UNTIL_BELOW: &[u8] =
    b"\xa9\x03\x8d\x96\x02\xad\x85\x02\xf0\xfb\xa2\x14\xca\xd0\xfd\xad\x84\x02\x85\x80\xa9\x02\x85\x00";

// Polls read at 4, 11, 18 and so on; at 193 the count is 255 and the flag set. The last LDA reads at 193 + 2 + 2 + 99 + 4.
#[test]
fn polls_of_the_flag(rt: HostRuntime) {
    let cart = cart_with(&rt, rt.alloc(), &[(0, UNTIL_BELOW), START]);
    check_same(&rt, "within a page", first_byte(&rt, &cart), 148);
}

// Over a page's end they read at 4, 12, 20 and so on, at 196 first with the flag set.
#[test]
fn polls_of_the_flag_of_eight_cycles(rt: HostRuntime) {
    let start: Part<'_> = (0xffc, &[0xf7, 0xf0]);
    let cart = cart_with(&rt, rt.alloc(), &[(0xf7, UNTIL_BELOW), start]);
    check_same(&rt, "over a page's end", first_byte(&rt, &cart), 145);
}

// TIM1T is set to 0, so the flag is set at cycle 1. A poll reads it at 4, and the last LDA reads at 111.
#[test]
fn poll_of_a_flag_that_is_set(rt: HostRuntime) {
    let parts: &[Part<'_>] = &[(0, UNTIL_BELOW), (0, b"\xa9\x00\x8d\x94"), START];
    let cart = cart_with(&rt, rt.alloc(), parts);
    check_same(&rt, "one poll", first_byte(&rt, &cart), 145);
}

/// Three of INSTAT's addresses and one of the cartridge that shows another byte than 0, each with what is stored after polls of
/// it by BEQ. There the first poll is the only one, so the last LDA reads at cycle 111, when INTIM is 1.
static FLAG_ADDRESSES: [(u16, u8); 4] = [(0x0295, 148), (0x0387, 148), (0xee8f, 148), (0x1005, 1)];

#[test]
fn polls_of_other_addresses_by_beq(rt: HostRuntime) {
    for (address, wanted) in FLAG_ADDRESSES.iter() {
        let [low, high] = address.to_le_bytes();
        let parts: &[Part<'_>] = &[(0, UNTIL_BELOW), (6, &[low, high]), START];
        let cart = cart_with(&rt, rt.alloc(), parts);
        let found = first_byte(&rt, &cart);
        check_same(&rt, *address, found, *wanted);
    }
}

/// Programs that wait for longer than a frame, and what 80 holds after twelve frames. Each adds 1 to it after its polls.
/// A frame without VSYNC has 320 * 76 = 24,320 cycles, twelve have 291,840.
static ACROSS_FRAMES: [(&str, &[u8], u8); 5] = [
    // T1024T is 60: the flag is set 61,441 cycles later, and a round of 61,459 cycles goes by polls of 7: it ends four times.
    (
        "the flag, again and again",
        b"\xa9\x3c\x8d\x97\x02\xad\x85\x02\xf0\xfb\xe6\x80\x4c\x00\xf0",
        4,
    ),
    // The count is read at 9 cycles after the underflow, which clears the flag: no poll ends.
    (
        "a flag that was cleared",
        b"\xa9\x00\x8d\x94\x02\xad\x84\x02\xad\x85\x02\xf0\xfb\xe6\x80\x4c\x08\xf0",
        0,
    ),
    // As it is switched on the count is 0, with 1,024 cycles left; then the flag stays set.
    (
        "the flag of power-on",
        b"\xad\x85\x02\xf0\xfb\xe6\x80\xa9\x00\x8d\x97\x02\xad\x85\x02\xd0\xfb\x4c\x0c\xf0",
        1,
    ),
    // By BNE: INTIM is 0 from 60,417 cycles on, so a round has 60,437 cycles.
    (
        "the count, again and again",
        b"\xa9\x3c\x8d\x97\x02\xad\x84\x02\xd0\xfb\xe6\x80\x4c\x00\xf0",
        4,
    ),
    // INTIM is 0 for the first 1,024 cycles; then JMP goes to itself.
    (
        "the count by BEQ",
        b"\xad\x84\x02\xf0\xfb\xe6\x80\x4c\x07\xf0",
        1,
    ),
];

// Frames looked at for lag are played instruction by instruction until the input is read, which never happens here.
#[test]
fn polls_across_frames(rt: HostRuntime) {
    for (name, bytes, wanted) in ACROSS_FRAMES.iter() {
        let cart = cart_with(&rt, rt.alloc(), &[(0, *bytes), START]);
        let mut meter = Meter::new();
        let mut state = State::power_on(&cart);
        let mut stepped = state;
        for frame in 0..12u32 {
            check_that(&rt, "meter", meter.room() >= 2);
            let played = play_unseen(&cart, &mut state, Input::none(), &mut meter);
            let lag = play_for_lag(&cart, &mut stepped, Input::none(), &mut meter);
            check_that(&rt, (*name, frame), played.is_ok() && lag);
            check_that(&rt, (*name, "state", frame), state == stepped);
        }
        let [first, ..] = state.ram();
        check_same(&rt, *name, first, *wanted);
    }
}

/// For how many cycles INTIM is above 0 by single ticks.
fn counted_cycles(riot: &Riot, pins: &Pins) -> u32 {
    let mut later = *riot;
    let mut cycles = 0u32;
    for _ in 0..3000u32 {
        if later.read(0x284, pins) == 0 {
            return cycles;
        }
        later.tick(1);
        cycles = cycles.saturating_add(1);
    }
    cycles
}

/// The timer's addresses, a count for each, and for how many cycles it is above 0: one, and those of all its intervals but the
/// last.
static ABOVE_ZERO: [(u16, u8, u32); 6] = [
    (0x294, 0, 0),
    (0x294, 1, 1),
    (0x294, 200, 200),
    (0x295, 3, 17),
    (0x296, 20, 1217),
    (0x297, 3, 2049),
];

#[test]
fn cycles_above_zero(rt: HostRuntime) {
    let pins = Pins { a: 0xff, b: 0x3f };
    for (address, count, wanted) in ABOVE_ZERO.iter() {
        let mut riot = Riot::new();
        riot.write(*address, *count);
        check_same(&rt, *address, riot.cycles_above_zero(), *wanted);
        check_same(&rt, *address, counted_cycles(&riot, &pins), *wanted);
    }
    let mut below = Riot::new();
    below.write(0x294, 2);
    below.tick(5);
    check_same(&rt, "below 0", below.cycles_above_zero(), 0);
}

/// For how many cycles INSTAT shows no flag by single ticks.
fn cycles_counted_without_flag(riot: &Riot, pins: &Pins) -> u32 {
    let mut later = *riot;
    let mut cycles = 0u32;
    for _ in 0..4000u32 {
        if later.read(0x285, pins) != 0 {
            return cycles;
        }
        later.tick(1);
        cycles = cycles.saturating_add(1);
    }
    cycles
}

/// The timer's addresses, a count for each, and for how many cycles the flag is clear: one, and those of all its intervals.
static WITHOUT_FLAG: [(u16, u8, u32); 6] = [
    (0x294, 0, 1),
    (0x294, 1, 2),
    (0x294, 200, 201),
    (0x295, 3, 25),
    (0x296, 20, 1281),
    (0x297, 3, 3073),
];

#[test]
fn cycles_without_flag(rt: HostRuntime) {
    let pins = Pins { a: 0xff, b: 0x3f };
    for (address, count, wanted) in WITHOUT_FLAG.iter() {
        let mut riot = Riot::new();
        check_same(&rt, "power-on", riot.cycles_without_flag(), 1024);
        riot.write(*address, *count);
        check_same(&rt, *address, riot.cycles_without_flag(), *wanted);
        check_same(
            &rt,
            *address,
            cycles_counted_without_flag(&riot, &pins),
            *wanted,
        );
    }
    let mut below = Riot::new();
    below.write(0x294, 2);
    below.tick(5);
    check_same(&rt, "set", below.cycles_without_flag(), 0);
    check_same(&rt, "the count", below.load(0x284, &pins), 253);
    check_same(&rt, "cleared", below.cycles_without_flag(), u32::MAX);
    check_same(
        &rt,
        "not again",
        cycles_counted_without_flag(&below, &pins),
        4000,
    );
    below.write(0x294, 2);
    check_same(&rt, "set anew", below.cycles_without_flag(), 3);
}
