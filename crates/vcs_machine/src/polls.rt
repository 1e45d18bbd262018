//! Polls of the timer's count and of its flag: where they are, and how many of them can pass at once.
//!
//! Those polls pass that read a count above 0, or no flag, and end before the bus has to settle. Once the flag was
//! cleared after the underflow no cycle sets it again, so then polls pass up to the frame's end. Polls by code in RAM
//! are played one by one: they are rare, and would take one more test of the place.
#![tactic(auto)]

ghost use Rattle.std.specs.Prelude.{◌≡◌, ℕ, ◌+◌, ◌*◌, ◌%◌, ◌<◌, ◌≤◌, true};
ghost use Rattle.vcs_machine.specs.Address.{bus_addresses, is_timer};
ghost use Rattle.vcs_machine.specs.Inside.Waiting.{IsWait, MayWait};
ghost use Rattle.vcs_riot.specs.Chip.{riot_after_ticks};

use crate::address::{Region, selected};
use vcs_cpu::Poll;
use vcs_riot::{Riot, is_high};

/// Whether an address is one of the timer's: INTIM's, which have A0 low, or INSTAT's, which have it high.
#[inline(always)]
fn is_timer(address: u16) -> bool
    ensures { result ≡ is_timer address }
{
    match selected(address) {
        Region::PortsAndTimer => is_high(2, address),
        _ => false,
    }
}

/// Whether polls wait for the timer: for INTIM to show 0, or for INSTAT to show the flag.
#[inline(always)]
pub(crate) fn is_wait(poll: &Poll) -> bool
    ensures { result ≡ true → IsWait poll.now }
{
    is_timer(poll.address) && is_high(0, poll.address) == poll.while_zero
}

/// For how many cycles from now a poll that waits for the timer goes on, and its read changes nothing.
pub(crate) fn cycles_to_wait(riot: &Riot, while_zero: bool) -> u32
    ensures { (n : ℕ) → n < result
        → MayWait while_zero (riot_after_ticks n riot.now).timer }
{
    if while_zero {
        riot.cycles_without_flag()
    } else {
        riot.cycles_above_zero()
    }
}

/// Whether the five bytes from an address on are the cartridge's.
#[inline(always)]
pub(crate) fn is_in_cartridge(pc: u16) -> bool
    ensures first { result ≡ true → 4096 ≤ pc % bus_addresses }
    ensures last { result ≡ true → pc % bus_addresses ≤ 8187 }
    ensures fits { pc < 65536 }
{
    let place = pc % 8192;
    4096 <= place && place <= 8187
}

/// How many polls of `period` cycles can pass within `cycles`: each reads after its first four cycles, and fewer than
/// `to_wait` cycles have passed at each read.
pub(crate) fn polls_within(to_wait: u32, cycles: u16, period: u16) -> u16
    requires { 4 ≤ period }
    ensures reads { (i : ℕ) → i < result → i * period + 4 < to_wait }
    ensures fit { result * period ≤ cycles }
{
    if to_wait <= 4 {
        return 0;
    }
    let reads = (to_wait - 5) / period as u32 + 1;
    let whole = (cycles / period) as u32;
    whole.min(reads) as u16
}
