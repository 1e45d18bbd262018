//! The time on the bus, in CPU cycles.
#![tactic(auto)]

ghost use Rattle.std.specs.Prelude.{◌≡◌, ◌+◌, ◌-◌, ◌*◌, ◌%◌, ◌<◌, ◌≤◌, true, false};
ghost use Rattle.vcs_machine.specs.Inside.Times.{
  line_cycles,
  first_time,
  end_time,
  most_frame_clocks,
  most_time,
  most_offset,
};
ghost use Rattle.vcs_tia.specs.Tia.{clock_of, clocks_passed};
ghost use Rattle.vcs_tia.specs.Units.{line_clocks};

use vcs_tia::Tia;

/// How many lines a frame has at most (own).
const MOST_FRAME_LINES: u32 = 320;

/// How many CPU cycles a line has (Stella Programmer's Guide, "Synchronization").
const LINE_CYCLES: u32 = 76;

/// The time at which a frame's lines are over.
pub(crate) const END: u32 = 1 << 31;

/// The time at which a frame's line 0 begins.
const FIRST: u32 = END - MOST_FRAME_LINES * LINE_CYCLES;

/// The offset that brings any time of a frame to `END`.
pub(crate) const LATE: u32 = 1 << 30;

/// The time that a TIA has come to on a frame's lines.
pub(crate) fn time_of(tia: &Tia) -> u32
    requires beam { clocks_passed tia.now < most_frame_clocks }
    requires thirds { clocks_passed tia.now % 3 ≡ 0 }
    ensures time { clocks_passed tia.now + 3 * first_time ≡ 3 * result }
    ensures low { result < end_time }
    ensures clock { clock_of tia.now < line_clocks }
{
    let (line, clock) = tia.beam();
    FIRST + line as u32 * LINE_CYCLES + (clock / 3) as u32
}

/// The time after a wait where one is owed: the one at which the next line begins, or this one where it begins now.
#[inline(always)]
pub(crate) fn after_wait(now: u32, owed: bool) -> u32
    requires first { first_time ≤ now }
    requires low { now < most_time }
    ensures unowed { owed ≡ false → result ≡ now }
    ensures start { owed ≡ true → (result - first_time) % line_cycles ≡ 0 }
    ensures next { now ≤ result }
    ensures near { result < now + line_cycles }
{
    let cycle = (now - FIRST) % LINE_CYCLES;
    if owed && cycle != 0 {
        now + (LINE_CYCLES - cycle)
    } else {
        now
    }
}

/// The offset of the count: `LATE` where VSYNC has ended the frame, else 0.
#[inline(always)]
pub(crate) fn offset_for(rose: bool) -> u32
    ensures late { rose ≡ true → result ≡ most_offset }
    ensures none { rose ≡ false → result ≡ 0 }
    ensures most { result ≤ most_offset }
{
    if rose { LATE } else { 0 }
}
