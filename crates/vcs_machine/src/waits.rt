//! Waits of WSYNC on the bus: noted on the TIA and passed once the instruction is over, or passed at once.
#![tactic(auto)]

ghost use Rattle.std.specs.Prelude.{◌≡◌, ℕ, ◌+◌, ◌*◌, ◌<◌, ◌≤◌, true, false};
ghost use Rattle.vcs_cpu.specs.Runs.{SettledFrom};
ghost use Rattle.vcs_machine.specs.Bus.{after_time, after_wait};
ghost use Rattle.vcs_machine.specs.Frame.{is_frame_over};
ghost use Rattle.vcs_machine.specs.Inside.Chips.{after_tia_write};
ghost use Rattle.vcs_machine.specs.Inside.Console.{content_of, fixed_of, now_of, settles_of};
ghost use Rattle.vcs_machine.specs.Inside.Times.{line_cycles, end_time};

use crate::bus::ConsoleBus;
use crate::frame::is_frame_over;
use crate::observer::Observer;
use crate::times::{END, after_wait, offset_for};

/// The lowest address of WSYNC, where programs write it; at its mirrors the wait is noted.
const WSYNC: u16 = 2;

impl<O: Observer> ConsoleBus<'_, O> {
    /// If a wait is owed, lets it pass. Returns whether the frame is over.
    #[inline(never)]
    pub fn settle_chips(&mut self) -> bool
        requires { now_of self.old < end_time + line_cycles }
        ensures content { content_of self.new ≡ after_wait O.observe (content_of self.old) }
        ensures over { result ≡ is_frame_over (content_of self.new).board.tia }
        ensures low { result ≡ false → now_of self.new < end_time }
        ensures fixed { fixed_of self.new ≡ fixed_of self.old }
    {
        self.wait();
        is_frame_over(self)
    }

    /// If a WSYNC asked for a wait, lets it pass. Where the bus is to settle for no reason, nothing is done.
    #[inline(always)]
    pub fn wait_if_due(&mut self)
        requires { now_of self.old < end_time + line_cycles }
        ensures content { content_of self.new ≡ after_wait O.observe (content_of self.old) }
        ensures fixed { fixed_of self.new ≡ fixed_of self.old }
    {
        if self.count >= END {
            self.wait();
        }
    }

    /// If a WSYNC asked for a wait, lets it pass.
    fn wait(&mut self)
        requires { now_of self.old < end_time + line_cycles }
        ensures content { content_of self.new ≡ after_wait O.observe (content_of self.old) }
        ensures fixed { fixed_of self.new ≡ fixed_of self.old }
    {
        let now = self.count - self.offset;
        let owed = self.tia.take_wait();
        let then = after_wait(now, owed);
        // Where VSYNC has ended the frame, the bus is still to settle.
        let offset = offset_for(self.tia.rose());
        self.offset = offset;
        self.count = then + offset;
    }

    /// Whether a store to this address asks for a wait that can pass at once: the bus isn't to settle anyway. `false` proves
    /// nothing.
    #[inline(always)]
    pub fn can_pass_wait(&self, address: u16) -> bool
        ensures wsync { result ≡ true → address ≡ WSYNC }
        ensures offset { result ≡ true → self.now.offset ≡ 0 }
    {
        address == WSYNC && self.offset == 0
    }

    /// Lets a store to WSYNC pass, of any byte, and its wait: the next line begins. What the write and the settling after it
    /// leave is the same. Returns whether the frame is over.
    #[inline(always)]
    pub fn pass_wait_of_store(&mut self, cycles: u8) -> bool
        requires offset { self.old.offset ≡ 0 }
        requires low { self.old.count < end_time }
        requires most { cycles ≤ 7 }
        ensures settled { (value : ℕ) → SettledFrom content_of settles_of
            (after_tia_write WSYNC value
            (after_time O.observe cycles (3 * cycles) (content_of self.old))) self.new result }
        ensures low { result ≡ false → now_of self.new < end_time }
        ensures fixed { fixed_of self.new ≡ fixed_of self.old }
    {
        self.count = after_wait(self.count + cycles as u32, true);
        self.count >= END
    }
}
