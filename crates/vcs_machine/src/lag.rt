//! Lag frames: frames whose input nothing reads.
//!
//! A frame is run with an observer that watches: the processor's run stops before the first instruction that reads an
//! address which shows the input. The addresses follow from registers and memory alone, and whether a read there shows
//! the input doesn't change before the instruction's writes. So a frame whose run doesn't stop is a lag frame unless it
//! keeps a press. One that stops isn't, and its rest is played as any other frame, on a new bus; nothing is played twice.
//! With any other observer a run never stops, and the compiler leaves the test out: `play` pays nothing.
//!
//! Three bytes are fetched for an instruction, but only the reads of its definition count. VBLANK's D6 counts at the
//! frame's end alone: a latch that is set and not read is there in the next frame, and the write that turns D6 off
//! clears it.
#![tactic(auto)]

ghost use Rattle.std.specs.Prelude.{◌≡◌, ℕ, ◌+◌, ◌%◌, ◌^◌, ◌<◌, List, [], ◌++◌, true, false, length, Some};
ghost use Rattle.vcs_tia.specs.Beam.{most_beam_clocks};
ghost use Rattle.vcs_machine.specs.Address.{selected, is_ram};
ghost use Rattle.vcs_machine.specs.Bus.{observed_of, nothing_seen};
ghost use Rattle.vcs_inputs.specs.Cart.{is_cart_size};
ghost use Rattle.vcs_machine.specs.Inside.Console.{chips_of, content_of, fixed_of, now_of};
ghost use Rattle.vcs_machine.specs.Inside.Times.{end_time, most_frame_clocks};
ghost use Rattle.vcs_machine.specs.Frame.{most_instructions, end_within, is_frame_over};
ghost use Rattle.vcs_machine.specs.Lag.{is_ignored_within, is_lag_frame, IsSameFrame};
ghost use Rattle.vcs_machine.specs.Machine.{frame};
ghost use Rattle.vcs_machine.specs.Inside.Noting.{Says};
ghost use Rattle.vcs_inputs.specs.declared.input.Input.{Input};
ghost use Rattle.vcs_tia.specs.Tia.{clocks_passed, shows_button, vsync_rose};
ghost use Rattle.vcs_tia.specs.Units.{line_clocks};

use crate::address::{Region, is_ram, selected};
use crate::bus::ConsoleBus;
use crate::frame::{MOST_INSTRUCTIONS, is_frame_over};
use crate::meter::Meter;
use crate::observer::{Nobody, Observer};
use crate::playback::run_chips;
use crate::state::State;
use std::alloc::Allocator;
use vcs_cpu::{Halt, Regs, Watch, run_until_over};
use vcs_inputs::{Cart, Input};
use vcs_riot::{Pins, Riot, is_high};
use vcs_tia::Tia;

/// One that sees nothing, and with which a run stops before an instruction that reads the input.
#[derive(Drop)]
struct Watcher;

impl Observer for Watcher {
    ghost use Rattle.std.specs.Prelude.{true};
    ghost use Rattle.vcs_machine.specs.Bus.{nothing_seen};

    ghost Seen = { Unit {0} };

    ghost seen = { λ _. tt };

    ghost watches = { true };

    ghost observe = { nothing_seen };

    fn advance(&mut self, tia: &mut Tia, clocks: u16) {
        tia.pass(clocks);
    }

    #[inline(always)]
    fn looks(&self) -> bool {
        false
    }

    #[inline(always)]
    fn watches(&self) -> bool {
        true
    }

    ghost use Rattle.std.specs.Prelude.{refl};

    ghost observe_alike = { λ n t u s e. refl };

    ghost observe_nil = { λ s. refl };

    ghost observe_append = { λ xs ys s. refl };
}

impl<O: Observer> Watch for ConsoleBus<'_, O> {
    ghost use Rattle.std.specs.Prelude.{◌&&◌};
    ghost use Rattle.vcs_machine.specs.Inside.Console.{content_of};
    ghost use Rattle.vcs_machine.specs.Lag.{shows_input};

    ghost is_watched = { λ b address. O.watches && shows_input (content_of b).board address };

    #[inline(always)]
    fn watches(&self) -> bool {
        self.observer.watches()
    }

    #[inline(always)]
    fn may_watch_code(&self, pc: u16) -> bool {
        // The bytes after the cartridge's last ones and after RAM's are the TIA's first ones, which show no input.
        if is_high(12, pc) {
            return false;
        }
        may_show_input(pc)
    }

    #[inline(always)]
    fn is_watched(&self, address: u16) -> bool {
        if !self.observer.watches() {
            return false;
        }
        match selected(address) {
            Region::Cartridge | Region::Ram => false,
            Region::PortsAndTimer => self.riot.shows_pin(address),
            Region::Tia => shows_button(address),
        }
    }
}

/// Whether a byte at an address that isn't the cartridge's may show the input: RAM's don't. A call of its own, since code is
/// mostly the cartridge's.
#[inline(never)]
fn may_show_input(address: u16) -> bool
    ensures { result ≡ false → is_ram (selected address) ≡ true }
{
    !is_ram(address)
}

/// Whether a read of the TIA at this address shows a fire button: INPT4 and INPT5
/// (Stella Programmer's Guide, "Input Ports").
#[inline(always)]
fn shows_button(address: u16) -> bool
    ensures { result ≡ shows_button address }
{
    let low = address % 16;
    low == 12 || low == 13
}

/// Runs instructions until the frame ends, or until the next one reads the input. Returns the halt that ended the frame if
/// one did, and whether the frame has ended. Then the chips don't lag behind any more. The observer watches.
fn run_unread<O: Observer>(regs: &mut Regs, bus: &mut ConsoleBus<'_, O>) -> (Option<Halt>, bool)
    requires watches { O.watches ≡ true }
    requires low { now_of bus.old < end_time }
    requires begun { is_frame_over (content_of bus.old).board.tia ≡ false }
    ensures says { Says O.observe
        (end_within O.observe most_instructions regs.old (content_of bus.old))
        (is_ignored_within O.observe most_instructions regs.old (content_of bus.old))
        result.1
        (record { regs = regs.new; content = chips_of bus.new; halt = result.0 }) }
    ensures low { result.1 ≡ false → clocks_passed bus.new.tia.now < most_frame_clocks }
    ensures thirds { clocks_passed bus.new.tia.now % 3 ≡ 0 }
    ensures fixed { fixed_of bus.new ≡ fixed_of bus.old }
{
    let halt = run_until_over(regs, bus, MOST_INSTRUCTIONS);
    let ended = halt.is_some() | is_frame_over(bus);
    bus.catch_up();
    (halt, ended)
}

/// Runs the chips on a bus of their own in the same way.
fn run_chips_unread(
    rom: &[u8],
    pins: Pins,
    regs: &mut Regs,
    riot: &mut Riot,
    tia: &mut Tia,
) -> (Option<Halt>, bool)
    requires rom_size { is_cart_size (length rom.now) ≡ true }
    requires beam { clocks_passed tia.old < line_clocks }
    requires thirds { clocks_passed tia.old % 3 ≡ 0 }
    requires begun { vsync_rose tia.old ≡ false }
    ensures says { Says nothing_seen
        (end_within nothing_seen most_instructions regs.old
        (observed_of rom.now pins riot.old tia.old tt))
        (is_ignored_within nothing_seen most_instructions regs.old
        (observed_of rom.now pins riot.old tia.old tt))
        result.1
        (record {
          regs = regs.new;
          content = observed_of rom.now pins riot.new tia.new tt;
          halt = result.0;
        }) }
    ensures low { result.1 ≡ false → clocks_passed tia.new < most_frame_clocks }
    ensures thirds { clocks_passed tia.new % 3 ≡ 0 }
{
    let mut watcher = Watcher;
    let mut bus = ConsoleBus::new(rom, regs.pc, pins, riot, tia, &mut watcher);
    run_unread(regs, &mut bus)
}

/// Runs the chips until the frame ends, and notes whether the input was ignored: the run stops before the first
/// instruction that reads it, and the rest is played as in any other frame.
fn run_chips_noting(
    rom: &[u8],
    pins: Pins,
    regs: &mut Regs,
    riot: &mut Riot,
    tia: &mut Tia,
) -> (Option<Halt>, bool)
    requires rom_size { is_cart_size (length rom.now) ≡ true }
    requires beam { clocks_passed tia.old < line_clocks }
    requires thirds { clocks_passed tia.old % 3 ≡ 0 }
    requires begun { vsync_rose tia.old ≡ false }
    ensures ended { end_within nothing_seen most_instructions regs.old
        (observed_of rom.now pins riot.old tia.old tt)
        ≡ Some
        (record {
          regs = regs.new;
          halt = result.0;
          observed = observed_of rom.now pins riot.new
              tia.new tt;
        }) }
    ensures ignored { result.1
        ≡ is_ignored_within nothing_seen most_instructions regs.old
        (observed_of rom.now pins riot.old tia.old tt) }
    ensures thirds { clocks_passed tia.new % 3 ≡ 0 }
{
    let (halt, ended) = run_chips_unread(rom, pins, regs, riot, tia);
    if ended {
        return (halt, !tia.latches_presses());
    }
    let mut nobody = Nobody;
    let rest = run_chips(rom, pins, regs, riot, tia, &mut nobody);
    (rest, false)
}

/// Plays one frame without a picture, as [`play_unseen`](crate::play_unseen) does, and returns whether it is a
/// lag frame: no read in it shows a pin of SWCHA or SWCHB or a fire button, and VBLANK's D6 is off at its end.
/// Whatever the input of such a frame, the next state and the picture are the same. A halted machine reads
/// nothing: its frames are lag frames. (own)
pub fn play_for_lag<C: Allocator>(
    cart: &Cart<C>,
    state: &mut State,
    input: Input,
    meter: &mut Meter,
) -> bool
    requires { meter.old + 1 < 2 ^ 64 }
    // `state`, `lag`, `meter`: `play_for_lag` makes the same next state, raises the meter, and returns whether the
    // frame is a lag frame: no read of it, opcodes, operand and pointer bytes, operands and pulls alike, shows a pin or
    // a fire button, and VBLANK's D6 is off at its end, so that no latch is kept.
    // Refused: half_a_frame_of_instructions, read_of_inpt4_is_not_noted, latches_at_the_end_are_not_noted*,
    // latches_at_a_halt_are_not_noted, read_of_a_port_is_not_noted*, frame_that_reads_is_a_lag_frame*,
    // rest_of_a_frame_that_reads_is_left_out*, port_with_a12_high_is_noted*.
    ensures state { state.new ≡ frame cart.now state.old input }
    ensures lag { result ≡ is_lag_frame cart.now state.old input }
    // Refused: none, a body that breaks it breaks `lag`.
    ensures law { result ≡ true → (other : Input) → IsSameFrame cart.now state.old input other }
    ensures meter { meter.new ≡ meter.old + 1 }
{
    meter.rise();
    if let Some(_halt) = state.halt {
        return true;
    }
    let mut regs = state.regs;
    let mut riot = state.riot;
    let mut tia = state.tia;
    tia.start_frame(input.left.fire, input.right.fire);
    let (halt, ignored) = run_chips_noting(
        cart.bytes(),
        input.pins(),
        &mut regs,
        &mut riot,
        &mut tia,
    );
    tia.end_frame();
    *state = State {
        regs,
        riot,
        tia,
        halt,
    };
    ignored
}
