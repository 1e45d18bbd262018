//! Polls: loops of an LDA and a BNE that wait until a byte is 0, or of an LDA and a BEQ that wait until one isn't.
//!
//! A game waits for the end of a blank by such a loop, hundreds of times a frame. Where a BNE or a BEQ back to it
//! follows an LDA of an absolute address, `go_on_by_load` asks the bus how many polls take their branch before anything
//! else happens, and these pass at once. The law: where each of n polls shows the same code, reads a byte on which the
//! branch is taken and leaves the bus at rest (`IsPoll`), a run goes on 2n instructions later with the last byte in A,
//! its N and Z, and the time of n polls passed. The definitions know of no polls, and a bus may let none pass.
//!
//! Other loops (LDX, LDY, BPL, BIT) are played one by one: no kernel of bench/ and no example has them at the timer.
//! Only this LDA pays for the test: the fourth byte that `fetch` took is a hint at the next opcode. With a second fetch
//! in the loop the compiler would keep two fields of the bus in registers, and all other instructions would pay (8% in
//! the kernel `loop`).
#![tactic(auto)]

ghost use Rattle.std.specs.Prelude.{◌≡◌, ℕ, ◌+◌, ◌/◌, ◌%◌, ◌==◌, ◌<◌, not, true, if◌then◌else◌};
ghost use Rattle.vcs_cpu.specs.declared.regs.Regs.{Regs};
ghost use Rattle.vcs_cpu.specs.Operands.{IsCode, address_after};
ghost use Rattle.vcs_cpu.specs.Effects.{after_load_a};
ghost use Rattle.vcs_cpu.specs.Runs.{Settling, SettlesBy};
ghost use Rattle.vcs_cpu.specs.Inside.Leading.{IsNext, IsLedTo, Leads};
ghost use Rattle.vcs_cpu.specs.Status.{bit};

use crate::bus::{Poll, Settle};
use crate::code::operand_word;
use crate::execute::load_a;
use crate::halt::Halt;
use crate::mode;
use crate::op::Read;
use crate::regs::Regs;
use crate::running::perform_and_settle;

/// The first two bytes of a code that is a BNE to five bytes before its end, the opcode as the lower one.
const BNE_BACK: u32 = 0xfbd0;

/// The same of a BEQ.
const BEQ_BACK: u32 = 0xfbf0;

/// The opcode of a BNE.
const BNE: u32 = 0xd0;

/// The opcode of a BEQ.
const BEQ: u32 = 0xf0;

/// Whether an LDA's code may be a poll's: its highest byte, which a bus need not fill in, is the next opcode where
/// the bus took four bytes at once. It is only a hint: the code after the LDA is looked at before polls pass.
#[inline(always)]
fn may_begin_poll(code: u32) -> bool {
    let next = code / 16777216;
    next == BNE || next == BEQ
}

/// Whether a code is that of a BNE, or with `while_zero` of a BEQ, which ends a poll: it goes back to three bytes before
/// itself. `false` proves nothing.
fn ends_poll(code: u32, while_zero: bool) -> bool
    ensures { result ≡ true → code % 65536 ≡ (if while_zero then 0xfbf0 else 0xfbd0) }
{
    code % 65536 == if while_zero { BEQ_BACK } else { BNE_BACK }
}

/// The CPU cycles of a poll's branch, whose LDA is at an address: a page that it crosses adds one.
#[inline(always)]
fn branch_cycles(pc: u16) -> u8
    ensures value { result ≡ 3 + bit (not (pc / 256 == address_after pc 5 / 256)) }
    ensures address { pc < 65536 }
{
    3 + (pc / 256 != pc.wrapping_add(5) / 256) as u8
}

/// Lets polls pass at once: those that begin with the LDA at `pc`, whose code is given. Returns their number, which may
/// be 0, and the byte that the last one read. No other register matters to them.
#[inline(always)]
fn pass_polls<B: Settle>(code: u32, pc: u16, bus: &mut B) -> (u32, u8)
    requires code { IsCode code pc (B.device.byte_at (B.content bus.old)) }
    requires lda { B.device.byte_at (B.content bus.old) pc ≡ 0xad }
    requires ready { B.Ready bus.old }
    ensures none { result.0 ≡ 0 → B.content bus.new ≡ B.content bus.old }
    ensures some { (s : Settling B.Content) (most : ℕ) (regs : Regs) → regs.pc ≡ pc
        → 0 < result.0 → SettlesBy B.device B.content B.Settles B.is_watched s
        → Leads B.device s most regs (B.content bus.old) (after_load_a regs result.1)
        (B.content bus.new) }
    ensures ready { B.Ready bus.new }
    ensures fixed { B.fixed bus.new ≡ B.fixed bus.old }
{
    if may_begin_poll(code) {
        return pass_polls_at(code, pc, bus);
    }
    (0, 0)
}

/// The same, with a look at the code after the LDA.
#[inline(never)]
fn pass_polls_at<B: Settle>(code: u32, pc: u16, bus: &mut B) -> (u32, u8)
    requires code { IsCode code pc (B.device.byte_at (B.content bus.old)) }
    requires lda { B.device.byte_at (B.content bus.old) pc ≡ 0xad }
    requires ready { B.Ready bus.old }
    ensures none { result.0 ≡ 0 → B.content bus.new ≡ B.content bus.old }
    ensures some { (s : Settling B.Content) (most : ℕ) (regs : Regs) → regs.pc ≡ pc
        → 0 < result.0 → SettlesBy B.device B.content B.Settles B.is_watched s
        → Leads B.device s most regs (B.content bus.old) (after_load_a regs result.1)
        (B.content bus.new) }
    ensures ready { B.Ready bus.new }
    ensures fixed { B.fixed bus.new ≡ B.fixed bus.old }
{
    let next = bus.fetch(pc.wrapping_add(3));
    let while_zero = next % 256 == BEQ;
    if !ends_poll(next, while_zero) {
        return (0, 0);
    }
    let address = operand_word(code, pc, bus);
    let poll = Poll {
        pc,
        address,
        branch: branch_cycles(pc),
        while_zero,
    };
    bus.pass_polls(poll)
}

/// Goes on by an LDA of an absolute address, or past the polls that begin with it, and returns whether the run is over
/// once the bus has settled. `opcode` and `halt` are for the contract alone.
#[inline(always)]
pub(crate) fn go_on_by_load<B: Settle>(
    opcode: u8,
    code: u32,
    regs: &mut Regs,
    bus: &mut B,
    halt: &Option<Halt>,
) -> bool
    requires next { IsNext B.device B.content B.Ready opcode code regs.old bus.old halt.now }
    requires lda { opcode ≡ 0xad }
    ensures { IsLedTo B.device B.content B.Settles B.is_watched B.Ready B.fixed regs.old bus.old result
        regs.new bus.new halt.now }
{
    let (polls, byte) = pass_polls(code, regs.pc, bus);
    if polls > 0 {
        load_a(regs, byte);
        return false;
    }
    perform_and_settle(
        opcode,
        code,
        Read::Lda,
        mode::Absolute,
        4,
        false,
        regs,
        bus,
        halt,
    )
}
