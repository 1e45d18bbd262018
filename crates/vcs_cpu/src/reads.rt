//! What an instruction reads.
#![tactic(auto)]

ghost use Rattle.std.specs.Prelude.{◌≡◌, ℕ, Bool, false, ◌∷◌, []};
ghost use Rattle.std.specs.List.{list_any};
ghost use Rattle.vcs_cpu.specs.Effects.{operand_addresses, read_addresses, pull_address};
ghost use Rattle.vcs_cpu.specs.Operands.{IsCode};
ghost use Rattle.vcs_cpu.specs.Reads.{IsCodeUnwatched, addresses_of, jump_addresses, pointer_addresses};
ghost use Rattle.vcs_cpu.specs.Inside.Parts.{code_addresses, pointing_addresses};

use crate::addressing::{Addressing, Operand};
use crate::bus::Bus;
use crate::code::{operand_byte, operand_word};
use crate::op::{Mode, Op};
use crate::operation::Operation;
use crate::regs::Regs;

/// A bus some of whose addresses are watched for reads: a run stops before an instruction that reads there.
pub trait Watch: Bus {
    /// Whether an address of a bus is watched.
    ghost is_watched: { Self → ℕ → Bool };

    /// Whether any address is watched. `true` proves nothing.
    fn watches(&self) -> bool
        ensures { result ≡ false → (address : ℕ) → is_watched self.now address ≡ false };

    /// Whether one of three bytes of code from an address on may be watched. `true` proves nothing.
    fn may_watch_code(&self, pc: u16) -> bool
        ensures { result ≡ false → IsCodeUnwatched (is_watched self.now) pc };

    /// Whether an address is watched.
    fn is_watched(&self, address: u16) -> bool
        ensures { result ≡ is_watched self.now address };
}

/// Whether one of two addresses is watched.
#[inline(always)]
fn is_either_watched<B: Watch>(first: u16, second: u16, bus: &B) -> bool
    ensures { result ≡ list_any (B.is_watched bus.now) (first ∷ second ∷ []) }
{
    bus.is_watched(first) || bus.is_watched(second)
}

/// Whether a byte of code is watched, of an instruction at `pc`: its opcode or an operand byte after it.
#[inline(always)]
fn is_code_watched<B: Watch>(mode: Mode, pc: u16, bus: &B) -> bool
    ensures { result ≡ list_any (B.is_watched bus.now) (code_addresses mode pc) }
{
    if bus.may_watch_code(pc) {
        return is_code_byte_watched(mode, pc, bus);
    }
    false
}

/// The same, byte by byte.
#[inline(never)]
fn is_code_byte_watched<B: Watch>(mode: Mode, pc: u16, bus: &B) -> bool
    ensures { result ≡ list_any (B.is_watched bus.now) (code_addresses mode pc) }
{
    let first = bus.is_watched(pc);
    match mode {
        Mode::Implied | Mode::Accumulator | Mode::Vector => first,
        Mode::Immediate
        | Mode::ZeroPage
        | Mode::ZeroPageX
        | Mode::ZeroPageY
        | Mode::IndexedIndirect
        | Mode::IndirectIndexed
        | Mode::Relative => first || bus.is_watched(pc.wrapping_add(1)),
        Mode::Absolute | Mode::AbsoluteX | Mode::AbsoluteY | Mode::Indirect => {
            first || is_either_watched(pc.wrapping_add(1), pc.wrapping_add(2), bus)
        }
    }
}

/// Whether a byte of the pointer on page 0 is watched.
#[inline(always)]
fn is_pointer_watched<B: Watch>(cell: u8, bus: &B) -> bool
    ensures { result ≡ list_any (B.is_watched bus.now) (pointer_addresses cell) }
{
    is_either_watched(cell as u16, cell.wrapping_add(1) as u16, bus)
}

/// Whether a byte of an indirect jump's pointer is watched.
#[inline(always)]
fn is_jump_pointer_watched<B: Watch>(address: u16, bus: &B) -> bool
    ensures { result ≡ list_any (B.is_watched bus.now) (jump_addresses address) }
{
    let second = (address & 0xff00) | (address.wrapping_add(1) & 0xff);
    is_either_watched(address, second, bus)
}

/// Whether a byte of the pointer to the operand is watched, of an instruction at the program counter whose code is given.
#[inline(always)]
fn is_pointing_watched<B: Watch>(mode: Mode, code: u32, regs: &Regs, bus: &B) -> bool
    requires { IsCode code regs.now.pc (B.device.byte_at (B.content bus.now)) }
    ensures { result
        ≡ list_any (B.is_watched bus.now)
        (pointing_addresses mode regs.now (B.device.byte_at (B.content bus.now))) }
{
    let pc = regs.pc;
    match mode {
        Mode::Indirect => is_jump_pointer_watched(operand_word(code, pc, bus), bus),
        Mode::IndexedIndirect => {
            is_pointer_watched(operand_byte(code, pc, bus).wrapping_add(regs.x), bus)
        }
        Mode::IndirectIndexed => is_pointer_watched(operand_byte(code, pc, bus), bus),
        Mode::Vector => is_either_watched(0xfffe, 0xffff, bus),
        Mode::Implied
        | Mode::Accumulator
        | Mode::Immediate
        | Mode::ZeroPage
        | Mode::ZeroPageX
        | Mode::ZeroPageY
        | Mode::Absolute
        | Mode::AbsoluteX
        | Mode::AbsoluteY
        | Mode::Relative => false,
    }
}

/// Whether the operand is in memory and watched.
#[inline(always)]
fn is_operand_watched<B: Watch>(operand: Operand, bus: &B) -> bool
    ensures { result ≡ list_any (B.is_watched bus.now) (operand_addresses operand) }
{
    match operand {
        Operand::Memory { address, .. } => bus.is_watched(address),
        _ => false,
    }
}

/// Whether the byte is watched that is pulled after some others.
#[inline(always)]
fn is_pull_watched<B: Watch>(number: u8, regs: &Regs, bus: &B) -> bool
    ensures { result ≡ B.is_watched bus.now (pull_address regs.now number) }
{
    bus.is_watched(0x100 + regs.s.wrapping_add(number) as u16)
}

/// Whether an operand or a pulled byte is watched.
#[inline(always)]
fn is_load_watched<B: Watch>(op: Op, operand: Operand, regs: &Regs, bus: &B) -> bool
    ensures { result ≡ list_any (B.is_watched bus.now) (read_addresses op operand regs.now) }
{
    match op {
        Op::Read(_) | Op::Modify(_) => is_operand_watched(operand, bus),
        Op::Pla | Op::Plp => is_pull_watched(1, regs, bus),
        Op::Rts => is_pull_watched(1, regs, bus) || is_pull_watched(2, regs, bus),
        Op::Rti => {
            is_pull_watched(1, regs, bus)
                || is_pull_watched(2, regs, bus)
                || is_pull_watched(3, regs, bus)
        }
        Op::Store(_)
        | Op::Implied(_)
        | Op::Branch(_)
        | Op::Brk
        | Op::Jmp
        | Op::Jsr
        | Op::Pha
        | Op::Php => false,
    }
}

/// Whether the instruction at the program counter, whose code, operation and mode are given, reads at a watched address:
/// its opcode, its operand and pointer bytes, its operand, or what it pulls. Nothing changes.
#[inline(always)]
pub(crate) fn reads_watched<O: Operation, M: Addressing, B: Watch>(
    code: u32,
    op: O,
    mode: M,
    regs: &Regs,
    bus: &B,
) -> bool
    requires { IsCode code regs.now.pc (B.device.byte_at (B.content bus.now)) }
    ensures { result
        ≡ list_any (B.is_watched bus.now)
        (addresses_of (O.op op) (M.mode mode) regs.now (B.device.byte_at (B.content bus.now))) }
{
    if !bus.watches() {
        return false;
    }
    let (operand, _next) = mode.locate(code, regs.pc, regs, bus);
    let fetched = is_code_watched(mode.as_mode(), regs.pc, bus);
    let pointing = is_pointing_watched(mode.as_mode(), code, regs, bus);
    let load = is_load_watched(op.as_op(), operand, regs, bus);
    (fetched | pointing) | load
}
