//! The addressing modes, each as a type.
#![tactic(auto)]

use crate::addressing::{
    Addressing, Operand, at, branch_place, index, read_jump_pointer, read_zero_page_pointer,
    word_of,
};
use crate::bus::Bus;
use crate::code::{operand_byte, operand_word};
use crate::op::Mode;
use crate::regs::Regs;

/// There is no operand.
#[derive(Clone, Copy)]
pub(crate) struct Implied;

impl Addressing for Implied {
    ghost use Rattle.vcs_cpu.specs.declared.op.Mode.TheVariants as mode;

    ghost mode = { λ m. mode.Implied };

    #[inline(always)]
    fn as_mode(self) -> Mode {
        Mode::Implied
    }

    #[inline(always)]
    fn locate<B: Bus>(self, _code: u32, pc: u16, _regs: &Regs, _bus: &B) -> (Operand, u16) {
        (Operand::Nowhere, pc.wrapping_add(1))
    }
}

/// The operand is the accumulator.
#[derive(Clone, Copy)]
pub(crate) struct Accumulator;

impl Addressing for Accumulator {
    ghost use Rattle.vcs_cpu.specs.declared.op.Mode.TheVariants as mode;

    ghost mode = { λ m. mode.Accumulator };

    #[inline(always)]
    fn as_mode(self) -> Mode {
        Mode::Accumulator
    }

    #[inline(always)]
    fn locate<B: Bus>(self, _code: u32, pc: u16, _regs: &Regs, _bus: &B) -> (Operand, u16) {
        (Operand::Accumulator, pc.wrapping_add(1))
    }
}

/// The operand is the byte after the opcode.
#[derive(Clone, Copy)]
pub(crate) struct Immediate;

impl Addressing for Immediate {
    ghost use Rattle.vcs_cpu.specs.declared.op.Mode.TheVariants as mode;

    ghost mode = { λ m. mode.Immediate };

    #[inline(always)]
    fn as_mode(self) -> Mode {
        Mode::Immediate
    }

    #[inline(always)]
    fn locate<B: Bus>(self, code: u32, pc: u16, _regs: &Regs, bus: &B) -> (Operand, u16) {
        (
            Operand::Immediate(operand_byte(code, pc, bus)),
            pc.wrapping_add(2),
        )
    }
}

/// The operand's address is on page 0.
#[derive(Clone, Copy)]
pub(crate) struct ZeroPage;

impl Addressing for ZeroPage {
    ghost use Rattle.vcs_cpu.specs.declared.op.Mode.TheVariants as mode;

    ghost mode = { λ m. mode.ZeroPage };

    #[inline(always)]
    fn as_mode(self) -> Mode {
        Mode::ZeroPage
    }

    #[inline(always)]
    fn locate<B: Bus>(self, code: u32, pc: u16, _regs: &Regs, bus: &B) -> (Operand, u16) {
        (at(operand_byte(code, pc, bus) as u16), pc.wrapping_add(2))
    }
}

/// The operand's address is on page 0, X further, modulo 256.
#[derive(Clone, Copy)]
pub(crate) struct ZeroPageX;

impl Addressing for ZeroPageX {
    ghost use Rattle.vcs_cpu.specs.declared.op.Mode.TheVariants as mode;

    ghost mode = { λ m. mode.ZeroPageX };

    #[inline(always)]
    fn as_mode(self) -> Mode {
        Mode::ZeroPageX
    }

    #[inline(always)]
    fn locate<B: Bus>(self, code: u32, pc: u16, regs: &Regs, bus: &B) -> (Operand, u16) {
        let zero = operand_byte(code, pc, bus).wrapping_add(regs.x);
        (at(zero as u16), pc.wrapping_add(2))
    }
}

/// The operand's address is on page 0, Y further, modulo 256.
#[derive(Clone, Copy)]
pub(crate) struct ZeroPageY;

impl Addressing for ZeroPageY {
    ghost use Rattle.vcs_cpu.specs.declared.op.Mode.TheVariants as mode;

    ghost mode = { λ m. mode.ZeroPageY };

    #[inline(always)]
    fn as_mode(self) -> Mode {
        Mode::ZeroPageY
    }

    #[inline(always)]
    fn locate<B: Bus>(self, code: u32, pc: u16, regs: &Regs, bus: &B) -> (Operand, u16) {
        let zero = operand_byte(code, pc, bus).wrapping_add(regs.y);
        (at(zero as u16), pc.wrapping_add(2))
    }
}

/// The operand's address is the given one.
#[derive(Clone, Copy)]
pub(crate) struct Absolute;

impl Addressing for Absolute {
    ghost use Rattle.vcs_cpu.specs.declared.op.Mode.TheVariants as mode;

    ghost mode = { λ m. mode.Absolute };

    #[inline(always)]
    fn as_mode(self) -> Mode {
        Mode::Absolute
    }

    #[inline(always)]
    fn locate<B: Bus>(self, code: u32, pc: u16, _regs: &Regs, bus: &B) -> (Operand, u16) {
        (at(operand_word(code, pc, bus)), pc.wrapping_add(3))
    }
}

/// The operand's address is X further than the given one.
#[derive(Clone, Copy)]
pub(crate) struct AbsoluteX;

impl Addressing for AbsoluteX {
    ghost use Rattle.vcs_cpu.specs.declared.op.Mode.TheVariants as mode;

    ghost mode = { λ m. mode.AbsoluteX };

    #[inline(always)]
    fn as_mode(self) -> Mode {
        Mode::AbsoluteX
    }

    #[inline(always)]
    fn locate<B: Bus>(self, code: u32, pc: u16, regs: &Regs, bus: &B) -> (Operand, u16) {
        (
            index(operand_word(code, pc, bus), regs.x),
            pc.wrapping_add(3),
        )
    }
}

/// The operand's address is Y further than the given one.
#[derive(Clone, Copy)]
pub(crate) struct AbsoluteY;

impl Addressing for AbsoluteY {
    ghost use Rattle.vcs_cpu.specs.declared.op.Mode.TheVariants as mode;

    ghost mode = { λ m. mode.AbsoluteY };

    #[inline(always)]
    fn as_mode(self) -> Mode {
        Mode::AbsoluteY
    }

    #[inline(always)]
    fn locate<B: Bus>(self, code: u32, pc: u16, regs: &Regs, bus: &B) -> (Operand, u16) {
        (
            index(operand_word(code, pc, bus), regs.y),
            pc.wrapping_add(3),
        )
    }
}

/// The operand's address is held by a pointer at the given address.
#[derive(Clone, Copy)]
pub(crate) struct Indirect;

impl Addressing for Indirect {
    ghost use Rattle.vcs_cpu.specs.declared.op.Mode.TheVariants as mode;

    ghost mode = { λ m. mode.Indirect };

    #[inline(always)]
    fn as_mode(self) -> Mode {
        Mode::Indirect
    }

    #[inline(always)]
    fn locate<B: Bus>(self, code: u32, pc: u16, _regs: &Regs, bus: &B) -> (Operand, u16) {
        let pointer = operand_word(code, pc, bus);
        (at(read_jump_pointer(pointer, bus)), pc.wrapping_add(3))
    }
}

/// The operand's address is held by a pointer on page 0, X further than the given byte, modulo 256.
#[derive(Clone, Copy)]
pub(crate) struct IndexedIndirect;

impl Addressing for IndexedIndirect {
    ghost use Rattle.vcs_cpu.specs.declared.op.Mode.TheVariants as mode;

    ghost mode = { λ m. mode.IndexedIndirect };

    #[inline(always)]
    fn as_mode(self) -> Mode {
        Mode::IndexedIndirect
    }

    #[inline(always)]
    fn locate<B: Bus>(self, code: u32, pc: u16, regs: &Regs, bus: &B) -> (Operand, u16) {
        let zero = operand_byte(code, pc, bus).wrapping_add(regs.x);
        (at(read_zero_page_pointer(zero, bus)), pc.wrapping_add(2))
    }
}

/// The operand's address is Y further than the one that a pointer on page 0 holds.
#[derive(Clone, Copy)]
pub(crate) struct IndirectIndexed;

impl Addressing for IndirectIndexed {
    ghost use Rattle.vcs_cpu.specs.declared.op.Mode.TheVariants as mode;

    ghost mode = { λ m. mode.IndirectIndexed };

    #[inline(always)]
    fn as_mode(self) -> Mode {
        Mode::IndirectIndexed
    }

    #[inline(always)]
    fn locate<B: Bus>(self, code: u32, pc: u16, regs: &Regs, bus: &B) -> (Operand, u16) {
        let zero = operand_byte(code, pc, bus);
        (
            index(read_zero_page_pointer(zero, bus), regs.y),
            pc.wrapping_add(2),
        )
    }
}

/// The operand is a branch's target.
#[derive(Clone, Copy)]
pub(crate) struct Relative;

impl Addressing for Relative {
    ghost use Rattle.vcs_cpu.specs.declared.op.Mode.TheVariants as mode;

    ghost mode = { λ m. mode.Relative };

    #[inline(always)]
    fn as_mode(self) -> Mode {
        Mode::Relative
    }

    #[inline(always)]
    fn locate<B: Bus>(self, code: u32, pc: u16, _regs: &Regs, bus: &B) -> (Operand, u16) {
        let offset = operand_byte(code, pc, bus);
        let next = pc.wrapping_add(2);
        (branch_place(next, offset), next)
    }
}

/// The operand's address is the one that the vector at FFFE holds.
#[derive(Clone, Copy)]
pub(crate) struct Vector;

impl Addressing for Vector {
    ghost use Rattle.vcs_cpu.specs.declared.op.Mode.TheVariants as mode;

    ghost mode = { λ m. mode.Vector };

    #[inline(always)]
    fn as_mode(self) -> Mode {
        Mode::Vector
    }

    #[inline(always)]
    fn locate<B: Bus>(self, _code: u32, pc: u16, _regs: &Regs, bus: &B) -> (Operand, u16) {
        let low = bus.peek(0xfffe);
        let high = bus.peek(0xffff);
        (at(word_of(low, high)), pc.wrapping_add(2))
    }
}
