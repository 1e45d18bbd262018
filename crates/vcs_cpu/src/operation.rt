//! Operations: what an instruction does with its operand, and the cycles that this adds.
//!
//! Each class of operations is a type, so each has a contract of its own and only its own code is compiled into an arm.
//! `extra_cycles` is alike in nine of eleven impls: as the trait's default body it would have to meet the clause for
//! branches, too.
#![tactic(auto)]

ghost use Rattle.std.specs.Prelude.{◌≡◌, ◌≤◌};
ghost use Rattle.vcs_cpu.specs.Steps.{extra_cycles, effect_on, content_after};
ghost use Rattle.vcs_cpu.specs.Inside.Cycles.{most_extra_cycles};

use crate::addressing::Operand;
use crate::bus::Bus;
use crate::execute::{
    break_to, call, destination, execute_implied, execute_read, is_taken, load_a, modify, pull,
    push, read_operand, return_from_break, return_from_call, store_at, stored_byte,
};
use crate::op::{Branch, Implied, Modify, Op, Read, Store};
use crate::regs::Regs;
use crate::timing::{branch_cycles, crossing_cycles};

/// An operation: an [`Op`], one of a class of them, or a type for one alone. Where it isn't the [`Op`], an
/// instruction's code has no other class in it.
pub(crate) trait Operation: Copy {
    ghost use Rattle.vcs_cpu.specs.declared.op.Op.{Op};

    /// The operation.
    ghost op: { Self → Op };

    /// The operation as an [`Op`].
    fn as_op(self) -> Op
        ensures { result ≡ op self };

    /// The CPU cycles that a crossed page or a taken branch adds; `crossing` says whether a crossed page
    /// adds one where the operation is no branch.
    fn extra_cycles(self, crossing: bool, operand: Operand, regs: &Regs) -> u8
        ensures value { result ≡ extra_cycles (op self) crossing operand regs.now }
        ensures most { result ≤ most_extra_cycles (op self) crossing };

    /// Executes the operation, once its cycles have passed and the program counter is past it.
    fn execute<B: Bus>(self, operand: Operand, regs: &mut Regs, bus: &mut B)
        ensures regs { regs.new
            ≡ (effect_on B.device (op self) operand regs.old (B.content bus.old)).regs }
        ensures bus { B.content bus.new
            ≡ content_after B.device (op self) operand regs.old (B.content bus.old) }
        ensures fixed { B.fixed bus.new ≡ B.fixed bus.old };
}

impl Operation for Read {
    ghost use Rattle.vcs_cpu.specs.declared.op.Op.TheVariants as op;

    ghost op = { λ o. op.Read o };

    #[inline(always)]
    fn as_op(self) -> Op {
        Op::Read(self)
    }

    #[inline(always)]
    fn extra_cycles(self, crossing: bool, operand: Operand, _regs: &Regs) -> u8 {
        crossing_cycles(crossing, operand)
    }

    #[inline(always)]
    fn execute<B: Bus>(self, operand: Operand, regs: &mut Regs, bus: &mut B) {
        let m = read_operand(operand, regs, bus);
        execute_read(self, regs, m);
    }
}

impl Operation for Store {
    ghost use Rattle.vcs_cpu.specs.declared.op.Op.TheVariants as op;

    ghost op = { λ o. op.Store o };

    #[inline(always)]
    fn as_op(self) -> Op {
        Op::Store(self)
    }

    #[inline(always)]
    fn extra_cycles(self, crossing: bool, operand: Operand, _regs: &Regs) -> u8 {
        crossing_cycles(crossing, operand)
    }

    #[inline(always)]
    fn execute<B: Bus>(self, operand: Operand, regs: &mut Regs, bus: &mut B) {
        store_at(operand, stored_byte(self, regs), bus);
    }
}

impl Operation for Modify {
    ghost use Rattle.vcs_cpu.specs.declared.op.Op.TheVariants as op;

    ghost op = { λ o. op.Modify o };

    #[inline(always)]
    fn as_op(self) -> Op {
        Op::Modify(self)
    }

    #[inline(always)]
    fn extra_cycles(self, crossing: bool, operand: Operand, _regs: &Regs) -> u8 {
        crossing_cycles(crossing, operand)
    }

    #[inline(always)]
    fn execute<B: Bus>(self, operand: Operand, regs: &mut Regs, bus: &mut B) {
        modify(self, operand, regs, bus);
    }
}

impl Operation for Implied {
    ghost use Rattle.vcs_cpu.specs.declared.op.Op.TheVariants as op;

    ghost op = { λ o. op.Implied o };

    #[inline(always)]
    fn as_op(self) -> Op {
        Op::Implied(self)
    }

    #[inline(always)]
    fn extra_cycles(self, crossing: bool, operand: Operand, _regs: &Regs) -> u8 {
        crossing_cycles(crossing, operand)
    }

    #[inline(always)]
    fn execute<B: Bus>(self, _operand: Operand, regs: &mut Regs, _bus: &mut B) {
        execute_implied(self, regs);
    }
}

impl Operation for Branch {
    ghost use Rattle.vcs_cpu.specs.declared.op.Op.TheVariants as op;

    ghost op = { λ o. op.Branch o };

    #[inline(always)]
    fn as_op(self) -> Op {
        Op::Branch(self)
    }

    #[inline(always)]
    fn extra_cycles(self, _crossing: bool, operand: Operand, regs: &Regs) -> u8 {
        branch_cycles(self, operand, regs)
    }

    #[inline(always)]
    fn execute<B: Bus>(self, operand: Operand, regs: &mut Regs, _bus: &mut B) {
        if is_taken(self, regs) {
            regs.pc = destination(operand);
        }
    }
}

/// JMP alone.
#[derive(Clone, Copy)]
pub(crate) struct Jmp;

impl Operation for Jmp {
    ghost use Rattle.vcs_cpu.specs.declared.op.Op.TheVariants as op;

    ghost op = { λ o. op.Jmp };

    #[inline(always)]
    fn as_op(self) -> Op {
        Op::Jmp
    }

    #[inline(always)]
    fn extra_cycles(self, crossing: bool, operand: Operand, _regs: &Regs) -> u8 {
        crossing_cycles(crossing, operand)
    }

    #[inline(always)]
    fn execute<B: Bus>(self, operand: Operand, regs: &mut Regs, _bus: &mut B) {
        regs.pc = destination(operand);
    }
}

/// JSR alone.
#[derive(Clone, Copy)]
pub(crate) struct Jsr;

impl Operation for Jsr {
    ghost use Rattle.vcs_cpu.specs.declared.op.Op.TheVariants as op;

    ghost op = { λ o. op.Jsr };

    #[inline(always)]
    fn as_op(self) -> Op {
        Op::Jsr
    }

    #[inline(always)]
    fn extra_cycles(self, crossing: bool, operand: Operand, _regs: &Regs) -> u8 {
        crossing_cycles(crossing, operand)
    }

    #[inline(always)]
    fn execute<B: Bus>(self, operand: Operand, regs: &mut Regs, bus: &mut B) {
        call(destination(operand), regs, bus);
    }
}

/// RTS alone.
#[derive(Clone, Copy)]
pub(crate) struct Rts;

impl Operation for Rts {
    ghost use Rattle.vcs_cpu.specs.declared.op.Op.TheVariants as op;

    ghost op = { λ o. op.Rts };

    #[inline(always)]
    fn as_op(self) -> Op {
        Op::Rts
    }

    #[inline(always)]
    fn extra_cycles(self, crossing: bool, operand: Operand, _regs: &Regs) -> u8 {
        crossing_cycles(crossing, operand)
    }

    #[inline(always)]
    fn execute<B: Bus>(self, operand: Operand, regs: &mut Regs, bus: &mut B) {
        return_from_call(operand, regs, bus);
    }
}

/// PHA alone.
#[derive(Clone, Copy)]
pub(crate) struct Pha;

impl Operation for Pha {
    ghost use Rattle.vcs_cpu.specs.declared.op.Op.TheVariants as op;

    ghost op = { λ o. op.Pha };

    #[inline(always)]
    fn as_op(self) -> Op {
        Op::Pha
    }

    #[inline(always)]
    fn extra_cycles(self, crossing: bool, operand: Operand, _regs: &Regs) -> u8 {
        crossing_cycles(crossing, operand)
    }

    #[inline(always)]
    fn execute<B: Bus>(self, _operand: Operand, regs: &mut Regs, bus: &mut B) {
        push(regs.a, regs, bus);
    }
}

/// PLA alone.
#[derive(Clone, Copy)]
pub(crate) struct Pla;

impl Operation for Pla {
    ghost use Rattle.vcs_cpu.specs.declared.op.Op.TheVariants as op;

    ghost op = { λ o. op.Pla };

    #[inline(always)]
    fn as_op(self) -> Op {
        Op::Pla
    }

    #[inline(always)]
    fn extra_cycles(self, crossing: bool, operand: Operand, _regs: &Regs) -> u8 {
        crossing_cycles(crossing, operand)
    }

    #[inline(always)]
    fn execute<B: Bus>(self, _operand: Operand, regs: &mut Regs, bus: &mut B) {
        let value = pull(regs, bus);
        load_a(regs, value);
    }
}

impl Operation for Op {
    ghost op = { λ o. o };

    #[inline(always)]
    fn as_op(self) -> Op {
        self
    }

    #[inline(always)]
    fn extra_cycles(self, crossing: bool, operand: Operand, regs: &Regs) -> u8 {
        match self {
            Op::Branch(branch) => branch_cycles(branch, operand, regs),
            _ => crossing_cycles(crossing, operand),
        }
    }

    #[inline(always)]
    fn execute<B: Bus>(self, operand: Operand, regs: &mut Regs, bus: &mut B) {
        match self {
            Op::Read(read) => read.execute(operand, regs, bus),
            Op::Store(store) => store.execute(operand, regs, bus),
            Op::Modify(modify) => modify.execute(operand, regs, bus),
            Op::Implied(implied) => implied.execute(operand, regs, bus),
            Op::Branch(branch) => branch.execute(operand, regs, bus),
            Op::Brk => break_to(destination(operand), regs, bus),
            Op::Jmp => Jmp.execute(operand, regs, bus),
            Op::Jsr => Jsr.execute(operand, regs, bus),
            Op::Pha => Pha.execute(operand, regs, bus),
            Op::Php => push(regs.status(), regs, bus),
            Op::Pla => Pla.execute(operand, regs, bus),
            Op::Plp => {
                let status = pull(regs, bus);
                regs.set_status(status);
            }
            Op::Rti => return_from_break(operand, regs, bus),
            Op::Rts => Rts.execute(operand, regs, bus),
        }
    }
}
