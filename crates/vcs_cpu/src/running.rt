//! Runs: instructions one after the other.
//!
//! The match over opcodes is in the loop itself (`run_by_value`), and no reference to the registers leaves the
//! function, so the compiler keeps them in the processor's registers. With the arms in a function of their own, which
//! the compiler doesn't inline, the kernel `loop` of bench/ takes twice the host's instructions. What is never inlined
//! gets a copy of the registers (`perform_any`), or the program counter alone (`pass_polls_at`).
//!
//! 106 opcodes have an arm, with the code of one addressing mode and one class of operations; each must prove that it
//! is the definition's row. The other 45 use the table, as `step` does for all: more than 132 rows are too many
//! statements for the checker.
//!
//! No code counts instructions, which would cost 5%: the measure is the number that the run still takes
//! (`length_within`). `IsNext` and `IsLedTo` say what holds before and after an arm; the search for a proof opens
//! neither.
#![tactic(auto)]

ghost use Rattle.std.specs.Prelude.{◌≡◌, Some};
ghost use Rattle.vcs_cpu.specs.Rows.{instruction_of};
ghost use Rattle.vcs_cpu.specs.Runs.{RunEnd, Settling, SettlesBy, run_within};
ghost use Rattle.vcs_cpu.specs.Inside.Leading.{IsNext, IsLedTo};

use crate::addressing::Addressing;
use crate::bus::Settle;
use crate::code::opcode_of;
use crate::halt::Halt;
use crate::instruction::perform;
use crate::op::{Branch, Implied, Modify, Read, Store};
use crate::opcode::{Instruction, look_up};
use crate::operation::Operation;
use crate::polls::go_on_by_load;
use crate::reads::reads_watched;
use crate::regs::Regs;
use crate::stores::go_on_by_store;
use crate::{mode, operation};

/// Executes the instruction at the program counter, whose opcode, code and row are given, and returns
/// whether the run is over once the bus has settled. No halt has ended it. `opcode` and `halt` are for the contract alone.
#[inline(always)]
pub(crate) fn perform_and_settle<O: Operation, M: Addressing, B: Settle>(
    opcode: u8,
    code: u32,
    op: O,
    mode: M,
    cycles: u8,
    crossing: bool,
    regs: &mut Regs,
    bus: &mut B,
    halt: &Option<Halt>,
) -> bool
    requires next { IsNext B.device B.content B.Ready opcode code regs.old bus.old halt.now }
    requires row { instruction_of opcode
        ≡ Some (record { op = O.op op; mode = M.mode mode; cycles = cycles; crossing = crossing }) }
    ensures { IsLedTo B.device B.content B.Settles B.is_watched B.Ready B.fixed regs.old bus.old result
        regs.new bus.new halt.now }
{
    if reads_watched(code, op, mode, regs, bus) {
        return true;
    }
    perform(opcode, code, op, mode, cycles, crossing, regs, bus);
    bus.settle()
}

/// Executes the instruction of any opcode, and returns whether the run is over: it is where the opcode is undocumented,
/// and then `halt` says so.
#[inline(never)]
fn perform_any<B: Settle>(
    opcode: u8,
    code: u32,
    regs: &mut Regs,
    bus: &mut B,
    halt: &mut Option<Halt>,
) -> bool
    requires { IsNext B.device B.content B.Ready opcode code regs.old bus.old halt.old }
    ensures { IsLedTo B.device B.content B.Settles B.is_watched B.Ready B.fixed regs.old bus.old result
        regs.new bus.new halt.new }
{
    let Some(found) = look_up(opcode) else {
        // Such an opcode is read alone.
        if bus.is_watched(regs.pc) {
            return true;
        }
        *halt = Some(Halt::Undocumented {
            at: regs.pc,
            opcode,
        });
        return true;
    };
    let Instruction {
        op,
        mode,
        cycles,
        crossing,
    } = found;
    perform_and_settle(opcode, code, op, mode, cycles, crossing, regs, bus, halt)
}

/// Goes on by an opcode's arm. The blocks before `rows` are for LDA absolute, which may begin polls, and for stores of a
/// zero-page address. A row says opcode, operation, mode, cycles and whether a crossed page adds one. The last block is for
/// all other opcodes. Returns the registers where the run is over.
macro_rules! go_on_by_row {
    ($opcode:ident, $code:ident, $regs:ident, $bus:ident, $halt:ident;
     $($special:literal => $block:block)*
     rows
     $($number:literal => $op:expr, $mode:expr, $cycles:literal, $crossing:literal;)*
     _ => $rest:block) => {
        match $opcode {
            $($number => {
                if perform_and_settle($opcode, $code, $op, $mode, $cycles, $crossing, &mut $regs, $bus, $halt) {
                    return $regs;
                }
            })*
            $($special => $block)*
            _ => $rest
        }
    };
}

/// Executes instructions until the run is over, and returns the halt that ended it if one did.
///
/// After each instruction the bus [settles](Settle::settle) what it does by itself, and says whether
/// the run is over. A halt leaves registers and bus as they were before the undocumented opcode. The run is over, too,
/// before an instruction that reads at an address which the bus [watches](Watch): it isn't executed.
/// The caller shows that the run ends within `most` instructions (`ends`), that the bus is ready for
/// the first one (`ready`), and that the bus settles as `settling` says (`settles`). `most` is for the contract alone.
pub fn run_until_over<B: Settle>(regs: &mut Regs, bus: &mut B, most: u32) -> Option<Halt>
    ghost settling: { Settling B.Content }
    requires settles { SettlesBy B.device B.content B.Settles B.is_watched settling }
    requires ready { B.Ready bus.old }
    requires ends { (e : RunEnd B.Content)
        × (run_within B.device settling most regs.old (B.content bus.old) ≡ Some e) }
    // Refused: opcode_of_a_run_is_loaded.
    // A run is such instructions one after the other, with what the bus does by itself after each, up to the one after
    // which the bus says that the run is over, or to a halt, which leaves registers and content as they were.
    // Refused: run_goes_on_after_its_end, run_leaves_the_registers*.
    // A run stops before an instruction that reads at a watched address: its opcode, an undocumented one too, its operand
    // and pointer bytes, its operand, or what it pulls. Registers and content are those before it, and it is no halt.
    // Refused: run_that_stops_goes_on*, undocumented_opcode_that_is_watched_halts, opcode_is_not_watched*,
    // pull_is_not_watched, jump_pointer_is_not_watched*, changed_operand_is_not_watched*.
    // Polls that a bus lets pass at once leave registers, content and time as their instructions do one by one.
    // Refused: polled_byte_is_not_loaded, poll_by_beq_goes_on_like_one_by_bne, polls_leave_z*,
    // poll_ends_by_the_other_branch*, polls_that_cross_a_page_take_longer*.
    // STA, STX and STY of a zero-page address, one call of the bus, leave what the cycles, the write and the settling leave
    // one after the other, and stop the run as any instruction does.
    // Refused: store_to_page_0_takes_four_cycles, store_to_page_0_has_one_byte*, watched_store_goes_on.
    ensures ended { run_within B.device settling most regs.old (B.content bus.old)
        ≡ Some (record { regs = regs.new; content = B.content bus.new; halt = result }) }
    ensures fixed { B.fixed bus.new ≡ B.fixed bus.old }
{
    let mut halt = None;
    *regs = run_by_value(*regs, bus, most, &mut halt);
    halt
}

/// As [`run_until_over`], with the registers in a local variable. An arm borrows it only for calls that are marked to be
/// inlined, so that the compiler can keep it in the processor's own registers. 106 frequent opcodes have an arm of their
/// own, the other 45 go by the table; a row here says what the opcode's row says. No instructions are counted, since the run
/// ends. A halt, which comes once in a run at most, goes out by `halt`: the result is the registers alone.
#[tactic(auto, unfolding(crate::specs::Rows::instruction_of, crate::specs::Rows::row_of))]
fn run_by_value<B: Settle>(first: Regs, bus: &mut B, most: u32, halt: &mut Option<Halt>) -> Regs
    ghost settling: { Settling B.Content }
    requires settles { SettlesBy B.device B.content B.Settles B.is_watched settling }
    requires ready { B.Ready bus.old }
    requires ends { (e : RunEnd B.Content)
        × (run_within B.device settling most first (B.content bus.old) ≡ Some e) }
    ensures ended { run_within B.device settling most first (B.content bus.old)
        ≡ Some (record { regs = result; content = B.content bus.new; halt = halt.new }) }
    ensures fixed { B.fixed bus.new ≡ B.fixed bus.old }
{
    // A variable of its own: an argument would stay in memory.
    let mut regs = first;
    *halt = None;
    loop {
        let code = bus.fetch(regs.pc);
        let opcode = opcode_of(code, regs.pc, bus);
        go_on_by_row! {
            opcode, code, regs, bus, halt;
            0xad => {
                if go_on_by_load(opcode, code, &mut regs, bus, halt) {
                    return regs;
                }
            }
            0x84 => {
                if go_on_by_store(opcode, code, Store::Sty, &mut regs, bus, halt) {
                    return regs;
                }
            }
            0x85 => {
                if go_on_by_store(opcode, code, Store::Sta, &mut regs, bus, halt) {
                    return regs;
                }
            }
            0x86 => {
                if go_on_by_store(opcode, code, Store::Stx, &mut regs, bus, halt) {
                    return regs;
                }
            }
            rows
            0x05 => Read::Ora, mode::ZeroPage, 3, false;
            0x06 => Modify::Asl, mode::ZeroPage, 5, false;
            0x09 => Read::Ora, mode::Immediate, 2, false;
            0x0a => Modify::Asl, mode::Accumulator, 2, false;
            0x0d => Read::Ora, mode::Absolute, 4, false;
            0x10 => Branch::Bpl, mode::Relative, 2, false;
            0x11 => Read::Ora, mode::IndirectIndexed, 5, true;
            0x15 => Read::Ora, mode::ZeroPageX, 4, false;
            0x18 => Implied::Clc, mode::Implied, 2, false;
            0x19 => Read::Ora, mode::AbsoluteY, 4, true;
            0x1d => Read::Ora, mode::AbsoluteX, 4, true;
            0x20 => operation::Jsr, mode::Absolute, 6, false;
            0x24 => Read::Bit, mode::ZeroPage, 3, false;
            0x25 => Read::And, mode::ZeroPage, 3, false;
            0x26 => Modify::Rol, mode::ZeroPage, 5, false;
            0x29 => Read::And, mode::Immediate, 2, false;
            0x2a => Modify::Rol, mode::Accumulator, 2, false;
            0x2c => Read::Bit, mode::Absolute, 4, false;
            0x2d => Read::And, mode::Absolute, 4, false;
            0x30 => Branch::Bmi, mode::Relative, 2, false;
            0x31 => Read::And, mode::IndirectIndexed, 5, true;
            0x35 => Read::And, mode::ZeroPageX, 4, false;
            0x38 => Implied::Sec, mode::Implied, 2, false;
            0x39 => Read::And, mode::AbsoluteY, 4, true;
            0x3d => Read::And, mode::AbsoluteX, 4, true;
            0x45 => Read::Eor, mode::ZeroPage, 3, false;
            0x46 => Modify::Lsr, mode::ZeroPage, 5, false;
            0x48 => operation::Pha, mode::Implied, 3, false;
            0x49 => Read::Eor, mode::Immediate, 2, false;
            0x4a => Modify::Lsr, mode::Accumulator, 2, false;
            0x4c => operation::Jmp, mode::Absolute, 3, false;
            0x50 => Branch::Bvc, mode::Relative, 2, false;
            0x51 => Read::Eor, mode::IndirectIndexed, 5, true;
            0x60 => operation::Rts, mode::Implied, 6, false;
            0x65 => Read::Adc, mode::ZeroPage, 3, false;
            0x66 => Modify::Ror, mode::ZeroPage, 5, false;
            0x68 => operation::Pla, mode::Implied, 4, false;
            0x69 => Read::Adc, mode::Immediate, 2, false;
            0x6a => Modify::Ror, mode::Accumulator, 2, false;
            0x6c => operation::Jmp, mode::Indirect, 5, false;
            0x6d => Read::Adc, mode::Absolute, 4, false;
            0x70 => Branch::Bvs, mode::Relative, 2, false;
            0x75 => Read::Adc, mode::ZeroPageX, 4, false;
            0x78 => Implied::Sei, mode::Implied, 2, false;
            0x79 => Read::Adc, mode::AbsoluteY, 4, true;
            0x7d => Read::Adc, mode::AbsoluteX, 4, true;
            0x88 => Implied::Dey, mode::Implied, 2, false;
            0x8a => Implied::Txa, mode::Implied, 2, false;
            0x8c => Store::Sty, mode::Absolute, 4, false;
            0x8d => Store::Sta, mode::Absolute, 4, false;
            0x8e => Store::Stx, mode::Absolute, 4, false;
            0x90 => Branch::Bcc, mode::Relative, 2, false;
            0x91 => Store::Sta, mode::IndirectIndexed, 6, false;
            0x94 => Store::Sty, mode::ZeroPageX, 4, false;
            0x95 => Store::Sta, mode::ZeroPageX, 4, false;
            0x98 => Implied::Tya, mode::Implied, 2, false;
            0x99 => Store::Sta, mode::AbsoluteY, 5, false;
            0x9a => Implied::Txs, mode::Implied, 2, false;
            0x9d => Store::Sta, mode::AbsoluteX, 5, false;
            0xa0 => Read::Ldy, mode::Immediate, 2, false;
            0xa2 => Read::Ldx, mode::Immediate, 2, false;
            0xa4 => Read::Ldy, mode::ZeroPage, 3, false;
            0xa5 => Read::Lda, mode::ZeroPage, 3, false;
            0xa6 => Read::Ldx, mode::ZeroPage, 3, false;
            0xa8 => Implied::Tay, mode::Implied, 2, false;
            0xa9 => Read::Lda, mode::Immediate, 2, false;
            0xaa => Implied::Tax, mode::Implied, 2, false;
            0xac => Read::Ldy, mode::Absolute, 4, false;
            0xae => Read::Ldx, mode::Absolute, 4, false;
            0xb0 => Branch::Bcs, mode::Relative, 2, false;
            0xb1 => Read::Lda, mode::IndirectIndexed, 5, true;
            0xb4 => Read::Ldy, mode::ZeroPageX, 4, false;
            0xb5 => Read::Lda, mode::ZeroPageX, 4, false;
            0xb9 => Read::Lda, mode::AbsoluteY, 4, true;
            0xba => Implied::Tsx, mode::Implied, 2, false;
            0xbc => Read::Ldy, mode::AbsoluteX, 4, true;
            0xbd => Read::Lda, mode::AbsoluteX, 4, true;
            0xbe => Read::Ldx, mode::AbsoluteY, 4, true;
            0xc0 => Read::Cpy, mode::Immediate, 2, false;
            0xc4 => Read::Cpy, mode::ZeroPage, 3, false;
            0xc5 => Read::Cmp, mode::ZeroPage, 3, false;
            0xc6 => Modify::Dec, mode::ZeroPage, 5, false;
            0xc8 => Implied::Iny, mode::Implied, 2, false;
            0xc9 => Read::Cmp, mode::Immediate, 2, false;
            0xca => Implied::Dex, mode::Implied, 2, false;
            0xcd => Read::Cmp, mode::Absolute, 4, false;
            0xd0 => Branch::Bne, mode::Relative, 2, false;
            0xd5 => Read::Cmp, mode::ZeroPageX, 4, false;
            0xd8 => Implied::Cld, mode::Implied, 2, false;
            0xd9 => Read::Cmp, mode::AbsoluteY, 4, true;
            0xdd => Read::Cmp, mode::AbsoluteX, 4, true;
            0xe0 => Read::Cpx, mode::Immediate, 2, false;
            0xe4 => Read::Cpx, mode::ZeroPage, 3, false;
            0xe5 => Read::Sbc, mode::ZeroPage, 3, false;
            0xe6 => Modify::Inc, mode::ZeroPage, 5, false;
            0xe8 => Implied::Inx, mode::Implied, 2, false;
            0xe9 => Read::Sbc, mode::Immediate, 2, false;
            0xea => Implied::Nop, mode::Implied, 2, false;
            0xf0 => Branch::Beq, mode::Relative, 2, false;
            0xf5 => Read::Sbc, mode::ZeroPageX, 4, false;
            0xf9 => Read::Sbc, mode::AbsoluteY, 4, true;
            0xfd => Read::Sbc, mode::AbsoluteX, 4, true;
            _ => {
                // A copy, so that no reference to the registers themselves goes to a call that is never inlined.
                let mut copy = regs;
                let over = perform_any(opcode, code, &mut copy, bus, halt);
                regs = copy;
                if over {
                    return regs;
                }
            }
        }
    }
}
