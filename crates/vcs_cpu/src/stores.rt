//! Stores of a zero-page address, where a bus may have a chip's registers.
//!
//! STA, STX and STY are one call of the bus there (`Settle::store`), so a bus can do the write together with what it does
//! by itself after it: it need not note a wait and look for the note afterwards. Indexed stores go by rows.
#![tactic(auto)]

ghost use Rattle.std.specs.Prelude.{◌≡◌, Some, false};
ghost use Rattle.vcs_cpu.specs.Rows.{instruction_of};
ghost use Rattle.vcs_cpu.specs.Inside.Leading.{IsNext, IsLedTo};
ghost use Rattle.vcs_cpu.specs.declared.op.Op.TheVariants as ops;
ghost use Rattle.vcs_cpu.specs.declared.op.Mode.TheVariants as modes;

use crate::bus::Settle;
use crate::code::operand_byte;
use crate::execute::stored_byte;
use crate::halt::Halt;
use crate::mode;
use crate::op::Store;
use crate::reads::reads_watched;
use crate::regs::Regs;

/// Goes on by STA, STX or STY of a zero-page address, and returns whether the run is over once the bus has settled. `opcode` and `halt` are for
/// the contract alone.
#[inline(always)]
pub(crate) fn go_on_by_store<B: Settle>(
    opcode: u8,
    code: u32,
    op: Store,
    regs: &mut Regs,
    bus: &mut B,
    halt: &Option<Halt>,
) -> bool
    requires next { IsNext B.device B.content B.Ready opcode code regs.old bus.old halt.now }
    requires row { instruction_of opcode
        ≡ Some (record { op = ops.Store op; mode = modes.ZeroPage; cycles = 3; crossing = false }) }
    ensures { IsLedTo B.device B.content B.Settles B.is_watched B.Ready B.fixed regs.old bus.old result
        regs.new bus.new halt.now }
{
    if reads_watched(code, op, mode::ZeroPage, regs, bus) {
        return true;
    }
    let pc = regs.pc;
    let address = operand_byte(code, pc, bus) as u16;
    regs.pc = pc.wrapping_add(2);
    let value = stored_byte(op, regs);
    bus.store(3, address, value)
}
