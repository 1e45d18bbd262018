//! The code of an instruction: its opcode and the two bytes after it, in one word.
//!
//! `pc` and `bus` are for the contracts alone: they say whose bytes a code has.
#![tactic(auto)]

ghost use Rattle.std.specs.Prelude.{◌≡◌, ◌+◌, ◌*◌};
ghost use Rattle.vcs_cpu.specs.Operands.{IsCode, operand_byte_at, operand_word_at};

use crate::bus::Bus;

/// The word of four bytes, the first as the lowest.
#[inline(always)]
pub fn code_of(first: u8, second: u8, third: u8, fourth: u8) -> u32
    // The word of four bytes has them in order, the first as its lowest; a bus that has no `fetch` of its own shows an
    // instruction's bytes so.
    // Refused: code_bytes_are_swapped.
    ensures { result ≡ first + 256 * second + 65536 * third + 16777216 * fourth }
{
    first as u32 + 256 * second as u32 + 65536 * third as u32 + 16777216 * fourth as u32
}

/// The opcode of a code that the bus shows at `pc`.
#[inline(always)]
pub(crate) fn opcode_of<B: Bus>(code: u32, pc: u16, bus: &B) -> u8
    requires { IsCode code pc (B.device.byte_at (B.content bus.now)) }
    ensures { result ≡ B.device.byte_at (B.content bus.now) pc }
{
    (code % 256) as u8
}

/// The byte after the opcode, of a code that the bus shows at `pc`.
#[inline(always)]
pub(crate) fn operand_byte<B: Bus>(code: u32, pc: u16, bus: &B) -> u8
    requires { IsCode code pc (B.device.byte_at (B.content bus.now)) }
    ensures { result ≡ operand_byte_at pc (B.device.byte_at (B.content bus.now)) }
{
    (code / 256 % 256) as u8
}

/// The two bytes after the opcode as an address, of a code that the bus shows at `pc`.
#[inline(always)]
pub(crate) fn operand_word<B: Bus>(code: u32, pc: u16, bus: &B) -> u16
    requires { IsCode code pc (B.device.byte_at (B.content bus.now)) }
    ensures { result ≡ operand_word_at pc (B.device.byte_at (B.content bus.now)) }
{
    (code / 256 % 65536) as u16
}
