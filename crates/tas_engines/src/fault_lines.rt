//! The texts of the faults that have several parts.

use crate::SeatFault;
use std::fmt::{Formatter, Result, Write};

/// The text of `RunFault::NoFrame`.
pub fn no_frame_line<W: Write>(frame: &usize, len: &usize, f: &mut Formatter<W>) -> Result {
    write!(f, "no frame {frame} of {len}")
}

/// That of `RunFault::Range`.
pub fn range_line<W: Write>(from: &usize, to: &usize, len: &usize, f: &mut Formatter<W>) -> Result {
    write!(f, "range {from} to {to} of {len}")
}

/// That of `RunFault::Halted`.
pub fn halted_line<W: Write>(at: &u16, opcode: &u8, f: &mut Formatter<W>) -> Result {
    write!(f, "halted at {at:04X} by {opcode:02X}")
}

/// That of `RunFault::HaltedFrame`.
pub fn halted_frame_line<W: Write>(
    frame: &usize,
    at: &u16,
    opcode: &u8,
    f: &mut Formatter<W>,
) -> Result {
    write!(f, "frame {frame} halted at {at:04X} by {opcode:02X}")
}

/// That of `ToolFault::Seat`.
pub fn seat_line<W: Write>(seat: &u32, fault: &SeatFault, f: &mut Formatter<W>) -> Result {
    write!(f, "fault: seat {seat}: {fault}")
}
