//! Why an engine ended without its answer.
//!
//! An engine has two parts: it reads its inputs, whose only faults are those of `ReadFault`, and runs on the bytes,
//! whose only faults are those of `RunFault`. No contract can see whether a reader failed, so no clause can refuse
//! `Read` where an engine has read: the type of the second part does. `ScriptFault` and `ChangeError` have no text: an
//! engine turns them into `RunFault`, which has one. A film's halt has a line of its own, since what was written
//! doesn't show the frame to somebody at the end of a pipe.

ghost use Rattle.std.specs.Prelude.{◌≡◌};
ghost use Rattle.tas_engines.specs.declared.fault.RunFault.TheVariants.{Write as WriteFailed, Memory as Refused};
ghost use Rattle.tas_engines.specs.declared.fault.ToolFault.TheVariants.{Read as Unread, Run as Ran};
ghost use Rattle.tas_engines.specs.Faults.{cart_fault, names_fault, text_fault};

use crate::fault_lines::{halted_frame_line, halted_line, no_frame_line, range_line, seat_line};
use crate::{NamesError, NamesFaultKind};
use byte_text::WriteFault;
use std::alloc::AllocError;
use tas_movie::{ReadError, TextError};
use thiserror::Error;
use vcs_machine::CartError;

/// Why an input wasn't read whole. Reading ends with it; no read follows (no clause says so; a test does).
#[derive(Clone, Copy, Debug, PartialEq, Eq, Error)]
pub enum ReadFault {
    /// The input has more than [`INPUT_LIMIT`](crate::INPUT_LIMIT) bytes. Nothing was written.
    #[error("input is too long")]
    TooLong,
    /// A read failed, or a file couldn't be opened. Nothing was written, but by a conversation the answers to the lines
    /// that were read whole.
    #[error("read failed")]
    Failed,
    /// Memory was refused. Nothing was written.
    #[error("out of memory")]
    Memory,
}

/// Why an engine that has read its inputs ended without its answer.
#[derive(Clone, Copy, Debug, PartialEq, Eq, Error)]
pub enum RunFault {
    /// A write failed, or took no byte.
    #[error("write failed after {written} bytes")]
    Write {
        /// How many bytes of the whole run had gone out: the first ones of the answer.
        written: usize,
    },
    /// The cartridge has neither 2,048 nor 4,096 bytes, but this many. Nothing was written.
    #[error("cartridge has {0} bytes")]
    Size(usize),
    /// The bytes aren't a text of a movie with the cartridge. Nothing was written.
    #[error("{0}")]
    Text(TextError),
    /// The movie has no such frame. Nothing was written.
    #[error(fmt = no_frame_line)]
    NoFrame {
        /// The frame that was asked for, counted from 0.
        frame: usize,
        /// The movie's length in frames.
        len: usize,
    },
    /// The movie doesn't have the frames that were asked for, or they are too many for one export. Nothing was
    /// written.
    #[error(fmt = range_line)]
    Range {
        /// The first frame, counted from 0.
        from: usize,
        /// The frame after the last one.
        to: usize,
        /// The movie's length in frames.
        len: usize,
    },
    /// The machine is halted in the frame that was asked for, or in one of them; this is the first one's
    /// halt. Nothing was written.
    #[error(fmt = halted_line)]
    Halted {
        /// The address of the undocumented byte.
        at: u16,
        /// The byte.
        opcode: u8,
    },
    /// A frame of a film is halted; this is the first one. The pictures of the frames before it are written.
    #[error(fmt = halted_frame_line)]
    HaltedFrame {
        /// The frame, counted from 0.
        frame: usize,
        /// The address of the undocumented byte.
        at: u16,
        /// The byte.
        opcode: u8,
    },
    /// A line of a script isn't understood. By `tas script`, the replies to the lines before it are written; by
    /// `tas edit`, nothing.
    #[error("script line {line}")]
    Script {
        /// The line's number, counted from 1.
        line: usize,
    },
    /// A line of a script of changes reaches past the movie's last input. Nothing was written.
    #[error("script line {line}: place")]
    Place {
        /// The line's number, counted from 1.
        line: usize,
    },
    /// A line of a script of changes would make the movie too long. Nothing was written.
    #[error("script line {line}: long")]
    Long {
        /// The line's number, counted from 1.
        line: usize,
    },
    /// A line of a names file is at fault, the first one. Nothing was written.
    #[error("names line {line}: {kind}")]
    Names {
        /// The line's number, counted from 1.
        line: usize,
        /// What is wrong with it.
        kind: NamesFaultKind,
    },
    /// A desk's seat got no place to read from. Nothing was written.
    #[error("no place")]
    NoPlace,
    /// A seat's reader found its writer gone. Nothing was written, but by a script or a conversation the replies to the
    /// lines before.
    #[error("no entry")]
    NoEntry,
    /// The desk replied at a history with an edit that isn't the engine's own. It is proved that no engine ends so.
    #[error("foreign edit")]
    Foreign,
    /// Memory was refused. Nothing was written, but by a script or a conversation the replies to the lines before.
    #[error("out of memory")]
    Memory,
}

/// How the conversation of a desk's seat ended, where neither `quit` nor the end of its input ended it. The edits that it made
/// stay in the desk's history.
#[derive(Clone, Copy, Debug, PartialEq, Eq, Error)]
pub enum SeatFault {
    /// One of the seat's two files couldn't be opened. No line was read.
    #[error("not opened")]
    NotOpened,
    /// A read failed. The answers to the lines that were read whole are written.
    #[error("read failed")]
    Read,
    /// A write failed, or took no byte. The line whose answer it was is carried out.
    #[error("write failed after {written} bytes")]
    Write {
        /// How many bytes of the whole conversation had gone out: the first ones of its answers.
        written: usize,
    },
    /// Memory was refused. The answers to the lines before are written.
    #[error("out of memory")]
    Memory,
    /// The seat's reader found its writer gone. The answers to the lines before are written.
    #[error("no entry")]
    NoEntry,
    /// The history has an edit of the seat's that this conversation didn't make. It is proved that none ends so.
    #[error("foreign edit")]
    Foreign,
}

/// Why an engine ended without its answer, before its inputs were read or after; or, with the answer written, how a seat's conversation
/// ended. Its text is the line, without the newline, that the program writes to standard error; the program's status is then 1.
#[derive(Clone, Copy, Debug, PartialEq, Eq, Error)]
pub enum ToolFault {
    /// An input wasn't read whole.
    #[error("fault: {0}")]
    Read(ReadFault),
    /// The inputs were read.
    #[error("fault: {0}")]
    Run(RunFault),
    /// The conversation of a desk's seat ended with this fault, and no seat before it with one. The movie is written.
    #[error(fmt = seat_line)]
    Seat {
        /// The seat, counted from 0.
        seat: u32,
        /// How its conversation ended.
        fault: SeatFault,
    },
}

impl From<CartError> for RunFault {
    ghost from_gives = { λ error fault. fault ≡ cart_fault error };

    fn from(error: CartError) -> RunFault {
        match error {
            CartError::Size(len) => RunFault::Size(len),
            CartError::Memory => RunFault::Memory,
        }
    }
}

impl From<ReadError> for RunFault {
    ghost from_gives = { λ error fault. fault ≡ text_fault error };

    // Refused: text_error_becomes_a_size.
    fn from(error: ReadError) -> RunFault {
        match error {
            ReadError::Text(error) => RunFault::Text(error),
            ReadError::Memory => RunFault::Memory,
        }
    }
}

impl From<NamesError> for RunFault {
    ghost from_gives = { λ error fault. fault ≡ names_fault error };

    // Refused: names_fault_is_reported_at_line_1.
    fn from(error: NamesError) -> RunFault {
        match error {
            NamesError::Line { line, kind } => RunFault::Names { line, kind },
            NamesError::Memory => RunFault::Memory,
        }
    }
}

impl From<AllocError> for RunFault {
    ghost from_gives = { λ _ fault. fault ≡ Refused };

    fn from(_error: AllocError) -> RunFault {
        RunFault::Memory
    }
}

impl From<WriteFault> for RunFault {
    ghost from_gives = { λ error fault. fault ≡ WriteFailed error.written };

    // Of a failed write the number of bytes alone is passed on.
    // Refused: write_error_becomes_half_its_bytes.
    fn from(error: WriteFault) -> RunFault {
        RunFault::Write {
            written: error.written,
        }
    }
}

impl From<ReadFault> for ToolFault {
    ghost from_gives = { λ fault e. e ≡ Unread fault };

    // A fault of reading is passed on as it is.
    // Refused: long_input_reported_as_out_of_memory.
    fn from(fault: ReadFault) -> ToolFault {
        ToolFault::Read(fault)
    }
}

impl From<RunFault> for ToolFault {
    ghost from_gives = { λ fault e. e ≡ Ran fault };

    // A fault of running is passed on as it is.
    // Refused: text_fault_reported_as_a_failed_read.
    fn from(fault: RunFault) -> ToolFault {
        ToolFault::Run(fault)
    }
}
