//! Why a reader finds nothing.

ghost use Rattle.std.specs.Prelude.{◌≡◌};
ghost use Rattle.tas_published.specs.Errors.{shot_error};

use thiserror::Error;
use vcs_cpu::Halt;

/// The seat's reader found its writer gone; the seat is as it was. A desk that isn't closed has its writer, so this
/// never comes, but no clause says so.
#[derive(Clone, Copy, Debug, PartialEq, Eq, Error)]
#[error("no entry")]
pub struct NoEntry;

/// Why there is no input.
#[derive(Clone, Copy, Debug, PartialEq, Eq, Error)]
pub enum InputError {
    /// The seat's reader found its writer gone, as in [`NoEntry`](crate::NoEntry); the seat is as it was.
    #[error("no entry")]
    NoEntry,
    /// The movie has no such frame.
    #[error("no such frame: {len} frames at edit {at}")]
    NoFrame {
        /// How many edits the history has.
        at: u64,
        /// The movie's length in frames.
        len: usize,
    },
}

/// Why a frame wasn't drawn.
#[derive(Clone, Copy, Debug, PartialEq, Eq, Error)]
pub enum ShotError {
    /// The seat's reader found its writer gone, as in [`NoEntry`](crate::NoEntry); the seat is as it was. A session never
    /// returns it.
    #[error("no entry")]
    NoEntry,
    /// The movie has no such frame.
    #[error("no such frame: {len} frames at edit {at}")]
    NoFrame {
        /// How many edits the history has.
        at: u64,
        /// The movie's length in frames.
        len: usize,
    },
    /// Memory was refused; the greenzone is as it was.
    #[error("out of memory")]
    Memory,
    /// The machine has halted in the frame or before it.
    #[error("halted at {at}")]
    Halted {
        /// How many edits the history has.
        at: u64,
        /// Where and why it halted.
        halt: Halt,
    },
}

/// Why a state wasn't reached.
#[derive(Clone, Copy, Debug, PartialEq, Eq, Error)]
pub enum StateError {
    /// The seat's reader found its writer gone, as in [`NoEntry`](crate::NoEntry); the seat is as it was.
    #[error("no entry")]
    NoEntry,
    /// The movie doesn't have these frames: it ends before, or the first one is past the last.
    #[error("no such frame: {len} frames at edit {at}")]
    NoFrame {
        /// How many edits the history has.
        at: u64,
        /// The movie's length in frames.
        len: usize,
    },
    /// Memory was refused; the greenzone is as it was.
    #[error("out of memory")]
    Memory,
}

impl From<StateError> for ShotError {
    ghost from_gives = { λ error shot. shot ≡ shot_error error };

    fn from(error: StateError) -> ShotError {
        match error {
            StateError::NoEntry => ShotError::NoEntry,
            StateError::NoFrame { at, len } => ShotError::NoFrame { at, len },
            StateError::Memory => ShotError::Memory,
        }
    }
}
