//! The replies of a session or a desk. In every reply `at` is the number of edits of the history that the reply is about.
//!
//! `OfferError` holds the batch that it hands back, so it is neither copied nor made with `thiserror`.

ghost use Rattle.std.specs.Prelude.{◌≡◌, Some, Ok, Err, OnOk, IfErr};
ghost use Rattle.tas_published.specs.declared.errors.ShotError.TheVariants.{Halted};
ghost use Rattle.tas_session.specs.Session.{error_at};

use std::alloc::{Allocator, Global};
use tas_green::Batch;
use tas_movie::EditRefusal;
use tas_published::ShotError;
use thiserror::Error;
use vcs_cpu::Halt;
use vcs_machine::State;
use vcs_tia::Picture;

/// Why no session or desk was opened.
#[derive(Clone, Copy, Debug, PartialEq, Eq, Error)]
pub enum OpenError {
    /// Memory was refused.
    #[error("out of memory")]
    Memory,
    /// A seat's reader got no place to read from. A session never returns it.
    #[error("no place")]
    NoPlace,
}

/// An edit was made.
#[derive(Clone, Copy, Debug, PartialEq, Eq)]
pub struct Receipt {
    /// How many edits the history has, this one included.
    pub at: u64,
    /// The movie's length in frames after it.
    pub len: usize,
}

/// Why an edit was refused; history, movie and greenzone are as they were.
#[derive(Clone, Copy, Debug, PartialEq, Eq, Error)]
pub enum EditError {
    /// The history has another number of this seat's entries than the caller says.
    #[error("seat has {counted} edits at {at}")]
    Serial {
        /// How many edits the history has.
        at: u64,
        /// How many of them are this seat's.
        counted: u64,
    },
    /// The history has [`MAX_EDITS`](crate::MAX_EDITS) edits or, of a step, has no room for all of its edits.
    #[error("full at {at}")]
    Full {
        /// How many edits the history has.
        at: u64,
    },
    /// The edit reaches past the movie's last input.
    #[error("no place {place}: {len} frames at edit {at}")]
    Place {
        /// How many edits the history has.
        at: u64,
        /// The edit's place in the movie's inputs.
        place: usize,
        /// The movie's length in frames.
        len: usize,
    },
    /// The movie would have too many inputs.
    #[error("too long: {len} at {at}")]
    Long {
        /// How many edits the history has.
        at: u64,
        /// The movie's length in frames.
        len: usize,
    },
    /// Memory was refused.
    #[error("out of memory")]
    Memory,
}

impl EditError {
    /// The movie refuses an edit, at a history of `at` edits.
    pub fn refused(at: u64, refusal: EditRefusal) -> EditError
        // A movie's refusal is the edit's error with the number of edits.
        // Refused: place_and_length_are_swapped.
        ensures { error_at at (Some refusal) ≡ Some result }
    {
        match refusal {
            EditRefusal::Place { at: place, len } => EditError::Place { at, place, len },
            EditRefusal::Long { len } => EditError::Long { at, len },
        }
    }
}

/// Why a step of edits was refused: none of them was made, and history, movie and greenzone are as they were.
#[derive(Clone, Copy, Debug, PartialEq, Eq, Error)]
pub enum CommitError {
    /// The history has another number of edits than the caller says.
    #[error("moved to {at}")]
    Moved {
        /// How many edits the history has.
        at: u64,
    },
    /// As an edit is refused; `Full` also where there is room for the first edit alone, and `Place` and `Long` of the first edit
    /// that is refused, in the movie that those before it leave.
    #[error("{0}")]
    Refused(EditError),
}

/// A frame was drawn.
#[derive(Drop)]
pub struct Shot<A: Allocator = Global> {
    /// How many edits the history has.
    pub at: u64,
    /// The frame, counted from 0.
    pub frame: usize,
    /// How many frames were played for it.
    pub ran: u64,
    /// Its picture.
    pub picture: Picture<A>,
}

/// The machine after some frames.
#[derive(Clone, Copy)]
pub struct Reached {
    /// How many edits the history has.
    pub at: u64,
    /// How many frames were played for it.
    pub ran: u64,
    /// Its state, halted or not.
    pub state: State,
}

/// The answer to a shot of a frame that this many frames were played for: the picture, or the halt that they ended at.
pub fn shown<A: Allocator>(
    at: u64,
    frame: usize,
    ran: u64,
    picture: Picture<A>,
    end: Result<(), Halt>,
) -> Result<Shot<A>, ShotError>
    // A frame that was played is answered by its picture, with the numbers as they are given, or by its halt.
    // Refused: halted_frame_is_shown_as_the_last_picture.
    ensures shot { OnOk end
        (result ≡ Ok (record { at = at; frame = frame; ran = ran; picture = picture })) }
    ensures halted { IfErr end (λ halt. result ≡ Err (Halted at halt)) }
{
    match end {
        Ok(()) => Ok(Shot {
            at,
            frame,
            ran,
            picture,
        }),
        Err(halt) => Err(ShotError::Halted { at, halt }),
    }
}

/// A batch was taken.
#[derive(Clone, Copy, Debug, PartialEq, Eq)]
pub struct Offered {
    /// How many edits the history has.
    pub at: u64,
    /// The length of the common beginning of the batch's inputs and the movie's, in frames.
    pub front: usize,
    /// How many states were gained that weren't kept before.
    pub kept: usize,
}

/// Why a batch wasn't taken; the greenzone is as it was.
#[derive(Drop)]
pub enum OfferError<A: Allocator = Global> {
    /// The batch's cartridge has other bytes than the movie's.
    Cartridge {
        /// How many edits the history has.
        at: u64,
    },
    /// Memory was refused; the batch is handed back.
    Memory(Batch<A>),
}
