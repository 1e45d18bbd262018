//! Edits that depend on the movie, parts of the history, states of a range of frames, and what a share brings.

use crate::calls::{Call, play_calls};
use crate::changes::{COUNTING, Change, PLAYFIELD, fire, right};
use crate::desk_tests::{FILLED, LOADED};
use crate::sessions::history;
use std::alloc::Global;
use std::process::Abort;
use std::sync::Wait;
use tas_desk::{CloseOnDrop, Desk, EditError, Name, Receipt, Seat, StateError};
use vcs_machine::Input;

/// Whether some entries of the history are these, in words, and it has this many edits.
pub fn is_told<N: Name, W: CloseOnDrop, R: Wait + Abort>(
    rt: &R,
    alloc: Global,
    desk: &Desk<N, W>,
    seat: &mut Seat<N>,
    (from, most): (usize, usize),
    (at, text): (u64, &str),
) -> bool {
    match desk.history(rt, alloc, seat, from, most) {
        Ok(told) => {
            let entries = history(rt, alloc, told.entries.as_slice());
            told.at == at && entries.as_str() == text
        }
        Err(_) => false,
    }
}

/// How many edits there are, how many frames were played, and the first byte of memory, where a frame begins and the movie has those up
/// to another.
pub fn first_byte<N: Name, W: CloseOnDrop>(
    desk: &Desk<N, W>,
    seat: &mut Seat<N>,
    (from, to): (usize, usize),
) -> Result<(u64, u64, u8), StateError> {
    match desk.state_for(seat, from, to) {
        Ok(reached) => Ok((reached.at, reached.ran, reached.state.ram()[0])),
        Err(error) => Err(error),
    }
}

/// Plans of two seats in turns. Neither looks at the other's edits before its own.
#[test]
fn a_plan_is_made_of_the_movie_under_the_lock(rt: HostRuntime) {
    let calls = [
        Call::Made(0, Change::InsertRight(0, 2), 1, 2),
        Call::Appended(1, 2, Ok(Receipt { at: 2, len: 4 })),
        Call::Made(0, Change::Insert(0, 1), 3, 5),
        Call::Over(1, 4, Ok(Receipt { at: 4, len: 5 })),
        Call::Input(1, 3, Ok((4, fire()))),
        Call::Input(1, 4, Ok((4, Input::none()))),
        Call::Made(0, Change::Delete(0, 1), 5, 4),
        Call::Over(1, 3, Ok(Receipt { at: 6, len: 4 })),
        Call::Input(0, 3, Ok((6, right()))),
        Call::Appended(0, 1, Ok(Receipt { at: 7, len: 5 })),
        Call::Input(1, 4, Ok((7, fire()))),
        Call::Told(
            0,
            (0, 9),
            7,
            "0 0 insert 0 2\n1 0 insert 2 2\n0 1 insert 0 1\n1 1 replace 4 1\n0 2 delete 0 1\n1 2 replace 3 1\n0 3 insert 4 1\n",
        ),
    ];
    play_calls(&rt, rt.alloc(), 2, &calls);
}

static REFUSED: [Call; 8] = [
    Call::Over(
        1,
        0,
        Err(EditError::Place {
            at: 0,
            place: 0,
            len: 0,
        }),
    ),
    Call::Appended(1, 262_145, Err(EditError::Long { at: 0, len: 0 })),
    Call::Made(0, Change::Insert(0, 262_143), 1, 262_143),
    Call::Appended(
        1,
        2,
        Err(EditError::Long {
            at: 1,
            len: 262_143,
        }),
    ),
    Call::Over(
        1,
        262_143,
        Err(EditError::Place {
            at: 1,
            place: 262_143,
            len: 262_143,
        }),
    ),
    Call::Appended(
        1,
        1,
        Ok(Receipt {
            at: 2,
            len: 262_144,
        }),
    ),
    Call::Appended(
        0,
        1,
        Err(EditError::Long {
            at: 2,
            len: 262_144,
        }),
    ),
    Call::Told(0, (0, 9), 2, "0 0 insert 0 262143\n1 0 insert 262143 1\n"),
];

/// The movie under the lock refuses a plan, which then has no entry and no serial.
#[test]
fn a_refused_plan_is_no_entry(rt: HostRuntime) {
    play_calls(&rt, rt.alloc(), 2, &REFUSED);
}

static TOLD: [Call; 13] = [
    Call::Told(1, (0, 9), 0, ""),
    Call::Made(0, Change::Insert(0, 3), 1, 3),
    Call::Made(1, Change::Delete(0, 1), 2, 2),
    Call::Made(0, Change::Load(PLAYFIELD), 3, 2),
    Call::Told(1, (0, 9), 3, "0 0 insert 0 3\n1 0 delete 0 1\n0 1 load\n"),
    Call::Told(1, (0, 2), 3, "0 0 insert 0 3\n1 0 delete 0 1\n"),
    Call::Told(1, (1, 1), 3, "1 0 delete 0 1\n"),
    Call::Told(1, (1, usize::MAX), 3, "1 0 delete 0 1\n0 1 load\n"),
    Call::Told(1, (1, 0), 3, ""),
    Call::Told(1, (3, 9), 3, ""),
    Call::Told(1, (usize::MAX, usize::MAX), 3, ""),
    Call::Made(0, Change::Replace(0, 2), 4, 2),
    Call::Told(1, (3, 9), 4, "0 2 replace 0 2\n"),
];

#[test]
fn parts_of_the_history(rt: HostRuntime) {
    play_calls(&rt, rt.alloc(), 2, &TOLD);
}

static BEGAN: [Call; 14] = [
    Call::Began(1, (0, 0), Ok((0, 0, 0))),
    Call::Began(1, (0, 1), Err(StateError::NoFrame { at: 0, len: 0 })),
    Call::Made(0, Change::Load(COUNTING), 1, 0),
    Call::Made(0, Change::Insert(0, 200), 2, 200),
    Call::Began(1, (150, 200), Ok((2, 150, 150))),
    Call::Keeps(1, 2),
    // A step plays one frame, and what the window has plays none.
    Call::Began(1, (151, 151), Ok((2, 1, 151))),
    Call::Began(1, (130, 130), Ok((2, 0, 130))),
    Call::Began(1, (200, 200), Ok((2, 70, 200))),
    Call::Began(1, (150, 201), Err(StateError::NoFrame { at: 2, len: 200 })),
    Call::Began(1, (151, 150), Err(StateError::NoFrame { at: 2, len: 200 })),
    Call::Made(0, Change::Delete(0, 100), 3, 100),
    Call::Began(1, (99, 150), Err(StateError::NoFrame { at: 3, len: 100 })),
    Call::Began(1, (99, 100), Ok((3, 3, 99))),
];

/// The machine in which a frame begins, where the movie has all frames up to another.
#[test]
fn states_of_a_range_of_frames(rt: HostRuntime) {
    play_calls(&rt, rt.alloc(), 2, &BEGAN);
}

static BROUGHT: [Call; 8] = [
    Call::Brought(1, 0, 0),
    LOADED,
    FILLED,
    Call::Work(0, &[192], 1, 3),
    Call::Brought(1, 2, 3),
    Call::Made(0, Change::ReplaceRight(100), 3, 200),
    Call::Brought(1, 3, 0),
    Call::Keeps(1, 1),
];

/// A share reports how many edits made the movie whose states it brought.
#[test]
fn a_share_says_at_which_history(rt: HostRuntime) {
    play_calls(&rt, rt.alloc(), 2, &BROUGHT);
}
