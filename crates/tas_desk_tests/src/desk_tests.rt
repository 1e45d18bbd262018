//! Desks by hand, on one thread: each call with its answer.

use crate::calls::{Call, play_calls};
use crate::changes::{Change, HALT, HALTING, PLAYFIELD, fire};
use crate::checks::check_same;
use crate::sessions::{check_history, lengths};
use tas_desk::{EditError, InputError, ShotError};
use vcs_machine::Input;

/// Cartridge and inputs of most tests: two edits of seat 0.
pub const LOADED: Call = Call::Made(0, Change::Load(PLAYFIELD), 1, 0);

pub const FILLED: Call = Call::Made(0, Change::Insert(0, 200), 2, 200);

static FRESH: [Call; 8] = [
    Call::Input(1, 0, Err(InputError::NoFrame { at: 0, len: 0 })),
    Call::NotDrawn(1, 0, ShotError::NoFrame { at: 0, len: 0 }),
    Call::Refused(
        1,
        Change::Delete(0, 1),
        EditError::Place {
            at: 0,
            place: 0,
            len: 0,
        },
    ),
    Call::Len(1, 0, 0),
    Call::Share(1, 0),
    Call::Meet(0),
    Call::OutOfRange(1, (0, 1), 0, 0),
    Call::Exported(1, (0, 0), 3, 0, 0),
];

#[test]
fn a_fresh_desk_has_no_frames(rt: HostRuntime) {
    let closed = play_calls(&rt, rt.alloc(), 2, &FRESH);
    check_same(&rt, "journal, movie", lengths(&closed), [0, 0]);
}

/// Some of three seats, and whether they are all.
static SEATS: [Call; 7] = [
    Call::Whole(0, 3, true),
    Call::Whole(0, 2, false),
    Call::Whole(1, 3, false),
    Call::Whole(0, 1, false),
    Call::Whole(1, 2, false),
    Call::Whole(2, 3, false),
    Call::Whole(0, 0, false),
];

#[test]
fn fewer_seats_are_not_all(rt: HostRuntime) {
    play_calls(&rt, rt.alloc(), 3, &SEATS);
}

/// One seat sees the other's edit without a meeting, and without an edit of its own.
#[test]
fn a_seat_sees_the_other_s_edit(rt: HostRuntime) {
    let calls = [
        Call::Len(1, 0, 0),
        Call::Made(0, Change::InsertFire(0), 1, 1),
        Call::Len(1, 1, 1),
        Call::Input(1, 0, Ok((1, fire()))),
        Call::Meet(1),
        Call::Made(0, Change::Insert(0, 1), 2, 2),
        Call::Input(1, 0, Ok((2, Input::none()))),
        Call::NotDrawn(1, 2, ShotError::NoFrame { at: 2, len: 2 }),
        Call::Meet(2),
    ];
    let closed = play_calls(&rt, rt.alloc(), 2, &calls);
    check_same(&rt, "closed.journal", closed.journal.len(), 2);
}

static REFUSALS: [Call; 7] = [
    Call::Refused(
        0,
        Change::Insert(0, 262145),
        EditError::Long { at: 0, len: 0 },
    ),
    Call::Made(0, Change::Insert(0, 262144), 1, 262144),
    Call::Refused(
        1,
        Change::Insert(0, 1),
        EditError::Long { at: 1, len: 262144 },
    ),
    Call::Refused(
        1,
        Change::Insert(262145, 1),
        EditError::Place {
            at: 1,
            place: 262145,
            len: 262144,
        },
    ),
    Call::Made(1, Change::Replace(262144, 0), 2, 262144),
    Call::Made(1, Change::Delete(1, 262143), 3, 1),
    Call::Made(0, Change::Delete(0, 0), 4, 1),
];

/// A refused edit takes no serial.
#[test]
fn refusals_of_a_desk_come_in_order(rt: HostRuntime) {
    let closed = play_calls(&rt, rt.alloc(), 2, &REFUSALS);
    let text = "0 0 insert 0 262144\n1 0 replace 262144 0\n1 1 delete 1 262143\n0 1 delete 0 0\n";
    check_history(&rt, rt.alloc(), &closed, text);
}

static SHARED: [Call; 17] = [
    LOADED,
    FILLED,
    Call::Work(0, &[192], 1, 3),
    Call::Work(0, &[192], 1, 0),
    Call::Keeps(1, 0),
    Call::Share(1, 3),
    Call::Keeps(1, 3),
    Call::Drawn(1, 191, 2, 64, 1680),
    Call::Share(1, 0),
    Call::Exported(1, (128, 200), 1, 2, 72),
    Call::Exported(1, (128, 200), 2, 2, 108),
    Call::Exported(3, (128, 200), 1, 2, 200),
    Call::Exported(3, (128, 200), 2, 2, 364),
    Call::Made(0, Change::ReplaceRight(100), 3, 200),
    Call::Share(2, 1),
    Call::Keeps(2, 1),
    Call::Drawn(1, 191, 3, 128, 1680),
];

#[test]
fn work_is_shared_with_other_seats(rt: HostRuntime) {
    play_calls(&rt, rt.alloc(), 4, &SHARED);
}

static TARGETS: [Call; 7] = [
    LOADED,
    FILLED,
    Call::Work(0, &[], 0, 0),
    Call::Work(0, &[64, 192, 63], 3, 3),
    Call::Work(1, &[0, 1000], 2, 0),
    Call::Share(0, 3),
    Call::Drawn(0, 199, 2, 8, 1680),
];

/// Targets are worked in order, each from the states that the ones before it left.
#[test]
fn each_target_is_worked(rt: HostRuntime) {
    play_calls(&rt, rt.alloc(), 2, &TARGETS);
}

static CAME_BACK: [Call; 12] = [
    LOADED,
    FILLED,
    Call::Drawn(0, 191, 2, 192, 1680),
    Call::Made(0, Change::ReplaceRight(64), 3, 200),
    Call::Made(0, Change::Replace(64, 1), 4, 200),
    Call::Drawn(0, 191, 4, 64, 1680),
    Call::Made(0, Change::ReplaceRight(64), 5, 200),
    Call::Drawn(0, 64, 5, 1, 1680),
    Call::Keeps(0, 1),
    Call::Drawn(0, 191, 5, 128, 1680),
    Call::Made(0, Change::Delete(0, 200), 6, 0),
    Call::NotDrawn(0, 0, ShotError::NoFrame { at: 6, len: 0 }),
];

/// A seat's zone is cut where it next shoots, so it keeps what an edit and its taking back leave equal.
#[test]
fn a_zone_of_a_movie_that_came_back(rt: HostRuntime) {
    play_calls(&rt, rt.alloc(), 1, &CAME_BACK);
}

static LENGTHENED: [Call; 9] = [
    LOADED,
    Call::Made(0, Change::Insert(0, 32831), 2, 32831),
    Call::Drawn(0, 199, 2, 200, 1680),
    Call::Made(0, Change::InsertRight(32831, 1), 3, 32832),
    Call::Drawn(0, 150, 3, 23, 1680),
    Call::Drawn(0, 100, 3, 101, 1680),
    Call::Made(0, Change::Delete(32831, 1), 4, 32831),
    Call::Drawn(0, 100, 4, 101, 1680),
    Call::Drawn(0, 100, 4, 37, 1680),
];

#[test]
fn a_seat_s_grid_follows_the_length(rt: HostRuntime) {
    play_calls(&rt, rt.alloc(), 1, &LENGTHENED);
}

static HALTED_OF_FIVE: [Call; 7] = [
    Call::Made(0, Change::Load(HALTING), 1, 0),
    Call::Made(0, Change::Insert(0, 5), 2, 5),
    Call::Drawn(0, 0, 2, 1, 0),
    Call::Drawn(0, 1, 2, 2, 0),
    Call::Drawn(0, 2, 2, 3, 0),
    Call::NotDrawn(0, 3, ShotError::Halted { at: 2, halt: HALT }),
    Call::NotDrawn(0, 4, ShotError::Halted { at: 2, halt: HALT }),
];

#[test]
fn frames_before_a_halt_are_drawn_by_a_desk(rt: HostRuntime) {
    play_calls(&rt, rt.alloc(), 1, &HALTED_OF_FIVE);
}

static HALTED: [Call; 9] = [
    Call::Made(0, Change::Load(HALTING), 1, 0),
    Call::Made(0, Change::Insert(0, 100), 2, 100),
    Call::Drawn(0, 2, 2, 3, 0),
    Call::NotDrawn(0, 99, ShotError::Halted { at: 2, halt: HALT }),
    Call::Keeps(0, 1),
    Call::NotDrawn(0, 80, ShotError::Halted { at: 2, halt: HALT }),
    Call::Work(1, &[100], 1, 1),
    Call::Share(0, 0),
    Call::Share(1, 1),
];

/// The state after 64 frames is halted and is kept, as the share of nothing from a worker's zone shows.
#[test]
fn halted_states_are_kept_by_a_desk(rt: HostRuntime) {
    play_calls(&rt, rt.alloc(), 2, &HALTED);
}
