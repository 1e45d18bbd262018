//! Parts of the history that are reported at once.

use crate::calls::{Call, play_calls};
use crate::changes::Change;
use crate::sessions::history;
use std::alloc::Global;
use std::process::Abort;
use std::sync::Wait;
use tas_desk::{CloseOnDrop, Desk, Name, Receipt, Seat};

/// Whether the part of the history that begins at a place has these entries, in words, and it has this many edits.
pub fn is_part<N: Name, W: CloseOnDrop, R: Wait + Abort>(
    rt: &R,
    alloc: Global,
    desk: &Desk<N, W>,
    seat: &mut Seat<N>,
    from: usize,
    (at, text): (u64, &str),
) -> bool {
    match desk.history_part(rt, alloc, seat, from) {
        Ok(told) => {
            let entries = history(rt, alloc, told.entries.as_slice());
            told.at == at && entries.as_str() == text
        }
        Err(_) => false,
    }
}

static FRAMES: [Call; 14] = [
    Call::Part(1, 0, 0, ""),
    Call::Made(0, Change::Insert(0, 262_144), 1, 262_144),
    Call::Part(1, 0, 1, "0 0 insert 0 262144\n"),
    // A deletion puts in nothing.
    Call::Made(1, Change::Delete(0, 62_144), 2, 200_000),
    Call::Part(1, 0, 2, "0 0 insert 0 262144\n1 0 delete 0 62144\n"),
    // One frame more is one too many.
    Call::Made(1, Change::Insert(5, 1), 3, 200_001),
    Call::Part(0, 0, 3, "0 0 insert 0 262144\n1 0 delete 0 62144\n"),
    Call::Part(0, 1, 3, "1 0 delete 0 62144\n1 1 insert 5 1\n"),
    // Those that are replaced count, too.
    Call::Made(0, Change::Replace(0, 200_000), 4, 200_001),
    Call::Made(0, Change::Replace(0, 62_144), 5, 200_001),
    Call::Part(0, 2, 5, "1 1 insert 5 1\n0 1 replace 0 200000\n"),
    Call::Part(0, 3, 5, "0 1 replace 0 200000\n0 2 replace 0 62144\n"),
    Call::Part(0, 5, 5, ""),
    Call::Part(0, usize::MAX, 5, ""),
];

/// A part puts in as many frames as a movie has at most.
#[test]
fn a_part_has_no_more_frames_than_a_movie(rt: HostRuntime) {
    play_calls(&rt, rt.alloc(), 2, &FRAMES);
}

static COMMITTED: [Call; 5] = [
    Call::Made(0, Change::Insert(0, 262_144), 1, 262_144),
    Call::Committed(
        1,
        1,
        &[Change::Delete(0, 10), Change::Insert(0, 10)],
        Ok(Receipt {
            at: 3,
            len: 262_144,
        }),
    ),
    // There is room for the deletion, but not for the insertion.
    Call::Part(0, 0, 3, "0 0 insert 0 262144\n"),
    Call::Part(0, 1, 3, "1 0 delete 0 10\n1 1 insert 0 10\n"),
    Call::Part(0, 2, 3, "1 1 insert 0 10\n"),
];

/// A part has both edits of a commit or neither.
#[test]
fn a_part_does_not_end_in_a_commit(rt: HostRuntime) {
    play_calls(&rt, rt.alloc(), 2, &COMMITTED);
}

static APART: [Call; 8] = [
    Call::Made(0, Change::Insert(0, 262_144), 1, 262_144),
    Call::Made(1, Change::Delete(0, 10), 2, 262_134),
    Call::Made(0, Change::Insert(0, 1), 3, 262_135),
    Call::Part(1, 0, 3, "0 0 insert 0 262144\n1 0 delete 0 10\n"),
    Call::Made(1, Change::Replace(0, 262_135), 4, 262_135),
    Call::Made(1, Change::Delete(7, 2), 5, 262_133),
    Call::Made(1, Change::Insert(8, 10), 6, 262_143),
    Call::Part(1, 3, 6, "1 1 replace 0 262135\n1 2 delete 7 2\n"),
];

/// Two seats' edits, or those at two places, aren't one commit's.
#[test]
fn a_part_may_end_between_edits_of_two_seats_or_places(rt: HostRuntime) {
    play_calls(&rt, rt.alloc(), 2, &APART);
}
