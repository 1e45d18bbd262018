//! Edits that are made as one step: each with its answer, and the history that they leave.

use crate::calls::{Call, play_calls};
use crate::changes::{Change, PLAYFIELD};
use crate::sessions::check_history;
use tas_desk::{CommitError, EditError, Receipt};

/// Nothing, the first two edits, and one edit of the other seat, which first says how many edits it has seen.
static STEPS: [Call; 9] = [
    Call::Committed(0, 0, &[], Ok(Receipt { at: 0, len: 0 })),
    Call::Committed(1, 1, &[], Err(CommitError::Moved { at: 0 })),
    Call::Committed(
        0,
        0,
        &[Change::Load(PLAYFIELD), Change::Insert(0, 200)],
        Ok(Receipt { at: 2, len: 200 }),
    ),
    Call::Committed(
        1,
        0,
        &[Change::Delete(0, 1)],
        Err(CommitError::Moved { at: 2 }),
    ),
    Call::Committed(
        1,
        1,
        &[Change::Delete(0, 1)],
        Err(CommitError::Moved { at: 2 }),
    ),
    Call::Committed(
        1,
        2,
        &[Change::Delete(0, 1)],
        Ok(Receipt { at: 3, len: 199 }),
    ),
    Call::Committed(
        0,
        2,
        &[Change::Delete(0, 1)],
        Err(CommitError::Moved { at: 3 }),
    ),
    Call::Committed(
        0,
        3,
        &[Change::Delete(10, 5), Change::Insert(10, 7)],
        Ok(Receipt { at: 5, len: 201 }),
    ),
    Call::Made(0, Change::Delete(0, 1), 6, 200),
];

#[test]
fn a_step_is_made_where_nobody_has_edited_since(rt: HostRuntime) {
    let closed = play_calls(&rt, rt.alloc(), 2, &STEPS);
    let text =
        "0 0 load\n0 1 insert 0 200\n1 0 delete 0 1\n0 2 delete 10 5\n0 3 insert 10 7\n0 4 delete 0 1\n";
    check_history(&rt, rt.alloc(), &closed, text);
}

/// The second edit is allowed in the movie before the first, and the other way round.
static REFUSED: [Call; 7] = [
    Call::Made(0, Change::Insert(0, 20), 1, 20),
    Call::Committed(
        1,
        1,
        &[Change::Delete(0, 5), Change::Delete(18, 1)],
        Err(CommitError::Refused(EditError::Place {
            at: 1,
            place: 18,
            len: 15,
        })),
    ),
    Call::Committed(
        1,
        1,
        &[Change::Delete(18, 3), Change::Insert(0, 1)],
        Err(CommitError::Refused(EditError::Place {
            at: 1,
            place: 18,
            len: 20,
        })),
    ),
    Call::Len(1, 1, 20),
    Call::Len(0, 1, 20),
    Call::Committed(
        1,
        1,
        &[Change::Insert(0, 5), Change::Delete(22, 3)],
        Ok(Receipt { at: 3, len: 22 }),
    ),
    Call::Len(0, 3, 22),
];

#[test]
fn where_the_second_edit_is_refused_the_first_is_not_made(rt: HostRuntime) {
    let closed = play_calls(&rt, rt.alloc(), 2, &REFUSED);
    let text = "0 0 insert 0 20\n1 0 insert 0 5\n1 1 delete 22 3\n";
    check_history(&rt, rt.alloc(), &closed, text);
}
