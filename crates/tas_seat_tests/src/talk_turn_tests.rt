//! Drafts of two seats in conversations.

ghost use Rattle.std.specs.Prelude.{◌≡◌, ◌≤◌};
ghost use Rattle.tas_desk.specs.Seats.{name_of};

use crate::checks::{check_that, expect_ok, expect_some};
use crate::turns::{LOADED, Turn, check_lengths, play, take_turns};
use refusals::Refusing;
use std::alloc::Global;
use std::marker::Brand;
use std::process::Abort;
use std::sync::Wait;
use tas_desk::{Desk, Name, Unopened};
use tas_engines::RunFault;
use tas_language::Request;
use tas_seat::{Draft, answer_talk};

static COMMITTED: [Turn; 19] = [
    (0, "load2 7FC=00F0", "edit 1 len 0\n"),
    (0, "insert 0 200 ..... ..... .....", "edit 2 len 200\n"),
    (0, "commit", "no draft\n"),
    (0, "drop", "no draft\n"),
    (0, "begin", "begin 2 200\n"),
    (0, "begin", "in draft\n"),
    (0, "press 100 1 R.... ..... .....", "edit 3 len 200\n"),
    (0, "insert 150 2 ....F ..... .....", "edit 4 len 202\n"),
    (0, "delete 201 2", "place 4 len 202\n"),
    (0, "input 100", "input 4 R.... ..... .....\n"),
    (0, "load2 7FC=00F0", "in draft\n"),
    (0, "len", "len 4 202\n"),
    (1, "len", "len 2 200\n"),
    (0, "history 2", "history 2 2 0 0\n"),
    (0, "share", "share 2 0\n"),
    (0, "commit", "commit 4 202\n"),
    (
        1,
        "history 2",
        "history 4 2 2 124\n2 0 delete 100 50\n3 0 insert 100 1 R.... ..... .....\n3 0 insert 101 49 ..... ..... .....\n3 0 insert 150 2 ....F ..... .....\n",
    ),
    (0, "commit", "no draft\n"),
    (0, "input 151", "input 4 ....F ..... .....\n"),
];

/// The changes of a draft are one step of the history, a deletion and an insertion.
#[test]
fn a_commit_makes_the_draft(rt: HostRuntime) {
    let closed = play(&rt, rt.alloc(), &COMMITTED);
    check_lengths(&rt, &closed, 4, 202);
}

static MOVED: [Turn; 17] = [
    (0, "insert 0 10 ..... ..... .....", "edit 1 len 10\n"),
    (1, "begin", "begin 1 10\n"),
    (0, "begin", "begin 1 10\n"),
    (1, "press 3 1 R.... ..... .....", "edit 2 len 10\n"),
    (1, "insert 0 1 ....F ..... .....", "edit 3 len 11\n"),
    (0, "delete 9 1", "edit 2 len 9\n"),
    (0, "len", "len 2 9\n"),
    (0, "commit", "commit 2 9\n"),
    (0, "len", "len 2 9\n"),
    (1, "commit", "moved 2\n"),
    (1, "len", "len 3 11\n"),
    (1, "history 1", "history 2 1 1 15\n1 0 delete 9 1\n"),
    (1, "commit", "moved 2\n"),
    (1, "drop", "dropped\n"),
    (1, "begin", "begin 2 9\n"),
    (1, "press 3 1 R.... ..... .....", "edit 3 len 9\n"),
    (1, "commit", "commit 3 9\n"),
];

/// Of two drafts of one movie the first that is committed is made. The other stays open, and is made of a later movie or not at all.
#[test]
fn a_draft_is_made_of_the_movie_that_it_began_with(rt: HostRuntime) {
    let closed = play(&rt, rt.alloc(), &MOVED);
    check_lengths(&rt, &closed, 3, 9);
}

/// Seat 1 has a draft, and seat 0 edits the movie.
static EDITED: [Turn; 4] = [
    (0, "insert 0 10 ..... ..... .....", "edit 1 len 10\n"),
    (1, "begin", "begin 1 10\n"),
    (1, "press 3 1 R.... ..... .....", "edit 2 len 10\n"),
    (0, "delete 9 1", "edit 2 len 9\n"),
];

/// Commits the draft with this growth refused, counted from the `commit`: it is answered `moved`, or not at all. Whether there was such a growth.
fn moves_without<'a, N: Name, R: Wait + Abort>(
    rt: &R,
    heap: &'a Refusing<Global>,
    unopened: Unopened<&'a Refusing<Global>>,
    number: u64,
) -> bool
    requires name { unopened ≡ name_of N.registry N.name N.parts }
    requires number { 1 ≤ number }
{
    let (desk, mut seats) = expect_ok(
        rt,
        Desk::<N, &R, &Refusing<Global>>::open(rt, heap, unopened),
    );
    let mut drafts: [Option<Draft<&Refusing<Global>>>; 2] = [None, None];
    take_turns(rt, heap, &desk, seats.as_mut_slice(), &mut drafts, &EDITED);
    check_that(rt, "two seats", seats.len() == 2);
    heap.refuse(number);
    let answer = answer_talk(
        rt,
        heap,
        &desk,
        &mut seats[1],
        &mut drafts[1],
        Request::Commit,
    );
    match answer {
        Ok(Some(bytes)) => check_that(
            rt,
            ("moved", number),
            bytes.as_slice() == b"moved 2\n".as_slice(),
        ),
        Ok(None) => check_that(rt, ("an answer", number), false),
        Err(fault) => check_that(rt, ("memory", number), fault == RunFault::Memory),
    }
    heap.has_refused()
}

/// The same under a name.
fn moves_under_a_name<R: Wait + Abort>(rt: &R, alloc: Global, number: u64) -> bool
    requires { 1 ≤ number }
{
    let heap = Refusing::new(alloc, u64::MAX);
    let unopened = expect_ok(rt, Unopened::new(&heap, 2));
    moves_without::<Brand, R>(rt, &heap, unopened, number)
}

/// A commit that others' edits refuse says so, whichever growth is refused: no memory is asked for but its answer's.
#[test]
fn a_commit_has_moved_before_it_is_out_of_memory(rt: HostRuntime) {
    let mut refused = 0u64;
    for number in 1..10 {
        if moves_under_a_name(&rt, rt.alloc(), number) {
            refused = refused.saturating_add(1);
        }
    }
    check_that(&rt, "growths", 0 < refused && refused < 9);
}

static SHARED: [Turn; 12] = [
    LOADED,
    (0, "insert 0 200 ..... ..... .....", "edit 2 len 200\n"),
    (0, "begin", "begin 2 200\n"),
    (1, "work 200", "work jobs 1 kept 3 stale 0\n"),
    (0, "states", "states 2 0\n"),
    (0, "share", "share 2 3\n"),
    (0, "states", "states 2 0\n"),
    (1, "replace 100 1 R.... ..... .....", "edit 3 len 200\n"),
    (0, "share", "share 3 0\n"),
    (0, "len", "len 2 200\n"),
    (0, "drop", "dropped\n"),
    (0, "states", "states 3 1 64\n"),
];

/// In a draft `share` is about the desk: it names the desk's edits, and the draft gains nothing.
#[test]
fn share_in_a_draft_is_about_the_desk(rt: HostRuntime) {
    play(&rt, rt.alloc(), &SHARED);
}

static FILLED: [Turn; 5] = [
    LOADED,
    (0, "insert 0 200 ..... ..... .....", "edit 2 len 200\n"),
    (1, "work 200", "work jobs 1 kept 3 stale 0\n"),
    (0, "begin", "begin 2 200\n"),
    (0, "states", "states 2 3 64 128 192\n"),
];

/// A draft begins with the states that another seat's work has filled.
#[test]
fn a_draft_begins_with_the_desks_states(rt: HostRuntime) {
    play(&rt, rt.alloc(), &FILLED);
}

static LOST: [Turn; 5] = [
    (0, "insert 0 10 ..... ..... .....", "edit 1 len 10\n"),
    (0, "begin", "begin 1 10\n"),
    (0, "delete 0 9", "edit 2 len 1\n"),
    (1, "len", "len 1 10\n"),
    (1, "history 1", "history 1 1 0 0\n"),
];

/// Nobody sees a draft of another seat, and one that isn't committed is lost.
#[test]
fn a_draft_that_is_not_committed_is_lost(rt: HostRuntime) {
    let closed = play(&rt, rt.alloc(), &LOST);
    check_lengths(&rt, &closed, 1, 10);
}
