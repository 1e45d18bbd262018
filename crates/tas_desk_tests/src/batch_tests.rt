//! Batches of jobs, offered to their desk or to another one.

use crate::answers::{Answered, offer};
use crate::changes::{Change, HALTING, PLAYFIELD};
use crate::checks::{check_same, expect_ok, expect_some};
use crate::desks::{Task, lend, make_edits, nothing, play};
use std::alloc::Global;
use std::process::Abort;
use std::sync::Wait;
use std::thread::Threads;
use tas_desk::{CloseOnDrop, Desk, Name, Offered, Seat};
use tas_green::Batch;

/// The edits that make 200 frames.
const FILLED: [Change; 2] = [Change::Load(PLAYFIELD), Change::Insert(0, 200)];

/// A batch of all of 200 frames.
fn batch<N: Name, W: CloseOnDrop, R: Wait + Abort>(
    rt: &R,
    alloc: Global,
    desk: &Desk<N, W>,
    seat: &mut Seat<N>,
) -> Batch {
    expect_ok(rt, desk.job(rt, alloc, seat, 200)).run()
}

/// Makes edits and offers a batch after them: the answer, and how many states the seat's zone gains then.
fn offer_behind<N: Name, W: CloseOnDrop, R: Wait + Abort>(
    rt: &R,
    alloc: Global,
    desk: &Desk<N, W>,
    seat: &mut Seat<N>,
    edits: &[Change],
    batch: Batch,
) -> (Answered, usize) {
    make_edits(rt, alloc, desk, seat, edits);
    let answered = offer(rt, desk, seat, batch);
    (answered, expect_ok(rt, desk.share(rt, seat)))
}

/// The offers of three batches of 200 frames: two once input 100 is another one, the third behind another cartridge. How many
/// states the seat's zone gains at each.
static THREE: [(&str, &[Change], Answered, usize); 3] = [
    (
        "first",
        &[Change::ReplaceRight(100)],
        Answered::Taken(Offered {
            at: 3,
            front: 100,
            kept: 1,
        }),
        1,
    ),
    (
        "second",
        &[],
        Answered::Taken(Offered {
            at: 3,
            front: 100,
            kept: 0,
        }),
        0,
    ),
    (
        "third",
        &[Change::Load(HALTING)],
        Answered::OtherCartridge(4),
        0,
    ),
];

/// Offers one of three batches.
fn offer_one<N: Name, W: CloseOnDrop, R: Wait + Abort>(
    rt: &R,
    alloc: Global,
    desk: &Desk<N, W>,
    seat: &mut Seat<N>,
    number: usize,
    batch: Batch,
) {
    let (name, edits, answer, gained) = THREE[number % 3];
    let told = offer_behind(rt, alloc, desk, seat, edits, batch);
    check_same(rt, name, told, (answer, gained));
}

/// Three batches of 200 frames, offered one after the other.
pub fn offer_three_batches<N: Name + Send + Sync, R: Threads + Wait + Abort + Sync>(
    rt: &R,
    alloc: Global,
    desk: &Desk<N, &R>,
    seats: &mut [Seat<N>],
) {
    let seat = expect_some(rt, seats.first_mut());
    make_edits(rt, alloc, desk, seat, &FILLED);
    let first = batch(rt, alloc, desk, seat);
    let second = batch(rt, alloc, desk, seat);
    let third = batch(rt, alloc, desk, seat);
    offer_one(rt, alloc, desk, seat, 0, first);
    offer_one(rt, alloc, desk, seat, 1, second);
    offer_one(rt, alloc, desk, seat, 2, third);
}

#[test]
fn three_batches_are_offered_to_a_desk(rt: HostRuntime) {
    let closed = lend(&rt, rt.alloc(), 1, Task::ThreeBatches);
    check_same(&rt, "closed.journal", closed.journal.len(), 4);
}

/// A job for all of 200 frames is taken and run: its batch.
pub fn take_batch<N: Name, W: CloseOnDrop, R: Wait + Abort>(
    rt: &R,
    alloc: Global,
    desk: &Desk<N, W>,
    seats: &mut [Seat<N>],
) -> Batch {
    let seat = expect_some(rt, seats.first_mut());
    make_edits(rt, alloc, desk, seat, &FILLED);
    batch(rt, alloc, desk, seat)
}

/// A batch is offered to a movie of 100 frames of the same cartridge.
pub fn give_batch<N: Name, W: CloseOnDrop, R: Wait + Abort>(
    rt: &R,
    alloc: Global,
    desk: &Desk<N, W>,
    seats: &mut [Seat<N>],
    batch: Batch,
) {
    let seat = expect_some(rt, seats.first_mut());
    let edits = [Change::Load(PLAYFIELD), Change::Insert(0, 100)];
    let told = offer_behind(rt, alloc, desk, seat, &edits, batch);
    let taken = Answered::Taken(Offered {
        at: 2,
        front: 100,
        kept: 1,
    });
    check_same(rt, "offer, share", told, (taken, 1));
}

#[test]
fn a_batch_goes_from_one_desk_to_another(rt: HostRuntime) {
    let mut told = nothing(rt.alloc());
    play(&rt, rt.alloc(), 8, Task::TakeBatch, &mut told);
    let batch = expect_some(&rt, told.batch.as_ref());
    let held = [batch.holds(64), batch.holds(128), batch.holds(192)];
    check_same(&rt, "batch", held, [true, true, true]);
    let closed = play(&rt, rt.alloc(), 8, Task::GiveBatch, &mut told);
    check_same(&rt, "closed.movie", closed.movie.len(), 100);
}
