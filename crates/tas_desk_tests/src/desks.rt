//! Desks for tests: opened, lent with all their seats, and closed.

ghost use Rattle.std.specs.Prelude.{◌≡◌, ◌≤◌};
ghost use Rattle.tas_desk.specs.Seats.{most_seats, name_of};

use crate::answers::edit;
use crate::batch_tests::{give_batch, offer_three_batches, take_batch};
use crate::calls::{Call, take_calls};
use crate::changes::Change;
use crate::checks::{check_that, expect_ok, expect_some};
use crate::export_tests::{
    Case, export_by_each, export_cases, export_longest, export_through_gates,
};
use crate::replays::Notes;
use crate::schedule_callers::Reply;
use crate::schedule_tests::play_steps;
use crate::steps::Step;
use crate::thread_tests::{Turns, take_turns_at_once};
use std::alloc::Global;
use std::marker::Brand;
use std::process::Abort;
use std::sync::Wait;
use std::thread::Threads;
use tas_desk::{CloseOnDrop, Closed, Desk, Name, Seat, Unopened};
use tas_green::Batch;

/// What is done at a desk.
#[derive(Clone, Copy)]
pub enum Task<'a> {
    /// Calls in order, on one thread.
    Calls(&'a [Call]),
    /// Three batches are offered, with edits between them.
    ThreeBatches,
    /// Exports of this many frames by each number of workers.
    ExportByEach(usize),
    /// Exports whose workers wait for each other.
    ExportThroughGates,
    /// Exports of the movie that these edits make.
    Exports(&'a [Change], &'a [Case]),
    /// The longest export, by every fourth number of workers from the first one on, 0 for one worker.
    ExportLongest(usize),
    /// Each seat, on a thread of its own, takes turns, and then pairs of them do.
    Turns(Turns<'a>),
    /// The steps of a schedule, behind some edits.
    Steps(&'a [Change], &'a [Step]),
    /// A job is taken and run.
    TakeBatch,
    /// A batch that is told, of another desk, is offered.
    GiveBatch,
}

/// What comes of it.
#[derive(Drop)]
pub struct Told {
    /// What seats on threads of their own were told.
    pub notes: Vec<Notes>,
    /// The replies of a schedule.
    pub replies: Vec<Reply>,
    /// A job's batch, until it is offered.
    pub batch: Option<Batch>,
}

/// Nothing was told yet.
pub fn nothing(alloc: Global) -> Told {
    Told {
        notes: Vec::new(alloc),
        replies: Vec::new(alloc),
        batch: None,
    }
}

/// Does a task at a desk with all its seats.
fn take<N: Name + Send + Sync, R: Threads + Wait + Abort + Sync>(
    rt: &R,
    alloc: Global,
    desk: &Desk<N, &R>,
    seats: &mut Vec<Seat<N>>,
    task: Task<'_>,
    told: &mut Told,
) {
    match task {
        Task::Calls(calls) => take_calls(rt, alloc, desk, seats, calls),
        Task::ThreeBatches => offer_three_batches(rt, alloc, desk, seats),
        Task::ExportByEach(frames) => export_by_each(rt, alloc, desk, seats, frames),
        Task::ExportThroughGates => export_through_gates(rt, alloc, desk, seats),
        Task::Exports(changes, cases) => export_cases(rt, alloc, desk, seats, changes, cases),
        Task::ExportLongest(first) => export_longest(rt, alloc, desk, seats, first),
        Task::Turns(row) => take_turns_at_once(rt, alloc, desk, seats, told, row),
        Task::Steps(before, steps) => {
            play_steps(rt, alloc, desk, seats, told, before, steps);
        }
        Task::TakeBatch => told.batch = Some(take_batch(rt, alloc, desk, seats)),
        Task::GiveBatch => {
            let batch = expect_some(rt, told.batch.take());
            give_batch(rt, alloc, desk, seats, batch);
        }
    }
}

/// Opens the desk, does the task and closes the desk.
fn play_at<N: Name + Send + Sync, R: Threads + Wait + Abort + Sync>(
    rt: &R,
    alloc: Global,
    unopened: Unopened,
    task: Task<'_>,
    told: &mut Told,
) -> Closed
    requires name { unopened ≡ name_of N.registry N.name N.parts }
{
    let (desk, mut seats) = expect_ok(rt, Desk::<N, &R>::open(rt, alloc, unopened));
    take(rt, alloc, &desk, &mut seats, task, told);
    check_that(rt, "all seats come back", desk.whole(seats.as_slice()));
    desk.close(rt, seats)
}

/// Does a task at a desk of this many seats: what the desk leaves.
pub fn play<R: Threads + Wait + Abort + Sync>(
    rt: &R,
    alloc: Global,
    seats: u32,
    task: Task<'_>,
    told: &mut Told,
) -> Closed
    requires { (1 ≤ seats) × (seats ≤ most_seats) }
{
    let unopened = expect_ok(rt, Unopened::new(alloc, seats));
    play_at::<Brand, R>(rt, alloc, unopened, task, told)
}

/// Does a task of which nothing is reported: what the desk leaves.
pub fn lend<R: Threads + Wait + Abort + Sync>(
    rt: &R,
    alloc: Global,
    seats: u32,
    task: Task<'_>,
) -> Closed
    requires { (1 ≤ seats) × (seats ≤ most_seats) }
{
    play(rt, alloc, seats, task, &mut nothing(alloc))
}

/// The seat makes these edits, each of which is accepted.
pub fn make_edits<N: Name, W: CloseOnDrop, R: Wait + Abort>(
    rt: &R,
    alloc: Global,
    desk: &Desk<N, W>,
    seat: &mut Seat<N>,
    changes: &[Change],
) {
    for change in changes {
        let made = edit(rt, alloc, desk, seat, *change);
        check_that(rt, *change, made.is_ok());
    }
}
