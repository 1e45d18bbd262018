//! Schedules of eight seats whose jobs and exports wait in gates, with edits and loads in between. What each step tells is
//! compared with a plain model, and the history that the desk leaves is played again.

use crate::changes::{BRIEF_FOLDING, Change, cart};
use crate::checks::{check_same, check_that, expect_ok, expect_some};
use crate::desks::{Task, Told, make_edits, nothing, play};
use crate::model::{Model, PlainMovie};
use crate::replays::make;
use crate::schedule_callers::{Caller, Played, Reply};
use crate::step_order::StepOrder;
use crate::steps::{Action, Answer, EXPORTER, ORDERS, Step, export_steps, job_steps};
use std::alloc::Global;
use std::process::Abort;
use std::sync::Wait;
use std::thread::Threads;
use std::{mem, thread};
use tas_desk::{CloseOnDrop, Closed, Desk, Entry, Name, Seat};
use tas_movie::Movie;

/// The edits before a schedule, by seat 0.
static BEFORE: [Change; 2] = [Change::Load(BRIEF_FOLDING), Change::Insert(0, 200)];

/// Seats that share a thread.
#[derive(Drop)]
struct Group<N: Name> {
    callers: Vec<Caller<N>>,
}

/// Each seat that takes jobs or exports is alone, and all others are together.
fn groups_of<N: Name, R: Abort>(rt: &R, alloc: Global, seats: &mut Vec<Seat<N>>) -> Vec<Group<N>> {
    let mut groups = Vec::new(alloc);
    let mut others = Vec::new(alloc);
    for seat in mem::replace(seats, Vec::new(alloc)) {
        let number = seat.number();
        let caller = Caller::new(alloc, seat);
        if number <= EXPORTER {
            expect_ok(rt, groups.push(alone(rt, alloc, caller)));
        } else {
            expect_ok(rt, others.push(caller));
        }
    }
    expect_ok(rt, groups.push(Group { callers: others }));
    groups
}

/// A seat that is alone on its thread.
fn alone<N: Name, R: Abort>(rt: &R, alloc: Global, caller: Caller<N>) -> Group<N> {
    let mut callers = Vec::new(alloc);
    expect_ok(rt, callers.push(caller));
    Group { callers }
}

/// The steps of one thread, in order.
fn play_group<N: Name, W: CloseOnDrop, R: Threads + Wait + Abort + Sync>(
    rt: &R,
    alloc: Global,
    group: &mut Group<N>,
    played: &Played<'_, N, W>,
) {
    for (number, step) in played.steps.iter().enumerate() {
        play_step(rt, alloc, group, played, number, *step);
    }
}

/// A step, if its seat is in this group.
fn play_step<N: Name, W: CloseOnDrop, R: Threads + Wait + Abort + Sync>(
    rt: &R,
    alloc: Global,
    group: &mut Group<N>,
    played: &Played<'_, N, W>,
    number: usize,
    step: Step,
) {
    for caller in group.callers.iter_mut() {
        if caller.seat.number() == step.seat {
            caller.take(rt, alloc, played, number, step.action);
        }
    }
}

/// Gives a group's seats back, and tells what they were told.
fn leave<N: Name, R: Abort>(rt: &R, group: Group<N>, seats: &mut Vec<Seat<N>>, told: &mut Told) {
    for caller in group.callers {
        let Caller { seat, replies } = caller;
        expect_ok(rt, told.replies.extend_from_slice(replies.as_slice()));
        expect_ok(rt, seats.push(seat));
    }
}

/// All seats take their steps of a schedule, over a movie that seat 0 makes by some edits.
pub fn play_steps<N: Name + Send + Sync, R: Threads + Wait + Abort + Sync>(
    rt: &R,
    alloc: Global,
    desk: &Desk<N, &R>,
    seats: &mut Vec<Seat<N>>,
    told: &mut Told,
    before: &[Change],
    steps: &[Step],
) {
    let first = expect_some(rt, seats.first_mut());
    make_edits(rt, alloc, desk, first, before);
    let mut groups = groups_of(rt, alloc, seats);
    let order = StepOrder::new();
    let played = Played {
        desk,
        order: &order,
        steps,
    };
    thread::for_each_mut(
        rt,
        groups.as_mut_slice(),
        8,
        &|_, group| {
            play_group(rt, alloc, group, &played);
        },
    );
    let was_played = order.was_played(steps.len());
    check_that(rt, "a step that doesn't come", was_played);
    for group in groups {
        leave(rt, group, seats, told);
    }
}

/// Whether a history, played from blank, makes this movie. All its edits are allowed.
fn is_replayed<R: Abort>(rt: &R, alloc: Global, journal: &[Entry], movie: &Movie) -> bool {
    let mut made = expect_ok(rt, Movie::blank(alloc));
    for (number, entry) in journal.iter().enumerate() {
        make(rt, ("entry", number), &mut made, &entry.edit);
    }
    made.inputs() == movie.inputs() && made.cart() == movie.cart()
}

/// Whether the entries after the first two are those of the steps that edit: their seats, and their serials.
fn are_in_order(journal: &[Entry], steps: &[Step]) -> bool {
    let mut made = [0u64; 8];
    let mut place = BEFORE.len();
    for step in steps {
        if let (Action::Edit(_), Some(serial)) = (step.action, made.get_mut(step.seat as usize)) {
            match journal.get(place) {
                Some(entry) if entry.seat == step.seat && entry.serial == *serial => {}
                _ => return false,
            }
            *serial = serial.saturating_add(1);
            place = place.saturating_add(1);
        }
    }
    place == journal.len()
}

/// Each reply is the wanted one of its step, and none of them is missing.
fn check_replies<R: Abort>(
    rt: &R,
    name: (usize, usize),
    replies: &[Reply],
    wanted: &[Option<Answer>],
) {
    for reply in replies {
        let right = *expect_some(rt, wanted.get(reply.step));
        let case = ("schedule, step", name, reply.step);
        check_same(rt, case, Some(reply.answer), right);
    }
    let count = wanted.iter().filter(|answer| answer.is_some()).count();
    check_same(rt, ("schedule", name), replies.len(), count);
}

/// The history that a desk leaves, played from blank, makes the movie that it leaves, by the edits of these steps in their order; and
/// this movie is the model's.
fn check_closed<R: Abort>(
    rt: &R,
    alloc: Global,
    name: (usize, usize),
    closed: &Closed,
    steps: &[Step],
    wanted: &PlainMovie,
) {
    let journal = closed.journal.as_slice();
    let found = [
        is_replayed(rt, alloc, journal, &closed.movie),
        are_in_order(journal, steps),
        *closed.movie.cart() == cart(rt, alloc, wanted.program),
        closed.movie.inputs() == wanted.inputs.as_slice(),
    ];
    check_same(rt, ("schedule", name), found, [true; 4]);
}

/// Plays a schedule. Each reply is the model's, and the desk leaves the model's movie.
fn judge<R: Threads + Wait + Abort + Sync>(
    rt: &R,
    alloc: Global,
    name: (usize, usize),
    steps: &[Step],
) {
    let mut model = Model::new(rt, alloc);
    for change in BEFORE {
        model.edit(rt, alloc, change);
    }
    let wanted = model.replies(rt, alloc, steps);
    let mut told = nothing(alloc);
    let task = Task::Steps(&BEFORE, steps);
    let closed = play(rt, alloc, 8, task, &mut told);
    check_replies(rt, name, told.replies.as_slice(), wanted.as_slice());
    check_closed(rt, alloc, name, &closed, steps, &model.movie);
}

/// What the schedules are of.
#[derive(Clone, Copy)]
enum Kind {
    /// Jobs, taken in the first order and offered in the second one.
    Jobs,
    /// Exports whose runs pass in the first order, over each change that comes first.
    Exports,
}

/// The steps of a schedule with these numbers.
fn steps_of<R: Abort>(rt: &R, alloc: Global, kind: Kind, one: usize, other: usize) -> Vec<Step> {
    let first = ORDERS[one % 6];
    match kind {
        Kind::Jobs => job_steps(rt, alloc, first, ORDERS[other % 6], one.wrapping_add(other)),
        Kind::Exports => export_steps(rt, alloc, first, other),
    }
}

/// All six schedules whose first order has this number.
fn judge_order<R: Threads + Wait + Abort + Sync>(rt: &R, alloc: Global, kind: Kind, one: usize) {
    for other in 0..6usize {
        let steps = steps_of(rt, alloc, kind, one, other);
        judge(rt, alloc, (one, other), steps.as_slice());
    }
}

/// The schedules with these first orders.
fn judge_orders<R: Threads + Wait + Abort + Sync>(
    rt: &R,
    alloc: Global,
    kind: Kind,
    from: usize,
    to: usize,
) {
    for one in from..to {
        judge_order(rt, alloc, kind, one);
    }
}

#[test]
fn jobs_start_in_the_first_orders(rt: HostRuntime) {
    judge_orders(&rt, rt.alloc(), Kind::Jobs, 0, 2);
}

#[test]
fn jobs_start_in_the_next_orders(rt: HostRuntime) {
    judge_orders(&rt, rt.alloc(), Kind::Jobs, 2, 4);
}

#[test]
fn jobs_start_in_the_last_orders(rt: HostRuntime) {
    judge_orders(&rt, rt.alloc(), Kind::Jobs, 4, 6);
}

#[test]
fn runs_of_an_export_pass_in_the_first_orders(rt: HostRuntime) {
    judge_orders(&rt, rt.alloc(), Kind::Exports, 0, 3);
}

#[test]
fn runs_of_an_export_pass_in_the_last_orders(rt: HostRuntime) {
    judge_orders(&rt, rt.alloc(), Kind::Exports, 3, 6);
}
