//! Seats on threads of their own. What they were told is compared with the history that the desk leaves.

use crate::callers::{Caller, Habit, meet};
use crate::changes::{Change, FOLDING, HALTING, PLAYFIELD};
use crate::checks::{check_same, check_that, expect_ok, expect_some};
use crate::desks::{Task, Told, nothing, play};
use crate::replays::{Notes, judge};
use crate::schedule_callers::Reply;
use crate::sessions::lengths;
use crate::steps::{Action, Answer, Step};
use std::alloc::Global;
use std::process::Abort;
use std::sync::Wait;
use std::thread::Threads;
use std::{mem, thread};
use tas_desk::{CloseOnDrop, Closed, Desk, Entry, Name, Seat, Worked};

/// How many entries of a seat there are; its serials count up from 0.
fn entries_of<R: Abort>(rt: &R, journal: &[Entry], seat: u32) -> u64 {
    let mut serial = 0u64;
    for (number, entry) in journal.iter().enumerate() {
        if entry.seat == seat {
            check_same(rt, ("entry", number), entry.serial, serial);
            serial = serial.saturating_add(1);
        }
    }
    serial
}

/// The habit of the seat of this number, where they are taken in turn.
fn habit_of(habits: &[Habit], seat: usize) -> Habit {
    if habits.is_empty() {
        return Habit::All;
    }
    habits[seat % habits.len()]
}

/// Callers at all seats; their habits in turn.
fn callers<N: Name, R: Abort>(
    rt: &R,
    alloc: Global,
    seats: &mut Vec<Seat<N>>,
    habits: &[Habit],
) -> Vec<Caller<N>> {
    let mut callers = Vec::new(alloc);
    let all = mem::replace(seats, Vec::new(alloc));
    for seat in all {
        let habit = habit_of(habits, seat.number() as usize);
        expect_ok(rt, callers.push(Caller::new(alloc, seat, habit)));
    }
    callers
}

/// Gives the callers' seats back, and tells what they were told.
fn leave<N: Name, R: Abort>(
    rt: &R,
    callers: Vec<Caller<N>>,
    seats: &mut Vec<Seat<N>>,
    told: &mut Told,
) {
    for caller in callers {
        let Caller { seat, notes, .. } = caller;
        expect_ok(rt, seats.push(seat));
        expect_ok(rt, told.notes.push(notes));
    }
}

#[test]
fn two_seats_on_two_threads(rt: HostRuntime) {
    let mut told = nothing(rt.alloc());
    let inserts = Turns {
        habits: &[Habit::Inserts],
        before: &[],
        turns: 100,
        rounds: 0,
    };
    let closed = play(&rt, rt.alloc(), 2, Task::Turns(inserts), &mut told);
    judge_inserts(&rt, rt.alloc(), &closed, told.notes.as_slice());
}

/// Two seats made 100 edits each, and all that they were told is right.
fn judge_inserts<R: Abort>(rt: &R, alloc: Global, closed: &Closed, all: &[Notes]) {
    let journal = closed.journal.as_slice();
    check_same(rt, "journal, movie", lengths(closed), [200, 200]);
    let counts = [entries_of(rt, journal, 0), entries_of(rt, journal, 1)];
    check_same(rt, "entries_of", counts, [100, 100]);
    check_same(rt, "seats that were told something", all.len(), 2);
    for notes in all {
        check_same(rt, "notes.notes", notes.notes.len(), 300);
        judge(rt, alloc, journal, notes, 300);
    }
}

/// Two callers that take turns and meet.
fn pairs<N: Name, W: CloseOnDrop, R: Threads + Wait + Abort + Sync>(
    rt: &R,
    alloc: Global,
    desk: &Desk<N, W>,
    pair: &mut [Caller<N>],
    rounds: usize,
) {
    if pair.len() != 2 {
        return;
    }
    let (one, other) = pair.split_at_mut(1);
    if let (Some(one), Some(other)) = (one.first_mut(), other.first_mut()) {
        for _round in 0..rounds {
            one.turns(rt, alloc, desk, 2);
            meet(rt, desk, one, other);
            other.turns(rt, alloc, desk, 3);
        }
    }
}

/// Turns that seats take at once.
#[derive(Clone, Copy)]
pub struct Turns<'a> {
    /// The seats' habits in turn.
    pub habits: &'a [Habit],
    /// Edits that seat 0 makes first.
    pub before: &'a [Change],
    /// How many turns each seat takes, on a thread of its own.
    pub turns: usize,
    /// How often pairs of seats take turns then, and meet.
    pub rounds: usize,
}

/// Each seat, on a thread of its own, takes this many turns; then pairs of them do, and meet.
pub fn take_turns_at_once<N: Name + Send + Sync, R: Threads + Wait + Abort + Sync>(
    rt: &R,
    alloc: Global,
    desk: &Desk<N, &R>,
    seats: &mut Vec<Seat<N>>,
    told: &mut Told,
    row: Turns<'_>,
) {
    let mut callers = callers(rt, alloc, seats, row.habits);
    expect_some(rt, callers.first_mut()).edits(rt, alloc, desk, row.before);
    thread::for_each_mut(
        rt,
        callers.as_mut_slice(),
        8,
        &|_, caller| {
            caller.turns(rt, alloc, desk, row.turns);
        },
    );
    thread::for_each_chunk_mut(
        rt,
        callers.as_mut_slice(),
        2,
        &|_, pair| {
            pairs(rt, alloc, desk, pair, row.rounds);
        },
    );
    leave(rt, callers, seats, told);
}

/// All that eight seats were told is right, and there is so much of each at least.
fn judge_all<R: Abort>(rt: &R, alloc: Global, closed: &Closed, all: &[Notes], least: usize) {
    check_same(rt, "all", all.len(), 8);
    let mut made = 0u64;
    for notes in all {
        judge(rt, alloc, closed.journal.as_slice(), notes, least);
        made = made.saturating_add(entries_of(rt, closed.journal.as_slice(), notes.seat));
    }
    check_same(rt, "made", made, closed.journal.len() as u64);
}

/// Eight seats with these habits take this many turns, and all that they were told is right.
fn judge_turns<R: Threads + Wait + Abort + Sync>(
    rt: &R,
    alloc: Global,
    habits: &[Habit],
    turns: usize,
    least: usize,
) {
    let mut told = nothing(alloc);
    let row = Turns {
        habits,
        before: &[Change::Load(FOLDING), Change::Insert(0, 12)],
        turns,
        rounds: 4,
    };
    let closed = play(rt, alloc, 8, Task::Turns(row), &mut told);
    judge_all(rt, alloc, &closed, told.notes.as_slice(), least);
}

#[test]
fn eight_seats_on_eight_threads(rt: HostRuntime) {
    judge_turns(&rt, rt.alloc(), &[Habit::All], 30, 30);
}

#[test]
fn shots_while_others_edit(rt: HostRuntime) {
    judge_turns(&rt, rt.alloc(), &[Habit::Shots, Habit::Edits], 15, 20);
}

/// The edits that make 200 frames.
static FILLED: [Change; 2] = [Change::Load(PLAYFIELD), Change::Insert(0, 200)];

/// Edits, how many states are kept after them, and how many jobs are stale.
static IN_THE_GATE: [(Change, usize, usize); 3] = [
    (Change::Insert(200, 1), 3, 0),
    (Change::ReplaceRight(100), 1, 0),
    (Change::Load(HALTING), 0, 1),
];

/// Work of one seat, whose job waits in its gate until another seat, on another thread, has made an edit.
fn gate_steps(change: Change) -> [Step; 3] {
    [
        Step {
            seat: 0,
            action: Action::Start(192),
        },
        Step {
            seat: 4,
            action: Action::Edit(change),
        },
        Step {
            seat: 0,
            action: Action::Offer,
        },
    ]
}

/// The edit was made, and this is what the work answers.
fn check_work<R: Abort>(rt: &R, change: Change, replies: &[Reply], worked: Worked) {
    for reply in replies {
        match reply.answer {
            Answer::Edit(made) => check_that(rt, change, made.is_ok()),
            answer => check_same(rt, change, answer, Answer::Work(Ok(worked))),
        }
    }
    check_same(rt, change, replies.len(), 2);
}

#[test]
fn jobs_run_outside_the_lock(rt: HostRuntime) {
    for (change, kept, stale) in IN_THE_GATE {
        let worked = Worked {
            jobs: 1,
            kept,
            stale,
        };
        let steps = gate_steps(change);
        let mut told = nothing(rt.alloc());
        let task = Task::Steps(&FILLED, &steps);
        let closed = play(&rt, rt.alloc(), 8, task, &mut told);
        check_same(&rt, "closed.journal", closed.journal.len(), 3);
        check_work(&rt, change, told.replies.as_slice(), worked);
    }
}
