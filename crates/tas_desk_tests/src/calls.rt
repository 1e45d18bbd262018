//! Calls of a desk in short, taken one after the other on one thread.

ghost use Rattle.std.specs.Prelude.{◌≤◌};
ghost use Rattle.tas_desk.specs.Seats.{most_seats};

use crate::answers::{Refused, Shown, commit, edit, export, shoot, view};
use crate::changes::{Change, fire};
use crate::checks::check_that;
use crate::desks::{Task, lend};
use crate::gates::{InOrder, Open};
use crate::part_tests::is_part;
use crate::plan_tests::{first_byte, is_told};
use crate::plans::{Append, FirstOver};
use std::alloc::Global;
use std::process::Abort;
use std::sync::Wait;
use std::thread::Threads;
use tas_desk::{
    CloseOnDrop, Closed, CommitError, Desk, EditError, InputError, MAX_WORKERS, Name, Receipt,
    Seat, Shared, ShotError, StateError, Worked,
};
use vcs_machine::Input;

/// A call of the seat of this number, and its answer.
#[derive(Clone, Copy)]
pub enum Call {
    /// An edit that is made: the number of edits and the length then.
    Made(u32, Change, u64, usize),
    /// An edit that is refused.
    Refused(u32, Change, EditError),
    /// None, one or two edits as one step, where the history has this many.
    Committed(u32, u64, &'static [Change], Result<Receipt, CommitError>),
    /// The number of edits and the length.
    Len(u32, u64, usize),
    /// An input.
    Input(u32, usize, Result<(u64, Input), InputError>),
    /// A shot of a frame: the number of edits, of frames that are played, and of lit pixels.
    Drawn(u32, usize, u64, u64, usize),
    /// A shot of a frame that isn't drawn.
    NotDrawn(u32, usize, ShotError),
    /// A picture of a frame from zone and window: the number of edits, of frames that are played, and of lit pixels.
    Viewed(u32, usize, u64, u64, usize),
    /// A picture of a frame that isn't drawn.
    NotViewed(u32, usize, ShotError),
    /// Pictures of each frame from one to another, forward or back: how many frames are played for all of them.
    Stepped(u32, usize, usize, u64),
    /// Pictures of each frame from one to another by two seats, that of the first from its window: they are the same.
    Alike(u32, u32, usize, usize),
    /// Work on some targets, each of which passes the gate with its index: the number of jobs, none of them stale, and of states
    /// that are kept.
    Work(u32, &'static [usize], usize, usize),
    /// How many states the seat's zone gained.
    Share(u32, usize),
    /// The movie's first input over that of a frame.
    Over(u32, usize, Result<Receipt, EditError>),
    /// This many inputs with the left fire pressed after the movie's last one.
    Appended(u32, usize, Result<Receipt, EditError>),
    /// The entries of the history from a place on, and how many of them at most: the number of edits, and the entries in words.
    Told(u32, (usize, usize), u64, &'static str),
    /// The part of the history that begins at a place: the number of edits, and the entries in words.
    Part(u32, usize, u64, &'static str),
    /// The machine in which a frame begins, where the movie has those up to another: the number of edits, of frames that are played,
    /// and the first byte of memory.
    Began(u32, (usize, usize), Result<(u64, u64, u8), StateError>),
    /// The number of edits of the history whose states the seat's zone gained, and of these states.
    Brought(u32, u64, usize),
    /// An export of some frames by this many workers: how many edits there are, and frames played.
    Exported(u32, (usize, usize), usize, u64, u64),
    /// An export of frames that aren't all there: how many edits and frames there are.
    OutOfRange(u32, (usize, usize), u64, usize),
    /// How many states the seat's zone has.
    Keeps(u32, usize),
    /// The two seats meet, at this many edits.
    Meet(u64),
    /// Whether the seats from one number to the one before another are all seats of the desk.
    Whole(usize, usize, bool),
}

/// What an export tells, and how many bytes were written. Nothing for numbers of workers that no export may have.
fn export_by<N: Name, W: CloseOnDrop, R: Threads + Wait + Sync>(
    rt: &R,
    alloc: Global,
    desk: &Desk<N, W>,
    seat: &mut Seat<N>,
    range: (usize, usize),
    workers: usize,
) -> Option<(Result<(u64, u64), Refused>, usize)> {
    if workers < 1 || workers > MAX_WORKERS {
        return None;
    }
    let (told, bytes, _) = export(rt, alloc, desk, seat, range, workers, &Open, usize::MAX);
    Some((told, bytes))
}

/// What is shown: the frame, the number of edits, of frames that are played, and of lit pixels.
fn shown(answer: Result<Shown, ShotError>) -> Result<(usize, u64, u64, usize), ShotError> {
    match answer {
        Ok(shown) => Ok((shown.frame, shown.at, shown.ran, shown.lit)),
        Err(error) => Err(error),
    }
}

/// The frame this many steps from one to another.
fn stepped(from: usize, to: usize, count: usize) -> usize {
    if from < to {
        from.saturating_add(count)
    } else {
        from.saturating_sub(count)
    }
}

/// How many frames are played for pictures of each frame from one to another, or nothing where one isn't drawn.
fn steps<N: Name, W: CloseOnDrop>(
    alloc: Global,
    desk: &Desk<N, W>,
    seat: &mut Seat<N>,
    from: usize,
    to: usize,
) -> Option<u64> {
    let mut ran = 0u64;
    for count in 0..=from.abs_diff(to) {
        let Ok(shot) = desk.picture(alloc, seat, stepped(from, to, count)) else {
            return None;
        };
        ran = ran.saturating_add(shot.ran);
    }
    Some(ran)
}

/// Whether a look is answered as it says.
fn is_seen<N: Name, W: CloseOnDrop>(
    alloc: Global,
    desk: &Desk<N, W>,
    seat: &mut Seat<N>,
    call: Call,
) -> bool {
    match call {
        Call::Len(_, at, len) => desk.len(seat) == Ok((at, len)),
        Call::Input(_, k, answer) => desk.input(seat, k) == answer,
        Call::Drawn(_, k, at, ran, lit) => {
            shown(shoot(alloc, desk, seat, k)) == Ok((k, at, ran, lit))
        }
        Call::NotDrawn(_, k, error) => shown(shoot(alloc, desk, seat, k)) == Err(error),
        Call::Viewed(_, k, at, ran, lit) => {
            shown(view(alloc, desk, seat, k)) == Ok((k, at, ran, lit))
        }
        Call::NotViewed(_, k, error) => shown(view(alloc, desk, seat, k)) == Err(error),
        Call::Stepped(_, from, to, ran) => steps(alloc, desk, seat, from, to) == Some(ran),
        Call::Keeps(_, count) => seat.kept() == count,
        Call::Began(_, range, answer) => first_byte(desk, seat, range) == answer,
        _ => false,
    }
}

/// Whether a call of one seat is answered as it says.
fn is_answered<N: Name, W: CloseOnDrop, R: Threads + Wait + Abort + Sync>(
    rt: &R,
    alloc: Global,
    desk: &Desk<N, W>,
    seat: &mut Seat<N>,
    call: Call,
) -> bool {
    match call {
        Call::Made(_, change, at, len) => {
            edit(rt, alloc, desk, seat, change) == Ok(Receipt { at, len })
        }
        Call::Refused(_, change, error) => edit(rt, alloc, desk, seat, change) == Err(error),
        Call::Committed(_, at, changes, answer) => {
            commit(rt, alloc, desk, seat, at, changes) == answer
        }
        Call::Work(_, targets, jobs, kept) => {
            let gate = InOrder::new();
            let told = desk.work(rt, alloc, seat, targets, &gate);
            let stale = 0;
            told == Ok(Worked { jobs, kept, stale }) && gate.was_passed_by(targets.len())
        }
        Call::Share(_, gained) => desk.share(rt, seat).ok() == Some(gained),
        Call::Brought(_, at, gained) => desk.bring(rt, seat) == Ok(Shared { at, gained }),
        Call::Over(_, place, answer) => desk.edit_by(rt, seat, &FirstOver { place }) == answer,
        Call::Appended(_, count, answer) => {
            let input = fire();
            desk.edit_by(rt, seat, &Append { input, count }) == answer
        }
        Call::Told(_, range, at, text) => is_told(rt, alloc, desk, seat, range, (at, text)),
        Call::Part(_, from, at, text) => is_part(rt, alloc, desk, seat, from, (at, text)),
        Call::Exported(_, (from, to), workers, at, played) => {
            let bytes = to.saturating_sub(from).saturating_mul(100_815);
            let told = export_by(rt, alloc, desk, seat, (from, to), workers);
            told == Some((Ok((at, played)), bytes))
        }
        Call::OutOfRange(_, range, at, len) => {
            let out = Refused::Range { at, len };
            export_by(rt, alloc, desk, seat, range, 3) == Some((Err(out), 0))
        }
        _ => is_seen(alloc, desk, seat, call),
    }
}

/// The number of the seat that calls. Seat 0 meets seat 1.
fn caller(call: Call) -> u32 {
    match call {
        Call::Made(seat, ..)
        | Call::Refused(seat, ..)
        | Call::Committed(seat, ..)
        | Call::Len(seat, ..)
        | Call::Input(seat, ..)
        | Call::Drawn(seat, ..)
        | Call::NotDrawn(seat, ..)
        | Call::Viewed(seat, ..)
        | Call::NotViewed(seat, ..)
        | Call::Stepped(seat, ..)
        | Call::Alike(seat, ..)
        | Call::Work(seat, ..)
        | Call::Share(seat, ..)
        | Call::Exported(seat, ..)
        | Call::OutOfRange(seat, ..)
        | Call::Over(seat, ..)
        | Call::Appended(seat, ..)
        | Call::Told(seat, ..)
        | Call::Part(seat, ..)
        | Call::Began(seat, ..)
        | Call::Brought(seat, ..)
        | Call::Keeps(seat, _) => seat,
        Call::Meet(_) | Call::Whole(..) => 0,
    }
}

/// Whether seats 0 and 1 meet at this many edits.
fn is_met<N: Name, W: CloseOnDrop, R: Wait>(
    rt: &R,
    desk: &Desk<N, W>,
    seats: &mut [Seat<N>],
    at: u64,
) -> bool {
    match seats {
        [one, other, ..] => desk.meet(rt, one, other) == at,
        _ => false,
    }
}

/// Whether [`Desk::whole`] returns this answer for these seats.
fn is_whole<N: Name, W: CloseOnDrop>(
    desk: &Desk<N, W>,
    seats: &[Seat<N>],
    (from, to): (usize, usize),
    answer: bool,
) -> bool {
    match seats.get(from..to) {
        Some(some) => desk.whole(some) == answer,
        None => false,
    }
}

/// Whether a seat's pictures of each frame from one to another are those that another seat shoots.
fn are_alike<N: Name, W: CloseOnDrop>(
    alloc: Global,
    desk: &Desk<N, W>,
    seats: &mut [Seat<N>],
    (one, other): (u32, u32),
    (from, to): (usize, usize),
) -> bool {
    for count in 0..=from.abs_diff(to) {
        let k = stepped(from, to, count);
        let viewed = look(alloc, desk, seats, one, k, true);
        if viewed.is_none() || viewed != look(alloc, desk, seats, other, k, false) {
            return false;
        }
    }
    true
}

/// The number of edits, and the sum of the picture that a seat sees of a frame: from its window, or by a shot.
fn look<N: Name, W: CloseOnDrop>(
    alloc: Global,
    desk: &Desk<N, W>,
    seats: &mut [Seat<N>],
    number: u32,
    k: usize,
    from_window: bool,
) -> Option<(u64, (usize, u64))> {
    let seat = seats.get_mut(number as usize)?;
    let answer = if from_window {
        view(alloc, desk, seat, k)
    } else {
        shoot(alloc, desk, seat, k)
    };
    match answer {
        Ok(shown) => Some((shown.at, shown.sum)),
        Err(_) => None,
    }
}

/// Whether the call is answered as it says.
fn is_taken<N: Name, W: CloseOnDrop, R: Threads + Wait + Abort + Sync>(
    rt: &R,
    alloc: Global,
    desk: &Desk<N, W>,
    seats: &mut [Seat<N>],
    call: Call,
) -> bool {
    match call {
        Call::Meet(at) => is_met(rt, desk, seats, at),
        Call::Whole(from, to, answer) => is_whole(desk, seats, (from, to), answer),
        Call::Alike(one, other, from, to) => are_alike(
            alloc,
            desk,
            seats,
            (one, other),
            (from, to),
        ),
        _ => match seats.get_mut(caller(call) as usize) {
            Some(seat) => is_answered(rt, alloc, desk, seat, call),
            None => false,
        },
    }
}

/// Takes calls in order, on one thread.
pub fn take_calls<N: Name + Send + Sync, R: Threads + Wait + Abort + Sync>(
    rt: &R,
    alloc: Global,
    desk: &Desk<N, &R>,
    seats: &mut [Seat<N>],
    calls: &[Call],
) {
    for (number, call) in calls.iter().enumerate() {
        let is_right = is_taken(rt, alloc, desk, seats, *call);
        check_that(rt, ("call", number), is_right);
    }
}

/// Takes calls in order at a desk of this many seats, and returns what it leaves.
pub fn play_calls<R: Threads + Wait + Abort + Sync>(
    rt: &R,
    alloc: Global,
    seats: u32,
    calls: &[Call],
) -> Closed
    requires { (1 ≤ seats) × (seats ≤ most_seats) }
{
    lend(rt, alloc, seats, Task::Calls(calls))
}
