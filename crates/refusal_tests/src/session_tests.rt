//! Sessions: after each refusal history, movie and kept states are as they were, and the same call is right.

use crate::checks::{check_same, check_that, expect_ok, expect_some};
use crate::edits::{BRIEF_OF_400, Change, edit_of, history, movie_text};
use crate::fixtures::{GRID, has_lacked};
use crate::runs::{
    Heap, NEVER, NOT_AS_BEFORE, NOT_TOLD, Run, count_growths, is_over, refuse, refusing,
};
use std::alloc::{AllocError, Allocator, Global};
use std::process::Abort;
use std::sync::Wait;
use tas_desk::{EditError, OfferError, Offered, OpenError, Receipt, Session, ShotError};
use tas_green::{Batch, Green, Job};
use tas_movie::MAX_FRAMES;
use vcs_machine::{Input, Meter};

/// A call of a session.
#[derive(Clone, Copy)]
enum Turn {
    /// The first edit of all, an insertion.
    First,
    /// The first edit of seat 1, after four of seat 0.
    Edit(Change),
    /// A shot of frame 383, where two states are kept.
    Shot,
    /// A job for all 400 frames.
    Job,
    /// An offer of what a job for all frames made.
    Offer,
}

/// All that a session shows: history, movie and kept states.
fn shown<A: Allocator, R: Abort>(rt: &R, alloc: Global, session: &Session<A>) -> String {
    let mut text = history(rt, alloc, session.journal());
    let movie = movie_text(rt, alloc, session.movie());
    expect_ok(rt, text.push_str(movie.as_str()));
    let kept = kept_text(rt, alloc, session.green());
    expect_ok(rt, text.push_str(kept.as_str()));
    text
}

/// How many states are kept, and after which of the frames on the grid.
fn kept_text<A: Allocator, R: Abort>(rt: &R, alloc: Global, green: &Green<A>) -> String {
    let mut text = expect_ok(rt, format!(in alloc; "{}:", green.count()));
    for frame in GRID.iter() {
        if green.holds(*frame) {
            let place = expect_ok(rt, format!(in alloc; " {frame}"));
            expect_ok(rt, text.push_str(place.as_str()));
        }
    }
    text
}

/// Whether a session shows what it showed before.
fn shows<A: Allocator, R: Abort>(
    rt: &R,
    alloc: Global,
    session: &Session<A>,
    before: &str,
) -> bool {
    shown(rt, alloc, session).as_str() == before
}

/// Seat 0 makes four edits, and keeps the states after 64 and 128 frames.
fn set_up<'a, R: Wait + Abort>(
    rt: &R,
    alloc: Global,
    heap: &'a Heap,
    session: &mut Session<&'a Heap>,
) {
    for change in BRIEF_OF_400.iter() {
        let made = session.at();
        let edit = expect_ok(rt, edit_of(heap, *change));
        expect_ok(rt, session.edit(rt, 0, made, edit));
    }
    let drawn = shoot(alloc, session, 127, 128);
    check_that(rt, "a frame that is drawn", matches!(drawn, Ok(true)));
}

/// A shot: whether it is of a black frame and says that this many were played, and the meter counts as many; out of memory, it counts
/// none.
fn shoot<A: Allocator + Copy, B: Allocator>(
    alloc: B,
    session: &mut Session<A>,
    k: usize,
    ran: u64,
) -> Result<bool, AllocError> {
    let mut meter = Meter::new();
    let len = session.movie().len();
    prove!(len <= MAX_FRAMES);
    match session.shot(alloc, k, &mut meter) {
        Ok(shot) => Ok(shot.ran == ran && shot.picture.lit() == 0 && meter.count() == ran),
        Err(ShotError::Memory) if meter.count() == 0 => Err(AllocError),
        Err(_) => Ok(false),
    }
}

/// An edit, given by seat 1 as its first: whether its receipt is right.
fn make_edit<'a, R: Wait + Abort>(
    rt: &R,
    heap: &'a Heap,
    session: &mut Session<&'a Heap>,
    change: Change,
    number: u64,
) -> Result<bool, AllocError> {
    let receipt = Receipt {
        at: session.at().saturating_add(1),
        len: change.len_after(session.movie().len()),
    };
    let edit = expect_ok(rt, edit_of(heap, change));
    refuse(heap, number);
    match session.edit(rt, 1, 0, edit) {
        Ok(made) => Ok(made == receipt),
        Err(EditError::Memory) => Err(AllocError),
        Err(_) => Ok(false),
    }
}

/// A job: whether it makes what one for all frames does.
fn work<'a>(heap: &'a Heap, session: &Session<&'a Heap>) -> Result<bool, AllocError> {
    match session.job(heap, 400) {
        Ok(job) => Ok(is_of_all(&job.run(), session.movie().inputs())),
        Err(error) => Err(error),
    }
}

/// Whether a batch has these inputs, and the states that a zone with two of them lacks.
fn is_of_all(batch: &Batch<&Heap>, inputs: &[Input]) -> bool {
    batch.inputs() == inputs && has_lacked(batch)
}

/// What an offer of all frames gains.
const ALL: Offered = Offered {
    at: 4,
    front: 400,
    kept: 4,
};

/// What a job for all frames makes, with no state kept.
fn batch_of_all<A: Allocator, R: Abort>(rt: &R, alloc: Global, session: &Session<A>) -> Batch {
    let green = Green::new(alloc);
    expect_ok(rt, Job::take(alloc, session.movie(), &green, 400)).run()
}

/// An offer of the batch that is held: whether it gains what it should. Out of memory, the batch that was handed back is held.
fn offer<A: Allocator + Copy, R: Abort>(
    rt: &R,
    session: &mut Session<A>,
    held: &mut Option<Batch>,
) -> Result<bool, AllocError> {
    match session.offer(expect_some(rt, held.take())) {
        Ok(offered) => Ok(offered == ALL),
        Err(OfferError::Memory(batch)) => {
            *held = Some(batch);
            Err(AllocError)
        }
        Err(OfferError::Cartridge { .. }) => Ok(false),
    }
}

/// The turn with one growth refused: whether it is right, where memory isn't refused.
fn take<'a, R: Wait + Abort>(
    rt: &R,
    heap: &'a Heap,
    session: &mut Session<&'a Heap>,
    held: &mut Option<Batch>,
    turn: Turn,
    number: u64,
) -> Result<bool, AllocError> {
    match turn {
        Turn::First => make_edit(rt, heap, session, Change::Insert(0, 3), number),
        Turn::Edit(change) => make_edit(rt, heap, session, change, number),
        Turn::Shot => {
            refuse(heap, number);
            shoot(heap, session, 383, 256)
        }
        Turn::Job => {
            refuse(heap, number);
            work(heap, session)
        }
        Turn::Offer => {
            refuse(heap, number);
            offer(rt, session, held)
        }
    }
}

/// The turn with one growth refused, and the same turn after it.
fn take_twice<'a, R: Wait + Abort>(
    rt: &R,
    alloc: Global,
    heap: &'a Heap,
    session: &mut Session<&'a Heap>,
    held: &mut Option<Batch>,
    before: &str,
    turn: Turn,
    number: u64,
) -> Run {
    let mut answer = take(rt, heap, session, held, turn, number);
    let has_refused = heap.has_refused();
    if has_refused {
        if answer.is_ok() {
            return NOT_TOLD;
        }
        if !shows(rt, alloc, session, before) {
            return NOT_AS_BEFORE;
        }
        answer = take(rt, heap, session, held, turn, NEVER);
    }
    Run::ended(has_refused, matches!(answer, Ok(true)))
}

/// So is a turn taken where a batch of all frames is held.
fn take_held<'a, R: Wait + Abort>(
    rt: &R,
    alloc: Global,
    heap: &'a Heap,
    session: &mut Session<&'a Heap>,
    turn: Turn,
    number: u64,
) -> Run {
    let mut held = Some(batch_of_all(rt, alloc, session));
    let before = shown(rt, alloc, session);
    take_twice(
        rt,
        alloc,
        heap,
        session,
        &mut held,
        before.as_str(),
        turn,
        number,
    )
}

/// A turn of a session with one growth refused, and the same turn after it.
fn run_turn<R: Wait + Abort>(rt: &R, alloc: Global, turn: Turn, number: u64) -> Run {
    let heap = refusing(alloc, NEVER);
    let mut session = expect_ok(rt, Session::new(&heap));
    match turn {
        Turn::First => {}
        _ => set_up(rt, alloc, &heap, &mut session),
    }
    let run = take_held(rt, alloc, &heap, &mut session, turn, number);
    drop(session.close(rt));
    run
}

/// Whether a session has no edits, and a movie without inputs.
fn is_empty<A: Allocator>(session: &Session<A>) -> bool {
    session.at() == 0 && session.movie().is_empty()
}

/// Whether a new session is empty; nothing where memory is refused.
fn is_new<R: Wait>(rt: &R, heap: &Heap) -> Option<bool> {
    match Session::new(heap) {
        Ok(session) => {
            let is_empty = is_empty(&session);
            drop(session.close(rt));
            Some(is_empty)
        }
        Err(OpenError::Memory) => None,
        Err(OpenError::NoPlace) => Some(false),
    }
}

/// A new session with one growth refused, and another one after it.
fn run_new<R: Wait>(rt: &R, alloc: Global, number: u64) -> Run {
    let heap = refusing(alloc, number);
    let mut is_empty = is_new(rt, &heap);
    let has_refused = heap.has_refused();
    if has_refused {
        if is_empty.is_some() {
            return NOT_TOLD;
        }
        is_empty = is_new(rt, &heap);
    }
    Run::ended(has_refused, is_empty == Some(true))
}

/// A turn of a session, or, where there is none, a new session, with one growth refused, and the same after it.
fn run_call<R: Wait + Abort>(rt: &R, alloc: Global, turn: Option<Turn>, number: u64) -> Run {
    match turn {
        Some(turn) => run_turn(rt, alloc, turn, number),
        None => run_new(rt, alloc, number),
    }
}

/// How many growths the turn of this name, or a new session, has, each of which is refused in turn.
fn growths_of<R: Wait + Abort>(rt: &R, alloc: Global, turn: Option<Turn>, name: &str) -> u64 {
    count_growths(|number| is_over(rt, (name, number), run_call(rt, alloc, turn, number)))
}

/// Each turn, its name, and how many growths it has. The first edit has those of its seat's count, of the second copy of its inputs, of
/// the journal and of the writer's list of edits. The fifth has those of the second copy, of a cartridge or of inputs, which a deletion
/// doesn't have, and of the journal, whose first room was for four. A shot has those of its picture and of the list of states, a job those
/// of its cartridge, its inputs and its list of states, and an offer that of the list of states.
static TURNS: [(Turn, &str, u64); 8] = [
    (Turn::First, "First", 4),
    (Turn::Edit(Change::Load), "Edit(Load)", 2),
    (
        Turn::Edit(Change::Insert(400, 3)),
        "Edit(Insert(400, 3))",
        2,
    ),
    (
        Turn::Edit(Change::ReplaceRight(399, 1)),
        "Edit(ReplaceRight(399, 1))",
        2,
    ),
    (
        Turn::Edit(Change::Delete(100, 7)),
        "Edit(Delete(100, 7))",
        1,
    ),
    (Turn::Shot, "Shot", 2),
    (Turn::Job, "Job", 3),
    (Turn::Offer, "Offer", 1),
];

#[test]
fn what_a_session_does(rt: HostRuntime) {
    for row in TURNS.iter() {
        let (turn, name, growths) = *row;
        let found = growths_of(&rt, rt.alloc(), Some(turn), name);
        check_same(&rt, name, found, growths);
    }
}

/// Two blank movies have two growths each. The writer that shows them has eight: a box for each, what each reader was last seen to do,
/// and the table by which readers tell that they read: its words and its places, each first in a list, and the share of it.
#[test]
fn a_new_session(rt: HostRuntime) {
    let refused = growths_of(&rt, rt.alloc(), None, "a new session");
    check_same(&rt, "refused", refused, 12);
}
