//! Desks with two seats over a heap: opened, set up, lent and closed.

ghost use Rattle.std.specs.Prelude.{◌≡◌};
ghost use Rattle.tas_desk.specs.Seats.{name_of};

use crate::checks::{check_same, check_that, expect_ok, expect_some};
use crate::desk_tests::{Call, take_call};
use crate::edits::{BRIEF_OF_400, Change, edit_of, history};
use crate::runs::{Heap, NEVER, Run, refuse, refusing};
use std::alloc::Global;
use std::marker::Brand;
use std::process::Abort;
use std::sync::Wait;
use tas_desk::{CloseOnDrop, Closed, Desk, Gate, Name, OpenError, Seat, Unopened};
use tas_green::Batch;

/// A gate that nobody waits at.
#[derive(Drop)]
pub struct OpenGate;

impl Gate for OpenGate {
    fn pass(&self, _piece: usize) {}
}

/// Two edits, which make 200 frames of the playfield.
static PLAYFIELD_OF_200: [Change; 2] = [Change::LoadPlayfield, Change::Insert(0, 200)];

/// Opens a desk over a heap that has the memory for it.
pub fn open<'r, 'a, N: Name, R: Wait + Abort>(
    rt: &'r R,
    heap: &'a Heap,
    unopened: Unopened<&'a Heap>,
) -> (Desk<N, &'r R, &'a Heap>, Vec<Seat<N, &'a Heap>, &'a Heap>)
    requires name { unopened ≡ name_of N.registry N.name N.parts }
{
    expect_ok(rt, Desk::<N, &R, &'a Heap>::open(rt, heap, unopened))
}

/// Closes a desk all of whose seats are back.
pub fn close<'a, N: Name, R: Wait + Abort>(
    rt: &R,
    desk: Desk<N, &R, &'a Heap>,
    seats: Vec<Seat<N, &'a Heap>, &'a Heap>,
) -> Closed<&'a Heap> {
    check_that(rt, "all seats come back", desk.whole(seats.as_slice()));
    desk.close(rt, seats)
}

/// The seat makes these edits.
pub fn make_edits<'a, N: Name, R: Wait + Abort>(
    rt: &R,
    heap: &'a Heap,
    desk: &Desk<N, &R, &'a Heap>,
    seat: &mut Seat<N, &'a Heap>,
    changes: &[Change],
) {
    for change in changes {
        let edit = expect_ok(rt, edit_of(heap, *change));
        expect_ok(rt, desk.edit(rt, seat, edit));
    }
}

/// The states of the grid up to a frame are kept by the desk and by the seat.
pub fn keep_up_to<'a, N: Name, R: Wait + Abort>(
    rt: &R,
    heap: &'a Heap,
    desk: &Desk<N, &R, &'a Heap>,
    seat: &mut Seat<N, &'a Heap>,
    frame: usize,
) {
    expect_ok(rt, desk.work(rt, heap, seat, &[frame], &OpenGate));
    expect_ok(rt, desk.share(rt, seat));
}

/// A seat at a desk, both over a heap that can refuse a growth.
#[derive(Drop)]
pub struct Place<'s, 'a, N: Name, W: CloseOnDrop, R> {
    pub rt: &'s R,
    pub heap: &'a Heap,
    pub desk: &'s Desk<N, W, &'a Heap>,
    pub seat: &'s mut Seat<N, &'a Heap>,
}

impl<N: Name, W: CloseOnDrop, R: Wait + Abort> Place<'_, '_, N, W, R> {
    /// What a job for the first frames makes, in memory that isn't refused.
    pub fn batch(&mut self, alloc: Global, near: usize) -> Batch {
        expect_ok(self.rt, self.desk.job(self.rt, alloc, self.seat, near)).run()
    }
}

/// The first two seats.
pub fn two_seats<'s, 'a, N: Name, R: Abort>(
    rt: &R,
    seats: &'s mut [Seat<N, &'a Heap>],
) -> (&'s mut Seat<N, &'a Heap>, &'s mut Seat<N, &'a Heap>) {
    let (one, others) = expect_some(rt, seats.split_first_mut());
    (one, expect_some(rt, others.first_mut()))
}

/// A run whose history at the end is this one; else it is wrong.
pub fn with_history<R: Abort>(
    rt: &R,
    alloc: Global,
    run: Run,
    closed: &Closed<&Heap>,
    wanted: &str,
) -> Run {
    if history(rt, alloc, closed.journal.as_slice()).as_str() == wanted {
        run
    } else {
        Run::Wrong("another history")
    }
}

/// Seat 0 sets the desk up; then a call with one growth refused, and the same call after it. For most calls it makes four edits, and
/// the states after 64 and 128 frames are kept by the desk and by the seat.
fn take_at<'a, N: Name, R: Wait + Abort>(
    rt: &R,
    alloc: Global,
    heap: &'a Heap,
    desk: &Desk<N, &R, &'a Heap>,
    seats: &mut [Seat<N, &'a Heap>],
    call: Call,
    number: u64,
) -> Run {
    check_same(rt, "seats", seats.len(), 2);
    let (one, other) = two_seats(rt, seats);
    match call {
        Call::TwoJobs => make_edits(rt, heap, desk, one, &PLAYFIELD_OF_200),
        _ => {
            make_edits(rt, heap, desk, one, &BRIEF_OF_400);
            keep_up_to(rt, heap, desk, one, 128);
        }
    }
    let seat = match call {
        Call::Shot | Call::Picture | Call::State | Call::CopyView => one,
        _ => other,
    };
    let mut place = Place {
        rt,
        heap,
        desk,
        seat,
    };
    take_call(&mut place, alloc, call, number)
}

/// A call at a new desk with one growth refused, and the same call after it.
fn run_at<'a, N: Name, R: Wait + Abort>(
    rt: &R,
    alloc: Global,
    heap: &'a Heap,
    unopened: Unopened<&'a Heap>,
    call: Call,
    number: u64,
) -> Run
    requires name { unopened ≡ name_of N.registry N.name N.parts }
{
    let (desk, mut seats) = open::<N, R>(rt, heap, unopened);
    let run = take_at(rt, alloc, heap, &desk, seats.as_mut_slice(), call, number);
    let closed = close(rt, desk, seats);
    with_history(rt, alloc, run, &closed, history_after(call))
}

/// The history at the end: no entry is there twice, and none of a refused edit.
fn history_after(call: Call) -> &'static str {
    match call {
        Call::Edit(Change::Load) => {
            "0 0 load\n0 1 insert 0 200\n0 2 insert 200 200\n0 3 delete 0 0\n1 0 load\n"
        }
        Call::Edit(Change::Insert(..)) => {
            "0 0 load\n0 1 insert 0 200\n0 2 insert 200 200\n0 3 delete 0 0\n1 0 insert 400 3\n"
        }
        Call::Edit(Change::ReplaceRight(..)) => {
            "0 0 load\n0 1 insert 0 200\n0 2 insert 200 200\n0 3 delete 0 0\n1 0 replace 399 1\n"
        }
        Call::Edit(Change::Delete(..)) => {
            "0 0 load\n0 1 insert 0 200\n0 2 insert 200 200\n0 3 delete 0 0\n1 0 delete 100 7\n"
        }
        Call::EditBy => {
            "0 0 load\n0 1 insert 0 200\n0 2 insert 200 200\n0 3 delete 0 0\n1 0 insert 400 3\n"
        }
        Call::Commit => {
            "0 0 load\n0 1 insert 0 200\n0 2 insert 200 200\n0 3 delete 0 0\n1 0 insert 400 3\n1 1 insert 0 2\n"
        }
        Call::TwoJobs => "0 0 load\n0 1 insert 0 200\n",
        _ => "0 0 load\n0 1 insert 0 200\n0 2 insert 200 200\n0 3 delete 0 0\n",
    }
}

/// A call at an opened desk with one growth refused, and the same call after it.
fn run_opened<R: Wait + Abort>(rt: &R, alloc: Global, call: Call, number: u64) -> Run {
    let heap = refusing(alloc, NEVER);
    let unopened = expect_ok(rt, Unopened::new(&heap, 2));
    run_at::<Brand, R>(rt, alloc, &heap, unopened, call, number)
}

/// The opening of a desk with one growth refused. What was to be opened is given up then.
fn open_at<'a, N: Name, R: Wait>(
    rt: &R,
    heap: &'a Heap,
    unopened: Unopened<&'a Heap>,
    number: u64,
) -> Run
    requires name { unopened ≡ name_of N.registry N.name N.parts }
{
    let was_refused = heap.has_refused();
    refuse(heap, number);
    match Desk::<N, &R, &'a Heap>::open(rt, heap, unopened) {
        Ok((_desk, seats)) => Run::ended(
            false,
            !was_refused && !heap.has_refused() && seats.len() == 2,
        ),
        Err(OpenError::Memory) => Run::ended(true, !was_refused && heap.has_refused()),
        Err(OpenError::NoPlace) => Run::Wrong("no place to open"),
    }
}

/// The making of a desk with two seats, of which no growth was refused, and its opening with one growth refused; nothing where memory is
/// refused to the making.
fn make_and_open<R: Wait>(rt: &R, heap: &Heap, number: u64) -> Option<Run> {
    match Unopened::new(heap, 2) {
        Ok(unopened) => Some(open_at::<Brand, R>(rt, heap, unopened, number)),
        Err(OpenError::Memory) => None,
        Err(OpenError::NoPlace) => Some(Run::Wrong("no place to make")),
    }
}

/// The making of a desk that isn't opened yet, with one growth refused, and another one after it, which then opens.
fn run_making<R: Wait>(rt: &R, alloc: Global, number: u64) -> Run {
    let heap = refusing(alloc, number);
    if let Some(run) = make_and_open(rt, &heap, NEVER) {
        return run;
    }
    let has_refused = heap.has_refused();
    refuse(&heap, NEVER);
    let again = make_and_open(rt, &heap, NEVER);
    Run::ended(true, has_refused && again == Some(Run::Done))
}

/// A call at a desk with one growth refused, and the same call after it.
pub fn run_call<R: Wait + Abort>(rt: &R, alloc: Global, call: Call, number: u64) -> Run {
    match call {
        Call::Make => run_making(rt, alloc, number),
        Call::Open => {
            let heap = refusing(alloc, NEVER);
            expect_some(rt, make_and_open(rt, &heap, number))
        }
        _ => run_opened(rt, alloc, call, number),
    }
}
