//! Desks whose seats call on threads of their own, with one growth of them all refused: the call that met it reports out of
//! memory and is right when it is made again, and each other call is right.
//!
//! Three seats get their threads by two joins, one in the other: the allocator is lent, so the type of such a seat
//! names a lifetime, and the toolchain has no closure that is handed a value of such a type, as a loop over threads
//! would need.

ghost use Rattle.std.specs.Prelude.{◌≡◌};
ghost use Rattle.tas_desk.specs.Seats.{name_of};

use crate::callers::{Caller, FIRST_AT, FIRST_LEN, FRAME, Shared, TURNS, sum_of};
use crate::checks::{check_that, expect_ok, expect_some};
use crate::desks::{close, make_edits, open};
use crate::edits::{Change, FOLDING_OF_72, edit_of, make_all};
use crate::runs::{Heap, NEVER, Run, count_growths, is_over, refuse, refusing};
use std::alloc::Global;
use std::marker::Brand;
use std::process::Abort;
use std::sync::Wait;
use std::thread::{Threads, join_mut};
use tas_desk::{CloseOnDrop, Closed, Desk, Name, Seat, Unopened};
use tas_movie::{Edit, Movie};
use vcs_machine::{Meter, State, play};
use vcs_tia::Picture;

/// How many edits all callers make.
const EDITS: usize = 6;

/// What a caller puts in.
const INSERTED: Change = Change::InsertUp(64);

/// The movie's frame, played from power-on: the sum over its picture.
fn drawn_sum<R: Abort>(rt: &R, alloc: Global, movie: &Movie) -> u64 {
    let mut picture = expect_ok(rt, Picture::blank(alloc));
    let mut state = State::power_on(movie.cart());
    for input in movie.inputs().iter().take(FRAME + 1) {
        let mut meter = Meter::new();
        let played = play(movie.cart(), &mut state, *input, &mut picture, &mut meter);
        check_that(rt, "a frame that is drawn", played.is_ok());
    }
    sum_of(&picture)
}

/// The sums over the frame's picture after no edit of a caller, after one, and so on.
fn drawn_sums<R: Abort>(rt: &R, alloc: Global) -> Vec<u64> {
    let mut movie = expect_ok(rt, Movie::blank(alloc));
    make_all(rt, alloc, &mut movie, &FOLDING_OF_72);
    let mut sums = Vec::new(alloc);
    expect_ok(rt, sums.push(drawn_sum(rt, alloc, &movie)));
    for _edit in 0..EDITS {
        make_all(rt, alloc, &mut movie, &[INSERTED]);
        expect_ok(rt, sums.push(drawn_sum(rt, alloc, &movie)));
    }
    sums
}

/// The edits of a caller: two, each of them twice.
fn edits<'a, R: Abort>(rt: &R, alloc: Global, heap: &'a Heap) -> Vec<Edit<&'a Heap>> {
    let mut edits = Vec::new(alloc);
    for _copy in 0..4 {
        let edit = expect_ok(rt, edit_of(heap, INSERTED));
        expect_ok(rt, edits.push(edit));
    }
    edits
}

/// A caller at each seat, with its edits.
fn callers<'a, N: Name, R: Abort>(
    rt: &R,
    alloc: Global,
    heap: &'a Heap,
    seats: Vec<Seat<N, &'a Heap>, &'a Heap>,
) -> Vec<Caller<'a, N>> {
    let mut callers = Vec::new(alloc);
    for seat in seats {
        let caller = Caller {
            turns: expect_some(rt, TURNS.get(seat.number() as usize)),
            seat,
            edits: edits(rt, alloc, heap),
            held: None,
            seen: FIRST_AT,
            refused: 0,
            is_right: true,
        };
        expect_ok(rt, callers.push(caller));
    }
    callers
}

/// The callers' seats.
fn seats_of<'a, N: Name, R: Abort>(
    rt: &R,
    heap: &'a Heap,
    callers: Vec<Caller<'a, N>>,
) -> Vec<Seat<N, &'a Heap>, &'a Heap> {
    let mut seats = Vec::new(heap);
    for caller in callers {
        let Caller { seat, .. } = caller;
        expect_ok(rt, seats.push(seat));
    }
    seats
}

/// The callers take their turns, each on a thread of its own.
fn take_turns<'a, N: Name + Send + Sync, R: Threads + Wait + Sync>(
    shared: &Shared<'_, 'a, N, &R, R>,
    callers: &mut [Caller<'a, N>],
) {
    let Some((one, others)) = callers.split_first_mut() else {
        return;
    };
    join_mut(
        shared.rt,
        &mut || one.take_all(shared),
        &mut || take_last_turns(shared, others),
    );
}

/// So do the last two of them.
fn take_last_turns<'a, N: Name + Send + Sync, R: Threads + Wait + Sync>(
    shared: &Shared<'_, 'a, N, &R, R>,
    callers: &mut [Caller<'a, N>],
) {
    let Some((two, others)) = callers.split_first_mut() else {
        return;
    };
    let Some(three) = others.first_mut() else {
        return;
    };
    join_mut(
        shared.rt,
        &mut || two.take_all(shared),
        &mut || three.take_all(shared),
    );
}

/// Whether each call was right, and one of them was refused memory just where a growth was; and whether further calls of each
/// seat answer the movie of all edits.
fn were_right<'a, N: Name, W: CloseOnDrop, R>(
    shared: &Shared<'_, 'a, N, W, R>,
    callers: &mut [Caller<'a, N>],
) -> Run {
    let has_refused = shared.heap.has_refused();
    refuse(shared.heap, NEVER);
    let mut refused = 0u64;
    for caller in callers {
        refused = refused.saturating_add(caller.refused);
        if !caller.is_right || !caller.edits.is_empty() {
            return Run::Wrong("a caller's answer");
        }
        if !caller.looks(shared) || caller.shot(shared) != Some(true) {
            return Run::Wrong("a look or a shot at the end");
        }
        if caller.seen != FIRST_AT + EDITS as u64 {
            return Run::Wrong("the end doesn't show all edits");
        }
    }
    Run::ended(has_refused, refused == u64::from(has_refused))
}

/// Whether the history has each edit of each seat once, in its order, and the movie is of all of them.
fn is_complete(closed: &Closed<&Heap>) -> bool {
    let mut made = [0u64; 3];
    for (number, entry) in closed.journal.iter().enumerate() {
        let seat = entry.seat as usize;
        if seat >= 3 || entry.serial != made[seat] {
            return false;
        }
        made[seat] = made[seat].saturating_add(1);
        if number >= FOLDING_OF_72.len() && !is_inserted(&entry.edit) {
            return false;
        }
    }
    made == [5, 2, 2] && closed.movie.len() == FIRST_LEN + EDITS
}

/// Whether an edit is one of a caller.
fn is_inserted(edit: &Edit<&Heap>) -> bool {
    match edit {
        Edit::Insert { at, inputs } => *at == 64 && inputs.as_slice().len() == 1,
        _ => false,
    }
}

/// The callers take their turns with one growth refused.
fn play_turns<'a, N: Name + Send + Sync, R: Threads + Wait + Sync>(
    shared: &Shared<'_, 'a, N, &R, R>,
    callers: &mut [Caller<'a, N>],
    number: u64,
) -> Run {
    refuse(shared.heap, number);
    take_turns(shared, callers);
    were_right(shared, callers)
}

/// A desk of three seats, whose callers take their turns with one growth refused.
fn run_at<'a, N: Name + Send + Sync, R: Threads + Wait + Abort + Sync>(
    rt: &R,
    alloc: Global,
    heap: &'a Heap,
    unopened: Unopened<&'a Heap>,
    sums: &[u64],
    number: u64,
) -> Run
    requires name { unopened ≡ name_of N.registry N.name N.parts }
{
    let (desk, mut seats) = open::<N, R>(rt, heap, unopened);
    make_edits(
        rt,
        heap,
        &desk,
        expect_some(rt, seats.first_mut()),
        &FOLDING_OF_72,
    );
    let mut callers = callers(rt, alloc, heap, seats);
    let shared = Shared {
        rt,
        heap,
        desk: &desk,
        sums,
    };
    let run = play_turns(&shared, callers.as_mut_slice(), number);
    let closed = close(rt, desk, seats_of(rt, heap, callers));
    if is_complete(&closed) {
        run
    } else {
        Run::Wrong("another history")
    }
}

/// A run of three callers with one growth refused.
fn run_callers<R: Threads + Wait + Abort + Sync>(
    rt: &R,
    alloc: Global,
    sums: &[u64],
    number: u64,
) -> Run {
    let heap = refusing(alloc, NEVER);
    let unopened = expect_ok(rt, Unopened::new(&heap, 3));
    run_at::<Brand, R>(rt, alloc, &heap, unopened, sums, number)
}

#[test]
fn three_seats_on_three_threads(rt: HostRuntime) {
    let sums = drawn_sums(&rt, rt.alloc());
    check_pictures(&rt, sums.as_slice());
    refuse_each(&rt, rt.alloc(), sums.as_slice());
}

/// Each edit changes the picture.
fn check_pictures<R: Abort>(rt: &R, sums: &[u64]) {
    for made in 1..sums.len() {
        check_that(rt, ("edits", made), sums[made - 1] != sums[made]);
    }
}

/// How many growths the callers' turns have at least. Six edits have 6 of their second copies and 2 of the journal, whose room for four entries
/// doubles at the fifth and at the ninth. Five shots have 5 of their pictures, and six jobs, two in each work and one in each offer, 12 of their
/// cartridges and inputs. The desk's list of states has 1 (the seats' views have their room), and the list of the first job that keeps a state 1. A
/// movie's copy has 2: a shot or a share makes one where its seat's zone is of another history, so the first one of each seat does, and each one
/// after an edit of the seat: 7 of them, with 14.
const LEAST_GROWTHS: u64 = 41;

/// How many they have at most. It depends on who comes first: up to three jobs may find no state kept, and the last shot of the first seat
/// makes a copy where another seat's edit came before it.
const MOST_GROWTHS: u64 = 45;

/// Refuses each growth of the callers' turns.
fn refuse_each<R: Threads + Wait + Abort + Sync>(rt: &R, alloc: Global, sums: &[u64]) {
    let refused = count_growths(|number| {
        is_over(rt, number, run_callers(rt, alloc, sums, number))
    });
    let is_number = LEAST_GROWTHS <= refused && refused <= MOST_GROWTHS;
    check_that(rt, ("growths", refused), is_number);
}
