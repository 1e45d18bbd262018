//! Looks at a desk while the call of another seat has its lock: an edit is held up under the lock, by its memory.
//!
//! The two callers are of one type and come out of one slice. If they were of two types, each behind a reference of its
//! own, the toolchain's borrow checker couldn't check the call that runs both.

ghost use Rattle.std.specs.Prelude.{◌≡◌};
ghost use Rattle.tas_desk.specs.Seats.{name_of};

use crate::changes::{PLAYFIELD, cart, right};
use crate::checks::{check_same, check_that, expect_ok, expect_some};
use crate::gates::MOST_TURNS;
use refusals::Refusing;
use std::alloc::Global;
use std::marker::Brand;
use std::process::Abort;
use std::sync::Wait;
use std::thread::{Threads, join_mut};
use tas_desk::{Desk, Name, Reached, Receipt, Seat, Shot, ShotError, StateError, Unopened};
use tas_movie::{Edit, Inputs};

/// The desk's memory.
type Heap = Refusing<Global>;

/// No run grows so often.
const NEVER: u64 = u64::MAX;

/// What a seat was told on its thread.
#[derive(Clone, Copy, Debug, PartialEq)]
enum Told {
    /// Nothing yet.
    Nothing,
    /// Its edit was accepted.
    Edited(Receipt),
    /// Whether each look was answered right.
    Looked(Looks),
}

/// Whether each look was answered right, and whether the edit was held up before the first look, and still was after the last one.
#[derive(Clone, Copy, Debug, PartialEq)]
struct Looks {
    len: bool,
    input: bool,
    shot: bool,
    picture: bool,
    state: bool,
    held: (bool, bool),
}

/// A caller at a seat, with an edit to make.
#[derive(Drop)]
struct Caller<'a, N: Name> {
    seat: Seat<N, &'a Heap>,
    edit: Option<Edit<&'a Heap>>,
    told: Told,
}

impl<'a, N: Name> Caller<'a, N> {
    /// Makes its edit.
    fn edit<R: Wait>(&mut self, rt: &R, desk: &Desk<N, &R, &'a Heap>) {
        if let Some(edit) = self.edit.take() {
            if let Ok(receipt) = desk.edit(rt, &mut self.seat, edit) {
                self.told = Told::Edited(receipt);
            }
        }
    }

    /// Looks at the movie of two edits, once the third one is held up, and then releases it.
    fn look<R: Wait>(&mut self, alloc: Global, heap: &Heap, desk: &Desk<N, &R, &'a Heap>) {
        wait_until_held(heap);
        let before = heap.holds();
        let len = desk.len(&mut self.seat) == Ok((2, 3));
        let input = desk.input(&mut self.seat, 1) == Ok((2, right()));
        let shot = is_drawn(desk.shot(alloc, &mut self.seat, 2));
        let picture = is_drawn(desk.picture(alloc, &mut self.seat, 2));
        let state = is_reached(desk.state_for(&mut self.seat, 3, 3));
        self.told = Told::Looked(Looks {
            len,
            input,
            shot,
            picture,
            state,
            held: (before, heap.holds()),
        });
        heap.release();
    }
}

/// Waits until a growth is held up, for this many turns at most.
fn wait_until_held(heap: &Heap) {
    for _turn in 0..MOST_TURNS {
        if heap.holds() {
            return;
        }
    }
}

/// Whether frame 2 is shown at two edits, played from power-on: 1,680 pixels of the playfield.
fn is_drawn(answer: Result<Shot, ShotError>) -> bool {
    match answer {
        Ok(shot) => {
            shot.at == 2 && shot.frame == 2 && shot.ran == 3 && shot.picture.lit() == 1680
        }
        Err(_) => false,
    }
}

/// Whether the state after all three frames is reached at two edits, without a frame played: the picture before left it in the window.
fn is_reached(answer: Result<Reached, StateError>) -> bool {
    match answer {
        Ok(reached) => reached.at == 2 && reached.ran == 0,
        Err(_) => false,
    }
}

/// This many inputs with the left stick pushed right, put in at the beginning.
fn insert<'a, R: Abort>(rt: &R, heap: &'a Heap, count: usize) -> Edit<&'a Heap> {
    Edit::Insert {
        at: 0,
        inputs: expect_ok(rt, Inputs::repeated(heap, right(), count)),
    }
}

/// A caller at each seat, with two inputs to put in.
fn callers<'a, N: Name, R: Abort>(
    rt: &R,
    heap: &'a Heap,
    seats: Vec<Seat<N, &'a Heap>, &'a Heap>,
) -> Vec<Caller<'a, N>, &'a Heap> {
    let mut callers = Vec::new(heap);
    for seat in seats {
        let caller = Caller {
            seat,
            edit: Some(insert(rt, heap, 2)),
            told: Told::Nothing,
        };
        expect_ok(rt, callers.push(caller));
    }
    callers
}

/// The callers' seats.
fn seats_of<'a, N: Name, R: Abort>(
    rt: &R,
    heap: &'a Heap,
    callers: Vec<Caller<'a, N>, &'a Heap>,
) -> Vec<Seat<N, &'a Heap>, &'a Heap> {
    let mut seats = Vec::new(heap);
    for caller in callers {
        let Caller { seat, .. } = caller;
        expect_ok(rt, seats.push(seat));
    }
    seats
}

/// The first caller makes its edit, which is held up, beside the looks of the second one.
fn look_beside_an_edit<'a, N: Name + Send + Sync, R: Threads + Wait + Abort + Sync>(
    rt: &R,
    alloc: Global,
    heap: &'a Heap,
    desk: &Desk<N, &R, &'a Heap>,
    callers: &mut [Caller<'a, N>],
) {
    let Some((editor, others)) = callers.split_first_mut() else {
        return;
    };
    let Some(looker) = others.first_mut() else {
        return;
    };
    heap.hold();
    join_mut(
        rt,
        &mut || editor.edit(rt, desk),
        &mut || looker.look(alloc, heap, desk),
    );
}

/// The edit was accepted, and each look was answered while it was held up.
fn check_callers<'a, N: Name, R: Wait + Abort>(
    rt: &R,
    desk: &Desk<N, &R, &'a Heap>,
    callers: &mut [Caller<'a, N>],
) {
    let edited = Told::Edited(Receipt { at: 3, len: 5 });
    let looked = Told::Looked(Looks {
        len: true,
        input: true,
        shot: true,
        picture: true,
        state: true,
        held: (true, true),
    });
    for (number, caller) in callers.iter_mut().enumerate() {
        let told = if number == 0 { edited } else { looked };
        check_same(rt, ("told", number), caller.told, told);
        let seen = expect_ok(rt, desk.len(&mut caller.seat));
        check_same(rt, ("the movie afterwards", number), seen, (3, 5));
    }
}

/// A desk of two seats, whose first caller has made a movie of three frames by two edits.
fn run_at<'a, N: Name + Send + Sync, R: Threads + Wait + Abort + Sync>(
    rt: &R,
    alloc: Global,
    heap: &'a Heap,
    unopened: Unopened<&'a Heap>,
)
    requires name { unopened ≡ name_of N.registry N.name N.parts }
{
    let (desk, mut seats) = expect_ok(rt, Desk::<N, &R, &'a Heap>::open(rt, heap, unopened));
    let seat = expect_some(rt, seats.first_mut());
    let load = Edit::Load(cart(rt, heap, PLAYFIELD));
    expect_ok(rt, desk.edit(rt, seat, load));
    expect_ok(rt, desk.edit(rt, seat, insert(rt, heap, 3)));
    let mut callers = callers(rt, heap, seats);
    look_beside_an_edit(rt, alloc, heap, &desk, callers.as_mut_slice());
    check_callers(rt, &desk, callers.as_mut_slice());
    let seats = seats_of(rt, heap, callers);
    check_that(rt, "all seats come back", desk.whole(seats.as_slice()));
    let closed = desk.close(rt, seats);
    check_same(rt, "journal", closed.journal.len(), 3);
}

/// The same over memory that refuses no growth, but holds one up.
fn run<R: Threads + Wait + Abort + Sync>(rt: &R, alloc: Global) {
    let heap = Refusing::new(alloc, NEVER);
    let unopened = expect_ok(rt, Unopened::new(&heap, 2));
    run_at::<Brand, R>(rt, alloc, &heap, unopened);
}

#[test]
fn looks_beside_a_call_that_has_the_lock(rt: HostRuntime) {
    run(&rt, rt.alloc());
}
