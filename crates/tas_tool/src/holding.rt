//! Conversations on one desk, from seats and doors to the closed desk.
//!
//! Seat 0 makes the movie, and each other seat sees it before a thread starts, so no line is answered without it. The
//! room for what comes back is made before the first conversation begins: nothing may be lost for lack of a few bytes
//! once a client has edited.

ghost use Rattle.std.specs.Prelude.{◌≡◌, ◌<◌, ℕ, length, map, IfOk, IfErr, OnOk, slice_index_or};
ghost use mathlib.Core.List.{IsPrefix};
ghost use Rattle.tas_published.specs.History.{movie_of};
ghost use Rattle.tas_desk.specs.Seats.{KeepsZone};
ghost use Rattle.tas_tool.specs.Inside.Holding.{AreFresh, AreNumbered, HaveBlankZones, HaveMadeNone, HaveMovie, IsUnmade, HasRoom, HoldsAll};

use crate::making::put_movie;
use std::alloc::{AllocError, Allocator, Global};
use std::mem;
use std::sync::Wait;
use std::thread::Threads;
use tas_desk::{CloseOnDrop, Closed, Desk, Name, Seat};
use tas_engines::{RunFault, SeatFault};
use tas_movie::Movie;
use tas_seat::{Caller, Door, converse_all};

/// Lets each other seat see what the first one has seen.
fn meet_all<N: Name, C: CloseOnDrop, A: Allocator, T: Wait>(
    rt: &T,
    desk: &Desk<N, C, A>,
    first: &mut Seat<N, A>,
    others: &mut [Seat<N, A>],
)
    ensures first { KeepsZone first.old first.new }
    ensures others { (k : ℕ) (d : _) → k < length others.old
        → KeepsZone (slice_index_or others.old k d) (slice_index_or others.new k d) }
    ensures met { (k : ℕ) (d : _) → k < length others.old
        → IsPrefix first.old.front (slice_index_or others.new k d).front }
{
    for other in others.iter_mut() {
        desk.meet(rt, first, other);
    }
}

/// Gives the first seat of a desk without edits its movie, and lets the others see it.
///
/// Faults: those of [`put_movie`].
pub fn put_for_all<N: Name, C: CloseOnDrop, A: Allocator + Copy, T: Wait>(
    rt: &T,
    alloc: A,
    desk: &Desk<N, C, A>,
    seats: &mut [Seat<N, A>],
    movie: &Movie<A>,
) -> Result<(), RunFault>
    requires some { 0 < length seats.old }
    requires fresh { AreFresh seats.old }
    ensures count { length seats.new ≡ length seats.old }
    ensures numbers { AreNumbered seats.new }
    ensures others { HaveMadeNone seats.new }
    ensures movie { OnOk result (HaveMovie movie.now seats.new) }
    ensures zones { OnOk result (HaveBlankZones seats.new) }
    ensures fault { IfErr result (IsUnmade seats.new) }
{
    let Some((first, others)) = seats.split_first_mut() else {
        return Err(RunFault::NoPlace);
    };
    put_movie(rt, alloc, desk, first, movie)?;
    meet_all(rt, desk, first, others);
    Ok(())
}

/// Room for seats that come back, and for how their conversations ended.
#[derive(Drop)]
struct Back<N: Name, A: Allocator = Global> {
    seats: Vec<Seat<N, A>, A>,
    ends: Vec<Result<(), SeatFault>, A>,
}

/// Room for the conversations of a desk. It is made before they begin, since none of them may be lost for lack of memory.
#[derive(Drop)]
pub struct Room<N: Name, D, A: Allocator = Global> {
    callers: Vec<Caller<N, D, A>, A>,
    doors: Vec<D, A>,
    back: Back<N, A>,
}

impl<N: Name, D: Drop, A: Allocator + Copy> Room<N, D, A> {
    /// Room for this many conversations.
    pub fn new(alloc: A, count: usize) -> Result<Room<N, D, A>, AllocError>
        ensures callers { IfOk result (λ room. HasRoom count room.callers) }
        ensures doors { IfOk result (λ room. HasRoom count room.doors) }
        ensures seats { IfOk result (λ room. HasRoom count room.back.seats) }
        ensures ends { IfOk result (λ room. HasRoom count room.back.ends) }
    {
        let callers = Vec::with_capacity(alloc, count)?;
        let doors = Vec::with_capacity(alloc, count)?;
        let seats = Vec::with_capacity(alloc, count)?;
        let ends = Vec::with_capacity(alloc, count)?;
        let back = Back { seats, ends };
        Ok(Room {
            callers,
            doors,
            back,
        })
    }
}

/// Puts the seats with their doors into an empty list that has room for them.
fn pair_up<N: Name, A: Allocator, D: Door + Drop>(
    seats: Vec<Seat<N, A>, A>,
    doors: Vec<D, A>,
    callers: &mut Vec<Caller<N, D, A>, A>,
)
    requires same { length seats.items ≡ length doors.items }
    requires room { HasRoom (length seats.items) callers.old }
    ensures seats { map (λ c. c.seat) callers.new.items ≡ seats.items }
    ensures doors { map (λ c. c.door) callers.new.items ≡ doors.items }
{
    for (seat, door) in seats.into_iter().zip(doors) {
        callers.push_reserved(Caller {
            seat,
            door,
            // It isn't held yet.
            end: Ok(()),
        });
    }
}

/// Puts the doors, the seats, and how their conversations ended, into empty lists that have room for them.
fn separate<N: Name, A: Allocator, D: Door + Drop>(
    callers: Vec<Caller<N, D, A>, A>,
    doors: &mut Vec<D, A>,
    back: &mut Back<N, A>,
)
    requires doors { HasRoom (length callers.items) doors.old }
    requires seats { HasRoom (length callers.items) back.old.seats }
    requires ends { HasRoom (length callers.items) back.old.ends }
    ensures doors { doors.new.items ≡ map (λ c. c.door) callers.items }
    ensures seats { back.new.seats.items ≡ map (λ c. c.seat) callers.items }
    ensures ends { back.new.ends.items ≡ map (λ c. c.end) callers.items }
{
    for caller in callers {
        let Caller { seat, door, end } = caller;
        doors.push_reserved(door);
        back.seats.push_reserved(seat);
        back.ends.push_reserved(end);
    }
}

/// How a desk's conversations ended, and what it left.
#[derive(Drop)]
pub struct Held<A: Allocator = Global> {
    /// How each conversation ended.
    pub ends: Vec<Result<(), SeatFault>, A>,
    /// The movie and the history that made it.
    pub closed: Closed<A>,
}

/// Holds the conversations of some callers, closes the desk, and puts the doors into an empty list.
fn hold_callers<
    N: Name + Send + Sync,
    A: Allocator + Copy + Send + Sync,
    T: Wait + Threads + Sync,
    D: Door + Drop + Send,
>(
    rt: &T,
    alloc: A,
    desk: Desk<N, &T, A>,
    mut callers: Vec<Caller<N, D, A>, A>,
    doors: &mut Vec<D, A>,
    mut back: Back<N, A>,
) -> Held<A>
    requires all { length callers.items ≡ N.parts }
    requires numbers { AreNumbered (map (λ c. c.seat) callers.items) }
    requires doors { HasRoom N.parts doors.old }
    requires seats { HasRoom N.parts back.seats }
    requires ends { HasRoom N.parts back.ends }
    ensures history { HoldsAll D.facts (map (λ c. c.door) callers.items) doors.new.items
        (map (λ c. c.seat) callers.items) result.ends.items result.closed.journal.items }
    ensures movie { result.closed.movie ≡ movie_of result.closed.journal.items }
{
    converse_all(rt, alloc, &desk, callers.as_mut_slice());
    separate(callers, doors, &mut back);
    let Back { seats, ends } = back;
    let closed = desk.close(rt, seats);
    Held { ends, closed }
}

/// Holds a conversation at each door, by the desk's seats in their order, and closes the desk. The doors come back.
pub fn hold_made<
    N: Name + Send + Sync,
    A: Allocator + Copy + Send + Sync,
    T: Wait + Threads + Sync,
    D: Door + Drop + Send,
>(
    rt: &T,
    alloc: A,
    desk: Desk<N, &T, A>,
    seats: Vec<Seat<N, A>, A>,
    doors: &mut Vec<D, A>,
    room: Room<N, D, A>,
) -> Held<A>
    requires all { (length seats.items ≡ N.parts) × (length doors.old.items ≡ N.parts) }
    requires numbers { AreNumbered seats.items }
    requires callers { HasRoom N.parts room.callers }
    requires doors { HasRoom N.parts room.doors }
    requires seats { HasRoom N.parts room.back.seats }
    requires ends { HasRoom N.parts room.back.ends }
    ensures history { HoldsAll D.facts doors.old.items doors.new.items seats.items
        result.ends.items result.closed.journal.items }
    ensures movie { result.closed.movie ≡ movie_of result.closed.journal.items }
{
    let Room {
        mut callers,
        doors: empty,
        back,
    } = room;
    pair_up(seats, mem::replace(doors, empty), &mut callers);
    hold_callers(rt, alloc, desk, callers, doors, back)
}
