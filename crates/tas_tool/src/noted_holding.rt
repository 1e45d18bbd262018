//! Conversations on one desk with one journal, from seats and doors to the closed desk.
//!
//! The last seat is the journal's. It makes no edit, so the history has none of it.

ghost use Rattle.std.specs.Prelude.{◌≡◌, ◌+◌, ◌<◌, ◌≤◌, ℕ, length, map, vec_capacity, IfOk, IfErr, OnErr, slice_index_or};
ghost use Rattle.tas_published.specs.History.{movie_of};
ghost use Rattle.tas_desk.specs.Seats.{most_seats, KeepsZone};
ghost use Rattle.tas_journaling.specs.Shared.{IsBlankOn};
ghost use Rattle.tas_tool.specs.Inside.Holding.{AreNumbered, HaveBlankZones, HaveMadeNone, HaveMovie, HasRoom, IsNotedDesk, IsOwnSeat, NotesInto};

use std::alloc::{AllocError, Allocator, Global};
use std::mem;
use std::sync::Wait;
use std::thread::Threads;
use tas_desk::{CloseOnDrop, Closed, Desk, Name, Seat};
use tas_journaling::{
    CallFault, Journal, JournalFile, JournalName, JournalReceipt, NotedCaller, SharedJournal,
    Tally, converse_all_noted,
};
use tas_seat::Door;

/// Room for what comes back of conversations: seats, how they ended, and what they know of the journal.
#[derive(Drop)]
struct NotedBack<N: Name, K: JournalName, A: Allocator = Global> {
    seats: Vec<Seat<N, A>, A>,
    ends: Vec<Result<(), CallFault>, A>,
    receipts: Vec<JournalReceipt<K>>,
}

/// Room for the conversations of a desk, and for the journal's seat among those that come back.
#[derive(Drop)]
struct NotedRoom<N: Name, K: JournalName, D, A: Allocator = Global> {
    callers: Vec<NotedCaller<N, K, D, A>, A>,
    doors: Vec<D, A>,
    back: NotedBack<N, K, A>,
}

impl<N: Name, K: JournalName, D: Drop, A: Allocator + Copy> NotedRoom<N, K, D, A> {
    /// Room for this many conversations.
    fn new(alloc: A, global: Global, count: usize) -> Result<NotedRoom<N, K, D, A>, AllocError>
        requires { count < most_seats }
        ensures callers { IfOk result (λ room. HasRoom count room.callers) }
        ensures doors { IfOk result (λ room. HasRoom count room.doors) }
        ensures seats { IfOk result (λ room. HasRoom (count + 1) room.back.seats) }
        ensures ends { IfOk result (λ room. HasRoom count room.back.ends) }
        ensures receipts { IfOk result (λ room. HasRoom count room.back.receipts) }
    {
        let callers = Vec::with_capacity(alloc, count)?;
        let doors = Vec::with_capacity(alloc, count)?;
        let seats = Vec::with_capacity(alloc, count + 1)?;
        let ends = Vec::with_capacity(alloc, count)?;
        let receipts = Vec::with_capacity(global, count)?;
        let back = NotedBack {
            seats,
            ends,
            receipts,
        };
        Ok(NotedRoom {
            callers,
            doors,
            back,
        })
    }
}

/// Puts the seats with their doors into an empty list that has room for them.
fn pair_up_noted<N: Name, K: JournalName, J: JournalFile, A: Allocator + Copy, D: Drop, T: Wait>(
    rt: &T,
    shared: &SharedJournal<N, K, J, A>,
    seats: Vec<Seat<N, A>, A>,
    doors: Vec<D, A>,
    callers: &mut Vec<NotedCaller<N, K, D, A>, A>,
)
    requires same { length seats.items ≡ length doors.items }
    requires room { HasRoom (length seats.items) callers.old }
    ensures seats { map (λ c. c.seat) callers.new.items ≡ seats.items }
    ensures doors { map (λ c. c.door) callers.new.items ≡ doors.items }
{
    for (seat, door) in seats.into_iter().zip(doors) {
        callers.push_reserved(NotedCaller {
            seat,
            door,
            receipt: shared.receipt(rt),
            // It isn't held yet.
            end: Ok(()),
        });
    }
}

/// Puts the doors, the seats, how their conversations ended, and what they know of the journal, into empty lists that have room for them.
fn separate_noted<N: Name, K: JournalName, A: Allocator, D: Drop>(
    callers: Vec<NotedCaller<N, K, D, A>, A>,
    doors: &mut Vec<D, A>,
    back: &mut NotedBack<N, K, A>,
)
    requires doors { HasRoom (length callers.items) doors.old }
    requires seats { HasRoom (length callers.items + 1) back.old.seats }
    requires ends { HasRoom (length callers.items) back.old.ends }
    requires receipts { HasRoom (length callers.items) back.old.receipts }
    ensures doors { doors.new.items ≡ map (λ c. c.door) callers.items }
    ensures seats { back.new.seats.items ≡ map (λ c. c.seat) callers.items }
    ensures ends { back.new.ends.items ≡ map (λ c. c.end) callers.items }
    ensures receipts { back.new.receipts.items ≡ map (λ c. c.receipt) callers.items }
    ensures room { length callers.items + 1 ≤ vec_capacity back.new.seats }
{
    for caller in callers {
        let NotedCaller {
            seat,
            door,
            receipt,
            end,
        } = caller;
        doors.push_reserved(door);
        back.seats.push_reserved(seat);
        back.ends.push_reserved(end);
        back.receipts.push_reserved(receipt);
    }
}

/// How a desk's conversations with a journal ended, what it left, and the journal's file.
#[derive(Drop)]
pub struct NotedHeld<J: JournalFile, A: Allocator = Global> {
    /// How each conversation ended.
    pub ends: Vec<Result<(), CallFault>, A>,
    /// The movie and the history that made it.
    pub closed: Closed<A>,
    /// What the journal was written to.
    pub file: J,
}

/// Holds the conversations of some callers, closes journal and desk, and puts the doors into an empty list.
fn hold_noted_callers<
    N: Name + Send + Sync,
    K: JournalName + Send + Sync,
    J: JournalFile + Send,
    A: Allocator + Copy + Send + Sync,
    T: Wait + Threads + Sync,
    D: Door + Drop + Send,
>(
    rt: &T,
    alloc: A,
    desk: Desk<N, &T, A>,
    shared: SharedJournal<N, K, J, A>,
    mut callers: Vec<NotedCaller<N, K, D, A>, A>,
    doors: &mut Vec<D, A>,
    mut back: NotedBack<N, K, A>,
) -> NotedHeld<J, A>
    requires all { length callers.items + 1 ≡ N.parts }
    requires numbers { AreNumbered (map (λ c. c.seat) callers.items) }
    requires own { IsOwnSeat (length callers.items) K.own }
    requires doors { HasRoom (length callers.items) doors.old }
    requires seats { HasRoom (length callers.items + 1) back.seats }
    requires ends { HasRoom (length callers.items) back.ends }
    requires receipts { HasRoom (length callers.items) back.receipts }
    ensures history { NotesInto D.facts J.kept K.head K.first
        (map (λ c. c.door) callers.items) doors.new.items (map (λ c. c.seat) callers.items)
        result.ends.items (J.contents result.file) result.closed.journal.items }
    ensures movie { result.closed.movie ≡ movie_of result.closed.journal.items }
{
    converse_all_noted(rt, alloc, &desk, &shared, callers.as_mut_slice());
    separate_noted(callers, doors, &mut back);
    let NotedBack {
        mut seats,
        ends,
        receipts,
    } = back;
    let (journal, own) = shared.close(rt, receipts);
    seats.push_reserved(own);
    let closed = desk.close(rt, seats);
    NotedHeld {
        ends,
        closed,
        file: journal.into_file(),
    }
}

/// Shares a journal that begins after the movie's edits, which the first seat has seen. It gets a seat of its own.
fn share_on<N: Name, K: JournalName, J: JournalFile, C: CloseOnDrop, A: Allocator + Copy, T: Wait>(
    rt: &T,
    desk: &Desk<N, C, A>,
    tally: Tally,
    journal: Journal<J>,
    own: Seat<N, A>,
    seats: &mut [Seat<N, A>],
) -> SharedJournal<N, K, J, A>
    requires name { tally ≡ K.table }
    requires head { journal.bytes ≡ K.head }
    requires first { journal.first ≡ K.first }
    requires own { K.own own.number own.made }
    requires some { 0 < length seats.old }
    requires blank { (d : _) → IsBlankOn (length (slice_index_or seats.old 0 d).front) journal }
    ensures count { length seats.new ≡ length seats.old }
    ensures kept { (k : ℕ) (d : _) → k < length seats.old
        → KeepsZone (slice_index_or seats.old k d) (slice_index_or seats.new k d) }
{
    let Some((first, _others)) = seats.split_first_mut() else {
        unreachable!()
    };
    match SharedJournal::new(rt, desk, tally, journal, own, first) {
        Ok(shared) => shared,
        Err(_) => unreachable!(),
    }
}

/// Holds a conversation at each door, by the desk's seats in their order, with a journal that has its head and gets the last seat, and closes the desk. The
/// doors come back. Where memory is refused no conversation begins, and the journal's file comes back.
pub fn hold_noted<
    N: Name + Send + Sync,
    K: JournalName + Send + Sync,
    J: JournalFile + Send,
    A: Allocator + Copy + Send + Sync,
    T: Wait + Threads + Sync,
    D: Door + Drop + Send,
>(
    rt: &T,
    alloc: A,
    global: Global,
    desk: Desk<N, &T, A>,
    mut seats: Vec<Seat<N, A>, A>,
    own: Seat<N, A>,
    tally: Tally,
    journal: Journal<J>,
    doors: &mut Vec<D, A>,
) -> Result<NotedHeld<J, A>, J>
    requires name { tally ≡ K.table }
    requires head { journal.bytes ≡ K.head }
    requires first { (journal.first ≡ K.first) × (K.first ≡ 2) }
    requires blank { IsBlankOn 2 journal }
    requires own { K.own own.number own.made }
    requires knows { IsOwnSeat (length seats.items) K.own }
    requires all { (length seats.items + 1 ≡ N.parts) × (length doors.old.items ≡ length seats.items) }
    requires some { (1 ≤ length seats.items) × (length seats.items < most_seats) }
    requires seen { (d : _) → 2 ≤ length (slice_index_or seats.items 0 d).front }
    requires numbers { AreNumbered seats.items }
    requires others { HaveMadeNone seats.items }
    requires zones { HaveBlankZones seats.items }
    ensures history { (movie : _) → HaveMovie movie seats.items → IfOk result
        (λ held. IsNotedDesk D.facts J.kept journal.bytes movie doors.old.items doors.new.items
        held.ends.items (J.contents held.file) held.closed.journal.items) }
    ensures movie { IfOk result (λ held. held.closed.movie ≡ movie_of held.closed.journal.items) }
    ensures refused { IfErr result (λ file. J.contents file ≡ journal.bytes) }
    ensures unopened { OnErr result (doors.new.items ≡ doors.old.items) }
{
    let Ok(room) = NotedRoom::new(alloc, global, seats.len()) else {
        return Err(journal.into_file());
    };
    let shared = share_on::<N, K, J, &T, A, T>(
        rt,
        &desk,
        tally,
        journal,
        own,
        seats.as_mut_slice(),
    );
    let NotedRoom {
        mut callers,
        doors: empty,
        back,
    } = room;
    pair_up_noted(rt, &shared, seats, mem::replace(doors, empty), &mut callers);
    Ok(hold_noted_callers(rt, alloc, desk, shared, callers, doors, back))
}
