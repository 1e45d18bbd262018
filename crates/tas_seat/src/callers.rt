//! Seats with their doors.
//!
//! Several conversations take any allocator that threads may share, so tests refuse each growth of a whole desk.

ghost use Rattle.std.specs.Prelude.{◌≡◌, ℕ, ◌<◌, length, slice_index_or};
ghost use Rattle.tas_seat.specs.Lines.{WasHeld, seat_end};

use crate::{Door, converse};
use std::alloc::{Allocator, Global};
use std::sync::Wait;
use std::thread::Threads;
use tas_desk::{CloseOnDrop, Desk, Name, Seat};
use tas_engines::{RunFault, SeatFault, ToolFault};
use tas_film::{Visitor, for_each_on_threads};

/// A seat, the door to its other end, and how its conversation ended.
#[derive(Drop)]
pub struct Caller<N: Name, D, A: Allocator = Global> {
    /// The seat.
    pub seat: Seat<N, A>,
    /// The door.
    pub door: D,
    /// How the conversation ended; `Ok` before it is held.
    pub end: Result<(), SeatFault>,
}

/// How a conversation's end is reported as its seat's.
pub fn seat_end(end: Result<(), ToolFault>) -> Result<(), SeatFault>
    // Refused: failed_read_ends_well, no_entry_is_reported_as_out_of_memory.
    ensures { result ≡ seat_end end }
{
    match end {
        Ok(()) => Ok(()),
        Err(ToolFault::Read(_)) => Err(SeatFault::Read),
        Err(ToolFault::Run(RunFault::Write { written })) => Err(SeatFault::Write { written }),
        Err(ToolFault::Run(RunFault::NoEntry)) => Err(SeatFault::NoEntry),
        Err(ToolFault::Run(RunFault::Memory)) => Err(SeatFault::Memory),
        // `Foreign`: `converse` ends with no other of these, and with no `Seat`.
        Err(ToolFault::Run(_)) => Err(SeatFault::Foreign),
        Err(ToolFault::Seat { seat: _, fault }) => Err(fault),
    }
}

/// The desk at which callers hold their conversations.
#[derive(Drop)]
struct Host<'a, N: Name, C: CloseOnDrop, A: Allocator, T: Wait> {
    rt: &'a T,
    alloc: A,
    desk: &'a Desk<N, C, A>,
}

impl<'a, N: Name, C: CloseOnDrop, A: Allocator + Copy, T: Wait, D: Door + Drop> Visitor<
    Caller<N, D, A>,
> for Host<'a, N, C, A, T> {
    ghost use Rattle.std.specs.Prelude.{⊤};
    ghost use Rattle.tas_seat.specs.Lines.{WasHeld};

    ghost accepts = { λ _ _ _. ⊤ };

    ghost changes = { λ _ _ last next. WasHeld D.facts last.door next.door last.seat next.seat
        next.end };

    /// Opens the caller's door, holds its conversation, and closes the door.
    fn visit(&self, _number: usize, caller: &mut Caller<N, D, A>) {
        let Ok((mut input, mut output)) = caller.door.open() else {
            caller.end = Err(SeatFault::NotOpened);
            return;
        };
        let (seat, desk) = (&mut caller.seat, self.desk);
        let end = converse(self.rt, self.alloc, desk, seat, &mut input, &mut output);
        caller.door.close(input, output);
        caller.end = seat_end(end);
    }
}

/// Holds all conversations, each on a thread of its own. One whose thread can't be started is held by this thread, once those after it
/// have ended.
pub fn converse_all<
    N: Name + Send,
    A: Allocator + Copy + Send + Sync,
    T: Wait + Threads + Sync,
    D: Door + Drop + Send,
>(rt: &T, alloc: A, desk: &Desk<N, &T, A>, callers: &mut [Caller<N, D, A>])
    // A conversation is held at a door: from the bytes that its input has and its output holds when it is opened, to
    // what is left of the one and held by the other when it is closed; or the door couldn't be opened, and the seat is
    // as it was. How it ended is reported, each fault as what it was.
    // Refused: unopened_door_ends_well*, door_is_not_opened*, conversation_is_not_held,
    // end_of_a_conversation_is_dropped, edit_outside_the_conversation.
    ensures { (k : ℕ) (d : _) → k < length callers.old
        → WasHeld D.facts (slice_index_or callers.old k d).door
        (slice_index_or callers.new k d).door (slice_index_or callers.old k d).seat
        (slice_index_or callers.new k d).seat (slice_index_or callers.new k d).end }
{
    let host = Host { rt, alloc, desk };
    for_each_on_threads(rt, callers, &host);
}
