//! Seats with their doors, whose conversations share a journal.
//!
//! A journal that failed stays failed: a conversation that needs it ends with its fault, each at its next request that may edit. The others go on
//! as long as they look, since ending them would lose what nobody needs the disk for.

ghost use Rattle.std.specs.Prelude.{◌≡◌, ℕ, ◌<◌, length, slice_index_or};
ghost use Rattle.tas_journaling.specs.Callers.{WasNoted, call_end};

use crate::receipts::{JournalName, JournalReceipt};
use crate::{JournalFault, JournalFile, SharedJournal, SharedNotes, TalkFault, converse_noted};
use std::alloc::{Allocator, Global};
use std::sync::Wait;
use std::thread::Threads;
use tas_desk::{CloseOnDrop, Desk, Name, Seat};
use tas_engines::SeatFault;
use tas_film::{Visitor, for_each_on_threads};
use tas_seat::{Door, seat_end};
use thiserror::Error;

/// How the conversation of a seat with a journal ended, where neither `quit` nor the end of its input ended it.
#[derive(Clone, Copy, Debug, PartialEq, Eq, Error)]
pub enum CallFault {
    /// As without a journal. Of an answer that isn't out whole because of a failed write, the journal has the edits.
    #[error("{0}")]
    Seat(SeatFault),
    /// A line that may edit is carried out, but the journal couldn't be brought up to it. Nothing of its answer is written.
    #[error("journal: {0}")]
    Journal(JournalFault),
}

/// A seat, the door to its other end, what it knows of the journal, and how its conversation ended.
#[derive(Drop)]
pub struct NotedCaller<N: Name, K: JournalName, D, A: Allocator = Global> {
    /// The seat.
    pub seat: Seat<N, A>,
    /// The door.
    pub door: D,
    /// Of how many entries it was told.
    pub receipt: JournalReceipt<K>,
    /// How the conversation ended; `Ok` before it is held.
    pub end: Result<(), CallFault>,
}

/// How a conversation's end is reported as its seat's.
fn call_end(end: Result<(), TalkFault>) -> Result<(), CallFault>
    ensures { result ≡ call_end end }
{
    match end {
        Ok(()) => Ok(()),
        Err(TalkFault::Tool(fault)) => match seat_end(Err(fault)) {
            Ok(()) => Ok(()),
            Err(fault) => Err(CallFault::Seat(fault)),
        },
        Err(TalkFault::Journal(fault)) => Err(CallFault::Journal(fault)),
    }
}

/// The desk at which callers hold their conversations, and their journal.
#[derive(Drop)]
struct NotedHost<
    'a,
    N: Name,
    K: JournalName,
    J: JournalFile,
    C: CloseOnDrop,
    A: Allocator,
    T: Wait,
> {
    rt: &'a T,
    alloc: A,
    desk: &'a Desk<N, C, A>,
    shared: &'a SharedJournal<N, K, J, A>,
}

impl<
    'a,
    N: Name,
    K: JournalName,
    J: JournalFile,
    C: CloseOnDrop,
    A: Allocator + Copy,
    T: Wait,
    D: Door + Drop,
> Visitor<NotedCaller<N, K, D, A>> for NotedHost<'a, N, K, J, C, A, T> {
    ghost use Rattle.std.specs.Prelude.{⊤};
    ghost use Rattle.tas_journaling.specs.Callers.{WasNoted};

    ghost accepts = { λ _ _ _. ⊤ };

    ghost changes = { λ _ _ last next. WasNoted D.facts K.first last.door next.door last.seat
        next.seat next.receipt next.end };

    /// Opens the caller's door, holds its conversation, and closes the door.
    fn visit(&self, _number: usize, caller: &mut NotedCaller<N, K, D, A>) {
        let Ok((mut input, mut output)) = caller.door.open() else {
            caller.end = Err(CallFault::Seat(SeatFault::NotOpened));
            return;
        };
        let mut notes = SharedNotes::new(self.shared, self.shared.receipt(self.rt));
        let (seat, desk) = (&mut caller.seat, self.desk);
        let end = converse_noted(
            self.rt,
            self.alloc,
            desk,
            seat,
            &mut notes,
            &mut input,
            &mut output,
        );
        caller.door.close(input, output);
        caller.receipt = notes.into_receipt();
        caller.end = call_end(end);
    }
}

/// Holds all conversations, each on a thread of its own, with one journal. One whose thread can't be started is held by this thread, once those after it
/// have ended.
pub fn converse_all_noted<
    N: Name + Send,
    K: JournalName + Send + Sync,
    J: JournalFile + Send,
    A: Allocator + Copy + Send + Sync,
    T: Wait + Threads + Sync,
    D: Door + Drop + Send,
>(
    rt: &T,
    alloc: A,
    desk: &Desk<N, &T, A>,
    shared: &SharedJournal<N, K, J, A>,
    callers: &mut [NotedCaller<N, K, D, A>],
)
    // A conversation is held at a door as without a journal (`converse_all`), but each answer to a request that may edit waits
    // for the journal: of a seat whose edits came before the journal's first line, the edits of all lines whose answers are
    // out, whole or in part, are among the entries of which its caller was told in the end; the journal has at least as
    // many (`SharedJournal::close`). A fault of the journal ends the conversation that needed it.
    // Refused: conversation_of_a_shared_journal_has_an_old_receipt, journals_fault_is_reported_as_memory,
    // end_of_a_shared_conversation_is_dropped.
    ensures { (k : ℕ) (d : _) → k < length callers.old
        → WasNoted D.facts K.first (slice_index_or callers.old k d).door
        (slice_index_or callers.new k d).door (slice_index_or callers.old k d).seat
        (slice_index_or callers.new k d).seat (slice_index_or callers.new k d).receipt
        (slice_index_or callers.new k d).end }
{
    let host = NotedHost {
        rt,
        alloc,
        desk,
        shared,
    };
    for_each_on_threads(rt, callers, &host);
}
