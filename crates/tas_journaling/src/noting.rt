//! What answers wait for: a journal of one caller, or one that several conversations share.
//!
//! One trait has both, so there is one conversation. What differs is what is known of them (`NoteFacts`): a journal of one caller has all that its seat
//! has seen; of one that several share each caller knows how many entries are in it, and so that those of its own seat are. Requests that
//! can't have made an edit don't wait for a shared journal, since another conversation may be waiting for the disk there.

ghost use Rattle.std.specs.Prelude.{◌≡◌, Err, IfErr, OnOk};
ghost use Rattle.tas_desk.specs.Seats.{KeepsZone};
ghost use Rattle.tas_journaling.specs.Noting.{may_edit, KeepsUpBy};

use crate::receipts::{JournalName, JournalReceipt};
use crate::{Journal, JournalFault, JournalFile, SharedJournal};
use std::alloc::{Allocator, Global};
use std::marker::Model;
use std::sync::Wait;
use tas_desk::{CloseOnDrop, Desk, Name, Seat};
use tas_language::{Command, Request};

/// What a seat's answers wait for.
pub trait Noting<N: Name, A: Allocator + Copy> {
    ghost use Rattle.std.specs.Prelude.{ℕ};
    ghost use Rattle.tas_journaling.specs.declared.journal.JournalFault.{JournalFault as Fault};
    ghost use Rattle.tas_journaling.specs.Noting.{NoteFacts};
    ghost use Rattle.tas_journaling.specs.NoteLaws.{AreNoteLaws};

    // What is known of it.
    ghost facts: { NoteFacts A Self };

    // The entry of the history whose line is its first; 0 where that isn't known.
    ghost first: { Self → ℕ };

    // That what it has is on the disk, where something is known of that.
    ghost kept: { Self → Type 0 };

    // That it failed with this fault before, where that is known.
    ghost failed: { Self → Fault → Type 0 };

    /// Writes the lines that an answer waits for, and brings them to the disk. `edits` says whether the request may have made edits.
    fn note_answer<C: CloseOnDrop, R: Wait>(
        &mut self,
        rt: &R,
        alloc: A,
        desk: &Desk<N, C, A>,
        seat: &mut Seat<N, A>,
        edits: bool,
    ) -> Result<(), JournalFault>
        ensures seat { KeepsZone seat.old seat.new }
        ensures first { first self.new ≡ first self.old }
        ensures done { OnOk result (KeepsUpBy facts edits seat.old seat.new self.old self.new) }
        ensures fault { IfErr result (facts.short seat.old seat.new self.old self.new) }
        ensures kept { OnOk result (kept self.new) }
        ensures failed { (fault : _) → failed self.old fault
            → (result ≡ Err fault) × (self.new ≡ self.old) };

    // What its facts come to.
    ghost laws: { AreNoteLaws facts };
}

impl<N: Name, A: Allocator + Copy, J: JournalFile> Noting<N, A> for Journal<J> {
    ghost use Rattle.std.specs.Prelude.{◌≡◌, Some};
    ghost use Rattle.tas_journaling.specs.Noting.{alone_notes};
    ghost use Rattle.tas_journaling.specs.NoteLaws.{alone_laws};

    ghost facts = { alone_notes };

    ghost first = { λ j. j.first };

    ghost kept = { λ j. J.kept j.bytes };

    ghost failed = { λ j fault. j.fault ≡ Some fault };

    ghost laws = { alone_laws };

    // The seat is shown the history by each request.
    // Refused: none, see `Journal::note`.
    fn note_answer<C: CloseOnDrop, R: Wait>(
        &mut self,
        rt: &R,
        alloc: A,
        desk: &Desk<N, C, A>,
        seat: &mut Seat<N, A>,
        _edits: bool,
    ) -> Result<(), JournalFault> {
        self.note(rt, alloc, desk, seat)
    }
}

/// A conversation's part of a journal that it shares. Contracts see of how many entries it was told.
#[derive(Drop)]
pub struct SharedNotes<'a, N: Name, K: JournalName, J: JournalFile, A: Allocator = Global> {
    shared: &'a SharedJournal<N, K, J, A>,
    receipt: JournalReceipt<K>,
}

impl<'a, N: Name, K: JournalName, J: JournalFile, A: Allocator> Model
    for SharedNotes<'a, N, K, J, A> {
    ghost use Rattle.std.specs.Prelude.{ℕ};

    ghost Value = { ℕ };

    ghost view = { λ s. s.receipt };
}

impl<'a, N: Name, K: JournalName, J: JournalFile, A: Allocator> SharedNotes<'a, N, K, J, A> {
    /// Those of a conversation with this receipt.
    pub(crate) fn new(
        shared: &'a SharedJournal<N, K, J, A>,
        receipt: JournalReceipt<K>,
    ) -> SharedNotes<'a, N, K, J, A>
        ensures { result ≡ receipt }
    {
        SharedNotes { shared, receipt }
    }

    /// The receipt.
    pub(crate) fn into_receipt(self) -> JournalReceipt<K>
        ensures { result ≡ self.entry }
    {
        self.receipt
    }
}

impl<N: Name, K: JournalName, J: JournalFile, A> Noting<N, A> for SharedNotes<'_, N, K, J, A>
where
    A: Allocator + Copy,
{
    ghost use Rattle.tas_journaling.specs.Noting.{shared_notes};
    ghost use Rattle.tas_journaling.specs.NoteLaws.{shared_laws};

    ghost facts = { shared_notes };

    ghost first = { λ _. 0 };

    ghost kept = { λ _. Unit {0} };

    ghost failed = { λ _ _. ⊥ };

    ghost laws = { shared_laws };

    // Nothing is done for a request that can't have made an edit.
    // Refused: edit_of_a_shared_journal_is_not_noted.
    fn note_answer<C: CloseOnDrop, R: Wait>(
        &mut self,
        rt: &R,
        alloc: A,
        desk: &Desk<N, C, A>,
        seat: &mut Seat<N, A>,
        edits: bool,
    ) -> Result<(), JournalFault> {
        if !edits {
            return Ok(());
        }
        self.shared.note(rt, alloc, desk, seat, &mut self.receipt)
    }
}

/// Whether a request may make edits, in a draft or outside one.
pub(crate) fn may_edit(in_draft: bool, request: Request) -> bool
    ensures { result ≡ may_edit in_draft request }
{
    match request {
        Request::Do(Command::Load { .. } | Command::Edit(_)) | Request::Retouch(_) => !in_draft,
        Request::Commit => in_draft,
        _ => false,
    }
}
