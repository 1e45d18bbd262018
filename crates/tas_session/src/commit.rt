//! Edits that are made as one step.

ghost use Rattle.std.specs.Prelude.{◌≡◌, ◌+◌, ◌<◌, [], ◌∷◌, length, None, Some, IfOk, IfErr, OnOk, OnErr, MatchResult};
ghost use Rattle.tas_session.specs.declared.replies.CommitError.TheVariants.{Refused};
ghost use Rattle.tas_session.specs.declared.replies.EditError.TheVariants.{Memory};
ghost use Rattle.tas_published.specs.Strokes.{edits_of, entries_by, edited_by, AreNext};
ghost use Rattle.tas_session.specs.Commits.{after_entries, commit_refusal, IsCommitError};

use crate::session::{MAX_EDITS, Session};
use crate::{CommitError, EditError, Entry, Receipt, Stroke};
use std::alloc::{AllocError, Allocator};
use std::sync::Wait;
use tas_published::{Step, len_after};

impl<A: Allocator + Copy> Session<A> {
    /// Makes the edits of a stroke as one step, as `seat`, which says that it has made `made` edits before, and that the history has
    /// `at` edits. They are published at once; that no reader sees the history between two of them is tested, not proved. The receipt has
    /// the number of edits then, and the movie's length in frames.
    ///
    /// It is refused, in this order, for `Serial`, `Moved` (the history has another number of edits than `at`), `Full` (no room for
    /// all of the edits), `Place` or `Long` of the first edit that is refused, and `Memory`; each refusal leaves history, movie and
    /// greenzone as they were. Afterwards the kept states are those that the edits leave, made one after the other. With no edits it
    /// takes no memory.
    pub fn commit<R: Wait>(
        &mut self,
        rt: &R,
        seat: u32,
        made: u64,
        at: u64,
        stroke: Stroke<A>,
    ) -> Result<Receipt, CommitError>
        // `commit` makes none, one or two edits as one step, where the history has as many edits as the caller says. It
        // refuses in the order Serial, `Moved`, Full (no room for all of them), Place and Long of the first edit that
        // is refused in the movie that those before it leave, Memory; each of the others exactly where it is due,
        // Memory only where nothing else is and there is an edit. A refusal, also out of memory between the two, leaves
        // history, movie and kept states as they were. A receipt: the session is as after the edits one after the
        // other, with the seat's next serials.
        // Refused: moved_is_not_checked, second_edit_is_lost, no_edits_are_out_of_memory.
        ensures receipt { IfOk result
            (λ receipt. receipt
            ≡ record {
              at = length self.old.journal
                  + length (edits_of stroke);
              len = length (edited_by self.old.movie (edits_of stroke)).inputs;
            }) }
        ensures refusal { MatchResult result
            (λ _. commit_refusal self.old.journal self.old.movie seat made at (edits_of stroke)
            ≡ None)
            (IsCommitError
            (commit_refusal self.old.journal self.old.movie seat made at (edits_of stroke))) }
        ensures done { OnOk result
            (self.new ≡ after_entries self.old (entries_by seat made (edits_of stroke))) }
        ensures next { OnOk result
            (AreNext self.old.journal (entries_by seat made (edits_of stroke))) }
        ensures refused { OnErr result (self.new ≡ self.old) }
        ensures memory { IfErr result
            (λ error. error ≡ Refused Memory → 0 < length (edits_of stroke)) }
    {
        self.check_commit(seat, made, at, &stroke)?;
        match self.accept_stroke(rt, seat, made, stroke) {
            Ok(()) => Ok(Receipt {
                at: self.at(),
                len: self.movie().len(),
            }),
            Err(_) => Err(CommitError::Refused(EditError::Memory)),
        }
    }

    /// Why the edits of a stroke would be refused as one step, memory apart; `Ok` where they wouldn't be.
    fn check_commit(
        &self,
        seat: u32,
        made: u64,
        at: u64,
        stroke: &Stroke<A>,
    ) -> Result<(), CommitError>
        ensures refusal { MatchResult result
            (λ _. commit_refusal self.now.journal self.now.movie seat made at (edits_of stroke.now)
            ≡ None)
            (λ error. commit_refusal self.now.journal self.now.movie seat made at
            (edits_of stroke.now) ≡ Some error) }
        ensures next { OnOk result
            (AreNext self.now.journal (entries_by seat made (edits_of stroke.now))) }
    {
        let here = self.at();
        let counted = self.counts.count(seat);
        if made != counted {
            let serial = EditError::Serial { at: here, counted };
            return Err(CommitError::Refused(serial));
        }
        if here != at {
            return Err(CommitError::Moved { at: here });
        }
        if here + stroke.count() > MAX_EDITS {
            return Err(CommitError::Refused(EditError::Full { at: here }));
        }
        match stroke.check(self.movie()) {
            Ok(()) => Ok(()),
            Err(refused) => Err(CommitError::Refused(EditError::refused(here, refused))),
        }
    }

    /// Makes the edits of an allowed stroke: all growths come first, and then nothing can fail.
    fn accept_stroke<R: Wait>(
        &mut self,
        rt: &R,
        seat: u32,
        made: u64,
        stroke: Stroke<A>,
    ) -> Result<(), AllocError>
        requires { AreNext self.old.journal (entries_by seat made (edits_of stroke)) }
        ensures done { OnOk result
            (self.new ≡ after_entries self.old (entries_by seat made (edits_of stroke))) }
        ensures refused { OnErr result (self.new ≡ self.old) }
        ensures some { OnErr result (0 < length (edits_of stroke)) }
    {
        match stroke {
            Stroke::Nothing => Ok(()),
            Stroke::One(edit) => {
                let next = Entry {
                    seat,
                    serial: made,
                    edit,
                };
                self.accept(rt, next)
            }
            Stroke::Two(edit, second) => {
                let next = Entry {
                    seat,
                    serial: made,
                    edit,
                };
                let last = Entry {
                    seat,
                    serial: made + 1,
                    edit: second,
                };
                self.accept_both(rt, next, last)
            }
        }
    }

    /// Makes two allowed edits of one seat as [`Session::accept`] makes one.
    fn accept_both<R: Wait>(
        &mut self,
        rt: &R,
        next: Entry<A>,
        last: Entry<A>,
    ) -> Result<(), AllocError>
        requires next { AreNext self.old.journal (next ∷ last ∷ []) }
        requires seat { last.seat ≡ next.seat }
        ensures done { OnOk result (self.new ≡ after_entries self.old (next ∷ last ∷ [])) }
        ensures refused { OnErr result (self.new ≡ self.old) }
    {
        let seat = next.seat;
        let (place, later) = (next.edit.place(), last.edit.place());
        let len = len_after(self.publisher.movie(), &next.edit);
        self.counts.reserve(seat)?;
        self.publisher.push_step(rt, Step::Two(next, last))?;
        self.green.cut(place, len);
        self.green.cut(later, self.publisher.movie().len());
        self.counts.add(seat);
        self.counts.add(seat);
        Ok(())
    }
}
