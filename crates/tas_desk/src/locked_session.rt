//! What lies under the lock of a desk.
//!
//! A lock holds no value that can't be dropped, as a session can't. So `LockedSession` has the handle that closes the
//! session when it is dropped. That handle is bounded by `CloseOnDrop`, a trait without a `Wait` bound, which every
//! handle for waiting implements: with the bound, every call on the type would be one that may wait, also a look.

ghost use Rattle.std.specs.Prelude.{◌≡◌, ◌≢◌, ◌↔◌, ◌⊎◌, ◌+◌, ◌<◌, ◌≤◌, [], length, take, drop, None, IfOk, IfErr, OnOk, OnErr, Err, MatchResult, All};
ghost use mathlib.Core.List.{IsPrefix};
ghost use Rattle.tas_movie.specs.Edit.{edited, IsAllowed};
ghost use Rattle.tas_green.specs.Grid.{most_states};
ghost use Rattle.tas_green.specs.Green.{IsLawful};
ghost use Rattle.tas_session.specs.declared.replies.OfferError.TheVariants.{Cartridge, Memory};
ghost use Rattle.tas_session.specs.declared.replies.CommitError.TheVariants.{Refused};
ghost use Rattle.tas_session.specs.declared.replies.EditError.TheVariants.{Memory as NoRoom};
ghost use Rattle.tas_published.specs.History.{most_edits, movie_of, entries_of, IsLegal};
ghost use Rattle.tas_session.specs.Session.{refusal_at, refusal_by, IsEditError};
ghost use Rattle.tas_published.specs.Strokes.{edits_of, entries_by, edited_by};
ghost use Rattle.tas_session.specs.Commits.{commit_refusal_at, IsCommitError};
ghost use Rattle.tas_desk.specs.Locked.{locked_of, locked_after, locked_after_all};
ghost use Rattle.tas_desk.specs.Zones.{CutsWindow, IsMadeFor, Shares};
ghost use Rattle.tas_desk.specs.Inside.Counting.{IsCounted};
ghost use Rattle.tas_desk.specs.Inside.Exporting.{FoundRange};
ghost use Rattle.tas_desk.specs.Work.{IsJobFrom, Takes};
ghost use Rattle.tas_desk.specs.Closing.{made_by};
ghost use Rattle.tas_desk.specs.Parts.{one_part};
ghost use Rattle.tas_desk.specs.Seats.{seat_of, entry_of, IsWhole, IsSettled, AnswersEdit};

use crate::export::{ExportError, is_in_range};
use crate::history::part_of;
use crate::parts::part_len_at;
use crate::plan::planned;
use crate::{
    Closed, CommitError, EditError, History, Name, OfferError, Offered, Plan, Receipt, Seat,
    Session, Shared, Stroke,
};
use std::alloc::{AllocError, Allocator, Global};
use std::marker::Model;
use std::sync::Wait;
use std::sync::ledger::{Book, Share};
use tas_green::{Batch, Job};
use tas_movie::{Edit, Movie};

/// How a dropped desk closes its session. Implemented by every handle that may wait. It is no `Wait` bound itself, so that a
/// desk's looks aren't counted as calls that may wait; dropping a desk does wait.
pub trait CloseOnDrop: Drop {
    /// Closes the session.
    fn close_session<A: Allocator>(&self, session: Session<A>);
}

impl<R: Wait + Drop> CloseOnDrop for R {
    fn close_session<A: Allocator>(&self, session: Session<A>) {
        drop(session.close(self));
    }
}

/// The session, with the book of what the seats made. Contracts see its history and its kept states; the movie is the
/// history's. It keeps a handle for waiting: a session can't be dropped, so it is closed where this is dropped.
pub struct LockedSession<N: Name, W: CloseOnDrop, A: Allocator = Global> {
    session: Session<A>,
    book: Book<N>,
    rest: Share<N>,
    rt: W,
}

impl<N: Name, W: CloseOnDrop, A: Allocator> Drop for LockedSession<N, W, A> {
    fn drop(self) {
        let LockedSession {
            session,
            book: _,
            rest: _,
            rt,
        } = self;
        rt.close_session(session);
    }
}

impl<N: Name, W: CloseOnDrop, A: Allocator> Model for LockedSession<N, W, A> {
    ghost use Rattle.std.specs.Prelude.{◌≡◌, length};
    ghost use Rattle.tas_desk.specs.Locked.{LockedContent, locked_of};

    ghost Value = { LockedContent A };

    ghost view = { λ l. locked_of l.session.journal l.session.zone };

    ghost invariant = { λ l. (l.session.registry ≡ N.registry)
        × (l.book.total ≡ length l.session.journal) × (l.rest.parts ≡ 0) × (l.rest.amount ≡ 0) };
}

impl<N: Name, W: CloseOnDrop, A: Allocator> LockedSession<N, W, A> {
    /// A session without edits, the book of its seats' shares with what is left of them, and the handle that closes the
    /// session when it is dropped.
    pub fn new(session: Session<A>, book: Book<N>, rest: Share<N>, rt: W) -> LockedSession<N, W, A>
        requires session { (session.registry ≡ N.registry) × (session.journal ≡ []) }
        requires book { book.total ≡ 0 }
        requires rest { (rest.parts ≡ 0) × (rest.amount ≡ 0) }
        ensures { result ≡ locked_of [] session.zone }
    {
        LockedSession {
            session,
            book,
            rest,
            rt,
        }
    }

    /// Lets a seat see the history, and returns its length.
    pub fn show<R: Wait>(&self, rt: &R, seat: &mut Seat<N, A>) -> u64
        // A seat that is shown the history has seen all of it, which begins with what it had seen, and keeps its zone.
        // That `show`, `copy`, `history`, `job` and `bring` leave history and states as they were is said by their
        // `&self`.
        // Refused: none, `Publisher::show_to` of tas_published has the edit.
        ensures seat { seat.new
            ≡ seat_of seat.old.number seat.old.made self.now.journal seat.old.zone }
        ensures begins { IsPrefix seat.old.front self.now.journal }
        ensures at { result ≡ length self.now.journal }
    {
        self.session.show_to(rt, &mut seat.reader);
        self.session.at()
    }

    /// Ends the session, with all seats.
    pub fn close<R: Wait>(self, rt: &R, seats: Vec<Seat<N, A>, A>) -> Closed<A>
        requires whole { IsWhole N.parts seats.items }
        ensures journal { result.journal.items ≡ self.journal }
        ensures movie { result.movie ≡ movie_of self.journal }
        ensures legal { IsLegal self.journal }
        ensures count { length self.journal ≡ made_by seats.items }
        ensures seats { All (IsSettled self.journal) seats.items }
    {
        let LockedSession {
            session,
            mut book,
            rest,
            rt: _,
        } = self;
        let mut all = rest;
        let mut seats = seats;
        while let Some(seat) = seats.pop() {
            join_seat(rt, &session, seat, &mut all);
        }
        book.audit(&mut all);
        session.close(rt)
    }
}

/// Joins a seat's share to the others, once the seat has seen the whole history.
fn join_seat<N: Name, A: Allocator, R: Wait>(
    rt: &R,
    session: &Session<A>,
    seat: Seat<N, A>,
    all: &mut Share<N>,
)
    requires { session.now.registry ≡ N.registry }
    ensures parts { all.new.parts ≡ all.old.parts + 1 }
    ensures amount { all.new.amount ≡ all.old.amount + seat.made }
    ensures begins { IsPrefix seat.front session.now.journal }
    ensures fewer { seat.made ≤ entries_of seat.number seat.front }
{
    let Seat {
        number: _,
        made: _,
        share,
        mut reader,
        zone: _,
    } = seat;
    session.show_to(rt, &mut reader);
    all.merge(share);
}

impl<N: Name, W: CloseOnDrop, A: Allocator + Copy> LockedSession<N, W, A> {
    /// Takes an edit of a seat. Exactly the states that it leaves are kept; a refusal leaves history and kept states as they were.
    pub fn edit<R: Wait>(
        &mut self,
        rt: &R,
        seat: &mut Seat<N, A>,
        edit: Edit<A>,
    ) -> Result<Receipt, EditError>
        ensures begins { IsPrefix seat.old.front self.old.journal }
        ensures receipt { IfOk result (λ receipt. receipt ≡ record {
          at = length self.old.journal + 1;
          len = length (edited (movie_of self.old.journal) edit).inputs;
        }) }
        ensures refusal { MatchResult result
            (λ _. refusal_at self.old.journal seat.old.number seat.old.made edit ≡ None)
            (IsEditError (refusal_at self.old.journal seat.old.number seat.old.made edit)) }
        ensures answered { AnswersEdit (movie_of self.old.journal) edit result }
        // `done`, `refused`: an edit that is made leaves exactly the old states up to the edited place on the new
        // grid; one that is refused leaves history and states as they were.
        // Refused: an_edit_keeps_more_states.
        ensures done { OnOk result
            (self.new ≡ locked_after self.old (entry_of seat.old.number seat.old.made edit)) }
        ensures refused { OnErr result (self.new ≡ self.old) }
        ensures seat { IsCounted seat.old seat.new self.new.journal 1 result }
    {
        self.session.show_to(rt, &mut seat.reader);
        let receipt = self.session.edit(rt, seat.number, seat.made, edit)?;
        self.session.show_to(rt, &mut seat.reader);
        self.book.add(&mut seat.share, 1);
        seat.made += 1;
        Ok(receipt)
    }

    /// Takes an edit of a seat as [`LockedSession::edit`] does, which a plan makes of the movie here. A plan that the movie refuses makes
    /// none.
    pub fn edit_by<P: Plan<A>, R: Wait>(
        &mut self,
        rt: &R,
        seat: &mut Seat<N, A>,
        plan: &P,
    ) -> Result<Receipt, EditError>
        ensures begins { IsPrefix seat.old.front self.old.journal }
        ensures receipt { IfOk result (λ receipt. receipt ≡ record {
          at = length self.old.journal + 1;
          len = length (edited (movie_of self.old.journal)
              (P.edit_in plan.now (movie_of self.old.journal))).inputs;
        }) }
        ensures refusal { MatchResult result
            (λ _. refusal_by self.old.journal seat.old.number seat.old.made
            (P.refusal_in plan.now (movie_of self.old.journal)) ≡ None)
            (IsEditError (refusal_by self.old.journal seat.old.number seat.old.made
            (P.refusal_in plan.now (movie_of self.old.journal)))) }
        ensures allowed { OnOk result (IsAllowed (movie_of self.old.journal)
            (P.edit_in plan.now (movie_of self.old.journal))) }
        // `done`, `refused`: an edit that a plan makes leaves exactly the old states up to the edited place on the new
        // grid; a refusal leaves history and states as they were.
        // Refused: plan_of_the_seats_own_movie.
        ensures done { OnOk result (self.new ≡ locked_after self.old
            (entry_of seat.old.number seat.old.made
            (P.edit_in plan.now (movie_of self.old.journal)))) }
        ensures refused { OnErr result (self.new ≡ self.old) }
        ensures seat { IsCounted seat.old seat.new self.new.journal 1 result }
    {
        self.session.show_to(rt, &mut seat.reader);
        let alloc = seat.zone.allocator();
        let edit = planned(&self.session, alloc, seat.number, seat.made, plan)?;
        self.edit(rt, seat, edit)
    }

    /// Takes the edits of a stroke as one step of a seat, where the history has `at` edits. A refusal leaves history and kept states
    /// as they were.
    pub fn commit<R: Wait>(
        &mut self,
        rt: &R,
        seat: &mut Seat<N, A>,
        at: u64,
        stroke: Stroke<A>,
    ) -> Result<Receipt, CommitError>
        ensures begins { IsPrefix seat.old.front self.old.journal }
        ensures receipt { IfOk result (λ receipt. receipt ≡ record {
          at = length self.old.journal + length (edits_of stroke);
          len = length (edited_by (movie_of self.old.journal) (edits_of stroke)).inputs;
        }) }
        ensures refusal { MatchResult result
            (λ _. commit_refusal_at self.old.journal seat.old.number seat.old.made at
            (edits_of stroke) ≡ None)
            (IsCommitError (commit_refusal_at self.old.journal seat.old.number seat.old.made at
            (edits_of stroke))) }
        ensures memory { IfErr result
            (λ error. error ≡ Refused NoRoom → 0 < length (edits_of stroke)) }
        // `done`, `refused`: each edit of a step leaves exactly the old states up to its place on the new grid, in the
        // movie that those before it leave; a refusal leaves history and states as they were.
        // Refused: none, the states are those that `Session::commit` leaves, whose edits are those of tas_session.
        ensures done { OnOk result (self.new ≡ locked_after_all self.old
            (entries_by seat.old.number seat.old.made (edits_of stroke))) }
        ensures refused { OnErr result (self.new ≡ self.old) }
        ensures seat { IsCounted seat.old seat.new self.new.journal
            (length (edits_of stroke)) result }
    {
        self.session.show_to(rt, &mut seat.reader);
        let count = stroke.count();
        let receipt = self.session.commit(rt, seat.number, seat.made, at, stroke)?;
        self.session.show_to(rt, &mut seat.reader);
        self.book.add(&mut seat.share, count);
        seat.made += count;
        Ok(receipt)
    }

    /// Copies at most this many entries of the history from a place on.
    pub fn history<R: Wait>(
        &self,
        rt: &R,
        alloc: A,
        seat: &mut Seat<N, A>,
        from: usize,
        most: usize,
    ) -> Result<History<A>, AllocError>
        ensures begins { IsPrefix seat.old.front self.now.journal }
        ensures seat { seat.new
            ≡ seat_of seat.old.number seat.old.made self.now.journal seat.old.zone }
        ensures at { IfOk result (λ history. history.at ≡ length self.now.journal) }
        ensures entries { IfOk result
            (λ history. history.entries.items ≡ take most (drop from self.now.journal)) }
    {
        self.session.show_to(rt, &mut seat.reader);
        let at = self.session.at();
        let entries = part_of(alloc, self.session.journal(), from, most)?;
        Ok(History { at, entries })
    }

    /// Copies the part of the history that begins at a place.
    pub fn history_part<R: Wait>(
        &self,
        rt: &R,
        alloc: A,
        seat: &mut Seat<N, A>,
        from: usize,
    ) -> Result<History<A>, AllocError>
        ensures begins { IsPrefix seat.old.front self.now.journal }
        ensures seat { seat.new
            ≡ seat_of seat.old.number seat.old.made self.now.journal seat.old.zone }
        ensures at { IfOk result (λ history. history.at ≡ length self.now.journal) }
        ensures entries { IfOk result
            (λ history. history.entries.items ≡ one_part (drop from self.now.journal)) }
    {
        let most = part_len_at(self.session.journal(), from);
        self.history(rt, alloc, seat, from, most)
    }

    /// Copies the movie, where it has these frames and they are few enough for an export.
    pub fn copy<B: Allocator + Copy, R: Wait>(
        &self,
        rt: &R,
        alloc: B,
        seat: &mut Seat<N, A>,
        from: usize,
        to: usize,
    ) -> Result<(u64, Movie<B>), ExportError>
        ensures begins { IsPrefix seat.old.front self.now.journal }
        ensures seat { seat.new
            ≡ seat_of seat.old.number seat.old.made self.now.journal seat.old.zone }
        ensures reply { FoundRange (movie_of self.now.journal) (length self.now.journal) from to
            result }
    {
        self.session.show_to(rt, &mut seat.reader);
        let at = self.session.at();
        let len = self.session.movie().len();
        if !is_in_range(len, from, to) {
            return Err(ExportError::Range { at, len });
        }
        match self.session.movie().copy(alloc) {
            Ok(movie) => Ok((at, movie)),
            Err(_) => Err(ExportError::Memory),
        }
    }

    /// Cuts a seat's zone for the movie, lets it gain exactly the kept states that it lacks, and returns how many with the number of edits.
    pub fn bring<R: Wait>(&self, rt: &R, seat: &mut Seat<N, A>) -> Result<Shared, AllocError>
        ensures begins { IsPrefix seat.old.front self.now.journal }
        ensures seat { seat.new
            ≡ seat_of seat.old.number seat.old.made self.now.journal seat.new.zone }
        // `made`, `gained`, `lawful`, `memory`: a share gains exactly the states under the lock.
        // Refused: a_share_of_no_kept_state.
        ensures made { OnOk result (IsMadeFor seat.new.zone self.now.journal) }
        ensures at { IfOk result (λ shared. shared.at ≡ length self.now.journal) }
        ensures most { IfOk result (λ shared. shared.at ≤ most_edits) }
        ensures gained { IfOk result (λ shared. Shares seat.old.zone.movie seat.new.zone.movie
            seat.old.zone.states self.now.zone seat.new.zone.states shared.gained) }
        ensures cut { OnOk result (CutsWindow seat.old.zone seat.new.zone) }
        ensures lawful { IsLawful (movie_of self.now.journal) self.now.zone }
        ensures memory { OnErr result (seat.new.zone ≡ seat.old.zone) }
    {
        self.session.show_to(rt, &mut seat.reader);
        let gained = seat.zone.share(
            self.session.movie(),
            self.session.version(),
            self.session.green(),
        )?;
        Ok(Shared {
            at: self.session.at(),
            gained,
        })
    }

    /// A job for a part of the movie, from the nearest kept state.
    pub fn job<B: Allocator + Copy, R: Wait>(
        &self,
        rt: &R,
        alloc: B,
        seat: &mut Seat<N, A>,
        near: usize,
    ) -> Result<Job<B>, AllocError>
        ensures begins { IsPrefix seat.old.front self.now.journal }
        ensures seat { seat.new
            ≡ seat_of seat.old.number seat.old.made self.now.journal seat.old.zone }
        // `job`, `lawful`: a job starts from the nearest of the states under the lock.
        // Refused: a_job_from_no_kept_state.
        ensures job { IfOk result (IsJobFrom self.now.zone (movie_of self.now.journal) near) }
        ensures lawful { IsLawful (movie_of self.now.journal) self.now.zone }
    {
        self.session.show_to(rt, &mut seat.reader);
        self.session.job(alloc, near)
    }

    /// Takes what a job made: the kept states gain exactly those on the grid up to the common front. An error leaves them.
    pub fn offer<B: Allocator, R: Wait>(
        &mut self,
        rt: &R,
        seat: &mut Seat<N, A>,
        batch: Batch<B>,
    ) -> Result<Offered, OfferError<B>>
        ensures begins { IsPrefix seat.old.front self.old.journal }
        // An offer leaves the history. The states gain exactly the batch's on the grid up to the common front, and
        // those that they lacked are counted; an error leaves them as they were.
        // Refused: the_desks_offer_drops_the_batch.
        ensures journal { self.new.journal ≡ self.old.journal }
        ensures seat { seat.new
            ≡ seat_of seat.old.number seat.old.made self.old.journal seat.old.zone }
        ensures cartridge { (result ≡ Err (Cartridge (length self.old.journal)))
            ↔ (batch.cart ≢ (movie_of self.old.journal).cart) }
        ensures error { IfErr result (λ error.
            (error ≡ Cartridge (length self.old.journal)) ⊎ (error ≡ Memory batch)) }
        ensures at { IfOk result (λ offered. offered.at ≡ length self.old.journal) }
        ensures taken { IfOk result
            (Takes self.old.zone self.new.zone (movie_of self.old.journal) batch) }
        ensures lawful { IsLawful (movie_of self.old.journal) self.old.zone }
        ensures lawful_now { IsLawful (movie_of self.old.journal) self.new.zone }
        ensures refused { OnErr result (self.new ≡ self.old) }
        ensures few { IfOk result (λ offered. offered.kept ≤ most_states) }
    {
        self.session.show_to(rt, &mut seat.reader);
        self.session.offer(batch)
    }
}
