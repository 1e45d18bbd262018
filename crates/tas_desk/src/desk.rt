//! A desk with seats: several callers, each by a seat of its own, edit one movie behind one lock and read it without.
//!
//! Each call that takes a seat gives it back with its number, and with a front, the history that the seat has now seen, which
//! begins with the one that it had seen before. In every reply `at` is the length of this front.
//!
//! A desk's clauses can't name the kept states under the lock; those of the locked session say what each call makes of them. Of gates and
//! of threads no clause says anything; the crate's README lists what is so.
//!
//! `close` adds up a ledger. Each seat holds a part with as many units as it made edits, and the locked session holds
//! the book, whose total is the journal's length. Each seat's front shows that the journal has at least as many of its
//! entries, and the total leaves room for no more. `OpenError::NoPlace` can't come with as many places as seats; no
//! clause says so, since `left_right` may find places in use for a moment.

ghost use Rattle.std.specs.Prelude.{◌≡◌, ◌≢◌, ◌↔◌, ◌⊎◌, ℕ, ◌+◌, ◌<◌, ◌≤◌, ◌==◌, [], length, take, drop, slice_get, Some, count_by, IsTrue, IfOk, IfErr, OnOk, Err, MatchResult, All};
ghost use Rattle.tas_session.specs.declared.replies.OfferError.TheVariants.{Cartridge, Memory};
ghost use Rattle.tas_session.specs.declared.replies.OpenError.TheVariants.{Memory as OutOfMemory};
ghost use Rattle.tas_published.specs.Looks.{answer_len};
ghost use Rattle.tas_published.specs.History.{most_edits, movie_of, IsLegal};
ghost use Rattle.tas_session.specs.Shots.{IsShotAt, MatchPlayed};
ghost use Rattle.tas_desk.specs.States.{IsStateFor, IsZoneReached};
ghost use Rattle.tas_desk.specs.Zones.{CutsWindow, IsShared, IsShort, IsZoneAway, blank_zone};
ghost use Rattle.tas_green.specs.Grid.{most_states};
ghost use Rattle.tas_published.specs.Strokes.{edits_of};
ghost use Rattle.tas_desk.specs.Commits.{IsCommitted};
ghost use Rattle.tas_desk.specs.Closing.{made_by};
ghost use Rattle.tas_desk.specs.Seats.{most_seats, name_of, seat_of, HasSeen, KeepsZone, IsZoneShot, IsZoneViewed, IsEdited, IsEditedBy, IsWhole, IsSettled, IsInput};
ghost use Rattle.tas_desk.specs.Work.{IsJobOf, IsTaken};

use crate::desk_lock::DeskLock;
use crate::locked_session::{CloseOnDrop, LockedSession};
use crate::seating::new_seats;
use crate::{
    Closed, CommitError, EditError, History, InputError, Name, NoEntry, OfferError, Offered,
    OpenError, Plan, Reached, Receipt, Seat, Session, Shared, Shot, ShotError, StateError, Stroke,
};
use std::alloc::{AllocError, Allocator, Global};
use std::marker::Model;
use std::sync::Wait;
use std::sync::ledger::Blank;
use tas_green::{Batch, Job};
use tas_movie::Edit;
use vcs_machine::Input;

/// How many seats a desk has at most.
pub const MAX_SEATS: u32 = 8;

/// A desk before it has a name: the blank cartridge with no inputs, and no edits. Contracts see what a name must be for
/// it: its registry, its ledger and the number of its seats. It can't be dropped: open it.
pub struct Unopened<A: Allocator = Global> {
    session: Session<A>,
    blank: Blank,
    seats: u32,
}

impl<A: Allocator> Model for Unopened<A> {
    ghost use Rattle.std.specs.Prelude.{◌≡◌, ◌<◌, []};
    ghost use Rattle.tas_green.specs.Grid.{most_states};
    ghost use Rattle.tas_desk.specs.Seats.{UnopenedContent, name_of};

    ghost Value = { UnopenedContent };

    ghost view = { λ u. name_of u.session.registry u.blank.name u.seats };

    ghost invariant = { λ u. (u.session.journal ≡ []) × (u.blank.parts ≡ u.seats) × (0 < u.seats) };
}

impl<A: Allocator + Copy> Unopened<A> {
    /// A desk with this many seats, 1 to [`MAX_SEATS`]; the caller shows it. `Memory` where memory is refused.
    pub fn new(alloc: A, seats: u32) -> Result<Unopened<A>, OpenError>
        requires { (1 ≤ seats) × (seats ≤ most_seats) }
        // An unopened desk has as many seats as were asked for; the only error is out of memory.
        // Refused: ledger_of_one_share_more.
        ensures seats { IfOk result (λ unopened. unopened.seats ≡ seats) }
        ensures error { IfErr result (λ error. error ≡ OutOfMemory) }
    {
        match Session::with_places(alloc, seats as usize) {
            Ok(session) => Ok(Unopened {
                session,
                blank: Blank::new(u64::from(seats)),
                seats,
            }),
            Err(_) => Err(OpenError::Memory),
        }
    }
}

/// A desk: a session behind a lock, whose movie each seat reads without the lock. Contracts see nothing of it; the type keeps
/// that it has as many seats as its ledger has parts.
#[derive(Drop)]
pub struct Desk<N: Name, W: CloseOnDrop, A: Allocator = Global> {
    pub(crate) locked: DeskLock<LockedSession<N, W, A>>,
    seats: u32,
}

impl<N: Name, W: CloseOnDrop, A: Allocator> Model for Desk<N, W, A> {
    ghost use Rattle.std.specs.Prelude.{◌≡◌};

    ghost Value = { Unit {0} };

    ghost view = { λ d. tt };

    ghost invariant = { λ d. d.seats ≡ N.parts };
}

impl<N: Name, W: CloseOnDrop, A: Allocator> Desk<N, W, A> {
    /// Lets two seats see one history, and returns its length: how many edits it has.
    pub fn meet<R: Wait>(&self, rt: &R, one: &mut Seat<N, A>, other: &mut Seat<N, A>) -> u64
        // After `meet` both seats have one front, of length `at`, that begins with the old front of each.
        // Refused: meet_leaves_both_seats, meet_shows_one_seat*.
        ensures one { KeepsZone one.old one.new }
        ensures other { KeepsZone other.old other.new }
        ensures same { one.new.front ≡ other.new.front }
        ensures at { result ≡ length one.new.front }
    {
        let guard = self.locked.lock(rt);
        guard.show(rt, one);
        guard.show(rt, other)
    }

    /// How many edits there are, and how many inputs. It takes no lock. `NoEntry`, where the seat's reader got no entry,
    /// leaves the seat as it was.
    pub fn len(&self, seat: &mut Seat<N, A>) -> Result<(u64, usize), NoEntry>
        // `len` and `input` return the length and an input of the movie of a front that begins with all that the seat
        // had seen; of an input `NoFrame` exactly where the movie hasn't the frame; or `NoEntry` with the seat as it
        // was.
        // Refused: length_is_halved.
        ensures seat { KeepsZone seat.old seat.new }
        ensures reply { MatchResult result
            (λ p. (p.0 ≡ length seat.new.front) × (p.1 ≡ answer_len (movie_of seat.new.front)))
            (λ _. seat.new ≡ seat.old) }
    {
        seat.len()
    }

    /// The number of edits, and the input of frame `k`, counted from 0. It takes no lock. `NoFrame` comes exactly where the
    /// movie isn't that long; `NoEntry` leaves the seat as it was.
    pub fn input(&self, seat: &mut Seat<N, A>, k: usize) -> Result<(u64, Input), InputError>
        // Refused: input_of_the_frame_before.
        ensures seat { KeepsZone seat.old seat.new }
        ensures reply { IsInput seat.old seat.new k result }
    {
        seat.input(k)
    }

    /// Whether these are all seats of the desk: the numbers from 0 on, each once, and no others.
    pub fn whole(&self, seats: &[Seat<N, A>]) -> bool
        // `whole` is exact. That each call keeps a seat's number is a part of `HasSeen`, `IsEdited`, `IsEditedBy` and
        // `IsCommitted`.
        // Refused: a_seat_that_stands_there_twice.
        ensures { IsTrue result ↔ IsWhole N.parts seats.now }
    {
        if seats.len() != self.seats as usize || !are_below(seats, self.seats) {
            return false;
        }
        for k in 0..self.seats {
            if count_of(seats, k) > 1 {
                return false;
            }
        }
        true
    }

    /// Ends the desk, with all its seats, for which [`Desk::whole`] is the test. It returns the movie and the history that made it,
    /// in which each seat has just as many entries as edits that it made, and nobody else has any.
    pub fn close<R: Wait>(self, rt: &R, seats: Vec<Seat<N, A>, A>) -> Closed<A>
        requires whole { IsWhole N.parts seats.items }
        // Every front begins the journal, the movie is the journal's, and the journal has just as many entries of each
        // seat as it made, and no others.
        // Refused: shares_are_not_joined.
        ensures movie { result.movie ≡ movie_of result.journal.items }
        ensures legal { IsLegal result.journal.items }
        ensures count { length result.journal.items ≡ made_by seats.items }
        ensures seats { All (IsSettled result.journal.items) seats.items }
    {
        let Desk { locked, seats: _ } = self;
        locked.into_inner().close(rt, seats)
    }
}

impl<N: Name, W: CloseOnDrop + Wait, A: Allocator + Copy> Desk<N, W, A> {
    /// Opens the desk, with its seats, numbered from 0: the blank cartridge with no inputs, and no edits. The name in its type must
    /// be the name of what is opened. The desk keeps `rt`, by which its session is closed should the desk be dropped.
    ///
    /// `Memory` where memory is refused, `NoPlace` where a seat gets no place to read from; both close the session.
    pub fn open(
        rt: W,
        alloc: A,
        unopened: Unopened<A>,
    ) -> Result<(Desk<N, W, A>, Vec<Seat<N, A>, A>), OpenError>
        requires name { unopened ≡ name_of N.registry N.name N.parts }
        // `open` gives that many seats, numbered from 0, with empty fronts, nothing made and empty zones.
        // Refused: seats_are_numbered_from_one.
        ensures seats { IfOk result (λ opened. length opened.1.items ≡ unopened.seats) }
        ensures fresh { IfOk result
            (λ opened. (k : ℕ) → k < unopened.seats
            → slice_get opened.1.items k ≡ Some (seat_of k 0 [] (blank_zone N.registry))) }
    {
        let Unopened {
            mut session,
            blank,
            seats: count,
        } = unopened;
        let (book, mut rest) = blank.open::<N>();
        match new_seats(&rt, alloc, &mut session, &mut rest, count) {
            Ok(seats) => {
                let desk = Desk {
                    locked: DeskLock::new(LockedSession::new(session, book, rest, rt)),
                    seats: count,
                };
                Ok((desk, seats))
            }
            Err(error) => {
                session.close(&rt);
                Err(error)
            }
        }
    }
}

impl<N: Name, W: CloseOnDrop, A: Allocator + Copy> Desk<N, W, A> {
    /// Makes an edit, as the seat. The receipt has the number of edits then, this one included, and the movie's length in frames.
    ///
    /// It is refused, in this order, for `Serial` (the history that the seat now sees has another number of its edits than it
    /// made), `Full` (1,000,000 edits), `Place`, `Long` and `Memory`. After a refusal the history has nothing of this call.
    pub fn edit<R: Wait>(
        &self,
        rt: &R,
        seat: &mut Seat<N, A>,
        edit: Edit<A>,
    ) -> Result<Receipt, EditError>
        // An edit is answered at a history that begins with all that the seat had seen. A receipt: the front is this
        // history and the entry, at the seat's next serial. A refusal: the front is this history, the seat has made as
        // many as before; `Serial`, `Full`, `Place` and `Long` come in this order, each exactly where it is due, and
        // `Memory` only where none of these is.
        // Refused: made_is_not_counted, edit_is_not_in_the_sum*.
        ensures { IsEdited seat.old seat.new edit result }
    {
        self.locked.lock(rt).edit(rt, seat, edit)
    }

    /// Makes, as the seat, the edit that a plan is in the movie under the lock, so no other edit comes between. The receipt is as that of
    /// [`Desk::edit`].
    ///
    /// It is refused, in this order, for `Serial` and `Full`, for what the plan says of the movie, `Place` or `Long`, and for
    /// `Memory`. After a refusal the history has nothing of this call.
    pub fn edit_by<P: Plan<A>, R: Wait>(
        &self,
        rt: &R,
        seat: &mut Seat<N, A>,
        plan: &P,
    ) -> Result<Receipt, EditError>
        // An edit that a plan makes is made of the movie under the lock. It is answered at a history that begins with
        // all that the seat had seen: refused for `Serial` and `Full`, then for what the plan says of this history's
        // movie, each exactly where it is due, and for `Memory` only where none of these is. A receipt: the movie
        // allows the edit that the plan is in it, and the front is this history and right after it that edit, at the
        // seat's next serial.
        // Refused: plans_refusal_is_ignored.
        ensures { IsEditedBy seat.old seat.new (P.refusal_in plan.now) (P.edit_in plan.now) result }
    {
        self.locked.lock(rt).edit_by(rt, seat, plan)
    }

    /// Makes the edits of a stroke as one step, as the seat, where the history has `at` edits: no other edit comes between those and
    /// these, or between these. They are published at once; that nobody sees one without the other is tested, not proved. The receipt has
    /// the number of edits then, and the movie's length in frames.
    ///
    /// It is refused, in this order, for `Serial` as [`Desk::edit`] is, for `Moved` (the history has another number of edits), `Full`
    /// (no room for all of the edits below 1,000,000), `Place` and `Long` (the first edit that is refused) and `Memory`. After a refusal
    /// the history has nothing of this call.
    pub fn commit<R: Wait>(
        &self,
        rt: &R,
        seat: &mut Seat<N, A>,
        at: u64,
        stroke: Stroke<A>,
    ) -> Result<Receipt, CommitError>
        // None, one or two edits are made as one step, or none of them. `commit` is answered at a history that begins
        // with all that the seat had seen: refused for `Serial`, for `Moved`, which reports that this history has
        // another number of edits than the caller says, and which, then for `Full`, `Place` and `Long`, each exactly
        // where it is due, and for `Memory` only where none of these is and there is an edit; the seat has then made as
        // many as before. A receipt: this history has as many edits as the caller said, its movie allows the edits, and
        // the front is this history and right after it just these edits, at the seat's next serials.
        // Refused: two_edits_are_counted_as_one.
        ensures { IsCommitted seat.old seat.new at (edits_of stroke) result }
    {
        self.locked.lock(rt).commit(rt, seat, at, stroke)
    }

    /// Draws frame `k`, counted from 0, played from the nearest state of the seat's own zone. It takes no lock. The zone is
    /// first cut at the common front of the inputs that it was made for and the present ones, and emptied where the cartridge
    /// differs, and so is its window; then the zone gains the states on the way that are on the grid. The picture takes its
    /// memory from `alloc`.
    ///
    /// `NoEntry` leaves the seat as it was, `NoFrame` and `Memory` its zone; after `Halted` the zone is as after an answer.
    pub fn shot<B: Allocator>(
        &self,
        alloc: B,
        seat: &mut Seat<N, A>,
        k: usize,
    ) -> Result<Shot<B>, ShotError>
        // `seat`, `reply`, `zone`: `shot` returns picture, halt or `NoFrame` at a front that begins with all that the
        // seat had seen. The seat's zone is cut for its movie, then gains the states that were passed; `ran` counts the
        // frames after the nearest state that the cut left; `NoFrame` and `Memory` leave the zone as it was, `NoEntry`
        // the whole seat.
        // Refused: shot_of_the_movie_before, frames_of_the_seat_are_not_reported*.
        ensures seat { HasSeen seat.old seat.new }
        ensures reply { IsShotAt seat.new.front k result }
        ensures zone { IsZoneShot seat.old seat.new k result }
        // Where the cut leaves all of the grid up to the frame, `ran` of a shot that shows it is at most a stride.
        // Refused: none, it follows from `zone`, by which `ran` is exact.
        ensures short { IfOk result (λ shot. IsShort seat.old.zone seat.new.zone k shot.ran) }
        // A shot and a share cut the seat's window for the front's movie as they cut the zone, and do no more to it.
        // Refused: none, the cut is `View::follow`, whose edits are those of tas_green.
        ensures window { MatchPlayed result (CutsWindow seat.old.zone seat.new.zone)
            (seat.new.zone ≡ seat.old.zone) }
    {
        seat.shot(alloc, k)
    }

    /// Draws frame `k` as [`Desk::shot`] does, but played from the nearest state of the seat's zone and its window, or from the
    /// zone's where a place of the grid comes after it, up to the window's. It fills the window, which then has the states around this
    /// frame, so that a step to the next frame plays one, and so does a step back to one of the 63 frames before, as far as they were
    /// played. The zone is left as by a shot. It takes no lock.
    ///
    /// `NoEntry` leaves the seat as it was, `NoFrame` and `Memory` its zone and window; after `Halted` both are as after an answer.
    pub fn picture<B: Allocator>(
        &self,
        alloc: B,
        seat: &mut Seat<N, A>,
        k: usize,
    ) -> Result<Shot<B>, ShotError>
        ensures seat { HasSeen seat.old seat.new }
        // `reply`, `zone`, `short`, `forward`: `picture` gives the answer of `shot`, whatever is kept, and leaves the
        // zone as a shot does. It is played from the nearest state of zone and window, or from the zone's where a place
        // of the grid comes after it, up to the window's; the window then has the near states of those that it had and
        // of those that were played, and a picture of the next frame plays one frame. It plays no more than a shot: at
        // most a stride where all of the grid up to the frame is left.
        // Refused: picture_of_half_the_frame, half_of_the_viewed_frames_are_reported*, picture_of_the_movie_before*.
        ensures reply { IsShotAt seat.new.front k result }
        ensures zone { IsZoneViewed seat.old seat.new k result }
        ensures short { IfOk result (λ shot. IsShort seat.old.zone seat.new.zone k shot.ran) }
        ensures forward { OnOk result (IsZoneAway seat.new.zone (k + 1)) }
    {
        seat.picture(alloc, k)
    }

    /// The machine in which frame `from` begins, where the movie has all frames from `from` to the one before `to`: `from` is at most
    /// `to`, and `to` at most the movie's length. It takes no lock. The frames before `from` are played as a picture's are: from the
    /// nearest state of the seat's own zone and window, once both are cut as a shot cuts them. The zone gains the states on the way that
    /// are on the grid, and the window is filled as by a picture of the frame before `from`.
    ///
    /// `NoFrame` comes exactly where the movie doesn't have these frames. `NoEntry` leaves the seat as it was, `NoFrame` and `Memory` its
    /// zone.
    pub fn state_for(
        &self,
        seat: &mut Seat<N, A>,
        from: usize,
        to: usize,
    ) -> Result<Reached, StateError>
        // `seat`, `reply`, `zone`, `forward`: the machine after `from` frames of the movie of a front that begins with
        // all that the seat had seen, halted or not, where this movie has all frames from `from` to the one before
        // `to`; `NoFrame` comes exactly where it hasn't. The seat's zone is cut and gains as by a shot, and its window
        // is filled as by a picture of the frame before `from`; `ran` counts the frames after the state from which a
        // picture of frame `from` would be played. The next state then takes one frame. `NoFrame` and `Memory` leave
        // the zone as it was.
        // Refused: state_for_looks_at_the_first_frame_alone, half_of_the_frames_to_a_state_are_reported*.
        ensures seat { HasSeen seat.old seat.new }
        ensures reply { IsStateFor seat.new.front from to result }
        ensures zone { IsZoneReached seat.old seat.new from result }
        ensures forward { OnOk result (IsZoneAway seat.new.zone from) }
    {
        seat.state_for(from, to)
    }

    /// Lets the seat's zone gain the desk's kept states, once it is cut for the movie as a shot cuts it, and returns how many it
    /// lacked. After `AllocError` the zone is as it was.
    pub fn share<R: Wait>(&self, rt: &R, seat: &mut Seat<N, A>) -> Result<usize, AllocError>
        // The seat's zone is cut for the front's movie and gains exactly the states of a zone that is lawful for it; it
        // returns how many. Out of memory leaves the zone as it was.
        // Refused: share_of_another_movie_leaves_the_zone_uncut.
        ensures seat { HasSeen seat.old seat.new }
        ensures zone { MatchResult result (IsShared seat.old.zone seat.new.zone seat.new.front)
            (λ _. seat.new.zone ≡ seat.old.zone) }
    {
        Ok(self.bring(rt, seat)?.gained)
    }

    /// Lets the seat's zone gain the desk's kept states as [`Desk::share`] does, and returns how many it lacked, with the number of
    /// edits of the history whose states these are: the seat's front. After `AllocError` the zone is as it was.
    pub fn bring<R: Wait>(&self, rt: &R, seat: &mut Seat<N, A>) -> Result<Shared, AllocError>
        ensures seat { HasSeen seat.old seat.new }
        // `at`, `zone`: `bring` does what `share` does, and its `at` is the number of edits of the front.
        // Refused: share_is_reported_at_another_history.
        ensures at { IfOk result (λ shared. shared.at ≡ length seat.new.front) }
        ensures most { IfOk result (λ shared. shared.at ≤ most_edits) }
        ensures zone { MatchResult result
            (λ shared. IsShared seat.old.zone seat.new.zone seat.new.front shared.gained)
            (λ _. seat.new.zone ≡ seat.old.zone) }
    {
        self.locked.lock(rt).bring(rt, seat)
    }

    /// Copies the history's entries from the place `from` on, counted from 0, and no more than `most` of them; there may be none. The
    /// copies are made under the lock, and take their memory from `alloc`. After `AllocError` the seat has seen the history all
    /// the same.
    pub fn history<R: Wait>(
        &self,
        rt: &R,
        alloc: A,
        seat: &mut Seat<N, A>,
        from: usize,
        most: usize,
    ) -> Result<History<A>, AllocError>
        // `history` returns exactly the front's entries from a place on, `most` at most, and how many the front
        // has; the seat's zone stays.
        // Refused: history_leaves_out_an_entry.
        ensures seat { KeepsZone seat.old seat.new }
        ensures at { IfOk result (λ history. history.at ≡ length seat.new.front) }
        ensures entries { IfOk result
            (λ history. history.entries.items ≡ take most (drop from seat.new.front)) }
    {
        self.locked.lock(rt).history(rt, alloc, seat, from, most)
    }

    /// A job for the movie's first `near` frames, or for all where there are fewer, from the nearest of the desk's kept states among
    /// them. It is run outside the lock, on any thread. `AllocError` where memory is refused.
    pub fn job<B: Allocator + Copy, R: Wait>(
        &self,
        rt: &R,
        alloc: B,
        seat: &mut Seat<N, A>,
        near: usize,
    ) -> Result<Job<B>, AllocError>
        // A job has cartridge, first inputs and stride of the front's movie, and starts from the nearest state of a
        // lawful zone.
        // Refused: job_stops_one_frame_early.
        ensures seat { KeepsZone seat.old seat.new }
        ensures job { IfOk result (IsJobOf (movie_of seat.new.front) near) }
    {
        self.locked.lock(rt).job(rt, alloc, seat, near)
    }

    /// Takes what a job made: the states up to the common front of the batch's inputs and the movie's, on the movie's grid.
    ///
    /// `Cartridge` comes exactly where the bytes of the two cartridges differ, and drops the batch; `Memory` hands the same batch
    /// back. Both leave the kept states as they were.
    pub fn offer<B: Allocator, R: Wait>(
        &self,
        rt: &R,
        seat: &mut Seat<N, A>,
        batch: Batch<B>,
    ) -> Result<Offered, OfferError<B>>
        ensures seat { KeepsZone seat.old seat.new }
        // `Cartridge` exactly where the bytes differ from those at the front; `Memory` hands the same batch back; else
        // a lawful zone gains exactly the batch's states on the grid up to the common front, and those that it lacked
        // are counted, 512 at most.
        // Refused: front_of_a_batch_is_forgotten.
        ensures cartridge { (result ≡ Err (Cartridge (length seat.new.front)))
            ↔ (batch.cart ≢ (movie_of seat.new.front).cart) }
        ensures error { IfErr result
            (λ error. (error ≡ Cartridge (length seat.new.front)) ⊎ (error ≡ Memory batch)) }
        ensures at { IfOk result (λ offered. offered.at ≡ length seat.new.front) }
        ensures taken { IfOk result (IsTaken (movie_of seat.new.front) batch) }
        ensures few { IfOk result (λ offered. offered.kept ≤ most_states) }
    {
        self.locked.lock(rt).offer(rt, seat, batch)
    }
}

/// Whether each seat's number is below `n`.
fn are_below<N: Name, A: Allocator>(seats: &[Seat<N, A>], n: u32) -> bool
    ensures { IsTrue result ↔ All (λ s. s.number < n) seats.now }
{
    for k in 0..seats.len() {
        if seats[k].number() >= n {
            return false;
        }
    }
    true
}

/// How many seats have this number.
fn count_of<N: Name, A: Allocator>(seats: &[Seat<N, A>], k: u32) -> usize
    ensures { result ≡ count_by (λ s. s.number == k) seats.now }
{
    seats.iter().filter(|s| s.number() == k).count()
}
