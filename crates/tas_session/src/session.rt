//! The editor for one caller.
//!
//! A session's contract value has the registry of versions, the journal, and the movie beside it, which the type ties
//! to the journal: so clauses read without a fold, and can say that what lies under a lock is of the desk's own
//! registry.
//!
//! All growths come before the edit is made: the seat's count, the copy for the published movies, the journal's place,
//! the writer's list. If the last is refused, the entry is taken out again; nothing after the publish can fail. `shot`
//! asks for its picture before it looks at kept states, so `Memory` may come for a frame that would be `Halted`.
//!
//! A session can't be dropped, since its writer can't: `close` ends it and is marked as waiting. Whoever opens one
//! lends it to the calls that may fail.

ghost use Rattle.std.specs.Prelude.{◌≡◌, ◌≢◌, ◌↔◌, ◌⊎◌, ℕ, ◌+◌, ◌<◌, ◌≤◌, ◌^◌, [], length, take, min, Option, Some, None, IfOk, IfErr, OnOk, OnErr, MatchResult};
ghost use mathlib.Core.List.{IsPrefix};
ghost use Rattle.tas_movie.specs.Content.{blank_movie};
ghost use Rattle.tas_movie.specs.declared.edit.EditRefusal.{EditRefusal};
ghost use Rattle.tas_movie.specs.Edit.{edited};
ghost use Rattle.tas_green.specs.Run.{state_after};
ghost use Rattle.tas_green.specs.Zone.{state_at, nearest, first_of, where_true, is_on_grid, is_passed};
ghost use Rattle.tas_green.specs.Grid.{most_states, stride};
ghost use Rattle.tas_movie.specs.Front.{IsCommonFront};
ghost use Rattle.tas_green.specs.Green.{IsLawful, HoldsGrid};
ghost use Rattle.tas_session.specs.declared.replies.OfferError.TheVariants.{Cartridge, Memory};
ghost use Rattle.tas_session.specs.declared.replies.OpenError.TheVariants.{Memory as OutOfMemory};
ghost use Rattle.tas_published.specs.History.{most_edits, entries_of, IsLegal, movie_of};
ghost use Rattle.tas_session.specs.Session.{edit_refusal, refusal_by, error_at, IsEditError, after_entry};
ghost use Rattle.tas_published.specs.History.{IsNextEntry};
ghost use Rattle.tas_published.specs.Version.{version_of};
ghost use Rattle.tas_published.specs.Published.{view_of, KnowsRegistry};
ghost use Rattle.tas_session.specs.Shots.{IsShot, IsShotError, MatchPlayed};

use crate::counts::EntryCounts;
use crate::replies::shown;
use crate::{EditError, OfferError, Offered, OpenError, Receipt, Shot};
use std::alloc::{AllocError, Allocator, Global};
use std::marker::Model;
use std::sync::Wait;
use tas_green::{Batch, Green, Job, MergeError};
use tas_movie::{Edit, Movie, check};
use tas_published::{Closed, Entry, MovieReader, Publisher, ShotError, Version};
use vcs_machine::Meter;
use vcs_tia::Picture;

/// How many edits a history has at most.
pub const MAX_EDITS: u64 = 1_000_000;

/// A movie, the history of its edits, and its greenzone. The type keeps that the history is legal, that the movie is
/// the history's, and that each kept state is the movie's machine's.
///
/// It owns what is published to readers, so it can't be dropped: end it by `close`.
pub struct Session<A: Allocator = Global> {
    pub(crate) publisher: Publisher<A>,
    pub(crate) counts: EntryCounts<A>,
    pub(crate) green: Green<A>,
}

impl<A: Allocator> Model for Session<A> {
    ghost use Rattle.std.specs.Prelude.{◌≡◌, ℕ};
    ghost use Rattle.tas_session.specs.Inside.Counts.{count_in};
    ghost use Rattle.tas_published.specs.History.{entries_of};
    ghost use Rattle.tas_session.specs.Session.{SessionContent, IsSound};

    ghost Value = { SessionContent A };

    ghost view = { λ a. record {
      registry = a.publisher.registry;
      journal = a.publisher.journal;
      movie =
          a.publisher.movie;
      zone = a.green;
    } };

    // The journal is a legal history of at most 1,000,000 edits: each edit is allowed where it stands, its serial is
    // the number of its seat's entries before it.
    // Refused: none, see `Session::check_turn` and `Session::at`.
    // The movie is the history's (edits folded from the blank cartridge with no inputs), and the publisher's.
    // Refused: none, the publisher makes it (tas_published).
    // Each kept state is the machine's after that many frames under the present movie, on its grid.
    // Refused: none, see `Session::edit`.
    // Each seat's number of entries is kept beside the journal (a map). That no edit looks through the journal then is
    // read off the code.
    // Refused: entry_of_another_seat_is_counted.
    ghost invariant = { λ a. IsSound a.publisher.journal a.publisher.movie a.green
        × ((seat : ℕ) → count_in a.counts seat ≡ entries_of seat a.publisher.journal) };
}

impl<A: Allocator> Session<A> {
    /// Ends the session, and returns its movie and history.
    pub fn close<R: Wait>(self, rt: &R) -> Closed<A>
        // `close` returns journal and movie, and the movie is the one that the journal makes.
        // Refused: none, the publisher does it.
        ensures journal { result.journal.items ≡ self.journal }
        ensures movie { result.movie ≡ self.movie }
        ensures history { self.movie ≡ movie_of self.journal }
        ensures legal { IsLegal self.journal }
    {
        let Session {
            publisher,
            counts: _,
            green: _,
        } = self;
        publisher.close(rt)
    }

    /// A reader of the published movie that has seen the whole history. It takes no memory: `AllocError` where no place for a reader is
    /// left. The session is as it was.
    pub fn reader<R: Wait>(&mut self, rt: &R) -> Result<MovieReader<A>, AllocError>
        // A reader is made with the whole history seen, and one that is shown the history has seen all of it, which
        // begins with what it had seen. The kept states are then lawful for the movie that it makes.
        // Refused: none, the publisher does it (tas_published).
        ensures same { self.new ≡ self.old }
        ensures seen { IfOk result
            (λ reader. reader ≡ view_of (version_of self.old.registry self.old.journal)) }
    {
        self.publisher.reader(rt)
    }

    /// Makes a reader enter until it sees the present history. The reader must be of this session's registry, as those that
    /// `reader` made are.
    pub fn show_to<R: Wait>(&self, rt: &R, reader: &mut MovieReader<A>)
        requires { KnowsRegistry reader.old self.now.registry }
        // Refused: none, the publisher does it (tas_published).
        ensures seen { reader.new ≡ view_of (version_of self.now.registry self.now.journal) }
        ensures begins { IsPrefix reader.old.seen self.now.journal }
        ensures history { self.now.movie ≡ movie_of self.now.journal }
        ensures lawful { IsLawful self.now.movie self.now.zone }
    {
        self.publisher.show_to(rt, reader)
    }
}

impl<A: Allocator + Copy> Session<A> {
    /// The blank cartridge with no inputs, an empty history and no kept states. `Memory` where memory is refused.
    pub fn new(alloc: A) -> Result<Session<A>, OpenError>
        // A new session has the blank cartridge, no inputs, no history and no kept states; the only error is out of
        // memory.
        // Refused: out_of_memory_is_reported_as_no_place.
        ensures fresh { IfOk result
            (λ session. (session.journal ≡ []) × (session.movie ≡ blank_movie)
            × (session.zone ≡ [])) }
        ensures error { IfErr result (λ error. error ≡ OutOfMemory) }
    {
        match Session::with_places(alloc, 1) {
            Ok(session) => Ok(session),
            Err(_) => Err(OpenError::Memory),
        }
    }

    /// A session as [`Session::new`] makes it, with places for this many readers, 1 to 2^32 - 1. `AllocError` where memory is refused.
    /// The writer is made last: it can't be dropped, so nothing that may fail follows it.
    pub fn with_places(alloc: A, readers: usize) -> Result<Session<A>, AllocError>
        requires { (0 < readers) × (readers < 2 ^ 32) }
        // Refused: none, see `Session::new`, which calls it.
        ensures { IfOk result
            (λ session. session
            ≡ record
            { registry = session.registry; journal = []; movie = blank_movie; zone = [] }) }
    {
        let counts = EntryCounts::new(alloc);
        let green = Green::new(alloc);
        Ok(Session {
            publisher: Publisher::new(alloc, readers)?,
            counts,
            green,
        })
    }

    /// Makes an edit, as `seat`, which says that it has made `made` edits before.
    ///
    /// It is refused, in this order, for `Serial`, `Full`, `Place`, `Long` and `Memory`; each refusal leaves history, movie
    /// and greenzone as they were. Afterwards exactly the states up to the edited place on the grid of the new length are
    /// kept.
    pub fn edit<R: Wait>(
        &mut self,
        rt: &R,
        seat: u32,
        made: u64,
        edit: Edit<A>,
    ) -> Result<Receipt, EditError>
        // `receipt`, `done`: a receipt means: old journal and the entry, edited movie, exactly the old states up to the
        // edited place on the new grid; `at` and `len` are those after it.
        // Refused: edit_empties_the_greenzone, states_after_the_edited_place_are_kept,
        // receipt_reports_the_seats_edits_before*.
        ensures receipt { IfOk result
            (λ receipt. receipt
            ≡ record {
              at = length self.old.journal
                  + 1;
              len = length (edited self.old.movie edit).inputs;
            }) }
        // `edit` refuses in the order Serial, Full, Place, Long, Memory; each of the first four exactly where it is
        // due, Memory only where nothing else is.
        // Refused: at_most_999999_edits.
        ensures refusal { MatchResult result (λ _. edit_refusal self.old seat made edit ≡ None)
            (IsEditError (edit_refusal self.old seat made edit)) }
        ensures done { OnOk result
            (self.new ≡ after_entry self.old (record { seat = seat; serial = made; edit = edit })) }
        ensures next { OnOk result
            (IsNextEntry self.old.journal (record { seat = seat; serial = made; edit = edit })) }
        // Refused: refused_edit_empties_the_greenzone.
        ensures refused { OnErr result (self.new ≡ self.old) }
    {
        self.check_edit(seat, made, &edit)?;
        let next = Entry {
            seat,
            serial: made,
            edit,
        };
        if self.accept(rt, next).is_err() {
            return Err(EditError::Memory);
        }
        Ok(Receipt {
            at: self.at(),
            len: self.movie().len(),
        })
    }

    /// Why the edit would be refused, memory apart; `Ok` where it wouldn't be.
    fn check_edit(&self, seat: u32, made: u64, edit: &Edit<A>) -> Result<(), EditError>
        ensures refusal { MatchResult result (λ _. edit_refusal self.now seat made edit.now ≡ None)
            (λ error. edit_refusal self.now seat made edit.now ≡ Some error) }
        ensures next { OnOk result
            (IsNextEntry self.now.journal
            (record { seat = seat; serial = made; edit = edit.now })) }
    {
        self.check_turn(seat, made)?;
        match check(self.movie(), edit) {
            Ok(()) => Ok(()),
            Err(refused) => Err(EditError::refused(self.at(), refused)),
        }
    }

    /// Whether `seat`, which says that it has made `made` edits before, may make one now, whatever the movie says of it: the
    /// first half of the checks of [`Session::edit`].
    ///
    /// `Serial` comes first, where the history has another number of the seat's entries, and then `Full`.
    pub fn check_turn(&self, seat: u32, made: u64) -> Result<(), EditError>
        // `check_turn` is the first half of the checks of `edit`: `Serial` exactly where the history has another number
        // of the seat's entries, then `Full`, whatever the movie says; else the movie alone decides.
        // Refused: serial_is_not_checked, full_is_not_checked.
        ensures turn { OnOk result
            ((made ≡ entries_of seat self.now.journal)
            × (length self.now.journal < most_edits)) }
        ensures refusal { (refused : Option EditRefusal) → MatchResult result
            (λ _. refusal_by self.now.journal seat made refused
            ≡ error_at (length self.now.journal) refused)
            (λ error. refusal_by self.now.journal seat made refused ≡ Some error) }
    {
        let at = self.at();
        let counted = self.counts.count(seat);
        if counted != made {
            return Err(EditError::Serial { at, counted });
        }
        if at == MAX_EDITS {
            return Err(EditError::Full { at });
        }
        Ok(())
    }

    /// Makes an allowed edit: all growths come first, and then nothing can fail.
    pub(crate) fn accept<R: Wait>(&mut self, rt: &R, next: Entry<A>) -> Result<(), AllocError>
        requires { IsNextEntry self.old.journal next }
        ensures done { OnOk result (self.new ≡ after_entry self.old next) }
        ensures refused { OnErr result (self.new ≡ self.old) }
    {
        let (seat, place) = (next.seat, next.edit.place());
        self.counts.reserve(seat)?;
        self.publisher.push(rt, next)?;
        self.green.cut(place, self.publisher.movie().len());
        self.counts.add(seat);
        Ok(())
    }

    /// Draws frame `k`, counted from 0, played from the nearest kept state, and keeps the states on the way that are on the
    /// grid, halted ones too.
    ///
    /// `NoFrame` and `Memory` leave session and meter as they were. After `Halted`, as after an answer, the meter has risen by
    /// the frames that were played. The picture takes its memory from `alloc`. The caller shows that the meter has room for
    /// the movie's length ([`Meter::room`]).
    pub fn shot<B: Allocator>(
        &mut self,
        alloc: B,
        k: usize,
        meter: &mut Meter,
    ) -> Result<Shot<B>, ShotError>
        requires { meter.old + length self.old.movie.inputs < 2 ^ 64 }
        // `reply`, `same`, `meter`, `kept`: `shot` shows the definition's picture, halt or `NoFrame`; `ran`, the
        // meter's rise and the gained states are those after the nearest kept state, after `Halted` too; else nothing
        // changes.
        // Refused: last_frame_is_no_frame*, frames_played_are_counted_from_power_on.
        ensures reply { MatchResult result (IsShot self.old k) (IsShotError self.old k) }
        ensures same { (self.new.journal ≡ self.old.journal) × (self.new.movie ≡ self.old.movie) }
        ensures registry { self.new.registry ≡ self.old.registry }
        // Where all of the grid up to the frame is kept, no more than a stride's frames are played.
        // Refused: none, it follows from `reply`, by which `ran` is exact.
        ensures short { IfOk result
            (λ shot. HoldsGrid (stride (length self.old.movie.inputs)) k self.old.zone
            → shot.ran ≤ stride (length self.old.movie.inputs)) }
        ensures meter { MatchPlayed result
            (meter.new + nearest k self.old.zone ≡ meter.old + (k + 1)) (meter.new ≡ meter.old) }
        ensures kept { MatchPlayed result
            ((f : ℕ)
            → state_at f self.new.zone
            ≡ first_of (state_at f self.old.zone)
            (where_true
            (is_passed (stride (length self.old.movie.inputs))
            (nearest k self.old.zone) (k + 1) f)
            (Some (state_after self.old.movie f)))) (self.new.zone ≡ self.old.zone) }
    {
        let at = self.at();
        let len = self.movie().len();
        if k >= len {
            return Err(ShotError::NoFrame { at, len });
        }
        let Ok(mut picture) = Picture::blank(alloc) else {
            return Err(ShotError::Memory);
        };
        let ran = (k + 1 - self.green.nearest(k)) as u64;
        let played = self
            .green
            .shot(self.publisher.movie(), k, &mut picture, meter);
        let Ok(end) = played else {
            return Err(ShotError::Memory);
        };
        shown(at, k, ran, picture, end)
    }

    /// A job for the movie's first `near` frames, or for all where there are fewer, from the nearest kept state among them.
    /// `AllocError` where memory is refused.
    pub fn job<B: Allocator + Copy>(&self, alloc: B, near: usize) -> Result<Job<B>, AllocError>
        // `job` changes nothing and has cartridge, first inputs, stride and start.
        // Refused: job_of_half_the_frames.
        ensures cart { IfOk result (λ job. job.cart ≡ self.now.movie.cart) }
        ensures inputs { IfOk result
            (λ job. job.inputs
            ≡ take (min near (length self.now.movie.inputs)) self.now.movie.inputs) }
        ensures stride { IfOk result (λ job. job.stride ≡ stride (length self.now.movie.inputs)) }
        ensures start { IfOk result
            (λ job. job.start ≡ nearest (min near (length self.now.movie.inputs)) self.now.zone) }
    {
        Job::take(alloc, self.movie(), &self.green, near)
    }

    /// Takes from a batch exactly the states on the movie's grid up to the end of the common beginning of the batch's inputs
    /// and the movie's.
    ///
    /// `Cartridge` comes exactly where the two cartridges' bytes differ; `Memory` hands the same batch back. Both leave the
    /// session as it was.
    pub fn offer<B: Allocator>(&mut self, batch: Batch<B>) -> Result<Offered, OfferError<B>>
        // `Cartridge` exactly where the bytes differ; `Memory` hands the same batch back; else exactly the batch's
        // states on the present grid up to the common front are gained and counted.
        // Refused: gained_states_are_not_counted, other_cartridge_is_reported_as_out_of_memory*.
        ensures cartridge { (result ≡ Err (Cartridge (length self.old.journal)))
            ↔ (batch.cart ≢ self.old.movie.cart) }
        ensures error { IfErr result
            (λ error. (error ≡ Cartridge (length self.old.journal)) ⊎ (error ≡ Memory batch)) }
        ensures at { IfOk result (λ offered. offered.at ≡ length self.old.journal) }
        ensures front { IfOk result
            (λ offered. IsCommonFront batch.inputs self.old.movie.inputs offered.front) }
        ensures states { IfOk result
            (λ offered. (f : ℕ)
            → state_at f self.new.zone
            ≡ first_of (state_at f self.old.zone)
            (where_true
            (is_on_grid (stride (length self.old.movie.inputs)) offered.front f)
            (state_at f batch.states))) }
        ensures kept { IfOk result
            (λ offered. length self.new.zone ≡ length self.old.zone + offered.kept) }
        ensures same { (self.new.journal ≡ self.old.journal) × (self.new.movie ≡ self.old.movie) }
        ensures registry { self.new.registry ≡ self.old.registry }
        ensures lawful { IsLawful self.new.movie self.new.zone }
        ensures err { OnErr result (self.new ≡ self.old) }
        ensures few { IfOk result (λ offered. offered.kept ≤ most_states) }
    {
        let at = self.at();
        match self.green.merge(self.publisher.movie(), &batch) {
            Ok(merged) => {
                // Called for its clause `bounded`: at most 512 states are kept, so no more were gained.
                let _count = self.green.count();
                Ok(Offered {
                    at,
                    front: merged.front,
                    kept: merged.kept,
                })
            }
            Err(MergeError::Cartridge) => Err(OfferError::Cartridge { at }),
            Err(MergeError::Memory) => Err(OfferError::Memory(batch)),
        }
    }
}

impl<A: Allocator> Session<A> {
    /// How many edits the history has.
    pub fn at(&self) -> u64
        ensures at { result ≡ length self.now.journal }
        // Refused: history_is_half_as_long.
        ensures most { result ≤ most_edits }
    {
        self.publisher.journal().len() as u64
    }

    /// The movie: that of the history.
    pub fn movie(&self) -> &Movie<A>
        // Refused: none, its result's type leaves nothing else to return.
        ensures movie { result.now ≡ self.now.movie }
        ensures history { self.now.movie ≡ movie_of self.now.journal }
    {
        self.publisher.movie()
    }

    /// The version of the history.
    pub fn version(&self) -> &Version<A>
        // Refused: none, the publisher has it.
        ensures { result.now ≡ version_of self.now.registry self.now.journal }
    {
        self.publisher.version()
    }

    /// The history, in order.
    pub fn journal(&self) -> &[Entry<A>]
        // Refused: none, see `Session`.
        ensures journal { result.now ≡ self.now.journal }
        ensures legal { IsLegal self.now.journal }
    {
        self.publisher.journal()
    }

    /// The greenzone.
    pub fn green(&self) -> &Green<A>
        // Refused: none, its result's type leaves nothing else to return.
        ensures zone { result.now ≡ self.now.zone }
        ensures lawful { IsLawful self.now.movie self.now.zone }
    {
        &self.green
    }
}
