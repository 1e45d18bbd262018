//! A draft: changes of a movie that a conversation gathers before it makes them as one step.
//!
//! A draft is a movie of its own, with a view that begins as a copy of the seat's, its window too. A line is answered at
//! it by the definition that answers it at a history. It costs two copies of the movie, as it was and as it would be, and
//! the room of a view.
//! A draft keeps the cartridge that it began with (`load` is refused), so what it comes to is a stretch of frames.

ghost use Rattle.std.specs.Prelude.{◌≡◌, ◌≤◌, ◌<◌, ◌+◌, Some, None, IfOk, OnErr};
ghost use Rattle.tas_movie.specs.Edit.{IsAllowed, edited};
ghost use Rattle.tas_seat.specs.Turns.{refusal_reply};
ghost use Rattle.tas_green.specs.Green.{IsLawful};
ghost use Rattle.tas_published.specs.History.{most_edits};
ghost use Rattle.tas_green.specs.View.{view_of};
ghost use Rattle.tas_seat.specs.Drafts.{IsDraft, fresh_draft, draft_standing, IsStroke, PutsIn, LeadsTo, HasStroke};
ghost use Rattle.tas_published.specs.Strokes.{edits_of};
ghost use Rattle.tas_seat.specs.Inside.EditRequests.{requested_refusal};
ghost use Rattle.tas_seat.specs.Inside.Drafting.{draft_after, KeepsCart, IsDraftChanged};

use crate::draft_stroke::{stroke_between, stroke_len};
use crate::edit_requests::EditRequest;
use std::alloc::{AllocError, Allocator, Global};
use std::marker::Model;
use tas_desk::{MAX_EDITS, Plan, Stroke};
use tas_green::View;
use tas_language::Reply;
use tas_movie::{Edit, EditRefusal, Movie};

/// A draft of a movie: the movie as it was when the draft began, and a view of the movie as it would be. It is a value of its own: nothing of
/// a desk or a seat changes with it.
#[derive(Drop)]
pub struct Draft<A: Allocator = Global> {
    at: u64,
    base: Movie<A>,
    made: u64,
    pub(crate) view: View<A>,
}

impl<A: Allocator> Model for Draft<A> {
    ghost use Rattle.tas_seat.specs.Drafts.{DraftContent, draft_of, IsDraft};

    ghost Value = { DraftContent };

    ghost view = { λ a. draft_of a.at a.base a.made a.view };

    ghost invariant = { λ a. IsDraft (draft_of a.at a.base a.made a.view) };
}

/// The reply to an edit that a movie refuses, at this many edits.
fn refusal_reply(at: u64, refused: EditRefusal) -> Reply
    ensures { refusal_reply at (Some refused) ≡ Some result }
{
    match refused {
        EditRefusal::Place { at: _, len } => Reply::Place { at, len },
        EditRefusal::Long { len } => Reply::Long { at, len },
    }
}

impl<A: Allocator> Draft<A> {
    /// A draft that begins at `at` edits of a history. `base` is a copy of this history's movie, and `view` a view of it, as `Movie::copy`
    /// and `View::copy` make them.
    pub fn new(base: Movie<A>, view: View<A>, at: u64) -> Draft<A>
        requires same { view.movie ≡ base }
        requires most { at ≤ most_edits }
        // A draft begins with a movie and a view of it, with no change made; each draft has the cartridge that it began
        // with, kept states and a window that are its movie's, and at most 1,000,000 edits with those before it.
        // Refused: draft_begins_with_a_change.
        ensures { result ≡ fresh_draft at view }
    {
        // Called for its clause `lawful`.
        let _movie = view.movie();
        Draft {
            at,
            base,
            made: 0,
            view,
        }
    }

    /// How many edits the history had when the draft began.
    pub fn at(&self) -> u64
        // Refused: none, see `Draft::edits` and `Draft::base`.
        ensures at { result ≡ self.now.at }
        ensures most { result ≤ most_edits }
    {
        self.at
    }

    /// How many edits there would be with one for each change.
    pub fn edits(&self) -> u64
        // Refused: change_in_a_draft_is_not_counted_on.
        ensures at { result ≡ (draft_standing self.now).made }
        ensures most { result ≤ most_edits }
    {
        self.at + self.made
    }

    /// How many changes were made.
    pub fn changes(&self) -> u64
        // Refused: none, see `Draft::new`.
        ensures made { result ≡ self.now.made }
        ensures kept { IsDraft self.now }
    {
        self.made
    }

    /// The movie as it was when the draft began.
    pub fn base(&self) -> &Movie<A>
        // Refused: draft_shows_its_movie_as_its_base.
        ensures { result.now ≡ self.now.base }
    {
        &self.base
    }

    /// The movie as it would be.
    pub fn movie(&self) -> &Movie<A>
        // Refused: none, see `Draft::at`.
        ensures movie { result.now ≡ self.now.movie }
        ensures lawful { IsLawful self.now.movie self.now.states }
        ensures cart { self.now.movie.cart ≡ self.now.base.cart }
    {
        self.view.movie()
    }

    /// The movie as it would be, with its states and its window.
    pub fn view(&self) -> &View<A>
        // Refused: none, see `Draft::at`.
        ensures view { result.now ≡ view_of self.now.movie self.now.states self.now.near }
        ensures lawful { IsLawful self.now.movie self.now.states }
    {
        &self.view
    }

    /// Makes an edit that the movie allows: the states past the edited place are cut off at once.
    fn make(&mut self, edit: &Edit<A>)
        requires allowed { IsAllowed self.old.movie edit.now }
        requires cart { (edited self.old.movie edit.now).cart ≡ self.old.movie.cart }
        requires room { self.old.at + self.old.made < most_edits }
        ensures { self.new ≡ draft_after self.old edit.now }
    {
        self.view.edit(edit).unwrap();
        self.made += 1;
    }
}

impl<A: Allocator + Copy> Draft<A> {
    /// The edits that turn the movie as it was when the draft began into the movie as it would be: the inputs with which both begin, and
    /// of the rest those with which both end, are left alone. `AllocError` where memory is refused, which may be only where inputs
    /// are put in.
    pub fn stroke(&self, alloc: A) -> Result<Stroke<A>, AllocError>
        // The edits that a draft comes to leave alone the inputs with which the two movies begin and, of the rest,
        // those with which they end; what stands between is replaced, put in or taken out by one edit, or by a deletion
        // and an insertion. Each is allowed where it stands, and together they make the draft's movie of the one that
        // it began with. It is out of memory only where something is put in, so not for a deletion, nor where the two
        // are equal.
        // Refused: stroke_brings_one_frame_too_few, no_change_is_out_of_memory*.
        ensures stroke { IfOk result
            (λ stroke. IsStroke self.now.base self.now.movie (edits_of stroke)) }
        ensures leads { IfOk result
            (λ stroke. LeadsTo self.now.base (edits_of stroke) self.now.movie) }
        ensures memory { OnErr result (PutsIn self.now.base self.now.movie) }
    {
        stroke_between(alloc, self.base(), self.movie())
    }

    /// How many edits [`Draft::stroke`] gives: 0 to 2. It takes no memory.
    pub(crate) fn stroke_len(&self) -> u64
        ensures few { result ≤ 2 }
        ensures stroke { HasStroke A self.now.base self.now.movie result }
    {
        stroke_len(self.base(), self.movie())
    }

    /// Makes a change that nothing but memory refuses.
    fn make_asked(&mut self, alloc: A, asked: EditRequest) -> Reply
        requires cart { KeepsCart asked }
        requires room { self.old.at + self.old.made < most_edits }
        requires free { requested_refusal asked self.old.movie ≡ None }
        ensures { IsDraftChanged self.old self.new asked result }
    {
        let at = self.edits();
        let Ok(edit) = asked.edit_in(alloc, self.movie()) else {
            return Reply::OutOfMemory;
        };
        self.make(&edit);
        Reply::Edited {
            at: at + 1,
            len: self.movie().len(),
        }
    }

    /// Makes a change: where as many edits are made as a history may have, or the movie refuses it, or memory is refused, nothing is
    /// changed.
    pub(crate) fn change(&mut self, alloc: A, asked: EditRequest) -> Reply
        requires { KeepsCart asked }
        ensures { IsDraftChanged self.old self.new asked result }
    {
        let at = self.edits();
        if at == MAX_EDITS {
            return Reply::Full { at };
        }
        if let Err(refused) = Plan::<A>::check(&asked, self.movie().len()) {
            return refusal_reply(at, refused);
        }
        self.make_asked(alloc, asked)
    }
}
