//! A movie with its kept states and its window: lawful by its type, with room for all states that it may keep.
//!
//! A view takes all its room when it is made, as a movie does: 513 states and 99 of the window, 127 KB beside 3.9 MB of
//! inputs. So no look is out of memory, and no call but `gain` has a condition on states. The room is for one state
//! more than is kept: a proof that a state to be put in is there already isn't worth 208 bytes.
//!
//! `picture` and `state` leave the kept states as if played from the nearest of these: where a place of the grid comes
//! after it, up to the window's, they start at the kept one, which comes only where the grid got finer. `follow`
//! compares the inputs and goes by the exact common front, not by the places of the edits between: an edit that is
//! undone before the next look costs no state. Looks make their own meters and return how many frames they played.

ghost use Rattle.std.specs.Prelude.{◌≡◌, ◌≢◌, ◌↔◌, IsErr, take, ◌⊎◌, ℕ, ◌+◌, ◌<◌, ◌≤◌, [], length, min, nat_le, filter, is_some, true, IsSome, IfNone, IfSome, IfOk, OnOk, OnErr};
ghost use Rattle.tas_movie.specs.Front.{IsCommonFront};
ghost use Rattle.tas_green.specs.Run.{state_after, picture_of, answer_of};
ghost use Rattle.tas_green.specs.Green.{HoldsGrid, IsLawful, IsShotFrom, is_left};
ghost use Rattle.tas_movie.specs.Edit.{refusal, check_answer, edited, edited_place};
ghost use Rattle.tas_green.specs.Grid.{most_states, stride};
ghost use Rattle.tas_green.specs.Zone.{first_of, is_on_grid, nearest, state_at, where_true};
ghost use Rattle.tas_green.specs.Window.{AreMovieStates, IsOneAway, IsStateFrom, IsViewFrom, both, is_near, view_start};
ghost use Rattle.tas_green.specs.View.{AreOfMovie, IsBrought, both_of, view_of};

use crate::green::batch_front;
use crate::playing::{Span, kept_at, play_span};
use crate::viewing::{pass_near, play_near, retain_up_to};
use crate::window::{MAX_NEAR, ReachedState, Viewed};
use crate::zone::{absorb, copied, holds_at, nearest_of, retain_on_grid};
use crate::{Batch, Green, Job, MAX_STATES, Merged, Savestate, shared_front, stride};
use std::alloc::{AllocError, Allocator, Global};
use std::marker::Model;
use std::mem::size_of;
use tas_movie::{Edit, EditRefusal, Movie, apply, check};
use thiserror::Error;
use vcs_machine::{Meter, State};
use vcs_tia::Picture;

/// Room for the kept states, and for one more: that is easier to show than that a state to be put is there already.
const STATES: usize = MAX_STATES + 1;

/// Room for the window's.
const NEAR: usize = MAX_NEAR + 1;

const _: () = prove!(NEAR * size_of::<Savestate>() < 65_536);

/// The movie has no such frame.
#[derive(Clone, Copy, Debug, PartialEq, Eq, Error)]
#[error("no such frame")]
pub struct NoFrame;

/// The batch's cartridge has other bytes than the movie's.
#[derive(Clone, Copy, Debug, PartialEq, Eq, Error)]
#[error("another cartridge")]
pub struct OtherCartridge;

/// A movie with its kept states and its window.
#[derive(Drop)]
pub struct View<A: Allocator = Global> {
    movie: Movie<A>,
    states: Vec<Savestate, A>,
    near: Vec<Savestate, A>,
}

impl<A: Allocator> Model for View<A> {
    ghost use Rattle.std.specs.Prelude.{vec_capacity};
    ghost use Rattle.tas_green.specs.View.{ViewContent, IsView, view_of};

    ghost Value = { ViewContent };

    ghost view = { λ v. view_of v.movie v.states.items v.near.items };

    // Whatever was called, a view's kept states are its movie's machine and stand on its grid, and its window's states
    // are its movie's machine. No call has a condition on them. Its lists have room for 513 and for 99 states, and for
    // no more: 106,704 and 20,592 bytes, at 208 for each state.
    // Refused: window_has_room_for_one_more, copied_states_have_room_for_one_more.
    ghost invariant = { λ v. IsView (view_of v.movie v.states.items v.near.items) (vec_capacity v.states) (vec_capacity v.near) };
}

/// Where frame `k` is played from.
fn start_of<A: Allocator>(
    movie: &Movie<A>,
    states: &[Savestate],
    near: &[Savestate],
    k: usize,
) -> Savestate
    requires lawful { IsLawful movie.now states.now }
    requires states { AreMovieStates movie.now near.now }
    ensures frame { result.frame ≡ view_start movie.now k (both states.now near.now) }
    ensures bound { result.frame ≤ k }
    ensures state { result.state ≡ state_after movie.now result.frame }
{
    let kept = kept_at(movie, states, k);
    let Some(close) = nearest_of(near, k) else {
        return kept;
    };
    let step = stride(movie.len());
    if close.frame > kept.frame && close.frame / step == kept.frame / step {
        return close;
    }
    kept
}

impl<A: Allocator + Copy> View<A> {
    /// A view of a movie of which no state is kept yet. It takes all its room here.
    pub fn new(alloc: A, movie: Movie<A>) -> Result<View<A>, AllocError>
        // A new view has its movie and no states. The other calls, but `copy`, `copy_states` and `job`, take no memory:
        // their types have no such error.
        // Refused: none, what a view is made of leaves nothing else to make.
        ensures { IfOk result (λ view. view ≡ view_of movie [] []) }
    {
        let states = Vec::with_capacity(alloc, STATES)?;
        let near = Vec::with_capacity(alloc, NEAR)?;
        Ok(View {
            movie,
            states,
            near,
        })
    }
}

impl<A: Allocator> View<A> {
    /// The movie.
    pub fn movie(&self) -> &Movie<A>
        // Refused: none, see `View`.
        ensures movie { result.now ≡ self.now.movie }
        ensures lawful { AreOfMovie self.now }
    {
        &self.movie
    }

    /// How many states are kept.
    pub fn count(&self) -> usize
        // How many states are kept, at most 512, after which frames, and the nearest place.
        // Refused: view_counts_half_of_its_states.
        ensures count { result ≡ length self.now.states }
        ensures bounded { result ≤ most_states }
    {
        self.states.len()
    }

    /// Whether a state is kept after `frame` frames.
    pub fn holds(&self, frame: usize) -> bool
        // Refused: view_holds_looks_one_frame_later.
        ensures { result ≡ is_some (state_at frame self.now.states) }
    {
        holds_at(self.states.as_slice(), frame)
    }

    /// The greatest place of a kept state that is at most `k`, in frames from power-on; 0 where
    /// there is none.
    pub fn nearest(&self, k: usize) -> usize
        // Refused: nearest_of_a_view_is_that_of_half_the_frames.
        ensures value { result ≡ nearest k self.now.states }
        ensures bound { result ≤ k }
    {
        kept_at(&self.movie, self.states.as_slice(), k).frame
    }

    /// The machine after `frames` frames, played from the nearest of the kept states and the window's, which is filled as by a
    /// picture of the frame before. It takes no memory.
    pub fn state(&mut self, frames: usize) -> Result<ReachedState, NoFrame>
        ensures movie { self.new.movie ≡ self.old.movie }
        ensures state { IfOk result (λ reached. (frames ≤ length self.new.movie.inputs)
            × (reached.state ≡ state_after self.new.movie frames)) }
        // A look at a frame that the movie has is answered, and at another one `NoFrame` leaves the view as it was.
        // `state` returns the machine, `shot` and `picture` return the frame's halt or draw its picture, whatever is
        // kept. `state` is played from where `picture` is; it leaves the kept states as if played from the nearest of
        // these, and of the window exactly the near states, those that were there and those that were played.
        // Refused: state_is_played_from_the_kept_states_alone, state_of_a_view_counts_no_frame*,
        // state_of_a_view_loses_the_near_states.
        ensures kept { IfOk result (λ reached. IsStateFrom self.old.movie self.new.movie frames
            (both_of self.old) (both_of self.new) reached.ran) }
        ensures lawful { AreOfMovie self.new }
        // The same state again plays no frame then, and the next one plays one.
        // Refused: none, it follows from `kept`, which says what both lists have then.
        ensures forward { OnOk result (IsOneAway self.new.movie frames (both_of self.new)) }
        ensures past { OnErr result (length self.old.movie.inputs < frames) }
        ensures unchanged { OnErr result (self.new ≡ self.old) }
    {
        if frames > self.movie.len() {
            return Err(NoFrame);
        }
        let start = start_of(
            &self.movie,
            self.states.as_slice(),
            self.near.as_slice(),
            frames,
        );
        Ok(pass_near(&self.movie, start, frames, &mut self.states, &mut self.near))
    }

    /// Draws frame `k`, played from the nearest kept state; the window isn't used, and stays. It takes no memory.
    pub fn shot<B: Allocator>(
        &mut self,
        k: usize,
        picture: &mut Picture<B>,
    ) -> Result<Viewed, NoFrame>
        ensures movie { self.new.movie ≡ self.old.movie }
        // A shot is played from the nearest kept state, keeps the states of the grid on its way and leaves the window.
        // Refused: shot_of_a_view_counts_no_frame*, picture_of_a_view_is_of_another_input.
        ensures near { self.new.near ≡ self.old.near }
        ensures answer { IfOk result (λ viewed. (k < length self.new.movie.inputs)
            × (viewed.end ≡ answer_of (state_after self.new.movie (k + 1)).halt)) }
        ensures picture { IfOk result
            (λ viewed. OnOk viewed.end (picture.new ≡ picture_of self.new.movie k)) }
        ensures kept { IfOk result (λ viewed. IsShotFrom self.old.movie self.old.movie k
            self.old.states self.new.states 0 viewed.ran) }
        ensures lawful { AreOfMovie self.new }
        // Where all of the grid is kept, no more than a stride's frames are played.
        // Refused: none, it follows from `kept`, by which `ran` is exact.
        ensures short { IfOk result (λ viewed.
            HoldsGrid (stride (length self.old.movie.inputs)) k self.old.states
            → viewed.ran ≤ stride (length self.old.movie.inputs)) }
        ensures past { OnErr result (length self.old.movie.inputs ≤ k) }
        ensures unchanged { OnErr result ((self.new ≡ self.old) × (picture.new ≡ picture.old)) }
    {
        if k >= self.movie.len() {
            return Err(NoFrame);
        }
        let span = Span {
            start: kept_at(&self.movie, self.states.as_slice(), k),
            end: k + 1,
            stride: stride(self.movie.len()),
        };
        let mut meter = Meter::new();
        let end = play_span(
            self.movie.cart(),
            self.movie.inputs(),
            span,
            &mut self.states,
            picture,
            &mut meter,
        );
        Ok(Viewed {
            ran: meter.count(),
            end,
        })
    }

    /// Draws frame `k`, played from the nearest of the kept states and the window's. It takes no memory.
    pub fn picture<B: Allocator>(
        &mut self,
        k: usize,
        picture: &mut Picture<B>,
    ) -> Result<Viewed, NoFrame>
        ensures movie { self.new.movie ≡ self.old.movie }
        ensures answer { IfOk result (λ viewed. (k < length self.new.movie.inputs)
            × (viewed.end ≡ answer_of (state_after self.new.movie (k + 1)).halt)) }
        ensures picture { IfOk result
            (λ viewed. OnOk viewed.end (picture.new ≡ picture_of self.new.movie k)) }
        // `picture` is played from the nearest state of kept states and window, unless a place of the grid comes after
        // the kept one, up to the window's; it leaves the kept states as a shot does, and of the window exactly the
        // near states, those that were there and those that were played.
        // Refused: picture_is_played_from_the_kept_states_alone, view_starts_past_a_place_of_the_grid*,
        // state_after_the_frame_is_not_near, each_state_is_a_mark*, frames_of_a_view_are_counted_from_its_last*.
        ensures kept { IfOk result (λ viewed. IsViewFrom self.old.movie self.new.movie k
            (both_of self.old) (both_of self.new) viewed.ran) }
        ensures lawful { AreOfMovie self.new }
        // Where all of the grid is kept, a frame whose state is in the window is played alone, and no more than a stride's
        // frames are played for any.
        // Refused: none, it follows from `kept`, by which `ran` is exact.
        ensures step { IfOk result
            (λ viewed. HoldsGrid (stride (length self.old.movie.inputs)) k self.old.states
            → IsSome (state_at k self.old.near) → viewed.ran ≡ 1) }
        ensures short { IfOk result
            (λ viewed. HoldsGrid (stride (length self.old.movie.inputs)) k self.old.states
            → viewed.ran ≤ stride (length self.old.movie.inputs)) }
        // A step forward then plays one frame, and so does a view of each near frame whose state was played or was one away.
        // Refused: none, it follows from `kept`, which says what both lists have then.
        ensures forward { OnOk result (IsOneAway self.new.movie (k + 1) (both_of self.new)) }
        ensures near { IfOk result
            (λ viewed. (j : ℕ) → is_near (k + 1) j ≡ true
            → (k + 1 < j + viewed.ran) ⊎ IsOneAway self.old.movie j (both_of self.old)
            → IsOneAway self.new.movie j (both_of self.new)) }
        ensures past { OnErr result (length self.old.movie.inputs ≤ k) }
        ensures unchanged { OnErr result ((self.new ≡ self.old) × (picture.new ≡ picture.old)) }
    {
        if k >= self.movie.len() {
            return Err(NoFrame);
        }
        let start = start_of(&self.movie, self.states.as_slice(), self.near.as_slice(), k);
        Ok(play_near(
            &self.movie,
            start,
            k,
            &mut self.states,
            &mut self.near,
            picture,
        ))
    }

    /// The machine after frame `k`, if the movie has this frame and a picture of the next one would be played from its end, as it is once frame
    /// `k` was shown. Nothing is played for it.
    pub fn after_frame(&self, k: usize) -> Option<State>
        // The machine after a frame is returned just where the movie has the frame and no frame must be played for it.
        // Refused: machine_after_a_frame_is_that_before_it.
        ensures some { IfSome result (λ state. (k < length self.now.movie.inputs)
            × IsOneAway self.now.movie (k + 1) (both_of self.now)
            × (state ≡ state_after self.now.movie (k + 1))) }
        ensures none { IfNone result (k < length self.now.movie.inputs
            → IsOneAway self.now.movie (k + 1) (both_of self.now) → ⊥) }
    {
        if k >= self.movie.len() {
            return None;
        }
        let end = k + 1;
        let near = self.near.as_slice();
        let start = start_of(&self.movie, self.states.as_slice(), near, end);
        if start.frame != end {
            return None;
        }
        Some(start.state.unpack())
    }

    /// Makes an edit, where the movie allows it: the states up to the edited place are left, those kept on the grid of the new length. It
    /// takes no memory.
    pub fn edit<B: Allocator>(&mut self, edit: &Edit<B>) -> Result<(), EditRefusal>
        // An edit is made where the movie allows it: the kept states up to its place are left, on the new grid, and the
        // window's up to it. A refusal leaves the view as it was.
        // Refused: edit_leaves_a_view_s_window_uncut, refused_edit_of_a_view_empties_it*.
        ensures answer { result ≡ check_answer (refusal self.old.movie edit.now) }
        ensures movie { self.new.movie ≡ edited self.old.movie edit.now }
        ensures states { OnOk result (self.new.states
            ≡ filter (is_left (edited_place edit.now) (length self.new.movie.inputs)) self.old.states) }
        ensures near { OnOk result (self.new.near ≡ filter (λ kept. nat_le kept.frame
            (min (edited_place edit.now) (length self.new.movie.inputs))) self.old.near) }
        ensures lawful { AreOfMovie self.new }
        ensures unchanged { OnErr result (self.new ≡ self.old) }
    {
        check(&self.movie, edit)?;
        apply(&mut self.movie, edit);
        let len = self.movie.len();
        let last = edit.place().min(len);
        retain_on_grid(&mut self.states, last, stride(len));
        retain_up_to(&mut self.near, last);
        Ok(())
    }

    /// Becomes a view of another movie: the states up to the end of the common beginning of the two movies' inputs are left, the
    /// kept ones where they stand on the new one's grid, and none where the bytes of the cartridges differ. It takes no memory.
    pub fn follow(&mut self, movie: Movie<A>)
        // `movie`, `brought`: a view follows any other movie: both lists are cut at the exact common front of the two,
        // the kept states are those on the new grid, and of another cartridge nothing is left. So an edit that is
        // undone before the next look costs no state.
        // Refused: follow_leaves_the_states_uncut, follow_leaves_the_window_uncut, window_keeps_a_state_past_the_cut.
        ensures movie { self.new.movie ≡ movie }
        ensures brought { IsBrought self.old self.new }
        ensures lawful { AreOfMovie self.new }
    {
        let front = shared_front(&self.movie, &movie);
        retain_on_grid(&mut self.states, front, stride(movie.len()));
        retain_up_to(&mut self.near, front);
        self.movie = movie;
    }

    /// Gains exactly the states of a greenzone of the same movie that it lacks, and returns how many. It takes no memory.
    pub fn gain<B: Allocator>(&mut self, other: &Green<B>) -> usize
        requires { IsLawful self.old.movie other.now }
        // Refused: view_gains_nothing_of_the_second_half.
        ensures movie { self.new.movie ≡ self.old.movie }
        ensures near { self.new.near ≡ self.old.near }
        ensures states { (f : ℕ) → state_at f self.new.states
            ≡ first_of (state_at f self.old.states) (state_at f other.now) }
        ensures count { length self.new.states ≡ length self.old.states + result }
        ensures lawful { AreOfMovie self.new }
    {
        let end = self.movie.len();
        absorb(&mut self.states, other.states.as_slice(), end, stride(end))
    }

    /// A copy of all of it. `AllocError` where memory is refused.
    pub fn copy<B: Allocator + Copy>(&self, alloc: B) -> Result<View<B>, AllocError>
        // A copy of a view is equal to it.
        // Refused: copy_of_a_view_has_no_window.
        ensures { IfOk result (λ view. view ≡ self.now) }
    {
        let movie = self.movie.copy(alloc)?;
        let states = copied(alloc, self.states.as_slice(), STATES)?;
        let near = copied(alloc, self.near.as_slice(), NEAR)?;
        Ok(View {
            movie,
            states,
            near,
        })
    }

    /// A greenzone with a copy of the kept states. `AllocError` where memory is refused.
    pub fn copy_states<B: Allocator>(&self, alloc: B) -> Result<Green<B>, AllocError>
        // Refused: view_copies_no_states.
        ensures same { IfOk result (λ green. green ≡ self.now.states) }
        ensures lawful { IfOk result (λ green. IsLawful self.now.movie green) }
    {
        let states = Vec::from_slice(alloc, self.states.as_slice())?;
        Ok(Green { states })
    }

    /// A job for the movie's first `near` frames, or for all where there are fewer, from the nearest
    /// kept state among them. `AllocError` where memory is refused.
    pub fn job<B: Allocator + Copy>(&self, alloc: B, near: usize) -> Result<Job<B>, AllocError>
        // Refused: job_of_a_view_of_half_the_frames.
        ensures cart { IfOk result (λ job. job.cart ≡ self.now.movie.cart) }
        ensures inputs { IfOk result (λ job. job.inputs
            ≡ take (min near (length self.now.movie.inputs)) self.now.movie.inputs) }
        ensures stride { IfOk result (λ job. job.stride ≡ stride (length self.now.movie.inputs)) }
        ensures start { IfOk result (λ job. job.start
            ≡ nearest (min near (length self.now.movie.inputs)) self.now.states) }
    {
        Job::from_states(alloc, &self.movie, self.states.as_slice(), near)
    }

    /// Gains exactly the batch's states on the movie's grid up to the end of the common beginning
    /// of the batch's inputs and the movie's. `OtherCartridge` comes exactly where the two
    /// cartridges' bytes differ, and leaves the view unchanged. It takes no memory.
    pub fn merge<B: Allocator>(&mut self, batch: &Batch<B>) -> Result<Merged, OtherCartridge>
        // Refused: view_merge_stops_before_the_front.
        ensures movie { self.new.movie ≡ self.old.movie }
        ensures near { self.new.near ≡ self.old.near }
        ensures cartridge { IsErr result ↔ (batch.now.cart ≢ self.old.movie.cart) }
        ensures front { IfOk result (λ merged.
            IsCommonFront batch.now.inputs self.old.movie.inputs merged.front) }
        ensures states { IfOk result (λ merged. (f : ℕ) → state_at f self.new.states
            ≡ first_of (state_at f self.old.states)
            (where_true (is_on_grid (stride (length self.old.movie.inputs)) merged.front f)
            (state_at f batch.now.states))) }
        ensures kept { IfOk result (λ merged.
            length self.new.states ≡ length self.old.states + merged.kept) }
        ensures lawful { AreOfMovie self.new }
        ensures unchanged { OnErr result (self.new ≡ self.old) }
    {
        let Some(front) = batch_front(&self.movie, batch) else {
            return Err(OtherCartridge);
        };
        let step = stride(self.movie.len());
        let kept = absorb(&mut self.states, batch.states(), front, step);
        Ok(Merged { front, kept })
    }
}
