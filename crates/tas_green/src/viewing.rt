//! Playing frames into a greenzone and a window.

ghost use Rattle.std.specs.Prelude.{◌≡◌, ℕ, ◌+◌, ◌-◌, ◌/◌, ◌^◌, ◌<◌, ◌≤◌, ◌==◌, ◌&&◌, nat_le, length, take, filter, Some, OnOk, vec_len, vec_capacity};
ghost use Rattle.vcs_machine.specs.Machine.{after, picture as picture_of_frame};
ghost use Rattle.tas_green.specs.Run.{answer_of, state_after, picture_of};
ghost use Rattle.tas_green.specs.Zone.{state_at, IsRising, first_of, where_true, is_passed};
ghost use Rattle.tas_green.specs.Grid.{stride};
ghost use Rattle.tas_green.specs.Green.{IsLawful};
ghost use Rattle.tas_green.specs.Window.{most_near, is_near, is_gained, AreNear, AreMovieStates, IsFilled};

use crate::playing::Span;
use crate::window::{MARK_DISTANCE, MAX_BEFORE, MAX_MARKED, ReachedState, Viewed};
use crate::zone::{keep_on_grid, put};
use crate::{Savestate, stride};
use std::alloc::Allocator;
use tas_movie::Movie;
use vcs_machine::{Cart, Input, Meter, State, play, play_unseen};
use vcs_tia::Picture;

/// Leaves the states up to a place.
pub fn retain_up_to<A: Allocator>(states: &mut Vec<Savestate, A>, last: usize)
    ensures states { states.new.items ≡ filter (λ kept. nat_le kept.frame last) states.old.items }
    ensures bound { vec_len states.new ≤ vec_len states.old }
    ensures capacity { vec_capacity states.new ≡ vec_capacity states.old }
{
    states.retain(|kept| kept.frame <= last);
}

/// Whether a state at a place is kept once the frame before another place was shown.
fn is_near(end: usize, frame: usize) -> bool
    ensures { result ≡ is_near end frame }
{
    if frame > end {
        return false;
    }
    let back = end - frame;
    back <= MAX_BEFORE || (frame % MARK_DISTANCE == 0 && back <= MAX_MARKED)
}

/// Leaves the states near a place.
fn retain_near<A: Allocator>(states: &mut Vec<Savestate, A>, end: usize)
    ensures states { states.new.items ≡ filter (λ kept. is_near end kept.frame) states.old.items }
    ensures capacity { vec_capacity states.new ≡ vec_capacity states.old }
{
    states.retain(|kept| is_near(end, kept.frame));
}

/// Puts the state after `frame` frames in its place, where this is near another one and no state is there yet. It is packed only
/// there. There is room for it.
fn keep_near<A: Allocator>(states: &mut Vec<Savestate, A>, frame: usize, state: &State, end: usize)
    requires rising { IsRising 0 states.old.items }
    requires positive { 0 < frame }
    requires room { vec_len states.old < vec_capacity states.old }
    ensures rising { IsRising 0 states.new.items }
    ensures states { (f : ℕ) → state_at f states.new.items ≡ first_of (state_at f states.old.items)
        (where_true (is_near end frame && (frame == f)) (Some state.now)) }
    ensures capacity { vec_capacity states.new ≡ vec_capacity states.old }
{
    if is_near(end, frame) {
        let state = state.pack();
        put(states, Savestate { frame, state });
    }
}

/// Plays the frames of a span without pictures, and returns the state after them. The states on the way are kept: in the
/// greenzone's list those on the grid, in the window's those near a place, which isn't before the span's end. Both have room
/// for them.
fn pass_both<A: Allocator, B: Allocator, C: Allocator>(
    cart: &Cart<A>,
    inputs: &[Input],
    span: Span,
    place: usize,
    green: &mut Vec<Savestate, B>,
    window: &mut Vec<Savestate, C>,
    meter: &mut Meter,
) -> State
    requires stride { 0 < span.stride }
    requires order { span.start.frame ≤ span.end }
    requires place { span.end ≤ place }
    requires within { span.end ≤ length inputs.now }
    requires start { span.start.state ≡ after cart.now (take span.start.frame inputs.now) }
    requires meter { meter.old + (span.end - span.start.frame) < 2 ^ 64 }
    requires rising { IsRising 0 green.old.items }
    requires room { vec_len green.old + span.end / span.stride
        ≤ vec_capacity green.old + span.start.frame / span.stride }
    requires window_rising { IsRising 0 window.old.items }
    requires window_near { AreNear place window.old.items }
    requires window_room { most_near < vec_capacity window.old }
    ensures state { result ≡ after cart.now (take span.end inputs.now) }
    ensures rising { IsRising 0 green.new.items }
    ensures passed { (f : ℕ) → state_at f green.new.items ≡ first_of (state_at f green.old.items)
        (where_true (is_passed span.stride span.start.frame span.end f)
        (Some (after cart.now (take f inputs.now)))) }
    ensures most { vec_len green.new + span.start.frame / span.stride
        ≤ vec_len green.old + span.end / span.stride }
    ensures capacity { vec_capacity green.new ≡ vec_capacity green.old }
    ensures window_rising { IsRising 0 window.new.items }
    ensures filled { (f : ℕ) → state_at f window.new.items ≡ first_of (state_at f window.old.items)
        (where_true (is_gained place span.start.frame span.end f)
        (Some (after cart.now (take f inputs.now)))) }
    ensures window_capacity { vec_capacity window.new ≡ vec_capacity window.old }
    ensures meter { meter.new ≡ meter.old + (span.end - span.start.frame) }
{
    let mut state = span.start.state.unpack();
    for frame in span.start.frame..span.end {
        // A halted machine stays as it is: its state has the halt.
        let _ = play_unseen(cart, &mut state, inputs[frame], meter);
        keep_near(window, frame + 1, &state, place);
        keep_on_grid(green, frame + 1, &state, span.end, span.stride);
    }
    state
}

/// Plays the frames of a span, of which there is one at least, and draws the last one. The states on the way are kept, as
/// `pass_both` keeps them, and so is the last one.
fn play_both<A: Allocator, B: Allocator, C: Allocator, D: Allocator>(
    cart: &Cart<A>,
    inputs: &[Input],
    span: Span,
    green: &mut Vec<Savestate, B>,
    window: &mut Vec<Savestate, C>,
    picture: &mut Picture<D>,
) -> Viewed
    requires stride { 0 < span.stride }
    requires order { span.start.frame < span.end }
    requires within { span.end ≤ length inputs.now }
    requires start { span.start.state ≡ after cart.now (take span.start.frame inputs.now) }
    requires rising { IsRising 0 green.old.items }
    requires room { vec_len green.old + span.end / span.stride
        ≤ vec_capacity green.old + span.start.frame / span.stride }
    requires window_rising { IsRising 0 window.old.items }
    requires window_near { AreNear span.end window.old.items }
    requires window_room { most_near < vec_capacity window.old }
    ensures ran { result.ran + span.start.frame ≡ span.end }
    ensures answer { result.end ≡ answer_of (after cart.now (take span.end inputs.now)).halt }
    ensures picture { (k : ℕ) → k + 1 ≡ span.end →
        OnOk result.end (picture.new ≡ picture_of_frame cart.now inputs.now k) }
    ensures rising { IsRising 0 green.new.items }
    ensures passed { (f : ℕ) → state_at f green.new.items ≡ first_of (state_at f green.old.items)
        (where_true (is_passed span.stride span.start.frame span.end f)
        (Some (after cart.now (take f inputs.now)))) }
    ensures window_rising { IsRising 0 window.new.items }
    ensures filled { (f : ℕ) → state_at f window.new.items ≡ first_of (state_at f window.old.items)
        (where_true (is_gained span.end span.start.frame span.end f)
        (Some (after cart.now (take f inputs.now)))) }
    ensures capacity { vec_capacity green.new ≡ vec_capacity green.old }
    ensures window_capacity { vec_capacity window.new ≡ vec_capacity window.old }
{
    let mut meter = Meter::new();
    let place = span.end;
    let step = span.stride;
    let last = place - 1;
    let before = Span { end: last, ..span };
    let mut state = pass_both(cart, inputs, before, place, green, window, &mut meter);
    let end = play(cart, &mut state, inputs[last], picture, &mut meter);
    keep_near(window, place, &state, place);
    keep_on_grid(green, place, &state, place, step);
    Viewed {
        ran: meter.count(),
        end,
    }
}

/// Plays a movie from a state on and draws frame `k`. The greenzone's states gain those on the way that are on the grid; of the
/// window's those near frame `k` are kept, and they gain those near it on the way. Both have room for them.
pub fn play_near<A: Allocator, B: Allocator, C: Allocator, D: Allocator>(
    movie: &Movie<A>,
    start: Savestate,
    k: usize,
    green: &mut Vec<Savestate, B>,
    window: &mut Vec<Savestate, C>,
    picture: &mut Picture<D>,
) -> Viewed
    requires within { (start.frame ≤ k) × (k < length movie.now.inputs) }
    requires start { start.state ≡ state_after movie.now start.frame }
    requires lawful { IsLawful movie.now green.old.items }
    requires states { AreMovieStates movie.now window.old.items }
    requires room { vec_len green.old + (k + 1) / stride (length movie.now.inputs)
        ≤ vec_capacity green.old + start.frame / stride (length movie.now.inputs) }
    requires window_room { most_near < vec_capacity window.old }
    ensures ran { result.ran + start.frame ≡ k + 1 }
    ensures answer { result.end ≡ answer_of (state_after movie.now (k + 1)).halt }
    ensures picture { OnOk result.end (picture.new ≡ picture_of movie.now k) }
    ensures passed { (f : ℕ) → state_at f green.new.items ≡ first_of (state_at f green.old.items)
        (where_true (is_passed (stride (length movie.now.inputs)) start.frame (k + 1) f)
        (Some (state_after movie.now f))) }
    ensures filled { IsFilled movie.now start.frame (k + 1) window.old.items window.new.items }
    ensures lawful { IsLawful movie.now green.new.items }
    ensures states { AreMovieStates movie.now window.new.items }
    ensures few { vec_len window.new ≤ most_near }
    ensures capacity { vec_capacity green.new ≡ vec_capacity green.old }
    ensures window_capacity { vec_capacity window.new ≡ vec_capacity window.old }
{
    let step = stride(movie.len());
    let span = Span {
        start,
        end: k + 1,
        stride: step,
    };
    retain_near(window, span.end);
    play_both(movie.cart(), movie.inputs(), span, green, window, picture)
}

/// Plays a movie from a state on up to a place, without pictures, and keeps states as [`play_near`] does for the frame before
/// that place. Both lists have room for them.
pub fn pass_near<A: Allocator, B: Allocator, C: Allocator>(
    movie: &Movie<A>,
    start: Savestate,
    end: usize,
    green: &mut Vec<Savestate, B>,
    window: &mut Vec<Savestate, C>,
) -> ReachedState
    requires within { (start.frame ≤ end) × (end ≤ length movie.now.inputs) }
    requires start { start.state ≡ state_after movie.now start.frame }
    requires lawful { IsLawful movie.now green.old.items }
    requires states { AreMovieStates movie.now window.old.items }
    requires room { vec_len green.old + end / stride (length movie.now.inputs)
        ≤ vec_capacity green.old + start.frame / stride (length movie.now.inputs) }
    requires window_room { most_near < vec_capacity window.old }
    ensures ran { result.ran + start.frame ≡ end }
    ensures state { result.state ≡ state_after movie.now end }
    ensures passed { (f : ℕ) → state_at f green.new.items ≡ first_of (state_at f green.old.items)
        (where_true (is_passed (stride (length movie.now.inputs)) start.frame end f)
        (Some (state_after movie.now f))) }
    ensures filled { IsFilled movie.now start.frame end window.old.items window.new.items }
    ensures lawful { IsLawful movie.now green.new.items }
    ensures states { AreMovieStates movie.now window.new.items }
    ensures few { vec_len window.new ≤ most_near }
    ensures capacity { vec_capacity green.new ≡ vec_capacity green.old }
    ensures window_capacity { vec_capacity window.new ≡ vec_capacity window.old }
{
    let step = stride(movie.len());
    let span = Span {
        start,
        end,
        stride: step,
    };
    retain_near(window, end);
    let mut meter = Meter::new();
    let state = pass_both(
        movie.cart(),
        movie.inputs(),
        span,
        end,
        green,
        window,
        &mut meter,
    );
    ReachedState {
        ran: meter.count(),
        state,
    }
}
