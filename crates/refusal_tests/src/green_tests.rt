//! Greenzones: after each refusal zone, meter and picture are as they were, and the same call is right.

ghost use Rattle.std.specs.Prelude.{◌≡◌, ◌≤◌, OnErr, length};
ghost use Rattle.tas_green.specs.Green.{IsLawful};

use crate::checks::{check_same, check_that, expect_ok};
use crate::fixtures::{BRIEF, GRID, PLAYFIELD, has_first_two, has_lacked, movie_of, played};
use crate::runs::{
    Heap, NEVER, NOT_AS_BEFORE, NOT_TOLD, Run, count_growths, is_over, refuse, refusing,
};
use std::alloc::{AllocError, Allocator, Global};
use std::process::Abort;
use tas_green::{Batch, Green, Job, MergeError, Merged, View, Viewed};
use tas_movie::Movie;
use vcs_machine::{Input, Meter, State};
use vcs_tia::Picture;

/// A call on a greenzone, or what a view does.
#[derive(Clone, Copy)]
enum Seeking {
    Shot,
    Merge,
    Gain,
    TakeJob,
    View,
}

/// Each such call, its name, and how many growths it has: a zone's list of states has one, a job those of its cartridge, its inputs
/// and its list of states. A view has two when it is made, beside the two of its movie, and none later; then a job of it has its
/// three, a copy of its states one, and a copy of all of it as many as the view.
static SEEKINGS: [(Seeking, &str, u64); 5] = [
    (Seeking::Shot, "Shot", 1),
    (Seeking::Merge, "Merge", 1),
    (Seeking::Gain, "Gain", 1),
    (Seeking::TakeJob, "TakeJob", 3),
    (Seeking::View, "View", 13),
];

/// What the calls are given, and don't change.
#[derive(Drop)]
struct Given {
    movie: Movie,
    /// The movie's states after 64 frames and so on up to 384.
    full: Green,
    /// The movie's, to be merged.
    batch: Batch,
    /// The movie's machine after 384 frames, played from power-on.
    end: State,
}

/// Whether just the six states up to 384 frames are kept, as after each call that is right.
fn is_full<A: Allocator>(green: &Green<A>) -> bool {
    for frame in GRID.iter() {
        if !green.holds(*frame) {
            return false;
        }
    }
    green.count() == 6
}

/// A greenzone of the movie that keeps the states on the way to the frame `last`.
fn zone_of<R: Abort, A: Allocator>(
    rt: &R,
    alloc: Global,
    heap: A,
    movie: &Movie,
    last: usize,
) -> Green<A>
    ensures { IsLawful movie.now result }
{
    check_that(rt, "a frame of the movie", last < movie.len());
    let mut green = Green::new(heap);
    let mut picture = expect_ok(rt, Picture::blank(alloc));
    let mut meter = Meter::new();
    let drawn = green.shot(movie, last, &mut picture, &mut meter);
    expect_ok(rt, expect_ok(rt, drawn));
    green
}

/// A picture of the playfield.
fn playfield<R: Abort>(rt: &R, alloc: Global) -> Picture {
    let movie = movie_of(rt, alloc, PLAYFIELD, Input::none(), 1);
    check_that(rt, "a frame to be drawn", movie.len() == 1);
    let mut green = Green::new(alloc);
    let mut picture = expect_ok(rt, Picture::blank(alloc));
    let mut meter = Meter::new();
    let drawn = green.shot(&movie, 0, &mut picture, &mut meter);
    expect_ok(rt, expect_ok(rt, drawn));
    picture
}

/// The states of all of the grid's places up to 384 frames.
fn batch_of<R: Abort>(rt: &R, alloc: Global, movie: &Movie) -> Batch {
    expect_ok(rt, Job::take(alloc, movie, &Green::new(alloc), 384)).run()
}

/// What the calls are given.
fn make_given<R: Abort>(rt: &R, alloc: Global) -> Given
    ensures { IsLawful result.movie result.full }
{
    let movie = movie_of(rt, alloc, BRIEF, Input::none(), 400);
    Given {
        full: zone_of(rt, alloc, alloc, &movie, 383),
        batch: batch_of(rt, alloc, &movie),
        end: played(movie.cart(), movie.inputs(), 384),
        movie,
    }
}

/// Whether nothing was drawn over the playfield, and no frame played.
fn is_untouched(picture: &Picture, meter: &Meter) -> bool {
    picture.lit() == 1680 && meter.count() == 0
}

/// Whether a black frame was drawn, and this many frames were played.
fn shows(picture: &Picture, meter: &Meter, ran: u64) -> bool {
    picture.lit() == 0 && meter.count() == ran
}

/// Whether a view of the movie that has all its states draws a black frame, and has the state after it then.
fn draws<B: Allocator>(view: &mut View<&Heap>, picture: &mut Picture<B>, given: &Given) -> bool {
    let Ok(viewed) = view.picture(383, picture) else {
        return false;
    };
    let Ok(reached) = view.state(384) else {
        return false;
    };
    viewed
        == Viewed {
            ran: 64,
            end: Ok(()),
        }
        && picture.lit() == 0
        && reached.ran == 0
        && reached.state == given.end
}

/// Whether a copy of that view has its six states, and its window, too, and draws the black frame.
fn is_drawn_again(copy: &mut View<&Heap>, picture: &mut Picture) -> bool {
    let Ok(viewed) = copy.picture(383, picture) else {
        return false;
    };
    (viewed.ran, copy.count(), picture.lit()) == (1, 6, 0)
}

/// A view that is made of a copy of the movie, a job of it, copies of its states and of all of it, and what these draw: whether they
/// are right.
fn view(heap: &Heap, picture: &mut Picture, given: &Given) -> Result<bool, AllocError> {
    let mut view = View::new(heap, given.movie.copy(heap)?)?;
    let job = view.job(heap, 400)?;
    let Ok(merged) = view.merge(&given.batch) else {
        return Ok(false);
    };
    let copy = view.copy_states(heap)?;
    // The picture that is looked at after a refusal is drawn only once nothing can be refused any more.
    let mut other = Picture::blank(heap)?;
    let is_right = is_full(&copy) && draws(&mut view, &mut other, given);
    let mut copied = view.copy(heap)?;
    let draws_again = is_drawn_again(&mut copied, picture);
    let Ok(again) = view.merge(&job.run()) else {
        return Ok(false);
    };
    Ok(is_right && draws_again && (merged.kept, again.kept, view.count()) == (6, 0, 6))
}

/// What a merge of the batch gains.
const MERGED: Merged = Merged {
    front: 384,
    kept: 4,
};

/// Whether a batch has the movie's cartridge and inputs, and the states that a zone of two lacked.
fn is_batch(batch: &Batch<&Heap>, movie: &Movie) -> bool {
    batch.cart().bytes() == movie.cart().bytes()
        && batch.inputs() == movie.inputs()
        && has_lacked(batch)
}

/// A merge of the batch: whether it is right, where memory isn't refused.
fn merge(green: &mut Green<&Heap>, movie: &Movie, batch: &Batch) -> Result<bool, AllocError>
    requires { IsLawful movie.now green.old }
    ensures { OnErr result (green.new ≡ green.old) }
{
    match green.merge(movie, batch) {
        Ok(merged) => Ok(merged == MERGED && is_full(green)),
        Err(MergeError::Memory) => Err(AllocError),
        Err(MergeError::Cartridge) => Ok(false),
    }
}

/// The call: whether it is right, where memory isn't refused.
fn seek(
    heap: &Heap,
    green: &mut Green<&Heap>,
    picture: &mut Picture,
    meter: &mut Meter,
    given: &Given,
    seeking: Seeking,
) -> Result<bool, AllocError>
    requires lawful { IsLawful given.now.movie green.old }
    requires full { IsLawful given.now.movie given.now.full }
    requires long { 384 ≤ length given.now.movie.inputs }
    requires meter { meter.old ≡ 0 }
    ensures zone { OnErr result (green.new ≡ green.old) }
    ensures meter { OnErr result (meter.new ≡ meter.old) }
{
    let movie = &given.movie;
    let is_right = match seeking {
        Seeking::Shot => {
            let drawn = green.shot(movie, 383, picture, meter)?;
            drawn.is_ok() && shows(picture, meter, 256) && is_full(green)
        }
        Seeking::Merge => merge(green, movie, &given.batch)?,
        Seeking::Gain => green.gain(movie, &given.full)? == 4 && is_full(green),
        Seeking::TakeJob => is_batch(&Job::take(heap, movie, green, 400)?.run(), movie),
        Seeking::View => view(heap, picture, given)?,
    };
    Ok(is_right)
}

/// Whether what the calls are given is as it was.
fn is_given(given: &Given) -> bool {
    given.batch.holds(384) && is_full(&given.full)
}

/// The call with one growth refused, and the same call after it.
fn seek_twice(
    heap: &Heap,
    green: &mut Green<&Heap>,
    picture: &mut Picture,
    given: &Given,
    seeking: Seeking,
) -> Run
    requires lawful { IsLawful given.now.movie green.old }
    requires full { IsLawful given.now.movie given.now.full }
    requires long { 384 ≤ length given.now.movie.inputs }
{
    let mut meter = Meter::new();
    let mut answer = seek(heap, green, picture, &mut meter, given, seeking);
    let has_refused = heap.has_refused();
    if has_refused {
        if answer.is_ok() {
            return NOT_TOLD;
        }
        if !has_first_two(green) || !is_untouched(picture, &meter) {
            return NOT_AS_BEFORE;
        }
        answer = seek(heap, green, picture, &mut meter, given, seeking);
    }
    Run::ended(has_refused, matches!(answer, Ok(true)) && is_given(given))
}

/// The call on a zone with two states of the movie, with one growth refused, and the same call after it.
fn run_seeking<R: Abort>(rt: &R, alloc: Global, given: &Given, seeking: Seeking, number: u64) -> Run
    requires full { IsLawful given.now.movie given.now.full }
    requires long { 384 ≤ length given.now.movie.inputs }
{
    let heap = refusing(alloc, NEVER);
    let mut green = zone_of(rt, alloc, &heap, &given.movie, 127);
    let mut picture = playfield(rt, alloc);
    refuse(&heap, number);
    seek_twice(&heap, &mut green, &mut picture, given, seeking)
}

/// How many growths the call of this name has, each of which is refused in turn.
fn growths_of<R: Abort>(rt: &R, alloc: Global, given: &Given, seeking: Seeking, name: &str) -> u64
    requires full { IsLawful given.now.movie given.now.full }
    requires long { 384 ≤ length given.now.movie.inputs }
{
    count_growths(|number| {
        let run = run_seeking(rt, alloc, given, seeking, number);
        is_over(rt, (name, number), run)
    })
}

/// Compares how many growths each call has.
fn check_seekings<R: Abort>(rt: &R, alloc: Global, given: &Given)
    requires full { IsLawful given.now.movie given.now.full }
{
    check_that(rt, "movie", given.movie.len() == 400);
    for row in SEEKINGS.iter() {
        let (seeking, name, growths) = *row;
        let found = growths_of(rt, alloc, given, seeking, name);
        check_same(rt, name, found, growths);
    }
}

#[test]
fn what_a_greenzone_does(rt: HostRuntime) {
    let alloc = rt.alloc();
    check_seekings(&rt, alloc, &make_given(&rt, alloc));
}
