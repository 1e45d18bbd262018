//! A view: its looks and steps, its edits, and other movies that it follows.

use crate::checks::{check_same, check_that, expect_ok};
use crate::movies::{HALT, HALTING, PLAYFIELD, idle, movie_of, reset};
use std::alloc::Global;
use std::process::Abort;
use tas_green::{Merged, NoFrame, OtherCartridge, View, Viewed};
use tas_movie::{Edit, EditRefusal, Movie, apply, check};
use vcs_cpu::Halt;
use vcs_machine::Cart;
use vcs_tia::Picture;

/// A view of a movie of this many frames with nothing pressed.
fn view_of<R: Abort>(rt: &R, alloc: Global, program: &[u8], count: usize) -> View {
    let movie = movie_of(rt, alloc, program, count);
    expect_ok(rt, View::new(alloc, movie))
}

/// What a look at a frame comes to: how many frames ran, and how many pixels are lit, or the halt; or that there is no such frame.
type Look = Result<(u64, Result<usize, Halt>), NoFrame>;

/// What a look came to.
fn looked(answer: Result<Viewed, NoFrame>, picture: &Picture) -> Look {
    let viewed = answer?;
    Ok((viewed.ran, viewed.end.map(|_| picture.lit())))
}

/// A shot of a frame.
fn shot<R: Abort>(rt: &R, alloc: Global, view: &mut View, k: usize) -> Look {
    let mut picture = expect_ok(rt, Picture::blank(alloc));
    let answer = view.shot(k, &mut picture);
    looked(answer, &picture)
}

/// A picture of a frame.
fn picture<R: Abort>(rt: &R, alloc: Global, view: &mut View, k: usize) -> Look {
    let mut picture = expect_ok(rt, Picture::blank(alloc));
    let answer = view.picture(k, &mut picture);
    looked(answer, &picture)
}

/// Checks that the states after just these frames are kept.
fn check_kept<R: Abort>(rt: &R, name: &'static str, view: &View, kept: &[usize]) {
    check_same(rt, (name, "kept"), view.count(), kept.len());
    for frame in kept {
        check_that(rt, (name, *frame), view.holds(*frame));
    }
}

/// Frames of a movie with 200, each shown after the one before it, and how many are played for it. A step plays one frame; a place
/// of the grid, the one after 64 frames, isn't passed from a state of the window that stands before it.
static STEPS: [(usize, u64); 10] = [
    (100, 101),
    (101, 1),
    (102, 1),
    (101, 1),
    (100, 1),
    (99, 1),
    (50, 1),
    (150, 87),
    (127, 1),
    (191, 64),
];

#[test]
fn steps_play_one_frame(rt: HostRuntime) {
    let alloc = rt.alloc();
    let mut view = view_of(&rt, alloc, PLAYFIELD, 200);
    for (k, ran) in STEPS.iter() {
        let found = picture(&rt, alloc, &mut view, *k);
        check_same(&rt, ("picture", *k), found, Ok((*ran, Ok(1680))));
    }
    check_kept(&rt, "after the steps", &view, &[64, 128, 192]);
    check_same(&rt, "nearest", view.nearest(191), 128);
}

/// Looks at frames of a movie of 100 whose program halts in the fourth, each after the one before it.
static HALTED: [(usize, Look); 4] = [
    (2, Ok((3, Ok(0)))),
    (99, Ok((100, Err(HALT)))),
    (80, Ok((17, Err(HALT)))),
    (100, Err(NoFrame)),
];

#[test]
fn shots_of_a_view(rt: HostRuntime) {
    let alloc = rt.alloc();
    let mut view = view_of(&rt, alloc, HALTING, 100);
    for (k, wanted) in HALTED.iter() {
        let found = shot(&rt, alloc, &mut view, *k);
        check_same(&rt, ("shot", *k), found, *wanted);
    }
    check_kept(&rt, "after the shots", &view, &[64]);
    check_same(
        &rt,
        "no picture",
        picture(&rt, alloc, &mut view, 100),
        Err(NoFrame),
    );
}

#[test]
fn states_of_a_view(rt: HostRuntime) {
    let alloc = rt.alloc();
    let mut view = view_of(&rt, alloc, HALTING, 100);
    for (frames, ran, is_halted) in [(3, 3, false), (100, 97, true), (70, 0, true)] {
        let reached = expect_ok(&rt, view.state(frames));
        let found = (reached.ran, reached.state.halted());
        let wanted = if is_halted { Some(HALT) } else { None };
        check_same(&rt, frames, found, (ran, wanted));
    }
    check_that(&rt, "past the end", view.state(101).is_err());
    check_kept(&rt, "after the states", &view, &[64]);
}

/// Numbers of frames of a movie of 200, each reached after the one before it, and how many frames are played for it: one for a step
/// forward, none for a step back.
static STATES: [(usize, u64); 9] = [
    (100, 100),
    (101, 1),
    (102, 1),
    (102, 0),
    (101, 0),
    (100, 0),
    (50, 0),
    (150, 86),
    (127, 0),
];

#[test]
fn states_step_by_one_frame(rt: HostRuntime) {
    let alloc = rt.alloc();
    let mut view = view_of(&rt, alloc, PLAYFIELD, 200);
    for (frames, ran) in STATES.iter() {
        let reached = expect_ok(&rt, view.state(*frames));
        check_same(&rt, *frames, reached.ran, *ran);
    }
    check_kept(&rt, "after the states", &view, &[64, 128]);
}

/// A picture and a state use one window, and a copy of a view has it.
#[test]
fn pictures_and_states_share_a_window(rt: HostRuntime) {
    let alloc = rt.alloc();
    let mut view = view_of(&rt, alloc, PLAYFIELD, 200);
    let drawn = picture(&rt, alloc, &mut view, 100);
    check_same(&rt, "picture", drawn, Ok((101, Ok(1680))));
    check_same(&rt, "after it", expect_ok(&rt, view.state(101)).ran, 0);
    check_same(&rt, "next", expect_ok(&rt, view.state(102)).ran, 1);
    let mut copy = expect_ok(&rt, view.copy(alloc));
    check_same(
        &rt,
        "copy",
        picture(&rt, alloc, &mut copy, 102),
        Ok((1, Ok(1680))),
    );
    check_kept(&rt, "copy", &copy, &[64]);
}

/// Whether the machine after frame `k` is at hand, and is the one that is played for it.
fn is_at_hand<R: Abort>(rt: &R, alloc: Global, view: &View, k: usize) -> bool {
    let Some(found) = view.after_frame(k) else {
        return false;
    };
    let mut copy = expect_ok(rt, view.copy(alloc));
    let reached = expect_ok(rt, copy.state(k.saturating_add(1)));
    check_same(rt, ("played", k), reached.ran, 0);
    check_that(rt, ("RAM", k), found.ram() == reached.state.ram());
    found.ram() == reached.state.ram()
}

/// Frames of a movie of 200, of which frame 100 was shown, and whether the machine after them is at hand: near that frame, and further back
/// at each 16th frame.
static AT_HAND: [(usize, bool); 10] = [
    (100, true),
    (99, true),
    (64, true),
    (63, true),
    (20, false),
    (15, true),
    (101, false),
    (199, false),
    (200, false),
    (usize::MAX, false),
];

#[test]
fn a_shown_frame_leaves_the_machine_after_it(rt: HostRuntime) {
    let alloc = rt.alloc();
    let mut view = view_of(&rt, alloc, PLAYFIELD, 200);
    check_that(&rt, "at first", view.after_frame(100).is_none());
    let drawn = picture(&rt, alloc, &mut view, 100);
    check_same(&rt, "picture", drawn, Ok((101, Ok(1680))));
    for (k, wanted) in &AT_HAND {
        check_same(&rt, *k, is_at_hand(&rt, alloc, &view, *k), *wanted);
    }
}

#[test]
fn a_view_has_room_for_512_states(rt: HostRuntime) {
    let alloc = rt.alloc();
    let mut view = view_of(&rt, alloc, HALTING, 65536);
    let wanted = Ok((65536, Err(HALT)));
    check_same(&rt, "last", picture(&rt, alloc, &mut view, 65535), wanted);
    check_same(&rt, "states", view.count(), 512);
    check_same(
        &rt,
        "again",
        picture(&rt, alloc, &mut view, 65535),
        Ok((1, Err(HALT))),
    );
}

/// Makes an edit in a view after a shot, and checks what is kept and how many frames a second shot plays.
fn check_edit<R: Abort>(
    rt: &R,
    alloc: Global,
    edit: &Edit,
    wanted: Result<(), EditRefusal>,
    kept: &[usize],
    ran: u64,
) {
    let mut view = view_of(rt, alloc, PLAYFIELD, 200);
    check_same(
        rt,
        "first",
        shot(rt, alloc, &mut view, 191),
        Ok((192, Ok(1680))),
    );
    check_same(rt, "edit", view.edit(edit), wanted);
    check_kept(rt, "after the edit", &view, kept);
    check_same(
        rt,
        "second",
        shot(rt, alloc, &mut view, 150),
        Ok((ran, Ok(1680))),
    );
}

#[test]
fn edits_of_a_view(rt: HostRuntime) {
    let alloc = rt.alloc();
    let inputs = reset(&rt, alloc);
    check_edit(
        &rt,
        alloc,
        &Edit::Replace { at: 64, inputs },
        Ok(()),
        &[64],
        87,
    );
    check_edit(
        &rt,
        alloc,
        &Edit::Delete { at: 130, count: 10 },
        Ok(()),
        &[64, 128],
        23,
    );
    let inputs = reset(&rt, alloc);
    let refusal = EditRefusal::Place { at: 200, len: 200 };
    check_edit(
        &rt,
        alloc,
        &Edit::Replace { at: 200, inputs },
        Err(refusal),
        &[64, 128, 192],
        23,
    );
}

/// A copy of a movie in which an edit is made.
fn with_edit<R: Abort>(rt: &R, alloc: Global, movie: &Movie, edit: &Edit) -> Movie {
    let mut copy = expect_ok(rt, movie.copy(alloc));
    expect_ok(rt, check(&copy, edit));
    apply(&mut copy, edit);
    copy
}

/// An edit that is undone before the next look costs no state; another one costs those past its place, and another cartridge all.
#[test]
fn a_view_follows_other_movies(rt: HostRuntime) {
    let alloc = rt.alloc();
    let mut view = view_of(&rt, alloc, PLAYFIELD, 200);
    check_same(
        &rt,
        "first",
        shot(&rt, alloc, &mut view, 191),
        Ok((192, Ok(1680))),
    );
    let inputs = reset(&rt, alloc);
    let edited = with_edit(&rt, alloc, view.movie(), &Edit::Replace { at: 64, inputs });
    let inputs = idle(&rt, alloc, 1);
    let undone = with_edit(&rt, alloc, &edited, &Edit::Replace { at: 64, inputs });
    view.follow(undone);
    check_kept(&rt, "undone", &view, &[64, 128, 192]);
    check_same(
        &rt,
        "shot of it",
        shot(&rt, alloc, &mut view, 191),
        Ok((64, Ok(1680))),
    );
    view.follow(edited);
    check_kept(&rt, "edited", &view, &[64]);
    check_same(
        &rt,
        "picture of it",
        picture(&rt, alloc, &mut view, 64),
        Ok((1, Ok(1680))),
    );
    check_same(
        &rt,
        "next",
        picture(&rt, alloc, &mut view, 65),
        Ok((1, Ok(1680))),
    );
    view.follow(movie_of(&rt, alloc, HALTING, 100));
    check_kept(&rt, "another cartridge", &view, &[]);
    check_same(
        &rt,
        "shot of that",
        shot(&rt, alloc, &mut view, 2),
        Ok((3, Ok(0))),
    );
}

/// A view gains the states of its own job's batch, and of a copy of another view's states just those that it lacks. A batch of another
/// cartridge is refused.
#[test]
fn a_view_gains_states(rt: HostRuntime) {
    let alloc = rt.alloc();
    let mut full = view_of(&rt, alloc, PLAYFIELD, 200);
    check_same(
        &rt,
        "first",
        shot(&rt, alloc, &mut full, 199),
        Ok((200, Ok(1680))),
    );
    let states = expect_ok(&rt, full.copy_states(alloc));
    let movie = expect_ok(&rt, full.movie().copy(alloc));
    let mut view = expect_ok(&rt, View::new(alloc, movie));
    let job = expect_ok(&rt, view.job(alloc, 130));
    let merged = Merged {
        front: 130,
        kept: 2,
    };
    check_same(&rt, "merge", view.merge(&job.run()), Ok(merged));
    check_kept(&rt, "merged", &view, &[64, 128]);
    check_same(&rt, "gain", view.gain(&states), 1);
    check_kept(&rt, "gained", &view, &[64, 128, 192]);
    check_same(&rt, "gain again", view.gain(&states), 0);
    let job = expect_ok(&rt, full.job(alloc, 1000));
    let merged = Merged {
        front: 200,
        kept: 0,
    };
    check_same(&rt, "nothing left", full.merge(&job.run()), Ok(merged));
    let other = Edit::Load(expect_ok(&rt, Cart::blank(alloc)));
    let job = expect_ok(&rt, full.job(alloc, 1000));
    check_same(&rt, "load", full.edit(&other), Ok(()));
    check_same(&rt, "other", full.merge(&job.run()), Err(OtherCartridge));
}
