//! Pictures from a seat's window: steps, edits around it, loads, halts, and how many frames all of them play.

use crate::calls::{Call, play_calls};
use crate::changes::{BRIEF_FOLDING, Change, HALT, HALTING, PLAYFIELD};
use tas_desk::ShotError;

/// A jump, 1,000 steps forward and 1,000 back, at the place in a stride of 512 frames where this plays most: 3,822 frames for 2,000
/// steps. They were counted by hand: back from 3,557 the first 64 steps play one frame each, then each 16th plays 16 up to the 512th,
/// and a jump comes in each stride.
static LONG_WALK: [Call; 5] = [
    Call::Made(0, Change::Load(BRIEF_FOLDING), 1, 0),
    Call::Made(0, Change::Insert(0, 262144), 2, 262144),
    Call::Stepped(0, 2558, 2558, 2559),
    Call::Stepped(0, 2559, 3558, 1000),
    Call::Stepped(0, 3557, 2558, 2822),
];

/// On average at most 2 frames are played for a step.
#[test]
fn steps_play_at_most_two_frames_on_average(rt: HostRuntime) {
    play_calls(&rt, rt.alloc(), 1, &LONG_WALK);
}

static STEPS: [Call; 12] = [
    Call::Made(0, Change::Load(PLAYFIELD), 1, 0),
    Call::Made(0, Change::Insert(0, 600), 2, 600),
    Call::Viewed(0, 300, 2, 301, 1680),
    Call::Keeps(0, 4),
    Call::Viewed(0, 301, 2, 1, 1680),
    Call::Viewed(0, 300, 2, 1, 1680),
    Call::Viewed(0, 299, 2, 1, 1680),
    Call::Viewed(0, 238, 2, 1, 1680),
    Call::Viewed(0, 191, 2, 16, 1680),
    Call::Drawn(0, 236, 2, 45, 1680),
    Call::NotViewed(0, 600, ShotError::NoFrame { at: 2, len: 600 }),
    Call::Viewed(0, 192, 2, 1, 1680),
];

/// A picture is played from the nearest state of zone and window, and fills both; a shot knows nothing of the window.
#[test]
fn pictures_are_played_from_both(rt: HostRuntime) {
    play_calls(&rt, rt.alloc(), 1, &STEPS);
}

static EDITED: [Call; 22] = [
    Call::Made(0, Change::Load(BRIEF_FOLDING), 1, 0),
    Call::Made(0, Change::Insert(0, 400), 2, 400),
    Call::Alike(0, 1, 290, 310),
    // Within the window: what is after the edit goes.
    Call::Made(0, Change::ReplaceRight(300), 3, 400),
    Call::Alike(0, 1, 310, 290),
    // After it.
    Call::Made(0, Change::ReplaceRight(350), 4, 400),
    Call::Stepped(0, 290, 290, 1),
    Call::Alike(0, 1, 291, 295),
    // Before it: all goes.
    Call::Made(0, Change::ReplaceRight(10), 5, 400),
    Call::Stepped(0, 296, 296, 297),
    Call::Alike(0, 1, 297, 300),
    // An edit that is taken back costs nothing.
    Call::Made(0, Change::ReplaceRight(20), 6, 400),
    Call::Made(0, Change::Replace(20, 1), 7, 400),
    Call::Stepped(0, 301, 301, 1),
    // One that is looked at in between does, but for the mark at 16.
    Call::Made(0, Change::ReplaceRight(20), 8, 400),
    Call::Alike(0, 1, 290, 292),
    Call::Made(0, Change::Replace(20, 1), 9, 400),
    Call::Stepped(0, 293, 293, 278),
    // Another length moves the frames after the edit.
    Call::Made(0, Change::Insert(100, 3), 10, 403),
    Call::Alike(0, 1, 290, 300),
    Call::Made(0, Change::Delete(295, 108), 11, 295),
    Call::Alike(0, 1, 294, 280),
];

#[test]
fn edits_before_inside_and_after_the_window(rt: HostRuntime) {
    play_calls(&rt, rt.alloc(), 2, &EDITED);
}

static LOADS: [Call; 11] = [
    Call::Made(0, Change::Load(BRIEF_FOLDING), 1, 0),
    Call::Made(0, Change::Insert(0, 100), 2, 100),
    Call::Stepped(0, 50, 50, 51),
    Call::Made(0, Change::Load(PLAYFIELD), 3, 100),
    Call::Viewed(0, 51, 3, 52, 1680),
    Call::Made(0, Change::Load(BRIEF_FOLDING), 4, 100),
    Call::Alike(1, 0, 10, 10),
    Call::Alike(0, 1, 51, 45),
    Call::Made(0, Change::Load(PLAYFIELD), 5, 100),
    Call::Share(0, 0),
    Call::Viewed(0, 51, 5, 52, 1680),
];

/// Another cartridge empties the window, whichever call brings it to the zone.
#[test]
fn a_load_empties_the_window(rt: HostRuntime) {
    play_calls(&rt, rt.alloc(), 2, &LOADS);
}

static HALTED: [Call; 8] = [
    Call::Made(0, Change::Load(HALTING), 1, 0),
    Call::Made(0, Change::Insert(0, 100), 2, 100),
    Call::Viewed(0, 2, 2, 3, 0),
    Call::NotViewed(0, 3, ShotError::Halted { at: 2, halt: HALT }),
    Call::NotViewed(0, 70, ShotError::Halted { at: 2, halt: HALT }),
    Call::Keeps(0, 1),
    Call::Viewed(0, 2, 2, 3, 0),
    Call::Stepped(0, 2, 0, 3),
];

#[test]
fn halted_frames_are_no_pictures(rt: HostRuntime) {
    play_calls(&rt, rt.alloc(), 1, &HALTED);
}

static ANOTHER_GRID: [Call; 8] = [
    Call::Made(0, Change::Load(BRIEF_FOLDING), 1, 0),
    Call::Made(0, Change::Insert(0, 32832), 2, 32832),
    Call::Stepped(0, 500, 500, 501),
    Call::Keeps(0, 3),
    // The stride is 64 now, and the states of the window stand past places of the grid that aren't kept.
    Call::Made(0, Change::Delete(32831, 1), 3, 32831),
    Call::Alike(0, 1, 501, 440),
    Call::Keeps(0, 4),
    Call::Stepped(0, 441, 441, 1),
];

/// Where the grid gets finer, a picture fills it as a shot does.
#[test]
fn a_picture_leaves_the_grid_of_a_shot(rt: HostRuntime) {
    play_calls(&rt, rt.alloc(), 2, &ANOTHER_GRID);
}
