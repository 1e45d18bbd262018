//! Exports: the same bytes for every number of workers, and what is left out of them.

ghost use Rattle.std.specs.Prelude.{◌≤◌};
ghost use Rattle.tas_film.specs.Runs.{most_workers};

use crate::answers::{Refused, export};
use crate::changes::{Change, FOLDING, HALT, HALTING, PLAYFIELD, WAITING, edit_of};
use crate::checks::{check_same, check_that, expect_ok, expect_some};
use crate::desks::{Task, lend, make_edits};
use crate::gates::{Counting, Open, Ordered};
use crate::pictures::pixmaps;
use crate::replays::make;
use crate::sums::Compared;
use std::alloc::Global;
use std::process::Abort;
use std::sync::Wait;
use std::thread::Threads;
use tas_desk::{Desk, ExportError, Exported, MAX_WORKERS, Name, Seat};
use tas_movie::Movie;

/// The edits that make this many frames of a program, with the left stick pushed right in the second one.
fn edits_of(program: &'static [u8], frames: usize) -> [Change; 3] {
    [
        Change::Load(program),
        Change::Insert(0, frames),
        Change::ReplaceRight(1),
    ]
}

/// Five frames of nothing pressed, of which the fourth halts.
static HALTED_FIVE: [Change; 2] = [Change::Load(HALTING), Change::Insert(0, 5)];

/// The movie that these edits make, each of which is allowed.
fn movie_of<R: Abort>(rt: &R, alloc: Global, changes: &[Change]) -> Movie {
    let mut movie = expect_ok(rt, Movie::blank(alloc));
    for change in changes {
        make(rt, *change, &mut movie, &edit_of(rt, alloc, *change));
    }
    movie
}

/// What an export of frames of the movie that these edits make writes: how many bytes, and the sum over them. None of them is halted.
fn wanted_pixmaps<R: Abort>(
    rt: &R,
    alloc: Global,
    changes: &[Change],
    range: (usize, usize),
) -> (usize, u64) {
    let movie = movie_of(rt, alloc, changes);
    let drawn = pixmaps(rt, alloc, movie.cart(), movie.inputs(), range);
    expect_ok(rt, drawn)
}

/// This many frames, from frame 2 on, by each number of workers.
pub fn export_by_each<N: Name + Send + Sync, R: Threads + Wait + Abort + Sync>(
    rt: &R,
    alloc: Global,
    desk: &Desk<N, &R>,
    seats: &mut [Seat<N>],
    frames: usize,
) {
    let seat = expect_some(rt, seats.first_mut());
    let folded = edits_of(FOLDING, 20);
    make_edits(rt, alloc, desk, seat, &folded);
    let range = (2, frames.saturating_add(2));
    let (bytes, sum) = wanted_pixmaps(rt, alloc, &folded, range);
    check_same(rt, "bytes", bytes, frames.saturating_mul(100_815));
    for workers in 1..17usize {
        let told = export(rt, alloc, desk, seat, range, workers, &Open, usize::MAX);
        let name = ("frames by workers", frames, workers);
        check_same(
            rt,
            name,
            (told.0.is_ok(), told.1, told.2),
            (true, bytes, sum),
        );
    }
}

#[test]
fn every_number_of_workers_writes_the_same(rt: HostRuntime) {
    for frames in [0, 1, 15, 16, 17] {
        let closed = lend(&rt, rt.alloc(), 1, Task::ExportByEach(frames));
        check_same(&rt, "closed.journal", closed.journal.len(), 3);
    }
}

/// Two workers of whom the first waits until the second has come, and gates that are passed by workers without frames too.
pub fn export_through_gates<N: Name + Send + Sync, R: Threads + Wait + Abort + Sync>(
    rt: &R,
    alloc: Global,
    desk: &Desk<N, &R>,
    seats: &mut [Seat<N>],
) {
    let seat = expect_some(rt, seats.first_mut());
    make_edits(rt, alloc, desk, seat, &edits_of(PLAYFIELD, 2));
    let (told, bytes, sum) = export(rt, alloc, desk, seat, (0, 2), 1, &Open, usize::MAX);
    check_same(rt, "by one worker", (told, bytes), (Ok((3, 2)), 201_630));
    let ordered = Ordered::new();
    let both = export(rt, alloc, desk, seat, (0, 2), 2, &ordered, usize::MAX);
    check_that(rt, "one thread plays both runs", ordered.entered.was_seen());
    check_same(rt, "by two workers", both, (Ok((3, 3)), bytes, sum));
    let counting = Counting::new();
    let many = export(rt, alloc, desk, seat, (0, 2), 16, &counting, usize::MAX);
    check_same(rt, "by 16 workers", (many.1, many.2), (bytes, sum));
    // The numbers 0 to 15, each once.
    check_same(rt, "gates passed", counting.passed(), (16, 1240));
}

#[test]
fn workers_run_at_once(rt: HostRuntime) {
    lend(&rt, rt.alloc(), 1, Task::ExportThroughGates);
}

/// An export with its answer, into a writer with room for all where it doesn't say otherwise.
#[derive(Clone, Copy, Debug)]
pub enum Case {
    /// Of frames by workers, after this many edits: this frame is reported as halted.
    Halted(u64, (usize, usize), usize, usize),
    /// Of the three frames before the halt.
    BeforeTheHalt,
    /// Of the first two frames, into a writer that fails after this many bytes.
    Full(usize),
    /// Of frames that a movie of 1,030 frames hasn't, or that are too many.
    OutOfRange(usize, usize),
    /// Of no frames, at this place of the movie.
    Nothing(usize),
}

/// A case's frames, workers and room, what is reported, and how many bytes are written.
fn wanted(
    case: Case,
) -> (
    (usize, usize),
    usize,
    usize,
    Result<(u64, u64), Refused>,
    usize,
) {
    let room = usize::MAX;
    match case {
        Case::Halted(at, range, workers, frame) => {
            let halt = HALT;
            (
                range,
                workers,
                room,
                Err(Refused::Halted { at, frame, halt }),
                0,
            )
        }
        Case::BeforeTheHalt => ((0, 3), 2, room, Ok((3, 4)), 302_445),
        Case::Full(written) => {
            let is_full = true;
            (
                (0, 2),
                2,
                written,
                Err(Refused::Write { written, is_full }),
                written,
            )
        }
        Case::OutOfRange(from, to) => {
            let (at, len) = (3, 1030);
            ((from, to), 2, room, Err(Refused::Range { at, len }), 0)
        }
        Case::Nothing(end) => ((end, end), 3, room, Ok((3, 0)), 0),
    }
}

/// Exports of a movie that these edits make.
pub fn export_cases<N: Name + Send + Sync, R: Threads + Wait + Abort + Sync>(
    rt: &R,
    alloc: Global,
    desk: &Desk<N, &R>,
    seats: &mut [Seat<N>],
    changes: &[Change],
    cases: &[Case],
) {
    let seat = expect_some(rt, seats.first_mut());
    make_edits(rt, alloc, desk, seat, changes);
    for case in cases {
        let (range, workers, room, told, bytes) = wanted(*case);
        check_that(rt, *case, 1 <= workers && workers <= MAX_WORKERS);
        let (found, written, _) = export(rt, alloc, desk, seat, range, workers, &Open, room);
        check_same(rt, *case, (found, written), (told, bytes));
    }
}

/// A halt in the last run; in two runs; in each of five; and the frames before it.
static HALTS: [Case; 7] = [
    Case::Halted(3, (1, 5), 2, 3),
    Case::Halted(3, (1, 5), 1, 3),
    Case::Halted(3, (3, 5), 2, 3),
    Case::Halted(3, (0, 8), 8, 3),
    Case::Halted(3, (5, 8), 3, 5),
    Case::Halted(3, (4, 5), 16, 4),
    Case::BeforeTheHalt,
];

/// The last four of five frames by two workers.
static FOUR_OF_FIVE: [Case; 1] = [Case::Halted(2, (1, 5), 2, 3)];

#[test]
fn the_least_halted_frame_is_told(rt: HostRuntime) {
    let halted = edits_of(HALTING, 8);
    lend(&rt, rt.alloc(), 1, Task::Exports(&halted, &HALTS));
    let of_five = Task::Exports(&HALTED_FIVE, &FOUR_OF_FIVE);
    lend(&rt, rt.alloc(), 1, of_five);
}

/// Writers that fail at some byte, ranges that a movie of 1,030 frames hasn't or that are too long, and no frames at both ends.
static ENDS: [Case; 14] = [
    Case::Full(0),
    Case::Full(1),
    Case::Full(15),
    Case::Full(150_000),
    Case::Full(201_629),
    Case::OutOfRange(1, 0),
    Case::OutOfRange(0, 1025),
    Case::OutOfRange(6, 1031),
    Case::OutOfRange(1031, 1031),
    Case::OutOfRange(0, usize::MAX),
    Case::OutOfRange(usize::MAX, usize::MAX),
    Case::OutOfRange(usize::MAX, 0),
    Case::Nothing(0),
    Case::Nothing(1030),
];

#[test]
fn writers_fail_and_ranges_end(rt: HostRuntime) {
    let long = edits_of(PLAYFIELD, 1030);
    lend(&rt, rt.alloc(), 1, Task::Exports(&long, &ENDS));
}

/// How many of 1,024 frames this many runs play that start from the kept states of every 64th frame.
fn played_from_the_grid(workers: usize) -> u64
    requires { (1 ≤ workers) × (workers ≤ most_workers) }
{
    let mut played = 0u64;
    for run in 0..workers {
        let first = run * 1024 / workers;
        let next = (run + 1) * 1024 / workers;
        let start = first / 64 * 64;
        played = played.saturating_add(next.saturating_sub(start) as u64);
    }
    played
}

/// As many frames as one export may have: from no kept states by one worker, and then by every fourth number of workers.
pub fn export_longest<N: Name + Send + Sync, R: Threads + Wait + Abort + Sync>(
    rt: &R,
    alloc: Global,
    desk: &Desk<N, &R>,
    seats: &mut [Seat<N>],
    first: usize,
) {
    let seat = expect_some(rt, seats.first_mut());
    make_edits(rt, alloc, desk, seat, &edits_of(WAITING, 1024));
    let mut bytes = expect_ok(rt, Vec::with_capacity(alloc, 103_234_560));
    let alone = told(desk.export(rt, alloc, seat, 0, 1024, 1, &Open, &mut bytes));
    check_same(rt, "alone", alone, Some((3, 1024)));
    check_same(rt, "bytes", bytes.len(), 103_234_560);
    export_groups(rt, alloc, desk, seat, first, bytes.as_slice());
}

/// The same by every fourth number of workers from a full zone, where each run starts at a kept state.
fn export_groups<N: Name, R: Threads + Wait + Abort + Sync>(
    rt: &R,
    alloc: Global,
    desk: &Desk<N, &R>,
    seat: &mut Seat<N>,
    first: usize,
    bytes: &[u8],
) {
    keep_all(rt, alloc, desk, seat);
    for group in 0..4usize {
        let workers = 4 * group + first % 4 + 1;
        export_from_the_grid(rt, alloc, desk, seat, workers, bytes);
    }
}

/// The history and the frames played of an export that is done.
fn told(answer: Result<Exported, ExportError>) -> Option<(u64, u64)> {
    match answer {
        Ok(exported) => Some((exported.at, exported.played)),
        Err(_) => None,
    }
}

/// The states after every 64th of 1,024 frames are kept by the desk, and then by the seat.
fn keep_all<N: Name, R: Threads + Wait + Abort + Sync>(
    rt: &R,
    alloc: Global,
    desk: &Desk<N, &R>,
    seat: &mut Seat<N>,
) {
    let worked = expect_ok(rt, desk.work(rt, alloc, seat, &[1024], &Open));
    check_same(rt, "worked", worked.kept, 16);
    check_same(rt, "desk", desk.share(rt, seat).ok(), Some(16));
}

/// 1,024 frames by this many workers, whose runs start at kept states, have these bytes.
fn export_from_the_grid<N: Name, R: Threads + Wait + Abort + Sync>(
    rt: &R,
    alloc: Global,
    desk: &Desk<N, &R>,
    seat: &mut Seat<N>,
    workers: usize,
    bytes: &[u8],
)
    requires { (1 ≤ workers) × (workers ≤ most_workers) }
{
    let mut out = Compared::new(bytes);
    let told = told(desk.export(rt, alloc, seat, 0, 1024, workers, &Open, &mut out));
    let wanted = played_from_the_grid(workers);
    check_same(rt, ("workers", workers), told, Some((3, wanted)));
    check_that(rt, ("frames by workers", workers), out.is_same());
}

#[test]
fn the_longest_export_by_1_5_9_and_13_workers(rt: HostRuntime) {
    lend(&rt, rt.alloc(), 1, Task::ExportLongest(0));
}

#[test]
fn the_longest_export_by_2_6_10_and_14_workers(rt: HostRuntime) {
    lend(&rt, rt.alloc(), 1, Task::ExportLongest(1));
}

#[test]
fn the_longest_export_by_3_7_11_and_15_workers(rt: HostRuntime) {
    lend(&rt, rt.alloc(), 1, Task::ExportLongest(2));
}

#[test]
fn the_longest_export_by_4_8_12_and_16_workers(rt: HostRuntime) {
    lend(&rt, rt.alloc(), 1, Task::ExportLongest(3));
}
