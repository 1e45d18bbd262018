//! The lines of a search's layers: their numbers, by hand, their rates by a clock that is read by the test, and writes of them that fail.

use crate::checks::{check_same, check_that, expect_ok, expect_some};
use crate::goals::{COUNTER, TRAP, cart_of, counter_is, three_choices};
use std::alloc::Global;
use std::io::{self, Write};
use std::process::Abort;
use std::sync::atomic::{AtomicU64, Ordering};
use std::thread::Threads;
use std::time::{Clock, Duration};
use tas_search::{Limits, Space, Unfinished, find_shortest};
use test_streams::{Failure, Room, Taker};
use vcs_machine::{Input, State};

/// A report without its rates, which no two runs have in common.
pub fn timeless<R: Abort>(rt: &R, alloc: Global, report: &[u8]) -> Vec<u8> {
    let mut kept = Vec::new(alloc);
    for line in expect_ok(rt, str::from_utf8(report)).split_inclusive('\n') {
        let (front, end) = match line.strip_suffix(" frames a second\n") {
            Some(counts) => (counts.rsplit_once(", ").unwrap_or((line, "")).0, "\n"),
            None => (line, ""),
        };
        expect_ok(rt, kept.extend_from_slice(front.as_bytes()));
        expect_ok(rt, kept.extend_from_slice(end.as_bytes()));
    }
    kept
}

/// What both writers get of a search from power-on for a number that no sequence reaches.
fn lines<R: Abort + Threads + Clock + Sync>(
    rt: &R,
    alloc: Global,
    program: &[u8],
    inputs: &[Input],
    hold: usize,
    limits: Limits,
) -> Vec<u8> {
    let cart = cart_of(rt, alloc, program);
    let space = Space::new(&cart, State::power_on(&cart), inputs, hold);
    let goal = counter_is(rt, alloc, 99);
    let (mut shown, mut kept) = (Vec::new(alloc), Vec::new(alloc));
    let end = find_shortest(rt, alloc, &space, &goal, limits, &mut shown, &mut kept);
    expect_ok(rt, end);
    check_same(rt, hold, shown.as_slice(), kept.as_slice());
    timeless(rt, alloc, kept.as_slice())
}

/// From power-on the first frame is a lag frame. After that each frame counts up, down or not at all, so there are two numbers more
/// after each.
const SINGLE: &[u8] = b"layer 1: 1 frames, 1 states, 2 merged, 1 played, 512 bytes\n\
layer 2: 2 frames, 3 states, 0 merged, 3 played, 1040 bytes\n\
layer 3: 3 frames, 5 states, 4 merged, 9 played, 2080 bytes\n\
layer 4: 4 frames, 7 states, 8 merged, 15 played, 3152 bytes\n";

/// Of the first two frames the second one alone counts, and so does each after them.
const DOUBLE: &[u8] = b"layer 1: 2 frames, 3 states, 0 merged, 6 played, 1024 bytes\n\
layer 2: 4 frames, 7 states, 2 merged, 18 played, 2576 bytes\n";

/// The first of these lines.
const FIRST: &[u8] = b"layer 1: 2 frames, 3 states, 0 merged, 6 played, 1024 bytes\n";

/// To the right alone: the number is 2 after three frames, and there it halts.
const HALTS: &[u8] = b"layer 1: 1 frames, 1 states, 0 merged, 1 played, 512 bytes\n\
layer 2: 2 frames, 1 states, 0 merged, 1 played, 528 bytes\n\
layer 3: 3 frames, 1 states, 0 merged, 1 played, 544 bytes\n\
layer 4: 4 frames, 0 states, 0 merged, 0 played, 304 bytes\n";

#[test]
fn layers_have_their_numbers(rt: HostRuntime) {
    let alloc = rt.alloc();
    let inputs = three_choices();
    for workers in [0usize, 1, 2, 3, 16] {
        for (case, (program, choices, hold, count, states, wanted)) in [
            (COUNTER, 3usize, 1usize, 4usize, 100usize, SINGLE),
            (COUNTER, 3, 2, 2, 100, DOUBLE),
            (COUNTER, 3, 2, 2, 4, FIRST),
            (COUNTER, 3, 1, 0, 100, b""),
            (TRAP, 1, 1, 9, 100, HALTS),
            (
                COUNTER,
                0,
                1,
                9,
                100,
                b"layer 1: 1 frames, 0 states, 0 merged, 0 played, 256 bytes\n",
            ),
        ]
        .iter()
        .enumerate()
        {
            let first = if *choices == 1 { 1 } else { 0 };
            let given = &inputs[first..first + choices.min(&3)];
            let limits = Limits {
                count: *count,
                states: *states,
                workers,
            };
            let found = lines(&rt, alloc, program, given, *hold, limits);
            check_same(&rt, (workers, case), found.as_slice(), *wanted);
        }
    }
}

/// A clock beside threads: it shows so many milliseconds more at each reading, or fails, where it has no such number.
#[derive(Drop)]
struct Ticking<'a, R> {
    threads: &'a R,
    step: Option<u64>,
    readings: AtomicU64,
}

impl<R: Threads> Threads for Ticking<'_, R> {}

impl<R> Clock for Ticking<'_, R> {
    fn monotonic(&self) -> io::Result<Duration> {
        let readings = self.readings.fetch_add(1, Ordering::SeqCst);
        match self.step {
            Some(step) => Ok(Duration::from_millis(readings.saturating_mul(step))),
            None => Err(io::Error::from(io::ErrorKind::Other)),
        }
    }

    fn since_1970(&self) -> io::Result<Duration> {
        Ok(Duration::ZERO)
    }
}

/// Both lines of a search for a number that no sequence reaches, and the first of them, where each reading of the clock shows half a second
/// more.
const CLOCKED: &[u8] =
    b"layer 1: 2 frames, 3 states, 0 merged, 6 played, 1024 bytes, 12 frames a second\n\
layer 2: 4 frames, 7 states, 2 merged, 18 played, 2576 bytes, 36 frames a second\n";

const CLOCKED_FIRST: &[u8] =
    b"layer 1: 2 frames, 3 states, 0 merged, 6 played, 1024 bytes, 12 frames a second\n";

/// The lines of two layers, for which 6 and 18 frames are played, with their rates.
const RATES: [(Option<u64>, &[u8]); 4] = [
    (Some(500), CLOCKED),
    (
        Some(4_000),
        b"layer 1: 2 frames, 3 states, 0 merged, 6 played, 1024 bytes, 1 frames a second\n\
layer 2: 4 frames, 7 states, 2 merged, 18 played, 2576 bytes, 4 frames a second\n",
    ),
    (
        Some(0),
        b"layer 1: 2 frames, 3 states, 0 merged, 6 played, 1024 bytes, 0 frames a second\n\
layer 2: 4 frames, 7 states, 2 merged, 18 played, 2576 bytes, 0 frames a second\n",
    ),
    (
        None,
        b"layer 1: 2 frames, 3 states, 0 merged, 6 played, 1024 bytes, 0 frames a second\n\
layer 2: 4 frames, 7 states, 2 merged, 18 played, 2576 bytes, 0 frames a second\n",
    ),
];

#[test]
fn rates_are_by_the_clock(rt: HostRuntime) {
    let alloc = rt.alloc();
    let inputs = three_choices();
    let cart = cart_of(&rt, alloc, COUNTER);
    let space = Space::new(&cart, State::power_on(&cart), &inputs, 2);
    let goal = counter_is(&rt, alloc, 99);
    let limits = Limits {
        count: 2,
        states: 100,
        workers: 2,
    };
    for (step, wanted) in RATES.iter() {
        let clock = Ticking {
            threads: &rt,
            step: *step,
            readings: AtomicU64::new(0),
        };
        let (mut shown, mut kept) = (Vec::new(alloc), Vec::new(alloc));
        let end = find_shortest(&clock, alloc, &space, &goal, limits, &mut shown, &mut kept);
        expect_ok(&rt, end);
        check_same(&rt, *step, kept.as_slice(), *wanted);
        check_same(&rt, *step, shown.as_slice(), *wanted);
    }
}

/// Writes the lines of this search to two writers, and fails where it doesn't end since one of them refuses a write.
fn write_lines<R: Abort + Threads + Sync, A: Write, B: Write>(
    rt: &R,
    alloc: Global,
    shown: &mut A,
    kept: &mut B,
) {
    let inputs = three_choices();
    let cart = cart_of(rt, alloc, COUNTER);
    let space = Space::new(&cart, State::power_on(&cart), &inputs, 2);
    let goal = counter_is(rt, alloc, 99);
    let limits = Limits {
        count: 2,
        states: 100,
        workers: 2,
    };
    let clock = Ticking {
        threads: rt,
        step: Some(500),
        readings: AtomicU64::new(0),
    };
    let end = find_shortest(&clock, alloc, &space, &goal, limits, shown, kept);
    check_that(rt, "a report", end.err() == Some(Unfinished::Report));
}

#[test]
fn lines_that_fail(rt: HostRuntime) {
    let alloc = rt.alloc();
    for room in 0..CLOCKED.len() {
        let cut = expect_some(&rt, CLOCKED.get(..room));
        let has_first = CLOCKED_FIRST.len() <= room;
        for failure in [Failure::Error, Failure::Interrupted, Failure::Nothing] {
            // A line is shown once it is in the report.
            let mut kept = Taker::new(alloc, 7, Room::Bytes(room), failure);
            let mut shown = Vec::new(alloc);
            write_lines(&rt, alloc, &mut shown, &mut kept);
            check_same(&rt, room, kept.taken.as_slice(), cut);
            let whole = if has_first { CLOCKED_FIRST } else { b"" };
            check_same(&rt, room, shown.as_slice(), whole);
            let mut shown = Taker::new(alloc, 7, Room::Bytes(room), failure);
            let mut kept = Vec::new(alloc);
            write_lines(&rt, alloc, &mut shown, &mut kept);
            check_same(&rt, room, shown.taken.as_slice(), cut);
            let whole = if has_first { CLOCKED } else { CLOCKED_FIRST };
            check_same(&rt, room, kept.as_slice(), whole);
        }
    }
}
