//! More movies than are played at a time: their lines, writes of them that fail, and what somebody who waits is told, by a clock that is read by
//! the test.

use crate::checks::{check_same, check_that, expect_ok};
use crate::files::{COUNTS, COUNTS_MOVIE, DIGEST_BY_1, image_of};
use crate::row_tests::run_on;
use crate::shelves::{Books, Held};
use std::alloc::Global;
use std::io;
use std::process::Abort;
use std::sync::atomic::{AtomicU64, Ordering};
use std::thread::Threads;
use std::time::{Clock, Duration};
use tas_verify::{Tally, VerifyFault, verify_run};
use test_streams::{Failure, Room, Taker};

/// How many movies the manifest has. One worker gets 32 of them first.
const MOVIES: usize = 40;

/// How many of the last bytes are those of the second time: seven lines of 22 bytes, one of 6, and the last one of 11.
const SECOND: usize = 171;

/// Forty movies of which three are there, two of them among the first 32, and what is written of them.
fn mostly_gone<R: Abort>(rt: &R, alloc: Global) -> (Vec<u8>, Vec<u8>) {
    let (mut manifest, mut wanted) = (Vec::new(alloc), Vec::new(alloc));
    for number in 0..MOVIES {
        let (row, line) = if number % 13 == 12 {
            (b"a c 1\n".as_slice(), b"a: ok\n".as_slice())
        } else {
            (
                b"gone c 1\n".as_slice(),
                b"gone: movie not found\n".as_slice(),
            )
        };
        expect_ok(rt, manifest.extend_from_slice(row));
        expect_ok(rt, wanted.extend_from_slice(line));
    }
    expect_ok(rt, wanted.extend_from_slice(b"3 of 40 ok\n"));
    (manifest, wanted)
}

/// What no run writes.
const LONGER: &[u8] = b"none";

/// The files of the movie that is there.
fn played_files(cart: &[u8]) -> [Held<'_>; 3] {
    [(b"a", COUNTS_MOVIE), (b"c", cart), (b"1", DIGEST_BY_1)]
}

/// A shelf of these files, none of which fails.
fn books_of<'a>(files: &'a [Held<'a>]) -> Books<'a> {
    Books {
        files,
        failing: b"",
        fails_at: 0,
    }
}

#[test]
fn each_movie_of_a_second_batch_has_its_line(rt: HostRuntime) {
    let alloc = rt.alloc();
    let counts = image_of(&rt, alloc, COUNTS);
    let files = played_files(counts.as_slice());
    let books = books_of(&files);
    let (manifest, wanted) = mostly_gone(&rt, alloc);
    for workers in [1, 2] {
        let (out, tally) = run_on(&rt, alloc, workers, &books, manifest.as_slice());
        check_same(&rt, workers, out.as_slice(), wanted.as_slice());
        let all = Tally {
            movies: MOVIES,
            same: 3,
        };
        check_that(&rt, workers, tally == all);
    }
}

#[test]
fn a_failed_write_of_a_second_batch_is_counted(rt: HostRuntime) {
    let alloc = rt.alloc();
    let counts = image_of(&rt, alloc, COUNTS);
    let files = played_files(counts.as_slice());
    let books = books_of(&files);
    let (manifest, wanted) = mostly_gone(&rt, alloc);
    for left in [SECOND + 1, SECOND, SECOND - 1, 60, 12, 11, 10, 1] {
        let written = wanted.len().saturating_sub(left);
        let mut out = Taker::new(alloc, 500, Room::Bytes(written), Failure::Error);
        let mut input = manifest.as_slice();
        let mut waiting = Vec::new(alloc);
        let end = verify_run(&rt, alloc, 1, &books, &mut input, &mut out, &mut waiting);
        check_that(&rt, left, end == Err(VerifyFault::Write { written }));
        let first = wanted.as_slice().get(..written).unwrap_or(LONGER);
        check_same(&rt, left, out.taken.as_slice(), first);
        // A line is told once the lines of its movies are out.
        let mut told = 0_usize;
        for byte in waiting.as_slice() {
            if *byte == b'\n' {
                told = told.saturating_add(1);
            }
        }
        let times = if left > SECOND {
            0
        } else if left > 11 {
            1
        } else {
            2
        };
        check_same(&rt, left, told, times);
    }
}

/// A clock beside threads: it shows so many milliseconds more at each reading, or fails, where it has no such number.
#[derive(Drop)]
struct Ticking<'a, R> {
    threads: &'a R,
    step: Option<u64>,
    readings: AtomicU64,
}

impl<R: Threads> Threads for Ticking<'_, R> {}

impl<R> Clock for Ticking<'_, R> {
    fn monotonic(&self) -> io::Result<Duration> {
        let readings = self.readings.fetch_add(1, Ordering::SeqCst);
        match self.step {
            Some(step) => Ok(Duration::from_millis(readings.saturating_mul(step))),
            None => Err(io::Error::from(io::ErrorKind::Other)),
        }
    }

    fn since_1970(&self) -> io::Result<Duration> {
        Ok(Duration::ZERO)
    }
}

/// A clock's step, how many workers there are, and what is told. One worker plays ten frames the first time and five the second time.
const TOLD: [(Option<u64>, usize, &[u8]); 5] = [
    (
        Some(500),
        1,
        b"verified: 32 movies, 8 left, 20 frames a second\nverified: 40 movies, 0 left, 15 frames a second\n",
    ),
    (
        Some(500),
        2,
        b"verified: 40 movies, 0 left, 30 frames a second\n",
    ),
    (
        Some(4_000),
        1,
        b"verified: 32 movies, 8 left, 2 frames a second\nverified: 40 movies, 0 left, 1 frames a second\n",
    ),
    (
        Some(0),
        2,
        b"verified: 40 movies, 0 left, 0 frames a second\n",
    ),
    (None, 2, b"verified: 40 movies, 0 left, 0 frames a second\n"),
];

#[test]
fn rates_are_told_by_the_clock(rt: HostRuntime) {
    let alloc = rt.alloc();
    let counts = image_of(&rt, alloc, COUNTS);
    let files = played_files(counts.as_slice());
    let books = books_of(&files);
    let (manifest, wanted) = mostly_gone(&rt, alloc);
    for (step, workers, told) in TOLD.iter() {
        let clock = Ticking {
            threads: &rt,
            step: *step,
            readings: AtomicU64::new(0),
        };
        let mut out = Vec::new(alloc);
        let mut waiting = Vec::new(alloc);
        let mut input = manifest.as_slice();
        let end = verify_run(
            &clock,
            alloc,
            *workers,
            &books,
            &mut input,
            &mut out,
            &mut waiting,
        );
        check_that(&rt, step, end.is_ok());
        check_same(&rt, step, out.as_slice(), wanted.as_slice());
        check_same(&rt, step, waiting.as_slice(), *told);
    }
}
