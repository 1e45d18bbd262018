//! How far a run is, for somebody who waits.
//!
//! A line after each batch of movies, by the clock. It is no part of the answer: one that can't be made or written is left out, and no
//! contract speaks of it.

use crate::Verified;
use byte_text::read_decimal;
use std::io::Write;
use std::time::{Clock, Instant};

/// How far a run is.
#[derive(Clone, Copy)]
pub(crate) struct Progress {
    start: Option<Instant>,
    /// How many movies there are.
    movies: usize,
    /// How many frames were played.
    frames: usize,
}

impl Progress {
    /// Before the first of so many movies.
    pub(crate) fn new<R: Clock>(rt: &R, movies: usize) -> Progress {
        Progress {
            start: Instant::now(rt).ok(),
            movies,
            frames: 0,
        }
    }

    /// Counts the frames that were played for some movies.
    pub(crate) fn count(&mut self, verified: &[Verified<'_>]) {
        for one in verified {
            self.frames = self.frames.saturating_add(one.frames);
        }
    }

    /// Writes how many movies are done and left, and how many frames were played in a second. It takes no memory.
    pub(crate) fn tell<R: Clock, P: Write>(&self, rt: &R, done: usize, to: &mut P) {
        let left = self.movies.saturating_sub(done);
        let rate = rate_of(self.frames, nanos_since(rt, self.start));
        let _ = writeln!(
            to,
            "verified: {done} movies, {left} left, {rate} frames a second"
        );
    }
}

/// How many nanoseconds have passed since the start; 0 where the clock can't be read.
fn nanos_since<R: Clock>(rt: &R, start: Option<Instant>) -> u128 {
    match start {
        None => 0,
        Some(start) => match start.elapsed(rt) {
            Ok(time) => time.as_nanos(),
            Err(_) => 0,
        },
    }
}

/// How many of some frames are played in a second, where they took so many nanoseconds; 0 where no time has passed.
fn rate_of(frames: usize, nanos: u128) -> u128 {
    if nanos == 0 {
        return 0;
    }
    frames as u128 * 1_000_000_000 / nanos
}

/// How many frames a digest's last line says that the movie has; 0 where it says none.
pub(crate) fn frames_of(digest: &[u8]) -> usize {
    let Some(front) = digest.strip_suffix(b" frames\n") else {
        return 0;
    };
    let mut start = 0;
    for at in 0..front.len() {
        if front[at] == b' ' {
            start = at + 1;
        }
    }
    match front.get(start..) {
        Some(number) => read_decimal(number).unwrap_or(0),
        None => 0,
    }
}
