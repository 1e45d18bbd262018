//! Cases of the whole program: words, files, input, and what it then writes.

use crate::movies::{PLAYFIELD, image_of};
use crate::two_files::{TwoFiles, check_run};
use std::alloc::Global;
use std::process::Abort;
use std::sync::Wait;
use std::thread::Threads;
use std::time::Clock;

/// The words, the file `other`, the input, and what the program then writes and tells, by hand.
pub type Case<'a> = (&'a [&'a str], &'a [u8], &'a [u8], &'a [u8], &'a [u8]);

/// Fails where the program over this cartridge ends in another way: with status 0 where it tells nothing, and with 1 where it does.
pub fn check_case<R: Threads + Wait + Clock + Abort + Sync>(
    rt: &R,
    alloc: Global,
    game: &[u8],
    case: Case<'_>,
) {
    let (words, other, input, output, line) = case;
    let end = (u8::from(!line.is_empty()), output, line);
    check_run(rt, alloc, words, TwoFiles { game, other }, input, end);
}

/// The words, the file `other`, the input, and what the program then writes.
pub type Written<'a> = (&'a [&'a str], &'a [u8], &'a [u8], &'a [u8]);

/// Fails where the program over the playfield's cartridge doesn't write just this.
pub fn check_written<R: Threads + Wait + Clock + Abort + Sync>(
    rt: &R,
    alloc: Global,
    cases: &[Written<'_>],
) {
    let game = image_of(rt, alloc, PLAYFIELD.bytes);
    for (words, other, input, output) in cases {
        let case: Case = (words, other, input, output, b"");
        check_case(rt, alloc, game.as_slice(), case);
    }
}

/// The words, the file `other`, the input, and the fault that the program tells.
pub type Refused<'a> = (&'a [&'a str], &'a [u8], &'a [u8], &'a [u8]);

/// Fails where the program over this cartridge doesn't tell this fault, or writes something.
pub fn check_refused<R: Threads + Wait + Clock + Abort + Sync>(
    rt: &R,
    alloc: Global,
    game: &[u8],
    cases: &[Refused<'_>],
) {
    for (words, other, input, line) in cases {
        check_case(rt, alloc, game, (words, other, input, b"", line));
    }
}

/// The same over the playfield's cartridge.
pub fn check_refused_over_playfield<R: Threads + Wait + Clock + Abort + Sync>(
    rt: &R,
    alloc: Global,
    cases: &[Refused<'_>],
) {
    let game = image_of(rt, alloc, PLAYFIELD.bytes);
    check_refused(rt, alloc, game.as_slice(), cases);
}
