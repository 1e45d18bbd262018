//! The whole program over a folder of two files in memory, to which nothing can be written.

ghost use Rattle.std.specs.Prelude.{Some, if◌then◌else◌, codes};
ghost use Rattle.std.specs.Prelude.{nat_eq};
ghost use Rattle.std.specs.Cmp.Lexicographic.{pointwise};

use crate::checks::{check_same, check_that};
use crate::programs::words_of;
use std::alloc::Global;
use std::env::Args;
use std::io;
use std::io::{Error, ErrorKind, Write};
use std::process::Abort;
use std::sync::Wait;
use std::thread::Threads;
use std::time::Clock;
use tas_program::{Folder, OrdinaryFile, Permit, Streams, run_program};
use test_streams::Taker;

/// A folder with the files `game.bin` and `other`.
#[derive(Clone, Copy)]
pub struct TwoFiles<'a> {
    pub game: &'a [u8],
    pub other: &'a [u8],
}

impl<'a> Folder for TwoFiles<'a> {
    type File = &'a [u8];

    type Sink = Taker;

    ghost bytes_of = { λ s name. Some
        (if pointwise nat_eq name (codes "game.bin") then s.game.now else s.other.now) };

    fn look(&self, _name: &str) -> Option<OrdinaryFile> {
        None
    }

    fn open(&self, name: &str) -> io::Result<&'a [u8]> {
        if name == "game.bin" {
            Ok(self.game)
        } else if name == "other" {
            Ok(self.other)
        } else {
            Err(Error::from(ErrorKind::NotFound))
        }
    }

    fn open_to_write(&self, _permit: Permit, _name: &str) -> io::Result<Taker> {
        Err(Error::from(ErrorKind::NotFound))
    }
}

/// The folder where `game.bin` is this cartridge, and `other` is empty.
pub fn only_game(game: &[u8]) -> TwoFiles<'_> {
    TwoFiles { game, other: b"" }
}

/// Runs the program with these words over this folder and input: its status. Its output and its faults go to these writers.
pub fn run_words<T: Threads + Wait + Clock + Sync, W: Write, E: Write>(
    rt: &T,
    alloc: Global,
    words: io::Result<Args>,
    folder: TwoFiles<'_>,
    input: &[u8],
    output: &mut W,
    errors: &mut E,
) -> u8 {
    let mut streams = Streams {
        input,
        output,
        errors,
    };
    run_program(rt, alloc, alloc, words, &folder, &mut streams).code()
}

/// The same with words that are text.
pub fn run<T: Threads + Wait + Clock + Abort + Sync, W: Write, E: Write>(
    rt: &T,
    alloc: Global,
    words: &[&str],
    folder: TwoFiles<'_>,
    input: &[u8],
    output: &mut W,
    errors: &mut E,
) -> u8 {
    let words = words_of(rt, alloc, words).into_iter();
    run_words(rt, alloc, Ok(words), folder, input, output, errors)
}

/// A status, what is on standard output, and what is on standard error.
pub type End<'a> = (u8, &'a [u8], &'a [u8]);

/// Fails where a run with these words ended in another way.
pub fn check_ran<R: Abort>(rt: &R, words: &[&str], found: End<'_>, wanted: End<'_>) {
    let (code, output, line) = wanted;
    check_same(rt, words, found.0, code);
    check_same(rt, words, found.2, line);
    check_that(rt, (words, line), found.1 == output);
}

/// Fails where the program, run with these words over this folder and input, ends in another way.
pub fn check_run<T: Threads + Wait + Clock + Abort + Sync>(
    rt: &T,
    alloc: Global,
    words: &[&str],
    folder: TwoFiles<'_>,
    input: &[u8],
    end: End<'_>,
) {
    let mut output = Vec::new(alloc);
    let mut errors = Vec::new(alloc);
    let code = run(rt, alloc, words, folder, input, &mut output, &mut errors);
    let found = (code, output.as_slice(), errors.as_slice());
    check_ran(rt, words, found, end);
}

/// The same where the words can't be read.
pub fn check_unread<T: Threads + Wait + Clock + Abort + Sync>(
    rt: &T,
    alloc: Global,
    kind: ErrorKind,
    folder: TwoFiles<'_>,
    input: &[u8],
    end: End<'_>,
) {
    let mut output = Vec::new(alloc);
    let mut errors = Vec::new(alloc);
    let words = Err(Error::from(kind));
    let code = run_words(rt, alloc, words, folder, input, &mut output, &mut errors);
    let found = (code, output.as_slice(), errors.as_slice());
    check_ran(rt, &[], found, end);
}
