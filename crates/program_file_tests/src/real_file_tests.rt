//! The whole program over files of the system: words that name one of them are refused, and all are as they were.

use crate::checks::{check_same, check_that, expect_ok};
use crate::movies::{PLAYFIELD, image_of};
use crate::programs::{ONE_FRAME, words_of};
use std::alloc::{Alloc, Global};
use std::fs;
use std::fs::Files;
use std::os::unix::fs::symlink;
use std::process::Abort;
use std::sync::Wait;
use std::thread::Threads;
use std::time::Clock;
use tas_program::{Folder, Streams, run_program};

/// The folder of these files.
static PLACE: &str = "real_files";

const CART: &str = "real_files/cart";

const MOVIE: &str = "real_files/movie";

const LINES: &str = "real_files/lines";

const FULL: &str = "real_files/full";

const BLANK: &str = "real_files/blank";

/// Another name of the movie.
const HARD: &str = "real_files/hard";

/// A symbolic link to the cartridge.
const SYMBOLIC: &str = "real_files/symbolic";

/// Another way to the lines.
const AROUND: &str = "real_files/../real_files/lines";

const NULL: &str = "/dev/null";

/// The words, the status and the line.
type Case<'a> = (&'a [&'a str], u8, &'a [u8]);

static CASES: [Case<'static>; 8] = [
    (
        &["desk", CART, MOVIE, LINES, FULL],
        2,
        b"fault: OUT0: not empty\n",
    ),
    (
        &["desk", CART, MOVIE, LINES, HARD],
        2,
        b"fault: OUT0: same file as MOVIE\n",
    ),
    (
        &["desk", CART, MOVIE, LINES, SYMBOLIC],
        2,
        b"fault: OUT0: same file as CART\n",
    ),
    (
        &["desk", CART, MOVIE, LINES, AROUND],
        2,
        b"fault: OUT0: same file as IN0\n",
    ),
    (
        &["desk", CART, HARD, NULL, BLANK, LINES, BLANK],
        2,
        b"fault: OUT1: same file as OUT0\n",
    ),
    (
        &["talk", SYMBOLIC, CART],
        2,
        b"fault: MOVIE: same file as CART\n",
    ),
    (&["desk", CART, MOVIE, NULL, NULL, NULL, NULL], 0, b""),
    (&["desk", CART, MOVIE, LINES, BLANK], 0, b""),
];

/// Makes a file of these bytes.
fn make<R: Files + Abort>(rt: &R, name: &str, bytes: &[u8]) {
    expect_ok(rt, fs::write(rt, name, bytes));
}

/// Fails where a file has other bytes.
fn check_file<R: Files + Alloc + Abort>(rt: &R, name: &str, bytes: &[u8]) {
    let found = expect_ok(rt, fs::read(rt, name));
    check_same(rt, name, found.as_slice(), bytes);
}

/// Makes all files.
fn make_all<R: Files + Alloc + Abort>(rt: &R, game: &[u8]) {
    let _ = fs::remove_dir_all(rt, PLACE);
    expect_ok(rt, fs::create_dir(rt, PLACE));
    make(rt, CART, game);
    make(rt, MOVIE, ONE_FRAME);
    make(rt, LINES, b"len\n");
    make(rt, FULL, b"full");
    make(rt, BLANK, b"");
    expect_ok(rt, fs::hard_link(rt, MOVIE, HARD));
    expect_ok(rt, symlink(rt, "cart", SYMBOLIC));
}

/// Fails where the program ends in another way.
fn check_case<R: Folder + Threads + Wait + Clock + Abort + Sync>(
    rt: &R,
    alloc: Global,
    (words, status, line): Case<'_>,
) {
    let (mut output, mut errors) = (Vec::new(alloc), Vec::new(alloc));
    let mut streams = Streams {
        input: b"".as_slice(),
        output: &mut output,
        errors: &mut errors,
    };
    let list = words_of(rt, alloc, words).into_iter();
    let end = run_program(rt, alloc, alloc, Ok(list), rt, &mut streams);
    check_same(rt, ("line", words), errors.as_slice(), line);
    check_same(rt, ("status", words), end.code(), status);
    let movie = if status == 0 { ONE_FRAME } else { b"" };
    check_that(rt, ("movie", words), output.as_slice() == movie);
}

#[test]
fn real_files_are_refused(rt: HostRuntime) {
    let alloc = rt.alloc();
    let game = image_of(&rt, alloc, PLAYFIELD.bytes);
    make_all(&rt, game.as_slice());
    for case in CASES.iter() {
        check_case(&rt, alloc, *case);
    }
    check_file(&rt, CART, game.as_slice());
    check_file(&rt, MOVIE, ONE_FRAME);
    check_file(&rt, LINES, b"len\n");
    check_file(&rt, FULL, b"full");
    check_file(&rt, BLANK, b"len 2 1\n");
    expect_ok(&rt, fs::remove_dir_all(&rt, PLACE));
}
