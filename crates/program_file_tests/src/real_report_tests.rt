//! `tas search --report` over files of the system: the file must be new, and has the lines that standard error has.

use crate::checks::{check_same, check_that, expect_ok};
use crate::movies::{IDLE, Recording, recording_of};
use crate::programs::{COUNTING, timeless, words_of};
use std::alloc::{Alloc, Global};
use std::fs;
use std::fs::Files;
use std::process::Abort;
use std::sync::Wait;
use std::thread::Threads;
use std::time::Clock;
use tas_program::{Folder, Streams, run_program};

/// The folder of these files.
const PLACE: &str = "real_report";

const CART: &str = "real_report/cart";

/// A file of no bytes.
const BLANK: &str = "real_report/blank";

const NEW: &str = "real_report/new";

/// A file that is made and removed again.
const GONE: &str = "real_report/gone";

const NOWHERE: &str = "real_report/nowhere/new";

/// What the search below reports, but for its rate.
const REPORT: &[u8] =
    b"layer 1: 1 frames, 3 states, 15 merged, 18 played, 1024 bytes\nbest of all 18 sequences\n";

/// The words of a search without those of its report, the report's file, the status, and what standard error has.
type Case<'a> = (&'a [&'a str], &'a str, u8, &'a [u8]);

const RIGHT: &[&str] = &["search", CART, "3", "1", "reach byte:80 == 1"];

const NOT_CREATED: &[u8] = b"fault: report: not created\n";

/// What is done in turn, each on what those before it left.
static CASES: [Case<'static>; 7] = [
    (
        &["search", CART, "3", "1", "reach ("],
        GONE,
        1,
        b"fault: goal word 3: operand expected\n",
    ),
    (
        &["search", "real_report/none", "3", "1", "reach 1"],
        GONE,
        1,
        b"fault: read failed\n",
    ),
    (RIGHT, NEW, 0, REPORT),
    (RIGHT, NEW, 1, NOT_CREATED),
    (RIGHT, CART, 1, NOT_CREATED),
    (RIGHT, BLANK, 1, NOT_CREATED),
    (RIGHT, NOWHERE, 1, NOT_CREATED),
];

fn make<R: Files + Abort>(rt: &R, name: &str, bytes: &[u8]) {
    expect_ok(rt, fs::write(rt, name, bytes));
}

/// Fails where a file has other bytes.
fn check_file<R: Files + Alloc + Abort>(rt: &R, name: &str, bytes: &[u8]) {
    let found = expect_ok(rt, fs::read(rt, name));
    check_that(rt, ("file", name), found.as_slice() == bytes);
}

/// Fails where a file has other lines than those of the search below.
fn check_report<R: Files + Alloc + Abort>(rt: &R, alloc: Global, name: &str) {
    let found = expect_ok(rt, fs::read(rt, name));
    let found = timeless(rt, alloc, found.as_slice());
    check_same(rt, ("report", name), found.as_slice(), REPORT);
}

/// Fails where the program ends in another way.
fn check_case<R: Folder + Files + Alloc + Threads + Wait + Clock + Abort + Sync>(
    rt: &R,
    alloc: Global,
    movie: &Recording,
    (words, report, status, line): Case<'_>,
) {
    let mut all = expect_ok(rt, Vec::from_slice(alloc, words));
    expect_ok(rt, all.push("--report"));
    expect_ok(rt, all.push(report));
    let (mut output, mut errors) = (Vec::new(alloc), Vec::new(alloc));
    let (_, input) = movie.files();
    let mut streams = Streams {
        input,
        output: &mut output,
        errors: &mut errors,
    };
    let list = words_of(rt, alloc, all.as_slice()).into_iter();
    let end = run_program(rt, alloc, alloc, Ok(list), rt, &mut streams);
    let shown = timeless(rt, alloc, errors.as_slice());
    check_same(rt, ("line", report), shown.as_slice(), line);
    check_same(rt, ("status", report), end.code(), status);
    check_same(rt, ("script", report), output.is_empty(), status != 0);
}

#[test]
fn reports_are_new_files(rt: HostRuntime) {
    let alloc = rt.alloc();
    let movie = recording_of(&rt, alloc, COUNTING, 5, IDLE);
    let (game, _) = movie.files();
    let _ = fs::remove_dir_all(&rt, PLACE);
    expect_ok(&rt, fs::create_dir(&rt, PLACE));
    make(&rt, CART, game);
    make(&rt, BLANK, b"");
    for case in CASES.iter() {
        check_case(&rt, alloc, &movie, *case);
    }
    check_file(&rt, CART, game);
    check_file(&rt, BLANK, b"");
    check_report(&rt, alloc, NEW);
    let is_left = fs::metadata(&rt, GONE).is_ok();
    check_same(&rt, "report without a line left", is_left, false);
    expect_ok(&rt, fs::remove_dir_all(&rt, PLACE));
}
