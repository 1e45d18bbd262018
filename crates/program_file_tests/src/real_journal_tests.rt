//! `tas talk --journal` and `tas desk --journal` over files of the system: the file must be new, has each edit, and makes the movie again.

use crate::checks::{check_same, check_that, expect_ok};
use crate::movies::{PLAYFIELD, image_of};
use crate::programs::{ONE_FRAME, TWO_FRAMES, words_of};
use std::alloc::{Alloc, Global};
use std::fs;
use std::fs::Files;
use std::os::unix::fs::symlink;
use std::process::Abort;
use std::sync::Wait;
use std::thread::Threads;
use std::time::Clock;
use tas_program::{Folder, Streams, run_program};

/// The folder of these files.
const PLACE: &str = "real_journal";

const CART: &str = "real_journal/cart";

const MOVIE: &str = "real_journal/movie";

/// A file of no bytes: no movie text.
const BLANK: &str = "real_journal/blank";

/// A new file.
const DAY: &str = "real_journal/day";

/// Another name of the movie, and a symbolic link to it.
const HARD: &str = "real_journal/hard";

const LINK: &str = "real_journal/link";

/// A symbolic link to a name of nothing.
const DANGLING: &str = "real_journal/dangling";

/// A file that is made and removed again.
const GONE: &str = "real_journal/gone";

const NOWHERE: &str = "real_journal/nowhere/day";

const SAVED: &str = "real_journal/saved";

/// The files of a desk's pair, and its journal.
const LINES: &str = "real_journal/lines";

const ANSWERS: &str = "real_journal/answers";

const NIGHT: &str = "real_journal/night";

/// The words, the status, the answers, and the line.
type Case<'a> = (&'a [&'a str], u8, &'a [u8], &'a [u8]);

const NOT_CREATED: &[u8] = b"fault: journal: not created\n";

/// What is done in turn, each on what those before it left.
static CASES: [Case<'static>; 19] = [
    (
        &["talk", CART, BLANK, "--journal", GONE],
        1,
        b"",
        b"fault: movie line 1: end\n",
    ),
    (
        &["talk", CART, "real_journal/none", "--journal", GONE],
        1,
        b"",
        b"fault: read failed\n",
    ),
    (
        &["talk", CART, MOVIE, "--journal", CART],
        2,
        b"",
        b"fault: JOURNAL: same file as CART\n",
    ),
    (
        &["talk", CART, MOVIE, "--journal", HARD],
        2,
        b"",
        b"fault: JOURNAL: same file as MOVIE\n",
    ),
    (
        &["talk", CART, MOVIE, "--journal", LINK],
        2,
        b"",
        b"fault: JOURNAL: same file as MOVIE\n",
    ),
    (
        &["talk", CART, "--journal", MOVIE],
        2,
        b"",
        b"fault: JOURNAL: file exists\n",
    ),
    (
        &["talk", CART, MOVIE, "--journal", DAY, "-o", DAY],
        2,
        b"",
        b"fault: FILE: same file as JOURNAL\n",
    ),
    (
        &["talk", CART, MOVIE, "--journal", NOWHERE],
        1,
        b"",
        NOT_CREATED,
    ),
    (
        &["talk", CART, MOVIE, "--journal", DANGLING],
        1,
        b"",
        NOT_CREATED,
    ),
    (
        &["talk", CART, MOVIE, "--journal", PLACE],
        1,
        b"",
        NOT_CREATED,
    ),
    (
        &["talk", CART, MOVIE, "--journal", DAY, "-o", SAVED],
        0,
        b"edit 3 len 1\n",
        b"",
    ),
    (
        &["talk", CART, MOVIE, "--journal", DAY],
        2,
        b"",
        b"fault: JOURNAL: file exists\n",
    ),
    (
        &["desk", CART, BLANK, LINES, ANSWERS, "--journal", GONE],
        1,
        b"",
        b"fault: movie line 1: end\n",
    ),
    (
        &["desk", CART, MOVIE, LINES, ANSWERS, "--journal", DAY],
        2,
        b"",
        b"fault: JOURNAL: file exists\n",
    ),
    (
        &["desk", CART, MOVIE, LINES, ANSWERS, "--journal", LINES],
        2,
        b"",
        b"fault: JOURNAL: same file as IN0\n",
    ),
    (
        &["desk", CART, MOVIE, LINES, GONE, "--journal", GONE],
        2,
        b"",
        b"fault: JOURNAL: same file as OUT0\n",
    ),
    (
        &["desk", CART, MOVIE, LINES, ANSWERS, "--journal", NOWHERE],
        1,
        b"",
        NOT_CREATED,
    ),
    (
        &["desk", CART, MOVIE, LINES, ANSWERS, "--journal", DANGLING],
        1,
        b"",
        NOT_CREATED,
    ),
    (
        &["desk", CART, MOVIE, LINES, ANSWERS, "--journal", NIGHT],
        0,
        ONE_FRAME,
        b"",
    ),
];

fn make<R: Files + Abort>(rt: &R, name: &str, bytes: &[u8]) {
    expect_ok(rt, fs::write(rt, name, bytes));
}

/// Fails where a file has other bytes.
fn check_file<R: Files + Alloc + Abort>(rt: &R, name: &str, bytes: &[u8]) {
    let found = expect_ok(rt, fs::read(rt, name));
    check_that(rt, ("file", name), found.as_slice() == bytes);
}

/// Fails where the program ends in another way over these words and lines.
fn check_case<R: Folder + Files + Alloc + Threads + Wait + Clock + Abort + Sync>(
    rt: &R,
    alloc: Global,
    input: &[u8],
    (words, status, answers, line): Case<'_>,
) {
    let (mut output, mut errors) = (Vec::new(alloc), Vec::new(alloc));
    let mut streams = Streams {
        input,
        output: &mut output,
        errors: &mut errors,
    };
    let list = words_of(rt, alloc, words).into_iter();
    let end = run_program(rt, alloc, alloc, Ok(list), rt, &mut streams);
    check_same(rt, ("line", words), errors.as_slice(), line);
    check_same(rt, ("status", words), end.code(), status);
    check_same(rt, ("answers", words), output.as_slice(), answers);
}

/// Fails where there is a file of this name.
fn check_none<R: Files + Abort>(rt: &R, name: &str) {
    let is_left = fs::symlink_metadata(rt, name).is_ok();
    check_same(rt, ("left", name), is_left, false);
}

#[test]
fn journals_are_new_files(rt: HostRuntime) {
    let alloc = rt.alloc();
    let game = image_of(&rt, alloc, PLAYFIELD.bytes);
    let _ = fs::remove_dir_all(&rt, PLACE);
    expect_ok(&rt, fs::create_dir(&rt, PLACE));
    make(&rt, CART, game.as_slice());
    make(&rt, MOVIE, TWO_FRAMES);
    make(&rt, BLANK, b"");
    make(&rt, LINES, b"delete 1 1\n");
    make(&rt, ANSWERS, b"");
    expect_ok(&rt, fs::hard_link(&rt, MOVIE, HARD));
    expect_ok(&rt, symlink(&rt, "movie", LINK));
    expect_ok(&rt, symlink(&rt, "nothing", DANGLING));
    for case in CASES.iter() {
        check_case(&rt, alloc, b"delete 1 1\n", *case);
    }
    check_file(&rt, CART, game.as_slice());
    check_file(&rt, MOVIE, TWO_FRAMES);
    check_file(&rt, BLANK, b"");
    check_file(&rt, SAVED, ONE_FRAME);
    check_none(&rt, GONE);
    check_none(&rt, "real_journal/nothing");
    check_file(&rt, ANSWERS, b"edit 3 len 1\n");
    let again = (
        ["recover", CART].as_slice(),
        0,
        ONE_FRAME,
        b"recovered: 1 edits\n".as_slice(),
    );
    for name in [DAY, NIGHT] {
        let journal = expect_ok(&rt, fs::read(&rt, name));
        check_case(&rt, alloc, journal.as_slice(), again);
    }
    expect_ok(&rt, fs::remove_dir_all(&rt, PLACE));
}
