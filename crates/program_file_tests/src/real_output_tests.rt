//! The whole program over files of the system, with an output that replaces one of them.

use crate::checks::{check_same, check_that, expect_ok, expect_some};
use crate::movies::{PLAYFIELD, image_of};
use crate::programs::{ONE_FRAME, TWO_FRAMES, words_of};
use std::alloc::{Alloc, Global};
use std::fs;
use std::fs::{Files, Permissions};
use std::os::unix::fs::{PermissionsExt, symlink};
use std::process::Abort;
use std::sync::Wait;
use std::thread::Threads;
use std::time::Clock;
use tas_program::{Folder, Streams, run_program};

/// The folder of these files.
const PLACE: &str = "real_output";

const CART: &str = "real_output/cart";

const MOVIE: &str = "real_output/movie";

const SCRIPT: &str = "real_output/script";

const NEW: &str = "real_output/new";

/// Another name of the script.
const HARD: &str = "real_output/hard";

/// A symbolic link to the cartridge.
const SYMBOLIC: &str = "real_output/symbolic";

/// A symbolic link to the null device.
const NULL: &str = "real_output/null";

/// A file that only the link names.
const OTHER: &str = "real_output/other";

/// A symbolic link to it.
const LINK: &str = "real_output/link";

/// A symbolic link to a name of nothing.
const DANGLING: &str = "real_output/dangling";

/// A file that nobody may write.
const SEALED: &str = "real_output/sealed";

/// A file of no bytes.
const BLANK: &str = "real_output/blank";

const FRESH: &str = "real_output/fresh";

const FOLDER: &str = "real_output/folder";

const NOWHERE: &str = "real_output/nowhere/new";

/// The words, whose last one is the file of the output; standard input, the status, the line, and what the movie's file has then.
type Case<'a> = (&'a [&'a str], &'a [u8], u8, &'a [u8], &'a [u8]);

/// The movie of no frames.
const NO_FRAMES: &[u8] =
    b"a26movie 2\ncart 820c64e9933496de683a000c5e11f0510fb7b1699b2ce86471295236b284906d\n";

/// What is done in turn, each on what those before it left. The movie has one frame before.
static CASES: [Case<'static>; 21] = [
    (
        &["edit", CART, SCRIPT, "-o", CART],
        ONE_FRAME,
        2,
        b"fault: FILE: same file as CART\n",
        ONE_FRAME,
    ),
    (
        &["edit", CART, SCRIPT, "-o", SYMBOLIC],
        ONE_FRAME,
        2,
        b"fault: FILE: same file as CART\n",
        ONE_FRAME,
    ),
    (
        &["edit", CART, SCRIPT, "-o", HARD],
        ONE_FRAME,
        2,
        b"fault: FILE: same file as SCRIPT\n",
        ONE_FRAME,
    ),
    (
        &["edit", CART, SCRIPT, "--with", MOVIE, "-o", MOVIE],
        ONE_FRAME,
        2,
        b"fault: FILE: same file as OTHER\n",
        ONE_FRAME,
    ),
    (
        &["diff", CART, MOVIE, "-o", MOVIE],
        TWO_FRAMES,
        2,
        b"fault: FILE: same file as OLD\n",
        ONE_FRAME,
    ),
    (
        &["migrate", CART, "-o", CART],
        ONE_FRAME,
        2,
        b"fault: FILE: same file as CART\n",
        ONE_FRAME,
    ),
    (
        &["edit", CART, SCRIPT, "-o", MOVIE],
        b"a26movie 1\n",
        1,
        b"fault: movie line 2: end\n",
        ONE_FRAME,
    ),
    (
        &["edit", CART, SCRIPT, "-o", NOWHERE],
        ONE_FRAME,
        1,
        b"fault: FILE: not created\n",
        ONE_FRAME,
    ),
    (
        &["edit", CART, SCRIPT, "-o", NULL],
        ONE_FRAME,
        1,
        b"fault: FILE: not renamed\n",
        ONE_FRAME,
    ),
    (
        &["edit", CART, SCRIPT, "-o", FOLDER],
        ONE_FRAME,
        1,
        b"fault: FILE: not renamed\n",
        ONE_FRAME,
    ),
    (
        &["edit", CART, SCRIPT, "-o", LINK],
        ONE_FRAME,
        1,
        b"fault: FILE: not renamed\n",
        ONE_FRAME,
    ),
    (
        &["edit", CART, SCRIPT, "-o", DANGLING],
        ONE_FRAME,
        1,
        b"fault: FILE: not renamed\n",
        ONE_FRAME,
    ),
    (
        &["edit", CART, SCRIPT, "-o", SEALED],
        ONE_FRAME,
        1,
        b"fault: FILE: not renamed\n",
        ONE_FRAME,
    ),
    (
        &["edit", CART, SCRIPT, "-o", MOVIE],
        ONE_FRAME,
        0,
        b"",
        TWO_FRAMES,
    ),
    (
        &["cut", CART, "0", "1", "-o", MOVIE],
        TWO_FRAMES,
        0,
        b"",
        ONE_FRAME,
    ),
    (
        &["migrate", CART, "-o", MOVIE],
        TWO_FRAMES,
        0,
        b"",
        TWO_FRAMES,
    ),
    (
        &["new", CART, "0", "-o", MOVIE],
        b"",
        2,
        b"fault: FILE: not empty\n",
        TWO_FRAMES,
    ),
    (&["new", CART, "0", "-o", BLANK], b"", 0, b"", TWO_FRAMES),
    (&["new", CART, "0", "-o", FRESH], b"", 0, b"", TWO_FRAMES),
    (
        &["edit", CART, SCRIPT, "-o", NEW],
        ONE_FRAME,
        0,
        b"",
        TWO_FRAMES,
    ),
    (
        &["diff", CART, MOVIE, "--output", NEW],
        TWO_FRAMES,
        0,
        b"",
        TWO_FRAMES,
    ),
];

/// Makes a file of these bytes.
fn make<R: Files + Abort>(rt: &R, name: &str, bytes: &[u8]) {
    expect_ok(rt, fs::write(rt, name, bytes));
}

/// Fails where a file has other bytes.
fn check_file<R: Files + Alloc + Abort>(rt: &R, case: &[&str], name: &str, bytes: &[u8]) {
    let found = expect_ok(rt, fs::read(rt, name));
    check_that(rt, (case, name), found.as_slice() == bytes);
}

/// Makes all files.
fn make_all<R: Files + Alloc + Abort>(rt: &R, game: &[u8]) {
    let _ = fs::remove_dir_all(rt, PLACE);
    expect_ok(rt, fs::create_dir(rt, PLACE));
    make(rt, CART, game);
    make(rt, MOVIE, ONE_FRAME);
    make(rt, SCRIPT, b"insert 1 1 R.... ..... .....\n");
    expect_ok(rt, fs::hard_link(rt, SCRIPT, HARD));
    expect_ok(rt, symlink(rt, "cart", SYMBOLIC));
    expect_ok(rt, symlink(rt, "/dev/null", NULL));
    make(rt, OTHER, b"other");
    expect_ok(rt, symlink(rt, "other", LINK));
    expect_ok(rt, symlink(rt, "nothing", DANGLING));
    make(rt, SEALED, b"sealed");
    make(rt, BLANK, b"");
    expect_ok(rt, fs::create_dir(rt, FOLDER));
    // Not the permissions that a new file has.
    permit(rt, MOVIE, 0o600);
    permit(rt, SEALED, 0o444);
}

/// Sets a file's permissions.
fn permit<R: Files + Abort>(rt: &R, name: &str, mode: u32) {
    let mode = Permissions::from_mode(mode);
    expect_ok(rt, fs::set_permissions(rt, name, mode));
}

/// Fails where a file has other permissions.
fn check_mode<R: Files + Abort>(rt: &R, name: &str, mode: u32) {
    let found = expect_ok(rt, fs::metadata(rt, name)).permissions();
    check_same(rt, ("mode", name), found.mode() & 0o7777, mode);
}

/// Fails where a name isn't that of a symbolic link.
fn check_link<R: Files + Abort>(rt: &R, name: &str) {
    let found = expect_ok(rt, fs::symlink_metadata(rt, name));
    check_that(rt, ("link", name), found.is_symlink());
}

/// Fails where a new file is left beside the file of an output.
fn check_no_part<R: Files + Abort>(rt: &R, alloc: Global, words: &[&str]) {
    let file = *expect_some(rt, words.last());
    let part = expect_ok(rt, format!(in alloc; "{file}.part0"));
    let is_left = fs::symlink_metadata(rt, part.as_str()).is_ok();
    check_same(rt, ("part left", words), is_left, false);
}

/// Fails where the program ends in another way, writes to standard output, or leaves other files.
fn check_case<R: Folder + Files + Alloc + Threads + Wait + Clock + Abort + Sync>(
    rt: &R,
    alloc: Global,
    (words, input, status, line, movie): Case<'_>,
) {
    let (mut output, mut errors) = (Vec::new(alloc), Vec::new(alloc));
    let mut streams = Streams {
        input,
        output: &mut output,
        errors: &mut errors,
    };
    let list = words_of(rt, alloc, words).into_iter();
    let end = run_program(rt, alloc, alloc, Ok(list), rt, &mut streams);
    check_same(rt, ("line", words), errors.as_slice(), line);
    check_same(rt, ("status", words), end.code(), status);
    check_that(rt, ("silent", words), output.is_empty());
    check_file(rt, words, MOVIE, movie);
    check_no_part(rt, alloc, words);
}

#[test]
fn outputs_replace_real_files(rt: HostRuntime) {
    let alloc = rt.alloc();
    let game = image_of(&rt, alloc, PLAYFIELD.bytes);
    make_all(&rt, game.as_slice());
    for case in CASES.iter() {
        check_case(&rt, alloc, *case);
    }
    check_file(&rt, &[], CART, game.as_slice());
    check_file(&rt, &[], SCRIPT, b"insert 1 1 R.... ..... .....\n");
    check_file(&rt, &[], NEW, b"");
    check_file(&rt, &[], BLANK, NO_FRAMES);
    check_file(&rt, &[], FRESH, NO_FRAMES);
    check_file(&rt, &[], OTHER, b"other");
    check_file(&rt, &[], SEALED, b"sealed");
    check_mode(&rt, MOVIE, 0o600);
    check_mode(&rt, SEALED, 0o444);
    for link in [SYMBOLIC, NULL, LINK, DANGLING] {
        check_link(&rt, link);
    }
    expect_ok(&rt, fs::remove_dir_all(&rt, PLACE));
}

#[test]
fn names_of_other_files_stay(rt: HostRuntime) {
    let alloc = rt.alloc();
    let game = image_of(&rt, alloc, PLAYFIELD.bytes);
    let place = "real_parts";
    let _ = fs::remove_dir_all(&rt, place);
    expect_ok(&rt, fs::create_dir(&rt, place));
    make(&rt, "real_parts/cart", game.as_slice());
    make(&rt, "real_parts/movie", ONE_FRAME);
    make(&rt, "real_parts/movie.part0", b"left");
    let words = ["migrate", "real_parts/cart", "-o", "real_parts/movie"];
    let (mut output, mut errors) = (Vec::new(alloc), Vec::new(alloc));
    let mut streams = Streams {
        input: TWO_FRAMES,
        output: &mut output,
        errors: &mut errors,
    };
    let list = words_of(&rt, alloc, words.as_slice()).into_iter();
    let end = run_program(&rt, alloc, alloc, Ok(list), &rt, &mut streams);
    check_same(&rt, "status", end.code(), 0);
    check_file(&rt, &[], "real_parts/movie", TWO_FRAMES);
    check_file(&rt, &[], "real_parts/movie.part0", b"left");
    let is_left = fs::metadata(&rt, "real_parts/movie.part1").is_ok();
    check_same(&rt, "no part", is_left, false);
    expect_ok(&rt, fs::remove_dir_all(&rt, place));
}
