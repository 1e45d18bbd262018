//! `tas recover --cart` over files of the system.

use crate::checks::{check_same, check_that, expect_ok};
use crate::movies::{PLAYFIELD, image_of};
use crate::programs::{AFTER_TWO, JOURNAL, run_in};
use std::alloc::{Alloc, Global};
use std::fs;
use std::fs::Files;
use std::os::unix::fs::symlink;
use std::process::Abort;
use std::sync::Wait;
use std::thread::Threads;
use std::time::Clock;
use tas_program::Folder;

/// The folder of these files.
const PLACE: &str = "real_image";

const CART: &str = "real_image/cart";

/// Another name of the cartridge.
const HARD: &str = "real_image/hard";

/// A file that only the link names.
const OTHER: &str = "real_image/other";

/// A symbolic link to it.
const LINK: &str = "real_image/link";

/// A file with other bytes.
const OLD: &str = "real_image/old";

const FRESH: &str = "real_image/fresh";

const NOWHERE: &str = "real_image/nowhere/last";

const MOVIE: &str = "real_image/movie";

/// The words after the command, the status, standard output and the line.
type Case<'a> = (&'a [&'a str], u8, &'a [u8], &'a [u8]);

const DONE: &[u8] = b"recovered: 2 edits\n";

static CASES: [Case<'static>; 8] = [
    (
        &["recover", CART, "--cart", CART],
        2,
        b"",
        b"fault: IMAGE: same file as CART\n",
    ),
    (
        &["recover", CART, "--cart", HARD],
        2,
        b"",
        b"fault: IMAGE: same file as CART\n",
    ),
    (
        &["recover", CART, "--cart", OLD, "-o", OLD],
        2,
        b"",
        b"fault: FILE: same file as IMAGE\n",
    ),
    (
        &["recover", CART, "--cart", NOWHERE],
        1,
        AFTER_TWO,
        b"fault: IMAGE: not created\n",
    ),
    (
        &["recover", CART, "--cart", LINK],
        1,
        AFTER_TWO,
        b"fault: IMAGE: not renamed\n",
    ),
    (
        &["recover", CART, "--cart", PLACE],
        1,
        AFTER_TWO,
        b"fault: IMAGE: not renamed\n",
    ),
    (&["recover", CART, "--cart", OLD], 0, AFTER_TWO, DONE),
    (
        &["recover", CART, "--cart", FRESH, "-o", MOVIE],
        0,
        b"",
        DONE,
    ),
];

/// Makes a file of these bytes.
fn make<R: Files + Abort>(rt: &R, name: &str, bytes: &[u8]) {
    expect_ok(rt, fs::write(rt, name, bytes));
}

/// Fails where a file has other bytes.
fn check_file<R: Files + Alloc + Abort>(rt: &R, name: &str, bytes: &[u8]) {
    let found = expect_ok(rt, fs::read(rt, name));
    check_that(rt, ("file", name), found.as_slice() == bytes);
}

/// Fails where a recovery ends in another way.
fn check_case<R: Folder + Files + Alloc + Threads + Wait + Clock + Abort + Sync>(
    rt: &R,
    alloc: Global,
    (words, status, written, line): Case<'_>,
) {
    let (mut output, mut errors) = (Vec::new(alloc), Vec::new(alloc));
    let code = run_in(rt, alloc, rt, JOURNAL, words, &mut output, &mut errors);
    check_same(rt, ("line", words), errors.as_slice(), line);
    check_same(rt, ("status", words), code, status);
    check_same(rt, ("output", words), output.as_slice(), written);
}

#[test]
fn cartridges_replace_real_files(rt: HostRuntime) {
    let alloc = rt.alloc();
    let game = image_of(&rt, alloc, PLAYFIELD.bytes);
    let _ = fs::remove_dir_all(&rt, PLACE);
    expect_ok(&rt, fs::create_dir(&rt, PLACE));
    make(&rt, CART, game.as_slice());
    expect_ok(&rt, fs::hard_link(&rt, CART, HARD));
    make(&rt, OTHER, b"other");
    expect_ok(&rt, symlink(&rt, "other", LINK));
    make(&rt, OLD, b"old");
    for case in CASES.iter() {
        check_case(&rt, alloc, *case);
    }
    check_file(&rt, CART, game.as_slice());
    check_file(&rt, OTHER, b"other");
    check_file(&rt, OLD, game.as_slice());
    check_file(&rt, FRESH, game.as_slice());
    check_file(&rt, MOVIE, AFTER_TWO);
    for part in ["real_image/old.part0", "real_image/link.part0"] {
        let is_left = fs::symlink_metadata(&rt, part).is_ok();
        check_same(&rt, ("part left", part), is_left, false);
    }
    let is_left = fs::symlink_metadata(&rt, "real_image.part0").is_ok();
    check_same(&rt, "part of the folder left", is_left, false);
    expect_ok(&rt, fs::remove_dir_all(&rt, PLACE));
}
