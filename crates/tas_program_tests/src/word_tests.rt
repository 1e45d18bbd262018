//! Words that name a task, and others.

use crate::checks::{check_same, check_that, expect_ok};
use crate::movies::{PLAYFIELD, image_of};
use crate::programs::ONE_FRAME;
use crate::tasks::check_task;
use crate::two_files::{check_run, check_unread, only_game, run};
use std::alloc::Global;
use std::io::ErrorKind;
use std::process::Abort;
use std::sync::Wait;
use std::thread::Threads;
use std::time::Clock;

/// Words that name a task, the first of them its command, and the task's files and numbers.
static TASKS: [(&[&str], &[&str], &[usize]); 49] = [
    (&["trace", "0"], &[], &[0]),
    (&["trace", "3"], &[], &[3]),
    (&["trace", "1000000"], &[], &[1_000_000]),
    (&["check", "a.bin"], &["a.bin"], &[]),
    (&["migrate", "a.bin"], &["a.bin"], &[]),
    (&["new", "a.bin", "0"], &["a.bin"], &[0]),
    (&["new", "7", "262144"], &["7"], &[262_144]),
    (&["recover", "a.bin"], &["a.bin"], &[]),
    (&["recover", "a.bin", "--until", "1"], &["a.bin"], &[1]),
    (
        &["recover", "--until=4294967295", "7"],
        &["7"],
        &[4_294_967_295],
    ),
    (
        &["recover", "a.bin", "--cart", "b.bin"],
        &["a.bin", "b.bin"],
        &[],
    ),
    (
        &["recover", "--cart=b", "--until", "7", "c"],
        &["c", "b"],
        &[7],
    ),
    (
        &["search", "a.bin", "0", "0", "reach x"],
        &["a.bin", "reach x"],
        &[0, 0, 1, 1, 1, 100_000],
    ),
    (
        &[
            "search",
            "a.bin",
            "9999999",
            "262144",
            "b",
            "--choices",
            "c",
            "--names",
            "d",
            "--hold",
            "262144",
            "--first",
            "1000000/1000000",
            "--most",
            "9999999",
        ],
        &["a.bin", "b", "c", "d"],
        &[9_999_999, 262_144, 262_144, 1_000_000, 1_000_000, 9_999_999],
    ),
    (
        &[
            "search",
            "--most=1",
            "--hold=1",
            "--first=2/13",
            "7",
            "--choices=c",
            "8",
            "9",
            "b",
        ],
        &["7", "b", "c"],
        &[8, 9, 1, 2, 13, 1],
    ),
    (
        &["search", "a.bin", "0", "1", "b", "--first", "1/1"],
        &["a.bin", "b"],
        &[0, 1, 1, 1, 1, 100_000],
    ),
    (&["verify"], &[], &[1]),
    (&["verify", "--carts", "a"], &["a"], &[1]),
    (&["verify", "--workers=16", "--carts=7"], &["7"], &[16]),
    (&["shot", "a.bin", "0"], &["a.bin"], &[0]),
    (&["shot", "7", "1000001"], &["7"], &[1_000_001]),
    (&["shot", "b", "9999999"], &["b"], &[9_999_999]),
    (&["film", "a.bin"], &["a.bin"], &[]),
    (&["film", "a.bin", "0"], &["a.bin"], &[0]),
    (&["film", "7", "9999999", "8"], &["7"], &[9_999_999, 8]),
    (
        &["film", "a.bin", "0", "9999999"],
        &["a.bin"],
        &[0, 9_999_999],
    ),
    (
        &["ram", "a.bin", "0", "9999999"],
        &["a.bin"],
        &[0, 9_999_999],
    ),
    (&["ram", "7", "9999999", "0"], &["7"], &[9_999_999, 0]),
    (
        &["ram", "a.bin", "0", "1", "--names", "b"],
        &["a.bin", "b"],
        &[0, 1],
    ),
    (&["ram", "--names=9", "7", "8", "10"], &["7", "9"], &[8, 10]),
    (&["digest", "a.bin"], &["a.bin"], &[600]),
    (&["digest", "a.bin", "1"], &["a.bin"], &[1]),
    (&["digest", "7", "262144"], &["7"], &[262_144]),
    (&["digest", "a.bin", "+0600"], &["a.bin"], &[600]),
    (&["compare", "a.bin", "b"], &["a.bin", "b"], &[]),
    (&["lag", "a.bin"], &["a.bin"], &[]),
    (&["edit", "a.bin", "b"], &["a.bin", "b"], &[]),
    (
        &["edit", "a.bin", "b", "--with", "c"],
        &["a.bin", "b", "c"],
        &[],
    ),
    (
        &["edit", "--with=c", "a.bin", "b"],
        &["a.bin", "b", "c"],
        &[],
    ),
    (
        &["cut", "a.bin", "0", "9999999"],
        &["a.bin"],
        &[0, 9_999_999],
    ),
    (&["diff", "a.bin", "b"], &["a.bin", "b"], &[]),
    (&["script"], &[], &[]),
    (
        &["script", "--cart", "a.bin", "--movie", "b"],
        &["a.bin", "b"],
        &[],
    ),
    (
        &["script", "--movie=b", "--cart=a.bin"],
        &["a.bin", "b"],
        &[],
    ),
    (&["talk"], &[], &[]),
    (&["talk", "a.bin"], &["a.bin"], &[]),
    (&["talk", "a.bin", "b"], &["a.bin", "b"], &[]),
    (
        &["export", "a.bin", "0", "9999999", "1"],
        &["a.bin"],
        &[0, 9_999_999, 1],
    ),
    (
        &["export", "7", "9999999", "0", "16"],
        &["7"],
        &[9_999_999, 0, 16],
    ),
];

#[test]
fn each_command_is_its_task(rt: HostRuntime) {
    for (number, (words, files, numbers)) in TASKS.iter().enumerate() {
        check_task(&rt, rt.alloc(), number, words, (files, numbers, &[]));
    }
}

/// Words that are no task: none, an unknown one, too few, too many, numbers past their ranges and
/// texts that are no numbers, unknown flags.
static MISUSES: [&[&str]; 40] = [
    &[],
    &[""],
    &["play"],
    &["help"],
    &["--cart"],
    &["trace"],
    &["trace", "1000001"],
    &["trace", "-1"],
    &["trace", ""],
    &["trace", "x"],
    &["trace", "4294967296"],
    &["trace", "1", "2"],
    &["check"],
    &["check", "game.bin", "0"],
    &["check", "--all", "game.bin"],
    &["migrate"],
    &["migrate", "game.bin", "0"],
    &["new"],
    &["new", "game.bin"],
    &["new", "game.bin", "262145"],
    &["new", "game.bin", "-1"],
    &["new", "game.bin", "x"],
    &["new", "game.bin", "1", "1"],
    &["recover"],
    &["recover", "game.bin", "other"],
    &["recover", "game.bin", "--until"],
    &["recover", "game.bin", "--until", "0"],
    &["recover", "game.bin", "--until", "4294967296"],
    &["recover", "game.bin", "--until", "x"],
    &["recover", "--until", "7", "--until", "8", "game.bin"],
    &["recover", "game.bin", "--cart"],
    &["recover", "--cart", "a", "--cart", "b", "game.bin"],
    &["recover", "--cart", "a"],
    &["check", "game.bin", "--cart", "a"],
    &["verify", "game.bin"],
    &["verify", "--carts"],
    &["verify", "--workers", "0"],
    &["verify", "--workers", "17"],
    &["verify", "--carts", "a", "--carts", "a"],
    &["verify", "-o", "other"],
];

/// Words of a search that are no task.
static SEARCH_MISUSES: [&[&str]; 18] = [
    &["search"],
    &["search", "game.bin", "0", "1"],
    &["search", "game.bin", "0", "1", "reach 1", "other"],
    &["search", "game.bin", "10000000", "1", "reach 1"],
    &["search", "game.bin", "0", "262145", "reach 1"],
    &["search", "game.bin", "x", "1", "reach 1"],
    &["search", "game.bin", "0", "1", "reach 1", "--hold", "0"],
    &[
        "search", "game.bin", "0", "1", "reach 1", "--hold", "262145",
    ],
    &["search", "game.bin", "0", "1", "reach 1", "--most", "0"],
    &[
        "search", "game.bin", "0", "1", "reach 1", "--most", "10000000",
    ],
    &["search", "game.bin", "0", "1", "reach 1", "--most"],
    &[
        "search", "game.bin", "0", "1", "reach 1", "--names", "other", "--names", "other",
    ],
    &["search", "game.bin", "0", "1", "reach 1", "-o", "other"],
    &["search", "game.bin", "0", "1", "reach 1", "--workers", "0"],
    &["search", "game.bin", "0", "1", "reach 1", "--workers", "17"],
    &["search", "game.bin", "0", "1", "reach 1", "--report"],
    &["search", "game.bin", "0", "1", "reach 1", "--first"],
    &[
        "search", "game.bin", "0", "1", "reach 1", "--first", "1/2", "--first", "1/2",
    ],
];

/// Words that look at one frame or change a movie, and are no task.
static EDIT_MISUSES: [&[&str]; 27] = [
    &["shot", "game.bin"],
    &["shot", "game.bin", "10000000"],
    &["shot", "game.bin", "-1"],
    &["shot", "0", "game.bin"],
    &["shot", "game.bin", "0", "1"],
    &["edit", "game.bin"],
    &["edit", "game.bin", "other", "other"],
    &["edit", "game.bin", "other", "--with"],
    &["edit", "game.bin", "--with", "other"],
    &[
        "edit", "game.bin", "other", "--with", "other", "--with", "other",
    ],
    &["cut", "game.bin"],
    &["cut", "game.bin", "0"],
    &["cut", "game.bin", "10000000", "1"],
    &["cut", "game.bin", "0", "10000000"],
    &["cut", "game.bin", "0", "-1"],
    &["cut", "game.bin", "0", "1", "1"],
    &["diff"],
    &["diff", "game.bin", "other", "0"],
    &["script", "game.bin"],
    &["script", "--cart", "game.bin"],
    &["script", "--movie", "other"],
    &["script", "--cart", "--movie", "other"],
    &["script", "--cart", "game.bin", "--movie"],
    &["script", "--cart", "game.bin", "--movie", "other", "other"],
    &["talk", "game.bin", "other", "other"],
    &["talk", "--cart", "game.bin"],
    &["Trace", "1"],
];

/// Words that look at many frames, and are no task.
static LOOK_MISUSES: [&[&str]; 36] = [
    &["export", "game.bin"],
    &["export", "game.bin", "0", "1"],
    &["export", "game.bin", "0", "1", "1", "1"],
    &["export", "0", "1", "1"],
    &["export", "game.bin", "0", "1", "0"],
    &["export", "game.bin", "0", "1", "17"],
    &["export", "game.bin", "10000000", "1", "1"],
    &["export", "game.bin", "0", "10000000", "1"],
    &["export", "game.bin", "0", "-1", "1"],
    &["film"],
    &["film", "game.bin", "x"],
    &["film", "game.bin", ""],
    &["film", "game.bin", "-1"],
    &["film", "game.bin", "10000000"],
    &["film", "game.bin", "0", "10000000"],
    &["film", "game.bin", "0", "1", "1"],
    &["ram"],
    &["ram", "game.bin"],
    &["ram", "game.bin", "0"],
    &["ram", "game.bin", "10000000", "1"],
    &["ram", "game.bin", "0", "10000000"],
    &["ram", "game.bin", "0", "1", "1"],
    &["ram", "game.bin", "0", "1", "--names"],
    &["ram", "game.bin", "0", "--names", "other"],
    &["ram", "game.bin", "0", "1", "other", "--names", "other"],
    &["digest"],
    &["digest", "game.bin", "0"],
    &["digest", "game.bin", "262145"],
    &["digest", "game.bin", "-1"],
    &["digest", "game.bin", "x"],
    &["digest", "game.bin", "1", "1"],
    &["compare"],
    &["compare", "game.bin"],
    &["compare", "game.bin", "other", "0"],
    &["lag"],
    &["lag", "game.bin", "0"],
];

/// Whether a text begins with another one; with an empty one only an empty text does.
fn begins(text: &[u8], start: &[u8]) -> bool {
    text.starts_with(start) && text.is_empty() == start.is_empty()
}

/// Fails where the program, run with these words over this cartridge and input, ends with another status, or what it writes or
/// what it tells begins in another way.
fn check_begins<R: Threads + Wait + Clock + Abort + Sync>(
    rt: &R,
    alloc: Global,
    words: &[&str],
    (game, input): (&[u8], &[u8]),
    (code, output, line): (u8, &[u8], &[u8]),
) {
    let mut written = Vec::new(alloc);
    let mut told = Vec::new(alloc);
    let folder = only_game(game);
    let status = run(rt, alloc, words, folder, input, &mut written, &mut told);
    check_same(rt, words, status, code);
    check_that(rt, words, begins(written.as_slice(), output));
    check_that(rt, words, begins(told.as_slice(), line));
}

/// Words, and the beginning of the text that they show.
pub type Shown<'a> = (&'a [&'a str], &'a [u8]);

/// Fails where words over this input end with another status, or don't show their text: where they are understood (0) on standard
/// output, else as an error.
pub fn check_shown<R: Threads + Wait + Clock + Abort + Sync>(
    rt: &R,
    alloc: Global,
    code: u8,
    input: &[u8],
    rows: &[Shown<'_>],
) {
    for (words, text) in rows {
        let end = if code == 0 {
            (code, *text, b"".as_slice())
        } else {
            (code, b"".as_slice(), *text)
        };
        check_begins(rt, alloc, words, (b"", input), end);
    }
}

/// Fails where some of these words are taken for a task.
fn check_misuses<R: Threads + Wait + Clock + Abort + Sync>(
    rt: &R,
    alloc: Global,
    cart: &[u8],
    rows: &[&[&str]],
) {
    for words in rows {
        let end = (2, b"".as_slice(), b"error: ".as_slice());
        check_begins(rt, alloc, words, (cart, ONE_FRAME), end);
    }
}

/// Words after `--first` that name no part.
static NO_PARTS: [&str; 18] = [
    "0/1",
    "1/0",
    "2/1",
    "1/1000001",
    "1",
    "1/",
    "/1",
    "",
    "1/2/3",
    "+1/2",
    "1/+2",
    "01/2",
    "1/02",
    " 1/2",
    "1/ 2",
    "x/2",
    "1:2",
    "18446744073709551617/18446744073709551617",
];

/// Fails where these words of a search, whose part this text isn't, aren't refused for it with a search's usage.
fn check_no_part<R: Threads + Wait + Clock + Abort + Sync>(
    rt: &R,
    alloc: Global,
    cart: &[u8],
    words: &[&str],
    part: &str,
) {
    let error = expect_ok(
        rt,
        format!(in alloc;
            "error: invalid value '{part}' for '--first <K/N>': numbers with 1 <= K <= N <= 1000000 are wanted\n\n\
Usage: tas search [OPTIONS] <CART> <FROM> <FRAMES> <GOAL> < MOVIE\n\n\
For more information, try '--help'.\n"
        ),
    );
    let end = (2, b"".as_slice(), error.as_bytes());
    check_begins(rt, alloc, words, (cart, ONE_FRAME), end);
}

/// A word that begins with a hyphen is a flag for clap: it can be a value after `=` alone.
const NEGATIVE: &[&str] = &["search", "game.bin", "0", "1", "reach 1", "--first=-1/2"];

#[test]
fn words_that_name_no_part_end_with_status_2(rt: HostRuntime) {
    let alloc = rt.alloc();
    let cart = image_of(&rt, alloc, PLAYFIELD.bytes);
    let cart = cart.as_slice();
    for part in NO_PARTS.iter() {
        let words = ["search", "game.bin", "0", "1", "reach 1", "--first", *part];
        check_no_part(&rt, alloc, cart, words.as_slice(), part);
    }
    check_no_part(&rt, alloc, cart, NEGATIVE, "-1/2");
}

#[test]
fn other_words_end_with_status_2(rt: HostRuntime) {
    let alloc = rt.alloc();
    let cart = image_of(&rt, alloc, PLAYFIELD.bytes);
    let cart = cart.as_slice();
    check_misuses(&rt, alloc, cart, MISUSES.as_slice());
    check_misuses(&rt, alloc, cart, SEARCH_MISUSES.as_slice());
    check_misuses(&rt, alloc, cart, EDIT_MISUSES.as_slice());
    check_misuses(&rt, alloc, cart, LOOK_MISUSES.as_slice());
    let line = b"error: the words aren't all text\n".as_slice();
    let end = (2, b"".as_slice(), line);
    let kind = ErrorKind::InvalidData;
    check_unread(&rt, alloc, kind, only_game(cart), ONE_FRAME, end);
}

/// Words of which one is missing, and the beginning of the text, which names it.
static MISSING: [Shown<'static>; 5] = [
    (
        &["script", "--cart", "game.bin"],
        b"error: the following required arguments were not provided:\n  --movie <MOVIE>\n",
    ),
    (
        &["script", "--movie", "other"],
        b"error: the following required arguments were not provided:\n  --cart <CART>\n",
    ),
    (
        &["shot", "game.bin"],
        b"error: the following required arguments were not provided:\n  <K>\n",
    ),
    (
        &["edit", "game.bin"],
        b"error: the following required arguments were not provided:\n  <SCRIPT>\n",
    ),
    (
        &["ram", "game.bin", "0"],
        b"error: the following required arguments were not provided:\n  <TO>\n",
    ),
];

#[test]
fn a_missing_word_is_named(rt: HostRuntime) {
    check_shown(&rt, rt.alloc(), 2, b"", MISSING.as_slice());
}

/// Words that ask for help, and the beginning of the text.
static HELPS: [Shown<'static>; 21] = [
    (
        &["--help"],
        b"Replays movies of Atari 2600 cartridges, exactly and from power-on\n\nUsage: tas <COMMAND>\n",
    ),
    (
        &["-h"],
        b"Replays movies of Atari 2600 cartridges, exactly and from power-on\n\nUsage: tas <COMMAND>\n",
    ),
    (
        &["trace", "--help"],
        b"Writes the first instructions of a cartridge, a line for each\n\nUsage: tas trace <N> < CART\n",
    ),
    (
        &["check", "--help"],
        b"Checks a movie text and prints its length\n\nUsage: tas check <CART> < MOVIE\n",
    ),
    (
        &["migrate", "--help"],
        b"Writes a movie text, older ones too, as a text of runs ('a26movie 2')\n\nUsage: tas migrate [OPTIONS] <CART> < MOVIE\n",
    ),
    (
        &["new", "--help"],
        b"Writes the text of a movie in which nothing is pressed\n\nUsage: tas new [OPTIONS] <CART> <FRAMES>\n",
    ),
    (
        &["recover", "--help"],
        b"Writes the text of the movie that a journal makes\n\nUsage: tas recover [OPTIONS] <CART> < JOURNAL\n",
    ),
    (
        &["search", "--help"],
        b"Searches for the best inputs of some frames and writes the script that makes them\n\nUsage: tas search [OPTIONS] <CART> <FROM> <FRAMES> <GOAL> < MOVIE\n",
    ),
    (
        &["verify", "--help"],
        b"Plays many movies and says which of them still play as their digests say\n\nUsage: tas verify [OPTIONS] < MANIFEST\n",
    ),
    (
        &["shot", "--help"],
        b"Writes the picture of one frame of a movie\n\nUsage: tas shot <CART> <K> < MOVIE\n",
    ),
    (
        &["edit", "--help"],
        b"Makes the edits of a script on a movie and writes its text\n\nUsage: tas edit [OPTIONS] <CART> <SCRIPT> < MOVIE\n",
    ),
    (
        &["cut", "--help"],
        b"Writes the text of the movie of some frames of a movie alone\n\nUsage: tas cut [OPTIONS] <CART> <FROM> <TO> < MOVIE\n",
    ),
    (
        &["diff", "--help"],
        b"Writes the script that turns one movie into another\n\nUsage: tas diff [OPTIONS] <CART> <OLD> < MOVIE\n",
    ),
    (
        &["script", "--help"],
        b"Edits a movie by a script and writes the replies\n\nUsage: tas script [OPTIONS] < SCRIPT\n",
    ),
    (
        &["talk", "--help"],
        b"Answers lines, each before the next one is read\n\nUsage: tas talk [OPTIONS] [CART] [MOVIE] < LINES\n",
    ),
    (
        &["export", "--help"],
        b"Writes the pictures of some frames of a movie, one after the other\n\nUsage: tas export <CART> <FROM> <TO> <WORKERS> < MOVIE\n",
    ),
    (
        &["film", "--help"],
        b"Writes the pictures of a movie's frames as they are played, any number of them\n\nUsage: tas film <CART> [FROM] [TO] < MOVIE\n",
    ),
    (
        &["ram", "--help"],
        b"Writes the RAM after some numbers of frames of a movie, a line for each\n\nUsage: tas ram [OPTIONS] <CART> <FROM> <TO> < MOVIE\n",
    ),
    (
        &["digest", "--help"],
        b"Plays a movie and writes digests of its RAM and pictures\n\nUsage: tas digest <CART> [EVERY] < MOVIE\n",
    ),
    (
        &["compare", "--help"],
        b"Writes the first frames at which two movies differ\n\nUsage: tas compare <CART> <OLD> < MOVIE\n",
    ),
    (
        &["lag", "--help"],
        b"Writes the frames of a movie whose input nothing reads\n\nUsage: tas lag <CART> < MOVIE\n",
    ),
];

#[test]
fn help_and_version_are_shown(rt: HostRuntime) {
    let alloc = rt.alloc();
    check_shown(&rt, alloc, 0, b"", HELPS.as_slice());
    let version = b"tas 0.3.0, machine profile 2\n".as_slice();
    let end = (0, version, b"".as_slice());
    check_run(&rt, alloc, &["--version"], only_game(b""), b"", end);
}
