//! What the program says to somebody who doesn't know that a movie is read from standard input; and how wide its helps are.

use crate::checks::{check_same, check_that};
use crate::programs::ONE_FRAME;
use crate::two_files::{check_run, only_game, run};
use std::alloc::Global;
use std::process::Abort;
use std::sync::Wait;
use std::thread::Threads;
use std::time::Clock;

/// Refused words and the whole text that says why.
type Refused<'a> = (&'a [&'a str], &'a [u8]);

/// Words of which one is in a number's place, or one too many: each text has a tip, with the right line.
static TIPS: [Refused<'static>; 14] = [
    (
        &["shot", "game.bin", "game.movie"],
        b"error: invalid value 'game.movie' for '<K>': invalid digit found in string\n\n  tip: the movie is read from standard input: tas shot game.bin 60 < game.movie > frame60.ppm\n\nFor more information, try '--help'.\n",
    ),
    (
        &["check", "game.bin", "game.movie"],
        b"error: unexpected argument 'game.movie' found\n\n  tip: the movie is read from standard input: tas check game.bin < game.movie\n\nUsage: tas check <CART> < MOVIE\n\nFor more information, try '--help'.\n",
    ),
    (
        &["recover", "game.bin", "game.journal"],
        b"error: unexpected argument 'game.journal' found\n\n  tip: the journal is read from standard input: tas recover game.bin -o game.movie < game.journal\n\nUsage: tas recover [OPTIONS] <CART> < JOURNAL\n\nFor more information, try '--help'.\n",
    ),
    (
        &["search", "game.bin", "60", "12", "reach 1", "game.movie"],
        b"error: unexpected argument 'game.movie' found\n\n  tip: the movie is read from standard input: tas search game.bin 60 12 'reach byte:80 == 85' < game.movie\n\nUsage: tas search [OPTIONS] <CART> <FROM> <FRAMES> <GOAL> < MOVIE\n\nFor more information, try '--help'.\n",
    ),
    (
        &["search", "game.bin", "game.movie", "60", "reach 1"],
        b"error: invalid value 'game.movie' for '<FROM>': invalid digit found in string\n\n  tip: the movie is read from standard input: tas search game.bin 60 12 'reach byte:80 == 85' < game.movie\n\nFor more information, try '--help'.\n",
    ),
    (
        &["verify", "game.digest"],
        b"error: unexpected argument 'game.digest' found\n\n  tip: the manifest is read from standard input: tas verify --carts roms < movies.manifest\n\nUsage: tas verify [OPTIONS] < MANIFEST\n\nFor more information, try '--help'.\n",
    ),
    (
        &["trace", "game.bin"],
        b"error: invalid value 'game.bin' for '<N>': invalid digit found in string\n\n  tip: the cartridge is read from standard input: tas trace 3 < game.bin\n\nFor more information, try '--help'.\n",
    ),
    (
        &["shot", "game.bin", "60", "7"],
        b"error: unexpected argument '7' found\n\n  tip: the movie is read from standard input: tas shot game.bin 60 < game.movie > frame60.ppm\n\nUsage: tas shot <CART> <K> < MOVIE\n\nFor more information, try '--help'.\n",
    ),
    (
        &["digest", "game.bin", "game.movie"],
        b"error: invalid value 'game.movie' for '[EVERY]': invalid digit found in string\n\n  tip: the movie is read from standard input: tas digest game.bin 600 < game.movie\n\nFor more information, try '--help'.\n",
    ),
    (
        &["compare", "game.bin", "old.movie", "new.movie"],
        b"error: unexpected argument 'new.movie' found\n\n  tip: the newer movie is read from standard input: tas compare game.bin old.movie < new.movie\n\nUsage: tas compare <CART> <OLD> < MOVIE\n\nFor more information, try '--help'.\n",
    ),
    (
        &["edit", "game.bin", "fix.script", "game.movie"],
        b"error: unexpected argument 'game.movie' found\n\n  tip: the movie is read from standard input: tas edit game.bin fix.script -o new.movie < game.movie\n\nUsage: tas edit [OPTIONS] <CART> <SCRIPT> < MOVIE\n\nFor more information, try '--help'.\n",
    ),
    (
        &["script", "game.script"],
        b"error: unexpected argument 'game.script' found\n\n  tip: the script is read from standard input: tas script < game.script\n\nUsage: tas script [OPTIONS] < SCRIPT\n\nFor more information, try '--help'.\n",
    ),
    (
        &["talk", "game.bin", "game.movie", "lines"],
        b"error: unexpected argument 'lines' found\n\n  tip: the conversation is read from standard input: tas talk game.bin game.movie < lines\n\nUsage: tas talk [OPTIONS] [CART] [MOVIE] < LINES\n\nFor more information, try '--help'.\n",
    ),
    (
        &["check", "game.bin", "-"],
        b"error: unexpected argument '-' found\n\n  tip: the movie is read from standard input: tas check game.bin < game.movie\n\nUsage: tas check <CART> < MOVIE\n\nFor more information, try '--help'.\n",
    ),
];

/// Such words with flags beside them: the tip's call has these in the place of its own.
static FLAGGED: [Refused<'static>; 11] = [
    (
        &[
            "edit",
            "game.bin",
            "fix.script",
            "game.movie",
            "-o",
            "out.movie",
        ],
        b"error: unexpected argument 'game.movie' found\n\n  tip: the movie is read from standard input: tas edit game.bin fix.script -o out.movie < game.movie\n\nUsage: tas edit [OPTIONS] <CART> <SCRIPT> < MOVIE\n\nFor more information, try '--help'.\n",
    ),
    (
        &["migrate", "-o=out.movie", "game.bin", "old.movie"],
        b"error: unexpected argument 'old.movie' found\n\n  tip: the movie is read from standard input: tas migrate game.bin -o=out.movie < old.movie\n\nUsage: tas migrate [OPTIONS] <CART> < MOVIE\n\nFor more information, try '--help'.\n",
    ),
    (
        &[
            "recover",
            "--output",
            "-",
            "game.bin",
            "game.journal",
            "--until=9",
        ],
        b"error: unexpected argument 'game.journal' found\n\n  tip: the journal is read from standard input: tas recover game.bin --output - --until=9 < game.journal\n\nUsage: tas recover [OPTIONS] <CART> < JOURNAL\n\nFor more information, try '--help'.\n",
    ),
    (
        &[
            "search",
            "game.bin",
            "60",
            "12",
            "reach 1",
            "game.movie",
            "--names",
            "ram.names",
            "--hold",
            "4",
        ],
        b"error: unexpected argument 'game.movie' found\n\n  tip: the movie is read from standard input: tas search game.bin 60 12 'reach byte:80 == 85' --names ram.names --hold 4 < game.movie\n\nUsage: tas search [OPTIONS] <CART> <FROM> <FRAMES> <GOAL> < MOVIE\n\nFor more information, try '--help'.\n",
    ),
    (
        &[
            "search",
            "--first=1/2",
            "game.bin",
            "game.movie",
            "60",
            "reach 1",
        ],
        b"error: invalid value 'game.movie' for '<FROM>': invalid digit found in string\n\n  tip: the movie is read from standard input: tas search game.bin 60 12 'reach byte:80 == 85' --first=1/2 < game.movie\n\nFor more information, try '--help'.\n",
    ),
    (
        &[
            "ram",
            "game.bin",
            "game.movie",
            "60",
            "--names",
            "ram.names",
        ],
        b"error: invalid value 'game.movie' for '<FROM>': invalid digit found in string\n\n  tip: the movie is read from standard input: tas ram game.bin 1 61 --names ram.names < game.movie\n\nFor more information, try '--help'.\n",
    ),
    (
        &["verify", "--workers", "4", "game.digest"],
        b"error: unexpected argument 'game.digest' found\n\n  tip: the manifest is read from standard input: tas verify --workers 4 < movies.manifest\n\nUsage: tas verify [OPTIONS] < MANIFEST\n\nFor more information, try '--help'.\n",
    ),
    (
        &["cut", "game.bin", "game.movie", "-o", "out.movie", "60"],
        b"error: invalid value 'game.movie' for '<FROM>': invalid digit found in string\n\n  tip: the movie is read from standard input: tas cut game.bin 60 120 -o out.movie < game.movie\n\nFor more information, try '--help'.\n",
    ),
    (
        &[
            "diff",
            "game.bin",
            "old.movie",
            "new.movie",
            "--output",
            "d/fix.script",
        ],
        b"error: unexpected argument 'new.movie' found\n\n  tip: the newer movie is read from standard input: tas diff game.bin old.movie --output d/fix.script < new.movie\n\nUsage: tas diff [OPTIONS] <CART> <OLD> < MOVIE\n\nFor more information, try '--help'.\n",
    ),
    (
        &[
            "script",
            "--cart",
            "game.bin",
            "--movie",
            "game.movie",
            "game.script",
        ],
        b"error: unexpected argument 'game.script' found\n\n  tip: the script is read from standard input: tas script --cart game.bin --movie game.movie < game.script\n\nUsage: tas script [OPTIONS] < SCRIPT\n\nFor more information, try '--help'.\n",
    ),
    (
        &[
            "talk",
            "--journal",
            "a.journal",
            "game.bin",
            "game.movie",
            "lines",
        ],
        b"error: unexpected argument 'lines' found\n\n  tip: the conversation is read from standard input: tas talk game.bin game.movie --journal a.journal < lines\n\nUsage: tas talk [OPTIONS] [CART] [MOVIE] < LINES\n\nFor more information, try '--help'.\n",
    ),
];

/// Words that are refused for other reasons: these texts have no tip of the program's own.
static NO_TIPS: [Refused<'static>; 10] = [
    (
        &["shot", "game.bin"],
        b"error: the following required arguments were not provided:\n  <K>\n\nUsage: tas shot <CART> <K> < MOVIE\n\nFor more information, try '--help'.\n",
    ),
    (
        &["shot", "game.bin", "10000000"],
        b"error: invalid value '10000000' for '<K>': 10000000 is not in 0..=9999999\n\nFor more information, try '--help'.\n",
    ),
    (
        &["check", "--all", "game.bin"],
        b"error: unexpected argument '--all' found\n\n  tip: to pass '--all' as a value, use '-- --all'\n\nUsage: tas check <CART> < MOVIE\n\nFor more information, try '--help'.\n",
    ),
    (
        &["new", "game.bin", "game.movie"],
        b"error: invalid value 'game.movie' for '<FRAMES>': invalid digit found in string\n\nFor more information, try '--help'.\n",
    ),
    (
        &["recover", "game.bin", "--until", "0"],
        b"error: invalid value '0' for '--until <LINE>': 0 is not in 1..=4294967295\n\nFor more information, try '--help'.\n",
    ),
    (
        &["search", "game.bin", "0", "1", "reach 1", "--hold", "x"],
        b"error: invalid value 'x' for '--hold <N>': invalid digit found in string\n\nFor more information, try '--help'.\n",
    ),
    (
        &["search", "game.bin", "0", "1", "reach 1", "--first", "3/2"],
        b"error: invalid value '3/2' for '--first <K/N>': numbers with 1 <= K <= N <= 1000000 are wanted\n\nUsage: tas search [OPTIONS] <CART> <FROM> <FRAMES> <GOAL> < MOVIE\n\nFor more information, try '--help'.\n",
    ),
    (
        &["search", "game.bin", "0", "1", "reach 1", "--first", "-1/2"],
        b"error: unexpected argument '-1' found\n\n  tip: to pass '-1' as a value, use '-- -1'\n\nUsage: tas search [OPTIONS] <CART> <FROM> <FRAMES> <GOAL> < MOVIE\n\nFor more information, try '--help'.\n",
    ),
    (
        &["desk", "game.bin", "game.movie", "in0"],
        b"error: the following required arguments were not provided:\n  <OUT0>\n\nUsage: tas desk [OPTIONS] <CART> <MOVIE> <IN0> <OUT0> [IN1 OUT1] .. [IN7 OUT7]\n\nFor more information, try '--help'.\n",
    ),
    (
        &["xyz", "game.bin"],
        b"error: unrecognized subcommand 'xyz'\n\nUsage: tas <COMMAND>\n\nFor more information, try '--help'.\n",
    ),
];

/// A word too many beside a flag of another command, one without its value, or one that the tip could not have as it was given: no tip.
static NO_FLAGS: [Refused<'static>; 8] = [
    (
        &[
            "edit",
            "game.bin",
            "fix.script",
            "game.movie",
            "--journal",
            "a.journal",
        ],
        b"error: unexpected argument 'game.movie' found\n\nUsage: tas edit [OPTIONS] <CART> <SCRIPT> < MOVIE\n\nFor more information, try '--help'.\n",
    ),
    (
        &["check", "game.bin", "game.movie", "-o", "out.movie"],
        b"error: unexpected argument 'game.movie' found\n\nUsage: tas check <CART> < MOVIE\n\nFor more information, try '--help'.\n",
    ),
    (
        &["migrate", "game.bin", "old.movie", "-o"],
        b"error: unexpected argument 'old.movie' found\n\nUsage: tas migrate [OPTIONS] <CART> < MOVIE\n\nFor more information, try '--help'.\n",
    ),
    (
        &["migrate", "game.bin", "old.movie", "-o", "--output"],
        b"error: unexpected argument 'old.movie' found\n\nUsage: tas migrate [OPTIONS] <CART> < MOVIE\n\nFor more information, try '--help'.\n",
    ),
    (
        &["migrate", "game.bin", "old.movie", "-o", ""],
        b"error: unexpected argument 'old.movie' found\n\nUsage: tas migrate [OPTIONS] <CART> < MOVIE\n\nFor more information, try '--help'.\n",
    ),
    (
        &["migrate", "game.bin", "old.movie", "-o", "my out.movie"],
        b"error: unexpected argument 'old.movie' found\n\nUsage: tas migrate [OPTIONS] <CART> < MOVIE\n\nFor more information, try '--help'.\n",
    ),
    (
        &["migrate", "game.bin", "old.movie", "-oout.movie"],
        b"error: unexpected argument 'old.movie' found\n\nUsage: tas migrate [OPTIONS] <CART> < MOVIE\n\nFor more information, try '--help'.\n",
    ),
    (
        &["migrate", "game.bin", "old.movie", "--", "-o"],
        b"error: unexpected argument 'old.movie' found\n\nUsage: tas migrate [OPTIONS] <CART> < MOVIE\n\nFor more information, try '--help'.\n",
    ),
];

fn check_refused<R: Threads + Wait + Clock + Abort + Sync>(
    rt: &R,
    alloc: Global,
    rows: &[Refused<'_>],
) {
    for (words, text) in rows.iter() {
        let end = (2, b"".as_slice(), *text);
        check_run(rt, alloc, words, only_game(b""), ONE_FRAME, end);
    }
}

#[test]
fn a_word_in_the_place_of_standard_input_gets_a_tip(rt: HostRuntime) {
    check_refused(&rt, rt.alloc(), TIPS.as_slice());
}

#[test]
fn a_tip_has_the_flags_that_were_given(rt: HostRuntime) {
    check_refused(&rt, rt.alloc(), FLAGGED.as_slice());
}

#[test]
fn words_with_other_flags_get_no_tip(rt: HostRuntime) {
    check_refused(&rt, rt.alloc(), NO_FLAGS.as_slice());
}

#[test]
fn other_words_get_no_tip(rt: HostRuntime) {
    check_refused(&rt, rt.alloc(), NO_TIPS.as_slice());
}

/// The commands, and no command.
static COMMANDS: [&str; 20] = [
    "trace", "check", "migrate", "new", "recover", "search", "verify", "shot", "film", "export",
    "ram", "digest", "compare", "lag", "edit", "cut", "diff", "script", "talk", "desk",
];

/// Fails where a line of a text has more than 100 bytes.
fn check_width<R: Abort>(rt: &R, words: &[&str], text: &[u8]) {
    let mut width = 0_usize;
    for byte in text {
        width = if *byte == b'\n' {
            0
        } else {
            width.saturating_add(1)
        };
        check_that(rt, (words, width), width <= 100);
    }
}

/// Fails where a line of the help of these words has more than 100 bytes.
fn check_help<R: Threads + Wait + Clock + Abort + Sync>(rt: &R, alloc: Global, words: &[&str]) {
    let mut written = Vec::new(alloc);
    let mut told = Vec::new(alloc);
    let folder = only_game(b"");
    let status = run(rt, alloc, words, folder, b"", &mut written, &mut told);
    check_same(rt, words, (status, told.len()), (0, 0));
    check_width(rt, words, written.as_slice());
}

#[test]
fn no_line_of_a_help_has_more_than_100_columns(rt: HostRuntime) {
    let alloc = rt.alloc();
    check_help(&rt, alloc, ["--help"].as_slice());
    for command in COMMANDS.iter() {
        check_help(&rt, alloc, [*command, "--help"].as_slice());
    }
}
