//! Each limit of the program at its last value that is taken and its first one that is refused.

use crate::checks::{check_same, check_that, expect_ok};
use crate::movies::{PICTURE, image_of, repeated};
use crate::tails::Tail;
use crate::two_files::{TwoFiles, only_game, run};
use std::alloc::Global;
use std::process::Abort;
use std::sync::Wait;
use std::thread::Threads;
use std::time::Clock;

/// `000=A9028500A90085004C00F0 FFC=00F0`: ends frame after frame by vertical sync, so that they are soon played. Their pictures
/// are black.
const BRIEF: &[u8] = b"\xA9\x02\x85\x00\xA9\x00\x85\x00\x4C\x00\xF0";

/// The head of the older movie texts of this cartridge, with its SHA-256 by another program.
const OLDER_HEAD: &[u8] =
    b"a26movie 1\ncart 6cf6d08d00f622eb70fbc534921dcd728359a14a5b46045bfe15f95ccb9a3543\n";

/// The head of the texts of runs.
const HEAD: &[u8] =
    b"a26movie 2\ncart 6cf6d08d00f622eb70fbc534921dcd728359a14a5b46045bfe15f95ccb9a3543\n";

const FRAME: &[u8] = b"..... ..... .....\n";

/// The most bytes of one input.
const MOST_BYTES: usize = 16_777_216;

/// How the program ends.
#[derive(Clone, Copy)]
enum End {
    /// It writes this many bytes, these last.
    Writes(usize, &'static [u8]),
    /// It writes nothing and tells a fault.
    Faults(&'static [u8]),
    /// It doesn't understand its words.
    Misuse,
}

/// Fails where a run of the program with these words ended in another way: with another status, or with other bytes written or
/// told.
fn check_ran<R: Abort>(rt: &R, words: &[&str], code: u8, output: &Tail, errors: &[u8], end: End) {
    let found = (code, output.bytes);
    match end {
        End::Writes(bytes, last) => {
            check_same(rt, words, found, (0, bytes));
            check_that(rt, words, output.ends_with(last));
            check_that(rt, words, errors.is_empty());
        }
        End::Faults(line) => {
            check_same(rt, words, found, (1, 0));
            check_same(rt, words, errors, line);
        }
        End::Misuse => {
            check_same(rt, words, found, (2, 0));
            check_that(rt, words, errors.starts_with(b"error: "));
        }
    }
}

/// Fails where the program, run with these words over these files, ends in another way.
fn check_end<R: Threads + Wait + Clock + Abort + Sync>(
    rt: &R,
    alloc: Global,
    words: &[&str],
    files: TwoFiles<'_>,
    input: &[u8],
    end: End,
) {
    let mut output = Tail::new();
    let mut errors = Vec::new(alloc);
    let code = run(rt, alloc, words, files, input, &mut output, &mut errors);
    check_ran(rt, words, code, &output, errors.as_slice(), end);
}

/// Words, and how the program then ends.
type Case = (&'static [&'static str], End);

/// Fails where the program, run with each of these words over the cartridge of brief frames, this other file and this input, ends
/// in another way.
fn check_ends<R: Threads + Wait + Clock + Abort + Sync>(
    rt: &R,
    alloc: Global,
    other: &[u8],
    input: &[u8],
    cases: &[Case],
) {
    let game = image_of(rt, alloc, BRIEF);
    let game = game.as_slice();
    for (words, end) in cases {
        check_end(rt, alloc, words, TwoFiles { game, other }, input, *end);
    }
}

/// The same over the older text of a movie with this many frames of nothing pressed.
fn check_older<R: Threads + Wait + Clock + Abort + Sync>(
    rt: &R,
    alloc: Global,
    frames: usize,
    cases: &[Case],
) {
    let text = repeated(rt, alloc, OLDER_HEAD, FRAME, frames);
    check_ends(rt, alloc, b"", text.as_slice(), cases);
}

/// The same over the text of runs with these lines.
fn check_runs<R: Threads + Wait + Clock + Abort + Sync>(
    rt: &R,
    alloc: Global,
    lines: &[u8],
    cases: &[Case],
) {
    let text = repeated(rt, alloc, HEAD, lines, 1);
    check_ends(rt, alloc, b"", text.as_slice(), cases);
}

const NO_FRAME: End = End::Faults(b"fault: no frame 9999999 of 2\n");

const PAST: End = End::Faults(b"fault: range 0 to 9999999 of 2\n");

const TURNED: End = End::Faults(b"fault: range 9999999 to 0 of 2\n");

const BOTH: End = End::Writes(2 * PICTURE, b"\0");

/// Numbers of the words, over a movie of two frames.
static NUMBERS: [Case; 11] = [
    (&["shot", "game.bin", "9999999"], NO_FRAME),
    (&["shot", "game.bin", "10000000"], End::Misuse),
    (&["shot", "game.bin", "1"], End::Writes(PICTURE, b"\0")),
    (&["export", "game.bin", "0", "9999999", "1"], PAST),
    (&["export", "game.bin", "0", "10000000", "1"], End::Misuse),
    (&["export", "game.bin", "9999999", "0", "1"], TURNED),
    (&["export", "game.bin", "10000000", "0", "1"], End::Misuse),
    (&["export", "game.bin", "0", "2", "0"], End::Misuse),
    (&["export", "game.bin", "0", "2", "1"], BOTH),
    (&["export", "game.bin", "0", "2", "16"], BOTH),
    (&["export", "game.bin", "0", "2", "17"], End::Misuse),
];

#[test]
fn numbers_of_the_words(rt: HostRuntime) {
    check_older(&rt, rt.alloc(), 2, NUMBERS.as_slice());
}

/// Instructions of a trace that halts at its first one.
static INSTRUCTIONS: [Case; 3] = [
    (&["trace", "0"], End::Writes(0, b"")),
    (&["trace", "1000000"], End::Writes(13, b"F000 02 halt\n")),
    (&["trace", "1000001"], End::Misuse),
];

#[test]
fn instructions_of_a_trace(rt: HostRuntime) {
    let alloc = rt.alloc();
    // An undocumented opcode at its first instruction ends each trace.
    let halting = image_of(&rt, alloc, b"\x02");
    for (words, end) in INSTRUCTIONS.iter() {
        check_end(&rt, alloc, words, only_game(b""), halting.as_slice(), *end);
    }
}

/// A line has 25 bytes; the last one is the jump at the end of a loop of five instructions.
#[test]
fn lines_of_a_trace(rt: HostRuntime) {
    let alloc = rt.alloc();
    let game = image_of(&rt, alloc, BRIEF);
    let files = only_game(b"");
    let all = End::Writes(25_000_000, b"4C 00 00 00 FD 36 3\n");
    check_end(
        &rt,
        alloc,
        &["trace", "1000000"],
        files,
        game.as_slice(),
        all,
    );
}

/// Over an older text of the most frames.
static OLDER_LONGEST: [Case; 4] = [
    (
        &["check", "game.bin"],
        End::Writes(16, b"ok 65536 frames\n"),
    ),
    (
        &["migrate", "game.bin"],
        End::Writes(106, b"\n..... ..... ..... x65536\n"),
    ),
    (&["shot", "game.bin", "65535"], End::Writes(PICTURE, b"\0")),
    (
        &["shot", "game.bin", "65536"],
        End::Faults(b"fault: no frame 65536 of 65536\n"),
    ),
];

const OLDER_TOO_MANY: End = End::Faults(b"fault: movie line 65539: too many\n");

/// Over an older text of one frame more.
static OLDER_LONGER: [Case; 3] = [
    (&["check", "game.bin"], OLDER_TOO_MANY),
    (&["migrate", "game.bin"], OLDER_TOO_MANY),
    (&["shot", "game.bin", "0"], OLDER_TOO_MANY),
];

#[test]
fn frames_of_an_older_movie(rt: HostRuntime) {
    let alloc = rt.alloc();
    check_older(&rt, alloc, 65_536, OLDER_LONGEST.as_slice());
    check_older(&rt, alloc, 65_537, OLDER_LONGER.as_slice());
}

const ALL_FRAMES: End = End::Writes(17, b"ok 262144 frames\n");

/// Over the text of the most frames in one run.
static LONGEST: [Case; 3] = [
    (&["check", "game.bin"], ALL_FRAMES),
    (&["shot", "game.bin", "262143"], End::Writes(PICTURE, b"\0")),
    (
        &["shot", "game.bin", "262144"],
        End::Faults(b"fault: no frame 262144 of 262144\n"),
    ),
];

/// Over the text of as many in two runs.
static PARTED: [Case; 2] = [
    (&["check", "game.bin"], ALL_FRAMES),
    (
        &["migrate", "game.bin"],
        End::Writes(125, b" x262143\nR.... ..... .....\n"),
    ),
];

/// The text of runs with the most frames, in one run and in two.
#[test]
fn frames_of_a_movie(rt: HostRuntime) {
    let alloc = rt.alloc();
    let longest = b"..... ..... ..... x262144\n";
    check_runs(&rt, alloc, longest, LONGEST.as_slice());
    let parted = b"..... ..... ..... x262143\nR.... ..... .....\n";
    check_runs(&rt, alloc, parted, PARTED.as_slice());
}

const FRAME_FAULT: End = End::Faults(b"fault: movie line 3: frame\n");

const TOO_MANY: End = End::Faults(b"fault: movie line 4: too many\n");

const RUN_FAULT: End = End::Faults(b"fault: movie line 4: run\n");

/// Runs with one frame more than the most, and two that would be one.
static PAST_RUNS: [(&[u8], End); 5] = [
    (b"..... ..... ..... x262145\n", FRAME_FAULT),
    (b"..... ..... ..... x1\n", FRAME_FAULT),
    (b"..... ..... ..... x2\n..... ..... .....\n", RUN_FAULT),
    (b"..... ..... ..... x262144\nR.... ..... .....\n", TOO_MANY),
    (
        b"..... ..... ..... x262143\nR.... ..... ..... x2\n",
        TOO_MANY,
    ),
];

#[test]
fn runs_past_their_limits(rt: HostRuntime) {
    let alloc = rt.alloc();
    for (lines, end) in PAST_RUNS.iter() {
        check_runs(&rt, alloc, lines, &[(&["check", "game.bin"], *end)]);
    }
}

/// The older text of a movie of three frames.
static THREE_FRAMES: &[u8] =
    b"a26movie 1\ncart 6cf6d08d00f622eb70fbc534921dcd728359a14a5b46045bfe15f95ccb9a3543\n..... ..... .....\n..... ..... .....\n..... ..... .....\n";

/// Changes that make it one of the most frames, and longer.
static CHANGES: [(&[u8], End); 2] = [
    (
        b"insert 3 262141 ..... ..... .....\n",
        End::Writes(107, b"\n..... ..... ..... x262144\n"),
    ),
    (
        b"insert 3 262142 ..... ..... .....\n",
        End::Faults(b"fault: script line 1: long\n"),
    ),
];

/// Words that make the changes of the file `other`.
const EDIT: &[&str] = &["edit", "game.bin", "other"];

/// A script at the most frames.
static SCRIPT: &[u8] =
    b"insert 0 262145 ..... ..... .....\ninsert 0 262144 ..... ..... .....\ninsert 0 1 ..... ..... .....\n";

/// Its replies.
const REPLIES: &[u8] = b"long 0 len 0\nedit 1 len 262144\nlong 1 len 262144\n";

static SCRIPTS: [Case; 1] = [(&["script"], End::Writes(REPLIES.len(), REPLIES))];

/// Edits at the most frames, by `tas edit` of a movie of three frames and by `tas script`.
#[test]
fn frames_of_an_edit(rt: HostRuntime) {
    let alloc = rt.alloc();
    for (other, end) in CHANGES.iter() {
        check_ends(&rt, alloc, other, THREE_FRAMES, &[(EDIT, *end)]);
    }
    check_ends(&rt, alloc, b"", SCRIPT, SCRIPTS.as_slice());
}

/// How a script of changes ends that has 12,000 lines before this one: it is made, it is refused, or it isn't understood.
static LATE_CHANGES: [(&[u8], End); 3] = [
    (
        b"replace 2 1 .L... ..... .....\n",
        End::Writes(
            135,
            b"\n..... ..... .....\nR.... ..... .....\n.L... ..... .....\n",
        ),
    ),
    (
        b"delete 3 1\n",
        End::Faults(b"fault: script line 12001: place\n"),
    ),
    (b"delete 3  1\n", End::Faults(b"fault: script line 12001\n")),
];

/// Scripts of changes with many lines, of a movie of three frames.
#[test]
fn many_changes_are_made(rt: HostRuntime) {
    let alloc = rt.alloc();
    let lines = repeated(&rt, alloc, b"", b"replace 1 1 R.... ..... .....\n", 12_000);
    for (last, end) in LATE_CHANGES.iter() {
        let script = repeated(&rt, alloc, lines.as_slice(), last, 1);
        let script = script.as_slice();
        check_ends(&rt, alloc, script, THREE_FRAMES, &[(EDIT, *end)]);
    }
}

/// Exports of a movie of 1025 frames.
static EXPORTS: [Case; 2] = [
    (
        &["export", "game.bin", "0", "1024", "16"],
        End::Writes(1024 * PICTURE, b"\0"),
    ),
    (
        &["export", "game.bin", "0", "1025", "16"],
        End::Faults(b"fault: range 0 to 1025 of 1025\n"),
    ),
];

#[test]
fn frames_of_one_export(rt: HostRuntime) {
    let lines = b"..... ..... ..... x1025\n";
    check_runs(&rt, rt.alloc(), lines, EXPORTS.as_slice());
}

/// How many bytes the replies to this many edits have that leave the movie empty.
fn bytes_of_replies(edits: usize) -> usize {
    let mut bytes = edits.saturating_mul(12);
    let mut least = 1usize;
    for _digit in 0..7u32 {
        bytes = bytes.saturating_add(edits.saturating_add(1).saturating_sub(least));
        least = least.saturating_mul(10);
    }
    bytes
}

/// A million edits, of 11 bytes each, and one more.
#[test]
fn edits_of_a_script(rt: HostRuntime) {
    let alloc = rt.alloc();
    let files = only_game(b"");
    check_same(&rt, "bytes_of_replies", bytes_of_replies(10), 9 * 13 + 14);
    let script = repeated(&rt, alloc, b"", b"delete 0 0\n", 1_000_001);
    let bytes = bytes_of_replies(1_000_000).saturating_add("full 1000000\n".len());
    let end = End::Writes(bytes, b"edit 1000000 len 0\nfull 1000000\n");
    check_end(&rt, alloc, &["script"], files, script.as_slice(), end);
}

/// A file or an input.
#[derive(Clone, Copy)]
enum Bytes {
    /// The cartridge of brief frames.
    Brief,
    /// This many zeros.
    Zeros(usize),
}

fn bytes_of<R: Abort>(rt: &R, alloc: Global, bytes: Bytes) -> Vec<u8> {
    match bytes {
        Bytes::Brief => image_of(rt, alloc, BRIEF),
        Bytes::Zeros(count) => expect_ok(rt, vec![in alloc; 0u8; count]),
    }
}

const MOST: Bytes = Bytes::Zeros(MOST_BYTES);

const MORE: Bytes = Bytes::Zeros(MOST_BYTES + 1);

const NONE: Bytes = Bytes::Zeros(0);

const SIZE: End = End::Faults(b"fault: cartridge has 16777216 bytes\n");

const CUT: End = End::Faults(b"fault: movie line 1: end\n");

const LONG: End = End::Faults(b"fault: input is too long\n");

/// Words, the file `game.bin`, the input, and how the program ends.
static INPUTS: [(&[&str], Bytes, Bytes, End); 6] = [
    (&["trace", "1"], Bytes::Brief, MOST, SIZE),
    (&["trace", "1"], Bytes::Brief, MORE, LONG),
    (&["check", "game.bin"], MOST, NONE, SIZE),
    (&["check", "game.bin"], MORE, NONE, LONG),
    (&["check", "game.bin"], Bytes::Brief, MOST, CUT),
    (&["check", "game.bin"], Bytes::Brief, MORE, LONG),
];

/// As many bytes as one input may have, and one more: of a cartridge, a movie text and a script.
#[test]
fn bytes_of_one_input(rt: HostRuntime) {
    let alloc = rt.alloc();
    for (words, game, input, end) in INPUTS.iter() {
        let game = bytes_of(&rt, alloc, *game);
        let input = bytes_of(&rt, alloc, *input);
        let files = only_game(game.as_slice());
        check_end(&rt, alloc, words, files, input.as_slice(), *end);
    }
}

/// A line that loads a cartridge of this many bytes EA.
fn load_line<R: Abort>(rt: &R, alloc: Global, bytes: usize) -> Vec<u8> {
    let mut line = repeated(rt, alloc, b"load 000=", b"EA", bytes);
    expect_ok(rt, line.push(b'\n'));
    line
}

/// 2,045 lines of 8,202 bytes and one of 4,126.
fn longest_script<R: Abort>(rt: &R, alloc: Global) -> Vec<u8> {
    let line = load_line(rt, alloc, 4096);
    let last = load_line(rt, alloc, 2058);
    let mut script = repeated(rt, alloc, b"", line.as_slice(), 2045);
    expect_ok(rt, script.extend_from_slice(last.as_slice()));
    script
}

/// That script has as many bytes as one may have; with one byte more no line is answered.
#[test]
fn bytes_of_a_script(rt: HostRuntime) {
    let alloc = rt.alloc();
    let files = only_game(b"");
    let mut script = longest_script(&rt, alloc);
    check_same(&rt, "script", script.len(), MOST_BYTES);
    let all = End::Writes(bytes_of_replies(2046), b"edit 2046 len 0\n");
    check_end(&rt, alloc, &["script"], files, script.as_slice(), all);
    expect_ok(&rt, script.push(b'l'));
    check_end(&rt, alloc, &["script"], files, script.as_slice(), LONG);
}
