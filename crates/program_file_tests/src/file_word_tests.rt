//! Words that name files: which of them `tas desk` and `tas talk` refuse before they open any, over files in memory.

use crate::checks::{check_same, check_that};
use crate::desk_files::{Client, DeskFolder, Ordinary, SILENT, Tape, run_desk, tapes};
use crate::movies::{PLAYFIELD, image_of};
use crate::programs::ONE_FRAME;
use std::alloc::Global;
use std::process::Abort;
use std::sync::Wait;
use std::sync::atomic::{AtomicUsize, Ordering};
use std::thread::Threads;
use std::time::Clock;

const PAIR: &[&str] = &["desk", "game.bin", "other", "in0", "out0"];

const PAIRS: &[&str] = &["desk", "game.bin", "other", "in0", "out0", "in1", "out1"];

const EIGHT: &[&str] = &[
    "desk", "game.bin", "other", "in0", "out0", "in1", "out1", "in2", "out2", "in3", "out3", "in4",
    "out4", "in5", "out5", "in6", "out6", "in7", "out7",
];

const TALK: &[&str] = &["talk", "game.bin", "other"];

/// The words, which of them are ordinary files, and the line, by hand.
type Refusal<'a> = (&'a [&'a str], &'a [Ordinary<'a>], &'a [u8]);

/// Words that are accepted, which of them are ordinary files, and how the program ends, by hand.
#[derive(Clone, Copy)]
struct Accepted<'a> {
    words: &'a [&'a str],
    ordinary: &'a [Ordinary<'a>],
    opened: usize,
    /// The status, standard output and standard error.
    end: (u8, &'a [u8], &'a [u8]),
    /// How many pairs get an answer.
    pairs: usize,
}

/// A desk's end: the movie, and an answer to each of its pairs.
const DESK: Accepted<'static> = Accepted {
    words: PAIR,
    ordinary: &[],
    opened: 4,
    end: (0, ONE_FRAME, b""),
    pairs: 1,
};

/// A conversation's end: its answer.
const CONVERSATION: Accepted<'static> = Accepted {
    words: TALK,
    ordinary: &[],
    opened: 2,
    end: (0, ANSWER, b""),
    pairs: 0,
};

/// The answer to `len`.
const ANSWER: &[u8] = b"len 2 1\n";

/// An output with bytes; two words of one file, each kind with each; pairs up to the last one; and of two faults that of the first word.
static REFUSALS: [Refusal<'static>; 34] = [
    (PAIR, &[("out0", (1, 1, 1))], b"fault: OUT0: not empty\n"),
    (PAIRS, &[("out1", (1, 1, 9))], b"fault: OUT1: not empty\n"),
    (
        PAIR,
        &[("game.bin", (1, 1, 4096)), ("other", (1, 1, 4096))],
        b"fault: MOVIE: same file as CART\n",
    ),
    (
        PAIR,
        &[("game.bin", (1, 1, 4096)), ("in0", (1, 1, 4096))],
        b"fault: IN0: same file as CART\n",
    ),
    (
        PAIR,
        &[("game.bin", (1, 1, 4096)), ("out0", (1, 1, 4096))],
        b"fault: OUT0: same file as CART\n",
    ),
    (
        PAIR,
        &[("game.bin", (1, 1, 4096)), ("/dev/stdout", (1, 1, 4096))],
        b"fault: standard output: same file as CART\n",
    ),
    (
        PAIR,
        &[("other", (1, 1, 90)), ("in0", (1, 1, 90))],
        b"fault: IN0: same file as MOVIE\n",
    ),
    (
        PAIR,
        &[("other", (1, 1, 90)), ("out0", (1, 1, 90))],
        b"fault: OUT0: same file as MOVIE\n",
    ),
    (
        PAIR,
        &[("in0", (1, 1, 0)), ("out0", (1, 1, 0))],
        b"fault: OUT0: same file as IN0\n",
    ),
    (
        PAIRS,
        &[("in0", (1, 1, 5)), ("in1", (1, 1, 5))],
        b"fault: IN1: same file as IN0\n",
    ),
    (
        PAIRS,
        &[("out0", (1, 1, 0)), ("in1", (1, 1, 0))],
        b"fault: IN1: same file as OUT0\n",
    ),
    (
        PAIRS,
        &[("out0", (1, 1, 0)), ("out1", (1, 1, 0))],
        b"fault: OUT1: same file as OUT0\n",
    ),
    (
        PAIR,
        &[("other", (1, 1, 9)), ("/dev/stdout", (1, 1, 9))],
        b"fault: standard output: same file as MOVIE\n",
    ),
    (
        PAIR,
        &[("in0", (1, 1, 5)), ("/dev/stdout", (1, 1, 5))],
        b"fault: standard output: same file as IN0\n",
    ),
    (
        PAIR,
        &[("out0", (1, 1, 0)), ("/dev/stdout", (1, 1, 0))],
        b"fault: standard output: same file as OUT0\n",
    ),
    (
        PAIRS,
        &[("in0", (1, 1, 9)), ("out0", (1, 1, 9)), ("in1", (1, 1, 9))],
        b"fault: OUT0: same file as IN0\n",
    ),
    (
        PAIRS,
        &[
            ("game.bin", (1, 1, 9)),
            ("in1", (1, 2, 9)),
            ("in0", (1, 2, 9)),
            ("out1", (1, 1, 9)),
        ],
        b"fault: IN1: same file as IN0\n",
    ),
    (
        PAIRS,
        &[("out0", (1, 2, 9)), ("in1", (1, 2, 9))],
        b"fault: OUT0: not empty\n",
    ),
    (
        PAIRS,
        &[
            ("game.bin", (1, 3, 9)),
            ("in0", (1, 3, 9)),
            ("out0", (1, 3, 9)),
        ],
        b"fault: IN0: same file as CART\n",
    ),
    (
        EIGHT,
        &[("in2", (1, 1, 0)), ("out3", (1, 1, 0))],
        b"fault: OUT3: same file as IN2\n",
    ),
    (
        EIGHT,
        &[("out2", (1, 1, 0)), ("in3", (1, 1, 0))],
        b"fault: IN3: same file as OUT2\n",
    ),
    (
        EIGHT,
        &[("in4", (1, 1, 0)), ("out5", (1, 1, 0))],
        b"fault: OUT5: same file as IN4\n",
    ),
    (
        EIGHT,
        &[("out4", (1, 1, 0)), ("in5", (1, 1, 0))],
        b"fault: IN5: same file as OUT4\n",
    ),
    (
        EIGHT,
        &[("in6", (1, 1, 0)), ("out7", (1, 1, 0))],
        b"fault: OUT7: same file as IN6\n",
    ),
    (
        EIGHT,
        &[("out6", (1, 1, 0)), ("in7", (1, 1, 0))],
        b"fault: IN7: same file as OUT6\n",
    ),
    (EIGHT, &[("out7", (1, 1, 1))], b"fault: OUT7: not empty\n"),
    (
        EIGHT,
        &[
            ("out2", (1, 1, 0)),
            ("out5", (1, 1, 0)),
            ("out4", (1, 2, 1)),
        ],
        b"fault: OUT4: not empty\n",
    ),
    (
        TALK,
        &[("/dev/stdin", (1, 1, 5)), ("/dev/stdout", (1, 1, 5))],
        b"fault: standard output: same file as standard input\n",
    ),
    (
        &["talk"],
        &[("/dev/stdin", (1, 1, 5)), ("/dev/stdout", (1, 1, 5))],
        b"fault: standard output: same file as standard input\n",
    ),
    (
        TALK,
        &[("other", (1, 1, 5)), ("/dev/stdout", (1, 1, 5))],
        b"fault: standard output: same file as MOVIE\n",
    ),
    (
        &["talk", "game.bin"],
        &[("game.bin", (1, 1, 5)), ("/dev/stdout", (1, 1, 5))],
        b"fault: standard output: same file as CART\n",
    ),
    (
        TALK,
        &[("game.bin", (1, 1, 5)), ("/dev/stdin", (1, 1, 5))],
        b"fault: standard input: same file as CART\n",
    ),
    (
        TALK,
        &[("other", (1, 1, 5)), ("/dev/stdin", (1, 1, 5))],
        b"fault: standard input: same file as MOVIE\n",
    ),
    (
        TALK,
        &[("game.bin", (1, 1, 5)), ("other", (1, 1, 5))],
        b"fault: MOVIE: same file as CART\n",
    ),
];

/// What is no fault: no ordinary file at all, empty outputs, eight pairs of different files, another device, standard input beside a desk,
/// standard output with bytes, and words of a task that isn't looked at.
static ACCEPTED: [Accepted<'static>; 9] = [
    DESK,
    Accepted {
        ordinary: &[("out0", (1, 1, 0))],
        ..DESK
    },
    Accepted {
        words: PAIRS,
        ordinary: &[
            ("game.bin", (1, 1, 9)),
            ("other", (1, 2, 9)),
            ("in0", (1, 3, 9)),
            ("out0", (1, 4, 0)),
            ("in1", (1, 5, 9)),
            ("out1", (1, 6, 0)),
            ("/dev/stdout", (1, 7, 9)),
        ],
        opened: 6,
        pairs: 2,
        ..DESK
    },
    Accepted {
        words: EIGHT,
        ordinary: &[
            ("game.bin", (1, 1, 9)),
            ("other", (1, 2, 9)),
            ("in0", (1, 3, 9)),
            ("out0", (1, 4, 0)),
            ("in1", (1, 5, 9)),
            ("out1", (1, 6, 0)),
            ("in2", (1, 7, 9)),
            ("out2", (1, 8, 0)),
            ("in3", (1, 9, 9)),
            ("out3", (1, 10, 0)),
            ("in4", (1, 11, 9)),
            ("out4", (1, 12, 0)),
            ("in5", (1, 13, 9)),
            ("out5", (1, 14, 0)),
            ("in6", (1, 15, 9)),
            ("out6", (1, 16, 0)),
            ("in7", (1, 17, 9)),
            ("out7", (1, 18, 0)),
            ("/dev/stdout", (1, 19, 9)),
        ],
        opened: 18,
        pairs: 8,
        ..DESK
    },
    Accepted {
        ordinary: &[("game.bin", (1, 1, 9)), ("other", (2, 1, 9))],
        ..DESK
    },
    Accepted {
        ordinary: &[("out0", (1, 1, 0)), ("/dev/stdin", (1, 1, 0))],
        ..DESK
    },
    Accepted {
        ordinary: &[("/dev/stdout", (1, 1, 9))],
        ..CONVERSATION
    },
    Accepted {
        ordinary: &[("/dev/stdin", (1, 1, 9)), ("/dev/stdout", (2, 1, 9))],
        ..CONVERSATION
    },
    Accepted {
        words: &["check", "game.bin"],
        ordinary: &[("game.bin", (1, 1, 9)), ("/dev/stdout", (1, 1, 9))],
        opened: 1,
        end: (1, b"", b"fault: movie line 1: head\n"),
        pairs: 0,
    },
];

/// Eight programs that ask for the movie's length.
static CLIENTS: [Client<'static>; 8] = [Client {
    lines: b"len\n",
    ..SILENT
}; 8];

/// A folder of these ordinary files, with this cartridge and a movie of one frame.
fn folder_of<'a>(
    game: &'a [u8],
    tapes: &'a [Tape],
    ordinary: &'a [Ordinary<'a>],
) -> DeskFolder<'a> {
    DeskFolder {
        game,
        other: ONE_FRAME,
        clients: CLIENTS.as_slice(),
        tapes,
        ordinary,
        opened: AtomicUsize::new(0),
    }
}

/// Fails where the program over this cartridge ends in another way than with status 2 and this line, nothing opened, read or written.
fn check_refusal<R: Threads + Wait + Clock + Abort + Sync>(
    rt: &R,
    alloc: Global,
    game: &[u8],
    number: usize,
    (words, ordinary, line): Refusal<'_>,
) {
    let tapes = tapes(rt, alloc, 8);
    let folder = folder_of(game, tapes.as_slice(), ordinary);
    let (mut output, mut errors) = (Vec::new(alloc), Vec::new(alloc));
    let end = run_desk(rt, alloc, words, &folder, &mut output, &mut errors);
    check_same(rt, ("line", number), errors.as_slice(), line);
    check_same(rt, ("status, reads", number), end, (2, 0));
    let opened = folder.opened.load(Ordering::SeqCst);
    check_same(rt, ("opened", number), opened, 0);
    check_that(rt, ("nothing written", number), output.is_empty());
}

/// Fails where the program over this cartridge ends in another way, or opens another number of files, or a pair has another answer.
fn check_accepted<R: Threads + Wait + Clock + Abort + Sync>(
    rt: &R,
    alloc: Global,
    game: &[u8],
    number: usize,
    case: Accepted<'_>,
) {
    let tapes = tapes(rt, alloc, 8);
    let folder = folder_of(game, tapes.as_slice(), case.ordinary);
    let (mut output, mut errors) = (Vec::new(alloc), Vec::new(alloc));
    let (status, _) = run_desk(rt, alloc, case.words, &folder, &mut output, &mut errors);
    let end = (status, output.as_slice(), errors.as_slice());
    check_same(rt, ("end", number), end, case.end);
    let opened = folder.opened.load(Ordering::SeqCst);
    check_same(rt, ("opened", number), opened, case.opened);
    for (pair, tape) in tapes.iter().enumerate() {
        let answer = if pair < case.pairs { ANSWER } else { b"" };
        check_that(rt, ("answer", number, pair), tape.holds(answer));
    }
}

#[test]
fn words_of_one_file_are_refused(rt: HostRuntime) {
    let alloc = rt.alloc();
    let game = image_of(&rt, alloc, PLAYFIELD.bytes);
    for (number, case) in REFUSALS.iter().enumerate() {
        check_refusal(&rt, alloc, game.as_slice(), number, *case);
    }
}

#[test]
fn words_of_different_files_are_accepted(rt: HostRuntime) {
    let alloc = rt.alloc();
    let game = image_of(&rt, alloc, PLAYFIELD.bytes);
    for (number, case) in ACCEPTED.iter().enumerate() {
        check_accepted(&rt, alloc, game.as_slice(), number, *case);
    }
}
