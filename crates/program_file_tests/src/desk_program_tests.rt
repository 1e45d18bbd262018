//! `tas desk` over pairs of files in memory: answers, the movie, faults and statuses.

use crate::checks::{check_same, check_that, expect_some};
use crate::desk_files::{Client, DeskFolder, SILENT, run_desk, sends, tapes};
use crate::movies::{PLAYFIELD, image_of};
use crate::programs::{ONE_FRAME, TWO_FRAMES};
use std::alloc::Global;
use std::process::Abort;
use std::sync::Wait;
use std::sync::atomic::AtomicUsize;
use std::thread::Threads;
use std::time::Clock;
use test_streams::{Failure, Room, Taker};

/// The movie of one frame after `replace 0 1 R.... ..... .....`.
const RIGHT: &[u8] =
    b"a26movie 2\ncart 820c64e9933496de683a000c5e11f0510fb7b1699b2ce86471295236b284906d\nR.... ..... .....\n";

/// The movie of two frames after `replace 0 1 ....F ..... .....` and `replace 1 1 .L... ..... .....`.
const FIRE_AND_LEFT: &[u8] =
    b"a26movie 2\ncart 820c64e9933496de683a000c5e11f0510fb7b1699b2ce86471295236b284906d\n....F ..... .....\n.L... ..... .....\n";

const PUSH_RIGHT: &[u8] = b"len\nreplace 0 1 R.... ..... .....\nquit\nlen\n";

const PUSHED: &[u8] = b"len 2 1\nedit 3 len 1\n";

/// The words, the movie's text, the clients of the first pairs, how many bytes standard output takes; and then the status, standard
/// output, the line that is told, and what the first pairs' outputs hold, by hand.
#[derive(Clone, Copy)]
struct Case<'a> {
    words: &'a [&'a str],
    movie: &'a [u8],
    clients: &'a [Client<'a>],
    room: usize,
    status: u8,
    output: &'a [u8],
    line: &'a [u8],
    answers: &'a [&'a [u8]],
}

const ONE_PAIR: &[&str] = &["desk", "game.bin", "other", "in0", "out0"];

const TWO_PAIRS: &[&str] = &["desk", "game.bin", "other", "in0", "out0", "in1", "out1"];

const EIGHT_PAIRS: &[&str] = &[
    "desk", "game.bin", "other", "in0", "out0", "in1", "out1", "in2", "out2", "in3", "out3", "in4",
    "out4", "in5", "out5", "in6", "out6", "in7", "out7",
];

/// One that edits and quits.
const PUSHING: Client<'static> = Client {
    lines: PUSH_RIGHT,
    ..SILENT
};

/// One whose only line has no newline.
const WRONG: Client<'static> = Client {
    lines: b"what",
    ..SILENT
};

/// One whose read fails after the first line.
const CUT_OFF: Client<'static> = Client {
    lines: b"len\n",
    fails_at: 2,
    ..SILENT
};

/// One that edits, and takes three bytes of the answer.
const DEAF: Client<'static> = Client {
    lines: b"replace 0 1 R.... ..... .....\nlen\n",
    room: 3,
    ..SILENT
};

/// One pair that edits and quits.
const PUSH: Case<'static> = Case {
    words: ONE_PAIR,
    movie: ONE_FRAME,
    clients: &[PUSHING],
    room: 1000,
    status: 0,
    output: RIGHT,
    line: b"",
    answers: &[PUSHED],
};

/// The same where one of the desk's own files can't be read.
const UNREAD: Case<'static> = Case {
    status: 1,
    output: b"",
    line: b"fault: read failed\n",
    answers: &[b""],
    ..PUSH
};

/// Each status.
static CASES: [Case<'static>; 11] = [
    PUSH,
    Case {
        clients: &[WRONG],
        output: ONE_FRAME,
        answers: &[b"unknown end\n"],
        ..PUSH
    },
    Case {
        words: EIGHT_PAIRS,
        clients: &[],
        output: ONE_FRAME,
        answers: &[b"", b""],
        ..PUSH
    },
    Case {
        words: &["desk", "game.bin", "other", "in0", "out0", "in1", "out9"],
        status: 1,
        line: b"fault: seat 1: not opened\n",
        ..PUSH
    },
    Case {
        words: &["desk", "game.bin", "other", "in9", "out9", "in0", "out0"],
        status: 1,
        line: b"fault: seat 0: not opened\n",
        ..PUSH
    },
    Case {
        clients: &[CUT_OFF],
        status: 1,
        output: ONE_FRAME,
        line: b"fault: seat 0: read failed\n",
        answers: &[b"len 2 1\n"],
        ..PUSH
    },
    Case {
        words: TWO_PAIRS,
        clients: &[DEAF, CUT_OFF],
        status: 1,
        line: b"fault: seat 0: write failed after 3 bytes\n",
        answers: &[b"edi"],
        ..PUSH
    },
    Case {
        words: TWO_PAIRS,
        clients: &[PUSHING, CUT_OFF],
        room: 5,
        status: 1,
        output: b"a26mo",
        line: b"fault: write failed after 5 bytes\n",
        ..PUSH
    },
    Case {
        words: &["desk", "nothing", "other", "in0", "out0"],
        ..UNREAD
    },
    Case {
        words: &["desk", "game.bin", "nothing", "in0", "out0"],
        ..UNREAD
    },
    Case {
        movie: b"a26movie 1\n",
        line: b"fault: movie line 2: end\n",
        ..UNREAD
    },
];

/// Fails where the program over this cartridge ends in another way.
fn check_case<R: Threads + Wait + Clock + Abort + Sync>(
    rt: &R,
    alloc: Global,
    game: &[u8],
    number: usize,
    case: &Case<'_>,
) {
    let tapes = tapes(rt, alloc, 8);
    let folder = DeskFolder {
        game,
        other: case.movie,
        clients: case.clients,
        tapes: tapes.as_slice(),
        ordinary: &[],
        opened: AtomicUsize::new(0),
    };
    let mut output = Taker::new(alloc, 1000, Room::Bytes(case.room), Failure::Error);
    let mut errors = Vec::new(alloc);
    let found = run_desk(rt, alloc, case.words, &folder, &mut output, &mut errors);
    check_same(rt, ("status, reads", number), found, (case.status, 0));
    check_same(rt, number, errors.as_slice(), case.line);
    check_same(rt, number, output.taken.as_slice(), case.output);
    for (pair, answers) in case.answers.iter().enumerate() {
        if let Some(tape) = tapes.get(pair) {
            check_that(rt, ("answers", number), tape.holds(answers));
        }
    }
}

#[test]
fn desks_end_with_their_statuses(rt: HostRuntime) {
    let alloc = rt.alloc();
    let game = image_of(&rt, alloc, PLAYFIELD.bytes);
    for (number, case) in CASES.iter().enumerate() {
        check_case(&rt, alloc, game.as_slice(), number, case);
    }
}

/// The answers to two edits, whichever is made first.
static TWO_ANSWERS: [&[u8]; 2] = [b"edit 3 len 2\n", b"edit 4 len 2\n"];

#[test]
fn two_pairs_edit_one_movie(rt: HostRuntime) {
    let alloc = rt.alloc();
    let game = image_of(&rt, alloc, PLAYFIELD.bytes);
    let tapes = tapes(&rt, alloc, 2);
    let clients = [
        sends(b"replace 0 1 ....F ..... .....\n"),
        sends(b"replace 1 1 .L... ..... .....\nquit\n"),
    ];
    let folder = DeskFolder {
        game: game.as_slice(),
        other: TWO_FRAMES,
        clients: clients.as_slice(),
        tapes: tapes.as_slice(),
        ordinary: &[],
        opened: AtomicUsize::new(0),
    };
    let (mut output, mut errors) = (Vec::new(alloc), Vec::new(alloc));
    let end = run_desk(&rt, alloc, TWO_PAIRS, &folder, &mut output, &mut errors);
    check_same(&rt, "status, reads", end, (0, 0));
    check_same(&rt, "movie", output.as_slice(), FIRE_AND_LEFT);
    check_that(&rt, "no fault", errors.is_empty());
    let one = expect_some(&rt, tapes.get(0));
    let other = expect_some(&rt, tapes.get(1));
    let first = one.holds(TWO_ANSWERS[0]) && other.holds(TWO_ANSWERS[1]);
    let last = one.holds(TWO_ANSWERS[1]) && other.holds(TWO_ANSWERS[0]);
    check_that(&rt, "one edit after the other", first || last);
}
