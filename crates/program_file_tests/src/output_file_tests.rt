//! The file that an output replaces, over files in memory: where it is refused before any file is opened, and what it gets.

use crate::checks::{check_same, check_that, expect_some};
use crate::desk_files::{Client, DeskFolder, Ordinary, SILENT, Tape, tapes};
use crate::movies::{PLAYFIELD, image_of};
use crate::programs::{ONE_FRAME, TWO_FRAMES, words_of};
use std::alloc::Global;
use std::process::Abort;
use std::sync::Wait;
use std::sync::atomic::{AtomicUsize, Ordering};
use std::thread::Threads;
use std::time::Clock;
use tas_program::{Invocation, Streams, carry_out, read_words, run_program};
use test_streams::Giver;

const NEW: &[&str] = &["new", "game.bin", "0", "-o", "new"];

const EDIT: &[&str] = &["edit", "game.bin", "in0", "-o", "new"];

const DIFF: &[&str] = &["diff", "game.bin", "other", "-o", "new"];

const TALK: &[&str] = &["talk", "game.bin", "other", "-o", "new"];

/// The file is that of standard input.
const SAME: &[Ordinary<'static>] = &[("new", (1, 1, 99)), ("/dev/stdin", (1, 1, 99))];

/// The movie of no frames.
const NO_FRAMES: &[u8] =
    b"a26movie 2\ncart 820c64e9933496de683a000c5e11f0510fb7b1699b2ce86471295236b284906d\n";

/// The words, which of them are ordinary files, and the line, by hand.
type Refusal<'a> = (&'a [&'a str], &'a [Ordinary<'a>], &'a [u8]);

/// `new` replaces no file with bytes, nor does a conversation without a movie, and `diff` not the newer movie; of two faults that of one file comes first.
static REFUSALS: [Refusal<'static>; 10] = [
    (DIFF, SAME, b"fault: FILE: same file as standard input\n"),
    (
        DIFF,
        &[("new", (1, 1, 9)), ("other", (1, 1, 9))],
        b"fault: FILE: same file as OLD\n",
    ),
    (
        EDIT,
        &[("new", (1, 1, 9)), ("in0", (1, 1, 9))],
        b"fault: FILE: same file as SCRIPT\n",
    ),
    (NEW, &[("new", (1, 1, 1))], b"fault: FILE: not empty\n"),
    (TALK, SAME, b"fault: FILE: same file as standard input\n"),
    (
        TALK,
        &[("new", (1, 1, 0)), ("/dev/stdout", (1, 1, 0))],
        b"fault: FILE: same file as standard output\n",
    ),
    (
        TALK,
        &[("new", (1, 1, 9)), ("game.bin", (1, 1, 9))],
        b"fault: FILE: same file as CART\n",
    ),
    (
        &["talk", "game.bin", "-o", "new"],
        &[("new", (1, 1, 1))],
        b"fault: FILE: not empty\n",
    ),
    (
        &["talk", "-o", "new"],
        &[("new", (1, 1, 1))],
        b"fault: FILE: not empty\n",
    ),
    (
        NEW,
        &[("new", (1, 1, 9)), ("game.bin", (1, 1, 9))],
        b"fault: FILE: same file as CART\n",
    ),
];

/// The words, which of them are ordinary files, how many files are opened, and what the file gets, by hand. Standard input has the movie of
/// one frame, `in0` a script that inserts a second one, and `other` the movie of two.
type Saved<'a> = (&'a [&'a str], &'a [Ordinary<'a>], usize, &'a [u8]);

static SAVED: [Saved<'static>; 9] = [
    (NEW, &[], 2, NO_FRAMES),
    (NEW, &[("new", (1, 1, 0))], 2, NO_FRAMES),
    (
        NEW,
        &[("new", (1, 1, 0)), ("/dev/stdin", (1, 1, 0))],
        2,
        NO_FRAMES,
    ),
    (EDIT, SAME, 3, TWO_FRAMES),
    (
        &["cut", "game.bin", "0", "1", "-o", "new"],
        SAME,
        2,
        ONE_FRAME,
    ),
    (&["migrate", "game.bin", "-o", "new"], SAME, 2, ONE_FRAME),
    (DIFF, &[], 3, b"delete 1 1\n"),
    (
        DIFF,
        &[("new", (1, 1, 9)), ("/dev/stdin", (1, 2, 9))],
        3,
        b"delete 1 1\n",
    ),
    (
        DIFF,
        &[("new", (1, 1, 9)), ("/dev/stdin", (2, 1, 9))],
        3,
        b"delete 1 1\n",
    ),
];

/// The status, standard output, the line that is told, and how often standard input was read.
#[derive(Drop)]
struct End {
    status: u8,
    output: Vec<u8>,
    line: Vec<u8>,
    reads: usize,
}

/// How the program ends with these words.
fn run<R: Threads + Wait + Clock + Abort + Sync>(
    rt: &R,
    alloc: Global,
    words: &[&str],
    folder: &DeskFolder<'_>,
) -> End {
    let (mut output, mut line) = (Vec::new(alloc), Vec::new(alloc));
    let mut streams = Streams {
        input: Giver::new(ONE_FRAME, usize::MAX, 0),
        output: &mut output,
        errors: &mut line,
    };
    let words = words_of(rt, alloc, words).into_iter();
    let status = run_program(rt, alloc, alloc, Ok(words), folder, &mut streams).code();
    let reads = streams.input.reads;
    End {
        status,
        output,
        line,
        reads,
    }
}

/// How a desk ends that was to replace the file `new`, which no words ask for.
fn save_desk<R: Threads + Wait + Clock + Abort + Sync>(
    rt: &R,
    alloc: Global,
    folder: &DeskFolder<'_>,
) -> End {
    let (mut output, mut line) = (Vec::new(alloc), Vec::new(alloc));
    let mut streams = Streams {
        input: Giver::new(ONE_FRAME, usize::MAX, 0),
        output: &mut output,
        errors: &mut line,
    };
    let words = ["desk", "game.bin", "other", "in0", "out0"];
    let words = words_of(rt, alloc, words.as_slice());
    let order = expect_some(rt, read_words(alloc, words.as_slice()).ok());
    let invocation = Invocation::Save {
        task: order.task,
        file: "new",
    };
    let status = carry_out(rt, alloc, alloc, invocation, folder, &mut streams).code();
    let reads = streams.input.reads;
    End {
        status,
        output,
        line,
        reads,
    }
}

/// A folder of these ordinary files.
fn folder_of<'a>(
    game: &'a [u8],
    tapes: &'a [Tape],
    ordinary: &'a [Ordinary<'a>],
) -> DeskFolder<'a> {
    DeskFolder {
        game,
        other: TWO_FRAMES,
        clients: CLIENTS.as_slice(),
        tapes,
        ordinary,
        opened: AtomicUsize::new(0),
    }
}

static CLIENTS: [Client<'static>; 1] = [Client {
    lines: b"insert 1 1 R.... ..... .....\n",
    ..SILENT
}];

/// Fails where a run ended in another way than with status 2 and this line, nothing opened, read or written.
fn check_refused<R: Abort>(rt: &R, number: usize, folder: &DeskFolder<'_>, end: &End, line: &[u8]) {
    check_same(rt, ("line", number), end.line.as_slice(), line);
    let opened = folder.opened.load(Ordering::SeqCst);
    let found = (end.status, end.reads, opened);
    check_same(rt, ("status, reads, opened", number), found, (2, 0, 0));
    check_that(rt, ("nothing written", number), end.output.is_empty());
}

#[test]
fn files_of_an_output_are_refused(rt: HostRuntime) {
    let alloc = rt.alloc();
    let game = image_of(&rt, alloc, PLAYFIELD.bytes);
    let tapes = tapes(&rt, alloc, 1);
    for (number, (words, ordinary, line)) in REFUSALS.iter().enumerate() {
        let folder = folder_of(game.as_slice(), tapes.as_slice(), ordinary);
        let end = run(&rt, alloc, words, &folder);
        check_refused(&rt, number, &folder, &end, line);
    }
}

#[test]
fn output_of_a_desk_has_its_words_looked_at(rt: HostRuntime) {
    let alloc = rt.alloc();
    let game = image_of(&rt, alloc, PLAYFIELD.bytes);
    let tapes = tapes(&rt, alloc, 1);
    let full = [("out0", (1, 1, 9))];
    let folder = folder_of(game.as_slice(), tapes.as_slice(), full.as_slice());
    let end = save_desk(&rt, alloc, &folder);
    check_refused(&rt, 0, &folder, &end, b"fault: OUT0: not empty\n");
}

#[test]
fn files_of_an_output_are_replaced(rt: HostRuntime) {
    let alloc = rt.alloc();
    let game = image_of(&rt, alloc, PLAYFIELD.bytes);
    for (number, (words, ordinary, opened, text)) in SAVED.iter().enumerate() {
        let tapes = tapes(&rt, alloc, 1);
        let folder = folder_of(game.as_slice(), tapes.as_slice(), ordinary);
        let end = run(&rt, alloc, words, &folder);
        check_same(&rt, ("line", number), end.line.as_slice(), b"".as_slice());
        let found = folder.opened.load(Ordering::SeqCst);
        let found = (end.status, found);
        check_same(&rt, ("status, opened", number), found, (0, *opened));
        check_that(&rt, ("silent", number), end.output.is_empty());
        let is_saved = tapes.first().is_some_and(|tape| tape.holds(text));
        check_that(&rt, ("file", number), is_saved);
    }
}
