//! The file that the movie of a recovery replaces, over files in memory.

use crate::checks::{check_same, check_that};
use crate::desk_files::{Client, DeskFolder, Ordinary, SILENT, Tape, tapes};
use crate::movies::{PLAYFIELD, image_of};
use crate::programs::{AFTER_TWO, JOURNAL, words_of};
use std::alloc::Global;
use std::process::Abort;
use std::sync::Wait;
use std::sync::atomic::{AtomicUsize, Ordering};
use std::thread::Threads;
use std::time::Clock;
use tas_program::{Streams, run_program};
use test_streams::{Failure, Room, Taker};

/// The journal on standard input is this ordinary file, and so is FILE.
const SAME: &[Ordinary<'static>] = &[("new", (1, 1, 99)), ("/dev/stdin", (1, 1, 99))];

const INTO_NEW: &[&str] = &["recover", "game.bin", "-o", "new"];

/// Which words are ordinary files; the room for the report; the status, how many files are opened, what is said, and whether the movie
/// replaces the file, by hand. Neither journal nor cartridge is replaced, and nothing is where the report isn't written whole.
type Saved<'a> = (&'a [Ordinary<'a>], usize, (u8, usize), &'a [u8], bool);

static SAVED: [Saved<'static>; 6] = [
    (&[], 1000, (0, 2), b"recovered: 2 edits\n", true),
    (
        &[("new", (1, 1, 99)), ("/dev/stdin", (1, 2, 99))],
        1000,
        (0, 2),
        b"recovered: 2 edits\n",
        true,
    ),
    (
        SAME,
        1000,
        (2, 0),
        b"fault: FILE: same file as standard input\n",
        false,
    ),
    (
        &[("new", (1, 1, 9)), ("game.bin", (1, 1, 9))],
        1000,
        (2, 0),
        b"fault: FILE: same file as CART\n",
        false,
    ),
    (&[], 18, (1, 1), b"recovered: 2 edits", false),
    (&[], 0, (1, 1), b"", false),
];

/// A desk's folder without pairs.
static CLIENTS: [Client<'static>; 1] = [SILENT];

/// Runs a recovery into a file of this folder: its status. What it says goes to this writer.
fn run_into<R: Threads + Wait + Clock + Abort + Sync>(
    rt: &R,
    alloc: Global,
    folder: &DeskFolder<'_>,
    output: &mut Vec<u8>,
    errors: &mut Taker,
) -> u8 {
    let words = words_of(rt, alloc, INTO_NEW).into_iter();
    let mut streams = Streams {
        input: JOURNAL,
        output,
        errors,
    };
    run_program(rt, alloc, alloc, Ok(words), folder, &mut streams).code()
}

/// A folder of these ordinary files, without pairs.
fn folder_of<'a>(
    game: &'a [u8],
    tapes: &'a [Tape],
    ordinary: &'a [Ordinary<'a>],
) -> DeskFolder<'a> {
    DeskFolder {
        game,
        other: b"",
        clients: CLIENTS.as_slice(),
        tapes,
        ordinary,
        opened: AtomicUsize::new(0),
    }
}

#[test]
fn movies_replace_files(rt: HostRuntime) {
    let alloc = rt.alloc();
    let game = image_of(&rt, alloc, PLAYFIELD.bytes);
    for (number, (ordinary, room, end, line, is_saved)) in SAVED.iter().enumerate() {
        let tapes = tapes(&rt, alloc, 1);
        let folder = folder_of(game.as_slice(), tapes.as_slice(), ordinary);
        let mut output = Vec::new(alloc);
        let mut errors = Taker::new(alloc, 1000, Room::Bytes(*room), Failure::Error);
        let status = run_into(&rt, alloc, &folder, &mut output, &mut errors);
        check_same(&rt, ("line", number), errors.taken.as_slice(), *line);
        let opened = folder.opened.load(Ordering::SeqCst);
        check_same(&rt, ("end", number), (status, opened), *end);
        check_that(&rt, ("silent", number), output.is_empty());
        let text = if *is_saved { AFTER_TWO } else { b"" };
        let holds = tapes.first().is_some_and(|tape| tape.holds(text));
        check_that(&rt, ("file", number), holds);
    }
}
