//! The file that the movie of a conversation replaces, over files in memory: its answers go to standard output.

use crate::checks::{check_same, check_that};
use crate::desk_files::{DeskFolder, Ordinary, Tape, tapes};
use crate::movies::{PLAYFIELD, image_of};
use crate::programs::{ONE_FRAME, TWO_FRAMES, words_of};
use std::alloc::Global;
use std::process::Abort;
use std::sync::Wait;
use std::sync::atomic::AtomicUsize;
use std::thread::Threads;
use std::time::Clock;
use tas_program::{Streams, run_program};
use test_streams::{Failure, Giver, Room, Taker};

/// What standard input has, at which of its reads this fails, counted from 1, and how many bytes standard output takes.
type Client<'a> = (&'a [u8], usize, usize);

/// The words, which of them are ordinary files, the client, the status, the answers, the line, and what the file gets, by hand. The file
/// `other` has the movie of two frames.
type Case<'a> = (
    &'a [&'a str],
    &'a [Ordinary<'a>],
    Client<'a>,
    u8,
    &'a [u8],
    &'a [u8],
    &'a [u8],
);

const MOVIE: &[&str] = &["talk", "game.bin", "other", "-o", "new"];

const ALL: usize = 1000;

/// Nothing replaces the file.
const NONE: &[u8] = b"";

/// The movie of the blank cartridge, 4,096 zeros, without frames.
const BLANK: &[u8] =
    b"a26movie 2\ncart ad7facb2586fc6e966c004d7d1d16b024f5805ff7cb47c7a85dabd8b48892ca7\n";

static CASES: [Case<'static>; 12] = [
    (
        MOVIE,
        &[],
        (b"delete 1 1\nlen\nquit\ndelete 0 1\n", 0, ALL),
        0,
        b"edit 3 len 1\nlen 3 1\n",
        b"",
        ONE_FRAME,
    ),
    // The file is the movie's.
    (
        MOVIE,
        &[("new", (1, 1, 99)), ("other", (1, 1, 99))],
        (b"delete 1 1\n", 0, ALL),
        0,
        b"edit 3 len 1\n",
        b"",
        ONE_FRAME,
    ),
    // A draft that is open is lost, and one that is committed isn't.
    (
        MOVIE,
        &[],
        (b"begin\ndelete 1 1\n", 0, ALL),
        0,
        b"begin 2 2\nedit 3 len 1\n",
        b"",
        TWO_FRAMES,
    ),
    (
        MOVIE,
        &[],
        (b"begin\ndelete 1 1\ncommit\n", 0, ALL),
        0,
        b"begin 2 2\nedit 3 len 1\ncommit 3 1\n",
        b"",
        ONE_FRAME,
    ),
    // A conversation without a movie.
    (
        &["talk", "game.bin", "-o", "new"],
        &[("new", (1, 1, 0))],
        (b"insert 0 1 ..... ..... .....\n", 0, ALL),
        0,
        b"edit 3 len 1\n",
        b"",
        ONE_FRAME,
    ),
    (
        &["talk", "-o", "new"],
        &[],
        (b"", 0, ALL),
        0,
        b"",
        b"",
        BLANK,
    ),
    // A fault of the conversation: what was made is saved, also of the line whose answer isn't out.
    (
        MOVIE,
        &[],
        (b"delete 1 1\n", 2, ALL),
        1,
        b"edit 3 len 1\n",
        b"fault: read failed\n",
        ONE_FRAME,
    ),
    (
        MOVIE,
        &[],
        (b"len\ndelete 1 1\ndelete 0 1\n", 0, 10),
        1,
        b"len 2 2\ned",
        b"fault: write failed after 10 bytes\n",
        ONE_FRAME,
    ),
    // A conversation that doesn't begin.
    (
        &["talk", "game.bin", "none", "-o", "new"],
        &[],
        (b"len\n", 0, ALL),
        1,
        b"",
        b"fault: read failed\n",
        NONE,
    ),
    (
        &["talk", "other", "-o", "new"],
        &[],
        (b"len\n", 0, ALL),
        1,
        b"",
        b"fault: cartridge has 117 bytes\n",
        NONE,
    ),
    // A file that can't be made, whose fault comes before the conversation's.
    (
        &["talk", "game.bin", "other", "-o", "none"],
        &[],
        (b"len\n", 0, ALL),
        1,
        b"len 2 2\n",
        b"fault: FILE: not created\n",
        NONE,
    ),
    (
        &["talk", "game.bin", "other", "-o", "none"],
        &[],
        (b"len\n", 0, 0),
        1,
        b"",
        b"fault: FILE: not created\n",
        NONE,
    ),
];

/// Fails where a conversation ends in another way, or has other answers, or the file gets other bytes.
fn check_case<R: Threads + Wait + Clock + Abort + Sync>(
    rt: &R,
    alloc: Global,
    (number, game, tapes): (usize, &[u8], &[Tape]),
    (words, ordinary, client, status, answers, line, saved): Case<'_>,
) {
    let (lines, fails_at, room) = client;
    let folder = DeskFolder {
        game,
        other: TWO_FRAMES,
        clients: &[],
        tapes,
        ordinary,
        opened: AtomicUsize::new(0),
    };
    let mut errors = Vec::new(alloc);
    let mut streams = Streams {
        input: Giver::new(lines, usize::MAX, fails_at),
        output: Taker::new(alloc, ALL, Room::Bytes(room), Failure::Error),
        errors: &mut errors,
    };
    let words = words_of(rt, alloc, words).into_iter();
    let found = run_program(rt, alloc, alloc, Ok(words), &folder, &mut streams).code();
    check_same(rt, ("status", number), found, status);
    check_same(
        rt,
        ("answers", number),
        streams.output.taken.as_slice(),
        answers,
    );
    drop(streams);
    check_same(rt, ("line", number), errors.as_slice(), line);
    let is_saved = tapes.first().is_some_and(|tape| tape.holds(saved));
    check_that(rt, ("file", number), is_saved);
}

#[test]
fn movies_of_conversations_replace_files(rt: HostRuntime) {
    let alloc = rt.alloc();
    let game = image_of(&rt, alloc, PLAYFIELD.bytes);
    for (number, case) in CASES.iter().enumerate() {
        let tapes = tapes(&rt, alloc, 1);
        let place = (number, game.as_slice(), tapes.as_slice());
        check_case(&rt, alloc, place, *case);
    }
}
