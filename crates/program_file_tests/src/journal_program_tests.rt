//! `tas talk --journal` over files in memory: what the journal has at each end, how the program ends, and which words are refused.

use crate::checks::{check_same, check_that, expect_some};
use crate::desk_files::{Ordinary, Tape, blank_tape};
use crate::journal_files::{AMPLE, Disk, JournalFolder};
use crate::movies::{PLAYFIELD, image_of};
use crate::programs::{ONE_FRAME, TWO_FRAMES, words_of};
use std::alloc::Global;
use std::process::Abort;
use std::sync::Wait;
use std::sync::atomic::{AtomicUsize, Ordering};
use std::thread::Threads;
use std::time::Clock;
use tas_program::{Streams, run_program};
use test_streams::{Failure, Giver, Room, Taker};

/// The journal of the two edits below on the movie of two frames, by hand: the head, which has 215 bytes, and lines of 15 and 33. The
/// digest is another program's.
const JOURNAL: &[u8] =
    b"a26journal 1\nprofile 2\nmovie 117 caf5bdb8fe9e228d8bf98c2d45b125cf280b57a0375b4729c5f3d295e5d56bde\na26movie 2\ncart 820c64e9933496de683a000c5e11f0510fb7b1699b2ce86471295236b284906d\n..... ..... .....\nR.... ..... .....\n0 0 delete 1 1\n1 0 insert 1 1 ....F ..... .....\n";

/// The two edits.
const LINES: &[u8] = b"delete 1 1\ninsert 1 1 ....F ..... .....\n";

/// Their answers.
const BOTH: &[u8] = b"edit 3 len 1\nedit 4 len 2\n";

/// The first answer.
const FIRST: &[u8] = b"edit 3 len 1\n";

/// The movie that both edits make.
const FIRED: &[u8] =
    b"a26movie 2\ncart 820c64e9933496de683a000c5e11f0510fb7b1699b2ce86471295236b284906d\n..... ..... .....\n....F ..... .....\n";

/// Words of a conversation over a movie, with a journal and a file for what is left.
const MOVIE: &[&str] = &["talk", "game.bin", "other", "--journal", "day", "-o", "new"];

const ALL: usize = 1000;

/// Nothing replaces a file, or is written.
const NONE: &[u8] = b"";

/// What standard input has, at which of its reads this fails, counted from 1, and how many bytes standard output takes.
type Client<'a> = (&'a [u8], usize, usize);

/// How the program ends: the status, the answers and the line.
type End<'a> = (u8, &'a [u8], &'a [u8]);

/// What is left: how many bytes of the journal, what replaces the file of the movie, and how many journals were made and removed.
type Left<'a> = (usize, &'a [u8], usize, usize);

/// The words, the disk, the client, and by hand the end and what is left.
type Case<'a> = (&'a [&'a str], Disk, Client<'a>, End<'a>, Left<'a>);

const FULL: &[u8] = b"fault: journal: write failed\n";

const UNSYNCED: &[u8] = b"fault: journal: sync failed\n";

/// A good end, one by `quit`, and those by a failed read or write: the journal has the edits of all answers, and of one that is cut.
static ENDS: [Case<'static>; 5] = [
    (
        MOVIE,
        AMPLE,
        (LINES, 0, ALL),
        (0, BOTH, b""),
        (263, FIRED, 1, 0),
    ),
    (
        MOVIE,
        AMPLE,
        (b"delete 1 1\nquit\ndelete 0 1\n", 0, ALL),
        (0, FIRST, b""),
        (230, ONE_FRAME, 1, 0),
    ),
    (
        MOVIE,
        AMPLE,
        (b"delete 1 1\n", 2, ALL),
        (1, FIRST, b"fault: read failed\n"),
        (230, ONE_FRAME, 1, 0),
    ),
    (
        MOVIE,
        AMPLE,
        (LINES, 0, 5),
        (1, b"edit ", b"fault: write failed after 5 bytes\n"),
        (230, ONE_FRAME, 1, 0),
    ),
    (
        &["talk", "game.bin", "other", "--journal", "day"],
        AMPLE,
        (LINES, 0, ALL),
        (0, BOTH, b""),
        (263, NONE, 1, 0),
    ),
];

/// A journal that can't be written: in the head nothing begins and no journal stays, later the edit that it lacks is in the movie.
static FAILURES: [Case<'static>; 10] = [
    (
        MOVIE,
        Disk { room: 0, ..AMPLE },
        (LINES, 0, ALL),
        (1, b"", FULL),
        (0, NONE, 1, 1),
    ),
    (
        MOVIE,
        Disk { room: 214, ..AMPLE },
        (LINES, 0, ALL),
        (1, b"", FULL),
        (214, NONE, 1, 1),
    ),
    (
        MOVIE,
        Disk { room: 215, ..AMPLE },
        (LINES, 0, ALL),
        (1, b"", FULL),
        (215, ONE_FRAME, 1, 0),
    ),
    (
        MOVIE,
        Disk { room: 229, ..AMPLE },
        (LINES, 0, ALL),
        (1, b"", FULL),
        (229, ONE_FRAME, 1, 0),
    ),
    (
        MOVIE,
        Disk { room: 230, ..AMPLE },
        (LINES, 0, ALL),
        (1, FIRST, FULL),
        (230, FIRED, 1, 0),
    ),
    (
        MOVIE,
        Disk { room: 263, ..AMPLE },
        (LINES, 0, ALL),
        (0, BOTH, b""),
        (263, FIRED, 1, 0),
    ),
    (
        MOVIE,
        Disk { syncs: 0, ..AMPLE },
        (LINES, 0, ALL),
        (1, b"", UNSYNCED),
        (215, NONE, 1, 1),
    ),
    (
        MOVIE,
        Disk { syncs: 1, ..AMPLE },
        (LINES, 0, ALL),
        (1, b"", UNSYNCED),
        (230, ONE_FRAME, 1, 0),
    ),
    (
        MOVIE,
        Disk { syncs: 2, ..AMPLE },
        (LINES, 0, ALL),
        (1, FIRST, UNSYNCED),
        (263, FIRED, 1, 0),
    ),
    (
        MOVIE,
        Disk { syncs: 3, ..AMPLE },
        (LINES, 0, ALL),
        (0, BOTH, b""),
        (263, FIRED, 1, 0),
    ),
];

/// Conversations that don't begin, and one whose movie can't be saved, which is the fault that is reported.
static UNBEGUN: [Case<'static>; 5] = [
    (
        MOVIE,
        Disk {
            room: 0,
            syncs: 0,
            makes: false,
        },
        (LINES, 0, ALL),
        (1, b"", b"fault: journal: not created\n"),
        (0, NONE, 0, 0),
    ),
    (
        &["talk", "game.bin", "none", "--journal", "day", "-o", "new"],
        AMPLE,
        (LINES, 0, ALL),
        (1, b"", b"fault: read failed\n"),
        (0, NONE, 0, 0),
    ),
    (
        &[
            "talk",
            "game.bin",
            "game.bin",
            "--journal",
            "day",
            "-o",
            "new",
        ],
        AMPLE,
        (LINES, 0, ALL),
        (1, b"", b"fault: movie line 1: end\n"),
        (0, NONE, 1, 1),
    ),
    (
        &["talk", "other", "--journal", "day", "-o", "new"],
        AMPLE,
        (LINES, 0, ALL),
        (1, b"", b"fault: cartridge has 117 bytes\n"),
        (0, NONE, 1, 1),
    ),
    (
        &[
            "talk",
            "game.bin",
            "other",
            "--journal",
            "day",
            "-o",
            "none",
        ],
        Disk { room: 215, ..AMPLE },
        (LINES, 0, ALL),
        (1, b"", b"fault: FILE: not created\n"),
        (215, NONE, 1, 0),
    ),
];

/// What a run leaves that is looked at.
#[derive(Clone, Copy)]
struct Tapes<'a> {
    day: &'a Tape,
    saved: &'a Tape,
}

/// A folder of these files.
fn folder_of<'a>(
    game: &'a [u8],
    tapes: Tapes<'a>,
    disk: Disk,
    ordinary: &'a [Ordinary<'a>],
) -> JournalFolder<'a> {
    JournalFolder {
        game,
        other: TWO_FRAMES,
        ordinary,
        day: tapes.day,
        saved: tapes.saved,
        disk,
        synced: AtomicUsize::new(0),
        made: AtomicUsize::new(0),
        removed: AtomicUsize::new(0),
        opened: AtomicUsize::new(0),
    }
}

/// Fails where the program ends in another way over a folder.
fn check_end<R: Threads + Wait + Clock + Abort + Sync>(
    rt: &R,
    alloc: Global,
    case: (&str, usize),
    words: &[&str],
    folder: &JournalFolder<'_>,
    (lines, fails_at, room): Client<'_>,
    (status, answers, line): End<'_>,
) {
    let mut errors = Vec::new(alloc);
    let mut streams = Streams {
        input: Giver::new(lines, usize::MAX, fails_at),
        output: Taker::new(alloc, ALL, Room::Bytes(room), Failure::Error),
        errors: &mut errors,
    };
    let words = words_of(rt, alloc, words).into_iter();
    let found = run_program(rt, alloc, alloc, Ok(words), folder, &mut streams).code();
    check_same(rt, ("status", case), found, status);
    let told = streams.output.taken.as_slice();
    check_same(rt, ("answers", case), told, answers);
    drop(streams);
    check_same(rt, ("line", case), errors.as_slice(), line);
}

/// Fails where a conversation ends in another way or leaves something else.
fn check_case<R: Threads + Wait + Clock + Abort + Sync>(
    rt: &R,
    alloc: Global,
    place: (&str, usize),
    game: &[u8],
    (words, disk, client, end, (kept, saved, made, removed)): Case<'_>,
) {
    let (day, new) = (blank_tape(rt, alloc, 300), blank_tape(rt, alloc, 200));
    let tapes = Tapes {
        day: &day,
        saved: &new,
    };
    let folder = folder_of(game, tapes, disk, &[]);
    check_end(rt, alloc, place, words, &folder, client, end);
    let journal = expect_some(rt, JOURNAL.get(..kept));
    check_that(rt, ("journal", place), day.holds(journal));
    check_that(rt, ("movie", place), new.holds(saved));
    check_same(
        rt,
        ("made", place),
        folder.made.load(Ordering::SeqCst),
        made,
    );
    let gone = folder.removed.load(Ordering::SeqCst);
    check_same(rt, ("removed", place), gone, removed);
}

/// The same of all cases of a table.
fn check_cases<R: Threads + Wait + Clock + Abort + Sync>(
    rt: &R,
    alloc: Global,
    name: &str,
    cases: &[Case<'_>],
) {
    let game = image_of(rt, alloc, PLAYFIELD.bytes);
    for (number, case) in cases.iter().enumerate() {
        check_case(rt, alloc, (name, number), game.as_slice(), *case);
    }
}

#[test]
fn journals_have_what_is_answered(rt: HostRuntime) {
    check_cases(&rt, rt.alloc(), "ends", ENDS.as_slice());
}

#[test]
fn journals_that_fail_end_conversations(rt: HostRuntime) {
    check_cases(&rt, rt.alloc(), "failures", FAILURES.as_slice());
}

#[test]
fn conversations_that_do_not_begin_leave_no_journal(rt: HostRuntime) {
    check_cases(&rt, rt.alloc(), "unbegun", UNBEGUN.as_slice());
}

/// The words of conversations over less than a movie, and their journals of one edit; the digests are another program's.
static STARTS: [(&[&str], &[u8]); 2] = [
    (
        &["talk", "game.bin", "--journal", "day"],
        b"a26journal 1\nprofile 2\nmovie 81 fb847583a619eecec7911b2b741160e9e3384064470d6485b41c6c3b3f8ae3e0\na26movie 2\ncart 820c64e9933496de683a000c5e11f0510fb7b1699b2ce86471295236b284906d\n0 0 insert 0 1 ..... ..... .....\n",
    ),
    (
        &["talk", "--journal=day"],
        b"a26journal 1\nprofile 2\nmovie 81 28a712194b8e9737b187764449c5d5d97c62e6f7f4c5c55bccef3f5aed831e72\na26movie 2\ncart ad7facb2586fc6e966c004d7d1d16b024f5805ff7cb47c7a85dabd8b48892ca7\n0 0 insert 0 1 ..... ..... .....\n",
    ),
];

/// The answers to an edit and `len`, after the two edits of the cartridge, and after none.
static ANSWERS: [&[u8]; 2] = [b"edit 3 len 1\nlen 3 1\n", b"edit 1 len 1\nlen 1 1\n"];

#[test]
fn each_start_has_its_journal(rt: HostRuntime) {
    let alloc = rt.alloc();
    let game = image_of(&rt, alloc, PLAYFIELD.bytes);
    for (number, (words, journal)) in STARTS.iter().enumerate() {
        let (day, new) = (blank_tape(&rt, alloc, 300), blank_tape(&rt, alloc, 1));
        let tapes = Tapes {
            day: &day,
            saved: &new,
        };
        let folder = folder_of(game.as_slice(), tapes, AMPLE, &[]);
        let client = (b"insert 0 1 ..... ..... .....\nlen\n".as_slice(), 0, ALL);
        let answers = *expect_some(&rt, ANSWERS.get(number));
        let end = (0, answers, b"".as_slice());
        check_end(&rt, alloc, ("starts", number), words, &folder, client, end);
        check_that(&rt, ("journal", number), day.holds(journal));
    }
}

/// Words, which of them are ordinary files, and the line.
type Refused<'a> = (&'a [&'a str], &'a [Ordinary<'a>], &'a [u8]);

const EXISTS: &[u8] = b"fault: JOURNAL: file exists\n";

const SAME_NAME: &[u8] = b"fault: FILE: same file as JOURNAL\n";

/// Words that are refused before anything is opened.
static REFUSED: [Refused<'static>; 10] = [
    (MOVIE, &[("day", (1, 1, 0))], EXISTS),
    (MOVIE, &[("day", (1, 1, 263))], EXISTS),
    (&["talk", "--journal", "day"], &[("day", (1, 1, 1))], EXISTS),
    (
        MOVIE,
        &[("day", (1, 1, 5)), ("game.bin", (1, 1, 5))],
        b"fault: JOURNAL: same file as CART\n",
    ),
    (
        MOVIE,
        &[
            ("day", (1, 1, 5)),
            ("game.bin", (2, 1, 5)),
            ("other", (1, 1, 5)),
        ],
        b"fault: JOURNAL: same file as MOVIE\n",
    ),
    (
        MOVIE,
        &[("day", (1, 1, 5)), ("/dev/stdin", (1, 1, 5))],
        EXISTS,
    ),
    (
        MOVIE,
        &[("day", (1, 1, 5)), ("/dev/stdout", (1, 1, 5))],
        EXISTS,
    ),
    (
        &["talk", "game.bin", "other", "--journal", "new", "-o", "new"],
        &[],
        SAME_NAME,
    ),
    (&["talk", "--journal", "new", "-o", "new"], &[], SAME_NAME),
    (
        &["talk", "game.bin", "--journal", "new", "-o", "new"],
        &[("new", (1, 1, 5))],
        b"fault: JOURNAL: file exists\n",
    ),
];

#[test]
fn words_of_a_journal_are_refused(rt: HostRuntime) {
    let alloc = rt.alloc();
    let game = image_of(&rt, alloc, PLAYFIELD.bytes);
    for (number, (words, ordinary, line)) in REFUSED.iter().enumerate() {
        let (day, new) = (blank_tape(&rt, alloc, 1), blank_tape(&rt, alloc, 1));
        let tapes = Tapes {
            day: &day,
            saved: &new,
        };
        let folder = folder_of(game.as_slice(), tapes, AMPLE, ordinary);
        let end = (2, NONE, *line);
        let client = (LINES, 0, ALL);
        check_end(&rt, alloc, ("refused", number), words, &folder, client, end);
        let touched = (
            folder.opened.load(Ordering::SeqCst),
            folder.made.load(Ordering::SeqCst),
            folder.removed.load(Ordering::SeqCst),
        );
        check_same(&rt, ("touched", number), touched, (0, 0, 0));
        check_that(&rt, ("saved", number), new.holds(NONE));
    }
}
