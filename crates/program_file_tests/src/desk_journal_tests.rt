//! `tas desk --journal` over files in memory: what the journal has at each end, how the program ends, and which words are refused.

use crate::checks::{check_same, check_that, expect_some};
use crate::desk_files::{
    Client, DeskFolder, Ordinary, SILENT, Sink, Tape, blank_tape, sends, tapes,
};
use crate::journal_files::{AMPLE, Disk};
use crate::movies::{PLAYFIELD, image_of};
use crate::programs::{ONE_FRAME, TWO_FRAMES, words_of};
use std::alloc::Global;
use std::io;
use std::io::{Error, ErrorKind};
use std::process::Abort;
use std::sync::Wait;
use std::sync::atomic::{AtomicUsize, Ordering};
use std::thread::Threads;
use std::time::Clock;
use tas_program::{Folder, OrdinaryFile, Permit, Streams, run_program};
use test_streams::{Failure, Giver, Room, Taker};

/// A folder of a desk's files in which the file `day` can be made, a journal.
#[derive(Drop)]
struct NotedFolder<'a> {
    desk: DeskFolder<'a>,
    /// What the journal's file gets.
    day: &'a Tape,
    disk: Disk,
    /// How often the journal's file was brought to the disk.
    synced: AtomicUsize,
    /// How many journals were made, and how many removed.
    made: AtomicUsize,
    removed: AtomicUsize,
}

impl<'a> Folder for NotedFolder<'a> {
    type File = Giver<'a>;

    type Sink = Sink<'a>;

    fn look(&self, name: &str) -> Option<OrdinaryFile> {
        self.desk.look(name)
    }

    fn open(&self, name: &str) -> io::Result<Giver<'a>> {
        self.desk.open(name)
    }

    fn open_to_write(&self, permit: Permit, name: &str) -> io::Result<Sink<'a>> {
        self.desk.open_to_write(permit, name)
    }

    fn create_new(&self, _permit: Permit, name: &str) -> io::Result<Sink<'a>> {
        if name != "day" || !self.disk.makes {
            return Err(Error::from(ErrorKind::PermissionDenied));
        }
        self.made.fetch_add(1, Ordering::SeqCst);
        Ok(Sink {
            tape: self.day,
            room: self.disk.room,
        })
    }

    fn sync(&self, _name: &str, _sink: &mut Sink<'a>) -> io::Result<()> {
        if self.synced.fetch_add(1, Ordering::SeqCst) < self.disk.syncs {
            Ok(())
        } else {
            Err(Error::from(ErrorKind::StorageFull))
        }
    }

    fn remove(&self, _permit: Permit, name: &str) {
        if name == "day" {
            self.removed.fetch_add(1, Ordering::SeqCst);
        }
    }
}

/// The journal of the two edits below on the movie of two frames, by hand: the head, which has 215 bytes, and lines of 15 and 33. The
/// digest is another program's.
const JOURNAL: &[u8] =
    b"a26journal 1\nprofile 2\nmovie 117 caf5bdb8fe9e228d8bf98c2d45b125cf280b57a0375b4729c5f3d295e5d56bde\na26movie 2\ncart 820c64e9933496de683a000c5e11f0510fb7b1699b2ce86471295236b284906d\n..... ..... .....\nR.... ..... .....\n0 0 delete 1 1\n1 0 insert 1 1 ....F ..... .....\n";

/// The same where the second pair makes the edits.
const SECONDS: &[u8] =
    b"a26journal 1\nprofile 2\nmovie 117 caf5bdb8fe9e228d8bf98c2d45b125cf280b57a0375b4729c5f3d295e5d56bde\na26movie 2\ncart 820c64e9933496de683a000c5e11f0510fb7b1699b2ce86471295236b284906d\n..... ..... .....\nR.... ..... .....\n0 1 delete 1 1\n1 1 insert 1 1 ....F ..... .....\n";

/// The two edits.
const LINES: &[u8] = b"delete 1 1\ninsert 1 1 ....F ..... .....\n";

/// Their answers.
const BOTH: &[u8] = b"edit 3 len 1\nedit 4 len 2\n";

/// The first answer.
const FIRST: &[u8] = b"edit 3 len 1\n";

/// The movie that both edits make.
const FIRED: &[u8] =
    b"a26movie 2\ncart 820c64e9933496de683a000c5e11f0510fb7b1699b2ce86471295236b284906d\n..... ..... .....\n....F ..... .....\n";

const NONE: &[u8] = b"";

/// One that makes the edits.
const EDITING: Client<'static> = Client {
    lines: LINES,
    ..SILENT
};

/// One that makes the edits, and takes five bytes of the answers.
const DEAF: Client<'static> = Client {
    lines: LINES,
    room: 5,
    ..SILENT
};

/// One whose line is no edit, so that its answer doesn't wait for the journal, nor for what others do.
const ASKING: Client<'static> = Client {
    lines: b"what\n",
    ..SILENT
};

const ONE_PAIR: &[&str] = &[
    "desk",
    "game.bin",
    "other",
    "in0",
    "out0",
    "--journal",
    "day",
];

const TWO_PAIRS: &[&str] = &[
    "desk",
    "game.bin",
    "other",
    "in0",
    "out0",
    "in1",
    "out1",
    "--journal=day",
];

const SEVEN_PAIRS: &[&str] = &[
    "desk",
    "--journal",
    "day",
    "game.bin",
    "other",
    "in0",
    "out0",
    "in1",
    "out1",
    "in2",
    "out2",
    "in3",
    "out3",
    "in4",
    "out4",
    "in5",
    "out5",
    "in6",
    "out6",
];

const EIGHT_PAIRS: &[&str] = &[
    "desk",
    "--journal",
    "day",
    "game.bin",
    "other",
    "in0",
    "out0",
    "in1",
    "out1",
    "in2",
    "out2",
    "in3",
    "out3",
    "in4",
    "out4",
    "in5",
    "out5",
    "in6",
    "out6",
    "in7",
    "out7",
];

/// The words, the disk and the first pairs' clients; and then the status, standard output, the line, what the first pairs' outputs hold, what
/// the journal has, how many journals were made and removed, and how many other files were opened, by hand.
#[derive(Clone, Copy)]
struct Case<'a> {
    words: &'a [&'a str],
    disk: Disk,
    clients: &'a [Client<'a>],
    end: (u8, &'a [u8], &'a [u8]),
    answers: &'a [&'a [u8]],
    journal: &'a [u8],
    kept: usize,
    made: (usize, usize),
    opened: usize,
}

/// One pair whose edits are both answered.
const BOTH_EDITS: Case<'static> = Case {
    words: ONE_PAIR,
    disk: AMPLE,
    clients: &[EDITING],
    end: (0, FIRED, b""),
    answers: &[BOTH],
    journal: JOURNAL,
    kept: 263,
    made: (1, 0),
    opened: 4,
};

/// Good ends, and that of a client which doesn't take its answer: the journal has the edits of all answers, and of one that is cut.
static ENDS: [Case<'static>; 5] = [
    BOTH_EDITS,
    Case {
        clients: &[SILENT],
        end: (0, TWO_FRAMES, b""),
        answers: &[b""],
        kept: 215,
        ..BOTH_EDITS
    },
    Case {
        words: TWO_PAIRS,
        clients: &[ASKING, EDITING],
        answers: &[b"unknown word\n", BOTH],
        journal: SECONDS,
        opened: 6,
        ..BOTH_EDITS
    },
    Case {
        clients: &[DEAF],
        end: (1, ONE_FRAME, b"fault: seat 0: write failed after 5 bytes\n"),
        answers: &[b"edit "],
        kept: 230,
        ..BOTH_EDITS
    },
    Case {
        words: SEVEN_PAIRS,
        opened: 16,
        ..BOTH_EDITS
    },
];

/// A journal whose head can't be written: no pair is opened.
const HEADLESS: Case<'static> = Case {
    end: (1, b"", b"fault: journal: write failed\n"),
    answers: &[b""],
    kept: 0,
    made: (1, 1),
    opened: 2,
    ..BOTH_EDITS
};

/// One that can't be written in its first line: the edit is in the movie, and nothing of its answer is out.
const LINELESS: Case<'static> = Case {
    end: (1, ONE_FRAME, b"fault: seat 0: journal: write failed\n"),
    answers: &[b""],
    kept: 215,
    ..BOTH_EDITS
};

/// A journal that can't be written, or brought to the disk.
static FAILURES: [Case<'static>; 11] = [
    Case {
        disk: Disk { room: 0, ..AMPLE },
        ..HEADLESS
    },
    Case {
        disk: Disk { room: 214, ..AMPLE },
        kept: 214,
        ..HEADLESS
    },
    Case {
        disk: Disk { room: 215, ..AMPLE },
        ..LINELESS
    },
    Case {
        disk: Disk { room: 229, ..AMPLE },
        kept: 229,
        ..LINELESS
    },
    Case {
        disk: Disk { room: 230, ..AMPLE },
        end: (1, FIRED, b"fault: seat 0: journal: write failed\n"),
        answers: &[FIRST],
        kept: 230,
        ..LINELESS
    },
    Case {
        disk: Disk { room: 263, ..AMPLE },
        ..BOTH_EDITS
    },
    Case {
        disk: Disk { syncs: 0, ..AMPLE },
        end: (1, b"", b"fault: journal: sync failed\n"),
        kept: 215,
        ..HEADLESS
    },
    Case {
        disk: Disk { syncs: 1, ..AMPLE },
        end: (1, ONE_FRAME, b"fault: seat 0: journal: sync failed\n"),
        kept: 230,
        ..LINELESS
    },
    Case {
        disk: Disk { syncs: 2, ..AMPLE },
        end: (1, FIRED, b"fault: seat 0: journal: sync failed\n"),
        answers: &[FIRST],
        ..BOTH_EDITS
    },
    Case {
        words: TWO_PAIRS,
        disk: Disk { room: 215, ..AMPLE },
        clients: &[ASKING, EDITING],
        end: (1, ONE_FRAME, b"fault: seat 1: journal: write failed\n"),
        answers: &[b"unknown word\n", b""],
        journal: SECONDS,
        kept: 215,
        opened: 6,
        ..BOTH_EDITS
    },
    Case {
        words: &[
            "desk",
            "game.bin",
            "other",
            "in9",
            "out9",
            "in0",
            "out0",
            "--journal",
            "day",
        ],
        disk: Disk { room: 215, ..AMPLE },
        end: (1, ONE_FRAME, b"fault: seat 0: not opened\n"),
        journal: SECONDS,
        opened: 5,
        ..LINELESS
    },
];

/// Desks that don't begin.
static UNBEGUN: [Case<'static>; 4] = [
    Case {
        disk: Disk {
            room: 0,
            syncs: 0,
            makes: false,
        },
        end: (1, b"", b"fault: journal: not created\n"),
        made: (0, 0),
        ..HEADLESS
    },
    Case {
        words: &[
            "desk",
            "game.bin",
            "none",
            "in0",
            "out0",
            "--journal",
            "day",
        ],
        end: (1, b"", b"fault: read failed\n"),
        made: (0, 0),
        ..HEADLESS
    },
    Case {
        words: &[
            "desk",
            "game.bin",
            "game.bin",
            "in0",
            "out0",
            "--journal",
            "day",
        ],
        end: (1, b"", b"fault: movie line 1: end\n"),
        ..HEADLESS
    },
    Case {
        words: &[
            "desk",
            "other",
            "game.bin",
            "in0",
            "out0",
            "--journal",
            "day",
        ],
        end: (1, b"", b"fault: cartridge has 117 bytes\n"),
        ..HEADLESS
    },
];

/// Fails where a desk ends in another way over a folder.
fn check_end<R: Threads + Wait + Clock + Abort + Sync>(
    rt: &R,
    alloc: Global,
    place: (&str, usize),
    words: &[&str],
    folder: &NotedFolder<'_>,
    (status, written, line): (u8, &[u8], &[u8]),
) {
    let mut errors = Vec::new(alloc);
    let mut streams = Streams {
        input: Giver::new(b"len\n", usize::MAX, 0),
        output: Taker::new(alloc, 1000, Room::Bytes(1000), Failure::Error),
        errors: &mut errors,
    };
    let words = words_of(rt, alloc, words).into_iter();
    let found = run_program(rt, alloc, alloc, Ok(words), folder, &mut streams).code();
    check_same(rt, ("status", place), found, status);
    check_same(rt, ("reads", place), streams.input.reads, 0);
    check_same(
        rt,
        ("movie", place),
        streams.output.taken.as_slice(),
        written,
    );
    drop(streams);
    check_same(rt, ("line", place), errors.as_slice(), line);
}

/// A folder of these files.
fn folder_of<'a>(
    game: &'a [u8],
    clients: &'a [Client<'a>],
    tapes: &'a [Tape],
    ordinary: &'a [Ordinary<'a>],
    day: &'a Tape,
    disk: Disk,
) -> NotedFolder<'a> {
    NotedFolder {
        desk: DeskFolder {
            game,
            other: TWO_FRAMES,
            clients,
            tapes,
            ordinary,
            opened: AtomicUsize::new(0),
        },
        day,
        disk,
        synced: AtomicUsize::new(0),
        made: AtomicUsize::new(0),
        removed: AtomicUsize::new(0),
    }
}

/// Fails where a desk ends in another way or leaves something else.
fn check_case<R: Threads + Wait + Clock + Abort + Sync>(
    rt: &R,
    alloc: Global,
    place: (&str, usize),
    game: &[u8],
    case: &Case<'_>,
) {
    let (day, tapes) = (blank_tape(rt, alloc, 300), tapes(rt, alloc, 8));
    let folder = folder_of(game, case.clients, tapes.as_slice(), &[], &day, case.disk);
    check_end(rt, alloc, place, case.words, &folder, case.end);
    for (pair, answers) in case.answers.iter().enumerate() {
        let tape = expect_some(rt, tapes.get(pair));
        check_that(rt, ("answers", place), tape.holds(answers));
    }
    let journal = expect_some(rt, case.journal.get(..case.kept));
    check_that(rt, ("journal", place), day.holds(journal));
    let made = (
        folder.made.load(Ordering::SeqCst),
        folder.removed.load(Ordering::SeqCst),
    );
    check_same(rt, ("made, removed", place), made, case.made);
    let opened = folder.desk.opened.load(Ordering::SeqCst);
    check_same(rt, ("opened", place), opened, case.opened);
}

/// The same of all cases of a table.
fn check_cases<R: Threads + Wait + Clock + Abort + Sync>(
    rt: &R,
    alloc: Global,
    name: &str,
    cases: &[Case<'_>],
) {
    let game = image_of(rt, alloc, PLAYFIELD.bytes);
    for (number, case) in cases.iter().enumerate() {
        check_case(rt, alloc, (name, number), game.as_slice(), case);
    }
}

#[test]
fn journals_of_desks_have_what_is_answered(rt: HostRuntime) {
    check_cases(&rt, rt.alloc(), "ends", ENDS.as_slice());
}

#[test]
fn journals_that_fail_end_conversations_of_desks(rt: HostRuntime) {
    check_cases(&rt, rt.alloc(), "failures", FAILURES.as_slice());
}

#[test]
fn desks_that_do_not_begin_leave_no_journal(rt: HostRuntime) {
    check_cases(&rt, rt.alloc(), "unbegun", UNBEGUN.as_slice());
}

/// The movie that two edits of two pairs make, whichever is made first.
const FIRE_AND_LEFT: &[u8] =
    b"a26movie 2\ncart 820c64e9933496de683a000c5e11f0510fb7b1699b2ce86471295236b284906d\n....F ..... .....\n.L... ..... .....\n";

/// The lines of these edits, in either order.
static TWO_LINES: [&[u8]; 2] = [
    b"0 0 replace 0 1 ....F ..... .....\n1 1 replace 1 1 .L... ..... .....\n",
    b"0 1 replace 1 1 .L... ..... .....\n1 0 replace 0 1 ....F ..... .....\n",
];

#[test]
fn two_pairs_share_a_journal(rt: HostRuntime) {
    let alloc = rt.alloc();
    let game = image_of(&rt, alloc, PLAYFIELD.bytes);
    let (day, tapes) = (blank_tape(&rt, alloc, 300), tapes(&rt, alloc, 2));
    let clients = [
        sends(b"replace 0 1 ....F ..... .....\n"),
        sends(b"replace 1 1 .L... ..... .....\nquit\n"),
    ];
    let folder = folder_of(
        game.as_slice(),
        clients.as_slice(),
        tapes.as_slice(),
        &[],
        &day,
        AMPLE,
    );
    let end = (0, FIRE_AND_LEFT, b"".as_slice());
    check_end(&rt, alloc, ("two pairs", 0), TWO_PAIRS, &folder, end);
    let head = expect_some(&rt, JOURNAL.get(..215));
    let mut has = false;
    for lines in TWO_LINES {
        let mut journal = Vec::new(alloc);
        for byte in head.iter().chain(lines.iter()) {
            check_that(&rt, "memory", journal.push(*byte).is_ok());
        }
        has = has || day.holds(journal.as_slice());
    }
    check_that(&rt, "one line after the other", has);
}

/// Words, which of them are ordinary files, and the line.
type Refused<'a> = (&'a [&'a str], &'a [Ordinary<'a>], &'a [u8]);

const EXISTS: &[u8] = b"fault: JOURNAL: file exists\n";

/// Words that are refused before anything is opened: a file that is there, that of another word, an eighth pair, and the name of a pair's file.
static REFUSED: [Refused<'static>; 13] = [
    (ONE_PAIR, &[("day", (1, 1, 0))], EXISTS),
    (TWO_PAIRS, &[("day", (1, 1, 263))], EXISTS),
    (
        ONE_PAIR,
        &[("day", (1, 1, 5)), ("game.bin", (1, 1, 5))],
        b"fault: JOURNAL: same file as CART\n",
    ),
    (
        ONE_PAIR,
        &[("day", (1, 1, 5)), ("other", (1, 1, 5))],
        b"fault: JOURNAL: same file as MOVIE\n",
    ),
    (
        TWO_PAIRS,
        &[("day", (1, 1, 5)), ("in1", (1, 1, 5))],
        b"fault: JOURNAL: same file as IN1\n",
    ),
    (
        TWO_PAIRS,
        &[("day", (1, 1, 0)), ("out1", (1, 1, 0))],
        b"fault: JOURNAL: same file as OUT1\n",
    ),
    (
        ONE_PAIR,
        &[("day", (1, 1, 5)), ("/dev/stdout", (1, 1, 5))],
        EXISTS,
    ),
    (
        EIGHT_PAIRS,
        &[],
        b"fault: JOURNAL: takes the seat of IN7 and OUT7\n",
    ),
    (EIGHT_PAIRS, &[("day", (1, 1, 0))], EXISTS),
    (
        &[
            "desk",
            "game.bin",
            "other",
            "day",
            "out0",
            "--journal",
            "day",
        ],
        &[],
        b"fault: JOURNAL: same file as IN0\n",
    ),
    (
        &[
            "desk",
            "game.bin",
            "other",
            "in0",
            "day",
            "--journal",
            "day",
        ],
        &[],
        b"fault: JOURNAL: same file as OUT0\n",
    ),
    (
        &[
            "desk",
            "game.bin",
            "other",
            "in0",
            "out0",
            "day",
            "day",
            "--journal",
            "day",
        ],
        &[],
        b"fault: JOURNAL: same file as IN1\n",
    ),
    (
        &[
            "desk",
            "--journal",
            "day",
            "game.bin",
            "other",
            "in0",
            "out0",
            "in1",
            "out1",
            "in2",
            "out2",
            "in3",
            "out3",
            "in4",
            "out4",
            "in5",
            "out5",
            "in6",
            "day",
        ],
        &[],
        b"fault: JOURNAL: same file as OUT6\n",
    ),
];

#[test]
fn words_of_a_desks_journal_are_refused(rt: HostRuntime) {
    let alloc = rt.alloc();
    let game = image_of(&rt, alloc, PLAYFIELD.bytes);
    for (number, (words, ordinary, line)) in REFUSED.iter().enumerate() {
        let (day, tapes) = (blank_tape(&rt, alloc, 1), tapes(&rt, alloc, 8));
        let folder = folder_of(
            game.as_slice(),
            &[EDITING],
            tapes.as_slice(),
            ordinary,
            &day,
            AMPLE,
        );
        check_end(
            &rt,
            alloc,
            ("refused", number),
            words,
            &folder,
            (2, NONE, *line),
        );
        let touched = (
            folder.desk.opened.load(Ordering::SeqCst),
            folder.made.load(Ordering::SeqCst),
            folder.removed.load(Ordering::SeqCst),
        );
        check_same(&rt, ("touched", number), touched, (0, 0, 0));
    }
}
