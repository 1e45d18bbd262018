//! Faults that name their input: files that can't be opened, inputs of which a read fails or that are too long, and movies' texts at fault, where one
//! movie is read and where two are.

use crate::checks::expect_ok;
use crate::movies::{PLAYFIELD, image_of};
use crate::program_cases::{Refused, check_refused, check_refused_over_playfield};
use crate::programs::{ONE_FRAME, words_of};
use crate::two_files::{TwoFiles, check_ran, check_run};
use std::alloc::Global;
use std::io;
use std::io::{Error, ErrorKind};
use std::process::Abort;
use std::sync::Wait;
use std::thread::Threads;
use std::time::Clock;
use tas_program::{Folder, OrdinaryFile, Permit, Streams, run_program};
use test_streams::{Giver, Taker};

/// Words that compare the movie of the file `other` with the one on standard input.
const COMPARE: &[&str] = &["compare", "game.bin", "other"];

/// The same for the script between them.
const DIFF: &[&str] = &["diff", "game.bin", "other"];

/// Words that make the changes of the file `other`.
const EDIT: &[&str] = &["edit", "game.bin", "other"];

/// Words that write a table of the bytes that have names in the file `other`.
const TABLE: &[&str] = &["ram", "game.bin", "0", "1", "--names", "other"];

/// Words that make the changes of the file `other`, which is the second movie, too.
const EDIT_WITH: &[&str] = &["edit", "game.bin", "other", "--with", "other"];

/// Words that name a file which isn't there, and the line of the fault: that of the first one, whatever else is at fault.
static UNOPENED: [Refused<'static>; 16] = [
    (
        &["ram", "nothing", "0", "1"],
        b"",
        ONE_FRAME,
        b"fault: cartridge: read failed\n",
    ),
    (
        &["ram", "nothing", "0", "1", "--names", "nothing"],
        b"",
        ONE_FRAME,
        b"fault: cartridge: read failed\n",
    ),
    (
        &["ram", "game.bin", "0", "1", "--names", "nothing"],
        b"",
        b"",
        b"fault: names: read failed\n",
    ),
    (
        &["digest", "nothing"],
        b"",
        ONE_FRAME,
        b"fault: cartridge: read failed\n",
    ),
    (
        &["lag", "nothing"],
        b"",
        ONE_FRAME,
        b"fault: cartridge: read failed\n",
    ),
    (
        &["cut", "nothing", "0", "1"],
        b"",
        ONE_FRAME,
        b"fault: cartridge: read failed\n",
    ),
    (
        &["compare", "nothing", "other"],
        b"",
        ONE_FRAME,
        b"fault: cartridge: read failed\n",
    ),
    (
        &["compare", "game.bin", "nothing"],
        b"",
        b"",
        b"fault: old movie: read failed\n",
    ),
    (
        &["diff", "nothing", "nothing"],
        b"",
        ONE_FRAME,
        b"fault: cartridge: read failed\n",
    ),
    (
        &["diff", "game.bin", "nothing"],
        b"",
        b"",
        b"fault: old movie: read failed\n",
    ),
    (
        &["edit", "nothing", "other"],
        b"",
        ONE_FRAME,
        b"fault: cartridge: read failed\n",
    ),
    (
        &["edit", "game.bin", "nothing"],
        b"",
        b"",
        b"fault: script: read failed\n",
    ),
    (
        &["edit", "game.bin", "nothing", "--with", "nothing"],
        b"",
        ONE_FRAME,
        b"fault: script: read failed\n",
    ),
    (
        &["edit", "game.bin", "other", "--with", "nothing"],
        b"",
        b"",
        b"fault: other movie: read failed\n",
    ),
    (
        &["check", "nothing"],
        b"",
        ONE_FRAME,
        b"fault: read failed\n",
    ),
    (
        &["migrate", "nothing"],
        b"",
        ONE_FRAME,
        b"fault: read failed\n",
    ),
];

#[test]
fn files_that_cannot_be_opened_are_named(rt: HostRuntime) {
    check_refused_over_playfield(&rt, rt.alloc(), UNOPENED.as_slice());
}

/// The beginning of a movie's text.
const CUT: &[u8] = b"a26movie 1\n";

/// Texts of which the first, the second or both are at fault; the line names the first one that is, unless it is on standard input.
static TEXTS: [Refused<'static>; 18] = [
    (COMPARE, CUT, ONE_FRAME, b"fault: old movie line 2: end\n"),
    (COMPARE, CUT, b"", b"fault: old movie line 2: end\n"),
    (COMPARE, ONE_FRAME, CUT, b"fault: movie line 2: end\n"),
    (DIFF, CUT, ONE_FRAME, b"fault: old movie line 2: end\n"),
    (DIFF, CUT, b"", b"fault: old movie line 2: end\n"),
    (DIFF, ONE_FRAME, CUT, b"fault: movie line 2: end\n"),
    (
        EDIT_WITH,
        CUT,
        ONE_FRAME,
        b"fault: other movie line 2: end\n",
    ),
    (EDIT_WITH, CUT, b"", b"fault: other movie line 2: end\n"),
    (EDIT_WITH, ONE_FRAME, CUT, b"fault: movie line 2: end\n"),
    (EDIT_WITH, ONE_FRAME, ONE_FRAME, b"fault: script line 1\n"),
    (EDIT, CUT, CUT, b"fault: movie line 2: end\n"),
    (EDIT, CUT, ONE_FRAME, b"fault: script line 1\n"),
    (TABLE, CUT, CUT, b"fault: movie line 2: end\n"),
    (TABLE, CUT, ONE_FRAME, b"fault: names line 1: address\n"),
    (
        &["ram", "game.bin", "0", "1"],
        b"",
        CUT,
        b"fault: movie line 2: end\n",
    ),
    (
        &["digest", "game.bin"],
        b"",
        CUT,
        b"fault: movie line 2: end\n",
    ),
    (
        &["lag", "game.bin"],
        b"",
        CUT,
        b"fault: movie line 2: end\n",
    ),
    (
        &["cut", "game.bin", "0", "1"],
        b"",
        CUT,
        b"fault: movie line 2: end\n",
    ),
];

/// A cartridge's size comes before both texts.
static SIZES: [Refused<'static>; 2] = [
    (DIFF, CUT, CUT, b"fault: cartridge has 7 bytes\n"),
    (EDIT_WITH, CUT, CUT, b"fault: cartridge has 7 bytes\n"),
];

#[test]
fn second_movies_at_fault_are_named(rt: HostRuntime) {
    let alloc = rt.alloc();
    check_refused_over_playfield(&rt, alloc, TEXTS.as_slice());
    check_refused(&rt, alloc, b"1234567", SIZES.as_slice());
}

/// One byte more than an input may have.
const TOO_MANY: usize = 16_777_217;

/// Of several inputs that are too long the first is named.
#[test]
fn inputs_that_are_too_long_are_named(rt: HostRuntime) {
    let alloc = rt.alloc();
    let game = image_of(&rt, alloc, PLAYFIELD.bytes);
    let long = expect_ok(&rt, vec![in alloc; 0u8; TOO_MANY]);
    let (game, long) = (game.as_slice(), long.as_slice());
    let all_long = TwoFiles {
        game: long,
        other: long,
    };
    let other_long = TwoFiles { game, other: long };
    let no_file_long = TwoFiles {
        game,
        other: ONE_FRAME,
    };
    let rows: [(&[&str], TwoFiles<'_>, &[u8]); 7] = [
        (DIFF, all_long, b"fault: cartridge: input is too long\n"),
        (DIFF, other_long, b"fault: old movie: input is too long\n"),
        (
            COMPARE,
            other_long,
            b"fault: old movie: input is too long\n",
        ),
        (EDIT_WITH, other_long, b"fault: script: input is too long\n"),
        (TABLE, other_long, b"fault: names: input is too long\n"),
        (DIFF, no_file_long, b"fault: movie: input is too long\n"),
        (
            EDIT_WITH,
            no_file_long,
            b"fault: movie: input is too long\n",
        ),
    ];
    for row in rows.iter() {
        let (words, folder, line) = *row;
        let end = (1, b"".as_slice(), line);
        check_run(&rt, alloc, words, folder, long, end);
    }
}

/// The script `fix.script`.
const SCRIPT: &[u8] = b"delete 0 1\n";

/// A folder with the files `game.bin`, `fix.script` and `other`; each read of the one with this name fails.
#[derive(Clone, Copy)]
struct Failing<'a> {
    game: &'a [u8],
    name: &'a str,
}

impl<'a> Folder for Failing<'a> {
    type File = Giver<'a>;

    type Sink = Taker;

    fn look(&self, _name: &str) -> Option<OrdinaryFile> {
        None
    }

    fn open(&self, name: &str) -> io::Result<Giver<'a>> {
        let bytes = match name {
            "game.bin" => self.game,
            "fix.script" => SCRIPT,
            "other" => ONE_FRAME,
            _ => return Err(Error::from(ErrorKind::NotFound)),
        };
        Ok(Giver::new(bytes, usize::MAX, usize::from(name == self.name)))
    }

    fn open_to_write(&self, _permit: Permit, _name: &str) -> io::Result<Taker> {
        Err(Error::from(ErrorKind::NotFound))
    }
}

/// Words, the name of the input of which each read fails, and the line of the fault.
type Row = (&'static [&'static str], &'static str, &'static [u8]);

/// The name of standard input among these.
const INPUT: &str = "input";

/// Words with a file for each input.
const EDIT_ALL: &[&str] = &["edit", "game.bin", "fix.script", "--with", "other"];

static UNREAD: [Row; 14] = [
    (DIFF, "game.bin", b"fault: cartridge: read failed\n"),
    (DIFF, "other", b"fault: old movie: read failed\n"),
    (DIFF, INPUT, b"fault: movie: read failed\n"),
    (COMPARE, "other", b"fault: old movie: read failed\n"),
    (EDIT_ALL, "game.bin", b"fault: cartridge: read failed\n"),
    (EDIT_ALL, "fix.script", b"fault: script: read failed\n"),
    (EDIT_ALL, "other", b"fault: other movie: read failed\n"),
    (EDIT_ALL, INPUT, b"fault: movie: read failed\n"),
    (TABLE, "other", b"fault: names: read failed\n"),
    (TABLE, INPUT, b"fault: movie: read failed\n"),
    (
        &["cut", "game.bin", "0", "1"],
        INPUT,
        b"fault: movie: read failed\n",
    ),
    (&["lag", "game.bin"], INPUT, b"fault: movie: read failed\n"),
    (&["check", "game.bin"], "game.bin", b"fault: read failed\n"),
    (&["check", "game.bin"], INPUT, b"fault: read failed\n"),
];

/// Fails where the program ends in another way while each read of one input fails.
fn check_unread_input<T: Threads + Wait + Clock + Abort + Sync>(
    rt: &T,
    alloc: Global,
    game: &[u8],
    row: Row,
) {
    let (words, name, line) = row;
    let folder = Failing { game, name };
    let fails_at = usize::from(name == INPUT);
    let mut output = Vec::new(alloc);
    let mut errors = Vec::new(alloc);
    let mut streams = Streams {
        input: Giver::new(ONE_FRAME, usize::MAX, fails_at),
        output: &mut output,
        errors: &mut errors,
    };
    let given = words_of(rt, alloc, words).into_iter();
    let code = run_program(rt, alloc, alloc, Ok(given), &folder, &mut streams).code();
    drop(streams);
    let found = (code, output.as_slice(), errors.as_slice());
    check_ran(rt, words, found, (1, b"".as_slice(), line));
}

#[test]
fn inputs_whose_reads_fail_are_named(rt: HostRuntime) {
    let alloc = rt.alloc();
    let game = image_of(&rt, alloc, PLAYFIELD.bytes);
    for row in UNREAD.iter() {
        check_unread_input(&rt, alloc, game.as_slice(), *row);
    }
}
