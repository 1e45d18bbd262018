//! `tas recover`: the movie on standard output, the report on standard error, and the fault of each input.

use crate::checks::{check_same, check_that};
use crate::movies::{PLAYFIELD, image_of};
use crate::programs::{AFTER_TWO, JOURNAL, ONE_FRAME};
use crate::two_files::{End, check_run, only_game, run};
use test_streams::{Failure, Room, Taker};

/// The journal of two edits, and a last line that was cut.
const CUT: &[u8] =
    b"a26journal 1\nprofile 2\nmovie 99 a1ca090e446f626d5db5253eb1e9fbe96e54cc24cfad52f15d02d7a58a607432\na26movie 2\ncart 820c64e9933496de683a000c5e11f0510fb7b1699b2ce86471295236b284906d\n..... ..... .....\n0 0 insert 1 2 R.... ..... .....\n1 3 delete 0 2\n2 0 del";

/// The movie that its first edit makes.
const AFTER_ONE: &[u8] =
    b"a26movie 2\ncart 820c64e9933496de683a000c5e11f0510fb7b1699b2ce86471295236b284906d\n..... ..... .....\nR.... ..... ..... x2\n";

const RECOVER: &[&str] = &["recover", "game.bin"];

/// The words, the journal, the movie and the report, by hand.
type Row<'a> = (&'a [&'a str], &'a [u8], &'a [u8], &'a [u8]);

static MOVIES: [Row<'static>; 11] = [
    (RECOVER, JOURNAL, AFTER_TWO, b"recovered: 2 edits\n"),
    (
        RECOVER,
        CUT,
        AFTER_TWO,
        b"recovered: 2 edits; a last line was cut\n",
    ),
    (
        &["recover", "game.bin", "--until", "8"],
        JOURNAL,
        AFTER_ONE,
        b"recovered: 1 edits\n",
    ),
    (
        &["recover", "--until=8", "game.bin"],
        CUT,
        AFTER_ONE,
        b"recovered: 1 edits\n",
    ),
    (
        &["recover", "game.bin", "--until", "9"],
        CUT,
        AFTER_TWO,
        b"recovered: 2 edits\n",
    ),
    (
        &["recover", "game.bin", "--until", "10"],
        CUT,
        AFTER_TWO,
        b"recovered: 2 edits; a last line was cut\n",
    ),
    (
        &["recover", "game.bin", "--until", "4294967295"],
        CUT,
        AFTER_TWO,
        b"recovered: 2 edits; a last line was cut\n",
    ),
    (
        &["recover", "game.bin", "--until", "7"],
        JOURNAL,
        ONE_FRAME,
        b"recovered: 0 edits\n",
    ),
    (
        &["recover", "game.bin", "--until", "1"],
        JOURNAL,
        ONE_FRAME,
        b"recovered: 0 edits\n",
    ),
    // No edit, and one that is cut.
    (
        RECOVER,
        b"a26journal 1\nprofile 2\nmovie 99 a1ca090e446f626d5db5253eb1e9fbe96e54cc24cfad52f15d02d7a58a607432\na26movie 2\ncart 820c64e9933496de683a000c5e11f0510fb7b1699b2ce86471295236b284906d\n..... ..... .....\n0",
        ONE_FRAME,
        b"recovered: 0 edits; a last line was cut\n",
    ),
    // The line at fault is left out.
    (
        &["recover", "game.bin", "--until", "7"],
        b"a26journal 1\nprofile 2\nmovie 99 a1ca090e446f626d5db5253eb1e9fbe96e54cc24cfad52f15d02d7a58a607432\na26movie 2\ncart 820c64e9933496de683a000c5e11f0510fb7b1699b2ce86471295236b284906d\n..... ..... .....\nwhat\n",
        ONE_FRAME,
        b"recovered: 0 edits\n",
    ),
];

#[test]
fn movies_and_reports(rt: HostRuntime) {
    let alloc = rt.alloc();
    let game = image_of(&rt, alloc, PLAYFIELD.bytes);
    for (words, journal, movie, report) in MOVIES.iter() {
        let folder = only_game(game.as_slice());
        let end: End<'_> = (0, movie, report);
        check_run(&rt, alloc, words, folder, journal, end);
    }
}

/// The words, the journal and the fault, by hand.
type Fault<'a> = (&'a [&'a str], &'a [u8], &'a [u8]);

/// The first line at fault of each part of a journal, and inputs that are no journal's; `other` is empty, and `none` isn't there.
static FAULTS: [Fault<'static>; 12] = [
    (&["recover", "none"], JOURNAL, b"fault: read failed\n"),
    (
        &["recover", "other"],
        b"what",
        b"fault: cartridge has 0 bytes\n",
    ),
    (RECOVER, b"", b"fault: journal line 1: head\n"),
    (RECOVER, ONE_FRAME, b"fault: journal line 1: head\n"),
    (
        RECOVER,
        b"a26journal 1\nprofile 1\n",
        b"fault: journal line 2: profile\n",
    ),
    (
        RECOVER,
        b"a26journal 1\nprofile 2\nmovie 99 a1ca\n",
        b"fault: journal line 3: movie\n",
    ),
    // The movie of another cartridge.
    (
        RECOVER,
        b"a26journal 1\nprofile 2\nmovie 102 43664d8aaf9fba22cf19cef088368c3153291d01d48b007673f6c423589c8bd4\na26movie 2\ncart ad7facb2586fc6e966c004d7d1d16b024f5805ff7cb47c7a85dabd8b48892ca7\n..... ..... ..... x4\n",
        b"fault: journal line 5: digest\n",
    ),
    (
        RECOVER,
        b"a26journal 1\nprofile 2\nmovie 99 a1ca090e446f626d5db5253eb1e9fbe96e54cc24cfad52f15d02d7a58a607432\na26movie 2\ncart 820c64e9933496de683a000c5e11f0510fb7b1699b2ce86471295236b284906d\n..... ..... .....\n1 0 delete 0 1\n",
        b"fault: journal line 7: number\n",
    ),
    (
        RECOVER,
        b"a26journal 1\nprofile 2\nmovie 99 a1ca090e446f626d5db5253eb1e9fbe96e54cc24cfad52f15d02d7a58a607432\na26movie 2\ncart 820c64e9933496de683a000c5e11f0510fb7b1699b2ce86471295236b284906d\n..... ..... .....\n0 0 delete 0 1\n1 0 len\n",
        b"fault: journal line 8: edit\n",
    ),
    (
        RECOVER,
        b"a26journal 1\nprofile 2\nmovie 99 a1ca090e446f626d5db5253eb1e9fbe96e54cc24cfad52f15d02d7a58a607432\na26movie 2\ncart 820c64e9933496de683a000c5e11f0510fb7b1699b2ce86471295236b284906d\n..... ..... .....\n0 0 delete 0 2\n",
        b"fault: journal line 7: place 0 of 1\n",
    ),
    (
        RECOVER,
        b"a26journal 1\nprofile 2\nmovie 99 a1ca090e446f626d5db5253eb1e9fbe96e54cc24cfad52f15d02d7a58a607432\na26movie 2\ncart 820c64e9933496de683a000c5e11f0510fb7b1699b2ce86471295236b284906d\n..... ..... .....\n0 0 insert 0 262144 ..... ..... .....\n",
        b"fault: journal line 7: too long at 1\n",
    ),
    // Lines after the one at fault aren't looked at, nor is it left out by a later one.
    (
        &["recover", "game.bin", "--until", "8"],
        b"a26journal 1\nprofile 2\nmovie 99 a1ca090e446f626d5db5253eb1e9fbe96e54cc24cfad52f15d02d7a58a607432\na26movie 2\ncart 820c64e9933496de683a000c5e11f0510fb7b1699b2ce86471295236b284906d\n..... ..... .....\nwhat\n0 0 delete 0 1\n",
        b"fault: journal line 7: number\n",
    ),
];

#[test]
fn first_fault_of_the_inputs(rt: HostRuntime) {
    let alloc = rt.alloc();
    let game = image_of(&rt, alloc, PLAYFIELD.bytes);
    for (words, journal, line) in FAULTS.iter() {
        let folder = only_game(game.as_slice());
        check_run(&rt, alloc, words, folder, journal, (1, b"", line));
    }
}

#[test]
fn movie_that_cannot_be_written_is_a_fault(rt: HostRuntime) {
    let alloc = rt.alloc();
    let game = image_of(&rt, alloc, PLAYFIELD.bytes);
    let folder = only_game(game.as_slice());
    let mut output = Taker::new(alloc, 1000, Room::Bytes(10), Failure::Error);
    let mut errors = Vec::new(alloc);
    let code = run(
        &rt,
        alloc,
        RECOVER,
        folder,
        JOURNAL,
        &mut output,
        &mut errors,
    );
    let line = b"fault: write failed after 10 bytes\n".as_slice();
    check_same(&rt, "end", (code, errors.as_slice()), (1, line));
    let first = b"a26movie 2".as_slice();
    check_same(&rt, "movie", output.taken.as_slice(), first);
}

/// The report, which says whether a line was cut, belongs to the answer.
#[test]
fn report_that_cannot_be_written_is_a_fault(rt: HostRuntime) {
    let alloc = rt.alloc();
    let game = image_of(&rt, alloc, PLAYFIELD.bytes);
    let folder = only_game(game.as_slice());
    let mut output = Vec::new(alloc);
    let mut errors = Taker::new(alloc, 1000, Room::Bytes(18), Failure::Error);
    let code = run(&rt, alloc, RECOVER, folder, CUT, &mut output, &mut errors);
    check_same(&rt, "end", (code, output.as_slice()), (1, AFTER_TWO));
    let first = b"recovered: 2 edits".as_slice();
    check_same(&rt, "report", errors.taken.as_slice(), first);
}
