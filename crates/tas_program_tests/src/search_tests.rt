//! `tas search`: the script on standard output, the verdict on standard error, and the fault of each input.

use crate::checks::{check_same, check_that, expect_ok};
use crate::movies::Recording;
use crate::programs::{five_frames, run_in, timeless};
use crate::two_files::{End, check_ran};
use std::alloc::Global;
use std::io;
use std::io::{Error, ErrorKind, Write};
use std::process::Abort;
use std::sync::Wait;
use std::thread::Threads;
use std::time::Clock;
use tas_program::{Folder, OrdinaryFile, Permit};
use test_streams::{Failure, Giver, Room, Taker};

/// A folder with a cartridge, the choices nothing, right and left, and a names file that is right and one that is wrong.
#[derive(Clone, Copy)]
struct Place<'a> {
    game: &'a [u8],
}

impl<'a> Folder for Place<'a> {
    type File = Giver<'a>;

    type Sink = Taker;

    fn look(&self, _name: &str) -> Option<OrdinaryFile> {
        None
    }

    fn open(&self, name: &str) -> io::Result<Giver<'a>> {
        let bytes: &'a [u8] = match name {
            "game.bin" => self.game,
            "choices" => b"..... ..... .....\nR.... ..... .....\n.L... ..... .....\n",
            "names" => b"n 80\n",
            "wrong" => b"n 7F\n",
            _ => return Err(Error::from(ErrorKind::NotFound)),
        };
        Ok(Giver::new(bytes, usize::MAX, 0))
    }

    fn open_to_write(&self, _permit: Permit, _name: &str) -> io::Result<Taker> {
        Err(Error::from(ErrorKind::NotFound))
    }
}

/// Runs the program with these words over this movie: its status. What it writes, and what it reports, goes to these writers.
fn run_search<T: Threads + Wait + Clock + Abort + Sync, W: Write, E: Write>(
    rt: &T,
    alloc: Global,
    movie: &Recording,
    words: &[&str],
    output: &mut W,
    errors: &mut E,
) -> u8 {
    let (game, input) = movie.files();
    run_in(rt, alloc, &Place { game }, input, words, output, errors)
}

/// Fails where the program over this movie ends in another way; its rates may be any.
fn check_end<R: Threads + Wait + Clock + Abort + Sync>(
    rt: &R,
    alloc: Global,
    movie: &Recording,
    words: &[&str],
    end: End<'_>,
) {
    let (mut output, mut errors) = (Vec::new(alloc), Vec::new(alloc));
    let code = run_search(rt, alloc, movie, words, &mut output, &mut errors);
    let shown = timeless(rt, alloc, errors.as_slice());
    check_ran(rt, words, (code, output.as_slice(), shown.as_slice()), end);
}

/// The words of a search, its script and its verdict, by hand.
static SEARCHES: [(&[&str], &[u8], &[u8]); 9] = [
    (
        &[
            "search",
            "game.bin",
            "3",
            "4",
            "reach n == 2",
            "--choices",
            "choices",
            "--names",
            "names",
        ],
        b"replace 3 1 R.... ..... .....\nreplace 4 1 R.... ..... .....\n",
        b"layer 1: 1 frames, 3 states, 0 merged, 3 played, 1024 bytes\n\
layer 2: 2 frames, 5 states, 4 merged, 9 played, 2064 bytes\n\
best of all 81 sequences\n",
    ),
    (
        &[
            "search",
            "game.bin",
            "3",
            "4",
            "reach n == 4",
            "--choices",
            "choices",
            "--names",
            "names",
            "--hold",
            "2",
        ],
        b"insert 5 2 ..... ..... .....\nreplace 3 2 R.... ..... .....\nreplace 5 2 R.... ..... .....\n",
        b"layer 1: 2 frames, 3 states, 0 merged, 6 played, 1024 bytes\n\
layer 2: 4 frames, 5 states, 4 merged, 18 played, 2064 bytes\n\
best of all 9 sequences\n",
    ),
    (
        &[
            "search",
            "game.bin",
            "3",
            "1",
            "reach byte:80 == 1",
            "--choices",
            "choices",
        ],
        b"replace 3 1 R.... ..... .....\n",
        b"layer 1: 1 frames, 3 states, 0 merged, 3 played, 1024 bytes\n\
best of all 3 sequences\n",
    ),
    (
        &["search", "game.bin", "3", "1", "reach byte:80 == 1"],
        b"replace 3 1 R.... ..... .....\n",
        b"layer 1: 1 frames, 3 states, 15 merged, 18 played, 1024 bytes\n\
best of all 18 sequences\n",
    ),
    (
        &[
            "search",
            "game.bin",
            "3",
            "1",
            "reach n == 1",
            "--names",
            "names",
        ],
        b"replace 3 1 R.... ..... .....\n",
        b"layer 1: 1 frames, 3 states, 15 merged, 18 played, 1024 bytes\n\
best of all 18 sequences\n",
    ),
    (
        &["search", "game.bin", "3", "0", "most byte:80"],
        b"",
        b"best of all 1 sequences\n",
    ),
    (
        &[
            "search",
            "game.bin",
            "3",
            "4",
            "reach byte:80 == 9",
            "--choices",
            "choices",
        ],
        b"",
        b"layer 1: 1 frames, 3 states, 0 merged, 3 played, 1024 bytes\n\
layer 2: 2 frames, 5 states, 4 merged, 9 played, 2064 bytes\n\
layer 3: 3 frames, 7 states, 8 merged, 15 played, 3136 bytes\n\
layer 4: 4 frames, 9 states, 12 merged, 21 played, 4240 bytes\n\
none: not one of all 81 sequences reaches it\n",
    ),
    (
        &[
            "search",
            "game.bin",
            "3",
            "4",
            "reach byte:80 == 9",
            "--choices",
            "choices",
            "--most",
            "2",
        ],
        b"",
        b"stopped: more than 2 states in layer 1: none of up to 0 frames reaches it\n",
    ),
    (
        &[
            "search",
            "game.bin",
            "3",
            "3",
            "least byte:80",
            "--choices",
            "choices",
            "--most",
            "4",
        ],
        b"",
        b"layer 1: 1 frames, 3 states, 0 merged, 3 played, 1024 bytes\n\
stopped: more than 4 states in layer 2\n",
    ),
];

#[test]
fn scripts_and_verdicts(rt: HostRuntime) {
    let alloc = rt.alloc();
    let movie = five_frames(&rt, alloc);
    for (words, script, verdict) in SEARCHES.iter() {
        check_end(&rt, alloc, &movie, words, (0, script, verdict));
    }
}

/// The same of parts of the space: with three parts each has one of the three choices to begin with, with four the first has none.
static PARTS: [(&[&str], &[u8], &[u8]); 11] = [
    (
        &[
            "search",
            "game.bin",
            "3",
            "4",
            "reach byte:80 == 2",
            "--choices",
            "choices",
            "--first",
            "2/3",
        ],
        b"replace 3 1 R.... ..... .....\nreplace 4 1 R.... ..... .....\n",
        b"layer 1: 1 frames, 1 states, 0 merged, 1 played, 512 bytes\n\
layer 2: 2 frames, 3 states, 0 merged, 3 played, 1040 bytes\n\
part 2 of 3: best of all 27 sequences\n",
    ),
    (
        &[
            "search",
            "game.bin",
            "3",
            "4",
            "reach byte:80 == 2",
            "--choices",
            "choices",
            "--first",
            "3/3",
        ],
        b"insert 5 2 ..... ..... .....\nreplace 3 1 .L... ..... .....\nreplace 4 1 R.... ..... .....\nreplace 5 1 R.... ..... .....\nreplace 6 1 R.... ..... .....\n",
        b"layer 1: 1 frames, 1 states, 0 merged, 1 played, 512 bytes\n\
layer 2: 2 frames, 3 states, 0 merged, 3 played, 1040 bytes\n\
layer 3: 3 frames, 5 states, 4 merged, 9 played, 2080 bytes\n\
layer 4: 4 frames, 7 states, 8 merged, 15 played, 3152 bytes\n\
part 3 of 3: best of all 27 sequences\n",
    ),
    (
        &[
            "search",
            "game.bin",
            "3",
            "2",
            "reach byte:80 == 2",
            "--choices",
            "choices",
            "--first",
            "1/3",
        ],
        b"",
        b"layer 1: 1 frames, 1 states, 0 merged, 1 played, 512 bytes\n\
layer 2: 2 frames, 3 states, 0 merged, 3 played, 1040 bytes\n\
part 1 of 3: none: not one of all 3 sequences reaches it\n",
    ),
    (
        &[
            "search",
            "game.bin",
            "3",
            "2",
            "most byte:80",
            "--choices",
            "choices",
            "--first",
            "2/2",
        ],
        b"replace 3 1 .L... ..... .....\nreplace 4 1 ..... ..... .....\n",
        b"layer 1: 1 frames, 2 states, 0 merged, 2 played, 768 bytes\n\
layer 2: 2 frames, 5 states, 1 merged, 6 played, 1808 bytes\n\
part 2 of 2: best of all 6 sequences\n",
    ),
    (
        &[
            "search",
            "game.bin",
            "3",
            "4",
            "reach byte:80 == 2",
            "--choices",
            "choices",
            "--first",
            "1/4",
        ],
        b"",
        b"layer 1: 1 frames, 0 states, 0 merged, 0 played, 256 bytes\n\
part 1 of 4: none: not one of all 0 sequences reaches it\n",
    ),
    (
        &[
            "search",
            "game.bin",
            "3",
            "1",
            "least byte:80",
            "--choices",
            "choices",
            "--first",
            "1/1000000",
        ],
        b"",
        b"layer 1: 1 frames, 0 states, 0 merged, 0 played, 256 bytes\n\
part 1 of 1000000: none: each of all 0 sequences halts before its end\n",
    ),
    (
        &[
            "search",
            "game.bin",
            "3",
            "1",
            "reach byte:80 == 0",
            "--choices",
            "choices",
            "--first",
            "1/4",
        ],
        b"",
        b"part 1 of 4: best of all 0 sequences\n",
    ),
    (
        &[
            "search",
            "game.bin",
            "3",
            "0",
            "least byte:80",
            "--choices",
            "choices",
            "--first",
            "4/4",
        ],
        b"",
        b"part 4 of 4: best of all 1 sequences\n",
    ),
    (
        &[
            "search",
            "game.bin",
            "3",
            "4",
            "reach byte:80 == 9",
            "--choices",
            "choices",
            "--first",
            "2/3",
            "--most",
            "2",
        ],
        b"",
        b"layer 1: 1 frames, 1 states, 0 merged, 1 played, 512 bytes\n\
part 2 of 3: stopped: more than 2 states in layer 2: none of up to 1 frames reaches it\n",
    ),
    (
        &[
            "search",
            "game.bin",
            "3",
            "2",
            "least byte:80",
            "--choices",
            "choices",
            "--first",
            "3/3",
            "--most",
            "2",
        ],
        b"",
        b"layer 1: 1 frames, 1 states, 0 merged, 1 played, 512 bytes\n\
part 3 of 3: stopped: more than 2 states in layer 2\n",
    ),
    (
        &[
            "search",
            "game.bin",
            "3",
            "1",
            "reach byte:80 == 1",
            "--choices",
            "choices",
            "--first",
            "1/1",
        ],
        b"replace 3 1 R.... ..... .....\n",
        b"layer 1: 1 frames, 3 states, 0 merged, 3 played, 1024 bytes\n\
best of all 3 sequences\n",
    ),
];

#[test]
fn parts_are_searched_alone(rt: HostRuntime) {
    let alloc = rt.alloc();
    let movie = five_frames(&rt, alloc);
    for (words, script, verdict) in PARTS.iter() {
        check_end(&rt, alloc, &movie, words, (0, script, verdict));
    }
}

/// The words of a search that has no answer, and its fault.
static FAULTS: [(&[&str], &[u8]); 15] = [
    (
        &["search", "none.bin", "3", "1", "reach 1"],
        b"fault: read failed\n",
    ),
    (
        &[
            "search",
            "game.bin",
            "3",
            "1",
            "reach 1",
            "--choices",
            "none",
        ],
        b"fault: read failed\n",
    ),
    (
        &["search", "game.bin", "3", "1", "reach 1", "--names", "none"],
        b"fault: read failed\n",
    ),
    (
        &["search", "names", "3", "1", "reach 1"],
        b"fault: cartridge has 5 bytes\n",
    ),
    (
        &[
            "search",
            "game.bin",
            "3",
            "1",
            "find",
            "--choices",
            "names",
            "--names",
            "wrong",
        ],
        b"fault: choices line 1: frame\n",
    ),
    (
        &["search", "game.bin", "3", "1", "find", "--names", "wrong"],
        b"fault: names line 1: address\n",
    ),
    (
        &["search", "game.bin", "3", "1", "find 1", "--hold", "2"],
        b"fault: goal word 1: reach, most or least expected\n",
    ),
    (
        &["search", "game.bin", "3", "1", "reach ( =="],
        b"fault: goal word 3: operand expected\n",
    ),
    (
        &[
            "search",
            "game.bin",
            "3",
            "1",
            "reach n = 85",
            "--names",
            "names",
        ],
        b"fault: goal word 3: operator expected\n",
    ),
    (
        &["search", "game.bin", "3", "1", "reach ( 1 == 1 2"],
        b"fault: goal word 6: ) expected\n",
    ),
    (
        &["search", "game.bin", "3", "1", "reach 1 == 1 and 2"],
        b"fault: goal word 5: end expected\n",
    ),
    (
        &[
            "search",
            "game.bin",
            "3",
            "1",
            "reach ( ( pair:80 * pair:80 ) * pair:80 ) * pair:80",
        ],
        b"fault: goal: too large\n",
    ),
    (
        &["search", "game.bin", "6", "3", "reach 1", "--hold", "2"],
        b"fault: frames are no multiple of hold\n",
    ),
    (
        &["search", "game.bin", "6", "262144", "reach 1"],
        b"fault: movie has 5 frames\n",
    ),
    (
        &["search", "game.bin", "3", "262142", "reach 1"],
        b"fault: movie gets too long\n",
    ),
];

#[test]
fn first_fault_of_the_inputs(rt: HostRuntime) {
    let alloc = rt.alloc();
    let movie = five_frames(&rt, alloc);
    for (words, line) in FAULTS.iter() {
        check_end(&rt, alloc, &movie, words, (1, b"", line));
    }
}

/// The words of a search with a script of one line.
const FIRST: [&str; 5] = ["search", "game.bin", "3", "1", "reach byte:80 == 1"];

#[test]
fn script_that_cannot_be_written_is_a_fault(rt: HostRuntime) {
    let alloc = rt.alloc();
    let movie = five_frames(&rt, alloc);
    let mut room = [0u8; 10];
    let mut errors = Vec::new(alloc);
    let code = run_search(
        &rt,
        alloc,
        &movie,
        FIRST.as_slice(),
        &mut room.as_mut_slice(),
        &mut errors,
    );
    let lines =
        b"layer 1: 1 frames, 3 states, 15 merged, 18 played, 1024 bytes\nfault: write failed after 10 bytes\n".as_slice();
    let shown = timeless(&rt, alloc, errors.as_slice());
    check_same(&rt, "end", (code, shown.as_slice()), (1, lines));
    let first = b"replace 3 ".as_slice();
    check_same(&rt, "script", room.as_slice(), first);
}

/// The verdict, which says what the script is the best of, belongs to the answer.
#[test]
fn verdict_that_cannot_be_written_is_a_fault(rt: HostRuntime) {
    let alloc = rt.alloc();
    let movie = five_frames(&rt, alloc);
    let mut output = Vec::new(alloc);
    // The line has 80 bytes and the digits of its rate, so some of the verdict fit, and not all.
    let mut errors = Taker::new(alloc, 1000, Room::Bytes(95), Failure::Error);
    let code = run_search(
        &rt,
        alloc,
        &movie,
        FIRST.as_slice(),
        &mut output,
        &mut errors,
    );
    let script = b"replace 3 1 R.... ..... .....\n".as_slice();
    check_same(&rt, "end", (code, output.as_slice()), (1, script));
    let shown = timeless(&rt, alloc, errors.taken.as_slice());
    let whole =
        b"layer 1: 1 frames, 3 states, 15 merged, 18 played, 1024 bytes\nbest of all 18 sequences\n".as_slice();
    check_that(&rt, "verdict", whole.starts_with(shown.as_slice()));
    check_that(
        &rt,
        "some of it",
        shown.len() > 62 && shown.len() < whole.len(),
    );
}

/// So does each line of the report, which a search has to show as it goes.
#[test]
fn line_that_cannot_be_written_is_a_fault(rt: HostRuntime) {
    let alloc = rt.alloc();
    let movie = five_frames(&rt, alloc);
    let mut output = Vec::new(alloc);
    let mut errors = Taker::new(alloc, 1000, Room::Bytes(8), Failure::Error);
    let code = run_search(
        &rt,
        alloc,
        &movie,
        FIRST.as_slice(),
        &mut output,
        &mut errors,
    );
    check_same(&rt, "end", (code, output.as_slice()), (1, b"".as_slice()));
    check_same(&rt, "line", errors.taken.as_slice(), b"layer 1:".as_slice());
}

/// The answer and the report are the same by any number of workers.
#[test]
fn workers_change_nothing(rt: HostRuntime) {
    let alloc = rt.alloc();
    let movie = five_frames(&rt, alloc);
    let (words, script, report) = &SEARCHES[0];
    for workers in ["1", "2", "16"] {
        let mut asked = expect_ok(&rt, Vec::from_slice(alloc, words));
        expect_ok(&rt, asked.push("--workers"));
        expect_ok(&rt, asked.push(workers));
        check_end(&rt, alloc, &movie, asked.as_slice(), (0, script, report));
    }
}

/// This folder makes no file, so there is no report.
#[test]
fn report_that_cannot_be_made_is_a_fault(rt: HostRuntime) {
    let alloc = rt.alloc();
    let movie = five_frames(&rt, alloc);
    let words = ["search", "none.bin", "3", "1", "reach 1", "--report", "new"];
    let line = b"fault: report: not created\n".as_slice();
    check_end(&rt, alloc, &movie, &words, (1, b"", line));
}
