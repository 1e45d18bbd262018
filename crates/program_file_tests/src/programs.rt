//! What the tests of the whole program have in common: its words, a run over any folder, and some files. `tas_program_tests` and
//! `program_file_tests` have this file, letter by letter: checks.rt says why.

use crate::checks::expect_ok;
use crate::movies::{IDLE, Program, Recording, recording_of};
use std::alloc::Global;
use std::io::Write;
use std::process::Abort;
use std::sync::Wait;
use std::thread::Threads;
use std::time::Clock;
use tas_program::{Folder, Streams, run_program};

/// The program's name, and these words.
pub fn words_of<R: Abort>(rt: &R, alloc: Global, words: &[&str]) -> Vec<String> {
    let mut all = Vec::new(alloc);
    push_word(rt, alloc, &mut all, "tas");
    for word in words {
        push_word(rt, alloc, &mut all, word);
    }
    all
}

fn push_word<R: Abort>(rt: &R, alloc: Global, words: &mut Vec<String>, word: &str) {
    let word = expect_ok(rt, String::from_str(alloc, word));
    expect_ok(rt, words.push(word));
}

/// Runs the program with these words over this folder and input: its status. What it writes, and what it reports, goes to these writers.
pub fn run_in<T: Threads + Wait + Clock + Abort + Sync, F: Folder + Sync, W: Write, E: Write>(
    rt: &T,
    alloc: Global,
    folder: &F,
    input: &[u8],
    words: &[&str],
    output: &mut W,
    errors: &mut E,
) -> u8 {
    let words = words_of(rt, alloc, words).into_iter();
    let mut streams = Streams {
        input,
        output,
        errors,
    };
    run_program(rt, alloc, alloc, Ok(words), folder, &mut streams).code()
}

/// A movie of the playfield's cartridge, with one frame of nothing pressed. The digest comes from another program.
pub const ONE_FRAME: &[u8] =
    b"a26movie 2\ncart 820c64e9933496de683a000c5e11f0510fb7b1699b2ce86471295236b284906d\n..... ..... .....\n";

/// The same with a second one, where the left stick is pushed right.
pub const TWO_FRAMES: &[u8] =
    b"a26movie 2\ncart 820c64e9933496de683a000c5e11f0510fb7b1699b2ce86471295236b284906d\n..... ..... .....\nR.... ..... .....\n";

/// `000=18A9028500A9008500AD80020AB002E6800AB002C68085024C00F0 FFC=00F0`: each frame but the first counts the byte at 80 up if the left stick
/// is to the right, and down if it is to the left.
pub const COUNTING: Program = Program {
    bytes: b"\x18\xa9\x02\x85\x00\xa9\x00\x85\x00\xad\x80\x02\x0a\xb0\x02\xe6\x80\x0a\xb0\x02\xc6\x80\x85\x02\x4c\x00\xf0",
    digest: "953a48a0284b192294dc2804abb48a7da778e16bb0fa25219d2efab1b4cb7e02",
};

/// The cartridge, and a movie of five frames in which nothing is pressed.
pub fn five_frames<R: Abort>(rt: &R, alloc: Global) -> Recording {
    recording_of(rt, alloc, COUNTING, 5, IDLE)
}

/// A report without its rates, which no two runs have in common.
pub fn timeless<R: Abort>(rt: &R, alloc: Global, report: &[u8]) -> Vec<u8> {
    let mut kept = Vec::new(alloc);
    for line in expect_ok(rt, str::from_utf8(report)).split_inclusive('\n') {
        let (front, end) = match line.strip_suffix(" frames a second\n") {
            Some(counts) => (counts.rsplit_once(", ").unwrap_or((line, "")).0, "\n"),
            None => (line, ""),
        };
        expect_ok(rt, kept.extend_from_slice(front.as_bytes()));
        expect_ok(rt, kept.extend_from_slice(end.as_bytes()));
    }
    kept
}

/// A journal that begins with the movie of one frame and has two edits, of seats 0 and 3: it has eight lines. The digests come from another
/// program.
pub const JOURNAL: &[u8] =
    b"a26journal 1\nprofile 2\nmovie 99 a1ca090e446f626d5db5253eb1e9fbe96e54cc24cfad52f15d02d7a58a607432\na26movie 2\ncart 820c64e9933496de683a000c5e11f0510fb7b1699b2ce86471295236b284906d\n..... ..... .....\n0 0 insert 1 2 R.... ..... .....\n1 3 delete 0 2\n";

/// The movie that both edits of this journal make.
pub const AFTER_TWO: &[u8] =
    b"a26movie 2\ncart 820c64e9933496de683a000c5e11f0510fb7b1699b2ce86471295236b284906d\nR.... ..... .....\n";
