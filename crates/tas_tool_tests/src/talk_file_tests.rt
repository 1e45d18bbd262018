//! Conversations over a cartridge's file and a movie's.

use crate::answers::check_answer;
use crate::checks::check_same;
use crate::commands::{talk_from_cart, talk_from_movie};
use crate::movies::{
    IDLE, PLAYFIELD, Program, SMALL_PLAYFIELD, image_of, joined, small_image_of, text_of,
};
use crate::talks::check_over_movie;
use std::alloc::Global;
use std::process::Abort;
use std::sync::Wait;
use tas_tool::{ReadFault, RunFault, ToolFault};
use test_streams::Giver;

/// Lines for conversations over files.
const OVER_FILES: &[u8] = b"len\nmovie\ninsert 0 1 ..... ..... .....\nshot 0\n";

/// Fails where a conversation over a cartridge doesn't tell the movie of no frames for its program.
fn check_over_cart<R: Wait + Abort>(rt: &R, alloc: Global, program: Program, image: &[u8]) {
    let text = text_of(rt, alloc, program, 0, IDLE);
    let wanted = joined(
        rt,
        alloc,
        &[
            b"len 2 0\nmovie 2 81\n",
            text.as_bytes(),
            b"edit 3 len 1\nshot 3 0 ran 1 lit 1680\n",
        ],
    );
    let mut input = OVER_FILES;
    let mut output = Vec::new(alloc);
    let end = talk_from_cart(rt, alloc, image, &mut input, &mut output);
    let answer = (output.as_slice(), end);
    check_answer(rt, program.digest, answer, (wanted.as_slice(), Ok(())));
}

/// A conversation goes on from a cartridge of either size, which two edits have made.
#[test]
fn conversations_go_on_from_a_cartridge(rt: HostRuntime) {
    let alloc = rt.alloc();
    let image = image_of(&rt, alloc, PLAYFIELD.bytes);
    let small = small_image_of(&rt, alloc, SMALL_PLAYFIELD.bytes);
    check_over_cart(&rt, alloc, PLAYFIELD, image.as_slice());
    check_over_cart(&rt, alloc, SMALL_PLAYFIELD, small.as_slice());
}

/// What a conversation of [`OVER_FILES`] over a movie of three frames of nothing pressed tells.
const OVER_THREE: &[u8] =
    b"len 2 3\nmovie 2 102\na26movie 2\ncart 820c64e9933496de683a000c5e11f0510fb7b1699b2ce86471295236b284906d\n..... ..... ..... x3\nedit 3 len 4\nshot 3 0 ran 1 lit 1680\n";

/// Movies of the playfield's cartridge, lines, and their answers.
static OVER_MOVIES: [(&[u8], &[u8], &[u8]); 3] = [
    // Three frames of nothing pressed.
    (
        b"a26movie 2\ncart 820c64e9933496de683a000c5e11f0510fb7b1699b2ce86471295236b284906d\n..... ..... ..... x3\n",
        OVER_FILES,
        OVER_THREE,
    ),
    // An older text of them: they are told by the text of runs.
    (
        b"a26movie 1\ncart 820c64e9933496de683a000c5e11f0510fb7b1699b2ce86471295236b284906d\n..... ..... .....\n..... ..... .....\n..... ..... .....\n",
        OVER_FILES,
        OVER_THREE,
    ),
    // Two runs, which are one edit, whose number is 1. A history begins with the two edits that put the movie in.
    (
        b"a26movie 2\ncart 820c64e9933496de683a000c5e11f0510fb7b1699b2ce86471295236b284906d\n..... ..... ..... x3\nR.... ..... .....\n",
        b"history 1\ndelete 1 1\nshare\nhistory 1\nhistory 2\n",
        b"history 2 1 1 66\n1 0 insert 0 3 ..... ..... .....\n1 0 insert 3 1 R.... ..... .....\nedit 3 len 3\nshare 3 0\nhistory 3 1 2 81\n1 0 insert 0 3 ..... ..... .....\n1 0 insert 3 1 R.... ..... .....\n2 0 delete 1 1\nhistory 3 2 1 15\n2 0 delete 1 1\n",
    ),
];

/// A conversation goes on from a movie, too, which two edits have made.
#[test]
fn conversations_go_on_from_a_movie(rt: HostRuntime) {
    let alloc = rt.alloc();
    let image = image_of(&rt, alloc, PLAYFIELD.bytes);
    for (movie, lines, answers) in OVER_MOVIES.iter() {
        check_over_movie(&rt, alloc, (image.as_slice(), *movie), lines, answers);
    }
}

/// Fails where a cartridge of this wrong size is reported in another way, or something is read of the input.
fn check_size<R: Wait + Abort>(rt: &R, alloc: Global, image: &[u8], size: usize) {
    let cart = &image[..image.len().min(size)];
    let fault = ToolFault::Run(RunFault::Size(size));
    let mut input = Giver::new(b"len\n", 10, 0);
    let mut output = Vec::new(alloc);
    let end = talk_from_cart(rt, alloc, cart, &mut input, &mut output);
    check_same(rt, "over a cartridge", end, Err(fault));
    let mut movie = b"".as_slice();
    let end = talk_from_movie(
        rt,
        alloc,
        &mut { cart },
        &mut movie,
        &mut input,
        &mut output,
    );
    check_same(rt, "over a movie", end, Err(fault));
    check_same(rt, fault, (input.reads, output.len()), (0, 0));
}

/// What is wrong with the files is told before anything is read of the input.
#[test]
fn faults_of_the_files_come_first(rt: HostRuntime) {
    let alloc = rt.alloc();
    let image = image_of(&rt, alloc, PLAYFIELD.bytes);
    for size in [0, 2047, 2049, 4095] {
        check_size(&rt, alloc, image.as_slice(), size);
    }
    let mut cart = Giver::new(image.as_slice(), 1_000, 2);
    let mut movie = Giver::new(b"", 10, 0);
    let mut input = Giver::new(b"len\n", 10, 0);
    let mut output = Vec::new(alloc);
    let end = talk_from_movie(&rt, alloc, &mut cart, &mut movie, &mut input, &mut output);
    let answer = (output.as_slice(), end);
    check_answer(
        &rt,
        "read",
        answer,
        (b"", Err(ToolFault::Read(ReadFault::Failed))),
    );
    check_same(&rt, "reads", (movie.reads, input.reads), (0, 0));
}
