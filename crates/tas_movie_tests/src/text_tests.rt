//! Both texts of a movie, and their faults.

use crate::checks::{check_same, check_that, expect_ok};
use crate::movies::{PLAYFIELD, cart_of};
use crate::texts::{
    BLANK_LINE, CAPITALS, CART_LINE, HEAD, HEAD2, NONE, SMALL_LINE, Told, at, check_told,
    idle_lines, is_printed, is_read_and_printed, joined, read, reads_as, text_error,
};
use std::alloc::Global;
use std::process::Abort;
use tas_movie::{ReadError, TextErrorKind, read_text};
use vcs_machine::Cart;

/// Checks that the text of runs with this second line and these frames has this many bytes, and is read as this many frames and
/// printed again.
fn check_text<R: Abort>(
    rt: &R,
    alloc: Global,
    cart: &Cart,
    (line, frames): (&[u8], &[u8]),
    size: usize,
    count: usize,
) {
    let text = joined(rt, alloc, &[HEAD2, line, frames]);
    check_same(rt, ("size", line), text.len(), size);
    let is_same = is_read_and_printed(rt, alloc, cart, &text, count);
    check_that(rt, ("text", line), is_same);
}

/// The frames of a text with the playfield's cartridge, the text's bytes, and how many frames they are.
static FRAMES: [(&[u8], usize, usize); 3] = [
    (NONE, 99, 1),
    (b"", 81, 0),
    (
        b"..... ..... .....\nRL..F .LDU. r.bAB\n..... ..... .....\n",
        135,
        3,
    ),
];

#[test]
fn texts_are_read_and_printed_again(rt: HostRuntime) {
    let alloc = rt.alloc();
    let cart = cart_of(&rt, alloc, PLAYFIELD);
    for (frames, size, count) in FRAMES.iter() {
        check_text(&rt, alloc, &cart, (CART_LINE, *frames), *size, *count);
    }
    let blank = expect_ok(&rt, Cart::blank(alloc));
    check_text(&rt, alloc, &blank, (BLANK_LINE, NONE), 99, 1);
    let small = expect_ok(&rt, Cart::from_bytes(alloc, &[0; 2048]));
    check_text(&rt, alloc, &small, (SMALL_LINE, NONE), 99, 1);
}

/// Reads a text of one frame that is cut off anywhere.
fn check_cuts<R: Abort>(rt: &R, alloc: Global, text: &[u8], cart: &Cart) {
    for (count, byte) in text.iter().enumerate() {
        let want = match count {
            0..=10 => at(1, TextErrorKind::End),
            11..=80 => at(2, TextErrorKind::End),
            81 => Ok(0),
            _ => at(3, TextErrorKind::End),
        };
        let cut = read(alloc, &text[..count], cart);
        check_same(rt, ("bytes before", count, byte), cut, want);
    }
}

#[test]
fn cut_texts(rt: HostRuntime) {
    let alloc = rt.alloc();
    let cart = cart_of(&rt, alloc, PLAYFIELD);
    for head in [HEAD, HEAD2] {
        let text = joined(&rt, alloc, &[head, CART_LINE, NONE]);
        check_cuts(&rt, alloc, &text, &cart);
    }
}

/// The first two lines, the one at fault, and how.
static FIRST_LINES: [(&[u8], &[u8], usize, TextErrorKind); 11] = [
    (b"a26movie 3\n", CART_LINE, 1, TextErrorKind::Head),
    (b"a26movie 12\n", CART_LINE, 1, TextErrorKind::Head),
    (HEAD2, BLANK_LINE, 2, TextErrorKind::Digest),
    (HEAD2, CAPITALS, 2, TextErrorKind::Digest),
    (b"A26movie 1\n", CART_LINE, 1, TextErrorKind::Head),
    (b"\n", CART_LINE, 1, TextErrorKind::Head),
    (b"a26movie 1 \n", CART_LINE, 1, TextErrorKind::Head),
    (HEAD, BLANK_LINE, 2, TextErrorKind::Digest),
    (HEAD, CAPITALS, 2, TextErrorKind::Digest),
    (HEAD, NONE, 2, TextErrorKind::Digest),
    (HEAD, b"\n", 2, TextErrorKind::Digest),
];

#[test]
fn first_two_lines_at_fault(rt: HostRuntime) {
    let alloc = rt.alloc();
    for (number, (first, second, line, kind)) in FIRST_LINES.iter().enumerate() {
        let want = Err((*line, *kind));
        check_told(&rt, alloc, ("text", number), &[first, second, NONE], want);
    }
}

/// Lines that are no frame.
static NO_FRAMES: [&[u8]; 6] = [
    b"r.... ..... .....\n",
    b"..... ..... ....\n",
    b"..... ..... ......\n",
    b"L.... ..... .....\n",
    b"...........\n",
    b"\n",
];

#[test]
fn frames_at_fault(rt: HostRuntime) {
    let alloc = rt.alloc();
    for (number, line) in NO_FRAMES.iter().enumerate() {
        let case = ("line", number);
        let first = &[HEAD, CART_LINE, line, NONE, NONE];
        check_told(&rt, alloc, case, first, Err((3, TextErrorKind::Frame)));
        let middle = &[HEAD, CART_LINE, NONE, line, line];
        check_told(&rt, alloc, case, middle, Err((4, TextErrorKind::Frame)));
        let last = &[HEAD, CART_LINE, NONE, NONE, line];
        check_told(&rt, alloc, case, last, Err((5, TextErrorKind::Frame)));
    }
    let open: &[&[u8]] = &[HEAD, CART_LINE, NONE, NONE, b"."];
    check_told(&rt, alloc, ("open", 5), open, Err((5, TextErrorKind::End)));
    let run: &[&[u8]] = &[HEAD, CART_LINE, b"..... ..... ..... x2\n"];
    check_told(&rt, alloc, ("run", 3), run, Err((3, TextErrorKind::Frame)));
}

/// The stick to the right.
const RIGHT: &[u8] = b"R.... ..... .....\n";

/// Lines that are no run.
static NO_RUNS: [&[u8]; 14] = [
    b"..... ..... ..... x1\n",
    b"..... ..... ..... x0\n",
    b"..... ..... ..... x02\n",
    b"..... ..... ..... x262145\n",
    b"..... ..... ..... x18446744073709551618\n",
    b"..... ..... ..... x+2\n",
    b"..... ..... ..... x\n",
    b"..... ..... ..... X2\n",
    b"..... ..... .....  x2\n",
    b"..... ..... .....x2\n",
    b"..... ..... ..... x2 \n",
    b"r.... ..... ..... x2\n",
    b"..... ..... .... x2\n",
    b"\n",
];

#[test]
fn lines_that_are_no_run(rt: HostRuntime) {
    let alloc = rt.alloc();
    for (number, line) in NO_RUNS.iter().enumerate() {
        let case = ("line", number);
        let first = &[HEAD2, CART_LINE, line, RIGHT];
        check_told(&rt, alloc, case, first, Err((3, TextErrorKind::Frame)));
        let later = &[HEAD2, CART_LINE, RIGHT, line, line];
        check_told(&rt, alloc, case, later, Err((4, TextErrorKind::Frame)));
    }
}

/// Lines of runs, and what is reported of them.
static RUNS: [(&[u8], Told); 9] = [
    (
        b"..... ..... .....\n..... ..... .....\n",
        Err((4, TextErrorKind::Run)),
    ),
    (
        b"..... ..... .....\n..... ..... ..... x2\n",
        Err((4, TextErrorKind::Run)),
    ),
    (
        b"..... ..... ..... x2\n..... ..... .....\nR.... ..... .....\n",
        Err((4, TextErrorKind::Run)),
    ),
    (
        b"..... ..... .....\nR.... ..... .....\n..... ..... .....\n",
        Ok(3),
    ),
    (b"..... ..... ..... x262144\n", Ok(262144)),
    (
        b"..... ..... ..... x262144\nR.... ..... .....\n",
        Err((4, TextErrorKind::TooMany)),
    ),
    (
        b"..... ..... .....\nR.... ..... ..... x262144\n",
        Err((4, TextErrorKind::TooMany)),
    ),
    (
        b"..... ..... .....\nR.... ..... ..... x262143\n..... ..... .....\n",
        Err((5, TextErrorKind::TooMany)),
    ),
    (
        b"..... ..... .....\nR.... ..... .....\n..... ..... ..... x2",
        Err((5, TextErrorKind::End)),
    ),
];

#[test]
fn runs_at_fault(rt: HostRuntime) {
    for (number, (lines, want)) in RUNS.iter().enumerate() {
        let case = ("text", number);
        check_told(&rt, rt.alloc(), case, &[HEAD2, CART_LINE, lines], *want);
    }
}

/// As many frames as a movie has.
const FULL: &[u8] = b"..... ..... ..... x262144\n";

/// One frame less.
const SOME: &[u8] = b"..... ..... ..... x262143\n";

/// A run, the line after it, the one at fault, and how.
static LAST_LINES: [(&[u8], &[u8], usize, TextErrorKind); 5] = [
    (FULL, b"..\n", 4, TextErrorKind::TooMany),
    (FULL, NONE, 4, TextErrorKind::TooMany),
    (FULL, b"..", 4, TextErrorKind::End),
    (SOME, b"..... ..... ..... x1\n", 4, TextErrorKind::Frame),
    (SOME, b"..... ..... ..... x2\n", 4, TextErrorKind::Run),
];

/// Where as many frames as a movie has stand before a line, this is reported before what else is wrong with it; and a
/// line that is no run before that it is the frame of the line before.
#[test]
fn the_first_fault_of_a_line_is_told(rt: HostRuntime) {
    let alloc = rt.alloc();
    for (number, (first, second, line, kind)) in LAST_LINES.iter().enumerate() {
        let text = &[HEAD2, CART_LINE, first, second];
        check_told(&rt, alloc, ("text", number), text, Err((*line, *kind)));
    }
}

/// How many frames with nothing pressed, what follows them, and what is reported of that.
static MANY_FRAMES: [(usize, &[u8], Told); 5] = [
    (65536, b"", Ok(65536)),
    (65537, b"", Err((65539, TextErrorKind::TooMany))),
    (65536, b"..", Err((65539, TextErrorKind::End))),
    (65536, b"..\n", Err((65539, TextErrorKind::TooMany))),
    (65536, b"..\n.", Err((65539, TextErrorKind::TooMany))),
];

#[test]
fn too_many_frames(rt: HostRuntime) {
    let alloc = rt.alloc();
    for (number, (count, end, want)) in MANY_FRAMES.iter().enumerate() {
        let lines = idle_lines(&rt, alloc, *count, end);
        let text = &[HEAD, CART_LINE, lines.as_slice()];
        check_told(&rt, alloc, ("text", number), text, *want);
    }
}

/// Checks that an older text of these lines is printed again as the text of these runs, that this is read so, and how many bytes
/// they have.
fn check_older_text<R: Abort>(
    rt: &R,
    alloc: Global,
    cart: &Cart,
    (frames, sizes): (usize, [usize; 2]),
    lines: &[&[u8]],
    runs: &[u8],
) {
    let older = joined(rt, alloc, lines);
    let movie = expect_ok(rt, read_text(alloc, &older, cart));
    let newer = joined(rt, alloc, &[HEAD2, CART_LINE, runs]);
    let found = [older.len(), newer.len()];
    check_same(rt, ("sizes", frames), found, sizes);
    check_that(rt, frames, is_printed(rt, alloc, &movie, &newer));
    let is_read = is_read_and_printed(rt, alloc, cart, &newer, frames);
    check_that(rt, frames, is_read);
}

/// An older text of several runs.
static MIXED: [&[u8]; 8] = [HEAD, CART_LINE, RIGHT, NONE, NONE, RIGHT, RIGHT, RIGHT];

/// An older text is printed again as a text of runs, each as long as it can be.
#[test]
fn older_texts_are_printed_as_runs(rt: HostRuntime) {
    let alloc = rt.alloc();
    let runs = b"R.... ..... .....\n..... ..... ..... x2\nR.... ..... ..... x3\n";
    let cart = cart_of(&rt, alloc, PLAYFIELD);
    check_older_text(&rt, alloc, &cart, (6, [189, 141]), &MIXED, runs);
    let lines = idle_lines(&rt, alloc, 200, b"");
    let older: &[&[u8]] = &[HEAD, CART_LINE, lines.as_slice()];
    let runs = b"..... ..... ..... x200\n";
    check_older_text(&rt, alloc, &cart, (200, [3681, 104]), older, runs);
}

/// This many times the line of nothing pressed and that of the left fire, after the first two lines.
fn alternating<R: Abort>(rt: &R, alloc: Global, count: usize) -> Vec<u8> {
    let mut text = joined(rt, alloc, &[HEAD2, CART_LINE]);
    for _ in 0..count {
        expect_ok(rt, text.extend_from_slice(NONE));
        expect_ok(rt, text.extend_from_slice(b"....F ..... .....\n"));
    }
    text
}

/// The text of the longest movie with one run, and with as many as can be.
#[test]
fn longest_texts(rt: HostRuntime) {
    let alloc = rt.alloc();
    let cart = cart_of(&rt, alloc, PLAYFIELD);
    let one = joined(
        &rt,
        alloc,
        &[HEAD2, CART_LINE, b"....F ..... ..... x262144\n"],
    );
    let is_one = is_read_and_printed(&rt, alloc, &cart, &one, 262144);
    check_that(&rt, "one run", is_one);
    let many = alternating(&rt, alloc, 131072);
    let are_many = is_read_and_printed(&rt, alloc, &cart, &many, 262144);
    check_that(&rt, "as many runs as can be", are_many);
}

/// The line at fault, what is wrong with it, and how this reads.
static WORDS: [(usize, TextErrorKind, &str); 6] = [
    (1, TextErrorKind::Head, "movie line 1: head"),
    (2, TextErrorKind::Digest, "movie line 2: digest"),
    (4, TextErrorKind::Frame, "movie line 4: frame"),
    (3, TextErrorKind::End, "movie line 3: end"),
    (65539, TextErrorKind::TooMany, "movie line 65539: too many"),
    (5, TextErrorKind::Run, "movie line 5: run"),
];

#[test]
fn errors_of_reading_in_words(rt: HostRuntime) {
    let alloc = rt.alloc();
    for (line, kind, words) in WORDS.iter() {
        let error = text_error(*line, *kind);
        check_that(&rt, *words, reads_as(&rt, alloc, &error, *words));
    }
    let words = "out of memory";
    check_that(&rt, words, reads_as(&rt, alloc, &ReadError::Memory, words));
}
