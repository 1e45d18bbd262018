//! The lines of a history, and the requests `share` and `history`.

use crate::checks::{check_same, check_that, expect_ok, expect_some};
use crate::movies::frame_of;
use byte_text::split_once;
use std::alloc::Global;
use std::process::Abort;
use tas_engines::edit_of;
use tas_language::{
    Command, MAX_LINE, Request, after_prefix, history_answer, inputs_answer, parse_line,
    parse_request, push_edit_lines, push_entry, share_answer, version_answer,
};
use tas_movie::{Edit, Inputs, Movie, apply, check, read_frame};
use vcs_machine::{CART_SIZE, Cart, SMALL_CART_SIZE};

/// The inputs that letters stand for.
fn inputs_of<R: Abort>(rt: &R, alloc: Global, letters: &str) -> Inputs {
    let mut list = Vec::new(alloc);
    for letter in letters.bytes() {
        let input = expect_some(rt, read_frame(frame_of(letter)));
        expect_ok(rt, list.push(input));
    }
    Inputs::from_vec(list)
}

fn insertion<R: Abort>(rt: &R, alloc: Global, at: usize, letters: &str) -> Edit {
    let inputs = inputs_of(rt, alloc, letters);
    Edit::Insert { at, inputs }
}

fn replacement<R: Abort>(rt: &R, alloc: Global, at: usize, letters: &str) -> Edit {
    let inputs = inputs_of(rt, alloc, letters);
    Edit::Replace { at, inputs }
}

/// The edit that loads a cartridge of this many bytes, each of them its offset modulo 251.
fn load<R: Abort>(rt: &R, alloc: Global, size: usize) -> Edit {
    let mut bytes = Vec::new(alloc);
    for offset in 0..size {
        expect_ok(rt, bytes.push((offset % 251) as u8));
    }
    Edit::Load(expect_ok(rt, Cart::from_bytes(alloc, bytes.as_slice())))
}

/// A movie of the blank cartridge and the frames that letters stand for.
fn movie_of<R: Abort>(rt: &R, alloc: Global, letters: &str) -> Movie {
    let mut movie = expect_ok(rt, Movie::blank(alloc));
    make(rt, &mut movie, &insertion(rt, alloc, 0, letters));
    movie
}

/// Makes an edit, which is allowed.
fn make<R: Abort>(rt: &R, movie: &mut Movie, edit: &Edit) {
    expect_ok(rt, check(movie, edit));
    apply(movie, edit);
}

/// Makes a line of a script.
fn make_line<R: Abort>(rt: &R, alloc: Global, movie: &mut Movie, line: &[u8]) {
    check_that(rt, "length", line.len() <= MAX_LINE);
    match expect_some(rt, parse_line(line)) {
        Command::Load { image } => {
            let cart = expect_ok(rt, Cart::from_bytes(alloc, image.bytes()));
            make(rt, movie, &Edit::Load(cart));
        }
        Command::Edit(change) => make(rt, movie, &expect_ok(rt, edit_of(alloc, change))),
        _ => check_that(rt, "an edit", false),
    }
}

/// Makes some lines, each of which has this prefix, and returns how many they are.
fn make_lines<R: Abort>(
    rt: &R,
    alloc: Global,
    movie: &mut Movie,
    prefix: &[u8],
    text: &[u8],
) -> usize {
    let mut rest = text;
    let mut count = 0usize;
    for _ in 0..text.len() {
        let Some((line, after)) = split_once(rest, b'\n') else {
            break;
        };
        make_line(
            rt,
            alloc,
            movie,
            expect_some(rt, after_prefix(line, prefix)),
        );
        count = count.saturating_add(1);
        rest = after;
    }
    check_that(rt, "rest", rest.is_empty());
    count
}

/// Fails where the lines of an edit don't make what it makes of a movie of ten frames, or aren't this many.
fn check_round<R: Abort>(rt: &R, alloc: Global, edit: &Edit, count: usize) {
    let mut made = movie_of(rt, alloc, "..RRRFF.RF");
    let mut remade = movie_of(rt, alloc, "..RRRFF.RF");
    let mut text = Vec::new(alloc);
    expect_ok(rt, push_entry(alloc, &mut text, 41, 3, edit));
    make(rt, &mut made, edit);
    let lines = make_lines(rt, alloc, &mut remade, b"41 3 ", text.as_slice());
    check_same(rt, "lines", lines, count);
    check_that(rt, ("inputs", count), made.inputs() == remade.inputs());
    let is_loaded = made.cart().bytes() == remade.cart().bytes();
    check_that(rt, ("cartridge", count), is_loaded);
}

/// Places, letters, and how many runs they have.
static FRAMES: [(usize, &str, usize); 7] = [
    (0, "", 1),
    (10, "", 1),
    (0, "R", 1),
    (3, "FFFF", 1),
    (2, ".RRF", 3),
    (0, "RFRFRFRFRF", 10),
    (0, "..RRRFF.RF", 6),
];

#[test]
fn lines_make_what_the_edit_makes(rt: HostRuntime) {
    let alloc = rt.alloc();
    for (at, letters, count) in FRAMES.iter() {
        let edit = insertion(&rt, alloc, *at, letters);
        check_round(&rt, alloc, &edit, *count);
        let edit = replacement(&rt, alloc, *at, letters);
        check_round(&rt, alloc, &edit, *count);
    }
    check_round(&rt, alloc, &Edit::Delete { at: 2, count: 7 }, 1);
    check_round(&rt, alloc, &Edit::Delete { at: 10, count: 0 }, 1);
    check_round(&rt, alloc, &load(&rt, alloc, SMALL_CART_SIZE), 1);
    check_round(&rt, alloc, &load(&rt, alloc, CART_SIZE), 1);
}

/// Fails where an edit's lines aren't these.
fn check_lines<R: Abort>(rt: &R, alloc: Global, edit: &Edit, lines: &str) {
    let mut text = Vec::new(alloc);
    expect_ok(rt, push_edit_lines(&mut text, b"# ", edit));
    check_that(rt, lines, text.as_slice() == lines.as_bytes());
}

#[test]
fn an_edit_has_a_line_for_each_run(rt: HostRuntime) {
    let alloc = rt.alloc();
    let edit = insertion(&rt, alloc, 5, "RR..F");
    check_lines(
        &rt,
        alloc,
        &edit,
        "# insert 5 2 R.... ..... .....\n# insert 7 2 ..... ..... .....\n# insert 9 1 ....F ..... .....\n",
    );
    let edit = replacement(&rt, alloc, 262_140, "FR");
    check_lines(
        &rt,
        alloc,
        &edit,
        "# replace 262140 1 ....F ..... .....\n# replace 262141 1 R.... ..... .....\n",
    );
    let edit = insertion(&rt, alloc, 12, "");
    check_lines(&rt, alloc, &edit, "# insert 12 0 ..... ..... .....\n");
    let edit = replacement(&rt, alloc, 12, "");
    check_lines(&rt, alloc, &edit, "# replace 12 0 ..... ..... .....\n");
    let edit = Edit::Delete { at: 12, count: 345 };
    check_lines(&rt, alloc, &edit, "# delete 12 345\n");
}

#[test]
fn a_place_past_64_bits_has_its_number(rt: HostRuntime) {
    let alloc = rt.alloc();
    let edit = insertion(&rt, alloc, usize::MAX, "R.");
    check_lines(
        &rt,
        alloc,
        &edit,
        "# insert 18446744073709551615 1 R.... ..... .....\n# insert 18446744073709551616 1 ..... ..... .....\n",
    );
}

/// Fails where the line that loads a cartridge of this many bytes hasn't this beginning, this end or this length.
fn check_load<R: Abort>(
    rt: &R,
    alloc: Global,
    size: usize,
    (front, end): (&[u8], &[u8]),
    len: usize,
) {
    let mut text = Vec::new(alloc);
    expect_ok(rt, push_edit_lines(&mut text, b"", &load(rt, alloc, size)));
    let line = text.as_slice();
    check_that(rt, ("front", size), line.starts_with(front));
    check_that(rt, ("end", size), line.ends_with(end));
    check_same(rt, ("length", size), line.len(), len);
}

#[test]
fn an_image_is_one_part(rt: HostRuntime) {
    let alloc = rt.alloc();
    // The last bytes' offsets are 2,047 and 4,095: modulo 251 these are 39 and 79.
    check_load(&rt, alloc, 2048, (b"load2 000=000102", b"252627\n"), 4107);
    check_load(&rt, alloc, 4096, (b"load 000=000102", b"4D4E4F\n"), 8202);
}

/// Lines, and the number of the first entry that they ask for.
static HISTORIES: [(&[u8], usize); 4] = [
    (b"history 0", 0),
    (b"history 2", 2),
    (b"history 1000000", 1_000_000),
    (b"history 9999999", 9_999_999),
];

/// Lines that ask for nothing.
static NO_REQUESTS: [&[u8]; 23] = [
    b"share ",
    b" share",
    b"share 1",
    b"shares",
    b"Share",
    b"history",
    b"history ",
    b"history  1",
    b"history 01",
    b"history -1",
    b"history 1 2",
    b"history 1 ",
    b"history 10000000",
    b"historys 1",
    b"version ",
    b"version 1",
    b"versions",
    b"inputs 3",
    b"inputs 3 3",
    b"inputs 4 3",
    b"inputs 3 1028",
    b"inputs 3  4",
    b"inputs 3 4 5",
];

#[test]
fn share_history_and_version_are_requests(rt: HostRuntime) {
    let is_share = matches!(parse_request(b"share"), Some(Request::Share));
    check_that(&rt, "share", is_share);
    let is_version = matches!(parse_request(b"version"), Some(Request::Version));
    check_that(&rt, "version", is_version);
    for (line, wanted) in HISTORIES.iter() {
        let found = match parse_request(line) {
            Some(Request::History { from }) => Some(from),
            _ => None,
        };
        check_same(&rt, *line, found, Some(*wanted));
    }
    for (number, line) in NO_REQUESTS.iter().enumerate() {
        check_that(&rt, ("line", number), parse_request(line).is_none());
    }
}

/// Lines, and the frames whose inputs they ask for: one at least, and 1,024 at most.
static INPUTS: [(&[u8], (usize, usize)); 3] = [
    (b"inputs 0 1", (0, 1)),
    (b"inputs 3 1027", (3, 1027)),
    (b"inputs 9998975 9999999", (9_998_975, 9_999_999)),
];

#[test]
fn inputs_are_asked_for_by_their_frames(rt: HostRuntime) {
    for (line, wanted) in INPUTS.iter() {
        let found = match parse_request(line) {
            Some(Request::Inputs { from, to }) => Some((from, to)),
            _ => None,
        };
        check_same(&rt, *line, found, Some(*wanted));
    }
}

#[test]
fn no_script_has_these_lines(rt: HostRuntime) {
    check_that(&rt, "share", parse_line(b"share").is_none());
    check_that(&rt, "history", parse_line(b"history 0").is_none());
    check_that(&rt, "version", parse_line(b"version").is_none());
    check_that(&rt, "inputs", parse_line(b"inputs 0 1").is_none());
}

#[test]
fn answers_are_a_line_and_the_entries(rt: HostRuntime) {
    let alloc = rt.alloc();
    let share = expect_ok(&rt, share_answer(alloc, 12, 34));
    check_that(
        &rt,
        "share",
        share.as_slice() == b"share 12 34\n".as_slice(),
    );
    let version = expect_ok(&rt, version_answer(alloc, 7));
    let numbers: &[u8] =
        b"version 0.3.0 profile 7 format 1 bytes picture lag inputs movie history\n";
    check_that(&rt, "version", version.as_slice() == numbers);
    let three = inputs_of(&rt, alloc, "..F");
    let inputs = expect_ok(&rt, inputs_answer(alloc, 4, 99, 102, three.as_slice()));
    let runs: &[u8] = b"inputs 4 99 102 47\n99 2 ..... ..... .....\n101 1 ....F ..... .....\n";
    check_that(&rt, "inputs", inputs.as_slice() == runs);
    let none = expect_ok(&rt, history_answer(alloc, 5, 7, 0, b""));
    check_that(
        &rt,
        "none",
        none.as_slice() == b"history 5 7 0 0\n".as_slice(),
    );
    let lines: &[u8] = b"2 1 delete 0 1\n3 0 delete 0 2\n";
    let some = expect_ok(&rt, history_answer(alloc, 4, 2, 2, lines));
    let wanted: &[u8] = b"history 4 2 2 30\n2 1 delete 0 1\n3 0 delete 0 2\n";
    check_that(&rt, "some", some.as_slice() == wanted);
}
