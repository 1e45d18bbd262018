//! Texts of movies, in lines, and what is read of them.

use crate::checks::{check_same, expect_ok};
use crate::movies::{PLAYFIELD, cart_of};
use std::alloc::Global;
use std::fmt::Display;
use std::process::Abort;
use tas_movie::{Movie, ReadError, TextError, TextErrorKind, print_text, read_text};
use vcs_machine::Cart;

/// The second line of a movie of the playfield's cartridge, with its SHA-256 by another program.
pub const CART_LINE: &[u8] =
    b"cart 820c64e9933496de683a000c5e11f0510fb7b1699b2ce86471295236b284906d\n";

pub const CAPITALS: &[u8] =
    b"cart 820C64E9933496DE683A000C5E11F0510FB7B1699B2CE86471295236B284906D\n";

/// That of 4,096 zeros, by another program.
pub const BLANK_LINE: &[u8] =
    b"cart ad7facb2586fc6e966c004d7d1d16b024f5805ff7cb47c7a85dabd8b48892ca7\n";

/// That of 2,048 zeros.
pub const SMALL_LINE: &[u8] =
    b"cart e5a00aa9991ac8a5ee3109844d84a55583bd20572ad3ffcd42792f3c36b183ad\n";

/// The first line of the older text.
pub const HEAD: &[u8] = b"a26movie 1\n";

/// The first line of the text of runs.
pub const HEAD2: &[u8] = b"a26movie 2\n";

pub const NONE: &[u8] = b"..... ..... .....\n";

pub fn joined<R: Abort>(rt: &R, alloc: Global, parts: &[&[u8]]) -> Vec<u8> {
    let mut bytes = Vec::new(alloc);
    for part in parts {
        expect_ok(rt, bytes.extend_from_slice(part));
    }
    bytes
}

/// How many frames were read, or the line at fault.
pub fn read(alloc: Global, bytes: &[u8], cart: &Cart) -> Result<usize, ReadError> {
    let movie = read_text(alloc, bytes, cart)?;
    Ok(movie.len())
}

pub fn text_error(line: usize, kind: TextErrorKind) -> ReadError {
    ReadError::Text(TextError { line, kind })
}

pub fn at(line: usize, kind: TextErrorKind) -> Result<usize, ReadError> {
    Err(text_error(line, kind))
}

/// What is reported of a text: how many frames it has, or the line at fault and what is wrong with it.
pub type Told = Result<usize, (usize, TextErrorKind)>;

/// What reading such a text answers.
fn answer(told: Told) -> Result<usize, ReadError> {
    match told {
        Ok(frames) => Ok(frames),
        Err((line, kind)) => at(line, kind),
    }
}

/// Whether a text is read as a movie with this cartridge and this many frames, and printed again.
pub fn is_read_and_printed<R: Abort>(
    rt: &R,
    alloc: Global,
    cart: &Cart,
    text: &[u8],
    frames: usize,
) -> bool {
    let movie = expect_ok(rt, read_text(alloc, text, cart));
    movie.cart().bytes() == cart.bytes()
        && movie.len() == frames
        && is_printed(rt, alloc, &movie, text)
}

/// Whether this is the movie's text.
pub fn is_printed<R: Abort>(rt: &R, alloc: Global, movie: &Movie, text: &[u8]) -> bool {
    expect_ok(rt, print_text(alloc, movie)).as_slice() == text
}

/// Fails where something else is reported of a text of these lines, with the playfield's cartridge.
pub fn check_told<R: Abort>(
    rt: &R,
    alloc: Global,
    case: (&'static str, usize),
    lines: &[&[u8]],
    want: Told,
) {
    let cart = cart_of(rt, alloc, PLAYFIELD);
    let text = joined(rt, alloc, lines);
    check_same(rt, case, read(alloc, &text, &cart), answer(want));
}

/// This many lines of a frame with nothing pressed, and then these bytes.
pub fn idle_lines<R: Abort>(rt: &R, alloc: Global, count: usize, end: &[u8]) -> Vec<u8> {
    let mut lines = Vec::new(alloc);
    for _ in 0..count {
        expect_ok(rt, lines.extend_from_slice(NONE));
    }
    expect_ok(rt, lines.extend_from_slice(end));
    lines
}

/// Whether an error reads as these words.
pub fn reads_as<R: Abort, E: Display>(rt: &R, alloc: Global, error: &E, words: &str) -> bool {
    expect_ok(rt, format!(in alloc; "{error}")).as_str() == words
}
