//! A journal by hand, and movies of the tests. The digests come from another program.

use crate::checks::{expect_ok, expect_some};
use std::alloc::Global;
use std::process::Abort;
use tas_journal::{RecoverError, recover};
use tas_movie::{Inputs, Movie, print_text, read_frame, read_text};
use vcs_machine::Cart;

/// The first two lines of the text of a movie of the blank cartridge, which is 4,096 zeros.
pub const BLANK: &[u8] =
    b"a26movie 2\ncart ad7facb2586fc6e966c004d7d1d16b024f5805ff7cb47c7a85dabd8b48892ca7\n";

/// Its text with four frames of nothing pressed.
pub const BEGAN: &[u8] =
    b"a26movie 2\ncart ad7facb2586fc6e966c004d7d1d16b024f5805ff7cb47c7a85dabd8b48892ca7\n..... ..... ..... x4\n";

/// How many bytes the first line of a journal has, and the first two.
pub const FORMAT_SIZE: usize = 13;

pub const PROFILE_SIZE: usize = 23;

/// The head of a journal that begins with this movie: six lines.
pub const HEAD: &[u8] =
    b"a26journal 1\nprofile 2\nmovie 102 43664d8aaf9fba22cf19cef088368c3153291d01d48b007673f6c423589c8bd4\na26movie 2\ncart ad7facb2586fc6e966c004d7d1d16b024f5805ff7cb47c7a85dabd8b48892ca7\n..... ..... ..... x4\n";

/// A journal with this head and four edits, of three seats.
pub const JOURNAL: &[u8] =
    b"a26journal 1\nprofile 2\nmovie 102 43664d8aaf9fba22cf19cef088368c3153291d01d48b007673f6c423589c8bd4\na26movie 2\ncart ad7facb2586fc6e966c004d7d1d16b024f5805ff7cb47c7a85dabd8b48892ca7\n..... ..... ..... x4\n0 0 replace 1 2 R.... ..... .....\n1 4294967295 insert 4 1 ....F ..... ..... 2 .L... ..... r....\n2 7 delete 0 2\n3 0 insert 0 0 ..... ..... .....\n";

/// The lines of the frames of the movie that its first edits make: none of them, one, and so on.
static FRAMES: [&[u8]; 5] = [
    b"..... ..... ..... x4\n",
    b"..... ..... .....\nR.... ..... ..... x2\n..... ..... .....\n",
    b"..... ..... .....\nR.... ..... ..... x2\n..... ..... .....\n....F ..... .....\n.L... ..... r.... x2\n",
    b"R.... ..... .....\n..... ..... .....\n....F ..... .....\n.L... ..... r.... x2\n",
    b"R.... ..... .....\n..... ..... .....\n....F ..... .....\n.L... ..... r.... x2\n",
];

/// Some bytes and others after them.
pub fn joined<R: Abort>(rt: &R, alloc: Global, first: &[u8], then: &[u8]) -> Vec<u8> {
    let mut bytes = expect_ok(rt, Vec::from_slice(alloc, first));
    expect_ok(rt, bytes.extend_from_slice(then));
    bytes
}

/// The text of the movie that the first edits of the journal make.
pub fn text_after<R: Abort>(rt: &R, alloc: Global, edits: usize) -> Vec<u8> {
    let frames = expect_some(rt, FRAMES.get(edits).copied());
    joined(rt, alloc, BLANK, frames)
}

/// The movie with which the journal begins.
pub fn first_movie<R: Abort>(rt: &R, alloc: Global) -> Movie {
    let cart = expect_ok(rt, Cart::blank(alloc));
    expect_ok(rt, read_text(alloc, BEGAN, &cart))
}

/// The inputs of these frames.
pub fn inputs_of<R: Abort>(rt: &R, alloc: Global, frames: &[&[u8]]) -> Inputs {
    let mut list = Vec::new(alloc);
    for frame in frames {
        let input = expect_some(rt, read_frame(frame));
        expect_ok(rt, list.push(input));
    }
    Inputs::from_vec(list)
}

/// What is recovered from a journal of the blank cartridge: the movie's text, how many edits it has, and whether its last line was cut.
pub fn recovered<R: Abort>(
    rt: &R,
    alloc: Global,
    journal: &[u8],
    until: usize,
) -> (Vec<u8>, usize, bool) {
    let cart = expect_ok(rt, Cart::blank(alloc));
    let found = expect_ok(rt, recover(alloc, journal, &cart, until));
    let text = expect_ok(rt, print_text(alloc, &found.movie));
    (text, found.edits, found.cut)
}

/// Why nothing is recovered from a journal of the blank cartridge.
pub fn fault_of<R: Abort>(
    rt: &R,
    alloc: Global,
    journal: &[u8],
    until: usize,
) -> Option<RecoverError> {
    let cart = expect_ok(rt, Cart::blank(alloc));
    recover(alloc, journal, &cart, until).err()
}
