//! Lines that load a cartridge.

use crate::checks::{check_same, check_that, expect_ok};
use crate::journals::{HEAD, fault_of, joined};
use std::alloc::Global;
use std::process::Abort;
use tas_journal::{JournalError, JournalErrorKind, RecoverError, push_entry, recover};
use tas_movie::{Edit, print_text};
use vcs_machine::Cart;

/// An image of this many bytes, each of them its offset modulo 251.
fn image_of<R: Abort>(rt: &R, alloc: Global, size: usize) -> Vec<u8> {
    let mut bytes = Vec::new(alloc);
    for offset in 0..size {
        expect_ok(rt, bytes.push((offset % 251) as u8));
    }
    bytes
}

/// Appends some bytes as upper case hexadecimal digits.
fn push_digits<R: Abort>(rt: &R, text: &mut Vec<u8>, bytes: &[u8]) {
    let digits = b"0123456789ABCDEF";
    for byte in bytes {
        for digit in [*byte / 16, *byte % 16] {
            let letter = digits.get(digit as usize).copied().unwrap_or(b'?');
            expect_ok(rt, text.push(letter));
        }
    }
}

/// The line of the entry 0 of seat 5 that loads an image, by hand.
fn line_of<R: Abort>(rt: &R, alloc: Global, word: &[u8], image: &[u8]) -> Vec<u8> {
    let mut line = joined(rt, alloc, b"0 5 ", word);
    expect_ok(rt, line.extend_from_slice(b" 000="));
    push_digits(rt, &mut line, image);
    expect_ok(rt, line.push(b'\n'));
    line
}

/// How many bytes an image has, its word, and the text of a movie of it with one frame. The digests come from another program.
static IMAGES: [(usize, &[u8], &[u8]); 2] = [
    (
        2048,
        b"load2",
        b"a26movie 2\ncart b2a8170614e23194ae2951423d601987f518ce2f11205d7b0b708080103b9f76\n..... ..... .....\n",
    ),
    (
        4096,
        b"load",
        b"a26movie 2\ncart d67c656e01756650d77717b0839985a056ec28ffe174601d690fc407a2ceffca\n..... ..... .....\n",
    ),
];

/// A line has the whole image, and the movie has the cartridge from then on.
#[test]
fn cartridges_are_loaded(rt: HostRuntime) {
    let alloc = rt.alloc();
    for row in IMAGES.iter() {
        let (size, word, text) = *row;
        let image = image_of(&rt, alloc, size);
        let line = line_of(&rt, alloc, word, image.as_slice());
        let edit = Edit::Load(expect_ok(&rt, Cart::from_bytes(alloc, image.as_slice())));
        let mut written = Vec::new(alloc);
        expect_ok(&rt, push_entry(alloc, &mut written, 0, 5, &edit));
        check_that(&rt, ("line", size), written == line);
        let one = joined(&rt, alloc, HEAD, line.as_slice());
        let journal = joined(&rt, alloc, one.as_slice(), b"1 5 delete 0 3\n");
        let cart = expect_ok(&rt, Cart::blank(alloc));
        let found = expect_ok(&rt, recover(alloc, journal.as_slice(), &cart, usize::MAX));
        check_same(&rt, ("edits", size), (found.edits, found.cut), (2, false));
        let is_loaded = found.movie.cart().bytes() == image.as_slice();
        check_that(&rt, ("cartridge", size), is_loaded);
        check_that(&rt, ("image", size), found.image() == image.as_slice());
        // The line that loads it is left out.
        let before = expect_ok(&rt, recover(alloc, journal.as_slice(), &cart, 7));
        check_that(&rt, ("before", size), before.image() == cart.bytes());
        let printed = expect_ok(&rt, print_text(alloc, &found.movie));
        check_that(&rt, ("text", size), printed.as_slice() == text);
    }
}

/// An image in two parts is no entry, nor is one with a byte less or more, or another word.
#[test]
fn images_at_fault(rt: HostRuntime) {
    let alloc = rt.alloc();
    let small = image_of(&rt, alloc, 2048);
    let error = RecoverError::Journal(JournalError {
        line: 7,
        kind: JournalErrorKind::Edit,
    });
    let mut parts = line_of(&rt, alloc, b"load", small.as_slice());
    let _newline = parts.pop();
    expect_ok(&rt, parts.extend_from_slice(b" 800="));
    push_digits(&rt, &mut parts, small.as_slice());
    expect_ok(&rt, parts.push(b'\n'));
    let journal = joined(&rt, alloc, HEAD, parts.as_slice());
    let found = fault_of(&rt, alloc, journal.as_slice(), usize::MAX);
    check_same(&rt, "two parts", found, Some(error));
    for size in [2047usize, 2048, 2049, 4095, 4097] {
        let image = image_of(&rt, alloc, size);
        let line = line_of(&rt, alloc, b"load", image.as_slice());
        let journal = joined(&rt, alloc, HEAD, line.as_slice());
        let found = fault_of(&rt, alloc, journal.as_slice(), usize::MAX);
        check_same(&rt, ("load", size), found, Some(error));
    }
    for size in [2047usize, 2049, 4096] {
        let image = image_of(&rt, alloc, size);
        let line = line_of(&rt, alloc, b"load2", image.as_slice());
        let journal = joined(&rt, alloc, HEAD, line.as_slice());
        let found = fault_of(&rt, alloc, journal.as_slice(), usize::MAX);
        check_same(&rt, ("load2", size), found, Some(error));
    }
}
