//! Movie texts that are cut off or have one wrong byte.

use crate::checks::{check_same, check_that};
use crate::movies::{PLAYFIELD, cart_of};
use crate::plain_reader::read_plainly;
use crate::texts::{CART_LINE, HEAD, HEAD2, joined, read};
use std::alloc::Global;
use std::fmt::Debug;
use std::process::Abort;
use tas_movie::ReadError;
use vcs_machine::Cart;

/// The frames of an older text.
static FRAMES: &[u8] = b"..... ..... .....\nRL..F .LDU. r.bAB\n..... ..... .....\n";

/// Runs of frames.
static RUNS: &[u8] =
    b"..... ..... ..... x12\nRL..F .LDU. r.bAB\n..... ..... ..... x200\n..... ..... ....B\n";

/// Compares what is read of a text with what the plain reader makes of it.
fn check_read<R: Abort, C: Copy + Debug>(rt: &R, alloc: Global, case: C, text: &[u8], cart: &Cart) {
    let wanted = read_plainly(text, CART_LINE).map_err(ReadError::Text);
    check_same(rt, case, read(alloc, text, cart), wanted);
}

/// Reads a text of this many bytes and frames that is cut off anywhere.
fn check_cuts<R: Abort>(
    rt: &R,
    alloc: Global,
    text: &[u8],
    cart: &Cart,
    (bytes, frames): (usize, usize),
) {
    check_same(rt, "bytes", text.len(), bytes);
    check_same(rt, "frames", read_plainly(text, CART_LINE), Ok(frames));
    for count in 0..=bytes {
        if let Some(front) = text.get(..count) {
            check_read(rt, alloc, ("bytes", count), front, cart);
        }
    }
}

#[test]
fn texts_are_cut_off_anywhere(rt: HostRuntime) {
    let alloc = rt.alloc();
    let cart = cart_of(&rt, alloc, PLAYFIELD);
    let older = joined(&rt, alloc, &[HEAD, CART_LINE, FRAMES]);
    let runs = joined(&rt, alloc, &[HEAD2, CART_LINE, RUNS]);
    check_cuts(&rt, alloc, older.as_slice(), &cart, (135, 3));
    check_cuts(&rt, alloc, runs.as_slice(), &cart, (162, 214));
}

/// Reads the text with this byte at one place.
fn check_spoilt<R: Abort>(
    rt: &R,
    alloc: Global,
    text: &mut [u8],
    cart: &Cart,
    (place, byte): (usize, u8),
) {
    check_that(rt, ("a place", place), place < text.len());
    let before = text[place];
    text[place] = byte;
    check_read(rt, alloc, ("byte at", place, byte), text, cart);
    text[place] = before;
}

/// Reads the text with each other byte at each of some places, and compares it with the plain reader.
fn spoil<R: Abort>(rt: &R, alloc: Global, text: &mut [u8], (from, to): (usize, usize)) {
    let cart = cart_of(rt, alloc, PLAYFIELD);
    for place in from..to {
        for byte in 0..=255u8 {
            check_spoilt(rt, alloc, text, &cart, (place, byte));
        }
    }
}

#[test]
fn each_byte_may_be_wrong(rt: HostRuntime) {
    let mut older = joined(&rt, rt.alloc(), &[HEAD, CART_LINE, FRAMES]);
    spoil(&rt, rt.alloc(), older.as_mut_slice(), (0, 100));
}

#[test]
fn each_byte_of_runs_may_be_wrong(rt: HostRuntime) {
    let mut runs = joined(&rt, rt.alloc(), &[HEAD2, CART_LINE, RUNS]);
    spoil(&rt, rt.alloc(), runs.as_mut_slice(), (9, 11));
    spoil(&rt, rt.alloc(), runs.as_mut_slice(), (80, 162));
}
