//! Cartridges of the tests, and the lines of their traces.

use crate::checks::{check_same, check_that, expect_ok};
use std::alloc::Global;
use std::fmt::Debug;
use std::process::Abort;
use vcs_machine::{Cart, trace};

/// Bytes from an offset of a cartridge on.
pub type Part<'a> = (usize, &'a [u8]);

/// The vector of a program that starts at F000.
pub const START: Part<'static> = (0xffc, &[0x00, 0xf0]);

/// A cartridge of 4,096 zeros with these bytes.
pub fn cart_with<R: Abort>(rt: &R, alloc: Global, parts: &[Part<'_>]) -> Cart {
    cart_of_size(rt, alloc, 4096, parts)
}

/// A cartridge of this many zeros with these bytes.
pub fn cart_of_size<R: Abort>(rt: &R, alloc: Global, size: usize, parts: &[Part<'_>]) -> Cart {
    let mut image = expect_ok(rt, vec![in alloc; 0u8; size]);
    set_parts(&mut image, parts);
    expect_ok(rt, Cart::from_bytes(alloc, &image))
}

/// Sets these bytes of an image, where they lie in it.
fn set_parts(image: &mut [u8], parts: &[Part<'_>]) {
    for (offset, bytes) in parts {
        let place = image.get_mut(*offset..offset.saturating_add(bytes.len()));
        if let Some(place) = place {
            place.copy_from_slice(*bytes);
        }
    }
}

/// A cartridge whose program stands at F000 and starts there.
pub fn program<R: Abort>(rt: &R, alloc: Global, bytes: &[u8]) -> Cart {
    cart_with(rt, alloc, &[(0, bytes), START])
}

/// The lines of a cartridge's first instructions.
pub fn traced<R: Abort>(rt: &R, alloc: Global, cart: &Cart, count: u32) -> Vec<u8> {
    let mut text = Vec::new(alloc);
    check_that(rt, "a trace", trace(cart, count, &mut text).is_ok());
    text
}

/// Compares the lines of a cartridge's first instructions with these.
pub fn check_lines<R: Abort, C: Copy + Debug>(
    rt: &R,
    alloc: Global,
    case: C,
    cart: &Cart,
    (count, lines): (u32, &[u8]),
) {
    let text = traced(rt, alloc, cart, count);
    check_same(rt, case, text.as_slice(), lines);
}

/// The parts of a cartridge, how many instructions, and the text of their trace by hand.
pub type Traced = (&'static [Part<'static>], u32, &'static [u8]);

/// Compares the traces of cartridges of this many bytes with these.
pub fn check_traces<R: Abort>(rt: &R, alloc: Global, size: usize, rows: &[Traced]) {
    for (row, (parts, count, wanted)) in rows.iter().enumerate() {
        let cart = cart_of_size(rt, alloc, size, *parts);
        check_lines(rt, alloc, ("row", row), &cart, (*count, *wanted));
    }
}

/// Puts the two digits of a byte in place of each pair of a sign.
fn put_digits(text: &mut [u8], sign: u8, byte: u8) {
    let digits = b"0123456789ABCDEF";
    let mut is_second = false;
    for place in text.iter_mut() {
        if *place == sign {
            let digit = if is_second { byte % 16 } else { byte / 16 };
            *place = digits[digit as usize];
            is_second = !is_second;
        }
    }
}

/// A text with the two digits of each of these bytes in place of each pair of its sign.
pub fn filled<R: Abort>(rt: &R, alloc: Global, text: &[u8], bytes: &[(u8, u8)]) -> Vec<u8> {
    let mut filled = expect_ok(rt, Vec::from_slice(alloc, text));
    for (sign, byte) in bytes {
        put_digits(&mut filled, *sign, *byte);
    }
    filled
}

/// The line of a halt.
pub fn halt_line<R: Abort>(rt: &R, alloc: Global, address: u16, opcode: u8) -> Vec<u8> {
    let [low, high] = address.to_le_bytes();
    let bytes = [(b'+', high), (b'-', low), (b'?', opcode)];
    filled(rt, alloc, b"++-- ?? halt\n", &bytes)
}
