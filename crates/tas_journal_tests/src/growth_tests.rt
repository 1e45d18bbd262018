//! Growths that are refused to those who write journals and recover them.

use crate::checks::{check_same, check_that, expect_ok};
use crate::journals::{HEAD, JOURNAL, first_movie, inputs_of, joined, text_after};
use refusals::Refusing;
use std::alloc::Global;
use std::process::Abort;
use tas_journal::{RecoverError, push_entry, recover, write_head};
use tas_movie::{Edit, Movie, print_text};
use vcs_machine::Cart;

/// Nothing here grows so often.
const MOST: u64 = 1000;

/// Memory that refuses the growth with this number, counted from 1.
fn refusing(alloc: Global, number: u64) -> Refusing<Global> {
    Refusing::new(alloc, number.max(1))
}

/// Whether the head was written with a growth refused, or the growth never came.
fn head_is_whole<R: Abort>(rt: &R, alloc: Global, movie: &Movie, number: u64) -> bool {
    let heap = refusing(alloc, number);
    let head = write_head(&heap, movie);
    if heap.has_refused() {
        check_that(rt, ("head", number), head.is_err());
        return false;
    }
    let head = expect_ok(rt, head);
    check_that(rt, ("head", number), head.as_slice() == HEAD);
    true
}

/// The same of a line after another one; a refused growth leaves the text as it was.
fn line_is_whole<R: Abort>(rt: &R, alloc: Global, edit: &Edit, number: u64, line: &[u8]) -> bool {
    let heap = refusing(alloc, MOST);
    let mut text = Vec::new(&heap);
    expect_ok(rt, text.extend_from_slice(b"line\n"));
    heap.refuse(number.max(1));
    let end = push_entry(&heap, &mut text, 3, 12, edit);
    let is_refused = heap.has_refused();
    check_same(rt, ("end", number), end.is_err(), is_refused);
    let wanted = if is_refused {
        b"line\n".as_slice()
    } else {
        line
    };
    check_that(rt, ("text", number), text.as_slice() == wanted);
    !is_refused
}

/// The same of a recovery.
fn movie_is_whole<R: Abort>(rt: &R, alloc: Global, journal: &[u8], number: u64) -> bool {
    let cart = expect_ok(rt, Cart::blank(alloc));
    let heap = refusing(alloc, number);
    match recover(&heap, journal, &cart, usize::MAX) {
        Ok(found) => {
            check_that(rt, ("not refused", number), !heap.has_refused());
            let text = expect_ok(rt, print_text(alloc, &found.movie));
            let wanted = text_after(rt, alloc, found.edits);
            check_that(rt, ("text", number), text == wanted);
            true
        }
        Err(error) => {
            check_that(rt, ("refused", number), heap.has_refused());
            check_same(rt, ("error", number), error, RecoverError::Memory);
            false
        }
    }
}

#[test]
fn growths_of_a_head(rt: HostRuntime) {
    let alloc = rt.alloc();
    let movie = first_movie(&rt, alloc);
    for number in 1..MOST {
        if head_is_whole(&rt, alloc, &movie, number) {
            check_that(&rt, ("growths", number), number > 1);
            return;
        }
    }
    check_that(&rt, "an end", false);
}

#[test]
fn growths_of_a_line(rt: HostRuntime) {
    let alloc = rt.alloc();
    let right: &[u8] = b"R.... ..... .....";
    let still: &[u8] = b"..... ..... .....";
    let inputs = inputs_of(&rt, alloc, &[right, right, still]);
    let edit = Edit::Replace { at: 7, inputs };
    let line = b"line\n3 12 replace 7 2 R.... ..... ..... 1 ..... ..... .....\n";
    for number in 1..MOST {
        if line_is_whole(&rt, alloc, &edit, number, line) {
            check_that(&rt, ("growths", number), number > 1);
            return;
        }
    }
    check_that(&rt, "an end", false);
}

#[test]
fn growths_of_a_recovery(rt: HostRuntime) {
    let alloc = rt.alloc();
    let journal = joined(&rt, alloc, JOURNAL, b"");
    for number in 1..MOST {
        if movie_is_whole(&rt, alloc, journal.as_slice(), number) {
            check_that(&rt, ("growths", number), number > 1);
            return;
        }
    }
    check_that(&rt, "an end", false);
}
