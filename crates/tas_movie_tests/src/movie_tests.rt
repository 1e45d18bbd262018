//! Movies: limits, edits and copies.

use crate::checks::{check_same, check_that, expect_ok, expect_some};
use crate::movies::{PLAYFIELD, cart_of, idle};
use crate::texts::{is_printed, reads_as};
use std::alloc::Global;
use std::process::Abort;
use tas_movie::{
    Edit, EditRefusal, Inputs, Movie, apply, check, print_frame, print_text, read_frame, read_text,
};
use vcs_machine::{Cart, CartError, Input};

fn make(movie: &mut Movie, edit: &Edit) -> Result<(), EditRefusal> {
    check(movie, edit)?;
    apply(movie, edit);
    Ok(())
}

/// Puts this many inputs with nothing pressed in at a place.
fn insert<R: Abort>(
    rt: &R,
    alloc: Global,
    movie: &mut Movie,
    at: usize,
    count: usize,
) -> Result<(), EditRefusal> {
    let inputs = idle(rt, alloc, count);
    make(movie, &Edit::Insert { at, inputs })
}

/// How an edit ends.
type Made = Result<(), EditRefusal>;

/// Where this many inputs are put in, one after the other, how each ends, and how long the movie is then.
static INSERTIONS: [(usize, usize, Made, usize); 4] = [
    (0, 262145, Err(EditRefusal::Long { len: 0 }), 0),
    (0, 262144, Ok(()), 262144),
    (0, 1, Err(EditRefusal::Long { len: 262144 }), 262144),
    (
        262145,
        1,
        Err(EditRefusal::Place {
            at: 262145,
            len: 262144,
        }),
        262144,
    ),
];

/// Checks the limits on a movie without frames.
fn check_limits<R: Abort>(rt: &R, alloc: Global, movie: &mut Movie) {
    check_that(rt, "empty", movie.is_empty());
    for (at, count, want, len) in INSERTIONS.iter() {
        let answer = insert(rt, alloc, movie, *at, *count);
        let found = (answer, movie.len());
        check_same(rt, ("insert", *at, *count), found, (*want, *len));
    }
    let inputs = idle(rt, alloc, 0);
    let replaced = make(movie, &Edit::Replace { at: 262144, inputs });
    let found = (replaced, movie.len());
    check_same(rt, "replace none", found, (Ok(()), 262144));
}

#[test]
fn limits(rt: HostRuntime) {
    let alloc = rt.alloc();
    let mut blank = expect_ok(&rt, Movie::blank(alloc));
    check_limits(&rt, alloc, &mut blank);
    let cart = cart_of(&rt, alloc, PLAYFIELD);
    let mut movie = expect_ok(&rt, Movie::new(alloc, &cart));
    check_limits(&rt, alloc, &mut movie);
}

const FAR: usize = usize::MAX;

/// Where this many inputs are taken out of a movie that has none, and how this ends.
static DELETIONS: [(usize, usize, Made); 3] = [
    (0, 0, Ok(())),
    (0, 1, Err(EditRefusal::Place { at: 0, len: 0 })),
    (FAR, FAR, Err(EditRefusal::Place { at: FAR, len: 0 })),
];

#[test]
fn places_past_the_end(rt: HostRuntime) {
    let alloc = rt.alloc();
    let mut movie = expect_ok(&rt, Movie::blank(alloc));
    for (at, count, want) in DELETIONS.iter() {
        let (at, count) = (*at, *count);
        let answer = make(&mut movie, &Edit::Delete { at, count });
        check_same(&rt, ("delete", at, count), answer, *want);
    }
    let inputs = idle(&rt, alloc, 1);
    let replaced = make(&mut movie, &Edit::Replace { at: 0, inputs });
    let place = Err(EditRefusal::Place { at: 0, len: 0 });
    check_same(&rt, ("replace", 0, 1), replaced, place);
}

static REFUSALS: [(EditRefusal, &str); 2] = [
    (EditRefusal::Place { at: 9, len: 8 }, "place 9 of 8"),
    (EditRefusal::Long { len: 262144 }, "too long at 262144"),
];

static CART_ERRORS: [(CartError, &str); 2] = [
    (CartError::Size(7), "cartridge has 7 bytes"),
    (CartError::Memory, "out of memory"),
];

#[test]
fn refusals_in_words(rt: HostRuntime) {
    let alloc = rt.alloc();
    for (refusal, words) in REFUSALS.iter() {
        check_that(&rt, *words, reads_as(&rt, alloc, refusal, *words));
    }
    for (error, words) in CART_ERRORS.iter() {
        check_that(&rt, *words, reads_as(&rt, alloc, error, *words));
    }
}

/// The text of a movie of the playfield's cartridge and three frames.
const SAMPLE: &[u8] =
    b"a26movie 2\ncart 820c64e9933496de683a000c5e11f0510fb7b1699b2ce86471295236b284906d\n..... ..... .....\nR.... ..... .....\n..... ..... .....\n";

/// The movie of this text.
fn sample<R: Abort>(rt: &R, alloc: Global) -> Movie {
    let cart = cart_of(rt, alloc, PLAYFIELD);
    expect_ok(rt, read_text(alloc, SAMPLE, &cart))
}

/// Checks that a copy of the edit makes of a movie's copy what the edit makes of the movie, which has another text then.
fn check_copied_edit<R: Abort>(
    rt: &R,
    alloc: Global,
    kind: &str,
    edit: &Edit,
    (movie, copy): (&mut Movie, &mut Movie),
) {
    expect_ok(rt, make(movie, edit));
    expect_ok(rt, make(copy, &expect_ok(rt, edit.copy(alloc))));
    let changed = expect_ok(rt, print_text(alloc, movie));
    check_that(rt, (kind, "after"), is_printed(rt, alloc, copy, &changed));
    check_that(rt, (kind, "changed"), changed.as_slice() != SAMPLE);
}

/// Checks that a copy of the edit makes of a copy of a movie what the edit makes of the movie, which isn't the same movie.
fn check_copy<R: Abort>(rt: &R, alloc: Global, kind: &str, edit: &Edit) {
    let mut movie = sample(rt, alloc);
    let mut copy = expect_ok(rt, movie.copy(alloc));
    check_that(rt, (kind, "before"), is_printed(rt, alloc, &copy, SAMPLE));
    check_copied_edit(rt, alloc, kind, edit, (&mut movie, &mut copy));
}

#[test]
fn copies_of_edits(rt: HostRuntime) {
    let alloc = rt.alloc();
    let blank = expect_ok(&rt, Cart::blank(alloc));
    check_copy(&rt, alloc, "load", &Edit::Load(blank));
    let inputs = idle(&rt, alloc, 2);
    check_copy(&rt, alloc, "insert", &Edit::Insert { at: 1, inputs });
    let inputs = idle(&rt, alloc, 1);
    check_copy(&rt, alloc, "replace", &Edit::Replace { at: 1, inputs });
    check_copy(&rt, alloc, "delete", &Edit::Delete { at: 1, count: 1 });
}

#[test]
fn copies(rt: HostRuntime) {
    let alloc = rt.alloc();
    let cart = cart_of(&rt, alloc, PLAYFIELD);
    let is_copied = expect_ok(&rt, cart.copy(alloc)).bytes() == cart.bytes();
    check_that(&rt, "cartridge", is_copied);
    let inputs = idle(&rt, alloc, 2);
    let copied = expect_ok(&rt, inputs.copy(alloc)).into_vec();
    check_that(&rt, "inputs", copied.as_slice() == inputs.as_slice());
}

fn pressed(input: Input) -> [bool; 15] {
    let left = input.left;
    let right = input.right;
    [
        left.right,
        left.left,
        left.down,
        left.up,
        left.fire,
        right.right,
        right.left,
        right.down,
        right.up,
        right.fire,
        input.reset,
        input.select,
        input.mono,
        input.left_a,
        input.right_a,
    ]
}

#[test]
fn letters_of_a_frame(rt: HostRuntime) {
    let full = b"RLDUF RLDUF rsbAB";
    let mut number = 0;
    for (place, letter) in full.iter().enumerate() {
        let mut line = *b"..... ..... .....";
        if *letter == b' ' {
            continue;
        }
        line[place] = *letter;
        let input = expect_some(&rt, read_frame(&line));
        for (other, is_pressed) in pressed(input).iter().enumerate() {
            check_same(&rt, ("of", other, number), *is_pressed, other == number);
        }
        check_same(&rt, "print_frame", print_frame(input), line);
        number = number.wrapping_add(1);
    }
}

/// Puts in three inputs with nothing pressed and two equal ones between, writes over the first of these, and takes the last
/// two inputs out.
fn edit_list<R: Abort>(rt: &R, alloc: Global, movie: &mut Movie, input: Input) {
    expect_ok(rt, insert(rt, alloc, movie, 0, 3));
    let inputs = expect_ok(rt, Inputs::repeated(alloc, input, 2));
    let are_two = inputs.as_slice() == [input, input].as_slice();
    check_that(rt, "two inputs", are_two);
    let edit = Edit::Insert { at: 1, inputs };
    check_same(rt, "place", edit.place(), 1);
    expect_ok(rt, make(movie, &edit));
    let inputs = idle(rt, alloc, 1);
    expect_ok(rt, make(movie, &Edit::Replace { at: 1, inputs }));
    expect_ok(rt, make(movie, &Edit::Delete { at: 3, count: 2 }));
}

#[test]
fn edits_of_a_list(rt: HostRuntime) {
    let alloc = rt.alloc();
    let mut movie = expect_ok(&rt, Movie::blank(alloc));
    let fire = expect_some(&rt, read_frame(b"....F ..... ....."));
    edit_list(&rt, alloc, &mut movie, fire);
    let none = Input::none();
    check_that(
        &rt,
        "inputs",
        movie.inputs() == [none, none, fire].as_slice(),
    );
    check_same(&rt, "length", movie.len(), 3);
    check_same(&rt, "last input", movie.input(2), fire);
}
