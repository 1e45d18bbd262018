//! Pictures, cartridges, movies, edits and texts.

use crate::checks::{check_same, expect_ok};
use crate::edits::{Change, edit_of};
use crate::fixtures::{PLAYFIELD, are_equal, image, movie_of, right};
use crate::runs::{Heap, MOST, NEVER, NOT_TOLD, Run, count_growths, is_over, refuse, refusing};
use std::alloc::{AllocError, Global};
use std::process::Abort;
use tas_movie::{Edit, Inputs, Movie, ReadError, TextError, TextErrorKind, print_text, read_text};
use vcs_machine::{Cart, CartError, Input};
use vcs_tia::Picture;

/// A call that makes something of a movie and its text.
#[derive(Clone, Copy)]
enum Making {
    BlankPicture,
    CartFromBytes,
    BlankCart,
    CopyCart,
    BlankMovie,
    NewMovie,
    CopyMovie,
    RepeatInput,
    CopyInputs,
    ReadText,
    PrintText,
}

/// Each such call, its name, and how many growths it has: a picture, a cartridge and a list of inputs have one each, a movie those of
/// its cartridge and its inputs. A text is read into a movie, and printed into one list.
static MAKINGS: [(Making, &str, u64); 11] = [
    (Making::BlankPicture, "BlankPicture", 1),
    (Making::CartFromBytes, "CartFromBytes", 1),
    (Making::BlankCart, "BlankCart", 1),
    (Making::CopyCart, "CopyCart", 1),
    (Making::BlankMovie, "BlankMovie", 2),
    (Making::NewMovie, "NewMovie", 2),
    (Making::CopyMovie, "CopyMovie", 2),
    (Making::RepeatInput, "RepeatInput", 1),
    (Making::CopyInputs, "CopyInputs", 1),
    (Making::ReadText, "ReadText", 2),
    (Making::PrintText, "PrintText", 1),
];

/// What the calls are made of.
#[derive(Drop)]
struct Made {
    movie: Movie,
    inputs: Inputs,
    text: Vec<u8>,
}

/// Whether a cartridge is made of its bytes, where memory isn't refused.
fn cart_from_bytes(heap: &Heap) -> Result<bool, AllocError> {
    let image = image(PLAYFIELD);
    match Cart::from_bytes(heap, &image) {
        Ok(cart) => Ok(cart.bytes() == image.as_slice()),
        Err(CartError::Memory) => Err(AllocError),
        Err(CartError::Size(_)) => Ok(false),
    }
}

/// Whether the movie is read from its text, where memory isn't refused.
fn read(heap: &Heap, movie: &Movie, text: &[u8]) -> Result<bool, AllocError> {
    match read_text(heap, text, movie.cart()) {
        Ok(read) => Ok(are_equal(&read, movie)),
        Err(ReadError::Memory) => Err(AllocError),
        Err(ReadError::Text(_)) => Ok(false),
    }
}

/// Whether a movie has this cartridge and no inputs.
fn is_new(movie: &Movie<&Heap>, cart: &Cart) -> bool {
    movie.is_empty() && movie.cart().bytes() == cart.bytes()
}

/// Whether what the call makes is right, where memory isn't refused.
fn make(heap: &Heap, made: &Made, making: Making) -> Result<bool, AllocError> {
    let (movie, cart, text) = (&made.movie, made.movie.cart(), made.text.as_slice());
    let (inputs, three) = (&made.inputs, [right(); 3]);
    let is_right = match making {
        Making::BlankPicture => Picture::blank(heap)?.lit() == 0,
        Making::CartFromBytes => cart_from_bytes(heap)?,
        Making::BlankCart => Cart::blank(heap)?.bytes() == [0u8; 4096].as_slice(),
        Making::CopyCart => cart.copy(heap)?.bytes() == cart.bytes(),
        Making::BlankMovie => Movie::blank(heap)?.is_empty(),
        Making::NewMovie => is_new(&Movie::new(heap, cart)?, cart),
        Making::CopyMovie => are_equal(&movie.copy(heap)?, movie),
        Making::RepeatInput => Inputs::repeated(heap, right(), 3)?.as_slice() == three.as_slice(),
        Making::CopyInputs => inputs.copy(heap)?.as_slice() == inputs.as_slice(),
        Making::ReadText => read(heap, movie, text)?,
        Making::PrintText => print_text(heap, movie)?.as_slice() == text,
    };
    Ok(is_right)
}

/// The call with one growth refused, and the same call after it.
fn run_making(alloc: Global, made: &Made, making: Making, number: u64) -> Run {
    let heap = refusing(alloc, number);
    let mut answer = make(&heap, made, making);
    let has_refused = heap.has_refused();
    if has_refused {
        if answer.is_ok() {
            return NOT_TOLD;
        }
        answer = make(&heap, made, making);
    }
    Run::ended(has_refused, matches!(answer, Ok(true)))
}

/// How many growths the call of this name has, each of which is refused in turn.
fn growths_of<R: Abort>(rt: &R, alloc: Global, made: &Made, making: Making, name: &str) -> u64 {
    count_growths(|number| is_over(rt, (name, number), run_making(alloc, made, making, number)))
}

fn make_all<R: Abort>(rt: &R, alloc: Global) -> Made {
    let movie = movie_of(rt, alloc, PLAYFIELD, Input::none(), 3);
    let text = expect_ok(rt, print_text(alloc, &movie));
    let inputs = expect_ok(rt, Inputs::repeated(alloc, right(), 3));
    Made {
        movie,
        inputs,
        text,
    }
}

/// Compares how many growths each call has.
fn check_makings<R: Abort>(rt: &R, alloc: Global, made: &Made) {
    for row in MAKINGS.iter() {
        let (making, name, growths) = *row;
        let found = growths_of(rt, alloc, made, making, name);
        check_same(rt, name, found, growths);
    }
}

#[test]
fn what_is_made_of_a_movie(rt: HostRuntime) {
    let alloc = rt.alloc();
    check_makings(&rt, alloc, &make_all(&rt, alloc));
}

/// What is wrong with a text of this first line where the growth with this number is refused, and whether it was.
fn fault_of(alloc: Global, cart: &Cart, number: u64) -> (Option<ReadError>, bool) {
    let heap = refusing(alloc, number);
    let fault = read_text(&heap, b"a26movie 3\n", cart).err();
    (fault, heap.has_refused())
}

/// The fault of that text.
const HEAD: ReadError = ReadError::Text(TextError {
    line: 1,
    kind: TextErrorKind::Head,
});

/// What is wrong where a growth is refused, and whether it was: memory is asked for before the text is looked at.
static FAULTS: [(u64, ReadError, bool); 3] = [
    (1, ReadError::Memory, true),
    (2, ReadError::Memory, true),
    (NEVER, HEAD, false),
];

#[test]
fn memory_comes_before_a_fault_of_the_text(rt: HostRuntime) {
    let alloc = rt.alloc();
    let cart = expect_ok(&rt, Cart::blank(alloc));
    for row in FAULTS.iter() {
        let (number, wanted, has_refused) = *row;
        let found = fault_of(alloc, &cart, number);
        check_same(&rt, ("growth", number), found, (Some(wanted), has_refused));
    }
}

/// Whether two edits are equal.
fn are_same<'a>(one: &Edit<&'a Heap>, other: &Edit<&'a Heap>) -> bool {
    match (one, other) {
        (Edit::Load(cart), Edit::Load(copy)) => cart.bytes() == copy.bytes(),
        (
            Edit::Insert { at, inputs },
            Edit::Insert {
                at: place,
                inputs: copy,
            },
        ) => at == place && inputs.as_slice() == copy.as_slice(),
        (
            Edit::Replace { at, inputs },
            Edit::Replace {
                at: place,
                inputs: copy,
            },
        ) => at == place && inputs.as_slice() == copy.as_slice(),
        (
            Edit::Delete { at, count },
            Edit::Delete {
                at: place,
                count: number,
            },
        ) => at == place && count == number,
        _ => false,
    }
}

/// Whether the copy of an edit is equal to it, where memory isn't refused.
fn copy_edit<'a>(heap: &'a Heap, edit: &Edit<&'a Heap>) -> Result<bool, AllocError> {
    match edit.copy(heap) {
        Ok(copy) => Ok(are_same(&copy, edit)),
        Err(error) => Err(error),
    }
}

/// The copy of an edit with one growth refused, and the same copy after it.
fn copy_twice<'a>(heap: &'a Heap, edit: &Edit<&'a Heap>, number: u64) -> Run {
    refuse(heap, number);
    let mut answer = copy_edit(heap, edit);
    let has_refused = heap.has_refused();
    if has_refused {
        if answer.is_ok() {
            return NOT_TOLD;
        }
        answer = copy_edit(heap, edit);
    }
    Run::ended(has_refused, matches!(answer, Ok(true)))
}

/// How many growths the copy of an edit has, each of which is refused in turn.
fn growths_of_copy<'a, R: Abort>(rt: &R, heap: &'a Heap, edit: &Edit<&'a Heap>, name: &str) -> u64 {
    for number in 1..MOST {
        if is_over(rt, (name, number), copy_twice(heap, edit, number)) {
            return number - 1;
        }
    }
    MOST
}

/// An edit of each kind, the kind's name, and how many growths its copy has.
static EDITS: [(Change, &str, u64); 4] = [
    (Change::LoadPlayfield, "Load", 1),
    (Change::InsertRight(1, 5), "Insert", 1),
    (Change::ReplaceRight(2, 6), "Replace", 1),
    (Change::Delete(3, 7), "Delete", 0),
];

#[test]
fn copies_of_edits(rt: HostRuntime) {
    let heap = refusing(rt.alloc(), NEVER);
    for row in EDITS.iter() {
        let (change, name, growths) = *row;
        refuse(&heap, NEVER);
        let edit = expect_ok(&rt, edit_of(&heap, change));
        check_same(&rt, name, growths_of_copy(&rt, &heap, &edit, name), growths);
    }
}
