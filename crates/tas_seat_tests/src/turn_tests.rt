//! Lines of two seats, one after the other.

ghost use Rattle.std.specs.Prelude.{◌≡◌};
ghost use Rattle.tas_desk.specs.Seats.{name_of};

use crate::checks::{check_that, expect_ok, expect_some};
use crate::turns::{LOADED, Turn, check_lengths, play};
use std::alloc::Global;
use std::marker::Brand;
use std::process::Abort;
use std::sync::Wait;
use tas_desk::{CloseOnDrop, Desk, Name, Seat, Unopened};
use tas_language::{Request, parse_request};
use tas_seat::answer_request;

/// Fails where a seat answers a request in another way.
fn check_answer<N: Name, W: CloseOnDrop, R: Wait + Abort>(
    rt: &R,
    alloc: Global,
    desk: &Desk<N, W>,
    seat: &mut Seat<N>,
    request: Request,
    turn: Turn,
) {
    let found = expect_ok(rt, answer_request(rt, alloc, desk, seat, request));
    let bytes = expect_some(rt, found);
    check_that(rt, turn, bytes.as_slice() == turn.2.as_bytes());
}

/// Both seats make the playfield's movie, and one presses a button in a frame that the other has put in. Each edit cuts the other's
/// greenzone.
static MADE: [Turn; 15] = [
    (0, "len", "len 0 0\n"),
    (
        1,
        "version",
        "version 0.3.0 profile 2 format 1 bytes picture lag inputs movie history\n",
    ),
    LOADED,
    (1, "insert 0 200 ..... ..... .....", "edit 2 len 200\n"),
    (0, "len", "len 2 200\n"),
    (0, "shot 191", "shot 2 191 ran 192 lit 1680\n"),
    (1, "insert 100 1 R.... ..... .....", "edit 3 len 201\n"),
    (0, "shot 191", "shot 3 191 ran 128 lit 1680\n"),
    (0, "press 100 1 ....F ..... .....", "edit 4 len 201\n"),
    (1, "input 100", "input 4 R...F ..... .....\n"),
    (1, "input 201", "no frame 4 len 201\n"),
    (1, "delete 201 1", "place 4 len 201\n"),
    (0, "repeat 0 201 1304", "long 4 len 201\n"),
    (0, "copy 200 2 0", "place 4 len 201\n"),
    (1, "len", "len 4 201\n"),
];

#[test]
fn edits_of_two_seats_are_counted_in_one_history(rt: HostRuntime) {
    let closed = play(&rt, rt.alloc(), &MADE);
    check_lengths(&rt, &closed, 4, 201);
}

static SHARED: [Turn; 12] = [
    LOADED,
    (1, "insert 0 200 ..... ..... .....", "edit 2 len 200\n"),
    (1, "share", "share 2 0\n"),
    (0, "work 200", "work jobs 1 kept 3 stale 0\n"),
    (1, "states", "states 2 3 64 128 192\n"),
    (0, "share", "share 2 0\n"),
    (0, "insert 128 1 R.... ..... .....", "edit 3 len 201\n"),
    (1, "share", "share 3 0\n"),
    (1, "states", "states 3 2 64 128\n"),
    (1, "shot 192", "shot 3 192 ran 65 lit 1680\n"),
    (0, "work 201", "work jobs 1 kept 1 stale 0\n"),
    (0, "states", "states 3 3 64 128 192\n"),
];

static INPUTS: [Turn; 8] = [
    LOADED,
    (0, "insert 0 200 ..... ..... .....", "edit 2 len 200\n"),
    (0, "work 200", "work jobs 1 kept 3 stale 0\n"),
    (
        1,
        "inputs 3 60",
        "inputs 2 3 60 23\n3 57 ..... ..... .....\n",
    ),
    (1, "shot 191", "shot 2 191 ran 64 lit 1680\n"),
    (0, "press 4 2 R.... ..... .....", "edit 3 len 200\n"),
    (
        1,
        "inputs 3 7",
        "inputs 3 3 7 66\n3 1 ..... ..... .....\n4 2 R.... ..... .....\n6 1 ..... ..... .....\n",
    ),
    (1, "inputs 199 201", "no frame 3 len 200\n"),
];

/// The inputs are those of the movie that both have made, and gain the states of the desk as sharing does.
#[test]
fn inputs_are_reported_by_runs(rt: HostRuntime) {
    play(&rt, rt.alloc(), &INPUTS);
}

static LOOKED_AT: [Turn; 5] = [
    LOADED,
    (0, "insert 0 200 ..... ..... .....", "edit 2 len 200\n"),
    (0, "work 200", "work jobs 1 kept 3 stale 0\n"),
    (
        1,
        "movie",
        "movie 2 104\na26movie 2\ncart 820c64e9933496de683a000c5e11f0510fb7b1699b2ce86471295236b284906d\n..... ..... ..... x200\n",
    ),
    (1, "shot 191", "shot 2 191 ran 64 lit 1680\n"),
];

/// A look at the movie's text gains the states of the desk, as sharing does.
#[test]
fn a_movies_text_is_answered_with_the_desks_states(rt: HostRuntime) {
    play(&rt, rt.alloc(), &LOOKED_AT);
}

/// A seat's work is the other's, once it shares. An edit leaves the states up to its place.
#[test]
fn states_are_shared(rt: HostRuntime) {
    play(&rt, rt.alloc(), &SHARED);
}

static TOLD: [Turn; 8] = [
    (0, "history 0", "history 0 0 0 0\n"),
    (0, "load2 7FC=00F0", "edit 1 len 0\n"),
    (1, "insert 0 200 ..... ..... .....", "edit 2 len 200\n"),
    (1, "insert 100 1 R.... ..... .....", "edit 3 len 201\n"),
    (0, "press 100 1 ....F ..... .....", "edit 4 len 201\n"),
    (
        1,
        "history 2",
        "history 4 2 2 71\n2 1 insert 100 1 R.... ..... .....\n3 0 replace 100 1 R...F ..... .....\n",
    ),
    (1, "history 4", "history 4 4 0 0\n"),
    (0, "history 9999999", "history 4 9999999 0 0\n"),
];

/// The entries are numbered from 0, and each has its seat.
#[test]
fn a_history_is_told_from_an_entry_on(rt: HostRuntime) {
    play(&rt, rt.alloc(), &TOLD);
}

static MISSING: [Turn; 8] = [
    (1, "ram 1", "no frame 0 len 0\n"),
    (0, "insert 0 2 ..... ..... .....", "edit 1 len 2\n"),
    (1, "ram 3", "no frame 1 len 2\n"),
    (1, "digest 2", "no frame 1 len 2\n"),
    (1, "lag 1 3", "no frame 1 len 2\n"),
    (1, "lag 2 1", "no frame 1 len 2\n"),
    (1, "lag 2 2", "lag 1 2 2 0\n"),
    (1, "pictures 2 4", "no frame 1 len 2\nno frame 1 len 2\n"),
];

/// Frames that the movie hasn't are answered by its length.
#[test]
fn missing_frames_are_told(rt: HostRuntime) {
    play(&rt, rt.alloc(), &MISSING);
}

/// Requests that no line asks for: the greatest number is no frame, either. `quit` gets no answer.
fn check_numbers<N: Name, W: CloseOnDrop, R: Wait + Abort>(
    rt: &R,
    alloc: Global,
    desk: &Desk<N, W>,
    seat: &mut Seat<N>,
) {
    let frame = usize::MAX;
    let wanted = (0, "the greatest number", "no frame 0 len 0\n");
    check_answer(rt, alloc, desk, seat, Request::Digest { frame }, wanted);
    check_answer(rt, alloc, desk, seat, Request::Picture { frame }, wanted);
    let frames = frame;
    check_answer(rt, alloc, desk, seat, Request::Ram { frames }, wanted);
    let none = (0, "no entries", "history 0 18446744073709551615 0 0\n");
    check_answer(
        rt,
        alloc,
        desk,
        seat,
        Request::History { from: frame },
        none,
    );
    let quit = expect_ok(rt, answer_request(rt, alloc, desk, seat, Request::Quit));
    check_that(rt, "quit", quit.is_none());
}

/// The same at a desk of its own.
fn check_numbers_at<N: Name, R: Wait + Abort>(rt: &R, alloc: Global, unopened: Unopened)
    requires name { unopened ≡ name_of N.registry N.name N.parts }
{
    let (desk, mut seats) = expect_ok(rt, Desk::<N, &R>::open(rt, alloc, unopened));
    check_that(rt, "a seat", !seats.is_empty());
    check_numbers(rt, alloc, &desk, &mut seats[0]);
}

#[test]
fn the_greatest_numbers_are_answered(rt: HostRuntime) {
    let unopened = expect_ok(&rt, Unopened::new(rt.alloc(), 1));
    check_numbers_at::<Brand, HostRuntime>(&rt, rt.alloc(), unopened);
}

/// One edit more than an answer to `history` has, each a deletion of no frames.
const EDITS: usize = 257;

/// `history FROM` after these edits: FROM, the answer's first line, and how many lines follow it.
static ENTRIES: [(usize, &str, usize); 4] = [
    (0, "history 257 0 256 4242\n", 256),
    (1, "history 257 1 256 4244\n", 256),
    (2, "history 257 2 255 4229\n", 255),
    (257, "history 257 257 0 0\n", 0),
];

/// Such an answer.
fn entries<R: Abort>(rt: &R, alloc: Global, (from, first, count): (usize, &str, usize)) -> Vec<u8> {
    let mut text = expect_ok(rt, Vec::from_slice(alloc, first.as_bytes()));
    for number in from..from.saturating_add(count) {
        let line = expect_ok(rt, format!(in alloc; "{number} 0 delete 0 0\n"));
        expect_ok(rt, text.extend_from_slice(line.as_bytes()));
    }
    text
}

/// Makes these edits, and fails where a history isn't answered so.
fn check_entries<N: Name, W: CloseOnDrop, R: Wait + Abort>(
    rt: &R,
    alloc: Global,
    desk: &Desk<N, W>,
    seat: &mut Seat<N>,
) {
    for _made in 0..EDITS {
        let edit = expect_some(rt, parse_request(b"delete 0 0"));
        expect_ok(rt, answer_request(rt, alloc, desk, seat, edit));
    }
    for row in ENTRIES.iter() {
        let request = Request::History { from: row.0 };
        let found = expect_ok(rt, answer_request(rt, alloc, desk, seat, request));
        let wanted = entries(rt, alloc, *row);
        check_that(
            rt,
            *row,
            expect_some(rt, found).as_slice() == wanted.as_slice(),
        );
    }
}

/// The same at a desk of its own.
fn check_entries_at<N: Name, R: Wait + Abort>(rt: &R, alloc: Global, unopened: Unopened)
    requires name { unopened ≡ name_of N.registry N.name N.parts }
{
    let (desk, mut seats) = expect_ok(rt, Desk::<N, &R>::open(rt, alloc, unopened));
    check_that(rt, "a seat", !seats.is_empty());
    check_entries(rt, alloc, &desk, &mut seats[0]);
}

/// Of 257 edits: those from 0 on are one too many for an answer, those from 1 on just as many as it has, those from 2 on one fewer.
#[test]
fn an_answer_has_256_entries_at_most(rt: HostRuntime) {
    let unopened = expect_ok(&rt, Unopened::new(rt.alloc(), 1));
    check_entries_at::<Brand, HostRuntime>(&rt, rt.alloc(), unopened);
}
