//! Answers to `history` where their 256th edit is the first of a commit.

ghost use Rattle.std.specs.Prelude.{◌≡◌};
ghost use Rattle.tas_desk.specs.Seats.{name_of};

use crate::checks::{check_that, expect_ok, expect_some};
use std::alloc::Global;
use std::marker::Brand;
use std::process::Abort;
use std::sync::Wait;
use tas_desk::{CloseOnDrop, Desk, Name, Seat, Unopened};
use tas_language::{Request, parse_request};
use tas_seat::{Draft, answer_talk};

/// The draft whose commit makes edits 255 and 256.
const DRAFT: [&str; 4] = [
    "begin",
    "delete 1 2",
    "insert 1 1 R.... ..... .....",
    "commit",
];

/// `history FROM` after these edits: FROM, the answer's first line, and the number of the edit after the last one that it has.
static ANSWERS: [(usize, &str, usize); 5] = [
    (0, "history 257 0 255 4243\n", 255),
    (1, "history 257 1 256 4262\n", 257),
    (254, "history 257 254 3 69\n", 257),
    (255, "history 257 255 2 52\n", 257),
    (256, "history 257 256 1 35\n", 257),
];

/// The line of the edit of this number.
fn push_line<R: Abort>(rt: &R, alloc: Global, text: &mut Vec<u8>, number: usize) {
    let line = match number {
        0 => format!(in alloc; "{number} 0 insert 0 5 ..... ..... .....\n"),
        255 => format!(in alloc; "{number} 0 delete 1 2\n"),
        256 => format!(in alloc; "{number} 0 insert 1 1 R.... ..... .....\n"),
        _ => format!(in alloc; "{number} 0 delete 0 0\n"),
    };
    let line = expect_ok(rt, line);
    expect_ok(rt, text.extend_from_slice(line.as_bytes()));
}

/// Such an answer.
fn answer<R: Abort>(rt: &R, alloc: Global, (from, first, to): (usize, &str, usize)) -> Vec<u8> {
    let mut text = expect_ok(rt, Vec::from_slice(alloc, first.as_bytes()));
    for number in from..to {
        push_line(rt, alloc, &mut text, number);
    }
    text
}

/// What a line is answered.
fn ask<N: Name, W: CloseOnDrop, R: Wait + Abort>(
    rt: &R,
    alloc: Global,
    desk: &Desk<N, W>,
    seat: &mut Seat<N>,
    draft: &mut Option<Draft>,
    line: &str,
) -> Vec<u8> {
    let request = expect_some(rt, parse_request(line.as_bytes()));
    let found = expect_ok(rt, answer_talk(rt, alloc, desk, seat, draft, request));
    expect_some(rt, found)
}

/// Five frames, 254 deletions of none, and the draft; and what the history is answered then.
fn check_answers<N: Name, W: CloseOnDrop, R: Wait + Abort>(
    rt: &R,
    alloc: Global,
    desk: &Desk<N, W>,
    seat: &mut Seat<N>,
) {
    let mut draft: Option<Draft> = None;
    let frames = "insert 0 5 ..... ..... .....";
    ask(rt, alloc, desk, seat, &mut draft, frames);
    for _made in 0..254 {
        ask(rt, alloc, desk, seat, &mut draft, "delete 0 0");
    }
    for line in DRAFT.iter() {
        ask(rt, alloc, desk, seat, &mut draft, *line);
    }
    for row in ANSWERS.iter() {
        let request = Request::History { from: row.0 };
        let found = expect_ok(rt, answer_talk(rt, alloc, desk, seat, &mut draft, request));
        let wanted = answer(rt, alloc, *row);
        check_that(
            rt,
            *row,
            expect_some(rt, found).as_slice() == wanted.as_slice(),
        );
    }
}

/// The same at a desk of its own.
fn check_answers_at<N: Name, R: Wait + Abort>(rt: &R, alloc: Global, unopened: Unopened)
    requires name { unopened ≡ name_of N.registry N.name N.parts }
{
    let (desk, mut seats) = expect_ok(rt, Desk::<N, &R>::open(rt, alloc, unopened));
    check_that(rt, "a seat", !seats.is_empty());
    check_answers(rt, alloc, &desk, &mut seats[0]);
}

/// Of 257 edits, of which a commit made the last two: an answer has both, or ends before them. Who asks from the second one on gets it alone.
#[test]
fn an_answer_has_both_edits_of_a_commit(rt: HostRuntime) {
    let unopened = expect_ok(&rt, Unopened::new(rt.alloc(), 1));
    check_answers_at::<Brand, HostRuntime>(&rt, rt.alloc(), unopened);
}
