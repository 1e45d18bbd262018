//! Lines of two seats of one desk in conversations, one after the other.

ghost use Rattle.std.specs.Prelude.{◌≡◌};
ghost use Rattle.tas_desk.specs.Seats.{name_of};

use crate::checks::{check_that, expect_ok, expect_some};
use std::alloc::{Allocator, Global};
use std::marker::Brand;
use std::process::Abort;
use std::sync::Wait;
use tas_desk::{CloseOnDrop, Closed, Desk, Name, Seat, Unopened};
use tas_language::parse_request;
use tas_seat::{Draft, answer_talk};

/// A seat, a line of it, and the line's answer.
pub type Turn = (usize, &'static str, &'static str);

/// Seat 0 loads the playfield's cartridge into a new movie.
pub const LOADED: Turn = (
    0,
    "load 000=A910850DA91E85084C08F0 FFC=00F0",
    "edit 1 len 0\n",
);

/// Fails where one of these lines is answered in another way.
pub fn take_turns<N: Name, W: CloseOnDrop, A: Allocator + Copy, R: Wait + Abort>(
    rt: &R,
    alloc: A,
    desk: &Desk<N, W, A>,
    seats: &mut [Seat<N, A>],
    drafts: &mut [Option<Draft<A>>],
    turns: &[Turn],
) {
    for turn in turns {
        let request = expect_some(rt, parse_request(turn.1.as_bytes()));
        let seat = expect_some(rt, seats.get_mut(turn.0));
        let draft = expect_some(rt, drafts.get_mut(turn.0));
        let found = expect_ok(rt, answer_talk(rt, alloc, desk, seat, draft, request));
        let bytes = expect_some(rt, found);
        check_that(rt, *turn, bytes.as_slice() == turn.2.as_bytes());
    }
}

/// Opens a desk of two seats, takes these turns, and closes it. No draft is open at first, and one that is open at the end is lost.
fn play_at<N: Name, R: Wait + Abort>(
    rt: &R,
    alloc: Global,
    unopened: Unopened,
    turns: &[Turn],
) -> Closed
    requires name { unopened ≡ name_of N.registry N.name N.parts }
{
    let (desk, mut seats) = expect_ok(rt, Desk::<N, &R>::open(rt, alloc, unopened));
    let mut drafts: [Option<Draft>; 2] = [None, None];
    take_turns(rt, alloc, &desk, seats.as_mut_slice(), &mut drafts, turns);
    check_that(rt, "all seats come back", desk.whole(seats.as_slice()));
    desk.close(rt, seats)
}

/// The same under a name.
pub fn play<R: Wait + Abort>(rt: &R, alloc: Global, turns: &[Turn]) -> Closed {
    let unopened = expect_ok(rt, Unopened::new(alloc, 2));
    play_at::<Brand, R>(rt, alloc, unopened, turns)
}

/// Fails where a desk doesn't leave a history of this many edits and a movie of this many frames.
pub fn check_lengths<R: Abort>(rt: &R, closed: &Closed, edits: usize, frames: usize) {
    check_that(rt, "edits", closed.journal.len() == edits);
    check_that(rt, "frames", closed.movie.len() == frames);
}
