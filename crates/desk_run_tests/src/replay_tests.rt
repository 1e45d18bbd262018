//! Desks of one, two and eight seats, on threads.

use crate::checks::{check_that, expect_ok};
use crate::doors::{TestDoor, hold};
use crate::replays::check_replay;
use std::alloc::Global;
use std::process::Abort;
use std::sync::Wait;
use std::thread::Threads;

/// Four edits, and one that no movie allows.
static FIRST: &[u8] =
    b"insert 0 2 R.... ..... .....\nlen\nreplace 0 1 .L... ..... .....\ninsert 0 1 ....F ..... .....\nreplace 9000 1 ..... ..... .....\ndelete 0 1\nwork 3\nquit\ninsert 0 9 ..... ..... .....\n";

/// Three edits, and looks between them.
static SECOND: &[u8] =
    b"shot 0\ninsert 1 3 ..... R.... .....\nlen\ninput 0\nreplace 0 1 ..... ..... R\ninsert 0 1 ..... .L... .....\n";

/// A door of each kind in turn.
fn doors_of<R: Abort>(rt: &R, alloc: Global, count: usize) -> Vec<TestDoor> {
    let mut doors = Vec::new(alloc);
    for seat in 0..count {
        let lines = if seat % 2 == 0 { FIRST } else { SECOND };
        expect_ok(rt, doors.push(TestDoor::new(alloc, lines)));
    }
    doors
}

/// Holds a desk of this many seats, and replays the edits that were answered at its doors.
fn check_desk<R: Wait + Threads + Sync + Abort>(rt: &R, alloc: Global, count: usize, edits: u64) {
    let mut doors = doors_of(rt, alloc, count);
    let (written, end) = hold(rt, alloc, &mut doors);
    expect_ok(rt, end);
    check_that(rt, count, doors.len() == count);
    for door in doors.iter() {
        check_that(rt, count, door.turns == 2);
    }
    check_replay(rt, alloc, doors.as_slice(), edits, written.as_slice());
}

#[test]
fn a_desk_of_one_seat_writes_the_movie_of_its_edits(rt: HostRuntime) {
    check_desk(&rt, rt.alloc(), 1, 4);
}

#[test]
fn a_desk_of_two_seats_writes_the_movie_of_all_edits(rt: HostRuntime) {
    for _ in 0..20 {
        check_desk(&rt, rt.alloc(), 2, 6);
    }
}

#[test]
fn a_desk_of_eight_seats_writes_the_movie_of_all_edits(rt: HostRuntime) {
    for _ in 0..10 {
        check_desk(&rt, rt.alloc(), 8, 24);
    }
}
