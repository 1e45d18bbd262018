//! Writers that get full at each byte: the edit whose answer didn't get out stands in the movie.

use crate::checks::{check_same, check_that, expect_ok};
use crate::doors::{TestDoor, hold};
use std::alloc::Global;
use std::process::Abort;
use std::sync::Wait;
use std::thread::Threads;
use tas_tool::{SeatFault, ToolFault};

/// Two edits, whose answers have 13 bytes each.
static LINES: &[u8] = b"insert 0 1 R.... ..... .....\ninsert 0 1 .L... ..... .....\n";

/// What is written after each number of edits.
static MOVIES: [&[u8]; 2] = [
    b"a26movie 2\ncart 820c64e9933496de683a000c5e11f0510fb7b1699b2ce86471295236b284906d\nR.... ..... .....\n..... ..... ..... x3\n",
    b"a26movie 2\ncart 820c64e9933496de683a000c5e11f0510fb7b1699b2ce86471295236b284906d\n.L... ..... .....\nR.... ..... .....\n..... ..... ..... x3\n",
];

/// A desk of two seats, the second of which has room for this many bytes of answers. The first says nothing.
fn check_room<R: Wait + Threads + Sync + Abort>(rt: &R, alloc: Global, room: usize) {
    let mut doors = Vec::new(alloc);
    expect_ok(rt, doors.push(TestDoor::new(alloc, b"")));
    let mut door = TestDoor::new(alloc, LINES);
    door.room = room;
    expect_ok(rt, doors.push(door));
    let (written, end) = hold(rt, alloc, &mut doors);
    let fault = SeatFault::Write { written: room };
    let wanted = Err(ToolFault::Seat { seat: 1, fault });
    check_same(rt, room, end, wanted);
    let movie = if room < 13 { MOVIES[0] } else { MOVIES[1] };
    check_that(rt, room, written.as_slice() == movie);
}

#[test]
fn an_edit_whose_answer_is_cut_off_stands_in_the_movie(rt: HostRuntime) {
    for room in 0..26 {
        check_room(&rt, rt.alloc(), room);
    }
}
