//! How desks end: the least seat's fault is reported, and the movie is written all the same.

use crate::checks::{check_same, check_that, expect_ok};
use crate::doors::{MOVIE, TestDoor, hold, hold_on, image};
use crate::replays::check_replay;
use std::alloc::Global;
use std::process::Abort;
use tas_tool::{ReadFault, RunFault, SeatFault, ToolFault};
use test_streams::{Failure, Room, Taker};

/// One edit, then a look, in two reads or more.
static LINES: &[u8] = b"insert 0 1 R.... ..... .....\nlen\n";

/// How a door of these tests ends its seat's conversation.
#[derive(Clone, Copy)]
enum Way {
    Well,
    Unread,
    Unwritten,
    Unopened,
}

/// A door that ends in this way. The lines take five reads, and the sixth finds their end.
fn door_of(alloc: Global, way: Way) -> TestDoor {
    let mut door = TestDoor::new(alloc, LINES);
    match way {
        Way::Well => {}
        Way::Unread => door.fails_at = 6,
        Way::Unwritten => door.room = 14,
        Way::Unopened => door.opens = false,
    }
    door
}

/// Doors that end in these ways.
fn doors_of<R: Abort>(rt: &R, alloc: Global, ways: &[Way]) -> Vec<TestDoor> {
    let mut doors = Vec::new(alloc);
    for way in ways {
        expect_ok(rt, doors.push(door_of(alloc, *way)));
    }
    doors
}

/// Ways, how many edits are made, and the end.
type Row = (&'static [Way], u64, Result<(), ToolFault>);

static ROWS: &[Row] = &[
    (&[Way::Well, Way::Well], 2, Ok(())),
    (
        &[Way::Unopened],
        0,
        Err(ToolFault::Seat {
            seat: 0,
            fault: SeatFault::NotOpened,
        }),
    ),
    (
        &[Way::Well, Way::Unread, Way::Unopened],
        2,
        Err(ToolFault::Seat {
            seat: 1,
            fault: SeatFault::Read,
        }),
    ),
    (
        &[Way::Unopened, Way::Unread, Way::Well],
        2,
        Err(ToolFault::Seat {
            seat: 0,
            fault: SeatFault::NotOpened,
        }),
    ),
    (
        &[Way::Well, Way::Well, Way::Unwritten, Way::Unread],
        4,
        Err(ToolFault::Seat {
            seat: 2,
            fault: SeatFault::Write { written: 14 },
        }),
    ),
];

/// The doors of each row end as it says; the movie has the edits of all that were opened.
#[test]
fn the_least_seats_fault_is_reported(rt: HostRuntime) {
    let alloc = rt.alloc();
    for (ways, edits, wanted) in ROWS.iter() {
        let mut doors = doors_of(&rt, alloc, ways);
        let (written, end) = hold(&rt, alloc, &mut doors);
        check_same(&rt, *edits, end, *wanted);
        check_replay(&rt, alloc, doors.as_slice(), *edits, written.as_slice());
    }
}

/// No door is opened where the cartridge or the movie can't be read, and nothing is written.
#[test]
fn no_door_is_opened_before_the_movie_is_read(rt: HostRuntime) {
    let alloc = rt.alloc();
    let image = image(&rt, alloc);
    let short: &[u8] = b"\xEA";
    let rows: [(&[u8], &[u8]); 2] = [(short, MOVIE), (image.as_slice(), short)];
    for (cart, movie) in rows {
        let mut doors = doors_of(&rt, alloc, &[Way::Well, Way::Well]);
        let mut output = Vec::new(alloc);
        let end = hold_on(&rt, alloc, (cart, movie), &mut doors, &mut output);
        check_that(&rt, cart.len(), matches!(end, Err(ToolFault::Run(_))));
        check_that(&rt, cart.len(), output.is_empty() && doors.len() == 2);
        for door in doors.iter() {
            check_that(&rt, cart.len(), door.turns == 0);
        }
    }
}

/// A write of the movie that fails goes before a seat's fault.
#[test]
fn a_failed_write_of_the_movie_is_reported_first(rt: HostRuntime) {
    let alloc = rt.alloc();
    let image = image(&rt, alloc);
    let mut doors = doors_of(&rt, alloc, &[Way::Unopened, Way::Well]);
    let mut output = Taker::new(alloc, 7, Room::Bytes(20), Failure::Error);
    let files = (image.as_slice(), MOVIE);
    let end = hold_on(&rt, alloc, files, &mut doors, &mut output);
    let wanted = Err(ToolFault::Run(RunFault::Write { written: 20 }));
    check_same(&rt, "write", end, wanted);
    check_that(&rt, "written", output.taken.len() == 20);
}

/// An input that is too long is a fault of reading.
#[test]
fn an_unread_cartridge_is_a_fault_of_reading(rt: HostRuntime) {
    let alloc = rt.alloc();
    let long = expect_ok(&rt, vec![in alloc; 0u8; 16_777_217]);
    let mut doors = doors_of(&rt, alloc, &[Way::Well]);
    let mut output = Vec::new(alloc);
    let files = (long.as_slice(), MOVIE);
    let end = hold_on(&rt, alloc, files, &mut doors, &mut output);
    check_same(&rt, "long", end, Err(ToolFault::Read(ReadFault::TooLong)));
}
