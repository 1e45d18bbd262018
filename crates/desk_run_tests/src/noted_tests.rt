//! Desks whose conversations share a journal, on a disk that gets full at each byte, or that can't be reached.

ghost use Rattle.std.specs.Prelude.{Some};

use crate::checks::{check_same, check_that, expect_ok, expect_some};
use crate::doors::{MOVIE, TestDoor, image};
use std::alloc::Global;
use std::io;
use std::io::{Error, ErrorKind, Write};
use std::process::Abort;
use std::sync::Wait;
use std::thread::Threads;
use tas_tool::{DeskFault, JournalFault, JournalFile, MAX_SEATS, NotedDesk, noted_desk_run};
use test_streams::{Failure, Room, Taker};

/// Two edits and a look of each seat. All lines of edits are of one length, so a journal's size doesn't depend on their order.
static LINES: [&[u8]; 2] = [
    b"replace 0 1 R.... ..... .....\nlen\nreplace 0 1 .L... ..... .....\n",
    b"replace 2 1 .L... ..... .....\nlen\nreplace 2 1 R.... ..... .....\n",
];

/// A line that looks.
static LOOK: &[u8] = b"len\n";

/// How many lines the head of the journal has: three, and the movie's.
const HEAD_LINES: usize = 6;

/// A file with so much room that can be brought to the disk so many times, and fails from then on; and how many of its bytes were.
#[derive(Drop)]
pub struct Disk {
    /// What it has.
    pub taker: Taker,
    /// How often it can still be brought to the disk.
    pub syncs: u64,
    /// How many of its bytes were.
    pub synced: usize,
}

impl Write for Disk {
    ghost contents = { λ disk. Some disk.taker.taken.items };

    fn write(&mut self, bytes: &[u8]) -> io::Result<usize> {
        self.taker.write(bytes)
    }

    fn flush(&mut self) -> io::Result<()> {
        Ok(())
    }
}

impl JournalFile for Disk {
    fn sync(&mut self) -> io::Result<()> {
        if self.syncs == 0 {
            return Err(Error::from(ErrorKind::StorageFull));
        }
        self.syncs = self.syncs.saturating_sub(1);
        self.synced = self.taker.taken.len();
        Ok(())
    }
}

/// What a desk leaves: its output, how it ended, whether it began, the journal's file, and how many bytes of it were brought to the disk.
#[derive(Drop)]
struct Left {
    output: Vec<u8>,
    end: Result<(), DeskFault>,
    has_begun: bool,
    file: Vec<u8>,
    synced: usize,
}

/// Doors that say these.
fn doors_of<R: Abort>(rt: &R, alloc: Global, said: &[&'static [u8]]) -> Vec<TestDoor> {
    let mut doors = Vec::new(alloc);
    for lines in said {
        expect_ok(rt, doors.push(TestDoor::new(alloc, *lines)));
    }
    doors
}

/// Holds a desk at these doors, on the movie of three frames, with a journal on such a disk.
fn hold<R: Wait + Threads + Sync + Abort>(
    rt: &R,
    alloc: Global,
    doors: &mut Vec<TestDoor>,
    room: usize,
    syncs: u64,
) -> Left {
    let count = doors.len();
    check_that(rt, count, 1 <= count && count < MAX_SEATS as usize);
    let image = image(rt, alloc);
    let mut cart = image.as_slice();
    let mut movie = MOVIE;
    let taker = Taker::new(alloc, 7, Room::Bytes(room), Failure::Error);
    let disk = Disk {
        taker,
        syncs,
        synced: 0,
    };
    let mut output = Vec::new(alloc);
    let desk = noted_desk_run(
        rt,
        alloc,
        alloc,
        disk,
        &mut cart,
        &mut movie,
        doors,
        &mut output,
    );
    let NotedDesk {
        end,
        has_begun,
        file,
    } = desk;
    Left {
        output,
        end,
        has_begun,
        synced: file.synced,
        file: file.taker.taken,
    }
}

/// The first line of a text without its newline, and what comes after it.
fn first_line(text: &[u8]) -> Option<(&[u8], &[u8])> {
    let end = text.iter().position(|byte| *byte == b'\n')?;
    let (front, back) = text.split_at(end);
    Some((front, back.get(1..).unwrap_or(&[])))
}

/// How many whole lines of a journal are this seat's.
pub fn noted_by(file: &[u8], seat: u8) -> usize {
    let mut rest = file;
    let mut number = 0usize;
    let mut found = 0usize;
    for _ in 0..file.len() {
        let Some((line, more)) = first_line(rest) else {
            return found;
        };
        number = number.saturating_add(1);
        if number > HEAD_LINES && line.get(2).copied() == Some(seat) {
            found = found.saturating_add(1);
        }
        rest = more;
    }
    found
}

/// How many edits a client was told of.
pub fn edits_told(answers: &[u8]) -> usize {
    let mut rest = answers;
    let mut found = 0usize;
    for _ in 0..answers.len() {
        let Some((line, more)) = first_line(rest) else {
            return found;
        };
        if line.starts_with(b"edit ") {
            found = found.saturating_add(1);
        }
        rest = more;
    }
    found
}

/// Fails where a client was told of an edit that the journal hasn't. Returns how many they were told of.
fn check_told<R: Abort>(rt: &R, case: usize, doors: &[TestDoor], file: &[u8]) -> usize {
    let mut told = 0usize;
    let mut seat = b'0';
    for door in doors {
        let edits = edits_told(door.written.as_slice());
        check_that(rt, (case, seat), edits <= noted_by(file, seat));
        told = told.saturating_add(edits);
        seat = seat.saturating_add(1);
    }
    told
}

/// All edits of both are in the journal, and both are answered.
#[test]
fn a_desk_is_journaled(rt: HostRuntime) {
    let alloc = rt.alloc();
    let mut doors = doors_of(&rt, alloc, &LINES);
    let left = hold(&rt, alloc, &mut doors, 1_000_000, 1_000_000);
    check_same(&rt, "end", left.end, Ok(()));
    check_that(&rt, "begun", left.has_begun);
    let told = check_told(&rt, 0, doors.as_slice(), left.file.as_slice());
    check_same(&rt, "told", told, 4);
    check_same(&rt, "first", noted_by(left.file.as_slice(), b'0'), 2);
    check_same(&rt, "second", noted_by(left.file.as_slice(), b'1'), 2);
    check_that(
        &rt,
        "head",
        left.file.starts_with(b"a26journal 1\nprofile 2\nmovie "),
    );
    check_that(&rt, "movie", left.output.starts_with(b"a26movie 2\n"));
}

/// The disk gets full at each byte: what was answered is in the file, and the desk ends with the journal's fault.
#[test]
fn a_full_disk_loses_no_answered_edit_of_a_desk(rt: HostRuntime) {
    let alloc = rt.alloc();
    let mut doors = doors_of(&rt, alloc, &LINES);
    let left = hold(&rt, alloc, &mut doors, 1_000_000, 1_000_000);
    let whole = left.file.len();
    let line = b"0 0 replace 0 1 R.... ..... .....\n".len();
    let head = whole.saturating_sub(line.saturating_mul(4));
    for room in 0..whole {
        let mut doors = doors_of(&rt, alloc, &LINES);
        let left = hold(&rt, alloc, &mut doors, room, 1_000_000);
        check_same(&rt, room, left.file.len(), room);
        check_same(&rt, room, left.has_begun, head <= room);
        let told = check_told(&rt, room, doors.as_slice(), left.file.as_slice());
        check_that(&rt, room, told < 4);
        if room < head {
            let cut = Err(DeskFault::Journal(JournalFault::Write));
            check_same(&rt, room, left.end, cut);
            check_that(&rt, room, left.output.is_empty());
            check_that(&rt, room, doors.iter().all(|door| door.turns == 0));
        } else {
            let failed = matches!(
                left.end,
                Err(DeskFault::Seat {
                    seat: _,
                    fault: JournalFault::Write,
                })
            );
            check_that(&rt, room, failed);
            check_that(&rt, room, left.output.starts_with(b"a26movie 2\n"));
        }
    }
}

/// A disk that can't be reached any more ends them, too: what was answered was brought to the disk before. The head is brought there first. Each
/// seat's second edit comes after the answer to its first one, so there are two times more at least.
#[test]
fn a_failed_sync_loses_no_answered_edit_of_a_desk(rt: HostRuntime) {
    let alloc = rt.alloc();
    for syncs in 1usize..4 {
        let mut doors = doors_of(&rt, alloc, &LINES);
        let left = hold(&rt, alloc, &mut doors, 1_000_000, syncs as u64);
        check_that(&rt, syncs, left.has_begun);
        let synced = expect_some(&rt, left.file.get(..left.synced));
        check_told(&rt, syncs, doors.as_slice(), synced);
        let failed = matches!(
            left.end,
            Err(DeskFault::Seat {
                seat: _,
                fault: JournalFault::Sync,
            })
        );
        check_that(&rt, syncs, failed || (syncs == 3 && left.end.is_ok()));
    }
    let mut doors = doors_of(&rt, alloc, &LINES);
    let left = hold(&rt, alloc, &mut doors, 1_000_000, 0);
    let unsynced = Err(DeskFault::Journal(JournalFault::Sync));
    check_same(&rt, "head", left.end, unsynced);
    check_that(&rt, "begun", !left.has_begun);
}

/// A client that looks goes on where the journal has failed, and the one that edits gets no answer.
#[test]
fn a_look_goes_on_without_a_disk(rt: HostRuntime) {
    let alloc = rt.alloc();
    let mut doors = doors_of(&rt, alloc, &[LOOK]);
    let head = hold(&rt, alloc, &mut doors, 1_000_000, 1_000_000)
        .file
        .len();
    let edits = *LINES.first().unwrap_or(&LOOK);
    let mut doors = doors_of(&rt, alloc, &[LOOK, edits, LOOK]);
    let left = hold(&rt, alloc, &mut doors, head, 1_000_000);
    let failed = Err(DeskFault::Seat {
        seat: 1,
        fault: JournalFault::Write,
    });
    check_same(&rt, "end", left.end, failed);
    check_same(&rt, "file", left.file.len(), head);
    for (number, door) in doors.iter().enumerate() {
        let answers = door.written.as_slice();
        let looked = answers == b"len 2 3\n".as_slice() || answers == b"len 3 3\n".as_slice();
        check_that(
            &rt,
            number,
            if number == 1 {
                answers.is_empty()
            } else {
                looked
            },
        );
    }
}
