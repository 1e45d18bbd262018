//! A desk with a journal of which one growth is refused, each growth in turn: what was answered is in the journal.

use crate::checks::{check_same, check_that, expect_ok};
use crate::doors::{MOVIE, TestDoor, image};
use crate::noted_tests::{Disk, edits_told, noted_by};
use refusals::Refusing;
use std::alloc::Global;
use std::process::Abort;
use std::sync::Wait;
use std::thread::Threads;
use tas_tool::{
    DeskFault, JournalFault, MAX_SEATS, NotedDesk, ReadFault, RunFault, SeatFault, ToolFault,
    noted_desk_run,
};
use test_streams::{Failure, Room, Taker};

/// No desk grows so often here.
const MOST: u64 = 1000;

/// An edit and a look.
static LINES: [&[u8]; 1] = [b"replace 0 1 R.... ..... .....\nlen\n"];

/// The line of the edit in the journal.
const LINE: &[u8] = b"0 0 replace 0 1 R.... ..... .....\n";

/// How a desk ended of which a growth was refused, or none.
#[derive(Clone, Copy, Debug, PartialEq, Eq)]
enum Run {
    /// Before the door was opened: the journal has nothing, or its head alone.
    Before,
    /// As ever, but for an edit whose answer reports the refusal.
    Told,
    /// With the fault of a seat whose conversation the refusal ended: an edit that is made is in the journal.
    Cut,
    /// With the journal's fault: the edit is made, and its answer isn't out.
    Unnoted,
    /// As ever.
    Done,
    /// In another way.
    Wrong,
}

/// How many growths ended so: before, told, cut, and not noted.
type Counts = (u64, u64, u64, u64);

/// How a desk ended whose door was opened, by its end, its journal's bytes after the head, the answers, and whether a movie is written.
fn begun_run(end: Result<(), DeskFault>, lines: &[u8], answers: &[u8], is_written: bool) -> Run {
    let told = edits_told(answers);
    let (is_noted, is_alone) = (lines == LINE, lines.is_empty());
    match end {
        Ok(()) if is_written && told == 1 && is_noted => Run::Done,
        Ok(()) if is_written && is_alone && answers.starts_with(b"out of memory\n") => Run::Told,
        Err(
            DeskFault::Tool(
                ToolFault::Seat {
                    seat: 0,
                    fault: SeatFault::Memory,
                },
            ),
        ) if is_written => Run::Cut,
        Err(
            DeskFault::Seat {
                seat: 0,
                fault: JournalFault::Memory,
            },
        ) if is_written && is_alone && answers.is_empty() => Run::Unnoted,
        _ => Run::Wrong,
    }
}

/// How a desk ended whose door wasn't opened.
fn unbegun_run(end: Result<(), DeskFault>) -> Run {
    match end {
        Err(
            DeskFault::Journal(JournalFault::Memory)
            | DeskFault::Tool(
                ToolFault::Read(ReadFault::Memory) | ToolFault::Run(RunFault::Memory),
            ),
        ) => Run::Before,
        _ => Run::Wrong,
    }
}

/// How a desk with a journal ended, by what it left, its answers and the head.
fn run_of(desk: &NotedDesk<Disk>, answers: &[u8], output: &[u8], head: &[u8]) -> Run {
    let bytes = desk.file.taker.taken.as_slice();
    let Some(lines) = bytes.strip_prefix(head) else {
        let is_nothing = bytes.is_empty() && answers.is_empty() && output.is_empty();
        if is_nothing && !desk.has_begun {
            return unbegun_run(desk.end);
        }
        return Run::Wrong;
    };
    if noted_by(bytes, b'0') < edits_told(answers) {
        return Run::Wrong;
    }
    if desk.has_begun {
        return begun_run(desk.end, lines, answers, !output.is_empty());
    }
    if lines.is_empty() && answers.is_empty() && output.is_empty() {
        return unbegun_run(desk.end);
    }
    Run::Wrong
}

/// How a desk with a journal ended of which this growth is refused, and whether it came to that one.
fn run_refused<R: Wait + Threads + Sync + Abort>(
    rt: &R,
    alloc: Global,
    image: &[u8],
    head: &[u8],
    number: u64,
) -> (Run, bool) {
    let heap = Refusing::new(alloc, MOST);
    let mut doors = Vec::new(&heap);
    for lines in LINES.iter() {
        expect_ok(rt, doors.push(TestDoor::new(alloc, *lines)));
    }
    let count = doors.len();
    check_that(rt, count, 1 <= count && count < MAX_SEATS as usize);
    heap.refuse(number.max(1));
    let disk = Disk {
        taker: Taker::new(alloc, 7, Room::Bytes(1_000_000), Failure::Error),
        syncs: 1_000_000,
        synced: 0,
    };
    let (mut cart, mut movie) = (image, MOVIE);
    let mut output = Vec::new(alloc);
    let desk = noted_desk_run(
        rt,
        &heap,
        alloc,
        disk,
        &mut cart,
        &mut movie,
        &mut doors,
        &mut output,
    );
    let Some(door) = doors.first() else {
        return (Run::Wrong, heap.has_refused());
    };
    let run = run_of(&desk, door.written.as_slice(), output.as_slice(), head);
    (run, heap.has_refused())
}

/// Refuses a desk with a journal its growths in turn, until it grows no more: how each ended. Else the first growth that went wrong.
fn count_refused<R: Wait + Threads + Sync + Abort>(
    rt: &R,
    alloc: Global,
    head: &[u8],
) -> Result<Counts, u64> {
    let image = image(rt, alloc);
    let (mut before, mut told, mut cut, mut unnoted) = (0u64, 0u64, 0u64, 0u64);
    for number in 1..MOST {
        match run_refused(rt, alloc, image.as_slice(), head, number) {
            (Run::Before, true) => before = before.saturating_add(1),
            (Run::Told, true) => told = told.saturating_add(1),
            (Run::Cut, true) => cut = cut.saturating_add(1),
            (Run::Unnoted, true) => unnoted = unnoted.saturating_add(1),
            (Run::Done, false) => return Ok((before, told, cut, unnoted)),
            _ => return Err(number),
        }
    }
    Err(MOST)
}

/// The head of a journal of `MOVIE`.
const HEAD: &[u8] =
    b"a26journal 1\nprofile 2\nmovie 102 a3088da776a8c895663a29f828d4eb066daea226f3ab54bd21a71c46dcf07c1d\na26movie 2\ncart 820c64e9933496de683a000c5e11f0510fb7b1699b2ce86471295236b284906d\n..... ..... ..... x3\n";

/// Before the door is opened a desk of two seats has 37 growths; the others are the journal's. Then a line's room, and those of the answers, are 4;
/// the edit has 2, which its answer reports, and the journal's line 8. The movie's text has none.
#[test]
fn each_growth_of_a_desk_with_a_journal_is_refused(rt: HostRuntime) {
    let counts = count_refused(&rt, rt.alloc(), HEAD);
    check_same(&rt, "journal", counts, Ok((47, 2, 4, 8)));
}
