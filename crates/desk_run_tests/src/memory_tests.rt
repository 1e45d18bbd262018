//! Desks of which one growth is refused, each growth in turn: the others go on, and nothing is lost.

use crate::checks::{check_same, expect_ok};
use crate::doors::{MOVIE, TestDoor, hold_on, image};
use refusals::Refusing;
use std::alloc::{Allocator, Global};
use std::process::Abort;
use std::sync::Wait;
use std::thread::Threads;
use tas_tool::{ReadFault, RunFault, SeatFault, ToolFault};

/// No desk grows so often here.
const MOST: u64 = 1000;

/// An edit and a look of each seat. The edits are of different frames, so their order makes no difference to the movie.
static LINES: [&[u8]; 2] = [
    b"replace 0 1 R.... ..... .....\nlen\n",
    b"replace 2 1 .L... ..... .....\nlen\n",
];

/// What may be answered to an edit. The first answer is that of a refused one.
static EDIT_ANSWERS: [&[u8]; 3] = [b"out of memory\n", b"edit 3 len 3\n", b"edit 4 len 3\n"];

/// What may be answered to a look.
static LOOK_ANSWERS: [&[u8]; 3] = [b"len 2 3\n", b"len 3 3\n", b"len 4 3\n"];

/// Whether the edit of seat 0 is made, whether that of seat 1 is, and the movie then.
static MOVIES: [(bool, bool, &[u8]); 4] = [
    (false, false, MOVIE),
    (
        true,
        false,
        b"a26movie 2\ncart 820c64e9933496de683a000c5e11f0510fb7b1699b2ce86471295236b284906d\nR.... ..... .....\n..... ..... ..... x2\n",
    ),
    (
        false,
        true,
        b"a26movie 2\ncart 820c64e9933496de683a000c5e11f0510fb7b1699b2ce86471295236b284906d\n..... ..... ..... x2\n.L... ..... .....\n",
    ),
    (
        true,
        true,
        b"a26movie 2\ncart 820c64e9933496de683a000c5e11f0510fb7b1699b2ce86471295236b284906d\nR.... ..... .....\n..... ..... .....\n.L... ..... .....\n",
    ),
];

/// What a door shows of its seat's conversation.
#[derive(Clone, Copy)]
enum Talk {
    /// There is no such door.
    Absent,
    /// It was never opened.
    Unopened,
    /// Both lines are answered, and the edit is made.
    Whole,
    /// Both lines are answered, the edit as refused.
    Told,
    /// The edit alone is answered, and it is made.
    Cut,
    /// No line is answered, and the edit may have been made.
    Silent,
    /// Anything else.
    Wrong,
}

/// How a desk ended of which a growth was refused, or none.
#[derive(Clone, Copy)]
enum Run {
    /// Before a door was opened, with nothing done.
    Before,
    /// As ever, but for an edit whose answer reports the refusal.
    Told,
    /// With the fault of a seat whose conversation the refusal ended.
    Cut,
    /// As ever.
    Done,
    /// In another way.
    Wrong,
}

/// How many growths were refused before a door was opened, how many an answer reports, and how many ended a conversation. None comes after all:
/// the movie's text takes no memory.
type Counts = (u64, u64, u64);

/// The place of the answer that a text begins with, and what comes after it.
fn next_answer<'a>(text: &'a [u8], answers: &[&[u8]]) -> Option<(usize, &'a [u8])> {
    for (place, answer) in answers.iter().enumerate() {
        if let Some(rest) = text.strip_prefix(*answer) {
            return Some((place, rest));
        }
    }
    None
}

/// What the answers of a conversation show.
fn talk_of(text: &[u8]) -> Talk {
    if text.is_empty() {
        return Talk::Silent;
    }
    let Some((place, rest)) = next_answer(text, &EDIT_ANSWERS) else {
        return Talk::Wrong;
    };
    let is_refused = place == 0;
    if rest.is_empty() && !is_refused {
        return Talk::Cut;
    }
    match next_answer(rest, &LOOK_ANSWERS) {
        Some((_, end)) if !end.is_empty() => Talk::Wrong,
        Some(_) if is_refused => Talk::Told,
        Some(_) => Talk::Whole,
        None => Talk::Wrong,
    }
}

/// What the door at this place shows.
fn talk_at(doors: &[TestDoor], place: usize) -> Talk {
    match doors.get(place) {
        None => Talk::Absent,
        Some(door) if door.turns == 0 && door.written.is_empty() => Talk::Unopened,
        Some(door) if door.turns == 2 => talk_of(door.written.as_slice()),
        Some(_) => Talk::Wrong,
    }
}

/// Whether a movie has the seat's edit or not, as its conversation shows.
fn fits(talk: Talk, made: bool) -> bool {
    match talk {
        Talk::Whole | Talk::Cut => made,
        Talk::Absent | Talk::Told => !made,
        Talk::Silent => true,
        Talk::Unopened | Talk::Wrong => false,
    }
}

/// Whether a text is that of a movie with the edits that were made.
fn is_movie(text: &[u8], first: Talk, second: Talk) -> bool {
    for (one, other, movie) in MOVIES.iter() {
        if text == *movie {
            return fits(first, *one) && fits(second, *other);
        }
    }
    false
}

/// How a desk with these two conversations ended, the movie being written.
fn written_run(first: Talk, second: Talk, end: Result<(), ToolFault>) -> Run {
    let fault = match end {
        Ok(()) => None,
        Err(
            ToolFault::Seat {
                seat,
                fault: SeatFault::Memory,
            },
        ) => Some(seat),
        Err(_) => return Run::Wrong,
    };
    match (fault, first, second) {
        (None, Talk::Whole, Talk::Whole | Talk::Absent) => Run::Done,
        (None, Talk::Told, Talk::Whole | Talk::Absent) => Run::Told,
        (None, Talk::Whole, Talk::Told) => Run::Told,
        (Some(0), Talk::Cut | Talk::Silent, Talk::Whole | Talk::Absent) => Run::Cut,
        (Some(1), Talk::Whole, Talk::Cut | Talk::Silent) => Run::Cut,
        _ => Run::Wrong,
    }
}

/// How a desk with these two conversations ended, nothing being written.
fn unwritten_run(first: Talk, second: Talk, end: Result<(), ToolFault>) -> Run {
    match (end, first, second) {
        (
            Err(ToolFault::Read(ReadFault::Memory) | ToolFault::Run(RunFault::Memory)),
            Talk::Unopened,
            Talk::Unopened | Talk::Absent,
        ) => Run::Before,
        _ => Run::Wrong,
    }
}

/// How a desk ended that has these doors.
fn run_of(doors: &[TestDoor], text: &[u8], end: Result<(), ToolFault>) -> Run {
    let (first, second) = (talk_at(doors, 0), talk_at(doors, 1));
    if text.is_empty() {
        unwritten_run(first, second, end)
    } else if is_movie(text, first, second) {
        written_run(first, second, end)
    } else {
        Run::Wrong
    }
}

/// Holds a desk at these doors, and shows how it ended.
fn hold_over<R: Wait + Threads + Sync + Abort, A: Allocator + Copy + Send + Sync>(
    rt: &R,
    alloc: A,
    image: &[u8],
    doors: &mut Vec<TestDoor, A>,
    text: &mut Vec<u8>,
) -> Run {
    let end = hold_on(rt, alloc, (image, MOVIE), doors, text);
    run_of(doors.as_slice(), text.as_slice(), end)
}

/// How a desk of this many seats ended with one growth refused, and whether it came to that one. Where it ended before a door was opened, it is
/// held at the same doors again, and then ends as ever.
fn run_refused<R: Wait + Threads + Sync + Abort>(
    rt: &R,
    alloc: Global,
    image: &[u8],
    seats: usize,
    number: u64,
) -> (Run, bool) {
    let heap = Refusing::new(alloc, MOST);
    let mut doors = Vec::new(&heap);
    for lines in LINES.iter().take(seats) {
        expect_ok(rt, doors.push(TestDoor::new(alloc, *lines)));
    }
    heap.refuse(number.max(1));
    let mut text = Vec::new(alloc);
    let run = hold_over(rt, &heap, image, &mut doors, &mut text);
    let has_refused = heap.has_refused();
    let Run::Before = run else {
        return (run, has_refused);
    };
    match hold_over(rt, &heap, image, &mut doors, &mut text) {
        Run::Done => (run, has_refused),
        _ => (Run::Wrong, has_refused),
    }
}

/// Refuses a desk of this many seats its growths in turn, until it grows no more: how each ended. Else the first growth that went wrong.
fn count_refused<R: Wait + Threads + Sync + Abort>(
    rt: &R,
    alloc: Global,
    seats: usize,
) -> Result<Counts, u64> {
    let image = image(rt, alloc);
    let (mut before, mut told, mut cut) = (0u64, 0u64, 0u64);
    for number in 1..MOST {
        match run_refused(rt, alloc, image.as_slice(), seats, number) {
            (Run::Before, true) => before = before.saturating_add(1),
            (Run::Told, true) => told = told.saturating_add(1),
            (Run::Cut, true) => cut = cut.saturating_add(1),
            (Run::Done, false) => return Ok((before, told, cut)),
            _ => return Err(number),
        }
    }
    Err(MOST)
}

/// The growths of one seat: 17 of a desk; two inputs, a cartridge and a movie, 5; the two edits that make it, 7; the room for what
/// comes back, 4. Then a line's room, the answer to the edit, 2, and that to the look. The edit itself has 2, which its answer reports.
/// The movie's text has none.
#[test]
fn each_growth_of_a_desk_of_one_seat_is_refused(rt: HostRuntime) {
    let counts = count_refused(&rt, rt.alloc(), 1);
    check_same(&rt, "one", counts, Ok((33, 2, 4)));
}

/// A second seat has 4 more for its zone, and as many as the first during its conversation. Which of these are refused to edits depends on
/// whose come first.
#[test]
fn each_growth_of_a_desk_of_two_seats_is_refused(rt: HostRuntime) {
    let counts = count_refused(&rt, rt.alloc(), 2);
    let (before, told, cut) = expect_ok(&rt, counts);
    let during = told.saturating_add(cut);
    check_same(&rt, "two", (before, during), (37, 12));
}
