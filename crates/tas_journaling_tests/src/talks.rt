//! A conversation with a journal. The texts are by hand, the digest comes from another program.

ghost use Rattle.std.specs.Prelude.{◌≡◌, ◌≤◌};
ghost use Rattle.tas_desk.specs.Seats.{name_of};

use crate::checks::{check_same, check_that, expect_ok, expect_some};
use crate::disks::{Disk, Watcher};
use refusals::Refusing;
use std::alloc::Global;
use std::marker::Brand;
use std::process::Abort;
use std::sync::Wait;
use std::sync::atomic::AtomicU64;
use tas_desk::{CloseOnDrop, Desk, Name, Seat, Unopened};
use tas_journaling::{AnswerFault, Journal, JournalFault, answer_noted};
use tas_language::parse_request;
use tas_movie::Movie;

/// Lines that edit, look, and are refused; a draft that is lost, and one whose commit makes two edits.
pub static LINES: [&[u8]; 13] = [
    b"insert 0 2 R.... ..... .....",
    b"len",
    b"delete 1 9",
    b"begin",
    b"insert 0 9 ..... ..... .....",
    b"drop",
    b"repeat 0 1 1",
    b"begin",
    b"delete 0 1",
    b"press 0 1 ....F ..... .....",
    b"commit",
    b"delete 0 2",
    b"quit",
];

/// Their answers.
pub static ANSWERS: [&[u8]; 12] = [
    b"edit 1 len 2\n",
    b"len 1 2\n",
    b"place 1 len 2\n",
    b"begin 1 2\n",
    b"edit 2 len 11\n",
    b"dropped\n",
    b"edit 2 len 3\n",
    b"begin 2 3\n",
    b"edit 3 len 2\n",
    b"edit 4 len 2\n",
    b"commit 4 2\n",
    b"edit 5 len 0\n",
];

/// How many entries the journal has before the first byte of each answer.
pub static NEEDED: [usize; 12] = [1, 1, 1, 1, 1, 1, 2, 2, 2, 2, 4, 5];

/// The head of a journal that begins with the blank cartridge and no inputs, and the lines of the edits.
pub static PARTS: [&[u8]; 6] = [
    b"a26journal 1\nprofile 2\nmovie 81 28a712194b8e9737b187764449c5d5d97c62e6f7f4c5c55bccef3f5aed831e72\na26movie 2\ncart ad7facb2586fc6e966c004d7d1d16b024f5805ff7cb47c7a85dabd8b48892ca7\n",
    b"0 0 insert 0 2 R.... ..... .....\n",
    b"1 0 insert 1 1 R.... ..... .....\n",
    b"2 0 delete 0 2\n",
    b"3 0 insert 0 1 R...F ..... .....\n",
    b"4 0 delete 0 2\n",
];

/// What there is for a conversation: the growth that is refused, counted from its first line, room for the journal's bytes, how often it
/// can be brought to the disk, and room for the answers' bytes.
#[derive(Clone, Copy)]
pub struct Means {
    /// The growth.
    pub growth: u64,
    /// Room for the journal.
    pub room: usize,
    /// How often it can be brought to the disk.
    pub syncs: u64,
    /// Room for the answers.
    pub answers: usize,
}

/// Enough of all.
pub const AMPLE: Means = Means {
    growth: u64::MAX,
    room: 1_000_000,
    syncs: 1_000_000,
    answers: 1_000_000,
};

/// What a conversation leaves.
#[derive(Drop)]
pub struct Left {
    /// What the journal's file has.
    pub file: Vec<u8>,
    /// What the answers' writer has.
    pub answers: Vec<u8>,
    /// How often the file had been brought to the disk at each write of an answer.
    pub seen: Vec<u64>,
    /// Why it ended, where `quit` didn't end it.
    pub fault: Option<AnswerFault>,
    /// Whether the growth was asked for.
    pub refused: bool,
    /// How many edits the history has.
    pub edits: usize,
}

/// Answers the lines until one asks for the end or fails. After a fault of the journal the next line gets the same, and no answer.
fn say<'a, N: Name, C: CloseOnDrop, R: Wait + Abort>(
    rt: &R,
    heap: &'a Refusing<Global>,
    desk: &Desk<N, C, &'a Refusing<Global>>,
    seat: &mut Seat<N, &'a Refusing<Global>>,
    journal: &mut Journal<Disk<'_>>,
    output: &mut Watcher<'_>,
) -> Option<AnswerFault> {
    let mut draft = None;
    for line in LINES.iter() {
        let request = expect_some(rt, parse_request(line));
        let end = answer_noted(rt, heap, desk, seat, &mut draft, request, journal, output);
        match end {
            Ok(Some(_)) => {}
            Ok(None) => return None,
            Err(AnswerFault::Journal(JournalFault::Memory)) => {
                return Some(AnswerFault::Journal(JournalFault::Memory));
            }
            Err(AnswerFault::Journal(fault)) => {
                let length = expect_some(rt, parse_request(b"len"));
                let again = answer_noted(rt, heap, desk, seat, &mut draft, length, journal, output);
                check_same(rt, "again", again, Err(AnswerFault::Journal(fault)));
                return Some(AnswerFault::Journal(fault));
            }
            Err(fault) => return Some(fault),
        }
    }
    None
}

/// Holds the conversation on a desk of one seat.
fn hold_at<'a, N: Name, R: Wait + Abort>(
    rt: &R,
    alloc: Global,
    heap: &'a Refusing<Global>,
    unopened: Unopened<&'a Refusing<Global>>,
    means: Means,
) -> Left
    requires name { unopened ≡ name_of N.registry N.name N.parts }
    requires growth { 1 ≤ means.growth }
{
    let opened = Desk::<N, &R, &Refusing<Global>>::open(rt, heap, unopened);
    let (desk, mut seats) = expect_ok(rt, opened);
    check_that(rt, "one seat", seats.len() == 1);
    let movie = expect_ok(rt, Movie::blank(alloc));
    let done = AtomicU64::new(0);
    let disk = Disk::new(alloc, means.room, means.syncs, &done);
    let mut output = Watcher::new(alloc, means.answers, &done);
    let (disk, fault) = match Journal::begin(alloc, disk, &movie, 0) {
        Ok(mut journal) => {
            heap.refuse(means.growth);
            let fault = say(rt, heap, &desk, &mut seats[0], &mut journal, &mut output);
            (journal.into_file(), fault)
        }
        Err((disk, fault)) => (disk, Some(AnswerFault::Journal(fault))),
    };
    let file = disk.taker.taken;
    let refused = heap.has_refused();
    check_that(rt, "all seats come back", desk.whole(seats.as_slice()));
    let closed = desk.close(rt, seats);
    Left {
        file,
        answers: output.taker.taken,
        seen: output.seen,
        fault,
        refused,
        edits: closed.journal.len(),
    }
}

/// The same under a name.
pub fn hold<R: Wait + Abort>(rt: &R, alloc: Global, means: Means) -> Left
    requires { 1 ≤ means.growth }
{
    let heap = Refusing::new(alloc, u64::MAX);
    let unopened = expect_ok(rt, Unopened::new(&heap, 1));
    hold_at::<Brand, R>(rt, alloc, &heap, unopened, means)
}

/// The first parts.
pub fn first_parts<R: Abort>(rt: &R, alloc: Global, parts: &[&[u8]], count: usize) -> Vec<u8> {
    let mut bytes = Vec::new(alloc);
    for part in parts.iter().take(count) {
        expect_ok(rt, bytes.extend_from_slice(part));
    }
    bytes
}

/// How many bytes the first parts have.
pub fn size_of(parts: &[&[u8]], count: usize) -> usize {
    let mut size = 0usize;
    for part in parts.iter().take(count) {
        size = size.saturating_add(part.len());
    }
    size
}

/// How many answers have begun to go out where this many bytes are out.
fn begun(size: usize) -> usize {
    let mut before = 0usize;
    let mut count = 0usize;
    for answer in ANSWERS.iter() {
        if size <= before {
            return count;
        }
        before = before.saturating_add(answer.len());
        count = count.saturating_add(1);
    }
    count
}

/// Fails where the answers aren't the first bytes of all, the file hasn't the first bytes of the journal, or it lacks a line that an
/// answer needs which has begun to go out.
pub fn check_written<R: Abort>(
    rt: &R,
    alloc: Global,
    case: (&'static str, usize),
    answers: &[u8],
    file: &[u8],
) {
    let wanted = first_parts(rt, alloc, &ANSWERS, ANSWERS.len());
    check_that(rt, (case, "answers"), wanted.starts_with(answers));
    let all = first_parts(rt, alloc, &PARTS, PARTS.len());
    check_that(rt, (case, "file"), all.starts_with(file));
    let count = begun(answers.len());
    if count > 0 {
        let needed = expect_some(rt, NEEDED.get(count.saturating_sub(1)).copied());
        let least = size_of(&PARTS, needed.saturating_add(1));
        check_that(rt, (case, "lines"), least <= file.len());
    }
}

/// The same of what a conversation leaves.
pub fn check_left<R: Abort>(rt: &R, alloc: Global, case: (&'static str, usize), left: &Left) {
    check_written(
        rt,
        alloc,
        case,
        left.answers.as_slice(),
        left.file.as_slice(),
    );
}

/// How many answers go out before the first that needs more than these first bytes of the journal.
pub fn answered_with(size: usize) -> usize {
    let mut count = 0usize;
    for needed in NEEDED.iter() {
        if size < size_of(&PARTS, needed.saturating_add(1)) {
            return count;
        }
        count = count.saturating_add(1);
    }
    count
}
