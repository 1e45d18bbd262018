//! `tas talk --journal` with one growth refused, each growth in turn: the journal has each edit whose answer is out.

use crate::checks::{check_same, check_that, expect_ok};
use crate::heaps::{NEVER, refuse, refusing};
use std::alloc::Global;
use std::io;
use std::io::{Error, ErrorKind, Write};
use std::process::Abort;
use std::sync::Wait;
use std::sync::atomic::{AtomicU8, AtomicUsize, Ordering};
use std::thread::Threads;
use std::time::Clock;
use tas_program::{Folder, OrdinaryFile, Permit, Streams, run_program};

/// What a file was given, as long as it has room for it.
#[derive(Drop)]
struct Tape {
    bytes: Vec<AtomicU8>,
    len: AtomicUsize,
}

/// A folder in which the file of a journal can be made and removed.
#[derive(Drop)]
struct Day {
    tape: Tape,
    is_there: AtomicUsize,
}

/// The file of a journal.
#[derive(Drop)]
struct Sink<'a> {
    tape: &'a Tape,
}

impl Write for Sink<'_> {
    fn write(&mut self, bytes: &[u8]) -> io::Result<usize> {
        let mut at = self.tape.len.load(Ordering::SeqCst);
        for byte in bytes {
            if let Some(place) = self.tape.bytes.get(at) {
                place.store(*byte, Ordering::SeqCst);
            }
            at = at.saturating_add(1);
        }
        self.tape.len.store(at, Ordering::SeqCst);
        Ok(bytes.len())
    }

    fn flush(&mut self) -> io::Result<()> {
        Ok(())
    }
}

/// The folder, borrowed.
#[derive(Clone, Copy)]
struct Place<'a> {
    day: &'a Day,
}

impl<'a> Folder for Place<'a> {
    type File = &'a [u8];

    type Sink = Sink<'a>;

    fn look(&self, _name: &str) -> Option<OrdinaryFile> {
        None
    }

    fn open(&self, _name: &str) -> io::Result<&'a [u8]> {
        Err(Error::from(ErrorKind::NotFound))
    }

    fn open_to_write(&self, _permit: Permit, _name: &str) -> io::Result<Sink<'a>> {
        Err(Error::from(ErrorKind::NotFound))
    }

    fn create_new(&self, _permit: Permit, _name: &str) -> io::Result<Sink<'a>> {
        self.day.is_there.store(1, Ordering::SeqCst);
        Ok(Sink {
            tape: &self.day.tape,
        })
    }

    fn sync(&self, _name: &str, _sink: &mut Sink<'a>) -> io::Result<()> {
        Ok(())
    }

    fn remove(&self, _permit: Permit, _name: &str) {
        self.day.is_there.store(0, Ordering::SeqCst);
    }
}

/// Three edits, whose lines in a journal differ in their number alone.
const LINES: &[u8] =
    b"insert 0 1 R.... ..... .....\ninsert 0 1 R.... ..... .....\ninsert 0 1 R.... ..... .....\n";

/// The journal with all of them; the digests of the blank cartridge and of its movie are another program's.
const JOURNAL: &[u8] =
    b"a26journal 1\nprofile 2\nmovie 81 28a712194b8e9737b187764449c5d5d97c62e6f7f4c5c55bccef3f5aed831e72\na26movie 2\ncart ad7facb2586fc6e966c004d7d1d16b024f5805ff7cb47c7a85dabd8b48892ca7\n0 0 insert 0 1 R.... ..... .....\n1 0 insert 0 1 R.... ..... .....\n2 0 insert 0 1 R.... ..... .....\n";

/// How many lines the head has.
const HEAD_LINES: usize = 5;

/// How the program ended: its status, its answers, its line, what the journal has, and whether it is there.
#[derive(Drop)]
struct End {
    status: u8,
    answers: Vec<u8>,
    line: Vec<u8>,
    journal: Vec<u8>,
    is_there: bool,
}

/// A tape that was given nothing.
fn blank_day<R: Abort>(rt: &R, alloc: Global) -> Day {
    let mut bytes = Vec::new(alloc);
    for _ in 0..JOURNAL.len() {
        expect_ok(rt, bytes.push(AtomicU8::new(0)).ok().ok_or("no memory"));
    }
    Day {
        tape: Tape {
            bytes,
            len: AtomicUsize::new(0),
        },
        is_there: AtomicUsize::new(0),
    }
}

/// What a tape was given.
fn given<R: Abort>(rt: &R, alloc: Global, tape: &Tape) -> Vec<u8> {
    let mut all = Vec::new(alloc);
    for place in tape.bytes.iter().take(tape.len.load(Ordering::SeqCst)) {
        expect_ok(rt, all.push(place.load(Ordering::SeqCst)));
    }
    all
}

/// A run with one growth refused, and whether it came to that one.
fn run_refused<T: Wait + Threads + Clock + Abort + Sync>(
    rt: &T,
    alloc: Global,
    number: u64,
) -> (End, bool) {
    let heap = refusing(alloc, NEVER);
    let mut words = Vec::new(&heap);
    for word in ["tas", "talk", "--journal", "day"] {
        let word = expect_ok(rt, String::from_str(&heap, word));
        expect_ok(rt, words.push(word));
    }
    let (mut answers, mut line) = (Vec::new(alloc), Vec::new(alloc));
    let day = blank_day(rt, alloc);
    refuse(&heap, number);
    let mut streams = Streams {
        input: LINES,
        output: &mut answers,
        errors: &mut line,
    };
    let place = Place { day: &day };
    let words = Ok(words.into_iter());
    let status = run_program(rt, alloc, &heap, words, &place, &mut streams).code();
    let end = End {
        status,
        answers,
        line,
        journal: given(rt, alloc, &day.tape),
        is_there: day.is_there.load(Ordering::SeqCst) == 1,
    };
    (end, heap.has_refused())
}

/// How many lines begin so.
fn count_lines(text: &[u8], start: &[u8]) -> usize {
    let mut count = 0usize;
    for line in text.split(|byte| *byte == b'\n') {
        if line.starts_with(start) && !line.is_empty() {
            count = count.saturating_add(1);
        }
    }
    count
}

/// Fails where a journal that is there hasn't its head or a whole line, or hasn't the line of an edit that was answered.
fn check_end<R: Abort>(rt: &R, number: u64, end: &End) {
    let journal = end.journal.as_slice();
    check_that(rt, ("journal", number), JOURNAL.starts_with(journal));
    let edits = count_lines(end.answers.as_slice(), b"edit ");
    let lines = count_lines(journal, b"");
    if end.is_there {
        check_that(rt, ("whole", number), journal.ends_with(b"\n"));
        check_that(
            rt,
            ("lines", number),
            HEAD_LINES.saturating_add(edits) <= lines,
        );
    } else {
        check_same(rt, ("edits", number), (edits, lines), (0, 0));
    }
}

/// The fault of a conversation whose journal has no memory for a line.
const NO_LINE: &[u8] = b"fault: journal: out of memory\n";

const NO_MEMORY: &[u8] = b"fault: out of memory\n";

/// No run grows so often here.
const MOST: u64 = 200;

#[test]
fn no_refused_growth_loses_an_edit(rt: HostRuntime) {
    let alloc = rt.alloc();
    let (mut without_line, mut without_memory, mut gone) = (0usize, 0usize, 0usize);
    for number in 1..MOST {
        let (end, has_refused) = run_refused(&rt, alloc, number);
        check_end(&rt, number, &end);
        if !has_refused {
            check_same(&rt, "whole", end.status, 0);
            check_that(&rt, "whole", end.journal.as_slice() == JOURNAL);
            break;
        }
        if !end.is_there {
            gone = gone.saturating_add(1);
        }
        if end.line.as_slice() == NO_LINE {
            without_line = without_line.saturating_add(1);
        }
        if end.line.as_slice() == NO_MEMORY {
            without_memory = without_memory.saturating_add(1);
        }
    }
    check_that(&rt, "lines without memory", without_line > 0);
    check_that(&rt, "conversations without memory", without_memory > 0);
    check_that(&rt, "journals that are removed", gone > 0);
}
