//! Recoveries over readers and a writer: what they write and report, and reads, writes and growths that fail.

use crate::checks::{check_same, check_that, expect_ok};
use crate::journals::{HEAD, JOURNAL, joined, text_after};
use refusals::Refusing;
use std::alloc::{Allocator, Global};
use std::io::ErrorKind;
use std::process::Abort;
use tas_engines::{INPUT_LIMIT, ReadFault, RunFault};
use tas_journal::{JournalError, JournalErrorKind, Recovered, RecoveryFault, recover_run};
use test_streams::{Failure, Giver, Room, Taker};
use vcs_machine::CART_SIZE;

/// No recovery reads, writes or grows so often here.
const MOST: usize = 1000;

/// How many bytes a read gives at most.
const AT_ONCE: usize = 1000;

/// The blank cartridge.
static BLANK_IMAGE: [u8; CART_SIZE] = [0; CART_SIZE];

/// How a recovery ends: how many edits it has, and whether a last line was cut.
type End = Result<(usize, bool), RecoveryFault>;

/// The end of one with so many edits.
fn done(edits: usize, cut: bool) -> End {
    Ok((edits, cut))
}

/// The end of this recovery.
fn end_of<A: Allocator>(found: Result<Recovered<A>, RecoveryFault>) -> End {
    match found {
        Ok(found) => Ok((found.edits, found.cut)),
        Err(fault) => Err(fault),
    }
}

/// Fails where a recovery of the blank cartridge writes or reports something else.
fn check_run<R: Abort>(
    rt: &R,
    alloc: Global,
    until: usize,
    journal: &[u8],
    (end, text): (End, &[u8]),
) {
    let (mut cart, mut input) = (BLANK_IMAGE.as_slice(), journal);
    let mut output = Vec::new(alloc);
    let found = recover_run(alloc, until, &mut cart, &mut input, &mut output);
    check_same(rt, (until, journal.len()), end_of(found), end);
    check_that(rt, (until, journal.len()), output.as_slice() == text);
}

#[test]
fn movies_are_written_and_reported(rt: HostRuntime) {
    let alloc = rt.alloc();
    let none = text_after(&rt, alloc, 0);
    let two = text_after(&rt, alloc, 2);
    let all = text_after(&rt, alloc, 4);
    let end = (done(4, false), all.as_slice());
    check_run(&rt, alloc, usize::MAX, JOURNAL, end);
    let end = (done(2, false), two.as_slice());
    check_run(&rt, alloc, 9, JOURNAL, end);
    let end = (done(0, false), none.as_slice());
    check_run(&rt, alloc, 1, JOURNAL, end);
    check_run(&rt, alloc, usize::MAX, HEAD, end);
    let cut = joined(&rt, alloc, JOURNAL, b"4");
    let end = (done(4, true), all.as_slice());
    check_run(&rt, alloc, usize::MAX, cut.as_slice(), end);
}

#[test]
fn journals_at_fault(rt: HostRuntime) {
    let alloc = rt.alloc();
    let journal = joined(&rt, alloc, HEAD, b"0 0 delete 0 1\nwhat\n");
    let line = JournalError {
        line: 8,
        kind: JournalErrorKind::Number,
    };
    let end = (Err(RecoveryFault::Journal(line)), b"".as_slice());
    check_run(&rt, alloc, usize::MAX, journal.as_slice(), end);
    let line = JournalError {
        line: 1,
        kind: JournalErrorKind::Head,
    };
    let end = (Err(RecoveryFault::Journal(line)), b"".as_slice());
    check_run(&rt, alloc, 1, b"", end);
}

/// A cartridge of a wrong size comes before the journal, which is read.
#[test]
fn cartridges_at_fault(rt: HostRuntime) {
    let alloc = rt.alloc();
    for size in [0usize, 7, 2047, 4095] {
        let mut cart = BLANK_IMAGE.get(..size).unwrap_or(b"");
        let mut input = b"what".as_slice();
        let mut output = Vec::new(alloc);
        let found = recover_run(alloc, usize::MAX, &mut cart, &mut input, &mut output);
        let fault = RecoveryFault::Run(RunFault::Size(size));
        check_same(&rt, size, end_of(found), Err(fault));
        check_same(&rt, ("left", size), (input.len(), output.len()), (0, 0));
    }
}

/// A journal of more than 16 MiB: the other commands' inputs have no more. Its second line of an edit is none, and isn't made.
#[test]
fn a_journal_longer_than_other_inputs(rt: HostRuntime) {
    let alloc = rt.alloc();
    let mut journal = joined(&rt, alloc, HEAD, b"0 0 delete 0 0\n");
    let rest = expect_ok(&rt, vec![in alloc; b'x'; INPUT_LIMIT]);
    expect_ok(&rt, journal.extend_from_slice(rest.as_slice()));
    check_that(&rt, "longer", journal.len() > INPUT_LIMIT);
    let text = text_after(&rt, alloc, 0);
    let end = (done(1, false), text.as_slice());
    check_run(&rt, alloc, 8, journal.as_slice(), end);
}

/// Runs a recovery over readers that give a few bytes at a time, of which one fails at a read: its end, and how often it read each.
fn run_read(
    alloc: Global,
    fails_at: [usize; 2],
    kind: ErrorKind,
    output: &mut Vec<u8>,
) -> (End, [usize; 2]) {
    let mut cart = Giver::new(BLANK_IMAGE.as_slice(), AT_ONCE, fails_at[0]);
    cart.kind = kind;
    let mut input = Giver::new(JOURNAL, AT_ONCE, fails_at[1]);
    input.kind = kind;
    let found = recover_run(alloc, usize::MAX, &mut cart, &mut input, output);
    (end_of(found), [cart.reads, input.reads])
}

/// The cartridge has five reads, and one that gives nothing.
#[test]
fn each_read_of_the_cartridge_fails(rt: HostRuntime) {
    let alloc = rt.alloc();
    for kind in [ErrorKind::Other, ErrorKind::Interrupted] {
        for read in 1..7usize {
            let mut output = Vec::new(alloc);
            let (end, reads) = run_read(alloc, [read, 0], kind, &mut output);
            let fault = RecoveryFault::Read(ReadFault::Failed);
            check_same(&rt, ("end", read), end, Err(fault));
            check_same(&rt, ("reads", read), reads, [read, 0]);
            check_that(&rt, ("nothing is written", read), output.is_empty());
        }
    }
}

/// A read of the journal that fails ends it, but one that is interrupted is tried again.
#[test]
fn each_read_of_the_journal_fails(rt: HostRuntime) {
    let alloc = rt.alloc();
    let mut output = Vec::new(alloc);
    let (end, reads) = run_read(alloc, [0, 0], ErrorKind::Other, &mut output);
    check_same(&rt, "end", end, done(4, false));
    let [_, count] = reads;
    check_that(&rt, "a read and the end", count > 1);
    let whole = output;
    for read in 1..count.saturating_add(1) {
        let mut output = Vec::new(alloc);
        let (end, reads) = run_read(alloc, [0, read], ErrorKind::Other, &mut output);
        let fault = RecoveryFault::Read(ReadFault::Failed);
        check_same(&rt, ("end", read), end, Err(fault));
        check_same(&rt, ("reads", read), reads, [6, read]);
        check_that(&rt, ("nothing is written", read), output.is_empty());
        let mut output = Vec::new(alloc);
        let (end, _) = run_read(alloc, [0, read], ErrorKind::Interrupted, &mut output);
        check_same(&rt, ("interrupted", read), end, done(4, false));
        check_that(&rt, ("interrupted", read), output == whole);
    }
}

/// Fails where a recovery doesn't end at the write after `room` writes, or doesn't end well there: whether it did.
fn is_written<R: Abort>(
    rt: &R,
    alloc: Global,
    failure: Failure,
    room: usize,
    whole: &[u8],
) -> bool {
    let (mut cart, mut input) = (BLANK_IMAGE.as_slice(), JOURNAL);
    let mut output = Taker::new(alloc, 7, Room::Writes(room), failure);
    let end = end_of(recover_run(alloc, usize::MAX, &mut cart, &mut input, &mut output));
    let written = output.taken.len();
    let is_first = whole.starts_with(output.taken.as_slice());
    check_that(rt, ("first bytes", room), is_first);
    if written == whole.len() {
        check_same(rt, ("end", room), end, done(4, false));
        return true;
    }
    let fault = RecoveryFault::Run(RunFault::Write { written });
    check_same(rt, ("end", room), end, Err(fault));
    let writes = room.saturating_add(1);
    check_same(
        rt,
        ("writes", room),
        (output.writes, output.failed),
        (writes, 1),
    );
    false
}

#[test]
fn each_write_fails(rt: HostRuntime) {
    let alloc = rt.alloc();
    let whole = text_after(&rt, alloc, 4);
    for failure in [Failure::Error, Failure::Interrupted, Failure::Nothing] {
        let mut has_ended = false;
        for room in 0..MOST {
            if is_written(&rt, alloc, failure, room, whole.as_slice()) {
                has_ended = true;
                break;
            }
        }
        check_that(&rt, "an end", has_ended);
    }
}

/// Whether a recovery ends well with one growth refused, or the growth never came.
fn is_done<R: Abort>(rt: &R, alloc: Global, number: u64, whole: &[u8]) -> bool {
    let heap = Refusing::new(alloc, number.max(1));
    let (mut cart, mut input) = (BLANK_IMAGE.as_slice(), JOURNAL);
    let mut output = Vec::new(alloc);
    let end = end_of(recover_run(&heap, usize::MAX, &mut cart, &mut input, &mut output));
    if !heap.has_refused() {
        check_same(rt, ("end", number), end, done(4, false));
        check_that(rt, ("text", number), output.as_slice() == whole);
        return true;
    }
    let is_memory = matches!(
        end,
        Err(RecoveryFault::Read(ReadFault::Memory) | RecoveryFault::Run(RunFault::Memory))
    );
    check_that(rt, ("memory", number), is_memory);
    check_that(rt, ("nothing is written", number), output.is_empty());
    false
}

#[test]
fn each_growth_is_refused(rt: HostRuntime) {
    let alloc = rt.alloc();
    let whole = text_after(&rt, alloc, 4);
    for number in 1..1000u64 {
        if is_done(&rt, alloc, number, whole.as_slice()) {
            check_that(&rt, ("growths", number), number > 1);
            return;
        }
    }
    check_that(&rt, "an end", false);
}

/// Faults and their lines.
static LINES: [(RecoveryFault, &str); 4] = [
    (RecoveryFault::Read(ReadFault::Failed), "fault: read failed"),
    (
        RecoveryFault::Run(RunFault::Size(7)),
        "fault: cartridge has 7 bytes",
    ),
    (
        RecoveryFault::Run(RunFault::Write { written: 7 }),
        "fault: write failed after 7 bytes",
    ),
    (
        RecoveryFault::Journal(JournalError {
            line: 9,
            kind: JournalErrorKind::Edit,
        }),
        "fault: journal line 9: edit",
    ),
];

#[test]
fn faults_have_lines(rt: HostRuntime) {
    let alloc = rt.alloc();
    for row in LINES.iter() {
        let (fault, wanted) = *row;
        let line = expect_ok(&rt, format!(in alloc; "{fault}"));
        check_same(&rt, wanted, line.as_str(), wanted);
    }
}
