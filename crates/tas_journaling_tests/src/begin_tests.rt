//! Journals that don't begin.

ghost use Rattle.std.specs.Prelude.{◌≤◌};

use crate::checks::{check_same, check_that, expect_ok};
use crate::disks::{Disk, begin};
use crate::talks::{PARTS, first_parts, size_of};
use refusals::Refusing;
use std::alloc::Global;
use std::process::Abort;
use std::sync::atomic::AtomicU64;
use tas_journaling::{Journal, JournalFault};
use tas_movie::Movie;

/// What there is for a journal's head: the growth that is refused, room for its bytes, and how often it can be brought to the disk. Then the
/// fault, and how many bytes the file has.
#[derive(Clone, Copy)]
struct Case {
    growth: u64,
    room: usize,
    syncs: u64,
    fault: Option<JournalFault>,
    bytes: usize,
}

/// The file of a journal that begins, or doesn't, and why it doesn't.
fn begin_with<'a>(
    alloc: Global,
    case: Case,
    movie: &Movie,
    done: &'a AtomicU64,
) -> (Disk<'a>, Option<JournalFault>)
    requires { 1 ≤ case.growth }
{
    let heap = Refusing::new(alloc, case.growth);
    let disk = Disk::new(alloc, case.room, case.syncs, done);
    match Journal::begin(&heap, disk, movie, 0) {
        Ok(journal) => (journal.into_file(), None),
        Err((disk, fault)) => (disk, Some(fault)),
    }
}

/// Checks a case, and returns the file.
fn check_begin<'a, R: Abort>(rt: &R, alloc: Global, case: Case, done: &'a AtomicU64) -> Disk<'a>
    requires { 1 ≤ case.growth }
{
    let movie = expect_ok(rt, Movie::blank(alloc));
    let (disk, fault) = begin_with(alloc, case, &movie, done);
    check_same(rt, "fault", fault, case.fault);
    let wanted = first_parts(rt, alloc, &PARTS, 1);
    let file = disk.taker.taken.as_slice();
    check_same(rt, case.fault, file.len(), case.bytes);
    check_that(rt, case.fault, wanted.starts_with(file));
    disk
}

/// Enough of all but memory.
const REFUSED: Case = Case {
    growth: 1,
    room: 1_000,
    syncs: 10,
    fault: Some(JournalFault::Memory),
    bytes: 0,
};

/// The file of a journal that didn't begin comes back, with what was written to it: memory refused, a full disk, and one that can't be brought
/// to the disk.
#[test]
fn a_journal_that_does_not_begin_gives_its_file_back(rt: HostRuntime) {
    let alloc = rt.alloc();
    let head = size_of(&PARTS, 1);
    let ample = Case {
        growth: u64::MAX,
        fault: None,
        bytes: head,
        ..REFUSED
    };
    let full = Case {
        room: 100,
        fault: Some(JournalFault::Write),
        bytes: 100,
        ..ample
    };
    let unsynced = Case {
        syncs: 0,
        fault: Some(JournalFault::Sync),
        ..ample
    };
    for case in [ample, REFUSED, full, unsynced] {
        let done = AtomicU64::new(0);
        drop(check_begin(&rt, alloc, case, &done));
    }
}

/// A journal that was refused memory for its head begins in the same file.
#[test]
fn a_journal_begins_once_there_is_memory(rt: HostRuntime) {
    let alloc = rt.alloc();
    let done = AtomicU64::new(0);
    let disk = check_begin(&rt, alloc, REFUSED, &done);
    let journal = begin(&rt, alloc, disk, 0);
    let head = first_parts(&rt, alloc, &PARTS, 1);
    let file = journal.into_file().taker.taken;
    check_that(&rt, "head", file.as_slice() == head.as_slice());
}
