//! `tas search --report` over files in memory: what the report's file has at each end, and when it is brought to the disk.

use crate::checks::{check_same, check_that, expect_some};
use crate::desk_files::{Ordinary, Tape, blank_tape};
use crate::journal_files::{AMPLE, Disk, JournalFolder};
use crate::movies::Recording;
use crate::programs::{TWO_FRAMES, five_frames, run_in, timeless};
use std::alloc::Global;
use std::process::Abort;
use std::sync::Wait;
use std::sync::atomic::{AtomicUsize, Ordering};
use std::thread::Threads;
use std::time::Clock;

/// A search whose report's file can be made in the folder.
const REPORTED: &[&str] = &[
    "search",
    "game.bin",
    "3",
    "1",
    "reach byte:80 == 1",
    "--report",
    "day",
];

/// The same without a file.
const ALONE: &[&str] = &["search", "game.bin", "3", "1", "reach byte:80 == 1"];

/// The same where no line is reported, and where the goal is at fault.
const STOPPED: &[&str] = &[
    "search",
    "game.bin",
    "3",
    "1",
    "reach byte:80 == 1",
    "--most",
    "2",
    "--report",
    "day",
];

const FAULTY: &[&str] = &["search", "game.bin", "3", "1", "reach (", "--report", "day"];

const SCRIPT: &[u8] = b"replace 3 1 R.... ..... .....\n";

/// What the search reports, but for its rate, and the same with a fault after it.
const REPORT: &[u8] =
    b"layer 1: 1 frames, 3 states, 15 merged, 18 played, 1024 bytes\nbest of all 18 sequences\n";

const UNSYNCED: &[u8] =
    b"layer 1: 1 frames, 3 states, 15 merged, 18 played, 1024 bytes\nbest of all 18 sequences\nfault: report: sync failed\n";

/// The verdict of the search that stops, alone and with the fault.
const STOP: &[u8] = b"stopped: more than 2 states in layer 1: none of up to 0 frames reaches it\n";

const STOP_UNSYNCED: &[u8] =
    b"stopped: more than 2 states in layer 1: none of up to 0 frames reaches it\nfault: report: sync failed\n";

/// The end of the lines that are of no report.
const FAULT: &str = "fault: ";

/// The words, the disk, and by hand the status, the script, what standard error has, and how often a file was made, brought to the disk and
/// removed.
type Case<'a> = (
    &'a [&'a str],
    Disk,
    (u8, &'a [u8], &'a [u8]),
    (usize, usize, usize),
);

/// The file is brought to the disk once, and only where the report is whole in it and on standard error. It is removed only where the search
/// ends with a fault and the folder shows it without bytes.
static CASES: [Case<'static>; 8] = [
    (REPORTED, AMPLE, (0, SCRIPT, REPORT), (1, 1, 0)),
    (
        REPORTED,
        Disk { syncs: 1, ..AMPLE },
        (0, SCRIPT, REPORT),
        (1, 1, 0),
    ),
    (
        REPORTED,
        Disk { syncs: 0, ..AMPLE },
        (1, SCRIPT, UNSYNCED),
        (1, 1, 0),
    ),
    (STOPPED, AMPLE, (0, b"", STOP), (1, 1, 0)),
    (
        STOPPED,
        Disk { syncs: 0, ..AMPLE },
        (1, b"", STOP_UNSYNCED),
        (1, 1, 0),
    ),
    (
        REPORTED,
        Disk {
            makes: false,
            ..AMPLE
        },
        (1, b"", b"fault: report: not created\n"),
        (0, 0, 0),
    ),
    (
        FAULTY,
        AMPLE,
        (1, b"", b"fault: goal word 3: operand expected\n"),
        (1, 0, 1),
    ),
    (
        ALONE,
        Disk { syncs: 0, ..AMPLE },
        (0, SCRIPT, REPORT),
        (0, 0, 0),
    ),
];

/// The folder shows the report's file without bytes, whatever it has.
static EMPTY: [Ordinary<'static>; 1] = [("day", (1, 2, 0))];

/// A folder with such a disk.
fn folder_of<'a>(game: &'a [u8], day: &'a Tape, saved: &'a Tape, disk: Disk) -> JournalFolder<'a> {
    JournalFolder {
        game,
        other: TWO_FRAMES,
        ordinary: &EMPTY,
        day,
        saved,
        disk,
        synced: AtomicUsize::new(0),
        made: AtomicUsize::new(0),
        removed: AtomicUsize::new(0),
        opened: AtomicUsize::new(0),
    }
}

/// The lines of a report: those before a fault's.
fn report_in<'a, R: Abort>(rt: &R, errors: &'a [u8]) -> &'a [u8] {
    let text = expect_some(rt, str::from_utf8(errors).ok());
    match text.split_once(FAULT) {
        Some((lines, _)) => lines.as_bytes(),
        None => errors,
    }
}

/// Fails where a search ends in another way, or its report's file has other lines than standard error, or is brought to the disk more often or
/// less.
fn check_case<R: Threads + Wait + Clock + Abort + Sync>(
    rt: &R,
    alloc: Global,
    place: usize,
    movie: &Recording,
    (words, disk, (status, script, lines), (made, synced, removed)): Case<'_>,
) {
    let (day, saved) = (blank_tape(rt, alloc, 300), blank_tape(rt, alloc, 1));
    let (game, input) = movie.files();
    let folder = folder_of(game, &day, &saved, disk);
    let (mut output, mut errors) = (Vec::new(alloc), Vec::new(alloc));
    let code = run_in(rt, alloc, &folder, input, words, &mut output, &mut errors);
    check_same(rt, ("status", place), code, status);
    check_same(rt, ("script", place), output.as_slice(), script);
    let shown = timeless(rt, alloc, errors.as_slice());
    check_same(rt, ("lines", place), shown.as_slice(), lines);
    let found = folder.made.load(Ordering::SeqCst);
    check_same(rt, ("made", place), found, made);
    let found = folder.synced.load(Ordering::SeqCst);
    check_same(rt, ("synced", place), found, synced);
    let found = folder.removed.load(Ordering::SeqCst);
    check_same(rt, ("removed", place), found, removed);
    let report = if made == 0 {
        b"".as_slice()
    } else {
        report_in(rt, errors.as_slice())
    };
    check_that(rt, ("file", place), day.holds(report));
}

#[test]
fn report_is_brought_to_the_disk_at_a_good_end(rt: HostRuntime) {
    let alloc = rt.alloc();
    let movie = five_frames(&rt, alloc);
    for (place, case) in CASES.iter().enumerate() {
        check_case(&rt, alloc, place, &movie, *case);
    }
}

/// A search whose report's file takes so many bytes: its status, its script, what standard error has, but for rates, and how often the file was
/// brought to the disk.
fn reported<T: Threads + Wait + Clock + Abort + Sync>(
    rt: &T,
    alloc: Global,
    movie: &Recording,
    room: usize,
) -> (u8, Vec<u8>, Vec<u8>, usize) {
    let (day, saved) = (blank_tape(rt, alloc, 300), blank_tape(rt, alloc, 1));
    let (game, input) = movie.files();
    let folder = folder_of(game, &day, &saved, Disk { room, ..AMPLE });
    let (mut output, mut errors) = (Vec::new(alloc), Vec::new(alloc));
    let code = run_in(
        rt,
        alloc,
        &folder,
        input,
        REPORTED,
        &mut output,
        &mut errors,
    );
    let synced = folder.synced.load(Ordering::SeqCst);
    let lines = timeless(rt, alloc, errors.as_slice());
    (code, output, lines, synced)
}

/// A line goes to the report's file first: where it takes only a part, standard error has none of it, and nothing is brought to the disk. The
/// layer's line has 80 bytes and the digits of its rate, of which there are 1 to 8, and the verdict 25.
#[test]
fn report_that_cannot_be_written_is_a_fault(rt: HostRuntime) {
    let alloc = rt.alloc();
    let movie = five_frames(&rt, alloc);
    for room in 0usize..81 {
        let (code, output, errors, synced) = reported(&rt, alloc, &movie, room);
        let line = b"fault: report: write failed\n".as_slice();
        check_same(&rt, room, (code, errors.as_slice()), (1, line));
        check_same(&rt, room, (output.len(), synced), (0, 0));
    }
    let line =
        b"layer 1: 1 frames, 3 states, 15 merged, 18 played, 1024 bytes\nfault: report: write failed after ".as_slice();
    for room in 88usize..106 {
        let (code, output, errors, synced) = reported(&rt, alloc, &movie, room);
        check_same(&rt, room, (code, output.as_slice()), (1, SCRIPT));
        check_that(&rt, room, errors.as_slice().starts_with(line));
        check_same(&rt, room, synced, 0);
    }
}
