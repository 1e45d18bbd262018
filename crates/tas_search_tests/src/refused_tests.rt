//! Searches of whose reads and writes one fails: each read of each input in turn, and a write at each byte of the script.

use crate::checks::{check_same, check_that};
use crate::goals::COUNTER;
use crate::requests::{CHOICES, image_of, search, text_of};
use std::alloc::Global;
use std::io::{ErrorKind, sink};
use std::process::Abort;
use std::thread::Threads;
use std::time::Clock;
use tas_engines::{ReadFault, RunFault};
use tas_search::{SearchError, search_run};
use test_streams::{Failure, Giver, Room, Taker};

/// The script of a search for one frame more to the right than to the left.
const SCRIPT: &[u8] = b"replace 3 1 R.... ..... .....\n";

/// How many bytes a read gives at most.
const AT_ONCE: usize = 1000;

/// More reads than any of the inputs takes.
const MOST: usize = 100;

/// How often the inputs are read up to a read of the input with this number, where these are the reads of all inputs to their ends.
fn reads_up_to(whole: [usize; 4], input: usize, read: usize) -> [usize; 4] {
    match input {
        0 => [read, 0, 0, 0],
        1 => [whole[0], read, 0, 0],
        2 => [whole[0], whole[1], read, 0],
        _ => [whole[0], whole[1], whole[2], read],
    }
}

/// A reader that fails so at one of its reads.
fn giver(bytes: &[u8], fails_at: usize, kind: ErrorKind) -> Giver<'_> {
    let mut giver = Giver::new(bytes, AT_ONCE, fails_at);
    giver.kind = kind;
    giver
}

/// How a search of these inputs ends, the cartridge, the choices, the names and the movie, each of which fails at one of its reads, counted
/// from 1, or at none of them; what it writes; and how often it reads each.
fn ran<R: Abort + Threads + Clock + Sync>(
    rt: &R,
    alloc: Global,
    bytes: [&[u8]; 4],
    fails_at: [usize; 4],
    kind: ErrorKind,
) -> (Option<SearchError>, Vec<u8>, [usize; 4]) {
    let mut files = [
        giver(bytes[0], fails_at[0], kind),
        giver(bytes[1], fails_at[1], kind),
        giver(bytes[2], fails_at[2], kind),
    ];
    let mut movie = giver(bytes[3], fails_at[3], kind);
    let mut out = Vec::new(alloc);
    let end = search_run(
        rt,
        alloc,
        &search(4, 1, 100, b"reach n == 1"),
        &mut files,
        &mut movie,
        &mut out,
        &mut sink(),
        &mut sink(),
    );
    let reads = [files[0].reads, files[1].reads, files[2].reads, movie.reads];
    (end.err(), out, reads)
}

/// How many reads of one input fail in turn, until there are no more of them. Each one ends the search: it is the last one of all inputs, and
/// nothing is written. Without one the script is written.
fn failed_reads<R: Abort + Threads + Clock + Sync>(
    rt: &R,
    alloc: Global,
    bytes: [&[u8]; 4],
    whole: [usize; 4],
    input: usize,
    kind: ErrorKind,
) -> usize {
    let mut failed = 0;
    for read in 1..MOST {
        let fails_at = reads_up_to([0; 4], input, read);
        let (end, out, reads) = ran(rt, alloc, bytes, fails_at, kind);
        let case = (input, read);
        if end.is_none() {
            check_same(rt, case, out.as_slice(), SCRIPT);
            check_same(rt, case, reads, whole);
            break;
        }
        check_that(rt, case, end == Some(SearchError::Read(ReadFault::Failed)));
        check_same(rt, case, out.len(), 0);
        check_same(rt, case, reads, reads_up_to(whole, input, read));
        failed = read;
    }
    failed
}

#[test]
fn each_read_is_refused(rt: HostRuntime) {
    let alloc = rt.alloc();
    let image = image_of(&rt, alloc, COUNTER);
    let movie = text_of(&rt, alloc, COUNTER, 5);
    let bytes = [
        image.as_slice(),
        CHOICES,
        b"n 80\n".as_slice(),
        movie.as_slice(),
    ];
    // The cartridge's 4,096 bytes come with five reads and the others with one, and one more read finds the end.
    let whole = [6, 2, 2, 2];
    for kind in [ErrorKind::Other, ErrorKind::Interrupted] {
        for (input, reads) in whole.iter().enumerate() {
            let failed = failed_reads(&rt, alloc, bytes, whole, input, kind);
            check_same(&rt, input, failed, *reads);
        }
    }
}

#[test]
fn a_write_is_refused_at_each_byte(rt: HostRuntime) {
    let alloc = rt.alloc();
    let image = image_of(&rt, alloc, COUNTER);
    let movie = text_of(&rt, alloc, COUNTER, 5);
    let search = search(4, 1, 100, b"reach n == 1");
    for room in 0..SCRIPT.len() {
        for failure in [Failure::Error, Failure::Interrupted, Failure::Nothing] {
            let mut out = Taker::new(alloc, 7, Room::Bytes(room), failure);
            let mut files = [image.as_slice(), CHOICES, b"n 80\n"];
            let end = search_run(
                &rt,
                alloc,
                &search,
                &mut files,
                &mut { movie.as_slice() },
                &mut out,
                &mut sink(),
                &mut sink(),
            );
            check_that(
                &rt,
                room,
                end.err() == Some(SearchError::Run(RunFault::Write { written: room })),
            );
            check_same(&rt, room, out.taken.as_slice(), &SCRIPT[..room]);
            check_same(&rt, room, out.failed, 1);
        }
    }
}
