//! Each read, each write and each growth that fails.

use crate::checks::{check_same, check_that, expect_ok};
use crate::files::{COUNTS, COUNTS_MOVIE, DIGEST_WHOLE, image_of};
use crate::shelves::{Books, Held};
use refusals::Refusing;
use std::io::sink;
use tas_engines::ReadFault;
use tas_verify::{VerifyFault, verify_run};
use test_streams::{Failure, Giver, Room, Taker};

/// No run here reads a file, writes or grows so often.
const MOST: usize = 1000;

/// Three movies.
const MANIFEST: &[u8] = b"x c 1\na c 1\na b 1\n";

/// What is written of them.
const LINES: &[u8] = b"x: movie not found\na: ok\na: cartridge not found\n1 of 3 ok\n";

/// The cartridge as a shelf has it that finds it, and a manifest with its SHA-256.
const FOUND: &[u8] = b"=6707df007cd9f49721b2a8942c02ead96586dd0aa6e2c8ad328dbe2deba4e585";

const BY_SHA256: &[u8] = b"a 6707df007cd9f49721b2a8942c02ead96586dd0aa6e2c8ad328dbe2deba4e585 1\n";

#[test]
fn a_file_that_is_not_read_is_named(rt: HostRuntime) {
    let alloc = rt.alloc();
    let counts = image_of(&rt, alloc, COUNTS);
    let files: [Held<'_>; 4] = [
        (b"a", COUNTS_MOVIE),
        (b"c", counts.as_slice()),
        (FOUND, counts.as_slice()),
        (b"1", DIGEST_WHOLE),
    ];
    for (failing, manifest, reads, line) in [
        (
            b"a".as_slice(),
            b"a c 1\n".as_slice(),
            2,
            b"a: movie: read failed\n0 of 1 ok\n".as_slice(),
        ),
        (
            b"c",
            b"a c 1\n",
            6,
            b"a: cartridge: read failed\n0 of 1 ok\n",
        ),
        (
            FOUND,
            BY_SHA256,
            6,
            b"a: cartridge: read failed\n0 of 1 ok\n",
        ),
        (b"1", b"a c 1\n", 2, b"a: digest: read failed\n0 of 1 ok\n"),
    ] {
        for fails_at in 1..reads + 2 {
            let books = Books {
                files: &files,
                failing,
                fails_at,
            };
            let mut out = Vec::new(alloc);
            let mut input = manifest;
            let end = verify_run(&rt, alloc, 1, &books, &mut input, &mut out, &mut sink());
            check_that(&rt, fails_at, end.is_ok());
            let wanted = if fails_at <= reads {
                line
            } else {
                b"a: ok\n1 of 1 ok\n"
            };
            check_same(&rt, fails_at, out.as_slice(), wanted);
        }
    }
}

/// A file that is too long, a movie and its cartridge.
fn files_beside<'a>(long: &'a [u8], cart: &'a [u8]) -> [Held<'a>; 3] {
    [(b"long", long), (b"a", COUNTS_MOVIE), (b"c", cart)]
}

#[test]
fn a_file_that_is_too_long_is_named(rt: HostRuntime) {
    let alloc = rt.alloc();
    let long = expect_ok(&rt, vec![in alloc; 0u8; 16_777_217]);
    let counts = image_of(&rt, alloc, COUNTS);
    let files = files_beside(long.as_slice(), counts.as_slice());
    let books = Books {
        files: &files,
        failing: b"",
        fails_at: 0,
    };
    let mut out = Vec::new(alloc);
    let mut input = b"long c 1\na long 1\na c long\n".as_slice();
    let end = verify_run(&rt, alloc, 1, &books, &mut input, &mut out, &mut sink());
    check_that(&rt, 0, end.is_ok());
    let wanted: &[u8] =
        b"long: movie: input is too long\na: cartridge: input is too long\na: digest: input is too long\n0 of 3 ok\n";
    check_same(&rt, 0, out.as_slice(), wanted);
    let mut input = long.as_slice();
    let end = verify_run(&rt, alloc, 1, &books, &mut input, &mut out, &mut sink());
    check_that(&rt, 1, end == Err(VerifyFault::Read(ReadFault::TooLong)));
    check_same(&rt, 1, out.as_slice(), wanted);
}

#[test]
fn a_manifest_that_is_not_read_has_no_lines(rt: HostRuntime) {
    let alloc = rt.alloc();
    let books = Books {
        files: &[],
        failing: b"",
        fails_at: 0,
    };
    for fails_at in 1..6 {
        let mut out = Vec::new(alloc);
        let mut input = Giver::new(MANIFEST, 4, fails_at);
        let end = verify_run(&rt, alloc, 1, &books, &mut input, &mut out, &mut sink());
        check_that(
            &rt,
            fails_at,
            end == Err(VerifyFault::Read(ReadFault::Failed)),
        );
        check_that(&rt, fails_at, input.reads == fails_at);
        check_that(&rt, fails_at, out.is_empty());
    }
}

#[test]
fn a_failed_write_is_counted(rt: HostRuntime) {
    let alloc = rt.alloc();
    let counts = image_of(&rt, alloc, COUNTS);
    let files: [Held<'_>; 3] = [
        (b"a", COUNTS_MOVIE),
        (b"c", counts.as_slice()),
        (b"1", DIGEST_WHOLE),
    ];
    let books = Books {
        files: &files,
        failing: b"",
        fails_at: 0,
    };
    for written in [0, 1, 18, 19, 24, 25, 51, 57, 58] {
        for failure in [Failure::Error, Failure::Interrupted, Failure::Nothing] {
            let mut out = Taker::new(alloc, 7, Room::Bytes(written), failure);
            let mut input = MANIFEST;
            let end = verify_run(&rt, alloc, 2, &books, &mut input, &mut out, &mut sink());
            if written < LINES.len() {
                check_that(&rt, written, end == Err(VerifyFault::Write { written }));
                check_same(&rt, written, out.failed, 1);
            } else {
                check_that(&rt, written, end.is_ok());
            }
            check_same(&rt, written, out.taken.as_slice(), &LINES[..written]);
        }
    }
}

#[test]
fn a_growth_that_is_refused_is_reported(rt: HostRuntime) {
    let alloc = rt.alloc();
    let counts = image_of(&rt, alloc, COUNTS);
    let files: [Held<'_>; 3] = [
        (b"a", COUNTS_MOVIE),
        (b"c", counts.as_slice()),
        (b"1", DIGEST_WHOLE),
    ];
    let books = Books {
        files: &files,
        failing: b"",
        fails_at: 0,
    };
    let mut refused = 0;
    for number in 1..MOST {
        let heap = Refusing::new(alloc, number as u64);
        let mut out = Vec::new(alloc);
        let mut input = MANIFEST;
        let end = verify_run(&rt, &heap, 1, &books, &mut input, &mut out, &mut sink());
        if !heap.has_refused() {
            check_that(&rt, number, end.is_ok());
            check_same(&rt, number, out.as_slice(), LINES);
            break;
        }
        refused = number;
        match end {
            Ok(_) => check_that(&rt, number, has(out.as_slice(), b"out of memory\n")),
            Err(fault) => {
                let is_memory = fault == VerifyFault::Memory
                    || fault == VerifyFault::Read(ReadFault::Memory);
                check_that(&rt, number, is_memory);
                check_that(&rt, number, LINES.starts_with(out.as_slice()));
            }
        }
    }
    check_that(&rt, refused, 15 < refused);
}

/// Whether a text has another one in it.
fn has(text: &[u8], other: &[u8]) -> bool {
    for at in 0..text.len() {
        if text[at..].starts_with(other) {
            return true;
        }
    }
    false
}
