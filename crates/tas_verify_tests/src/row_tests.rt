//! Each result that a line can have, whatever the workers.

use crate::checks::{check_same, check_that, expect_ok};
use crate::files::{
    COUNTS, COUNTS_MOVIE, DIGEST_BY_1, DIGEST_BY_2, DIGEST_BY_3, DIGEST_WHOLE, EMPTY_DIGEST,
    EMPTY_MOVIE, STOPS, STOPS_MOVIE, changed, image_of,
};
use crate::shelves::{Books, Held};
use std::alloc::Global;
use std::io::sink;
use std::process::Abort;
use std::thread::Threads;
use std::time::Clock;
use tas_verify::{MAX_WORKERS, Tally, verify_run};

/// Lines of a manifest, and what is said of their movies.
static ROWS: [(&[u8], &[u8]); 32] = [
    (b"a c 1", b"a: ok"),
    (b"a c 2", b"a: ok"),
    (b"a c 3", b"a: ok"),
    (b"a c all", b"a: ok"),
    (b"a\tc\tall", b"a: ok"),
    (b"empty blank none", b"empty: ok"),
    (
        b"a 6707df007cd9f49721b2a8942c02ead96586dd0aa6e2c8ad328dbe2deba4e585 3",
        b"a: ok",
    ),
    (b"a with spaces\tc d\t1", b"a with spaces: ok"),
    (b"a c nothing", b"a: differs in line 1"),
    (b"a c profile", b"a: differs in line 2"),
    (b"a c cart", b"a: differs in line 3"),
    (b"a c movie", b"a: differs in line 4"),
    (b"a c first", b"a: differs at 0"),
    (b"a c third", b"a: differs at 4"),
    (b"a c cut", b"a: differs at 2"),
    (b"a c end", b"a: differs at 6"),
    (b"a c more", b"a: differs at 8"),
    (b"a c zero", b"a: differs at 0"),
    (b"empty blank 1", b"empty: differs in line 3"),
    (b"gone c 1", b"gone: movie not found"),
    (b"a gone 1", b"a: cartridge not found"),
    (
        b"a 0000000000000000000000000000000000000000000000000000000000000000 1",
        b"a: cartridge not found",
    ),
    (
        b"a 1111111111111111111111111111111111111111111111111111111111111111 1",
        b"a: cartridge not found",
    ),
    (b"a c gone", b"a: digest not found"),
    (b"gone gone gone", b"gone: movie not found"),
    (b"stops s 1", b"stops: halted at F007 by 02"),
    (b"stops c 1", b"stops: movie line 2: digest"),
    (b"1 c 1", b"1: movie line 1: head"),
    (b"a a 1", b"a: cartridge has 141 bytes"),
    (b"bad c 1", b"bad: movie line 5: frame"),
    (b"unended c 1", b"unended: movie line 5: end"),
    (b"twice c 1", b"twice: movie line 4: run"),
];

/// A digest with another byte in the line with this number, counted from 1: its last one but one.
fn changed_in<R: Abort>(rt: &R, alloc: Global, digest: &[u8], line: usize) -> Vec<u8> {
    let mut number = 1;
    for (place, byte) in digest.iter().enumerate() {
        if *byte == b'\n' {
            if number == line {
                return changed(rt, alloc, digest, place.saturating_sub(1), b'z');
            }
            number = line.min(number.wrapping_add(1));
        }
    }
    expect_ok(rt, Vec::from_slice(alloc, digest))
}

/// The first bytes of a digest, up to the end of the line with this number, and others.
fn cut_after<R: Abort>(rt: &R, alloc: Global, digest: &[u8], line: usize, more: &[u8]) -> Vec<u8> {
    let mut bytes = Vec::new(alloc);
    let mut lines = 0;
    for byte in digest {
        if lines < line {
            expect_ok(rt, bytes.push(*byte));
        }
        if *byte == b'\n' && lines < line {
            lines += 1;
        }
    }
    expect_ok(rt, bytes.extend_from_slice(more));
    bytes
}

/// What a run writes, and its tally.
pub fn run_on<R: Threads + Clock + Sync + Abort>(
    rt: &R,
    alloc: Global,
    workers: usize,
    books: &Books<'_>,
    manifest: &[u8],
) -> (Vec<u8>, Tally) {
    let mut out = Vec::new(alloc);
    let mut input = manifest;
    let tally = expect_ok(
        rt,
        verify_run(rt, alloc, workers, books, &mut input, &mut out, &mut sink()),
    );
    (out, tally)
}

/// Adds some rows to a manifest, and what is written of them.
fn add_rows<R: Abort>(
    rt: &R,
    rows: &[(&[u8], &[u8])],
    manifest: &mut Vec<u8>,
    wanted: &mut Vec<u8>,
) {
    for (row, line) in rows {
        expect_ok(rt, manifest.extend_from_slice(row));
        expect_ok(rt, manifest.push(b'\n'));
        expect_ok(rt, wanted.extend_from_slice(line));
        expect_ok(rt, wanted.push(b'\n'));
    }
}

/// Cartridges, and texts and digests that were changed.
#[derive(Drop)]
struct Bytes {
    counts: Vec<u8>,
    stops: Vec<u8>,
    blank: Vec<u8>,
    bad: Vec<u8>,
    unended: Vec<u8>,
    twice: Vec<u8>,
    profile: Vec<u8>,
    cart: Vec<u8>,
    movie: Vec<u8>,
    first: Vec<u8>,
    third: Vec<u8>,
    end: Vec<u8>,
    cut: Vec<u8>,
    more: Vec<u8>,
    zero: Vec<u8>,
}

/// Those of the rows above.
fn bytes_of<R: Abort>(rt: &R, alloc: Global) -> Bytes {
    let blank = image_of(rt, alloc, &[]);
    Bytes {
        counts: image_of(rt, alloc, COUNTS),
        stops: image_of(rt, alloc, STOPS),
        blank: changed(rt, alloc, blank.as_slice(), 0xffd, 0),
        bad: cut_after(rt, alloc, COUNTS_MOVIE, 4, b"R...\n"),
        unended: cut_after(rt, alloc, COUNTS_MOVIE, 4, b"..... ..... ....."),
        twice: cut_after(rt, alloc, COUNTS_MOVIE, 3, b"..... ..... .....\n"),
        profile: changed_in(rt, alloc, DIGEST_BY_2, 2),
        cart: changed_in(rt, alloc, DIGEST_BY_2, 3),
        movie: changed_in(rt, alloc, DIGEST_BY_2, 4),
        first: changed_in(rt, alloc, DIGEST_BY_2, 5),
        third: changed_in(rt, alloc, DIGEST_BY_2, 7),
        end: changed_in(rt, alloc, DIGEST_BY_2, 8),
        cut: cut_after(rt, alloc, DIGEST_BY_2, 5, b""),
        more: cut_after(rt, alloc, DIGEST_BY_2, 8, b"end"),
        zero: cut_after(rt, alloc, DIGEST_BY_2, 4, b"frames 0 to 0 ram\n"),
    }
}

/// The files of the rows above.
fn files_of(all: &Bytes) -> [Held<'_>; 28] {
    [
        (b"a", COUNTS_MOVIE),
        (b"a with spaces", COUNTS_MOVIE),
        (b"c", all.counts.as_slice()),
        (b"c d", all.counts.as_slice()),
        (b"1", DIGEST_BY_1),
        (b"2", DIGEST_BY_2),
        (b"3", DIGEST_BY_3),
        (b"all", DIGEST_WHOLE),
        (b"empty", EMPTY_MOVIE),
        (b"blank", all.blank.as_slice()),
        (b"none", EMPTY_DIGEST),
        (b"nothing", b""),
        (b"profile", all.profile.as_slice()),
        (b"cart", all.cart.as_slice()),
        (b"movie", all.movie.as_slice()),
        (b"first", all.first.as_slice()),
        (b"third", all.third.as_slice()),
        (b"cut", all.cut.as_slice()),
        (b"end", all.end.as_slice()),
        (b"more", all.more.as_slice()),
        (b"zero", all.zero.as_slice()),
        (b"stops", STOPS_MOVIE),
        (b"s", all.stops.as_slice()),
        (b"bad", all.bad.as_slice()),
        (b"unended", all.unended.as_slice()),
        (b"twice", all.twice.as_slice()),
        (
            b"=6707df007cd9f49721b2a8942c02ead96586dd0aa6e2c8ad328dbe2deba4e585",
            all.counts.as_slice(),
        ),
        (
            b"=1111111111111111111111111111111111111111111111111111111111111111",
            all.counts.as_slice(),
        ),
    ]
}

#[test]
fn each_movie_has_its_line(rt: HostRuntime) {
    let alloc = rt.alloc();
    let all = bytes_of(&rt, alloc);
    let files = files_of(&all);
    let books = Books {
        files: &files,
        failing: b"",
        fails_at: 0,
    };
    let (mut manifest, mut wanted) = (Vec::new(alloc), Vec::new(alloc));
    add_rows(&rt, &ROWS, &mut manifest, &mut wanted);
    expect_ok(&rt, wanted.extend_from_slice(b"8 of 32 ok\n"));
    for workers in [0, 3, MAX_WORKERS.wrapping_add(1)] {
        let (out, tally) = run_on(&rt, alloc, workers, &books, manifest.as_slice());
        check_same(&rt, workers, out.as_slice(), wanted.as_slice());
        let all = Tally {
            movies: 32,
            same: 8,
        };
        check_that(&rt, workers, tally == all);
    }
}

/// As many frames as a movie has at most, and one more.
const LONGEST: &[u8] =
    b"a26movie 2\ncart 6707df007cd9f49721b2a8942c02ead96586dd0aa6e2c8ad328dbe2deba4e585\n..... ..... ..... x262144\nR.... ..... .....\n";

#[test]
fn a_movie_of_too_many_frames_has_its_line(rt: HostRuntime) {
    let alloc = rt.alloc();
    let counts = image_of(&rt, alloc, COUNTS);
    let files: [Held<'_>; 3] = [
        (b"a", LONGEST),
        (b"c", counts.as_slice()),
        (b"1", DIGEST_BY_1),
    ];
    let books = Books {
        files: &files,
        failing: b"",
        fails_at: 0,
    };
    let (out, _) = run_on(&rt, alloc, 1, &books, b"a c 1\n");
    let wanted: &[u8] = b"a: movie line 4: too many\n0 of 1 ok\n";
    check_same(&rt, 0, out.as_slice(), wanted);
}
