//! Tables of the bytes of RAM that have names. RAM's bytes were found by the oracle (`oracle/look`), a machine of its own.

use crate::checks::{check_same, expect_ok};
use crate::look_tests::{COUNTS, COUNTS_DIGEST, STOPS, STOPS_DIGEST};
use crate::movies::{image_of, text_of};
use crate::ran::{
    FileEngine, OTHER_DIGEST, Ran, check_fault, check_filled, check_ran, run_beside_on,
    run_beside_to,
};
use std::alloc::Global;
use std::process::Abort;
use tas_engines::{NamesFaultKind, RunFault, ToolFault};
use test_streams::{Failure, Room, Taker};

/// Names of the two bytes that the counting cartridge writes, the later one first, of the last byte, and of the first one again.
const NAMES: &[u8] = b"pins 81\ncount 80\nlast FF\nagain_2 80\n";

/// The head line of their table.
const HEAD: &[u8] = b"frames played,pins,count,last,again_2\n";

/// Their lines after 0 to 5 frames, of which the third and the fourth hold the stick right.
static LINES: [&[u8]; 6] = [
    b"0,0,0,0,0\n",
    b"1,255,72,0,72\n",
    b"2,255,143,0,143\n",
    b"3,127,214,0,214\n",
    b"4,127,29,0,29\n",
    b"5,255,100,0,100\n",
];

/// The head, and the lines from number `from` to `to` - 1.
fn table<R: Abort>(rt: &R, alloc: Global, from: usize, to: usize) -> Vec<u8> {
    let mut text = expect_ok(rt, Vec::from_slice(alloc, HEAD));
    for (number, line) in LINES.iter().enumerate() {
        if from <= number && number < to {
            expect_ok(rt, text.extend_from_slice(*line));
        }
    }
    text
}

/// Runs `tas ram --names` over the counting cartridge and a movie of five frames.
fn run_counts<R: Abort>(rt: &R, alloc: Global, range: (usize, usize), names: &[u8]) -> Ran {
    let cart = image_of(rt, alloc, COUNTS);
    let text = text_of(rt, alloc, COUNTS_DIGEST, b"..RR.");
    let engine = FileEngine::RamTable(range.0, range.1);
    run_beside_on(alloc, engine, cart.as_slice(), names, text.as_slice())
}

#[test]
fn a_table_has_a_column_for_each_name(rt: HostRuntime) {
    let alloc = rt.alloc();
    for (from, to) in [(0usize, 6usize), (0, 1), (2, 4), (5, 6), (3, 3), (6, 6)] {
        let wanted = table(&rt, alloc, from, to);
        let ran = run_counts(&rt, alloc, (from, to), NAMES);
        check_ran(&rt, (from, to), ran, wanted.as_slice());
    }
}

#[test]
fn a_table_without_names_has_one_column(rt: HostRuntime) {
    let alloc = rt.alloc();
    let ran = run_counts(&rt, alloc, (4, 6), b"");
    check_ran(&rt, "no names", ran, b"frames played\n4\n5\n");
}

#[test]
fn a_halted_machine_keeps_its_bytes(rt: HostRuntime) {
    let alloc = rt.alloc();
    let cart = image_of(&rt, alloc, STOPS);
    let text = text_of(&rt, alloc, STOPS_DIGEST, b"..R.");
    let engine = FileEngine::RamTable(2, 5);
    let ran = run_beside_on(alloc, engine, cart.as_slice(), b"n 80\n", text.as_slice());
    check_ran(&rt, "bytes", ran, b"frames played,n\n2,171\n3,172\n4,172\n");
}

/// Texts that are no names, the line at fault, and what is wrong with it.
static WRONG_NAMES: [(&[u8], usize, NamesFaultKind); 5] = [
    (b"x 85", 1, NamesFaultKind::End),
    (b"x 85\n\n", 2, NamesFaultKind::Space),
    (b"x 85\ny 7F\n", 2, NamesFaultKind::Address),
    (b"x 85\ny 86\nx 87\n", 3, NamesFaultKind::Name),
    (b"or 85\n", 1, NamesFaultKind::Name),
];

#[test]
fn names_at_fault_come_before_the_range(rt: HostRuntime) {
    let alloc = rt.alloc();
    for (names, line, kind) in WRONG_NAMES.iter() {
        let (line, kind) = (*line, *kind);
        let ran = run_counts(&rt, alloc, (3, 2), *names);
        let fault = ToolFault::Run(RunFault::Names { line, kind });
        check_fault(&rt, line, ran, fault);
    }
}

#[test]
fn a_table_past_the_end_is_out_of_range(rt: HostRuntime) {
    let alloc = rt.alloc();
    for (from, to) in [(0usize, 7usize), (3, 2), (7, 7)] {
        let ran = run_counts(&rt, alloc, (from, to), NAMES);
        let fault = ToolFault::Run(RunFault::Range { from, to, len: 5 });
        check_fault(&rt, (from, to), ran, fault);
    }
}

#[test]
fn faults_of_the_movie_come_before_those_of_names(rt: HostRuntime) {
    let alloc = rt.alloc();
    let cart = image_of(&rt, alloc, STOPS);
    let text = text_of(&rt, alloc, COUNTS_DIGEST, b".");
    let engine = FileEngine::RamTable(0, 1);
    let ran = run_beside_on(alloc, engine, cart.as_slice(), b"x", text.as_slice());
    check_fault(&rt, "text", ran, ToolFault::Run(OTHER_DIGEST));
    let ran = run_beside_on(alloc, engine, b"1234567", b"x", text.as_slice());
    check_fault(&rt, "size", ran, ToolFault::Run(RunFault::Size(7)));
}

#[test]
fn cut_tables_are_told_by_their_bytes(rt: HostRuntime) {
    let alloc = rt.alloc();
    let image = image_of(&rt, alloc, COUNTS);
    let movie = text_of(&rt, alloc, COUNTS_DIGEST, b"..RR.");
    let engine = FileEngine::RamTable(0, 6);
    let whole = table(&rt, alloc, 0, 6);
    for room in [0, 1, 37, 38, 39, 47, 48, 62, 123] {
        let mut lines = Taker::new(alloc, 100, Room::Bytes(room), Failure::Error);
        let mut files = [image.as_slice(), NAMES];
        let mut text = movie.as_slice();
        let end = run_beside_to(alloc, engine, &mut files, &mut text, &mut lines);
        check_filled(&rt, &lines, end, whole.as_slice(), room);
    }
    check_same(&rt, "length", whole.len(), 124);
}
