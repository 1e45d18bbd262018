//! The lines that faults are told by.

use crate::checks::{check_same, expect_ok};
use std::alloc::Global;
use std::process::Abort;
use tas_engines::{NamesFaultKind, ReadFault, RunFault, SeatFault, ToolFault};
use tas_movie::{TextError, TextErrorKind};

/// Fails where a fault is told by another line.
fn check_line<R: Abort>(rt: &R, alloc: Global, fault: ToolFault, line: &str) {
    let text = expect_ok(rt, format!(in alloc; "{fault}"));
    check_same(rt, fault, text.as_str(), line);
}

/// Faults, and the line that tells each.
static LINES: [(ToolFault, &str); 17] = [
    (
        ToolFault::Read(ReadFault::TooLong),
        "fault: input is too long",
    ),
    (ToolFault::Read(ReadFault::Failed), "fault: read failed"),
    (
        ToolFault::Run(RunFault::Write { written: 20 }),
        "fault: write failed after 20 bytes",
    ),
    (
        ToolFault::Run(RunFault::Size(7)),
        "fault: cartridge has 7 bytes",
    ),
    (
        ToolFault::Run(RunFault::NoFrame { frame: 1, len: 1 }),
        "fault: no frame 1 of 1",
    ),
    (
        ToolFault::Run(RunFault::Range {
            from: 0,
            to: 2,
            len: 1,
        }),
        "fault: range 0 to 2 of 1",
    ),
    (
        ToolFault::Run(RunFault::Halted {
            at: 0xf00d,
            opcode: 2,
        }),
        "fault: halted at F00D by 02",
    ),
    (
        ToolFault::Run(RunFault::Halted {
            at: 0x000c,
            opcode: 0x80,
        }),
        "fault: halted at 000C by 80",
    ),
    (
        ToolFault::Run(RunFault::Script { line: 12 }),
        "fault: script line 12",
    ),
    (
        ToolFault::Run(RunFault::Names {
            line: 1,
            kind: NamesFaultKind::End,
        }),
        "fault: names line 1: end",
    ),
    (
        ToolFault::Run(RunFault::Names {
            line: 3,
            kind: NamesFaultKind::Space,
        }),
        "fault: names line 3: space",
    ),
    (
        ToolFault::Run(RunFault::Names {
            line: 12,
            kind: NamesFaultKind::Address,
        }),
        "fault: names line 12: address",
    ),
    (
        ToolFault::Run(RunFault::Names {
            line: 2,
            kind: NamesFaultKind::Name,
        }),
        "fault: names line 2: name",
    ),
    (ToolFault::Run(RunFault::NoPlace), "fault: no place"),
    (ToolFault::Run(RunFault::NoEntry), "fault: no entry"),
    (ToolFault::Run(RunFault::Foreign), "fault: foreign edit"),
    (ToolFault::Run(RunFault::Memory), "fault: out of memory"),
];

#[test]
fn faults_read_as_their_lines(rt: HostRuntime) {
    let alloc = rt.alloc();
    for (fault, line) in LINES.iter() {
        check_line(&rt, alloc, *fault, *line);
    }
}

/// How a seat's conversation ended, and the line that tells of it.
static SEAT_LINES: [(u32, SeatFault, &str); 6] = [
    (0, SeatFault::NotOpened, "fault: seat 0: not opened"),
    (7, SeatFault::Read, "fault: seat 7: read failed"),
    (
        1,
        SeatFault::Write { written: 20 },
        "fault: seat 1: write failed after 20 bytes",
    ),
    (2, SeatFault::Memory, "fault: seat 2: out of memory"),
    (3, SeatFault::NoEntry, "fault: seat 3: no entry"),
    (4, SeatFault::Foreign, "fault: seat 4: foreign edit"),
];

#[test]
fn faults_of_seats_read_as_their_lines(rt: HostRuntime) {
    let alloc = rt.alloc();
    for (seat, fault, line) in SEAT_LINES.iter() {
        let (seat, fault) = (*seat, *fault);
        check_line(&rt, alloc, ToolFault::Seat { seat, fault }, *line);
    }
}

/// The line of a movie text at fault, what is wrong with it, and the line that tells this.
static TEXT_LINES: [(usize, TextErrorKind, &str); 6] = [
    (3, TextErrorKind::End, "fault: movie line 3: end"),
    (2, TextErrorKind::Digest, "fault: movie line 2: digest"),
    (1, TextErrorKind::Head, "fault: movie line 1: head"),
    (4, TextErrorKind::Frame, "fault: movie line 4: frame"),
    (
        65539,
        TextErrorKind::TooMany,
        "fault: movie line 65539: too many",
    ),
    (4, TextErrorKind::Run, "fault: movie line 4: run"),
];

#[test]
fn faults_of_a_movie_text_read_as_their_lines(rt: HostRuntime) {
    let alloc = rt.alloc();
    for (line, kind, words) in TEXT_LINES.iter() {
        let (line, kind) = (*line, *kind);
        let fault = ToolFault::Run(RunFault::Text(TextError { line, kind }));
        check_line(&rt, alloc, fault, *words);
    }
}
