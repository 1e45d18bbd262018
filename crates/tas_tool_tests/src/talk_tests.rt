//! Whole conversations.

use crate::checks::{check_same, check_that, expect_ok};
use crate::commands::{LineCommand, answer_lines};
use crate::movies::{
    IDLE, PLAYFIELD, RIGHT, SMALL_PLAYFIELD, joined, playfield_picture, repeated, text_of,
};
use crate::talks::{START, STARTED, answers_of, check_lines, check_pieces, check_said};
use std::alloc::Global;
use std::cell::Cell;
use std::io;
use std::io::{Error, ErrorKind, Read, Write};
use std::process::Abort;
use std::sync::Wait;
use tas_tool::{ReadFault, RunFault, ToolFault};
use test_streams::{Failure, Filler, Giver, Room, Taker};

/// Fails where lines that come this many bytes at a time are answered in another way.
fn check_at_once<R: Wait + Abort>(
    rt: &R,
    alloc: Global,
    lines: &[u8],
    at_once: usize,
    answers: &[u8],
) {
    let mut input = Giver::new(lines, at_once, 0);
    let case = ("at once", at_once);
    check_lines(
        rt,
        alloc,
        LineCommand::Talk,
        case,
        &mut input,
        (answers, Ok(())),
    );
}

/// The picture is the one that the playfield's program draws, and its refusals are those of `shot`.
#[test]
fn pictures_are_told_whole(rt: HostRuntime) {
    let alloc = rt.alloc();
    let picture = playfield_picture(&rt, alloc);
    check_pieces(
        &rt,
        alloc,
        &[b"picture 0\n", START, b"picture 191\npicture 200\nlen\n"],
        &[
            b"no frame 0 len 0\n",
            STARTED,
            b"picture 2 191 100815\n",
            picture.as_slice(),
            b"no frame 2 len 200\nlen 2 200\n",
        ],
    );
}

/// Pictures far on in a long movie whose frames are soon played: its program ends frame after frame by vertical sync, and
/// draws nothing.
#[test]
fn pictures_far_on_are_told(rt: HostRuntime) {
    let alloc = rt.alloc();
    let black = repeated(&rt, alloc, b"P6\n160 210\n255\n", b"\0", 100_800);
    check_pieces(
        &rt,
        alloc,
        &[
            b"load 000=A9028500A90085004C00F0 FFC=00F0\ninsert 0 20000 ..... ..... .....\n",
            b"picture 1001\npicture 10001\npicture 19999\n",
        ],
        &[
            b"edit 1 len 0\nedit 2 len 20000\npicture 2 1001 100815\n",
            black.as_slice(),
            b"picture 2 10001 100815\n",
            black.as_slice(),
            b"picture 2 19999 100815\n",
            black.as_slice(),
        ],
    );
}

#[test]
fn the_movie_is_told_as_its_text(rt: HostRuntime) {
    let alloc = rt.alloc();
    let text = text_of(&rt, alloc, PLAYFIELD, 200, IDLE);
    let short = text_of(&rt, alloc, PLAYFIELD, 3, IDLE);
    let runs = text_of(&rt, alloc, PLAYFIELD, 3, RIGHT);
    check_pieces(
        &rt,
        alloc,
        &[
            START,
            b"movie\ndelete 3 197\nmovie\nreplace 1 1 R.... ..... .....\nmovie\n",
        ],
        &[
            STARTED,
            b"movie 2 104\n",
            text.as_bytes(),
            b"edit 3 len 3\nmovie 3 102\n",
            short.as_bytes(),
            b"edit 4 len 3\nmovie 4 135\n",
            runs.as_bytes(),
        ],
    );
}

/// A small cartridge plays as its image doubled does; its movie's text names it. A part past its end is no line.
#[test]
fn small_cartridges_are_talked_of(rt: HostRuntime) {
    let alloc = rt.alloc();
    let picture = playfield_picture(&rt, alloc);
    let text = text_of(&rt, alloc, SMALL_PLAYFIELD, 200, IDLE);
    check_pieces(
        &rt,
        alloc,
        &[
            b"load2 000=A910850DA91E85084C08F0 7FC=00F0\ninsert 0 200 ..... ..... .....\npicture 199\nmovie\nload2 800=00\nload2\nstates\n",
        ],
        &[
            STARTED,
            b"picture 2 199 100815\n",
            picture.as_slice(),
            b"movie 2 104\n",
            text.as_bytes(),
            b"unknown rest\nunknown rest\nstates 2 3 64 128 192\n",
        ],
    );
}

/// A million edits and no more are made; what refuses the next ones, and looks after them, are told at these.
#[test]
fn edits_are_bounded(rt: HostRuntime) {
    let alloc = rt.alloc();
    let rest = b"delete 0 0\nload 000=00\nlen\npicture 0\nstates\n";
    let mut lines = repeated(&rt, alloc, b"", b"delete 0 0\n", 1_000_000);
    expect_ok(&rt, lines.extend_from_slice(rest));
    let output = answers_of(&rt, alloc, LineCommand::Talk, lines.as_slice());
    let last =
        b"edit 1000000 len 0\nfull 1000000\nfull 1000000\nlen 1000000 0\nno frame 1000000 len 0\nstates 1000000 0\n";
    check_that(&rt, "output", output.as_slice().ends_with(last));
    // 12 bytes and its number's digits for each edit, and 80 after them.
    check_same(&rt, "output, 2", output.len(), 12_000_000 + 5_888_896 + 80);
}

/// How conversations end, with their answers.
static ENDS: [(&[u8], &[u8]); 5] = [
    (b"", b""),
    (b"quit\n", b""),
    (b"quit", b"unknown end\n"),
    (b"\n", b"unknown word\n"),
    (b"quit\nlen\nlen", b""),
];

/// The answers to the lines of `unknown_lines_change_nothing`: the first and the last but one are understood.
static WHYS: [&[u8]; 19] = [
    b"len 0 0\n",
    b"unknown word\n",
    b"unknown word\n",
    b"unknown rest\n",
    b"unknown word\n",
    b"unknown return\n",
    b"unknown rest\n",
    b"unknown rest\n",
    b"unknown rest\n",
    b"unknown rest\n",
    b"unknown rest\n",
    b"unknown rest\n",
    b"unknown rest\n",
    b"unknown rest\n",
    b"unknown word\n",
    b"unknown rest\n",
    b"unknown rest\n",
    b"len 0 0\n",
    b"unknown end\n",
];

/// Lines that aren't understood are answered `unknown` and why, and so is what stands after the last newline, whatever it says.
#[test]
fn unknown_lines_change_nothing(rt: HostRuntime) {
    let alloc = rt.alloc();
    let lines =
        b"len\n\n len\nlen \nLen\nlen\r\npicture\npicture 01\npicture -1\npicture 10000000\nmovie 1\nstates \nquit 0\nshot\n\xFF\0\nload\ninsert 0 1 R\nlen\nlen";
    check_pieces(&rt, alloc, &[lines], &WHYS);
    for (lines, answers) in ENDS.iter() {
        check_said(&rt, alloc, lines, answers);
    }
}

/// A `load` line of this many parts, each of this many bytes of 00.
fn load_line<R: Abort>(rt: &R, alloc: Global, parts: &[usize]) -> Vec<u8> {
    let mut line = joined(rt, alloc, &[b"load"]);
    for count in parts {
        let part = repeated(rt, alloc, b" 000=", b"00", *count);
        expect_ok(rt, line.extend_from_slice(part.as_slice()));
    }
    expect_ok(rt, line.push(b'\n'));
    line
}

/// A line of 16,384 bytes is understood, one of 16,385 isn't, though a script takes both; and one of many more isn't held.
#[test]
fn lines_are_bounded(rt: HostRuntime) {
    let alloc = rt.alloc();
    let longest = load_line(&rt, alloc, &[4096, 4089]);
    let longer = load_line(&rt, alloc, &[4096, 4082, 5]);
    check_same(
        &rt,
        "lengths",
        [longest.len(), longer.len()],
        [16_385, 16_386],
    );
    let lines = joined(
        &rt,
        alloc,
        &[
            longer.as_slice(),
            longest.as_slice(),
            longer.as_slice(),
            b"len\n",
            longer.as_slice(),
        ],
    );
    let answers = b"unknown long\nedit 1 len 0\nunknown long\nlen 1 0\nunknown long\n".as_slice();
    for at_once in [1, 7, 4095, 4096] {
        check_at_once(&rt, alloc, lines.as_slice(), at_once, answers);
    }
    let mut blanks = Filler::new(b' ', 20_000_000, 0);
    let command = LineCommand::Talk;
    check_lines(
        &rt,
        alloc,
        command,
        "blanks",
        &mut blanks,
        (b"unknown end\n", Ok(())),
    );
}

/// One byte at a time, and many lines at once, are answered alike.
#[test]
fn pieces_of_the_input_make_no_difference(rt: HostRuntime) {
    let alloc = rt.alloc();
    let lines = joined(
        &rt,
        alloc,
        &[
            START,
            b"picture 3\nwhat\nstates\nmovie\nshot 70\nstates\nlen",
        ],
    );
    let whole = answers_of(&rt, alloc, LineCommand::Talk, lines.as_slice());
    for at_once in [1, 2, 3, 50] {
        check_at_once(&rt, alloc, lines.as_slice(), at_once, whole.as_slice());
    }
}

/// A writer that passes on what it holds when it is flushed, and says how many bytes it has passed on.
#[derive(Drop)]
struct Passing<'a> {
    holds: usize,
    passed: &'a Cell<usize>,
}

impl<'a> Write for Passing<'a> {
    fn write(&mut self, buf: &[u8]) -> io::Result<usize> {
        self.holds = self.holds.saturating_add(buf.len());
        Ok(buf.len())
    }

    fn flush(&mut self) -> io::Result<()> {
        let before = self.passed.get();
        self.passed.set(before.saturating_add(self.holds));
        self.holds = 0;
        Ok(())
    }
}

/// A reader that gives the next lines once all answers to those before have been passed on, and fails where they haven't.
#[derive(Drop)]
struct Asking<'a> {
    lines: &'a [(&'a [u8], usize)],
    wanted: usize,
    passed: &'a Cell<usize>,
}

impl<'a> Read for Asking<'a> {
    fn read(&mut self, buf: &mut [u8]) -> io::Result<usize> {
        if self.passed.get() != self.wanted {
            return Err(Error::from(ErrorKind::Other));
        }
        if self.lines.is_empty() {
            return Ok(0);
        }
        let (line, answer) = self.lines[0];
        let n = line.len().min(buf.len());
        buf[..n].copy_from_slice(&line[..n]);
        self.wanted = self.wanted.saturating_add(answer);
        self.lines = &self.lines[1..];
        Ok(n)
    }
}

/// Whole lines, parts of lines and several lines at once, with this many bytes of answers.
static ASKED: [(&[u8], usize); 10] = [
    (START, 28),
    (b"len\n", 10),
    (b"le", 0),
    (b"n", 0),
    (b"\n", 10),
    (b"insert 0 3 ..... ..... .....\nlen\nle", 25),
    (b"n\npicture 2\n", 10 + 19 + 100_815),
    (b"states\nnothing\n", 11 + 13),
    (b"movie\n", 12 + 104),
    (b"quit\nlen\n", 0),
];

/// Each answer is out, and passed on, before the next read.
#[test]
fn answers_are_out_before_the_next_read(rt: HostRuntime) {
    let alloc = rt.alloc();
    let passed = Cell::new(0);
    let mut input = Asking {
        lines: ASKED.as_slice(),
        wanted: 0,
        passed: &passed,
    };
    let mut output = Passing {
        holds: 0,
        passed: &passed,
    };
    let end = answer_lines(&rt, alloc, LineCommand::Talk, &mut input, &mut output);
    check_same(&rt, "end", end, Ok(()));
    check_same(&rt, "passed", passed.get(), 101_057);
    check_that(&rt, "input.lines", input.lines.is_empty());
}

/// Fails where a writer with so much room isn't left with the first bytes of these answers, and told of, after one failed write.
fn check_full<R: Wait + Abort>(
    rt: &R,
    alloc: Global,
    lines: &[u8],
    answers: &[u8],
    (room, failure): (usize, Failure),
) {
    let mut input = lines;
    let mut output = Taker::new(alloc, 5_000, Room::Bytes(room), failure);
    let end = answer_lines(rt, alloc, LineCommand::Talk, &mut input, &mut output);
    let fault = ToolFault::Run(RunFault::Write { written: room });
    check_same(rt, ("room", room), end, Err(fault));
    let sent = &answers[..room.min(answers.len())];
    check_that(rt, ("room", room), output.taken.as_slice() == sent);
    check_same(rt, ("room", room), output.failed, 1);
}

/// Rooms within and between the answers of the next test.
static ROOMS: [usize; 12] = [
    0, 12, 13, 27, 28, 1_000, 100_861, 100_862, 100_863, 100_871, 100_872, 100_883,
];

/// A failed write is the last one, and tells how many bytes of the whole conversation went out, within a picture too.
#[test]
fn a_failed_write_ends_the_conversation(rt: HostRuntime) {
    let alloc = rt.alloc();
    let lines = joined(&rt, alloc, &[START, b"picture 3\nlen\nlen"]);
    let lines = lines.as_slice();
    let whole = answers_of(&rt, alloc, LineCommand::Talk, lines);
    let whole = whole.as_slice();
    for room in ROOMS.iter() {
        for failure in [Failure::Error, Failure::Interrupted, Failure::Nothing] {
            check_full(&rt, alloc, lines, whole, (*room, failure));
        }
    }
    check_same(&rt, "whole", whole.len(), 100_884);
    let mut input = lines;
    let mut output = Taker::new(alloc, 5_000, Room::Bytes(100_884), Failure::Error);
    let end = answer_lines(&rt, alloc, LineCommand::Talk, &mut input, &mut output);
    check_same(&rt, "room for all", end, Ok(()));
}

/// Reads that fail, and the answers before.
static FAILED_READS: [(usize, &[u8]); 5] = [
    (1, b""),
    (2, b""),
    (3, b"len 0 0\nunknown word\n"),
    (4, b"len 0 0\nunknown word\n"),
    (5, b"len 0 0\nunknown word\nlen 0 0\n"),
];

/// A failed read ends the conversation, with all whole lines answered.
#[test]
fn a_failed_read_ends_the_conversation(rt: HostRuntime) {
    let alloc = rt.alloc();
    for (fails_at, answers) in FAILED_READS.iter() {
        let fails_at = *fails_at;
        let mut input = Giver::new(b"len\nx\nlen\nlen", 3, fails_at);
        let wanted = (*answers, Err(ToolFault::Read(ReadFault::Failed)));
        let case = ("read", fails_at);
        check_lines(&rt, alloc, LineCommand::Talk, case, &mut input, wanted);
        check_same(&rt, "input.reads", input.reads, fails_at);
    }
}

/// Looks in a draft are at what the movie would be, and leave the movie.
#[test]
fn looks_in_a_draft_are_at_what_the_movie_would_be(rt: HostRuntime) {
    let alloc = rt.alloc();
    let picture = playfield_picture(&rt, alloc);
    let text = text_of(&rt, alloc, PLAYFIELD, 200, IDLE);
    let longer = text_of(&rt, alloc, PLAYFIELD, 201, IDLE);
    check_pieces(
        &rt,
        alloc,
        &[
            START,
            b"begin\ninsert 0 1 ..... ..... .....\nmovie\npicture 200\npictures 200 202\nlag 0 201\nram 202\ndrop\nmovie\npicture 200\n",
        ],
        &[
            STARTED,
            b"begin 2 200\nedit 3 len 201\nmovie 3 104\n",
            longer.as_bytes(),
            b"picture 3 200 100815\n",
            picture.as_slice(),
            b"picture 3 200 100815\n",
            picture.as_slice(),
            b"no frame 3 len 201\nlag 3 0 201 6\n0 201\nno frame 3 len 201\ndropped\nmovie 2 104\n",
            text.as_bytes(),
            b"no frame 2 len 200\n",
        ],
    );
}
