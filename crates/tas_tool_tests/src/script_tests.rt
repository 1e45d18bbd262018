//! Whole scripts.

use crate::answers::check_answer;
use crate::checks::check_same;
use crate::commands::{LineCommand, answer_lines};
use crate::talks::check_lines;
use std::alloc::Global;
use std::process::Abort;
use std::sync::Wait;
use tas_tool::{INPUT_LIMIT, ReadFault, RunFault, ToolFault};
use test_streams::{Failure, Filler, Room, Taker};

/// Fails where a script is answered by other replies, or doesn't end well.
fn check_replies<R: Wait + Abort>(rt: &R, alloc: Global, case: &str, script: &[u8], text: &[u8]) {
    let command = LineCommand::Script;
    check_lines(rt, alloc, command, case, &mut { script }, (text, Ok(())));
}

/// Scripts, and their replies by hand.
static BY_HAND: [(&str, &[u8], &[u8]); 9] = [
    // Each edit and each refusal.
    (
        "edits",
        b"len\ninput 0\nshot 0\ninsert 0 2 R.... ..... .....\ninput 1\ninput 2\ndelete 1 2\nreplace 1 1 ..... ..... .....\ninput 1\nlen\ninsert 3 1 ..... ..... .....\ninsert 0 262143 ..... ..... .....\ninsert 2 262142 ..... ..... .....\nlen\n",
        b"len 0 0\nno frame 0 len 0\nno frame 0 len 0\nedit 1 len 2\ninput 1 R.... ..... .....\nno frame 1 len 2\nplace 1 len 2\nedit 2 len 2\ninput 2 ..... ..... .....\nlen 2 2\nplace 2 len 2\nlong 2 len 2\nedit 3 len 262144\nlen 3 262144\n",
    ),
    // A cartridge that sets the playfield, its edits, and shots with the greenzone's help.
    (
        "playfield",
        b"load 000=A910850DA91E85084C08F0 FFC=00F0\ninsert 0 200 ..... ..... .....\nshot 191\nreplace 64 1 R.... ..... .....\nshot 64\ndelete 0 200\nshot 0\ndelete 0 0\n",
        b"edit 1 len 0\nedit 2 len 200\nshot 2 191 ran 192 lit 1680\nedit 3 len 200\nshot 3 64 ran 1 lit 1680\nedit 4 len 0\nno frame 4 len 0\nedit 5 len 0\n",
    ),
    // Shots between edits.
    (
        "shots",
        b"load 000=A910850DA91E85084C08F0 FFC=00F0\ninsert 0 200 ..... ..... .....\nshot 199\nshot 150\ninsert 127 1 R.... ..... .....\nshot 200\ndelete 10 191\nshot 9\n",
        b"edit 1 len 0\nedit 2 len 200\nshot 2 199 ran 200 lit 1680\nshot 2 150 ran 23 lit 1680\nedit 3 len 201\nshot 3 200 ran 137 lit 1680\nedit 4 len 10\nshot 4 9 ran 10 lit 1680\n",
    ),
    // A cartridge that halts in its fourth frame.
    (
        "halts",
        b"load 000=A203A9028500A9008500CAD0F502 FFC=00F0\ninsert 0 100 ..... ..... .....\nshot 2\nshot 99\nshot 80\n",
        b"edit 1 len 0\nedit 2 len 100\nshot 2 2 ran 3 lit 0\nhalted 2 F00D 02\nhalted 2 F00D 02\n",
    ),
    // Jobs fill the states that a shot needs.
    (
        "works",
        b"load 000=A910850DA91E85084C08F0 FFC=00F0\ninsert 0 200 ..... ..... .....\nwork 192\nwork 192\nshot 191\n",
        b"edit 1 len 0\nedit 2 len 200\nwork jobs 1 kept 3 stale 0\nwork jobs 1 kept 0 stale 0\nshot 2 191 ran 64 lit 1680\n",
    ),
    // An edit and the one that takes it back leave the states that a shot made.
    (
        "taken back",
        b"load 000=A910850DA91E85084C08F0 FFC=00F0\ninsert 0 200 ..... ..... .....\nshot 191\nreplace 64 1 R.... ..... .....\nreplace 64 1 ..... ..... .....\nshot 191\n",
        b"edit 1 len 0\nedit 2 len 200\nshot 2 191 ran 192 lit 1680\nedit 3 len 200\nedit 4 len 200\nshot 4 191 ran 64 lit 1680\n",
    ),
    // A movie of 32,832 inputs has a grid of every 128th frame, one of 32,831 of every 64th.
    (
        "grids",
        b"load 000=A910850DA91E85084C08F0 FFC=00F0\ninsert 0 32831 ..... ..... .....\nshot 199\ninsert 32831 1 R.... ..... .....\nshot 150\nshot 100\ndelete 32831 1\nshot 100\nshot 100\n",
        b"edit 1 len 0\nedit 2 len 32831\nshot 2 199 ran 200 lit 1680\nedit 3 len 32832\nshot 3 150 ran 23 lit 1680\nshot 3 100 ran 101 lit 1680\nedit 4 len 32831\nshot 4 100 ran 101 lit 1680\nshot 4 100 ran 37 lit 1680\n",
    ),
    // A small cartridge, the same again, and its image doubled: that is another cartridge, which no kept state is of.
    (
        "small",
        b"load2 000=A910850DA91E85084C08F0 7FC=00F0\ninsert 0 200 ..... ..... .....\nshot 199\nload2 000=A910850DA91E85084C08F0 7FC=00F0\nshot 199\nload 000=A910850DA91E85084C08F0 800=A910850DA91E85084C08F0 7FC=00F0 FFC=00F0\nshot 199\n",
        b"edit 1 len 0\nedit 2 len 200\nshot 2 199 ran 200 lit 1680\nedit 3 len 200\nshot 3 199 ran 8 lit 1680\nedit 4 len 200\nshot 4 199 ran 200 lit 1680\n",
    ),
    // Shots far on in a long movie whose frames are soon played: its program ends frame after frame by vertical sync. A shot of frame K keeps the
    // states at the multiples of 64 up to K + 1, so the second one starts from 960 and the third one from 10,048.
    (
        "far",
        b"load 000=A9028500A90085004C00F0 FFC=00F0\ninsert 0 20000 ..... ..... .....\nshot 1001\nshot 10050\nshot 19999\n",
        b"edit 1 len 0\nedit 2 len 20000\nshot 2 1001 ran 1002 lit 0\nshot 2 10050 ran 9091 lit 0\nshot 2 19999 ran 9952 lit 0\n",
    ),
];

#[test]
fn scripts_are_answered_as_by_hand(rt: HostRuntime) {
    let alloc = rt.alloc();
    for (name, script, text) in BY_HAND.iter() {
        check_replies(&rt, alloc, name, script, text);
    }
}

/// Scripts, their replies, and the line that isn't understood.
static NOT_UNDERSTOOD: [(&[u8], &[u8], usize); 4] = [
    (b"len\nwork\nlen\n", b"len 0 0\n", 2),
    (b"\n", b"", 1),
    (b"len\ndelete 0 0\nlen", b"len 0 0\nedit 1 len 0\n", 3),
    (b"len", b"", 1),
];

#[test]
fn a_line_not_understood_ends_with_its_number(rt: HostRuntime) {
    let alloc = rt.alloc();
    for (script, text, line) in NOT_UNDERSTOOD.iter() {
        let end = Err(ToolFault::Run(RunFault::Script { line: *line }));
        let command = LineCommand::Script;
        check_lines(&rt, alloc, command, *script, &mut { *script }, (*text, end));
    }
    check_replies(&rt, alloc, "empty", b"", b"");
}

/// Fails where a script of which 21 bytes of replies are written, 7 at a time, doesn't fill so much room and end so.
fn check_room<R: Wait + Abort>(rt: &R, alloc: Global, room: usize, end: ToolFault) {
    let mut output = Taker::new(alloc, 7, Room::Bytes(room), Failure::Error);
    let mut input = b"len\ndelete 0 0\nlen".as_slice();
    let ended = answer_lines(rt, alloc, LineCommand::Script, &mut input, &mut output);
    let written = room.min(21);
    let text = &b"len 0 0\nedit 1 len 0\n"[..written];
    let failed = if room < 21 { 1 } else { 0 };
    let writes = written.div_ceil(7) + failed;
    let case = ("room", room);
    check_answer(rt, case, (output.taken.as_slice(), ended), (text, Err(end)));
    check_same(rt, case, output.writes, writes);
}

/// Rooms, and how a script ends that has so much for its replies.
static ROOMS: [(usize, ToolFault); 5] = [
    (100, ToolFault::Run(RunFault::Script { line: 3 })),
    (21, ToolFault::Run(RunFault::Script { line: 3 })),
    (20, ToolFault::Run(RunFault::Write { written: 20 })),
    (7, ToolFault::Run(RunFault::Write { written: 7 })),
    (0, ToolFault::Run(RunFault::Write { written: 0 })),
];

/// A write of a few bytes is no failed one, and a failed one is the last; the replies before a line that isn't understood
/// are written.
#[test]
fn replies_go_out_in_small_pieces(rt: HostRuntime) {
    for (room, end) in ROOMS.iter() {
        check_room(&rt, rt.alloc(), *room, *end);
    }
}

/// How many blanks a script has, at which read it fails, how it ends, and after how many reads.
static UNREAD: [(usize, usize, ToolFault, usize); 5] = [
    (10, 1, ToolFault::Read(ReadFault::Failed), 1),
    (10, 2, ToolFault::Read(ReadFault::Failed), 2),
    (10, 3, ToolFault::Run(RunFault::Script { line: 1 }), 2),
    (
        INPUT_LIMIT,
        0,
        ToolFault::Run(RunFault::Script { line: 1 }),
        4097,
    ),
    (
        INPUT_LIMIT + 1,
        0,
        ToolFault::Read(ReadFault::TooLong),
        4097,
    ),
];

#[test]
fn a_script_that_is_not_read_is_not_answered(rt: HostRuntime) {
    let alloc = rt.alloc();
    for row in UNREAD.iter() {
        let (left, fails_at, fault, reads) = *row;
        let mut input = Filler::new(b' ', left, fails_at);
        let case = ("bytes", left);
        let command = LineCommand::Script;
        check_lines(&rt, alloc, command, case, &mut input, (b"", Err(fault)));
        check_same(&rt, case, input.reads, reads);
    }
}
