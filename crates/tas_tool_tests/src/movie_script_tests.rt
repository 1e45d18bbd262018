//! Whole scripts over a movie.

use crate::answers::{Answer, SIZE, check_answer};
use crate::checks::check_same;
use crate::commands::{LineCommand, answer_over_movie};
use crate::movies::{Files, IDLE, PLAYFIELD, image_of, joined, recording_of};
use crate::talks::check_lines;
use std::alloc::Global;
use std::fmt::Debug;
use std::process::Abort;
use std::sync::Wait;
use tas_movie::{TextError, TextErrorKind};
use tas_tool::{RunFault, ToolFault};

/// The line that loads the playfield's cartridge.
static LOAD: &[u8] = b"load 000=A910850DA91E85084C08F0 FFC=00F0\n";

/// Fails where a script over a movie is answered by other replies, or ends in another way.
fn check_over_movie<R: Wait + Abort, C: Copy + Debug>(
    rt: &R,
    alloc: Global,
    case: C,
    files: Files<'_>,
    script: &[u8],
    wanted: Answer<'_>,
) {
    let mut output = Vec::new(alloc);
    let end = answer_over_movie(rt, alloc, files, script, &mut output);
    check_answer(rt, case, (output.as_slice(), end), wanted);
}

/// The same over a movie of this many frames of nothing pressed with the playfield's cartridge.
fn check_over_frames<R: Wait + Abort, C: Copy + Debug>(
    rt: &R,
    alloc: Global,
    case: C,
    frames: usize,
    script: &[u8],
    wanted: Answer<'_>,
) {
    let movie = recording_of(rt, alloc, PLAYFIELD, frames, IDLE);
    check_over_movie(rt, alloc, case, movie.files(), script, wanted);
}

static LINES: &[u8] =
    b"len\ninput 1\nshot 2\nreplace 1 1 R.... ..... .....\ninput 1\nshot 1\ninsert 3 262142 ..... ..... .....\ndelete 0 3\nlen\n";

static REPLIES: &[u8] =
    b"len 2 3\ninput 2 ..... ..... .....\nshot 2 2 ran 3 lit 1680\nedit 3 len 3\ninput 3 R.... ..... .....\nshot 3 1 ran 2 lit 1680\nlong 3 len 3\nedit 4 len 0\nlen 4 0\n";

/// The replies are those of a script that makes the movie by two lines, without the replies to these.
#[test]
fn a_script_goes_on_from_its_movie(rt: HostRuntime) {
    let alloc = rt.alloc();
    let wanted = (REPLIES, Ok(()));
    check_over_frames(&rt, alloc, "over a movie", 3, LINES, wanted);
    let insert = b"insert 0 3 ..... ..... .....\n";
    let script = joined(&rt, alloc, &[LOAD, insert, LINES]);
    let replies = joined(&rt, alloc, &[b"edit 1 len 0\nedit 2 len 3\n", REPLIES]);
    let wanted = (replies.as_slice(), Ok(()));
    let command = LineCommand::Script;
    check_lines(&rt, alloc, command, "alone", &mut script.as_slice(), wanted);
}

/// Frames of a movie, lines, and the replies.
static LENGTHS: [(usize, &[u8], &[u8]); 3] = [
    (0, b"", b""),
    (
        0,
        b"len\nshot 0\ninsert 0 1 ..... ..... .....\nshot 0\n",
        b"len 2 0\nno frame 2 len 0\nedit 3 len 1\nshot 3 0 ran 1 lit 1680\n",
    ),
    (
        262144,
        b"len\ninsert 262144 1 ..... ..... .....\ninput 262143\n",
        b"len 2 262144\nlong 2 len 262144\ninput 2 ..... ..... .....\n",
    ),
];

#[test]
fn movies_of_no_frames_and_of_the_most_are_made(rt: HostRuntime) {
    let alloc = rt.alloc();
    for row in LENGTHS.iter() {
        let (frames, lines, replies) = *row;
        let wanted = (replies, Ok(()));
        check_over_frames(&rt, alloc, ("frames", frames), frames, lines, wanted);
    }
}

const NO_END: ToolFault = ToolFault::Run(RunFault::Text(TextError {
    line: 2,
    kind: TextErrorKind::End,
}));

/// Scripts over a movie of one frame, their replies and the line that isn't understood, each with its number among the cases.
static NOT_UNDERSTOOD: [(usize, &[u8], &[u8], usize); 2] = [
    (2, b"len\nx\n", b"len 2 1\n", 2),
    (3, b"len", b"", 1),
];

/// The cartridge's size comes before the text's fault, and this before the script's.
#[test]
fn faults_over_a_movie_come_in_order(rt: HostRuntime) {
    let alloc = rt.alloc();
    let cart = image_of(&rt, alloc, PLAYFIELD.bytes);
    let bad = b"a26movie 2\n".as_slice();
    let script = b"len\nx\n".as_slice();
    let carts = [(b"1234567".as_slice(), SIZE), (cart.as_slice(), NO_END)];
    for (number, (cart, fault)) in carts.iter().enumerate() {
        let wanted = (b"".as_slice(), Err(*fault));
        check_over_movie(&rt, alloc, ("case", number), (*cart, bad), script, wanted);
    }
    for row in NOT_UNDERSTOOD.iter() {
        let (number, script, replies, line) = *row;
        let wanted = (replies, Err(ToolFault::Run(RunFault::Script { line })));
        check_over_frames(&rt, alloc, ("case", number), 1, script, wanted);
    }
}

#[test]
fn a_full_writer_ends_a_script_over_a_movie(rt: HostRuntime) {
    let alloc = rt.alloc();
    let movie = recording_of(&rt, alloc, PLAYFIELD, 1, IDLE);
    let files = movie.files();
    let mut room = [0u8; 5];
    let end = answer_over_movie(&rt, alloc, files, b"len\n", &mut room.as_mut_slice());
    check_same(
        &rt,
        "end",
        end,
        Err(ToolFault::Run(RunFault::Write { written: 5 })),
    );
    check_same(&rt, "the first bytes", room.as_slice(), b"len 2");
}
