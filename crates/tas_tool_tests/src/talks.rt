//! Conversations and scripts, and what they have to answer.

use crate::answers::{Answer, check_answer};
use crate::checks::{check_same, expect_ok};
use crate::commands::{LineCommand, answer_lines, talk_from_movie};
use crate::movies::{Files, joined};
use std::alloc::Global;
use std::fmt::Debug;
use std::io::Read;
use std::process::Abort;
use std::sync::Wait;

/// Lines that load the playfield's cartridge and put in 200 frames.
pub const START: &[u8] =
    b"load 000=A910850DA91E85084C08F0 FFC=00F0\ninsert 0 200 ..... ..... .....\n";

/// Their answers.
pub const STARTED: &[u8] = b"edit 1 len 0\nedit 2 len 200\n";

/// Fails where lines are answered by other answers, or end in another way.
pub fn check_lines<R: Wait + Abort, C: Copy + Debug, I: Read>(
    rt: &R,
    alloc: Global,
    command: LineCommand,
    case: C,
    input: &mut I,
    wanted: Answer<'_>,
) {
    let mut output = Vec::new(alloc);
    let end = answer_lines(rt, alloc, command, input, &mut output);
    check_answer(rt, case, (output.as_slice(), end), wanted);
}

/// Fails where a conversation of these lines doesn't end well, or isn't answered by these answers.
pub fn check_said<R: Wait + Abort>(rt: &R, alloc: Global, lines: &[u8], answers: &[u8]) {
    let command = LineCommand::Talk;
    check_lines(
        rt,
        alloc,
        command,
        "said",
        &mut { lines },
        (answers, Ok(())),
    );
}

/// The same for lines and answers in several pieces, one after the other.
pub fn check_pieces<R: Wait + Abort>(rt: &R, alloc: Global, lines: &[&[u8]], answers: &[&[u8]]) {
    let lines = joined(rt, alloc, lines);
    let answers = joined(rt, alloc, answers);
    check_said(rt, alloc, lines.as_slice(), answers.as_slice());
}

/// Lines, and their answers.
pub type Turn<'a> = (&'a [u8], &'a [u8]);

/// The same for turns, one after the other.
pub fn check_turns<R: Wait + Abort>(rt: &R, alloc: Global, name: &str, turns: &[Turn<'_>]) {
    let mut lines = Vec::new(alloc);
    let mut answers = Vec::new(alloc);
    for (line, answer) in turns {
        expect_ok(rt, lines.extend_from_slice(line));
        expect_ok(rt, answers.extend_from_slice(answer));
    }
    let command = LineCommand::Talk;
    let wanted = (answers.as_slice(), Ok(()));
    check_lines(rt, alloc, command, name, &mut lines.as_slice(), wanted);
}

/// Fails where one of these conversations, each with its name, is answered in another way.
pub fn check_talks<R: Wait + Abort>(rt: &R, alloc: Global, talks: &[(&str, &[Turn<'_>])]) {
    for (name, turns) in talks {
        check_turns(rt, alloc, name, turns);
    }
}

/// The answers to lines, which end well.
pub fn answers_of<R: Wait + Abort>(
    rt: &R,
    alloc: Global,
    command: LineCommand,
    lines: &[u8],
) -> Vec<u8> {
    let mut output = Vec::new(alloc);
    let end = answer_lines(rt, alloc, command, &mut { lines }, &mut output);
    check_same(rt, "end", end, Ok(()));
    output
}

/// Fails where a conversation of these lines over a cartridge and a movie doesn't end well, or isn't answered by these answers.
pub fn check_over_movie<R: Wait + Abort>(
    rt: &R,
    alloc: Global,
    (cart, movie): Files<'_>,
    lines: &[u8],
    answers: &[u8],
) {
    let (mut cart, mut movie, mut input) = (cart, movie, lines);
    let mut output = Vec::new(alloc);
    let end = talk_from_movie(rt, alloc, &mut cart, &mut movie, &mut input, &mut output);
    check_answer(
        rt,
        "over a movie",
        (output.as_slice(), end),
        (answers, Ok(())),
    );
}
