//! A desk's movie by another engine: the lines that were answered `edit AT LEN`, in the order of AT.

use crate::checks::{check_that, expect_ok};
use crate::doors::{MOVIE, TestDoor, image};
use std::alloc::Global;
use std::process::Abort;
use tas_engines::{Whole, commands, run};

/// The first line of a text without its newline, and what comes after it.
fn first_line(text: &[u8]) -> Option<(&[u8], &[u8])> {
    let end = text.iter().position(|byte| *byte == b'\n')?;
    let (front, back) = text.split_at(end);
    Some((front, back.get(1..).unwrap_or(&[])))
}

/// The number that an answer `edit AT LEN` begins with, where it is one.
fn edit_at(answer: &[u8]) -> Option<u64> {
    let rest = answer.strip_prefix(b"edit ")?;
    let mut at = 0u64;
    for byte in rest {
        if !byte.is_ascii_digit() {
            return Some(at);
        }
        at = at
            .saturating_mul(10)
            .saturating_add(u64::from(byte.saturating_sub(b'0')));
    }
    None
}

/// The line of this door that was answered with this number of edits, if there is one.
fn line_at(door: &TestDoor, at: u64) -> Option<&[u8]> {
    let mut said = door.lines;
    let mut told = door.written.as_slice();
    // Each line has a byte at least, its newline.
    for _ in 0..door.lines.len() {
        let (line, more) = first_line(said)?;
        let (answer, rest) = first_line(told)?;
        if edit_at(answer) == Some(at) {
            return Some(line);
        }
        said = more;
        told = rest;
    }
    None
}

/// The lines of all doors that were answered as edits, in the order of their numbers, which begin at 3 and leave none out.
fn script<R: Abort>(rt: &R, alloc: Global, doors: &[TestDoor], edits: u64) -> Vec<u8> {
    let mut script = Vec::new(alloc);
    for at in 3..edits.saturating_add(3) {
        let mut found = 0usize;
        for door in doors {
            if let Some(line) = line_at(door, at) {
                found = found.saturating_add(1);
                expect_ok(rt, script.extend_from_slice(line));
                expect_ok(rt, script.push(b'\n'));
            }
        }
        check_that(rt, (at, found), found == 1);
    }
    script
}

/// Fails where a desk's movie isn't the one that this number of edits make, each answered at a door, one after the other.
pub fn check_replay<R: Abort>(
    rt: &R,
    alloc: Global,
    doors: &[TestDoor],
    edits: u64,
    written: &[u8],
) {
    let script = script(rt, alloc, doors, edits);
    let image = image(rt, alloc);
    let mut files = [image.as_slice(), script.as_slice()];
    let mut movie = MOVIE;
    let mut output = Vec::new(alloc);
    expect_ok(
        rt,
        run(
            alloc,
            &Whole(commands::Edit),
            &mut files,
            &mut movie,
            &mut output,
        ),
    );
    check_that(rt, edits, output.as_slice() == written);
}
