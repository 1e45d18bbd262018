//! The hunks of differences: what goes in one and what comes in its place have no four runs in a row in common.

use crate::change_tests::{movie_of_bytes, pattern_letter, script_between};
use crate::checks::{check_same, check_that, expect_ok};
use std::alloc::Global;
use std::process::Abort;
use tas_engines::changes_between;
use tas_language::Change;
use tas_movie::{FrameRun, run_length};
use vcs_machine::Input;

/// The runs of these inputs that have others before and after them.
fn inner_runs<R: Abort>(rt: &R, alloc: Global, inputs: &[Input]) -> Vec<FrameRun> {
    let mut runs = Vec::new(alloc);
    let mut at: usize = 0;
    // Each run has a frame at least.
    for _ in 0..inputs.len() {
        let Some(rest) = inputs.get(at..) else {
            return runs;
        };
        let Some(input) = rest.first() else {
            return runs;
        };
        let input = *input;
        let count = run_length(rest, input).max(1);
        let next = at.saturating_add(count);
        if at > 0 && next < inputs.len() {
            expect_ok(rt, runs.push(FrameRun { input, count }));
        }
        at = next;
    }
    runs
}

/// How many runs are the same from these places on.
fn same_runs(a: &[FrameRun], from: usize, b: &[FrameRun], begin: usize) -> usize {
    let mut same: usize = 0;
    for (first, second) in a.iter().skip(from).zip(b.iter().skip(begin)) {
        if first.input != second.input || first.count != second.count {
            return same;
        }
        same = same.saturating_add(1);
    }
    same
}

/// Whether both lists have four runs in a row in common, apart from their first and last ones.
fn have_four<R: Abort>(rt: &R, alloc: Global, old: &[Input], new: &[Input]) -> bool {
    let old = inner_runs(rt, alloc, old);
    let new = inner_runs(rt, alloc, new);
    for i in 0..old.len() {
        for j in 0..new.len() {
            if same_runs(&old, i, &new, j) >= 4 {
                return true;
            }
        }
    }
    false
}

/// The place after the insertions that some changes begin with, from this place on.
fn end_of_insertions(changes: &[Change], at: usize) -> usize {
    let mut end = at;
    for change in changes {
        match change {
            Change::Insert { at, count, .. } if *at == end => end = end.saturating_add(*count),
            _ => return end,
        }
    }
    end
}

/// The inputs from `from` to `to` - 1.
fn part(inputs: &[Input], from: usize, to: usize) -> &[Input] {
    match inputs.get(from..to) {
        Some(part) => part,
        None => &[],
    }
}

/// Whether no deletion takes out four runs in a row that the insertions after it put in.
fn are_hunks<R: Abort>(
    rt: &R,
    alloc: Global,
    old: &[Input],
    new: &[Input],
    changes: &[Change],
) -> bool {
    let mut gone: usize = 0;
    let mut made: usize = 0;
    for i in 0..changes.len() {
        match changes[i] {
            Change::Insert { count, .. } => made = made.saturating_add(count),
            Change::Replace { .. } => (),
            Change::Delete { at, count } => {
                let from = at.saturating_add(gone).saturating_sub(made);
                let end = end_of_insertions(&changes[i + 1..], at);
                let out = part(old, from, from.saturating_add(count));
                if have_four(rt, alloc, out, part(new, at, end)) {
                    return false;
                }
                gone = gone.saturating_add(count);
            }
        }
    }
    true
}

/// 1,600 frames of the pattern.
fn pattern_of<R: Abort>(rt: &R, alloc: Global) -> Vec<u8> {
    let mut letters = Vec::new(alloc);
    for frame in 0..1600 {
        expect_ok(rt, letters.push(pattern_letter(frame)));
    }
    letters
}

/// These letters, but for those from `from` to `to` - 1, in whose place others come.
fn changed<R: Abort>(
    rt: &R,
    alloc: Global,
    letters: &[u8],
    (from, to): (usize, usize),
    others: &[u8],
) -> Vec<u8> {
    let mut all = Vec::new(alloc);
    for letter in letters.iter().take(from) {
        expect_ok(rt, all.push(*letter));
    }
    for letter in others {
        expect_ok(rt, all.push(*letter));
    }
    for letter in letters.iter().skip(to) {
        expect_ok(rt, all.push(*letter));
    }
    all
}

/// Fails where the script between the movies of these letters isn't this one, where one of its hunks has four runs in a row
/// in common, or where all between the first change and the last one is a hunk without them.
fn check_hunks<R: Abort>(rt: &R, alloc: Global, before: &[u8], after: &[u8], script: &str) {
    let old = movie_of_bytes(rt, alloc, before);
    let new = movie_of_bytes(rt, alloc, after);
    let found = script_between(rt, alloc, &old, &new);
    check_same(rt, "hunks", found.as_slice(), script.as_bytes());
    let changes = expect_ok(rt, changes_between(alloc, old.inputs(), new.inputs()));
    let falls = are_hunks(rt, alloc, old.inputs(), new.inputs(), changes.as_slice());
    check_that(rt, "each hunk", falls);
    let whole = have_four(rt, alloc, old.inputs(), new.inputs());
    check_that(rt, "one hunk", whole);
}

/// The same of the pattern and what these changes make of it, one after the other.
fn check_pattern<R: Abort>(
    rt: &R,
    alloc: Global,
    changes: &[((usize, usize), &[u8])],
    script: &str,
) {
    let before = pattern_of(rt, alloc);
    let mut after = pattern_of(rt, alloc);
    for (place, others) in changes {
        after = changed(rt, alloc, after.as_slice(), *place, others);
    }
    check_hunks(rt, alloc, before.as_slice(), after.as_slice(), script);
}

/// A frame goes at 1500, and one comes at 100.
#[test]
fn two_far_frames_are_two_hunks(rt: HostRuntime) {
    let script = "insert 100 1 ....F ..... .....\ndelete 1498 1\n";
    let changes: [((usize, usize), &[u8]); 2] = [((1500, 1501), b""), ((100, 100), b"F")];
    check_pattern(&rt, rt.alloc(), changes.as_slice(), script);
}

/// Fifty frames go at 700 and four come, of which the last two are those that went last.
#[test]
fn fewer_frames_in_a_place_are_a_hunk(rt: HostRuntime) {
    let script = "delete 700 48\ninsert 700 2 ....F ..... .....\n";
    check_pattern(&rt, rt.alloc(), &[((700, 750), b"FFRR")], script);
}

/// The fire button is pressed every second frame; a frame comes and one changes further on.
#[test]
fn changes_within_autofire_are_hunks(rt: HostRuntime) {
    let alloc = rt.alloc();
    let mut before = Vec::new(alloc);
    for _ in 0..100 {
        expect_ok(&rt, before.push(b'F'));
        expect_ok(&rt, before.push(b'.'));
    }
    let other = changed(&rt, alloc, before.as_slice(), (120, 121), b"R");
    let after = changed(&rt, alloc, other.as_slice(), (40, 40), b"R");
    let script = "insert 40 1 R.... ..... .....\nreplace 121 1 R.... ..... .....\n";
    check_hunks(&rt, alloc, before.as_slice(), after.as_slice(), script);
}
