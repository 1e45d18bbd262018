//! What the journal of a conversation has when something fails, and what is recovered from it.

ghost use Rattle.std.specs.Prelude.{◌≤◌};

use crate::checks::{check_same, check_that, expect_ok, expect_some};
use crate::line_talks::{Talked, lines, talk};
use crate::talks::{
    AMPLE, ANSWERS, Means, NEEDED, PARTS, answered_with, check_written, first_parts, size_of,
};
use std::alloc::Global;
use std::process::Abort;
use std::sync::Wait;
use tas_engines::{ReadFault, RunFault, ToolFault};
use tas_journal::recover;
use tas_journaling::{JournalFault, TalkFault};
use tas_movie::Movie;
use test_streams::Giver;

/// Holds the conversation of the lines; seven bytes come at once.
fn talk_with<R: Wait + Abort>(rt: &R, alloc: Global, means: Means) -> Talked
    requires { 1 ≤ means.growth }
{
    let text = lines(rt, alloc);
    let left = talk(rt, alloc, means, &mut Giver::new(text.as_slice(), 7, 0));
    check_written(
        rt,
        alloc,
        ("conversation", left.answers.len()),
        left.answers.as_slice(),
        left.file.as_slice(),
    );
    left
}

/// How many edits are recovered from a file.
fn recovered<R: Abort>(rt: &R, alloc: Global, file: &[u8]) -> usize {
    let blank = expect_ok(rt, Movie::blank(alloc));
    let found = expect_ok(rt, recover(alloc, file, blank.cart(), usize::MAX));
    found.edits
}

/// How many edits the answers need that have begun to go out.
fn needed<R: Abort>(rt: &R, answers: usize) -> usize {
    let mut before = 0usize;
    let mut needed = 0usize;
    for (number, answer) in ANSWERS.iter().enumerate() {
        if before < answers {
            needed = expect_some(rt, NEEDED.get(number).copied());
        }
        before = before.saturating_add(answer.len());
    }
    needed
}

/// Each answer goes out after its edits, and only edits are journaled.
#[test]
fn a_conversation_is_journaled(rt: HostRuntime) {
    let alloc = rt.alloc();
    let left = talk_with(&rt, alloc, AMPLE);
    check_same(&rt, "end", left.end, Ok(()));
    check_same(&rt, "answers", left.answers.len(), size_of(&ANSWERS, 12));
    check_same(&rt, "file", left.file.len(), size_of(&PARTS, 6));
    check_same(&rt, "edits", left.edits, 5);
    let seen: [u64; 12] = [2, 2, 2, 2, 2, 2, 3, 3, 3, 3, 4, 5];
    check_that(&rt, "syncs", left.seen.as_slice() == seen.as_slice());
}

/// A line that isn't understood, and what comes after the last newline, are answered with nothing journaled.
#[test]
fn unknown_lines_are_not_journaled(rt: HostRuntime) {
    let alloc = rt.alloc();
    let mut input = Giver::new(b"hello\ninsert 0 1 ..... ..... .....\nlen", 2, 0);
    let left = talk(&rt, alloc, AMPLE, &mut input);
    check_same(&rt, "end", left.end, Ok(()));
    let wanted = b"unknown word\nedit 1 len 1\nunknown end\n".as_slice();
    check_that(&rt, "answers", left.answers.as_slice() == wanted);
    let seen: [u64; 3] = [1, 2, 2];
    check_that(&rt, "syncs", left.seen.as_slice() == seen.as_slice());
    check_same(&rt, "edits", recovered(&rt, alloc, left.file.as_slice()), 1);
}

/// The file gets full at each of its bytes: the answers that are out are those whose edits are recovered.
#[test]
fn a_full_disk_loses_no_answered_edit(rt: HostRuntime) {
    let alloc = rt.alloc();
    let full = Err(TalkFault::Journal(JournalFault::Write));
    for room in size_of(&PARTS, 1)..size_of(&PARTS, 6) {
        let left = talk_with(&rt, alloc, Means { room, ..AMPLE });
        check_same(&rt, room, left.end, full);
        check_same(&rt, room, left.file.len(), room);
        let answers = size_of(&ANSWERS, answered_with(room));
        check_same(&rt, room, left.answers.len(), answers);
        let edits = recovered(&rt, alloc, left.file.as_slice());
        check_that(&rt, ("room", room), needed(&rt, answers) <= edits);
    }
}

/// A disk that can't be reached ends it with a fault of its own, before the answer.
#[test]
fn a_failed_sync_has_its_fault(rt: HostRuntime) {
    let alloc = rt.alloc();
    for syncs in 0u64..5 {
        let left = talk_with(&rt, alloc, Means { syncs, ..AMPLE });
        let failed = Err(TalkFault::Journal(JournalFault::Sync));
        check_same(&rt, syncs, left.end, failed);
    }
    let left = talk_with(&rt, alloc, Means { syncs: 5, ..AMPLE });
    check_same(&rt, "enough", left.end, Ok(()));
}

/// A client that is gone at each byte of the answers loses no edit that it may have been told of.
#[test]
fn a_lost_client_loses_no_edit(rt: HostRuntime) {
    let alloc = rt.alloc();
    for written in 0..size_of(&ANSWERS, 12) {
        let left = talk_with(
            &rt,
            alloc,
            Means {
                answers: written,
                ..AMPLE
            },
        );
        let failed = ToolFault::Run(RunFault::Write { written });
        check_same(&rt, written, left.end, Err(TalkFault::Tool(failed)));
        check_same(&rt, written, left.answers.len(), written);
        let edits = recovered(&rt, alloc, left.file.as_slice());
        check_that(&rt, written, needed(&rt, written) <= edits);
        check_that(&rt, written, edits == left.edits);
    }
}

/// The whole journal, cut at each byte after its head: what is recovered has each whole line.
#[test]
fn a_cut_journal_has_its_whole_lines(rt: HostRuntime) {
    let alloc = rt.alloc();
    let all = first_parts(&rt, alloc, &PARTS, 6);
    for cut in size_of(&PARTS, 1)..size_of(&PARTS, 6) {
        let edits = recovered(&rt, alloc, expect_some(&rt, all.get(..cut)));
        check_that(&rt, cut, size_of(&PARTS, edits.saturating_add(1)) <= cut);
        check_that(&rt, cut, cut < size_of(&PARTS, edits.saturating_add(2)));
    }
}

/// A read that fails has each whole line answered and journaled.
#[test]
fn a_failed_read_leaves_a_whole_journal(rt: HostRuntime) {
    let alloc = rt.alloc();
    let text = lines(&rt, alloc);
    for fails_at in 1usize..20 {
        let mut input = Giver::new(text.as_slice(), 7, fails_at);
        let left = talk(&rt, alloc, AMPLE, &mut input);
        let failed = ToolFault::Read(ReadFault::Failed);
        check_same(&rt, fails_at, left.end, Err(TalkFault::Tool(failed)));
        let edits = recovered(&rt, alloc, left.file.as_slice());
        check_same(&rt, fails_at, edits, left.edits);
        check_same(&rt, fails_at, edits, needed(&rt, left.answers.len()));
    }
}

/// Whether a conversation ended since memory was refused.
fn is_out_of_memory(end: Result<(), TalkFault>) -> bool {
    match end {
        Err(TalkFault::Tool(fault)) => fault == ToolFault::Run(RunFault::Memory),
        Err(TalkFault::Journal(fault)) => fault == JournalFault::Memory,
        Ok(()) => false,
    }
}

/// Whichever growth is refused, the journal lacks edits only where the conversation ended at them.
#[test]
fn a_refused_growth_loses_no_edit(rt: HostRuntime) {
    let alloc = rt.alloc();
    let text = lines(&rt, alloc);
    let mut refused = 0usize;
    let mut ended = 0usize;
    for growth in 1u64..1_000 {
        let means = Means { growth, ..AMPLE };
        let left = talk(&rt, alloc, means, &mut Giver::new(text.as_slice(), 7, 0));
        let edits = recovered(&rt, alloc, left.file.as_slice());
        if left.end == Ok(()) {
            check_same(&rt, growth, edits, left.edits);
        } else {
            ended = ended.saturating_add(1);
            check_that(&rt, growth, is_out_of_memory(left.end));
            check_that(&rt, growth, edits <= left.edits);
            check_that(&rt, growth, left.edits <= edits.saturating_add(2));
        }
        if !left.refused {
            break;
        }
        refused = refused.saturating_add(1);
    }
    check_that(&rt, "growths", 20 < refused && refused < 999);
    check_that(&rt, "ends", 10 < ended);
}
