//! Conversations with a journal: what the journal has at each end, and what is recovered from it.

use crate::checks::{check_same, check_that, expect_ok, expect_some};
use crate::commands::talk_from_movie;
use crate::movies::{PLAYFIELD, image_of, joined};
use crate::noted_talks::{AMPLE, Begins, Means, Noted, hold};
use std::alloc::Global;
use std::process::Abort;
use std::sync::Wait;
use tas_journal::{Recovered, recover};
use tas_movie::print_text;
use tas_tool::{JournalFault, ReadFault, RunFault, TalkFault, ToolFault};
use vcs_machine::Cart;

/// Three frames of nothing pressed.
const THREE: &[u8] =
    b"a26movie 2\ncart 820c64e9933496de683a000c5e11f0510fb7b1699b2ce86471295236b284906d\n..... ..... ..... x3\n";

/// Lines that each make an edit of them.
const LINES: &[u8] =
    b"insert 0 2 R.... ..... .....\nreplace 1 1 ..... .L... .....\ndelete 0 1\ninsert 4 3 ....F ..... .....\ndelete 2 2\n";

/// Their answers.
static ANSWERS: [&[u8]; 5] = [
    b"edit 3 len 5\n",
    b"edit 4 len 5\n",
    b"edit 5 len 4\n",
    b"edit 6 len 7\n",
    b"edit 7 len 5\n",
];

/// The journal's head and lines; the digest of the movie's text is another program's.
static PARTS: [&[u8]; 6] = [
    b"a26journal 1\nprofile 2\nmovie 102 a3088da776a8c895663a29f828d4eb066daea226f3ab54bd21a71c46dcf07c1d\na26movie 2\ncart 820c64e9933496de683a000c5e11f0510fb7b1699b2ce86471295236b284906d\n..... ..... ..... x3\n",
    b"0 0 insert 0 2 R.... ..... .....\n",
    b"1 0 replace 1 1 ..... .L... .....\n",
    b"2 0 delete 0 1\n",
    b"3 0 insert 4 3 ....F ..... .....\n",
    b"4 0 delete 2 2\n",
];

/// The movies that the first edits make, from none to all, without their cartridge's line.
static MOVIES: [&[u8]; 6] = [
    b"..... ..... ..... x3\n",
    b"R.... ..... ..... x2\n..... ..... ..... x3\n",
    b"R.... ..... .....\n..... .L... .....\n..... ..... ..... x3\n",
    b"..... .L... .....\n..... ..... ..... x3\n",
    b"..... .L... .....\n..... ..... ..... x3\n....F ..... ..... x3\n",
    b"..... .L... .....\n..... ..... .....\n....F ..... ..... x3\n",
];

/// How many bytes the first parts have.
fn size_of(parts: &[&[u8]], count: usize) -> usize {
    let mut size = 0usize;
    for part in parts.iter().take(count) {
        size = size.saturating_add(part.len());
    }
    size
}

/// What is recovered from a journal.
fn recovered<R: Abort>(rt: &R, alloc: Global, file: &[u8]) -> Recovered<Global> {
    let image = image_of(rt, alloc, PLAYFIELD.bytes);
    let cart = expect_ok(rt, Cart::from_bytes(alloc, image.as_slice()));
    expect_ok(rt, recover(alloc, file, &cart, usize::MAX))
}

/// Fails where a movie's text isn't the one that so many first edits make.
fn check_movie<R: Abort>(rt: &R, case: usize, text: &[u8], edits: usize) {
    let frames = expect_some(rt, MOVIES.get(edits).copied());
    check_that(rt, ("movie", case), text.ends_with(frames));
    check_same(
        rt,
        ("movie", case),
        text.len(),
        frames.len().saturating_add(81),
    );
}

/// Fails where the journal's file isn't these first parts, or a journal of them doesn't make the movie of their edits.
fn check_parts<R: Abort>(rt: &R, alloc: Global, case: usize, file: &[u8], parts: usize) {
    let wanted = joined(rt, alloc, &PARTS);
    let size = size_of(&PARTS, parts);
    check_same(rt, ("size", case), file.len(), size);
    check_that(rt, ("parts", case), wanted.starts_with(file));
    if parts > 0 {
        let edits = parts.saturating_sub(1);
        let found = recovered(rt, alloc, file);
        check_same(rt, ("edits", case), found.edits, edits);
        let text = expect_ok(rt, print_text(alloc, &found.movie));
        check_movie(rt, case, text.as_slice(), edits);
    }
}

/// Holds the conversation of the lines over the movie.
fn talk_with<R: Wait + Abort>(rt: &R, alloc: Global, means: Means) -> Noted {
    hold(rt, alloc, Begins::Movie(THREE), LINES, means)
}

/// Fails where the movie that is left isn't the one of so many edits.
fn check_left<R: Abort>(rt: &R, case: usize, left: &Noted, edits: usize) {
    match &left.left {
        Some(text) => check_movie(rt, case, text.as_slice(), edits),
        None => check_that(rt, ("left", case), false),
    }
}

/// The journal of a conversation makes the movie that it leaves, and its answers are those without a journal.
#[test]
fn a_journal_makes_the_movie_that_is_left(rt: HostRuntime) {
    let alloc = rt.alloc();
    let left = talk_with(&rt, alloc, AMPLE);
    check_same(&rt, "end", left.end, Ok(()));
    let image = image_of(&rt, alloc, PLAYFIELD.bytes);
    let mut input = LINES;
    let mut output = Vec::new(alloc);
    let mut cart = image.as_slice();
    let mut movie = THREE;
    let end = talk_from_movie(&rt, alloc, &mut cart, &mut movie, &mut input, &mut output);
    check_same(&rt, "end without", end, Ok(()));
    check_that(&rt, "answers", left.answers.as_slice() == output.as_slice());
    check_same(&rt, "answers", output.len(), size_of(&ANSWERS, 5));
    check_parts(&rt, alloc, 0, left.file.as_slice(), 6);
    check_left(&rt, 0, &left, 5);
}

/// The file gets full at each of its bytes: it has the first bytes of the journal, and just the answers whose edits it has are out. The line that
/// it has no room for was carried out.
#[test]
fn a_full_disk_ends_a_conversation(rt: HostRuntime) {
    let alloc = rt.alloc();
    let full = Err(TalkFault::Journal(JournalFault::Write));
    let wanted = joined(&rt, alloc, &PARTS);
    let mut parts = 0usize;
    for room in 0..size_of(&PARTS, 6) {
        let left = talk_with(&rt, alloc, Means { room, ..AMPLE });
        check_same(&rt, room, left.end, full);
        check_same(&rt, room, left.file.len(), room);
        check_that(&rt, room, wanted.starts_with(left.file.as_slice()));
        if size_of(&PARTS, parts.saturating_add(1)) <= room {
            parts = parts.saturating_add(1);
        }
        if parts == 0 {
            check_same(&rt, room, left.reads, 0);
            check_that(&rt, room, left.left.is_none());
            check_same(&rt, room, left.answers.len(), 0);
        } else {
            let edits = parts.saturating_sub(1);
            check_same(&rt, room, left.answers.len(), size_of(&ANSWERS, edits));
            check_same(
                &rt,
                room,
                recovered(&rt, alloc, left.file.as_slice()).edits,
                edits,
            );
            check_left(&rt, room, &left, parts);
        }
    }
}

/// A disk that can't be reached ends it before the answer, with the edit in the file.
#[test]
fn a_failed_sync_ends_a_conversation(rt: HostRuntime) {
    let alloc = rt.alloc();
    let failed = Err(TalkFault::Journal(JournalFault::Sync));
    let none = talk_with(&rt, alloc, Means { syncs: 0, ..AMPLE });
    check_same(&rt, "head", none.end, failed);
    check_same(&rt, "head", none.reads, 0);
    check_that(&rt, "head", none.left.is_none());
    let mut edits = 0usize;
    for syncs in 1u64..6 {
        let left = talk_with(&rt, alloc, Means { syncs, ..AMPLE });
        check_same(&rt, syncs, left.end, failed);
        check_same(&rt, syncs, left.answers.len(), size_of(&ANSWERS, edits));
        edits = edits.saturating_add(1);
        check_parts(
            &rt,
            alloc,
            edits,
            left.file.as_slice(),
            edits.saturating_add(1),
        );
        check_left(&rt, edits, &left, edits);
    }
    let all = talk_with(&rt, alloc, Means { syncs: 6, ..AMPLE });
    check_same(&rt, "enough", all.end, Ok(()));
}

/// A client that is gone at each byte of the answers loses no edit: the journal makes the movie that is left.
#[test]
fn a_lost_client_loses_no_edit(rt: HostRuntime) {
    let alloc = rt.alloc();
    let mut edits = 1usize;
    for written in 0..size_of(&ANSWERS, 5) {
        if size_of(&ANSWERS, edits) <= written {
            edits = edits.saturating_add(1);
        }
        let answers = written;
        let left = talk_with(&rt, alloc, Means { answers, ..AMPLE });
        let failed = ToolFault::Run(RunFault::Write { written });
        check_same(&rt, written, left.end, Err(TalkFault::Tool(failed)));
        check_same(&rt, written, left.answers.len(), written);
        check_parts(
            &rt,
            alloc,
            written,
            left.file.as_slice(),
            edits.saturating_add(1),
        );
        check_left(&rt, written, &left, edits);
    }
}

/// A read that fails has each whole line answered and journaled.
#[test]
fn a_failed_read_leaves_a_whole_journal(rt: HostRuntime) {
    let alloc = rt.alloc();
    for fails_at in 1usize..17 {
        let left = talk_with(&rt, alloc, Means { fails_at, ..AMPLE });
        let failed = ToolFault::Read(ReadFault::Failed);
        check_same(&rt, fails_at, left.end, Err(TalkFault::Tool(failed)));
        let read = expect_some(
            &rt,
            LINES.get(..fails_at.saturating_sub(1).saturating_mul(7)),
        );
        let edits = read.iter().filter(|byte| **byte == b'\n').count();
        check_same(&rt, fails_at, left.answers.len(), size_of(&ANSWERS, edits));
        check_parts(
            &rt,
            alloc,
            fails_at,
            left.file.as_slice(),
            edits.saturating_add(1),
        );
        check_left(&rt, fails_at, &left, edits);
    }
}

/// Lines that look, that aren't understood, and a draft that is dropped make no lines; the edits of a commit make one each.
#[test]
fn only_edits_are_journaled(rt: HostRuntime) {
    let alloc = rt.alloc();
    let lines =
        b"len\nshot 2\nhello\nbegin\ndelete 0 3\ndrop\nbegin\ndelete 0 2\ninsert 0 1 R.... ..... .....\ncommit\nstates\nquit\ndelete 0 1\n";
    let left = hold(&rt, alloc, Begins::Movie(THREE), lines, AMPLE);
    check_same(&rt, "end", left.end, Ok(()));
    let head = expect_some(&rt, PARTS.first().copied());
    let file = joined(
        &rt,
        alloc,
        &[head, b"0 0 delete 0 2\n1 0 insert 0 1 R.... ..... .....\n"],
    );
    check_that(&rt, "file", left.file.as_slice() == file.as_slice());
}

/// What conversations over less than a movie begin with, their lines, and their journals; the digests are another program's.
static STARTS: [(Begins, &[u8], &[u8]); 2] = [
    (
        Begins::Cart,
        b"insert 0 1 ..... ..... .....\nlen\n",
        b"a26journal 1\nprofile 2\nmovie 81 fb847583a619eecec7911b2b741160e9e3384064470d6485b41c6c3b3f8ae3e0\na26movie 2\ncart 820c64e9933496de683a000c5e11f0510fb7b1699b2ce86471295236b284906d\n0 0 insert 0 1 ..... ..... .....\n",
    ),
    (
        Begins::Blank,
        b"insert 0 1 ..... ..... .....\nlen\n",
        b"a26journal 1\nprofile 2\nmovie 81 28a712194b8e9737b187764449c5d5d97c62e6f7f4c5c55bccef3f5aed831e72\na26movie 2\ncart ad7facb2586fc6e966c004d7d1d16b024f5805ff7cb47c7a85dabd8b48892ca7\n0 0 insert 0 1 ..... ..... .....\n",
    ),
];

/// A conversation over a cartridge, and one over none, have journals, too.
#[test]
fn each_start_has_its_journal(rt: HostRuntime) {
    let alloc = rt.alloc();
    for (begins, lines, file) in STARTS.iter() {
        let left = hold(&rt, alloc, *begins, lines, AMPLE);
        check_same(&rt, file.len(), left.end, Ok(()));
        check_that(&rt, file.len(), left.file.as_slice() == *file);
    }
}

/// A movie that isn't one ends it before the journal begins.
#[test]
fn a_faulty_movie_leaves_no_journal(rt: HostRuntime) {
    let alloc = rt.alloc();
    let left = hold(&rt, alloc, Begins::Movie(b"a26movie 3\n"), LINES, AMPLE);
    check_that(&rt, "end", left.end.is_err());
    check_same(&rt, "file", left.file.len(), 0);
    check_same(&rt, "reads", left.reads, 0);
    check_that(&rt, "left", left.left.is_none());
}
