//! What a journal has when something fails.

ghost use Rattle.std.specs.Prelude.{◌≡◌};
ghost use Rattle.tas_desk.specs.Seats.{name_of};

use crate::checks::{check_same, check_that, expect_ok, expect_some};
use crate::disks::{Disk, Watcher, begin};
use crate::talks::{
    AMPLE, ANSWERS, Means, PARTS, answered_with, check_left, first_parts, hold, size_of,
};
use std::alloc::Global;
use std::marker::Brand;
use std::process::Abort;
use std::sync::Wait;
use std::sync::atomic::AtomicU64;
use tas_desk::{Desk, Name, Unopened};
use tas_engines::RunFault;
use tas_journaling::{AnswerFault, JournalFault, answer_noted};
use tas_language::parse_request;
use tas_movie::{Edit, Inputs};
use vcs_machine::Input;

/// An edit is on the disk before the first byte of its answer; the edits of a commit are brought there at once.
#[test]
fn a_journal_has_each_edit_before_its_answer(rt: HostRuntime) {
    let alloc = rt.alloc();
    let left = hold(&rt, alloc, AMPLE);
    check_left(&rt, alloc, ("ample", 0), &left);
    check_same(&rt, "fault", left.fault, None);
    check_same(&rt, "answers", left.answers.len(), size_of(&ANSWERS, 12));
    check_same(&rt, "file", left.file.len(), size_of(&PARTS, 6));
    let seen: [u64; 12] = [2, 2, 2, 2, 2, 2, 3, 3, 3, 3, 4, 5];
    check_that(&rt, "syncs", left.seen.as_slice() == seen.as_slice());
}

/// The file gets full at each of its bytes: what it has is the first bytes of the journal, and no answer goes out that needs more.
#[test]
fn a_full_disk_ends_a_conversation(rt: HostRuntime) {
    let alloc = rt.alloc();
    let head = size_of(&PARTS, 1);
    let full = Some(AnswerFault::Journal(JournalFault::Write));
    let room = head.saturating_sub(1);
    let none = hold(&rt, alloc, Means { room, ..AMPLE });
    check_same(&rt, "head", none.fault, full);
    check_same(&rt, "head", none.file.len(), room);
    for room in head..size_of(&PARTS, 6) {
        let left = hold(&rt, alloc, Means { room, ..AMPLE });
        check_left(&rt, alloc, ("room", room), &left);
        check_same(&rt, room, left.fault, full);
        check_same(&rt, room, left.file.len(), room);
        let answers = size_of(&ANSWERS, answered_with(room));
        check_same(&rt, room, left.answers.len(), answers);
    }
}

/// For each number of times that a file is brought to the disk: how many parts it has, and how many answers are out.
static SYNCS: [(u64, usize, usize); 5] = [(0, 1, 0), (1, 2, 0), (2, 3, 6), (3, 5, 10), (4, 6, 11)];

/// A disk that fails leaves the lines of the edit, and its answer doesn't go out.
#[test]
fn a_failed_sync_ends_a_conversation(rt: HostRuntime) {
    let alloc = rt.alloc();
    for (syncs, parts, answers) in SYNCS.iter() {
        let syncs = *syncs;
        let left = hold(&rt, alloc, Means { syncs, ..AMPLE });
        check_left(&rt, alloc, ("syncs", *parts), &left);
        let failed = Some(AnswerFault::Journal(JournalFault::Sync));
        check_same(&rt, syncs, left.fault, failed);
        check_same(&rt, syncs, left.file.len(), size_of(&PARTS, *parts));
        check_same(&rt, syncs, left.answers.len(), size_of(&ANSWERS, *answers));
    }
}

/// A client that is gone loses no edit: what began to go out is in the file.
#[test]
fn a_failed_write_of_an_answer_leaves_its_edit(rt: HostRuntime) {
    let alloc = rt.alloc();
    let mut before = 0usize;
    for (number, answer) in ANSWERS.iter().enumerate() {
        for sent in 0..answer.len() {
            let answers = before.saturating_add(sent);
            let left = hold(&rt, alloc, Means { answers, ..AMPLE });
            check_left(&rt, alloc, ("answer", number), &left);
            check_same(&rt, answers, left.fault, Some(AnswerFault::Write(sent)));
            check_same(&rt, answers, left.answers.len(), answers);
        }
        before = before.saturating_add(answer.len());
    }
}

/// How many lines a file's journal has after its head of five; each is whole.
fn lines_in<R: Abort>(rt: &R, file: &[u8]) -> usize {
    check_that(rt, "whole lines", file.last() == Some(&b'\n'));
    let count = file.iter().filter(|byte| **byte == b'\n').count();
    count.saturating_sub(5)
}

/// Whether a conversation ended since memory was refused.
fn is_out_of_memory(fault: AnswerFault) -> bool {
    match fault {
        AnswerFault::Talk(fault) => fault == RunFault::Memory,
        AnswerFault::Journal(fault) => fault == JournalFault::Memory,
        AnswerFault::Write(_) => false,
    }
}

/// Whichever growth is refused, the file has whole lines, and lacks edits only where the conversation ended at them.
#[test]
fn a_refused_growth_loses_no_answered_edit(rt: HostRuntime) {
    let alloc = rt.alloc();
    let mut refused = 0usize;
    let mut ended = 0usize;
    for growth in 1u64..1_000 {
        let left = hold(&rt, alloc, Means { growth, ..AMPLE });
        let lines = lines_in(&rt, left.file.as_slice());
        match left.fault {
            None => check_same(&rt, growth, lines, left.edits),
            Some(fault) => {
                ended = ended.saturating_add(1);
                check_that(&rt, growth, is_out_of_memory(fault));
                check_that(&rt, growth, lines <= left.edits);
                check_that(&rt, growth, left.edits <= lines.saturating_add(2));
            }
        }
        if !left.refused {
            break;
        }
        refused = refused.saturating_add(1);
    }
    check_that(&rt, "growths", 20 < refused && refused < 999);
    check_that(&rt, "ends", 10 < ended);
}

/// The head of a journal, and two lines, of two seats.
static TWO: [&[u8]; 3] = [
    b"a26journal 1\nprofile 2\nmovie 81 28a712194b8e9737b187764449c5d5d97c62e6f7f4c5c55bccef3f5aed831e72\na26movie 2\ncart ad7facb2586fc6e966c004d7d1d16b024f5805ff7cb47c7a85dabd8b48892ca7\n",
    b"0 1 insert 0 2 ..... ..... .....\n",
    b"1 0 delete 0 1\n",
];

/// Edits a movie by one seat, and then by another with a journal.
fn hold_beside<N: Name, R: Wait + Abort>(rt: &R, alloc: Global, unopened: Unopened)
    requires name { unopened ≡ name_of N.registry N.name N.parts }
{
    let (desk, mut seats) = expect_ok(rt, Desk::<N, &R>::open(rt, alloc, unopened));
    check_that(rt, "two seats", seats.len() == 2);
    let done = AtomicU64::new(0);
    let disk = Disk::new(alloc, 1_000, 10, &done);
    let mut output = Watcher::new(alloc, 1_000, &done);
    let mut journal = begin(rt, alloc, disk, 0);
    let inputs = expect_ok(rt, Inputs::repeated(alloc, Input::none(), 2));
    expect_ok(
        rt,
        desk.edit(rt, &mut seats[1], Edit::Insert { at: 0, inputs }),
    );
    let request = expect_some(rt, parse_request(b"delete 0 1"));
    let end = answer_noted(
        rt,
        alloc,
        &desk,
        &mut seats[0],
        &mut None,
        request,
        &mut journal,
        &mut output,
    );
    check_same(rt, "end", end, Ok(Some(13)));
    check_that(
        rt,
        "answer",
        output.taker.taken.as_slice() == b"edit 2 len 1\n".as_slice(),
    );
    let file = journal.into_file().taker.taken;
    let wanted = first_parts(rt, alloc, &TWO, 3);
    check_that(rt, "file", file.as_slice() == wanted.as_slice());
    check_that(rt, "all seats come back", desk.whole(seats.as_slice()));
    drop(desk.close(rt, seats));
}

/// The edits of other seats that a seat has seen are in the journal, too, each as its seat's.
#[test]
fn a_journal_has_the_edits_of_others(rt: HostRuntime) {
    let alloc = rt.alloc();
    let unopened = expect_ok(&rt, Unopened::new(alloc, 2));
    hold_beside::<Brand, HostRuntime>(&rt, alloc, unopened);
}
