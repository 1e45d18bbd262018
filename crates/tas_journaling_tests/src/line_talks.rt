//! A conversation over a reader, with a journal: the lines of `talks`, one after the other.

ghost use Rattle.std.specs.Prelude.{◌≡◌, ◌≤◌};
ghost use Rattle.tas_desk.specs.Seats.{name_of};

use crate::checks::{check_that, expect_ok};
use crate::disks::{Disk, Watcher};
use crate::talks::{LINES, Means};
use refusals::Refusing;
use std::alloc::Global;
use std::marker::Brand;
use std::process::Abort;
use std::sync::Wait;
use std::sync::atomic::AtomicU64;
use tas_desk::{Desk, Name, Unopened};
use tas_journaling::{Journal, TalkFault, converse_noted};
use tas_movie::Movie;
use test_streams::Giver;

/// What a conversation leaves.
#[derive(Drop)]
pub struct Talked {
    /// What the journal's file has.
    pub file: Vec<u8>,
    /// What the answers' writer has.
    pub answers: Vec<u8>,
    /// How often the file had been brought to the disk at each write of an answer.
    pub seen: Vec<u64>,
    /// How it ended.
    pub end: Result<(), TalkFault>,
    /// Whether the growth was asked for.
    pub refused: bool,
    /// How many edits the history has.
    pub edits: usize,
}

/// The lines, each with its newline.
pub fn lines<R: Abort>(rt: &R, alloc: Global) -> Vec<u8> {
    let mut text = Vec::new(alloc);
    for line in LINES.iter() {
        expect_ok(rt, text.extend_from_slice(line));
        expect_ok(rt, text.push(b'\n'));
    }
    text
}

/// Holds the conversation of these lines on a desk of one seat. The reader gives so many bytes at once, and fails at this read.
fn talk_at<'a, N: Name, R: Wait + Abort>(
    rt: &R,
    alloc: Global,
    heap: &'a Refusing<Global>,
    unopened: Unopened<&'a Refusing<Global>>,
    means: Means,
    input: &mut Giver<'_>,
) -> Talked
    requires name { unopened ≡ name_of N.registry N.name N.parts }
    requires growth { 1 ≤ means.growth }
{
    let opened = Desk::<N, &R, &Refusing<Global>>::open(rt, heap, unopened);
    let (desk, mut seats) = expect_ok(rt, opened);
    check_that(rt, "one seat", seats.len() == 1);
    let movie = expect_ok(rt, Movie::blank(alloc));
    let done = AtomicU64::new(0);
    let disk = Disk::new(alloc, means.room, means.syncs, &done);
    let mut output = Watcher::new(alloc, means.answers, &done);
    let (disk, end) = match Journal::begin(alloc, disk, &movie, 0) {
        Ok(mut journal) => {
            heap.refuse(means.growth);
            let end = converse_noted(
                rt,
                heap,
                &desk,
                &mut seats[0],
                &mut journal,
                input,
                &mut output,
            );
            (journal.into_file(), end)
        }
        Err((disk, fault)) => (disk, Err(TalkFault::Journal(fault))),
    };
    let file = disk.taker.taken;
    let refused = heap.has_refused();
    check_that(rt, "all seats come back", desk.whole(seats.as_slice()));
    let closed = desk.close(rt, seats);
    Talked {
        file,
        answers: output.taker.taken,
        seen: output.seen,
        end,
        refused,
        edits: closed.journal.len(),
    }
}

/// The same under a name.
pub fn talk<R: Wait + Abort>(rt: &R, alloc: Global, means: Means, input: &mut Giver<'_>) -> Talked
    requires { 1 ≤ means.growth }
{
    let heap = Refusing::new(alloc, u64::MAX);
    let unopened = expect_ok(rt, Unopened::new(&heap, 1));
    talk_at::<Brand, R>(rt, alloc, &heap, unopened, means, input)
}
