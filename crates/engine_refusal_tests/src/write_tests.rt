//! Writes that fail, take a few bytes, or take none.

use crate::checks::{check_same, check_that};
use crate::engines::{ENGINES, Engine, Given, Row, inputs_of, run, whole_of};
use crate::inputs::{Bytes, make_inputs};
use std::alloc::Global;
use std::process::Abort;
use std::sync::Wait;
use std::thread::Threads;
use tas_tool::{RunFault, ToolFault};
use test_streams::{Failure, Room, Taker};

/// No engine writes so often here.
const MOST: usize = 1000;

/// An engine, how its writer fails, and for how many writes there is room.
type Case = (Engine, &'static str, usize);

/// Fails where an engine whose write failed isn't told of by just what was taken before it, or wrote on.
fn check_failed<R: Abort>(
    rt: &R,
    case: Case,
    output: &Taker,
    end: Result<(), ToolFault>,
    whole: &[u8],
) {
    let (_engine, _failure, room) = case;
    let written = output.taken.len();
    check_same(
        rt,
        case,
        end,
        Err(ToolFault::Run(RunFault::Write { written })),
    );
    let is_first = whole.starts_with(output.taken.as_slice());
    check_that(rt, ("the answer's first bytes", case), is_first);
    check_that(rt, ("not all of it", case), written < whole.len());
    let writes = room.saturating_add(1);
    check_same(rt, case, (output.writes, output.failed), (writes, 1));
}

/// Fails where an engine that ended well wrote something else, or wrote less often than there was room for: each of these writes has failed
/// in a run before.
fn check_whole<R: Abort>(rt: &R, case: Case, output: &Taker, whole: &[u8]) {
    let (_engine, _failure, room) = case;
    check_that(rt, ("the answer", case), output.taken.as_slice() == whole);
    check_that(rt, ("a write", case), room > 0);
    check_same(rt, case, (output.writes, output.failed), (room, 0));
}

/// How a writer fails, and its name.
static FAILURES: [(Failure, &str); 3] = [
    (Failure::Error, "an error"),
    (Failure::Interrupted, "an interruption"),
    (Failure::Nothing, "nothing taken"),
];

/// Each write of an engine fails in turn, into a writer that takes this many bytes at most at each write. A failed write is the
/// last one, and what `Write` counts is just what was taken before it: the answer's first bytes.
fn fail_each<T: Wait + Threads + Abort + Sync>(
    rt: &T,
    alloc: Global,
    bytes: &Bytes,
    engine: Row,
    at_once: usize,
) {
    let whole = whole_of(rt, alloc, engine, bytes);
    for row in FAILURES.iter() {
        fail_so(
            rt,
            alloc,
            (engine.0, inputs_of(engine, bytes)),
            whole.as_slice(),
            at_once,
            *row,
        );
    }
}

/// So it fails in one of these ways.
fn fail_so<T: Wait + Threads + Abort + Sync>(
    rt: &T,
    alloc: Global,
    (engine, given): (Engine, Given<'_>),
    whole: &[u8],
    at_once: usize,
    (failure, name): (Failure, &'static str),
) {
    let mut has_ended = false;
    for room in 0..MOST {
        let mut output = Taker::new(alloc, at_once, Room::Writes(room), failure);
        let (end, _reads) = run(rt, alloc, engine, given, &mut output);
        if end.is_ok() {
            check_whole(rt, (engine, name, room), &output, whole);
            has_ended = true;
            break;
        }
        check_failed(rt, (engine, name, room), &output, end, whole);
    }
    check_that(rt, ("an end", engine, name), has_ended);
}

/// What an engine writes, or how much of it a writer takes at once.
#[derive(Clone, Copy, PartialEq, Eq)]
enum Written {
    /// Seven bytes at a time.
    Text,
    /// A line or so at a time: each run plays, draws and hashes the movie anew.
    Digest,
    /// A row at a time.
    Shot,
    Film,
    Export,
    /// One of its answers, a picture, takes three writes.
    Conversation,
}

/// What an engine writes; none where its writes are those of another.
fn kind_of(engine: Engine) -> Option<Written> {
    match engine {
        Engine::Digest => Some(Written::Digest),
        Engine::Shot => Some(Written::Shot),
        Engine::Film => Some(Written::Film),
        Engine::Export(2) => Some(Written::Export),
        Engine::Export(_) => None,
        _ if engine.is_conversation() => Some(Written::Conversation),
        _ => Some(Written::Text),
    }
}

/// Each write of each engine that writes this fails in turn.
fn fail_all<T: Wait + Threads + Abort + Sync>(
    rt: &T,
    alloc: Global,
    wanted: Written,
    at_once: usize,
) {
    let bytes = make_inputs(rt, alloc);
    let engines = ENGINES;
    for row in engines.iter() {
        if kind_of(row.0) == Some(wanted) {
            fail_each(rt, alloc, &bytes, *row, at_once);
        }
    }
}

#[test]
fn each_write_of_a_text(rt: HostRuntime) {
    fail_all(&rt, rt.alloc(), Written::Text, 7);
}

#[test]
fn each_write_of_a_digest(rt: HostRuntime) {
    fail_all(&rt, rt.alloc(), Written::Digest, 150);
}

#[test]
fn each_write_of_a_shot(rt: HostRuntime) {
    fail_all(&rt, rt.alloc(), Written::Shot, 1000);
}

#[test]
fn each_write_of_a_film(rt: HostRuntime) {
    fail_all(&rt, rt.alloc(), Written::Film, 1000);
}

#[test]
fn each_write_of_an_export(rt: HostRuntime) {
    fail_all(&rt, rt.alloc(), Written::Export, 1000);
}

#[test]
fn each_write_of_a_conversation(rt: HostRuntime) {
    fail_all(&rt, rt.alloc(), Written::Conversation, 50_000);
}
