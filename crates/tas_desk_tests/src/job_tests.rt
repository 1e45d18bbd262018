//! Jobs of a session, and the batches that are offered to it.

use crate::answers::{Answered, answer_of};
use crate::changes::{Change, HALTING, PLAYFIELD, cart, edit_of};
use crate::checks::{check_same, check_that, expect_ok};
use crate::sessions::{Lent, Turn, lend, open_movie, take_turns};
use std::alloc::Global;
use std::process::Abort;
use std::sync::Wait;
use tas_desk::{Offered, Session};
use tas_green::Batch;

/// A job's batch.
fn run<R: Abort>(rt: &R, alloc: Global, session: &Session, near: usize) -> Batch {
    expect_ok(rt, session.job(alloc, near)).run()
}

fn offer(session: &mut Session, batch: Batch) -> Answered {
    answer_of(session.offer(batch))
}

fn taken(at: u64, front: usize, kept: usize) -> Answered {
    Answered::Taken(Offered { at, front, kept })
}

/// A job of the first 128 of 200 frames, and one of more frames than there are. Neither changes the session.
struct Jobs;

impl Lent for Jobs {
    fn run<R: Wait + Abort>(&self, rt: &R, alloc: Global, session: &mut Session) {
        open_movie(rt, alloc, session, PLAYFIELD, 200);
        let first = run(rt, alloc, session, 128);
        let all = run(rt, alloc, session, 1000);
        check_batches(rt, session, &first, &all);
        take_turns(rt, alloc, session, &[Turn::Kept("0:")]);
    }
}

/// Both batches have the session's cartridge and inputs, the one the first 128, the other all 200.
fn check_batches<R: Abort>(rt: &R, session: &Session, first: &Batch, all: &Batch) {
    let movie = session.movie();
    check_that(rt, "first", first.cart().bytes() == movie.cart().bytes());
    check_same(rt, "first, 2", first.inputs().len(), 128);
    check_that(rt, "all", all.inputs() == movie.inputs());
    let held = [
        (0, [false, false]),
        (64, [true, true]),
        (128, [true, true]),
        (192, [false, true]),
        (200, [false, false]),
        (256, [false, false]),
    ];
    for (frame, are_held) in held {
        let found = [first.holds(frame), all.holds(frame)];
        check_same(rt, ("frame", frame), found, are_held);
    }
}

#[test]
fn jobs_hold_what_the_session_had(rt: HostRuntime) {
    let closed = lend(&rt, rt.alloc(), &Jobs);
    check_same(&rt, "closed.journal", closed.journal.len(), 2);
}

/// A job starts from the nearest kept state, whose frames it doesn't play again.
struct Nearest;

impl Lent for Nearest {
    fn run<R: Wait + Abort>(&self, rt: &R, alloc: Global, session: &mut Session) {
        open_movie(rt, alloc, session, PLAYFIELD, 200);
        take_turns(rt, alloc, session, &[Turn::Drawn(70, 2, 71, 1680)]);
        let batch = run(rt, alloc, session, 128);
        let held = [batch.holds(64), batch.holds(128), batch.holds(192)];
        check_same(rt, "batch", held, [false, true, false]);
        check_same(rt, "offer", offer(session, batch), taken(2, 128, 1));
        let turns = [Turn::Kept("2: 64 128"), Turn::Drawn(191, 2, 64, 1680)];
        take_turns(rt, alloc, session, &turns);
    }
}

#[test]
fn a_batch_is_kept_with_what_is_there(rt: HostRuntime) {
    lend(&rt, rt.alloc(), &Nearest);
}

/// Three batches of 200 frames: two are offered once input 100 is another one, the third behind another cartridge.
struct ThreeBatches;

impl Lent for ThreeBatches {
    fn run<R: Wait + Abort>(&self, rt: &R, alloc: Global, session: &mut Session) {
        open_movie(rt, alloc, session, PLAYFIELD, 200);
        let first = run(rt, alloc, session, 200);
        let second = run(rt, alloc, session, 200);
        let third = run(rt, alloc, session, 200);
        let replaced = Turn::Made(Change::ReplaceRight(100), 3, 200);
        take_turns(rt, alloc, session, &[replaced]);
        check_same(rt, "offer", offer(session, first), taken(3, 100, 1));
        take_turns(rt, alloc, session, &[Turn::Kept("1: 64")]);
        check_same(rt, "offer, 2", offer(session, second), taken(3, 100, 0));
        let loaded = Turn::Made(Change::Load(HALTING), 4, 200);
        take_turns(rt, alloc, session, &[loaded]);
        let other = Answered::OtherCartridge(4);
        check_same(rt, "offer, 3", offer(session, third), other);
    }
}

#[test]
fn three_batches_are_offered_in_turn(rt: HostRuntime) {
    lend(&rt, rt.alloc(), &ThreeBatches);
}

/// Two batches of 200 frames, an edit, and the batches' answers after it.
#[derive(Clone, Copy)]
struct OfferedAfter {
    change: Change,
    once: Answered,
    twice: Answered,
}

impl Lent for OfferedAfter {
    fn run<R: Wait + Abort>(&self, rt: &R, alloc: Global, session: &mut Session) {
        open_movie(rt, alloc, session, PLAYFIELD, 200);
        let edit = edit_of(rt, alloc, self.change);
        let first = run(rt, alloc, session, 200);
        let second = run(rt, alloc, session, 200);
        expect_ok(rt, session.edit(rt, 0, 2, edit));
        check_same(rt, self.change, offer(session, first), self.once);
        check_same(rt, self.change, offer(session, second), self.twice);
    }
}

#[test]
fn batches_count_as_far_as_the_inputs_agree(rt: HostRuntime) {
    let other = Answered::OtherCartridge(3);
    let cases = [
        (Change::InsertRight(64, 1), taken(3, 64, 1), taken(3, 64, 0)),
        (Change::InsertRight(63, 1), taken(3, 63, 0), taken(3, 63, 0)),
        (Change::Delete(10, 50), taken(3, 150, 2), taken(3, 150, 0)),
        (Change::Insert(10, 50), taken(3, 200, 3), taken(3, 200, 0)),
        (Change::Load(HALTING), other, other),
        (Change::Load(PLAYFIELD), taken(3, 200, 3), taken(3, 200, 0)),
    ];
    for (change, once, twice) in cases {
        let lent = OfferedAfter {
            change,
            once,
            twice,
        };
        lend(&rt, rt.alloc(), &lent);
    }
}

/// A batch of a new session's 200 frames of a program.
fn batch_of<R: Wait + Abort>(rt: &R, alloc: Global, program: &'static [u8]) -> Batch {
    let mut session: Session = expect_ok(rt, Session::new(alloc));
    open_movie(rt, alloc, &mut session, program, 200);
    let batch = run(rt, alloc, &session, 200);
    session.close(rt);
    batch
}

/// Another session's batch of a program, offered to a session with 100 lit frames, and what is kept then.
#[derive(Clone, Copy)]
struct FromAnother {
    program: &'static [u8],
    answer: Answered,
    kept: &'static str,
}

impl Lent for FromAnother {
    fn run<R: Wait + Abort>(&self, rt: &R, alloc: Global, session: &mut Session) {
        open_movie(rt, alloc, session, PLAYFIELD, 100);
        let batch = batch_of(rt, alloc, self.program);
        check_same(rt, self.kept, offer(session, batch), self.answer);
        take_turns(rt, alloc, session, &[Turn::Kept(self.kept)]);
    }
}

#[test]
fn batches_go_from_one_session_to_another(rt: HostRuntime) {
    let same = FromAnother {
        program: PLAYFIELD,
        answer: taken(2, 100, 1),
        kept: "1: 64",
    };
    let other = FromAnother {
        program: HALTING,
        answer: Answered::OtherCartridge(2),
        kept: "0:",
    };
    lend(&rt, rt.alloc(), &same);
    lend(&rt, rt.alloc(), &other);
}
