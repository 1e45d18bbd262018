//! Seats that take their steps of a schedule, and write down what they are told.

use crate::answers::{edit, export, offer, shoot};
use crate::checks::expect_ok;
use crate::step_order::{Pause, Runs, StepOrder};
use crate::steps::{Action, Answer, Step, offer_of, pass_of};
use std::alloc::Global;
use std::process::Abort;
use std::sync::Wait;
use std::thread::Threads;
use tas_desk::{CloseOnDrop, Desk, Gate, Name, Seat};

/// The frames of an export.
pub const RANGE: (usize, usize) = (60, 66);

/// What was told in a step.
#[derive(Clone, Copy)]
pub struct Reply {
    pub step: usize,
    pub answer: Answer,
}

/// A seat with its replies.
#[derive(Drop)]
pub struct Caller<N: Name> {
    pub seat: Seat<N>,
    pub replies: Vec<Reply>,
}

/// A schedule that is played at a desk.
#[derive(Drop)]
pub struct Played<'a, N: Name, W: CloseOnDrop> {
    pub desk: &'a Desk<N, W>,
    pub order: &'a StepOrder,
    pub steps: &'a [Step],
}

/// The reply to a shot.
fn shot<N: Name, W: CloseOnDrop>(
    alloc: Global,
    desk: &Desk<N, W>,
    seat: &mut Seat<N>,
    k: usize,
) -> Answer {
    match shoot(alloc, desk, seat, k) {
        Ok(shown) => Answer::Shot(shown.at, shown.frame, shown.ran, shown.sum),
        Err(error) => Answer::NotDrawn(error),
    }
}

/// The reply to an action that is done in one step; nothing to others.
fn told<N: Name, W: CloseOnDrop, R: Wait + Abort>(
    rt: &R,
    alloc: Global,
    desk: &Desk<N, W>,
    seat: &mut Seat<N>,
    action: Action,
) -> Option<Answer> {
    match action {
        Action::Edit(change) => Some(Answer::Edit(edit(rt, alloc, desk, seat, change))),
        Action::Shot(k) => Some(shot(alloc, desk, seat, k)),
        Action::Len => Some(Answer::Len(desk.len(seat))),
        Action::Share => Some(Answer::Share(expect_ok(rt, desk.share(rt, seat)))),
        Action::Start(_) | Action::Offer | Action::Pass(_) => None,
    }
}

/// The reply to the offer of a job that was taken before its gate.
fn job<N: Name, W: CloseOnDrop, R: Wait + Abort>(
    rt: &R,
    alloc: Global,
    desk: &Desk<N, W>,
    seat: &mut Seat<N>,
    gate: &Pause<'_>,
    near: usize,
) -> Answer {
    let job = expect_ok(rt, desk.job(rt, alloc, seat, near));
    gate.pass(0);
    Answer::Offer(offer(rt, desk, seat, job.run()))
}

impl<N: Name> Caller<N> {
    /// A caller that was told nothing yet.
    pub fn new(alloc: Global, seat: Seat<N>) -> Caller<N> {
        Caller {
            seat,
            replies: Vec::new(alloc),
        }
    }

    /// Writes a reply down.
    fn note<R: Abort>(&mut self, rt: &R, step: usize, answer: Answer) {
        expect_ok(rt, self.replies.push(Reply { step, answer }));
    }

    /// Takes a job in one step, for this many frames, and has it run and offered in a later one. Seat 1 calls `job` and `offer`, the
    /// others `work`.
    fn start<W: CloseOnDrop, R: Wait + Abort>(
        &mut self,
        rt: &R,
        alloc: Global,
        played: &Played<'_, N, W>,
        start: usize,
        near: usize,
    ) {
        let seat = self.seat.number();
        let offer = offer_of(played.steps, seat).unwrap_or(0);
        let gate = Pause {
            order: played.order,
            start,
            offer,
        };
        played.order.wait_for(start);
        let answer = if seat == 1 {
            job(rt, alloc, played.desk, &mut self.seat, &gate, near)
        } else {
            let seat = &mut self.seat;
            Answer::Work(played.desk.work(rt, alloc, seat, &[near], &gate))
        };
        self.note(rt, offer, answer);
        played.order.done(offer);
    }

    /// Takes a step. A job's is over in a later one, and an export begins in the first one.
    pub fn take<W: CloseOnDrop, R: Threads + Wait + Abort + Sync>(
        &mut self,
        rt: &R,
        alloc: Global,
        played: &Played<'_, N, W>,
        number: usize,
        action: Action,
    ) {
        match action {
            Action::Start(near) => self.start(rt, alloc, played, number, near),
            Action::Pass(_) if number == 0 => self.export(rt, alloc, played),
            Action::Offer | Action::Pass(_) => {}
            _ => {
                played.order.wait_for(number);
                if let Some(answer) = told(rt, alloc, played.desk, &mut self.seat, action) {
                    self.note(rt, number, answer);
                }
                played.order.done(number);
            }
        }
    }

    /// Exports by three workers, with each run's gate in its step. The reply is that of the first step.
    fn export<W: CloseOnDrop, R: Threads + Wait + Abort + Sync>(
        &mut self,
        rt: &R,
        alloc: Global,
        played: &Played<'_, N, W>,
    ) {
        let steps = played.steps;
        let passes = (pass_of(steps, 0), pass_of(steps, 1), pass_of(steps, 2));
        if let (Some(first), Some(second), Some(third)) = passes {
            let gate = Runs {
                order: played.order,
                passes: [first, second, third],
            };
            let (desk, seat) = (played.desk, &mut self.seat);
            let answer = export(rt, alloc, desk, seat, RANGE, 3, &gate, usize::MAX);
            self.note(rt, 0, Answer::Export(answer));
        }
    }
}
