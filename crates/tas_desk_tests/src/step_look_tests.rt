//! Looks at a desk while another seat makes steps of two edits: nobody sees one edit of a step without the other.

ghost use Rattle.std.specs.Prelude.{◌≡◌};
ghost use Rattle.tas_desk.specs.Seats.{name_of};

use crate::changes::right;
use crate::checks::{check_same, check_that, expect_ok, expect_some};
use crate::gates::{Flag, MOST_TURNS};
use std::alloc::Global;
use std::marker::Brand;
use std::process::Abort;
use std::sync::Wait;
use std::sync::atomic::{AtomicU64, Ordering};
use std::thread::{Threads, join_mut};
use tas_desk::{Desk, Name, Seat, Stroke, Unopened};
use tas_movie::{Edit, Inputs};

/// How many steps are made.
const STEPS: u64 = 500;

/// What both threads know of each other.
#[derive(Drop)]
struct Meeting {
    /// Set once there was a look.
    looked: Flag,
    /// 1 once all steps are made.
    over: AtomicU64,
}

/// A caller, and how many of its calls came out as they should, and otherwise.
#[derive(Drop)]
struct Caller<N: Name> {
    seat: Seat<N>,
    right: u64,
    wrong: u64,
}

impl<N: Name> Caller<N> {
    /// Counts a call.
    fn count(&mut self, is_right: bool) {
        if is_right {
            self.right = self.right.saturating_add(1);
        } else {
            self.wrong = self.wrong.saturating_add(1);
        }
    }

    /// Makes all steps once there was a look. Each takes the first of the movie's three inputs out, and puts one in.
    fn make_steps<R: Wait + Abort>(
        &mut self,
        rt: &R,
        alloc: Global,
        desk: &Desk<N, &R>,
        meeting: &Meeting,
    ) {
        meeting.looked.wait();
        for step in 0..STEPS {
            let inputs = expect_ok(rt, Inputs::repeated(alloc, right(), 1));
            let stroke = Stroke::Two(
                Edit::Delete { at: 0, count: 1 },
                Edit::Insert { at: 0, inputs },
            );
            let made = desk.commit(rt, &mut self.seat, 1 + 2 * step, stroke);
            self.count(made.is_ok());
        }
        meeting.over.store(1, Ordering::SeqCst);
    }

    /// Looks until all steps are made: the movie has none of the inputs yet, or always three, by one edit and some steps.
    fn look<R: Wait>(&mut self, desk: &Desk<N, &R>, meeting: &Meeting) {
        for _turn in 0..MOST_TURNS {
            let is_over = meeting.over.load(Ordering::SeqCst) == 1;
            if let Ok((at, len)) = desk.len(&mut self.seat) {
                self.count(at == 0 && len == 0 || at % 2 == 1 && len == 3);
            }
            meeting.looked.set();
            if is_over {
                return;
            }
        }
    }
}

/// A caller at each seat.
fn callers<N: Name, R: Abort>(rt: &R, alloc: Global, seats: Vec<Seat<N>>) -> Vec<Caller<N>> {
    let mut callers = Vec::new(alloc);
    for seat in seats {
        let caller = Caller {
            seat,
            right: 0,
            wrong: 0,
        };
        expect_ok(rt, callers.push(caller));
    }
    callers
}

/// The first caller makes its steps, beside the looks of the second one.
fn look_beside_steps<N: Name + Send + Sync, R: Threads + Wait + Abort + Sync>(
    rt: &R,
    alloc: Global,
    desk: &Desk<N, &R>,
    meeting: &Meeting,
    callers: &mut [Caller<N>],
) {
    let Some((maker, others)) = callers.split_first_mut() else {
        return;
    };
    let Some(looker) = others.first_mut() else {
        return;
    };
    join_mut(
        rt,
        &mut || maker.make_steps(rt, alloc, desk, meeting),
        &mut || looker.look(desk, meeting),
    );
}

/// All steps were made, and there was a look, none of them at half a step.
fn check_callers<N: Name, R: Abort>(rt: &R, callers: &[Caller<N>]) {
    check_same(rt, "callers", callers.len(), 2);
    for (number, caller) in callers.iter().enumerate() {
        check_same(rt, ("wrong", number), caller.wrong, 0);
        check_that(rt, ("right", number), caller.right > 0);
        check_that(rt, ("steps", number), number != 0 || caller.right == STEPS);
    }
}

/// A desk of two seats with a movie of three inputs, which the first caller's steps leave at three.
fn run_at<N: Name + Send + Sync, R: Threads + Wait + Abort + Sync>(
    rt: &R,
    alloc: Global,
    unopened: Unopened,
)
    requires name { unopened ≡ name_of N.registry N.name N.parts }
{
    let (desk, mut seats) = expect_ok(rt, Desk::<N, &R>::open(rt, alloc, unopened));
    let inputs = expect_ok(rt, Inputs::repeated(alloc, right(), 3));
    let first = Edit::Insert { at: 0, inputs };
    let seat = expect_some(rt, seats.first_mut());
    expect_ok(rt, desk.edit(rt, seat, first));
    let mut callers = callers(rt, alloc, seats);
    let meeting = Meeting {
        looked: Flag::new(),
        over: AtomicU64::new(0),
    };
    look_beside_steps(rt, alloc, &desk, &meeting, callers.as_mut_slice());
    check_callers(rt, callers.as_slice());
}

/// The same under a name.
fn run<R: Threads + Wait + Abort + Sync>(rt: &R, alloc: Global) {
    let unopened = expect_ok(rt, Unopened::new(alloc, 2));
    run_at::<Brand, R>(rt, alloc, unopened);
}

#[test]
fn nobody_sees_half_a_step(rt: HostRuntime) {
    run(&rt, rt.alloc());
}
