//! Runs of one call with one growth refused.

ghost use Rattle.std.specs.Prelude.{◌≤◌};

use crate::checks::check_same;
use refusals::Refusing;
use std::alloc::Global;
use std::fmt::Debug;
use std::process::Abort;

/// The allocator that a call, a session or a desk gets.
pub type Heap = Refusing<Global>;

/// No call here grows so often.
pub const MOST: u64 = 100;

/// Nothing here grows so often.
pub const NEVER: u64 = 1_000_000_000;

/// Memory that refuses the growth with this number, counted from 1.
pub fn refusing(alloc: Global, number: u64) -> Heap {
    Refusing::new(alloc, number.max(1))
}

/// Counts anew: the growth with this number is refused from now on, counted from 1.
pub fn refuse(heap: &Heap, number: u64) {
    heap.refuse(number.max(1));
}

/// How a run ended.
#[derive(Clone, Copy, Debug, PartialEq, Eq)]
pub enum Run {
    /// A growth was refused, the call said so, all was as before it, and the same call was right then.
    Refused,
    /// The call grew less often, and was right.
    Done,
    /// Anything else, and what it was.
    Wrong(&'static str),
}

impl Run {
    /// How a run ended whose last call was right or not.
    pub fn ended(has_refused: bool, is_right: bool) -> Run {
        match (has_refused, is_right) {
            (true, true) => Run::Refused,
            (false, true) => Run::Done,
            (true, false) => Run::Wrong("wrong after the refusal"),
            (false, false) => Run::Wrong("wrong, and nothing was refused"),
        }
    }
}

/// A call that met the refusal didn't say so.
pub const NOT_TOLD: Run = Run::Wrong("the refusal isn't told");

/// Something isn't as it was before the call that met the refusal.
pub const NOT_AS_BEFORE: Run = Run::Wrong("not as before the refusal");

/// Whether nothing was refused in a run any more. The test fails where something was, and the run wasn't right; it shows the case then.
pub fn is_over<R: Abort, C: Copy + Debug>(rt: &R, case: C, run: Run) -> bool {
    let is_over = run == Run::Done;
    if !is_over {
        check_same(rt, ("growth", case), run, Run::Refused);
    }
    is_over
}

/// How many growths a call has: it is run with each of them refused in turn, up to the run that is over.
pub fn count_growths<F: Fn(u64) -> bool>(is_over: F) -> u64
    requires { F.IsAlwaysCallable is_over }
{
    for number in 1..MOST {
        if is_over(number) {
            return number - 1;
        }
    }
    MOST
}
