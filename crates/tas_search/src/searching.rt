//! The search for the shortest sequence.

ghost use Rattle.std.specs.Prelude.{◌≡◌, IfOk, IfErr};
ghost use Rattle.std.specs.List.{position};
ghost use Rattle.tas_search.specs.Best.{IsReachAnswer};
ghost use Rattle.tas_search.specs.Goal.{holds_of};
ghost use Rattle.tas_search.specs.Outcome.{outcome_of};
ghost use Rattle.tas_search.specs.Logs.{log_bytes};
ghost use Rattle.tas_search.specs.Reported.{IsReported, StopsReporting};

use crate::arrival::Arrival;
use crate::frontier::{first_frontier, step};
use crate::limits::Limits;
use crate::logs::Unfinished;
use crate::measure::{Measure, holds};
use crate::parents::path;
use crate::space::Space;
use std::alloc::{Allocator, Global};
use std::io::Write;
use std::thread::Threads;
use std::time::Clock;

/// What a search found. [`find_shortest`] and [`find_extreme`](crate::find_extreme) say what each means for them.
#[derive(Drop)]
pub enum Found<A: Allocator = Global> {
    /// The sequence that was sought: the numbers of its choices, in order.
    Best(Vec<usize, A>),
    /// There is no such sequence.
    Nothing,
    /// The search stopped: sequences of this many choices reach more states than may be kept, and those of fewer don't.
    Stopped(usize),
}

/// The place of the first arrival whose state meets the goal.
fn first_meeting<M: Measure>(goal: &M, layer: &[Arrival]) -> Option<usize>
    ensures { result ≡ position (λ a. holds_of (M.value goal.now) a.state) layer.now }
{
    layer.iter().position(|arrival| holds(goal, &arrival.state))
}

/// Searches a space, breadth first, for the shortest sequence of at most `limits.count` choices after which the goal holds,
/// that is its number isn't 0; of those of its length, for the first in the order of the choices. Writes a line for each layer
/// that was searched whole.
///
/// `Nothing`: there is none. `Stopped(k)`: sequences of `k` choices reach more than `limits.states` different states, those of
/// fewer don't, and after none of fewer does the goal hold. `Err`: out of memory, or a line wasn't written whole.
pub fn find_shortest<
    R: Threads + Clock + Sync,
    M: Measure,
    A: Allocator + Copy + Send + Sync,
    C: Allocator + Sync,
    E: Write,
    P: Write,
>(
    rt: &R,
    alloc: A,
    space: &Space<'_, C>,
    goal: &M,
    limits: Limits,
    errors: &mut E,
    report: &mut P,
) -> Result<Found<A>, Unfinished>
    // A search for the shortest sequence ends with one of three answers, and no other one meets this clause
    // (`one_answer_per_search`), so it is the same whatever the number of workers. The sequence
    // that it returns is of the space and of at most `count` choices; the machine after it meets the goal; no sequence of
    // fewer choices meets it, and of those with as many that do it is the first in the order of the choices. `Nothing`:
    // no sequence of at most `count` choices meets it. `Stopped`: none of fewer choices than it says meets it, and this
    // is the least number of choices whose sequences reach more than `states` different machines. So the other two come
    // only where no number of choices up to the answer's, or up to `count`, reaches more.
    // Refused: goal_is_not_looked_at_before_the_first_choice, stop_is_reported_as_none, stop_names_the_layer_before,
    // layer_over_the_limit_is_kept, search_ends_one_choice_early, goal_is_looked_at_one_choice_late.
    ensures found { IfOk result (λ found. IsReachAnswer space.now (holds_of (M.value goal.now))
        limits.count limits.states (outcome_of found)) }
    // Both writers get the line of each layer that was searched, with its numbers, in order; only how long it took is the
    // clock's to say. Where the search isn't finished, they have the lines of layers to which it can come, and with
    // `Report` a line is cut off: one of the two writers hasn't the whole of it.
    // Refused: none, a line that is left out or of another layer is refused at `step`.
    ensures reported { IfOk result (λ found. IsReported space.now limits.count (outcome_of found)
        (log_bytes (E.contents errors.old) (P.contents report.old))
        (log_bytes (E.contents errors.new) (P.contents report.new))) }
    ensures cut { IfErr result (λ why. StopsReporting space.now limits.count limits.states why
        (log_bytes (E.contents errors.old) (P.contents report.old))
        (log_bytes (E.contents errors.new) (P.contents report.new))) }
{
    if holds(goal, &space.start().pack()) {
        return Ok(Found::Best(Vec::new(alloc)));
    }
    let mut frontier = first_frontier(alloc, space)?;
    for depth in 0..limits.count {
        if !step(rt, alloc, space, &mut frontier, limits, errors, report)? {
            return Ok(Found::Stopped(depth + 1));
        }
        if let Some(i) = first_meeting(goal, frontier.layer.as_slice()) {
            let last = frontier.layer.as_slice()[i].step;
            let choices = path(alloc, &frontier.parents, frontier.depth, last)?;
            return Ok(Found::Best(choices));
        }
        if frontier.layer.is_empty() {
            return Ok(Found::Nothing);
        }
    }
    Ok(Found::Nothing)
}
