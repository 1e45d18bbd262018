//! The search for the greatest or the least value.

ghost use Rattle.std.specs.Prelude.{◌≡◌, IfOk, IfErr, MatchOption, length};
ghost use Rattle.tas_search.specs.Extreme.{IsExtremeAnswer};
ghost use Rattle.tas_search.specs.Goal.{value_in};
ghost use Rattle.tas_search.specs.Outcome.{outcome_of};
ghost use Rattle.tas_search.specs.Logs.{log_bytes};
ghost use Rattle.tas_search.specs.Reported.{IsReported, StopsReporting};
ghost use Rattle.tas_search.specs.Inside.Extremes.{IsExtremeAt, beats};

use crate::arrival::Arrival;
use crate::frontier::{first_frontier, step};
use crate::limits::Limits;
use crate::logs::Unfinished;
use crate::measure::{Measure, value_in};
use crate::parents::path;
use crate::searching::Found;
use crate::space::Space;
use std::alloc::Allocator;
use std::io::Write;
use std::thread::Threads;
use std::time::Clock;

/// Which value is the best one.
#[derive(Clone, Copy, Debug, PartialEq, Eq)]
pub enum Aim {
    /// The greatest.
    Most,
    /// The least.
    Least,
}

/// Whether a value is better than another one.
fn beats(aim: Aim, a: i64, b: i64) -> bool
    ensures { result ≡ beats aim a b }
{
    match aim {
        Aim::Most => b < a,
        Aim::Least => a < b,
    }
}

/// The place of the first of the arrivals with the best value, if there is an arrival.
fn best_place<M: Measure>(aim: Aim, measure: &M, layer: &[Arrival]) -> Option<usize>
    ensures { MatchOption result (length layer.now ≡ 0)
        (IsExtremeAt aim (value_in (M.value measure.now)) layer.now) }
{
    let mut best = 0;
    let mut value = value_in(measure, &layer.first()?.state);
    for (i, arrival) in layer.iter().enumerate() {
        let other = value_in(measure, &arrival.state);
        if beats(aim, other, value) {
            best = i;
            value = other;
        }
    }
    Some(best)
}

/// Searches a space, breadth first, for the sequence of exactly `limits.count` choices whose state has the best value; of
/// those with this value, for the first in the order of the choices. Writes a line for each layer that was searched whole.
///
/// `Nothing`: each sequence of as many choices halts before its last one, or there are no choices. `Stopped(k)`:
/// sequences of `k` choices, `limits.count` at most, reach more than `limits.states` different states, and those of fewer
/// don't. `Err`: out of memory, or a line wasn't written whole.
pub fn find_extreme<
    R: Threads + Clock + Sync,
    M: Measure,
    A: Allocator + Copy + Send + Sync,
    C: Allocator + Sync,
    E: Write,
    P: Write,
>(
    rt: &R,
    alloc: A,
    space: &Space<'_, C>,
    aim: Aim,
    measure: &M,
    limits: Limits,
    errors: &mut E,
    report: &mut P,
) -> Result<Found<A>, Unfinished>
    // A search for the greatest or the least value returns the sequence of exactly `count` choices whose machine has
    // the best value, and of those with that value the first. `Nothing`: each sequence of as many choices halts before
    // its end. `Stopped`: the least number of choices, `count` at most, whose sequences reach more than `states`
    // different machines; the other two come only where there is no such number.
    // Refused: later_of_equal_values_wins, last_of_equally_low_values_wins.
    ensures found { IfOk result (λ found. IsExtremeAnswer space.now aim (value_in (M.value measure.now))
        limits.count limits.states (outcome_of found)) }
    // Both writers get the line of each layer that was searched, as from `find_shortest`.
    // Refused: none, its lines are written by the same code.
    ensures reported { IfOk result (λ found. IsReported space.now limits.count (outcome_of found)
        (log_bytes (E.contents errors.old) (P.contents report.old))
        (log_bytes (E.contents errors.new) (P.contents report.new))) }
    ensures cut { IfErr result (λ why. StopsReporting space.now limits.count limits.states why
        (log_bytes (E.contents errors.old) (P.contents report.old))
        (log_bytes (E.contents errors.new) (P.contents report.new))) }
{
    let mut frontier = first_frontier(alloc, space)?;
    for depth in 0..limits.count {
        if !step(rt, alloc, space, &mut frontier, limits, errors, report)? {
            return Ok(Found::Stopped(depth + 1));
        }
        if frontier.layer.is_empty() {
            return Ok(Found::Nothing);
        }
    }
    match best_place(aim, measure, frontier.layer.as_slice()) {
        None => Ok(Found::Nothing),
        Some(i) => {
            let last = frontier.layer.as_slice()[i].step;
            let choices = path(alloc, &frontier.parents, frontier.depth, last)?;
            Ok(Found::Best(choices))
        }
    }
}
