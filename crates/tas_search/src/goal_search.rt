//! The search for a goal.

ghost use Rattle.std.specs.Prelude.{IfOk, IfErr};
ghost use Rattle.tas_search.specs.GoalAnswer.{IsGoalAnswer};
ghost use Rattle.tas_search.specs.Outcome.{outcome_of};
ghost use Rattle.tas_search.specs.Logs.{log_bytes};
ghost use Rattle.tas_search.specs.Reported.{IsReported, StopsReporting};

use crate::extremes::{Aim, find_extreme};
use crate::goal::{Goal, GoalKind};
use crate::limits::Limits;
use crate::logs::Unfinished;
use crate::searching::{Found, find_shortest};
use crate::space::Space;
use std::alloc::Allocator;
use std::io::Write;
use std::thread::Threads;
use std::time::Clock;

/// Searches a space for what a goal asks for: the shortest sequence of at most `limits.count` choices after which its expression isn't 0,
/// or the sequence of exactly as many choices after which its value is greatest, or least. At most `limits.states` different states of one
/// number of choices are kept.
///
/// What is found and reported is what [`find_shortest`] and [`find_extreme`] say of it. `Err`: out of memory, or a line wasn't written whole.
pub fn find_goal<
    R: Threads + Clock + Sync,
    A: Allocator + Copy + Send + Sync,
    C: Allocator + Sync,
    G: Allocator,
    E: Write,
    P: Write,
>(
    rt: &R,
    alloc: A,
    space: &Space<'_, C>,
    goal: &Goal<G>,
    limits: Limits,
    errors: &mut E,
    report: &mut P,
) -> Result<Found<A>, Unfinished>
    // Refused: most_searches_for_the_least.
    ensures found { IfOk result (λ found. IsGoalAnswer space.now goal.now.kind goal.now.formula
        limits.count limits.states (outcome_of found)) }
    ensures reported { IfOk result (λ found. IsReported space.now limits.count (outcome_of found)
        (log_bytes (E.contents errors.old) (P.contents report.old))
        (log_bytes (E.contents errors.new) (P.contents report.new))) }
    ensures cut { IfErr result (λ why. StopsReporting space.now limits.count limits.states why
        (log_bytes (E.contents errors.old) (P.contents report.old))
        (log_bytes (E.contents errors.new) (P.contents report.new))) }
{
    let formula = &goal.formula;
    match goal.kind {
        GoalKind::Reach => find_shortest(rt, alloc, space, formula, limits, errors, report),
        GoalKind::Most => find_extreme(
            rt,
            alloc,
            space,
            Aim::Most,
            formula,
            limits,
            errors,
            report,
        ),
        GoalKind::Least => find_extreme(
            rt,
            alloc,
            space,
            Aim::Least,
            formula,
            limits,
            errors,
            report,
        ),
    }
}
