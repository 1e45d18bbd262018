//! The frontier of a search: its present layer, and the parent links to it.

ghost use Rattle.std.specs.Prelude.{◌≡◌, ◌+◌, ◌^◌, ◌<◌, true, false, length, IfOk, IfSome, IfNone, IfErr};
ghost use Rattle.tas_search.specs.Best.{ReachMoreThan};
ghost use Rattle.tas_search.specs.Logs.{log_bytes};
ghost use Rattle.tas_search.specs.Reported.{HasLine, LeavesLayer};
ghost use Rattle.tas_search.specs.declared.logs.Unfinished.TheVariants.{Report as Unwritten};
ghost use Rattle.tas_search.specs.Inside.Arrivals.{IsFrontier};
ghost use Rattle.tas_search.specs.Inside.Counts.{AreCounts, nanos_between};

use crate::arrival::{Arrival, Layer, Step};
use crate::counting::{LayerCounts, count_layer, layer_text};
use crate::growing::grow;
use crate::limits::Limits;
use crate::logs::{Unfinished, write_line};
use crate::parents::keep_steps;
use crate::space::Space;
use indexmap::IndexSet;
use std::alloc::{AllocError, Allocator};
use std::io::Write;
use std::thread::Threads;
use std::time::{Clock, Instant};

/// The frontier of a search: a layer, and the parent links to it.
#[derive(Drop)]
pub(crate) struct Frontier<A: Allocator> {
    /// How many choices lead to the layer.
    pub depth: usize,
    /// Where its steps begin among the parent links.
    pub place: usize,
    /// The steps of all arrivals so far.
    pub parents: Vec<Step, A>,
    /// The arrivals of the layer.
    pub layer: Layer<A>,
}

/// The frontier of the empty sequence: the start alone.
pub(crate) fn first_frontier<A: Allocator + Copy, C: Allocator>(
    alloc: A,
    space: &Space<'_, C>,
) -> Result<Frontier<A>, AllocError>
    ensures frontier { IfOk result (λ frontier. IsFrontier space.now frontier.depth frontier.place
        frontier.parents.items frontier.layer.keys) }
    ensures depth { IfOk result (λ frontier. frontier.depth ≡ 0) }
{
    let root = Arrival {
        state: space.start().pack(),
        step: Step {
            parent: 0,
            choice: 0,
        },
    };
    let mut parents = Vec::new(alloc);
    parents.push(root.step)?;
    let mut layer = IndexSet::new(alloc);
    layer.insert(root)?;
    Ok(Frontier {
        depth: 0,
        place: 0,
        parents,
        layer,
    })
}

/// Moves the frontier on by one choice, and returns the numbers of the new layer; `None` where it has more states than the limit.
fn advance<R: Threads + Sync, A: Allocator + Copy + Send + Sync, C: Allocator + Sync>(
    rt: &R,
    alloc: A,
    space: &Space<'_, C>,
    frontier: &mut Frontier<A>,
    limits: Limits,
) -> Result<Option<LayerCounts>, AllocError>
    requires frontier { IsFrontier space.now frontier.old.depth frontier.old.place
        frontier.old.parents.items frontier.old.layer.keys }
    requires depth { frontier.old.depth + 1 < 2 ^ 64 }
    // Refused: steps_point_one_place_back.
    ensures moved { IfOk result (λ moved. IfSome moved (λ counts. IsFrontier space.now
        frontier.new.depth frontier.new.place frontier.new.parents.items frontier.new.layer.keys)) }
    ensures depth { IfOk result
        (λ moved. IfSome moved (λ counts. frontier.new.depth ≡ frontier.old.depth + 1)) }
    ensures fits { IfOk result (λ moved. IfSome moved
        (λ counts. ReachMoreThan space.now frontier.new.depth limits.states → ⊥)) }
    ensures over { IfOk result
        (λ moved. IfNone moved (ReachMoreThan space.now (frontier.old.depth + 1) limits.states)) }
    // The numbers of a layer are those of the definitions, whatever the number of workers.
    // Refused: states_of_the_layer_before_are_counted, halted_states_go_on_in_the_counts,
    // all_choices_go_on_from_the_start.
    ensures counts { IfOk result (λ moved. IfSome moved (AreCounts space.now frontier.new.depth)) }
{
    let end = frontier.parents.len();
    let before = frontier.layer.as_slice();
    let grown = match grow(rt, alloc, space, before, frontier.place, limits)? {
        None => return Ok(None),
        Some(grown) => grown,
    };
    let states = grown.layer.len();
    let counts = count_layer(space, frontier.depth, before, states, grown.tried, end)?;
    keep_steps(grown.layer.as_slice(), &mut frontier.parents)?;
    frontier.place = end;
    frontier.depth += 1;
    frontier.layer = grown.layer;
    Ok(Some(counts))
}

/// How many nanoseconds are between two readings of the clock; 0 where one of them failed, and where the clock went back.
fn nanos_between(start: Option<Instant>, end: Option<Instant>) -> u128
    // Refused: layers_take_no_time.
    ensures { result ≡ nanos_between start end }
{
    let (Some(start), Some(end)) = (start, end) else {
        return 0;
    };
    end.duration_since(start).as_nanos()
}

/// Moves the frontier on by one choice, and reports the new layer; `false` where it has more states than the limit.
pub(crate) fn step<
    R: Threads + Clock + Sync,
    A: Allocator + Copy + Send + Sync,
    C: Allocator + Sync,
    E: Write,
    P: Write,
>(
    rt: &R,
    alloc: A,
    space: &Space<'_, C>,
    frontier: &mut Frontier<A>,
    limits: Limits,
    errors: &mut E,
    report: &mut P,
) -> Result<bool, Unfinished>
    requires frontier { IsFrontier space.now frontier.old.depth frontier.old.place
        frontier.old.parents.items frontier.old.layer.keys }
    requires depth { frontier.old.depth + 1 < 2 ^ 64 }
    ensures moved { IfOk result (λ moved. moved ≡ true → IsFrontier space.now frontier.new.depth
        frontier.new.place frontier.new.parents.items frontier.new.layer.keys) }
    ensures depth { IfOk result
        (λ moved. moved ≡ true → frontier.new.depth ≡ frontier.old.depth + 1) }
    ensures fits { IfOk result
        (λ moved. moved ≡ true → ReachMoreThan space.now frontier.new.depth limits.states → ⊥) }
    ensures over { IfOk result
        (λ moved. moved ≡ false → ReachMoreThan space.now (frontier.old.depth + 1) limits.states) }
    // A layer that was searched whole is reported, and no other.
    // Refused: line_names_the_layer_before, line_is_left_out.
    ensures line { IfOk result (λ moved. moved ≡ true
        → HasLine space.now (frontier.old.depth + 1) (log_bytes (E.contents errors.old) (P.contents report.old))
        (log_bytes (E.contents errors.new) (P.contents report.new))) }
    ensures none { IfOk result (λ moved. moved ≡ false → (log_bytes (E.contents errors.new) (P.contents report.new))
        ≡ (log_bytes (E.contents errors.old) (P.contents report.old))) }
    // `Report` comes only where the layer's line isn't whole in both.
    // Refused: none, it is what `write_line` says.
    ensures cut { IfErr result (λ why. LeavesLayer space.now (frontier.old.depth + 1) why
        (log_bytes (E.contents errors.old) (P.contents report.old))
        (log_bytes (E.contents errors.new) (P.contents report.new))) }
    ensures kept { IfErr result
        (λ why. why ≡ Unwritten → ReachMoreThan space.now (frontier.old.depth + 1) limits.states → ⊥) }
{
    let start = Instant::now(rt).ok();
    let Some(counts) = advance(rt, alloc, space, frontier, limits)? else {
        return Ok(false);
    };
    let nanos = nanos_between(start, Instant::now(rt).ok());
    let line = layer_text(alloc, space.hold(), frontier.depth, counts, nanos)?;
    write_line(errors, report, line.as_slice())?;
    Ok(true)
}
