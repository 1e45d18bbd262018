//! The next layer.
//!
//! A layer is an `IndexSet` of states in the order in which they were found, compared by `==` (`Arrival`). A state takes 200
//! bytes there (`PackedState`), and 16 more for the last step to it. Its states are found in the order of the first
//! sequences to them, since those of the layer before are: so the first state that meets the goal has the first sequence.
//! The proofs see layers as lists (`specs/Inside/Layers.antt`); the definitions of the answers don't name them.
//!
//! Workers play stretches of the layer before, each worker one at a time, and put what they reach into sets of their own; one
//! thread puts these into the next layer, in order, so that the layer is the same whatever the workers. Some thousand choices
//! are played at a time by each worker, so the sets take little beside the layers; the limit of states is compared after
//! each set. A layer without states ends the search.

ghost use Rattle.std.specs.Prelude.{◌≡◌, ◌+◌, ◌^◌, ◌<◌, ◌≤◌, [], length, true, false, OnOk, IfOk, IfSome, MatchOption};
ghost use Rattle.indexmap.specs.IndexSet.{insert_all};
ghost use Rattle.tas_search.specs.Inside.Arrivals.{
  are_same_arrivals,
  grown_arrivals,
  tried_of,
  AreParts,
  Finds,
  GrowsBy,
  TakesParts,
  IsOver,
};

use crate::arrival::{Arrival, Layer, insert_each};
use crate::limits::{Limits, MAX_WORKERS};
use crate::reaching::{Part, reach};
use crate::space::Space;
use indexmap::IndexSet;
use std::alloc::{AllocError, Allocator};
use std::thread::{Threads, map_chunks};

/// How many choices a worker plays at a time, about.
const CHOICES_AT_A_TIME: usize = 4_096;

/// A layer, and how many choices were played for it.
#[derive(Drop)]
pub(crate) struct Grown<A: Allocator> {
    /// The arrivals.
    pub layer: Layer<A>,
    /// How many choices were played.
    pub tried: usize,
}

/// Puts what a worker reached into a layer.
fn take_part<A: Allocator>(part: &Part<A>, grown: &mut Grown<A>) -> Result<(), AllocError>
    ensures whole { OnOk result (part.now.whole ≡ true) }
    ensures keys { OnOk result (grown.new.layer.keys
        ≡ insert_all are_same_arrivals grown.old.layer.keys part.now.found.keys) }
    ensures tried { OnOk result (grown.new.tried ≡ grown.old.tried + part.now.tried) }
{
    if !part.whole {
        return Err(AllocError);
    }
    insert_each(part.found.as_slice(), &mut grown.layer)?;
    grown.tried = grown.tried.checked_add(part.tried).ok_or(AllocError)?;
    Ok(())
}

/// Puts what workers reached from the stretches of a block into a layer, in order; `false` once it has more than `most` states.
fn take_parts<A: Allocator>(
    parts: &[Part<A>],
    grown: &mut Grown<A>,
    most: usize,
) -> Result<bool, AllocError>
    requires { length grown.old.layer.keys ≤ most }
    ensures { IfOk result (λ fits. TakesParts parts.now grown.old.layer.keys grown.old.tried
        grown.new.layer.keys grown.new.tried most fits) }
{
    for part in parts {
        take_part(part, grown)?;
        if grown.layer.len() > most {
            return Ok(false);
        }
    }
    Ok(true)
}

/// What workers reach from a block of a layer, whose first step is at this place of the parent links: a part for each stretch of this
/// many arrivals.
fn play_parts<R: Threads + Sync, A: Allocator + Copy + Send + Sync, C: Allocator + Sync>(
    rt: &R,
    alloc: A,
    space: &Space<'_, C>,
    block: &[Arrival],
    place: usize,
    stretch: usize,
) -> Result<Vec<Part<A>, A>, AllocError>
    requires place { place + length block.now < 2 ^ 64 }
    requires stretch { 0 < stretch }
    ensures { IfOk result (λ parts. AreParts space.now place stretch block.now parts.items) }
{
    let play = move |start: usize, part: &[Arrival]| -> Part<A>
        requires { place + start + length part.now < 2 ^ 64 }
        ensures { result.whole ≡ true
            → Finds space.entry.now (place + start) part.entry.now result.found.keys result.tried }
    { reach(alloc, space, part, place + start) };
    let parts = map_chunks(rt, alloc, block, stretch, &play)?;
    Ok(parts)
}

/// Puts what a block of a layer reaches into the next layer; `false` once that has more states than the limit.
fn grow_block<R: Threads + Sync, A: Allocator + Copy + Send + Sync, C: Allocator + Sync>(
    rt: &R,
    alloc: A,
    space: &Space<'_, C>,
    block: &[Arrival],
    place: usize,
    limits: Limits,
    grown: &mut Grown<A>,
) -> Result<bool, AllocError>
    requires place { place + length block.now < 2 ^ 64 }
    requires fits { length grown.old.layer.keys ≤ limits.states }
    ensures { IfOk result (λ fits. GrowsBy space.now place block.now grown.old.layer.keys grown.old.tried
        grown.new.layer.keys grown.new.tried limits.states fits) }
{
    let workers = limits.workers.clamp(1, MAX_WORKERS);
    let stretch = block.len().div_ceil(workers).max(1);
    let parts = play_parts(rt, alloc, space, block, place, stretch)?;
    let fits = take_parts(parts.as_slice(), grown, limits.states)?;
    Ok(fits)
}

/// How many states are played at a time.
fn block_size(choices: usize, workers: usize) -> usize
    ensures { 0 < result }
{
    let each = (CHOICES_AT_A_TIME / choices.max(1)).max(1);
    each * workers.clamp(1, MAX_WORKERS)
}

/// The layer after a layer, whose steps are the parent links from `place` on, unless it has more states than the limit.
pub(crate) fn grow<R: Threads + Sync, A: Allocator + Copy + Send + Sync, C: Allocator + Sync>(
    rt: &R,
    alloc: A,
    space: &Space<'_, C>,
    layer: &[Arrival],
    place: usize,
    limits: Limits,
) -> Result<Option<Grown<A>>, AllocError>
    requires { place + length layer.now < 2 ^ 64 }
    // The layer after a layer has what each choice reaches from each of its states, in this order, each state
    // once; halted states reach nothing. After the start the choices are those of the part, after any other state they are
    // all. So each machine that sequences of a length reach is in the layer of that length, with the first of these
    // sequences, whatever the number of workers.
    // Refused: last_state_of_a_layer_is_left_out, last_choice_is_left_out, first_choice_stands_for_all,
    // halted_state_goes_on, limit_is_one_state_too_small, part_of_a_worker_is_lost, later_part_is_put_in_first,
    // refused_part_is_taken_for_whole, last_first_choice_is_left_out, first_choices_are_all_choices,
    // later_choices_are_those_of_the_part, first_of_all_choices_stands_for_the_part, first_state_of_a_worker_is_lost.
    ensures layer { IfOk result (λ grown. MatchOption grown (IsOver space.now layer.now place limits.states)
        (λ next. (next.layer.keys ≡ grown_arrivals space.now [] place layer.now)
        × (length next.layer.keys ≤ limits.states))) }
    // Each choice that is played is counted.
    // Refused: choices_of_the_last_part_alone_are_counted, one_choice_of_a_worker_is_counted.
    ensures tried { IfOk result (λ grown. IfSome grown (λ next. next.tried ≡ tried_of space.now place layer.now)) }
{
    let size = block_size(space.choice_count(), limits.workers);
    let mut grown = Grown {
        layer: IndexSet::new(alloc),
        tried: 0,
    };
    let mut at = 0;
    while at < layer.len() {
        let end = at + size.min(layer.len() - at);
        let block = &layer[at..end];
        let fits = grow_block(rt, alloc, space, block, place + at, limits, &mut grown)?;
        if !fits {
            return Ok(None);
        }
        at = end;
    }
    Ok(Some(grown))
}
