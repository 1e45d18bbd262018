//! What a worker reaches.
//!
//! A worker puts what it reaches into a set of its own, so that states which it reaches more than once are compared there, by all
//! workers at the same time, and the one thread that merges what they found has each state of a stretch once.
//!
//! A state's first choice is played with a look at what it reads (`play_for_lag`): where no frame of it reads the
//! input, the other choices lead to the same state, and aren't played.

ghost use Rattle.std.specs.Prelude.{◌≡◌, ◌+◌, ◌^◌, ◌<◌, length, true, IfOk, OnOk};
ghost use Rattle.tas_search.specs.Inside.Arrivals.{arrival_at, Finds, Lists, ListsOneMore};

use crate::arrival::{Arrival, Layer, Step, insert_each};
use crate::space::Space;
use indexmap::IndexSet;
use std::alloc::{AllocError, Allocator};
use vcs_machine::State;

/// What a worker reached from a stretch of a layer.
#[derive(Drop)]
pub(crate) struct Part<A: Allocator> {
    /// The arrivals, in the order in which they were found, no state twice.
    pub found: Layer<A>,
    /// How many choices were played.
    pub tried: usize,
    /// Whether these are all. Else memory was refused.
    pub whole: bool,
}

/// The arrival at a state by a choice, from the step at a place of the parent links.
fn arrival(state: State, place: usize, choice: usize) -> Arrival
    ensures { result ≡ arrival_at state place choice }
{
    Arrival {
        state: state.pack(),
        step: Step {
            parent: place,
            choice,
        },
    }
}

/// Appends what each choice reaches from a state, whose step is at this place of the parent links. Place 0 is that of the start, after which the
/// choices are those of the part. A halted state reaches nothing; where the first choice's frames are lag frames, the others reach the same and aren't
/// played.
fn push_next<A: Allocator, C: Allocator>(
    space: &Space<'_, C>,
    state: &State,
    place: usize,
    list: &mut Vec<Arrival, A>,
) -> Result<(), AllocError>
    ensures { OnOk result (ListsOneMore space.now state.now place list.old.items list.new.items) }
{
    let low = space.low_at(place);
    let count = space.count_at(place);
    if count == 0 || state.halted().is_some() {
        return Ok(());
    }
    let (first, alike) = space.after_choice_noted(state, low);
    list.push(arrival(first, place, low))?;
    if alike {
        return Ok(());
    }
    for more in 1..count {
        let choice = low + more;
        list.push(arrival(space.after_choice(state, choice), place, choice))?;
    }
    Ok(())
}

/// What a stretch of a layer reaches, whose first step is at this place of the parent links.
fn listed<A: Allocator, C: Allocator>(
    alloc: A,
    space: &Space<'_, C>,
    stretch: &[Arrival],
    place: usize,
) -> Result<Vec<Arrival, A>, AllocError>
    requires { place + length stretch.now < 2 ^ 64 }
    ensures { IfOk result (λ list. Lists space.now place stretch.now list.items) }
{
    let mut list = Vec::new(alloc);
    for (j, arrival) in stretch.iter().enumerate() {
        push_next(space, &arrival.state.unpack(), place + j, &mut list)?;
    }
    Ok(list)
}

/// What a stretch of a layer reaches, each state once.
fn found<A: Allocator + Copy, C: Allocator>(
    alloc: A,
    space: &Space<'_, C>,
    stretch: &[Arrival],
    place: usize,
) -> Result<Part<A>, AllocError>
    requires { place + length stretch.now < 2 ^ 64 }
    ensures whole { IfOk result (λ part. part.whole ≡ true) }
    ensures finds { IfOk result
        (λ part. Finds space.now place stretch.now part.found.keys part.tried) }
{
    let list = listed(alloc, space, stretch, place)?;
    let mut found = IndexSet::new(alloc);
    insert_each(list.as_slice(), &mut found)?;
    Ok(Part {
        found,
        tried: list.len(),
        whole: true,
    })
}

/// What a worker reaches from a stretch of a layer, whose first step is at this place of the parent links.
pub(crate) fn reach<A: Allocator + Copy, C: Allocator>(
    alloc: A,
    space: &Space<'_, C>,
    stretch: &[Arrival],
    place: usize,
) -> Part<A>
    requires { place + length stretch.now < 2 ^ 64 }
    ensures { result.whole ≡ true
        → Finds space.now place stretch.now result.found.keys result.tried }
{
    match found(alloc, space, stretch, place) {
        Ok(part) => part,
        Err(_) => Part {
            found: IndexSet::new(alloc),
            tried: 0,
            whole: false,
        },
    }
}
