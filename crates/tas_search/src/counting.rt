//! The line of a layer.
//!
//! Memory is reckoned, not measured: what the states of two
//! layers and the links take, so that it is the same for each number of workers and on each machine; what is reserved beside them
//! isn't in it, nor the workers' lists. The rate is measured, and is the last number of the line, so that one command takes it off
//! and reports can be compared. The proofs say that it is the frames over some time; which time, the clock alone can say.

ghost use Rattle.std.specs.Prelude.{◌≡◌, ◌+◌, ◌*◌, ◌-◌, ◌++◌, IfOk, length, sum_by};
ghost use Rattle.tas_search.specs.LayerLines.{going_on, held_bytes, line_back, line_front, rate_of};

use crate::arrival::{Arrival, Step};
use crate::space::Space;
use std::alloc::{AllocError, Allocator};
use std::mem::size_of;
use vcs_machine::State;

/// What a layer's line says.
#[derive(Clone, Copy, Debug)]
pub(crate) struct LayerCounts {
    /// How many states it has.
    pub states: usize,
    /// How many choices that go on from the layer before lead to a state that was there already.
    pub merged: usize,
    /// How many frames were played for it.
    pub played: usize,
    /// How many bytes the search's states take then, and the links to them.
    pub bytes: usize,
}

/// How many bytes a state of a layer takes: itself and its step, and 24 for its hash and its place in the set. These are eight, and in a
/// large set its share of a table with 64 bytes for some five to nine states.
const STATE_BYTES: usize = size_of::<Arrival>() + 24;

/// How many bytes a link takes.
const LINK_BYTES: usize = size_of::<Step>();

/// How many choices go on from a state after `depth` choices: none where it is halted.
fn choices_from<C: Allocator>(space: &Space<'_, C>, depth: usize, state: &State) -> usize
    ensures { result ≡ going_on space.now depth state.now }
{
    if state.halted().is_some() {
        return 0;
    }
    space.count_at(depth)
}

/// How many choices go on from the layer after `depth` choices.
fn choices_after<C: Allocator>(
    space: &Space<'_, C>,
    depth: usize,
    layer: &[Arrival],
) -> Result<usize, AllocError>
    ensures { IfOk result
        (λ count. count ≡ sum_by (λ a. going_on space.now depth a.state) layer.now) }
{
    let mut sum: usize = 0;
    for arrival in layer {
        let more = choices_from(space, depth, &arrival.state.unpack());
        sum = sum.checked_add(more).ok_or(AllocError)?;
    }
    Ok(sum)
}

/// What the states of a layer, those of the one before it, and this many links take, in bytes.
fn held_bytes(before: usize, states: usize, links: usize) -> Result<usize, AllocError>
    // Refused: state_takes_its_packed_bytes_alone.
    ensures { IfOk result (λ bytes. bytes ≡ held_bytes before states links) }
{
    let both = before.checked_add(states).ok_or(AllocError)?;
    let layers = both.checked_mul(STATE_BYTES).ok_or(AllocError)?;
    let steps = links.checked_mul(LINK_BYTES).ok_or(AllocError)?;
    layers.checked_add(steps).ok_or(AllocError)
}

/// The numbers of a layer that has this many states, for which this many choices were played from the layer before, that of `depth` choices, where there were
/// this many links to all states up to that one. A number that no word of the machine holds is reported as out of memory; no search gets that far.
pub(crate) fn count_layer<C: Allocator>(
    space: &Space<'_, C>,
    depth: usize,
    before: &[Arrival],
    states: usize,
    tried: usize,
    links: usize,
) -> Result<LayerCounts, AllocError>
    // Refused: layer_before_takes_no_memory, links_of_the_layer_are_left_out.
    ensures { IfOk result (λ counts. counts ≡ record {
      states = states;
      merged = sum_by (λ a. going_on space.now depth a.state) before.now - states;
      played = tried * space.now.hold;
      bytes = held_bytes (length before.now) states (links + states);
    }) }
{
    let after = choices_after(space, depth, before)?;
    let played = tried.checked_mul(space.hold()).ok_or(AllocError)?;
    let all = links.checked_add(states).ok_or(AllocError)?;
    let bytes = held_bytes(before.len(), states, all)?;
    Ok(LayerCounts {
        states,
        merged: after.saturating_sub(states),
        played,
        bytes,
    })
}

/// How many of some frames are played in a second, where they took so many nanoseconds; 0 where no time has passed.
fn rate_of(frames: usize, nanos: u128) -> u128
    // Refused: frames_are_reported_by_the_millisecond.
    ensures { result ≡ rate_of frames nanos }
{
    if nanos == 0 {
        return 0;
    }
    let frames = frames as u128 * 1_000_000_000;
    frames / nanos
}

/// The first half of a layer's line.
fn front_text<A: Allocator>(
    alloc: A,
    depth: usize,
    frames: usize,
    states: usize,
) -> Result<Vec<u8, A>, AllocError>
    ensures { IfOk result (λ text. text.items ≡ line_front depth frames states) }
{
    Ok(format!(in alloc; "layer {depth}: {frames} frames, {states} states, ")?.into_bytes())
}

/// The second half of a layer's line.
fn back_text<A: Allocator>(
    alloc: A,
    merged: usize,
    played: usize,
    bytes: usize,
    rate: u128,
) -> Result<Vec<u8, A>, AllocError>
    ensures { IfOk result (λ text. text.items ≡ line_back merged played bytes rate) }
{
    Ok(format!(in alloc;
        "{merged} merged, {played} played, {bytes} bytes, {rate} frames a second\n"
    )?.into_bytes())
}

/// The line of a layer with these numbers, whose frames took so many nanoseconds.
fn line_text<A: Allocator + Copy>(
    alloc: A,
    depth: usize,
    frames: usize,
    counts: LayerCounts,
    nanos: u128,
) -> Result<Vec<u8, A>, AllocError>
    ensures { IfOk result (λ text. text.items ≡ line_front depth frames counts.states
        ++ line_back counts.merged counts.played counts.bytes (rate_of counts.played nanos)) }
{
    let mut text = front_text(alloc, depth, frames, counts.states)?;
    let rate = rate_of(counts.played, nanos);
    let back = back_text(alloc, counts.merged, counts.played, counts.bytes, rate)?;
    text.extend_from_slice(back.as_slice())?;
    Ok(text)
}

/// The line of a layer after this many choices, each held for `hold` frames, whose frames took so many nanoseconds.
pub(crate) fn layer_text<A: Allocator + Copy>(
    alloc: A,
    hold: usize,
    depth: usize,
    counts: LayerCounts,
    nanos: u128,
) -> Result<Vec<u8, A>, AllocError>
    ensures { IfOk result (λ text. text.items ≡ line_front depth (depth * hold) counts.states
        ++ line_back counts.merged counts.played counts.bytes (rate_of counts.played nanos)) }
{
    let frames = depth.checked_mul(hold).ok_or(AllocError)?;
    let text = line_text(alloc, depth, frames, counts, nanos)?;
    Ok(text)
}
