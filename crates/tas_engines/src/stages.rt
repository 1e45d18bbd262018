//! The hunks of a difference, one after the other.
//!
//! A hunk ends at the nearest four runs in a row that both movies have: those with the fewest runs before them in the
//! two together, fewer than 512. A search over all pairs of its runs would take the square of its length. A longer hunk
//! ends at a stretch that occurs once in both movies, as in patience diff. A shortest script would need a table of both
//! lengths, or a search that grows with the number of differing frames.

ghost use Rattle.std.specs.Prelude.{◌≡◌, ◌≤◌, ◌-◌, ◌+◌, length, IfOk};
ghost use Rattle.tas_movie.specs.Content.{most_inputs};
ghost use Rattle.tas_movie.specs.Runs.{runs_of};
ghost use Rattle.tas_engines.specs.Hunks.{HasRoom, IsNextStep, lengths_at};

use crate::alike::{Lengths, common_runs, frames_of, next_alike};
use crate::anchors::Anchor;
use crate::comparing::Gap;
use std::alloc::{AllocError, Allocator};
use tas_movie::{FrameRun, run_length};
use vcs_machine::Input;

/// How many runs of each list are done, and the gap that is left.
#[derive(Clone, Copy)]
pub(crate) struct Stage {
    pub(crate) runs: Anchor,
    pub(crate) gap: Gap,
}

/// A hunk, and the stage after the runs that stay after it.
#[derive(Clone, Copy)]
pub(crate) struct Step {
    pub(crate) hunk: Gap,
    pub(crate) after: Stage,
}

/// The runs of these inputs.
pub(crate) fn runs_in<A: Allocator>(
    alloc: A,
    inputs: &[Input],
) -> Result<Vec<FrameRun, A>, AllocError>
    ensures { IfOk result (λ runs. runs.items ≡ runs_of inputs.now) }
{
    let mut runs = Vec::new(alloc);
    let mut at = 0;
    while at < inputs.len() {
        let input = inputs[at];
        let count = 1 + run_length(&inputs[at + 1..], input);
        runs.push(FrameRun { input, count })?;
        at += count;
    }
    Ok(runs)
}

/// The next hunk, where `old` and `new` are the runs that are left and the old movie has `len` frames. `far` is a place, at any distance,
/// from which both may go on alike. `None` where they don't from there, nor from any place within reach.
pub(crate) fn next_step(
    old: &[FrameRun],
    new: &[FrameRun],
    len: usize,
    stage: Stage,
    far: Anchor,
) -> Option<Step>
    requires old_bound { stage.runs.old + length old.now ≤ most_inputs }
    requires new_bound { stage.runs.new + length new.now ≤ most_inputs }
    requires gap_old { stage.gap.old ≤ len }
    requires len_bound { len ≤ most_inputs }
    requires room { HasRoom old.now new.now (lengths_at len stage) }
    ensures { IsNextStep old.now new.now len stage result }
{
    let Gap {
        old: gone,
        new: made,
        ..
    } = stage.gap;
    let left = len - gone;
    let at = match next_alike(old, new, far, Lengths { made, left }) {
        Some(at) => at,
        None => return None,
    };
    let old_end = gone + frames_of(&old[..at.old]);
    let new_end = made + frames_of(&new[..at.new]);
    let same = common_runs(&old[at.old..], &new[at.new..]);
    let stays = frames_of(&old[at.old..at.old + same]);
    Some(Step {
        hunk: Gap {
            old: gone,
            old_end,
            new: made,
            new_end,
        },
        after: Stage {
            runs: Anchor {
                old: stage.runs.old + at.old + same,
                new: stage.runs.new + at.new + same,
            },
            gap: Gap {
                old: old_end + stays,
                old_end: stage.gap.old_end,
                new: new_end + stays,
                new_end: stage.gap.new_end,
            },
        },
    })
}
