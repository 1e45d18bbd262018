//! Where two lists of runs go on alike.

ghost use Rattle.std.specs.Prelude.{◌≡◌, ◌<◌, ◌≤◌, ◌↔◌, IsTrue, length};
ghost use Rattle.tas_movie.specs.Content.{most_inputs};
ghost use Rattle.tas_engines.specs.Differences.{frames, reach, GoOnAlike};
ghost use Rattle.tas_engines.specs.Hunks.{IsLongestFront, HasRoom, IsAt, IsNearest, IsNext};

use crate::anchors::Anchor;
use tas_movie::{FrameRun, MAX_FRAMES};

/// How many runs in a row are the same where both lists go on alike.
const ALIKE_RUNS: usize = 4;

/// Such a place is looked for only where fewer than this many runs of both lists together come before it.
const REACH: usize = 512;

/// What the movie has where the runs begin.
#[derive(Clone, Copy)]
pub(crate) struct Lengths {
    /// The frames before them.
    pub(crate) made: usize,
    /// The old frames from them on.
    pub(crate) left: usize,
}

/// Whether two runs are the same.
fn same_run(a: FrameRun, b: FrameRun) -> bool
    ensures { IsTrue result ↔ (a ≡ b) }
{
    a.count == b.count && a.input == b.input
}

/// How many runs are the same at the beginning of both lists.
pub(crate) fn common_runs(old: &[FrameRun], new: &[FrameRun]) -> usize
    ensures { IsLongestFront old.now new.now result }
{
    let mut same = 0;
    while same < old.len() && same < new.len() && same_run(old[same], new[same]) {
        same += 1;
    }
    same
}

/// How many frames these runs have.
pub(crate) fn frames_of(runs: &[FrameRun]) -> usize
    requires { frames runs.now ≤ most_inputs }
    ensures { result ≡ frames runs.now }
{
    let mut count = 0;
    for i in 0..runs.len() {
        count += runs[i].count;
    }
    count
}

/// Whether both lists go on alike from a place on, and the movie isn't too long with the new runs before it and the old
/// ones from it on.
fn go_on_alike(old: &[FrameRun], new: &[FrameRun], at: Anchor, lengths: Lengths) -> bool
    requires old_within { at.old ≤ length old.now }
    requires new_within { at.new ≤ length new.now }
    requires room { HasRoom old.now new.now lengths }
    ensures { IsTrue result ↔ GoOnAlike old.now new.now lengths.made lengths.left at.old at.new }
{
    if common_runs(&old[at.old..], &new[at.new..]) < ALIKE_RUNS {
        return false;
    }
    let made = lengths.made + frames_of(&new[..at.new]);
    let left = lengths.left - frames_of(&old[..at.old]);
    made + left <= MAX_FRAMES
}

/// A place from which both lists go on alike, with this many runs of the two before it.
fn alike_at(old: &[FrameRun], new: &[FrameRun], distance: usize, lengths: Lengths) -> Option<Anchor>
    requires near { distance < reach }
    requires room { HasRoom old.now new.now lengths }
    ensures { IsAt old.now new.now lengths distance result }
{
    let first = distance.saturating_sub(new.len());
    for i in first..distance.min(old.len()) + 1 {
        let at = Anchor {
            old: i,
            new: distance - i,
        };
        if go_on_alike(old, new, at, lengths) {
            return Some(at);
        }
    }
    None
}

/// The place nearest to the beginning from which both lists go on alike.
fn nearest(old: &[FrameRun], new: &[FrameRun], lengths: Lengths) -> Option<Anchor>
    requires { HasRoom old.now new.now lengths }
    ensures { IsNearest old.now new.now lengths result }
{
    let mut distance = 0;
    while distance < REACH && distance < old.len().saturating_add(new.len()) {
        let found = alike_at(old, new, distance, lengths);
        if found.is_some() {
            return found;
        }
        distance += 1;
    }
    None
}

/// A place from which both lists go on alike, while the parts before it don't, within reach: `far`, if that is so of it, else the
/// nearest one.
pub(crate) fn next_alike(
    old: &[FrameRun],
    new: &[FrameRun],
    far: Anchor,
    lengths: Lengths,
) -> Option<Anchor>
    requires { HasRoom old.now new.now lengths }
    ensures { IsNext old.now new.now lengths result }
{
    if far.old > old.len() || far.new > new.len() || !go_on_alike(old, new, far, lengths) {
        return nearest(old, new, lengths);
    }
    match nearest(&old[..far.old], &new[..far.new], lengths) {
        Some(near) => Some(near),
        None => Some(far),
    }
}
