//! The changes that make one list of inputs of another.
//!
//! In a gap of as many old frames as new ones the frames are replaced where they are: a changed frame is more likely
//! than one taken out and another put in. A replacement covers up to 15 equal frames between two that it changes: so
//! taking out autofire is one line, and two changes far apart are two. A stretch doesn't stay where the movie would be
//! too long meanwhile, as after an insertion whose deletion comes later: each line of a script must be allowed.
//! `common_front` and `common_runs` are one loop over two types.

ghost use Rattle.std.specs.Prelude.{◌≡◌, ◌-◌, ◌<◌, ◌≤◌, ◌++◌, length, take, drop, IfOk, OnOk};
ghost use Rattle.tas_movie.specs.Content.{most_inputs};
ghost use Rattle.tas_movie.specs.Runs.{runs_of};
ghost use Rattle.tas_engines.specs.Differences.{IsCommonEnd, IsDifference};
ghost use Rattle.tas_engines.specs.Hunks.{IsGapOf, AddsHunk, GoesOn, IsCommonFrom, IsReplacedRun, AddsReplacement, deletion, insertions};

use crate::anchors::{Anchor, find_anchors, find_run_anchors, first_after};
use crate::stages::{Stage, next_step, runs_in};
use std::alloc::{AllocError, Allocator};
use tas_language::Change;
use tas_movie::{MAX_FRAMES, common_front, run_length};
use vcs_machine::Input;

/// The most inputs that a replacement covers, though they are the same in both lists, between two that it changes.
const MAX_BRIDGE: usize = 15;

/// The old inputs from `old` to `old_end` - 1, in whose place the new ones from `new` to `new_end` - 1 come.
#[derive(Clone, Copy)]
pub(crate) struct Gap {
    pub(crate) old: usize,
    pub(crate) old_end: usize,
    pub(crate) new: usize,
    pub(crate) new_end: usize,
}

/// The length of the longest list with which both end.
fn common_end(a: &[Input], b: &[Input]) -> usize
    ensures { IsCommonEnd a.now b.now result }
{
    let mut end = 0;
    while end < a.len() && end < b.len() && a[a.len() - 1 - end] == b[b.len() - 1 - end] {
        end += 1;
    }
    end
}

/// The length of a replacement by `input` that begins here. It ends with the last input that it changes before another
/// input comes, or before more than [`MAX_BRIDGE`] in a row would stay the same.
fn replaced_run(old: &[Input], new: &[Input], input: Input) -> usize
    requires { length old.now ≡ length new.now }
    ensures { IsReplacedRun old.now new.now input result }
{
    let mut count = 0;
    let mut seen = 0;
    while seen < new.len() && seen <= count + MAX_BRIDGE && new[seen] == input {
        let stays = old[seen] == input;
        if !stays {
            count = seen + 1;
        }
        seen += 1;
    }
    count
}

/// Adds the replacement that begins with these inputs, at the place `at`, and returns its length. Where the first ones are
/// the same it adds nothing and returns 1.
fn push_replacement<A: Allocator>(
    changes: &mut Vec<Change, A>,
    at: usize,
    old: &[Input],
    new: &[Input],
) -> Result<usize, AllocError>
    requires some { 0 < length old.now }
    requires as_many { length old.now ≡ length new.now }
    ensures { IfOk result (λ n.
        AddsReplacement old.now new.now at n changes.old.items changes.new.items) }
{
    let input = new[0];
    if old[0] == input {
        return Ok(1);
    }
    let count = replaced_run(old, new, input);
    changes.push(Change::Replace { at, count, input })?;
    Ok(count)
}

/// Adds the replacements of a gap in which as many inputs come as go.
fn push_replacements<A: Allocator>(
    changes: &mut Vec<Change, A>,
    old: &[Input],
    new: &[Input],
    gap: Gap,
) -> Result<(), AllocError>
    requires gap { IsGapOf old.now new.now gap }
    requires as_many { gap.old_end - gap.old ≡ gap.new_end - gap.new }
    ensures { OnOk result (AddsHunk old.now new.now gap changes.old.items changes.new.items) }
{
    let count = gap.new_end - gap.new;
    let mut done = 0;
    while done < count {
        done += push_replacement(
            changes,
            gap.new + done,
            &old[gap.old + done..gap.old_end],
            &new[gap.new + done..gap.new_end],
        )?;
    }
    Ok(())
}

/// Adds the deletion of this many inputs, if there are any.
fn push_deletion<A: Allocator>(
    changes: &mut Vec<Change, A>,
    at: usize,
    count: usize,
) -> Result<(), AllocError>
    ensures { OnOk result (changes.new.items ≡ changes.old.items ++ deletion at count) }
{
    if count == 0 {
        return Ok(());
    }
    changes.push(Change::Delete { at, count })?;
    Ok(())
}

/// Adds an insertion for each run of the new inputs from `from` to `to` - 1.
fn push_insertions<A: Allocator>(
    changes: &mut Vec<Change, A>,
    new: &[Input],
    from: usize,
    to: usize,
) -> Result<(), AllocError>
    requires within { to ≤ length new.now }
    ensures { OnOk result (changes.new.items
        ≡ changes.old.items ++ insertions from (runs_of (take (to - from) (drop from new.now)))) }
{
    let mut at = from;
    while at < to {
        let input = new[at];
        let count = 1 + run_length(&new[at + 1..to], input);
        changes.push(Change::Insert { at, count, input })?;
        at += count;
    }
    Ok(())
}

/// Adds the changes of a gap, none of them at the inputs with which both lists end there.
fn push_gap<A: Allocator>(
    changes: &mut Vec<Change, A>,
    old: &[Input],
    new: &[Input],
    gap: Gap,
) -> Result<(), AllocError>
    requires { IsGapOf old.now new.now gap }
    ensures { OnOk result (AddsHunk old.now new.now gap changes.old.items changes.new.items) }
{
    let end = common_end(&old[gap.old..gap.old_end], &new[gap.new..gap.new_end]);
    let old_end = gap.old_end - end;
    let new_end = gap.new_end - end;
    let removed = old_end - gap.old;
    let replaces = removed == new_end - gap.new;
    if replaces {
        let shorter = Gap {
            old: gap.old,
            old_end,
            new: gap.new,
            new_end,
        };
        return push_replacements(changes, old, new, shorter);
    }
    push_deletion(changes, gap.new, removed)?;
    push_insertions(changes, new, gap.new, new_end)
}

/// How many inputs are the same from an anchor on, up to the end of a gap: none where the anchor isn't in it, or where
/// the movie would be too long after the changes before it.
fn common_from(old: &[Input], new: &[Input], gap: Gap, anchor: Anchor) -> usize
    requires { IsGapOf old.now new.now gap }
    ensures { 0 < result → IsCommonFrom old.now new.now gap anchor result }
{
    if anchor.old < gap.old || anchor.new < gap.new {
        return 0;
    }
    if anchor.old > gap.old_end || anchor.new > gap.new_end {
        return 0;
    }
    if anchor.new + (old.len() - anchor.old) > MAX_FRAMES {
        return 0;
    }
    common_front(&old[anchor.old..gap.old_end], &new[anchor.new..gap.new_end])
}

/// Adds the changes before an anchor, and returns the gap after the stretch that begins there. Where none begins there,
/// nothing is added and the gap stays as it is.
fn push_up_to<A: Allocator>(
    changes: &mut Vec<Change, A>,
    old: &[Input],
    new: &[Input],
    gap: Gap,
    anchor: Anchor,
) -> Result<Gap, AllocError>
    requires { IsGapOf old.now new.now gap }
    ensures { IfOk result (λ next.
        GoesOn old.now new.now gap next changes.old.items changes.new.items) }
{
    let same = common_from(old, new, gap, anchor);
    if same == 0 {
        return Ok(gap);
    }
    let before = Gap {
        old: gap.old,
        old_end: anchor.old,
        new: gap.new,
        new_end: anchor.new,
    };
    push_gap(changes, old, new, before)?;
    Ok(Gap {
        old: anchor.old + same,
        old_end: gap.old_end,
        new: anchor.new + same,
        new_end: gap.new_end,
    })
}

/// Adds the changes of a hunk: those between the stretches that both lists have in it.
fn push_hunk<A: Allocator + Copy>(
    alloc: A,
    changes: &mut Vec<Change, A>,
    old: &[Input],
    new: &[Input],
    hunk: Gap,
) -> Result<(), AllocError>
    requires { IsGapOf old.now new.now hunk }
    ensures { OnOk result (AddsHunk old.now new.now hunk changes.old.items changes.new.items) }
{
    let front = common_front(&old[hunk.old..hunk.old_end], &new[hunk.new..hunk.new_end]);
    let first_old = hunk.old + front;
    let first_new = hunk.new + front;
    let mut gap = Gap {
        old: first_old,
        old_end: hunk.old_end,
        new: first_new,
        new_end: hunk.new_end,
    };
    let end = common_end(&old[first_old..gap.old_end], &new[first_new..gap.new_end]);
    let anchors = find_anchors(
        alloc,
        &old[first_old..gap.old_end - end],
        &new[first_new..gap.new_end - end],
    )?;
    for i in 0..anchors.len() {
        let anchor = anchors[anchors.len() - 1 - i].after(first_old, first_new);
        gap = push_up_to(changes, old, new, gap, anchor)?;
    }
    push_gap(changes, old, new, gap)
}

/// The changes that make `new` of `old`, in order: in hunks, with nothing within the common beginning or the common
/// end. Between two hunks at least four runs stay, and four runs in a row that both lists have end a hunk, where they are
/// near its beginning. Where as many inputs come as go they are replaced, from one that differs to one that differs; else
/// those that go are deleted, if any do, and those that come are inserted. There are none where the lists are equal.
/// `AllocError` where memory is refused.
pub fn changes_between<A: Allocator + Copy>(
    alloc: A,
    old: &[Input],
    new: &[Input],
) -> Result<Vec<Change, A>, AllocError>
    requires old_bound { length old.now ≤ most_inputs }
    requires new_bound { length new.now ≤ most_inputs }
    // A difference turns the old inputs into the new ones, each of its changes allowed. Its lines go from front to
    // back, none in the common beginning or the common end; they take out and put in no more than lies between
    // these; equal lists have none. Each is of one input at least; of two that touch both replace or both put in, and
    // the inputs differ, so they couldn't be one, or the first deletes and the second puts in; after a deletion more or
    // fewer inputs are put in than it takes out. A replacement changes the first and the last of its inputs, and at most
    // 15 in a row between them stay the same.
    // Refused: difference_forgets_the_end, deletion_in_place_of_a_replacement*,
    // frames_after_an_anchor_are_not_compared, replacement_covers_frames_that_stay*,
    // replacement_goes_on_over_16_frames, movie_is_too_long_for_a_while*, one_deleted_frame_stays*,
    // line_for_each_frame*, difference_begins_anew*.
    // A difference falls into hunks: the runs of the inputs between the common beginning and the common end, old and
    // new, are those of hunks, and at least four runs stay between two of these. The changes of a hunk are within it:
    // they take out no more than its old runs, and put in no more than its new ones. Its old and its new runs have no
    // four in a row in common, where fewer than 512 of the two come before them, unless the movie would be too long
    // there. So one deletion and one insertion between the common beginning and end is no difference, where both movies
    // have four runs in a row near its first change.
    // Refused: difference_is_one_hunk, next_runs_are_not_looked_at*, three_runs_end_a_hunk*,
    // too_long_a_movie_is_gone_on_with*.
    ensures { IfOk result (λ changes. IsDifference old.now new.now changes.items) }
{
    let front = common_front(old, new);
    let end = common_end(&old[front..], &new[front..]);
    let gap = Gap {
        old: front,
        old_end: old.len() - end,
        new: front,
        new_end: new.len() - end,
    };
    let old_runs = runs_in(alloc, &old[front..gap.old_end])?;
    let new_runs = runs_in(alloc, &new[front..gap.new_end])?;
    let anchors = find_run_anchors(alloc, &old_runs, &new_runs)?;
    let mut stage = Stage {
        runs: Anchor { old: 0, new: 0 },
        gap,
    };
    let mut changes = Vec::new(alloc);
    while let Some(step) = next_step(
        &old_runs[stage.runs.old..],
        &new_runs[stage.runs.new..],
        old.len(),
        stage,
        first_after(&anchors, stage.runs),
    ) {
        push_hunk(alloc, &mut changes, old, new, step.hunk)?;
        stage = step.after;
    }
    push_hunk(alloc, &mut changes, old, new, stage.gap)?;
    Ok(changes)
}
