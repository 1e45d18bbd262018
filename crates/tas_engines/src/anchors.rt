//! Places from which two lists of inputs seem to go on alike. Nothing is promised of them: whoever takes one compares
//! the inputs.
//!
//! A stretch is looked for by its first one, four and sixteen runs, not by its frames: long pauses have different
//! lengths, so a run is easier to find again. Runs are looked up by a hash in a table of twice their number, 256 slots
//! at least, in which a slot with two runs counts as empty: that loses some stretches, and takes no longer whatever the
//! hashes are. Of the stretches that occur once in both, the longest chain that goes forward in both is taken. Within a
//! hunk, shorter stretches that occur once in each of its parts are looked for, too.

ghost use Rattle.std.specs.Prelude.{◌≤◌, ◌+◌, length};

use std::alloc::{AllocError, Allocator};
use tas_movie::{FrameRun, print_frame, run_length};
use vcs_machine::Input;

/// The fewest slots of a table: few sums share one by chance.
const MIN_SLOTS: usize = 256;

/// A place in the old inputs and one in the new ones.
#[derive(Clone, Copy)]
pub(crate) struct Anchor {
    /// In the old inputs.
    pub(crate) old: usize,
    /// In the new ones.
    pub(crate) new: usize,
}

/// Where a run of equal inputs begins, a sum over this run and those after it, and the place with which it is paired.
#[derive(Clone, Copy)]
struct Mark {
    place: usize,
    sum: usize,
    partner: Option<usize>,
}

/// The marks in a slot of a table.
#[derive(Clone, Copy)]
enum Slot {
    Empty,
    /// The index of the only one.
    One(usize),
    Several,
}

/// An anchor, and the index of the link before it in its chain.
#[derive(Clone, Copy)]
struct Link {
    anchor: Anchor,
    before: usize,
}

impl Anchor {
    /// The anchor's places in longer lists, in which this many inputs come before these.
    pub(crate) fn after(self, old: usize, new: usize) -> Anchor {
        Anchor {
            old: self.old.saturating_add(old),
            new: self.new.saturating_add(new),
        }
    }

    /// The anchor's places in shorter lists, without what comes before `from`.
    fn from(self, from: Anchor) -> Anchor {
        Anchor {
            old: self.old.saturating_sub(from.old),
            new: self.new.saturating_sub(from.new),
        }
    }

    /// Whether neither place comes before that of `from`.
    fn follows(self, from: Anchor) -> bool {
        self.old >= from.old && self.new >= from.new
    }
}

impl Slot {
    /// The slot with a mark more.
    fn with(self, index: usize) -> Slot {
        match self {
            Slot::Empty => Slot::One(index),
            _ => Slot::Several,
        }
    }
}

/// A sum with one number more.
fn mixed(sum: usize, number: usize) -> usize {
    (sum.rotate_left(5) ^ number).wrapping_mul(0x9E37_79B9_7F4A_7C15)
}

/// The sum of a run.
fn run_sum(input: Input, count: usize) -> usize {
    let mut sum = count;
    for byte in print_frame(input) {
        sum = mixed(sum, usize::from(byte));
    }
    sum
}

/// A mark for each run of equal inputs, in order.
fn marks_of<A: Allocator>(alloc: A, inputs: &[Input]) -> Result<Vec<Mark, A>, AllocError> {
    let mut marks = Vec::new(alloc);
    let mut place = 0;
    while place < inputs.len() {
        let input = inputs[place];
        let count = 1 + run_length(&inputs[place + 1..], input);
        marks.push(Mark {
            place,
            sum: run_sum(input, count),
            partner: None,
        })?;
        place += count;
    }
    Ok(marks)
}

/// A mark for each of these runs, whose place is its index.
fn run_marks<A: Allocator>(alloc: A, runs: &[FrameRun]) -> Result<Vec<Mark, A>, AllocError> {
    let mut marks = Vec::with_capacity(alloc, runs.len())?;
    for place in 0..runs.len() {
        let FrameRun { input, count } = runs[place];
        marks.push(Mark {
            place,
            sum: run_sum(input, count),
            partner: None,
        })?;
    }
    Ok(marks)
}

/// Makes the sums, of `runs` runs each, sums of twice as many, except at the end.
fn double(marks: &mut [Mark], runs: usize) {
    for i in 0..marks.len() {
        let next = i.saturating_add(runs);
        if next < marks.len() {
            let mark = marks[i];
            marks[i] = Mark {
                place: mark.place,
                sum: mixed(mark.sum, marks[next].sum),
                partner: mark.partner,
            };
        }
    }
}

/// The place of a sum's slot in a table of this many slots.
fn slot_place(sum: usize, size: usize) -> usize
    requires { 1 ≤ size }
    ensures { result + 1 ≤ size }
{
    (sum >> 20) % size
}

/// A table of some marks' sums.
fn slots_of<A: Allocator>(
    alloc: A,
    marks: &[Mark],
    size: usize,
) -> Result<Vec<Slot, A>, AllocError> {
    let mut slots = vec![in alloc; Slot::Empty; size]?;
    if slots.is_empty() {
        return Ok(slots);
    }
    for i in 0..marks.len() {
        let at = slot_place(marks[i].sum, slots.len());
        slots[at] = slots[at].with(i);
    }
    Ok(slots)
}

/// What a table has at a sum.
fn slot_of(slots: &[Slot], sum: usize) -> Slot {
    if slots.is_empty() {
        return Slot::Empty;
    }
    slots[slot_place(sum, slots.len())]
}

/// The place of the mark with this index, where its sum is this one.
fn place_with_sum(marks: &[Mark], index: usize, sum: usize) -> Option<usize> {
    if index < marks.len() && marks[index].sum == sum {
        Some(marks[index].place)
    } else {
        None
    }
}

/// Pairs each new mark that is alone in its slot with the old mark that is alone in it, if that has the same sum. Each other keeps
/// its partner.
fn pair<A: Allocator + Copy>(alloc: A, old: &[Mark], new: &mut [Mark]) -> Result<(), AllocError> {
    let size = old.len().max(new.len()).saturating_mul(2).max(MIN_SLOTS);
    let olds = slots_of(alloc, old, size)?;
    let news = slots_of(alloc, new, size)?;
    for i in 0..new.len() {
        let Mark {
            place,
            sum,
            partner,
        } = new[i];
        let found = match (slot_of(&olds, sum), slot_of(&news, sum)) {
            (Slot::One(index), Slot::One(_)) => place_with_sum(old, index, sum),
            _ => None,
        };
        new[i] = Mark {
            place,
            sum,
            partner: found.or(partner),
        };
    }
    Ok(())
}

/// How many chains end before a place in the old inputs. `ends` has the last link of one chain of each length, of that
/// which ends first.
fn chains_before(links: &[Link], ends: &[usize], old: usize) -> usize
    ensures { result ≤ length ends.now }
{
    ends.partition_point(|&end| end < links.len() && links[end].anchor.old < old)
}

/// Appends an anchor to the longest chain that it can continue.
fn add_link<A: Allocator>(
    links: &mut Vec<Link, A>,
    ends: &mut Vec<usize, A>,
    anchor: Anchor,
) -> Result<(), AllocError> {
    let longest = chains_before(links, ends, anchor.old);
    let before = if longest > 0 { ends[longest - 1] } else { 0 };
    let index = links.len();
    links.push(Link { anchor, before })?;
    if longest < ends.len() {
        ends[longest] = index;
    } else {
        ends.push(index)?;
    }
    Ok(())
}

/// The longest chain, from its last anchor to its first.
fn chain_of<A: Allocator>(
    alloc: A,
    links: &[Link],
    ends: &[usize],
) -> Result<Vec<Anchor, A>, AllocError> {
    let mut chain = Vec::with_capacity(alloc, ends.len())?;
    let mut at = if ends.is_empty() {
        0
    } else {
        ends[ends.len() - 1]
    };
    for _ in 0..ends.len() {
        if at < links.len() {
            chain.push(links[at].anchor)?;
            at = links[at].before;
        }
    }
    Ok(chain)
}

/// The longest chain of pairs that goes forward in both lists.
fn longest_chain<A: Allocator + Copy>(
    alloc: A,
    new: &[Mark],
) -> Result<Vec<Anchor, A>, AllocError> {
    let mut links = Vec::new(alloc);
    let mut ends = Vec::new(alloc);
    for mark in new {
        if let Some(old) = mark.partner {
            let anchor = Anchor {
                old,
                new: mark.place,
            };
            add_link(&mut links, &mut ends, anchor)?;
        }
    }
    chain_of(alloc, &links, &ends)
}

/// The longest chain of pairs, where marks of four and of sixteen runs are paired, too. `old` and `new` mark one run each.
fn chain_of_stretches<A: Allocator + Copy>(
    alloc: A,
    old: &mut [Mark],
    new: &mut [Mark],
) -> Result<Vec<Anchor, A>, AllocError> {
    for runs in [1, 4] {
        double(old, runs);
        double(old, 2 * runs);
        double(new, runs);
        double(new, 2 * runs);
        pair(alloc, old, new)?;
    }
    longest_chain(alloc, new)
}

/// Anchors, from the last to the first: places where a stretch of one, four or sixteen runs begins that occurs once in
/// each list. They are the longest chain of such pairs that goes forward in both lists. Takes time in proportion to the
/// lists' lengths, but for the search of the chain: n anchors take n log n steps.
pub(crate) fn find_anchors<A: Allocator + Copy>(
    alloc: A,
    old: &[Input],
    new: &[Input],
) -> Result<Vec<Anchor, A>, AllocError> {
    let mut olds = marks_of(alloc, old)?;
    let mut news = marks_of(alloc, new)?;
    pair(alloc, &olds, &mut news)?;
    chain_of_stretches(alloc, &mut olds, &mut news)
}

/// Anchors in two lists of runs, from the last to the first: the longest chain of places where four or sixteen runs begin
/// that occur once in each list.
pub(crate) fn find_run_anchors<A: Allocator + Copy>(
    alloc: A,
    old: &[FrameRun],
    new: &[FrameRun],
) -> Result<Vec<Anchor, A>, AllocError> {
    let mut olds = run_marks(alloc, old)?;
    let mut news = run_marks(alloc, new)?;
    chain_of_stretches(alloc, &mut olds, &mut news)
}

/// The first anchor at `from` or after it, as places from there on: beyond all of them where there is none. `anchors` go
/// from the last to the first.
pub(crate) fn first_after(anchors: &[Anchor], from: Anchor) -> Anchor {
    let later = anchors.partition_point(|anchor| anchor.follows(from));
    if later == 0 {
        return Anchor {
            old: usize::MAX,
            new: usize::MAX,
        };
    }
    anchors[later - 1].from(from)
}
