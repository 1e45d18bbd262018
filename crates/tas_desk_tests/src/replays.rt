//! Histories played again, edit by edit, and what seats were told at their fronts.

use crate::changes::{Change, edit_of};
use crate::checks::{check_same, check_that, expect_ok};
use crate::pictures::{Pixmaps, pixmaps};
use std::alloc::Global;
use std::fmt::Debug;
use std::process::Abort;
use tas_desk::{Entry, MAX_EXPORT};
use tas_movie::{Edit, EditRefusal, Movie, apply, check};
use vcs_machine::Input;

/// A reply at a front of the history.
#[derive(Drop)]
pub struct Note {
    /// How many edits the front has.
    pub at: u64,
    pub told: Told,
}

/// What a reply tells.
#[derive(Drop)]
pub enum Told {
    /// An edit, the front's last, with its serial, and the length then.
    Made(Change, u64, usize),
    /// An edit that wasn't allowed.
    NotMade(Change, EditRefusal),
    /// The length.
    Len(usize),
    /// An input.
    Input(usize, Input),
    /// There is no such frame in a movie of this length.
    NoFrame(usize, usize),
    /// How far a batch's inputs and the movie's agree, with these inputs.
    Taken(Vec<Input>, usize),
    /// A batch's cartridge isn't the movie's: the batch's bytes.
    OtherCartridge(Vec<u8>),
    /// The pixmaps of some frames: of a shot's one, or of an export's.
    Drawn((usize, usize), Pixmaps),
    /// Not all of some frames are in a movie of this length, or they are too many.
    OutOfRange((usize, usize), usize),
    /// Two seats met.
    Met,
}

/// With how many equal inputs two lists begin.
pub fn equal_inputs(some: &[Input], others: &[Input]) -> usize {
    let mut count = 0usize;
    for (one, other) in some.iter().zip(others) {
        if *one != *other {
            break;
        }
        count = count.saturating_add(1);
    }
    count
}

/// Whether two edits are the same.
fn is_same(one: &Edit, other: &Edit) -> bool {
    match (one, other) {
        (Edit::Load(loaded), Edit::Load(wanted)) => loaded.bytes() == wanted.bytes(),
        (
            Edit::Insert { at, inputs },
            Edit::Insert {
                at: place,
                inputs: wanted,
            },
        ) => { *at == *place && inputs.as_slice() == wanted.as_slice() }
        (
            Edit::Replace { at, inputs },
            Edit::Replace {
                at: place,
                inputs: wanted,
            },
        ) => { *at == *place && inputs.as_slice() == wanted.as_slice() }
        (
            Edit::Delete { at, count },
            Edit::Delete {
                at: place,
                count: wanted,
            },
        ) => { *at == *place && *count == *wanted }
        _ => false,
    }
}

/// Whether all of these frames are there, and one export may have them.
fn is_in_range(movie: &Movie, range: (usize, usize)) -> bool {
    let (from, to) = range;
    from <= to && to <= movie.len() && to - from <= MAX_EXPORT
}

/// Whether a movie's frames have these pixmaps.
fn is_drawn<R: Abort>(
    rt: &R,
    alloc: Global,
    movie: &Movie,
    range: (usize, usize),
    told: Pixmaps,
) -> bool {
    is_in_range(movie, range) && pixmaps(rt, alloc, movie.cart(), movie.inputs(), range) == told
}

/// Whether a front ends with the edit of this seat.
fn is_last<R: Abort>(
    rt: &R,
    alloc: Global,
    front: &[Entry],
    made: (u32, u64),
    change: Change,
) -> bool {
    let edit = edit_of(rt, alloc, change);
    match front.last() {
        Some(entry) => (entry.seat, entry.serial) == made && is_same(&entry.edit, &edit),
        None => false,
    }
}

/// Whether a movie refuses an edit so.
fn is_refused<R: Abort>(
    rt: &R,
    alloc: Global,
    movie: &Movie,
    change: Change,
    refusal: EditRefusal,
) -> bool {
    check(movie, &edit_of(rt, alloc, change)) == Err(refusal)
}

/// Whether what a seat was told is right at a front with this movie.
fn is_right<R: Abort>(
    rt: &R,
    alloc: Global,
    front: &[Entry],
    movie: &Movie,
    seat: u32,
    told: &Told,
) -> bool {
    match told {
        Told::Made(change, serial, len) => {
            *len == movie.len() && is_last(rt, alloc, front, (seat, *serial), *change)
        }
        Told::NotMade(change, refusal) => is_refused(rt, alloc, movie, *change, *refusal),
        Told::Len(len) => *len == movie.len(),
        Told::Input(k, input) => movie.inputs().get(*k) == Some(input),
        Told::NoFrame(k, len) => *len == movie.len() && *k >= *len,
        Told::Taken(inputs, count) => equal_inputs(inputs.as_slice(), movie.inputs()) == *count,
        Told::OtherCartridge(bytes) => bytes.as_slice() != movie.cart().bytes(),
        Told::Drawn(range, drawn) => is_drawn(rt, alloc, movie, *range, *drawn),
        Told::OutOfRange(range, len) => *len == movie.len() && !is_in_range(movie, *range),
        // A meeting tells a front alone: one of the history, and no shorter than either caller's front before it.
        Told::Met => true,
    }
}

/// What a seat was told, in order.
#[derive(Drop)]
pub struct Notes {
    pub seat: u32,
    pub notes: Vec<Note>,
}

impl Notes {
    /// Writes down what was told, at a history that is no earlier one.
    pub fn add<R: Abort>(&mut self, rt: &R, at: u64, told: Told) {
        if let Some(last) = self.notes.last() {
            check_that(rt, ("seat, an earlier history", self.seat), last.at <= at);
        }
        expect_ok(rt, self.notes.push(Note { at, told }));
    }

    /// An answer that no call should give: the test fails.
    pub fn fail<R: Abort, E: Copy + Debug>(&self, rt: &R, answer: E) {
        check_that(rt, ("seat", self.seat, answer), false);
    }
}

/// The notes that stand at a front, from the one with this number on, are right. It returns the number of the next one.
fn judge_front<R: Abort>(
    rt: &R,
    alloc: Global,
    front: &[Entry],
    movie: &Movie,
    notes: &Notes,
    from: usize,
) -> usize {
    let mut next = from;
    for note in notes.notes.iter().skip(from) {
        if note.at != front.len() as u64 {
            break;
        }
        let is_right = is_right(rt, alloc, front, movie, notes.seat, &note.told);
        check_that(rt, ("seat, note", notes.seat, next), is_right);
        next = next.saturating_add(1);
    }
    next
}

/// A movie with an entry's edit, which is allowed. A failure shows this case.
pub fn make<R: Abort, C: Copy + Debug>(rt: &R, case: C, movie: &mut Movie, edit: &Edit) {
    check_that(rt, case, check(movie, edit).is_ok());
    apply(movie, edit);
}

/// Plays a history again, edit by edit, and looks at all notes of a seat at their fronts, which never get shorter. All that the
/// seat was told is right, and so much of it there is at least; else the test fails and shows which note isn't.
pub fn judge<R: Abort>(rt: &R, alloc: Global, journal: &[Entry], notes: &Notes, least: usize) {
    let seat = notes.seat;
    let mut movie = expect_ok(rt, Movie::blank(alloc));
    let mut next = 0;
    for at in 0..journal.len() + 1 {
        let front = &journal[..at];
        if let Some(entry) = front.last() {
            make(rt, ("seat, note", seat, next), &mut movie, &entry.edit);
        }
        next = judge_front(rt, alloc, front, &movie, notes, next);
    }
    check_same(rt, ("seat, note", seat, next), notes.notes.len(), next);
    check_that(rt, ("seat, notes", seat, next), next >= least);
}
