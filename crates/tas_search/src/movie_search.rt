//! The search of a movie's space.

ghost use Rattle.std.specs.Prelude.{◌≡◌, ◌+◌, ◌*◌, ◌≤◌, ◌↔◌, IsTrue, IfOk, IfErr};
ghost use Rattle.tas_movie.specs.Content.{most_inputs};
ghost use Rattle.tas_search.specs.declared.movie_search.SearchFault.TheVariants.{Memory as Refused};
ghost use Rattle.tas_search.specs.MovieSearch.{IsMovieAnswer, IsSearchFault, fault_of, space_of, StopsSearching};
ghost use Rattle.tas_search.specs.Outcome.{outcome_of};
ghost use Rattle.tas_search.specs.Logs.{log_bytes};
ghost use Rattle.tas_search.specs.Reported.{IsReported};
ghost use Rattle.tas_search.specs.Inside.FoundChanges.{FitsMovie, AreChangesOf};

use crate::changes::{answer_changes, changes_write_the_sequence};
use crate::goal::Goal;
use crate::goal_search::find_goal;
use crate::limits::Limits;
use crate::logs::Unfinished;
use crate::searching::Found;
use crate::space::Space;
use crate::space_part::SpacePart;
use crate::starting::state_at;
use std::alloc::{AllocError, Allocator};
use std::io::Write;
use std::thread::Threads;
use std::time::Clock;
use tas_language::Change;
use tas_movie::{MAX_FRAMES, Movie};
use thiserror::Error;
use vcs_inputs::Input;

/// Where a search of a movie begins and how far it goes.
#[derive(Clone, Copy, Debug, PartialEq, Eq)]
pub struct SearchRange {
    /// The first frame that a choice is made for, counted from 0.
    pub from: usize,
    /// How many choices a sequence has, or at most has.
    pub count: usize,
    /// For how many frames a choice is held: 1 or more.
    pub hold: usize,
    /// How many different states of one number of choices are kept at most.
    pub states: usize,
    /// How many workers play a layer ([`Limits::workers`]).
    pub workers: usize,
    /// Which part of the space is searched.
    pub part: SpacePart,
}

/// Why a movie's space wasn't searched.
#[derive(Clone, Copy, Debug, PartialEq, Eq, Error)]
pub enum SearchFault {
    /// The movie is too short for the search to begin there. It has this many frames.
    #[error("movie has {0} frames")]
    Short(usize),
    /// A choice is held for no frame.
    #[error("hold is 0")]
    Hold,
    /// The part has number 0, or there are fewer parts than its number.
    #[error("no such part")]
    Part,
    /// With the longest sequences the movie would be too long.
    #[error("movie gets too long")]
    Long,
    /// A line of the report wasn't written whole.
    #[error("report: write failed")]
    Report,
    /// Out of memory.
    #[error("out of memory")]
    Memory,
}

impl From<AllocError> for SearchFault {
    ghost from_gives = { λ _ fault. fault ≡ Refused };

    fn from(_error: AllocError) -> SearchFault {
        SearchFault::Memory
    }
}

impl From<Unfinished> for SearchFault {
    ghost from_gives = { λ end fault. fault ≡ fault_of end };

    fn from(end: Unfinished) -> SearchFault {
        match end {
            Unfinished::Report => SearchFault::Report,
            Unfinished::Memory => SearchFault::Memory,
        }
    }
}

/// Whether a movie can have the frames up to the end of the longest sequences.
fn fits(range: SearchRange) -> bool
    ensures { IsTrue result ↔ range.from + range.count * range.hold ≤ most_inputs }
{
    match range.count.checked_mul(range.hold) {
        Some(frames) => frames <= MAX_FRAMES && range.from <= MAX_FRAMES - frames,
        None => false,
    }
}

/// The changes that write what was found into a movie of `len` frames; none where no sequence was found.
fn found_changes<A: Allocator, C: Allocator>(
    alloc: A,
    space: &Space<'_, C>,
    len: usize,
    from: usize,
    found: &Found<A>,
) -> Result<Vec<Change, A>, AllocError>
    requires fits { FitsMovie from space.now.hold (outcome_of found.now) }
    ensures { IfOk result (λ changes. AreChangesOf len from space.now (outcome_of found.now) changes.items) }
{
    match found {
        Found::Best(numbers) => answer_changes(alloc, space, len, from, numbers.as_slice()),
        Found::Nothing => Ok(Vec::new(alloc)),
        Found::Stopped(_) => Ok(Vec::new(alloc)),
    }
}

/// Searches a part of the space of some choices after a movie's first frames for what a goal asks, and returns what was found with the changes
/// that write it into the movie: none where no sequence was found. Writes a line for each layer that was searched whole.
///
/// Faults, in order: `Short` where the movie has fewer frames than the search begins after, `Hold` where a choice is held for no
/// frame, `Part` where there is no such part, `Long` where the movie would get too long; `Memory` and `Report` at any point after these.
pub fn search_movie<
    R: Threads + Clock + Sync,
    A: Allocator + Copy + Send + Sync,
    G: Allocator,
    E: Write,
    P: Write,
>(
    rt: &R,
    alloc: A,
    movie: &Movie<A>,
    choices: &[Input],
    goal: &Goal<G>,
    range: SearchRange,
    errors: &mut E,
    report: &mut P,
) -> Result<(Found<A>, Vec<Change, A>), SearchFault>
    // A movie's space begins with the machine after its first frames, and the part of it that is asked for is searched whole for
    // what the goal asks; with the answer come the changes that write it into the movie. Where the movie has fewer frames, a choice
    // is held for no frame, there is no such part, or the movie would get too long, this is the fault, and memory is one only where
    // it is none of these.
    // Refused: space_of_a_movie_begins_at_power_on, movie_that_gets_too_long_is_searched,
    // start_after_the_end_is_searched, hold_of_no_frame_is_searched, short_movie_is_reported_by_its_start,
    // long_movie_is_reported_as_memory, part_is_left_out_of_the_search, missing_part_is_reported_as_a_long_movie.
    ensures found { IfOk result (λ r. IsMovieAnswer movie.now choices.now goal.now.kind
        goal.now.formula range (outcome_of r.0) r.1.items) }
    ensures fault { IfErr result (IsSearchFault movie.now range) }
    // Each layer that was searched has its line in the report; where the space can't be searched, the report has none.
    // Refused: none, the lines are those of `find_goal`.
    ensures reported { IfOk result (λ r. IsReported (space_of movie.now choices.now range)
        range.count (outcome_of r.0) (log_bytes (E.contents errors.old) (P.contents report.old))
        (log_bytes (E.contents errors.new) (P.contents report.new))) }
    ensures cut { IfErr result
        (StopsSearching (space_of movie.now choices.now range) range (log_bytes (E.contents errors.old) (P.contents report.old))
        (log_bytes (E.contents errors.new) (P.contents report.new))) }
{
    if movie.len() < range.from {
        return Err(SearchFault::Short(movie.len()));
    }
    if range.hold == 0 {
        return Err(SearchFault::Hold);
    }
    let Some((low, high)) = range.part.first_choices(choices.len()) else {
        return Err(SearchFault::Part);
    };
    if !fits(range) {
        return Err(SearchFault::Long);
    }
    let start = state_at(movie, range.from);
    let space = Space::new(movie.cart(), start, choices, range.hold).bounded(low, high);
    let limits = Limits {
        count: range.count,
        states: range.states,
        workers: range.workers,
    };
    let found = find_goal(rt, alloc, &space, goal, limits, errors, report)?;
    // Called for its law.
    changes_write_the_sequence();
    let changes = found_changes(alloc, &space, movie.len(), range.from, &found)?;
    Ok((found, changes))
}
