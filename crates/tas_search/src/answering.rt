//! What a search of a movie answers, as a function of its inputs' bytes.
//!
//! The movie's faults come before those of the choices, the names and the goal, as other commands have it: what a search is asked for can
//! only be judged on a movie.

ghost use Rattle.std.specs.Prelude.{◌≡◌, ◌<◌, true, false, length, IfOk, IfErr};
ghost use Rattle.tas_search.specs.SearchText.{
  AreGiven,
  IsCutReport,
  IsGivenError,
  IsGoalOver,
  IsGoalError,
  IsFoundText,
  IsFoundError,
  IsSearchText,
  IsSearchError,
  StopsText,
  inputs_of,
};
ghost use Rattle.tas_search.specs.MovieSearch.{space_of};
ghost use Rattle.tas_search.specs.Logs.{log_bytes};

use crate::choices::{ChoicesError, read_choices, stick_choices};
use crate::goal::{Goal, read_goal};
use crate::movie_search::{SearchRange, search_movie};
use crate::names::read_names;
use crate::search_error::SearchError;
use crate::search_request::{Search, range_of};
use crate::verdict::verdict;
use std::alloc::{Allocator, Global};
use std::io::Write;
use std::thread::Threads;
use std::time::Clock;
use tas_engines::{movie_of, print_changes};
use tas_movie::Movie;
use vcs_inputs::Input;

/// The bytes that a search reads.
#[derive(Clone, Copy, Debug)]
pub struct SearchBytes<'a> {
    /// The cartridge.
    pub image: &'a [u8],
    /// The choices file; it doesn't matter where the search has no such file.
    pub choices: &'a [u8],
    /// The names file; nothing where there is none.
    pub names: &'a [u8],
    /// The movie's text.
    pub movie: &'a [u8],
}

/// What a search answers.
#[derive(Drop)]
pub struct SearchText<A: Allocator = Global> {
    /// The script for `tas edit` that writes the best sequence into the movie; nothing where there is no such sequence.
    pub script: Vec<u8, A>,
    /// The verdict, a line.
    pub verdict: Vec<u8, A>,
}

/// The choices: those of the text, if it is given, and else the left stick's.
fn choices_of<A: Allocator>(
    alloc: A,
    given: bool,
    text: &[u8],
) -> Result<Vec<Input, A>, ChoicesError>
    ensures read { IfOk result (λ choices. AreGiven given text.now choices.items) }
    ensures fault { IfErr result (IsGivenError given text.now) }
{
    if given {
        read_choices(alloc, text)
    } else {
        let choices = stick_choices();
        match Vec::from_slice(alloc, &choices) {
            Ok(choices) => Ok(choices),
            Err(_) => Err(ChoicesError::Memory),
        }
    }
}

/// The goal over the names of a names file.
fn goal_of<A: Allocator + Copy>(alloc: A, names: &[u8], goal: &[u8]) -> Result<Goal<A>, SearchError>
    ensures read { IfOk result (λ r. IsGoalOver names.now goal.now r.kind r.formula) }
    ensures fault { IfErr result (IsGoalError names.now goal.now) }
{
    match read_names(alloc, names) {
        Err(error) => Err(SearchError::Names(error)),
        Ok(known) => match read_goal(alloc, known.as_slice(), goal) {
            Err(fault) => Err(SearchError::Goal(fault)),
            Ok(goal) => Ok(goal),
        },
    }
}

/// The script and the verdict of a search of a movie.
fn found_text<R: Threads + Clock + Sync, A: Allocator + Copy + Send + Sync, E: Write, P: Write>(
    rt: &R,
    alloc: A,
    movie: &Movie<A>,
    choices: &[Input],
    goal: &Goal<A>,
    range: SearchRange,
    errors: &mut E,
    report: &mut P,
) -> Result<SearchText<A>, SearchError>
    requires { 0 < length choices.now }
    ensures text { IfOk result (λ text. IsFoundText movie.now choices.now goal.now.kind
        goal.now.formula range text.script.items text.verdict.items (log_bytes (E.contents errors.old) (P.contents report.old))
        (log_bytes (E.contents errors.new) (P.contents report.new))) }
    ensures fault { IfErr result (IsFoundError movie.now range) }
    ensures cut { IfErr result
        (λ error. IsCutReport (space_of movie.now choices.now range) range error (log_bytes (E.contents errors.old) (P.contents report.old))
        (log_bytes (E.contents errors.new) (P.contents report.new))) }
{
    match search_movie(rt, alloc, movie, choices, goal, range, errors, report) {
        Err(fault) => Err(SearchError::Search(fault)),
        Ok((found, changes)) => {
            let verdict = verdict(alloc, goal.kind, range, choices.len(), &found)?;
            let script = print_changes(alloc, changes.as_slice())?;
            Ok(SearchText { script, verdict })
        }
    }
}

/// What a search answers to its inputs: the script that writes the best sequence into the movie, and the verdict; or why there is no answer.
/// Writes a line for each layer that was searched whole.
///
/// Faults, in order: those of [`movie_of`], `Choices`, `Names`, `Goal`, `Frames`, and then those of [`search_movie`]. Each may be that memory
/// was refused, once the cartridge has the size of one.
pub fn search_text<
    R: Threads + Clock + Sync,
    A: Allocator + Copy + Send + Sync,
    E: Write,
    P: Write,
>(
    rt: &R,
    alloc: A,
    search: &Search<'_>,
    bytes: &SearchBytes<'_>,
    errors: &mut E,
    report: &mut P,
) -> Result<SearchText<A>, SearchError>
    // A search is a function of its inputs' bytes: two answers that meet this clause have the same script and verdict, and
    // reports that differ in the rates of their lines alone (`one_answer_per_search`), whatever the number of workers, which
    // is no input. After `best of all` the script writes a sequence of the space into the movie that meets the goal, and of
    // all sequences none does so earlier, or has a better value; of those as good it is the first. After `none` no sequence
    // meets it, and after `stopped` none of as many frames as the line says. With it the report has a line for each layer.
    // Refused: changes_are_left_out_of_the_script, choices_file_is_left_unread.
    ensures text { IfOk result (λ text. IsSearchText (inputs_of search.now bytes.now)
        text.script.items text.verdict.items (log_bytes (E.contents errors.old) (P.contents report.old))
        (log_bytes (E.contents errors.new) (P.contents report.new))) }
    // A fault is that of the first input that has one.
    // Refused: goal_is_read_without_names.
    ensures fault { IfErr result (IsSearchError (inputs_of search.now bytes.now)) }
    // Without an answer the report has nothing where the search can't begin, whole lines of some first layers where memory is
    // refused, and where a write fails perhaps a part of the next line in one of the two writers.
    // Refused: none, the lines are those of `find_goal`.
    ensures cut { IfErr result
        (λ error. StopsText (inputs_of search.now bytes.now) error (log_bytes (E.contents errors.old) (P.contents report.old))
        (log_bytes (E.contents errors.new) (P.contents report.new))) }
{
    let movie = match movie_of(alloc, bytes.image, bytes.movie) {
        Ok(movie) => movie,
        Err(fault) => return Err(SearchError::Run(fault)),
    };
    let choices = match choices_of(alloc, search.has_choices, bytes.choices) {
        Ok(choices) => choices,
        Err(error) => return Err(SearchError::Choices(error)),
    };
    let goal = goal_of(alloc, bytes.names, search.goal)?;
    let Some(range) = range_of(search) else {
        return Err(SearchError::Frames);
    };
    found_text(
        rt,
        alloc,
        &movie,
        choices.as_slice(),
        &goal,
        range,
        errors,
        report,
    )
}
