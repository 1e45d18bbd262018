//! Strokes: edits that become one step of the history, all or none of them.

ghost use Rattle.std.specs.Prelude.{◌≡◌, length};
ghost use Rattle.tas_movie.specs.Content.{MovieContent};
ghost use Rattle.tas_movie.specs.Edit.{IsAllowed, refusal, check_answer, edited};
ghost use Rattle.tas_published.specs.Strokes.{edits_of, refusal_in};

use std::alloc::{Allocator, Global};
use tas_movie::{Edit, EditRefusal, Movie, check, check_insertion, check_place};

/// None, one or two edits that are made as one step. They are published at once; that nobody sees the movie between the two is tested, not
/// proved.
#[derive(Drop)]
pub enum Stroke<A: Allocator = Global> {
    /// No edit.
    Nothing,
    /// One edit.
    One(Edit<A>),
    /// Two edits; the second is made in the movie that the first leaves.
    Two(Edit<A>, Edit<A>),
}

impl<A: Allocator> Stroke<A> {
    /// How many edits it has.
    pub fn count(&self) -> u64
        // `Stroke` reports how many edits it has, and whether a movie allows them one after the other; it is never out
        // of memory.
        // Refused: stroke_of_two_counts_one.
        ensures { result ≡ length (edits_of self.now) }
    {
        match self {
            Stroke::Nothing => 0,
            Stroke::One(_) => 1,
            Stroke::Two(_, _) => 2,
        }
    }

    /// Whether a movie allows its edits, one after the other; else why it refuses the first that it refuses. It takes no memory.
    pub fn check<B: Allocator>(&self, movie: &Movie<B>) -> Result<(), EditRefusal>
        // Refused: second_edit_is_checked_in_the_movie_before.
        ensures { result ≡ check_answer (refusal_in movie.now (edits_of self.now)) }
    {
        match self {
            Stroke::Nothing => Ok(()),
            Stroke::One(edit) => check(movie, edit),
            Stroke::Two(edit, next) => match check(movie, edit) {
                Ok(()) => check_length(len_after(movie, edit), next),
                Err(refused) => Err(refused),
            },
        }
    }
}

/// Whether a movie of this length allows an edit; else why it is refused.
fn check_length<A: Allocator>(len: usize, edit: &Edit<A>) -> Result<(), EditRefusal>
    ensures { (movie : MovieContent) → length movie.inputs ≡ len
        → result ≡ check_answer (refusal movie edit.now) }
{
    match edit {
        Edit::Load(_) => Ok(()),
        Edit::Insert { at, inputs } => check_insertion(len, *at, inputs.as_slice().len()),
        Edit::Replace { at, inputs } => check_place(len, *at, inputs.as_slice().len()),
        Edit::Delete { at, count } => check_place(len, *at, *count),
    }
}

/// How long a movie is after an edit that it allows.
pub fn len_after<A: Allocator, B: Allocator>(movie: &Movie<A>, edit: &Edit<B>) -> usize
    requires { IsAllowed movie.now edit.now }
    // Refused: none, see `Stroke::check`, which calls it.
    ensures { result ≡ length (edited movie.now edit.now).inputs }
{
    let len = movie.len();
    match edit {
        Edit::Load(_) | Edit::Replace { .. } => len,
        Edit::Insert { inputs, .. } => len + inputs.as_slice().len(),
        Edit::Delete { count, .. } => len - *count,
    }
}
