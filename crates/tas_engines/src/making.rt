//! Making a change, or a line of `tas edit`.

ghost use Rattle.std.specs.Prelude.{◌≡◌, length, Err, None, IfOk, OnErr};
ghost use Rattle.tas_movie.specs.Content.{MovieContent};
ghost use Rattle.tas_movie.specs.Edit.{refusal, check_answer};
ghost use Rattle.tas_engines.specs.Changes.{edit_of, edit_on, BringsCopies};
ghost use Rattle.tas_engines.specs.Scripts.{inputs_of, line_on, line_refusal, BringsFrames, Makes};

use crate::retouching::check_copy;
use crate::{check_retouch, retouch_edit};
use std::alloc::{AllocError, Allocator};
use tas_language::{Change, EditLine};
use tas_movie::{Edit, EditRefusal, Inputs, Movie, apply, check_insertion, check_place};
use vcs_machine::Input;

/// Why a change wasn't made; the movie is as before.
#[derive(Clone, Copy)]
pub enum ChangeError {
    /// It isn't allowed on this movie.
    Refused(EditRefusal),
    /// Memory was refused.
    Memory,
}

/// Whether a change is allowed on a movie of `len` frames, as `tas_movie::check` decides it for its edit.
pub fn check_change(len: usize, change: Change) -> Result<(), EditRefusal>
    // A change is refused by a movie's length alone, as its edit is; the edit that is made of it is the definition's.
    // Refused: insertion_at_the_end_is_refused.
    ensures { (movie : MovieContent) → length movie.inputs ≡ len
        → result ≡ check_answer (refusal movie (edit_of change)) }
{
    match change {
        Change::Insert { at, count, .. } => check_insertion(len, at, count),
        Change::Replace { at, count, .. } | Change::Delete { at, count } => {
            check_place(len, at, count)
        }
    }
}

/// The edit that a change asks for. `AllocError` where the room for the copies of the input is refused.
pub fn edit_of<A: Allocator>(alloc: A, change: Change) -> Result<Edit<A>, AllocError>
    // Refused: half_of_the_copies_are_put_in.
    ensures edit { IfOk result (λ edit. edit ≡ edit_on A change) }
    ensures memory { OnErr result (BringsCopies change) }
{
    match change {
        Change::Insert { at, count, input } => {
            let inputs = Inputs::repeated(alloc, input, count)?;
            Ok(Edit::Insert { at, inputs })
        }
        Change::Replace { at, count, input } => {
            let inputs = Inputs::repeated(alloc, input, count)?;
            Ok(Edit::Replace { at, inputs })
        }
        Change::Delete { at, count } => Ok(Edit::Delete { at, count }),
    }
}

/// The inputs of the second movie; none where there is no such movie.
fn other_inputs<A: Allocator>(other: &Option<Movie<A>>) -> &[Input]
    ensures { result.now ≡ inputs_of other.now }
{
    match other {
        Some(movie) => movie.inputs(),
        None => &[],
    }
}

/// Whether a line of `tas edit` is allowed on a movie, beside which there may be a second one.
fn check_line<A: Allocator, B: Allocator>(
    movie: &Movie<A>,
    other: &Option<Movie<B>>,
    line: EditLine,
) -> Result<(), EditRefusal>
    ensures { result ≡ check_answer (line_refusal other.now movie.now line) }
{
    let len = movie.len();
    match line {
        EditLine::Change(change) => check_change(len, change),
        EditLine::Retouch(retouch) => check_retouch(len, retouch),
        EditLine::CopyOther { from, count, at } => {
            check_copy(other_inputs(other).len(), from, count, len, at)
        }
    }
}

/// The edit that a line asks for on a movie. `AllocError` where the room for its frames is refused.
fn line_edit<A: Allocator, B: Allocator, C: Allocator>(
    alloc: C,
    movie: &Movie<A>,
    other: &Option<Movie<B>>,
    line: EditLine,
) -> Result<Edit<C>, AllocError>
    requires { line_refusal other.now movie.now line ≡ None }
    ensures edit { IfOk result (λ edit. edit ≡ line_on C other.now movie.now line) }
    ensures memory { OnErr result (BringsFrames line) }
{
    match line {
        EditLine::Change(change) => edit_of(alloc, change),
        EditLine::Retouch(retouch) => retouch_edit(alloc, movie.inputs(), retouch),
        EditLine::CopyOther { from, count, at } => {
            let frames = &other_inputs(other)[from..from + count];
            let inputs = Inputs::from_vec(Vec::from_slice(alloc, frames)?);
            Ok(Edit::Insert { at, inputs })
        }
    }
}

/// Makes a line of `tas edit` on a movie, where it is allowed: `Refused` where it isn't, and this comes before memory is
/// asked for; `Memory` where the room for the frames of a line that is allowed was refused. Both leave the
/// movie as it was.
pub fn make_line<A: Allocator, B: Allocator, C: Allocator>(
    alloc: C,
    movie: &mut Movie<A>,
    other: &Option<Movie<B>>,
    line: EditLine,
) -> Result<(), ChangeError>
    // A line of `tas edit` is made where it is allowed: what is made is the edit that the line stands for, given the
    // movie so far and the second one. Else it is refused, with nothing changed. It is out of memory only where it is
    // allowed and puts frames in or overwrites some, possibly none.
    // Refused: memory_is_asked_for_before_the_change*, copy_other_takes_from_the_own_movie.
    ensures made { Makes other.now movie.old line result movie.new }
    ensures memory { result ≡ Err ChangeError.Memory → BringsFrames line }
{
    check_line(movie, other, line).map_err(ChangeError::Refused)?;
    let edit = line_edit(alloc, movie, other, line).map_err(|_| ChangeError::Memory)?;
    apply(movie, &edit);
    Ok(())
}
