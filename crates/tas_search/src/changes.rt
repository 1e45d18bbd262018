//! The changes that write a sequence into a movie.
//!
//! A sequence is written into a movie by `replace` lines, one for each choice, after one `insert` of frames in which nothing
//! is pressed where the movie is too short for them. So each choice's line is the same whatever the movie's length.

ghost use Rattle.std.specs.Prelude.{◌≡◌, ◌+◌, ◌*◌, ◌≤◌, ◌++◌, ℕ, List, length, IfOk, OnOk};
ghost use Rattle.tas_movie.specs.Content.{MovieContent, most_inputs};
ghost use Rattle.tas_search.specs.Space.{SpaceContent};
ghost use Rattle.tas_search.specs.AnswerChanges.{answer_changes, replacing, IsSpaceOf, Writes};

use crate::space::Space;
use std::alloc::{AllocError, Allocator};
use tas_language::Change;
use vcs_inputs::Input;

/// The changes that write a sequence of choices from frame `from` on into a movie of `len` frames: where the movie is too short,
/// frames at its end in which nothing is pressed; then for each choice its input, in the place of the frames for which it is held.
pub(crate) fn answer_changes<A: Allocator, C: Allocator>(
    alloc: A,
    space: &Space<'_, C>,
    len: usize,
    from: usize,
    numbers: &[usize],
) -> Result<Vec<Change, A>, AllocError>
    requires fits { from + length numbers.now * space.now.hold ≤ most_inputs }
    // Refused: sequence_is_written_one_frame_late, missing_frames_are_not_put_in.
    ensures { IfOk result (λ changes. changes.items
        ≡ answer_changes len from space.now.choices space.now.hold numbers.now) }
{
    let mut changes = Vec::new(alloc);
    let hold = space.hold();
    let end = from + numbers.len() * hold;
    if len < end {
        changes.push(Change::Insert {
            at: len,
            count: end - len,
            input: Input::none(),
        })?;
    }
    push_choices(space, from, numbers, &mut changes)?;
    Ok(changes)
}

/// Appends the changes of the choices alone.
fn push_choices<A: Allocator, C: Allocator>(
    space: &Space<'_, C>,
    from: usize,
    numbers: &[usize],
    changes: &mut Vec<Change, A>,
) -> Result<(), AllocError>
    requires fits { from + length numbers.now * space.now.hold ≤ most_inputs }
    ensures { OnOk result (changes.new.items ≡ changes.old.items
        ++ replacing from space.now.choices space.now.hold numbers.now) }
{
    let hold = space.hold();
    let mut at = from;
    for number in numbers {
        changes.push(Change::Replace {
            at,
            count: hold,
            input: space.choice(*number),
        })?;
        at += hold;
    }
    Ok(())
}

/// The changes that write a sequence into a movie are allowed, put its inputs in the place of as many others and nothing else, and the
/// movie that they make plays to the machine that the sequence reaches.
pub fn changes_write_the_sequence()
    // `tas edit` can make these changes, one after the other. They put the sequence's inputs in the place of as many
    // frames, and nothing else; and the movie that they make plays from power-on to the machine that the sequence
    // reaches in the space.
    // Refused: none, it is a law of the definitions and has no code.
    ensures { (movie : MovieContent) (from : ℕ) (space : SpaceContent) (ks : List ℕ)
        → IsSpaceOf movie from space ks → Writes movie from space ks }
{}
