//! Changes of a movie, and the lines that say them.
//!
//! `insert`, `replace` and `delete` are one command, `Edit`, of a `Change`: a difference has these three alone, and a
//! desk answers them by one function.

ghost use Rattle.std.specs.Prelude.{◌≡◌, ◌++◌, ◌∷◌, IfOk, IfSome, IfNone};
ghost use Rattle.tas_movie.specs.Text.{line};
ghost use Rattle.tas_language.specs.declared.change.Change.{Change as Asked};
ghost use Rattle.tas_language.specs.declared.change.Change.TheVariants.{Delete};
ghost use Rattle.tas_language.specs.Commands.{change_text, frames_text, IsChangeLine};

use crate::{Command, one_command_per_line, parse_line};
use std::alloc::{AllocError, Allocator};
use tas_movie::print_frame;
use vcs_inputs::Input;

/// A change of a movie's inputs, as one line of a script says it.
#[derive(Clone, Copy, Debug, PartialEq, Eq)]
pub enum Change {
    /// `insert PLACE COUNT FRAME`: copies of one input are put in.
    Insert {
        /// The place in the movie's inputs, counted from 0.
        at: usize,
        /// How many copies.
        count: usize,
        /// The input.
        input: Input,
    },
    /// `replace PLACE COUNT FRAME`: copies of one input are written over as many inputs.
    Replace {
        /// The place in the movie's inputs, counted from 0.
        at: usize,
        /// How many copies.
        count: usize,
        /// The input.
        input: Input,
    },
    /// `delete PLACE COUNT`: inputs are taken out.
    Delete {
        /// The place in the movie's inputs, counted from 0.
        at: usize,
        /// How many inputs.
        count: usize,
    },
}

/// The change that a line, without its newline, says; nothing where it says none. The lines are
/// those of `tas script`, of which only these three kinds are changes.
pub fn read_change(line: &[u8]) -> Option<Change>
    // A line says a change exactly where it is the text of one.
    // Refused: deletion_has_its_numbers_swapped, insert_line_is_no_change*.
    ensures some { IfSome result (IsChangeLine line.now) }
    ensures none { IfNone result ((change : Asked) → IsChangeLine line.now change → ⊥) }
{
    let command = parse_line(line)?;
    // Called for its law: no other command has this line.
    one_command_per_line();
    match command {
        Command::Edit(change) => Some(change),
        _ => None,
    }
}

/// The line of a word, a place, a count and a frame.
fn frames_line<A: Allocator>(
    alloc: A,
    word: &str,
    at: usize,
    count: usize,
    input: Input,
) -> Result<Vec<u8, A>, AllocError>
    ensures { IfOk result
        (λ bytes. bytes.items ≡ line (word.now ++ 32 ∷ frames_text at count input)) }
{
    let mut bytes = format!(in alloc; "{word} {at} {count} ")?.into_bytes();
    bytes.extend_from_slice(&print_frame(input))?;
    bytes.push(b'\n')?;
    Ok(bytes)
}

/// The line of a deletion.
fn delete_line<A: Allocator>(alloc: A, at: usize, count: usize) -> Result<Vec<u8, A>, AllocError>
    ensures { IfOk result (λ bytes. bytes.items ≡ line (change_text (Delete at count))) }
{
    Ok(format!(in alloc; "delete {at} {count}\n")?.into_bytes())
}

/// The line that says a change, with its newline. `AllocError` where memory is refused.
pub fn change_line<A: Allocator>(alloc: A, change: Change) -> Result<Vec<u8, A>, AllocError>
    // A change's line is the definition's text of it.
    // Refused: replacement_is_said_as_insertion.
    ensures { IfOk result (λ bytes. bytes.items ≡ line (change_text change)) }
{
    match change {
        Change::Insert { at, count, input } => frames_line(alloc, "insert", at, count, input),
        Change::Replace { at, count, input } => frames_line(alloc, "replace", at, count, input),
        Change::Delete { at, count } => delete_line(alloc, at, count),
    }
}
