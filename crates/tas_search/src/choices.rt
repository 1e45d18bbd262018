//! Choices files.

ghost use Rattle.std.specs.Prelude.{◌≡◌, IfOk, IfErr};
ghost use Rattle.tas_search.specs.declared.choices.ChoicesError.TheVariants.{Memory as Refused};
ghost use Rattle.tas_search.specs.ChoicesFile.{AreChoicesOf, IsChoicesError};
ghost use Rattle.tas_search.specs.StickChoices.{pushed, stick_choices};

use byte_text::split_once;
use std::alloc::{AllocError, AllocFailed, Allocator};
use tas_movie::read_frame;
use thiserror::Error;
use vcs_inputs::Input;

/// What is wrong with a line of a choices file.
#[derive(Clone, Copy, Debug, PartialEq, Eq, Error)]
pub enum ChoicesFaultKind {
    /// No newline ends the line, or there is no line at all.
    #[error("end")]
    End,
    /// The line is no frame.
    #[error("frame")]
    Frame,
}

/// Why no choices were read.
#[derive(Clone, Copy, Debug, PartialEq, Eq, Error)]
pub enum ChoicesError {
    /// Out of memory.
    #[error("out of memory")]
    Memory,
    /// The first line at fault.
    #[error("choices line {line}: {kind}")]
    Line {
        /// The line's number, counted from 1.
        line: usize,
        /// What is wrong with it.
        kind: ChoicesFaultKind,
    },
}

impl From<AllocError> for ChoicesError {
    ghost from_gives = { λ _ fault. fault ≡ Refused };

    fn from(_error: AllocError) -> ChoicesError {
        ChoicesError::Memory
    }
}

impl<T: Drop> From<AllocFailed<T>> for ChoicesError {
    ghost from_gives = { λ _ fault. fault ≡ Refused };

    fn from(_error: AllocFailed<T>) -> ChoicesError {
        ChoicesError::Memory
    }
}

/// Reads a choices file: one frame or more, a line for each.
pub fn read_choices<A: Allocator>(alloc: A, text: &[u8]) -> Result<Vec<Input, A>, ChoicesError>
    // Refused: no_choice_is_accepted, wrong_frame_is_reported_as_no_end, choices_fault_is_one_line_early.
    ensures read { IfOk result (λ choices. AreChoicesOf text.now choices.items) }
    ensures fault { IfErr result (IsChoicesError text.now) }
{
    let mut choices = Vec::new(alloc);
    let mut rest = text;
    while choices.is_empty() || !rest.is_empty() {
        let number = choices.len() + 1;
        let Some((line, after)) = split_once(rest, b'\n') else {
            return Err(ChoicesError::Line {
                line: number,
                kind: ChoicesFaultKind::End,
            });
        };
        let Some(input) = read_frame(line) else {
            return Err(ChoicesError::Line {
                line: number,
                kind: ChoicesFaultKind::Frame,
            });
        };
        choices.push(input)?;
        rest = after;
    }
    Ok(choices)
}

/// The input of a left stick that is pushed so, with nothing else pressed.
fn pushed(right: bool, left: bool, down: bool, up: bool, fire: bool) -> Input
    ensures { result ≡ pushed right left down up fire }
{
    let mut input = Input::none();
    input.left.right = right;
    input.left.left = left;
    input.left.down = down;
    input.left.up = up;
    input.left.fire = fire;
    input
}

/// The choices of a search that is given none: the left stick in each of its nine directions without fire, and then in each of them
/// with fire. The directions: none, right, left, down, up, right down, right up, left down, left up.
pub fn stick_choices() -> [Input; 18]
    // Without a choices file the choices are the left stick's nine directions without fire, and then with it.
    // Refused: second_choice_is_to_the_left.
    ensures { result ≡ stick_choices }
{
    [
        pushed(false, false, false, false, false),
        pushed(true, false, false, false, false),
        pushed(false, true, false, false, false),
        pushed(false, false, true, false, false),
        pushed(false, false, false, true, false),
        pushed(true, false, true, false, false),
        pushed(true, false, false, true, false),
        pushed(false, true, true, false, false),
        pushed(false, true, false, true, false),
        pushed(false, false, false, false, true),
        pushed(true, false, false, false, true),
        pushed(false, true, false, false, true),
        pushed(false, false, true, false, true),
        pushed(false, false, false, true, true),
        pushed(true, false, true, false, true),
        pushed(true, false, false, true, true),
        pushed(false, true, true, false, true),
        pushed(false, true, false, true, true),
    ]
}
