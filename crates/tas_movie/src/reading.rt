//! Reading a text of a movie.
//!
//! The second line is compared with the digest's text, so capitals and spaces need no rule of their own.

ghost use Rattle.std.specs.Prelude.{◌≡◌, ◌++◌, ◌∷◌, [], ℕ, List, Option, ◌≤◌, length, MatchResult, OnOk, OnSome, IfOk, IfNone, IfSome, None, Some, true, false, vec_len, vec_capacity};
ghost use Rattle.std.specs.List.{flat_map};
ghost use Rattle.vcs_inputs.specs.declared.input.Input.{Input};
ghost use Rattle.tas_movie.specs.declared.error.TextError.{TextError as FirstFault};
ghost use Rattle.tas_movie.specs.Content.{MovieContent, most_inputs};
ghost use Rattle.tas_movie.specs.Text.{line, frame_text, frame_line, digest_text, most_frames1, IsText};
ghost use Rattle.tas_movie.specs.Fault.{shown_input, is_frame, split_lines, frames_fault, digest_fault, fault_by, fault, IsReadError};

use crate::printing::{FRAME_TEXT_SIZE, print_digest, print_frame};
use crate::run_reading::read_runs;
use crate::{Movie, ReadError, TextError, TextErrorKind};
use std::alloc::Allocator;
use vcs_inputs::{Cart, Input, Stick};

/// How many frames the older text has at most.
pub const MAX_FRAMES1: usize = 65_536;

/// The first line, without its newline, and what follows; nothing where no newline ends it.
pub(crate) fn split_line(bytes: &[u8]) -> Option<(&[u8], &[u8])>
    ensures none { IfNone result (split_lines bytes.now ≡ record { lines = []; rest = bytes.now }) }
    ensures lines { IfSome result (λ parts. split_lines bytes.now ≡ record {
      lines = parts.0.now ∷ (split_lines parts.1.now).lines;
      rest = (split_lines parts.1.now).rest;
    }) }
    ensures bytes { IfSome result (λ parts. bytes.now ≡ line parts.0.now ++ parts.1.now) }
{
    for at in 0..bytes.len() {
        if bytes[at] == b'\n' {
            return Some((&bytes[..at], &bytes[at + 1..]));
        }
    }
    None
}

/// The input that the letters of a line show.
fn shown_input(line: &[u8]) -> Input
    requires { length line.now ≡ FRAME_TEXT_SIZE }
    ensures { result ≡ shown_input line.now }
{
    Input {
        left: Stick {
            right: line[0] == b'R',
            left: line[1] == b'L',
            down: line[2] == b'D',
            up: line[3] == b'U',
            fire: line[4] == b'F',
        },
        right: Stick {
            right: line[6] == b'R',
            left: line[7] == b'L',
            down: line[8] == b'D',
            up: line[9] == b'U',
            fire: line[10] == b'F',
        },
        reset: line[12] == b'r',
        select: line[13] == b's',
        mono: line[14] == b'b',
        left_a: line[15] == b'A',
        right_a: line[16] == b'B',
    }
}

/// The input of which these bytes are the 17 characters, without a newline; nothing where there is
/// none.
pub fn read_frame(line: &[u8]) -> Option<Input>
    // The 17 characters of an input are read as that input and no other, and nothing else is read.
    // Refused: any_letter_is_a_frame, black_and_white_frame_is_refused*.
    ensures some { IfSome result (λ input. line.now ≡ frame_text input) }
    ensures all { (input : Input) → line.now ≡ frame_text input → result ≡ Some input }
    ensures is_frame { OnSome result (is_frame line.now ≡ true) }
    ensures is_none { IfNone result (is_frame line.now ≡ false) }
{
    if line.len() != FRAME_TEXT_SIZE {
        return None;
    }
    let input = shown_input(line);
    if line == print_frame(input).as_slice() {
        Some(input)
    } else {
        None
    }
}

pub(crate) fn error_at(line: usize, kind: TextErrorKind) -> TextError
    ensures { result ≡ record { line = line; kind = kind } }
{
    TextError { line, kind }
}

/// Reads the frames' lines of the older text into an empty list with room for them.
fn read_frames<A: Allocator>(list: &mut Vec<Input, A>, bytes: &[u8]) -> Result<(), TextError>
    requires empty { list.old.items ≡ [] }
    requires room { most_inputs ≤ vec_capacity list.old }
    ensures frames { OnOk result (bytes.now ≡ flat_map frame_line list.new.items) }
    ensures fault { MatchResult result
        (λ _. fault_by (frames_fault 0) bytes.now ≡ None)
        (λ e. fault_by (frames_fault 0) bytes.now ≡ Some e) }
    ensures bound { vec_len list.new ≤ most_frames1 }
    ensures capacity { vec_capacity list.old ≤ vec_capacity list.new }
{
    let mut rest = bytes;
    while !rest.is_empty() {
        let number = list.len() + 3;
        let Some((line, after)) = split_line(rest) else {
            return Err(error_at(number, TextErrorKind::End));
        };
        if list.len() >= MAX_FRAMES1 {
            return Err(error_at(number, TextErrorKind::TooMany));
        }
        let Some(input) = read_frame(line) else {
            return Err(error_at(number, TextErrorKind::Frame));
        };
        list.push(input).unwrap();
        rest = after;
    }
    Ok(())
}

/// What follows the line that names the cartridge by its digest.
fn after_digest<'a, B: Allocator>(bytes: &'a [u8], cart: &Cart<B>) -> Result<&'a [u8], TextError>
    ensures whole { IfOk result
        (λ rest. bytes.entry.now ≡ line (digest_text cart.now) ++ rest.now) }
    // Whatever the faults of the further lines are.
    ensures fault { (further : List (List ℕ) → List ℕ → Option FirstFault)
        → MatchResult result
        (λ rest. fault_by (digest_fault cart.now further) bytes.entry.now
        ≡ fault_by further rest.now)
        (λ e. fault_by (digest_fault cart.now further) bytes.entry.now ≡ Some e) }
{
    let Some((second, rest)) = split_line(bytes) else {
        return Err(error_at(2, TextErrorKind::End));
    };
    if second != print_digest(cart).as_slice() {
        return Err(error_at(2, TextErrorKind::Digest));
    }
    Ok(rest)
}

/// Reads a text of a movie with this cartridge, and returns its inputs in the empty list.
fn read_lines<A: Allocator, B: Allocator>(
    list: &mut Vec<Input, A>,
    bytes: &[u8],
    cart: &Cart<B>,
) -> Result<(), TextError>
    requires empty { list.old.items ≡ [] }
    requires room { most_inputs ≤ vec_capacity list.old }
    ensures movie { OnOk result
        (IsText bytes.now (record { cart = cart.now; inputs = list.new.items })) }
    ensures fault { MatchResult result
        (λ _. fault bytes.now cart.now ≡ None)
        (λ e. fault bytes.now cart.now ≡ Some e) }
    ensures bound { vec_len list.new ≤ most_inputs }
    ensures capacity { vec_capacity list.old ≤ vec_capacity list.new }
{
    let Some((head, after)) = split_line(bytes) else {
        return Err(error_at(1, TextErrorKind::End));
    };
    if head == b"a26movie 1".as_slice() {
        return read_frames(list, after_digest(after, cart)?);
    }
    if head == b"a26movie 2".as_slice() {
        return read_runs(list, after_digest(after, cart)?);
    }
    Err(error_at(1, TextErrorKind::Head))
}

/// Reads a text of a movie with this cartridge: the one that [`print_text`](crate::print_text) writes, or the
/// older one, which has a line for each of at most 65,536 frames. `Memory` comes first (no clause says so),
/// since the room for a movie is reserved before the text is looked at; `Text` names the first line at fault.
pub fn read_text<A: Allocator + Copy, B: Allocator>(
    alloc: A,
    bytes: &[u8],
    cart: &Cart<B>,
) -> Result<Movie<A>, ReadError>
    // What is read is the movie of which these bytes are a text, of either kind, with the given cartridge.
    // Refused: last_newline_missing_is_accepted, last_newline_of_an_older_text_is_accepted,
    // capitals_in_the_digest_are_accepted, run_of_one_is_read_with_its_count*, equal_neighbours_are_read.
    ensures found { IfOk result (λ movie. (movie.cart ≡ cart.now) × IsText bytes.now movie) }
    // A text of a movie is refused only when out of memory, and else gives its own movie.
    // Refused: text_without_frames_is_refused, longest_run_is_refused*.
    ensures all { (movie : MovieContent) → movie.cart ≡ cart.now →
        length movie.inputs ≤ most_inputs → IsText bytes.now movie →
        MatchResult result (λ read. read ≡ movie) (λ e. e ≡ ReadError.Memory) }
    // Bytes with a fault aren't read, and an error other than `Memory` names the first line at fault and its kind.
    // Refused: second_line_at_fault_is_reported_as_the_first, wrong_run_is_reported_as_too_many*,
    // run_of_262145_frames_is_reported_as_too_many*, frames_past_the_most_are_read*,
    // one_frame_too_many_is_read_in_a_run*.
    ensures fault { MatchResult result
        (λ _. fault bytes.now cart.now ≡ None)
        (IsReadError (fault bytes.now cart.now)) }
{
    let Ok(mut movie) = Movie::new(alloc, cart) else {
        return Err(ReadError::Memory);
    };
    match read_lines(&mut movie.list, bytes, cart) {
        Ok(()) => Ok(movie),
        Err(error) => Err(ReadError::Text(error)),
    }
}
