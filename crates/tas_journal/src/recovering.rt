//! Recovering a journal's movie.
//!
//! Lines are read one at a time, each edit is made before the next is read, and nothing is kept of it. A fault names the line; what the
//! lines before it make is had by reading up to it.

ghost use Rattle.std.specs.Prelude.{◌≡◌, ◌+◌, ◌<◌, ◌≤◌, ◌^◌, take, min, length, true, false, Ok, Err, IfOk, OnOk, IfErr};
ghost use Rattle.tas_movie.specs.Fault.{split_lines};
ghost use Rattle.tas_journal.specs.Recovery.{IsLineError, IsRecoverError, IsRecovered, IsUnrecovered, LineMakes, LinesMake, error_at, IsCut};

use crate::entries::{LineError, read_entry};
use crate::head::{count_lines, head_movie, head_parts};
use crate::{JournalError, JournalErrorKind, RecoverError};
use byte_text::split_once;
use std::alloc::{Allocator, Global};
use tas_movie::{Movie, apply, check};
use vcs_inputs::Cart;

/// What the lines of a journal made.
#[derive(Clone, Copy)]
pub(crate) struct Made {
    /// How many edits.
    pub edits: usize,
    /// Whether bytes of a line without its newline follow.
    pub cut: bool,
}

/// Makes the edit of a line, without its newline, that is the entry of this number.
fn make_line<A: Allocator + Copy>(
    alloc: A,
    movie: &mut Movie<A>,
    number: usize,
    said: &[u8],
) -> Result<(), LineError>
    ensures made { OnOk result (LineMakes A number movie.old said.now (Ok movie.new)) }
    ensures wrong { IfErr result
        (IsLineError (λ kind. LineMakes A number movie.old said.now (Err kind))) }
{
    let edit = match read_entry(alloc, number, said) {
        Ok(edit) => edit,
        Err(error) => return Err(error),
    };
    match check(movie, &edit) {
        Ok(()) => {
            apply(movie, &edit);
            Ok(())
        }
        Err(refusal) => Err(LineError::Wrong(JournalErrorKind::Refused(refusal))),
    }
}

/// The error of a line.
fn error_at(line: usize, error: LineError) -> RecoverError
    ensures { result ≡ error_at line error }
{
    match error {
        LineError::Memory => RecoverError::Memory,
        LineError::Wrong(kind) => RecoverError::Journal(JournalError { line, kind }),
    }
}

/// Makes the edits of some lines, at most this many, the first of which has the number `first` in the journal.
pub(crate) fn make_lines<A: Allocator + Copy>(
    alloc: A,
    movie: &mut Movie<A>,
    text: &[u8],
    first: usize,
    most: usize,
) -> Result<Made, RecoverError>
    requires { first + length text.now < 2 ^ 64 }
    // Whole lines alone are edits; bytes that no newline ends are none, and are reported.
    // Refused: cut_line_is_taken_as_an_edit.
    ensures made { OnOk result
        (LinesMake A first 0 movie.old (take most (split_lines text.now).lines) (Ok movie.new)) }
    ensures edits { IfOk result
        (λ made. made.edits ≡ min most (length (split_lines text.now).lines)) }
    ensures cut { IfOk result (λ made. made.cut ≡ true → IsCut most text.now) }
    ensures whole { IfOk result (λ made. made.cut ≡ false → IsCut most text.now → ⊥) }
    ensures wrong { IfErr result (IsRecoverError
        (λ e. LinesMake A first 0 movie.old (take most (split_lines text.now).lines) (Err e))) }
{
    let mut rest = text;
    let mut edits = 0;
    while edits < most {
        let Some((said, after)) = split_once(rest, b'\n') else {
            let cut = !rest.is_empty();
            return Ok(Made { edits, cut });
        };
        match make_line(alloc, movie, edits, said) {
            Ok(()) => {
                rest = after;
                edits += 1;
            }
            Err(error) => return Err(error_at(first + edits, error)),
        }
    }
    Ok(Made { edits, cut: false })
}

/// What was recovered from a journal.
#[derive(Drop)]
pub struct Recovered<A: Allocator = Global> {
    /// The movie that the journal makes.
    pub movie: Movie<A>,
    /// How many edits it has.
    pub edits: usize,
    /// Whether a last line was cut: bytes that no newline ends follow the last edit.
    pub cut: bool,
}

impl<A: Allocator> Recovered<A> {
    /// The image of the movie's cartridge, 2,048 or 4,096 bytes: that of the last edit that loaded one, or of the cartridge that the
    /// journal began with.
    pub fn image(&self) -> &[u8]
        // The image is that of the cartridge which the movie has, so that the two belong together.
        // Refused: recovered_image_lacks_its_first_byte.
        ensures { result.now ≡ self.now.movie.cart }
    {
        self.movie.cart().bytes()
    }
}

/// What is recovered from a journal with the cartridge that it began with: its edits are those of the lines before the line `until`,
/// counted from 1, so that `usize::MAX` asks for all. Bytes that no newline ends are no edit, and no fault. Else the first line at
/// fault, or `Memory`.
pub fn recover<A: Allocator + Copy, B: Allocator>(
    alloc: A,
    bytes: &[u8],
    cart: &Cart<B>,
    until: usize,
) -> Result<Recovered<A>, RecoverError>
    // What is recovered is the movie that a head's movie, of this cartridge, is after the edits of the lines before `until`, how many they
    // are, and whether bytes without a newline follow them. The head has this machine's profile, and the text's length and digest.
    // Refused: line_before_the_last_one_isnt_made, cut_line_isnt_reported, older_text_begins_a_journal,
    // head_of_another_profile_is_read.
    ensures made { IfOk result
        (λ found. IsRecovered A bytes.now cart.now until found.movie found.edits found.cut) }
    // An error other than `Memory` is the first line at fault, of the head, of its movie's text or of the edits, and what is wrong with it.
    // Refused: fault_of_the_text_is_counted_from_its_own_first_line.
    ensures wrong { IfErr result (IsRecoverError (IsUnrecovered A bytes.now cart.now until)) }
{
    let parts = match head_parts(alloc, bytes) {
        Ok(parts) => parts,
        Err(error) => return Err(error),
    };
    let mut movie = match head_movie(alloc, parts.text, cart) {
        Ok(movie) => movie,
        Err(error) => return Err(error),
    };
    let first = count_lines(parts.text) + 4; // the head's three lines, the movie's, and the next one
    match make_lines(
        alloc,
        &mut movie,
        parts.rest,
        first,
        until.saturating_sub(first),
    ) {
        Ok(made) => Ok(Recovered {
            movie,
            edits: made.edits,
            cut: made.cut,
        }),
        Err(error) => Err(error),
    }
}
