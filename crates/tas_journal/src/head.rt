//! Reading the head of a journal.
//!
//! The third line is read for the length of the movie's text, written again for so many bytes, and compared.

ghost use Rattle.std.specs.Prelude.{◌≡◌, ◌+◌, ◌++◌, ◌<◌, ◌≤◌, ◌^◌, ℕ, List, length, IfOk, IfErr, IfSome, IfNone};
ghost use Rattle.tas_movie.specs.Content.{most_inputs};
ghost use Rattle.tas_movie.specs.Fault.{split_lines};
ghost use Rattle.tas_movie.specs.Text.{text2};
ghost use Rattle.tas_journal.specs.Text.{movie_line, profile_line};
ghost use Rattle.tas_journal.specs.Recovery.{IsHeadError, IsRecoverError, IsTextError, head_of, wrong_at};

use crate::writing::movie_line;
use crate::{JournalError, JournalErrorKind, RecoverError};
use byte_text::{read_decimal, split_once};
use std::alloc::{AllocError, Allocator};
use tas_language::after_prefix;
use tas_movie::{Movie, ReadError, TextErrorKind, read_text};
use vcs_inputs::Cart;
use vcs_machine::PROFILE;

/// The movie's text of a head, and what follows it.
#[derive(Clone, Copy)]
pub(crate) struct HeadParts<'a> {
    /// The movie's text.
    pub text: &'a [u8],
    /// The lines after it.
    pub rest: &'a [u8],
}

/// The error of one of the first three lines.
fn wrong_at(line: usize, kind: JournalErrorKind) -> RecoverError
    ensures { result ≡ wrong_at line kind }
{
    RecoverError::Journal(JournalError { line, kind })
}

/// The second line of a head, with its newline.
fn profile_line<A: Allocator>(alloc: A) -> Result<Vec<u8, A>, AllocError>
    ensures { IfOk result (λ line. line.items ≡ profile_line) }
{
    Ok(format!(in alloc; "profile {PROFILE}\n")?.into_bytes())
}

/// As many bytes after the third line of a head as it says.
fn counted_text(bytes: &[u8]) -> Option<&[u8]>
    ensures some { IfSome result (λ found. (text rest : List ℕ) → length text < 2 ^ 64
        → bytes.entry.now ≡ movie_line text ++ (text ++ rest) → found.now ≡ text) }
    ensures none { IfNone result ((text rest : List ℕ) → length text < 2 ^ 64
        → bytes.entry.now ≡ movie_line text ++ (text ++ rest) → ⊥) }
{
    let words = after_prefix(bytes, b"movie ")?;
    let (count, line) = split_once(words, b' ')?;
    let size = read_decimal(count)?;
    let (_, after) = split_once(line, b'\n')?;
    if size > after.len() {
        return None;
    }
    let (text, _) = after.split_at(size);
    Some(text)
}

/// The movie's text, and what follows it, where these bytes begin with the third line of a head and the text.
fn movie_parts<'a, A: Allocator + Copy>(
    alloc: A,
    bytes: &'a [u8],
) -> Result<Option<HeadParts<'a>>, AllocError>
    ensures some { IfOk result (λ found. IfSome found
        (λ parts. bytes.entry.now ≡ movie_line parts.text.now ++ (parts.text.now ++ parts.rest.now))) }
    ensures none { IfOk result (λ found. IfNone found
        ((text rest : List ℕ) → length text < 2 ^ 64
        → bytes.entry.now ≡ movie_line text ++ (text ++ rest) → ⊥)) }
{
    let Some(text) = counted_text(bytes) else {
        return Ok(None);
    };
    let line = movie_line(alloc, text)?;
    let Some(after) = after_prefix(bytes, line.as_slice()) else {
        return Ok(None);
    };
    match after_prefix(after, text) {
        Some(rest) => Ok(Some(HeadParts { text, rest })),
        None => Ok(None),
    }
}

/// The movie's text of a head, and what follows it.
pub(crate) fn head_parts<'a, A: Allocator + Copy>(
    alloc: A,
    bytes: &'a [u8],
) -> Result<HeadParts<'a>, RecoverError>
    ensures some { IfOk result
        (λ parts. bytes.entry.now ≡ head_of parts.text.now parts.rest.now) }
    ensures none { IfErr result (IsRecoverError (IsHeadError bytes.entry.now)) }
{
    let Some(second) = after_prefix(bytes, b"a26journal 1\n") else {
        return Err(wrong_at(1, JournalErrorKind::Head));
    };
    let Ok(line) = profile_line(alloc) else {
        return Err(RecoverError::Memory);
    };
    let Some(third) = after_prefix(second, line.as_slice()) else {
        return Err(wrong_at(2, JournalErrorKind::Profile));
    };
    match movie_parts(alloc, third) {
        Ok(Some(parts)) => Ok(parts),
        Ok(None) => Err(wrong_at(3, JournalErrorKind::Movie)),
        Err(_) => Err(RecoverError::Memory),
    }
}

/// The movie of a head's text.
pub(crate) fn head_movie<A: Allocator + Copy, B: Allocator>(
    alloc: A,
    text: &[u8],
    cart: &Cart<B>,
) -> Result<Movie<A>, RecoverError>
    requires { 4 + length text.now < 2 ^ 64 }
    ensures cart { IfOk result (λ movie. movie.cart ≡ cart.now) }
    ensures text { IfOk result (λ movie. text.now ≡ text2 movie) }
    ensures few { IfOk result (λ movie. length movie.inputs ≤ most_inputs) }
    ensures wrong { IfErr result (IsRecoverError (IsTextError text.now cart.now)) }
{
    let Some(_) = after_prefix(text, b"a26movie 2\n") else {
        return Err(wrong_at(4, JournalErrorKind::Text(TextErrorKind::Head)));
    };
    match read_text(alloc, text, cart) {
        Ok(movie) => Ok(movie),
        Err(ReadError::Memory) => Err(RecoverError::Memory),
        Err(ReadError::Text(error)) => Err(wrong_at(
            3 + error.line,
            JournalErrorKind::Text(error.kind),
        )),
    }
}

/// How many newlines a text has.
pub(crate) fn count_lines(text: &[u8]) -> usize
    ensures lines { result ≡ length (split_lines text.now).lines }
    ensures bound { result ≤ length text.now }
{
    let mut rest = text;
    let mut count = 0;
    while !rest.is_empty() {
        let Some((_, after)) = split_once(rest, b'\n') else {
            return count;
        };
        rest = after;
        count += 1;
    }
    count
}
