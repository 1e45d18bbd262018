//! The part of its space that a search is asked for.
//!
//! clap has no parser of two numbers, so it reads the word as a text, and one that isn't a part is refused here.

ghost use Rattle.std.specs.Prelude.{◌≡◌, ◌≢◌, IfNone, IfSome, codes};
ghost use Rattle.clap.specs.Words.{found_of, rows_of};
ghost use Rattle.tas_words.specs.Task.{IsPart, IsPartOr, IsWord, part_text};
ghost use Rattle.tas_words.specs.declared.task.PartWords.{PartWords as SaidPart};

use crate::command_line::command_of;
use crate::tips::command_named;
use crate::words::word_of;
use crate::{MAX_PARTS, PartWords};
use byte_text::{read_decimal, split_once};
use clap::error::ErrorKind;
use clap::{ArgMatches, Command, Error};
use std::alloc::{AllocError, Global};

/// The part of these numbers; nothing where there is no such part.
fn part_with(number: usize, of: usize) -> Option<PartWords>
    ensures some { IfSome result (λ part. (part.number ≡ number) × (part.of ≡ of) × IsPart part) }
    ensures none { IfNone result ((part : SaidPart)
        → (part.number ≡ number) → (part.of ≡ of) → IsPart part → ⊥) }
{
    if 1 <= number && number <= of && of <= MAX_PARTS {
        Some(PartWords { number, of })
    } else {
        None
    }
}

/// The part that a text `K/N` is; nothing where there is no such part.
fn read_part(text: &str) -> Option<PartWords>
    ensures some { IfSome result (λ part. (text.now ≡ part_text part) × IsPart part) }
    ensures none { IfNone result ((part : SaidPart) → IsPart part → text.now ≢ part_text part) }
{
    let (first, second) = split_once(text.as_bytes(), b'/')?;
    let number = read_decimal(first)?;
    let of = read_decimal(second)?;
    part_with(number, of)
}

/// The part of a search's words, which is all of the space where they have none; nothing where their word isn't a part.
pub(crate) fn part_of(matches: &ArgMatches<'_>) -> Option<PartWords>
    ensures some { IfSome result (IsPartOr (rows_of (found_of matches.now)) (codes "K/N")) }
    ensures none { IfNone result ((part : SaidPart)
        → IsPartOr (rows_of (found_of matches.now)) (codes "K/N") part → ⊥) }
{
    match word_of(matches, "K/N") {
        Some(text) => read_part(text),
        None => Some(PartWords { number: 1, of: 1 }),
    }
}

/// The word of a command for a part that isn't one.
fn no_part_of<'a>(matches: &ArgMatches<'a>) -> Option<&'a str>
    ensures { IfSome result (λ text. IsWord (rows_of (found_of matches.now)) (codes "K/N") text.now
        × ((part : SaidPart) → IsPart part → text.now ≢ part_text part)) }
{
    let text = word_of(matches, "K/N")?;
    if read_part(text).is_none() {
        Some(text)
    } else {
        None
    }
}

/// Why a search's words ask for nothing, where this text isn't a part of its space. It shows the search's usage.
fn no_part(alloc: Global, line: &mut Command<'_>, text: &str) -> Result<Error, AllocError> {
    let message = format!(in alloc;
        "invalid value '{text}' for '--first <K/N>': numbers with 1 <= K <= N <= 1000000 are wanted"
    )?;
    match command_named("search") {
        Some(search) => {
            let mut search = command_of(alloc, search)?;
            search.error(ErrorKind::ValueValidation, message.as_str())
        }
        None => line.error(ErrorKind::ValueValidation, message.as_str()),
    }
}

/// Why matched words ask for nothing: of a search, its part isn't one.
pub(crate) fn refusal_of(
    alloc: Global,
    line: &mut Command<'_>,
    matches: &ArgMatches<'_>,
) -> Result<Error, AllocError> {
    let words = matches.subcommand();
    match words.and_then(|(_, words)| no_part_of(words)) {
        Some(text) => no_part(alloc, line, text),
        // Not expected: clap has met the command's rules. Its clauses say so of the command's name alone, and of words that it `takes`.
        None => line.error(ErrorKind::InvalidSubcommand, "no such command"),
    }
}
