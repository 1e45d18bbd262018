//! Why bytes are no journal.

use std::alloc::AllocError;
use tas_movie::{EditRefusal, TextErrorKind};
use thiserror::Error;

/// What is wrong with a line of a journal.
#[derive(Clone, Copy, Debug, PartialEq, Eq, Error)]
pub enum JournalErrorKind {
    /// Line 1 isn't `a26journal 1`.
    #[error("head")]
    Head,
    /// Line 2 doesn't name this machine's profile.
    #[error("profile")]
    Profile,
    /// Line 3 isn't that of a movie's text which follows it.
    #[error("movie")]
    Movie,
    /// The line is the first one at fault of the movie's text.
    #[error("{0}")]
    Text(TextErrorKind),
    /// The line doesn't begin with the number of edits before it and a space.
    #[error("number")]
    Number,
    /// What follows the number isn't the text of a seat and an edit.
    #[error("edit")]
    Edit,
    /// The movie that the lines before it make refuses its edit.
    #[error("{0}")]
    Refused(EditRefusal),
}

/// The first line at fault.
#[derive(Clone, Copy, Debug, PartialEq, Eq, Error)]
#[error("journal line {line}: {kind}")]
pub struct JournalError {
    /// The line's number, counted from 1.
    pub line: usize,
    /// What is wrong with it.
    pub kind: JournalErrorKind,
}

/// Why nothing was recovered.
#[derive(Clone, Copy, Debug, PartialEq, Eq, Error)]
pub enum RecoverError {
    /// Memory was refused; nothing is said of the journal.
    #[error("out of memory")]
    Memory,
    /// The bytes aren't a journal with the given cartridge.
    #[error("{0}")]
    Journal(JournalError),
}

impl From<AllocError> for RecoverError {
    ghost use Rattle.std.specs.Prelude.{◌≡◌};
    ghost use Rattle.tas_journal.specs.declared.error.RecoverError.TheVariants.{Memory};

    ghost from_gives = { λ _ e. e ≡ Memory };

    fn from(_refused: AllocError) -> RecoverError {
        RecoverError::Memory
    }
}
