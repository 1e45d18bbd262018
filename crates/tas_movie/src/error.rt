//! Why bytes are no text of a movie.

use thiserror::Error;

/// What is wrong with a line.
#[derive(Clone, Copy, Debug, PartialEq, Eq, Error)]
pub enum TextErrorKind {
    /// Line 1 is neither `a26movie 1` nor `a26movie 2`.
    #[error("head")]
    Head,
    /// Line 2 isn't the one that names the given cartridge by its digest.
    #[error("digest")]
    Digest,
    /// A further line isn't a frame, or in the text of runs a run.
    #[error("frame")]
    Frame,
    /// The line is missing, which is a fault of the first two alone, or no newline ends it.
    #[error("end")]
    End,
    /// As many frames as the text has at most stand before the line, or there would be more with it.
    #[error("too many")]
    TooMany,
    /// The line's frame is that of the line before: a fault of the text of runs alone.
    #[error("run")]
    Run,
}

/// The first line at fault.
#[derive(Clone, Copy, Debug, PartialEq, Eq, Error)]
#[error("movie line {line}: {kind}")]
pub struct TextError {
    /// The line's number, counted from 1.
    pub line: usize,
    /// What is wrong with it.
    pub kind: TextErrorKind,
}

/// Why no movie was read.
#[derive(Clone, Copy, Debug, PartialEq, Eq, Error)]
pub enum ReadError {
    /// The room for a movie was refused; nothing is said of the text.
    #[error("out of memory")]
    Memory,
    /// The bytes aren't the text of a movie with the given cartridge.
    #[error("{0}")]
    Text(TextError),
}
