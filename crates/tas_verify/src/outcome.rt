//! What came of a movie.

use tas_engines::ReadFault;
use tas_movie::TextError;

/// Which of a movie's three files.
#[derive(Clone, Copy, Debug, PartialEq, Eq)]
pub enum Role {
    /// The movie's text.
    Movie,
    /// The cartridge's image.
    Cartridge,
    /// The digest.
    Digest,
}

/// What came of a movie.
#[derive(Clone, Copy, Debug, PartialEq, Eq)]
pub enum Outcome {
    /// The digest is the movie's.
    Same,
    /// The first line of the digest that isn't the movie's is that of the stretch with this frame as its first one, counted from 0.
    DiffersAt(usize),
    /// The first line that isn't the movie's is this one, counted from 1, and one of the first four: the head, the machine's profile, the
    /// cartridge or the movie.
    DiffersInLine(usize),
    /// This file couldn't be opened.
    NotFound(Role),
    /// This file wasn't read whole.
    Unread(Role, ReadFault),
    /// The cartridge has neither 2,048 nor 4,096 bytes, but this many.
    Size(usize),
    /// The bytes of the movie's file are no text of a movie with the cartridge.
    Text(TextError),
    /// The machine is halted in a frame; this is the first halt.
    Halted {
        /// The address of the undocumented byte.
        at: u16,
        /// The byte.
        opcode: u8,
    },
    /// Memory was refused after the movie's text and its cartridge were read.
    Memory,
}
