//! The program's three streams.
//!
//! Contracts see the three as one value, `Streams`: the bytes left of the input and those that the output holds. Of
//! standard error they say nothing.

use std::io::{Read, Write};
use std::marker::Model;

/// Standard input, standard output and standard error. Contracts see the bytes that are left of the input and those that the output
/// holds; of what goes to standard error they say nothing.
#[derive(Drop)]
pub struct Streams<R: Read, W: Write, E: Write> {
    /// Standard input.
    pub input: R,
    /// Standard output.
    pub output: W,
    /// Standard error, for the line of a fault and for why words aren't understood.
    pub errors: E,
}

impl<R: Read, W: Write, E: Write> Model for Streams<R, W, E> {
    ghost use Rattle.tas_program.specs.Streams.{StreamBytes};

    ghost Value = { StreamBytes };

    ghost view = { λ s. record { input = R.remaining s.input; output = W.contents s.output } };
}
