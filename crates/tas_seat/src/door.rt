//! Connections to the programs that seats talk to.
//!
//! A door may say what is known of its ends (`DoorFacts`), before it is opened and once it is closed: so a contract can
//! tell a conversation that was held from one that wasn't, though both ends are opened and closed inside. Of files
//! nothing is known.

ghost use Rattle.std.specs.Prelude.{◌≡◌, IfOk, OnErr};
ghost use Rattle.tas_seat.specs.Lines.{DoorFacts, unknown_facts};

use std::io;
use std::io::{Read, Write};

/// A connection to the program that a seat talks to. It is opened once the seat's conversation begins, and closed when it has ended.
pub trait Door {
    /// What the seat reads from.
    type Input: Read + Drop + Send;
    /// What it writes to.
    type Output: Write + Drop + Send;

    // What is known of such a door: the bytes of both ends before it is opened and once it is closed, and that it couldn't be opened.
    ghost facts: { DoorFacts Self } = { unknown_facts };

    /// Opens the input, and then the output; it may wait for their other ends. An error where one can't be opened.
    fn open(&mut self) -> io::Result<(Self::Input, Self::Output)>
        ensures input { IfOk result (λ ends. Self.Input.remaining ends.0 ≡ facts.given self.old) }
        ensures output { IfOk result (λ ends. Self.Output.contents ends.1 ≡ facts.held self.old) }
        ensures refused { OnErr result (facts.refused self.new) };

    /// Closes both.
    fn close(&mut self, input: Self::Input, output: Self::Output)
        ensures { facts.left self.new (Self.Input.remaining input) (Self.Output.contents output) };
}
