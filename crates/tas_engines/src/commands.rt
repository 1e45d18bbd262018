//! The commands that need no desk, as functions of their inputs' bytes, and how one is run.
//!
//! A command's definition speaks of its inputs' bytes alone; what readers and writer have before and after is said once, of
//! lists of any length. A command asks nothing of its caller: an input that isn't given has no bytes, as an empty file has
//! none, and a number past its range counts as the nearest one in it.
//!
//! `trace_run`, `check_run` and `shot_run` stay beside their commands, as libraries call them: each takes readers of two
//! types, and `run` a list of files of one. The language has no list of one borrowed reader whose type is a parameter.
//! `film`, `export`, `script`, `talk` and `desk` are no such commands: a film has written pictures when it ends at a halted
//! frame, and the others need the runtime.

ghost use Rattle.std.specs.Prelude.{◌≡◌, map, Ok, Err, IfOk, IfErr};
ghost use Rattle.tas_engines.specs.Output.{Ends};
ghost use Rattle.tas_engines.specs.Commands.{bytes_of, IsRun};

pub use crate::checking::Check;
pub use crate::compare::Compare;
pub use crate::cutting::Cut;
pub use crate::diffing::Diff;
pub use crate::digest::Digest;
pub use crate::editing::{Edit, EditWith};
pub use crate::lag::Lag;
pub use crate::migrating::Migrate;
pub use crate::ram::Ram;
pub use crate::ram_table::RamTable;
use crate::reading::{read_all, read_onto};
pub use crate::shooting::Shot;
pub use crate::starting::New;
pub use crate::tracing::Trace;
use crate::{RunFault, ToolFault, write_all};
use std::alloc::Allocator;
use std::io::{Read, Write};

/// A command with its numbers: a function of the bytes of its inputs, in the order in which they are read. One that isn't given has no
/// bytes, and those after its last one don't matter.
///
/// A command that implements this trait writes its answer itself, as `Trace` and `Ram` do while they play. One that makes its whole answer
/// first implements [`Text`], and [`Whole`] writes it.
pub trait Command {
    ghost use Rattle.tas_engines.specs.Commands.{Answers};

    // What it answers to its inputs.
    ghost answers: { Self → Answers };

    /// Writes the answer to these inputs. Where it ends with a fault, nothing is written, but for `Write`: then the first bytes of the answer
    /// are, and it has their number.
    fn answer<A: Allocator + Copy, W: Write>(
        &self,
        alloc: A,
        inputs: &[Vec<u8, A>],
        output: &mut W,
    ) -> Result<(), RunFault>
        ensures { Ends (answers self.now (map (λ bytes. bytes.items) inputs.now))
            (W.contents output.old) (W.contents output.new) result };
}

/// A command with its numbers that makes its whole answer before any of it is written.
pub trait Text {
    ghost use Rattle.tas_engines.specs.Commands.{Answers};

    // What it answers to its inputs.
    ghost answers: { Self → Answers };

    /// The answer to these inputs, or why there is none.
    fn text<A: Allocator + Copy>(
        &self,
        alloc: A,
        inputs: &[Vec<u8, A>],
    ) -> Result<Vec<u8, A>, RunFault>
        ensures text { IfOk result
            (λ text. answers self.now (map (λ bytes. bytes.items) inputs.now) (Ok text.items)) }
        ensures fault { IfErr result
            (λ fault. answers self.now (map (λ bytes. bytes.items) inputs.now) (Err fault)) };
}

/// The command that writes the answer once all of it is made.
#[derive(Clone, Copy)]
pub struct Whole<T: Text>(pub T);

impl<T: Text> Command for Whole<T> {
    // A command that makes its whole answer before any of it is written makes the definition's answer to its inputs'
    // bytes, or reports its fault; all of it is written then.
    // Refused: first_byte_of_an_answer_is_left_out.
    ghost answers = { λ whole. T.answers whole.0 };

    fn answer<A: Allocator + Copy, W: Write>(
        &self,
        alloc: A,
        inputs: &[Vec<u8, A>],
        output: &mut W,
    ) -> Result<(), RunFault> {
        let text = self.0.text(alloc, inputs)?;
        write_all(output, text.as_slice())
    }
}

/// The bytes of the input at this place, counted from 0: none where there is no such input.
pub(crate) fn bytes_of<A: Allocator>(inputs: &[Vec<u8, A>], place: usize) -> &[u8]
    // A command's inputs are those at their places, and one that isn't given has no bytes.
    // Refused: last_input_has_no_bytes.
    ensures { result.now ≡ bytes_of (map (λ bytes. bytes.items) inputs.now) place }
{
    if place < inputs.len() {
        inputs[place].as_slice()
    } else {
        &[]
    }
}

/// Reads the files and then the input, each as [`read_input`](crate::read_input) does, and answers them.
///
/// Faults, in order: that of the first one that isn't read whole, and those after it are left untouched; then those of the command. `Memory`
/// with nothing written at any point.
pub fn run<C: Command, A: Allocator + Copy, F: Read, R: Read, W: Write>(
    alloc: A,
    command: &C,
    files: &mut [F],
    input: &mut R,
    output: &mut W,
) -> Result<(), ToolFault>
    // A command is a function of its inputs' bytes. Its files and then its input are read so, and its answer to their
    // bytes is written, or its fault reported with nothing written; after `Write` the first bytes are out, as many as
    // it reports.
    // Refused: input_is_read_only_without_files.
    ensures { IsRun (C.answers command.now) (map F.remaining files.old)
        (map F.remaining files.new) (R.remaining input.old) (R.remaining input.new)
        (W.contents output.old) (W.contents output.new) result }
{
    let mut inputs = read_all(alloc, files)?;
    read_onto(alloc, &mut inputs, input)?;
    Ok(command.answer(alloc, inputs.as_slice(), output)?)
}
