//! `tas trace`.

ghost use Rattle.tas_engines.specs.Commands.{OfOne};
ghost use Rattle.tas_engines.specs.Output.{Ends};
ghost use Rattle.tas_engines.specs.Tracing.{IsTraceAnswer, IsTraceRun};

use crate::commands::{Command, bytes_of};
use crate::{RunFault, ToolFault, read_input};
use std::alloc::Allocator;
use std::io::{Read, Write};
use vcs_machine::{Cart, trace};

/// Writes the trace of an image's first `n` instructions.
fn trace_image<A: Allocator, W: Write>(
    alloc: A,
    n: u32,
    image: &[u8],
    output: &mut W,
) -> Result<(), RunFault>
    ensures { Ends (IsTraceAnswer image.now n) (W.contents output.old) (W.contents output.new)
        result }
{
    let cart = Cart::from_bytes(alloc, image)?;
    match trace(&cart, n, output) {
        Ok(()) => Ok(()),
        Err((written, _error)) => Err(RunFault::Write { written }),
    }
}

/// Reads a cartridge and writes the trace of its first `n` instructions from power-on.
///
/// Faults, in order: those of [`read_input`], then `Size`, each with nothing written; `Memory` with
/// nothing written; `Write` with the first bytes of the trace written, and how many.
pub fn trace_run<A: Allocator, R: Read, W: Write>(
    alloc: A,
    n: u32,
    input: &mut R,
    output: &mut W,
) -> Result<(), ToolFault>
    // `trace_run` reads a cartridge whole and writes its trace, or ends with a fault whose cause holds and nothing
    // written, or with `Write`.
    // Refused: size_not_reported, one_instruction_more*, written_bytes_not_reported*.
    ensures { IsTraceRun n (R.remaining input.old) (R.remaining input.new) (W.contents output.old)
        (W.contents output.new) result }
{
    let image = read_input(&alloc, input)?;
    Ok(trace_image(&alloc, n, image.as_slice(), output)?)
}

/// `tas trace`: the trace of a cartridge's first instructions from power-on, a line each, written as they are executed.
///
/// Faults: `Size`, then `Memory`, both before anything is written.
#[derive(Clone, Copy)]
pub struct Trace {
    /// How many instructions.
    pub instructions: u32,
}

impl Command for Trace {
    ghost answers = { λ trace. OfOne (λ image. IsTraceAnswer image trace.instructions) };

    fn answer<A: Allocator + Copy, W: Write>(
        &self,
        alloc: A,
        inputs: &[Vec<u8, A>],
        output: &mut W,
    ) -> Result<(), RunFault> {
        trace_image(alloc, self.instructions, bytes_of(inputs, 0), output)
    }
}
