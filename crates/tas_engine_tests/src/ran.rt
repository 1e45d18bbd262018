//! Engines over inputs of the tests' own, what they write and how they end.

use crate::checks::{check_same, check_that};
use std::alloc::Global;
use std::fmt::Debug;
use std::io::{Read, Write};
use std::process::Abort;
use tas_engines::{
    ReadFault, RunFault, ToolFault, Whole, check_run, commands, run as run_command, shot_run,
    trace_run,
};
use tas_movie::{TextError, TextErrorKind};
use test_streams::{Failure, Taker};

/// An engine that reads a cartridge and then a movie's text.
#[derive(Clone, Copy, Debug)]
pub enum Engine {
    /// Of three instructions; it reads no movie.
    Trace,
    Check,
    Migrate,
    /// Of so many frames; it reads no movie.
    New(usize),
    /// Of this frame.
    Shot(usize),
    /// From one number of frames to the one before another.
    Ram(usize, usize),
    /// In stretches of this many frames, of 0 as of 1.
    Digest(usize),
    Lag,
    /// From one frame to the one before another.
    Cut(usize, usize),
}

/// A command that reads a cartridge, another file or two, and then a movie's text.
#[derive(Clone, Copy)]
pub enum FileEngine {
    /// The file is a script.
    Edit,
    /// The files are a script and a second movie's text.
    EditWith,
    /// The file is the older movie's text, here and at the next one.
    Diff,
    Compare,
    /// The file has names; from one number of frames to the one before another.
    RamTable(usize, usize),
}

/// What an engine wrote, and how it ended.
pub type Ran = (Vec<u8>, Result<(), ToolFault>);

/// Runs an engine over this cartridge, in a list of its own, that writes to this writer.
pub fn run_to<C: Read, T: Read, W: Write>(
    alloc: Global,
    engine: Engine,
    cart: &mut [C; 1],
    text: &mut T,
    output: &mut W,
) -> Result<(), ToolFault> {
    match engine {
        Engine::Trace => trace_run(alloc, 3, &mut cart[0], output),
        Engine::Check => check_run(alloc, &mut cart[0], text, output),
        Engine::Migrate => run_command(alloc, &Whole(commands::Migrate), cart, text, output),
        Engine::New(frames) => {
            let mut none: [&[u8]; 0] = [];
            run_command(
                alloc,
                &Whole(commands::New { frames }),
                &mut none,
                &mut cart[0],
                output,
            )
        }
        Engine::Shot(frame) => shot_run(alloc, frame, &mut cart[0], text, output),
        Engine::Ram(from, to) => {
            run_command(alloc, &commands::Ram { from, to }, cart, text, output)
        }
        Engine::Digest(every) => {
            run_command(
                alloc,
                &Whole(commands::Digest { every }),
                cart,
                text,
                output,
            )
        }
        Engine::Lag => run_command(alloc, &Whole(commands::Lag), cart, text, output),
        Engine::Cut(from, to) => {
            run_command(
                alloc,
                &Whole(commands::Cut { from, to }),
                cart,
                text,
                output,
            )
        }
    }
}

/// Runs an engine.
pub fn run<C: Read, T: Read>(
    alloc: Global,
    engine: Engine,
    cart: &mut [C; 1],
    text: &mut T,
) -> Ran {
    let mut output = Vec::new(alloc);
    let end = run_to(alloc, engine, cart, text, &mut output);
    (output, end)
}

/// The same on bytes.
pub fn run_on(alloc: Global, engine: Engine, cart: &[u8], text: &[u8]) -> Ran {
    run(alloc, engine, &mut [cart], &mut { text })
}

/// Runs a command that reads files beside the movie, to this writer.
pub fn run_beside_to<F: Read, T: Read, W: Write>(
    alloc: Global,
    engine: FileEngine,
    files: &mut [F],
    text: &mut T,
    output: &mut W,
) -> Result<(), ToolFault> {
    match engine {
        FileEngine::Edit => run_command(alloc, &Whole(commands::Edit), files, text, output),
        FileEngine::EditWith => {
            run_command(alloc, &Whole(commands::EditWith), files, text, output)
        }
        FileEngine::Diff => run_command(alloc, &Whole(commands::Diff), files, text, output),
        FileEngine::Compare => run_command(alloc, &Whole(commands::Compare), files, text, output),
        FileEngine::RamTable(from, to) => {
            run_command(alloc, &commands::RamTable { from, to }, files, text, output)
        }
    }
}

/// Runs such a command.
pub fn run_beside<F: Read, T: Read>(
    alloc: Global,
    engine: FileEngine,
    files: &mut [F],
    text: &mut T,
) -> Ran {
    let mut output = Vec::new(alloc);
    let end = run_beside_to(alloc, engine, files, text, &mut output);
    (output, end)
}

/// The same on bytes.
pub fn run_beside_on(
    alloc: Global,
    engine: FileEngine,
    cart: &[u8],
    file: &[u8],
    text: &[u8],
) -> Ran {
    run_beside(alloc, engine, &mut [cart, file], &mut { text })
}

/// Fails where an engine ended in another way than well, or wrote other bytes.
pub fn check_ran<R: Abort, C: Copy + Debug>(rt: &R, case: C, ran: Ran, wanted: &[u8]) {
    let (written, end) = ran;
    check_same(rt, case, end, Ok(()));
    check_same(rt, case, written.as_slice(), wanted);
}

/// Fails where an engine ended in another way than by this fault, or wrote something.
pub fn check_fault<R: Abort, C: Copy + Debug>(rt: &R, case: C, ran: Ran, fault: ToolFault) {
    let (written, end) = ran;
    check_same(rt, case, end, Err(fault));
    check_same(rt, case, written.len(), 0);
}

/// How a writer fails.
pub static FAILURES: [Failure; 3] = [Failure::Error, Failure::Interrupted, Failure::Nothing];

/// Fails where a writer with so much room isn't left with the first bytes of an answer, or was written to again.
pub fn check_filled<R: Abort>(
    rt: &R,
    output: &Taker,
    ended: Result<(), ToolFault>,
    answer: &[u8],
    room: usize,
) {
    let fault = ToolFault::Run(RunFault::Write { written: room });
    check_same(rt, ("room", room), ended, Err(fault));
    let is_first = Some(output.taken.as_slice()) == answer.get(..room);
    check_that(rt, ("the first bytes", room), is_first);
    check_same(rt, ("failed writes", room), output.failed, 1);
}

/// A failed read.
pub const FAILED: ToolFault = ToolFault::Read(ReadFault::Failed);

/// An input past the limit.
pub const TOO_LONG: ToolFault = ToolFault::Read(ReadFault::TooLong);

/// The text ends after its first line.
pub const NO_END: RunFault = RunFault::Text(TextError {
    line: 2,
    kind: TextErrorKind::End,
});

/// The text is of another cartridge's movie.
pub const OTHER_DIGEST: RunFault = RunFault::Text(TextError {
    line: 2,
    kind: TextErrorKind::Digest,
});
