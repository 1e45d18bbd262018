//! Engines with a file more where a flag names one, whose faults name their input.

ghost use Rattle.tas_words.specs.declared.task.Task.TheVariants.{Edit, Ram};
ghost use Rattle.tas_program.specs.Files.{files_by};
ghost use Rattle.tas_program.specs.Program.{DoesTask};

use crate::naming::run_named;
use crate::{Folder, Roles, TaskFault};
use std::alloc::Allocator;
use std::io::{Read, Write};
use tas_engines::{Whole, commands};

/// Makes the edits of a script on the movie whose text is the input.
pub(crate) fn run_edit<A: Allocator + Copy, F: Folder, R: Read, W: Write>(
    alloc: A,
    cart: &str,
    script: &str,
    other: Option<&str>,
    folder: &F,
    input: &mut R,
    output: &mut W,
) -> Result<(), TaskFault>
    ensures { DoesTask (files_by (F.bytes_of folder.now) (F.held_by folder.now) (F.shown folder.now))
        (Edit cart.entry script.entry other.entry)
        (record { input = R.remaining input.old; output = W.contents output.old })
        (record { input = R.remaining input.new; output = W.contents output.new }) result }
{
    match other {
        None => {
            let command = Whole(commands::Edit);
            run_named(
                alloc,
                &command,
                Roles::CartScriptMovie,
                &[cart, script],
                folder,
                input,
                output,
            )
        }
        Some(other) => {
            let command = Whole(commands::EditWith);
            run_named(
                alloc,
                &command,
                Roles::CartScriptOtherMovie,
                &[cart, script, other],
                folder,
                input,
                output,
            )
        }
    }
}

/// Writes RAM after some numbers of frames of the movie whose text is the input, or a table of the bytes that have names.
pub(crate) fn run_ram<A: Allocator + Copy, F: Folder, R: Read, W: Write>(
    alloc: A,
    cart: &str,
    range: (usize, usize),
    names: Option<&str>,
    folder: &F,
    input: &mut R,
    output: &mut W,
) -> Result<(), TaskFault>
    ensures { DoesTask (files_by (F.bytes_of folder.now) (F.held_by folder.now) (F.shown folder.now))
        (Ram cart.entry range.0 range.1 names.entry)
        (record { input = R.remaining input.old; output = W.contents output.old })
        (record { input = R.remaining input.new; output = W.contents output.new }) result }
{
    let (from, to) = range;
    match names {
        None => {
            let command = commands::Ram { from, to };
            let roles = Roles::CartMovie;
            run_named(alloc, &command, roles, &[cart], folder, input, output)
        }
        Some(names) => {
            let command = commands::RamTable { from, to };
            run_named(
                alloc,
                &command,
                Roles::CartNamesMovie,
                &[cart, names],
                folder,
                input,
                output,
            )
        }
    }
}
