//! Engines over one file that is opened, whose faults name no input.

ghost use Rattle.std.specs.Prelude.{[], ◌∷◌, List, Option, ℕ, min};
ghost use Rattle.tas_engines.specs.Commands.{OfOne};
ghost use Rattle.tas_engines.specs.Movies.{IsMovieRun};
ghost use Rattle.tas_engines.specs.Starting.{IsNewAnswer};
ghost use Rattle.tas_movie.specs.Content.{most_inputs};
ghost use Rattle.tas_tool.specs.Films.{IsFilmRun};
ghost use Rattle.tas_tool.specs.Pixmaps.{IsExportAnswer};
ghost use Rattle.tas_program.specs.Program.{EndsOver, IsRunOfFiles, OverOne};

use crate::Folder;
use crate::running::{open, run_over};
use std::alloc::Allocator;
use std::io::{Read, Write};
use std::sync::Wait;
use std::thread::Threads;
use tas_engines::{Whole, commands};
use tas_tool::{ToolFault, export_run, film_run};

/// Writes the text of a movie in which nothing is pressed, with the cartridge of this name. Nothing of standard input is read.
pub(crate) fn run_new<A: Allocator + Copy, F: Folder, W: Write>(
    alloc: A,
    cart: &str,
    frames: usize,
    folder: &F,
    output: &mut W,
) -> Result<(), ToolFault>
    ensures { (input : Option (List ℕ)) →
        EndsOver (F.bytes_of folder.now cart.now ∷ [])
        (IsRunOfFiles (OfOne (IsNewAnswer (min frames most_inputs))))
        (record { input = input; output = W.contents output.old })
        (record { input = input; output = W.contents output.new }) result }
{
    let mut cart = open(folder, cart)?;
    let command = Whole(commands::New { frames });
    run_over(alloc, &command, &[], folder, &mut cart, output)
}

/// Writes the pictures of frames of the movie on the input, with the cartridge of this name.
pub(crate) fn run_film<A: Allocator + Copy, F: Folder, R: Read, W: Write>(
    alloc: A,
    cart: &str,
    from: Option<usize>,
    to: Option<usize>,
    folder: &F,
    input: &mut R,
    output: &mut W,
) -> Result<(), ToolFault>
    ensures { EndsOver (F.bytes_of folder.now cart.now ∷ []) (OverOne (IsFilmRun from to))
        (record { input = R.remaining input.old; output = W.contents output.old })
        (record { input = R.remaining input.new; output = W.contents output.new }) result }
{
    let mut cart = open(folder, cart)?;
    film_run(alloc, from, to, &mut cart, input, output)
}

/// The same by some workers, and nothing is written before all pictures are there.
pub(crate) fn run_export<
    T: Wait + Threads + Sync,
    A: Allocator + Copy + Send + Sync,
    F: Folder,
    R: Read,
    W: Write,
>(
    rt: &T,
    alloc: A,
    cart: &str,
    from: usize,
    to: usize,
    workers: usize,
    folder: &F,
    input: &mut R,
    output: &mut W,
) -> Result<(), ToolFault>
    ensures { EndsOver (F.bytes_of folder.now cart.now ∷ [])
        (OverOne (IsMovieRun (IsExportAnswer from to)))
        (record { input = R.remaining input.old; output = W.contents output.old })
        (record { input = R.remaining input.new; output = W.contents output.new }) result }
{
    let mut cart = open(folder, cart)?;
    export_run(rt, alloc, from, to, workers, &mut cart, input, output)
}
