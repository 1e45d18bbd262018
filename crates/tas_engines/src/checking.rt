//! `tas check`.

ghost use Rattle.std.specs.Prelude.{◌≡◌, Ok, IfOk, IfErr, string_bytes};
ghost use Rattle.tas_engines.specs.Commands.{OfTwo};
ghost use Rattle.tas_engines.specs.Output.{Ends};
ghost use Rattle.tas_engines.specs.Movies.{IsMovieFault, IsMovieRun};
ghost use Rattle.tas_engines.specs.Checking.{IsCheckAnswer, length_line};

use crate::commands::{Command, bytes_of};
use crate::{RunFault, ToolFault, movie_of, read_two, write_all};
use std::alloc::{AllocError, Allocator};
use std::io::{Read, Write};

/// The line with a movie's length in frames.
fn length_line<A: Allocator>(alloc: A, frames: usize) -> Result<String<A>, AllocError>
    ensures { IfOk result (λ line. string_bytes line ≡ length_line frames) }
{
    format!(in alloc; "ok {frames} frames\n")
}

/// The length in frames of the movie whose cartridge and text these are, or why there is none.
fn movie_length<A: Allocator + Copy>(
    alloc: A,
    image: &[u8],
    bytes: &[u8],
) -> Result<usize, RunFault>
    ensures length { IfOk result
        (λ frames. IsCheckAnswer image.now bytes.now (Ok (length_line frames))) }
    ensures fault { IfErr result (IsMovieFault image.now bytes.now) }
{
    let movie = movie_of(alloc, image, bytes)?;
    Ok(movie.len())
}

/// Writes the length of the movie whose cartridge and text these are.
fn check_movie<A: Allocator + Copy, W: Write>(
    alloc: A,
    image: &[u8],
    bytes: &[u8],
    output: &mut W,
) -> Result<(), RunFault>
    ensures { Ends (IsCheckAnswer image.now bytes.now) (W.contents output.old)
        (W.contents output.new) result }
{
    let frames = movie_length(alloc, image, bytes)?;
    let line = length_line(alloc, frames)?;
    write_all(output, line.as_bytes())
}

/// Reads a cartridge and a movie text of either kind, and writes `ok F frames`, where the text is one of a movie
/// of F frames with this cartridge.
///
/// Faults: those of [`read_two`], then those of [`movie_of`], with nothing written; `Write` with the first bytes of
/// the answer written, and how many.
pub fn check_run<A: Allocator + Copy, C: Read, R: Read, W: Write>(
    alloc: A,
    cart: &mut C,
    input: &mut R,
    output: &mut W,
) -> Result<(), ToolFault>
    // `check_run` reads cartridge and text whole and writes the movie's length, or ends with a fault whose cause holds
    // and nothing written, or with `Write`.
    // Refused: length_reported_one_more.
    ensures { IsMovieRun IsCheckAnswer (C.remaining cart.old) (C.remaining cart.new)
        (R.remaining input.old) (R.remaining input.new) (W.contents output.old)
        (W.contents output.new) result }
{
    let (image, bytes) = read_two(alloc, cart, input)?;
    Ok(check_movie(alloc, image.as_slice(), bytes.as_slice(), output)?)
}

/// `tas check`: `ok F frames`, where F is the movie's length, of a cartridge and a movie's text of either kind.
///
/// Faults: those of [`movie_of`]. `Memory` with nothing written.
#[derive(Clone, Copy)]
pub struct Check;

impl Command for Check {
    ghost answers = { λ _. OfTwo IsCheckAnswer };

    fn answer<A: Allocator + Copy, W: Write>(
        &self,
        alloc: A,
        inputs: &[Vec<u8, A>],
        output: &mut W,
    ) -> Result<(), RunFault> {
        check_movie(alloc, bytes_of(inputs, 0), bytes_of(inputs, 1), output)
    }
}
