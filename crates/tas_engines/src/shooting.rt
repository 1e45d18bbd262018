//! `tas shot`.

ghost use Rattle.std.specs.Prelude.{◌≡◌, ◌<◌, ◌⊎◌, length, Ok, Err, IfOk, IfErr};
ghost use Rattle.vcs_tia.specs.Image.{ppm_bytes};
ghost use Rattle.tas_engines.specs.declared.fault.RunFault.TheVariants.{Memory};
ghost use Rattle.tas_engines.specs.Commands.{OfTwo};
ghost use Rattle.tas_engines.specs.Output.{Ends};
ghost use Rattle.tas_engines.specs.Movies.{IsMovieRun};
ghost use Rattle.tas_engines.specs.Shooting.{IsShot, IsShotFault, IsShotAnswer, halt_fault};

use crate::commands::{Command, bytes_of};
use crate::{RunFault, ToolFault, movie_of, read_two};
use std::alloc::Allocator;
use std::io::{Read, Write};
use tas_green::Green;
use tas_movie::Movie;
use vcs_cpu::Halt;
use vcs_machine::Meter;
use vcs_tia::{Picture, ppm};

/// The fault that reports a halt.
pub fn halt_fault(halt: Halt) -> RunFault
    // Refused: none, see `ToolFault::from`.
    ensures { result ≡ halt_fault halt }
{
    match halt {
        Halt::Undocumented { at, opcode } => RunFault::Halted { at, opcode },
    }
}

/// The picture of frame `k` of a movie, or why there is none: `NoFrame` comes first, then `Memory`, both before a frame is played,
/// then `Halted`. The new meter rises by the frames that were played.
fn draw_frame<A: Allocator + Copy>(
    alloc: A,
    movie: &Movie<A>,
    k: usize,
    meter: &mut Meter,
) -> Result<Picture<A>, RunFault>
    requires { meter.old ≡ 0 }
    ensures drawn { IfOk result (λ picture. IsShot movie.now k (ppm_bytes picture)) }
    ensures fault { IfErr result (λ fault. (fault ≡ Memory) ⊎ IsShotFault movie.now k fault) }
    // Once the movie is made, `Memory` comes neither in place of `NoFrame` nor in place of a halt: only where the movie
    // has the frame, and none was played.
    // Refused: halted_frame_is_given_as_memory, missing_frame_is_given_as_memory*.
    ensures memory { IfErr result
        (λ fault. fault ≡ Memory → (k < length movie.now.inputs) × (meter.new ≡ 0)) }
{
    let len = movie.len();
    if k >= len {
        return Err(RunFault::NoFrame { frame: k, len });
    }
    let mut picture = Picture::blank(alloc)?;
    let mut green = Green::new(alloc);
    match green.shot(movie, k, &mut picture, meter)? {
        Ok(()) => Ok(picture),
        Err(halt) => Err(halt_fault(halt)),
    }
}

/// The picture of frame `k` of the movie whose cartridge and text these are, or why there is none.
fn picture_of<A: Allocator + Copy>(
    alloc: A,
    k: usize,
    image: &[u8],
    bytes: &[u8],
) -> Result<Picture<A>, RunFault>
    ensures drawn { IfOk result
        (λ picture. IsShotAnswer k image.now bytes.now (Ok (ppm_bytes picture))) }
    ensures fault { IfErr result (λ fault. IsShotAnswer k image.now bytes.now (Err fault)) }
{
    let movie = movie_of(alloc, image, bytes)?;
    let mut meter = Meter::new();
    draw_frame(alloc, &movie, k, &mut meter)
}

/// Writes the picture of frame `k` of the movie whose cartridge and text these are.
fn shoot_movie<A: Allocator + Copy, W: Write>(
    alloc: A,
    k: usize,
    image: &[u8],
    bytes: &[u8],
    output: &mut W,
) -> Result<(), RunFault>
    ensures { Ends (IsShotAnswer k image.now bytes.now) (W.contents output.old)
        (W.contents output.new) result }
{
    let picture = picture_of(alloc, k, image, bytes)?;
    Ok(ppm(&picture, output)?)
}

/// Reads a cartridge and a movie text, and writes the picture of the movie's frame `k`, counted
/// from 0, as a binary portable pixmap.
///
/// Faults, in order: those of [`read_two`], those of [`movie_of`], then `NoFrame`, then `Halted`,
/// each with nothing written; `Memory` with nothing written; `Write` with the first bytes of the answer
/// written, and how many.
pub fn shot_run<A: Allocator + Copy, C: Read, R: Read, W: Write>(
    alloc: A,
    k: usize,
    cart: &mut C,
    input: &mut R,
    output: &mut W,
) -> Result<(), ToolFault>
    // `shot_run` writes the picture of frame k of the movie from power-on; `NoFrame` only where there is none, `Halted`
    // only where the machine is halted after it.
    // Refused: last_frame_is_reported_as_no_frame*, shot_of_the_first_frame, halt_address_lost*.
    ensures { IsMovieRun (IsShotAnswer k) (C.remaining cart.old) (C.remaining cart.new)
        (R.remaining input.old) (R.remaining input.new) (W.contents output.old)
        (W.contents output.new) result }
{
    let (image, bytes) = read_two(alloc, cart, input)?;
    Ok(shoot_movie(alloc, k, image.as_slice(), bytes.as_slice(), output)?)
}

/// `tas shot`: the picture of a movie's frame as a binary portable pixmap, of a cartridge and a movie's text.
///
/// Faults, in order: those of [`movie_of`], then `NoFrame`, then `Halted`. `Memory` with nothing written.
#[derive(Clone, Copy)]
pub struct Shot {
    /// The frame, counted from 0.
    pub frame: usize,
}

impl Command for Shot {
    ghost answers = { λ shot. OfTwo (IsShotAnswer shot.frame) };

    fn answer<A: Allocator + Copy, W: Write>(
        &self,
        alloc: A,
        inputs: &[Vec<u8, A>],
        output: &mut W,
    ) -> Result<(), RunFault> {
        shoot_movie(
            alloc,
            self.frame,
            bytes_of(inputs, 0),
            bytes_of(inputs, 1),
            output,
        )
    }
}
