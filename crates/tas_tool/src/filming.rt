//! `tas film`.

ghost use Rattle.std.specs.Prelude.{◌≡◌};
ghost use Rattle.tas_tool.specs.Films.{IsFilmOf, Films, IsFilmRun, stop_fault};

use std::alloc::Allocator;
use std::io::{Read, Write};
use tas_desk::{FilmStop, HaltedFrame, write_film};
use tas_engines::{RunFault, ToolFault, movie_of, read_two};
use tas_movie::Movie;
use vcs_cpu::Halt;

/// The fault that reports why a film ended before its last frame.
fn stop_fault(stop: FilmStop) -> RunFault
    ensures { result ≡ stop_fault stop }
{
    match stop {
        FilmStop::Memory => RunFault::Memory,
        FilmStop::Halted(HaltedFrame { frame, halt }) => match halt {
            Halt::Undocumented { at, opcode } => RunFault::HaltedFrame { frame, at, opcode },
        },
        FilmStop::Write(fault) => RunFault::Write {
            written: fault.written,
        },
    }
}

/// Writes the pictures of a movie's frames from `from` to the one before `to`.
fn film_frames<A: Allocator + Copy, W: Write>(
    alloc: A,
    movie: &Movie<A>,
    from: usize,
    to: usize,
    output: &mut W,
) -> Result<(), RunFault>
    ensures { IsFilmOf movie.now from to (W.contents output.old) (W.contents output.new) result }
{
    let len = movie.len();
    if from > to || to > len {
        return Err(RunFault::Range { from, to, len });
    }
    match write_film(alloc, movie, from, to, output) {
        Ok(()) => Ok(()),
        Err(stop) => Err(stop_fault(stop)),
    }
}

/// Writes the pictures of frames of the movie whose cartridge and text these are.
fn film_movie<A: Allocator + Copy, W: Write>(
    alloc: A,
    from: Option<usize>,
    to: Option<usize>,
    image: &[u8],
    bytes: &[u8],
    output: &mut W,
) -> Result<(), RunFault>
    ensures { Films from to image.now bytes.now (W.contents output.old) (W.contents output.new)
        result }
{
    let movie = movie_of(alloc, image, bytes)?;
    let (from, to) = (from.unwrap_or(0), to.unwrap_or(movie.len()));
    film_frames(alloc, &movie, from, to, output)
}

/// Reads a cartridge and a movie text, and writes the pictures of the movie's frames from `from` to the one before `to`,
/// counted from 0, as binary portable pixmaps, one after the other, each as soon as it is drawn: any number of them. `from` is 0
/// and `to` the movie's length where they aren't given. The movie is played once. Besides its inputs the call holds the movie,
/// one picture and its pixmap.
///
/// Faults, in order: those of [`read_two`], those of [`movie_of`], then `Range` where the movie doesn't have these frames, each with
/// nothing written; then `HaltedFrame` with the first halted frame, and the pictures of the frames before it are written.
/// `Memory` with nothing written; `Write` with the first bytes written, and how many.
pub fn film_run<A: Allocator + Copy, C: Read, R: Read, W: Write>(
    alloc: A,
    from: Option<usize>,
    to: Option<usize>,
    cart: &mut C,
    input: &mut R,
    output: &mut W,
) -> Result<(), ToolFault>
    // A film reads cartridge and text whole and writes the pixmaps of the frames FROM to TO - 1 of the movie that it
    // read, in order and each once: 0 and the movie's length where they aren't given. `Range` comes only where the
    // movie hasn't these frames, where it is this fault or `Memory`, and nothing is written then, nor after
    // `Memory`; `HaltedFrame` names the least halted frame, and the pixmaps of those before it are written; `Write`
    // reports how many of the first bytes went out.
    // Refused: film_without_an_end_leaves_out_the_last_frame, film_without_a_beginning_is_of_its_last_frames*,
    // film_of_no_frames_at_the_end_is_refused*, halted_film_is_reported_as_out_of_memory*,
    // film_counts_half_of_its_bytes*.
    ensures { IsFilmRun from to (C.remaining cart.old) (C.remaining cart.new)
        (R.remaining input.old) (R.remaining input.new) (W.contents output.old)
        (W.contents output.new) result }
{
    let (image, bytes) = read_two(alloc, cart, input)?;
    Ok(film_movie(alloc, from, to, image.as_slice(), bytes.as_slice(), output)?)
}
