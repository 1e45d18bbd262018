//! `tas script` over a movie.

ghost use Rattle.std.specs.Prelude.{◌≡◌, []};
ghost use Rattle.tas_desk.specs.Seats.{name_of};
ghost use Rattle.tas_tool.specs.MovieScripts.{AnswersOver, RunsOver, IsMovieScriptRun};
ghost use Rattle.tas_tool.specs.Inside.Alone.{SeesOwn};

use crate::making::put_movie;
use crate::opening::open_alone;
use crate::scripting::answer_lines;
use std::alloc::Allocator;
use std::io::{Read, Write};
use std::marker::Brand;
use std::sync::Wait;
use tas_desk::{CloseOnDrop, Desk, Name, Seat, Unopened};
use tas_engines::{RunFault, ToolFault, movie_of, read_input, read_two, write_all};
use tas_movie::Movie;

/// Gives a desk without edits its movie, does what the lines ask for, and puts the replies into the empty text.
fn answer_made<N: Name, W: CloseOnDrop, A: Allocator + Copy, R: Wait>(
    rt: &R,
    alloc: A,
    desk: &Desk<N, W, A>,
    seat: &mut Seat<N, A>,
    movie: &Movie<A>,
    bytes: &[u8],
    text: &mut Vec<u8, A>,
) -> Result<(), RunFault>
    requires first { (seat.old.number ≡ 0) × (seat.old.made ≡ 0) × (seat.old.front ≡ []) }
    requires empty { text.old.items ≡ [] }
    ensures number { seat.new.number ≡ 0 }
    ensures answers { SeesOwn seat.new
        → AnswersOver movie.now bytes.now text.new.items result }
{
    put_movie(rt, alloc, desk, seat, movie)?;
    answer_lines(rt, alloc, desk, seat, bytes, text)
}

/// Does what the lines ask for on a desk of one seat that has the movie, puts the replies into the empty text, and closes the
/// desk. That nobody else made an edit is known once it is closed.
fn answer_over<N: Name, A: Allocator + Copy, R: Wait>(
    rt: &R,
    alloc: A,
    unopened: Unopened<A>,
    movie: &Movie<A>,
    bytes: &[u8],
    text: &mut Vec<u8, A>,
) -> Result<(), RunFault>
    requires name { unopened ≡ name_of N.registry N.name N.parts }
    requires one { unopened.seats ≡ 1 }
    requires empty { text.old.items ≡ [] }
    ensures { AnswersOver movie.now bytes.now text.new.items result }
{
    let (desk, mut seats) = open_alone::<N, A, R>(rt, alloc, unopened)?;
    let seat = &mut seats.as_mut_slice()[0];
    let end = answer_made(rt, alloc, &desk, seat, movie, bytes, text);
    drop(desk.close(rt, seats));
    end
}

/// Writes a reply for each line of a script over the movie whose cartridge and text these are.
fn run_over<A: Allocator + Copy, R: Wait, W: Write>(
    rt: &R,
    alloc: A,
    image: &[u8],
    said: &[u8],
    bytes: &[u8],
    output: &mut W,
) -> Result<(), RunFault>
    ensures { RunsOver image.now said.now bytes.now (W.contents output.old) (W.contents output.new)
        result }
{
    let movie = movie_of(alloc, image, said)?;
    let Ok(unopened) = Unopened::new(alloc, 1) else {
        return Err(RunFault::Memory);
    };
    let mut text = Vec::new(alloc);
    let end = answer_over::<Brand, A, R>(rt, alloc, unopened, &movie, bytes, &mut text);
    write_all(output, text.as_slice())?;
    end
}

/// Reads a cartridge, a movie text and a script, and writes a reply for each line of the script, as
/// [`script_run`](crate::script_run) does, but from this movie on: its cartridge is loaded and its inputs are put in before the
/// first line, by two edits that no reply reports.
///
/// Faults, in order: those of reading the three, then `Size` and `Text`, each with nothing written; `NoPlace`, and `Memory` before
/// the first line, with nothing written; then those of `script_run`.
pub fn movie_script_run<A: Allocator + Copy, T: Wait, C: Read, M: Read, R: Read, W: Write>(
    rt: &T,
    alloc: A,
    cart: &mut C,
    movie: &mut M,
    input: &mut R,
    output: &mut W,
) -> Result<(), ToolFault>
    // Refused: foreign_over_a_movie.
    // A script over a movie is answered in the same way from this movie and 2 edits on; faults of reading, size and
    // text come first, with nothing written.
    // Refused: blank_cartridge_stands_under_the_movie, movie_that_is_refused_is_dropped*.
    ensures { IsMovieScriptRun (C.remaining cart.old) (C.remaining cart.new) (M.remaining movie.old)
        (M.remaining movie.new) (R.remaining input.old) (R.remaining input.new)
        (W.contents output.old) (W.contents output.new) result }
{
    let (image, said) = read_two(alloc, cart, movie)?;
    let bytes = read_input(alloc, input)?;
    run_over(
        rt,
        alloc,
        image.as_slice(),
        said.as_slice(),
        bytes.as_slice(),
        output,
    )?;
    Ok(())
}
