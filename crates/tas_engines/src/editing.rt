//! `tas edit`.
//!
//! Where `tas script` replies, `tas edit` ends: a refused line is a fault and nothing is written, since whoever reads
//! the output can't tell a movie that lacks some changes from the wanted one. The movie's faults come before the
//! script's, since a change can only be refused on a movie.

ghost use Rattle.std.specs.Prelude.{◌≡◌, Ok, Err, IfOk, IfErr};
ghost use Rattle.tas_engines.specs.Commands.{OfThree, OfFour};
ghost use Rattle.tas_engines.specs.Editing.{script_fault, IsScriptAnswer, IsEditAnswer, IsEditWithAnswer};

use crate::commands::{Text, bytes_of};
use crate::movies::movies_of;
use crate::{RunFault, ScriptFault, edit_movie, movie_of};
use std::alloc::Allocator;
use tas_movie::{Movie, print_text};

/// How a script's fault is reported.
fn script_fault(fault: ScriptFault) -> RunFault
    ensures { result ≡ script_fault fault }
{
    match fault {
        ScriptFault::Line(line) => RunFault::Script { line },
        ScriptFault::Place(line) => RunFault::Place { line },
        ScriptFault::Long(line) => RunFault::Long { line },
        ScriptFault::Memory => RunFault::Memory,
    }
}

/// The text of the movie that a script makes of this one, beside which there may be a second one, or why there is none.
/// `Memory` comes only at a line that is allowed and brings frames, possibly none, and for the text of a movie that all lines have made.
fn text_made<A: Allocator + Copy>(
    alloc: A,
    movie: &mut Movie<A>,
    other: &Option<Movie<A>>,
    script: &[u8],
) -> Result<Vec<u8, A>, RunFault>
    // Once the movie is made, `tas edit` is out of memory only at a script's line that is allowed and brings frames,
    // possibly none, or for the text of the movie that all lines made: no other fault of a script is given as `Memory`.
    // Refused: script_fault_is_given_as_memory.
    ensures text { IfOk result
        (λ text. IsScriptAnswer other.now movie.old script.now (Ok text.items)) }
    ensures fault { IfErr result
        (λ fault. IsScriptAnswer other.now movie.old script.now (Err fault)) }
{
    edit_movie(alloc, movie, other, script).map_err(script_fault)?;
    Ok(print_text(alloc, movie)?)
}

/// The text of the movie that a script makes of the one whose cartridge and text these are, or why there is none.
fn edited_text<A: Allocator + Copy>(
    alloc: A,
    image: &[u8],
    script: &[u8],
    bytes: &[u8],
) -> Result<Vec<u8, A>, RunFault>
    ensures text { IfOk result
        (λ text. IsEditAnswer image.now script.now bytes.now (Ok text.items)) }
    ensures fault { IfErr result
        (λ fault. IsEditAnswer image.now script.now bytes.now (Err fault)) }
{
    let mut movie = movie_of(alloc, image, bytes)?;
    text_made(alloc, &mut movie, &None, script)
}

/// The same with a second movie, by its text.
fn edited_text_with<A: Allocator + Copy>(
    alloc: A,
    image: &[u8],
    script: &[u8],
    more: &[u8],
    bytes: &[u8],
) -> Result<Vec<u8, A>, RunFault>
    ensures text { IfOk result
        (λ text. IsEditWithAnswer image.now script.now more.now bytes.now (Ok text.items)) }
    ensures fault { IfErr result
        (λ fault. IsEditWithAnswer image.now script.now more.now bytes.now (Err fault)) }
{
    let (other, mut movie) = movies_of(alloc, image, more, bytes)?;
    text_made(alloc, &mut movie, &Some(other), script)
}

/// `tas edit`: the text of the movie that a script of changes makes of another, of a cartridge, the script and the movie's text.
///
/// Faults, in order: `Size` and `Text`, then the script's first line at fault: `Script` where it isn't understood, `Place` and `Long` where
/// it is refused. `Memory` at any point.
#[derive(Clone, Copy)]
pub struct Edit;

impl Text for Edit {
    // `tas edit` reads the cartridge, the script and the text whole, and writes the text of the movie that the
    // definitions' `edited`, folded over the script's lines, makes of the movie that was read; or reports the first
    // fault, with nothing written: reading, size, text, then the script's first line that isn't understood (`Script`),
    // reaches past the end (`Place`) or makes the movie too long (`Long`). After the size `Memory` may come at any
    // point, with nothing written; after `Write` the first bytes are out, as many as it reports.
    // Refused: cartridge_is_read_as_the_script*, old_text_is_written*, change_past_the_end_is_reported_as_unclear.
    ghost answers = { λ _. OfThree IsEditAnswer };

    fn text<A: Allocator + Copy>(
        &self,
        alloc: A,
        inputs: &[Vec<u8, A>],
    ) -> Result<Vec<u8, A>, RunFault> {
        edited_text(
            alloc,
            bytes_of(inputs, 0),
            bytes_of(inputs, 1),
            bytes_of(inputs, 2),
        )
    }
}

/// `tas edit --with`: the same with a second movie of the cartridge, from which `copy other` takes frames; of a cartridge, the script, the
/// second movie's text and the first one's.
///
/// Faults, in order: `Size`, then `Text` of the second movie and of the first one, then those of the script as of [`Edit`]. `Memory` at any
/// point.
#[derive(Clone, Copy)]
pub struct EditWith;

impl Text for EditWith {
    // `tas edit --with` does what `tas edit` does, with a second movie of the cartridge, whose text is read before the
    // first movie's, and whose faults come before its faults: of another cartridge the fault `digest`.
    // Refused: fourth_input_is_the_third*, first_movie_is_the_second_one_too.
    ghost answers = { λ _. OfFour IsEditWithAnswer };

    fn text<A: Allocator + Copy>(
        &self,
        alloc: A,
        inputs: &[Vec<u8, A>],
    ) -> Result<Vec<u8, A>, RunFault> {
        edited_text_with(
            alloc,
            bytes_of(inputs, 0),
            bytes_of(inputs, 1),
            bytes_of(inputs, 2),
            bytes_of(inputs, 3),
        )
    }
}
