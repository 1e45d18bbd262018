//! `tas migrate`.

ghost use Rattle.std.specs.Prelude.{Ok, IfOk, IfErr};
ghost use Rattle.tas_engines.specs.Commands.{OfTwo};
ghost use Rattle.tas_engines.specs.Movies.{IsMovieFault};
ghost use Rattle.tas_engines.specs.Migrating.{IsMigrateAnswer};

use crate::commands::{Text, bytes_of};
use crate::{RunFault, movie_of};
use std::alloc::Allocator;
use tas_movie::print_text;

/// The text of runs of the movie whose cartridge and text these are, or why there is none.
fn migrated_text<A: Allocator + Copy>(
    alloc: A,
    image: &[u8],
    bytes: &[u8],
) -> Result<Vec<u8, A>, RunFault>
    ensures text { IfOk result (λ text. IsMigrateAnswer image.now bytes.now (Ok text.items)) }
    ensures fault { IfErr result (IsMovieFault image.now bytes.now) }
{
    let movie = movie_of(alloc, image, bytes)?;
    Ok(print_text(alloc, &movie)?)
}

/// `tas migrate`: the text of runs of the movie, of a cartridge and a movie's text of either kind.
///
/// Faults: those of [`movie_of`].
#[derive(Clone, Copy)]
pub struct Migrate;

impl Text for Migrate {
    // `tas migrate` reads cartridge and text, of either kind, whole and writes the movie's text of runs, or ends with
    // such a fault.
    // Refused: first_byte_of_a_migrated_text_is_left_out, text_is_migrated_as_it_was_read*.
    ghost answers = { λ _. OfTwo IsMigrateAnswer };

    fn text<A: Allocator + Copy>(
        &self,
        alloc: A,
        inputs: &[Vec<u8, A>],
    ) -> Result<Vec<u8, A>, RunFault> {
        migrated_text(alloc, bytes_of(inputs, 0), bytes_of(inputs, 1))
    }
}
