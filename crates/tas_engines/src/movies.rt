//! The movie of a cartridge and a text.

ghost use Rattle.std.specs.Prelude.{MatchResult};
ghost use Rattle.tas_engines.specs.Movies.{IsMovieOf, IsMovieFault, AreMoviesOf, AreMoviesFault};

use crate::RunFault;
use std::alloc::Allocator;
use tas_movie::{Movie, read_text};
use vcs_machine::Cart;

/// The movie whose cartridge is the image and of which the bytes are a text.
///
/// Faults, in order: `Size`, `Text`; `Memory` at any point after `Size`.
pub fn movie_of<A: Allocator + Copy>(
    alloc: A,
    image: &[u8],
    bytes: &[u8],
) -> Result<Movie<A>, RunFault>
    // `movie_of` returns the movie of a cartridge and a text, or why there is none: a wrong size comes before the text
    // and before out of memory; the cartridge has the size of one, and the movie at most 262,144 inputs.
    // Refused: wrong_size_reported_as_out_of_memory, text_fault_reported_as_size*,
    // blank_cartridge_in_place_of_a_wrong_size*.
    ensures { MatchResult result (IsMovieOf image.now bytes.now)
        (IsMovieFault image.now bytes.now) }
{
    let cart = Cart::from_bytes(alloc, image)?;
    Ok(read_text(alloc, bytes, &cart)?)
}

/// The two movies whose cartridge is the image and of which these are texts.
///
/// Faults, in order: `Size`, then `Text` of the first text and of the second one; `Memory` at any point after `Size`.
pub(crate) fn movies_of<A: Allocator + Copy>(
    alloc: A,
    image: &[u8],
    first: &[u8],
    second: &[u8],
) -> Result<(Movie<A>, Movie<A>), RunFault>
    ensures { MatchResult result
        (λ movies. AreMoviesOf image.now first.now second.now movies.0 movies.1)
        (AreMoviesFault image.now first.now second.now) }
{
    let movie = movie_of(alloc, image, first)?;
    let other = movie_of(alloc, image, second)?;
    Ok((movie, other))
}
