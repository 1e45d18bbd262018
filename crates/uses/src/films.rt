//! Frames of a movie, one pixmap after the other.

ghost use Rattle.std.specs.Prelude.{◌≤◌, length};

use std::alloc::Global;
use tas_film::{FilmStop, write_film};
use tas_movie::Movie;

/// The first second of a movie, as `tas film` writes it: 60 pixmaps of 100,815 bytes each.
pub fn first_second(alloc: Global, movie: &Movie) -> Result<Vec<u8>, FilmStop>
    requires { 60 ≤ length movie.now.inputs }
{
    let mut film = Vec::new(alloc);
    write_film(alloc, movie, 0, 60, &mut film)?; // 6,048,900 bytes
    Ok(film)
}
