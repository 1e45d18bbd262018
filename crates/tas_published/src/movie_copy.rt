//! A copy of the movie.

ghost use Rattle.std.specs.Prelude.{◌≡◌};
ghost use Rattle.tas_published.specs.History.{movie_of};

use crate::Entry;
use crate::version::{Version, VersionRule};
use logbook::Rule;
use std::alloc::{Allocator, Global};
use std::collections::LinkedList;
use tas_movie::Movie;

/// A copy of the movie, with the version of the history that makes it.
#[derive(Drop)]
pub struct MovieCopy<A: Allocator = Global>
where
    VersionRule: Rule<LinkedList<Entry<A>, A>, u64>,
{
    /// The movie.
    pub movie: Movie<A>,
    /// The version of the history that makes it.
    pub version: Version<A>,
    pub ghost whole: { movie ≡ movie_of version.history },
}
