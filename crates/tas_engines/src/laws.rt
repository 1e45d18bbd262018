//! Laws of what an engine reads.

ghost use Rattle.std.specs.Prelude.{◌≡◌, ℕ, List};
ghost use Rattle.tas_movie.specs.Content.{MovieContent};
ghost use Rattle.tas_engines.specs.declared.fault.RunFault.{RunFault};
ghost use Rattle.tas_engines.specs.declared.fault.RunFault.TheVariants.{Memory};
ghost use Rattle.tas_engines.specs.Movies.{IsMovieOf, IsMovieFault};

/// A cartridge and a text make one movie at most; and where they make one, no fault but `Memory` says that
/// they don't.
pub fn one_movie_per_cartridge_and_text()
    // A cartridge and a text make one movie at most; where they make one, no fault but out of memory is due.
    // Refused: none, it has no code to edit.
    ensures movie { (image bytes : List ℕ) (a b : MovieContent) → IsMovieOf image bytes a
        → IsMovieOf image bytes b → a ≡ b }
    ensures fault { (image bytes : List ℕ) (movie : MovieContent) (fault : RunFault)
        → IsMovieOf image bytes movie → IsMovieFault image bytes fault → fault ≡ Memory }
{}
