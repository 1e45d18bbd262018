//! Laws of the texts of movies, and of runs.
//!
//! The runs of a text are those that can't be longer, made by a fold over the inputs. That they make up the inputs, and
//! that no other such runs do, is proved: so no movie has two texts of one kind. The law speaks of at most 262,144
//! inputs, which all movies have: the library knows only below 2^64 that a number's text is that of no other.

ghost use Rattle.std.specs.Prelude.{◌≡◌, ◌≤◌, ℕ, List, length, None};
ghost use Rattle.std.specs.List.{flat_map};
ghost use Rattle.vcs_inputs.specs.declared.input.Input.{Input};
ghost use Rattle.tas_movie.specs.declared.movie.TheConstants.{MAX_FRAMES};
ghost use Rattle.tas_movie.specs.declared.reading.TheConstants.{MAX_FRAMES1};
ghost use Rattle.tas_movie.specs.declared.run.FrameRun.{FrameRun};
ghost use Rattle.tas_movie.specs.Content.{MovieContent, most_inputs};
ghost use Rattle.tas_movie.specs.Runs.{run_inputs, runs_of, AreLongest};
ghost use Rattle.tas_movie.specs.Text.{text1, text2, most_frames1, IsText};
ghost use Rattle.tas_movie.specs.Fault.{fault};

/// Two movies of one cartridge with one text are equal, whichever of the two texts it is.
pub fn one_movie_per_text()
    // Two movies of one cartridge with one text, of either kind, are equal.
    // Refused: none, it has no code to edit; the clause `all` of `read_text` says it of what is read.
    ensures first { (a b : MovieContent) → a.cart ≡ b.cart → text1 a ≡ text1 b → a ≡ b }
    ensures second { (a b : MovieContent) → a.cart ≡ b.cart → length a.inputs ≤ most_inputs
        → length b.inputs ≤ most_inputs → text2 a ≡ text2 b → a ≡ b }
    ensures either { (bytes : List ℕ) (a b : MovieContent) → a.cart ≡ b.cart
        → length a.inputs ≤ most_inputs → length b.inputs ≤ most_inputs → IsText bytes a
        → IsText bytes b → a ≡ b }
{}

/// A text of a movie has no fault.
pub fn texts_have_no_fault()
    // Refused: none, it has no code to edit.
    ensures { (bytes : List ℕ) (movie : MovieContent) → length movie.inputs ≤ most_inputs
        → IsText bytes movie → fault bytes movie.cart ≡ None }
{}

/// The runs of a movie's frames make up the frames, none of them can be longer, and they are the only ones of
/// which both holds.
pub fn runs_are_longest()
    // `made`, `longest`, `only`: the runs of a movie make up its frames, neighbours have different ones, and no other
    // runs do both.
    // Refused: none, a law, which only definitions carry.
    ensures made { (inputs : List Input) → flat_map run_inputs (runs_of inputs) ≡ inputs }
    ensures longest { (inputs : List Input) → AreLongest (runs_of inputs) }
    ensures only { (runs : List FrameRun) → AreLongest runs
        → runs_of (flat_map run_inputs runs) ≡ runs }
{}

/// The limits are those of the definitions: 262,144 inputs of a movie, 65,536 frames of an older text.
pub fn limits_are_exact()
    // Refused: movie_of_262145_inputs*, older_text_is_read_up_to_the_new_limit.
    ensures movie { MAX_FRAMES ≡ most_inputs }
    ensures text { MAX_FRAMES1 ≡ most_frames1 }
{}
