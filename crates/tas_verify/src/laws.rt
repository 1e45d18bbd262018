//! Laws of manifests, and of what comes of their movies.

ghost use Rattle.std.specs.Prelude.{◌≡◌, ℕ, List, ◌⊎◌, Option, Ok, Err};
ghost use Rattle.std.specs.List.{All};
ghost use Rattle.std.specs.Io.KnownBytes.{Keeps};
ghost use Rattle.tas_verify.specs.declared.fault.VerifyFault.{VerifyFault};
ghost use Rattle.tas_verify.specs.declared.lines.Tally.{Tally};
ghost use Rattle.tas_verify.specs.declared.manifest.ManifestError.TheVariants.{Line};
ghost use Rattle.tas_verify.specs.declared.outcome.Outcome.{Outcome};
ghost use Rattle.tas_verify.specs.Manifest.{RowWords, IsManifest, IsManifestError};
ghost use Rattle.tas_verify.specs.Rows.{IsOutcome};
ghost use Rattle.tas_verify.specs.Lines.{RowEnd};
ghost use Rattle.tas_verify.specs.Verifying.{EndsWith, report};
ghost use Rattle.tas_verify.specs.Agreement.{
  AreKnown,
  Agree,
  AllAgree,
  NoAccident,
  VerifyRun,
  IsRunOver,
  RunsAgree,
  IsOfManifest,
  IsUnfinished,
};

use crate::Shelf;

/// A manifest names at most one list of movies, and has at most one first line at fault, and not both.
pub fn one_list_per_manifest()
    // The bytes of a manifest name one list of movies.
    // Refused: none, it is a law of the definitions and has no code.
    ensures list { (bytes : List ℕ) (a b : List RowWords)
        → IsManifest bytes a → IsManifest bytes b → a ≡ b }
    // Bytes that are a manifest have no line at fault.
    // Refused: none, it is a law of the definitions and has no code.
    ensures fault { (bytes : List ℕ) (rows : List RowWords) (number : ℕ)
        → IsManifest bytes rows → IsManifestError bytes (Line number) → ⊥ }
    // In other bytes one line is the first one at fault.
    // Refused: none, it is a law of the definitions and has no code.
    ensures line { (bytes : List ℕ) (m n : ℕ)
        → IsManifestError bytes (Line m) → IsManifestError bytes (Line n) → m ≡ n }
{}

/// One thing comes of a movie whose files are known, accidents aside.
pub fn one_outcome_per_movie<S: Shelf>(shelf: &S)
    // Two outcomes that meet the clause of `verify_row` for one movie of one shelf, where the bytes of its files are known, are equal, or one of
    // them says that memory was refused, that a read failed, or that a file wasn't opened which the shelf may lack.
    // Refused: none, it is a law of the definitions and has no code.
    ensures { let facts = S.facts shelf.now in (row : RowWords) (a b : Outcome) → AreKnown facts row
        → IsOutcome facts row a → IsOutcome facts row b → Agree facts row a b }
{}

/// Runs over one manifest and the same files write the same lines, accidents aside, whatever their numbers of workers.
pub fn one_report_per_manifest<S: Shelf>(shelf: &S)
    // Two runs that meet the clause of `verify_run` for the same bytes of a manifest and one shelf have lines of the same movies, in order, as
    // far as both go, and two lines of one movie whose files' bytes are known are equal, or one of them says an accident. A run that has its last
    // line has one of each movie. How many workers there are, and how many movies they get at a time, is no part of it.
    // Refused: none, it is a law of the definitions and has no code.
    ensures lines { let facts = S.facts shelf.now in
        (manifest : List ℕ) (rows : List RowWords) (a b : VerifyRun)
        → IsManifest manifest rows → IsRunOver facts manifest a → IsRunOver facts manifest b
        → RunsAgree facts rows a b }
    // So where the bytes of all files are known, both have their last line and no line says an accident, they wrote the same bytes and count
    // the same.
    // Refused: none, it is a law of the definitions and has no code.
    ensures report { let facts = S.facts shelf.now in
        (rows : List RowWords) (old new old' new' : Option (List ℕ)) (tally tally' : Tally)
        (ends others : List RowEnd) → All (AreKnown facts) rows
        → EndsWith facts rows old new (Ok tally) ends
        → EndsWith facts rows old' new' (Ok tally') others → AllAgree facts ends others
        → NoAccident facts ends → NoAccident facts others
        → (report ends ≡ report others) × (tally ≡ tally') }
    // Where a run reports a line of the manifest at fault, or that it is too long, each other one writes nothing and reports the same, or that
    // a read failed or memory was refused. This holds whatever is known of the files.
    // Refused: none, it is a law of the definitions and has no code.
    ensures fault { let facts = S.facts shelf.now in
        (manifest : List ℕ) (fault : VerifyFault) (a b : VerifyRun)
        → IsRunOver facts manifest a → IsRunOver facts manifest b
        → IsOfManifest fault → a.result ≡ Err fault
        → Keeps b.old b.new × ((b.result ≡ Err fault) ⊎ IsUnfinished b.result) }
{}
