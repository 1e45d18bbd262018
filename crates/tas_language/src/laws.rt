//! Laws of the lines.

ghost use Rattle.std.specs.Prelude.{◌≡◌, ◌≤◌, ℕ, List, length, true};
ghost use Rattle.std.specs.List.{flat_map};
ghost use Rattle.tas_movie.specs.Content.{MovieContent, most_inputs};
ghost use Rattle.tas_movie.specs.Edit.{IsAllowed, edited};
ghost use Rattle.tas_movie.specs.declared.edit.Edit.{Edit};
ghost use Rattle.tas_language.specs.Edits.{edits_of, edited_by, AllowsAll};
ghost use Rattle.tas_language.specs.History.{edit_commands, LoadsCartridge, AreHeard};
ghost use Rattle.tas_language.specs.declared.command.Command.{Command};
ghost use Rattle.tas_language.specs.Commands.{Says};
ghost use Rattle.tas_language.specs.declared.request.Request.{Request};
ghost use Rattle.tas_language.specs.Requests.{Asks};
ghost use Rattle.tas_language.specs.declared.edit_line.EditLine.{EditLine};
ghost use Rattle.tas_language.specs.Retouches.{IsEditLine};
ghost use Rattle.tas_language.specs.Unheard.{first_word, is_line_word};

use std::alloc::Allocator;

/// A line is the text of at most one command.
pub fn one_command_per_line()
    // Refused: none, it has no code to edit.
    ensures { (line : List ℕ) (a b : Command) → Says line a → Says line b → a ≡ b }
{}

/// A line is the text of at most one request.
pub fn one_request_per_line()
    // Refused: none, it has no code to edit.
    ensures { (line : List ℕ) (a b : Request) → Asks line a → Asks line b → a ≡ b }
{}

/// A line that is understood begins with one of the words by which `Line::unheard` says what a line begins with.
pub fn lines_begin_with_their_words()
    // Refused: none, it has no code to edit.
    ensures { (line : List ℕ) (asked : Request) → Asks line asked
        → is_line_word (first_word line) ≡ true }
{}

/// A line of `tas edit` says one thing at most.
pub fn one_edit_line_per_line()
    // Refused: none, it has no code to edit.
    ensures { (line : List ℕ) (a b : EditLine) → IsEditLine line a → IsEditLine line b → a ≡ b }
{}

/// The lines of an edit that a movie allows: a conversation understands each of them as a command, each command's edit is allowed on
/// the movie that those before it made, and together they make what the edit makes.
pub fn edit_lines_make_the_edit<A: Allocator>()
    // Where a movie allows an edit, a conversation understands each of its lines once the two numbers before it are
    // taken off, the edit of each is allowed on the movie that those before it made, and together they make what the
    // edit makes.
    // Refused: none, it has no code to edit.
    ensures heard { (movie : MovieContent) (edit : Edit A) → length movie.inputs ≤ most_inputs
        → IsAllowed movie edit → LoadsCartridge edit → AreHeard (edit_commands edit) }
    ensures allowed { (movie : MovieContent) (edit : Edit A) → IsAllowed movie edit
        → AllowsAll movie (flat_map edits_of (edit_commands edit)) }
    ensures made { (movie : MovieContent) (edit : Edit A) → IsAllowed movie edit
        → edited_by movie (flat_map edits_of (edit_commands edit)) ≡ edited movie edit }
{}
