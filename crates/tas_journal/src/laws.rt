//! Laws of the texts of journals, and of what is recovered from them.

ghost use Rattle.std.specs.Prelude.{◌≡◌, ◌+◌, ◌++◌, ◌<◌, ◌≤◌, ◌^◌, ℕ, Bool, List, length};
ghost use Rattle.tas_movie.specs.Content.{MovieContent, most_inputs};
ghost use Rattle.tas_journal.specs.Text.{AreEntries, Entry, entry_lines, head_text, journal_text};
ghost use Rattle.tas_journal.specs.declared.error.JournalError.{JournalError};
ghost use Rattle.tas_journal.specs.Recovery.{AreAllowed, IsBeginning, IsRecovered, IsUnrecovered, entries_made, first_number};

use std::alloc::Allocator;

/// Two journals of one cartridge with one text began with one movie, and have the same entries: the same edits of the same
/// seats, in one order.
pub fn one_journal_per_text<A: Allocator>()
    // One text has one journal: the movie that it began with, and its entries in their order.
    // Refused: none, it has no code to edit.
    ensures { (a b : MovieContent) (made other : List (Entry A)) → a.cart ≡ b.cart
        → length a.inputs ≤ most_inputs → length b.inputs ≤ most_inputs
        → length made < 2 ^ 64 → length other < 2 ^ 64 → AreEntries made → AreEntries other
        → journal_text a made ≡ journal_text b other → (a ≡ b) × (made ≡ other) }
{}

/// What is recovered from a whole journal is the movie of all its entries.
pub fn journal_makes_its_movie<A: Allocator>()
    // Each edit of a journal is made, in the order of its lines.
    // Refused: none, it has no code to edit.
    ensures { (began : MovieContent) (entries : List (Entry A)) (until : ℕ)
        → length began.inputs ≤ most_inputs → length entries < 2 ^ 64
        → AreEntries entries → AreAllowed began entries
        → first_number began + length entries ≤ until
        → (made : MovieContent) (edits : ℕ) (cut : Bool)
        → IsRecovered A (journal_text began entries) began.cart until made edits cut
        → (made ≡ entries_made began entries) × (edits ≡ length entries) }
{}

/// A journal that was cut at any byte after its head loses no edit whose line is whole, and has no fault.
pub fn cut_journal_loses_no_line<A: Allocator>()
    // What is recovered is the movie of a beginning of the entries, with each one whose line is whole in the bytes.
    // Refused: none, it has no code to edit.
    ensures beginning { (began : MovieContent) (entries : List (Entry A)) (cutting more : List ℕ) (until : ℕ)
        → length began.inputs ≤ most_inputs → length entries < 2 ^ 64
        → AreEntries entries → AreAllowed began entries → cutting ++ more ≡ entry_lines 0 entries
        → first_number began + length entries ≤ until
        → (made : MovieContent) (edits : ℕ) (cut : Bool)
        → IsRecovered A (head_text began ++ cutting) began.cart until made edits cut
        → IsBeginning began entries cutting made edits }
    // No line of such bytes is at fault, so that it is recovered wherever memory isn't refused.
    // Refused: none, it has no code to edit.
    ensures unfaulted { (began : MovieContent) (entries : List (Entry A)) (cutting more : List ℕ) (until : ℕ)
        → length began.inputs ≤ most_inputs → length entries < 2 ^ 64
        → AreEntries entries → AreAllowed began entries → cutting ++ more ≡ entry_lines 0 entries
        → first_number began + length entries ≤ until
        → (error : JournalError)
        → IsUnrecovered A (head_text began ++ cutting) began.cart until error → ⊥ }
{}
