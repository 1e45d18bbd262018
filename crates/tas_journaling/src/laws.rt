//! What receipts come to.

ghost use Rattle.std.specs.Prelude.{◌≤◌, ℕ, List, Option, length};
ghost use mathlib.Core.List.{IsPrefix};
ghost use Rattle.tas_published.specs.declared.entry.Entry.{Entry};
ghost use Rattle.tas_desk.specs.Seats.{SeatContent, IsSettled};
ghost use Rattle.tas_journaling.specs.Journals.{JournalContent};
ghost use Rattle.tas_journaling.specs.Shared.{HasBeginning, HasEntries, IsJournalOf};

use std::alloc::Allocator;

/// Once a desk is closed, a journal that conversations shared has the head and the lines of a beginning of the one history that the desk leaves, and
/// this has all that the seat of a receipt had seen when it was given.
pub fn receipts_are_kept<A: Allocator>()
    // Refused: none, it is a law: its clause has no body to change.
    ensures { (head : Option (List ℕ)) (first : ℕ) (history : List (Entry A))
        (journal : JournalContent) (own : SeatContent A) (seen : List (Entry A)) (told : ℕ)
        → HasBeginning head first own.front journal → IsSettled history own
        → IsPrefix seen history → length seen ≤ told → told ≤ journal.upto
        → IsJournalOf head first history journal × HasEntries seen history journal }
{}
