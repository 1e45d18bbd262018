//! Laws of a seat's conversation: what the history that its desk leaves shows of it.

ghost use Rattle.std.specs.Prelude.{◌≡◌, ◌≢◌, ◌+◌, ◌<◌, ◌≤◌, ◌++◌, ◌∷◌, [], ℕ, List, length, drop, Option, Some, None, Result, Err};
ghost use mathlib.Core.List.{IsPrefix};
ghost use Rattle.tas_movie.specs.Content.{MovieContent};
ghost use Rattle.tas_movie.specs.declared.edit.Edit.{Edit};
ghost use Rattle.tas_published.specs.declared.entry.Entry.{Entry};
ghost use Rattle.tas_published.specs.History.{entries_of, movie_of, IsLegal};
ghost use Rattle.tas_desk.specs.Parts.{one_part};
ghost use Rattle.tas_desk.specs.Seats.{SeatContent, IsSettled};
ghost use Rattle.tas_engines.specs.declared.fault.ToolFault.{ToolFault};
ghost use Rattle.tas_engines.specs.declared.fault.ToolFault.TheVariants.{Run};
ghost use Rattle.tas_engines.specs.declared.fault.RunFault.TheVariants.{Foreign};
ghost use Rattle.tas_language.specs.declared.request.Request.TheVariants.{Commit};
ghost use Rattle.tas_seat.specs.Seats.{IsSeatAfter, entries_from};
ghost use Rattle.tas_seat.specs.Drafts.{DraftContent, IsStroke};
ghost use Rattle.tas_seat.specs.Conversations.{TalkingSeat, talking};
ghost use Rattle.tas_seat.specs.Talk.{Exchange, IsExchange, AreExchanges, IsTalk, all_edits};
ghost use Rattle.tas_seat.specs.Histories.{IsInHistory};

use std::alloc::Allocator;

/// The history that a closed desk leaves shows of each seat just the edits of its conversation, in order, after those with which it
/// began; nobody else's are counted as its own, and no conversation ends with `Foreign`.
pub fn talks_are_in_history<A: Allocator>()
    // The history that a closed desk leaves has of each seat just the edits of its conversation, in order, after those
    // with which it began; and no conversation ends with `Foreign`. The seat is one that had seen as many of its own
    // entries as it had made when the conversation began.
    // Refused: none, it has no code to edit.
    ensures shows { (start last : SeatContent A) (input input' output output' : Option (List ℕ))
        (end : Result (Unit {0}) ToolFault)
        (talk : IsTalk start last input input' output output' end) (history : List (Entry A))
        → start.made ≤ entries_of start.number start.front → IsSettled history last
        → IsInHistory history start last (all_edits talk) }
    ensures never_foreign { (start last : SeatContent A)
        (input input' output output' : Option (List ℕ)) (end : Result (Unit {0}) ToolFault)
        (history : List (Entry A)) → IsTalk start last input input' output output' end
        → start.made ≤ entries_of start.number start.front → IsSettled history last
        → end ≡ Err (Run Foreign) → ⊥ }
{}

/// Each line of a conversation is answered at a beginning of the history that its desk leaves, and these never get shorter from line to
/// line.
pub fn answers_are_at_beginnings<A: Allocator>()
    // Each answer that isn't given at a draft is at a beginning of that history, and these never get shorter from line
    // to line.
    // Refused: none, it has no code to edit.
    ensures at { (before now : SeatContent A) (history : List (Entry A)) (edits : List (Edit A))
        → IsSeatAfter before history edits now → IsPrefix history now.front }
    ensures begins { (start last : TalkingSeat A) (before after : List (Exchange A))
        (x : Exchange A) (history : List (Entry A))
        → AreExchanges start (before ++ x ∷ after) last → IsPrefix last.seat.front history
        → IsPrefix x.next.seat.front history }
    ensures grows { (start last : TalkingSeat A) (before between after : List (Exchange A))
        (x y : Exchange A) → AreExchanges start (before ++ x ∷ (between ++ y ∷ after)) last
        → IsPrefix x.next.seat.front y.next.seat.front }
{}

/// A draft begins from the movie of its history, and a `commit` that is made makes just the movie that the draft showed: a history that
/// begins with what the seat has seen, and has as many edits as when the draft began, has the movie from which it began; and where a
/// `commit` leaves no draft, the movie of the history that the seat has then seen is the draft's.
pub fn commits_make_drafts<A: Allocator>()
    // A draft is one of the movie at which it began, and a `commit` after which no draft is open has made just the
    // draft's movie.
    // Refused: none, it has no code to edit.
    ensures base { (start : SeatContent A) (last : TalkingSeat A) (exchanges : List (Exchange A))
        (draft : DraftContent) (history : List (Entry A))
        → AreExchanges (talking start None) exchanges last → last.draft ≡ Some draft
        → IsPrefix last.seat.front history → length history ≡ draft.at
        → movie_of history ≡ draft.base }
    ensures made { (start : SeatContent A) (seat : TalkingSeat A) (exchanges : List (Exchange A))
        (x : Exchange A) (draft : DraftContent)
        → AreExchanges (talking start None) exchanges seat → IsExchange seat x
        → seat.draft ≡ Some draft → x.heard ≡ Some Commit → x.next.draft ≡ None
        → movie_of x.next.seat.front ≡ draft.movie }
{}

/// An answer to `history` that begins before the two edits of a commit, or with the first of them, has both or neither. And it has an edit
/// where the history has one, so who asks on from answer to answer comes to its end.
pub fn parts_have_whole_commits<A: Allocator>()
    // The part of a history from a place on has both edits of a commit that come there or later, or neither; and it is
    // empty only where the history has no entry there. The history is a beginning of the one that a closed desk leaves,
    // which is legal.
    // Refused: none, it has no code to edit.
    ensures whole { (base new : MovieContent) (first next : Edit A) (seat serial : ℕ)
        (before after : List (Entry A)) (from : ℕ) → IsStroke base new (first ∷ next ∷ [])
        → from ≤ length before
        → from + length (one_part (drop from
        (before ++ (entries_from seat serial (first ∷ next ∷ []) ++ after))))
        ≢ length before + 1 }
    ensures goes_on { (history front : List (Entry A)) (from : ℕ) → IsLegal history
        → IsPrefix front history → from < length front
        → 0 < length (one_part (drop from front)) }
{}
