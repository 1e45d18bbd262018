//! What a search is asked for.

ghost use Rattle.std.specs.Prelude.{◌≡◌, ℕ, IfSome, IfNone};
ghost use Rattle.tas_search.specs.SearchText.{IsRangeOf, Divides};

use crate::movie_search::SearchRange;
use crate::space_part::SpacePart;

/// The numbers and the goal of a search.
#[derive(Clone, Copy, Debug)]
pub struct Search<'a> {
    /// The first frame that a choice is made for, counted from 0.
    pub from: usize,
    /// How many frames a sequence has, or at most has.
    pub frames: usize,
    /// For how many frames a choice is held: 1 or more, and `frames` is a multiple of it.
    pub hold: usize,
    /// How many different states of one number of choices are kept at most.
    pub states: usize,
    /// How many workers play a layer: 1 to 16. No answer depends on it.
    pub workers: usize,
    /// Which part of the space is searched.
    pub part: SpacePart,
    /// Whether the choices are those of a file. Else they are the left stick's ([`stick_choices`](crate::stick_choices)).
    pub has_choices: bool,
    /// Whether the names are those of a file. Else there are none.
    pub has_names: bool,
    /// The text of the goal.
    pub goal: &'a [u8],
}

/// The range of a search; `None` where its frames are no whole number of choices.
pub(crate) fn range_of(search: &Search<'_>) -> Option<SearchRange>
    // A search has a whole number of choices, or no range.
    // Refused: frames_left_over_are_dropped, part_is_left_out_of_the_range.
    ensures some { IfSome result
        (IsRangeOf search.now.from search.now.frames search.now.hold search.now.states search.now.part) }
    ensures workers { IfSome result (λ range. range.workers ≡ search.now.workers) }
    ensures none { IfNone result (Divides search.now.hold search.now.frames → ⊥) }
{
    if search.hold == 0 {
        return None;
    }
    if search.frames % search.hold != 0 {
        return None;
    }
    Some(SearchRange {
        from: search.from,
        count: search.frames / search.hold,
        hold: search.hold,
        states: search.states,
        workers: search.workers,
        part: search.part,
    })
}
