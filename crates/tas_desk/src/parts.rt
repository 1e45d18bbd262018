//! Parts of the history that are reported at once.
//!
//! Entries don't say which of them one step made. But a conversation's commit makes two edits only as a deletion and an
//! insertion in its place, so no part ends between two such of one seat. The second of them is never the first of two
//! others. So a part ends one entry earlier at most, and since a deletion puts in nothing, two such fit into one part.

ghost use Rattle.std.specs.Prelude.{◌≡◌, length, drop, IfOk};
ghost use Rattle.tas_desk.specs.Parts.{most_entries, inputs_of, inserts_at, is_exchange, may_be_one, is_between, last_end, one_part};
ghost use Rattle.tas_desk.specs.Seats.{KeepsZone};
ghost use Rattle.tas_desk.specs.Inside.Parting.{HasRoom};

use crate::locked_session::CloseOnDrop;
use crate::{Desk, Entry, History, Name, Seat};
use std::alloc::{AllocError, Allocator};
use std::sync::Wait;
use tas_movie::{Edit, MAX_FRAMES};

/// How many entries a part of the history has at most.
pub const MAX_ENTRIES: usize = 256;

/// How many inputs an edit puts in.
fn inputs_of<A: Allocator>(edit: &Edit<A>) -> usize
    ensures { result ≡ inputs_of edit.now }
{
    match edit {
        Edit::Insert { inputs, .. } => inputs.as_slice().len(),
        Edit::Replace { inputs, .. } => inputs.as_slice().len(),
        Edit::Load(_) | Edit::Delete { .. } => 0,
    }
}

/// Whether an edit is an insertion at this place.
fn inserts_at<A: Allocator>(edit: &Edit<A>, place: usize) -> bool
    ensures { result ≡ inserts_at edit.now place }
{
    match edit {
        Edit::Insert { at, .. } => *at == place,
        Edit::Load(_) | Edit::Replace { .. } | Edit::Delete { .. } => false,
    }
}

/// Whether an edit is a deletion, and the next one an insertion in its place.
fn is_exchange<A: Allocator>(edit: &Edit<A>, next: &Edit<A>) -> bool
    ensures { result ≡ is_exchange edit.now next.now }
{
    match edit {
        Edit::Delete { at, .. } => inserts_at(next, *at),
        Edit::Load(_) | Edit::Insert { .. } | Edit::Replace { .. } => false,
    }
}

/// Whether two entries may be the two edits of one commit.
fn may_be_one<A: Allocator>(entry: &Entry<A>, next: &Entry<A>) -> bool
    ensures { result ≡ may_be_one entry.now next.now }
{
    entry.seat == next.seat && is_exchange(&entry.edit, &next.edit)
}

/// Whether the end of the first `count` entries is between two such.
fn is_between<A: Allocator>(entries: &[Entry<A>], count: usize) -> bool
    ensures { result ≡ is_between entries.now count }
{
    let len = entries.len();
    if count == 0 {
        return false;
    }
    if len <= count {
        return false;
    }
    let last = count - 1;
    may_be_one(&entries[last], &entries[count])
}

/// How many of these entries there is room for in a part: [`MAX_ENTRIES`] at most, and no more inputs than a movie has.
fn room_for<A: Allocator>(entries: &[Entry<A>]) -> usize
    ensures { HasRoom entries.now result }
{
    let most = entries.len().min(MAX_ENTRIES);
    let mut room = MAX_FRAMES;
    for k in 0..most {
        let more = inputs_of(&entries[k].edit);
        if more > room {
            return k;
        }
        room -= more;
    }
    most
}

/// How many of these entries are the part that begins them.
fn part_len<A: Allocator>(entries: &[Entry<A>]) -> usize
    ensures { result ≡ last_end entries.now most_entries }
{
    let count = room_for(entries);
    if is_between(entries, count) {
        return count - 1;
    }
    count
}

/// How many entries the part has that begins with the one at the place `from`, counted from 0.
pub(crate) fn part_len_at<A: Allocator>(entries: &[Entry<A>], from: usize) -> usize
    ensures { result ≡ last_end (drop from entries.now) most_entries }
{
    let from = from.min(entries.len());
    let rest = &entries[from..];
    part_len(rest)
}

impl<N: Name, W: CloseOnDrop, A: Allocator + Copy> Desk<N, W, A> {
    /// Copies the part of the history that begins at the place `from`, counted from 0: as many entries as there are, but at most
    /// [`MAX_ENTRIES`], whose edits put in no more inputs than a movie has at most, and not the first alone of two that may be the two
    /// edits of one commit: a seat's deletion, and its insertion in that place. Nothing else is copied under the lock. The copies take
    /// their memory from `alloc`. After `AllocError` the seat has seen the history all the same.
    pub fn history_part<R: Wait>(
        &self,
        rt: &R,
        alloc: A,
        seat: &mut Seat<N, A>,
        from: usize,
    ) -> Result<History<A>, AllocError>
        // A part of the history has the longest beginning of the front's entries from a place on that has at most 256 of
        // them, puts in at most 262,144 inputs, and doesn't end between a deletion and the same seat's insertion in that
        // place; and how many entries the front has; the seat's zone stays.
        // Refused: part_ends_between_the_edits_of_a_commit, part_is_counted_in_entries_alone,
        // part_has_a_hundred_entries_more, part_puts_in_two_movies_inputs, part_has_255_entries_at_most*,
        // edits_of_two_seats_are_a_commits*, insertion_at_an_earlier_place_is_a_commits*,
        // replaced_inputs_are_not_counted*.
        ensures seat { KeepsZone seat.old seat.new }
        ensures at { IfOk result (λ history. history.at ≡ length seat.new.front) }
        ensures entries { IfOk result
            (λ history. history.entries.items ≡ one_part (drop from seat.new.front)) }
    {
        self.locked.lock(rt).history_part(rt, alloc, seat, from)
    }
}
