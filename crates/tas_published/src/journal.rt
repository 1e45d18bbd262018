//! A journal that grows by the entries of one step, all or none of them.

ghost use Rattle.std.specs.Prelude.{◌≡◌, List, [], ◌∷◌, ◌++◌, length, IfOk, MatchResult};
ghost use Rattle.tas_published.specs.declared.entry.Entry.{Entry};
ghost use Rattle.tas_published.specs.Strokes.{edits_of, edits_in, entries_in};

use crate::{Entry, Stroke};
use std::alloc::{AllocError, Allocator, Global};
use tas_movie::Edit;

/// The entries that one step adds to the history.
#[derive(Drop)]
pub enum Step<A: Allocator = Global> {
    /// One entry.
    One(Entry<A>),
    /// Two entries, one after the other.
    Two(Entry<A>, Entry<A>),
}

/// Adds an entry to a journal, and returns a second copy of its edit. Where a growth is refused the journal is as it was.
fn add_entry<A: Allocator + Copy>(
    journal: &mut Vec<Entry<A>, A>,
    next: Entry<A>,
) -> Result<Edit<A>, AllocError>
    ensures edit { IfOk result (λ edit. edit ≡ next.edit) }
    ensures journal { MatchResult result (λ _. journal.new.items ≡ journal.old.items ++ next ∷ [])
        (λ _. journal.new.items ≡ journal.old.items) }
{
    let edit = next.edit.copy(*journal.allocator())?;
    journal.push(next)?;
    Ok(edit)
}

/// Adds the entries of a step to a journal, and returns a second copy of their edits. Where a growth is refused the journal is
/// as it was.
pub fn add_step<A: Allocator + Copy>(
    journal: &mut Vec<Entry<A>, A>,
    step: Step<A>,
) -> Result<Stroke<A>, AllocError>
    ensures stroke { IfOk result (λ stroke. edits_of stroke ≡ edits_in (entries_in step)) }
    ensures journal { MatchResult result
        (λ _. journal.new.items ≡ journal.old.items ++ entries_in step)
        (λ _. journal.new.items ≡ journal.old.items) }
{
    match step {
        Step::One(next) => Ok(Stroke::One(add_entry(journal, next)?)),
        Step::Two(next, last) => {
            let kept = journal.as_slice().len();
            let edit = add_entry(journal, next)?;
            match add_entry(journal, last) {
                Ok(second) => Ok(Stroke::Two(edit, second)),
                Err(error) => {
                    take_back(journal, kept);
                    Err(error)
                }
            }
        }
    }
}

/// Takes all entries but the first `kept` out of a journal again.
pub fn take_back<A: Allocator>(journal: &mut Vec<Entry<A>, A>, kept: usize)
    ensures { (before added : List (Entry A)) → journal.old.items ≡ before ++ added
        → length before ≡ kept → journal.new.items ≡ before }
{
    journal.truncate(kept);
}
