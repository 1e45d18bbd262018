//! Parts of the history.
//!
//! Entries are copied under the lock, as many as the caller asks for: readers' copies have the movie and its version,
//! but not the entries.

ghost use Rattle.std.specs.Prelude.{◌≡◌, take, drop, IfOk};

use crate::Entry;
use std::alloc::{AllocError, Allocator, Global};

/// Some entries of the history.
#[derive(Drop)]
pub struct History<A: Allocator = Global> {
    /// How many edits the history has.
    pub at: u64,
    /// The entries, in order.
    pub entries: Vec<Entry<A>, A>,
}

/// Copies of the entries from the place `from` on, counted from 0, and of no more than `most`.
pub(crate) fn part_of<A: Allocator + Copy>(
    alloc: A,
    entries: &[Entry<A>],
    from: usize,
    most: usize,
) -> Result<Vec<Entry<A>, A>, AllocError>
    ensures { IfOk result (λ part. part.items ≡ take most (drop from entries.now)) }
{
    let from = from.min(entries.len());
    let rest = &entries[from..];
    let count = most.min(rest.len());
    copies(alloc, &rest[..count])
}

/// Copies of these entries.
fn copies<A: Allocator + Copy>(
    alloc: A,
    entries: &[Entry<A>],
) -> Result<Vec<Entry<A>, A>, AllocError>
    ensures { IfOk result (λ copies. copies.items ≡ entries.now) }
{
    let mut copies = Vec::with_capacity(alloc, entries.len())?;
    for entry in entries {
        copies.push(entry.copy(alloc)?)?;
    }
    Ok(copies)
}
