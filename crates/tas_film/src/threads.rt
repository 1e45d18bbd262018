//! Visits on threads of their own.
//!
//! One visit of each item, on a thread of its own; the contract says what it left there. The library's `for_each_mut`
//! says the same, but makes one of its calls on its caller's thread. A visit whose thread can't be started is made by
//! the caller's thread, after all others were started. No test can refuse a thread; by hand, under `prlimit`, the bytes
//! were the same.
//!
//! A visitor is a trait and no `Fn`: a closure is proved for each of the three ways to call it, a method once.

ghost use Rattle.std.specs.Prelude.{◌≡◌, ℕ, ◌+◌, ◌<◌, length, slice_index_or};
ghost use Rattle.std.specs.Thread.{IsSync, IsSend};

use std::thread::{Threads, join_mut};

/// What is done with each item.
pub trait Visitor<T> {
    // What a visit asks of an item's place and the item.
    ghost accepts: { Self → ℕ → T → Type 0 };

    // What a visit of the item at a place may leave there.
    ghost changes: { Self → ℕ → T → T → Type 0 };

    /// Visits the item at this place.
    fn visit(&self, at: usize, item: &mut T)
        requires { accepts self.now at item.old }
        ensures { changes self.now at item.old item.new };
}

/// Visits each item, each on a thread of its own. This thread starts them one after the other, and makes last the visits
/// whose thread can't be started.
pub fn for_each_on_threads<R: Threads + Sync, T: Send, V: Visitor<T> + Sync>(
    rt: &R,
    items: &mut [T],
    visitor: &V,
)
    requires { (k : ℕ) (d : T) → k < length items.old
        → V.accepts visitor.now k (slice_index_or items.old k d) }
    // Each item is changed as a visit of its place and the item changes it.
    // Refused: each_call_gets_the_next_place.
    ensures { (k : ℕ) (d : T) → k < length items.old
        → V.changes visitor.now k (slice_index_or items.old k d) (slice_index_or items.new k d) }
{
    on_threads_from(rt, visitor, 0, items.len(), items);
}

/// The visits of the items from a place on, up to the last one, which stands before `end`.
#[cycle(threads)]
fn on_threads_from<R: Threads + Sync, T: Send, V: Visitor<T> + Sync>(
    rt: &R,
    visitor: &V,
    at: usize,
    end: usize,
    items: &mut [T],
)
    requires count { at + length items.old ≡ end }
    requires accepts { (k : ℕ) (d : T) → k < length items.old
        → V.accepts visitor.now (at + k) (slice_index_or items.old k d) }
    ensures { (k : ℕ) (d : T) → k < length items.old
        → V.changes visitor.now (at + k) (slice_index_or items.old k d)
        (slice_index_or items.new k d) }
{
    if let Some((first, others)) = items.split_first_mut() {
        first_and_others(rt, visitor, at, first, at + 1, end, others);
    }
}

/// The visit of one item, and those of the items after it.
#[cycle(threads)]
fn first_and_others<R: Threads + Sync, T: Send, V: Visitor<T> + Sync>(
    rt: &R,
    visitor: &V,
    at: usize,
    first: &mut T,
    next: usize,
    end: usize,
    others: &mut [T],
)
    requires first { V.accepts visitor.now at first.old }
    requires count { next + length others.old ≡ end }
    requires others { (k : ℕ) (d : T) → k < length others.old
        → V.accepts visitor.now (next + k) (slice_index_or others.old k d) }
    ensures first { V.changes visitor.now at first.old first.new }
    ensures others { (k : ℕ) (d : T) → k < length others.old
        → V.changes visitor.now (next + k) (slice_index_or others.old k d)
        (slice_index_or others.new k d) }
{
    let mut front = ||
        requires { V.accepts visitor.now at first.now }
        ensures { V.changes visitor.entry.now at first.entry.now first.exit.now }
    { visitor.visit(at, first) };
    let mut back = ||
        requires { IsSync R.row × IsSync V.row × IsSend T.row × (next + length others.now ≡ end)
            × ((k : ℕ) (d : T) → k < length others.now
            → V.accepts visitor.now (next + k) (slice_index_or others.now k d)) }
        ensures { (k : ℕ) (d : T) → k < length others.entry.now
            → V.changes visitor.entry.now (next + k) (slice_index_or others.entry.now k d)
            (slice_index_or others.exit.now k d) }
    { on_threads_from(rt, visitor, next, end, others) };
    join_mut(rt, &mut front, &mut back);
}
