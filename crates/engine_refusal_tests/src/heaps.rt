//! Memory of which one growth is refused.

use refusals::Refusing;
use std::alloc::Global;

/// The allocator that a run gets.
pub type Heap = Refusing<Global>;

/// Nothing here grows so often.
pub const NEVER: u64 = 1_000_000_000;

/// Memory that refuses the growth with this number, counted from 1.
pub fn refusing(alloc: Global, number: u64) -> Heap {
    Refusing::new(alloc, number.max(1))
}

/// Counts anew: the growth with this number is refused from now on, counted from 1.
pub fn refuse(heap: &Heap, number: u64) {
    heap.refuse(number.max(1));
}
