//! What a reader of the published movie has seen.

use crate::Entry;
use std::alloc::{Allocator, Global};
use std::collections::LinkedList;

/// The history whose movie was seen last, and the registry of its versions, by the three numbers that name it, once it is
/// known. It stands in contracts alone: no value of it is made.
pub struct ReaderView<A: Allocator = Global> {
    /// Whether the registry is known, which it is once a history was seen.
    pub known: bool,
    /// The number of the registry's invariant.
    pub number: u64,
    /// The name of the registry's log.
    pub log_name: u64,
    /// The name of the registry's cells.
    pub cells_name: u64,
    /// The history whose movie was seen last.
    pub seen: LinkedList<Entry<A>, A>,
}
