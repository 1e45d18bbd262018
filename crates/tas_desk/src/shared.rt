//! What a seat's zone gained.

/// A seat's zone gained the states under the lock.
#[derive(Clone, Copy, Debug, PartialEq, Eq)]
pub struct Shared {
    /// How many edits the history has.
    pub at: u64,
    /// How many states were gained that weren't kept before.
    pub gained: usize,
}
