//! How far a search goes, and with how many workers.

/// How many workers play a layer at most.
pub const MAX_WORKERS: usize = 16;

/// How far a search goes, and with how many workers.
#[derive(Clone, Copy, Debug, PartialEq, Eq)]
pub struct Limits {
    /// How many choices a sequence has, or at most has.
    pub count: usize,
    /// How many different states of one number of choices are kept at most.
    pub states: usize,
    /// How many workers play a layer: 1 to [`MAX_WORKERS`], and the nearest of these for another number. No answer depends on it.
    pub workers: usize,
}
