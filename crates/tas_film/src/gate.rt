//! Where work may be held up.

/// Where work on a thread may be held up, outside any lock.
pub trait Gate {
    /// Comes back when this piece may go on: the index of a worker's run of frames in an export, of a target in a desk's work,
    /// each counted from 0.
    fn pass(&self, piece: usize);
}
